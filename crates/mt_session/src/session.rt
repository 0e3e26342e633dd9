//! How a session begins, and its messages in and out.

ghost use Rattle.std.specs.Prelude.{◌≡◌, ◌≢◌, ◌↔◌, ◌+◌, ◌^◌, ◌<◌, ◌≤◌, ℕ, List, [], ◌∷◌, ◌++◌, length, IfOk, IfErr, OnOk, IfSome, IfNone, OnErr};
ghost use Rattle.mt_model.specs.declared.tables.access.Auth.TheVariants.{Group};
ghost use Rattle.mt_model.specs.declared.texts.config.SessionRow.{SessionRow};
ghost use Rattle.mt_frame.specs.Reading.{protocol_at};
ghost use Rattle.mt_session.specs.declared.fault.SealFault.TheVariants.{Memory};
ghost use Rattle.mt_session.specs.Opening.{Arrival, arrived, received, framed as framed_as, is_foreign as is_foreign_to, is_other as is_other_than};
ghost use Rattle.mt_session.specs.Sessions.{HasCounter, Message, StandsFor, arrivals_by, counters, next_counter as next_counter_of, next_datagram, refusal};

use crate::datagram::{datagram, datagram_length, nonce, nonce_node, open};
use crate::fault::SealFault;
use crate::kept::Session;
use crate::opening::{Dropped, Opened};
use mt_ccm::Cipher;
use mt_frame::{MessageHeader, ProtocolHeader, read_message, read_protocol};
use mt_model::SessionRow;
use mt_model::limits::{LAST_COUNTER, SENT_BYTES};
use mt_tlv::Bytes;
use mt_window::{Seen, Window};
use std::alloc::Global;

impl Session {
    /// A session that has let in and sealed nothing. The row is of a unicast session, PASE or CASE,
    /// whose two ids are not 0.
    pub fn new(row: SessionRow) -> Session
        requires auth { row.auth ≢ Group }
        requires session { row.session ≢ 0 }
        requires peer_session { row.peer_session ≢ 0 }
        ensures { StandsFor result row [] [] }
    {
        let window = Window::new(row.counter_in);
        let counter = row.counter_out;
        let cipher_in = Cipher::new(&row.key_in);
        let cipher_out = Cipher::new(&row.key_out);
        let (alloc, row) = with_allocator(row);
        Session {
            alloc,
            row,
            cipher_in,
            cipher_out,
            window,
            counter,
        }
    }

    /// Opens a datagram of at most 65,535 bytes in place. It is tested in this order: the message
    /// header, the session's id, the node ids that it names, the seal, the protocol header, the window.
    /// Only a message that is let in changes the session. It takes no memory.
    pub fn unseal<'a>(&mut self, datagram: &'a mut [u8]) -> Result<Opened<'a>, Dropped>
        requires { length datagram.old < 2 ^ 16 }
        // What it answers is what the tests answer, over all that was let in before.
        ensures answer { (row : SessionRow) (arrivals : List Arrival) (messages : List Message)
            → StandsFor self.old row arrivals messages → arrived result ≡ received row (counters arrivals) datagram.old }
        // What is let in is remembered.
        ensures stands { (row : SessionRow) (arrivals : List Arrival) (messages : List Message)
            → StandsFor self.old row arrivals messages
            → StandsFor self.new row (arrivals_by arrivals (arrived result)) messages }
        // What is dropped changes nothing.
        ensures dropped { IfErr result (λ _. self.new ≡ self.old) }
    {
        let (header, len) = match read_message(datagram) {
            Ok(found) => found,
            Err(fault) => return Err(Dropped::Frame(fault)),
        };
        if header.session != self.row.session {
            return Err(Dropped::OtherSession);
        }
        if is_foreign(&self.row, &header) {
            return Err(Dropped::Source);
        }
        let nonce = nonce(
            header.counter,
            nonce_node(self.row.auth, self.row.peer_node),
        );
        let (head, sealed) = datagram.split_at_mut(len);
        match open(&self.cipher_in, &nonce, head, sealed) {
            Some(count) => self.let_in(header.counter, &sealed[..count]),
            None => Err(Dropped::NotSealed),
        }
    }

    // The tests of a plaintext: its protocol header, and the window.
    fn let_in<'a>(&mut self, counter: u32, plain: &'a [u8]) -> Result<Opened<'a>, Dropped>
        ensures answer { (row : SessionRow) (arrivals : List Arrival) (messages : List Message)
            → StandsFor self.old row arrivals messages
            → arrived result ≡ framed_as row (counters arrivals) counter plain.now (protocol_at plain.now) }
        ensures stands { (row : SessionRow) (arrivals : List Arrival) (messages : List Message)
            → StandsFor self.old row arrivals messages
            → StandsFor self.new row (arrivals_by arrivals (arrived result)) messages }
        ensures dropped { IfErr result (λ _. self.new ≡ self.old) }
    {
        let (header, len) = match read_protocol(plain) {
            Ok(found) => found,
            Err(fault) => return Err(Dropped::Frame(fault)),
        };
        match self.window.accept(counter) {
            Seen::Fresh => Ok(Opened {
                counter,
                header,
                payload: &plain[len..],
            }),
            Seen::Duplicate => Err(Dropped::Duplicate { counter, header }),
            Seen::Old => Err(Dropped::Old),
        }
    }

    /// The counter of the next message.
    pub fn next_counter(&self) -> u32
        ensures { (row : SessionRow) (arrivals : List Arrival) (messages : List Message)
            → StandsFor self.now row arrivals messages → result ≡ next_counter_of row messages }
    {
        self.counter
    }

    /// The datagram of the next message. Nothing changes: `count` takes the message's counter, once nothing
    /// can keep it from being sent any more.
    pub fn sealed(&self, header: &ProtocolHeader, payload: &[u8]) -> Result<Bytes, SealFault>
        // What it answers is the one datagram under the next counter.
        ensures datagram { (row : SessionRow) (arrivals : List Arrival) (messages : List Message)
            → StandsFor self.now row arrivals messages
            → IfOk result (λ bytes. bytes ≡ next_datagram row messages header.now payload.now) }
        // Exhausted exactly where no counter is left, and TooLong exactly where one is left and the datagram
        // would have more than 1,232 bytes.
        ensures refused { (row : SessionRow) (arrivals : List Arrival) (messages : List Message)
            → StandsFor self.now row arrivals messages
            → IfSome (refusal row messages header.now payload.now) (λ fault. result ≡ Err fault) }
        // Otherwise only memory may lack.
        ensures memory { (row : SessionRow) (arrivals : List Arrival) (messages : List Message)
            → StandsFor self.now row arrivals messages
            → IfNone (refusal row messages header.now payload.now) (IfErr result (λ fault. fault ≡ Memory)) }
        // What is sealed has a counter.
        ensures counter { OnOk result (HasCounter self.now) }
    {
        if self.counter == LAST_COUNTER {
            return Err(SealFault::Exhausted);
        }
        if datagram_length(header, payload) > SENT_BYTES {
            return Err(SealFault::TooLong);
        }
        let bytes = datagram(
            self.alloc,
            &self.row,
            &self.cipher_out,
            self.counter,
            header,
            payload,
        )?;
        Ok(bytes)
    }

    /// Counts a message as sealed: it takes the counter that `sealed` had for it. It takes no memory.
    pub fn count(&mut self)
        requires { HasCounter self.old }
        ensures { (row : SessionRow) (arrivals : List Arrival) (messages : List Message) (message : Message)
            → StandsFor self.old row arrivals messages
            → StandsFor self.new row arrivals (messages ++ message ∷ []) }
    {
        self.counter += 1;
    }

    /// Seals the next message into its datagram. A message that is sealed takes a counter.
    pub fn seal(&mut self, header: &ProtocolHeader, payload: &[u8]) -> Result<Bytes, SealFault>
        // What it answers is the one datagram under the next counter.
        ensures datagram { (row : SessionRow) (arrivals : List Arrival) (messages : List Message)
            → StandsFor self.old row arrivals messages
            → IfOk result (λ bytes. bytes ≡ next_datagram row messages header.now payload.now) }
        // Exhausted exactly where no counter is left, and TooLong exactly where one is left and the datagram
        // would have more than 1,232 bytes.
        ensures refused { (row : SessionRow) (arrivals : List Arrival) (messages : List Message)
            → StandsFor self.old row arrivals messages
            → IfSome (refusal row messages header.now payload.now) (λ fault. result ≡ Err fault) }
        // Otherwise only memory may lack.
        ensures memory { (row : SessionRow) (arrivals : List Arrival) (messages : List Message)
            → StandsFor self.old row arrivals messages
            → IfNone (refusal row messages header.now payload.now) (IfErr result (λ fault. fault ≡ Memory)) }
        // What is sealed is remembered.
        ensures stands { (row : SessionRow) (arrivals : List Arrival) (messages : List Message)
            → StandsFor self.old row arrivals messages
            → OnOk result (StandsFor self.new row arrivals
            (messages ++ record { header = header.now; payload = payload.now } ∷ [])) }
        // What is refused changes nothing.
        ensures kept { OnErr result (self.new ≡ self.old) }
    {
        let bytes = self.sealed(header, payload)?;
        self.count();
        Ok(bytes)
    }
}

// Whether a message names another sender than the peer, or another receiver than the node.
fn is_foreign(row: &SessionRow, header: &MessageHeader) -> bool
    ensures { result ≡ is_foreign_to row.now header.now }
{
    is_other(header.source, row.peer_node) || is_other(header.destination, row.own_node)
}

// Whether a node id that may be left out is another than this.
fn is_other(id: Option<u64>, node: u64) -> bool
    ensures { result ≡ is_other_than id node }
{
    match id {
        Some(id) => id != node,
        None => false,
    }
}

// A row, and where it takes memory.
fn with_allocator(row: SessionRow) -> (Global, SessionRow)
    ensures { result.1 ≡ row }
{
    let mut row = row;
    let key = row.root_key.into_vec();
    let alloc = *key.allocator();
    row.root_key = Bytes::from_vec(key);
    (alloc, row)
}
