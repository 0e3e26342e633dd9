//! What is sent: answers to messages, and reports of subscriptions.

ghost use Rattle.std.specs.Prelude.{◌≡◌, ◌≢◌, ◌++◌, ◌∷◌, ◌+◌, ◌%◌, [], List, ℕ, true, false, Option, IsSome, IfOk, IfErr, OnOk, OnErr, Some, None, Ok, Err};
ghost use Rattle.mt_model.specs.declared.texts.config.SessionRow.{SessionRow};
ghost use Rattle.mt_model.specs.declared.messages.message.Payload.{Payload};
ghost use Rattle.mt_session.specs.declared.fault.SealFault.TheVariants.{Exhausted, TooLong, Memory};
ghost use Rattle.mt_session.specs.Opening.{Arrival};
ghost use Rattle.mt_session.specs.Sessions.{HasCounter, Message, StandsFor};
ghost use Rattle.mt_exchange.specs.Opened.{nothing};
ghost use Rattle.mt_exchange.specs.Parts.{IsUntaken, sending_by, first_of, rest_of};
ghost use Rattle.mt_exchange.specs.Sending.{acknowledgement as acknowledgement_on, acknowledging as acknowledging_with, behind_payload as behind_payload_of, behind_sending, free_id as first_free_id, header_of, header_to_send, message, payload_to_send, sealed_with, sealing, sending as sending_on, sending_kept as sending_kept_of};
ghost use Rattle.mt_exchange.specs.Runs.{Happening, IsRunOf, IsSessionOf, answer_of, answered, report_of, reported, run};

use crate::exchange::{Exchange, Key, Owed};
use crate::exchanges::Exchanges;
use crate::payloads::report_tags;
use mt_frame::ProtocolHeader;
use mt_model::opcode::REPORT_DATA;
use mt_model::{ExactCopy, Payload, Payloads};
use mt_session::{SealFault, Session};
use mt_tlv::Bytes;
use std::alloc::{AllocError, Global};

/// The protocol ids of the secure channel and of the interaction model.
const SECURE_CHANNEL: u16 = 0;

const INTERACTION_MODEL: u16 = 1;

/// The opcode of the standalone acknowledgement, in the secure channel.
const ACKNOWLEDGEMENT: u8 = 0x10;

/// What is sent.
#[derive(Drop)]
pub enum Sending {
    Silence,
    /// An acknowledgement of this counter alone.
    Alone(u32),
    /// A payload that asks for an acknowledgement, behind which others are kept.
    Reliably(Payload, Payloads),
    /// A payload on no exchange, which asks for none.
    Plainly(Payload),
}

impl Exchanges {
    /// Sends what is due on an exchange: the first payload of a reply, of which the others are kept, or the
    /// next kept one behind its `Next`, and else the acknowledgement of this counter alone, where there is one.
    /// A payload carries the acknowledgement too. On an exchange that is not open a payload is sent once.
    ///
    /// It is refused as the session refuses the message. Where no counter is left nothing is kept of the
    /// payloads; after any other refusal all is as it was.
    pub fn answer(
        &mut self,
        session: &mut Session,
        key: Key,
        acknowledge: Option<u32>,
        payloads: Payloads,
        now: u64,
    ) -> Result<Option<Bytes>, SealFault>
        // What is sent.
        ensures sent { (row : SessionRow) (happenings : List Happening) → IsRunOf self.old row happenings → IsSessionOf session.old row happenings
            → IfOk result (λ sent. answer_of row (run row happenings) key acknowledge payloads ≡ Ok sent) }
        // Which refusal it is, unless memory runs out.
        ensures refused { (row : SessionRow) (happenings : List Happening) → IsRunOf self.old row happenings → IsSessionOf session.old row happenings
            → IfErr result (λ fault. fault ≢ Memory → answer_of row (run row happenings) key acknowledge payloads ≡ Err fault) }
        // The answer has happened.
        ensures stands { (row : SessionRow) (happenings : List Happening) → IsRunOf self.old row happenings → IsSessionOf session.old row happenings
            → result ≢ Err TooLong → result ≢ Err Memory
            → IsRunOf self.new row (happenings ++ answered key acknowledge payloads now ∷ []) }
        ensures session_stands { (row : SessionRow) (happenings : List Happening) → IsRunOf self.old row happenings → IsSessionOf session.old row happenings
            → result ≢ Err TooLong → result ≢ Err Memory
            → IsSessionOf session.new row (happenings ++ answered key acknowledge payloads now ∷ []) }
        // A refusal changes nothing, unless no counter is left.
        ensures kept { OnErr result (session.new ≡ session.old) }
        ensures too_long { result ≡ Err TooLong → self.new ≡ self.old }
        ensures memory { result ≡ Err Memory → self.new ≡ self.old }
    {
        let x = self.table.found(key)?;
        let counter = session.next_counter();
        let (sending, x) = chosen(x, acknowledge, payloads);
        match sealed(session, key, acknowledge, &sending) {
            Ok(sent) => {
                let x = behind_sent(self.alloc, x, sending, counter, now, &sent)?;
                self.table.put(x)?;
                count(session, &sent);
                Ok(sent)
            }
            Err(SealFault::Exhausted) => {
                let x = behind_exhausted(self.alloc, x, sending);
                self.table.put(x)?;
                Err(SealFault::Exhausted)
            }
            Err(SealFault::TooLong) => Err(SealFault::TooLong),
            Err(SealFault::Memory) => Err(SealFault::Memory),
        }
    }

    /// Begins an exchange for a report of a subscription, and sends its first payload; the others are
    /// kept. None where there is no payload, or all ids are those of open exchanges. A refusal changes
    /// nothing, and nothing is kept of the payloads then.
    pub fn report(
        &mut self,
        session: &mut Session,
        subscription: u32,
        payloads: Payloads,
        now: u64,
    ) -> Result<Option<Bytes>, SealFault>
        // What is sent.
        ensures sent { (row : SessionRow) (happenings : List Happening) → IsRunOf self.old row happenings → IsSessionOf session.old row happenings
            → IfOk result (λ sent. report_of row (run row happenings) payloads ≡ Ok sent) }
        // Which refusal it is, unless memory runs out.
        ensures refused { (row : SessionRow) (happenings : List Happening) → IsRunOf self.old row happenings → IsSessionOf session.old row happenings
            → IfErr result (λ fault. fault ≢ Memory → report_of row (run row happenings) payloads ≡ Err fault) }
        // The report has happened.
        ensures stands { (row : SessionRow) (happenings : List Happening) → IsRunOf self.old row happenings → IsSessionOf session.old row happenings
            → OnOk result (IsRunOf self.new row (happenings ++ reported subscription payloads now ∷ [])) }
        ensures session_stands { (row : SessionRow) (happenings : List Happening) → IsRunOf self.old row happenings → IsSessionOf session.old row happenings
            → OnOk result (IsSessionOf session.new row (happenings ++ reported subscription payloads now ∷ [])) }
        // A refusal changes nothing.
        ensures kept { OnErr result (self.new ≡ self.old) }
        ensures session_kept { OnErr result (session.new ≡ session.old) }
    {
        let Some(id) = self.free_id() else {
            return Ok(None);
        };
        let (first, rest) = first_and_rest(payloads);
        let Some(first) = first else {
            return Ok(None);
        };
        let key = Key {
            exchange: id,
            ours: true,
        };
        let counter = session.next_counter();
        let sending = Sending::Reliably(first, rest);
        let sent = sealed(session, key, None, &sending)?;
        let x = fresh_exchange(self.alloc, key, subscription);
        let x = behind_sent(self.alloc, x, sending, counter, now, &sent)?;
        self.table.put(x)?;
        self.next_id = id_after(id);
        count(session, &sent);
        Ok(sent)
    }

    // The first id from the next one on that is not that of an open exchange that the node began.
    pub(crate) fn free_id(&self) -> Option<u16>
        ensures { result ≡ first_free_id self.now.next_id self.now.table }
    {
        let mut id = self.next_id;
        'ids: for tried in 0..65536u32 {
            let key = Key {
                exchange: id,
                ours: true,
            };
            if !self.table.is_there(key) {
                return Some(id);
            }
            id = id_after(id);
        }
        None
    }
}

// The id behind another; 0 follows the last.
fn id_after(id: u16) -> u16
    ensures { result ≡ (id + 1) % 65536 }
{
    if id == 65535 { 0 } else { id + 1 }
}

// The first payload, and the others.
pub(crate) fn first_and_rest(payloads: Payloads) -> (Option<Payload>, Payloads)
    ensures first { result.0 ≡ first_of payloads }
    ensures rest { result.1 ≡ rest_of payloads }
{
    let mut items = payloads.into_vec();
    if items.is_empty() {
        return (None, Payloads::from_vec(items));
    }
    let first = items.remove(0);
    (Some(first), Payloads::from_vec(items))
}

// What is sent on what there is of an exchange. The kept payloads are taken out of it where the first of
// them is sent.
pub(crate) fn chosen(
    x: Exchange,
    acknowledge: Option<u32>,
    payloads: Payloads,
) -> (Sending, Exchange)
    ensures sending { sending_by result.0 ≡ sending_on x acknowledge payloads }
    ensures rest { (kept : List Payload) → record (result.1) { kept = kept } ≡ record x { kept = kept } }
    ensures kept { IsUntaken (sending_by result.0) → result.1 ≡ x }
{
    let (first, rest) = first_and_rest(payloads);
    if let Some(first) = first {
        if x.is_open() {
            return (Sending::Reliably(first, rest), x);
        }
        return (Sending::Plainly(first), x);
    }
    if !x.unanswered {
        return (acknowledging(acknowledge), x);
    }
    sending_kept(x, acknowledge)
}

// What is sent where the next kept payload may be sent.
fn sending_kept(x: Exchange, acknowledge: Option<u32>) -> (Sending, Exchange)
    ensures sending { sending_by result.0 ≡ sending_kept_of true x.kept acknowledge }
    ensures rest { (kept : List Payload) → record (result.1) { kept = kept } ≡ record x { kept = kept } }
    ensures kept { IsUntaken (sending_by result.0) → result.1 ≡ x }
{
    let mut x = x;
    if x.kept.is_empty() {
        return (acknowledging(acknowledge), x);
    }
    let mut items = x.kept.into_vec();
    let first = items.remove(0);
    let alloc = *items.allocator();
    x.kept = Payloads::new(alloc);
    (Sending::Reliably(first, Payloads::from_vec(items)), x)
}

fn acknowledging(acknowledge: Option<u32>) -> Sending
    ensures { sending_by result ≡ acknowledging_with acknowledge }
{
    match acknowledge {
        Some(counter) => Sending::Alone(counter),
        None => Sending::Silence,
    }
}

// The header of a payload on an exchange: the initiator flag is set where the node began it.
fn header(key: Key, reliable: bool, opcode: u8, acknowledge: Option<u32>) -> ProtocolHeader
    ensures { result ≡ header_of key reliable opcode acknowledge }
{
    ProtocolHeader {
        initiator: key.ours,
        reliable,
        opcode,
        exchange: key.exchange,
        protocol: INTERACTION_MODEL,
        vendor: None,
        acknowledged: acknowledge,
    }
}

// The header of an acknowledgement alone.
fn acknowledgement(key: Key, counter: u32) -> ProtocolHeader
    ensures { result ≡ acknowledgement_on key counter }
{
    ProtocolHeader {
        initiator: key.ours,
        reliable: false,
        opcode: ACKNOWLEDGEMENT,
        exchange: key.exchange,
        protocol: SECURE_CHANNEL,
        vendor: None,
        acknowledged: Some(counter),
    }
}

// The datagram of what is sent, if there is something. The session does not count it yet.
fn sealed(
    session: &Session,
    key: Key,
    acknowledge: Option<u32>,
    sending: &Sending,
) -> Result<Option<Bytes>, SealFault>
    ensures sent { (row : SessionRow) (arrivals : List Arrival) (messages : List Message) → StandsFor session.now row arrivals messages
        → IfOk result (λ sent. sealing row messages (message key acknowledge (sending_by sending.now)) ≡ Ok sent) }
    ensures refused { (row : SessionRow) (arrivals : List Arrival) (messages : List Message) → StandsFor session.now row arrivals messages
        → IfErr result (λ fault. fault ≢ Memory → sealing row messages (message key acknowledge (sending_by sending.now)) ≡ Err fault) }
    ensures counter { IfOk result (λ sent. IsSome sent → HasCounter session.now) }
{
    match header_to(key, acknowledge, sending) {
        None => Ok(None),
        Some(header) => seal(session, header, payload_of(sending)),
    }
}

// Counts what was sealed, if something was.
fn count(session: &mut Session, sent: &Option<Bytes>)
    requires { IsSome sent.now → HasCounter session.old }
    ensures { (row : SessionRow) (arrivals : List Arrival) (messages : List Message) (found : Option Message) → StandsFor session.old row arrivals messages
        → sealing row messages found ≡ Ok sent.now → StandsFor session.new row arrivals (sealed_with messages found (Ok sent.now)) }
{
    if sent.is_some() {
        session.count();
    }
}

// The header of what is sent, if there is something.
pub(crate) fn header_to(
    key: Key,
    acknowledge: Option<u32>,
    sending: &Sending,
) -> Option<ProtocolHeader>
    ensures { result ≡ header_to_send key acknowledge (sending_by sending.now) }
{
    match sending {
        Sending::Silence => None,
        Sending::Alone(counter) => Some(acknowledgement(key, *counter)),
        Sending::Reliably(payload, _) => Some(header(key, true, payload.opcode, acknowledge)),
        Sending::Plainly(payload) => Some(header(key, false, payload.opcode, acknowledge)),
    }
}

// The payload of what is sent.
pub(crate) fn payload_of(sending: &Sending) -> &[u8]
    ensures { result.now ≡ payload_to_send (sending_by sending.now) }
{
    match sending {
        Sending::Silence => &[],
        Sending::Alone(_) => &[],
        Sending::Reliably(payload, _) => payload.bytes.as_slice(),
        Sending::Plainly(payload) => payload.bytes.as_slice(),
    }
}

// The datagram of a message.
fn seal(
    session: &Session,
    header: ProtocolHeader,
    payload: &[u8],
) -> Result<Option<Bytes>, SealFault>
    ensures sent { (row : SessionRow) (arrivals : List Arrival) (messages : List Message) → StandsFor session.now row arrivals messages
        → IfOk result (λ sent. sealing row messages (Some (record { header = header; payload = payload.now })) ≡ Ok sent) }
    ensures refused { (row : SessionRow) (arrivals : List Arrival) (messages : List Message) → StandsFor session.now row arrivals messages
        → IfErr result (λ fault. fault ≢ Memory → sealing row messages (Some (record { header = header; payload = payload.now })) ≡ Err fault) }
    ensures counter { OnOk result (HasCounter session.now) }
{
    match session.sealed(&header, payload) {
        Ok(bytes) => Ok(Some(bytes)),
        Err(fault) => Err(fault),
    }
}

// An exchange behind what was sent on it.
fn behind_sent(
    alloc: Global,
    x: Exchange,
    sending: Sending,
    counter: u32,
    now: u64,
    sent: &Option<Bytes>,
) -> Result<Exchange, AllocError>
    ensures { IfOk result (λ y. y ≡ behind_sending (sending_by sending) counter now (Ok sent.now) x) }
{
    let mut x = x;
    match sending {
        Sending::Silence => {
            x.unanswered = false;
            Ok(x)
        }
        Sending::Alone(_) => {
            x.unanswered = false;
            Ok(x)
        }
        Sending::Plainly(_) => Ok(x),
        Sending::Reliably(payload, rest) => match sent {
            Some(bytes) => {
                let datagram = bytes.copy()?;
                let owed = Owed {
                    counter,
                    datagram,
                    sendings: 1,
                    last: now,
                };
                behind_payload(alloc, x, &payload, rest, owed)
            }
            None => Ok(without_payloads(alloc, x)),
        },
    }
}

// An exchange behind a payload that was sent on it.
fn behind_payload(
    alloc: Global,
    x: Exchange,
    payload: &Payload,
    rest: Payloads,
    owed: Owed,
) -> Result<Exchange, AllocError>
    requires { owed.sendings ≡ 1 }
    ensures { IfOk result (λ y. y ≡ behind_payload_of payload.now rest owed.counter owed.datagram owed.last x) }
{
    let mut x = x;
    x.unanswered = false;
    x.kept = rest;
    x.owed.push(owed)?;
    x.deadline = payload.deadline;
    x.confirmation = false;
    if payload.opcode == REPORT_DATA {
        let tags = report_tags(alloc, payload.bytes.as_slice())?;
        x.confirmation = !tags.suppressed;
        x.subscription = tags.subscription.or(x.subscription);
    }
    Ok(x)
}

// An exchange on which nothing was sent, since no counter is left.
fn behind_exhausted(alloc: Global, x: Exchange, sending: Sending) -> Exchange
    ensures { result ≡ behind_sending (sending_by sending) 0 0 (Err Exhausted) x }
{
    let mut x = x;
    match sending {
        Sending::Silence => x.unanswered = false,
        Sending::Alone(_) => x.unanswered = false,
        Sending::Plainly(_) => {}
        Sending::Reliably(_, _) => x = without_payloads(alloc, x),
    }
    x
}

// An exchange whose payloads are gone.
fn without_payloads(alloc: Global, x: Exchange) -> Exchange
    ensures { result ≡ record x { unanswered = false; kept = [] } }
{
    let mut x = x;
    x.unanswered = false;
    x.kept = Payloads::new(alloc);
    x
}

// The exchange that a report begins.
fn fresh_exchange(alloc: Global, key: Key, subscription: u32) -> Exchange
    ensures { result ≡ record (nothing key) { subscription = Some subscription } }
{
    let mut x = Exchange::nothing(alloc, key);
    x.subscription = Some(subscription);
    x
}
