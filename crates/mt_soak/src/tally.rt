//! What was sent over a run, kept in little memory however long the run is.

ghost use Rattle.std.specs.Prelude.{◌≡◌, ◌++◌, ◌∷◌, [], List, ℕ, IfOk, OnOk, OnErr, codes, decimal};
ghost use Rattle.hex.specs.Hex.{encode_lower};
ghost use Rattle.mt_model.specs.declared.texts.recording.Sent.{Sent};
ghost use Rattle.mt_files.specs.Lines.{ended, text_of};
ghost use Rattle.mt_files.specs.Output.{output_text};
ghost use Rattle.mt_soak.specs.Summary.{AreCountsOf, IsTallyOf, codes_in, codes_sent, line_where_counted, message_codes, status_lines, summary_text};

use crate::codes::count_codes;
use itoa::Buffer;
use mt_files::write_sent;
use mt_model::{Sent, To};
use mt_tlv::{TlvFault, read};
use sha2::{Digest, Sha256};
use std::alloc::{AllocError, Global};

/// How many messages were sent, how often each status code stands in them, and the digest of their lines.
/// Contracts speak of the messages that it was told of.
#[derive(Drop)]
pub struct Tally {
    hasher: Sha256,
    sent: u64,
    // How often each status code was told of, by the code.
    counts: [u64; 256],
    // The lines of one event.
    text: Vec<u8>,
}

impl Tally {
    /// Of no message. It takes no memory.
    pub fn new(alloc: Global) -> Tally
        ensures { IsTallyOf result [] }
    {
        Tally {
            hasher: Sha256::new(),
            sent: 0,
            counts: [0; 256],
            text: Vec::new(alloc),
        }
    }

    /// Takes in what one event sent. Where memory runs out, nothing of it is taken in. The memory that it
    /// keeps is that for the lines of one event.
    pub fn note(&mut self, alloc: Global, sent: &[Sent]) -> Result<(), AllocError>
        ensures ok { (messages : List Sent) → IsTallyOf self.old messages → OnOk result (IsTallyOf self.new (messages ++ sent.now)) }
        ensures err { (messages : List Sent) → IsTallyOf self.old messages → OnErr result (IsTallyOf self.new messages) }
    {
        write_lines(sent, &mut self.text)?;
        let mut counts = self.counts;
        count(alloc, sent, &mut counts)?;
        self.hasher.update(self.text.as_slice());
        self.counts = counts;
        self.sent = self.sent.saturating_add(sent.len() as u64);
        Ok(())
    }

    /// The summary of a run of so many events: how many events and messages there were, a line for each
    /// status code that occurs, and the digest of the output text.
    pub fn summary(self, alloc: Global, events: u64) -> Result<Vec<u8>, AllocError>
        ensures { (messages : List Sent) → IsTallyOf self messages → IfOk result (λ text. text.items ≡ summary_text events messages) }
    {
        let Tally {
            hasher,
            sent,
            counts,
            text: _,
        } = self;
        let mut out = Vec::new(alloc);
        push_number(b"events ", events, &mut out)?;
        push_number(b"sent ", sent, &mut out)?;
        push_statuses(&counts, &mut out)?;
        push_digest(hasher.finalize(), &mut out)?;
        Ok(out)
    }
}

// The lines of messages, in place of what was there.
fn write_lines(sent: &[Sent], text: &mut Vec<u8>) -> Result<(), AllocError>
    ensures { OnOk result (text.new.items ≡ output_text sent.now) }
{
    text.clear();
    'each: for message in sent {
        write_sent(message, text)?;
    }
    Ok(())
}

// Adds the status codes of messages to those that were counted before.
fn count(alloc: Global, sent: &[Sent], counts: &mut [u64; 256]) -> Result<(), AllocError>
    ensures { OnOk result ((statuses : List ℕ) → AreCountsOf statuses counts.old → AreCountsOf (statuses ++ codes_sent sent.now) counts.new) }
{
    'each: for message in sent {
        count_message(alloc, message, counts)?;
    }
    Ok(())
}

// The payload is read first, since there is something to count only where it can be.
fn count_message(alloc: Global, message: &Sent, counts: &mut [u64; 256]) -> Result<(), AllocError>
    ensures { OnOk result ((statuses : List ℕ) → AreCountsOf statuses counts.old → AreCountsOf (statuses ++ message_codes message.now) counts.new) }
{
    match message.to {
        To::Session { .. } => Ok(()),
        To::Plain { opcode, .. } => count_payload(alloc, opcode, message.bytes.as_slice(), counts),
    }
}

fn count_payload(
    alloc: Global,
    opcode: u8,
    payload: &[u8],
    counts: &mut [u64; 256],
) -> Result<(), AllocError>
    ensures { OnOk result ((statuses : List ℕ) → AreCountsOf statuses counts.old → AreCountsOf (statuses ++ codes_in opcode payload.now) counts.new) }
{
    match read(alloc, payload) {
        Ok((_tag, _value, _length)) => {
            count_codes(opcode, payload, counts);
            return Ok(());
        }
        Err(TlvFault::Memory) => return Err(AllocError),
        Err(_) => return Ok(()),
    }
}

// A word, a space and a number, as a line.
fn push_number(word: &[u8], number: u64, out: &mut Vec<u8>) -> Result<(), AllocError>
    ensures { OnOk result (out.new.items ≡ out.old.items ++ ended (word.now ++ decimal number)) }
{
    let mut buffer = Buffer::new();
    out.extend_from_slice(word)?;
    out.extend_from_slice(buffer.format(number).as_bytes())?;
    out.push(b'\n')?;
    Ok(())
}

// A line for each status code that occurs, ascending.
fn push_statuses(counts: &[u64; 256], out: &mut Vec<u8>) -> Result<(), AllocError>
    ensures { (statuses : List ℕ) → AreCountsOf statuses counts.now → OnOk result (out.new.items ≡ out.old.items ++ text_of (status_lines statuses)) }
{
    'each: for code in 0..256usize {
        push_status(code as u8, counts[code], out)?;
    }
    Ok(())
}

fn push_status(code: u8, count: u64, out: &mut Vec<u8>) -> Result<(), AllocError>
    ensures { OnOk result (out.new.items ≡ out.old.items ++ text_of (line_where_counted code count)) }
{
    if count == 0 {
        return Ok(());
    }
    out.extend_from_slice(b"status ")?;
    push_hex(&[code], out)?;
    push_number(b" ", count, out)
}

// The digest, as a line.
fn push_digest(digest: [u8; 32], out: &mut Vec<u8>) -> Result<(), AllocError>
    ensures { OnOk result (out.new.items ≡ out.old.items ++ ended (codes "sha256 " ++ encode_lower digest)) }
{
    out.extend_from_slice(b"sha256 ")?;
    push_hex(&digest, out)?;
    out.push(b'\n')?;
    Ok(())
}

// Bytes in lower case hex.
fn push_hex(bytes: &[u8], out: &mut Vec<u8>) -> Result<(), AllocError>
    ensures { OnOk result (out.new.items ≡ out.old.items ++ encode_lower bytes.now) }
{
    let text = hex::encode(*out.allocator(), bytes)?;
    out.extend_from_slice(text.as_bytes())
}
