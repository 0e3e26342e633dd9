//! Reading a source to its end, and writing all of some bytes.

ghost use Rattle.std.specs.Prelude.{◌≡◌, ◌≢◌, ◌≤◌, ◌<◌, length, vec_len, IfOk, IfSome, OnOk, OnErr};
ghost use Rattle.mt_outside.specs.Stream.{GavePart, HasCause, ReadToEnd, RoseByOne, Took, TookLess};

use crate::stream::{Failed, Sink, Source};
use std::alloc::Global;

// How many bytes one call of a source may give.
const PIECE: usize = 4096;

/// Why a source was not read to its end.
#[derive(Clone, Copy, Debug, PartialEq, Eq)]
pub enum ReadFault {
    /// The source failed.
    Failed,
    /// It has more bytes than the limit.
    TooLong,
    /// No memory was left for the bytes.
    Memory,
}

/// Reads a source to its end, which has to come within `limit` bytes.
/// After an error what was read so far is lost.
pub fn read_all<A: Source>(
    alloc: Global,
    source: &mut A,
    limit: usize,
) -> Result<Vec<u8>, ReadFault>
    ensures to_end { IfOk result (λ bytes.
        ReadToEnd (A.left source.old) (A.left source.new) bytes.items) }
    ensures within { IfOk result (λ bytes. vec_len bytes ≤ limit) }
    ensures too_long { result ≡ Err ReadFault.TooLong →
        IfSome (A.left source.old) (λ left. limit < length left) }
    ensures failed { result ≡ Err ReadFault.Failed →
        RoseByOne (A.faults source.old) (A.faults source.new) }
    ensures part { OnErr result (GavePart (A.left source.old) (A.left source.new)) }
    ensures never_falls { A.faults source.old ≤ A.faults source.new }
    ensures calm { result ≢ Err ReadFault.Failed → A.faults source.new ≡ A.faults source.old }
{
    let mut all = Vec::new(alloc);
    let mut piece = [0; PIECE];
    'pieces: loop {
        let Ok(count) = source.read(&mut piece) else {
            return Err(ReadFault::Failed);
        };
        if count == 0 {
            return Ok(all);
        }
        if limit - all.len() < count {
            return Err(ReadFault::TooLong);
        }
        if all.extend_from_slice(&piece[..count]).is_err() {
            return Err(ReadFault::Memory);
        }
    }
}

/// Writes all of the bytes, in as many calls as the sink asks for.
/// Where it fails, fewer than all of them were taken, and those stay written.
pub fn write_all<W: Sink>(sink: &mut W, bytes: &[u8]) -> Result<(), Failed>
    ensures took { OnOk result (Took (W.written sink.old) (W.written sink.new) bytes.now) }
    ensures less { OnErr result (TookLess (W.written sink.old) (W.written sink.new) bytes.now) }
    ensures cause { HasCause (W.faults sink.old) (W.faults sink.new) result }
{
    let mut at = 0;
    'pieces: while at < bytes.len() {
        at += sink.write(&bytes[at..])?;
    }
    Ok(())
}
