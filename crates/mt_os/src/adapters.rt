//! A source over any reader and a sink over any writer.

ghost use Rattle.std.specs.Prelude.{◌≡◌, ◌≤◌, None, IfSome, false, length};

use crate::ATTEMPTS;
use mt_outside::{Failed, Sink, Source};
use std::io::{ErrorKind, Read, Write};

/// A source over a reader, or over a file that could not be opened, of which each read fails.
#[derive(Drop)]
pub struct ReaderSource<R: Read + Drop> {
    reader: Option<R>,
    was_read: bool,
    faults: u64,
}

impl<R: Read + Drop> ReaderSource<R> {
    /// A source over this reader, of which no call has failed yet.
    pub fn new(reader: Option<R>) -> Self
        ensures reader { result.reader ≡ reader }
        ensures was_read { result.was_read ≡ false }
        ensures faults { result.faults ≡ 0 }
    {
        ReaderSource {
            reader,
            was_read: false,
            faults: 0,
        }
    }

    /// Whether a read was asked of it, also one that failed.
    pub fn was_read(&self) -> bool
        ensures { result ≡ self.now.was_read }
    {
        self.was_read
    }
}

impl<R: Read + Drop> Source for ReaderSource<R> {
    ghost left = { λ _. None };

    ghost faults = { λ s. s.faults };

    fn read(&mut self, into: &mut [u8]) -> Result<usize, Failed> {
        self.was_read = true;
        if let Some(reader) = &mut self.reader
            && let Some(count) = read_again(reader, into)
        {
            return Ok(count);
        }
        self.faults = self.faults.saturating_add(1);
        Err(Failed)
    }
}

/// A sink over a writer, without a buffer of its own. A writer that takes nothing of a piece that is
/// not empty has failed.
#[derive(Drop)]
pub struct WriterSink<W: Write + Drop> {
    writer: W,
    faults: u64,
}

impl<W: Write + Drop> WriterSink<W> {
    /// A sink over this writer, of which no call has failed yet.
    pub fn new(writer: W) -> Self
        ensures writer { result.writer ≡ writer }
        ensures faults { result.faults ≡ 0 }
    {
        WriterSink { writer, faults: 0 }
    }
}

impl<W: Write + Drop> Sink for WriterSink<W> {
    ghost written = { λ _. None };

    ghost faults = { λ s. s.faults };

    fn write(&mut self, from: &[u8]) -> Result<usize, Failed> {
        if let Some(count) = write_again(&mut self.writer, from)
            && (count > 0 || from.is_empty())
        {
            return Ok(count);
        }
        self.faults = self.faults.saturating_add(1);
        Err(Failed)
    }
}

// What a reader gives, as soon as no signal interrupts the call; None where it fails otherwise.
fn read_again<R: Read>(reader: &mut R, into: &mut [u8]) -> Option<usize>
    ensures { IfSome result (λ count. count ≤ length into.old) }
{
    for _ in 0..ATTEMPTS {
        match reader.read(into) {
            Ok(count) => return Some(count),
            Err(error) if error.kind() == ErrorKind::Interrupted => {}
            Err(_) => return None,
        }
    }
    None
}

// What a writer takes, as soon as no signal interrupts the call; None where it fails otherwise.
fn write_again<W: Write>(writer: &mut W, from: &[u8]) -> Option<usize>
    ensures { IfSome result (λ count. count ≤ length from.now) }
{
    for _ in 0..ATTEMPTS {
        match writer.write(from) {
            Ok(count) => return Some(count),
            Err(error) if error.kind() == ErrorKind::Interrupted => {}
            Err(_) => return None,
        }
    }
    None
}
