//! What a case says. It is `NAME|WORDS|CONFIGURATION|JOURNAL|ARRIVALS|OUTLETS|FAILS|TURNS|SETTLED|PLACES`:
//!
//! - WORDS: the words of the command line;
//! - CONFIGURATION: the name of the configuration's file;
//! - JOURNAL: what the disk holds at first, in hex, or `=` for the disk of the case before, as that left it;
//! - ARRIVALS: what comes to the intake, as lines of a recording without its head, in which `/` ends a line: a `D` line for a datagram,
//!   a `T` line where nothing comes;
//! - OUTLETS: how many outlets there are;
//! - FAILS: the numbers of the calls that fail, of the configuration's source, the disk, the intake, each outlet and the output, with `,`
//!   between the five;
//! - TURNS: the numbers of the threads in the order in which they act, the reporter's being that behind the last worker's; none where
//!   they act as they come;
//! - SETTLED: how many of the lines that `settle` writes are told;
//! - PLACES: of which places of the disk's file the bytes are told.

ghost use Rattle.std.specs.Prelude.{IfOk};
ghost use Rattle.mt_outside.specs.Network.{AreInOrder};

use cases_page::{hex_bytes, id, no_case, number, word};
use mt_files::events;
use mt_model::Event;
use mt_outside::{
    Arrival, MemDisk, MemIntake, MemOutlet, MemSink, MemSource, Packet, are_in_order,
};
use std::alloc::{AllocError, Global};
use std::{fs, io};

/// A case: its fields, and its configuration's text.
#[derive(Drop)]
pub(crate) struct Case<'a> {
    fields: Vec<&'a str>,
    text: Vec<u8>,
}

/// The case of a line.
pub(crate) fn read<'a>(rt: &HostRuntime, line: &'a str) -> io::Result<Case<'a>> {
    let fields: Vec<&'a str> = line.split('|').collect(rt.alloc())?;
    let text = fs::read(rt, word(&fields, 2))?;
    Ok(Case { fields, text })
}

impl Case<'_> {
    /// What it is called.
    pub(crate) fn name(&self) -> &str {
        word(&self.fields, 0)
    }

    /// The words of the command line.
    pub(crate) fn words(&self, alloc: Global) -> Result<Vec<String>, AllocError> {
        words_of(alloc, word(&self.fields, 1))
    }

    /// The configuration's text.
    pub(crate) fn text(&self) -> &[u8] {
        &self.text
    }

    /// The source of the configuration.
    pub(crate) fn source(&self, alloc: Global) -> Result<MemSource, AllocError> {
        MemSource::new(alloc, &self.text, &self.fails(alloc, 0)?)
    }

    /// Whether the node has never started before.
    pub(crate) fn is_first(&self) -> bool {
        word(&self.fields, 3).is_empty()
    }

    /// The disk; `last` is that of the case before.
    pub(crate) fn disk(&self, alloc: Global, last: MemDisk) -> Result<MemDisk, AllocError> {
        let journal = word(&self.fields, 3);
        if journal == "=" {
            return Ok(last);
        }
        MemDisk::new(alloc, &hex_bytes(alloc, journal), &self.fails(alloc, 1)?)
    }

    /// The intake.
    pub(crate) fn intake(&self, alloc: Global) -> io::Result<MemIntake> {
        let arrivals = arrivals(alloc, word(&self.fields, 4))?;
        Ok(MemIntake::new(alloc, &arrivals, &self.fails(alloc, 2)?)?)
    }

    /// The outlets.
    pub(crate) fn outlets(&self, alloc: Global) -> Result<Vec<MemOutlet>, AllocError> {
        let fails = self.fails(alloc, 3)?;
        let mut outlets = Vec::new(alloc);
        for _ in 0..id(&self.fields, 5) {
            outlets.push(MemOutlet::new(alloc, &fails)?)?;
        }
        Ok(outlets)
    }

    /// The output.
    pub(crate) fn output(&self, alloc: Global) -> Result<MemSink, AllocError> {
        MemSink::new(alloc, &self.fails(alloc, 4)?)
    }

    /// The order in which the threads act.
    pub(crate) fn turns(&self, alloc: Global) -> Result<Vec<u64>, AllocError> {
        numbers(alloc, word(&self.fields, 7))
    }

    /// How many of the lines that `settle` writes are told.
    pub(crate) fn settled(&self) -> u64 {
        number(&self.fields, 8)
    }

    /// Of which places of the disk's file the bytes are told.
    pub(crate) fn places(&self, alloc: Global) -> Result<Vec<u64>, AllocError> {
        numbers(alloc, word(&self.fields, 9))
    }

    // The numbers of the calls that fail, of what has this place among the five.
    fn fails(&self, alloc: Global, place: usize) -> Result<Vec<u64>, AllocError> {
        let lists: Vec<&str> = word(&self.fields, 6).split(',').collect(alloc)?;
        numbers(alloc, word(&lists, place))
    }
}

/// The words of a text, between which spaces stand.
pub(crate) fn words_of(alloc: Global, text: &str) -> Result<Vec<String>, AllocError> {
    let mut words = Vec::new(alloc);
    for word in text.split_whitespace() {
        words.push(String::from_str(alloc, word)?)?;
    }
    Ok(words)
}

// The numbers of a text, between which spaces stand.
fn numbers(alloc: Global, text: &str) -> Result<Vec<u64>, AllocError> {
    let mut all = Vec::new(alloc);
    for word in text.split_whitespace() {
        if let Ok(number) = word.parse::<u64>() {
            all.push(number)?;
        }
    }
    Ok(all)
}

// What comes.
fn arrivals(alloc: Global, lines: &str) -> io::Result<Vec<Arrival>>
    ensures { IfOk result (λ all. AreInOrder 0 all.items) }
{
    let lines = lines.replace(alloc, '/', "\n")?;
    let mut recording = String::from_str(alloc, "matter-record 1\n")?;
    recording.push_str(lines.as_str())?;
    let Ok(events) = events(alloc, recording.as_bytes()) else {
        return Err(no_case());
    };
    let all = arrivals_of(alloc, events.as_slice())?;
    if !are_in_order(&all) {
        return Err(no_case());
    }
    Ok(all)
}

fn arrivals_of(alloc: Global, events: &[Event]) -> io::Result<Vec<Arrival>> {
    let mut all = Vec::new(alloc);
    for event in events {
        all.push(arrival_of(alloc, event)?)?;
    }
    Ok(all)
}

fn arrival_of(alloc: Global, event: &Event) -> io::Result<Arrival> {
    match event {
        Event::Datagram { ms, peer, bytes } => Ok(Arrival::Datagram {
            now: *ms,
            from: *peer,
            bytes: Packet::from_slice(alloc, bytes.as_slice())?,
        }),
        Event::Tick { ms } => Ok(Arrival::Quiet { now: *ms }),
        _ => Err(no_case()),
    }
}
