//! A line of a recording that is none, with what is wrong, in words.

ghost use Rattle.std.specs.Io.{StartsWith};

use crate::page::Page;
use mt_model::LineKind;

/// The most bytes of a faulty line that are shown.
const SHOWN: usize = 120;

/// How much room most faulty lines take, with what is wrong.
const ROOM: usize = 512;

/// Adds what is wrong with the line of this number, counted from 1, and the line. Only printable characters of ASCII stand
/// there as they are: all else is escaped, as `\r`, `\t`, or two digits of hex behind `\x`, and a backslash is `\\`. Where
/// there is no memory for that, the page knows.
pub fn show_faulty_line(page: &mut Page, recording: &[u8], number: u64, kind: LineKind)
    ensures kept { StartsWith page.new page.old }
{
    let line = line_of(recording, number);
    let mut words = page.fresh(ROOM);
    words.text("Line ");
    words.number(number);
    words.text(" of the recording is faulty: ");
    words.text(wrong(kind));
    words.text(".");
    if line.ends_with(b"\r\n") {
        words.text(" It ends in CR LF, and a line ends in LF alone.");
    }
    words.text("\n  ");
    show_escaped(&mut words, without_end(line));
    words.end_line();
    page.append(&words)
}

// What is wrong with a line.
fn wrong(kind: LineKind) -> &'static str {
    match kind {
        LineKind::Head => "it is not the head `matter-record 1`",
        LineKind::Form => {
            "no line begins with this letter and has this number of fields, one space between two, or a stop has no such fate"
        }
        LineKind::Number => {
            "a decimal field is no number, has a leading zero, or is out of its range"
        }
        LineKind::Hex => {
            "a field in hex has other characters than digits, the wrong number of them or too many, or node and CATs name nobody who can ask"
        }
        LineKind::Time => "its time is before that of an earlier line",
    }
}

// The front of a line, with what can't be printed as it would stand in a source.
fn show_escaped(page: &mut Page, line: &[u8]) {
    for byte in line.get(..SHOWN).unwrap_or(line) {
        match *byte {
            b'\\' => page.text("\\\\"),
            b'\r' => page.text("\\r"),
            b'\t' => page.text("\\t"),
            b' '..=b'~' => page.byte(*byte),
            _ => {
                page.text("\\x");
                page.octets(&[*byte]);
            }
        }
    }
    if line.len() > SHOWN {
        page.text("..");
    }
}

// The line of this number, counted from 1, with its LF where it has one.
fn line_of(text: &[u8], number: u64) -> &[u8] {
    let mut rest = text;
    for _ in 1..number {
        rest = rest.get(first_line(rest)..).unwrap_or(&[]);
    }
    rest.get(..first_line(rest)).unwrap_or(rest)
}

// How many bytes the first line has, its LF among them.
fn first_line(text: &[u8]) -> usize {
    match text.iter().position(|byte| *byte == b'\n') {
        Some(end) => end.saturating_add(1),
        None => text.len(),
    }
}

// A line without its LF.
fn without_end(line: &[u8]) -> &[u8] {
    match line {
        [front @ .., b'\n'] => front,
        _ => line,
    }
}
