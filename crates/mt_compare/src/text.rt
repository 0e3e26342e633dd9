//! How it is told where two runs differ.

ghost use Rattle.std.specs.Prelude.{◌≡◌, ◌++◌, IfOk, OnOk, Some};
ghost use Rattle.std.specs.Option.{option_map};
ghost use Rattle.mt_files.specs.Lines.{ended, text_of};
ghost use Rattle.mt_compare.specs.Found.{difference_in};
ghost use Rattle.mt_compare.specs.Sides.{line_in};
ghost use Rattle.mt_compare.specs.Text.{comparison_lines, head_line, line_at};

use crate::comparing::Difference;
use crate::side::LineOf;
use mt_files::write_event;
use mt_model::Event;
use std::alloc::{AllocError, Global};

/// The text of a comparison: `alike`, or three lines that tell the first mark that differs, and in which part.
pub fn comparison_text(alloc: Global, found: &Option<Difference>) -> Result<Vec<u8>, AllocError>
    ensures { IfOk result (λ text. text.items ≡ text_of (comparison_lines (option_map difference_in found.now))) }
{
    let mut text = Vec::new(alloc);
    match found {
        Some(difference) => push_difference(alloc, difference, &mut text)?,
        None => text.extend_from_slice(b"alike\n")?,
    }
    Ok(text)
}

fn push_difference(
    alloc: Global,
    difference: &Difference,
    text: &mut Vec<u8>,
) -> Result<(), AllocError>
    ensures { OnOk result (text.new.items ≡ text.old.items ++ text_of (comparison_lines (Some (difference_in difference.now)))) }
{
    push_head(alloc, difference, text)?;
    push_line(b"first ", difference.first, text)?;
    push_line(b"second ", difference.second, text)
}

fn push_head(alloc: Global, difference: &Difference, text: &mut Vec<u8>) -> Result<(), AllocError>
    ensures { OnOk result (text.new.items ≡ text.old.items ++ ended (head_line (difference_in difference.now))) }
{
    let number = difference.number;
    let part = difference.part.word();
    let head = format!(in alloc; "differ {number} {part}\n")?;
    text.extend_from_slice(head.as_bytes())
}

fn push_line(front: &[u8], line: Option<LineOf>, text: &mut Vec<u8>) -> Result<(), AllocError>
    ensures { OnOk result (text.new.items ≡ text.old.items ++ ended (front.now ++ line_at (option_map line_in line.entry))) }
{
    text.extend_from_slice(front)?;
    match line {
        Some(LineOf::Event(event)) => write_event(event, text),
        Some(LineOf::Stop { calls, fate }) => write_event(&Event::Stop { calls, fate }, text),
        None => text.extend_from_slice(b"end\n"),
    }
}
