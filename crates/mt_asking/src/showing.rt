//! The lines of what an output shows.

ghost use Rattle.std.specs.Prelude.{◌≡◌, IfErr, IfOk};
ghost use Rattle.mt_ctl.specs.Text.{shown_text};
ghost use Rattle.mt_asking.specs.Asked.{shown_on};
ghost use Rattle.mt_asking.specs.Made.{IsMade, StopsMaking};
ghost use Rattle.mt_asking.specs.Rows.{IsUnicast};

use mt_ctl::{Shown, show, write_shown};
use mt_endings::Fault;
use mt_files::read_output;
use mt_model::SessionRow;
use std::alloc::{AllocError, Global};

/// A line for each datagram of an output, opened on the other side of the session of a row.
pub(crate) fn shown(alloc: Global, row: &SessionRow, text: &[u8]) -> Result<Vec<u8>, Fault>
    requires { IsUnicast row.now }
    ensures made { IfOk result (λ lines. IsMade lines.items (shown_on row.now text.now)) }
    ensures stops { IfErr result (λ fault. StopsMaking fault (shown_on row.now text.now)) }
{
    let sent = match read_output(alloc, text) {
        Ok(sent) => sent,
        Err(fault) => return Err(Fault::of_recording(fault)),
    };
    let Ok(items) = show(alloc, row, &sent) else {
        return Err(Fault::Memory);
    };
    match shown_text(alloc, items.as_slice()) {
        Ok(lines) => Ok(lines),
        Err(_) => Err(Fault::Memory),
    }
}

// A line for each item.
fn shown_text(alloc: Global, items: &[Shown]) -> Result<Vec<u8>, AllocError>
    ensures { IfOk result (λ text. text.items ≡ shown_text items.now) }
{
    let mut text = Vec::new(alloc);
    for item in items {
        write_shown(item, &mut text)?;
    }
    Ok(text)
}
