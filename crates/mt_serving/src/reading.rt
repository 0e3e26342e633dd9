//! That the record of a book is read again as its lines.

ghost use Rattle.std.specs.Prelude.{◌≡◌, ◌≤◌, All, Ok, length, true};
ghost use Rattle.mt_files.specs.Form.{IsEvent};
ghost use Rattle.mt_files.specs.Recording.{recording_of};
ghost use Rattle.mt_model.specs.declared.limits.TheConstants.{RECORDING_BYTES, RECORDING_LINES};
ghost use Rattle.mt_starting.specs.mt_shared.Book.{AreFormed, are_in_time, is_timed, lines_in, record_size};
ghost use Rattle.mt_starting.specs.mt_shared.Entry.{Entry as AnyEntry};
ghost use Rattle.mt_serving.specs.Record.{record_of};

use mt_files::written_recordings_are_read;
use mt_sizes::lines_are_short;
use mt_starting::{Entry, events_have_types};

/// The record of a book is read as a recording of exactly its lines, and each call is of its types. It goes over the book once, and does
/// nothing.
pub(crate) fn record_is_read(book: &[Entry])
    requires formed { ∥ AreFormed book.now ∥₁ }
    requires in_time { are_in_time book.now ≡ true }
    requires timed { is_timed 0 book.now ≡ true }
    requires few { length (lines_in book.now) ≤ RECORDING_LINES }
    requires short { record_size book.now ≤ RECORDING_BYTES }
    ensures read { recording_of (record_of book.now) ≡ Ok (lines_in book.now) }
    ensures typed { All (λ (entry : AnyEntry). IsEvent entry.call.event) book.now }
{
    written_recordings_are_read();
    lines_are_short();
    for entry in book {
        events_have_types(&entry.call.event);
    }
}
