//! How often each status code stands in a message.

ghost use Rattle.std.specs.Prelude.{◌≡◌, ◌≤◌, ◌<◌, ◌++◌, ℕ, List, Ok, None, length, option_to_list, slice_index};
ghost use Rattle.mt_tlv.specs.declared.value.Tag.{Tag};
ghost use Rattle.mt_tlv.specs.Tree.{Tree};
ghost use Rattle.mt_tlv.specs.Limits.{IsElement};
ghost use Rattle.mt_tlv.specs.Parts.{Piece, Place, start, next_at};
ghost use Rattle.mt_tlv.specs.Runs.{Comes};
ghost use Rattle.mt_soak.specs.Paths.{path_of};
ghost use Rattle.mt_soak.specs.Codes.{codes_of, AreCounted};
ghost use Rattle.mt_soak.specs.Scan.{all_told, outermost};

use crate::codes::paths::{Step, path_to_codes};
use crate::codes::place::{At, behind, number_in};
use mt_tlv::{Cursor, cursor_comes_over_the_element};

/// Adds one to the count of each status code that the message of this opcode has, as often as the code
/// stands in it. A count at its type's end stays there. The message is the element in front of the
/// payload, whatever follows it; at a fault of the encoding the counting stops. It takes no memory.
pub fn count_codes(opcode: u8, payload: &[u8], counts: &mut [u64; 256])
    // Of a message in front of the payload, in whatever widths, each code is counted.
    ensures counted { (tag : Tag) (message : Tree) (bytes rest : List ℕ) → IsElement tag message bytes → payload.now ≡ bytes ++ rest
        → AreCounted (codes_of opcode message) counts.old counts.new }
    // Whatever the payload is, no count falls.
    ensures risen { (code : ℕ) → code < 256 → slice_index counts.old code ≤ slice_index counts.new code }
    // A message of another opcode has no codes, whatever the payload is.
    ensures others { path_of opcode ≡ None → counts.new ≡ counts.old }
{
    cursor_comes_over_the_element();
    if let Some(path) = path_to_codes(opcode) {
        count_on_path(path, payload, counts);
    }
}

// Each part of an element takes a byte at least, so there are no more parts than bytes.
fn count_on_path(path: &[Step], payload: &[u8], counts: &mut [u64; 256])
    ensures counted { (xs : List Piece) (end : Place) → Comes (start payload.now) xs end → next_at end ≡ Ok (None, end) → length xs ≤ length payload.now
        → AreCounted (all_told path.now outermost xs) counts.old counts.new }
    ensures risen { (code : ℕ) → code < 256 → slice_index counts.old code ≤ slice_index counts.new code }
{
    let mut cursor = Cursor::new(payload);
    let mut at = At {
        on_path: 0,
        passed_over: 0,
    };
    for _ in 0..payload.len() {
        match cursor.next() {
            Ok(Some(part)) => {
                count(number_in(path, at, &part), counts);
                at = behind(path, at, &part);
            }
            Ok(None) => return,
            Err(_) => return,
        }
    }
}

fn count(number: Option<u64>, counts: &mut [u64; 256])
    ensures { AreCounted (option_to_list number) counts.old counts.new }
{
    if let Some(code) = number
        && code < 256
    {
        counts[code as usize] = counts[code as usize].saturating_add(1);
    }
}
