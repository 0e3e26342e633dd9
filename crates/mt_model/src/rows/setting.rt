//! Rows and entries that are set in place, in memory that is there already.

ghost use Rattle.std.specs.Prelude.{◌≡◌, ◌+◌, ◌≤◌, ◌<◌, ◌∷◌, ◌++◌, not, nat_lt, drop, filter, if◌then◌else◌, length, max, take, IsTrue, slice_range, vec_capacity, vec_len};
ghost use Rattle.mt_model.specs.texts.Config.{ascend_from};
ghost use Rattle.mt_model.specs.rows.Order.{are_ascending};
ghost use Rattle.mt_model.specs.rows.Setting.{is_above, is_at, is_below, is_entry_above, is_entry_below, with_entries, with_rows};

use crate::node::action::Values;
use crate::rows::place::{Place, Row, stands_before};
use crate::tables::access::{AclEntries, AclEntry};

/// The rows of this fabric at this place are these. It takes no memory, where there is room for them.
pub(crate) fn set_rows(rows: &mut Vec<Row>, place: &Place, fabric: u8, values: Values)
    requires ascending { IsTrue (are_ascending rows.old.items) }
    requires room { vec_len rows.old + length values ≤ vec_capacity rows.old }
    ensures items { rows.new.items ≡ with_rows place.now fabric values rows.old.items }
    ensures len { vec_len rows.new ≤ vec_len rows.old + length values }
    ensures capacity { vec_capacity rows.new ≡ vec_capacity rows.old }
{
    let (begin, end) = rows_within(rows.as_slice(), place, fabric);
    let mut at = begin;
    for value in values.into_vec() {
        let row = Row {
            place: *place,
            fabric,
            value,
        };
        put(rows, at, end, row);
        at += 1;
    }
    cut(rows, at, end);
}

/// The entries of this fabric are these. It takes no memory, where there is room for them.
pub fn set_entries(entries: &mut Vec<AclEntry>, fabric: u8, new: AclEntries)
    requires ascending { IsTrue (ascend_from 0 entries.old.items) }
    requires room { vec_len entries.old + length new ≤ vec_capacity entries.old }
    ensures items { entries.new.items ≡ with_entries fabric new entries.old.items }
    ensures len { vec_len entries.new ≤ vec_len entries.old + length new }
    ensures capacity { vec_capacity entries.new ≡ vec_capacity entries.old }
{
    let (begin, end) = entries_within(entries.as_slice(), fabric);
    let mut at = begin;
    for entry in new.into_vec() {
        put(entries, at, end, entry);
        at += 1;
    }
    cut(entries, at, end);
}

// From where to where the rows of this fabric at this place stand: behind those below, and before those above.
pub(crate) fn rows_within(rows: &[Row], place: &Place, fabric: u8) -> (usize, usize)
    requires { IsTrue (are_ascending rows.now) }
    ensures order { result.0 ≤ result.1 }
    ensures within { result.1 ≤ length rows.now }
    ensures below { take result.0 rows.now ≡ filter (is_below place.now fabric) rows.now }
    ensures above { drop result.1 rows.now ≡ filter (is_above place.now fabric) rows.now }
    ensures at { slice_range rows.now result.0 result.1 ≡ filter (is_at place.now fabric) rows.now }
{
    let begin = rows.partition_point(
        |row: &Row| -> bool
            ensures { result ≡ is_below place.entry.now fabric row.now }
        { is_below(place, fabric, row) },
    );
    let end = rows.partition_point(
        |row: &Row| -> bool
            ensures { result ≡ not (is_above place.entry.now fabric row.now) }
        { !is_above(place, fabric, row) },
    );
    (begin, end)
}

fn is_below(place: &Place, fabric: u8, row: &Row) -> bool
    ensures { result ≡ is_below place.now fabric row.now }
{
    stands_before(&row.place, place) || (row.place == *place && row.fabric < fabric)
}

fn is_above(place: &Place, fabric: u8, row: &Row) -> bool
    ensures { result ≡ is_above place.now fabric row.now }
{
    stands_before(place, &row.place) || (*place == row.place && fabric < row.fabric)
}

// From where to where the entries of this fabric stand.
fn entries_within(entries: &[AclEntry], fabric: u8) -> (usize, usize)
    requires { IsTrue (ascend_from 0 entries.now) }
    ensures order { result.0 ≤ result.1 }
    ensures within { result.1 ≤ length entries.now }
    ensures below { take result.0 entries.now ≡ filter (is_entry_below fabric) entries.now }
    ensures above { drop result.1 entries.now ≡ filter (is_entry_above fabric) entries.now }
{
    let begin = entries.partition_point(
        |entry: &AclEntry| -> bool
            ensures { result ≡ nat_lt entry.now.fabric fabric }
        { entry.fabric < fabric },
    );
    let end = entries.partition_point(
        |entry: &AclEntry| -> bool
            ensures { result ≡ not (nat_lt fabric entry.now.fabric) }
        { entry.fabric <= fabric },
    );
    (begin, end)
}

// Puts an item over the one that stands here, where that is before the end of a range, and between those
// that stand here otherwise.
fn put<T: Drop>(items: &mut Vec<T>, at: usize, end: usize, item: T)
    requires within { at ≤ vec_len items.old }
    requires range { end ≤ vec_len items.old }
    requires room { end ≤ at → vec_len items.old < vec_capacity items.old }
    ensures items { items.new.items ≡ take at items.old.items ++ item ∷ drop (if nat_lt at end then at + 1 else at) items.old.items }
    ensures len { vec_len items.new ≡ (if nat_lt at end then vec_len items.old else vec_len items.old + 1) }
    ensures capacity { vec_capacity items.new ≡ vec_capacity items.old }
{
    if at < end {
        items[at] = item;
    } else {
        items.insert(at, item).unwrap();
    }
}

// Takes away what stands from here to the end of a range.
fn cut<T: Drop>(items: &mut Vec<T>, at: usize, end: usize)
    requires { end ≤ vec_len items.old }
    ensures items { items.new.items ≡ take at items.old.items ++ drop (max at end) items.old.items }
    ensures len { vec_len items.new ≤ vec_len items.old }
    ensures capacity { vec_capacity items.new ≡ vec_capacity items.old }
{
    for _ in at..end {
        drop(items.remove(at));
    }
}
