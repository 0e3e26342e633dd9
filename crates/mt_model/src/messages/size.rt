//! How many bytes an item of an answer takes.

ghost use Rattle.std.specs.Prelude.{◌≡◌, ◌≤◌, ◌++◌, [], ◌∷◌, length, min};
ghost use Rattle.mt_tlv.specs.Narrow.{end_of_container, length_and_value, narrow, narrow_elements, narrow_signed, narrow_string, narrow_unsigned, profile_number, tag_field};
ghost use Rattle.mt_tlv.specs.Tree.{uint};
ghost use Rattle.mt_tlv.specs.View.{tree};
ghost use Rattle.mt_tlv.specs.declared.value.Tag.TheVariants.{Context};
ghost use Rattle.mt_model.specs.messages.Blocks.{event_path_tree, event_tree, item_block, path_tree};

use crate::messages::message::{Happened, Index, Item, Path};
use mt_tlv::{Bytes, Members, Tag, Value};

// The control octet and the number of a field of a block, before its length and its value.
const FIELD: usize = 2;

// The octet that ends a container.
const END: usize = 1;

// What stands round the value of a report's one field: the control octet of the report, the field's
// own with its tag, and the report's end.
const REPORT: usize = 1 + FIELD + END;

/// The length in bytes of an item as it stands in a list of reports, found without encoding it. A
/// length above `usize::MAX` is given as `usize::MAX`, so that any item may be asked about; callers
/// compare the length with `ITEM_BYTES`.
pub fn item_size(item: &Item) -> usize
    ensures { result ≡ min (length (item_block item.now)) usize.MAX }
{
    match item {
        Item::Attribute {
            path,
            version,
            value,
        } => {
            let before = field_size(*version as u64) + FIELD + path_size(path);
            (REPORT + before + FIELD + END).saturating_add(value_size(value))
        }
        Item::Refused { path, code } => {
            let status = field_size(*code as u64) + END;
            REPORT + FIELD + path_size(path) + FIELD + status + END
        }
        Item::Event(happened) => REPORT.saturating_add(event_size(happened)),
        Item::EventRefused { path, code } => {
            let status = field_size(*code as u64) + END;
            REPORT + FIELD + event_path_size(path) + FIELD + status + END
        }
    }
}

fn event_size(happened: &Happened) -> usize
    ensures { result ≡ min (length (length_and_value (event_tree happened.now))) usize.MAX }
{
    let place = &happened.place;
    let ids = field_size(place.endpoint as u64)
        + field_size(place.cluster as u64)
        + field_size(place.leaf as u64);
    let path = FIELD + ids + END;
    let numbers = field_size(happened.number)
        + field_size(happened.priority as u64)
        + field_size(happened.at);
    (path + numbers + FIELD + END).saturating_add(value_size(&happened.value))
}

// The path of an attribute: that of an event and the list index.
fn path_size(path: &Path) -> usize
    ensures exact { result ≡ length (length_and_value (path_tree path.now)) }
    ensures short { result ≤ 41 }
{
    let ids = event_path_size(path);
    match path.index {
        Index::Whole => ids,
        Index::Append => ids + FIELD,
        Index::At(number) => ids + field_size(number as u64),
    }
}

fn event_path_size(path: &Path) -> usize
    ensures exact { result ≡ length (length_and_value (event_path_tree path.now)) }
    ensures short { result ≤ 31 }
{
    let mut size = END;
    if let Some(endpoint) = path.endpoint {
        size += field_size(endpoint as u64);
    }
    if let Some(cluster) = path.cluster {
        size += field_size(cluster as u64);
    }
    if let Some(leaf) = path.leaf {
        size += field_size(leaf as u64);
    }
    size
}

// A number as a field of a block.
fn field_size(number: u64) -> usize
    ensures exact { result ≡ length (narrow (Context 0) (uint number)) }
    ensures short { result ≤ 10 }
{
    FIELD + number_size(number)
}

// The length field and the value field.
#[cycle(size)]
fn value_size(value: &Value) -> usize
    ensures { result ≡ min (length (length_and_value (tree value.now))) usize.MAX }
{
    match value {
        Value::Int(number) => signed_size(*number),
        Value::Uint(number) => number_size(*number),
        Value::Bool(_) => 0,
        Value::Text(text) => string_size(text),
        Value::Octets(octets) => string_size(octets),
        Value::Null => 0,
        Value::Bits32(_) => 4,
        Value::Bits64(_) => 8,
        Value::Struct(members) => members_size(members),
        Value::Array(members) => members_size(members),
        Value::List(members) => members_size(members),
    }
}

// The members and the end of their container.
#[cycle(size)]
fn members_size(members: &Members) -> usize
    ensures { result ≡ min (length (narrow_elements members.now ++ end_of_container ∷ [])) usize.MAX }
{
    let all = members.as_slice();
    let mut total = END;
    for (tag, value) in all {
        total = total
            .saturating_add(1 + tag_size(*tag))
            .saturating_add(value_size(value));
    }
    total
}

fn tag_size(tag: Tag) -> usize
    ensures exact { result ≡ length (tag_field tag) }
    ensures short { result ≤ 8 }
{
    match tag {
        Tag::Anonymous => 0,
        Tag::Context(_) => 1,
        Tag::Common(number) => profile_number_size(number),
        Tag::Implicit(number) => profile_number_size(number),
        Tag::Full { number, .. } => 4 + profile_number_size(number),
    }
}

fn profile_number_size(number: u32) -> usize
    ensures exact { result ≡ length (profile_number number) }
    ensures short { result ≤ 4 }
{
    if number < 0x1_0000 { 2 } else { 4 }
}

// The length and the bytes.
fn string_size(string: &Bytes) -> usize
    ensures { result ≡ min (length (narrow_string string.now)) usize.MAX }
{
    let length = string.as_slice().len();
    length.saturating_add(number_size(length as u64))
}

fn number_size(number: u64) -> usize
    ensures exact { result ≡ length (narrow_unsigned number) }
    ensures short { result ≤ 8 }
{
    if number < 0x100 {
        1
    } else if number < 0x1_0000 {
        2
    } else if number < 0x1_0000_0000 {
        4
    } else {
        8
    }
}

fn signed_size(number: i64) -> usize
    ensures exact { result ≡ length (narrow_signed number) }
    ensures short { result ≤ 8 }
{
    if -0x80 <= number && number < 0x80 {
        1
    } else if -0x8000 <= number && number < 0x8000 {
        2
    } else if -0x8000_0000 <= number && number < 0x8000_0000 {
        4
    } else {
        8
    }
}
