//! Where the next record of a journal goes.

ghost use Rattle.std.specs.Prelude.{◌≡◌, ◌≤◌, ◌<◌, ◌+◌, ◌^◌};
ghost use Rattle.mt_journal.specs.Layout.{is_selector, names_slot_one, selector_above, slot_length, slot_start, successor};

/// How many bytes each slot has.
pub const SLOT_LENGTH: u64 = 1_048_576;

/// Where the next record goes.
#[derive(Clone, Copy)]
pub enum Position {
    /// The file has at most nine bytes.
    Fresh,
    /// The file has no record yet.
    Begun,
    /// The file is a log of the earlier layout, and the place of its next gate.
    Log {
        gate: u64,
    },
    /// Where the selectors are, the selectors as they are, and the place of the next gate.
    InUse {
        base: u64,
        p0: u8,
        p1: u8,
        gate: u64,
    },
}

fn is_selector(byte: u8) -> bool
    ensures { result ≡ is_selector byte }
{
    matches!(byte, 0x5a | 0x5b | 0x5c)
}

fn successor(byte: u8) -> u8
    requires { byte < 255 }
    ensures { result ≡ successor byte }
{
    if byte == 0x5c { 0x5a } else { byte + 1 }
}

/// Whether the selectors name slot 1.
pub fn names_slot_one(p0: u8, p1: u8) -> bool
    ensures { result ≡ names_slot_one p0 p1 }
{
    is_selector(p0) && (!is_selector(p1) || p0 == successor(p1))
}

/// What a selector gets when its slot becomes the current one.
pub fn selector_above(other: u8) -> u8
    ensures { result ≡ selector_above other }
{
    if is_selector(other) {
        successor(other)
    } else {
        0x5a
    }
}

/// Where a slot begins, behind selectors at the base.
pub fn slot_start(base: u64, is_one: bool) -> u64
    requires { base ≤ 2 ^ 62 + 5 }
    ensures { result ≡ slot_start base is_one }
{
    if is_one {
        base + 2 + SLOT_LENGTH
    } else {
        base + 2
    }
}

/// Where the current slot ends.
pub fn slot_end(base: u64, p0: u8, p1: u8) -> u64
    requires { base ≤ 2 ^ 62 + 5 }
    ensures { result ≡ slot_start base (names_slot_one p0 p1) + slot_length }
{
    slot_start(base, names_slot_one(p0, p1)) + SLOT_LENGTH
}
