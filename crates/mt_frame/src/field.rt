//! Single flags, and numbers in their places.

ghost use Rattle.std.specs.Prelude.{◌≡◌, ◌+◌, ◌≤◌, ◌<◌, ◌++◌, ℕ, List, length, drop, true};
ghost use Rattle.mt_frame.specs.Fields.{is_set as is_set_in, flag as flag_of};
ghost use Rattle.mt_frame.specs.Reading.{number_where, width_where as width_of_field};

use byteorder::{ByteOrder, LittleEndian};

/// Whether a bit of a byte is set; bit 0 is the lowest.
pub(crate) fn is_set(byte: u8, bit: u8) -> bool
    requires { bit < 8 }
    ensures { result ≡ is_set_in byte bit }
{
    (byte >> bit) % 2 == 1
}

/// The byte in which this bit alone is set, or 0.
pub(crate) fn flag(bit: u8, set: bool) -> u8
    requires { bit < 5 }
    ensures value { result ≡ flag_of bit set }
    ensures small { result ≤ 16 }
{
    if set { 1 << bit } else { 0 }
}

/// How many bytes a field takes that is there or not.
pub(crate) fn width_where(there: bool, count: usize) -> usize
    requires { count ≤ 8 }
    ensures value { result ≡ width_of_field there count }
    ensures small { result ≤ 8 }
{
    if there { count } else { 0 }
}

/// The number in the first 2 bytes, where it is there.
pub(crate) fn u16_where(there: bool, bytes: &[u8]) -> Option<u16>
    requires { there ≡ true → 2 ≤ length bytes.now }
    ensures { result ≡ number_where there 2 bytes.now }
{
    if there {
        Some(LittleEndian::read_u16(bytes))
    } else {
        None
    }
}

/// The number in the first 4 bytes, where it is there.
pub(crate) fn u32_where(there: bool, bytes: &[u8]) -> Option<u32>
    requires { there ≡ true → 4 ≤ length bytes.now }
    ensures { result ≡ number_where there 4 bytes.now }
{
    if there {
        Some(LittleEndian::read_u32(bytes))
    } else {
        None
    }
}

/// The number in the first 8 bytes, where it is there.
pub(crate) fn u64_where(there: bool, bytes: &[u8]) -> Option<u64>
    requires { there ≡ true → 8 ≤ length bytes.now }
    ensures { result ≡ number_where there 8 bytes.now }
{
    if there {
        Some(LittleEndian::read_u64(bytes))
    } else {
        None
    }
}

/// Puts bytes behind what stands in front of the place `at`, and answers the place behind them.
pub(crate) fn put(out: &mut [u8], at: usize, bytes: &[u8]) -> usize
    requires { at + length bytes.now ≤ length out.old }
    ensures place { result ≡ at + length bytes.now }
    ensures size { length out.new ≡ length out.old }
    ensures front { (front before : List ℕ) → length front ≡ at → out.old ≡ front ++ drop at before
        → out.new ≡ (front ++ bytes.now) ++ drop result before }
{
    let end = at + bytes.len();
    out[at..end].copy_from_slice(bytes);
    end
}
