//! The bytes of keys, which contracts see as numbers.

ghost use Rattle.std.specs.Prelude.{◌≡◌, ℕ, nat_lt, true};
ghost use Rattle.std.specs.List.{list_all};
ghost use Rattle.mt_regained.specs.Laws.{is_of_bytes};

use mt_durable::Entry;

/// Each byte of a key is below 256. It goes over the keys once, and does nothing.
pub(crate) fn keys_are_of_bytes(entries: &[Entry])
    ensures { list_all is_of_bytes entries.now ≡ true }
{
    for entry in entries {
        are_below_256(entry.key.as_slice());
    }
}

fn are_below_256(bytes: &[u8])
    ensures { list_all (λ (byte : ℕ). nat_lt byte 256) bytes.now ≡ true }
{
    for byte in bytes {
        let _value = *byte;
    }
}
