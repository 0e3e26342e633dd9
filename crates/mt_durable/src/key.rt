//! The order of keys: byte by byte, and a key before those that it begins.

ghost use Rattle.std.specs.Prelude.{◌≡◌, length};
ghost use Rattle.mt_durable.specs.Keys.{is_before, is_same};

/// Whether a key comes before another.
pub fn is_before(key: &[u8], other: &[u8]) -> bool
    ensures { result ≡ is_before key.now other.now }
{
    let mut left = key;
    let mut right = other;
    'bytes: loop {
        let [next, others @ ..] = right else {
            return false;
        };
        let [first, rest @ ..] = left else {
            return true;
        };
        if *first != *next {
            return *first < *next;
        }
        left = rest;
        right = others;
    }
}

// Whether both are the same bytes.
pub(crate) fn is_same(key: &[u8], other: &[u8]) -> bool
    ensures { result ≡ is_same key.now other.now }
{
    key == other
}
