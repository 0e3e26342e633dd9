// The CBC-MAC up to the plaintext, and what makes it the tag (NIST SP 800-38C, 6.1 and A.2).

ghost use Rattle.std.specs.Prelude.{◌≡◌, ℕ, ◌+◌, ◌*◌, ◌^◌, ◌<◌, ◌≤◌, List, ◌∷◌, ◌++◌, ◌==◌, if◌then◌else◌, length, slice_index, take};
ghost use Rattle.std.specs.Int.{w16, to_be_bytes};
ghost use Rattle.mt_ccm.specs.Aes.{cipher, xored};
ghost use Rattle.mt_ccm.specs.Ccm.{counter_block, first_block};
ghost use Rattle.mt_ccm.specs.Steps.{chained_aad, chained_all, filled};
ghost use Rattle.mt_ccm.specs.Words.{IsScheduleOf};

use crate::block::enciphered;

// A block of a first byte, the nonce and a number of two bytes.
#[inline(always)]
fn block_of(flags: u8, nonce: &[u8; 13], number: u16) -> [u8; 16]
    ensures { result ≡ flags ∷ nonce.now ++ to_be_bytes w16 number }
{
    let [a, b, c, d, e, f, g, h, i, j, k, l, m] = *nonce;
    let [high, low] = number.to_be_bytes();
    [flags, a, b, c, d, e, f, g, h, i, j, k, l, m, high, low]
}

/// The counter block of an index (A.3).
#[inline(always)]
pub fn counter(nonce: &[u8; 13], index: u16) -> [u8; 16]
    ensures { result ≡ counter_block nonce.now index }
{
    block_of(0x01, nonce, index)
}

/// At most 16 bytes, filled up by zeros, xor a block.
#[inline(always)]
pub fn added(block: &[u8; 16], bytes: &[u8]) -> [u8; 16]
    requires { length bytes.now ≤ 16 }
    ensures { result ≡ xored block.now (filled bytes.now) }
{
    let mut sum = *block;
    'bytes: for j in 0..bytes.len() {
        sum[j] ^= bytes[j];
    }
    sum
}

// The chaining value after all blocks of `bytes`, padded.
fn chained(words: &[u32; 44], begin: [u8; 16], bytes: &[u8]) -> [u8; 16]
    ensures { (key : List ℕ) → IsScheduleOf key words.now
        → result ≡ chained_all key begin bytes.now }
{
    let mut state = begin;
    let whole = bytes.len() / 16;
    'turns: for i in 0..whole {
        let part = &bytes[16 * i..16 * i + 16];
        let next = enciphered(words, &added(&state, part));
        state = next;
    }
    let rest = &bytes[16 * whole..];
    if rest.len() == 0 {
        return state;
    }
    enciphered(words, &added(&state, rest))
}

// The byte at a place, and 0 past the end.
#[inline(always)]
fn byte_or_zero(bytes: &[u8], at: usize) -> u8
    ensures { result ≡ slice_index bytes.now at }
{
    if at < bytes.len() { bytes[at] } else { 0 }
}

// The first block of the associated data: its length, and its first 14 bytes (A.2.2).
fn aad_head(aad: &[u8]) -> [u8; 16]
    requires { length aad.now < 2 ^ 16 }
    ensures { result ≡ filled (take 16 (to_be_bytes w16 (length aad.now) ++ aad.now)) }
{
    let [high, low] = (aad.len() as u16).to_be_bytes();
    [
        high,
        low,
        byte_or_zero(aad, 0),
        byte_or_zero(aad, 1),
        byte_or_zero(aad, 2),
        byte_or_zero(aad, 3),
        byte_or_zero(aad, 4),
        byte_or_zero(aad, 5),
        byte_or_zero(aad, 6),
        byte_or_zero(aad, 7),
        byte_or_zero(aad, 8),
        byte_or_zero(aad, 9),
        byte_or_zero(aad, 10),
        byte_or_zero(aad, 11),
        byte_or_zero(aad, 12),
        byte_or_zero(aad, 13),
    ]
}

// The chaining value after the associated data behind its length.
fn with_aad(words: &[u32; 44], begin: [u8; 16], aad: &[u8]) -> [u8; 16]
    requires { length aad.now < 2 ^ 16 }
    ensures { (key : List ℕ) → IsScheduleOf key words.now
        → result ≡ chained_aad key begin aad.now }
{
    if aad.len() == 0 {
        return begin;
    }
    let head = aad_head(aad);
    let state = enciphered(words, &added(&begin, &head));
    let rest = if aad.len() < 14 { aad.len() } else { 14 };
    chained(words, state, &aad[rest..])
}

// The flags of the first block (A.2.1).
fn flags_of(aad: &[u8]) -> u8
    ensures { result ≡ (if length aad.now == 0 then 0x39 else 0x79) }
{
    if aad.len() == 0 { 0x39 } else { 0x79 }
}

/// The chaining value before a plaintext of `count` bytes: after the first block and the associated
/// data (6.1, steps 1 to 3).
pub fn begun(words: &[u32; 44], nonce: &[u8; 13], aad: &[u8], count: usize) -> [u8; 16]
    requires short_aad { length aad.now < 2 ^ 16 }
    requires short_plain { count < 2 ^ 16 }
    ensures { (key : List ℕ) → IsScheduleOf key words.now → (plain : List ℕ) → length plain ≡ count
        → result ≡ chained_aad key (cipher key (first_block nonce.now aad.now plain)) aad.now }
{
    let first = block_of(flags_of(aad), nonce, count as u16);
    with_aad(words, enciphered(words, &first), aad)
}

/// The tag under its mask, of the chaining value after the plaintext (6.1, step 8).
pub fn masked_tag_of(words: &[u32; 44], nonce: &[u8; 13], tag: &[u8; 16]) -> [u8; 16]
    ensures { (key : List ℕ) → IsScheduleOf key words.now
        → result ≡ xored tag.now (cipher key (counter_block nonce.now 0)) }
{
    let mask = enciphered(words, &counter(nonce, 0));
    added(tag, &mask)
}
