// Sealing and opening in place (NIST SP 800-38C, 6.1 and 6.2).

ghost use Rattle.std.specs.Prelude.{◌≡◌, ◌↔◌, ℕ, ◌+◌, ◌-◌, ◌^◌, ◌<◌, ◌≤◌, List, ◌++◌, length, take, drop, slice_index, IsTrue, IfSome, IfNone};
ghost use Rattle.mt_ccm.specs.Ccm.{Sealed};
ghost use Rattle.mt_ccm.specs.Words.{IsScheduleOf, block_at};

use crate::block::expanded;
use crate::masking::mask;
use crate::passing::{open_text, seal_text};
use std::marker::Model;

/// A key that is ready to seal and to open: its round keys, made once (FIPS 197, 5.2). It is as secret
/// as the key.
#[derive(Drop)]
pub struct Cipher {
    words: [u32; 44],
}

// It is seen as its key, which is the first of the round keys.
impl Model for Cipher {
    ghost Value = { List ℕ };

    ghost view = { λ c. block_at c.words 0 };

    ghost invariant = { λ c. IsScheduleOf (block_at c.words 0) c.words };
}

impl Cipher {
    /// The cipher of a key.
    pub fn new(key: &[u8; 16]) -> Cipher
        ensures { result ≡ key.now }
    {
        Cipher {
            words: expanded(key),
        }
    }

    /// A cipher of the same key, with no key schedule made anew.
    pub fn copy(&self) -> Cipher
        ensures { result ≡ self.now }
    {
        Cipher { words: self.words }
    }

    /// Seals the plaintext in `buf`, all but its last 16 bytes, in place: it is masked, and the last 16
    /// bytes take the tag over it, the nonce and the associated data (6.1).
    pub fn seal(&self, nonce: &[u8; 13], aad: &[u8], buf: &mut [u8])
        requires aad { length aad.now < 65280 }
        requires room { 16 ≤ length buf.old }
        requires length { length buf.old < 2 ^ 16 }
        ensures { Sealed self.now nonce.now aad.now (take (length buf.old - 16) buf.old) buf.new }
    {
        let count = buf.len() - 16;
        let tag = seal_text(&self.words, nonce, aad, buf, count);
        put_tag(buf, count, &tag);
    }

    /// Opens what was sealed in `buf`, in place: the plaintext's length, and the plaintext at the front
    /// of `buf`; None where no plaintext is sealed to these bytes, and `buf` is then as before (6.2).
    pub fn unseal(&self, nonce: &[u8; 13], aad: &[u8], buf: &mut [u8]) -> Option<usize>
        requires aad { length aad.now < 65280 }
        requires length { length buf.old < 2 ^ 16 }
        ensures opened { IfSome result
            (λ n. Sealed self.now nonce.now aad.now (take n buf.new) buf.old) }
        ensures length { IfSome result (λ n. n + 16 ≡ length buf.old) }
        ensures rest { IfSome result (λ n. drop n buf.new ≡ drop n buf.old) }
        ensures refused { IfNone result
            ((plain : List ℕ) → ¬ Sealed self.now nonce.now aad.now plain buf.old) }
        ensures kept { IfNone result (buf.new ≡ buf.old) }
    {
        if buf.len() < 16 {
            return None;
        }
        let count = buf.len() - 16;
        let tag = open_text(&self.words, nonce, aad, buf, count);
        let whole = ends_with_tag(buf, count, &tag);
        if whole {
            return Some(count);
        }
        mask(&self.words, nonce, buf, count);
        None
    }
}

/// Seals one text in place under a key: `Cipher::seal`, with a cipher of its own.
pub fn seal(key: &[u8; 16], nonce: &[u8; 13], aad: &[u8], buf: &mut [u8])
    requires aad { length aad.now < 65280 }
    requires room { 16 ≤ length buf.old }
    requires length { length buf.old < 2 ^ 16 }
    ensures { Sealed key.now nonce.now aad.now (take (length buf.old - 16) buf.old) buf.new }
{
    Cipher::new(key).seal(nonce, aad, buf);
}

/// Opens one text in place under a key: `Cipher::unseal`, with a cipher of its own.
pub fn unseal(key: &[u8; 16], nonce: &[u8; 13], aad: &[u8], buf: &mut [u8]) -> Option<usize>
    requires aad { length aad.now < 65280 }
    requires length { length buf.old < 2 ^ 16 }
    ensures opened { IfSome result
        (λ n. Sealed key.now nonce.now aad.now (take n buf.new) buf.old) }
    ensures length { IfSome result (λ n. n + 16 ≡ length buf.old) }
    ensures rest { IfSome result (λ n. drop n buf.new ≡ drop n buf.old) }
    ensures refused { IfNone result
        ((plain : List ℕ) → ¬ Sealed key.now nonce.now aad.now plain buf.old) }
    ensures kept { IfNone result (buf.new ≡ buf.old) }
{
    Cipher::new(key).unseal(nonce, aad, buf)
}

// Writes the tag over the last 16 bytes.
fn put_tag(bytes: &mut [u8], at: usize, tag: &[u8; 16])
    requires { at + 16 ≡ length bytes.old }
    ensures { bytes.new ≡ take at bytes.old ++ tag.now }
{
    'bytes: for j in 0..16 {
        bytes[at + j] = tag[j];
    }
}

// Whether the last 16 bytes are the tag. Each byte is compared, whether or not one before it differs.
fn ends_with_tag(bytes: &[u8], at: usize, tag: &[u8; 16]) -> bool
    requires { at + 16 ≡ length bytes.now }
    ensures { IsTrue result ↔ (drop at bytes.now ≡ tag.now) }
{
    let mut difference = 0;
    'bytes: for j in 0..16 {
        difference |= bytes[at + j] ^ tag[j];
    }
    difference == 0
}
