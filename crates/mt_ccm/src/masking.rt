// The key stream over a plaintext, and the tag under it (NIST SP 800-38C, 6.1, steps 5 to 8).

ghost use Rattle.std.specs.Prelude.{◌≡◌, ◌↔◌, ℕ, ◌+◌, ◌*◌, ◌^◌, ◌<◌, ◌≤◌, List, ◌++◌, length, take, drop, bit_xor, slice_index, IsTrue};
ghost use Rattle.mt_ccm.specs.Ccm.{masked};
ghost use Rattle.mt_ccm.specs.Words.{IsScheduleOf};

use crate::block::enciphered;
use crate::chaining::counter;

/// Xors the first `count` bytes of `stream` into `bytes`, from place `from` on.
#[inline(always)]
pub fn add_stream(bytes: &mut [u8], from: usize, count: usize, stream: &[u8; 16])
    requires room { from + count ≤ length bytes.old }
    requires short { count ≤ 16 }
    ensures within { (k : ℕ) → k < count → slice_index bytes.new (from + k)
        ≡ bit_xor (slice_index bytes.old (from + k)) (slice_index stream.now k) }
    ensures before { (k : ℕ) → k < from → slice_index bytes.new k ≡ slice_index bytes.old k }
    ensures after { (k : ℕ) → from + count ≤ k → slice_index bytes.new k ≡ slice_index bytes.old k }
{
    'bytes: for j in 0..count {
        bytes[from + j] ^= stream[j];
    }
}

/// Masks the first `count` bytes, or takes their mask away: they are xor-ed with the key stream. What
/// is refused is put back so; sealing and opening mask in the pass that makes the tag.
pub fn mask(words: &[u32; 44], nonce: &[u8; 13], bytes: &mut [u8], count: usize)
    requires room { count ≤ length bytes.old }
    requires short { count < 2 ^ 16 }
    ensures { (key : List ℕ) → IsScheduleOf key words.now
        → bytes.new ≡ masked key nonce.now (take count bytes.old) ++ drop count bytes.old }
{
    let whole = count / 16;
    'turns: for i in 0..whole {
        let stream = enciphered(words, &counter(nonce, (i + 1) as u16));
        add_stream(bytes, 16 * i, 16, &stream);
    }
    if count % 16 == 0 {
        return;
    }
    let stream = enciphered(words, &counter(nonce, (whole + 1) as u16));
    add_stream(bytes, 16 * whole, count % 16, &stream);
}
