// One pass over a text: each block is taken into the chaining value and masked, or its mask taken away
// (NIST SP 800-38C, 6.1 and 6.2). The chaining value is in words from the first block to the last.

ghost use Rattle.std.specs.Prelude.{◌≡◌, ℕ, ◌+◌, ◌-◌, ◌*◌, ◌^◌, ◌<◌, ◌≤◌, List, ◌++◌, length, take, drop, bit_xor, slice_index};
ghost use Rattle.mt_ccm.specs.Aes.{cipher, xored};
ghost use Rattle.mt_ccm.specs.Ccm.{counter_block, masked, masked_tag};
ghost use Rattle.mt_ccm.specs.Steps.{chained_all, filled};
ghost use Rattle.mt_ccm.specs.Words.{IsScheduleOf, block_at};

use crate::block::{enciphered, enciphered_words, load, load_from, store, store_to, sum};
use crate::chaining::{added, begun, counter, masked_tag_of};
use crate::masking::add_stream;

// Seals the whole block behind `place` others: masks it, and answers the chaining value after it.
#[inline(always)]
fn seal_block(
    words: &[u32; 44],
    nonce: &[u8; 13],
    state: [u32; 4],
    bytes: &mut [u8],
    place: usize,
) -> [u32; 4]
    requires room { 16 * place + 16 ≤ length bytes.old }
    requires short { place < 65535 }
    ensures chained { (key : List ℕ) → IsScheduleOf key words.now
        → block_at result 0 ≡ cipher key (xored (block_at state 0) (take 16 (drop (16 * place) bytes.old))) }
    ensures masked { (key : List ℕ) → IsScheduleOf key words.now
        → take 16 (drop (16 * place) bytes.new)
        ≡ xored (take 16 (drop (16 * place) bytes.old)) (cipher key (counter_block nonce.now (place + 1))) }
    ensures before { (k : ℕ) → k < 16 * place → slice_index bytes.new k ≡ slice_index bytes.old k }
    ensures after { (k : ℕ) → 16 * place + 16 ≤ k → slice_index bytes.new k ≡ slice_index bytes.old k }
{
    let plain = load_from(bytes, 16 * place);
    let next = enciphered_words(words, sum(state, plain));
    let stream = enciphered_words(words, load(&counter(nonce, (place + 1) as u16)));
    store_to(bytes, 16 * place, sum(plain, stream));
    next
}

// Opens the whole block behind `place` others: takes its mask away, and answers the chaining value
// after it.
#[inline(always)]
fn open_block(
    words: &[u32; 44],
    nonce: &[u8; 13],
    state: [u32; 4],
    bytes: &mut [u8],
    place: usize,
) -> [u32; 4]
    requires room { 16 * place + 16 ≤ length bytes.old }
    requires short { place < 65535 }
    ensures chained { (key : List ℕ) → IsScheduleOf key words.now
        → block_at result 0 ≡ cipher key (xored (block_at state 0) (take 16 (drop (16 * place) bytes.new))) }
    ensures masked { (key : List ℕ) → IsScheduleOf key words.now
        → take 16 (drop (16 * place) bytes.new)
        ≡ xored (take 16 (drop (16 * place) bytes.old)) (cipher key (counter_block nonce.now (place + 1))) }
    ensures before { (k : ℕ) → k < 16 * place → slice_index bytes.new k ≡ slice_index bytes.old k }
    ensures after { (k : ℕ) → 16 * place + 16 ≤ k → slice_index bytes.new k ≡ slice_index bytes.old k }
{
    let stream = enciphered_words(words, load(&counter(nonce, (place + 1) as u16)));
    let plain = sum(load_from(bytes, 16 * place), stream);
    store_to(bytes, 16 * place, plain);
    enciphered_words(words, sum(state, plain))
}

// The chaining value after a last block that is not whole.
#[inline(always)]
fn chained_rest(words: &[u32; 44], state: [u32; 4], rest: &[u8]) -> [u32; 4]
    requires { length rest.now ≤ 16 }
    ensures { (key : List ℕ) → IsScheduleOf key words.now
        → block_at result 0 ≡ cipher key (xored (block_at state 0) (filled rest.now)) }
{
    enciphered_words(words, load(&added(&store(state), rest)))
}

// Masks the last block, of `count` bytes behind `place` whole ones, or takes its mask away.
#[inline(always)]
fn mask_rest(words: &[u32; 44], nonce: &[u8; 13], bytes: &mut [u8], place: usize, count: usize)
    requires room { 16 * place + count ≤ length bytes.old }
    requires part { count ≤ 16 }
    requires short { place < 65535 }
    ensures within { (key : List ℕ) → IsScheduleOf key words.now → (k : ℕ) → k < count
        → slice_index bytes.new (16 * place + k) ≡ bit_xor (slice_index bytes.old (16 * place + k))
        (slice_index (cipher key (counter_block nonce.now (place + 1))) k) }
    ensures before { (k : ℕ) → k < 16 * place → slice_index bytes.new k ≡ slice_index bytes.old k }
    ensures after { (k : ℕ) → 16 * place + count ≤ k → slice_index bytes.new k ≡ slice_index bytes.old k }
{
    let stream = enciphered(words, &counter(nonce, (place + 1) as u16));
    add_stream(bytes, 16 * place, count, &stream);
}

// Masks the first `count` bytes, and answers the chaining value after them.
fn seal_all(
    words: &[u32; 44],
    nonce: &[u8; 13],
    begin: [u32; 4],
    bytes: &mut [u8],
    count: usize,
) -> [u32; 4]
    requires room { count ≤ length bytes.old }
    requires short { count < 2 ^ 16 }
    ensures text { (key : List ℕ) → IsScheduleOf key words.now
        → bytes.new ≡ masked key nonce.now (take count bytes.old) ++ drop count bytes.old }
    ensures chained { (key : List ℕ) → IsScheduleOf key words.now
        → block_at result 0 ≡ chained_all key (block_at begin 0) (take count bytes.old) }
{
    let mut state = begin;
    let whole = count / 16;
    'turns: for i in 0..whole {
        let next = seal_block(words, nonce, state, bytes, i);
        state = next;
    }
    if count % 16 == 0 {
        return state;
    }
    let text = &bytes[..count];
    let next = chained_rest(words, state, &text[16 * whole..]);
    mask_rest(words, nonce, bytes, whole, count % 16);
    next
}

// Takes the mask of the first `count` bytes away, and answers the chaining value after them.
fn open_all(
    words: &[u32; 44],
    nonce: &[u8; 13],
    begin: [u32; 4],
    bytes: &mut [u8],
    count: usize,
) -> [u32; 4]
    requires room { count ≤ length bytes.old }
    requires short { count < 2 ^ 16 }
    ensures text { (key : List ℕ) → IsScheduleOf key words.now
        → bytes.new ≡ masked key nonce.now (take count bytes.old) ++ drop count bytes.old }
    ensures chained { (key : List ℕ) → IsScheduleOf key words.now
        → block_at result 0 ≡ chained_all key (block_at begin 0) (take count bytes.new) }
{
    let mut state = begin;
    let whole = count / 16;
    'turns: for i in 0..whole {
        let next = open_block(words, nonce, state, bytes, i);
        state = next;
    }
    if count % 16 == 0 {
        return state;
    }
    mask_rest(words, nonce, bytes, whole, count % 16);
    let text = &bytes[..count];
    chained_rest(words, state, &text[16 * whole..])
}

/// Masks the first `count` bytes, and answers the tag of what they were, under its mask.
pub fn seal_text(
    words: &[u32; 44],
    nonce: &[u8; 13],
    aad: &[u8],
    bytes: &mut [u8],
    count: usize,
) -> [u8; 16]
    requires aad { length aad.now < 2 ^ 16 }
    requires room { count ≤ length bytes.old }
    requires short { count < 2 ^ 16 }
    ensures text { (key : List ℕ) → IsScheduleOf key words.now
        → bytes.new ≡ masked key nonce.now (take count bytes.old) ++ drop count bytes.old }
    ensures tag { (key : List ℕ) → IsScheduleOf key words.now
        → result ≡ masked_tag key nonce.now aad.now (take count bytes.old) }
{
    let begin = begun(words, nonce, aad, count);
    let last = seal_all(words, nonce, load(&begin), bytes, count);
    masked_tag_of(words, nonce, &store(last))
}

/// Takes the mask of the first `count` bytes away, and answers the tag of what they are, under its mask.
pub fn open_text(
    words: &[u32; 44],
    nonce: &[u8; 13],
    aad: &[u8],
    bytes: &mut [u8],
    count: usize,
) -> [u8; 16]
    requires aad { length aad.now < 2 ^ 16 }
    requires room { count ≤ length bytes.old }
    requires short { count < 2 ^ 16 }
    ensures text { (key : List ℕ) → IsScheduleOf key words.now
        → bytes.new ≡ masked key nonce.now (take count bytes.old) ++ drop count bytes.old }
    ensures tag { (key : List ℕ) → IsScheduleOf key words.now
        → result ≡ masked_tag key nonce.now aad.now (take count bytes.new) }
{
    let begin = begun(words, nonce, aad, count);
    let last = open_all(words, nonce, load(&begin), bytes, count);
    masked_tag_of(words, nonce, &store(last))
}
