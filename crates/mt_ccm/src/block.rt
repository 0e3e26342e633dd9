// The block cipher AES-128 (FIPS 197): the key schedule, and one block. A word of 32 bits is a column,
// its highest byte in row 0, and one look-up in a table does the S-box and the column's product.

ghost use Rattle.std.specs.Prelude.{◌≡◌, ℕ, ◌+◌, ◌*◌, ◌/◌, ◌%◌, ◌^◌, ◌<◌, ◌≤◌, List, [], ◌∷◌, ◌++◌, length, take, drop, bit_xor, slice_index};
ghost use Rattle.mt_ccm.specs.Aes.{s_box, mix_column, mix_columns, shift_rows, sub_bytes, add_round_key, cipher, round_key, xored, round_constant, next_key_byte, state_of};
ghost use Rattle.mt_ccm.specs.Words.{IsScheduleOf, block_at, four_at, word_bytes};

use crate::tables::{mixed_first, mixed_fourth, mixed_second, mixed_third, substituted};

// The word of four bytes, from place `at` on.
#[inline(always)]
fn load_word(bytes: &[u8], at: usize) -> u32
    requires { at + 4 ≤ length bytes.now }
    ensures { word_bytes result ≡ four_at bytes.now at }
{
    u32::from_be_bytes([bytes[at], bytes[at + 1], bytes[at + 2], bytes[at + 3]])
}

/// The words of the 16 bytes from place `at` on.
#[inline(always)]
pub fn load_from(bytes: &[u8], at: usize) -> [u32; 4]
    requires { at + 16 ≤ length bytes.now }
    ensures { block_at result 0 ≡ take 16 (drop at bytes.now) }
{
    [
        load_word(bytes, at),
        load_word(bytes, at + 4),
        load_word(bytes, at + 8),
        load_word(bytes, at + 12),
    ]
}

/// The four words of a block.
#[inline(always)]
pub fn load(block: &[u8; 16]) -> [u32; 4]
    ensures { block_at result 0 ≡ block.now }
{
    load_from(block, 0)
}

// Writes the four bytes of a word, from place `at` on.
#[inline(always)]
fn store_word(bytes: &mut [u8], at: usize, word: u32)
    requires { at + 4 ≤ length bytes.old }
    ensures written { four_at bytes.new at ≡ word_bytes word }
    ensures before { (k : ℕ) → k < at → slice_index bytes.new k ≡ slice_index bytes.old k }
    ensures after { (k : ℕ) → at + 4 ≤ k → slice_index bytes.new k ≡ slice_index bytes.old k }
{
    let [a, b, c, d] = word.to_be_bytes();
    bytes[at] = a;
    bytes[at + 1] = b;
    bytes[at + 2] = c;
    bytes[at + 3] = d;
}

/// Writes the 16 bytes of four words, from place `at` on.
#[inline(always)]
pub fn store_to(bytes: &mut [u8], at: usize, state: [u32; 4])
    requires { at + 16 ≤ length bytes.old }
    ensures written { take 16 (drop at bytes.new) ≡ block_at state 0 }
    ensures before { (k : ℕ) → k < at → slice_index bytes.new k ≡ slice_index bytes.old k }
    ensures after { (k : ℕ) → at + 16 ≤ k → slice_index bytes.new k ≡ slice_index bytes.old k }
{
    let [a, b, c, d] = state;
    store_word(bytes, at, a);
    store_word(bytes, at + 4, b);
    store_word(bytes, at + 8, c);
    store_word(bytes, at + 12, d);
}

/// The words of one block xor those of another.
#[inline(always)]
pub fn sum(block: [u32; 4], other: [u32; 4]) -> [u32; 4]
    ensures { block_at result 0 ≡ xored (block_at block 0) (block_at other 0) }
{
    let [a, b, c, d] = block;
    let [e, f, g, h] = other;
    [a ^ e, b ^ f, c ^ g, d ^ h]
}

/// The block of four words.
#[inline(always)]
pub fn store(state: [u32; 4]) -> [u8; 16]
    ensures { result ≡ block_at state 0 }
{
    let [a, b, c, d] = state;
    let [a0, a1, a2, a3] = a.to_be_bytes();
    let [b0, b1, b2, b3] = b.to_be_bytes();
    let [c0, c1, c2, c3] = c.to_be_bytes();
    let [d0, d1, d2, d3] = d.to_be_bytes();
    [
        a0, a1, a2, a3, b0, b1, b2, b3, c0, c1, c2, c3, d0, d1, d2, d3,
    ]
}

// A column of the state after a round: one byte of each of four columns, and a word of the round key.
#[inline(always)]
fn mixed_column(a: u32, b: u32, c: u32, d: u32, key: u32) -> u32
    ensures { word_bytes result ≡ xored
        (mix_column (s_box (a / 2 ^ 24 % 2 ^ 8)) (s_box (b / 2 ^ 16 % 2 ^ 8))
        (s_box (c / 2 ^ 8 % 2 ^ 8)) (s_box (d % 2 ^ 8))) (word_bytes key) }
{
    mixed_first(((a >> 24) % 256) as u8)
        ^ mixed_second(((b >> 16) % 256) as u8)
        ^ mixed_third(((c >> 8) % 256) as u8)
        ^ mixed_fourth((d % 256) as u8)
        ^ key
}

// A column of the state after the last round, in which no column is mixed.
#[inline(always)]
fn last_column(a: u32, b: u32, c: u32, d: u32, key: u32) -> u32
    ensures { word_bytes result ≡ xored
        (s_box (a / 2 ^ 24 % 2 ^ 8) ∷ s_box (b / 2 ^ 16 % 2 ^ 8)
        ∷ s_box (c / 2 ^ 8 % 2 ^ 8) ∷ s_box (d % 2 ^ 8) ∷ []) (word_bytes key) }
{
    u32::from_be_bytes([
        substituted(((a >> 24) % 256) as u8),
        substituted(((b >> 16) % 256) as u8),
        substituted(((c >> 8) % 256) as u8),
        substituted((d % 256) as u8),
    ]) ^ key
}

// A whole round with the round key from word `at` on.
#[inline(always)]
fn round(words: &[u32; 44], state: [u32; 4], at: usize) -> [u32; 4]
    requires { at + 4 ≤ 44 }
    ensures { block_at result 0 ≡ add_round_key
        (mix_columns (shift_rows (sub_bytes (block_at state 0)))) (block_at words.now at) }
{
    let [a, b, c, d] = state;
    [
        mixed_column(a, b, c, d, words[at]),
        mixed_column(b, c, d, a, words[at + 1]),
        mixed_column(c, d, a, b, words[at + 2]),
        mixed_column(d, a, b, c, words[at + 3]),
    ]
}

// The last round.
#[inline(always)]
fn last_round(words: &[u32; 44], state: [u32; 4]) -> [u32; 4]
    ensures { block_at result 0 ≡ add_round_key
        (shift_rows (sub_bytes (block_at state 0))) (block_at words.now 40) }
{
    let [a, b, c, d] = state;
    [
        last_column(a, b, c, d, words[40]),
        last_column(b, c, d, a, words[41]),
        last_column(c, d, a, b, words[42]),
        last_column(d, a, b, c, words[43]),
    ]
}

// A column of the next round key before it is added: the last column of the round key, turned.
#[inline(always)]
fn turned_word(last: u32, constant: u8) -> u32
    ensures { word_bytes result ≡ bit_xor (s_box (last / 2 ^ 16 % 2 ^ 8)) constant
        ∷ s_box (last / 2 ^ 8 % 2 ^ 8) ∷ s_box (last % 2 ^ 8) ∷ s_box (last / 2 ^ 24 % 2 ^ 8) ∷ [] }
{
    u32::from_be_bytes([
        substituted(((last >> 16) % 256) as u8) ^ constant,
        substituted(((last >> 8) % 256) as u8),
        substituted((last % 256) as u8),
        substituted(((last >> 24) % 256) as u8),
    ])
}

// The round constants of the ten rounds (FIPS 197, 5.2, Table 5).
const ROUND_CONSTANTS: [u8; 10] = [0x01, 0x02, 0x04, 0x08, 0x10, 0x20, 0x40, 0x80, 0x1b, 0x36];

// The constant of round `round` + 1.
fn constant_of(round: usize) -> u8
    requires { round < 10 }
    ensures { result ≡ round_constant round }
{
    ROUND_CONSTANTS[round]
}

// The round key after `key`, which is that of round `round`.
fn next_key(key: [u32; 4], round: usize) -> [u32; 4]
    requires { round < 10 }
    ensures { block_at result 0 ≡ state_of (next_key_byte (block_at key 0) round) }
{
    let [a, b, c, d] = key;
    let first = a ^ turned_word(d, constant_of(round));
    let second = b ^ first;
    let third = c ^ second;
    [first, second, third, d ^ third]
}

// Puts a round key into the schedule, from word `at` on.
fn put_key(words: &mut [u32; 44], at: usize, key: [u32; 4])
    requires { at + 4 ≤ 44 }
    ensures put { block_at words.new at ≡ block_at key 0 }
    ensures before { (i : ℕ) → i < at → slice_index words.new i ≡ slice_index words.old i }
{
    let [a, b, c, d] = key;
    words[at] = a;
    words[at + 1] = b;
    words[at + 2] = c;
    words[at + 3] = d;
}

/// The key schedule of a key: the words of its eleven round keys (FIPS 197, 5.2).
pub fn expanded(key: &[u8; 16]) -> [u32; 44]
    ensures { IsScheduleOf key.now result }
{
    let mut words = [0u32; 44];
    let mut last = load(key);
    'rounds: for round in 0..10 {
        put_key(&mut words, 4 * round, last);
        let next = next_key(last, round);
        last = next;
    }
    put_key(&mut words, 40, last);
    words
}

// The state before the first round.
#[inline(always)]
fn first_state(words: &[u32; 44], state: [u32; 4]) -> [u32; 4]
    ensures { block_at result 0 ≡ add_round_key (block_at state 0) (block_at words.now 0) }
{
    let [a, b, c, d] = state;
    [a ^ words[0], b ^ words[1], c ^ words[2], d ^ words[3]]
}

// The rounds on the four words of a block, written out (FIPS 197, 5.1). The words are parameters of
// their own, so that they begin and stay in registers.
fn rounds(words: &[u32; 44], a: u32, b: u32, c: u32, d: u32) -> [u32; 4]
    ensures { (key : List ℕ) → IsScheduleOf key words.now
        → block_at result 0 ≡ cipher key (block_at (a ∷ b ∷ c ∷ d ∷ []) 0) }
{
    let begun = first_state(words, [a, b, c, d]);
    let first = round(words, begun, 4);
    let second = round(words, first, 8);
    let third = round(words, second, 12);
    let fourth = round(words, third, 16);
    let fifth = round(words, fourth, 20);
    let sixth = round(words, fifth, 24);
    let seventh = round(words, sixth, 28);
    let eighth = round(words, seventh, 32);
    let ninth = round(words, eighth, 36);
    last_round(words, ninth)
}

/// The words of the block that the cipher makes of a block in words, under the key of this schedule.
#[inline(always)]
pub fn enciphered_words(words: &[u32; 44], block: [u32; 4]) -> [u32; 4]
    ensures { (key : List ℕ) → IsScheduleOf key words.now
        → block_at result 0 ≡ cipher key (block_at block 0) }
{
    let [a, b, c, d] = block;
    rounds(words, a, b, c, d)
}

/// The block that the cipher makes of `block` under the key of this schedule.
#[inline(always)]
pub fn enciphered(words: &[u32; 44], block: &[u8; 16]) -> [u8; 16]
    ensures { (key : List ℕ) → IsScheduleOf key words.now → result ≡ cipher key block.now }
{
    store(enciphered_words(words, load(block)))
}

/// The block cipher AES-128 (FIPS 197, 5.1): what it makes of `block` under `key`.
pub fn aes_block(key: &[u8; 16], block: [u8; 16]) -> [u8; 16]
    ensures { result ≡ cipher key.now block }
{
    enciphered(&expanded(key), &block)
}
