//! The tags of a structure's members, none of which may stand there twice.

ghost use Rattle.std.specs.Prelude.{◌≡◌, ◌<◌, [], ◌∷◌, ◌++◌, ◌||◌, ℕ, List, not, IfOk, OnOk, nat_eq};
ghost use Rattle.std.specs.Int.{bit_at};
ghost use Rattle.mt_tlv.specs.declared.value.Tag.{Tag};
ghost use Rattle.mt_tlv.specs.Limits.{IsTag, is_tag_in};
ghost use Rattle.mt_tlv.specs.Tags.{HasExactly, has_context, key_of as key_of_tag};

use crate::value::Tag;
use std::alloc::{AllocError, Global};
use std::collections::BTreeSet;

// Above the keys of all tags but the anonymous one.
const FIRST_KEY: u128 = 1 << 67;

/// A set of tags. Context tags take no memory; the others take it where they come, and the time for
/// one of them grows with the logarithm of their number.
#[derive(Drop)]
pub(crate) struct TagSet {
    // Bit n % 64 of word n / 64 is of the context tag n.
    contexts: [u64; 4],
    // The other tags, by their keys.
    others: BTreeSet<u128>,
}

impl TagSet {
    /// The set with no tag, which takes no memory.
    pub(crate) fn new(alloc: Global) -> TagSet
        ensures { HasExactly result [] }
    {
        TagSet {
            contexts: [0; 4],
            others: BTreeSet::new(alloc),
        }
    }

    /// Puts a tag into the set, and answers whether it was not there yet.
    pub(crate) fn insert(&mut self, tag: Tag) -> Result<bool, AllocError>
        ensures new { (tags : List Tag) → HasExactly self.old tags → IfOk result (λ new. new ≡ not (is_tag_in tag tags)) }
        ensures kept { (tags : List Tag) → HasExactly self.old tags → OnOk result (HasExactly self.new (tags ++ tag ∷ [])) }
    {
        if let Tag::Context(number) = tag {
            return Ok(insert_context(&mut self.contexts, number));
        }
        Ok(self.others.insert(key_of(tag))?)
    }
}

// Marks the context tag, and answers whether it was not marked yet.
fn insert_context(contexts: &mut [u64; 4], number: u8) -> bool
    ensures new { result ≡ not (has_context contexts.old number) }
    ensures marked { (n : ℕ) → n < 256 → has_context contexts.new n ≡ (nat_eq number n || has_context contexts.old n) }
{
    let place = number as usize / 64;
    let bit = number % 64;
    let word = contexts[place];
    contexts[place] = word | 1 << bit;
    word >> bit & 1 == 0
}

// A number of its own for each tag. It falls as the tag's number rises: most tags stand in rising order, and
// the tree finds the place of a key below all others soonest.
fn key_of(tag: Tag) -> u128
    ensures key { result ≡ key_of_tag tag }
    ensures fits { IsTag tag }
{
    match tag {
        Tag::Anonymous => FIRST_KEY,
        Tag::Context(number) => FIRST_KEY - (1 << 64) - number as u128,
        Tag::Common(number) => FIRST_KEY - (2 << 64) - number as u128,
        Tag::Implicit(number) => FIRST_KEY - (3 << 64) - number as u128,
        Tag::Full {
            vendor,
            profile,
            number,
        } => {
            FIRST_KEY
                - (4 << 64)
                - ((vendor as u128) << 48)
                - ((profile as u128) << 32)
                - number as u128
        }
    }
}
