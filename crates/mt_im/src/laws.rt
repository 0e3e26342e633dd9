//! Laws of requests, over their definitions alone. Each is the contract of a function that does nothing.

ghost use Rattle.std.specs.Prelude.{◌≡◌, ◌↔◌, ◌++◌, List, [], ℕ, Ok, Err};
ghost use Rattle.mt_tlv.specs.declared.value.Tag.TheVariants.{Anonymous};
ghost use Rattle.mt_tlv.specs.Limits.{IsAllowed, deepest};
ghost use Rattle.mt_tlv.specs.Narrow.{narrow};
ghost use Rattle.mt_tlv.specs.Reading.{element_at};
ghost use Rattle.mt_tlv.specs.Tree.{Tree, Elements};
ghost use Rattle.mt_model.specs.declared.messages.message.Request.{Request};
ghost use Rattle.mt_im.specs.declared.fault.ImFault.TheVariants.{Missing, Form};
ghost use Rattle.mt_im.specs.declared.messages.Kind.{Kind};
ghost use Rattle.mt_im.specs.Faults.{missing, malformed, IsLowest};
ghost use Rattle.mt_im.specs.Limits.{Fits, IsRequest, IsRequestIn, IsWithinLimits};
ghost use Rattle.mt_im.specs.Reading.{kind_of, message_in, request_at, request_in};
ghost use Rattle.mt_im.specs.Requests.{opcode_of, request_tree};
ghost use Rattle.mt_im.specs.Spelling.{RequestSpells};

use mt_tlv::{element_is_read, values_are_trees, written_is_read};

/// A request that a tree spells within the limits is read from the tree, in whatever order and widths it is
/// spelled; and so it is from bytes, whatever follows it.
pub fn request_is_read()
    ensures tree { (opcode : ℕ) (request : Request) (v : Tree) → RequestSpells opcode request v → IsWithinLimits request
        → request_at opcode v ≡ Ok request }
    ensures bytes { (opcode : ℕ) (request : Request) (bytes : List ℕ) → IsRequestIn opcode request bytes
        → request_in opcode bytes ≡ Ok request }
{
    element_is_read();
    values_are_trees();
}

/// What is read from a tree is a request that the tree spells, within the limits.
pub fn request_is_spelled()
    ensures { (opcode : ℕ) (request : Request) (v : Tree) → request_at opcode v ≡ Ok request
        → RequestSpells opcode request v × IsWithinLimits request }
{
    values_are_trees();
}

/// Under one opcode a tree spells one request at most within the limits.
pub fn no_other_request()
    ensures { (opcode : ℕ) (request other : Request) (v : Tree) → RequestSpells opcode request v → IsWithinLimits request
        → RequestSpells opcode other v → IsWithinLimits other → request ≡ other }
{
    values_are_trees();
}

/// The numbers and values of a request that an element spells fit what it is encoded as. So what was decoded
/// can be encoded, where that is not too long.
pub fn spelled_fits()
    ensures { (opcode : ℕ) (request : Request) (v : Tree) → RequestSpells opcode request v → IsAllowed v deepest → Fits request }
{}

/// What a request is encoded as spells it, and is decoded again, whatever follows it.
pub fn encoded_is_decoded()
    ensures spelled { (request : Request) → IsRequest request → RequestSpells (opcode_of request) request (request_tree request) }
    ensures decoded { (request : Request) (rest : List ℕ) → IsRequest request
        → request_in (opcode_of request) (narrow Anonymous (request_tree request) ++ rest) ≡ Ok request }
{
    values_are_trees();
    written_is_read();
}

/// The fault of a message is Missing of the lowest required tag that it lacks. Where it lacks none, it is Form
/// of the lowest tag whose field is malformed.
pub fn the_lowest_tag_is_told()
    ensures missing { (opcode : ℕ) (bytes : List ℕ) (kind : Kind) (fields : Elements) (n : ℕ)
        → kind_of opcode ≡ Ok kind → message_in (element_at bytes) ≡ Ok fields
        → (request_in opcode bytes ≡ Err (Missing n)) ↔ IsLowest n (missing kind fields) }
    ensures malformed { (opcode : ℕ) (bytes : List ℕ) (kind : Kind) (fields : Elements) (n : ℕ)
        → kind_of opcode ≡ Ok kind → message_in (element_at bytes) ≡ Ok fields
        → (request_in opcode bytes ≡ Err (Form n)) ↔ ((missing kind fields ≡ []) × IsLowest n (malformed kind fields)) }
{}
