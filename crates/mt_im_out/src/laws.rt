//! Laws of the payloads of a report, over the definitions alone. Each is the contract of a function that
//! does nothing.

ghost use Rattle.std.specs.Prelude.{◌≡◌, ◌≢◌, ◌≤◌, ◌<◌, ◌^◌, ◌++◌, [], ◌∷◌, true, false, ℕ, Bool, List, Option, IfSome, All, map};
ghost use Rattle.std.specs.List.{flat_map};
ghost use Rattle.mt_tlv.specs.Tree.{Elements};
ghost use Rattle.mt_model.specs.declared.limits.TheConstants.{ITEM_BYTES};
ghost use Rattle.mt_model.specs.declared.messages.message.Index.TheVariants.{Whole};
ghost use Rattle.mt_model.specs.declared.messages.message.Item.{Item};
ghost use Rattle.mt_model.specs.declared.messages.message.Path.{Path};
ghost use Rattle.mt_model.specs.declared.messages.message.Reply.TheVariants.{Report};
ghost use Rattle.mt_im_out.specs.Chunks.{Part, size_of, attribute_items, event_items, split_list, split_items, greedy, parts_of, report_payload, report_payloads, chunks_of};
ghost use Rattle.mt_im_out.specs.Greedy.{IsShort, IsWithin, IsOfOneKind, AreFull, IsGreedySplit, IsShortPayload, trees, brought};

use mt_tlv::values_are_trees;

/// The payloads have the items and no others, in their order: those of attributes, with the lists split
/// that are too long, and those of events. No payload has items of both kinds.
pub fn payloads_have_the_items()
    ensures attributes { (items : List Item) → flat_map (λ (part : Part). part.attributes) (parts_of items) ≡ split_items (attribute_items items) }
    ensures events { (items : List Item) → flat_map (λ (part : Part). part.events) (parts_of items) ≡ event_items items }
    ensures apart { (items : List Item) → All IsOfOneKind (parts_of items) }
{}

/// The items of a payload have at most `ITEM_BYTES` bytes together, where that holds of each item of an
/// attribute once lists are split, and of the items of events together.
pub fn payloads_are_within()
    ensures { (items : List Item) → All IsShort (split_items (attribute_items items)) → size_of (event_items items) ≤ ITEM_BYTES → All IsWithin (parts_of items) }
{}

/// Each payload has as many items as go into it: the next item of an attribute would have been too much.
pub fn payloads_are_full()
    ensures { (items : List Item) → AreFull (parts_of items) }
{}

/// Greedy payloads are the one split in which each payload has as many items as go into it.
pub fn greedy_is_the_one_split()
    ensures is_one { (items : List Item) → IsGreedySplit items (greedy items) }
    ensures only { (items : List Item) (parts : List (List Item)) → IsGreedySplit items parts → parts ≡ greedy items }
{}

/// All payloads but the last say that more follows and that a confirmation is wanted. The last one says
/// that nothing follows.
pub fn last_payload_ends()
    ensures { (subscription : Option ℕ) (suppress : Bool) (parts : List Part) (last : Part)
        → report_payloads subscription suppress (parts ++ last ∷ [])
        ≡ map (λ part. report_payload subscription part true false) parts ++ report_payload subscription last false suppress ∷ [] }
{}

/// A payload of a report has at most 16 bytes more than `ITEM_BYTES`, where its items keep to `ITEM_BYTES` as
/// in `payloads_are_within`.
pub fn payloads_are_short()
    ensures { (subscription : Option ℕ) (items : List Item) (suppress : Bool) → IfSome subscription (λ id. id < 2 ^ 32)
        → All IsShort (split_items (attribute_items items)) → size_of (event_items items) ≤ ITEM_BYTES
        → All IsShortPayload (chunks_of (Report subscription items suppress)) }
{}

/// The items that stand for a list bring its elements and no others, in their order.
pub fn split_lists_have_the_elements()
    ensures { (path : Path) (version : ℕ) (elements : Elements) → path.index ≡ Whole
        → flat_map brought (split_list path version elements) ≡ trees elements }
{
    values_are_trees();
}
