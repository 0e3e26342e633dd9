//! Laws of the format, over its definitions alone. Each is the contract of a function that does
//! nothing.

ghost use Rattle.std.specs.Prelude.{◌≡◌, ◌≢◌, ◌≤◌, ◌++◌, ◌⊎◌, List, ℕ, length, Ok, Err, None};
ghost use Rattle.mt_tlv.specs.declared.value.Tag.{Tag};
ghost use Rattle.mt_tlv.specs.declared.fault.TlvFault.{TlvFault};
ghost use Rattle.mt_tlv.specs.declared.fault.TlvFault.TheVariants.{Short, SameTag, Memory};
ghost use Rattle.mt_tlv.specs.declared.value.Value.{Value};
ghost use Rattle.mt_tlv.specs.Tree.{Tree};
ghost use Rattle.mt_tlv.specs.View.{tree, value_of};
ghost use Rattle.mt_tlv.specs.Narrow.{narrow};
ghost use Rattle.mt_tlv.specs.Limits.{IsTag, IsAllowed, IsElement, deepest, longest};
ghost use Rattle.mt_tlv.specs.Reading.{element_at};
ghost use Rattle.mt_tlv.specs.Parts.{start, next_at};
ghost use Rattle.mt_tlv.specs.Repeats.{IsRepeating};
ghost use Rattle.mt_tlv.specs.Runs.{parts_of, Comes, ComesToTheEnd, behind, Faults};

/// A value is what its tree says, and a tree is that of its value: neither tells more than the other.
pub fn values_are_trees()
    ensures value { (v : Value) → value_of (tree v) ≡ v }
    ensures tree { (t : Tree) → tree (value_of t) ≡ t }
{}

/// No element begins another, and bytes are the element of one tag and one value at most.
pub fn no_element_begins_another()
    ensures { (s t : Tag) (v w : Tree) (a b x y : List ℕ) → IsElement s v a → IsElement t w b → a ++ x ≡ b ++ y
        → (a ≡ b) × (s ≡ t) × (v ≡ w) }
{}

/// An element is read, in whatever widths it is spelled and whatever follows it.
pub fn element_is_read()
    ensures { (tag : Tag) (v : Tree) (bytes rest : List ℕ) → IsElement tag v bytes → element_at (bytes ++ rest) ≡ Ok ((tag, v), rest) }
{}

/// The narrow encoding of what is allowed is an element, where it is not too long.
pub fn narrow_is_element()
    ensures { (tag : Tag) (v : Tree) → IsTag tag → IsAllowed v deepest → length (narrow tag v) ≤ longest → IsElement tag v (narrow tag v) }
{}

/// What is written is read again, whatever follows it.
pub fn written_is_read()
    ensures { (tag : Tag) (v : Tree) (rest : List ℕ) → IsTag tag → IsAllowed v deepest → length (narrow tag v) ≤ longest
        → element_at (narrow tag v ++ rest) ≡ Ok ((tag, v), rest) }
{}

/// Bytes that follow change nothing of what was read, nor of a fault that was met: only what was cut off
/// may be read, or may have another fault, once more bytes are there.
pub fn later_bytes_change_nothing()
    ensures read { (bytes later rest : List ℕ) (tag : Tag) (v : Tree) → element_at bytes ≡ Ok ((tag, v), rest)
        → element_at (bytes ++ later) ≡ Ok ((tag, v), rest ++ later) }
    ensures fault { (bytes later : List ℕ) (e : TlvFault) → e ≢ Short → element_at bytes ≡ Err e → element_at (bytes ++ later) ≡ Err e }
{}

/// A cursor comes over the parts of an element in their order, whatever follows it, and then there is
/// none.
pub fn cursor_comes_over_the_element()
    ensures parts { (tag : Tag) (v : Tree) (bytes rest : List ℕ) → IsElement tag v bytes
        → Comes (start (bytes ++ rest)) (parts_of tag v) (behind (length (bytes ++ rest)) rest) }
    ensures end { (whole : ℕ) (rest : List ℕ) → next_at (behind whole rest) ≡ Ok (None, behind whole rest) }
{}

/// A cursor meets the fault that reading meets, and no other, whatever the bytes are. But it keeps no
/// tags: where a structure has a tag twice and reading stops, a cursor goes on, and may meet a fault
/// that stands behind. It never tells of such a tag, nor of memory.
pub fn cursor_meets_the_fault()
    ensures read { (bytes : List ℕ) (e : TlvFault) → e ≢ SameTag → element_at bytes ≡ Err e → Faults (start bytes) e }
    ensures met { (bytes : List ℕ) (e : TlvFault) → Faults (start bytes) e → (element_at bytes ≡ Err e) ⊎ (element_at bytes ≡ Err SameTag) }
    ensures never { (bytes : List ℕ) (e : TlvFault) → Faults (start bytes) e → (e ≢ SameTag) × (e ≢ Memory) }
{}

/// A cursor goes over repeated tags: where bytes are an element but for a tag that a structure has twice,
/// it comes over all parts in their order, whatever follows them. Reading stops there at such a tag,
/// unless the bytes are an element.
pub fn cursor_goes_over_repeated_tags()
    ensures parts { (tag : Tag) (v : Tree) (bytes rest : List ℕ) → IsRepeating tag v bytes
        → Comes (start (bytes ++ rest)) (parts_of tag v) (behind (length (bytes ++ rest)) rest) }
    ensures read { (tag : Tag) (v : Tree) (bytes rest : List ℕ) → IsRepeating tag v bytes → IsElement tag v bytes ⊎ (element_at (bytes ++ rest) ≡ Err SameTag) }
    ensures elements { (tag : Tag) (v : Tree) (bytes : List ℕ) → IsElement tag v bytes → IsRepeating tag v bytes }
{}

/// A cursor comes to the end of the element or meets a fault, whatever the bytes are.
pub fn cursor_ends_or_meets_a_fault()
    ensures { (bytes : List ℕ) → ComesToTheEnd (start bytes) ⊎ ((e : TlvFault) × Faults (start bytes) e) }
{}
