//! What holds of the definition of status codes, whatever the message. Each law is the contract of a
//! function that does nothing.

ghost use Rattle.std.specs.Prelude.{◌≡◌, ℕ, [], ◌∷◌};
ghost use Rattle.mt_tlv.specs.declared.value.Value.{Value};
ghost use Rattle.mt_tlv.specs.Tree.{Tree};
ghost use Rattle.mt_model.specs.declared.messages.message.Happened.{Happened};
ghost use Rattle.mt_model.specs.declared.messages.message.Item.TheVariants.{Attribute, Refused, Event, EventRefused};
ghost use Rattle.mt_model.specs.declared.messages.message.Path.{Path};
ghost use Rattle.mt_model.specs.messages.Blocks.{item_tree, refused_tree};
ghost use Rattle.mt_soak.specs.Codes.{codes_at};
ghost use Rattle.mt_soak.specs.Paths.{in_report, in_status};

/// A status has its own code, whatever its path is. So has an item of a report that was refused, and data
/// have none, whatever their value is.
pub fn items_have_their_codes()
    ensures status { (path : Tree) (code : ℕ) → codes_at (refused_tree path code) in_status ≡ code ∷ [] }
    ensures refused { (path : Path) (code : ℕ) → codes_at (item_tree (Refused path code)) in_report ≡ code ∷ [] }
    ensures event_refused { (path : Path) (code : ℕ) → codes_at (item_tree (EventRefused path code)) in_report ≡ code ∷ [] }
    ensures attribute { (path : Path) (version : ℕ) (value : Value) → codes_at (item_tree (Attribute path version value)) in_report ≡ [] }
    ensures event { (happened : Happened) → codes_at (item_tree (Event happened)) in_report ≡ [] }
{}
