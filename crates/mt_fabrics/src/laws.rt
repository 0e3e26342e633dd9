//! What holds of a table after each change, over the definitions alone. Each is the contract of a
//! function that does nothing.

ghost use Rattle.std.specs.Prelude.{◌≡◌, ℕ, None, List};
ghost use Rattle.mt_model.specs.declared.tables.fabric.Credentials.{Credentials};
ghost use Rattle.mt_model.specs.declared.tables.fabric.Fabric.{Fabric};
ghost use Rattle.mt_fabrics.specs.Table.{IsLeastUnused, IsTable, add_refusal, added, label_refusal, labelled, least_unused, removed, update_refusal, updated};

/// In a table no fabric has the index that the next one gets, and each lower index from 1 is a fabric's.
pub fn the_index_is_the_least()
    ensures { (fabrics : List Fabric) → IsTable fabrics → IsLeastUnused (least_unused fabrics) fabrics }
{}

/// What is not refused makes a table of a table.
pub fn valid_tables_stay_valid()
    ensures added { (fabric : Fabric) (fabrics : List Fabric) → IsTable fabrics → add_refusal fabric fabrics ≡ None → IsTable (added fabric fabrics) }
    ensures updated { (index : ℕ) (given : Credentials) (fabrics : List Fabric) → IsTable fabrics → update_refusal index given fabrics ≡ None → IsTable (updated index given fabrics) }
    ensures removed { (index : ℕ) (fabrics : List Fabric) → IsTable fabrics → IsTable (removed index fabrics) }
    ensures labelled { (index : ℕ) (label : List ℕ) (fabrics : List Fabric) → IsTable fabrics → label_refusal index label fabrics ≡ None → IsTable (labelled index label fabrics) }
{}
