//! What the steps that are to be made leave somewhere.

ghost use Rattle.std.specs.Prelude.{◌≡◌, ◌==◌, ◌&&◌, None, IfOk, option_map};
ghost use Rattle.std.specs.Option.{option_or};
ghost use Rattle.mt_model.specs.rows.Sight.{same_place};
ghost use Rattle.mt_write.specs.Latest.{entries_set, latest, row_set};

use mt_model::{AclEntries, NodeStep, Place, Values};

/// The rows that the latest step sets there, None where none does.
pub fn latest_row<'a>(steps: &'a [NodeStep], place: &Place, fabric: u8) -> Option<&'a Values>
    ensures { option_map (λ values. values.now) result ≡ latest (row_set place.now fabric) None steps.now }
{
    let mut found: Option<&'a Values> = None;
    for step in steps {
        found = newer_row(row_set(step, place, fabric), found);
    }
    found
}

fn newer_row<'a>(set: Option<&'a Values>, before: Option<&'a Values>) -> Option<&'a Values>
    ensures { option_map (λ values. values.now) result ≡ option_or (option_map (λ values. values.now) set.entry) (option_map (λ values. values.now) before.entry) }
{
    match set {
        Some(values) => Some(values),
        None => before,
    }
}

fn row_set<'a>(step: &'a NodeStep, place: &Place, fabric: u8) -> Option<&'a Values>
    ensures { option_map (λ values. values.now) result ≡ row_set place.now fabric step.now }
{
    match step {
        NodeStep::SetRow {
            place: at,
            fabric: whose,
            values,
        } if same_place(at, place) && *whose == fabric => Some(values),
        _ => None,
    }
}

fn same_place(at: &Place, place: &Place) -> bool
    ensures { result ≡ same_place at.now place.now }
{
    at.endpoint == place.endpoint && at.cluster == place.cluster && at.leaf == place.leaf
}

/// The entries that the latest step sets, None where none does.
pub fn latest_entries(steps: &[NodeStep], fabric: u8) -> Option<&AclEntries>
    ensures { option_map (λ entries. entries.now) result ≡ latest (entries_set fabric) None steps.now }
{
    let mut found: Option<&AclEntries> = None;
    for step in steps {
        found = newer_entries(entries_set(step, fabric), found);
    }
    found
}

fn newer_entries<'a>(
    set: Option<&'a AclEntries>,
    before: Option<&'a AclEntries>,
) -> Option<&'a AclEntries>
    ensures { option_map (λ entries. entries.now) result ≡ option_or (option_map (λ entries. entries.now) set.entry) (option_map (λ entries. entries.now) before.entry) }
{
    match set {
        Some(entries) => Some(entries),
        None => before,
    }
}

fn entries_set(step: &NodeStep, fabric: u8) -> Option<&AclEntries>
    ensures { option_map (λ entries. entries.now) result ≡ entries_set fabric step.now }
{
    match step {
        NodeStep::SetEntries {
            fabric: whose,
            entries,
        } if *whose == fabric => Some(entries),
        _ => None,
    }
}
