//! What an action changes of the durable map.

ghost use Rattle.std.specs.Prelude.{◌≡◌, ℕ, [], true, IfOk, None, List};
ghost use Rattle.std.specs.List.{list_all};
ghost use Rattle.mt_model.specs.declared.rows.place.Place.{Place};
ghost use Rattle.mt_machine.specs.Changes.{changed_at};
ghost use Rattle.mt_machine.specs.Effects.{after_all, is_setting_step};
ghost use Rattle.mt_machine.specs.Step.{at_time};
ghost use Rattle.mt_machine.specs.Taking.{may_take_all};
ghost use Rattle.mt_regained.specs.mt_lasting.Changes.{change_between};

use crate::node::Node;
use mt_durable::Change;
use mt_machine::steps_leave_states_valid;
use mt_model::NodeStep;
use mt_regained::{change_by_steps, only_what_lasts_changes};
use std::alloc::{AllocError, Global};

/// What steps change that set values and that the state takes, at whatever time.
pub(crate) fn change_set(node: &Node, steps: &[NodeStep]) -> Result<Change, AllocError>
    requires steps { list_all is_setting_step steps.now ≡ true }
    requires taken { may_take_all None steps.now node.now.state ≡ true }
    ensures { (places : List Place) (now ceiling : ℕ) → let timed = at_time now node.now.state in
        IfOk result (λ change. change ≡ change_between node.now.state ceiling (changed_at places timed (after_all None steps.now timed)) ceiling) }
{
    steps_leave_states_valid();
    only_what_lasts_changes();
    let change = change_by_steps(node.alloc, &node.state, steps)?;
    Ok(change)
}

/// The change that says nothing. It takes no memory.
pub(crate) fn no_change(alloc: Global) -> Change
    ensures { result ≡ [] }
{
    Change::from_vec(Vec::new(alloc))
}
