//! Laws of states that are regained from a map. Each is the contract of a function that does nothing.

ghost use Rattle.mt_regained.specs.Reopened.{GoesOnAgain, NewNodesBegin, ReopenedMayStart};
ghost use Rattle.mt_regained.specs.Laws.{BeginsValid, DurableIsKept, FirstBoots, KeepsOtherKeys, KeptAgain, RolledTwice, StatesAreRegained, StatesAreValid};
ghost use Rattle.mt_regained.specs.Reopening.{ReopeningsRollBack, ReopeningsSeeTheOwn, ReopeningsTakeTheAdded, ReopensValid, RolledIsRollback};

use mt_lasting::{maps_are_maps, maps_are_read_back};
use mt_machine::{expiries_roll_back, expiries_spare_others, states_are_valid};

/// A map of the grammar stands for a valid state, of which the same is kept.
pub fn states_are_regained()
    ensures valid { StatesAreValid }
    ensures again { KeptAgain }
{
    states_are_valid();
}

/// What is durable of a valid state is a map of the grammar, and what is kept of the state is kept in it.
pub fn durable_maps_are_kept()
    ensures { DurableIsKept }
{
    maps_are_maps();
    maps_are_read_back();
}

/// What is kept of a valid state stands for a state of which the same is kept. Rolled back twice is rolled back once, and
/// under each key that a rollback does not name it leaves what was there.
pub fn rollbacks_are_the_last_word()
    ensures again { StatesAreRegained }
    ensures twice { RolledTwice }
    ensures keys { KeepsOtherKeys }
{
    states_are_regained();
    durable_maps_are_kept();
    expiries_spare_others();
    expiries_roll_back();
}

/// The next boot begins in a valid state, and the first one in that of a new node.
pub fn boots_begin_valid()
    ensures valid { BeginsValid }
    ensures first { FirstBoots }
{
    states_are_valid();
    states_are_regained();
    durable_maps_are_kept();
    expiries_spare_others();
}

/// A node that is reopened with the map with which it goes on goes on with the same: what is rolled back stays so, and a loss of
/// power before the first commit changes nothing.
pub fn maps_go_on_again()
    ensures { GoesOnAgain }
{
    states_are_valid();
    states_are_regained();
    durable_maps_are_kept();
    expiries_roll_back();
    expiries_spare_others();
}

/// With the map with which it goes on a node may start, where it can count one more boot and has room for event numbers. A
/// new node may, in its first boot.
pub fn reopened_nodes_may_start()
    ensures reopened { ReopenedMayStart }
    ensures new { NewNodesBegin }
{
    states_are_valid();
    durable_maps_are_kept();
    boots_begin_valid();
    maps_go_on_again();
}

/// A reopened node is valid, where its boot is one that there may be. What it keeps is what was kept before, rolled back, but for
/// the number of the boot; and that is what is kept of the state, rolled back.
pub fn reopenings_roll_back()
    ensures valid { ReopensValid }
    ensures back { ReopeningsRollBack }
    ensures rolled { RolledIsRollback }
{
    states_are_regained();
    durable_maps_are_kept();
    boots_begin_valid();
    expiries_spare_others();
}

/// A loss of power leaves of a fabric's own part what is made of that part and of the boot, and of nothing else, where the fabric
/// was not added under the fail-safe. The fabrics of a reopened node are those that were there, but for the one that was.
pub fn reopenings_see_the_own()
    ensures own { ReopeningsSeeTheOwn }
    ensures members { ReopeningsTakeTheAdded }
{
    states_are_regained();
    durable_maps_are_kept();
    expiries_spare_others();
    expiries_roll_back();
}
