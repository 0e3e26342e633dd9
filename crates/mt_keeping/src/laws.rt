//! Laws that join commits, stops, recoveries and the states of nodes. Each is the contract of a function that does nothing.

ghost use Rattle.mt_keeping.specs.Laws.{ChangesLeadToOne, FirstChangesAreSaid, KeptMapsAreRecovered, KeptMapsTakeFourCalls, StatesAreReopened, StatesHaveMaps, StatesMayBeCommitted, StopsAreRecovered};

use mt_durable::{bytes_of_a_change_are_read, changes_lead_on, maps_have_images};
use mt_lasting::maps_and_changes_are_elements;
use mt_machine::expiries_spare_others;
use mt_regained::{durable_maps_are_kept, reopened_nodes_may_start, states_are_regained};
use mt_store::restarts_hold;

/// Of a journal in use is recovered what a node goes on with behind its map; and of what a stop in a commit has left, once the disk
/// was restarted, what one goes on with behind the map that `left` of that commit names.
pub fn journals_are_recovered()
    ensures kept { KeptMapsAreRecovered }
    ensures stopped { StopsAreRecovered }
{
    restarts_hold();
}

/// A commit makes four calls of the disk, but for the first to a file that has no head yet.
pub fn kept_maps_take_four_calls()
    ensures { KeptMapsTakeFourCalls }
{}

/// A change leads from a map to one alone. One that leads to the map of a valid state may be committed, and what a boot commits
/// first is a change.
pub fn states_may_be_committed()
    ensures one { ChangesLeadToOne }
    ensures may { StatesMayBeCommitted }
    ensures first { FirstChangesAreSaid }
    ensures some { StatesHaveMaps }
{
    bytes_of_a_change_are_read();
    changes_lead_on();
    maps_have_images();
    maps_and_changes_are_elements();
    durable_maps_are_kept();
}

/// The map with which a node goes on that kept what is durable of a valid state begins the reopening of that state.
pub fn states_are_reopened()
    ensures { StatesAreReopened }
{
    durable_maps_are_kept();
    states_are_regained();
    expiries_spare_others();
    reopened_nodes_may_start();
}
