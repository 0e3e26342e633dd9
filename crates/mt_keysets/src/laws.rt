//! The law of group key sets. It is the contract of a function that does nothing.

ghost use Rattle.mt_keysets.specs.Laws.{OthersLeaveThem, SetsAreItsOwn};

use mt_commission::steps_are_sound;
use mt_lasting::raised_ceilings_come_first;
use mt_machine::what_is_asked_is_the_same_on_the_veil;
use mt_opcreds::steps_are_moves;
use mt_runs::{reopenings_see_the_own_part, wholes_are_valid};

/// At each moment of a run, through every stop of the disk, the group key sets of a fabric are those that it had at first,
/// changed by its own KeySetWrite and KeySetRemove alone where these got status 0, sent or suppressed, and emptied wherever it
/// entered the table or left it. A line in which the disk stopped counts exactly where its change survived. So while it is in
/// the table no line of another changes them, and no time step, expiry or reopening.
pub fn key_sets_are_their_fabrics_own()
    ensures run { SetsAreItsOwn }
    ensures others { OthersLeaveThem }
{
    wholes_are_valid();
    reopenings_see_the_own_part();
    raised_ceilings_come_first();
    what_is_asked_is_the_same_on_the_veil();
    steps_are_moves();
    steps_are_sound();
}
