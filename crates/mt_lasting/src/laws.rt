//! Laws of maps and changes. Each is the contract of a function that does nothing.

ghost use Rattle.mt_lasting.specs.Laws.{ActionsKeepTheBoot, AnyonesStepsAreTaken, AnyonesStepsChangeTheSame, ArePlacesKept, ChangesAreChanges, ChangesAreSaid, ChangesAreShort, ChangesLeadOn, CommittedBytesSayIt, EmptyWhereEqual, KeptFactsHold, KeysAreRead, MapsAreMaps, MapsAreReadBack, MapsAreShort, MapsHaveImages, NothingElseChanges, NothingToCommit, OnlyWhatLastsChanges, RaisedCeilingsComeFirst, SameUnderAnyCeiling, SameValuesAreEqual};

use mt_tlv::narrow_is_element;

/// Each key is read as itself.
pub fn keys_are_read()
    ensures { KeysAreRead }
{}

/// The places of keys are those whose values the table of clusters keeps.
pub fn places_are_those_kept()
    ensures { ArePlacesKept }
{}

/// The keys of a state's map ascend, and each has a value.
pub fn maps_are_maps()
    ensures { MapsAreMaps }
{}

/// Values are told to be the same exactly where they are.
pub fn same_values_are_equal()
    ensures { SameValuesAreEqual }
{}

/// The keys of a change ascend. Put on the map of the first state it gives that of the second, and it is empty exactly
/// where they are equal.
pub fn changes_lead_on()
    ensures ascend { ChangesAreChanges }
    ensures lead { ChangesLeadOn }
    ensures empty { EmptyWhereEqual }
{}

/// The map of a valid state is read back as what is kept of it, and the facts of the grammar hold of that.
pub fn maps_are_read_back()
    ensures back { MapsAreReadBack }
    ensures facts { KeptFactsHold }
{}

/// The bytes of the map of a valid state are at most 65,535, and so are those of a change to one.
pub fn maps_and_changes_are_short()
    ensures maps { MapsAreShort }
    ensures changes { ChangesAreShort }
{}

/// The map of a valid state has an image, and a change to a valid state is one as bytes: what stands in them may stand in an
/// element.
pub fn maps_and_changes_are_elements()
    ensures maps { MapsHaveImages }
    ensures changes { ChangesAreSaid }
{
    narrow_is_element();
    maps_are_maps();
    changes_lead_on();
    maps_and_changes_are_short();
}

/// Of a state rows, entries, fabrics, roots, networks, the fail-safe and the boot last, and nothing else of it changes the map. So
/// what steps that set values change hangs neither on who asked nor on the time, and a state that takes them takes them of anyone.
pub fn only_what_lasts_changes()
    ensures alone { OnlyWhatLastsChanges }
    ensures nothing { NothingElseChanges }
    ensures steps { AnyonesStepsChangeTheSame }
    ensures taken { AnyonesStepsAreTaken }
{}

/// In a boot, which no action ends, a ceiling of event numbers that is raised stands in front of what else changes, and no other
/// change hangs on it.
pub fn raised_ceilings_come_first()
    ensures first { RaisedCeilingsComeFirst }
    ensures any { SameUnderAnyCeiling }
    ensures boot { ActionsKeepTheBoot }
{}

/// Nothing is to be committed exactly where two maps are equal. What is committed otherwise are the bytes of the change that leads
/// from the one to the other.
pub fn committed_bytes_say_the_change()
    ensures nothing { NothingToCommit }
    ensures said { CommittedBytesSayIt }
{
    changes_lead_on();
    maps_and_changes_are_elements();
}
