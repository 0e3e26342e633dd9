//! The written machine: what the node is, event by event, and what it sends. What a request is answered
//! stands with the crates that answer; here is what joins them. The definitions stand in `specs/`, a
//! chapter a file; the functions here do nothing, and their contracts are the laws of the machine.
//!
//! - `State`: the state of the node and of the whole, and what holds of every state;
//! - `Isolation`: what is a fabric's own, what is public to it, and the veil that is built of both;
//! - `Observation`: what a fabric observes of a state, of which all its answers are made;
//! - `Effects`: what each step makes of the state;
//! - `Changes`: what data versions and change numbers follow from comparing two states;
//! - `Commands`: what a command comes to;
//! - `Requests`: what the crates that answer requests say of their steps;
//! - `Step`: one step of the node: who asks, what is replied, the state behind it;
//! - `Deadlines`: what holds of the deadlines of plain actors;
//! - `Lines`: one line of a recording: its action, what is sent, the state behind it;
//! - `Rollback`: what an expiry of the fail-safe takes back;
//! - `Expiries`: that every expiry is one, whichever way it comes, and what it leaves;
//! - `Opened`: the state in which a new node begins;
//! - `Taking`: which steps a state takes, so that it stays valid;
//! - `Touching`: which steps of commissioning may change what is a fabric's own, and which a fabric makes;
//! - `Leaving`: which fabrics leave the table between two states;
//! - `Telling`: which events an action tells;
//! - `Settings`: of what kinds the steps are that set values;
//! - `Joins`: what steps of commissioning and an expiry make of a bench node;
//! - `Laws`: the laws.
#![tactic(auto)]

ghost use Rattle.std.specs.Prelude.{◌≡◌, ◌∷◌, [], Some, None, codes};
ghost use Rattle.mt_model.specs.declared.node.action.NodeStep.TheVariants.{RemoveFabric};
ghost use Rattle.mt_model.specs.declared.node.state.Standing.TheVariants.{Live, Ended};
ghost use Rattle.mt_machine.specs.Bench.{bench_entries};
ghost use Rattle.mt_machine.specs.Deadlines.{ActionsKeepDeadlines, PlainLinesKeepDeadlines};
ghost use Rattle.mt_machine.specs.Effects.{after_all};
ghost use Rattle.mt_machine.specs.Expiries.{ExpiriesComeFirst, ExpiriesRollBack, RollbacksLeave};
ghost use Rattle.mt_machine.specs.Joins.{end_of, first_administrator, indexes, joined_again, joined_by, labels, left_by_owner, nocs, node_label, number_row, owner_and_context, plain_pase, renewed_late, rows_at, session_pase, standings, ticked, updated_node};
ghost use Rattle.mt_machine.specs.Laws.{ActionsKeepTheOwn, ActionsLeaveTheOwnOnTheVeil, AllStayValid, AskersAreKnown, BeginsValid, ChangesNowhere, DeadlinesOnTheVeil, EndsNothing, ExpiresWhereDue, HidesWhatIsSaved, KeepsItsOwnPart, KeepsItsPublicView, KeepsTheOwn, LeavesItsOwnByItsView, LeavesTheOwnOnTheVeil, LeftIsGone, LeftIsGoneBehindAnExpiry, LinesAskOnTheVeil, LinesReplyOnTheVeil, OneLeaves, OneLeavesOnTheVeil, OpensValid, PassesOtherwise, RemovalsSeeTheVeil, RollsBackValid, SavesWhatItHad, SeesItsViewAlone, SeesTheVeil, SendsOnTheVeil, SessionsKeepTheirIds, SetsTheTime, SettingStepsTell, SparesOthers, StandsInOrder, StaysSettled, StaysValid, StepsSeeTheVeil, StepsSpareOthers, StepsOnTheVeil, StepsStayValid, TakenValuesFit, TakesItsSteps, TakesTheAddedAway, TellsItsOwn, TicksOnTheVeil, TicksSeeTheMarkAlone, TicksSpareOthers, TicksTakeOne, TimeKeepsTheOwn, TimesStayValid};
ghost use Rattle.mt_machine.specs.Requests.{RequestLaws};
ghost use Rattle.mt_machine.specs.Rollback.{breadcrumb};
ghost use Rattle.mt_machine.specs.Samples.{acl_report, data_report, denial_report, empty_report, hidden_report, invalid_action, no_cluster_report, no_endpoint_report, read_acl, read_acl_anywhere, read_cluster_99, read_endpoint_7, read_on_off, sent_to_reader, too_deep};

use mt_admin::commands_are_sound;
use mt_commission::{steps_are_sound, steps_stand_first};
use mt_fabrics::{the_index_is_the_least, valid_tables_stay_valid};
use mt_groupkeys::steps_are_sound as key_steps_are_sound;
use mt_meta::stored_places_are_those_of_the_model;
use mt_model::{
    entries_are_in_order, fabrics_are_in_order, numbered_fabrics_ascend,
    rows_of_a_place_are_in_order, set_entries_stand_in_order, set_rows_stand_in_order,
    what_is_told_the_same_is, what_stays_stands_in_order,
};
use mt_opcreds::{steps_are_moves, steps_are_well_formed, steps_fit};
use mt_subs::changes_stay_in_order;
use mt_write::{nobody_writes_scoped, writes_keep_forms, writes_touch_their_own};

/// What a fabric observes of a state is what it observes of the veil, which is made of its own part and
/// of what is public to it.
pub fn sees_the_veil()
    ensures { SeesTheVeil }
{}

/// The veil has the own part of its fabric and what is public to it, as the state has them. What an expiry
/// gives back, saved credentials and networks, is public to nobody.
pub fn veil_keeps_both_parts()
    ensures own { KeepsItsOwnPart }
    ensures view { KeepsItsPublicView }
    ensures saved { HidesWhatIsSaved }
{}

/// What an event sends on the veil of its fabric is what it sends on the state.
pub fn sends_on_the_veil()
    ensures { SendsOnTheVeil }
{}

/// What an event sends is determined by the own part of its fabric and by what is public to it.
pub fn sees_its_view_alone()
    ensures { SeesItsViewAlone }
{}

/// On the veil of its fabric an event leaves the same own part as on the state. So does what an actor asks.
pub fn leaves_the_own_on_the_veil()
    ensures event { LeavesTheOwnOnTheVeil }
    ensures action { ActionsLeaveTheOwnOnTheVeil }
{
    requests_keep_rules();
    stored_places_are_those_of_the_model();
    the_index_is_the_least();
    steps_see_the_veil();
}

/// The own part that an event leaves to its fabric is determined by that part and by what is public to it, as
/// both were before the event.
pub fn leaves_its_own_by_its_view()
    ensures { LeavesItsOwnByItsView }
{
    requests_keep_rules();
    stored_places_are_those_of_the_model();
    the_index_is_the_least();
    steps_see_the_veil();
}

/// An event that is no time step changes nothing that is the own of another fabric, unless that enters the table or
/// leaves it. Neither does what an actor asks; where time alone passes every own part stays.
pub fn keeps_the_own()
    ensures event { KeepsTheOwn }
    ensures action { ActionsKeepTheOwn }
    ensures time { TimeKeepsTheOwn }
{
    requests_keep_rules();
    set_rows_stand_in_order();
    set_entries_stand_in_order();
    what_stays_stands_in_order();
    the_index_is_the_least();
    steps_leave_states_valid();
}

/// The state of a new node is valid, and so is that in which a boot begins with what was kept. A valid state takes the steps of each action one after the other, and each
/// action leaves it valid.
pub fn states_are_valid()
    ensures opens { OpensValid }
    ensures begins { BeginsValid }
    ensures takes { TakesItsSteps }
    ensures times { TimesStayValid }
    ensures stays { StaysValid }
{
    requests_keep_rules();
    numbered_fabrics_ascend();
    valid_tables_stay_valid();
    the_index_is_the_least();
    set_rows_stand_in_order();
    set_entries_stand_in_order();
    what_stays_stands_in_order();
    changes_stay_in_order();
}

/// A time step lets the fail-safe expire exactly where it is armed and its end has come, and then makes the
/// rollback of the state; otherwise it sets the time alone. It leaves a fabric that was neither added nor
/// updated its own part, and what it leaves to any fabric is determined by that part and by what is public.
pub fn ticks_let_the_failsafe_expire()
    ensures due { ExpiresWhereDue }
    ensures otherwise { PassesOtherwise }
    ensures gone { TakesTheAddedAway }
    ensures others { TicksSpareOthers }
    ensures veil { TicksOnTheVeil }
    ensures mark { TicksSeeTheMarkAlone }
{
    what_is_told_the_same_is();
    set_rows_stand_in_order();
    set_entries_stand_in_order();
    what_stays_stands_in_order();
}

/// What an expiry of the fail-safe leaves of a valid state is valid, and a fabric that was neither added nor
/// updated keeps its own part as it is.
pub fn expiries_spare_others()
    ensures valid { RollsBackValid }
    ensures own { SparesOthers }
{
    set_rows_stand_in_order();
    set_entries_stand_in_order();
    what_stays_stands_in_order();
}

/// Of the deadlines of plain actors a fabric has no more than it may, each actor one, and each is of a fabric of the
/// table or of none: lines leave them so.
pub fn deadlines_stand()
    ensures lines { PlainLinesKeepDeadlines }
    ensures actions { ActionsKeepDeadlines }
{}

/// An expiry of the fail-safe comes first among the steps of an action, whichever way it comes: by a time step, by
/// ArmFailSafe with 0 seconds, or by the removal of the fabric for which commissioning goes on. The state behind it is the
/// rollback of the state before, with what the other steps make of that; and a rollback leaves of each field what it says.
pub fn expiries_roll_back()
    ensures first { ExpiriesComeFirst }
    ensures back { ExpiriesRollBack }
    ensures leaves { RollbacksLeave }
{
    requests_keep_rules();
    set_rows_stand_in_order();
    what_stays_stands_in_order();
}

/// Each step that a valid state takes leaves it valid, whether it sets values or is on networks, the fail-safe or
/// the fabric table: the limits hold, and the facts of the fail-safe. So do all that it takes one after the other.
pub fn steps_leave_states_valid()
    ensures each { StepsStayValid }
    ensures all { AllStayValid }
{
    set_rows_stand_in_order();
    set_entries_stand_in_order();
    what_stays_stands_in_order();
    valid_tables_stay_valid();
    the_index_is_the_least();
}

/// A step of commissioning changes nothing that is another fabric's own; a fabric that gets new credentials
/// sees as its own those that it had.
pub fn steps_spare_others()
    ensures others { StepsSpareOthers }
    ensures saves { SavesWhatItHad }
{
    set_rows_stand_in_order();
    set_entries_stand_in_order();
    what_stays_stands_in_order();
}

/// On the veil of the fabric that makes it, a step of commissioning leaves the same own part as on the state, and
/// so does a removal behind an expiry, by which a fabric leaves for which commissioning goes on.
pub fn steps_see_the_veil()
    ensures each { StepsSeeTheVeil }
    ensures removal { RemovalsSeeTheVeil }
{}

/// By a step at most one fabric leaves the table: the first that is not there any more. So it is with a removal
/// behind an expiry that takes no fabric away, and so with every action, also on the veil of whoever asks, and with
/// a time step of whatever state.
pub fn one_leaves()
    ensures each { LeftIsGone }
    ensures removal { LeftIsGoneBehindAnExpiry }
    ensures action { OneLeaves }
    ensures veil { OneLeavesOnTheVeil }
    ensures tick { TicksTakeOne }
{
    requests_keep_rules();
    stored_places_are_those_of_the_model();
}

/// An action that makes no step sets the time, and nothing else of the state: no version moves, since none does
/// where nothing differs. The steps that a state takes and that set values set rows of stored places and entries of the
/// fabric that they name, or tell of events. Steps that set rows of stored places and access control entries, or tell of events, end no
/// session and take no fabric away.
pub fn actions_set_values()
    ensures time { SetsTheTime }
    ensures settled { StaysSettled }
    ensures nowhere { ChangesNowhere }
    ensures taken { TakenValuesFit }
    ensures nothing_ends { EndsNothing }
{
    what_is_told_the_same_is();
    stored_places_are_those_of_the_model();
}

/// Each event among an action's steps is told to the asker's fabric alone, or to all. Steps that set values tell the events
/// among them, and nothing besides.
pub fn actions_tell_their_own()
    ensures own { TellsItsOwn }
    ensures setting { SettingStepsTell }
{
    requests_keep_rules();
}

/// The actor of a line is taken as the same one on the veil of the fabric for which the line acts, or as nobody on both.
/// Where an actor is, a line of it is replied the same there, its deadline is the same, and the steps of what it asks are.
/// Whoever is taken as asking is of a fabric of the table, or of none.
pub fn what_is_asked_is_the_same_on_the_veil()
    ensures asker { LinesAskOnTheVeil }
    ensures reply { LinesReplyOnTheVeil }
    ensures deadline { DeadlinesOnTheVeil }
    ensures steps { StepsOnTheVeil }
    ensures known { AskersAreKnown }
{}

/// No action takes a session from its place or gives it another id.
pub fn sessions_keep_their_ids()
    ensures { SessionsKeepTheirIds }
{}

/// The rows of each place stand in the order in which every fabric sees them.
pub fn rows_stand_in_order()
    ensures { StandsInOrder }
{
    rows_of_a_place_are_in_order();
    entries_are_in_order();
    fabrics_are_in_order();
}

/// What steps of commissioning and an expiry make of a bench node, by hand: over PASE a fabric joins and its
/// session follows; one ms before the end nothing happens, and at the end the fabric is gone with its entry and
/// its root, Breadcrumb is 0 and a label that was written stands; its index is used again; the fabric for which
/// commissioning goes on does not leave by a removal, and the owner does; a fabric that was updated has its old
/// credentials and its new label; no renewal goes past 900 s.
pub fn samples_join_and_expire()
    ensures joined { indexes (joined_by 0 plain_pase) ≡ 1 ∷ 2 ∷ 3 ∷ [] }
    ensures owner { owner_and_context (joined_by 0 plain_pase) ≡ Some (3, 3) }
    ensures follows { (joined_by 0 plain_pase).plain ≡ Some 3 }
    ensures session_follows { standings (joined_by 0 session_pase) ≡ Live 1 ∷ Live 2 ∷ Live 3 ∷ [] }
    ensures not_yet { indexes (ticked 60004 (joined_by 0 plain_pase)) ≡ 1 ∷ 2 ∷ 3 ∷ [] }
    ensures gone { indexes (ticked 60005 (joined_by 0 plain_pase)) ≡ 1 ∷ 2 ∷ [] }
    ensures entries { (ticked 60005 (joined_by 0 plain_pase)).entries ≡ bench_entries }
    ensures roots { (ticked 60005 (joined_by 0 plain_pase)).roots ≡ (0xa1 ∷ []) ∷ (0xa2 ∷ []) ∷ [] }
    ensures breadcrumb { rows_at breadcrumb (ticked 60005 (joined_by 0 plain_pase)) ≡ number_row breadcrumb 0 ∷ [] }
    ensures label_stays { rows_at node_label (ticked 60005 (joined_by 0 plain_pase)) ≡ rows_at node_label (joined_by 0 plain_pase) }
    ensures pase_ends { (ticked 60005 (joined_by 0 plain_pase)).plain ≡ None }
    ensures session_ends { standings (ticked 60005 (joined_by 0 session_pase)) ≡ Live 1 ∷ Live 2 ∷ Ended ∷ [] }
    ensures again { indexes joined_again ≡ 1 ∷ 2 ∷ 3 ∷ [] }
    ensures over_case { owner_and_context (joined_by 1 first_administrator) ≡ Some (1, 3) }
    ensures owner_leaves { indexes left_by_owner ≡ 2 ∷ 3 ∷ [] }
    ensures still_armed { owner_and_context left_by_owner ≡ Some (1, 3) }
    ensures context_stays { after_all (Some plain_pase) (RemoveFabric 3 ∷ []) (joined_by 0 plain_pase) ≡ joined_by 0 plain_pase }
    ensures updated { nocs updated_node ≡ (0xb9 ∷ []) ∷ (0xb2 ∷ []) ∷ [] }
    ensures given_back { nocs (ticked 60005 updated_node) ≡ (0xb1 ∷ []) ∷ (0xb2 ∷ []) ∷ [] }
    ensures new_label { labels (ticked 60005 updated_node) ≡ codes "uno" ∷ codes "two" ∷ [] }
    ensures limit { end_of renewed_late ≡ Some 900005 }
{}

/// What a new bench node sends to readers, byte by byte: the data where an entry names the node or a
/// CAT of its version or an earlier one, a denial where none does, and nothing to a fabric that is not
/// in the table; of others' access control entries whose they are and no more; nothing of what a
/// wildcard names without a grant; a denial before it is told that something is not there; a status for
/// what is no request.
pub fn samples_are_sent()
    ensures named_node { sent_to_reader 1 1 0 read_on_off ≡ data_report ∷ [] }
    ensures other_node { sent_to_reader 1 9 0 read_on_off ≡ denial_report ∷ [] }
    ensures unknown_fabric { sent_to_reader 3 1 0 read_on_off ≡ [] }
    ensures earlier_tag { sent_to_reader 2 5 0x10001 read_on_off ≡ denial_report ∷ [] }
    ensures same_tag { sent_to_reader 2 5 0x10002 read_on_off ≡ data_report ∷ [] }
    ensures later_tag { sent_to_reader 2 5 0x10003 read_on_off ≡ data_report ∷ [] }
    ensures others_entries { sent_to_reader 1 1 0 read_acl ≡ acl_report ∷ [] }
    ensures wildcard { sent_to_reader 2 5 0x10002 read_acl_anywhere ≡ empty_report ∷ [] }
    ensures hidden_endpoint { sent_to_reader 2 5 0x10002 read_endpoint_7 ≡ hidden_report ∷ [] }
    ensures no_endpoint { sent_to_reader 1 1 0 read_endpoint_7 ≡ no_endpoint_report ∷ [] }
    ensures no_cluster { sent_to_reader 2 5 0x10002 read_cluster_99 ≡ no_cluster_report ∷ [] }
    ensures malformed { sent_to_reader 1 1 0 too_deep ≡ invalid_action ∷ [] }
{}

// What the crates that answer requests say of the steps that requests make.
fn requests_keep_rules()
    ensures { RequestLaws }
{
    writes_touch_their_own();
    writes_keep_forms();
    nobody_writes_scoped();
    steps_are_sound();
    steps_stand_first();
    steps_are_well_formed();
    steps_fit();
    steps_are_moves();
    commands_are_sound();
    key_steps_are_sound();
}
