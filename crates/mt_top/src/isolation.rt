//! Laws of every run. The functions do nothing, and their contracts are the laws.

ghost use Rattle.mt_top.specs.Clusters.{KeySetsAreTheirOwn, KeysAreSecret, WindowsAreExact};
ghost use Rattle.mt_top.specs.Compared.{ComparisonsAreExact};
ghost use Rattle.mt_top.specs.Denials.{DenialsAreExact};
ghost use Rattle.mt_top.specs.Isolated.{RunsAreIsolated};

use mt_compare::{
    equal_marks_do_not_differ, equal_marks_have_equal_messages, runs_are_their_messages,
    wholes_are_valid,
};
use mt_files::recordings_are_read;

/// Of every configuration and every recording: the lines to which they come are the messages of the written run, each to one
/// fabric; and whatever other run there is in which a fabric begins with the same own part and has the same marks, that fabric
/// is sent the same in it, byte for byte, through every stop of the disk.
pub fn runs_are_isolated()
    ensures { RunsAreIsolated }
{
    wholes_are_valid();
    runs_are_their_messages();
    equal_marks_have_equal_messages();
    recordings_are_read();
}

/// Whatever is asked in a run, it is denied exactly where neither the implicit entry nor one of the asker's own fabric grants
/// what is asked there.
pub fn denials_are_exact()
    ensures { DenialsAreExact }
{
    mt_events::event_denials_are_exact();
    mt_read::read_denials_are_exact();
    mt_write::write_denials_are_exact();
    mt_invoke::command_denials_are_exact();
}

/// Two recordings are told to be alike for a fabric exactly where its marks are equal in both; else the first mark that differs is
/// told.
pub fn comparisons_are_exact()
    ensures { ComparisonsAreExact }
{
    equal_marks_do_not_differ();
}

/// A commissioning window is open from the line that opens it up to the line that closes it, in whatever run, and its commands are refused
/// exactly where a cause stands.
pub fn windows_are_exact()
    ensures { WindowsAreExact }
{
    mt_windows::windows_are_as_commands_leave_them();
    mt_windows::refusals_of_windows_are_exact();
}

/// The group key sets of a fabric are what its own commands made of them, in whatever run.
pub fn key_sets_are_their_own()
    ensures { KeySetsAreTheirOwn }
{
    mt_keysets::key_sets_are_their_fabrics_own();
}

/// No epoch key of a group key set is ever sent: two recordings that say the same but for such keys come to the same output.
pub fn keys_are_secret()
    ensures { KeysAreSecret }
{
    mt_secrecy::keys_are_never_sent();
}
