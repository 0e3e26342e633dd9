//! What the words of the command line ask for.

ghost use Rattle.std.specs.Prelude.{◌≡◌, true};
ghost use Rattle.mt_model.specs.texts.Contents.{contents_of};
ghost use Rattle.mt_endings.specs.Moments.{in_hand, input, moment};
ghost use Rattle.mt_journal.specs.Recovering.{OnlyRead};
ghost use Rattle.mt_words.specs.Words.{words_of};
ghost use Rattle.mt_top.specs.Asked.{CarriesOut, is_within};
ghost use Rattle.mt_top.specs.Runs.{IsRun};

use crate::comparing::compare_with;
use crate::isolation::{
    comparisons_are_exact, denials_are_exact, key_sets_are_their_own, keys_are_secret,
    runs_are_isolated, windows_are_exact,
};
use crate::replaying::replay_with;
use crate::soaking::soak_with;
use mt_asking::{ask_with, asked_is_opened, show_with, shown_is_exact};
use mt_compare::{expiries_are_rollbacks, reopenings_are_exact, replies_are_exact};
use mt_endings::{
    endings_add_up, endings_on_disk_add_up, finish, read_configuration, tell_bad_words, tell_memory,
};
use mt_model::Config;
use mt_outside::{Disk, Progress, Sink, Source, Unwatched};
use mt_settle::settle_with;
use mt_words::{Asked, WordsFault, asked_of};
use std::alloc::Global;

/// Does what the words say: `replay CONFIG RECORDING` starts a node with the configuration that
/// `config` gives, runs the recording that `first` gives on a disk in memory, which stops where the recording says, and writes
/// the output lines to `out`;
/// `compare F CONFIG FIRST SECOND` runs the recordings that `first` and `second` give, each on a node of its own, and writes
/// whether they are alike by what fabric F sees of them, or where they first differ;
/// `soak BEGIN COUNT CONFIG` runs COUNT events that are made from the number BEGIN, and writes a
/// summary of what is sent; `settle CONFIG JOURNAL` recovers the journal on `disk`, and writes a line for each key of the
/// map with which a node goes on; `ask S CONFIG SCRIPT` writes the recording of what a controller sends on session S for the
/// script that `first` gives, and `show S CONFIG OUTPUT` a line for each datagram of the output that `first` gives, opened on
/// session S. The answer is the exit status.
///
/// Status 0 means that all was written; 2 that the words have no form; 3 that the configuration is
/// none; 4 that a recording, a script or an output is none; 5 that `config`, `first` or `second` failed; 6 that `out` failed; 7 that
/// there was no memory; 8 that `disk` failed; 9 that the journal is none; 10 that a recording, a script or an
/// output is too long; 11 that two recordings differ; 15 that no session of boot 1 has the id S; 16 that no counter is left for
/// the message of a script. All but 0, 6 and 11 end the output with a line that names the fault.
pub fn run<C: Source, A: Source, B: Source, D: Disk, W: Sink>(
    alloc: Global,
    words: &[String],
    config: &mut C,
    first: &mut A,
    second: &mut B,
    disk: &mut D,
    out: &mut W,
) -> u8
    ensures run { IsRun (words_of words.now) result
        (input (D.contents disk.old) (D.faults disk.old)) (input (D.contents disk.new) (D.faults disk.new))
        (moment (input (C.left config.old) (C.faults config.old)) (input (A.left first.old) (A.faults first.old)) (input (B.left second.old) (B.faults second.old)) (W.written out.old) (W.faults out.old))
        (moment (input (C.left config.new) (C.faults config.new)) (input (A.left first.new) (A.faults first.new)) (input (B.left second.new) (B.faults second.new)) (W.written out.new) (W.faults out.new)) }
    // The disk is read and nothing else.
    ensures only_read { OnlyRead D.contents D.images D.moment D.images_since disk.old disk.new }
{
    run_watched(
        alloc,
        words,
        config,
        first,
        second,
        disk,
        out,
        &mut Unwatched,
    )
}

/// The same, and tells `progress` how far a soak is.
pub fn run_watched<C: Source, A: Source, B: Source, D: Disk, W: Sink, P: Progress>(
    alloc: Global,
    words: &[String],
    config: &mut C,
    first: &mut A,
    second: &mut B,
    disk: &mut D,
    out: &mut W,
    progress: &mut P,
) -> u8
    ensures run { IsRun (words_of words.now) result
        (input (D.contents disk.old) (D.faults disk.old)) (input (D.contents disk.new) (D.faults disk.new))
        (moment (input (C.left config.old) (C.faults config.old)) (input (A.left first.old) (A.faults first.old)) (input (B.left second.old) (B.faults second.old)) (W.written out.old) (W.faults out.old))
        (moment (input (C.left config.new) (C.faults config.new)) (input (A.left first.new) (A.faults first.new)) (input (B.left second.new) (B.faults second.new)) (W.written out.new) (W.faults out.new)) }
    // The disk is read and nothing else.
    ensures only_read { OnlyRead D.contents D.images D.moment D.images_since disk.old disk.new }
{
    runs_are_isolated();
    denials_are_exact();
    replies_are_exact();
    expiries_are_rollbacks();
    reopenings_are_exact();
    comparisons_are_exact();
    windows_are_exact();
    key_sets_are_their_own();
    keys_are_secret();
    asked_is_opened();
    shown_is_exact();
    endings_add_up();
    endings_on_disk_add_up();
    let asked = match asked_of(alloc, words) {
        Ok(asked) => asked,
        Err(WordsFault::Bad) => return tell_bad_words(out),
        Err(WordsFault::Memory) => return tell_memory(out),
    };
    match read_configuration(alloc, config) {
        Ok(config) => carry_out(alloc, asked, &config, first, second, disk, out, progress),
        Err(fault) => finish(alloc, fault, out),
    }
}

// Does what is asked for, with the configuration in hand.
fn carry_out<A: Source, B: Source, D: Disk, W: Sink, P: Progress>(
    alloc: Global,
    asked: Asked,
    config: &Config,
    first: &mut A,
    second: &mut B,
    disk: &mut D,
    out: &mut W,
    progress: &mut P,
) -> u8
    requires { is_within asked ≡ true }
    ensures ends { CarriesOut result asked (contents_of config.now)
        (input (D.contents disk.old) (D.faults disk.old)) (input (D.contents disk.new) (D.faults disk.new))
        (moment in_hand (input (A.left first.old) (A.faults first.old)) (input (B.left second.old) (B.faults second.old)) (W.written out.old) (W.faults out.old))
        (moment in_hand (input (A.left first.new) (A.faults first.new)) (input (B.left second.new) (B.faults second.new)) (W.written out.new) (W.faults out.new)) }
    ensures only_read { OnlyRead D.contents D.images D.moment D.images_since disk.old disk.new }
{
    match asked {
        Asked::Replay => replay_with(alloc, config, first, out),
        Asked::Compare { fabric } => compare_with(alloc, fabric, config, first, second, out),
        Asked::Soak { begin, count } => soak_with(alloc, config, begin, count, out, progress),
        Asked::Settle => settle_with(alloc, config, disk, out),
        Asked::Ask { session } => ask_with(alloc, session, config, first, out),
        Asked::Show { session } => show_with(alloc, session, config, first, out),
    }
}
