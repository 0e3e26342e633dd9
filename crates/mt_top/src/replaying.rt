//! Replaying a recording, with a configuration in hand.

ghost use Rattle.std.specs.Prelude.{◌≡◌, ◌≢◌, Some, Err, IfErr, OnOk};
ghost use Rattle.mt_model.specs.texts.Contents.{contents_of};
ghost use Rattle.mt_compare.specs.mt_runs.Expiries.{ExpiriesAreRollbacks};
ghost use Rattle.mt_compare.specs.mt_runs.Replies.{RepliesAreExact};
ghost use Rattle.mt_compare.specs.mt_runs.Restarts.{ReopeningsAreExact};
ghost use Rattle.mt_compare.specs.mt_play.Plays.{IsOnJournal};
ghost use Rattle.mt_endings.specs.Endings.{in_hand_of};
ghost use Rattle.mt_endings.specs.Moments.{Input, in_hand, input, moment};
ghost use Rattle.mt_endings.specs.Parts.{PlayedTo, StopsPlaying};
ghost use Rattle.mt_endings.specs.Run.{Ends};
ghost use Rattle.mt_top.specs.Begun.{Begun, Plays, begun_with};
ghost use Rattle.mt_top.specs.Denials.{DenialsAreExact};
ghost use Rattle.mt_top.specs.Isolated.{RunsAreIsolated};
ghost use Rattle.mt_top.specs.Asked.{played, replayed};

use crate::isolation::{denials_are_exact, runs_are_isolated};
use crate::playing::step;
use mt_compare::{Playing, expiries_are_rollbacks, reopenings_are_exact, replies_are_exact};
use mt_endings::{Fault, endings_add_up, finish, read_recording, tell_memory};
use mt_model::{Config, Events};
use mt_outside::{Sink, Source, write_all, writings_add_up};
use std::alloc::Global;

/// Runs the recording that `first` gives against a configuration, on a disk in memory that stops where the recording says, and writes
/// the output lines to `out`. The answer is the exit status, as `run` has it; it is never 2 or 3.
pub fn replay_with<A: Source, W: Sink>(
    alloc: Global,
    config: &Config,
    first: &mut A,
    out: &mut W,
) -> u8
    ensures ends { (second : Input) → Ends result (Some (in_hand_of (replayed (contents_of config.now))))
        (moment in_hand (input (A.left first.old) (A.faults first.old)) second (W.written out.old) (W.faults out.old))
        (moment in_hand (input (A.left first.new) (A.faults first.new)) second (W.written out.new) (W.faults out.new)) }
    ensures isolated { RunsAreIsolated }
    ensures denied { DenialsAreExact }
    ensures replied { RepliesAreExact }
    ensures expired { ExpiriesAreRollbacks }
    ensures reopened { ReopeningsAreExact }
{
    reopenings_are_exact();
    runs_are_isolated();
    denials_are_exact();
    replies_are_exact();
    expiries_are_rollbacks();
    endings_add_up();
    let Ok(mut player) = Playing::start(alloc, config) else {
        return tell_memory(out);
    };
    match read_recording(alloc, first) {
        Ok(events) => match play(alloc, &mut player, &events, out) {
            Ok(()) => 0,
            Err(fault) => finish(alloc, fault, out),
        },
        Err(fault) => finish(alloc, fault, out),
    }
}

// Writes what the node sends over the events.
fn play<W: Sink>(
    alloc: Global,
    player: &mut Playing,
    events: &Events,
    out: &mut W,
) -> Result<(), Fault>
    requires { IsOnJournal player.old }
    ensures ok { (begun : Begun) → Plays player.old begun → OnOk result (PlayedTo (played begun events.now) (W.written out.old) (W.written out.new)) }
    ensures err { (begun : Begun) → Plays player.old begun
        → IfErr result (λ fault. StopsPlaying fault (played begun events.now) (W.written out.old) (W.written out.new) (W.faults out.old) (W.faults out.new)) }
    ensures calm { result ≢ Err Fault.WriteFault → W.faults out.new ≡ W.faults out.old }
{
    writings_add_up();
    for event in events.as_slice() {
        let Ok(text) = step(alloc, player, event) else {
            return Err(Fault::Memory);
        };
        let Ok(()) = write_all(out, &text) else {
            return Err(Fault::WriteFault);
        };
    }
    Ok(())
}
