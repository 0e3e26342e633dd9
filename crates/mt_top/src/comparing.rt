//! Comparing two recordings, with a configuration in hand.

ghost use Rattle.std.specs.Prelude.{◌≡◌, ◌≢◌, Err, IfErr, OnOk, Some};
ghost use Rattle.mt_model.specs.texts.Contents.{contents_of};
ghost use Rattle.mt_endings.specs.Endings.{in_hand_of};
ghost use Rattle.mt_endings.specs.Moments.{in_hand, input, moment};
ghost use Rattle.mt_endings.specs.Parts.{PlayedTo, StopsPlaying};
ghost use Rattle.mt_endings.specs.Run.{Ends};
ghost use Rattle.mt_top.specs.Asked.{compared, compared_by};
ghost use Rattle.mt_top.specs.Begun.{begun_with};

use mt_compare::{compare, comparison_text};
use mt_endings::{Fault, endings_add_up, finish, read_recording};
use mt_model::{Config, Event};
use mt_outside::{Sink, Source, write_all, writings_add_up};
use std::alloc::Global;

/// Runs the two recordings that `first` and `second` give against a configuration, and writes `alike`, or where they first
/// differ by the marks of a fabric, to `out`. The answer is the exit status, as `run` has it; it is never 2 or 3.
pub(crate) fn compare_with<A: Source, B: Source, W: Sink>(
    alloc: Global,
    fabric: u8,
    config: &Config,
    first: &mut A,
    second: &mut B,
    out: &mut W,
) -> u8
    ensures { Ends result (Some (in_hand_of (compared fabric (contents_of config.now))))
        (moment in_hand (input (A.left first.old) (A.faults first.old)) (input (B.left second.old) (B.faults second.old)) (W.written out.old) (W.faults out.old))
        (moment in_hand (input (A.left first.new) (A.faults first.new)) (input (B.left second.new) (B.faults second.new)) (W.written out.new) (W.faults out.new)) }
{
    endings_add_up();
    let events = match read_recording(alloc, first) {
        Ok(events) => events,
        Err(fault) => return finish(alloc, fault, out),
    };
    let others = match read_recording(alloc, second) {
        Ok(others) => others,
        Err(fault) => return finish(alloc, fault, out),
    };
    match tell_difference(
        alloc,
        fabric,
        config,
        events.as_slice(),
        others.as_slice(),
        out,
    ) {
        Ok(()) => 0,
        Err(fault) => finish(alloc, fault, out),
    }
}

// Writes what a comparison comes to.
fn tell_difference<W: Sink>(
    alloc: Global,
    fabric: u8,
    config: &Config,
    first: &[Event],
    second: &[Event],
    out: &mut W,
) -> Result<(), Fault>
    ensures ok { OnOk result (PlayedTo (compared_by fabric (begun_with (contents_of config.now)) first.now second.now) (W.written out.old) (W.written out.new)) }
    ensures err { IfErr result (λ fault. StopsPlaying fault (compared_by fabric (begun_with (contents_of config.now)) first.now second.now) (W.written out.old) (W.written out.new) (W.faults out.old) (W.faults out.new)) }
    ensures calm { result ≢ Err Fault.WriteFault → W.faults out.new ≡ W.faults out.old }
{
    writings_add_up();
    let Ok(found) = compare(alloc, fabric, config, first, second) else {
        return Err(Fault::Memory);
    };
    let Ok(text) = comparison_text(alloc, &found) else {
        return Err(Fault::Memory);
    };
    let Ok(()) = write_all(out, &text) else {
        return Err(Fault::WriteFault);
    };
    match found {
        Some(_) => Err(Fault::Differ),
        None => Ok(()),
    }
}
