//! A long input made from a number, and the summary of what is sent for it.

ghost use Rattle.std.specs.Prelude.{◌≡◌, ◌≤◌, [], IfOk, OnOk, Some, length};
ghost use Rattle.mt_compare.specs.mt_runs.Messages.{run};
ghost use Rattle.mt_compare.specs.mt_play.Plays.{IsOnJournal};
ghost use Rattle.mt_soak.specs.Generated.{events_from};
ghost use Rattle.mt_soak.specs.Summary.{IsTallyOf};
ghost use Rattle.mt_top.specs.Begun.{Begun, Plays};
ghost use Rattle.mt_files.specs.Lines.{text_of};
ghost use Rattle.mt_model.specs.texts.Contents.{contents_of};
ghost use Rattle.mt_endings.specs.Endings.{in_hand_of};
ghost use Rattle.mt_endings.specs.Moments.{Input, in_hand, moment};
ghost use Rattle.mt_endings.specs.Run.{Ends};
ghost use Rattle.mt_top.specs.Asked.{soaked, summarized};

use crate::playing::tell;
use mt_compare::Playing;
use mt_endings::{Fault, endings_add_up, finish, tell_memory};
use mt_model::Config;
use mt_outside::{Progress, Sink, write_all, writings_add_up};
use mt_soak::{Generator, Tally, events_come_one_by_one};
use std::alloc::{AllocError, Global};

/// Runs so many events, made from this number, against a configuration, and writes the summary of what is sent to `out`.
/// One event is held at a time. The answer is the exit status, as `run` has it: 0, 6 or 7.
pub(crate) fn soak_with<W: Sink, P: Progress>(
    alloc: Global,
    config: &Config,
    begin: u64,
    count: u32,
    out: &mut W,
    progress: &mut P,
) -> u8
    requires { count ≤ 100000 }
    ensures { (first second : Input) → Ends result (Some (in_hand_of (soaked begin count (contents_of config.now))))
        (moment in_hand first second (W.written out.old) (W.faults out.old))
        (moment in_hand first second (W.written out.new) (W.faults out.new)) }
{
    endings_add_up();
    writings_add_up();
    let Ok(summary) = summarized(alloc, config, begin, count, progress) else {
        return tell_memory(out);
    };
    match write_all(out, &summary) {
        Ok(()) => 0,
        Err(_) => finish(alloc, Fault::WriteFault, out),
    }
}

// The summary, which is all that is written.
fn summarized<P: Progress>(
    alloc: Global,
    config: &Config,
    begin: u64,
    count: u32,
    progress: &mut P,
) -> Result<Vec<u8>, AllocError>
    requires { count ≤ 100000 }
    ensures { IfOk result (λ summary. summary.items ≡ text_of (summarized begin count (contents_of config.now)).lines) }
{
    let mut generator = Generator::new(begin, fabrics_of(config));
    let mut tally = Tally::new(alloc);
    let mut player = Playing::start(alloc, config)?;
    tell_all(
        alloc,
        count,
        &mut player,
        &mut generator,
        &mut tally,
        progress,
    )?;
    tally.summary(alloc, count as u64)
}

// How many fabrics there are, which is at most 16.
fn fabrics_of(config: &Config) -> u8
    ensures { result ≡ length config.now.fabrics }
{
    config.fabrics.as_slice().len() as u8
}

// Plays so many events, one after the other, and tells the tally what each sends.
fn tell_all<P: Progress>(
    alloc: Global,
    count: u32,
    player: &mut Playing,
    generator: &mut Generator,
    tally: &mut Tally,
    progress: &mut P,
) -> Result<(), AllocError>
    requires within { count ≤ 100000 }
    requires first { generator.old.answered ≡ 0 }
    requires journal { IsOnJournal player.old }
    ensures { (begun : Begun) → Plays player.old begun → IsTallyOf tally.old [] → OnOk result (IsTallyOf tally.new (run begun.given begun.sessions begun.going (events_from generator.old count))) }
{
    events_come_one_by_one();
    for done in 0..count {
        let event = generator.next(alloc)?;
        tell(alloc, player, &event, tally)?;
        progress.done(done + 1, count);
    }
    Ok(())
}
