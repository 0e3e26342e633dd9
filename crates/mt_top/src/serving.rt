//! Serving, from the words of the command line to the record.

ghost use Rattle.std.specs.Prelude.{◌≡◌, None, Some, length};
ghost use Rattle.mt_endings.specs.Moments.{input};
ghost use Rattle.mt_endings.specs.Parts.{IsTold};
ghost use Rattle.mt_endings.specs.declared.fault.Fault.TheVariants.{BadWords};
ghost use Rattle.mt_words.specs.Words.{serve_words, words_of};
ghost use Rattle.mt_words.specs.declared.serve.ServeWords.{ServeWords};
ghost use Rattle.mt_top.specs.Serving.{HasCourse, HasServed};

use mt_endings::{finish, read_configuration, tell_bad_words};
use mt_outside::{Disk, Gate, Intake, Outlet, Progress, Sink, Source, Unwatched};
use mt_serving::{Served, Watcher, serve_with};
use mt_words::serve_of;
use std::alloc::Global;
use std::sync::Wait;
use std::thread::Threads;

/// Does what the words `serve --workers W --datagrams N CONFIG JOURNAL BIND` say: starts a node with the configuration that `config` gives
/// and with what is recovered of `disk`, serves it with W workers until N datagrams of `intake` were taken or that has ended, and writes
/// its record to `out`. There is one outlet for each worker; another number is bad words. What was lent for it is given back, with the exit
/// status: 0; 2 where the words have no form; 3 where the configuration is none; 5 where `config` failed; 6 where `out` failed; 7 where
/// memory was wanting; 8 where `disk` failed; 9 where the journal is none; 12 where the intake or an outlet failed; 13 where the record
/// was full; 17 where no boot more can be counted, or there is no room for event numbers. All but 0 and 6 end the output with a line that
/// names the fault.
pub fn serve<
    R: Threads + Wait + Sync,
    C: Source,
    D: Disk + Drop + Send,
    I: Intake + Drop + Send,
    O: Outlet + Drop + Send,
    G: Gate + Sync,
    W: Sink,
>(
    rt: &R,
    alloc: Global,
    words: &[String],
    config: &mut C,
    disk: D,
    intake: I,
    outlets: Vec<O>,
    gate: &G,
    out: &mut W,
) -> Served<D, I, O>
    ensures words { serve_words (words_of words.now) ≡ None → IsTold BadWords result.status (W.written out.old) (W.written out.new) (W.faults out.old) (W.faults out.new) }
    ensures untouched { serve_words (words_of words.now) ≡ None → (result.disk ≡ disk) × (result.intake ≡ intake) × (result.outlets ≡ outlets) }
    ensures outlets { length result.outlets.items ≡ length outlets.items }
    ensures served { result.status ≡ 0 → HasServed I.held I.clock O.given (words_of words.now) (input (C.left config.old) (C.faults config.old)) (input (C.left config.new) (C.faults config.new)) (D.contents disk)
        outlets.items result.outlets.items intake result.intake (W.written out.old) (W.written out.new) }
    ensures course { (found : ServeWords) → serve_words (words_of words.now) ≡ Some found
        → HasCourse I.held I.clock I.faults O.given O.faults D.contents D.images D.faults found (input (C.left config.old) (C.faults config.old)) (input (C.left config.new) (C.faults config.new))
        outlets.items result.outlets.items intake result.intake disk result.disk result.status (W.written out.old) (W.written out.new) (W.faults out.old) (W.faults out.new) }
{
    serve_watched(
        rt, alloc, words, config, disk, intake, outlets, gate, Unwatched, Unwatched, out,
    )
}

/// The same, and `progress` is told how many datagrams were taken, and `watcher` behind each time step how much the node is used.
pub fn serve_watched<
    R: Threads + Wait + Sync,
    C: Source,
    D: Disk + Drop + Send,
    I: Intake + Drop + Send,
    O: Outlet + Drop + Send,
    G: Gate + Sync,
    P: Progress + Drop + Send,
    U: Watcher + Drop + Send,
    W: Sink,
>(
    rt: &R,
    alloc: Global,
    words: &[String],
    config: &mut C,
    disk: D,
    intake: I,
    outlets: Vec<O>,
    gate: &G,
    progress: P,
    watcher: U,
    out: &mut W,
) -> Served<D, I, O>
    ensures words { serve_words (words_of words.now) ≡ None → IsTold BadWords result.status (W.written out.old) (W.written out.new) (W.faults out.old) (W.faults out.new) }
    ensures untouched { serve_words (words_of words.now) ≡ None → (result.disk ≡ disk) × (result.intake ≡ intake) × (result.outlets ≡ outlets) }
    ensures outlets { length result.outlets.items ≡ length outlets.items }
    ensures served { result.status ≡ 0 → HasServed I.held I.clock O.given (words_of words.now) (input (C.left config.old) (C.faults config.old)) (input (C.left config.new) (C.faults config.new)) (D.contents disk)
        outlets.items result.outlets.items intake result.intake (W.written out.old) (W.written out.new) }
    ensures course { (found : ServeWords) → serve_words (words_of words.now) ≡ Some found
        → HasCourse I.held I.clock I.faults O.given O.faults D.contents D.images D.faults found (input (C.left config.old) (C.faults config.old)) (input (C.left config.new) (C.faults config.new))
        outlets.items result.outlets.items intake result.intake disk result.disk result.status (W.written out.old) (W.written out.new) (W.faults out.old) (W.faults out.new) }
{
    let Ok(asked) = serve_of(words) else {
        return not_served(tell_bad_words(out), disk, intake, outlets);
    };
    if outlets.len() != asked.workers as usize {
        return not_served(tell_bad_words(out), disk, intake, outlets);
    }
    match read_configuration(alloc, config) {
        Ok(config) => serve_with(
            rt,
            alloc,
            &config,
            disk,
            intake,
            outlets,
            gate,
            asked.datagrams,
            progress,
            watcher,
            out,
        ),
        Err(fault) => not_served(finish(alloc, fault, out), disk, intake, outlets),
    }
}

// Nothing was served.
fn not_served<D, I, O>(status: u8, disk: D, intake: I, outlets: Vec<O>) -> Served<D, I, O>
    ensures status { result.status ≡ status }
    ensures disk { result.disk ≡ disk }
    ensures intake { result.intake ≡ intake }
    ensures outlets { result.outlets ≡ outlets }
{
    Served {
        status,
        disk,
        intake,
        outlets,
    }
}
