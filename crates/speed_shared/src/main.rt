//! What a call of a node with a book costs, beside the plan and the application of the same deed: a read of On/Off of endpoint 1,
//! over a session. With no argument each takes a few calls, and those that were answered are counted. With the argument `time`
//! each takes many, and the nanoseconds of one follow, in the best of some rounds.
#![tactic(auto)]

mod rounds;

use cases_page::{Page, no_case};
use mt_files::config as configuration;
use mt_model::Config;
use rounds::{Round, alone, locked, planned};
use std::alloc::Global;
use std::rt::Clock;
use std::sync::Wait;
use std::{env, fs, io};

// How many calls there are in a round where no speeds are printed.
const FEW: u32 = 20;

// How many where they are, and how many rounds.
const MANY: u32 = 20_000;

const ROUNDS: u32 = 15;

fn main(rt: HostRuntime) -> io::Result<()> {
    let timed = env::args(&rt)?
        .nth(1)
        .is_some_and(|word| word.as_str() == "time");
    let alloc = rt.alloc();
    let config = config_of(alloc, &bytes_of(&rt)?)?;
    let mut page = Page::new(alloc);
    if timed {
        time(&rt, alloc, &mut page, &config)?;
    } else {
        count(&rt, alloc, &mut page, &config)?;
    }
    print!(rt; "{}", page.whole()?)
}

// The configuration, beside which the program is run, or in whose folder.
fn bytes_of(rt: &HostRuntime) -> io::Result<Vec<u8>> {
    match fs::read(rt, "bench.json") {
        Ok(bytes) => Ok(bytes),
        Err(_) => fs::read(rt, "data/bench.json"),
    }
}

fn config_of(alloc: Global, bytes: &[u8]) -> io::Result<Config> {
    let Ok(config) = configuration(alloc, bytes) else {
        return Err(no_case());
    };
    Ok(config)
}

// Tells how many calls were answered.
fn count<R: Clock + Wait>(
    rt: &R,
    alloc: Global,
    page: &mut Page,
    config: &Config,
) -> io::Result<()> {
    add(
        page,
        "planned and applied",
        planned(rt, alloc, config, FEW)?.answered,
    );
    add(page, "alone", alone(rt, alloc, config, FEW)?.answered);
    add(
        page,
        "under the lock",
        locked(rt, alloc, config, FEW)?.answered,
    );
    Ok(())
}

fn add(page: &mut Page, name: &str, number: u64) {
    page.add(name);
    page.add(" ");
    page.add_number(number);
    page.end_line();
}

// Tells the nanoseconds of a call.
fn time<R: Clock + Wait>(
    rt: &R,
    alloc: Global,
    page: &mut Page,
    config: &Config,
) -> io::Result<()> {
    let mut bare = u64::MAX;
    let mut held = u64::MAX;
    let mut shared = u64::MAX;
    for _ in 0..ROUNDS {
        bare = bare.min(nanoseconds(planned(rt, alloc, config, MANY)?));
        held = held.min(nanoseconds(alone(rt, alloc, config, MANY)?));
        shared = shared.min(nanoseconds(locked(rt, alloc, config, MANY)?));
    }
    add_time(page, "planned and applied", bare, bare);
    add_time(page, "alone", held, bare);
    add_time(page, "under the lock", shared, bare);
    Ok(())
}

// Of one call, where all of a round were answered.
fn nanoseconds(round: Round) -> u64 {
    round.nanoseconds / round.answered.max(1)
}

fn add_time(page: &mut Page, name: &str, number: u64, bare: u64) {
    page.add(name);
    page.add(" ");
    page.add_number(number);
    page.add(" ns, ");
    page.add_number(number.saturating_mul(100) / bare.max(1));
    page.line(" %");
}
