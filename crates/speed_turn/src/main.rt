//! How many turns a second threads take at one lock of `mt_turn`: with 1, 2, 4 and 8 threads, each turn
//! adding a number to a total and to the book. With no argument each number of threads takes a few
//! turns, and what stands in the book is counted. With the argument `time` they take many, and the speeds
//! follow. `speed/turn_pthread.c` does the same under a mutex.
#![tactic(auto)]

ghost use Rattle.std.specs.Prelude.{◌≡◌, ◌+◌, ◌<◌, All, false, length, IfOk};
ghost use Rattle.mt_turn.specs.Known.{GrowsByOne};

use mt_turn::{Booked, Pass, Turn};
use std::alloc::{AllocError, Global};
use std::rt::Clock;
use std::sync::Wait;
use std::thread::{Threads, for_each_mut};
use std::time::Instant;
use std::{env, io};

/// The numbers of threads.
const THREADS: [u32; 4] = [1, 2, 4, 8];

/// How many turns are taken in all where speeds are printed.
const TURNS: u32 = 1_000_000;

/// How many where none are.
const FEW: u32 = 800;

/// A total and what it was made of.
#[derive(Drop)]
struct Account {
    total: u64,
    amounts: Vec<u64>,
}

/// What lies under the lock. A turn moves it out and back, so what is large is in a box.
#[derive(Drop)]
struct Sum {
    start: u64,
    account: Box<Account>,
}

impl Booked for Sum {
    type Entry = u64;

    type Origin = u64;

    ghost book = { λ sum. sum.account.value.amounts.items };

    ghost origin = { λ sum. sum.start };
}

impl Account {
    // Adds an amount, or nothing where memory is refused.
    fn add(&mut self, amount: u64)
        ensures { GrowsByOne self.old.amounts.items self.new.amounts.items }
    {
        if self.amounts.reserve(1).is_ok() {
            self.amounts.push_reserved(amount);
            self.total = self.total.wrapping_add(amount);
        }
    }
}

impl Sum {
    // Adds an amount, or nothing where memory is refused.
    fn add(&mut self, amount: u64)
        ensures book { GrowsByOne self.old.account.value.amounts.items self.new.account.value.amounts.items }
        ensures start { self.new.start ≡ self.old.start }
    {
        self.account.add(amount);
    }
}

/// A thread's pass.
#[derive(Drop)]
struct Caller {
    pass: Pass<u64, u64>,
}

impl Caller {
    fn take_turns<R: Wait>(&mut self, rt: &R, turn: &Turn<Sum>, turns: u32)
        requires { (self.old.pass.lock ≡ turn.now) × (self.old.pass.inside ≡ false) }
        ensures { (self.new.pass.lock ≡ turn.now) × (self.new.pass.inside ≡ false) × (self.new.pass.share ≡ self.old.pass.share) }
    {
        for amount in 0..turns {
            let mut sum = turn.enter(rt, &mut self.pass);
            sum.add(u64::from(amount));
            turn.leave(&mut self.pass, sum);
        }
    }
}

// Splits a pass for each thread.
fn callers_of(
    alloc: Global,
    turn: &Turn<Sum>,
    pass: &mut Pass<u64, u64>,
    count: u32,
) -> Result<Vec<Caller>, AllocError>
    requires own { (pass.old.lock ≡ turn.now) × (pass.old.inside ≡ false) }
    requires share { count < pass.old.share }
    ensures own { (pass.new.lock ≡ turn.now) × (pass.new.inside ≡ false) }
    ensures callers { IfOk result (λ callers. All (λ c. (c.pass.lock ≡ turn.now) × (c.pass.inside ≡ false) × (c.pass.share ≡ 1)) callers.items) }
    ensures share { IfOk result (λ callers. pass.new.share + length callers.items ≡ pass.old.share) }
{
    let mut callers = Vec::with_capacity(alloc, count as usize)?;
    for _ in 0..count {
        let given = turn.split(pass)?;
        callers.push(Caller { pass: given })?;
    }
    Ok(callers)
}

// Takes the threads' passes in.
fn gather(turn: &Turn<Sum>, pass: &mut Pass<u64, u64>, mut callers: Vec<Caller>)
    requires own { (pass.old.lock ≡ turn.now) × (pass.old.inside ≡ false) }
    requires callers { All (λ c. (c.pass.lock ≡ turn.now) × (c.pass.inside ≡ false) × (c.pass.share ≡ 1)) callers.items }
    ensures own { (pass.new.lock ≡ turn.now) × (pass.new.inside ≡ false) }
    ensures share { pass.new.share ≡ pass.old.share + length callers.items }
{
    while let Some(caller) = callers.pop() {
        turn.join(pass, caller.pass);
    }
}

// So many threads take that many turns each. The answer is the sum, and the microseconds that it took.
fn take_all<R: Threads + Wait + Clock + Sync>(
    rt: &R,
    alloc: Global,
    threads: u32,
    turns: u32,
) -> io::Result<(Sum, u128)>
    requires { (0 < threads) × (threads < 64) }
{
    let account = Account {
        total: 0,
        amounts: Vec::new(alloc),
    };
    let sum = Sum {
        start: 0,
        account: Box::new(alloc, account)?,
    };
    let Ok((turn, mut pass)) = Turn::new(alloc, sum) else {
        return Err(AllocError.into());
    };
    let mut callers = callers_of(alloc, &turn, &mut pass, threads)?;
    let shared = &turn;
    let start = Instant::now(rt)?;
    for_each_mut(
        rt,
        callers.as_mut_slice(),
        threads as usize,
        &|_, caller: &mut Caller|
            requires { (caller.old.pass.lock ≡ shared.now) × (caller.old.pass.inside ≡ false) }
            ensures { (caller.new.pass.lock ≡ shared.entry.now) × (caller.new.pass.inside ≡ false) × (caller.new.pass.share ≡ caller.old.pass.share) }
        { caller.take_turns(rt, shared, turns) },
    );
    let micros = start.elapsed(rt)?.as_micros();
    gather(&turn, &mut pass, callers);
    Ok((turn.close(pass), micros))
}

fn turns_a_second(turns: u32, micros: u128) -> u64 {
    let scaled = u128::from(turns).saturating_mul(1_000_000);
    u64::try_from(scaled / micros.max(1)).unwrap_or(u64::MAX)
}

fn main(rt: HostRuntime) -> io::Result<()> {
    let timed = env::args(&rt)?
        .nth(1)
        .is_some_and(|word| word.as_str() == "time");
    let all = if timed { TURNS } else { FEW };
    for threads in THREADS {
        let turns = all / threads.max(1);
        let (sum, micros) = take_all(&rt, rt.alloc(), threads.clamp(1, 63), turns)?;
        let entries = sum.account.amounts.len();
        let total = sum.account.total;
        println!(rt;
            "{threads} threads, {turns} turns each: {entries} entries, which sum to {total}"
        )?;
        if timed {
            let speed = turns_a_second(all, micros);
            println!(rt; "{speed} turns a second")?;
        }
    }
    Ok(())
}
