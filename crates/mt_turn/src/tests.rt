ghost use Rattle.std.specs.Prelude.{◌≡◌, ◌+◌, ◌<◌, ◌≤◌, All, false, [], length, IfOk};

use super::*;
use std::alloc::{AllocError, Global};
use std::process::Abort;
use std::sync::Wait;
use std::test::*;
use std::thread::{Threads, for_each_mut};

/// Calls that were answered: who made it, and which of its calls it is. A call is answered by the number
/// of calls so far, with what the count began from.
#[derive(Drop)]
struct Tally {
    start: u32,
    calls: Vec<(u32, u32)>,
}

impl Booked for Tally {
    type Entry = (u32, u32);

    type Origin = u32;

    ghost book = { λ tally. tally.calls.items };

    ghost origin = { λ tally. tally.start };
}

impl Answers for Tally {
    ghost use Rattle.std.specs.Prelude.{◌≡◌, ◌+◌, length};

    type Call = (u32, u32);

    type Answer = u64;

    ghost is_of = { λ call entry. entry ≡ call };

    ghost answer_at = { λ start calls. start + length calls };

    fn answer(&mut self, call: (u32, u32)) -> Option<u64> {
        let Ok(()) = self.calls.push(call) else {
            return None;
        };
        Some(u64::from(self.start) + self.calls.len() as u64)
    }
}

/// A thread's number, its pass, and what it was last answered.
#[derive(Drop)]
struct Caller {
    number: u32,
    pass: Pass<(u32, u32), u32>,
    last: u64,
    falls: u32,
}

impl Caller {
    // Makes calls, and counts the answers that are not above the one before.
    fn make_calls<R: Wait>(&mut self, rt: &R, turn: &Turn<Tally>, calls: u32)
        requires { (self.old.pass.lock ≡ turn.now) × (self.old.pass.inside ≡ false) }
        ensures { (self.new.pass.lock ≡ turn.now) × (self.new.pass.inside ≡ false) × (self.new.pass.share ≡ self.old.pass.share) }
    {
        for call in 0..calls {
            let answer = answers_are_of_one_history(rt, turn, &mut self.pass, (self.number, call));
            let answer = answer.unwrap_or(0);
            if answer <= self.last {
                self.falls = self.falls.saturating_add(1);
            }
            self.last = answer;
        }
    }
}

// Splits a pass for each caller.
fn callers_of(
    alloc: Global,
    turn: &Turn<Tally>,
    pass: &mut Pass<(u32, u32), u32>,
    count: u32,
) -> Result<Vec<Caller>, AllocError>
    requires own { (pass.old.lock ≡ turn.now) × (pass.old.inside ≡ false) }
    requires share { count < pass.old.share }
    ensures own { (pass.new.lock ≡ turn.now) × (pass.new.inside ≡ false) }
    ensures callers { IfOk result (λ callers. All (λ c. (c.pass.lock ≡ turn.now) × (c.pass.inside ≡ false) × (c.pass.share ≡ 1)) callers.items) }
    ensures share { IfOk result (λ callers. pass.new.share + length callers.items ≡ pass.old.share) }
{
    let mut callers = Vec::with_capacity(alloc, count as usize)?;
    for number in 0..count {
        let given = turn.split(pass)?;
        callers.push(Caller {
            number,
            pass: given,
            last: 0,
            falls: 0,
        })?;
    }
    Ok(callers)
}

// Takes the callers' passes in.
fn gather(turn: &Turn<Tally>, pass: &mut Pass<(u32, u32), u32>, mut callers: Vec<Caller>)
    requires own { (pass.old.lock ≡ turn.now) × (pass.old.inside ≡ false) }
    requires callers { All (λ c. (c.pass.lock ≡ turn.now) × (c.pass.inside ≡ false) × (c.pass.share ≡ 1)) callers.items }
    ensures own { (pass.new.lock ≡ turn.now) × (pass.new.inside ≡ false) }
    ensures share { pass.new.share ≡ pass.old.share + length callers.items }
{
    while let Some(caller) = callers.pop() {
        turn.join(pass, caller.pass);
    }
}

// Whether each caller's calls stand in the list once and in their order, and no others do.
fn has_each_once(calls: &[(u32, u32)], callers: u32, of_each: u32) -> bool {
    let mut next = [0u32; 64];
    for (by, call) in calls {
        let Some(wanted) = next.get_mut(*by as usize) else {
            return false;
        };
        if *by >= callers || *call != *wanted {
            return false;
        }
        *wanted = wanted.saturating_add(1);
    }
    calls.len() as u64 == u64::from(callers) * u64::from(of_each)
        && next.iter().all(|made| *made == 0 || *made == of_each)
}

// As many threads as callers make as many calls each; the last pass has the whole share again.
fn calls_in_threads<R: Threads + Wait + Abort + Sync>(
    rt: &R,
    alloc: Global,
    count: u32,
    of_each: u32,
) -> Result<(), Fail>
    requires { (0 < count) × (count < 64) }
{
    let tally = Tally {
        start: 7,
        calls: Vec::new(alloc),
    };
    let Ok((turn, mut pass)) = Turn::new(alloc, tally) else {
        panic!(rt; "memory")
    };
    let mut callers = callers_of(alloc, &turn, &mut pass, count)?;
    let shared = &turn;
    for_each_mut(
        rt,
        callers.as_mut_slice(),
        count as usize,
        &|_, caller: &mut Caller|
            requires { (caller.old.pass.lock ≡ shared.now) × (caller.old.pass.inside ≡ false) }
            ensures { (caller.new.pass.lock ≡ shared.entry.now) × (caller.new.pass.inside ≡ false) × (caller.new.pass.share ≡ caller.old.pass.share) }
        { caller.make_calls(rt, shared, of_each) },
    );
    for caller in &callers {
        assert_eq!(rt; caller.falls, 0, "answers of caller {}", caller.number);
    }
    gather(&turn, &mut pass, callers);
    let tally = turn.close(pass);
    assert!(rt; has_each_once(tally.calls.as_slice(), count, of_each));
    Ok(())
}

#[test]
fn two_threads_make_ten_thousand_calls_each(rt: HostRuntime) -> Result<(), Fail> {
    calls_in_threads(&rt, rt.alloc(), 2, 10_000)
}

#[test]
fn eight_threads_make_ten_thousand_calls_each(rt: HostRuntime) -> Result<(), Fail> {
    calls_in_threads(&rt, rt.alloc(), 8, 10_000)
}

#[test]
fn sixty_four_shares_come_back(rt: HostRuntime) -> Result<(), Fail> {
    calls_in_threads(&rt, rt.alloc(), 63, 1)
}

#[test]
fn two_callers_are_answered_in_one_order(rt: HostRuntime) -> Result<(), Fail> {
    let tally = Tally {
        start: 7,
        calls: Vec::new(rt.alloc()),
    };
    let Ok((turn, pass)) = Turn::new(rt.alloc(), tally) else {
        panic!(rt; "memory")
    };
    let (tally, a, b) = two_callers_have_one_order(&rt, turn, pass, (0, 0), (1, 0));
    assert!(rt; (a, b) == (Some(8), Some(9)) || (a, b) == (Some(9), Some(8)));
    assert!(rt; has_each_once(tally.calls.as_slice(), 2, 1));
    Ok(())
}
