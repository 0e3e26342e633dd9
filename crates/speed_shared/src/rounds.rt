//! Rounds of one call: planned and applied, made of a node alone, and made under its lock.

ghost use Rattle.mt_files.specs.Form.{HasForm};
ghost use Rattle.mt_interactions.specs.Deeds.{IsWithin};
ghost use Rattle.mt_shared.specs.Shared.{IsPassOf};

use cases_node::{Begun, Bench, begin, call_of, keepers_cross};
use mt_durable::Keeper;
use mt_interactions::{Deed, Interactions};
use mt_model::{Config, TableVerdicts, Verdicts};
use mt_shared::{Call, NodePass, SharedNode};
use std::alloc::{AllocError, Global};
use std::io;
use std::marker::Model;
use std::rt::Clock;
use std::sync::Wait;
use std::time::Instant;

// The call: a read of On/Off of endpoint 1.
const READ: &str = "A 5 1 0000000000000001 02 153600172402012403062404001818290324ff0118";

// When it is planned, in ms.
const TIME: u64 = 5;

/// How many calls of a round were answered, and how many nanoseconds all took.
#[derive(Clone, Copy)]
pub(crate) struct Round {
    pub(crate) answered: u64,
    pub(crate) nanoseconds: u64,
}

/// A call that may be made.
#[derive(Drop)]
struct Ready {
    call: Call,
}

impl Model for Ready {
    ghost use Rattle.std.specs.Coded.{codes};
    ghost use Rattle.mt_files.specs.Form.{HasForm};
    ghost use Rattle.mt_interactions.specs.Deeds.{IsWithin};
    ghost use Rattle.mt_shared.specs.declared.entry.Call.{Call};
    ghost use Rattle.mt_tlv.specs.contracts.value.Value as values;

    ghost Value = { Call };

    ghost coded = { Prim.hlevel (codes, values.the_row.coded) };

    ghost view = { λ ready. ready.call };

    ghost invariant = { λ ready. IsWithin ready.call.deed × HasForm ready.call.event };
}

impl Ready {
    fn deed(&self) -> &Deed
        ensures { IsWithin result.now }
    {
        &self.call.deed
    }

    fn into_call(self) -> Call
        ensures within { IsWithin result.deed }
        ensures form { HasForm result.event }
    {
        let Ready { call } = self;
        call
    }
}

/// Plans so many calls and applies what comes of them.
pub(crate) fn planned<R: Clock>(
    rt: &R,
    alloc: Global,
    config: &Config,
    count: u32,
) -> io::Result<Round> {
    let calls = calls_of(alloc, count)?;
    let Begun {
        mut node,
        keeper: _,
        verdicts,
    } = begin(alloc, config, &[])?;
    let start = Instant::now(rt)?;
    let mut answered = 0_u64;
    for ready in &calls {
        apply(&mut node, ready, &verdicts)?;
        answered = answered.wrapping_add(1);
    }
    let nanoseconds = since(rt, start)?;
    Ok(Round {
        answered,
        nanoseconds,
    })
}

fn apply(
    node: &mut Interactions,
    ready: &Ready,
    verdicts: &TableVerdicts,
) -> Result<(), AllocError> {
    let planned = node.plan_deed(ready.deed(), TIME, verdicts)?;
    let (_, _, _, outcome) = planned.into_parts();
    node.apply(outcome);
    Ok(())
}

/// Makes so many calls of a node alone.
pub(crate) fn alone<R: Clock>(
    rt: &R,
    alloc: Global,
    config: &Config,
    count: u32,
) -> io::Result<Round> {
    let mut calls = calls_of(alloc, count)?;
    let mut bench = Bench::new(alloc, config, &[])?;
    let start = Instant::now(rt)?;
    let mut answered = 0_u64;
    while let Some(ready) = calls.pop() {
        if bench.act(ready.into_call()).is_ok() {
            answered = answered.wrapping_add(1);
        }
    }
    let nanoseconds = since(rt, start)?;
    Ok(Round {
        answered,
        nanoseconds,
    })
}

/// Makes so many calls of a node under its lock.
pub(crate) fn locked<R: Clock + Wait>(
    rt: &R,
    alloc: Global,
    config: &Config,
    count: u32,
) -> io::Result<Round> {
    keepers_cross();
    let calls = calls_of(alloc, count)?;
    let begun = begin(alloc, config, &[])?;
    let Ok((shared, mut pass)) = SharedNode::new(alloc, begun.node, begun.keeper, begun.verdicts)
    else {
        return Err(AllocError.into());
    };
    let start = Instant::now(rt)?;
    let answered = make_all(rt, &shared, &mut pass, calls);
    let nanoseconds = since(rt, start)?;
    Ok(Round {
        answered,
        nanoseconds,
    })
}

// Makes the calls; how many were answered.
fn make_all<R: Wait, K: Keeper + Drop + Send, V: Verdicts + Drop>(
    rt: &R,
    shared: &SharedNode<K, V>,
    pass: &mut NodePass,
    mut calls: Vec<Ready>,
) -> u64
    requires { IsPassOf shared.now pass.old }
{
    let mut answered = 0_u64;
    while let Some(ready) = calls.pop() {
        if is_answered(rt, shared, pass, ready) {
            answered = answered.wrapping_add(1);
        }
    }
    answered
}

fn is_answered<R: Wait, K: Keeper + Drop + Send, V: Verdicts + Drop>(
    rt: &R,
    shared: &SharedNode<K, V>,
    pass: &mut NodePass,
    ready: Ready,
) -> bool
    requires own { IsPassOf shared.now pass.old }
    ensures { IsPassOf shared.now pass.new }
{
    shared.act(rt, pass, ready.into_call()).is_ok()
}

// The call, so many times.
fn calls_of(alloc: Global, count: u32) -> io::Result<Vec<Ready>> {
    let mut calls = Vec::with_capacity(alloc, count as usize)?;
    for _ in 0..count {
        calls.push(read(alloc)?)?;
    }
    Ok(calls)
}

fn read(alloc: Global) -> io::Result<Ready> {
    let call = call_of(alloc, READ)?;
    Ok(Ready { call })
}

// How many nanoseconds have passed since then.
fn since<R: Clock>(rt: &R, start: Instant) -> io::Result<u64> {
    let took = start.elapsed(rt)?;
    Ok(u64::try_from(took.as_nanos()).unwrap_or(u64::MAX))
}
