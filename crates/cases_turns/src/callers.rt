//! Threads that call one node under its lock. A line of the table is `THREAD LINE`: the number of a thread, from 1, and the line of a
//! call; a thread makes its calls in this order, over and over. Those of number 0 are made once, when the threads are over.

ghost use Rattle.std.specs.Prelude.{◌≡◌, ◌≤◌, ◌+◌, All, length, IfOk, OnOk};
ghost use Rattle.cases_turns.specs.Callers.{MayCall};
ghost use Rattle.mt_shared.specs.Shared.{IsPassOf};

use crate::answers::bytes_of;
use crate::replay::{Maps, Replayed, replay_of};
use cases_node::{begin, call_of, keepers_cross};
use cases_page::{Page, no_case};
use mt_durable::{Keeper, ListKeeper};
use mt_model::{Config, Verdicts};
use mt_shared::{Held, NodePass, SharedNode, shared_nodes_are_lent};
use std::alloc::{AllocError, Global};
use std::io;
use std::sync::Wait;
use std::thread::{Threads, for_each_mut};

// How many threads there are, and how often each makes the calls of its lines, of which it has four.
const THREADS: u32 = 4;

const ROUNDS: u32 = 2_500;

/// A thread: its pass, the lines of its calls, and what it was told.
#[derive(Drop)]
struct Caller {
    number: u32,
    pass: NodePass,
    lines: Vec<String>,
    told: Vec<Told>,
}

/// The place of a call, and its answer.
#[derive(Drop)]
struct Told {
    place: u64,
    answer: Vec<u8>,
}

/// What a thread was told.
#[derive(Drop)]
struct Heard {
    number: u32,
    told: Vec<Told>,
}

/// Lets the threads call, and tells how their answers agree with those of a node alone.
pub(crate) fn play<R: Threads + Wait + Sync>(
    rt: &R,
    alloc: Global,
    page: &mut Page,
    config: &Config,
    table: &str,
) -> io::Result<()> {
    keepers_cross();
    let begun = begin(alloc, config, &[])?;
    let Ok((node, mut pass)) = SharedNode::new(alloc, begun.node, begun.keeper, begun.verdicts)
    else {
        return Err(AllocError.into());
    };
    let callers = hire(alloc, &node, &mut pass, table)?;
    let callers = call_all(rt, alloc, &node, callers);
    let mut heard = gather(alloc, &node, &mut pass, callers)?;
    let last = last_calls(rt, alloc, &node, &mut pass, table)?;
    heard.push(last)?;
    let held = node.close(pass);
    tell(alloc, page, config, &heard, &held)
}

// The threads, each with a share of the pass.
fn hire<K: Keeper + Drop + Send, V: Verdicts + Drop>(
    alloc: Global,
    node: &SharedNode<K, V>,
    pass: &mut NodePass,
    table: &str,
) -> io::Result<Vec<Caller>>
    requires own { IsPassOf node.now pass.old }
    requires share { 10 ≤ pass.old.share }
    ensures own { IsPassOf node.now pass.new }
    ensures hired { IfOk result (λ callers. All (MayCall node.now) callers.items) }
    ensures share { IfOk result (λ callers. pass.new.share + length callers.items ≡ pass.old.share) }
{
    let mut callers = Vec::new(alloc);
    for number in 0..THREADS {
        let one = hire_one(alloc, node, pass, table, number + 1)?;
        callers.push(one)?;
    }
    Ok(callers)
}

fn hire_one<K: Keeper + Drop + Send, V: Verdicts + Drop>(
    alloc: Global,
    node: &SharedNode<K, V>,
    pass: &mut NodePass,
    table: &str,
    number: u32,
) -> io::Result<Caller>
    requires own { IsPassOf node.now pass.old }
    requires share { 2 ≤ pass.old.share }
    ensures own { IsPassOf node.now pass.new }
    ensures hired { IfOk result (MayCall node.now) }
    ensures share { OnOk result (pass.new.share + 1 ≡ pass.old.share) }
{
    let lines = lines_of(alloc, table, number)?;
    let given = node.split(pass)?;
    Ok(Caller {
        number,
        pass: given,
        lines,
        told: Vec::new(alloc),
    })
}

// The lines of a thread's calls.
fn lines_of(alloc: Global, table: &str, number: u32) -> io::Result<Vec<String>> {
    let mut lines = Vec::new(alloc);
    for row in table.lines() {
        let Some((which, line)) = row.split_once(' ') else {
            return Err(no_case());
        };
        if which.parse::<u32>() == Ok(number) {
            lines.push(String::from_str(alloc, line)?)?;
        }
    }
    Ok(lines)
}

// Lets all threads call at once.
fn call_all<R: Threads + Wait + Sync, K: Keeper + Drop + Send, V: Verdicts + Drop + Sync>(
    rt: &R,
    alloc: Global,
    node: &SharedNode<K, V>,
    mut callers: Vec<Caller>,
) -> Vec<Caller>
    requires { All (MayCall node.now) callers.items }
    ensures called { All (MayCall node.now) result.items }
    ensures length { length result.items ≡ length callers.items }
{
    shared_nodes_are_lent::<K, V>();
    for_each_mut(
        rt,
        callers.as_mut_slice(),
        THREADS as usize,
        &|_, one: &mut Caller|
            requires { MayCall node.now one.old }
            ensures { MayCall node.entry.now one.new }
        { one.call(rt, alloc, node) },
    );
    callers
}

impl Caller {
    // Makes the calls of the lines, over and over, until one is refused.
    fn call<R: Wait, K: Keeper + Drop + Send, V: Verdicts + Drop>(
        &mut self,
        rt: &R,
        alloc: Global,
        node: &SharedNode<K, V>,
    )
        requires { MayCall node.now self.old }
        ensures { MayCall node.now self.new }
    {
        for round in 0..ROUNDS {
            if !self.call_once(rt, alloc, node) {
                return;
            }
        }
    }

    // Makes the call of each line once. Whether all were answered.
    fn call_once<R: Wait, K: Keeper + Drop + Send, V: Verdicts + Drop>(
        &mut self,
        rt: &R,
        alloc: Global,
        node: &SharedNode<K, V>,
    ) -> bool
        requires { MayCall node.now self.old }
        ensures { MayCall node.now self.new }
    {
        let lines = self.lines.as_slice();
        make_calls(rt, alloc, node, &mut self.pass, lines, &mut self.told).is_ok()
    }
}

// Makes calls, and keeps what is told.
fn make_calls<R: Wait, K: Keeper + Drop + Send, V: Verdicts + Drop>(
    rt: &R,
    alloc: Global,
    node: &SharedNode<K, V>,
    pass: &mut NodePass,
    lines: &[String],
    told: &mut Vec<Told>,
) -> io::Result<()>
    requires own { IsPassOf node.now pass.old }
    ensures own { IsPassOf node.now pass.new }
    ensures share { pass.new.share ≡ pass.old.share }
{
    for line in lines {
        let one = make_call(rt, alloc, node, pass, line.as_str())?;
        told.push(one)?;
    }
    Ok(())
}

fn make_call<R: Wait, K: Keeper + Drop + Send, V: Verdicts + Drop>(
    rt: &R,
    alloc: Global,
    node: &SharedNode<K, V>,
    pass: &mut NodePass,
    line: &str,
) -> io::Result<Told>
    requires own { IsPassOf node.now pass.old }
    ensures own { IsPassOf node.now pass.new }
    ensures share { pass.new.share ≡ pass.old.share }
{
    let call = call_of(alloc, line)?;
    let Ok(stamped) = node.act(rt, pass, call) else {
        return Err(no_case());
    };
    Ok(Told {
        place: stamped.place,
        answer: bytes_of(alloc, &stamped)?,
    })
}

// Takes the threads' passes in, and gives what they were told, the last first.
fn gather<K: Keeper + Drop + Send, V: Verdicts + Drop>(
    alloc: Global,
    node: &SharedNode<K, V>,
    pass: &mut NodePass,
    mut callers: Vec<Caller>,
) -> io::Result<Vec<Heard>>
    requires own { IsPassOf node.now pass.old }
    requires called { All (MayCall node.now) callers.items }
    ensures { OnOk result (IsPassOf node.now pass.new × (pass.new.share ≡ pass.old.share + length callers.items)) }
{
    let mut all = Vec::with_capacity(alloc, callers.len())?;
    while let Some(one) = callers.pop() {
        let heard = take_in(node, pass, one);
        all.push(heard)?;
    }
    Ok(all)
}

fn take_in<K: Keeper + Drop + Send, V: Verdicts + Drop>(
    node: &SharedNode<K, V>,
    pass: &mut NodePass,
    one: Caller,
) -> Heard
    requires own { IsPassOf node.now pass.old }
    requires called { MayCall node.now one }
    ensures own { IsPassOf node.now pass.new }
    ensures share { pass.new.share ≡ pass.old.share + 1 }
{
    let Caller {
        number,
        pass: other,
        lines: _,
        told,
    } = one;
    node.join(pass, other);
    Heard { number, told }
}

// The calls that are made when the threads are over.
fn last_calls<R: Wait, K: Keeper + Drop + Send, V: Verdicts + Drop>(
    rt: &R,
    alloc: Global,
    node: &SharedNode<K, V>,
    pass: &mut NodePass,
    table: &str,
) -> io::Result<Heard>
    requires own { IsPassOf node.now pass.old }
    ensures own { IsPassOf node.now pass.new }
    ensures share { pass.new.share ≡ pass.old.share }
{
    let lines = lines_of(alloc, table, 0)?;
    let mut told = Vec::new(alloc);
    make_calls(rt, alloc, node, pass, lines.as_slice(), &mut told)?;
    Ok(Heard { number: 0, told })
}

// Tells how what was told agrees with the replay of the book by a node alone, and the answer to the first of the last calls.
fn tell(
    alloc: Global,
    page: &mut Page,
    config: &Config,
    heard: &[Heard],
    held: &Held<ListKeeper>,
) -> io::Result<()> {
    let alone = replay_of(alloc, config, &held.book)?;
    for one in heard.iter().rev() {
        add_heard(page, one, &alone);
    }
    add_places(alloc, page, heard, held.book.len())?;
    page.line(if Maps::of(alloc, held)?.are_one(&alone.maps) {
        "both nodes keep the same"
    } else {
        "the nodes keep different things"
    });
    if let Some(first) = heard.last().and_then(|last| last.told.first()) {
        page.add_hex(first.answer.as_slice());
    }
    page.end_line();
    Ok(())
}

// How many calls of a thread were answered, and how many of these as the node alone answers at their places.
fn add_heard(page: &mut Page, one: &Heard, alone: &Replayed) {
    let mut same = 0_u64;
    for told in &one.told {
        if is_answer(told, alone) {
            same = same.wrapping_add(1);
        }
    }
    page.add("thread ");
    page.add_number(u64::from(one.number));
    page.add(": ");
    page.add_number(one.told.len() as u64);
    page.add(" calls, ");
    page.add_number(same);
    page.line(" of them answered as by a node alone");
}

fn is_answer(told: &Told, alone: &Replayed) -> bool {
    match alone.answers.get(told.place as usize) {
        Some(answer) => answer.as_slice() == told.answer.as_slice(),
        None => false,
    }
}

// How many entries the book has, and how many of their places were told once.
fn add_places(
    alloc: Global,
    page: &mut Page,
    heard: &[Heard],
    entries: usize,
) -> Result<(), AllocError> {
    let mut counts = vec![in alloc; 0_u8; entries]?;
    for one in heard {
        count_places(&one.told, counts.as_mut_slice());
    }
    let once = counts.iter().filter(|count| **count == 1).count();
    page.add_number(entries as u64);
    page.add(" entries, ");
    page.add_number(once as u64);
    page.line(" of their places told once");
    Ok(())
}

fn count_places(told: &[Told], counts: &mut [u8]) {
    for one in told {
        if let Some(count) = counts.get_mut(one.place as usize) {
            *count = count.saturating_add(1);
        }
    }
}
