//! A case, played line by line, each of whose changes is committed to a map beside the node.

ghost use Rattle.std.specs.Prelude.{◌≡◌};
ghost use Rattle.mt_model.specs.texts.Contents.{contents_of};
ghost use Rattle.mt_regained.specs.Reopened.{new_map};
ghost use Rattle.mt_interactions.specs.Plan.{IsPlanned};

use crate::maps::add_kept;
use crate::regained::{add_regained, is_same_map};
use cases_page::Page;
use mt_durable::{Durable, read_change};
use mt_interactions::{InteractionOutcome, Interactions};
use mt_lasting::durable_of;
use mt_model::{Config, Event, TableVerdicts};
use mt_regained::{new_map, reopened_nodes_may_start};
use mt_tlv::Bytes;
use std::alloc::{AllocError, Global};

/// Tells how many keys change by each line, and whether what was committed is then no more what is durable of the node; what is
/// kept at the end, and what is regained of that. Each case is the first boot of a node.
pub(crate) fn told(
    alloc: Global,
    page: &mut Page,
    config: &Config,
    events: &[Event],
) -> Result<(), AllocError> {
    let verdicts = TableVerdicts::new(config)?;
    let mut kept = new_map(alloc, config)?;
    let mut node = started(alloc, config, &mut kept)?;
    page.add("changes:");
    for event in events {
        let change = play(alloc, &mut node, event, &verdicts)?;
        let count = commit(alloc, change.as_slice(), &mut kept)?;
        add_change(alloc, page, &node, count, &kept)?;
    }
    page.end_line();
    let ceiling = node.numbers().ceiling;
    add_kept(alloc, page, &kept)?;
    add_regained(alloc, page, config, ceiling, &kept)
}

// A new node, whose first change is committed to this map, which is that of a node that has never started.
fn started(alloc: Global, config: &Config, kept: &mut Durable) -> Result<Interactions, AllocError>
    requires { kept.old ≡ new_map (contents_of config.now) }
{
    reopened_nodes_may_start();
    let (node, first) = Interactions::start(alloc, kept.copy()?, config)?;
    commit(alloc, first.as_slice(), kept)?;
    Ok(node)
}

// Plays a line of a plain actor or a time step, and gives what has to be committed for it; others make nothing here.
fn play(
    alloc: Global,
    node: &mut Interactions,
    event: &Event,
    verdicts: &TableVerdicts,
) -> Result<Bytes, AllocError> {
    match event {
        Event::Ask {
            ms,
            fabric,
            node: peer,
            cats,
            opcode,
            payload,
        } => {
            let (_, outcome) = node.plan_line(
                *ms, *fabric, *peer, *cats, *opcode, payload, verdicts,
            )?;
            put_in_place(alloc, node, outcome)
        }
        Event::Tick { ms } => {
            let outcome = node.plan_tick(*ms, verdicts)?;
            put_in_place(alloc, node, outcome)
        }
        _ => Ok(Bytes::new(alloc)),
    }
}

// Puts an outcome in place, and gives what has to be committed for it.
fn put_in_place(
    alloc: Global,
    node: &mut Interactions,
    outcome: InteractionOutcome,
) -> Result<Bytes, AllocError>
    requires { IsPlanned node.old.state node.old.ledger outcome }
{
    let change = Bytes::from_slice(alloc, outcome.change())?;
    node.apply(outcome);
    Ok(change)
}

// Commits a change to a map, and tells how many keys it names: none where there are no bytes. What is no change is taken as want of
// memory, and ends the page.
fn commit(alloc: Global, bytes: &[u8], kept: &mut Durable) -> Result<usize, AllocError> {
    if bytes.is_empty() {
        return Ok(0);
    }
    let Ok(change) = read_change(alloc, bytes) else {
        return Err(AllocError);
    };
    let count = change.as_slice().len();
    kept.merge(change)?;
    Ok(count)
}

// How many keys changed, and a mark where the map is not that of the node.
fn add_change(
    alloc: Global,
    page: &mut Page,
    node: &Interactions,
    count: usize,
    kept: &Durable,
) -> Result<(), AllocError> {
    page.add(" ");
    page.add_number(count as u64);
    let durable = durable_of(alloc, node.state(), node.numbers().ceiling)?;
    if !is_same_map(kept, &durable) {
        page.add("!");
    }
    Ok(())
}
