//! What a subscriber is told.

ghost use Rattle.std.specs.Prelude.{◌≡◌, ◌++◌, ◌∷◌, [], IfOk};
ghost use Rattle.mt_runs.specs.mt_ledger.Subscribing.{attributes_for, last_told};

use crate::interactions::Interactions;
use mt_model::{Actor, Item, Items, Paths, Versions};
use mt_read::ReadFault;
use std::alloc::AllocError;

/// The attributes that paths name, as the actor reads them.
pub(crate) fn attributes_for(
    interactions: &Interactions,
    actor: &Actor,
    paths: &Paths,
    filtered: bool,
    versions: &Versions,
) -> Result<Items, AllocError>
    ensures { IfOk result (λ items. items ≡ attributes_for interactions.now.state.node actor.now paths.now filtered versions.now) }
{
    match interactions.node.read(actor, paths, filtered, versions) {
        Ok(items) => Ok(items),
        Err(ReadFault::NotGlobal) => Ok(Items::new(interactions.alloc)),
        Err(ReadFault::Memory) => Err(AllocError),
    }
}

/// These items, and others behind them.
pub(crate) fn joined(items: Items, others: Items) -> Result<Items, AllocError>
    ensures { IfOk result (λ all. all ≡ items ++ others) }
{
    let mut all = items.into_vec();
    let mut others = others.into_vec();
    all.append(&mut others)?;
    Ok(Items::from_vec(all))
}

/// The number of the last event among items, this one where there is none.
#[tactic(auto, using(crate::proofs::Subscribed::told_step))]
pub(crate) fn last_told(number: u64, items: &[Item]) -> u64
    ensures { result ≡ last_told number items.now }
{
    let mut last = number;
    for item in items {
        last = told_last(last, item);
    }
    last
}

fn told_last(number: u64, item: &Item) -> u64
    ensures { result ≡ last_told number (item.now ∷ []) }
{
    match item {
        Item::Event(event) => event.number,
        _ => number,
    }
}
