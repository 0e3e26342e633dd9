//! A node in its first boot, beside a keeper in memory that has its map.

ghost use Rattle.std.specs.Coded.{codes};
ghost use Rattle.std.specs.Prelude.{◌≡◌, false, IfOk};
ghost use Rattle.mt_model.specs.texts.Contents.{contents_of};
ghost use Rattle.mt_shared.specs.Acts.{HasVerdicts};
ghost use Rattle.mt_shared.specs.Replay.{map_of};
ghost use Rattle.mt_tlv.specs.contracts.value.Value as values;

use mt_durable::ListKeeper;
use mt_interactions::Interactions;
use mt_lasting::durable_of;
use mt_model::{Config, TableVerdicts};
use mt_regained::{new_map, reopened_nodes_may_start};
use std::alloc::{AllocError, Global};

/// A node, a keeper that has its map, and the verdicts of its configuration.
#[derive(Drop)]
pub struct Begun {
    pub node: Interactions,
    pub keeper: ListKeeper,
    pub verdicts: TableVerdicts,
    pub ghost kept: { keeper.map ≡ map_of node } by { Prim.hlevel (codes, values.the_row.coded) },
    pub ghost runs: { keeper.failed ≡ false },
    pub ghost judged: { HasVerdicts node verdicts.roots verdicts.csrs verdicts.joins },
}

/// A new node with this configuration, beside a keeper whose commits of these numbers fail, counted from 1 behind the boot.
pub fn begin(alloc: Global, config: &Config, fail: &[u64]) -> Result<Begun, AllocError>
    ensures { IfOk result (λ begun. begun.node.config ≡ contents_of config.now) }
{
    let verdicts = TableVerdicts::new(config)?;
    let node = new_node(alloc, config)?;
    let map = durable_of(alloc, node.state(), node.numbers().ceiling)?;
    let keeper = ListKeeper::new(alloc, &map, fail)?;
    Ok(Begun {
        node,
        keeper,
        verdicts,
    })
}

// A node in its first boot.
fn new_node(alloc: Global, config: &Config) -> Result<Interactions, AllocError>
    ensures { IfOk result (λ node. node.config ≡ contents_of config.now) }
{
    reopened_nodes_may_start();
    let map = new_map(alloc, config)?;
    let (node, _) = Interactions::start(alloc, map, config)?;
    Ok(node)
}
