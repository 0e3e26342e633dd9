//! That a held node may go to another thread. It owns what it names and shares none of it; where a type is too large for the
//! check to see that by itself, it is told part by part.

ghost use denote.Param.Send.{IsSend, IsSync};
ghost use Rattle.std.specs.contracts.snapshot.Snapshot as snapshot;
ghost use Rattle.mt_durable.specs.contracts.durable.Durable as durable;
ghost use Rattle.mt_events.specs.contracts.rings.Rings as rings;
ghost use Rattle.mt_interactions.specs.contracts.deeds.Deed as deed;
ghost use Rattle.mt_interactions.specs.contracts.interactions.Interactions as interactions;
ghost use Rattle.mt_model.specs.contracts.node.state.NodeState as state;
ghost use Rattle.mt_model.specs.contracts.rows.stored.StoredRows as stored;
ghost use Rattle.mt_node.specs.contracts.node.Node as node;
ghost use Rattle.mt_shared.specs.contracts.entry.Entry as entry;
ghost use Rattle.mt_shared.specs.contracts.shared.SharedNode as shared;

use crate::held::Held;
use crate::shared::SharedNode;
use mt_durable::{Durable, Keeper};
use mt_events::Rings;
use mt_interactions::{Deed, Interactions};
use mt_model::{StoredRows, Verdicts};
use mt_turn::locks_are_lent;
use std::snapshot::Snapshot;

// A type that may go to another thread.
fn crosses<T: Send>()
    ensures { IsSend T.row }
{}

// The rows of a node.
fn rows_cross()
    ensures { IsSend stored.the_row }
{
    crosses::<StoredRows>();
}

// What is kept.
fn maps_cross()
    ensures { IsSend durable.the_row }
{
    crosses::<Durable>();
}

// The latest events.
fn rings_cross()
    ensures { IsSend rings.the_row }
{
    crosses::<Rings>();
}

// The state of a node.
fn states_cross()
    ensures { IsSend state.the_row }
{
    rows_cross();
}

// A node.
fn nodes_cross()
    ensures { IsSend node.the_row }
{
    states_cross();
    maps_cross();
}

// What is done to a node.
fn deeds_cross()
    ensures { IsSend deed.the_row }
{
    crosses::<Deed>();
}

/// The entries of a book may go to another thread.
pub(crate) fn entries_cross()
    ensures { IsSend entry.the_row }
{
    deeds_cross();
}

/// So may what is told of a node in proofs alone.
pub(crate) fn origins_cross()
    ensures { IsSend (snapshot.the_row interactions.the_row) }
{
    crosses::<Snapshot<Interactions>>();
}

/// So may a node with its plain actors.
pub(crate) fn interactions_cross()
    ensures { IsSend interactions.the_row }
{
    nodes_cross();
    rings_cross();
}

// A type that may be lent to another thread.
fn lends<T: Sync>()
    ensures { IsSync T.row }
{}

// What is told of a node in proofs alone may be lent.
fn origins_are_lent()
    ensures { IsSync (snapshot.the_row interactions.the_row) }
{
    lends::<Snapshot<Interactions>>();
}

/// A shared node may be lent to other threads, where its keeper may go to them and its verdicts may be lent. It does nothing.
pub fn shared_nodes_are_lent<K: Keeper + Drop + Send, V: Verdicts + Drop + Sync>()
    ensures { IsSync (shared.the_row K.row V.row K.Keeper V.Verdicts) }
{
    origins_cross();
    interactions_cross();
    entries_cross();
    origins_are_lent();
    locks_are_lent::<Box<Held<K>>>();
    lends::<SharedNode<K, V>>();
}
