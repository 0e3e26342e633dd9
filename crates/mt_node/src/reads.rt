//! Reads.

ghost use Rattle.std.specs.Prelude.{◌≡◌, ◌↔◌, [], None, Some, IfOk};
ghost use Rattle.std.specs.List.{list_any};
ghost use Rattle.mt_model.specs.messages.Blocks.{names_item};
ghost use Rattle.mt_read.specs.Reading.{read_answer};
ghost use Rattle.mt_machine.specs.Observation.{observation};
ghost use Rattle.mt_machine.specs.Step.{read_reply};

use crate::node::Node;
use crate::requests::refused;
use mt_machine::rows_stand_in_order;
use mt_model::{Actor, Effect, Items, Path, Paths, Reply, Status, Steps, Versions};
use mt_read::{ReadFault, read};
use std::alloc::AllocError;

/// What a read is answered. It changes nothing.
pub(crate) fn answered(
    node: &Node,
    asking: &Actor,
    paths: &Paths,
    filtered: bool,
    versions: &Versions,
) -> Result<Effect, AllocError>
    ensures { IfOk result (λ answered. answered ≡ record { reply = read_reply (observation asking.now.fabric node.now.state) asking.now paths.now filtered versions.now; steps = [] }) }
{
    if any_item(paths.as_slice()) {
        return Ok(refused(node.alloc, Status::InvalidAction));
    }
    match seen(node, asking, paths, filtered, versions) {
        Ok(items) => Ok(Effect {
            reply: Reply::Report {
                subscription: None,
                items,
                suppress: true,
            },
            steps: Steps::new(node.alloc),
        }),
        Err(ReadFault::NotGlobal) => Ok(refused(node.alloc, Status::InvalidAction)),
        Err(ReadFault::Memory) => Err(AllocError),
    }
}

fn any_item(paths: &[Path]) -> bool
    ensures { result ≡ list_any names_item paths.now }
{
    paths.iter().any(|path| path.names_item())
}

impl Node {
    /// What whoever asks reads, of what its fabric observes (Matter Core Specification, section 8.4): the items, path by
    /// path. NotGlobal exactly where a path asks every cluster for what not every cluster has.
    pub fn read(
        &self,
        asking: &Actor,
        paths: &Paths,
        filtered: bool,
        versions: &Versions,
    ) -> Result<Items, ReadFault>
        ensures exact { let seen = (observation asking.now.fabric self.now.state).seen in
            IfOk result (λ items. read_answer seen asking.now paths.now filtered versions.now ≡ Some items) }
        ensures not_global { let seen = (observation asking.now.fabric self.now.state).seen in
            (result ≡ Err ReadFault.NotGlobal) ↔ (read_answer seen asking.now paths.now filtered versions.now ≡ None) }
    {
        seen(self, asking, paths, filtered, versions)
    }
}

// What whoever asks reads, of what its fabric observes.
fn seen(
    node: &Node,
    asking: &Actor,
    paths: &Paths,
    filtered: bool,
    versions: &Versions,
) -> Result<Items, ReadFault>
    ensures exact { let seen = (observation asking.now.fabric node.now.state).seen in
        IfOk result (λ items. read_answer seen asking.now paths.now filtered versions.now ≡ Some items) }
    ensures not_global { let seen = (observation asking.now.fabric node.now.state).seen in
        (result ≡ Err ReadFault.NotGlobal) ↔ (read_answer seen asking.now paths.now filtered versions.now ≡ None) }
{
    rows_stand_in_order();
    read(node.alloc, node, asking, paths, filtered, versions)
}
