//! What the node remembers of events: the latest ones, and the numbers.

ghost use Rattle.std.specs.Prelude.{◌≡◌, ℕ, ◌+◌, ◌*◌, ◌≤◌, ◌^◌, IfOk, Option, length, true};
ghost use Rattle.std.specs.List.{list_all, list_any};
ghost use Rattle.mt_events.specs.Reading.{asking, is_told};
ghost use Rattle.mt_events.specs.Rings.{AreRings};
ghost use Rattle.mt_events.specs.Telling.{answered, events_for, told};
ghost use Rattle.mt_runs.specs.mt_ledger.History.{begun_at, happened, recorded, recorded_all, start_up, without_left};
ghost use Rattle.mt_tlv.specs.declared.value.Tag.TheVariants.{Context};
ghost use Rattle.mt_tlv.specs.declared.value.Value.TheVariants as kinds;
ghost use Rattle.mt_tlv.specs.Tree.{uint, none, more};
ghost use Rattle.mt_interactions.specs.Recording.{StartsMayRecord, is_of_a_fabric, may_record, numbers_after, numbers_behind};

use mt_events::{Numbers, Rings};
use mt_meta::clusters::BASIC_INFORMATION;
use mt_meta::clusters::basic_information::START_UP;
use mt_model::limits::FABRICS;
use mt_model::{Actor, Happened, Items, NodeStep, Paths, Place, Steps};
use mt_node::Node;
use mt_runs::{histories_grow_by_events, histories_stay_histories};
use mt_tlv::{Members, Tag, Value};
use std::alloc::{AllocError, Global};
use std::marker::Model;

// The software of the node has one version.
const SOFTWARE_VERSION: u64 = 1;

// So many events of one action are recorded at most, and none from this ceiling of the numbers on. No action tells so many,
// and no node comes so far: a boot begins at a stored ceiling of at most 2^61.
const MOST_EVENTS: usize = 0x4_0000_0000_0000;

const LAST_CEILING: u64 = 0x3000_0000_0000_0000;

/// Behind a start at any ceiling that may be stored, up to 2^61, all is recorded that an action may tell.
pub fn starts_may_record()
    ensures { StartsMayRecord }
{}

/// The rings of the latest events, and the numbers. Contracts see the history that they are.
pub(crate) struct History {
    rings: Rings,
    numbers: Numbers,
}

impl Drop for History {
    fn drop(self) {
        let History {
            rings: _,
            numbers: _,
        } = self;
    }
}

impl Model for History {
    ghost use Rattle.mt_runs.specs.mt_ledger.History as histories;
    ghost use Rattle.mt_tlv.specs.contracts.value.Value as values;
    ghost use Rattle.std.specs.Coded.{codes};

    ghost Value = { histories.History };

    ghost coded = { Prim.hlevel (codes, values.the_row.coded) };

    ghost view = { λ history. record { rings = history.rings; numbers = history.numbers } };

    ghost invariant = { λ history. histories.IsHistory (record { rings = history.rings; numbers = history.numbers }) };
}

impl History {
    /// The history of a node in a boot, where this ceiling of event numbers was stored: it tells that it has started.
    pub(crate) fn begun(alloc: Global, ceiling: u64) -> Result<History, AllocError>
        requires { ceiling ≤ 2 ^ 61 }
        ensures { IfOk result (λ history. history ≡ begun_at ceiling) }
    {
        histories_stay_histories();
        let mut rings = Rings::new(alloc)?;
        let mut numbers = Numbers::begin(ceiling);
        let started = started(alloc, numbers.take())?;
        rings.push(started);
        Ok(History { rings, numbers })
    }

    pub(crate) fn rings(&self) -> &Rings
        ensures same { result.now ≡ self.now.rings }
        ensures kept { AreRings result.now }
    {
        &self.rings
    }

    pub(crate) fn numbers(&self) -> Numbers
        ensures { result ≡ self.now.numbers }
    {
        self.numbers
    }

    /// What a read of an actor is answered of events.
    pub(crate) fn after(
        &self,
        alloc: Global,
        node: &Node,
        minimum: u64,
        paths: &Paths,
        actor: &Actor,
    ) -> Result<Items, AllocError>
        requires { length paths.now ≤ 16 }
        ensures { IfOk result (λ items. items ≡ answered (asking node.now.state.entries actor.now minimum paths.now) self.now.rings) }
    {
        self.rings.after(alloc, node, minimum, paths, actor)
    }

    /// What a later report of a subscription tells of events.
    pub(crate) fn told(
        &self,
        alloc: Global,
        node: &Node,
        minimum: u64,
        paths: &Paths,
        actor: &Actor,
    ) -> Result<Items, AllocError>
        ensures { IfOk result (λ items. items ≡ told (asking node.now.state.entries actor.now minimum paths.now) self.now.rings) }
    {
        self.rings.told(alloc, node, minimum, paths, actor)
    }

    /// Whether there is an event from this number on that a path names and the actor may see.
    pub(crate) fn tells(&self, node: &Node, minimum: u64, paths: &Paths, actor: &Actor) -> bool
        ensures { result ≡ list_any (is_told (asking node.now.state.entries actor.now minimum paths.now)) (events_for actor.now.fabric self.now.rings) }
    {
        self.rings.tells(node, minimum, paths, actor)
    }

    /// Whether what an action tells can be recorded.
    pub(crate) fn may_record(&self, told: &[NodeStep]) -> bool
        ensures { result ≡ may_record told.now self.now }
    {
        self.numbers.ceiling <= LAST_CEILING && told.len() <= MOST_EVENTS && are_of_fabrics(told)
    }

    /// The ceiling of event numbers behind an action that tells this, at whatever time, whichever fabric goes.
    pub(crate) fn ceiling_behind(&self, told: &[NodeStep]) -> u64
        requires { may_record told.now self.now ≡ true }
        ensures { (ms : ℕ) (gone : Option ℕ) → result ≡ (recorded_all ms told.now (without_left gone self.now)).numbers.ceiling }
    {
        numbers_after(self.numbers, told).ceiling
    }

    /// Makes of the history what an action makes of it at this time, in ms: what is private to the fabric that goes is forgotten,
    /// and all that is told is recorded. It takes no memory, and cannot fail.
    pub(crate) fn pass_on(&mut self, gone: Option<u8>, ms: u64, told: Steps)
        requires { may_record told self.old ≡ true }
        ensures { self.new ≡ recorded_all ms told (without_left gone self.old) }
    {
        self.forget(gone);
        self.tell_all(ms, told);
    }

    fn forget(&mut self, gone: Option<u8>)
        ensures { self.new ≡ without_left gone self.old }
    {
        histories_grow_by_events();
        if let Some(fabric) = gone {
            self.rings.forget(fabric);
        }
    }

    fn tell_all(&mut self, ms: u64, told: Steps)
        requires { may_record told self.old ≡ true }
        ensures { self.new ≡ recorded_all ms told self.old }
    {
        for step in told.into_vec() {
            self.tell(ms, step);
        }
    }

    // Records what a step tells, under the next number.
    fn tell(&mut self, ms: u64, step: NodeStep)
        requires fabric { is_of_a_fabric step ≡ true }
        requires room { self.old.numbers.ceiling ≤ 2 ^ 62 }
        ensures recorded { self.new ≡ recorded ms step self.old }
        ensures ceiling { self.new.numbers.ceiling ≤ self.old.numbers.ceiling + 1024 }
    {
        histories_grow_by_events();
        if let NodeStep::Emit {
            place,
            priority,
            fabric,
            value,
        } = step
        {
            let number = self.numbers.take();
            self.rings.push(Happened {
                number,
                place,
                priority,
                at: ms,
                fabric,
                value,
            });
        }
    }
}

// The numbers behind what is told.
fn numbers_after(numbers: Numbers, told: &[NodeStep]) -> Numbers
    requires within { numbers.next ≤ numbers.ceiling }
    requires room { numbers.ceiling + 1024 * length told.now ≤ 2 ^ 62 }
    ensures { result ≡ numbers_after told.now numbers }
{
    let mut behind = numbers;
    for step in told {
        behind = numbers_behind(step, behind);
    }
    behind
}

// The numbers behind a step, which takes one where it tells of an event.
fn numbers_behind(step: &NodeStep, numbers: Numbers) -> Numbers
    requires within { numbers.next ≤ numbers.ceiling }
    requires room { numbers.ceiling ≤ 2 ^ 62 }
    ensures behind { result ≡ numbers_behind step.now numbers }
    ensures within { result.next ≤ result.ceiling }
    ensures ceiling { result.ceiling ≤ numbers.ceiling + 1024 }
{
    let mut numbers = numbers;
    if let NodeStep::Emit { .. } = step {
        let _ = numbers.take();
    }
    numbers
}

fn are_of_fabrics(told: &[NodeStep]) -> bool
    ensures { result ≡ list_all is_of_a_fabric told.now }
{
    told.iter().all(|step| is_of_a_fabric(step))
}

fn is_of_a_fabric(step: &NodeStep) -> bool
    ensures { result ≡ is_of_a_fabric step.now }
{
    match step {
        NodeStep::Emit { fabric, .. } => usize::from(*fabric) <= FABRICS,
        _ => true,
    }
}

// The start of the node, which all may see.
fn started(alloc: Global, number: u64) -> Result<Happened, AllocError>
    ensures { IfOk result (λ event. event ≡ happened number start_up 2 0 0 (kinds.Struct (more (Context 0) (uint 1) none))) }
{
    let fields = vec![in alloc; (Tag::Context(0), Value::Uint(SOFTWARE_VERSION))]?;
    Ok(Happened {
        number,
        place: Place {
            endpoint: 0,
            cluster: BASIC_INFORMATION,
            leaf: START_UP,
        },
        priority: 2,
        at: 0,
        fabric: 0,
        value: Value::Struct(Members::from_vec(fields)),
    })
}
