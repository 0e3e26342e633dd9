//! The parts of a mark, and the first in which two marks differ.

ghost use Rattle.std.specs.Prelude.{◌≡◌, ◌↔◌, ◌<◌, IfSome, IsTrue, None, Some};
ghost use Rattle.mt_marks.specs.Parts.{IsSame, all_parts, place_of, word_of};
ghost use Rattle.mt_marks.specs.declared.difference.Part.{Part};

use crate::mark::{Descriptor, Mark, Unanswered};
use mt_same::Same;
use std::fmt;

/// A part of a mark, in the order in which marks are compared.
#[derive(Clone, Copy, Debug, PartialEq, Eq)]
pub enum Part {
    /// What happened.
    Event,
    /// With which own part the fabric entered the table. No `Mark` has it.
    Born,
    /// The rows of nobody and of others, and whose the entries of others are.
    Rows,
    Fabrics,
    Roots,
    Networks,
    Failsafe,
    /// The data versions, the change numbers and the count of changes.
    Versions,
    /// The events that all may see.
    Events,
    /// The number of the next event.
    Numbers,
    Boot,
    /// The clock.
    Now,
}

// In the order in which marks are compared.
static PARTS: [Part; 12] = [
    Part::Event,
    Part::Born,
    Part::Rows,
    Part::Fabrics,
    Part::Roots,
    Part::Networks,
    Part::Failsafe,
    Part::Versions,
    Part::Events,
    Part::Numbers,
    Part::Boot,
    Part::Now,
];

impl Part {
    /// The word for it.
    pub fn word(self) -> &'static str
        ensures { result.now ≡ word_of self }
    {
        match self {
            Part::Event => "event",
            Part::Born => "born",
            Part::Rows => "rows",
            Part::Fabrics => "fabrics",
            Part::Roots => "roots",
            Part::Networks => "networks",
            Part::Failsafe => "failsafe",
            Part::Versions => "versions",
            Part::Events => "events",
            Part::Numbers => "numbers",
            Part::Boot => "boot",
            Part::Now => "now",
        }
    }
}

impl fmt::Display for Part {
    ghost output = { λ part. Some (word_of part) };

    fn fmt<W: fmt::Write>(&self, f: &mut fmt::Formatter<W>) -> fmt::Result {
        f.write_str(self.word())
    }
}

/// The first part in which two marks differ; None exactly where they are the same. It takes no memory.
pub fn first_difference(one: &Mark, other: &Mark) -> Option<Part>
    ensures none { (result ≡ None) ↔ (one.entry.now ≡ other.entry.now) }
    ensures differs { IfSome result (λ part. ¬ IsSame part one.entry.now other.entry.now) }
    ensures first { IfSome result (λ part. (before : Part) → place_of before < place_of part → IsSame before one.entry.now other.entry.now) }
{
    for part in all_parts() {
        if !is_same(*part, one, other) {
            return Some(*part);
        }
    }
    None
}

fn all_parts() -> &'static [Part]
    ensures { result.now ≡ all_parts }
{
    &PARTS
}

fn is_same(part: Part, one: &Mark, other: &Mark) -> bool
    ensures { IsTrue result ↔ IsSame part one.entry.now other.entry.now }
{
    match part {
        Part::Event => one.event.is_same(&other.event),
        Part::Born => true,
        Part::Rows => one.rows.is_same(&other.rows) && one.owners.is_same(&other.owners),
        Part::Fabrics => one.fabrics.is_same(&other.fabrics),
        Part::Roots => one.roots.is_same(&other.roots),
        Part::Networks => one.networks.is_same(&other.networks),
        Part::Failsafe => one.failsafe.is_same(&other.failsafe),
        Part::Versions => {
            one.versions.is_same(&other.versions) && one.changes.is_same(&other.changes)
        },
        Part::Events => one.events.is_same(&other.events),
        Part::Numbers => one.next == other.next,
        Part::Boot => one.boot == other.boot,
        Part::Now => one.now == other.now,
    }
}

impl Same for Descriptor {
    fn is_same(&self, other: &Descriptor) -> bool {
        self.index == other.index
            && self.root_key.equals(&other.root_key)
            && self.vendor == other.vendor
            && self.fabric_id == other.fabric_id
            && self.node_id == other.node_id
            && self.label.equals(&other.label)
    }
}

impl Same for Unanswered {
    fn is_same(&self, other: &Unanswered) -> bool {
        self.survived == other.survived && self.event.is_same(&other.event)
    }
}
