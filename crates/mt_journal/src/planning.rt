//! What a commit writes: a piece behind its length, and once it is safe one byte, which makes it count.

ghost use Rattle.std.specs.Prelude.{◌≡◌, ◌≤◌, ◌+◌, ◌^◌, ℕ, List, Bool, length, IsTrue};
ghost use Rattle.mt_journal.specs.Committing.{StepCommits, front_bytes, has_begun, has_form, has_room};
ghost use Rattle.mt_journal.specs.Committing.{laid_out};
ghost use Rattle.mt_journal.specs.Layout.{MayFollow};
ghost use Rattle.mt_journal.specs.Standing.{IsInUse, IsWithin, Stands};

use crate::position::{Position, names_slot_one, selector_above, slot_start};

// A gate that is open.
const OPEN: u8 = 0x5a;

/// What is committed.
#[derive(Clone, Copy)]
pub enum Kind {
    /// A change, behind all that is there.
    Change,
    /// An image, in the place of all that is there.
    Image,
}

/// What stands between a gate and a length.
#[derive(Clone, Copy)]
pub enum Front {
    Nothing,
    /// Two selectors, neither of which is one.
    Selectors,
    /// The mark of a move, and selectors.
    Move,
}

/// What a commit writes, and where the next record goes when it is done.
#[derive(Clone, Copy)]
pub struct Step {
    pub at: u64,
    pub front: Front,
    pub last_at: u64,
    pub last: u8,
    pub next: Position,
}

/// The step for a piece of this length, at a place that has begun.
pub fn step_for(kind: Kind, place: Position, count: u64) -> Step
    requires begun { IsTrue (has_begun place) }
    requires room { IsTrue (has_room kind place count) }
    requires within { IsWithin place }
    requires short { count ≤ 65536 }
    ensures commits { (images : List ℕ → Bool) (changes : MayFollow) (list : List (List ℕ)) (file piece : List ℕ) → IsTrue (has_form images changes kind list piece) → length piece ≡ count
        → Stands images changes place list file → StepCommits images changes kind piece list result file }
    ensures within { IsWithin result.next }
{
    match place {
        Position::Fresh => unreachable!(),
        Position::Begun => first_image(8, Front::Selectors, 9, count),
        Position::Log { gate } => first_image(gate, Front::Move, gate + 5, count),
        Position::InUse { base, p0, p1, gate } => match kind {
            Kind::Change => Step {
                at: gate + 1,
                front: Front::Nothing,
                last_at: gate,
                last: OPEN,
                next: Position::InUse {
                    base,
                    p0,
                    p1,
                    gate: gate + 5 + count,
                },
            },
            Kind::Image => later_image(base, p0, p1, count),
        },
    }
}

// The first image of a file, which goes into slot 0, behind a closed gate, which is opened then.
fn first_image(gate: u64, front: Front, base: u64, count: u64) -> Step
    requires within { base ≤ 2 ^ 62 + 5 }
    requires gate { gate ≤ 2 ^ 62 }
    requires short { count ≤ 65536 }
    ensures { result ≡ record {
      at = gate + 1;
      front = front;
      last_at = gate;
      last = 0x5a;
      next = Position.InUse base 0 0 (base + 6 + count);
    } }
{
    Step {
        at: gate + 1,
        front,
        last_at: gate,
        last: OPEN,
        next: Position::InUse {
            base,
            p0: 0,
            p1: 0,
            gate: base + 6 + count,
        },
    }
}

// A later image, which goes into the slot that is not the current one; its selector is written then.
fn later_image(base: u64, p0: u8, p1: u8, count: u64) -> Step
    requires within { base ≤ 2 ^ 62 + 5 }
    requires short { count ≤ 65536 }
    ensures commits { (images : List ℕ → Bool) (changes : MayFollow) (gate : ℕ) (list : List (List ℕ)) (file piece : List ℕ) → IsTrue (images piece) → length piece ≡ count
        → IsInUse images changes base p0 p1 gate list file → StepCommits images changes Kind.Image piece list result file }
    ensures within { IsWithin result.next }
{
    let is_one = !names_slot_one(p0, p1);
    let at = slot_start(base, is_one);
    let gate = at + 4 + count;
    let front = Front::Nothing;
    if is_one {
        let last = selector_above(p1);
        let next = Position::InUse {
            base,
            p0: last,
            p1,
            gate,
        };
        return Step {
            at,
            front,
            last_at: base,
            last,
            next,
        };
    }
    let last = selector_above(p0);
    let next = Position::InUse {
        base,
        p0,
        p1: last,
        gate,
    };
    Step {
        at,
        front,
        last_at: base + 1,
        last,
        next,
    }
}

/// The bytes of what stands between a gate and a length.
pub fn front_bytes(front: Front) -> &'static [u8]
    ensures { result.now ≡ front_bytes front }
{
    match front {
        Front::Nothing => &[],
        Front::Selectors => &[0, 0],
        Front::Move => &[0xff, 0xff, 0xff, 0xff, 0, 0],
    }
}
