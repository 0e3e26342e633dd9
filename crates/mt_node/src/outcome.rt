//! What comes of what the node is asked.

ghost use Rattle.std.specs.Prelude.{◌≡◌};

use mt_durable::Change;
use mt_model::{AclEntry, NodeState, Places, Reply, Row, SessionIds, Steps};

/// What a planned action answers, and what it makes of the node.
pub struct Outcome {
    /// What the asker is answered.
    pub reply: Reply,
    /// The session of whoever is taken as asking, where there is one.
    pub session: Option<u16>,
    /// The sessions that end.
    pub closed: SessionIds,
    /// The fabric that is removed, where one is.
    pub gone: Option<u8>,
    /// The events that are told, in their order.
    pub told: Steps,
    /// What has to be committed before it is put in place: the keys of the durable map under which another value is behind it, but for
    /// that of event numbers. None is there where nothing of what lasts changes.
    pub change: Change,
    /// The state behind the action, where that is made whole; None where the steps make it. It is apart, since an outcome is
    /// handed on often and seldom has one.
    pub(crate) behind: Option<Box<NodeState>>,
    /// What is made of the state, step by step; where the state is made whole, none.
    pub(crate) steps: Steps,
    /// The attributes that differ behind the steps.
    pub(crate) places: Places,
    /// For each step room for the rows of its place, and room for the entries that there will be.
    pub(crate) rows_rooms: Vec<Vec<Row>>,
    pub(crate) entries_room: Vec<AclEntry>,
    /// The time of the action, in ms.
    pub(crate) clock: u64,
}

impl Drop for Outcome {
    fn drop(self) {
        let Outcome {
            reply: _,
            session: _,
            closed: _,
            gone: _,
            told: _,
            change: _,
            behind: _,
            steps: _,
            places: _,
            rows_rooms: _,
            entries_room: _,
            clock: _,
        } = self;
    }
}

/// What putting an outcome in place needs of it.
#[derive(Drop)]
pub(crate) struct OutcomeParts {
    pub(crate) told: Steps,
    pub(crate) behind: Option<Box<NodeState>>,
    pub(crate) steps: Steps,
    pub(crate) places: Places,
    pub(crate) rows_rooms: Vec<Vec<Row>>,
    pub(crate) entries_room: Vec<AclEntry>,
    pub(crate) clock: u64,
}

impl Outcome {
    /// What putting it in place needs; the rest is let go.
    pub(crate) fn into_parts(self) -> OutcomeParts
        ensures { result ≡ record {
          told = self.told;
          behind = self.behind;
          steps = self.steps;
          places = self.places;
          rows_rooms = self.rows_rooms;
          entries_room = self.entries_room;
          clock = self.clock;
        } }
    {
        let Outcome {
            reply: _,
            session: _,
            closed: _,
            gone: _,
            told,
            change: _,
            behind,
            steps,
            places,
            rows_rooms,
            entries_room,
            clock,
        } = self;
        OutcomeParts {
            told,
            behind,
            steps,
            places,
            rows_rooms,
            entries_room,
            clock,
        }
    }
}
