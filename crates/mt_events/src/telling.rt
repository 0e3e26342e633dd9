//! The events that a reader is told, by rising number.

ghost use Rattle.std.specs.Prelude.{◌≡◌, ◌++◌, ◌≤◌, ◌-◌, IfOk, OnOk, length};
ghost use Rattle.std.specs.List.{list_any};
ghost use Rattle.mt_model.specs.rows.Seen.{own_entries};
ghost use Rattle.mt_events.specs.Asked.{asked_by};
ghost use Rattle.mt_events.specs.Reading.{asking, is_told, refusals};
ghost use Rattle.mt_events.specs.Telling.{answered, bytes_of, fitting, size_of, told, told_events, events_for};
ghost use Rattle.mt_events.specs.Walk.{IsFirst, IsWithin, behind};

use crate::reading::Reader;
use crate::rings::Rings;
use mt_model::limits::ITEM_BYTES;
use mt_model::{Actor, ExactCopy, Happened, Item, Items, Paths, Sight, item_size};
use std::alloc::{AllocError, Global};

/// How far one has come in the ring for all and in the reader's own.
#[derive(Clone, Copy)]
pub(crate) struct At {
    pub(crate) shared: usize,
    pub(crate) own: usize,
}

impl Rings {
    /// What a read answers of events: the refused ones of the paths that name one place, in their order, where
    /// access is asked before existence; and then the events from this number on that a path names and the actor
    /// may see, by rising number. It stops before the first event with which all would have more than 1,176 bytes.
    pub fn after<S: Sight>(
        &self,
        alloc: Global,
        sight: &S,
        minimum: u64,
        paths: &Paths,
        actor: &Actor,
    ) -> Result<Items, AllocError>
        requires { length paths.now ≤ 16 }
        ensures exact { IfOk result (λ items. items ≡ answered (asking (S.all_entries sight.now) actor.now minimum paths.now) self.now) }
        ensures within { IfOk result (λ items. bytes_of items ≤ 1176) }
    {
        let reader = reader(sight, minimum, paths, actor);
        let mut items = Vec::new(alloc);
        reader.push_refusals(&mut items)?;
        let room = room_behind(&items);
        self.push_told(&reader, room, &mut items)?;
        Ok(Items::from_vec(items))
    }

    /// What a later report of a subscription tells of events: those from this number on that a path names and the
    /// actor may see, by rising number, up to the first with which they would have more than 1,176 bytes.
    #[tactic(auto, using(crate::proofs::Sizes::fitting_short))]
    pub fn told<S: Sight>(
        &self,
        alloc: Global,
        sight: &S,
        minimum: u64,
        paths: &Paths,
        actor: &Actor,
    ) -> Result<Items, AllocError>
        ensures exact { IfOk result (λ items. items ≡ told (asking (S.all_entries sight.now) actor.now minimum paths.now) self.now) }
        ensures within { IfOk result (λ items. bytes_of items ≤ 1176) }
    {
        let reader = reader(sight, minimum, paths, actor);
        let mut items = Vec::new(alloc);
        self.push_told(&reader, ITEM_BYTES, &mut items)?;
        Ok(Items::from_vec(items))
    }

    /// Whether there is an event from this number on that a path names and the actor may see. It takes no memory.
    pub fn tells<S: Sight>(&self, sight: &S, minimum: u64, paths: &Paths, actor: &Actor) -> bool
        ensures { result ≡ list_any (is_told (asking (S.all_entries sight.now) actor.now minimum paths.now)) (events_for actor.now.fabric self.now) }
    {
        let reader = reader(sight, minimum, paths, actor);
        let mut at = At { shared: 0, own: 0 };
        'events: while let Some((event, next)) = self.first(actor.fabric, at) {
            if reader.is_told(event) {
                return true;
            }
            at = next;
        }
        false
    }

    // Appends the events that the reader is told, as many as the room takes.
    fn push_told(
        &self,
        reader: &Reader,
        room: usize,
        items: &mut Vec<Item>,
    ) -> Result<(), AllocError>
        requires { room ≤ 1176 }
        ensures { OnOk result (items.new.items ≡ items.old.items ++ fitting room (told_events (asked_by reader.now) self.now)) }
    {
        let mut room = room;
        let mut at = At { shared: 0, own: 0 };
        'events: while let Some((event, next)) = self.first(reader.actor.fabric, at) {
            at = next;
            if reader.is_told(event) {
                let item = Item::Event(event.copy()?);
                let size = item_size(&item);
                if size > room {
                    return Ok(());
                }
                room -= size;
                items.push(item)?;
            }
        }
        Ok(())
    }

    // The first event from these places on that the fabric may be told, and the places behind it.
    fn first(&self, fabric: u8, at: At) -> Option<(&Happened, At)>
        requires { IsWithin fabric self.now at }
        ensures { IsFirst fabric self.now at result }
    {
        let _ = &self.rings;
        let shared = At {
            shared: at.shared + 1,
            own: at.own,
        };
        let own = At {
            shared: at.shared,
            own: at.own + 1,
        };
        match (self.shared_at(at.shared), self.own_at(fabric, at.own)) {
            (Some(x), Some(y)) => {
                if x.number < y.number {
                    Some((x, shared))
                } else {
                    Some((y, own))
                }
            }
            (Some(x), None) => Some((x, shared)),
            (None, Some(y)) => Some((y, own)),
            (None, None) => None,
        }
    }
}

// What an actor asks.
fn reader<'a, S: Sight>(
    sight: &'a S,
    minimum: u64,
    paths: &'a Paths,
    actor: &'a Actor,
) -> Reader<'a>
    ensures { asked_by result ≡ asking (S.all_entries sight.now) actor.now minimum paths.now }
{
    Reader {
        entries: sight.entries(actor.fabric),
        actor,
        minimum,
        paths: paths.as_slice(),
    }
}

// How many bytes are left behind these items.
#[tactic(auto, using(crate::proofs::Sizes::bytes_more))]
fn room_behind(items: &[Item]) -> usize
    ensures { result ≡ 1176 - bytes_of items.now }
{
    let mut room = ITEM_BYTES;
    for item in items {
        room = room.saturating_sub(item_size(item));
    }
    room
}
