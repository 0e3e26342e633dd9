//! What comes of a line.

ghost use Rattle.std.specs.Prelude.{◌≡◌, []};
ghost use Rattle.mt_interactions.specs.mt_machine.Environment.{Environment};
ghost use Rattle.mt_model.specs.declared.texts.recording.Event.{Event};
ghost use Rattle.mt_interactions.specs.mt_runs.Whole.{Whole};
ghost use Rattle.mt_whole.specs.Plan.{Brings};

use crate::talks::SessionTalk;
use mt_frame::ProtocolHeader;
use mt_interactions::InteractionOutcome;
use mt_model::SentList;
use mt_tlv::Bytes;
use std::alloc::Global;
use std::mem::replace;

/// What a planned event sends, and what it makes of the whole.
#[derive(Drop)]
pub struct WholeOutcome {
    /// The messages, in the order of sending.
    pub sent: SentList,
    /// The counter, the header and the payload of the message that the event brings to its session, live or not, where
    /// it brings one.
    pub fresh: Option<(u32, ProtocolHeader, Bytes)>,
    pub(crate) interactions: InteractionOutcome,
    // the talk that is another behind the event, where one is
    pub(crate) talk: Option<SessionTalk>,
}

impl WholeOutcome {
    /// The messages, in the same memory. The outcome sends none any more, and brings what it brought, so it can be applied
    /// before they are sent.
    pub fn take_sent(&mut self, alloc: Global) -> SentList
        ensures sent { result ≡ self.old.sent }
        ensures stays { self.new ≡ record self.old { sent = [] } }
        ensures brings { (given : Environment) (w : Whole) (event : Event) → Brings given w event self.old → Brings given w event self.new }
    {
        replace(&mut self.sent, SentList::new(alloc))
    }

    /// The bytes of the change that has to be committed before it is put in place, none where nothing of what lasts changes.
    pub fn change(&self) -> &[u8]
        ensures { result.now ≡ self.now.interactions.change }
    {
        self.interactions.change()
    }

    /// The sessions that end with it.
    pub fn closed(&self) -> &[u16]
        ensures { result.now ≡ self.now.interactions.node.closed }
    {
        self.interactions.closed()
    }
}
