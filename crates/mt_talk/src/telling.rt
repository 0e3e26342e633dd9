//! What the node would say, before it is sealed.

ghost use Rattle.std.specs.Prelude.{◌≡◌, IfOk, option_map};
ghost use Rattle.mt_model.specs.declared.texts.config.SessionRow.{SessionRow};
ghost use Rattle.mt_exchange.specs.Parts.{outgoing_in};
ghost use Rattle.mt_exchange.specs.Shown.{answer_outgoing as outgoing_answer, report_outgoing as outgoing_report};
ghost use Rattle.mt_talk.specs.Talks.{IsTalkOf, Talk as Told, run_in};

use crate::talk::Talk;
use mt_exchange::{Key, Outgoing, shown_runs};
use mt_model::Payloads;
use std::alloc::AllocError;

impl Talk {
    /// What an answer would send, where it would send something and the session did not refuse it. It changes nothing.
    pub fn answer_outgoing(
        &self,
        key: Key,
        acknowledge: Option<u32>,
        payloads: Payloads,
    ) -> Result<Option<Outgoing>, AllocError>
        ensures { (row : SessionRow) (t : Told) → IsTalkOf self.now row t
            → IfOk result (λ message. option_map outgoing_in message ≡ outgoing_answer (run_in t) key acknowledge payloads) }
    {
        shown_runs();
        self.exchanges.answer_outgoing(key, acknowledge, payloads)
    }

    /// What a report would send, where it would send something and the session did not refuse it. It changes nothing.
    pub fn report_outgoing(&self, payloads: Payloads) -> Result<Option<Outgoing>, AllocError>
        ensures { (row : SessionRow) (t : Told) → IsTalkOf self.now row t
            → IfOk result (λ message. option_map outgoing_in message ≡ outgoing_report (run_in t) payloads) }
    {
        shown_runs();
        self.exchanges.report_outgoing(payloads)
    }
}
