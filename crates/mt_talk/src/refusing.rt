//! What the session would refuse of what the node says.

ghost use Rattle.std.specs.Prelude.{◌≡◌, IfOk};
ghost use Rattle.mt_model.specs.declared.texts.config.SessionRow.{SessionRow};
ghost use Rattle.mt_talk.specs.Talks.{IsTalkOf, Talk as Told, answer_in, refusal_in, report_in};

use crate::talk::Talk;
use mt_exchange::{Key, shown_runs};
use mt_model::{ExactCopy, Payloads};
use mt_session::SealFault;
use std::alloc::AllocError;

impl Talk {
    /// Why the session would refuse what an answer sends; None where it would not. It changes nothing.
    pub fn answer_refusal(
        &self,
        key: Key,
        acknowledge: Option<u32>,
        payloads: Payloads,
    ) -> Result<Option<SealFault>, AllocError>
        ensures { (row : SessionRow) (t : Told) → IsTalkOf self.now row t
            → IfOk result (λ refusal. refusal ≡ refusal_in (answer_in row t key acknowledge payloads)) }
    {
        shown_runs();
        let mut exchanges = self.exchanges.copy()?;
        let mut session = self.session.copy()?;
        match exchanges.answer(&mut session, key, acknowledge, payloads, 0) {
            Ok(_) => Ok(None),
            Err(SealFault::Exhausted) => Ok(Some(SealFault::Exhausted)),
            Err(SealFault::TooLong) => Ok(Some(SealFault::TooLong)),
            Err(SealFault::Memory) => Err(AllocError),
        }
    }

    /// Why the session would refuse what a report sends; None where it would not. It changes nothing.
    pub fn report_refusal(
        &self,
        subscription: u32,
        payloads: Payloads,
    ) -> Result<Option<SealFault>, AllocError>
        ensures { (row : SessionRow) (t : Told) → IsTalkOf self.now row t
            → IfOk result (λ refusal. refusal ≡ refusal_in (report_in row t payloads)) }
    {
        shown_runs();
        let mut exchanges = self.exchanges.copy()?;
        let mut session = self.session.copy()?;
        match exchanges.report(&mut session, subscription, payloads, 0) {
            Ok(_) => Ok(None),
            Err(SealFault::Exhausted) => Ok(Some(SealFault::Exhausted)),
            Err(SealFault::TooLong) => Ok(Some(SealFault::TooLong)),
            Err(SealFault::Memory) => Err(AllocError),
        }
    }
}
