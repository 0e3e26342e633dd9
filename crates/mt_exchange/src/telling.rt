//! What would be sent, before it is sealed.

ghost use Rattle.std.specs.Prelude.{◌≡◌, List, IfOk, option_map};
ghost use Rattle.mt_model.specs.declared.texts.config.SessionRow.{SessionRow};
ghost use Rattle.mt_exchange.specs.Parts.{outgoing_in, sending_by};
ghost use Rattle.mt_exchange.specs.Runs.{Happening, IsRunOf, run};
ghost use Rattle.mt_exchange.specs.Sending.{message};
ghost use Rattle.mt_exchange.specs.Shown.{answer_outgoing as outgoing_answer, deadline_to_send, outgoing_if, report_outgoing as outgoing_report};

use crate::exchange::Key;
use crate::exchanges::Exchanges;
use crate::sending::{Sending, chosen, first_and_rest, header_to, payload_of};
use mt_frame::ProtocolHeader;
use mt_model::Payloads;
use mt_tlv::Bytes;
use std::alloc::{AllocError, Global};

/// A message that is sent, before it is sealed, and until when what it asks for must come.
#[derive(Drop)]
pub struct Outgoing {
    pub header: ProtocolHeader,
    pub payload: Bytes,
    /// In ms.
    pub deadline: Option<u64>,
}

impl Exchanges {
    /// What an answer would send, where it would send something and the session did not refuse it. It changes
    /// nothing.
    pub fn answer_outgoing(
        &self,
        key: Key,
        acknowledge: Option<u32>,
        payloads: Payloads,
    ) -> Result<Option<Outgoing>, AllocError>
        ensures { (row : SessionRow) (happenings : List Happening) → IsRunOf self.now row happenings
            → IfOk result (λ message. option_map outgoing_in message ≡ outgoing_answer (run row happenings) key acknowledge payloads) }
    {
        let x = self.table.found(key)?;
        let (sending, _) = chosen(x, acknowledge, payloads);
        unsealed(self.alloc, key, acknowledge, &sending)
    }

    /// What a report would send, where it would send something and the session did not refuse it. It changes
    /// nothing.
    pub fn report_outgoing(&self, payloads: Payloads) -> Result<Option<Outgoing>, AllocError>
        ensures { (row : SessionRow) (happenings : List Happening) → IsRunOf self.now row happenings
            → IfOk result (λ message. option_map outgoing_in message ≡ outgoing_report (run row happenings) payloads) }
    {
        let Some(id) = self.free_id() else {
            return Ok(None);
        };
        let (first, rest) = first_and_rest(payloads);
        let Some(first) = first else {
            return Ok(None);
        };
        let key = Key {
            exchange: id,
            ours: true,
        };
        unsealed(self.alloc, key, None, &Sending::Reliably(first, rest))
    }
}

// The message of what is sent, and its deadline.
fn unsealed(
    alloc: Global,
    key: Key,
    acknowledge: Option<u32>,
    sending: &Sending,
) -> Result<Option<Outgoing>, AllocError>
    ensures { IfOk result (λ found. option_map outgoing_in found ≡ outgoing_if (deadline_to_send (sending_by sending.now)) (message key acknowledge (sending_by sending.now))) }
{
    match header_to(key, acknowledge, sending) {
        None => Ok(None),
        Some(header) => {
            let payload = Bytes::from_slice(alloc, payload_of(sending))?;
            Ok(Some(Outgoing {
                header,
                payload,
                deadline: deadline_of(sending),
            }))
        },
    }
}

// Until when what is sent asks for something, in ms.
fn deadline_of(sending: &Sending) -> Option<u64>
    ensures { result ≡ deadline_to_send (sending_by sending.now) }
{
    match sending {
        Sending::Silence => None,
        Sending::Alone(_) => None,
        Sending::Reliably(payload, _) => payload.deadline,
        Sending::Plainly(payload) => payload.deadline,
    }
}
