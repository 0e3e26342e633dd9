//! UpdateFabricLabel.

ghost use Rattle.std.specs.Prelude.{◌≡◌, IfOk};
ghost use Rattle.mt_model.specs.tables.Known.{known_in};
ghost use Rattle.mt_opcreds.specs.UpdateFabricLabel.{update_label_effect};

use crate::fault::CertificateFault;
use crate::responses::{noc_done, noc_refused};
use mt_fabrics::is_label_of_another;
use mt_meta::text_of;
use mt_model::limits::LABEL_BYTES;
use mt_model::{Effect, NodeStep, Place, Status, Steps, View};
use mt_tlv::{Bytes, Value};
use std::alloc::{AllocError, Global};

/// What the administrator of the fabric that asks calls it.
#[tactic(auto, using(crate::proofs::Others::others_labels))]
pub(crate) fn update_label_effect(
    alloc: Global,
    view: &View,
    index: u8,
    command: &Place,
    fields: &Value,
) -> Result<Effect, AllocError>
    ensures { IfOk result (λ effect. effect ≡ update_label_effect (known_in index view.now) index command.now fields.now) }
{
    let label = text_of(fields, 0);
    if label.len() > LABEL_BYTES {
        return Ok(Effect::refused_at(alloc, command, Status::ConstraintError));
    }
    if is_label_of_another(view.fabrics.as_slice(), index, label) {
        return noc_refused(alloc, command, CertificateFault::LabelConflict);
    }
    let mut steps = Steps::new(alloc);
    steps.push(NodeStep::Label {
        index,
        label: Bytes::from_slice(alloc, label)?,
    })?;
    noc_done(alloc, command, index, steps)
}
