//! The responses.

ghost use Rattle.std.specs.Prelude.{◌≡◌, IfOk};
ghost use Rattle.mt_opcreds.specs.Responses.{csr_done, noc_done, noc_refused, responded};

use crate::fault::CertificateFault;
use mt_meta::clusters::operational_credentials::{CSR_RESPONSE, NOC_RESPONSE};
use mt_model::{Effect, Place, Reply, Steps};
use mt_tlv::{Bytes, Members, Tag, Value};
use std::alloc::{AllocError, Global};

/// The certificates, the label or the index are refused, and nothing changes.
pub(crate) fn noc_refused(
    alloc: Global,
    command: &Place,
    fault: CertificateFault,
) -> Result<Effect, AllocError>
    ensures { IfOk result (λ effect. effect ≡ noc_refused command.now fault) }
{
    let status = (Tag::Context(0), Value::Uint(fault.code() as u64));
    let fields = vec![in alloc; status]?;
    Ok(responded(
        command,
        NOC_RESPONSE,
        Value::Struct(Members::from_vec(fields)),
        Steps::new(alloc),
    ))
}

/// The command is carried out by these steps, for the fabric of this index.
pub(crate) fn noc_done(
    alloc: Global,
    command: &Place,
    index: u8,
    steps: Steps,
) -> Result<Effect, AllocError>
    ensures { IfOk result (λ effect. effect ≡ noc_done command.now index steps) }
{
    let fields = vec![in alloc;
        (Tag::Context(0), Value::Uint(0)),
        (Tag::Context(1), Value::Uint(index as u64)),
    ]?;
    Ok(responded(
        command,
        NOC_RESPONSE,
        Value::Struct(Members::from_vec(fields)),
        steps,
    ))
}

/// The signing request is answered.
pub(crate) fn csr_done(
    alloc: Global,
    command: &Place,
    elements: &Bytes,
    signature: &Bytes,
    steps: Steps,
) -> Result<Effect, AllocError>
    ensures { IfOk result (λ effect. effect ≡ csr_done command.now elements.now signature.now steps) }
{
    let elements = elements.copy()?;
    let signature = signature.copy()?;
    let fields = vec![in alloc;
        (Tag::Context(0), Value::Octets(elements)),
        (Tag::Context(1), Value::Octets(signature)),
    ]?;
    Ok(responded(
        command,
        CSR_RESPONSE,
        Value::Struct(Members::from_vec(fields)),
        steps,
    ))
}

fn responded(command: &Place, response: u32, fields: Value, steps: Steps) -> Effect
    ensures { result ≡ responded command.now response fields steps }
{
    Effect {
        reply: Reply::Invoked {
            command: Place {
                leaf: response,
                ..*command
            },
            fields,
        },
        steps,
    }
}
