//! What is looked up in the fabrics and in the fail-safe.

ghost use Rattle.std.specs.Prelude.{◌≡◌, IfErr, IfOk, Ok, Err, Some, None, option_copied, if◌then◌else◌};
ghost use Rattle.mt_fabrics.specs.Table.{credentials_at, is_used};
ghost use Rattle.mt_model.specs.tables.Known.{bare_armed, known_in};
ghost use Rattle.mt_opcreds.specs.Owner.{owned_by};

use mt_failsafe::is_unused;
use mt_model::{Armed, Credentials, Fabric, Status, View};

/// The fail-safe, where this fabric armed it, and none was added or updated under it; otherwise the status
/// that refuses whoever would commission.
pub(crate) fn owned<'a>(view: &View<'a>, fabric: u8) -> Result<&'a Armed, Status>
    ensures ok { IfOk result (λ armed. owned_by fabric (known_in fabric view.now).armed ≡ Ok (bare_armed armed.now)) }
    ensures err { IfErr result (λ status. owned_by fabric (known_in fabric view.now).armed ≡ Err status) }
{
    let Some(armed) = view.armed else {
        return Err(Status::FailsafeRequired);
    };
    if armed.owner != fabric {
        return Err(Status::FailsafeRequired);
    }
    if !is_unused(armed) {
        return Err(Status::ConstraintError);
    }
    Ok(armed)
}

/// The credentials of the fabric with an index.
pub(crate) fn credentials_at(fabrics: &[Fabric], index: u8) -> Option<&Credentials>
    ensures { option_copied result ≡ credentials_at index fabrics.now }
{
    match fabrics.iter().find(|fabric| fabric.index == index) {
        Some(fabric) => Some(&fabric.credentials),
        None => None,
    }
}

/// An index as the table has it, None where no fabric has it.
#[tactic(auto, using(crate::proofs::Walks::used_at))]
pub(crate) fn used_index(fabrics: &[Fabric], index: u64) -> Option<u8>
    ensures { result ≡ (if is_used index fabrics.now then Some index else None) }
{
    for fabric in fabrics {
        if fabric.index as u64 == index {
            return Some(fabric.index);
        }
    }
    None
}
