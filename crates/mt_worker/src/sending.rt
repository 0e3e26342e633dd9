//! Messages to an outlet.

ghost use Rattle.std.specs.Prelude.{◌≡◌, IfErr, OnErr, OnOk};
ghost use Rattle.mt_outside.specs.Stream.{HasCause};
ghost use Rattle.mt_worker.specs.Giving.{Gave, GavePart, parcel_in, parcels_in};
ghost use Rattle.mt_worker.specs.declared.fault.WorkFault.TheVariants.{Link};

use crate::fault::WorkFault;
use mt_model::{Sent, To};
use mt_outside::{Failed, Outlet};

/// Gives messages to the peers of their sessions, in order, up to the first that fails.
pub(crate) fn send_all<O: Outlet>(outlet: &mut O, messages: &[Sent]) -> Result<(), WorkFault>
    ensures all { OnOk result (Gave (O.given outlet.old) (O.given outlet.new) (parcels_in messages.now)) }
    ensures part { GavePart (O.given outlet.old) (O.given outlet.new) (parcels_in messages.now) }
    ensures link { IfErr result (λ fault. fault ≡ Link) }
    ensures cause { HasCause (O.faults outlet.old) (O.faults outlet.new) result }
{
    for message in messages {
        let Ok(()) = send(outlet, message) else {
            return Err(WorkFault::Link);
        };
    }
    Ok(())
}

// Gives a message to the peer of its session. One to a plain actor is to nobody here.
fn send<O: Outlet>(outlet: &mut O, message: &Sent) -> Result<(), Failed>
    ensures gave { OnOk result (Gave (O.given outlet.old) (O.given outlet.new) (parcel_in message.now)) }
    ensures kept { OnErr result (O.given outlet.new ≡ O.given outlet.old) }
    ensures cause { HasCause (O.faults outlet.old) (O.faults outlet.new) result }
{
    match &message.to {
        To::Session { peer, .. } => outlet.send(*peer, message.bytes.as_slice()),
        To::Plain { .. } => Ok(()),
    }
}
