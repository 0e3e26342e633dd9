//! Laws of talks. The functions here do nothing, and their contracts are the laws.

ghost use Rattle.mt_talk.specs.Awaiting.{RepliesAwaitTheirConfirmations};
ghost use Rattle.mt_talk.specs.Retold.{BegunTalkIsRetold, DroppedTalksAreRetold, HeardTalksAreRetold, ReportedTalksAreRetold, ResentTalksAreRetold, ShownTalksAreTheSame};

use mt_exchange::{runs_are_retold, shown_tells_the_rest, taken_on_its_exchange};
use mt_tlv::written_is_read;

/// What is shown of a talk tells what is open, owed and awaited in it, but for the payloads that are kept to be sent later, and so two talks
/// of which the same is shown, and in which the same is still to be sent, are the same. An answer that is refused as too long is the exception:
/// it leaves a request unanswered, and nothing shows that.
pub fn talks_are_retold()
    ensures begun { BegunTalkIsRetold }
    ensures hears { HeardTalksAreRetold }
    ensures reports { ReportedTalksAreRetold }
    ensures resends { ResentTalksAreRetold }
    ensures drops { DroppedTalksAreRetold }
    ensures same { ShownTalksAreTheSame }
{
    runs_are_retold();
    shown_tells_the_rest();
    taken_on_its_exchange();
}

/// Of the payloads of a reply each but the last awaits its confirmation, where each payload of a report says what is allowed and has 65,535
/// bytes at most.
pub fn replies_await_their_confirmations()
    ensures { RepliesAwaitTheirConfirmations }
{
    written_is_read();
}
