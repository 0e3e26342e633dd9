//! What a node that plays sends for a line of a recording: as text, or told to a tally.

ghost use Rattle.std.specs.Prelude.{◌≡◌, List, IfOk, OnOk};
ghost use Rattle.mt_files.specs.Output.{output_text};
ghost use Rattle.mt_model.specs.declared.texts.recording.Sent.{Sent};
ghost use Rattle.mt_compare.specs.mt_play.Plays.{IsOnJournal};
ghost use Rattle.mt_soak.specs.Summary.{IsTallyOf};
ghost use Rattle.mt_top.specs.Begun.{Begun, Plays, Steps, Tells};

use mt_compare::Playing;
use mt_files::write_sent;
use mt_model::{Event, Sent};
use mt_soak::Tally;
use std::alloc::{AllocError, Global};

/// Makes of the node what the event makes of it, and gives the text of what is sent.
pub(crate) fn step(
    alloc: Global,
    player: &mut Playing,
    event: &Event,
) -> Result<Vec<u8>, AllocError>
    requires { IsOnJournal player.old }
    ensures journal { OnOk result (IsOnJournal player.new) }
    ensures steps { (begun : Begun) → Plays player.old begun → IfOk result (Steps begun player.new event.now) }
{
    let sent = player.step(event)?;
    text_of(alloc, sent.as_slice())
}

/// Makes of the node what the event makes of it, and tells the tally what is sent.
pub(crate) fn tell(
    alloc: Global,
    player: &mut Playing,
    event: &Event,
    tally: &mut Tally,
) -> Result<(), AllocError>
    requires { IsOnJournal player.old }
    ensures journal { OnOk result (IsOnJournal player.new) }
    ensures tells { (begun : Begun) (before : List Sent) → Plays player.old begun → IsTallyOf tally.old before → OnOk result (Tells begun before player.new tally.new event.now) }
{
    let sent = player.step(event)?;
    tally.note(alloc, sent.as_slice())
}

// A line for each message.
fn text_of(alloc: Global, sent: &[Sent]) -> Result<Vec<u8>, AllocError>
    ensures { IfOk result (λ text. text.items ≡ output_text sent.now) }
{
    let mut text = Vec::new(alloc);
    for message in sent {
        write_sent(message, &mut text)?;
    }
    Ok(text)
}
