//! The law of masked epoch keys. It is the contract of a function that does nothing.

ghost use Rattle.mt_masks.specs.Laws.{ActionsStayMasked, AsidesAreTheSame, AskersAreTheSame, LinesSendTheSame, LinesStayMasked, ReadsAreTheSame, RepliesAreTheSame, StatesStayMasked, StepsStayMasked, TicksStayMasked, ToldIsTheSame};

use mt_commission::steps_are_sound;
use mt_opcreds::steps_are_moves;

/// Where each epoch key of a KeySetWrite and of the key sets that are kept is masked, an action has the same reply, tells the same events,
/// and ends the same sessions; who is taken as asking is the same; and the state behind it is the one that there is, masked. So is what
/// lines of plain actors send, and the whole behind them.
pub fn epoch_keys_are_told_to_nobody()
    ensures replies { RepliesAreTheSame }
    ensures askers { AskersAreTheSame }
    ensures steps { StepsStayMasked }
    ensures states { StatesStayMasked }
    ensures asides { AsidesAreTheSame }
    ensures told { ToldIsTheSame }
    ensures reads { ReadsAreTheSame }
    ensures sent { LinesSendTheSame }
    ensures lines { LinesStayMasked }
    ensures actions { ActionsStayMasked }
    ensures ticks { TicksStayMasked }
{
    steps_are_moves();
    steps_are_sound();
}
