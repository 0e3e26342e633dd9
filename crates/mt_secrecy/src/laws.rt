//! The law of secrecy. It is the contract of a function that does nothing.

ghost use Rattle.mt_secrecy.specs.Laws.{KeysAloneDiffer, KeysAreInNoMessage, KeysAreNeverSent, NewNodesSendNoKeys};
ghost use Rattle.mt_secrecy.specs.Sample.{KeyWritesAreRead, OtherKeysAreAlike};

use mt_masks::epoch_keys_are_told_to_nobody;

/// Two recordings that say the same but for the epoch keys that their KeySetWrites give send the same bytes to everybody, and leave nodes
/// that are the same but for keys: lines of plain actors, time steps, report steps, and stops of the disk at once, behind which the node is
/// reopened. So it is from two wholes that are the same but for keys, and of a node that begins as a configuration says. Two KeySetWrites that
/// give other keys are such lines.
pub fn keys_are_never_sent()
    ensures sent { KeysAreNeverSent }
    ensures messages { KeysAreInNoMessage }
    ensures left { KeysAloneDiffer }
    ensures new { NewNodesSendNoKeys }
    ensures sample { OtherKeysAreAlike }
    ensures read { KeyWritesAreRead }
{
    epoch_keys_are_told_to_nobody();
}
