//! From words to the text of a recording, or of a script.

ghost use Rattle.std.specs.Prelude.{IfOk};
ghost use Rattle.mt_say.specs.Words.{IsSaid, IsScripted};

use crate::fault::SayFault;
use crate::reading::sayings;
use crate::recorded::recording;
use crate::saying::Speaker;
use crate::scripted::script;
use std::alloc::Global;

/// The text of the recording that lines of words come to, or the first place in them that does not fit.
pub fn say(alloc: Global, words: &[u8]) -> Result<Vec<u8>, SayFault>
    ensures { IfOk result (λ text. IsSaid words.now text.items) }
{
    let said = sayings(alloc, None, words)?;
    recording(alloc, said.as_slice())
}

/// The text of the script that lines of words come to on a session, whose peer is the speaker, or the first place in them that
/// does not fit. Its payloads have at most 1,198 bytes, as those of every script: of longer ones it is TooLong.
pub fn say_on(alloc: Global, speaker: Speaker, words: &[u8]) -> Result<Vec<u8>, SayFault>
    ensures { IfOk result (λ text. IsScripted words.now text.items) }
{
    let said = sayings(alloc, Some(speaker), words)?;
    script(alloc, said.as_slice())
}
