//! Laws of both words. The functions do nothing, and their contracts are the laws.

ghost use Rattle.mt_asking.specs.Laws.{AskedIsOpened, ShownIsExact};

use mt_ctl::{
    asked_events_are_of_a_recording, items_tell_of_their_datagrams, node_opens_what_is_asked,
    sealed_messages_are_shown,
};
use mt_files::written_recordings_are_read;

/// Of every configuration and every script: what is written is a recording, and a new session of the node opens its
/// datagrams, in order, to exactly the protocol headers and payloads of the script.
pub fn asked_is_opened()
    ensures { AskedIsOpened }
{
    node_opens_what_is_asked();
    asked_events_are_of_a_recording();
    written_recordings_are_read();
}

/// Of every configuration and every output: each line tells of its datagram, and what a new session of the node sealed is
/// shown exactly.
pub fn shown_is_exact()
    ensures { ShownIsExact }
{
    items_tell_of_their_datagrams();
    sealed_messages_are_shown();
}
