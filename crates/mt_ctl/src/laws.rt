//! Laws of both ends of a session, over their definitions alone. Each is the contract of a function that
//! does nothing.

ghost use Rattle.std.specs.Prelude.{◌≡◌, ◌≢◌, ◌≤◌, ◌<◌, ◌+◌, ◌^◌, ℕ, List, [], ◌∷◌, ◌++◌, All, map, length, None, Ok};
ghost use Rattle.std.specs.List.{filter_map};
ghost use Rattle.std.specs.List.Sorted.{IsNonDecreasing};
ghost use Rattle.mt_files.specs.Form.{HasForm};
ghost use Rattle.mt_files.specs.Recording.{recording_text};
ghost use Rattle.mt_frame.specs.Writing.{IsProtocol};
ghost use Rattle.mt_model.specs.declared.texts.config.SessionRow.{SessionRow};
ghost use Rattle.mt_model.specs.declared.texts.recording.Sent.{Sent};
ghost use Rattle.mt_model.specs.texts.Events.{event_time};
ghost use Rattle.mt_session.specs.Datagrams.{mirror};
ghost use Rattle.mt_session.specs.Opening.{Arrival, received};
ghost use Rattle.mt_session.specs.Sessions.{Message, next_datagram};
ghost use Rattle.mt_ctl.specs.Asking.{asked, datagrams_told, exhausted_line};
ghost use Rattle.mt_ctl.specs.Hearing.{answers, datagrams_from, numbered};
ghost use Rattle.mt_ctl.specs.Script.{script_of};
ghost use Rattle.mt_ctl.specs.Showing.{bytes_of, datagrams_in, shown, shown_each};
ghost use Rattle.mt_ctl.specs.Steps.{script_headers};
ghost use Rattle.mt_ctl.specs.Testing.{AreToldOf, IsSealedIn, closed_by, first_failing, tests};
ghost use Rattle.mt_ctl.specs.declared.steps.Step.{Step};

use mt_session::{datagram_has_its_length, mirror_opens_what_is_sealed, opened_is_what_is_sealed};
use mt_window::fresh_is_new_within_reach;

/// A new session of the node opens each datagram that is asked, in their order, and finds in them exactly
/// the headers and payloads of the script, under the counters from the row's first on.
pub fn node_opens_what_is_asked()
    ensures { (row : SessionRow) (steps : List Step) → row.session ≢ 0 → row.session < 2 ^ 16 → row.counter_in < 2 ^ 32
        → exhausted_line row steps ≡ None → All (λ message. IsProtocol message.header) (script_headers steps)
        → answers row (datagrams_told (asked row steps)) ≡ map Ok (numbered row.counter_in (script_headers steps)) }
{
    mirror_opens_what_is_sealed();
    fresh_is_new_within_reach();
}

/// What is asked for a script is within the ranges of a recording: each event has its form, the times do not
/// fall, there are no more events than the script has lines behind its head, and their text has at most
/// 67,108,864 bytes.
pub fn asked_events_are_of_a_recording()
    ensures form { (row : SessionRow) (bytes : List ℕ) (steps : List Step) → script_of bytes ≡ Ok steps → All HasForm (asked row steps) }
    ensures times { (row : SessionRow) (bytes : List ℕ) (steps : List Step) → script_of bytes ≡ Ok steps
        → IsNonDecreasing (filter_map event_time (asked row steps)) }
    ensures few { (row : SessionRow) (bytes : List ℕ) (steps : List Step) → script_of bytes ≡ Ok steps → length (asked row steps) ≤ 65535 }
    ensures short { (row : SessionRow) (bytes : List ℕ) (steps : List Step) → script_of bytes ≡ Ok steps
        → length (recording_text (asked row steps)) ≤ 67108864 }
{
    datagram_has_its_length();
}

/// What is shown of each datagram is what a new session of the other side answers to it, after those before.
pub fn shown_is_what_is_answered()
    ensures { (row : SessionRow) (sent : List Sent)
        → shown row sent ≡ shown_each (datagrams_in sent) (answers (mirror row) (bytes_of (datagrams_in sent))) }
{}

/// Of the datagrams that a new session of the node seals, exactly the messages are shown that were sealed: each
/// with its header and payload, in their order.
pub fn sealed_messages_are_shown()
    ensures { (row : SessionRow) (messages : List Message) (sent : List Sent) → row.peer_session ≢ 0 → row.peer_session < 2 ^ 16
        → row.counter_out + length messages ≤ 4294967295 → All (λ message. IsProtocol message.header) messages
        → bytes_of (datagrams_in sent) ≡ datagrams_from row row.counter_out messages
        → shown row sent ≡ shown_each (datagrams_in sent) (map Ok (numbered row.counter_out messages)) }
{
    mirror_opens_what_is_sealed();
    fresh_is_new_within_reach();
}

/// The datagrams of messages are those that a session seals one after the other: each further message has the
/// next datagram.
pub fn datagrams_are_sealed_in_turn()
    ensures { (row : SessionRow) (messages : List Message) (message : Message)
        → datagrams_from row row.counter_out (messages ++ message ∷ [])
        ≡ datagrams_from row row.counter_out messages ++ next_datagram row messages message.header message.payload ∷ [] }
{}

/// Where the other side opens a datagram, the message that it finds is sealed in it with the node's key.
pub fn opened_messages_are_sealed()
    ensures { (row : SessionRow) (accepted bytes : List ℕ) (arrival : Arrival) → received (mirror row) accepted bytes ≡ Ok arrival
        → IsSealedIn row bytes arrival.header arrival.payload }
{
    opened_is_what_is_sealed();
}

/// A datagram is closed exactly where it fails a test, and its kind is that of the first that it fails.
pub fn first_failing_test_closes()
    ensures { (row : SessionRow) (accepted bytes : List ℕ) → closed_by (received row accepted bytes) ≡ first_failing (tests row accepted bytes) }
{}

/// Each item that is shown tells of its datagram: a message that is sealed in it with the node's key, where it passes
/// all tests, and otherwise the kind of the first test that it fails.
pub fn items_tell_of_their_datagrams()
    ensures { (row : SessionRow) (sent : List Sent) → AreToldOf row [] (datagrams_in sent) (shown row sent) }
{
    opened_is_what_is_sealed();
}
