//! Laws of recordings, of outputs and of the lines of events and messages, over their definitions alone. Each is
//! the contract of a function that does nothing.

ghost use Rattle.std.specs.Prelude.{◌≡◌, ◌≢◌, ◌≤◌, ◌<◌, ◌^◌, List, ℕ, All, Ok, Some, decimal, length, map};
ghost use Rattle.std.specs.List.{filter_map};
ghost use Rattle.std.specs.List.Sorted.{IsNonDecreasing};
ghost use Rattle.mt_model.specs.declared.limits.TheConstants.{RECORDING_BYTES, RECORDING_LINES};
ghost use Rattle.mt_model.specs.declared.texts.recording.Event.{Event};
ghost use Rattle.mt_model.specs.declared.texts.recording.Sent.{Sent};
ghost use Rattle.mt_files.specs.Event.{event_line};
ghost use Rattle.mt_files.specs.Field.{number_of};
ghost use Rattle.mt_files.specs.Form.{HasForm, HasSentForm, IsEvent, IsSent};
ghost use Rattle.mt_files.specs.Lines.{lines_of};
ghost use Rattle.mt_files.specs.Output.{IsOutput, as_told, output_of, output_text, sent_line};
ghost use Rattle.mt_model.specs.texts.Events.{event_time};
ghost use Rattle.mt_files.specs.Recording.{IsRecording, recording_of, recording_text};

/// The texts that are read are the recordings: the head, then a line for each event, within the
/// limits, with times that do not fall.
pub fn recordings_are_read()
    ensures only { (bytes : List ℕ) (events : List Event) → recording_of bytes ≡ Ok events → IsRecording bytes events }
    ensures all { (bytes : List ℕ) (events : List Event) → IsRecording bytes events → recording_of bytes ≡ Ok events }
{}

/// Each event that is read is within the ranges of the format.
pub fn events_have_a_form()
    ensures { (bytes : List ℕ) (events : List Event) → recording_of bytes ≡ Ok events → All HasForm events }
{}

/// Events within the ranges of the format, whose times do not fall, are read again as they were
/// written, where their lines and bytes are few enough.
pub fn written_recordings_are_read()
    ensures { (events : List Event) → All IsEvent events → All HasForm events → IsNonDecreasing (filter_map event_time events)
        → length events ≤ RECORDING_LINES → length (recording_text events) ≤ RECORDING_BYTES
        → recording_of (recording_text events) ≡ Ok events }
{}

/// Each message that is read of an output is within the ranges of the format.
pub fn messages_have_a_form()
    ensures { (bytes : List ℕ) (messages : List Sent) → output_of bytes ≡ Ok messages → All HasSentForm messages }
{}

/// Messages within the ranges of the format, whose times do not fall, are read again as they were written,
/// but for the sessions, where their lines and bytes are few enough.
pub fn written_outputs_are_read()
    ensures { (messages : List Sent) → All IsSent messages → All HasSentForm messages → IsNonDecreasing (map (λ message. message.ms) messages)
        → length messages ≤ RECORDING_LINES → length (output_text messages) ≤ RECORDING_BYTES
        → output_of (output_text messages) ≡ Ok (map as_told messages) }
{}

/// What is written for an event or a message is one line: no end of a line stands inside. So the lines
/// of an output are those of its messages.
pub fn lines_are_single()
    ensures event { (event : Event) → IsEvent event → All (λ byte. byte ≢ 10) (event_line event) }
    ensures sent { (message : Sent) → IsSent message → All (λ byte. byte ≢ 10) (sent_line message) }
    ensures output { (bytes : List ℕ) (messages : List Sent) → All IsSent messages → IsOutput bytes messages → lines_of bytes ≡ map sent_line messages }
{}

/// A decimal number has one spelling, which is the one that is written.
pub fn numbers_have_one_spelling()
    ensures spelled { (text : List ℕ) (number : ℕ) → number_of text ≡ Some number → number < 2 ^ 64 → text ≡ decimal number }
    ensures read { (number : ℕ) → number < 2 ^ 64 → number_of (decimal number) ≡ Some number }
{}
