//! Laws of the two headers, over their definitions alone. Each is the contract of a function that does
//! nothing.

ghost use Rattle.std.specs.Prelude.{◌≡◌, ◌≤◌, ◌++◌, ◌↔◌, List, ℕ, length, take, Ok, Err, IsOk};
ghost use Rattle.mt_frame.specs.declared.fault.FrameFault.{FrameFault};
ghost use Rattle.mt_frame.specs.declared.header.MessageHeader.{MessageHeader};
ghost use Rattle.mt_frame.specs.declared.header.ProtocolHeader.{ProtocolHeader};
ghost use Rattle.mt_frame.specs.Fields.{AreBytes};
ghost use Rattle.mt_frame.specs.Spelling.{MessageSpells, ProtocolSpells};
ghost use Rattle.mt_frame.specs.Writing.{IsMessage, IsProtocol, message_bytes, protocol_bytes};
ghost use Rattle.mt_frame.specs.Reading.{message_at, protocol_at};
ghost use Rattle.mt_frame.specs.Faults.{AreClear, IsFirst, message_tests, protocol_tests};

/// A header that is spelled is read, with its length, whatever follows it.
pub fn header_is_read()
    ensures message { (header : MessageHeader) (bytes rest : List ℕ) → MessageSpells header bytes
        → message_at (bytes ++ rest) ≡ Ok (header, length bytes) }
    ensures protocol { (header : ProtocolHeader) (bytes rest : List ℕ) → ProtocolSpells header bytes
        → protocol_at (bytes ++ rest) ≡ Ok (header, length bytes) }
{}

/// A header that is read is spelled by as many bytes at the front as its length says.
pub fn header_is_spelled()
    ensures message { (bytes : List ℕ) (header : MessageHeader) (len : ℕ) → AreBytes bytes → message_at bytes ≡ Ok (header, len)
        → (len ≤ length bytes) × MessageSpells header (take len bytes) }
    ensures protocol { (bytes : List ℕ) (header : ProtocolHeader) (len : ℕ) → AreBytes bytes → protocol_at bytes ≡ Ok (header, len)
        → (len ≤ length bytes) × ProtocolSpells header (take len bytes) }
{}

/// The headers that have a spelling are those whose numbers fit their fields, a message header's
/// session not being 0, and each has one.
pub fn one_spelling()
    ensures message { (header : MessageHeader) → IsMessage header → MessageSpells header (message_bytes header) }
    ensures message_only { (header : MessageHeader) (bytes : List ℕ) → MessageSpells header bytes
        → IsMessage header × (bytes ≡ message_bytes header) }
    ensures protocol { (header : ProtocolHeader) → IsProtocol header → ProtocolSpells header (protocol_bytes header) }
    ensures protocol_only { (header : ProtocolHeader) (bytes : List ℕ) → ProtocolSpells header bytes
        → IsProtocol header × (bytes ≡ protocol_bytes header) }
{}

/// What is written is read again, whatever follows it.
pub fn written_headers_are_read()
    ensures message { (header : MessageHeader) (rest : List ℕ) → IsMessage header
        → message_at (message_bytes header ++ rest) ≡ Ok (header, length (message_bytes header)) }
    ensures protocol { (header : ProtocolHeader) (rest : List ℕ) → IsProtocol header
        → protocol_at (protocol_bytes header ++ rest) ≡ Ok (header, length (protocol_bytes header)) }
{}

/// A fault is answered exactly where it is the first in the order of the format: it stands, and none
/// before it does. A header is answered exactly where none stands.
pub fn first_fault_is_answered()
    ensures message { (bytes : List ℕ) (fault : FrameFault) → (message_at bytes ≡ Err fault) ↔ IsFirst fault (message_tests bytes) }
    ensures message_clear { (bytes : List ℕ) → IsOk (message_at bytes) ↔ AreClear (message_tests bytes) }
    ensures protocol { (bytes : List ℕ) (fault : FrameFault) → (protocol_at bytes ≡ Err fault) ↔ IsFirst fault (protocol_tests bytes) }
    ensures protocol_clear { (bytes : List ℕ) → IsOk (protocol_at bytes) ↔ AreClear (protocol_tests bytes) }
{}

/// No header's spelling begins another's, and bytes spell one header at most.
pub fn no_header_begins_another()
    ensures message { (g h : MessageHeader) (a b x y : List ℕ) → MessageSpells g a → MessageSpells h b → a ++ x ≡ b ++ y
        → (a ≡ b) × (g ≡ h) }
    ensures protocol { (g h : ProtocolHeader) (a b x y : List ℕ) → ProtocolSpells g a → ProtocolSpells h b → a ++ x ≡ b ++ y
        → (a ≡ b) × (g ≡ h) }
{}
