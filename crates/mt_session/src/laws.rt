//! Laws of sessions, over their definitions alone. Each is the contract of a function that does nothing.

ghost use Rattle.std.specs.Prelude.{◌≡◌, ◌↔◌, ℕ, List, length, Some, Ok};
ghost use Rattle.mt_ccm.specs.Ccm.{Sealed};
ghost use Rattle.mt_frame.specs.declared.header.ProtocolHeader.{ProtocolHeader};
ghost use Rattle.mt_frame.specs.Writing.{IsMessage, IsProtocol};
ghost use Rattle.mt_model.specs.declared.texts.config.SessionRow.{SessionRow};
ghost use Rattle.mt_window.specs.Counters.{seen};
ghost use Rattle.mt_window.specs.declared.window.Seen.TheVariants.{Fresh};
ghost use Rattle.mt_session.specs.Datagrams.{datagram, datagram_length, mirror, opened, sent_header};
ghost use Rattle.mt_session.specs.Opening.{received};

use mt_frame::written_headers_are_read;

/// What a session seals its mirror lets in, where the counter is new to it: the counter, the protocol
/// header and the payload come out as they were. The mirror has the ids, nodes, keys and counters of
/// the two sides exchanged.
pub fn mirror_opens_what_is_sealed()
    ensures { (row : SessionRow) (accepted : List ℕ) (counter : ℕ) (header : ProtocolHeader) (payload : List ℕ)
        → IsMessage (sent_header row counter) → IsProtocol header
        → seen row.counter_out accepted counter ≡ Fresh
        → received (mirror row) accepted (datagram row counter header payload)
        ≡ Ok (record { counter = counter; header = header; payload = payload }) }
{
    written_headers_are_read();
}

/// What is opened under a key, a nonce and associated data is the plaintext that is sealed to the bytes.
pub fn opened_is_what_is_sealed()
    ensures { (key nonce aad plain bytes : List ℕ) → (opened key nonce aad bytes ≡ Some plain) ↔ Sealed key nonce aad plain bytes }
{}

/// A datagram is as long as its parts.
pub fn datagram_has_its_length()
    ensures { (row : SessionRow) (counter : ℕ) (header : ProtocolHeader) (payload : List ℕ)
        → length (datagram row counter header payload) ≡ datagram_length header payload }
{}
