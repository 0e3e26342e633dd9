//! Which session a datagram names.

ghost use Rattle.std.specs.Prelude.{◌≡◌, ◌≢◌, ◌<◌, ◌^◌, None, length};
ghost use Rattle.mt_talk.specs.Naming.{session_named};

use mt_frame::read_message;

/// The session that a datagram names in its message header, None where it has none: then it is too short, no header of a unicast
/// session, or has more than 65,535 bytes. It is not opened.
pub fn session_named(bytes: &[u8]) -> Option<u16>
    ensures exact { result ≡ session_named bytes.now }
    ensures short { result ≢ None → length bytes.now < 2 ^ 16 }
{
    if bytes.len() > u16::MAX as usize {
        return None;
    }
    match read_message(bytes) {
        Ok((header, _)) => Some(header.session),
        Err(_) => None,
    }
}
