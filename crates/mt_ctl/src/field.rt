//! What a single field tells, where no other text has such a field.

ghost use Rattle.std.specs.Prelude.{◌≡◌};
ghost use Rattle.mt_ctl.specs.Script.{ack_in, exchange_in};

use mt_files::number;

/// The id of an exchange.
pub fn exchange(text: &[u8]) -> Option<u16>
    ensures { result ≡ exchange_in text.now }
{
    match number(0, u16::MAX as u64, text) {
        Some(exchange) => Some(exchange as u16),
        None => None,
    }
}

/// A message counter, or `-` for none.
pub fn ack(text: &[u8]) -> Option<Option<u32>>
    ensures { result ≡ ack_in text.now }
{
    if text == b"-".as_slice() {
        return Some(None);
    }
    match number(0, u32::MAX as u64, text) {
        Some(counter) => Some(Some(counter as u32)),
        None => None,
    }
}
