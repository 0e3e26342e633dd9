//! What a session keeps.

ghost use Rattle.std.specs.Prelude.{◌≡◌, ◌<◌};

use mt_ccm::Cipher;
use mt_model::{ExactCopy, SessionRow};
use mt_window::Window;
use std::alloc::{AllocError, Global};

/// A session: its row, its two keys ready for use, the window of the peer's counters, and the counter
/// of its next message.
pub struct Session {
    pub(crate) alloc: Global,
    pub(crate) row: SessionRow,
    pub(crate) cipher_in: Cipher,
    pub(crate) cipher_out: Cipher,
    pub(crate) window: Window,
    pub(crate) counter: u32,
    pub(crate) ghost is_secured: { 0 < row.peer_session },
    pub(crate) ghost opens_by_key: { cipher_in ≡ row.key_in },
    pub(crate) ghost seals_by_key: { cipher_out ≡ row.key_out },
}

impl Drop for Session {
    fn drop(self) {
        let Session {
            alloc: _,
            row: _,
            cipher_in: _,
            cipher_out: _,
            window: _,
            counter: _,
        } = self;
    }
}

impl ExactCopy for Session {
    fn copy(&self) -> Result<Session, AllocError> {
        Ok(Session {
            alloc: self.alloc,
            row: self.row.copy()?,
            cipher_in: self.cipher_in.copy(),
            cipher_out: self.cipher_out.copy(),
            window: self.window,
            counter: self.counter,
        })
    }
}
