//! The exchanges of a session.

ghost use Rattle.std.specs.Prelude.{◌≡◌, ◌<◌, ◌^◌, length, option_copied, slice_get};

use crate::exchange::Exchange;
use crate::table::Table;
use mt_model::ExactCopy;
use std::alloc::{AllocError, Global};

/// The open exchanges of a session, and the id that the node's next exchange tries first.
pub struct Exchanges {
    pub(crate) alloc: Global,
    pub(crate) table: Table,
    pub(crate) next_id: u16,
}

impl Drop for Exchanges {
    fn drop(self) {
        let Exchanges {
            alloc: _,
            table: _,
            next_id: _,
        } = self;
    }
}

impl Exchanges {
    /// An open exchange by its place, by rising key; None behind the last. There are fewer than 2^64.
    pub fn at(&self, index: usize) -> Option<&Exchange>
        ensures found { option_copied result ≡ slice_get self.now.table index }
        ensures within { length self.now.table < 2 ^ 64 }
    {
        if index < self.table.len() {
            return Some(self.table.at(index));
        }
        None
    }

    /// The id that the node's next exchange tries first.
    pub fn next_id(&self) -> u16
        ensures { result ≡ self.now.next_id }
    {
        self.next_id
    }
}

impl ExactCopy for Exchanges {
    fn copy(&self) -> Result<Exchanges, AllocError> {
        Ok(Exchanges {
            alloc: self.alloc,
            table: self.table.copy()?,
            next_id: self.next_id,
        })
    }
}
