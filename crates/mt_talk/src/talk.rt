//! A talk.

ghost use Rattle.std.specs.Prelude.{◌≡◌, ◌≢◌};
ghost use Rattle.mt_model.specs.declared.tables.access.Auth.TheVariants.{Group};
ghost use Rattle.mt_talk.specs.Talks.{IsTalkOf, begun_talk};

use mt_exchange::Exchanges;
use mt_model::{ExactCopy, SessionRow};
use mt_outside::Peer;
use mt_session::Session;
use std::alloc::{AllocError, Global};

/// What is said over a session, as far as it is still needed. Contracts speak of all that was said, which nothing stores.
pub struct Talk {
    pub(crate) alloc: Global,
    pub(crate) session: Session,
    pub(crate) exchanges: Exchanges,
    /// From where the latest fresh message came, None before the first.
    pub(crate) latest: Option<Peer>,
}

impl Drop for Talk {
    fn drop(self) {
        let Talk {
            alloc: _,
            session: _,
            exchanges: _,
            latest: _,
        } = self;
    }
}

impl Talk {
    /// A talk over the session of this row, in which nothing has been said. The row is of a unicast session, PASE or
    /// CASE, whose two ids are not 0. It takes no memory.
    pub fn new(alloc: Global, row: SessionRow) -> Talk
        requires auth { row.auth ≢ Group }
        requires session { row.session ≢ 0 }
        requires peer_session { row.peer_session ≢ 0 }
        ensures { IsTalkOf result row begun_talk }
    {
        Talk {
            alloc,
            session: Session::new(row),
            exchanges: Exchanges::new(alloc),
            latest: None,
        }
    }

    /// Its open exchanges.
    pub fn exchanges(&self) -> &Exchanges
        ensures { result.now ≡ self.now.exchanges }
    {
        &self.exchanges
    }

    /// From where the latest fresh message came, None before the first. To there all is sent.
    pub fn latest(&self) -> Option<Peer>
        ensures { result ≡ self.now.latest }
    {
        self.latest
    }
}

impl ExactCopy for Talk {
    fn copy(&self) -> Result<Talk, AllocError> {
        Ok(Talk {
            alloc: self.alloc,
            session: self.session.copy()?,
            exchanges: self.exchanges.copy()?,
            latest: self.latest,
        })
    }
}
