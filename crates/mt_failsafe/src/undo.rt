//! What is saved as the fail-safe is armed, and what an expiry takes back.

use mt_model::{Credentials, Networks};

/// What an expiry has to give back, as it stands when the fail-safe is armed.
#[derive(Drop)]
pub struct Saved {
    pub networks: Networks,
}

/// What an expiry takes back of what was done since the fail-safe was armed. Not both of `added` and
/// `updated` are there.
#[derive(Drop)]
pub struct Undo {
    /// The fabric that was added, which goes.
    pub added: Option<u8>,
    /// The fabric that was updated, and the credentials that it had, which it gets back.
    pub updated: Option<(u8, Credentials)>,
    /// The networks as they stood, which take the place of those of now.
    pub networks: Networks,
}
