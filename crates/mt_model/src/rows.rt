//! What a cluster holds: places, rows, and what of them a fabric is shown.

pub(crate) mod place;
pub(crate) mod setting;
pub(crate) mod shown;
pub(crate) mod sight;
pub(crate) mod stored;
