//! What the files hold: configurations, the verdicts in them, recordings.

pub(crate) mod config;
pub(crate) mod line_fault;
pub(crate) mod recording;
pub(crate) mod verdicts;
