//! Every line of a recording and whole runs, as they are written, in which the disk may stop: what a line sends and the whole behind it;
//! what each fabric is sent of a run, its marks, which are what it may learn beside its own part, and what is made of these two. The
//! definitions stand in `specs/`, a chapter a file; the functions here do nothing, and their contracts are the laws.
//!
//! - `lines`: the laws of lines; their chapters are `Whole`, `Datagrams`, `Lines`, `Replies`, `Expiries`, `Isolation` and
//!   `LineLaws`;
//! - `stops`: the laws of one reopening, of the lines in which the disk stops; their chapters are `Reopening`, `Course` and `Restarts`;
//! - `runs`: the laws of runs: `Messages`, all that a run sends, each message with the fabric to which it is sent; `Marks`, the marks of a
//!   fabric in it; `Replay`, what a fabric is sent, made of its own part and its marks and of nothing else; `Laws`;
//! - `telling`: what is shown of sessions tells the rest; its chapter is `Retold`.
#![tactic(auto)]

mod lines;
mod runs;
mod stops;
mod telling;

pub use lines::{
    expiries_are_rollbacks, replies_are_exact, ticks_see_the_mark_alone, veil_keeps_the_own,
    whole_keeps_the_own, whole_leaves_the_own_on_the_veil, whole_sends_on_the_veil,
    wholes_are_valid,
};
pub use mt_ledger::{histories_grow_by_events, histories_stay_histories};
pub use runs::{
    equal_marks_have_equal_messages, plain_messages_name_their_fabric, runs_are_replayed,
    runs_are_their_messages, strangers_are_sent_nothing,
};
pub use stops::{
    lines_make_calls_where_what_lasts_changes, reopenings_are_exact, reopenings_see_the_own_part,
    stops_leave_all,
};
pub use telling::{answers_await_their_confirmations, sessions_are_retold};
