//! How much a node serves, in a line on standard error that is written again at most once a second, where that is a terminal.

use mt_outside::Progress;
use mt_top::{Usage, Watcher};
use std::io::IsTerminal;
use std::sync::atomic::{AtomicBool, AtomicU64, Ordering};

/// What the threads of a served node tell of the line.
#[derive(Drop)]
pub(crate) struct Board {
    taken: AtomicU64,
    has_line: AtomicBool,
}

impl Board {
    /// Of a node that has served nothing.
    pub(crate) fn new() -> Board {
        Board {
            taken: AtomicU64::new(0),
            has_line: AtomicBool::new(false),
        }
    }

    /// Whether the line was written.
    pub(crate) fn has_line(&self) -> bool {
        self.has_line.load(Ordering::Relaxed)
    }
}

/// Is told by the receiver how many datagrams were taken.
#[derive(Drop)]
pub(crate) struct TakenCount<'a> {
    pub(crate) board: &'a Board,
}

impl Progress for TakenCount<'_> {
    fn done(&mut self, datagrams: u32, _all: u32) {
        self.board
            .taken
            .store(u64::from(datagrams), Ordering::Relaxed);
    }
}

/// Is told by the reporter, at each new second, how much the node is used, and writes the line where it has changed; nothing where
/// standard error is a file or a pipe.
#[derive(Drop)]
pub(crate) struct UsageLine<'a> {
    rt: &'a HostRuntime,
    board: &'a Board,
    is_terminal: bool,
    // What the line told last.
    told: Option<(u64, Usage)>,
}

impl<'a> UsageLine<'a> {
    /// A line that was not written.
    pub(crate) fn new(rt: &'a HostRuntime, board: &'a Board) -> Self {
        UsageLine {
            rt,
            board,
            is_terminal: rt.stderr().is_terminal(),
            told: None,
        }
    }
}

impl Watcher for UsageLine<'_> {
    fn sees(&mut self, usage: Usage) {
        let taken = self.board.taken.load(Ordering::Relaxed);
        if !self.is_terminal || self.told == Some((taken, usage)) {
            return;
        }
        self.told = Some((taken, usage));
        self.board.has_line.store(true, Ordering::Relaxed);
        let Usage {
            sessions,
            subscriptions,
        } = usage;
        // A line that can't be written is not missed. What was longer before it is wiped.
        let _ = eprint!(self.rt;
            "\r{taken} datagrams, {sessions} sessions, {subscriptions} subscriptions\x1b[K"
        );
    }
}
