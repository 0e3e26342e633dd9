//! Stops of the disk in words, and the starts behind them.

use crate::page::{Colour, Page};
use crate::telling::show_taken_back;
use crate::told::Restart;
use crate::words::MESSAGE;
use mt_outside::Fate;

/// A line that stops the disk: when it stops, and what becomes of what is not synced then.
pub(crate) fn show_stop(page: &mut Page, calls: u64, fate: Fate) {
    page.blanks(MESSAGE);
    if calls == 0 {
        return page.text("the disk stops at once, and all that was committed is kept");
    }
    page.text("the disk will stop at its call ");
    page.number(calls);
    page.text(" from here on, and what is not synced then is ");
    page.text(match fate {
        Fate::Kept => "kept",
        Fate::Lost => "lost",
        Fate::Torn => "kept by half",
    })
}

/// A stop that has come, and how the node starts again.
pub(crate) fn show_restart(page: &mut Page, restart: &Restart) {
    show_stopped(page, restart);
    page.blanks(MESSAGE);
    page.text("the node starts again, boot ");
    page.number(restart.boot as u64);
    page.end_line();
    if let Some(expiry) = restart.expiry {
        page.blanks(MESSAGE);
        page.text("the fail-safe expires: ");
        show_taken_back(page, expiry);
        page.end_line();
    }
    show_sessions(page, restart)
}

// By which line the disk stops, and what becomes of what was changed. Where it stops at once its line says that.
fn show_stopped(page: &mut Page, restart: &Restart) {
    if restart.calls == 0 {
        return;
    }
    page.blanks(MESSAGE);
    page.begin(Colour::Refusal);
    page.text("the disk stops, by X ");
    page.number(restart.calls);
    page.byte(b' ');
    page.text(restart.fate.text());
    page.end();
    page.text(": nothing is sent");
    page.text(match restart.survives {
        Some(true) => ", and what was changed survives",
        Some(false) => ", and what was changed is lost",
        None => "",
    });
    page.end_line()
}

// The sessions of the boot, by their ids.
fn show_sessions(page: &mut Page, restart: &Restart) {
    page.blanks(MESSAGE);
    if restart.sessions.is_empty() {
        return page.text("the configuration has no sessions of that boot\n");
    }
    page.text("its sessions are those of that boot in the configuration: ");
    let mut is_first = true;
    for session in &restart.sessions {
        if !is_first {
            page.text(", ");
        }
        is_first = false;
        page.number(*session as u64);
    }
    page.end_line()
}
