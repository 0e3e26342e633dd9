//! Subscriptions, and when attributes changed.

ghost use Rattle.std.specs.Prelude.{◌≡◌};
ghost use Rattle.mt_subs.specs.Subscriptions.{id_end};

use crate::granted::Granted;
use crate::telling::{tell_number, tell_place, tell_truth};
use crate::words::{actor, paths, place};
use cases_page::{Page, byte, id, number, short, word};
use mt_model::{ExactCopy, Paths};
use mt_subs::{Changes, Kept, Sub, SubFault, Subs};
use std::alloc::{AllocError, Global};

/// Subscriptions, and when attributes changed.
pub(crate) struct Subscribed {
    alloc: Global,
    subs: Subs,
    changes: Changes,
}

impl Drop for Subscribed {
    fn drop(self) {
        let Subscribed {
            alloc: _,
            subs: _,
            changes: _,
        } = self;
    }
}

impl Subscribed {
    pub(crate) fn new(alloc: Global) -> Result<Subscribed, AllocError> {
        Ok(Subscribed {
            alloc,
            subs: Subs::new(alloc),
            changes: Changes::new(alloc)?,
        })
    }

    /// What a call answers; nothing where the line is none.
    pub(crate) fn call(
        &mut self,
        page: &mut Page,
        granted: &Granted,
        words: &[&str],
    ) -> Result<(), AllocError> {
        match word(words, 0) {
            "subs" | "copy-subs" | "keep-subs" => self.renew_subs(word(words, 0))?,
            "changes" | "copy-changes" | "keep-changes" => self.renew_changes(word(words, 0))?,
            "add" => self.add(page, words)?,
            "due" => self.tell_due(page, granted, words)?,
            "ids" | "get" | "next" | "newest" | "later" => self.tell(page, words),
            _ => self.change(page, words),
        }
        Ok(())
    }

    fn renew_subs(&mut self, call: &str) -> Result<(), AllocError> {
        self.subs = match call {
            "copy-subs" => self.subs.copy()?,
            "keep-subs" => Subs::from_state(self.subs.copy()?.into_state()),
            _ => Subs::new(self.alloc),
        };
        Ok(())
    }

    fn renew_changes(&mut self, call: &str) -> Result<(), AllocError> {
        self.changes = match call {
            "copy-changes" => self.changes.copy()?,
            "keep-changes" => Changes::from_numbers(self.changes.copy()?.into_numbers()),
            _ => Changes::new(self.alloc)?,
        };
        Ok(())
    }

    fn add(&mut self, page: &mut Page, words: &[&str]) -> Result<(), AllocError> {
        let fabric = byte(words, 1);
        if self.subs.next_id(fabric) >= id_end(fabric) {
            page.line("  no id is left");
            return Ok(());
        }
        let paths = paths(self.alloc, word(words, 4))?;
        let sub = Sub {
            actor: actor(fabric),
            paths,
            events: Paths::new(self.alloc),
            filtered: true,
            floor: short(words, 2),
            ceiling: short(words, 3),
        };
        match self.subs.add(fabric, sub) {
            Ok(id) => tell_number(page, "  ", u64::from(id)),
            Err(SubFault::Full) => page.add("  full"),
            Err(SubFault::Memory) => page.add("  no memory"),
        }
        page.end_line();
        Ok(())
    }

    // What changes, and owns nothing.
    fn change(&mut self, page: &mut Page, words: &[&str]) {
        let fabric = byte(words, 1);
        let sub = id(words, 2);
        match word(words, 0) {
            "confirm" => tell_truth(page, self.subs.confirm(fabric, sub)),
            "end" => tell_truth(page, self.subs.end(fabric, sub)),
            "end-node" => self.subs.end_of_node(fabric, number(words, 2)),
            "end-ids" => self.subs.end_all(fabric, &[sub, id(words, 3)]),
            "reported" => self.subs.reported(
                fabric,
                sub,
                number(words, 3),
                number(words, 4),
                number(words, 5),
            ),
            "note" => self.note(page, words),
            _ => {}
        }
    }

    // A change that is older than the newest may not be noted.
    fn note(&mut self, page: &mut Page, words: &[&str]) {
        let number = number(words, 2);
        if number < self.changes.newest() {
            return page.line("  older");
        }
        tell_truth(page, self.changes.note(&place(word(words, 1)), number));
    }

    fn tell_due(
        &self,
        page: &mut Page,
        granted: &Granted,
        words: &[&str],
    ) -> Result<(), AllocError> {
        let due = self.subs.due(
            self.alloc,
            granted,
            byte(words, 1),
            id(words, 2),
            number(words, 3),
            self.changes.as_slice(),
            word(words, 4) == "true",
        )?;
        match due {
            Some(places) => {
                page.add("  due");
                for place in places.as_slice() {
                    tell_place(page, place);
                }
                page.end_line();
            }
            None => page.line("  not due"),
        }
        Ok(())
    }

    fn tell(&self, page: &mut Page, words: &[&str]) {
        let fabric = byte(words, 1);
        match word(words, 0) {
            "ids" => {
                page.add("  ");
                page.add_debug(&self.subs.ids(fabric));
            }
            "get" => tell_kept(page, self.subs.get(fabric, id(words, 2))),
            "next" => tell_number(page, "  ", u64::from(self.subs.next_id(fabric))),
            "newest" => tell_number(page, "  ", self.changes.newest()),
            _ => self.tell_later(page, number(words, 1)),
        }
        page.end_line();
    }

    fn tell_later(&self, page: &mut Page, number: u64) {
        page.add(" ");
        for change in self.changes.later(number) {
            tell_place(page, &change.place);
            tell_number(page, "=", change.number);
        }
    }
}

fn tell_kept(page: &mut Page, kept: Option<&Kept>) {
    match kept {
        Some(kept) => {
            page.add("  primed ");
            page.add_shown(&kept.primed);
            page.add(" live ");
            page.add_shown(&kept.live);
            tell_number(page, " at ", kept.time);
            tell_number(page, " change ", kept.change);
            tell_number(page, " event ", kept.event);
            tell_number(page, " floor ", u64::from(kept.sub.floor));
            tell_number(page, " ceiling ", u64::from(kept.sub.ceiling));
        }
        None => page.add("  none"),
    }
}

// The first number that is no id of a fabric.
fn id_end(fabric: u8) -> u32
    ensures { result ≡ id_end fabric }
{
    if fabric == 0 {
        4_294_967_295
    } else {
        2_147_483_648
    }
}
