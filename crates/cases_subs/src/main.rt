//! Prints what subscriptions, changes, rings of events and their numbers answer. Each line of data/calls.txt is a call,
//! and what must be printed for it comes from a model of its own or is worked out by hand. Numbers are in decimal digits,
//! and places and paths in hex digits, as ENDPOINT/CLUSTER/ID with `*` for a wildcard; paths have `,` between them, and
//! `-` stands for none:
//!
//! - `entries fabric:privilege[@endpoint]..`: the access control entries, each for all subjects;
//! - `subs`: no subscription; `copy-subs`; `keep-subs`: as a node keeps them, and back;
//! - `add fabric floor ceiling paths`, `confirm fabric id`, `end fabric id`, `ids fabric`, `get fabric id`, `next fabric`;
//! - `reported fabric id ms change event`; `due fabric id ms unreported`: the places that are owed;
//! - `changes`: none; `copy-changes`, `keep-changes`; `note place number`, `newest`, `later number`;
//! - `numbers ceiling`: of a start; `take count`: the last of so many, and what comes next;
//! - `rings`: no event; `push fabric number place bytes`: an event whose value has so many bytes; `fill fabric number
//!   count place`: so many events; `forget fabric`;
//! - `after number fabric paths`, `told number fabric paths`, `tells number fabric paths`: what a reader is told;
//! - any other line is a title.
#![tactic(auto)]

mod events;
mod granted;
mod subscriptions;
mod telling;
mod words;

use cases_page::{Page, word};
use events::Happenings;
use granted::Granted;
use std::alloc::Global;
use std::{fs, io};
use subscriptions::Subscribed;

fn main(rt: HostRuntime) -> io::Result<()> {
    let calls = fs::read_to_string(&rt, "calls.txt")?;
    let mut page = Page::new(rt.alloc());
    tell(rt.alloc(), &mut page, calls.as_str())?;
    print!(rt; "{}", page.whole()?)
}

fn tell(alloc: Global, page: &mut Page, calls: &str) -> io::Result<()> {
    let mut stand = Stand {
        alloc,
        granted: Granted::new(alloc)?,
        subscribed: Subscribed::new(alloc)?,
        happenings: Happenings::new(alloc)?,
    };
    for line in calls.lines() {
        page.line(line);
        let words: Vec<&str> = line.split(' ').collect(alloc)?;
        stand.call(page, &words)?;
    }
    Ok(())
}

/// What is granted, subscribed and has happened.
struct Stand {
    alloc: Global,
    granted: Granted,
    subscribed: Subscribed,
    happenings: Happenings,
}

impl Drop for Stand {
    fn drop(self) {
        let Stand {
            alloc: _,
            granted: _,
            subscribed: _,
            happenings: _,
        } = self;
    }
}

impl Stand {
    fn call(&mut self, page: &mut Page, words: &[&str]) -> io::Result<()> {
        if word(words, 0) == "entries" {
            self.granted = Granted::of(self.alloc, words)?;
            return Ok(());
        }
        self.subscribed.call(page, &self.granted, words)?;
        Ok(self.happenings.call(page, &self.granted, words)?)
    }
}
