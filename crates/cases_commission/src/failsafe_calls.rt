//! Calls of the fail-safe.

use cases_page::{Page, byte, number, short, word};
use mt_failsafe::{Failsafe, FailsafeFault, Saved};
use mt_model::limits::LAST_TIME;
use mt_model::{Actor, Armed, Auth, ExactCopy, Network, Networks};
use mt_tlv::Bytes;
use std::alloc::{AllocError, Global};

/// A fail-safe.
pub(crate) struct Timer {
    alloc: Global,
    failsafe: Failsafe,
}

impl Drop for Timer {
    fn drop(self) {
        let Timer {
            alloc: _,
            failsafe: _,
        } = self;
    }
}

impl Timer {
    /// One that is not armed.
    pub(crate) fn new(alloc: Global) -> Timer {
        Timer {
            alloc,
            failsafe: Failsafe::new(alloc),
        }
    }

    /// What a call answers; nothing where the line is none.
    pub(crate) fn tell(&mut self, page: &mut Page, words: &[&str]) -> Result<(), AllocError> {
        match word(words, 0) {
            "failsafe" => self.failsafe = Failsafe::new(self.alloc),
            "adding" => self.failsafe = adding(self.alloc)?,
            "copy-failsafe" => self.failsafe = self.failsafe.copy()?,
            "orders" => return tell_orders(self.alloc, page, word(words, 1)),
            "until" | "arm" | "renew" | "expire" | "complete" | "note" => {
                page.add("  ");
                self.call(page, words)?;
                page.end_line();
            }
            _ => {}
        }
        Ok(())
    }

    fn call(&mut self, page: &mut Page, words: &[&str]) -> Result<(), AllocError> {
        match word(words, 0) {
            "until" => page.add_number(self.until()),
            "arm" => page.add(self.arm(byte(words, 1), number(words, 2), short(words, 3))?),
            "renew" => page.add(self.renew(byte(words, 1), number(words, 2), short(words, 3))),
            "expire" => page.add(self.expire()),
            "complete" => page.add(self.complete(word(words, 1), byte(words, 2))),
            _ => page.add(self.note()?),
        }
        Ok(())
    }

    // When it ends, 0 where it is not armed.
    fn until(&self) -> u64 {
        match self.failsafe.armed() {
            Some(armed) => armed.until,
            None => 0,
        }
    }

    // Arms it, where nothing is armed; `-` stands for a call that may not be made.
    fn arm(&mut self, owner: u8, ms: u64, seconds: u16) -> Result<&'static str, AllocError> {
        let networks = networks(self.alloc)?;
        if ms > LAST_TIME {
            return Ok("-");
        }
        let None = self.failsafe.armed() else {
            return Ok("-");
        };
        match self.failsafe.arm(owner, ms, seconds, Saved { networks }) {
            Ok(()) => Ok("+"),
            Err(_) => Ok("2"),
        }
    }

    fn renew(&mut self, owner: u8, ms: u64, seconds: u16) -> &'static str {
        if ms > LAST_TIME {
            return "-";
        }
        letter(self.failsafe.renew(owner, ms, seconds))
    }

    // `u` where something is to be taken back, `n` where nothing was armed.
    fn expire(&mut self) -> &'static str {
        match self.failsafe.expire() {
            Some(_) => "u",
            None => "n",
        }
    }

    fn complete(&mut self, mode: &str, fabric: u8) -> &'static str {
        let auth = if mode == "CASE" {
            Auth::Case
        } else {
            Auth::Pase
        };
        letter(
            self.failsafe.complete(&Actor {
                fabric,
                auth,
                node: 1,
                cats: [0; 3],
                session: None,
            }),
        )
    }

    // Notes a root, where that may be.
    fn note(&mut self) -> Result<&'static str, AllocError> {
        let cert = Bytes::from_slice(self.alloc, b"root")?;
        let Some(armed) = self.failsafe.armed() else {
            return Ok("-");
        };
        if armed.added.is_some() || armed.updated.is_some() || armed.root.is_some() {
            return Ok("-");
        }
        self.failsafe.note_root(cert);
        Ok("+")
    }

    // Arms it and renews it by fabric 1, expires it, completes it by fabric 1 over CASE, or notes a root.
    fn answer(&mut self, call: char) -> Result<&'static str, AllocError> {
        match call {
            'A' => self.arm(1, 1_000, 60),
            'R' => Ok(self.renew(1, 2_000, 60)),
            'E' => Ok(self.expire()),
            'C' => Ok(self.complete("CASE", 1)),
            _ => self.note(),
        }
    }
}

// Each of the five calls behind those of the line, each time on a new fail-safe.
fn tell_orders(alloc: Global, page: &mut Page, calls: &str) -> Result<(), AllocError> {
    for last in ["A", "R", "E", "C", "N"] {
        let mut timer = Timer::new(alloc);
        page.add("  ");
        tell_answers(page, &mut timer, calls)?;
        tell_answers(page, &mut timer, last)?;
        page.add(" ");
        page.line(last);
    }
    Ok(())
}

fn tell_answers(page: &mut Page, timer: &mut Timer, calls: &str) -> Result<(), AllocError> {
    for call in calls.chars() {
        page.add(timer.answer(call)?);
    }
    Ok(())
}

fn letter(answer: Result<(), FailsafeFault>) -> &'static str {
    match answer {
        Ok(()) => "+",
        Err(FailsafeFault::NotArmed) => "1",
        Err(FailsafeFault::Busy { .. }) => "2",
        Err(FailsafeFault::Pase) => "3",
    }
}

// A network, as it was saved.
fn networks(alloc: Global) -> Result<Networks, AllocError> {
    let mut networks = Networks::new(alloc);
    networks.push(Network {
        id: Bytes::from_slice(alloc, b"home")?,
        secret: Bytes::new(alloc),
        connected: true,
    })?;
    Ok(networks)
}

// A fail-safe that fabric 1 armed, and fabric 2 was added since over CASE.
fn adding(alloc: Global) -> Result<Failsafe, AllocError> {
    let saved_networks = networks(alloc)?;
    Ok(Failsafe::from_armed(Some(Armed {
        owner: 1,
        context: 2,
        until: 61_000,
        limit: 901_000,
        added: Some(2),
        updated: None,
        root: None,
        csr: None,
        saved_credentials: None,
        saved_networks,
    })))
}
