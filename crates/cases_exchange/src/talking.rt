//! A talk over a session, and what is heard and said in it. A line of `talks.txt` is `CASE`, `PASE`, `answer`, `report`, `resend`,
//! `ends`, `copy` or `drop` as on a session (`stand`), `hear live|waits port datagram`, or `pass count now [opcode deadline
//! payload..]`: so many reports, of which each is let go.

use crate::shown::{tell_bytes, tell_ends, tell_number, tell_resent};
use crate::stand::row;
use crate::words::{key, number_or_none, payloads};
use cases_page::{Page, hex_bytes, id, number, short, word};
use mt_model::{ExactCopy, Payload};
use mt_outside::Peer;
use mt_talk::{Heard, Hearing, Talk};
use mt_tlv::Bytes;
use std::alloc::{AllocError, Global};
use std::fmt::Debug;

/// A talk of node 10 with node 1.
pub struct Talking {
    alloc: Global,
    talk: Talk,
}

impl Drop for Talking {
    fn drop(self) {
        let Talking { alloc: _, talk: _ } = self;
    }
}

impl Talking {
    /// A new talk, in which nothing has been said.
    pub(crate) fn new(alloc: Global, is_pase: bool, counter_out: u32) -> Talking {
        Talking {
            alloc,
            talk: Talk::new(alloc, row(alloc, is_pase, counter_out)),
        }
    }

    /// Lets it happen, and tells what is heard or said. A line that begins otherwise is a title.
    pub(crate) fn happen(&mut self, page: &mut Page, words: &[&str]) -> Result<(), AllocError> {
        match word(words, 0) {
            "CASE" | "PASE" => self.begin(word(words, 0) == "PASE", id(words, 1)),
            "hear" => self.hear(page, words)?,
            "answer" => self.answer(page, words)?,
            "report" => self.report(page, words)?,
            "resend" => self.resend(page, words)?,
            "ends" => tell_ends(page, self.talk.ends()?.as_slice()),
            "pass" => self.pass(words)?,
            "copy" => self.talk = self.talk.copy()?,
            "drop" => self.talk.drop_all(),
            _ => {}
        }
        Ok(())
    }

    fn begin(&mut self, is_pase: bool, counter_out: u32) {
        self.talk = Talk::new(self.alloc, row(self.alloc, is_pase, counter_out));
    }

    fn hear(&mut self, page: &mut Page, words: &[&str]) -> Result<(), AllocError> {
        let mut datagram = hex_bytes(self.alloc, word(words, 3));
        if datagram.len() > 1_280 {
            return Ok(());
        }
        let from = Peer {
            ip: [0; 16],
            port: short(words, 2),
        };
        let is_live = word(words, 1) == "live";
        tell_hearing(page, &self.talk.hear(is_live, from, &mut datagram)?);
        match self.talk.latest() {
            Some(peer) => tell_number(page, "  latest ", u64::from(peer.port)),
            None => page.line("  latest none"),
        }
        Ok(())
    }

    fn answer(&mut self, page: &mut Page, words: &[&str]) -> Result<(), AllocError> {
        let payloads = payloads(self.alloc, words, 5)?;
        let acknowledged = number_or_none(words, 3);
        let now = number(words, 4);
        tell_sent(
            page,
            &self.talk.answer(key(words), acknowledged, payloads, now)?,
        );
        Ok(())
    }

    fn report(&mut self, page: &mut Page, words: &[&str]) -> Result<(), AllocError> {
        let payloads = payloads(self.alloc, words, 3)?;
        let now = number(words, 2);
        tell_sent(page, &self.talk.report(id(words, 1), payloads, now)?);
        Ok(())
    }

    // So many reports, one after the other, of which each is let go.
    fn pass(&mut self, words: &[&str]) -> Result<(), AllocError> {
        for _ in 0..id(words, 1) {
            let payloads = payloads(self.alloc, words, 3)?;
            self.talk.report(1, payloads, number(words, 2))?;
            self.talk.drop_all();
        }
        Ok(())
    }

    fn resend(&mut self, page: &mut Page, words: &[&str]) -> Result<(), AllocError> {
        let (datagrams, ends) = self.talk.resend(number(words, 1))?;
        tell_resent(page, datagrams.as_slice(), ends.as_slice());
        Ok(())
    }
}

fn tell_hearing(page: &mut Page, hearing: &Hearing<'_>) {
    match &hearing.fresh {
        Some(opened) => tell_number(page, "  fresh ", u64::from(opened.counter)),
        None => page.line("  not fresh"),
    }
    match &hearing.heard {
        Heard::Nothing => page.line("  nothing"),
        Heard::Asks {
            key,
            acknowledge,
            opcode,
            payload,
            timed,
        } => {
            tell_three(page, "  asks ", key, acknowledge);
            page.add(" ");
            page.add_number(u64::from(*opcode));
            page.add(" ");
            page.add_debug(timed);
            page.end_line();
            tell_bytes(page, payload);
        }
        _ => tell_other(page, &hearing.heard),
    }
}

fn tell_other(page: &mut Page, heard: &Heard<'_>) {
    match heard {
        Heard::Confirms {
            key,
            acknowledge,
            subscription,
        } => {
            tell_three(page, "  confirms ", key, acknowledge);
            tell_number(page, " ", u64::from(*subscription));
        }
        Heard::Ends {
            key,
            acknowledge,
            subscription,
        } => {
            tell_three(page, "  ends ", key, acknowledge);
            page.add(" ");
            page.add_debug(subscription);
            page.end_line();
        }
        Heard::Answers {
            key,
            acknowledge,
            payloads,
        } => {
            tell_three(page, "  answers ", key, acknowledge);
            page.end_line();
            tell_payloads(page, payloads.as_slice());
        }
        _ => {}
    }
}

// A word, the key of an exchange, and what is acknowledged there.
fn tell_three<K: Debug, A: Debug>(page: &mut Page, word: &str, key: &K, acknowledge: &A) {
    page.add(word);
    page.add_debug(key);
    page.add(" ");
    page.add_debug(acknowledge);
}

fn tell_payloads(page: &mut Page, payloads: &[Payload]) {
    for payload in payloads {
        tell_bytes(page, payload.bytes.as_slice());
    }
}

fn tell_sent(page: &mut Page, sent: &Option<Bytes>) {
    match sent {
        Some(datagram) => tell_bytes(page, datagram.as_slice()),
        None => page.line("  nothing is sent"),
    }
}
