//! A session with its exchanges, and what happens on it. A line of `happenings.txt`, in which bytes are hex, times are in ms, and
//! `-` stands for what is not there:
//!
//! - `CASE counter` or `PASE counter`: a new session, whose first own counter is given;
//! - `unseal datagram`;
//! - `receive theirs|ours exchange opcode protocol vendor acknowledged payload`;
//! - `answer theirs|ours exchange acknowledged now [opcode deadline payload..]`;
//! - `report subscription now [opcode deadline payload..]`;
//! - `resend now`;
//! - `ends`;
//! - `seal theirs|ours exchange opcode protocol vendor acknowledged payload`: a message of no exchange;
//! - `counter`: the next own counter;
//! - `copy`: the lines behind it go to copies; `drop`: all that is to be sent again is let go;
//! - any other line is a title.

ghost use Rattle.std.specs.Prelude.{◌≢◌};
ghost use Rattle.mt_model.specs.declared.tables.access.Auth.TheVariants.{Group};

use crate::shown::{tell_bytes, tell_debug, tell_ends, tell_number, tell_resent};
use crate::words::{header, key, number_or_none, payloads};
use cases_page::{Page, hex_bytes, id, number, word};
use mt_exchange::Exchanges;
use mt_model::{Auth, ExactCopy, SessionRow};
use mt_session::{Opened, SealFault, Session};
use mt_tlv::Bytes;
use std::alloc::{AllocError, Global};

/// The row of a session of node 10 with node 1.
pub(crate) fn row(alloc: Global, is_pase: bool, counter_out: u32) -> SessionRow
    ensures session { result.session ≢ 0 }
    ensures peer_session { result.peer_session ≢ 0 }
    ensures auth { result.auth ≢ Group }
{
    let auth = if is_pase { Auth::Pase } else { Auth::Case };
    SessionRow {
        session: 1,
        peer_session: 101,
        boot: 1,
        auth,
        root_key: Bytes::new(alloc),
        fabric_id: 1,
        own_node: 10,
        peer_node: 1,
        cats: [0; 3],
        key_in: [0x51; 16],
        key_out: [0x52; 16],
        counter_in: 1000,
        counter_out,
    }
}

/// A session of node 10 with node 1, and its exchanges.
pub struct Stand {
    alloc: Global,
    session: Session,
    exchanges: Exchanges,
}

impl Drop for Stand {
    fn drop(self) {
        let Stand {
            alloc: _,
            session: _,
            exchanges: _,
        } = self;
    }
}

impl Stand {
    /// A new session on which nothing has happened, whose first own counter is given.
    pub(crate) fn new(alloc: Global, is_pase: bool, counter_out: u32) -> Stand {
        Stand {
            alloc,
            session: Session::new(row(alloc, is_pase, counter_out)),
            exchanges: Exchanges::new(alloc),
        }
    }

    /// Lets it happen, and tells what is answered. A line that begins otherwise is a title.
    pub(crate) fn happen(&mut self, page: &mut Page, words: &[&str]) -> Result<(), AllocError> {
        match word(words, 0) {
            "CASE" | "PASE" => self.begin(word(words, 0) == "PASE", id(words, 1)),
            "unseal" => self.unseal(page, word(words, 1)),
            "receive" => self.receive(page, words)?,
            "answer" => self.answer(page, words)?,
            "report" => self.report(page, words)?,
            "resend" => self.resend(page, words)?,
            "ends" => tell_ends(page, self.exchanges.ends()?.as_slice()),
            "seal" => self.seal(page, words),
            "counter" => tell_number(page, "  ", u64::from(self.session.next_counter())),
            "copy" => self.copy()?,
            "drop" => self.exchanges.drop_all(),
            _ => {}
        }
        Ok(())
    }

    fn begin(&mut self, is_pase: bool, counter_out: u32) {
        self.session = Session::new(row(self.alloc, is_pase, counter_out));
        self.exchanges = Exchanges::new(self.alloc);
    }

    fn unseal(&mut self, page: &mut Page, datagram: &str) {
        let mut datagram = hex_bytes(self.alloc, datagram);
        if datagram.len() > 1_280 {
            return;
        }
        match self.session.unseal(&mut datagram) {
            Ok(opened) => tell_opened(page, &opened),
            Err(dropped) => tell_debug(page, &dropped),
        }
    }

    // A message that belongs to no exchange.
    fn seal(&mut self, page: &mut Page, words: &[&str]) {
        let payload = hex_bytes(self.alloc, word(words, 7));
        match self.session.seal(&header(words), &payload) {
            Ok(datagram) => tell_bytes(page, datagram.as_slice()),
            Err(fault) => tell_debug(page, &fault),
        }
    }

    // What happens from here on happens to copies.
    fn copy(&mut self) -> Result<(), AllocError> {
        self.session = self.session.copy()?;
        self.exchanges = self.exchanges.copy()?;
        Ok(())
    }

    fn receive(&mut self, page: &mut Page, words: &[&str]) -> Result<(), AllocError> {
        let payload = hex_bytes(self.alloc, word(words, 7));
        let opened = Opened {
            counter: 1000,
            header: header(words),
            payload: &payload,
        };
        tell_debug(page, &self.exchanges.receive(&opened)?);
        Ok(())
    }

    fn answer(&mut self, page: &mut Page, words: &[&str]) -> Result<(), AllocError> {
        let payloads = payloads(self.alloc, words, 5)?;
        let answer = self.exchanges.answer(
            &mut self.session,
            key(words),
            number_or_none(words, 3),
            payloads,
            number(words, 4),
        );
        tell_sent(page, answer);
        Ok(())
    }

    fn report(&mut self, page: &mut Page, words: &[&str]) -> Result<(), AllocError> {
        let payloads = payloads(self.alloc, words, 3)?;
        let answer = self.exchanges.report(
            &mut self.session,
            id(words, 1),
            payloads,
            number(words, 2),
        );
        tell_sent(page, answer);
        Ok(())
    }

    fn resend(&mut self, page: &mut Page, words: &[&str]) -> Result<(), AllocError> {
        let (datagrams, ends) = self.exchanges.resend(number(words, 1))?;
        tell_resent(page, datagrams.as_slice(), ends.as_slice());
        Ok(())
    }
}

fn tell_opened(page: &mut Page, opened: &Opened<'_>) {
    page.add("  ");
    page.add_number(u64::from(opened.counter));
    page.add(" ");
    page.add_debug(&opened.header);
    page.end_line();
    tell_bytes(page, opened.payload);
}

fn tell_sent(page: &mut Page, answer: Result<Option<Bytes>, SealFault>) {
    match answer {
        Ok(Some(datagram)) => tell_bytes(page, datagram.as_slice()),
        Ok(None) => {}
        Err(fault) => tell_debug(page, &fault),
    }
}
