//! Events, in their rings, and their numbers.

use crate::granted::Granted;
use crate::telling::{tell_items, tell_number, tell_truth};
use crate::words::{actor, paths, place};
use cases_page::{Page, byte, number, short, word};
use mt_events::{Numbers, Rings};
use mt_model::limits::FABRICS;
use mt_model::{Happened, Place};
use mt_tlv::{Bytes, Value};
use std::alloc::{AllocError, Global};

/// The rings of events, and the numbers.
pub(crate) struct Happenings {
    alloc: Global,
    rings: Rings,
    numbers: Numbers,
}

impl Drop for Happenings {
    fn drop(self) {
        let Happenings {
            alloc: _,
            rings: _,
            numbers: _,
        } = self;
    }
}

impl Happenings {
    pub(crate) fn new(alloc: Global) -> Result<Happenings, AllocError> {
        Ok(Happenings {
            alloc,
            rings: Rings::new(alloc)?,
            numbers: Numbers::begin(0),
        })
    }

    /// What a call answers; nothing where the line is none.
    pub(crate) fn call(
        &mut self,
        page: &mut Page,
        granted: &Granted,
        words: &[&str],
    ) -> Result<(), AllocError> {
        match word(words, 0) {
            "numbers" => self.begin(page, number(words, 1)),
            "take" => self.take(page, short(words, 1)),
            "rings" => self.rings = Rings::new(self.alloc)?,
            "push" => self.push(page, words)?,
            "fill" => self.fill(page, words),
            "forget" => self.rings.forget(byte(words, 1)),
            "after" | "told" | "tells" => self.tell(page, granted, words)?,
            _ => {}
        }
        Ok(())
    }

    fn begin(&mut self, page: &mut Page, ceiling: u64) {
        if ceiling > HIGHEST {
            return page.line("  too high");
        }
        self.numbers = Numbers::begin(ceiling);
        self.tell_numbers(page);
    }

    fn take(&mut self, page: &mut Page, count: u16) {
        for _ in 0..count {
            if self.numbers.next > self.numbers.ceiling || self.numbers.ceiling > HIGHEST {
                return page.line("  too high");
            }
            self.numbers.take();
        }
        self.tell_numbers(page);
    }

    fn tell_numbers(&self, page: &mut Page) {
        tell_number(page, "  next ", self.numbers.next);
        tell_number(page, " ceiling ", self.numbers.ceiling);
        page.end_line();
    }

    // An event whose value is a string of so many bytes.
    fn push(&mut self, page: &mut Page, words: &[&str]) -> Result<(), AllocError> {
        let value = string(self.alloc, short(words, 4))?;
        let place = place(word(words, 3));
        self.happen(page, byte(words, 1), number(words, 2), place, value);
        Ok(())
    }

    fn fill(&mut self, page: &mut Page, words: &[&str]) {
        let place = place(word(words, 4));
        for more in 0..short(words, 3) {
            let number = number(words, 2).saturating_add(u64::from(more));
            self.happen(page, byte(words, 1), number, place, Value::Null);
        }
    }

    fn happen(&mut self, page: &mut Page, fabric: u8, number: u64, place: Place, value: Value) {
        if usize::from(fabric) > FABRICS {
            return page.line("  no fabric");
        }
        if !self.rings.is_new(number) {
            return page.line("  not new");
        }
        self.rings.push(Happened {
            number,
            place,
            priority: 1,
            at: 5,
            fabric,
            value,
        });
    }

    fn tell(&self, page: &mut Page, granted: &Granted, words: &[&str]) -> Result<(), AllocError> {
        let minimum = number(words, 1);
        let actor = actor(byte(words, 2));
        let paths = paths(self.alloc, word(words, 3))?;
        if paths.len() > 16 {
            page.line("  too many paths");
            return Ok(());
        }
        match word(words, 0) {
            "after" => tell_items(
                page,
                &self
                    .rings
                    .after(self.alloc, granted, minimum, &paths, &actor)?,
            ),
            "told" => tell_items(
                page,
                &self
                    .rings
                    .told(self.alloc, granted, minimum, &paths, &actor)?,
            ),
            _ => tell_truth(page, self.rings.tells(granted, minimum, &paths, &actor)),
        }
        Ok(())
    }
}

// The highest ceiling from which numbers may be taken.
const HIGHEST: u64 = 4_611_686_018_427_387_904;

fn string(alloc: Global, bytes: u16) -> Result<Value, AllocError> {
    let mut string = Vec::with_capacity(alloc, usize::from(bytes))?;
    for _ in 0..bytes {
        string.push(0x61)?;
    }
    Ok(Value::Octets(Bytes::from_vec(string)))
}
