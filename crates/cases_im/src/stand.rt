//! What the lines so far have made: items of a reply, access control entries and a node.

use crate::access::{entry, tell_grant, tell_valid};
use crate::asking::Asking;
use crate::reading::code;
use crate::{commands, computed, replies, requests, table};
use cases_page::{Page, word};
use mt_model::{AclEntry, Items, device_type};
use std::alloc::{AllocError, Global};
use std::io;

/// What the lines so far have made.
pub(crate) struct Stand {
    alloc: Global,
    // Of the reply that follows.
    items: Items,
    entries: Vec<AclEntry>,
    asking: Asking,
}

impl Drop for Stand {
    fn drop(self) {
        let Stand {
            alloc: _,
            items: _,
            entries: _,
            asking: _,
        } = self;
    }
}

impl Stand {
    pub(crate) fn new(alloc: Global) -> Stand {
        Stand {
            alloc,
            items: Items::new(alloc),
            entries: Vec::new(alloc),
            asking: Asking::new(alloc),
        }
    }

    /// What comes of a case.
    pub(crate) fn tell(&mut self, page: &mut Page, words: &[&str]) -> io::Result<()> {
        match word(words, 0) {
            "decode" => requests::tell_decoded(self.alloc, page, words),
            "encode" => requests::tell_encoded(self.alloc, page, words),
            "fields" => commands::tell_form(self.alloc, page, words),
            "node" | "keeps" | "read" | "item" | "write" | "check" => self.asking.tell(page, words),
            "attribute" | "refused" | "event" | "event-refused" => {
                replies::keep(self.alloc, &mut self.items, words)
            }
            "nothing"
            | "status"
            | "subscribed"
            | "invoked"
            | "invoke-status"
            | "invoke-cluster-status"
            | "written"
            | "report"
            | "lengths" => replies::tell(self.alloc, page, &mut self.items, words),
            _ => Ok(self.tell_other(page, words)?),
        }
    }

    // What comes of access control entries, of what is computed and of the tables.
    fn tell_other(&mut self, page: &mut Page, words: &[&str]) -> Result<(), AllocError> {
        match word(words, 0) {
            "entry" => return self.keep_entry(page, words),
            "computed" => return computed::tell(self.alloc, page, word(words, 1)),
            "no-entry" => self.entries.clear(),
            "grants" => tell_grant(page, &self.entries, words),
            "sizes" => replies::tell_sizes(page, self.items.as_slice()),
            "device" => {
                page.add_debug(&device_type(u16::from(code(word(words, 1)))));
                page.end_line();
            }
            _ => table::tell(self.alloc, page, words),
        }
        Ok(())
    }

    fn keep_entry(&mut self, page: &mut Page, words: &[&str]) -> Result<(), AllocError> {
        let entry = entry(self.alloc, words)?;
        tell_valid(page, &entry);
        self.entries.push(entry)?;
        Ok(())
    }
}
