//! What is answered, in words.

use cases_page::Page;
use mt_exchange::EndTime;
use mt_tlv::Bytes;
use std::fmt::Debug;

/// Bytes in hex, in a line of their own.
pub(crate) fn tell_bytes(page: &mut Page, bytes: &[u8]) {
    page.add("  ");
    page.add_hex(bytes);
    page.end_line();
}

/// A value as it is written in a source, in a line of its own.
pub(crate) fn tell_debug<T: Debug>(page: &mut Page, value: &T) {
    page.add("  ");
    page.add_debug(value);
    page.end_line();
}

/// A number behind a word, in a line of its own.
pub(crate) fn tell_number(page: &mut Page, word: &str, number: u64) {
    page.add(word);
    page.add_number(number);
    page.end_line();
}

/// Datagrams that are sent again, and the subscriptions that end.
pub(crate) fn tell_resent(page: &mut Page, datagrams: &[Bytes], ends: &[u32]) {
    for datagram in datagrams {
        tell_bytes(page, datagram.as_slice());
    }
    for subscription in ends {
        page.add("  subscription ");
        page.add_number(u64::from(*subscription));
        page.line(" ends");
    }
}

/// When subscriptions end.
pub(crate) fn tell_ends(page: &mut Page, ends: &[EndTime]) {
    for end in ends {
        page.add("  subscription ");
        page.add_number(u64::from(end.subscription));
        tell_number(page, " ends at ", end.ms);
    }
}
