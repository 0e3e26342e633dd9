//! What a call answers, in words.

use cases_page::Page;
use mt_model::{Item, Items, Path, Place};

/// A place, as ENDPOINT/CLUSTER/ID.
pub(crate) fn tell_place(page: &mut Page, place: &Place) {
    page.add(" ");
    page.add_id(u64::from(place.endpoint));
    page.add("/");
    page.add_id(u64::from(place.cluster));
    page.add("/");
    page.add_id(u64::from(place.leaf));
}

/// A word and a number.
pub(crate) fn tell_number(page: &mut Page, word: &str, number: u64) {
    page.add(word);
    page.add_number(number);
}

/// A truth in a line of its own.
pub(crate) fn tell_truth(page: &mut Page, truth: bool) {
    page.line(if truth { "  true" } else { "  false" });
}

/// Each event by its number, and each refused path with its status.
pub(crate) fn tell_items(page: &mut Page, items: &Items) {
    page.add(" ");
    for item in items.as_slice() {
        match item {
            Item::Event(happened) => tell_number(page, " ", happened.number),
            Item::EventRefused { path, code } => tell_refused(page, path, *code),
            _ => page.add(" an attribute"),
        }
    }
    page.end_line();
}

fn tell_refused(page: &mut Page, path: &Path, code: u8) {
    match path.place() {
        Some(place) => {
            tell_place(page, &place);
            page.add("=");
            page.add_hex(&[code]);
        }
        None => page.add(" a wildcard"),
    }
}
