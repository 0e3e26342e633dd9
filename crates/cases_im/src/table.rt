//! What the table of clusters says.

use crate::reading::{narrow_number, path, place};
use crate::telling::{tell_place, tell_value};
use cases_page::{Page, word};
use mt_meta::{
    Asked, Meta, all_places, expand, find, find_command, find_event, first_rows, is_global,
    is_stored, privilege_asked, responses_of,
};
use mt_model::{Path, Place, Row};
use std::alloc::Global;

/// What is asked of the table.
pub(crate) fn tell(alloc: Global, page: &mut Page, words: &[&str]) {
    let named = word(words, 1);
    match word(words, 0) {
        "expand" => tell_expanded(alloc, page, &path(named)),
        "attributes" => tell_attributes(alloc, page),
        "first-rows" => tell_first_rows(alloc, page),
        _ => {
            tell_found(page, words);
            page.end_line();
        }
    }
}

fn tell_found(page: &mut Page, words: &[&str]) {
    let place = place(word(words, 1));
    match word(words, 0) {
        "find" => page.add_debug(&find(&place)),
        "find-command" => page.add_debug(&find_command(&place)),
        "find-event" => page.add_debug(&find_event(&place)),
        _ => tell_known(page, words),
    }
}

fn tell_known(page: &mut Page, words: &[&str]) {
    let named = word(words, 1);
    match word(words, 0) {
        "responses" => page.add_debug(&responses_of(narrow_number(named))),
        "global" => page.add_shown(&is_global(narrow_number(named))),
        "asked" => page.add_debug(&privilege_asked(&place(named), asked(word(words, 2)))),
        _ => page.add("no case"),
    }
}

fn asked(word: &str) -> Asked {
    match word {
        "read" => Asked::Read,
        "write" => Asked::Write,
        "command" => Asked::Command,
        _ => Asked::Event,
    }
}

// How many places a path names.
fn tell_expanded(alloc: Global, page: &mut Page, path: &Path) {
    match expand(alloc, path) {
        Ok(places) => page.add_number(places.len() as u64),
        Err(fault) => page.add_debug(&fault),
    }
    page.end_line();
}

// Each attribute of the node, and what is known of it.
fn tell_attributes(alloc: Global, page: &mut Page) {
    match expand(alloc, &path("*/*/*")) {
        Ok(places) => {
            for place in places.as_slice() {
                tell_attribute(page, place);
            }
        }
        Err(_) => page.leave_gap(),
    }
}

fn tell_attribute(page: &mut Page, place: &Place) {
    tell_place(page, place);
    page.add(" ");
    match find(place) {
        Ok(meta) => tell_meta(page, &meta),
        Err(status) => page.add_debug(&status),
    }
    page.end_line();
}

fn tell_meta(page: &mut Page, meta: &Meta) {
    page.add_debug(&meta.kind);
    page.add(" ");
    page.add_debug(&meta.read);
    page.add(" ");
    page.add_debug(&meta.write);
    page.add(" scoped ");
    page.add_shown(&meta.scoped);
    page.add(" timed ");
    page.add_shown(&meta.timed);
    page.add(" kept ");
    page.add_shown(&meta.kept);
    page.add(" limit ");
    page.add_shown(&meta.limit);
}

// The rows of a new node.
fn tell_first_rows(alloc: Global, page: &mut Page) {
    match all_places(alloc) {
        Ok(places) => tell_rows_at(alloc, page, places.as_slice()),
        Err(_) => page.leave_gap(),
    }
}

fn tell_rows_at(alloc: Global, page: &mut Page, places: &[Place]) {
    match first_rows(alloc) {
        Ok(rows) => {
            for place in places {
                tell_rows(alloc, page, rows.at(place));
            }
        }
        Err(_) => page.leave_gap(),
    }
}

fn tell_rows(alloc: Global, page: &mut Page, rows: &[Row]) {
    for row in rows {
        tell_place(page, &row.place);
        page.add(" of fabric ");
        page.add_shown(&row.fabric);
        page.add(" stored ");
        page.add_shown(&is_stored(&row.place));
        tell_value(alloc, page, &row.value);
    }
}
