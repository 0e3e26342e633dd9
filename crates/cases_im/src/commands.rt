//! What stands in the way of commands.

use crate::access::actor;
use crate::node::SmallNode;
use crate::reading::{place, truth, value};
use cases_page::{Page, word};
use mt_invoke::{check, has_form};
use std::alloc::Global;
use std::io;

/// Whether a command may be carried out: by whom (fabric, mode, node, CATs), where, and whether the request
/// was timed.
pub(crate) fn tell_check(page: &mut Page, node: &SmallNode, words: &[&str]) {
    let actor = actor(
        word(words, 1),
        word(words, 2),
        word(words, 3),
        word(words, 4),
    );
    let command = place(word(words, 5));
    match check(node, &actor, &command, truth(word(words, 6))) {
        Ok(_) => page.add("carried out"),
        Err(status) => page.add_debug(&status),
    }
    page.end_line();
}

/// Whether a value may be the fields of a command.
pub(crate) fn tell_form(alloc: Global, page: &mut Page, words: &[&str]) -> io::Result<()> {
    let fields = value(alloc, word(words, 2))?;
    page.add_shown(&has_form(&place(word(words, 1)), &fields));
    page.end_line();
    Ok(())
}
