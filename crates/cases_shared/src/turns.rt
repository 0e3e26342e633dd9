//! A node under its lock, with two passes that take turns in one thread. A line is `PASS LINE`: which of the two makes the call,
//! 1 or 2, and the line of the call. Told are the answer of each call, and at the end the book.

ghost use Rattle.std.specs.Prelude.{◌≡◌, OnOk};
ghost use Rattle.mt_shared.specs.Shared.{IsPassOf};

use crate::answers::{add_acted, add_stop, line_of};
use cases_node::{begin, call_of, keepers_cross};
use cases_page::{Page, no_case};
use mt_durable::Keeper;
use mt_model::{Config, Verdicts};
use mt_shared::{Entry, NodePass, SharedNode};
use std::alloc::{AllocError, Global};
use std::io;
use std::sync::Wait;

/// Lets the two passes take their turns, and tells what is answered, and what then stands in the book.
pub(crate) fn play<R: Wait>(
    rt: &R,
    alloc: Global,
    page: &mut Page,
    config: &Config,
    lines: &str,
) -> io::Result<()> {
    keepers_cross();
    let begun = begin(alloc, config, &[])?;
    let Ok((shared, mut pass)) = SharedNode::new(alloc, begun.node, begun.keeper, begun.verdicts)
    else {
        return Err(AllocError.into());
    };
    take_turns(rt, alloc, page, &shared, &mut pass, lines)?;
    add_book(alloc, page, &shared.close(pass).book)
}

// The turns of a pass and of another one that is split from it.
fn take_turns<R: Wait, K: Keeper + Drop + Send, V: Verdicts + Drop>(
    rt: &R,
    alloc: Global,
    page: &mut Page,
    shared: &SharedNode<K, V>,
    pass: &mut NodePass,
    lines: &str,
) -> io::Result<()>
    requires own { IsPassOf shared.now pass.old }
    requires whole { pass.old.share ≡ 64 }
    ensures own { IsPassOf shared.now pass.new }
    ensures whole { OnOk result (pass.new.share ≡ 64) }
{
    let mut other = shared.split(pass)?;
    for line in lines.lines() {
        play_line(rt, alloc, page, shared, pass, &mut other, line)?;
    }
    shared.join(pass, other);
    Ok(())
}

// A call of one of the passes.
fn play_line<R: Wait, K: Keeper + Drop + Send, V: Verdicts + Drop>(
    rt: &R,
    alloc: Global,
    page: &mut Page,
    shared: &SharedNode<K, V>,
    pass: &mut NodePass,
    other: &mut NodePass,
    line: &str,
) -> io::Result<()>
    requires own { IsPassOf shared.now pass.old × IsPassOf shared.now other.old }
    ensures own { IsPassOf shared.now pass.new × IsPassOf shared.now other.new }
    ensures shares { (pass.new.share ≡ pass.old.share) × (other.new.share ≡ other.old.share) }
{
    let Some((which, line)) = line.split_once(' ') else {
        return Err(no_case());
    };
    let call = call_of(alloc, line)?;
    page.add(which);
    page.add(": ");
    let acted = if which == "1" {
        shared.act(rt, pass, call)
    } else {
        shared.act(rt, other, call)
    };
    add_acted(alloc, page, &acted)?;
    Ok(())
}

// The entries of a book, each with its time and its line.
fn add_book(alloc: Global, page: &mut Page, book: &[Entry]) -> io::Result<()> {
    for (place, entry) in book.iter().enumerate() {
        page.add_number(place as u64);
        page.add(" at ");
        page.add_number(entry.ms);
        page.add(": ");
        if let Some(stop) = entry.stop {
            add_stop(page, stop);
            page.add(" ");
        }
        page.line(line_of(alloc, &entry.call.event)?.as_str());
    }
    Ok(())
}
