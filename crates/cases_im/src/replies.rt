//! Replies and their items.

use crate::reading::{
    code, happened, narrow_number, number_or_none, path, place, short, truth, value,
};
use crate::telling::{tell_lengths, tell_payloads};
use cases_page::{Page, word};
use mt_im_out::chunks;
use mt_model::{Item, Items, Reply, item_size};
use std::alloc::{AllocError, Global};
use std::{io, mem};

/// Keeps an item for the reply that follows.
pub(crate) fn keep(alloc: Global, items: &mut Items, words: &[&str]) -> io::Result<()> {
    let item = item(alloc, words)?;
    items.push(item)?;
    Ok(())
}

fn item(alloc: Global, words: &[&str]) -> io::Result<Item> {
    match word(words, 0) {
        "attribute" => attribute(alloc, words),
        "event" => Ok(Item::Event(happened(alloc, words)?)),
        "refused" => Ok(Item::Refused {
            path: path(word(words, 1)),
            code: code(word(words, 2)),
        }),
        _ => Ok(Item::EventRefused {
            path: path(word(words, 1)),
            code: code(word(words, 2)),
        }),
    }
}

fn attribute(alloc: Global, words: &[&str]) -> io::Result<Item> {
    let value = value(alloc, word(words, 3))?;
    Ok(Item::Attribute {
        path: path(word(words, 1)),
        version: narrow_number(word(words, 2)),
        value,
    })
}

/// How many bytes the block of each item takes.
pub(crate) fn tell_sizes(page: &mut Page, items: &[Item]) {
    for item in items {
        page.add_number(item_size(item) as u64);
        page.line(" bytes");
    }
}

/// The payloads of a reply, and where the words say `lengths` how many bytes each has.
pub(crate) fn tell(
    alloc: Global,
    page: &mut Page,
    items: &mut Items,
    words: &[&str],
) -> io::Result<()> {
    let reply = reply(alloc, items, words)?;
    if word(words, 0) == "lengths" {
        tell_chunk_lengths(alloc, page, &reply)?;
    } else {
        tell_chunks(alloc, page, &reply)?;
    }
    Ok(())
}

fn tell_chunks(alloc: Global, page: &mut Page, reply: &Reply) -> Result<(), AllocError> {
    tell_payloads(page, chunks(alloc, reply)?.as_slice());
    Ok(())
}

fn tell_chunk_lengths(alloc: Global, page: &mut Page, reply: &Reply) -> Result<(), AllocError> {
    tell_lengths(page, chunks(alloc, reply)?.as_slice());
    Ok(())
}

// The items that were kept go into the reply, where it has any.
fn reply(alloc: Global, items: &mut Items, words: &[&str]) -> io::Result<Reply> {
    match word(words, 0) {
        "invoked" => invoked(alloc, words),
        "written" => Ok(Reply::Written {
            items: mem::replace(items, Items::new(alloc)),
        }),
        "report" | "lengths" => Ok(Reply::Report {
            subscription: number_or_none(word(words, 1)),
            items: mem::replace(items, Items::new(alloc)),
            suppress: truth(word(words, 2)),
        }),
        _ => Ok(short_reply(words)),
    }
}

fn invoked(alloc: Global, words: &[&str]) -> io::Result<Reply> {
    let fields = value(alloc, word(words, 2))?;
    Ok(Reply::Invoked {
        command: place(word(words, 1)),
        fields,
    })
}

// A reply that owns no memory.
fn short_reply(words: &[&str]) -> Reply {
    match word(words, 0) {
        "status" => Reply::Status {
            code: code(word(words, 1)),
        },
        "subscribed" => Reply::Subscribed {
            id: narrow_number(word(words, 1)),
            ceiling: short(word(words, 2)),
        },
        "invoke-status" => Reply::InvokeStatus {
            command: place(word(words, 1)),
            code: code(word(words, 2)),
        },
        "invoke-cluster-status" => Reply::InvokeClusterStatus {
            command: place(word(words, 1)),
            code: code(word(words, 2)),
            cluster: code(word(words, 3)),
        },
        _ => Reply::Nothing,
    }
}
