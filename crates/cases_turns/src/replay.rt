//! What a node alone answers to the calls of a book, in the order of the book.

use crate::answers::{bytes_of, line_of};
use cases_node::{Bench, call_of};
use cases_page::no_case;
use mt_durable::{Durable, ListKeeper, write_image};
use mt_lasting::durable_of;
use mt_model::Config;
use mt_shared::{Entry, Held};
use std::alloc::{AllocError, Global};
use std::io;

/// What a node alone made of a book: its answers by place, and the maps of the node and of its keeper, as bytes.
#[derive(Drop)]
pub(crate) struct Replayed {
    pub(crate) answers: Vec<Vec<u8>>,
    pub(crate) maps: Maps,
}

/// What lasts of a node, and what its keeper has, as bytes.
#[derive(Drop)]
pub(crate) struct Maps {
    node: Vec<u8>,
    keeper: Vec<u8>,
}

impl Maps {
    /// Of a node and its keeper.
    pub(crate) fn of(alloc: Global, held: &Held<ListKeeper>) -> Result<Maps, AllocError> {
        let node = durable_of(alloc, held.node.state(), held.node.numbers().ceiling)?;
        Ok(Maps {
            node: image_of(alloc, &node)?,
            keeper: image_of(alloc, held.keeper.map())?,
        })
    }

    /// Whether these are the same two, and the keeper's is the node's.
    pub(crate) fn are_one(&self, other: &Maps) -> bool {
        self.node.as_slice() == other.node.as_slice()
            && self.keeper.as_slice() == other.keeper.as_slice()
            && self.node.as_slice() == self.keeper.as_slice()
    }
}

fn image_of(alloc: Global, map: &Durable) -> Result<Vec<u8>, AllocError> {
    let mut bytes = Vec::new(alloc);
    write_image(alloc, map, &mut bytes)?;
    Ok(bytes)
}

/// Plays the lines of a book on a node alone.
pub(crate) fn replay_of(alloc: Global, config: &Config, book: &[Entry]) -> io::Result<Replayed> {
    let mut bench = Bench::new(alloc, config, &[])?;
    let mut answers = Vec::with_capacity(alloc, book.len())?;
    for entry in book {
        answers.push(answer_to(alloc, &mut bench, entry)?)?;
    }
    let maps = Maps::of(alloc, &bench.held)?;
    Ok(Replayed { answers, maps })
}

fn answer_to(alloc: Global, bench: &mut Bench, entry: &Entry) -> io::Result<Vec<u8>> {
    let line = line_of(alloc, &entry.call.event)?;
    match bench.act(call_of(alloc, line.as_str())?) {
        Ok(stamped) => Ok(bytes_of(alloc, &stamped)?),
        Err(_) => Err(no_case()),
    }
}
