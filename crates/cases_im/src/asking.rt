//! A node, and what it is asked: reads, writes and commands.

use crate::access::{entry, nobody};
use crate::commands::tell_check;
use crate::node::SmallNode;
use crate::reading::{
    code, narrow_number, number, number_or_none, path, place, short, truth, value,
};
use cases_page::{Page, word};
use mt_model::{Actor, Auth, Index, Path, Paths, Row, Version, WriteItem, Writes};
use std::alloc::{AllocError, Global};
use std::{io, mem};

/// A node, and the items of the write that follows.
pub(crate) struct Asking {
    alloc: Global,
    writes: Writes,
    node: SmallNode,
}

impl Drop for Asking {
    fn drop(self) {
        let Asking {
            alloc: _,
            writes: _,
            node: _,
        } = self;
    }
}

impl Asking {
    pub(crate) fn new(alloc: Global) -> Asking {
        Asking {
            alloc,
            writes: Writes::new(alloc),
            node: SmallNode::new(alloc, nobody(alloc)),
        }
    }

    /// What the node answers, and what it keeps.
    pub(crate) fn tell(&mut self, page: &mut Page, words: &[&str]) -> io::Result<()> {
        match word(words, 0) {
            "node" => self.begin_node(words)?,
            "keeps" => return self.keep_row(words),
            "item" => return self.keep_item(words),
            "read" => self.read(page, words)?,
            "write" => self.write(page, words)?,
            _ => tell_check(page, &self.node, words),
        }
        Ok(())
    }

    // What is granted, subjects, targets, and the version of a place's data.
    fn begin_node(&mut self, words: &[&str]) -> Result<(), AllocError> {
        let named = [
            "entry",
            word(words, 1),
            "CASE",
            word(words, 2),
            word(words, 3),
            "1",
        ];
        let entry = entry(self.alloc, &named)?;
        let of = place(word(words, 4));
        let version = Version {
            endpoint: of.endpoint,
            cluster: of.cluster,
            version: narrow_number(word(words, 5)),
        };
        self.node.begin(entry, version);
        Ok(())
    }

    fn keep_row(&mut self, words: &[&str]) -> io::Result<()> {
        let value = value(self.alloc, word(words, 3))?;
        self.node.rows.push(Row {
            place: place(word(words, 1)),
            fabric: code(word(words, 2)),
            value,
        })?;
        Ok(())
    }

    fn read(&self, page: &mut Page, words: &[&str]) -> Result<(), AllocError> {
        let actor = node_of_fabric_1(word(words, 1));
        let paths = paths(self.alloc, word(words, 2))?;
        let filtered = truth(word(words, 3));
        let known = narrow_number(word(words, 4));
        self.node
            .tell_read(self.alloc, page, &actor, &paths, filtered, known)
    }

    fn keep_item(&mut self, words: &[&str]) -> io::Result<()> {
        let value = value(self.alloc, word(words, 4))?;
        let path = item_path(word(words, 1), word(words, 2));
        let version = number_or_none(word(words, 3));
        self.writes.push(WriteItem {
            path,
            version,
            value,
        })?;
        Ok(())
    }

    fn write(&mut self, page: &mut Page, words: &[&str]) -> Result<(), AllocError> {
        let actor = node_of_fabric_1(word(words, 1));
        let timed = truth(word(words, 2));
        let items = mem::replace(&mut self.writes, Writes::new(self.alloc));
        self.node
            .tell_write(self.alloc, page, &actor, &items, timed)
    }
}

fn node_of_fabric_1(node: &str) -> Actor {
    Actor {
        fabric: 1,
        auth: Auth::Case,
        node: number(node),
        cats: [0; 3],
        session: None,
    }
}

fn paths(alloc: Global, word: &str) -> Result<Paths, AllocError> {
    let mut paths = Paths::new(alloc);
    for named in word.split(',') {
        paths.push(path(named))?;
    }
    Ok(paths)
}

// The path of an item of a write: `-` for the whole attribute, `+` for one more item of the list or the number of
// an item.
fn item_path(named: &str, index: &str) -> Path {
    let index = match index {
        "-" => Index::Whole,
        "+" => Index::Append,
        _ => Index::At(short(index)),
    };
    Path {
        index,
        ..path(named)
    }
}
