//! A node alone. A case is `NAME|FAIL|LINE/LINE/..`: the number of the commit that fails, from 1, `-` for none, and the lines
//! of the calls. Told are the answer of each call, and at the end how many entries the book has, and whether the keeper has
//! the node's map.

use crate::answers::add_acted;
use cases_node::{Bench, call_of};
use cases_page::{Page, word};
use mt_durable::{Durable, write_image};
use mt_lasting::durable_of;
use mt_model::Config;
use std::alloc::{AllocError, Global};
use std::io;

/// Plays each case, and tells what is answered.
pub(crate) fn play(alloc: Global, page: &mut Page, config: &Config, cases: &str) -> io::Result<()> {
    for case in cases.lines() {
        play_case(alloc, page, config, case)?;
    }
    Ok(())
}

fn play_case(alloc: Global, page: &mut Page, config: &Config, case: &str) -> io::Result<()> {
    let words: Vec<&str> = case.split('|').collect(alloc)?;
    let mut bench = match word(&words, 1).parse::<u64>() {
        Ok(number) => Bench::new(alloc, config, &[number])?,
        Err(_) => Bench::new(alloc, config, &[])?,
    };
    page.line(word(&words, 0));
    for line in word(&words, 2).split('/') {
        let acted = bench.act(call_of(alloc, line)?);
        add_acted(alloc, page, &acted)?;
    }
    add_end(alloc, page, &bench)?;
    Ok(())
}

// How many entries the book has, and whether the keeper has the node's map.
fn add_end(alloc: Global, page: &mut Page, bench: &Bench) -> Result<(), AllocError> {
    let node = &bench.held.node;
    let map = durable_of(alloc, node.state(), node.numbers().ceiling)?;
    page.add_number(bench.held.book.len() as u64);
    page.line(if is_same_map(alloc, bench.held.keeper.map(), &map)? {
        " entries, the node's map is kept"
    } else {
        " entries, another map is kept"
    });
    Ok(())
}

// Whether two maps are the same.
fn is_same_map(alloc: Global, one: &Durable, other: &Durable) -> Result<bool, AllocError> {
    let mut first = Vec::new(alloc);
    write_image(alloc, one, &mut first)?;
    let mut second = Vec::new(alloc);
    write_image(alloc, other, &mut second)?;
    Ok(first.as_slice() == second.as_slice())
}
