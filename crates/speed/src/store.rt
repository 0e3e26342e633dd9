//! How many changes of 100 and of 4,000 bytes a store on a file commits in a second, each of them safe before the
//! next, and how long it takes to recover a file whose slot is full: what is found goes to standard error. And a
//! count that is kept in a file.

use crate::journal::{tell_committing, tell_recovering};
use crate::rates::{rate, since};
use cases_page::Page;
use mt_durable::{Change, Entry, Keeper, write_change};
use mt_os::FileDisk;
use mt_store::{Maps, Store};
use mt_tlv::{Bytes, Value};
use std::alloc::{AllocError, Global};
use std::fs::{OpenOptions, remove_file};
use std::io::{self, BufRead, BufReader};
use std::time::Instant;

// A store on a file.
type FileStore = Store<FileDisk, Maps>;

// How many keys the measured changes go to, in turn.
const KEYS: u8 = 16;

// The keys of the count that is kept, and of octets that each say its lowest byte; and how many these are.
const COUNT: u8 = 1;

const OCTETS: u8 = 2;

const SIZE: usize = 4_000;

/// Commits so many changes of each size.
pub(crate) fn measure(rt: &HostRuntime, page: &mut Page, turns: u32) -> io::Result<()> {
    commit_all(rt, page, "small", turns, 100)?;
    commit_all(rt, page, "large", turns, 4_000)
}

/// The disk that is the file of this name, which is made where there is none.
pub(crate) fn disk(rt: &HostRuntime, name: &str) -> io::Result<FileDisk> {
    let file = OpenOptions::new()
        .read(true)
        .write(true)
        .create(true)
        .open(rt, name)?;
    Ok(FileDisk::new(Some(file)))
}

// A store on a file of this name; None where it can't be recovered.
fn opened(rt: &HostRuntime, name: &str) -> io::Result<Option<FileStore>> {
    match Store::recover(rt.alloc(), disk(rt, name)?) {
        Ok((store, _)) => Ok(Some(store)),
        Err(_) => Ok(None),
    }
}

fn octets(alloc: Global, byte: u8, count: usize) -> Result<Value, AllocError> {
    let mut octets = Vec::new(alloc);
    octets.resize(count, byte)?;
    Ok(Value::Octets(Bytes::from_vec(octets)))
}

// An entry that puts a value under a key of one byte.
fn entry(alloc: Global, key: u8, value: Value) -> Result<Entry, AllocError> {
    Ok(Entry {
        key: Bytes::from_slice(alloc, &[key])?,
        value: Some(value),
    })
}

// The bytes of the change with these entries, whose keys ascend.
fn change_of(alloc: Global, entries: Vec<Entry>) -> Result<Vec<u8>, AllocError> {
    let mut bytes = Vec::new(alloc);
    if Change::is_ascending(&entries) {
        write_change(alloc, Change::from_vec(entries), &mut bytes)?;
    }
    Ok(bytes)
}

// The bytes of a change that puts so many octets under a key.
fn octets_under(alloc: Global, key: u8, size: usize) -> Result<Vec<u8>, AllocError> {
    let mut entries = Vec::new(alloc);
    entries.push(entry(alloc, key, octets(alloc, 0x5a, size)?)?)?;
    change_of(alloc, entries)
}

// The bytes of a change that puts a count, and the octets that say its lowest byte.
fn count_of(alloc: Global, count: u64) -> Result<Vec<u8>, AllocError> {
    let mut entries = Vec::new(alloc);
    entries.push(entry(alloc, COUNT, Value::Uint(count))?)?;
    entries.push(entry(alloc, OCTETS, octets(alloc, (count % 256) as u8, SIZE)?)?)?;
    change_of(alloc, entries)
}

// Commits a change, if there is room, and answers whether it is safe.
fn commit(alloc: Global, store: &mut FileStore, change: &[u8]) -> bool {
    match store.image().has_room(alloc, change) {
        Ok(true) => store.commit(change).is_ok(),
        _ => false,
    }
}

// Commits so many changes in turn, and then as many as fill the slot. The file is new, and goes.
fn commit_all(
    rt: &HostRuntime,
    page: &mut Page,
    name: &str,
    turns: u32,
    size: usize,
) -> io::Result<()> {
    let changes = changes(rt.alloc(), size)?;
    if let Some(mut store) = opened(rt, name)? {
        let committing = committing(rt, &mut store, turns, &changes)?;
        tell_committing(page, turns, size, committing);
        page.add_number(fill(rt.alloc(), &mut store, &changes));
        page.add(" more filled the slot, ");
    }
    tell_recovering(page, recovering(rt, name)?);
    remove_file(rt, name)
}

// A change of so many octets for each key.
fn changes(alloc: Global, size: usize) -> Result<Vec<Vec<u8>>, AllocError> {
    let mut changes = Vec::new(alloc);
    for key in 0..KEYS {
        changes.push(octets_under(alloc, key, size)?)?;
    }
    Ok(changes)
}

// The change that has this turn.
fn change_at(changes: &[Vec<u8>], turn: u32) -> &[u8] {
    match changes.get((turn % u32::from(KEYS)) as usize) {
        Some(change) => change.as_slice(),
        None => &[],
    }
}

// How many changes are safe in a second, and how many failed.
fn committing(
    rt: &HostRuntime,
    store: &mut FileStore,
    turns: u32,
    changes: &[Vec<u8>],
) -> io::Result<(u64, u64)> {
    let mut failed = 0_u64;
    let start = Instant::now(rt)?;
    for turn in 0..turns {
        if !commit(rt.alloc(), store, change_at(changes, turn)) {
            failed = failed.saturating_add(1);
        }
    }
    Ok((rate(rt, start, u64::from(turns))?, failed))
}

// Commits changes in turn until the current slot is full, and answers how many that were.
fn fill(alloc: Global, store: &mut FileStore, changes: &[Vec<u8>]) -> u64 {
    for turn in 0..u32::MAX {
        let change = change_at(changes, turn);
        if !store.journal().fits(change.len()) || !commit(alloc, store, change) {
            return u64::from(turn);
        }
    }
    u64::from(u32::MAX)
}

// Whether the store is recovered, and in how many nanoseconds.
fn recovering(rt: &HostRuntime, name: &str) -> io::Result<(bool, u64)> {
    let start = Instant::now(rt)?;
    let again = opened(rt, name)?.is_some();
    Ok((again, since(rt, start)?))
}

/// Prints the count in a file, and for each line of the input commits the next count and prints it.
pub(crate) fn keep(rt: &HostRuntime, name: &str) -> io::Result<()> {
    match opened(rt, name)? {
        Some(mut store) => keep_in(rt, &mut store),
        None => println!(rt; "no journal"),
    }
}

fn keep_in(rt: &HostRuntime, store: &mut FileStore) -> io::Result<()> {
    match found(rt.alloc(), store)? {
        Some(count) => count_on(rt, store, count),
        None => println!(rt; "torn"),
    }
}

fn count_on(rt: &HostRuntime, store: &mut FileStore, found: u64) -> io::Result<()> {
    let mut count = found;
    print_count(rt, count)?;
    for line in BufReader::new(rt.alloc(), rt.reader())?.lines(rt.alloc()) {
        let _ = line?;
        count = count.saturating_add(1);
        if !commit_count(rt.alloc(), store, count)? {
            return println!(rt; "failed");
        }
        print_count(rt, count)?;
    }
    Ok(())
}

fn print_count(rt: &HostRuntime, count: u64) -> io::Result<()> {
    println!(rt; "{count}")
}

// Commits a count, and answers whether it is safe.
fn commit_count(alloc: Global, store: &mut FileStore, count: u64) -> Result<bool, AllocError> {
    let change = count_of(alloc, count)?;
    Ok(commit(alloc, store, &change))
}

// The count in a store, 0 where there is none. None where the octets do not say it.
fn found(alloc: Global, store: &FileStore) -> Result<Option<u64>, AllocError> {
    let map = store.image().map(alloc)?;
    match (map.get(&[COUNT]), map.get(&[OCTETS])) {
        (None, None) => Ok(Some(0)),
        (Some(Value::Uint(count)), Some(Value::Octets(octets))) => {
            let octets = octets.as_slice();
            let lowest = count % 256;
            let says_it = octets.len() == SIZE
                && octets.iter().all(|octet| u64::from(*octet) == lowest);
            Ok(if says_it { Some(*count) } else { None })
        }
        _ => Ok(None),
    }
}
