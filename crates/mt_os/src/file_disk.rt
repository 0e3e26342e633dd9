//! A disk over a file.

ghost use Rattle.std.specs.Prelude.{◌≡◌, ◌≤◌, ◌+◌, ◌^◌, false, None, length, IfOk, IfSome, IsTrue, OnOk, OnErr};
ghost use Rattle.mt_outside.specs.Stream.{HasCause, one_more};

use crate::ATTEMPTS;
use mt_outside::{Disk, Failed};
use std::fs::{File, OpenOptions};
use std::io;
use std::io::ErrorKind;
use std::os::unix::fs::FileExt;

// A disk's length at most, and how far a write may come.
const LONGEST: u64 = 1 << 62;

/// A disk over a file that is open for reading and writing, or over one that could not be opened, of which
/// each call fails. A sync makes its bytes and its length safe by `fdatasync`.
#[derive(Drop)]
pub struct FileDisk {
    file: Option<File>,
    is_in_use: bool,
    pub calls: u64,
    pub faults: u64,
}

impl FileDisk {
    /// A disk over this file, of which no call was made yet. None is a file that could not be opened. It is
    /// not locked here.
    pub fn new(file: Option<File>) -> Self
        ensures file { result.file ≡ file }
        ensures in_use { result.is_in_use ≡ false }
        ensures calls { result.calls ≡ 0 }
        ensures faults { result.faults ≡ 0 }
    {
        FileDisk {
            file,
            is_in_use: false,
            calls: 0,
            faults: 0,
        }
    }

    /// A disk over the file of this name, which is made, empty, where there is none, and locked for as long
    /// as the disk is there. Where it has no byte its folder is synced, so that its name outlives a loss of
    /// power as its bytes do. Where one of these can't be done, the lock of a file that is open as a disk
    /// among them, each call of the disk fails.
    pub fn open(rt: &HostRuntime, name: &str) -> Self
        ensures calls { result.calls ≡ 0 }
        ensures faults { result.faults ≡ 0 }
        ensures in_use { IsTrue result.is_in_use → result.file ≡ None }
    {
        let (file, is_in_use) = match opened(rt, name) {
            Ok(file) => (Some(file), false),
            Err(error) => (None, error.kind() == ErrorKind::WouldBlock),
        };
        FileDisk {
            file,
            is_in_use,
            calls: 0,
            faults: 0,
        }
    }

    /// Whether the file could not be opened because it is locked: by another process, or by this one, which
    /// has it open as another disk.
    pub fn is_in_use(&self) -> bool
        ensures { result ≡ self.now.is_in_use }
    {
        self.is_in_use
    }

    /// The file, as it is.
    pub fn into_file(self) -> Option<File>
        ensures { result ≡ self.file }
    {
        self.file
    }

    // Counts a call, and a fault where it was not done.
    fn count(&mut self, done: bool) -> Result<(), Failed>
        ensures done { OnOk result (IsTrue done) }
        ensures failed { OnErr result (done ≡ false) }
        ensures calls { self.new.calls ≡ one_more self.old.calls }
        ensures cause { HasCause self.old.faults self.new.faults result }
    {
        self.calls = self.calls.saturating_add(1);
        if done {
            return Ok(());
        }
        self.faults = self.faults.saturating_add(1);
        Err(Failed)
    }
}

impl Disk for FileDisk {
    ghost contents = { λ _. None };

    ghost images = { λ _ _. Unit {0} };

    ghost moment = { λ _. 0 };

    ghost images_since = { λ _ _ _. Unit {0} };

    ghost faults = { λ disk. disk.faults };

    ghost calls = { λ disk. disk.calls };

    ghost log = { λ _. None };

    ghost allowed = { λ _. None };

    ghost counts_now = { λ _ _ _ _ _. tt };

    ghost only_now = { λ _ _ _. tt };

    ghost leaves = { λ _ _ _ _ _. tt };

    fn length(&mut self) -> Result<u64, Failed> {
        let length = length_of(&self.file).unwrap_or(u64::MAX);
        self.count(length <= LONGEST)?;
        Ok(length)
    }

    fn read_at(&mut self, at: u64, into: &mut [u8]) -> Result<usize, Failed> {
        let read = read_open(&self.file, at, into);
        self.count(read.is_some())?;
        read.ok_or(Failed)
    }

    fn write_at(&mut self, at: u64, from: &[u8]) -> Result<(), Failed> {
        let written = comes_within(at, from.len()) && has_written(&self.file, at, from);
        self.count(written)
    }

    fn sync(&mut self) -> Result<(), Failed> {
        let synced = has_synced(&self.file);
        self.count(synced)
    }

    fn faults(&self) -> u64 {
        self.faults
    }
}

fn comes_within(at: u64, count: usize) -> bool
    ensures { IsTrue result → at + count ≤ 2 ^ 62 }
{
    at <= LONGEST && count as u64 <= LONGEST - at
}

// The file of this name, open for reading and writing, made where there is none, and locked: a file that is
// locked already would block. The lock goes with the last handle of this opening. The folder of an empty
// file is synced: it may have been made now, or by a run that was ended before it synced the folder.
fn opened(rt: &HostRuntime, name: &str) -> io::Result<File> {
    let file = OpenOptions::new()
        .read(true)
        .write(true)
        .create(true)
        .open(rt, name)?;
    file.try_lock()?;
    if file.metadata()?.len() == 0 {
        File::open(rt, folder_of(name))?.sync_all()?;
    }
    Ok(file)
}

// The folder in which a file of this name lies.
fn folder_of(name: &str) -> &str {
    match name.rsplit_once('/') {
        Some(("", _)) => "/",
        Some((folder, _)) => folder,
        None => ".",
    }
}

fn length_of(file: &Option<File>) -> Option<u64>
    ensures absent { file.now ≡ None → result ≡ None }
{
    Some(file.as_ref()?.metadata().ok()?.len())
}

fn has_written(file: &Option<File>, at: u64, from: &[u8]) -> bool
    ensures absent { file.now ≡ None → result ≡ false }
{
    match file {
        Some(file) => file.write_all_at(from, at).is_ok(),
        None => false,
    }
}

fn has_synced(file: &Option<File>) -> bool
    ensures absent { file.now ≡ None → result ≡ false }
{
    match file {
        Some(file) => file.sync_data().is_ok(),
        None => false,
    }
}

fn read_open(file: &Option<File>, at: u64, into: &mut [u8]) -> Option<usize>
    ensures within { IfSome result (λ count. count ≤ length into.old) }
    ensures length { length into.new ≡ length into.old }
    ensures absent { file.now ≡ None → result ≡ None }
{
    match file {
        Some(file) => read_all_at(file, at, into),
        None => None,
    }
}

// Reads what stands from an offset on, as much as fits and is there; None where a call fails. Past the
// longest length nothing is.
fn read_all_at(file: &File, at: u64, into: &mut [u8]) -> Option<usize>
    ensures within { IfSome result (λ count. count ≤ length into.old) }
    ensures length { length into.new ≡ length into.old }
{
    if at > LONGEST {
        return Some(0);
    }
    let mut count = 0;
    for _ in 0..into.len() {
        let got = read_again(file, at + count as u64, &mut into[count..])?;
        if got == 0 {
            break;
        }
        count += got;
    }
    Some(count)
}

// What a read gives, as soon as no signal interrupts the call; None where it fails otherwise.
fn read_again(file: &File, at: u64, into: &mut [u8]) -> Option<usize>
    ensures within { IfSome result (λ count. count ≤ length into.old) }
    ensures length { length into.new ≡ length into.old }
{
    for _ in 0..ATTEMPTS {
        match file.read_at(into, at) {
            Ok(count) => return Some(count),
            Err(error) if error.kind() == ErrorKind::Interrupted => {}
            Err(_) => return None,
        }
    }
    None
}
