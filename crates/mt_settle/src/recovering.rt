//! Recovering a journal on a disk that is lent.
//!
//! A store takes its disk by value. Of the one that it hands back contracts say what it holds, and not which it is. So a disk
//! that is lent goes there under its name, which is in its type.

ghost use Rattle.std.specs.Prelude.{◌≡◌, ℕ, List, Some, Ok, Err, IfOk};
ghost use Rattle.mt_journal.specs.Recovering.{HasReadCause, IfNotAJournal, OnlyRead};
ghost use Rattle.mt_keeping.specs.Recovered.{recovered};
ghost use Rattle.mt_model.specs.texts.Contents.{contents_of};

use mt_durable::Durable;
use mt_journal::JournalFault;
use mt_keeping::Store;
use mt_model::Config;
use mt_outside::{Disk, Failed};
use std::alloc::Global;
use std::marker::{Brand, PhantomData};

/// The map with which a node goes on that is started on this disk with this configuration, as `Store::recover` of mt_keeping has
/// it. Its journal stays as it is.
pub(crate) fn recovered_map<D: Disk>(
    alloc: Global,
    config: &Config,
    disk: &mut D,
) -> Result<Durable, JournalFault>
    ensures recovered { (file : List ℕ) → D.contents disk.old ≡ Some file → IfOk result (λ map. recovered (contents_of config.now) file ≡ Ok (Some map)) }
    // It names the place from which on the file is no journal of states.
    ensures refused { (file : List ℕ) → D.contents disk.old ≡ Some file → IfNotAJournal result (λ at. recovered (contents_of config.now) file ≡ Err at) }
    ensures only_read { OnlyRead D.contents D.images D.moment D.images_since disk.old disk.new }
    // The disk has failed where that is the fault, and not otherwise.
    ensures cause { HasReadCause (D.faults disk.old) (D.faults disk.new) result }
{
    let mut found = Err(JournalFault::Memory);
    recover_into::<D, Brand>(alloc, config, disk, &mut found);
    found
}

// The same, put into `found`. The disk is handed back.
fn recover_into<'a, D: Disk, N: Name>(
    alloc: Global,
    config: &Config,
    disk: &'a mut D,
    found: &mut Result<Durable, JournalFault>,
) -> &'a mut D
    requires named { disk.ghost_name ≡ N.name }
    ensures same_reference { result.ghost_name ≡ disk.entry.ghost_name }
    ensures recovered { (file : List ℕ) → D.contents disk.old ≡ Some file → IfOk found.new (λ map. recovered (contents_of config.now) file ≡ Ok (Some map)) }
    ensures refused { (file : List ℕ) → D.contents disk.old ≡ Some file → IfNotAJournal found.new (λ at. recovered (contents_of config.now) file ≡ Err at) }
    ensures only_read { OnlyRead D.contents D.images D.moment D.images_since disk.old result.now }
    ensures cause { HasReadCause (D.faults disk.old) (D.faults result.now) found.new }
{
    let lent: Lent<'a, D, N> = Lent {
        disk,
        name: PhantomData,
    };
    match Store::recover(alloc, lent, config) {
        Ok((store, map)) => {
            *found = Ok(map);
            let Lent { disk, name: _ } = store.into_disk();
            disk
        }
        Err((lent, fault)) => {
            *found = Err(fault);
            let Lent { disk, name: _ } = lent;
            disk
        }
    }
}

// A name of references, as the logic gives them.
trait Name {
    ghost name: { ℕ };
}

// Whoever lends a disk picks its name.
impl Name for Brand {
    ghost name = { 0 };
}

// A disk that was lent by the reference of this name.
struct Lent<'a, D: Disk, N: Name> {
    disk: &'a mut D,
    name: PhantomData<N>,
    ghost named: { disk.ghost_name ≡ N.name },
}

// What is done to it is done to the disk.
impl<D: Disk, N: Name> Disk for Lent<'_, D, N> {
    ghost contents = { λ lent. D.contents lent.disk.now };

    ghost images = { λ lent. D.images lent.disk.now };

    ghost moment = { λ lent. D.moment lent.disk.now };

    ghost images_since = { λ lent. D.images_since lent.disk.now };

    ghost faults = { λ lent. D.faults lent.disk.now };

    ghost calls = { λ lent. D.calls lent.disk.now };

    ghost log = { λ lent. D.log lent.disk.now };

    ghost allowed = { λ lent. D.allowed lent.disk.now };

    ghost counts_now = { λ lent. D.counts_now lent.disk.now };

    ghost only_now = { λ lent. D.only_now lent.disk.now };

    ghost leaves = { λ lent. D.leaves lent.disk.now };

    fn length(&mut self) -> Result<u64, Failed> {
        self.disk.length()
    }

    fn read_at(&mut self, at: u64, into: &mut [u8]) -> Result<usize, Failed> {
        self.disk.read_at(at, into)
    }

    fn write_at(&mut self, at: u64, from: &[u8]) -> Result<(), Failed> {
        self.disk.write_at(at, from)
    }

    fn sync(&mut self) -> Result<(), Failed> {
        self.disk.sync()
    }

    fn faults(&self) -> u64 {
        self.disk.faults()
    }
}
