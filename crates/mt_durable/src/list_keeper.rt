//! A keeper in memory, some of whose calls fail: for tests, and for runs that keep nothing.

ghost use Rattle.std.specs.Prelude.{◌≡◌, ◌≤◌, ◌↔◌, ◌⊎◌, List, Some, false, is_err, length, Contains, IfOk, IsErr, IsTrue, OnErr, OnOk};
ghost use Rattle.mt_durable.specs.Keepers.{ListKeeperState, any_map, new_keeper};
ghost use Rattle.mt_durable.specs.Keeping.{Committed, HasRoom, IsAdmitted, IsChange, LeadsTo, WasOrCommitted};
ghost use Rattle.mt_durable.specs.declared.durable.Entry.{Entry};
ghost use Rattle.mt_outside.specs.Stream.{HasCause, one_more};

use crate::durable::Durable;
use crate::keeper::Keeper;
use crate::reading::read_change;
use mt_outside::Failed;
use std::alloc::{AllocError, Global};
use std::marker::Model;

/// A keeper of a map in memory. Contracts see the map, the numbers of the calls that are to fail, how many
/// calls and faults there were, and whether it has failed.
pub struct ListKeeper {
    alloc: Global,
    map: Durable,
    fail: Vec<u64>,
    calls: u64,
    faults: u64,
    failed: bool,
}

impl Drop for ListKeeper {
    fn drop(self) {
        let ListKeeper {
            alloc: _,
            map: _,
            fail: _,
            calls: _,
            faults: _,
            failed: _,
        } = self;
    }
}

impl Model for ListKeeper {
    ghost use Rattle.std.specs.Coded.{codes};
    ghost use Rattle.mt_tlv.specs.contracts.value.Value as values;
    ghost use Rattle.mt_durable.specs.Keepers.{ListKeeperState};

    ghost Value = { ListKeeperState };

    ghost coded = { Prim.hlevel (codes, values.the_row.coded) };

    ghost view = { λ k. record {
      map = k.map;
      fail = k.fail.items;
      calls = k.calls;
      faults = k.faults;
      failed = k.failed;
    } };
}

impl ListKeeper {
    /// A keeper that begins with this map, whose calls of the numbers in `fail` fail, counted from 1. The
    /// first that fails is the last that is made.
    pub fn new(alloc: Global, map: &Durable, fail: &[u64]) -> Result<Self, AllocError>
        ensures { IfOk result (λ keeper. keeper ≡ new_keeper map.now fail.now) }
    {
        Ok(ListKeeper {
            alloc,
            map: map.copy()?,
            fail: Vec::from_slice(alloc, fail)?,
            calls: 0,
            faults: 0,
            failed: false,
        })
    }

    /// The map.
    pub fn map(&self) -> &Durable
        ensures { result.now ≡ self.now.map }
    {
        &self.map
    }

    // Counts a call, and answers whether it is one of those that are to fail.
    fn next_fails(&mut self) -> bool
        ensures listed { IsTrue result ↔ Contains self.old.fail self.new.calls }
        ensures counted { self.new ≡ record self.old { calls = one_more self.old.calls } }
    {
        self.calls = self.calls.saturating_add(1);
        self.fail.contains(&self.calls)
    }

    // Merges a change, or leaves the map as it is.
    fn merge(&mut self, change: &[u8]) -> Result<(), AllocError>
        requires { IsChange change.now }
        ensures merged { OnOk result (LeadsTo change.now self.old.map self.new.map) }
        ensures map_alone { self.new ≡ record self.old { map = self.new.map } }
        ensures err { OnErr result (self.new ≡ self.old) }
    {
        let Ok(change) = read_change(self.alloc, change) else {
            return Err(AllocError);
        };
        self.map.merge(change)
    }
}

impl Keeper for ListKeeper {
    ghost map = { λ keeper. Some keeper.map };

    ghost admits = { any_map };

    ghost failed = { λ keeper. keeper.failed };

    ghost faults = { λ keeper. keeper.faults };

    ghost stands_between = { λ keeper before after. (keeper.map ≡ before) ⊎ (keeper.map ≡ after) };

    /// A call that is not listed fails too where no memory is left for the change.
    fn commit(&mut self, change: &[u8]) -> Result<(), Failed>
        requires form { IsChange change.now }
        requires room { HasRoom change.now (Some self.old.map) }
        requires admitted { IsAdmitted any_map change.now (Some self.old.map) }
        ensures committed { OnOk result (Committed change.now (Some self.old.map) (Some self.new.map)) }
        ensures part { OnErr result (WasOrCommitted change.now (Some self.old.map) (Some self.new.map)) }
        ensures failed { self.new.failed ≡ is_err result }
        ensures stays { IsTrue self.old.failed → IsErr result × (Some self.new.map ≡ Some self.old.map) × (self.new.faults ≡ self.old.faults) }
        ensures cause { self.old.failed ≡ false → HasCause self.old.faults self.new.faults result }
        ensures between { (before : List Entry) (after : List Entry) → self.old.failed ≡ false → Some self.old.map ≡ Some before → LeadsTo change.now before after
            → OnErr result ((self.new.map ≡ before) ⊎ (self.new.map ≡ after)) }

        // A call that fails leaves the map without the change, and one behind it leaves all.
        ensures unchanged { OnErr result (self.new.map ≡ self.old.map) }
        ensures still { IsTrue self.old.failed → self.new ≡ self.old }
        // The calls of the listed numbers fail.
        ensures listed { self.old.failed ≡ false → Contains self.old.fail self.new.calls → IsErr result }
        ensures calls { self.old.failed ≡ false → self.new.calls ≡ one_more self.old.calls }
        ensures fail { self.new.fail ≡ self.old.fail }
    {
        if self.failed {
            return Err(Failed);
        }
        if self.next_fails() || self.merge(change).is_err() {
            self.faults = self.faults.saturating_add(1);
            self.failed = true;
            return Err(Failed);
        }
        Ok(())
    }

    fn faults(&self) -> u64 {
        self.faults
    }
}
