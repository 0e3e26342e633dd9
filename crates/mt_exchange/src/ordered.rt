//! Exchanges in an order: a slab has them, and a list of its keys says in which order they stand.

ghost use Rattle.std.specs.Prelude.{◌≡◌, ◌≤◌, ◌<◌, ◌++◌, ◌∷◌, [], IfOk, OnOk, OnErr, length, slice_index_or, slice_set};
ghost use Rattle.std.specs.List.{insert as inserted, remove as removed};

use crate::exchange::Exchange;
use slab::Slab;
use std::alloc::{AllocError, Global};
use std::marker::Model;
use std::mem;

/// Exchanges in an order. Contracts see the list of them.
#[derive(Drop)]
pub struct Ordered {
    exchanges: Slab<Exchange>,
    // The keys of the slab's exchanges, each once.
    order: Vec<usize>,
}

impl Model for Ordered {
    ghost use Rattle.std.specs.Prelude.{List};
    ghost use Rattle.mt_exchange.specs.declared.exchange.Exchange.{Exchange};
    ghost use Rattle.mt_exchange.specs.Kept.{IsKept, kept};

    ghost Value = { List Exchange };

    ghost view = { λ t. kept t.exchanges t.order.items };

    ghost invariant = { λ t. IsKept t.exchanges t.order.items };
}

impl Ordered {
    /// No exchange. It takes no memory.
    pub fn new(alloc: Global) -> Ordered
        ensures { result ≡ [] }
    {
        Ordered {
            exchanges: Slab::new(alloc),
            order: Vec::new(alloc),
        }
    }

    /// How many there are.
    pub fn len(&self) -> usize
        ensures { result ≡ length self.now }
    {
        self.order.len()
    }

    /// The exchange at a place, lent.
    pub fn at(&self, index: usize) -> &Exchange
        requires { index < length self.now }
        ensures { result.now ≡ slice_index_or self.now index result.now }
    {
        let key = self.order[index];
        &self.exchanges[key]
    }

    /// Puts an exchange in place of another, and gives that back. It takes no memory.
    pub fn replace(&mut self, index: usize, x: Exchange) -> Exchange
        requires { index < length self.old }
        ensures given { result ≡ slice_index_or self.old index result }
        ensures placed { self.new ≡ slice_set self.old index x }
    {
        let key = self.order[index];
        mem::replace(&mut self.exchanges[key], x)
    }

    /// Puts an exchange before the one at a place, or behind the last. Where memory lacks nothing has changed.
    pub fn insert(&mut self, index: usize, x: Exchange) -> Result<(), AllocError>
        requires { index ≤ length self.old }
        ensures placed { OnOk result (self.new ≡ inserted self.old index x) }
        ensures kept { OnErr result (self.new ≡ self.old) }
    {
        self.exchanges.reserve(1)?;
        let key = self.exchanges.vacant_key();
        self.order.insert(index, key)?;
        self.exchanges.insert_reserved(x);
        Ok(())
    }

    /// Takes the exchange at a place out. It takes no memory.
    pub fn remove(&mut self, index: usize) -> Exchange
        requires { index < length self.old }
        ensures given { result ≡ slice_index_or self.old index result }
        ensures rest { self.new ≡ removed self.old index }
    {
        let key = self.order.remove(index);
        self.exchanges.remove(key)
    }
}
