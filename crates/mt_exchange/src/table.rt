//! The open exchanges of a session, by rising key.

ghost use Rattle.std.specs.Prelude.{◌≡◌, ◌<◌, ◌++◌, ◌∷◌, [], true, IfOk, OnOk, OnErr, length, slice_index_or, slice_set};
ghost use Rattle.std.specs.List.{remove as removed};
ghost use Rattle.mt_exchange.specs.Opened.{count_of_peer as peer_count, exchange_at, is_open, nothing, put as put_among};
ghost use Rattle.mt_exchange.specs.Places.{IsSpot, changed_at};

use crate::exchange::{Exchange, Key};
use crate::ordered::Ordered;
use mt_model::ExactCopy;
use std::alloc::{AllocError, Global};
use std::marker::Model;

/// The open exchanges, by rising key. Contracts see the list of them.
#[derive(Drop)]
pub struct Table {
    alloc: Global,
    exchanges: Ordered,
}

impl Model for Table {
    ghost use Rattle.std.specs.Prelude.{List};
    ghost use Rattle.mt_exchange.specs.declared.exchange.Exchange.{Exchange};

    ghost Value = { List Exchange };

    ghost view = { λ t. t.exchanges };
}

impl Table {
    /// No exchange. It takes no memory.
    pub fn new(alloc: Global) -> Table
        ensures { result ≡ [] }
    {
        Table {
            alloc,
            exchanges: Ordered::new(alloc),
        }
    }

    /// How many are open.
    pub fn len(&self) -> usize
        ensures { result ≡ length self.now }
    {
        self.exchanges.len()
    }

    /// The exchange at a place, lent.
    pub fn at(&self, index: usize) -> &Exchange
        requires { index < length self.now }
        ensures { result.now ≡ slice_index_or self.now index result.now }
    {
        self.exchanges.at(index)
    }

    /// Adds an exchange, whose key is above those of all others.
    pub fn push(&mut self, x: Exchange) -> Result<(), AllocError>
        ensures { OnOk result (self.new ≡ self.old ++ x ∷ []) }
    {
        self.exchanges.insert(self.exchanges.len(), x)
    }

    /// How many of them the peer began.
    pub fn count_of_peer(&self) -> usize
        ensures { result ≡ peer_count self.now }
    {
        let mut count = 0;
        for at in 0..self.exchanges.len() {
            if !self.exchanges.at(at).key.ours {
                count += 1;
            }
        }
        count
    }

    /// How many of them the peer began, without the one at a place.
    pub fn count_of_peer_but(&self, index: usize) -> usize
        requires { index < length self.now }
        ensures { result ≡ peer_count (removed self.now index) }
    {
        let count = self.count_of_peer();
        if self.at(index).key.ours {
            return count;
        }
        count.saturating_sub(1)
    }

    /// Where the exchange with a key stands.
    pub fn spot(&self, key: Key) -> Spot
        ensures { IsSpot key self.now result }
    {
        find_spot(&self.exchanges, key)
    }

    /// A copy of what there is of an exchange. The others are not copied.
    pub fn found(&self, key: Key) -> Result<Exchange, AllocError>
        ensures { IfOk result (λ x. x ≡ exchange_at key self.now) }
    {
        match find_spot(&self.exchanges, key) {
            Spot::At(at) => self.exchanges.at(at).copy(),
            Spot::Before(_) => Ok(Exchange::nothing(self.alloc, key)),
        }
    }

    /// Takes out what there is of the exchange at a place, and leaves one there of which there is nothing.
    /// It takes no memory.
    pub fn take(&mut self, index: usize, key: Key) -> Exchange
        requires { index < length self.old }
        ensures taken { result ≡ slice_index_or self.old index result }
        ensures rest { self.new ≡ slice_set self.old index (nothing key) }
    {
        self.exchanges
            .replace(index, Exchange::nothing(self.alloc, key))
    }

    /// Makes this what there is of the exchange at a place, and takes the place away where it is not open.
    /// It takes no memory.
    pub fn settle(&mut self, index: usize, x: Exchange)
        requires { index < length self.old }
        ensures { self.new ≡ changed_at index x self.old }
    {
        if x.is_open() {
            self.exchanges.replace(index, x);
        } else {
            self.exchanges.remove(index);
        }
    }

    /// Puts what there is of an exchange into its place, where it is open, and takes the place away
    /// where it is not. Where memory lacks nothing has changed.
    pub fn put(&mut self, x: Exchange) -> Result<(), AllocError>
        ensures placed { OnOk result (self.new ≡ put_among x self.old) }
        ensures kept { OnErr result (self.new ≡ self.old) }
    {
        if x.is_open() {
            return self.put_open(x);
        }
        match find_spot(&self.exchanges, x.key) {
            Spot::At(at) => {
                self.exchanges.remove(at);
                Ok(())
            }
            Spot::Before(_) => Ok(()),
        }
    }

    // Puts an open exchange into its place.
    fn put_open(&mut self, x: Exchange) -> Result<(), AllocError>
        requires { is_open x ≡ true }
        ensures placed { OnOk result (self.new ≡ put_among x self.old) }
        ensures kept { OnErr result (self.new ≡ self.old) }
    {
        match find_spot(&self.exchanges, x.key) {
            Spot::At(at) => {
                self.exchanges.replace(at, x);
                Ok(())
            }
            Spot::Before(at) => self.exchanges.insert(at, x),
        }
    }

    /// Whether an exchange is open.
    pub fn is_there(&self, key: Key) -> bool
        ensures { result ≡ is_open (exchange_at key self.now) }
    {
        match find_spot(&self.exchanges, key) {
            Spot::At(at) => self.exchanges.at(at).is_open(),
            Spot::Before(_) => false,
        }
    }
}

/// Where an exchange stands among others.
#[derive(Clone, Copy, Debug, PartialEq, Eq)]
pub enum Spot {
    /// At this place.
    At(usize),
    /// Nowhere. It would stand at this place.
    Before(usize),
}

// Where the exchange with a key stands.
fn find_spot(exchanges: &Ordered, key: Key) -> Spot
    ensures { IsSpot key exchanges.now result }
{
    let rank = key.rank();
    for at in 0..exchanges.len() {
        let here = exchanges.at(at).key.rank();
        if here == rank {
            return Spot::At(at);
        }
        if here > rank {
            return Spot::Before(at);
        }
    }
    Spot::Before(exchanges.len())
}

impl ExactCopy for Table {
    fn copy(&self) -> Result<Table, AllocError> {
        let mut copy = Table::new(self.alloc);
        for at in 0..self.len() {
            copy.push(self.at(at).copy()?)?;
        }
        Ok(copy)
    }
}
