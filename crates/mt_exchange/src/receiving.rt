//! How the exchanges begin, and what a message is.

ghost use Rattle.std.specs.Prelude.{◌≡◌, ◌++◌, ◌∷◌, [], List, IfOk, OnOk, OnErr, true, ℕ};
ghost use Rattle.mt_model.specs.declared.texts.config.SessionRow.{SessionRow};
ghost use Rattle.mt_session.specs.Opening.{arrival};
ghost use Rattle.mt_exchange.specs.Places.{IsAt, IsBefore, IsRising};
ghost use Rattle.mt_exchange.specs.Receiving.{IsSuccessOn, behind as behind_turn, confirming as confirming_of, is_interaction as is_interaction_of, key_of as key_of_header, received as received_among, taken, taken_by, taken_on};
ghost use Rattle.mt_exchange.specs.Runs.{Happening, IsRunOf, arrived, dropped, run};

use crate::exchange::{Exchange, Key};
use crate::exchanges::Exchanges;
use crate::payloads::is_success;
use crate::table::{Spot, Table};
use crate::turn::Turn;
use mt_frame::ProtocolHeader;
use mt_model::Payloads;
use mt_model::limits::EXCHANGES;
use mt_session::Opened;
use std::alloc::{AllocError, Global};

/// The protocol id of the interaction model.
const INTERACTION_MODEL: u16 = 1;

impl Exchanges {
    /// No exchange is open. It takes no memory.
    pub fn new(alloc: Global) -> Exchanges
        ensures { (row : SessionRow) → IsRunOf result row [] }
    {
        Exchanges {
            alloc,
            table: Table::new(alloc),
            next_id: 1,
        }
    }

    /// Takes a message that the session let in, first its acknowledgement, and tells what it is. Where
    /// memory runs out nothing has changed.
    pub fn receive<'a>(&mut self, opened: &Opened<'a>) -> Result<Turn<'a>, AllocError>
        // What it is.
        ensures turn { (row : SessionRow) (happenings : List Happening) → IsRunOf self.old row happenings
            → IfOk result (λ turn. taken_by turn ≡ taken (run row happenings).open_ones (arrival opened.now)) }
        // The message is taken.
        ensures stands { (row : SessionRow) (happenings : List Happening) → IsRunOf self.old row happenings
            → OnOk result (IsRunOf self.new row (happenings ++ arrived true (arrival opened.now) ∷ [])) }
        ensures kept { OnErr result (self.new ≡ self.old) }
    {
        let turn = received(self.alloc, &mut self.table, opened)?;
        Ok(turn)
    }

    /// Closes all exchanges: nothing of them is to be sent, owed or awaited any more. It takes no memory.
    pub fn drop_all(&mut self)
        ensures { (row : SessionRow) (happenings : List Happening) → IsRunOf self.old row happenings
            → IsRunOf self.new row (happenings ++ dropped ∷ []) }
    {
        self.table = Table::new(self.alloc);
    }
}

// What a message is among open exchanges, which it changes. Where memory runs out nothing has changed.
fn received<'a>(
    alloc: Global,
    table: &mut Table,
    opened: &Opened<'a>,
) -> Result<Turn<'a>, AllocError>
    ensures turn { IsRising table.old → IfOk result (λ turn. taken_by turn ≡ taken table.old (arrival opened.now)) }
    ensures table { IsRising table.old → OnOk result (table.new ≡ received_among table.old (arrival opened.now)) }
    ensures kept { OnErr result (table.new ≡ table.old) }
{
    match table.spot(key_of(&opened.header)) {
        Spot::At(at) => received_at(alloc, table, at, opened),
        Spot::Before(_) => received_anew(alloc, table, opened),
    }
}

// The same where its exchange stands at a place: that one alone is changed, once nothing lacks memory any more.
fn received_at<'a>(
    alloc: Global,
    table: &mut Table,
    index: usize,
    opened: &Opened<'a>,
) -> Result<Turn<'a>, AllocError>
    requires { IsAt (key_of_header opened.now.header) table.old index }
    ensures turn { IsRising table.old → IfOk result (λ turn. taken_by turn ≡ taken table.old (arrival opened.now)) }
    ensures table { IsRising table.old → OnOk result (table.new ≡ received_among table.old (arrival opened.now)) }
    ensures kept { OnErr result (table.new ≡ table.old) }
{
    let success = success_on(alloc, table.at(index), opened)?;
    let count = table.count_of_peer_but(index);
    let x = table.take(index, key_of(&opened.header));
    let x = x.relieve(opened.header.acknowledged).or_nothing(alloc);
    let turn = turn_on(&x, count, success, opened);
    table.settle(index, behind(alloc, turn, x));
    Ok(turn)
}

// The same where its exchange stands nowhere.
fn received_anew<'a>(
    alloc: Global,
    table: &mut Table,
    opened: &Opened<'a>,
) -> Result<Turn<'a>, AllocError>
    requires { (at : ℕ) × IsBefore (key_of_header opened.now.header) table.old at }
    ensures turn { IfOk result (λ turn. taken_by turn ≡ taken table.old (arrival opened.now)) }
    ensures table { OnOk result (table.new ≡ received_among table.old (arrival opened.now)) }
    ensures kept { OnErr result (table.new ≡ table.old) }
{
    let x = Exchange::nothing(alloc, key_of(&opened.header));
    let turn = turn_on(&x, table.count_of_peer(), false, opened);
    table.put(behind(alloc, turn, x))?;
    Ok(turn)
}

/// The exchange of a message: the peer began it where the initiator flag is set.
pub fn key_of(header: &ProtocolHeader) -> Key
    ensures { result ≡ key_of_header header.now }
{
    Key {
        exchange: header.exchange,
        ours: !header.initiator,
    }
}

// Whether a message is of the interaction model.
fn is_interaction(header: &ProtocolHeader) -> bool
    ensures { result ≡ is_interaction_of header.now }
{
    header.protocol == INTERACTION_MODEL && header.vendor.is_none()
}

// Whether a message says success, where its exchange awaits a confirmation.
fn success_on(alloc: Global, x: &Exchange, opened: &Opened<'_>) -> Result<bool, AllocError>
    ensures { IfOk result (λ success. IsSuccessOn x.now (arrival opened.now) success) }
{
    if x.confirmation && is_interaction(&opened.header) {
        return is_success(alloc, opened.header.opcode, opened.payload);
    }
    Ok(false)
}

// What a message is where this is what there is of its exchange, and the peer has so many.
fn turn_on<'a>(x: &Exchange, count: usize, success: bool, opened: &Opened<'a>) -> Turn<'a>
    ensures { IsSuccessOn x.now (arrival opened.now) success → taken_by result ≡ taken_on x.now count (arrival opened.now) }
{
    let header = &opened.header;
    let key = x.key;
    if !x.is_open() && !(is_interaction(header) && header.initiator) {
        return Turn::Closed;
    }
    if !x.is_open() && count >= EXCHANGES {
        return Turn::Busy { key };
    }
    if !is_interaction(header) {
        return Turn::Acknowledged;
    }
    if x.confirmation {
        return confirming(x, success);
    }
    Turn::Ask {
        key,
        opcode: header.opcode,
        payload: opened.payload,
        timed: x.deadline,
    }
}

// What a message is on an exchange whose confirmation is awaited.
fn confirming<'a>(x: &Exchange, success: bool) -> Turn<'a>
    ensures { taken_by result ≡ confirming_of x.now success }
{
    if !success {
        return Turn::Ended {
            key: x.key,
            subscription: x.subscription,
        };
    }
    if !x.kept.is_empty() {
        return Turn::Next { key: x.key };
    }
    Turn::Confirmed {
        key: x.key,
        subscription: x.subscription.unwrap_or(0),
    }
}

// The exchange behind a message that is this.
fn behind(alloc: Global, turn: Turn<'_>, x: Exchange) -> Exchange
    ensures { result ≡ behind_turn (taken_by turn.entry) x }
{
    let mut x = x;
    match turn {
        Turn::Ask { .. } => {
            x.unanswered = true;
            x.deadline = None;
        }
        Turn::Next { .. } => {
            x.unanswered = true;
            x.confirmation = false;
        }
        Turn::Confirmed { .. } => {
            x.unanswered = true;
            x.confirmation = false;
        }
        Turn::Ended { .. } => {
            x.kept = Payloads::new(alloc);
            x.confirmation = false;
        }
        Turn::Acknowledged => {}
        Turn::Busy { .. } => {}
        Turn::Closed => {}
    }
    x
}
