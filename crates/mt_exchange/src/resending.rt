//! Sending again what was not acknowledged.

ghost use Rattle.std.specs.Prelude.{◌≡◌, ◌++◌, ◌∷◌, [], List, ℕ, IfOk, OnOk, OnErr, map, filter, None};
ghost use Rattle.std.specs.List.{flat_map};
ghost use Rattle.mt_model.specs.declared.texts.config.SessionRow.{SessionRow};
ghost use Rattle.mt_exchange.specs.Resending.{closes as closes_at, behind_step as behind_step_at, due_again as due_again_of, end_in as end_from, end_of as end_of_one, end_times as end_times_of, end_with as end_with_one, ended_by, ended_of as ended_of_one, is_due as is_due_at, is_spent as is_spent_at, resent as resent_at, sent_again as sent_again_at, wait_after as wait_of};
ghost use Rattle.mt_exchange.specs.Runs.{Happening, IsRunOf, resend_step, run};

use crate::exchange::{Exchange, Owed};
use crate::exchanges::Exchanges;
use crate::lists::{Datagrams, EndTime, EndTimes, Ends};
use crate::table::Table;
use mt_model::limits::{LAST_WAIT, SENDINGS};
use mt_model::{ExactCopy, Listed};
use std::alloc::{AllocError, Global};

impl Exchanges {
    /// A resend step: what is due is sent again with the same bytes, by rising key and then by rising
    /// counter. An exchange of which a message was sent five times and not acknowledged for 2,048 ms closes,
    /// and its subscription is told. Where memory runs out nothing has changed.
    pub fn resend(&mut self, now: u64) -> Result<(Datagrams, Ends), AllocError>
        ensures datagrams { (row : SessionRow) (happenings : List Happening) → IsRunOf self.old row happenings
            → IfOk result (λ x. x.0 ≡ due_again_of now (run row happenings).open_ones) }
        ensures ends { (row : SessionRow) (happenings : List Happening) → IsRunOf self.old row happenings
            → IfOk result (λ x. x.1 ≡ ended_by now (run row happenings).open_ones) }
        ensures stands { (row : SessionRow) (happenings : List Happening) → IsRunOf self.old row happenings
            → OnOk result (IsRunOf self.new row (happenings ++ resend_step now ∷ [])) }
        ensures kept { OnErr result (self.new ≡ self.old) }
    {
        let datagrams = due_again(self.alloc, &self.table, now)?;
        let ends = ended(self.alloc, &self.table, now)?;
        let table = resent(self.alloc, &self.table, now)?;
        self.table = table;
        Ok((datagrams, ends))
    }

    /// For each open exchange of a subscription of which a message was sent five times, the subscription and
    /// from when on a resend step closes it.
    pub fn ends(&self) -> Result<EndTimes, AllocError>
        ensures { (row : SessionRow) (happenings : List Happening) → IsRunOf self.now row happenings
            → IfOk result (λ times. times ≡ end_times_of (run row happenings).open_ones) }
    {
        end_times(self.alloc, &self.table)
    }
}

// How long is waited after so many sendings.
fn wait_after(sendings: u8) -> u64
    ensures { result ≡ wait_of sendings }
{
    match sendings {
        0..=2 => 500,
        3 => 800,
        _ => 1280,
    }
}

// Whether a message is due again.
fn is_due(now: u64, o: &Owed) -> bool
    ensures { result ≡ is_due_at now o.now }
{
    o.sendings < SENDINGS && now.saturating_sub(o.last) >= wait_after(o.sendings)
}

// Whether a message closes its exchange.
fn is_spent(now: u64, o: &Owed) -> bool
    ensures { result ≡ is_spent_at now o.now }
{
    o.sendings == SENDINGS && now.saturating_sub(o.last) >= LAST_WAIT
}

// Whether a resend step closes an exchange.
fn closes(now: u64, x: &Exchange) -> bool
    ensures { result ≡ closes_at now x.now }
{
    x.owed.as_slice().iter().any(|o| is_spent(now, o))
}

// What a resend step sends.
fn due_again(alloc: Global, table: &Table, now: u64) -> Result<Datagrams, AllocError>
    ensures { IfOk result (λ datagrams. datagrams ≡ due_again_of now table.now) }
{
    let mut datagrams = Vec::new(alloc);
    for at in 0..table.len() {
        let x = table.at(at);
        if !closes(now, x) {
            push_due(&mut datagrams, x.owed.as_slice(), now)?;
        }
    }
    Ok(Datagrams::from_vec(datagrams))
}

fn push_due(datagrams: &mut Vec<mt_tlv::Bytes>, owed: &[Owed], now: u64) -> Result<(), AllocError>
    ensures { OnOk result (datagrams.new.items ≡ datagrams.old.items ++ map (λ o. o.datagram) (filter (is_due_at now) owed.now)) }
{
    for o in owed {
        if is_due(now, o) {
            datagrams.push(o.datagram.copy()?)?;
        }
    }
    Ok(())
}

// The subscriptions of the exchanges that a resend step closes.
fn ended(alloc: Global, table: &Table, now: u64) -> Result<Ends, AllocError>
    ensures { IfOk result (λ ends. ends ≡ ended_by now table.now) }
{
    let mut ends = Vec::new(alloc);
    for at in 0..table.len() {
        push_ended(&mut ends, table.at(at), now)?;
    }
    Ok(Ends::from_vec(ends))
}

// Adds the subscription of an exchange that a resend step closes.
fn push_ended(ends: &mut Vec<u32>, x: &Exchange, now: u64) -> Result<(), AllocError>
    ensures { OnOk result (ends.new.items ≡ ends.old.items ++ ended_of_one now x.now) }
{
    if !closes(now, x) {
        return Ok(());
    }
    let Some(subscription) = x.subscription else {
        return Ok(());
    };
    ends.push(subscription)?;
    Ok(())
}

// The open exchanges behind a resend step.
fn resent(alloc: Global, table: &Table, now: u64) -> Result<Table, AllocError>
    ensures { IfOk result (λ new. new ≡ resent_at now table.now) }
{
    let mut all = Table::new(alloc);
    for at in 0..table.len() {
        let x = table.at(at);
        if !closes(now, x) {
            all.push(sent_again(alloc, now, x)?)?;
        }
    }
    Ok(all)
}

// An exchange that stays open behind a resend step.
fn sent_again(alloc: Global, now: u64, x: &Exchange) -> Result<Exchange, AllocError>
    ensures { IfOk result (λ y. y ≡ behind_step_at now x.now) }
{
    let mut y = x.copy()?;
    y.owed = owed_again(alloc, now, y.owed)?;
    Ok(y)
}

// What is owed behind a resend step.
fn owed_again(alloc: Global, now: u64, owed: Listed<Owed>) -> Result<Listed<Owed>, AllocError>
    ensures { IfOk result (λ new. new ≡ map (sent_again_at now) owed) }
{
    let again: Vec<Owed> = owed
        .into_vec()
        .into_iter()
        .map(|o| once_more(now, o))
        .collect(alloc)?;
    Ok(Listed::from_vec(again))
}

// A message behind a resend step.
fn once_more(now: u64, o: Owed) -> Owed
    ensures { result ≡ sent_again_at now o }
{
    let mut o = o;
    if is_due(now, &o) {
        o.sendings += 1;
        o.last = now;
    }
    o
}

// From when on the exchanges of subscriptions close.
fn end_times(alloc: Global, table: &Table) -> Result<EndTimes, AllocError>
    ensures { IfOk result (λ times. times ≡ end_times_of table.now) }
{
    let mut times = Vec::new(alloc);
    for at in 0..table.len() {
        push_end(&mut times, table.at(at))?;
    }
    Ok(EndTimes::from_vec(times))
}

// Adds when an exchange of a subscription closes.
fn push_end(times: &mut Vec<EndTime>, x: &Exchange) -> Result<(), AllocError>
    ensures { OnOk result (times.new.items ≡ times.old.items ++ end_of_one x.now) }
{
    let Some(subscription) = x.subscription else {
        return Ok(());
    };
    let Some(ms) = end_in(x.owed.as_slice()) else {
        return Ok(());
    };
    times.push(EndTime { subscription, ms })?;
    Ok(())
}

// From when on what is owed closes its exchange, where one of it was sent five times.
fn end_in(owed: &[Owed]) -> Option<u64>
    ensures { result ≡ end_from None owed.now }
{
    let mut end = None;
    for o in owed {
        let next = end_with(end, o);
        end = next;
    }
    end
}

// The end that is known with one message more.
fn end_with(end: Option<u64>, o: &Owed) -> Option<u64>
    ensures { result ≡ end_with_one end o.now }
{
    if o.sendings != SENDINGS {
        return end;
    }
    let close = o.last.saturating_add(LAST_WAIT);
    match end {
        Some(before) => Some(before.min(close)),
        None => Some(close),
    }
}
