//! The events of a soak, one after the other.

ghost use Rattle.std.specs.Prelude.{◌≡◌, ◌+◌, ◌<◌, IfOk, OnOk, OnErr};
ghost use Rattle.mt_im.specs.Requests.{opcode_of};
ghost use Rattle.mt_soak.specs.Generated.{asks, begun, behind, event_at, event_of, time_of};

use crate::requests::{
    ACCESS_LIST, BENCH_LIST, ENDPOINT_ONE, NODE_LABEL, ON_OFF, bench_items, label, read_of,
    subscription_to, toggle_request, write_of,
};
use crate::turn::{Turn, fabric_of, is_subscribe, moved, turn_of, upper_half};
use mt_im_out::encode_request;
use mt_model::{Event, Request, opcode};
use std::alloc::{AllocError, Global};
use std::marker::Model;

/// The most events that a generator makes.
pub const EVENTS: u32 = 100_000;

// How many subscriptions a fabric asks for.
const SUBSCRIPTIONS: u8 = 3;

/// Makes a long input for a node of so many fabrics out of a number. The same two numbers make the same
/// events. Contracts see its state, as a definition has it.
#[derive(Drop)]
pub struct Generator {
    // What the last draw left.
    number: u64,
    fabrics: u8,
    answered: u32,
    // How many subscriptions each fabric asked for, by its index.
    subscribed: [u8; 256],
}

impl Model for Generator {
    ghost use Rattle.mt_soak.specs.Generated.{State};

    ghost Value = { State };

    ghost view = { λ g. record { number = g.number; fabrics = g.fabrics; answered = g.answered; subscribed = g.subscribed } };
}

impl Generator {
    /// In front of the first event. It takes no memory.
    #[tactic(auto, unfolding(crate::specs::Generated::begun))]
    pub fn new(begin: u64, fabrics: u8) -> Generator
        ensures begun { result ≡ begun begin fabrics }
        ensures none { result.answered ≡ 0 }
    {
        Generator {
            number: begin,
            fabrics,
            answered: 0,
            subscribed: [0; 256],
        }
    }

    /// How many events it has made.
    pub fn answered(&self) -> u32
        ensures { result ≡ self.now.answered }
    {
        self.answered
    }

    /// The next event. Where memory runs out, the generator is as before, and may be asked again.
    #[tactic(auto, unfolding(crate::specs::Generated::event_of, crate::specs::Generated::behind))]
    pub fn next(&mut self, alloc: Global) -> Result<Event, AllocError>
        requires { self.old.answered < 100000 }
        ensures event { IfOk result (λ event. event ≡ event_of self.old) }
        ensures behind { OnOk result (self.new ≡ behind self.old) }
        ensures counted { OnOk result (self.new.answered ≡ self.old.answered + 1) }
        ensures err { OnErr result (self.new ≡ self.old) }
    {
        let first = moved(self.number);
        let second = moved(first);
        let fabric = fabric_of(self.fabrics, upper_half(first));
        let turn = turn_of(self.fabrics, upper_half(second));
        let asked = self.subscribed[fabric as usize];
        let event = event_at(alloc, turn, self.answered + 1, fabric, asked)?;
        self.number = second;
        self.answered += 1;
        if is_subscribe(turn) && asked < SUBSCRIPTIONS {
            self.subscribed[fabric as usize] = asked + 1;
        }
        Ok(event)
    }
}

// The event of this number, on the turn of a fabric that asked for so many subscriptions before.
fn event_at(
    alloc: Global,
    turn: Turn,
    number: u32,
    fabric: u8,
    asked: u8,
) -> Result<Event, AllocError>
    ensures { IfOk result (λ event. event ≡ event_at turn number fabric asked) }
{
    match turn {
        Turn::ReadOnOff => asks(alloc, number, fabric, read_of(alloc, ON_OFF, true)?),
        Turn::Toggle => asks(alloc, number, fabric, toggle_request(alloc)),
        Turn::WriteLabel => {
            let label = label(alloc, number)?;
            asks(alloc, number, fabric, write_of(alloc, NODE_LABEL, label)?)
        }
        Turn::ReadEndpoint => asks(alloc, number, fabric, read_of(alloc, ENDPOINT_ONE, true)?),
        Turn::ReplaceBench => {
            let items = bench_items(alloc, number)?;
            asks(alloc, number, fabric, write_of(alloc, BENCH_LIST, items)?)
        }
        Turn::ReadAccess => asks(alloc, number, fabric, read_of(alloc, ACCESS_LIST, false)?),
        Turn::Subscribe if asked < SUBSCRIPTIONS => {
            asks(alloc, number, fabric, subscription_to(alloc, ON_OFF)?)
        }
        Turn::Subscribe => Ok(Event::Report {
            ms: time_of(number),
            fabric,
            subscription: 1 + number % 3,
        }),
        Turn::Tick => Ok(Event::Tick {
            ms: time_of(number),
        }),
    }
}

// A request of node 1 of the fabric.
#[tactic(auto, unfolding(crate::specs::Generated::asks))]
fn asks(alloc: Global, number: u32, fabric: u8, request: Request) -> Result<Event, AllocError>
    ensures { IfOk result (λ event. event ≡ asks number fabric request) }
{
    Ok(Event::Ask {
        ms: time_of(number),
        fabric,
        node: 1,
        cats: [0; 3],
        opcode: opcode_of(&request),
        payload: encode_request(alloc, &request)?,
    })
}

fn opcode_of(request: &Request) -> u8
    ensures { result ≡ opcode_of request.now }
{
    match request {
        Request::Status { .. } => opcode::STATUS_RESPONSE,
        Request::Read { .. } => opcode::READ_REQUEST,
        Request::Subscribe { .. } => opcode::SUBSCRIBE_REQUEST,
        Request::Write { .. } => opcode::WRITE_REQUEST,
        Request::Invoke { .. } => opcode::INVOKE_REQUEST,
        Request::Timed { .. } => opcode::TIMED_REQUEST,
    }
}

// When the event of this number is, in ms.
fn time_of(number: u32) -> u64
    ensures { result ≡ time_of number }
{
    100 * number as u64
}
