//! A bridge: what waits either way, what is to be done next, and what is to be asked of the shell.
ghost use Rattle.std.specs.Prelude.{◌≡◌, [], ◌++◌, ◌≤◌, take, drop, length, min, IfOk};
ghost use Rattle.octet_rings.specs.Places.{most_octets};
ghost use Rattle.bridge_ports.specs.Bridges.{begun, has_call, is_free, may_take, most_message, new_bridge, order_of, ordered, turn_of, with_call, with_connection, written_order, own_turn};

use crate::phases::{BridgeTerms, CallPhase, Connection, FarEnd, FarSide, OwnSide, Phases};
use octet_rings::OctetRing;
use std::alloc::{AllocError, Global};
use std::marker::Model;

/// How many octets a message of a bridge has at most.
pub const MOST_MESSAGE: usize = 1024;

/// What is to be asked of the network next, besides taking.
#[derive(Clone, Copy)]
pub enum Turn {
    /// Nothing.
    Rest,
    /// The call that came is to be answered.
    Answer,
    /// The call that came is to be refused.
    Refuse,
    /// A call is to be placed.
    Call,
    /// The first octets that wait are to be said.
    Say,
    /// An empty message with D = 1 is to be said: the end of this side.
    SayEnd,
    /// It is to be asked whether that is confirmed.
    AwaitConfirmation,
    /// The call is to be cleared.
    Clear,
}

/// What is to be done to the connection.
#[derive(Clone, Copy)]
pub enum Order {
    /// One is to be made.
    Connect,
    /// It is to be ended for writing, and read on.
    EndWriting,
    /// It is to be closed, with what was not read left unread. It is told once that is done.
    Close,
}

/// One TCP connection's side of one call.
#[derive(Drop)]
pub struct Bridge {
    pub(crate) terms: BridgeTerms,
    pub(crate) input: OctetRing,
    pub(crate) output: OctetRing,
    pub(crate) phases: Phases,
}

impl Model for Bridge {
    ghost use Rattle.bridge_ports.specs.Bridges.{BridgeState};

    ghost Value = { BridgeState };

    ghost view = { λ b. record { terms = b.terms; input = b.input; output = b.output; phases = b.phases } };
}

impl Bridge {
    /// A bridge without a call and a connection. `AllocError` comes for want of memory; no other call wants any.
    pub fn new(alloc: Global) -> Result<Self, AllocError>
        ensures { IfOk result (λ bridge. bridge ≡ new_bridge) }
    {
        let input = OctetRing::new(alloc)?;
        let output = OctetRing::new(alloc)?;
        Ok(Bridge {
            terms: BridgeTerms::none(),
            input,
            output,
            phases: Phases::absent(),
        })
    }

    /// Whether it has neither a call nor a connection.
    pub fn is_free(&self) -> bool
        ensures { result ≡ is_free self.now }
    {
        matches!(self.phases.call, CallPhase::Idle)
            && matches!(self.phases.connection, Connection::Absent)
    }

    /// Whether it has a call, or is to place one.
    pub fn has_call(&self) -> bool
        ensures { result ≡ has_call self.now }
    {
        !matches!(self.phases.call, CallPhase::Idle)
    }

    /// Takes over a call that came, and wants a connection for it, on which `hello` is written first. Nothing changes if it
    /// is not free.
    pub fn ring(&mut self, terms: BridgeTerms, far_end: FarEnd, hello: &[u8])
        ensures { self.new ≡ with_call terms far_end hello.now self.old }
    {
        if self.is_free() {
            self.start(terms, Phases::rung(far_end, terms.wait), hello);
        }
    }

    /// Takes over a connection that came, and wants a call for it. Nothing changes if it is not free.
    pub fn attach(&mut self, terms: BridgeTerms, far_end: FarEnd)
        ensures { self.new ≡ with_connection terms far_end self.old }
    {
        if self.is_free() {
            self.start(terms, Phases::attached(far_end), &[]);
        }
    }

    fn start(&mut self, terms: BridgeTerms, phases: Phases, hello: &[u8])
        ensures { self.new ≡ begun terms hello.now phases }
    {
        self.terms = terms;
        self.input.clear();
        refill(&mut self.output, hello);
        self.phases = phases;
    }

    /// What is to be asked of the network next, besides taking.
    pub fn turn(&self) -> Turn
        ensures { result ≡ turn_of self.now }
    {
        match self.phases.call {
            CallPhase::ToAnswer => Turn::Answer,
            CallPhase::ToRefuse => Turn::Refuse,
            CallPhase::ToPlace => Turn::Call,
            CallPhase::ToClear => Turn::Clear,
            CallPhase::Standing if self.input.len() > 0 => Turn::Say,
            CallPhase::Standing => self.own_turn(),
            CallPhase::Idle | CallPhase::Incoming | CallPhase::Placed => Turn::Rest,
        }
    }

    fn own_turn(&self) -> Turn
        ensures { result ≡ own_turn self.now.terms.linger self.now.phases.far self.now.phases.own }
    {
        match self.phases.own {
            OwnSide::Speaking => Turn::Rest,
            OwnSide::Ended => Turn::SayEnd,
            OwnSide::EndSaid => Turn::AwaitConfirmation,
            OwnSide::EndConfirmed(quiet) => {
                if !matches!(self.phases.far, FarSide::Coming) || quiet >= self.terms.linger {
                    Turn::Clear
                } else {
                    Turn::Rest
                }
            }
        }
    }

    /// Whether the next packet is to be taken: the call stands, and there is room for any.
    pub fn takes(&self) -> bool
        ensures { result ≡ may_take self.now }
    {
        matches!(self.phases.call, CallPhase::Standing) && self.output.room() >= MOST_MESSAGE
    }

    /// The first octets that wait to be said, in two pieces: `most` of them at most, and no more than [`MOST_MESSAGE`].
    pub fn message(&self, most: usize) -> (&[u8], &[u8])
        ensures { result.0.now ++ result.1.now ≡ take (min most most_message) self.now.input }
    {
        self.input.front(most.min(MOST_MESSAGE))
    }

    /// How many octets of the peer wait to be said.
    pub fn waiting_to_say(&self) -> usize
        ensures { result ≡ length self.now.input }
    {
        self.input.len()
    }

    /// How many octets wait to be written.
    pub fn waiting_to_write(&self) -> usize
        ensures { result ≡ length self.now.output }
    {
        self.output.len()
    }

    /// What is to be done to the connection next, if anything. Each order is given once.
    pub fn order(&mut self) -> Option<Order>
        ensures given { result ≡ order_of self.old }
        ensures after { self.new ≡ record self.old { phases = ordered (order_of self.old) self.old.phases } }
    {
        let order = self.next_order()?;
        match order {
            Order::Connect => self.phases.connection = self.phases.connection.awaited(),
            Order::EndWriting => self.phases.far = FarSide::Shut,
            Order::Close => self.phases.connection = Connection::Closed,
        }
        Some(order)
    }

    fn next_order(&self) -> Option<Order>
        ensures { result ≡ order_of self.now }
    {
        match self.phases.connection {
            Connection::Wanted(_) => Some(Order::Connect),
            Connection::Closing => Some(Order::Close),
            connection if self.output.len() == 0 => {
                written_order(connection, self.phases.far, self.phases.own)
            }
            _ => None,
        }
    }
}

/// Fills a ring anew.
fn refill(ring: &mut OctetRing, octets: &[u8])
    ensures { ring.new ≡ take most_octets octets.now }
{
    ring.clear();
    ring.fill(octets);
}

/// What is to be done to a connection to which all is written.
fn written_order(connection: Connection, far: FarSide, own: OwnSide) -> Option<Order>
    ensures { result ≡ written_order connection far own }
{
    match (connection, far, own) {
        (Connection::Open | Connection::Flushing(_), FarSide::EndTaken, _) => {
            Some(Order::EndWriting)
        }
        (Connection::Flushing(_), _, OwnSide::Speaking) => None,
        (Connection::Flushing(_), _, _) => Some(Order::Close),
        _ => None,
    }
}
