//! A network with terminals for clients and built-in services.
ghost use Rattle.std.specs.Prelude.{◌≡◌, ◌≤◌, ◌+◌, ◌-◌, true, length, min, take, slice_get, None, Some, IfOk, IfSome, IfNone};
ghost use Rattle.net_process.specs.Carrying.{elapsed as process_elapsed};
ghost use Rattle.service.specs.AllBridges.{AreOnOwnChannels};
ghost use Rattle.service.specs.Bridging.{are_free};
ghost use Rattle.service.specs.Calls.{call_of};
ghost use Rattle.service.specs.Orders.{after_order, port_of};
ghost use Rattle.service.specs.Places.{AreApart};
ghost use Rattle.service.specs.Serving.{Begins};
ghost use Rattle.service.specs.Terminals.{has_parted, ordered, stopping_after};

use crate::absent::{PadBinding, leave_absent};
use crate::bridges::{BridgeBindings, Bridges};
use crate::calls::{CallStatus, Calls, NotedCall};
use crate::exchange::Exchange;
use crate::hosts::{HostBinding, Hosts};
use crate::mail::Mail;
use crate::passing::Passing;
use crate::place::Place;
use crate::rounds::serve_terminals;
use crate::seats::{Seats, TerminalsBinding};
use crate::terminal::{Phase, Terminal};
use frame_codec::FrameBuf;
use line_sim::Line;
use net_process::Process;
use std::alloc::{AllocError, Global};

/// How long the service may take to stop, in ticks: until all is written out and the calls are cleared.
const MOST_STOPPING: u16 = 160;

/// How long it may still take once nobody is there, in ticks, if there are lines to other processes: what clears its calls
/// goes to the partners until then. Whether they have it is not known here.
const MOST_PARTING: u16 = 20;

/// What of a network is served: the tables of terminals, all PADs and all hosts. A terminal of these PADs that is in no
/// table stays absent.
#[derive(Clone, Copy)]
pub struct Bindings<'a> {
    pub terminals: &'a [TerminalsBinding<'a>],
    pub pads: &'a [PadBinding],
    pub hosts: &'a [HostBinding],
    pub bridges: BridgeBindings<'a>,
}

/// What the shell is to do.
#[derive(Clone, Copy)]
pub enum Order {
    /// The connection of this port is to be closed.
    Close(usize),
    /// A connection to this service is to be made for this port.
    Connect { port: usize, service: usize },
    /// The connection of this port is to be ended for writing, and read on.
    EndWriting(usize),
    /// It is to be logged that so many keys of this port were dropped because a recall or a break came after them.
    LogOvertaken { port: usize, keys: u64 },
    /// It is to be logged that the client of this port goes because it was silent too long.
    LogIdle(usize),
    /// It is to be logged what became of a call.
    LogCall(NotedCall),
    /// It is to be logged that so many notes of calls were dropped for want of a place.
    LogMissed(u64),
}

/// What waits at a port.
#[derive(Clone, Copy)]
pub struct PortStatus {
    /// Whether a client has it, or one has gone and the next cannot have it yet.
    pub in_use: bool,
    /// How many keys wait to be typed.
    pub keys: usize,
    /// How many octets wait to be written.
    pub octets: usize,
    /// How many keys of this client were dropped.
    pub overtaken: u64,
}

/// A network with terminals for clients, each at the port of its place in the tables, and built-in services.
#[derive(Drop)]
pub struct Service<L: Line> {
    pub(crate) exchange: Exchange<L>,
    pub(crate) lines: usize,
    pub(crate) places: Vec<Place>,
    pub(crate) terminals: Vec<Terminal>,
    pub(crate) bridges: Bridges,
    pub(crate) pads: Vec<PadBinding>,
    stopping: Option<u16>,
    ghost seated: { length terminals.items ≡ length places.items },
    ghost apart: { AreApart places.items },
    ghost channels: { AreOnOwnChannels bridges.ports.items },
}

#[tactic(auto, using(crate::proofs::EachBridge::own_from))]
impl<L: Line> Service<L> {
    ghost use Rattle.service.specs.Terminals.{AllChange, HasCome, changed_at, elapsed, ended, freed, has_client, are_deserted, has_stopped, heard, is_free_in, left, may_take, status_of, written};
    ghost use Rattle.service.specs.AllBridges.{AreFirst, bridge_at, changed_at as bridge_changed_at, peer_ended, with_phases};
    ghost use Rattle.service.specs.declared.bridges.BridgePort.{BridgePort};
    ghost use Rattle.service.specs.declared.terminal.Terminal.{Terminal};
    ghost use Rattle.bridge_ports.specs.Bridges as bridge_state;
    ghost use Rattle.bridge_ports.specs.Phases as bridge_phase;
    ghost use Rattle.std.specs.Prelude.{position, is_some, if◌then◌else◌, ◌&&◌};

    /// A service without clients on a network of so many lines: nobody is at the terminals of the PADs.
    pub fn new(
        alloc: Global,
        net: Process<L>,
        lines: usize,
        bindings: &Bindings<'_>,
    ) -> Result<Self, AllocError>
        ensures begins { IfOk result (λ service. Begins L.service bindings.now.terminals.now bindings.now.pads.now net
            service.exchange.net service.places.items service.terminals.items) }
        ensures lines { IfOk result (λ service. service.lines ≡ lines) }
    {
        let mut exchange = Exchange {
            alloc,
            net,
            hosts: Hosts::new(alloc, bindings.hosts)?,
            calls: Calls::new(alloc, bindings.hosts, bindings.pads)?,
            mail: Mail::new(alloc, &bindings.bridges)?,
            seconds: 0,
            came: FrameBuf::new(),
            passing: Passing::new(),
        };
        let Seats {
            places,
            mut terminals,
        } = Seats::new(alloc, bindings.terminals)?;
        leave_absent(&mut exchange, bindings.pads, &places);
        serve_terminals(&mut exchange, &places, &mut terminals);
        Ok(Service {
            exchange,
            lines,
            places,
            terminals,
            bridges: Bridges::new(alloc, &bindings.bridges)?,
            pads: bindings.pads.to_vec(alloc)?,
            stopping: None,
        })
    }

    /// A client came to the listener of a table. It gets the table's lowest terminal that is free, and the answer is its
    /// port; none if none is free, or the service stops.
    pub fn attach(&mut self, table: usize) -> Option<usize>
        ensures which { result ≡ if is_some self.old.stopping then None
            else position (is_free_in table) self.old.terminals.items }
        ensures came { IfSome result (HasCome self.old.terminals.items self.new.terminals.items) }
        ensures none { IfNone result (self.new.terminals.items ≡ self.old.terminals.items) }
        ensures network { self.new.exchange.net ≡ self.old.exchange.net }
    {
        if self.stopping.is_some() {
            return None;
        }
        let port = self.first_free(table)?;
        self.terminals[port].attach();
        Some(port)
    }

    /// A connection came to the listener of a caller. The answer is its port; none if no bridge is free, or the service
    /// stops.
    pub fn attach_caller(&mut self, caller: usize) -> Option<usize>
        ensures terminals { self.new.terminals ≡ self.old.terminals }
        ensures network { self.new.exchange.net ≡ self.old.exchange.net }
    {
        let place = self.bridges.attach(caller)?;
        self.terminals.len().checked_add(place)
    }

    /// The port of the first bridge.
    fn first_bridge(&self) -> usize
        ensures { result ≡ length self.now.terminals.items }
    {
        self.terminals.len()
    }

    /// The place among the bridges of a port that is no terminal's.
    fn bridge_place(&self, port: usize) -> usize
        ensures { result ≡ port - length self.now.terminals.items }
    {
        port.saturating_sub(self.terminals.len())
    }

    /// The connection stands that was ordered for this port.
    pub fn opened(&mut self, port: usize)
        ensures terminals { self.new.terminals ≡ self.old.terminals }
        ensures bridge { self.new.bridges.ports.items ≡ bridge_changed_at port (with_phases bridge_phase.opened)
            self.old.terminals.items self.old.bridges.ports.items }
        ensures network { self.new.exchange.net ≡ self.old.exchange.net }
    {
        let place = self.bridge_place(port);
        match self.terminals.get(port) {
            Some(_) => {}
            None => self.bridges.opened(place),
        }
    }

    fn first_free(&self, table: usize) -> Option<usize>
        ensures { result ≡ position (is_free_in table) self.now.terminals.items }
    {
        self.terminals
            .iter()
            .position(|terminal| terminal.is_free_in(table))
    }

    /// Takes octets of a client, from the first on, as long as there is room. The answer is how many were taken.
    pub fn octets(&mut self, port: usize, octets: &[u8]) -> usize
        ensures within { result ≤ length octets.now }
        ensures taken { self.new.terminals.items ≡ changed_at port (heard (take result octets.now)) self.old.terminals.items }
        ensures bridge_count { (b : BridgePort) → bridge_at port self.old.terminals.items self.old.bridges.ports.items ≡ Some b
            → result ≡ bridge_state.heard_count octets.now b.bridge }
        ensures bridge { self.new.bridges.ports.items ≡ bridge_changed_at port (bridge_state.heard (take result octets.now))
            self.old.terminals.items self.old.bridges.ports.items }
        ensures network { self.new.exchange.net ≡ self.old.exchange.net }
    {
        let place = self.bridge_place(port);
        match self.terminals.get_mut(port) {
            Some(terminal) => terminal.hear(octets),
            None => self.bridges.octets(place, octets),
        }
    }

    /// The peer of a port sends no more. A terminal's client is gone.
    pub fn ended(&mut self, port: usize)
        ensures port { self.new.terminals.items ≡ changed_at port left self.old.terminals.items }
        ensures bridge { self.new.bridges.ports.items ≡ bridge_changed_at port (with_phases peer_ended)
            self.old.terminals.items self.old.bridges.ports.items }
        ensures network { self.new.exchange.net ≡ self.old.exchange.net }
    {
        let place = self.bridge_place(port);
        match self.terminals.get_mut(port) {
            Some(terminal) => terminal.leave(),
            None => self.bridges.ended(place),
        }
    }

    /// The connection of a port is lost, or could not be had.
    pub fn lost(&mut self, port: usize)
        ensures port { self.new.terminals.items ≡ changed_at port left self.old.terminals.items }
        ensures bridge { self.new.bridges.ports.items ≡ bridge_changed_at port (with_phases bridge_phase.broken)
            self.old.terminals.items self.old.bridges.ports.items }
        ensures network { self.new.exchange.net ≡ self.old.exchange.net }
    {
        let place = self.bridge_place(port);
        match self.terminals.get_mut(port) {
            Some(terminal) => terminal.leave(),
            None => self.bridges.lost(place),
        }
    }

    /// The connection of a port was closed, so another client may have it.
    pub fn closed(&mut self, port: usize)
        ensures port { self.new.terminals.items ≡ changed_at port freed self.old.terminals.items }
        ensures bridge { self.new.bridges.ports.items ≡ bridge_changed_at port (with_phases bridge_phase.closed)
            self.old.terminals.items self.old.bridges.ports.items }
        ensures network { self.new.exchange.net ≡ self.old.exchange.net }
    {
        let place = self.bridge_place(port);
        match self.terminals.get_mut(port) {
            Some(terminal) => {
                terminal.leave();
                terminal.phase = Phase::Free;
            }
            None => self.bridges.closed(place),
        }
    }

    /// The client of a port is to go once what waits is written out.
    pub fn end(&mut self, port: usize)
        ensures port { self.new.terminals.items ≡ changed_at port ended self.old.terminals.items }
        ensures bridge { self.new.bridges.ports.items ≡ bridge_changed_at port (with_phases bridge_phase.dismissed)
            self.old.terminals.items self.old.bridges.ports.items }
        ensures network { self.new.exchange.net ≡ self.old.exchange.net }
    {
        let place = self.bridge_place(port);
        match self.terminals.get_mut(port) {
            Some(terminal) => terminal.end(),
            None => self.bridges.end(place),
        }
    }

    /// Lets ticks pass, each a twentieth of a second.
    pub fn elapse(&mut self, ticks: u16)
        ensures ports { AllChange (elapsed ticks) self.old.terminals.items self.new.terminals.items }
        ensures network { self.new.exchange.net ≡ process_elapsed ticks self.old.exchange.net }
        ensures stopping { self.new.stopping ≡ stopping_after ticks (has_parted self.new.terminals.items
            (are_free self.new.bridges.ports.items) self.new.exchange.net) self.old.stopping }
    {
        self.exchange.net.elapse(ticks);
        for port in 0..self.terminals.len() {
            self.terminals[port].elapse(ticks);
        }
        self.bridges.elapse(ticks);
        if let Some(left) = self.stopping {
            let most = if self.has_parted() {
                left.min(MOST_PARTING)
            } else {
                left
            };
            self.stopping = Some(most.saturating_sub(ticks));
        }
    }

    /// Whether nobody is there and all bridges are free, in a network with lines to other processes.
    fn has_parted(&self) -> bool
        ensures { result ≡ has_parted self.now.terminals.items (are_free self.now.bridges.ports.items)
            self.now.exchange.net }
    {
        self.is_deserted() && self.bridges.are_free() && self.exchange.net.remote_lines() > 0
    }

    /// The time, in seconds since the beginning of 1970, which the service `time` tells and calls are counted by.
    pub fn time(&mut self, seconds: i64)
        ensures seconds { self.new.exchange.seconds ≡ seconds }
        ensures terminals { self.new.terminals ≡ self.old.terminals }
        ensures network { self.new.exchange.net ≡ self.old.exchange.net }
    {
        self.exchange.seconds = seconds;
    }

    /// Stops: no client comes any more, and those that are there go once what waits is written out.
    pub fn stop(&mut self)
        ensures ports { AllChange ended self.old.terminals.items self.new.terminals.items }
        ensures network { self.new.exchange.net ≡ self.old.exchange.net }
    {
        for port in 0..self.terminals.len() {
            self.terminals[port].end();
        }
        self.bridges.stop();
        self.stopping = Some(self.stopping.unwrap_or(MOST_STOPPING));
    }

    /// Whether it has stopped: it was given time enough, or nobody is there and the network is at rest.
    pub fn has_stopped(&self) -> bool
        ensures { result ≡ has_stopped self.now.stopping self.now.terminals.items (are_free self.now.bridges.ports.items)
            self.now.exchange.net }
    {
        match self.stopping {
            None => false,
            Some(0) => true,
            Some(_) => {
                self.is_deserted() && self.bridges.are_free() && self.exchange.net.at_rest()
            }
        }
    }

    fn is_deserted(&self) -> bool
        ensures { result ≡ are_deserted self.now.terminals.items }
    {
        self.terminals.iter().all(|terminal| terminal.is_deserted())
    }

    /// Octets that wait to be written to the client of a port, from the first on: some if there are any, and not always
    /// all.
    pub fn waiting(&self, port: usize) -> &[u8]
        ensures front { (p : Terminal) → slice_get self.now.terminals.items port ≡ Some p → has_client p.phase ≡ true
            → take (length result.now) p.port.output.octets ≡ result.now }
        ensures bridge { (b : BridgePort) → bridge_at port self.now.terminals.items self.now.bridges.ports.items ≡ Some b
            → AreFirst result.now b.bridge }
    {
        match self.terminals.get(port) {
            Some(terminal) if terminal.has_client() => terminal.port.waiting(),
            Some(_) => &[],
            None => self.bridges.waiting(self.bridge_place(port)),
        }
    }

    /// The first `count` octets that wait were written.
    pub fn written(&mut self, port: usize, count: usize)
        ensures port { self.new.terminals.items ≡ changed_at port (written count) self.old.terminals.items }
        ensures bridge { self.new.bridges.ports.items ≡ bridge_changed_at port (bridge_state.written count)
            self.old.terminals.items self.old.bridges.ports.items }
        ensures network { self.new.exchange.net ≡ self.old.exchange.net }
    {
        let place = self.bridge_place(port);
        match self.terminals.get_mut(port) {
            Some(terminal) => terminal.written(count),
            None => self.bridges.written(place, count),
        }
    }

    /// Whether it takes an octet of the client of a port.
    pub fn wants(&self, port: usize) -> bool
        ensures { (p : Terminal) → slice_get self.now.terminals.items port ≡ Some p → result ≡ may_take (Some p) }
    {
        match self.terminals.get(port) {
            Some(terminal) => terminal.wants(),
            None => self.bridges.wants(self.bridge_place(port)),
        }
    }

    /// What the shell is to do next, if anything. Each order is given once.
    pub fn next_order(&mut self) -> Option<Order>
        ensures given { IfSome result (λ order.
            self.new.terminals.items ≡ after_order order self.old.terminals.items) }
        ensures none { IfNone result (self.new.terminals.items ≡ self.old.terminals.items) }
        ensures network { self.new.exchange.net ≡ self.old.exchange.net }
    {
        for port in 0..self.terminals.len() {
            if let Some(order) = order_of(port, &mut self.terminals[port]) {
                return Some(order);
            }
        }
        if let Some(order) = self.next_bridge_order() {
            return Some(order);
        }
        self.next_call_order()
    }

    fn next_bridge_order(&mut self) -> Option<Order>
        ensures given { IfSome result (λ order. self.old.terminals.items ≡ after_order order self.old.terminals.items) }
        ensures terminals { self.new.terminals ≡ self.old.terminals }
        ensures network { self.new.exchange.net ≡ self.old.exchange.net }
    {
        let first = self.first_bridge();
        self.bridges.order(first)
    }

    fn next_call_order(&mut self) -> Option<Order>
        ensures none { IfSome result (λ order. port_of order ≡ None) }
        ensures terminals { self.new.terminals ≡ self.old.terminals }
        ensures network { self.new.exchange.net ≡ self.old.exchange.net }
    {
        match self.exchange.calls.next_note() {
            Some(note) => Some(Order::LogCall(note)),
            None => Some(Order::LogMissed(self.exchange.calls.next_missed()?)),
        }
    }

    /// Gives back all that it has.
    pub fn release(self) {}

    /// How many ports there are: those of terminals, and after them those of bridges.
    pub fn ports(&self) -> usize
        ensures { result ≡ min (length self.now.terminals.items + length self.now.bridges.ports.items) usize.MAX }
    {
        self.terminals.len().saturating_add(self.bridges.len())
    }

    /// What waits at a port, if there is such a port. The keys of a bridge are the octets of its peer that wait to be said.
    pub fn status(&self, port: usize) -> Option<PortStatus>
        ensures { (p : Terminal) → slice_get self.now.terminals.items port ≡ Some p → result ≡ Some (status_of p) }
    {
        match self.terminals.get(port) {
            Some(terminal) => Some(PortStatus {
                in_use: !terminal.is_free(),
                keys: terminal.port.waiting_keys(),
                octets: terminal.port.waiting_octets(),
                overtaken: terminal.overtaken,
            }),
            None => self.bridges.status(self.bridge_place(port)),
        }
    }

    /// How many places for calls the hosts and PADs have, one for each logical channel.
    pub fn calls(&self) -> usize
        ensures { result ≡ length self.now.exchange.calls.calls.items }
    {
        self.exchange.calls.len()
    }

    /// The call of this place, from 0, if one is there.
    pub fn call(&self, place: usize) -> Option<CallStatus>
        ensures { result ≡ call_of (slice_get self.now.exchange.calls.calls.items place) }
    {
        self.exchange.calls.get(place)
    }
}

/// The next order of a port, if there is one.
fn order_of(port: usize, terminal: &mut Terminal) -> Option<Order>
    ensures given { IfSome result (λ order. (port_of order ≡ Some port) × (terminal.new ≡ ordered terminal.old)) }
    ensures none { IfNone result (terminal.new ≡ terminal.old) }
{
    if terminal.was_silent {
        terminal.was_silent = false;
        return Some(Order::LogIdle(port));
    }
    if matches!(terminal.phase, Phase::Closing) {
        terminal.phase = Phase::Closed;
        return Some(Order::Close(port));
    }
    let keys = terminal.overtaken.saturating_sub(terminal.logged);
    if keys == 0 {
        return None;
    }
    terminal.logged = terminal.overtaken;
    Some(Order::LogOvertaken { port, keys })
}
