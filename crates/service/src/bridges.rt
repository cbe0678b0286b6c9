//! The bridges of a service: connections of services and callers, and the calls at hosts that they have.
ghost use Rattle.std.specs.Prelude.{◌≡◌, ◌≤◌, true, [], length, position, slice_get, take, None, Some, IfOk, IfSome, if◌then◌else◌};
ghost use Rattle.std.specs.List.{list_any};
ghost use Rattle.bridge_ports.specs.Bridges.{has_call};
ghost use Rattle.bridge_ports.specs.Bridges as bridge_state;
ghost use Rattle.bridge_ports.specs.Phases as bridge_phase;
ghost use Rattle.service.specs.declared.bridges.BridgePort.{BridgePort};
ghost use Rattle.service.specs.declared.mail.News.TheVariants.{Cleared};
ghost use Rattle.service.specs.AllBridges.{AreFirst, AreOnOwnChannels, EndsCall, GoesThrough, GoesThroughCall, HaveNoChannels, IsHello, LeavesChannel, after_news, bridge_changed, bridged, channel_at, has_channel, is_call_of, is_free_port, kept_channel, peer_ended, with_phases};
ghost use Rattle.service.specs.Bridging.{are_free, is_calling};
ghost use Rattle.service.specs.Orders.{IsFrom, port_of};

use crate::hello::write_hello;
use crate::hosts::HostChannel;
use crate::mail::{Letter, News};
use crate::service::{Order, PortStatus};
use arrayvec::ArrayVec;
use bridge_ports::{Bridge, BridgeTerms, FarEnd, MOST_MESSAGE, Turn};
use line_sim::Event;
use packet_codec::Address;
use std::alloc::{AllocError, Global};

/// A host whose calls have a service: its number in the network, whether the service is sent first who calls, and what its
/// bridges are set to.
#[derive(Clone, Copy)]
pub struct ServiceBinding {
    pub node: usize,
    pub hello: bool,
    pub terms: BridgeTerms,
}

/// A host from which a call is placed for each connection that comes: its number in the network, the address that is
/// called, at most 16 octets of user data, and what its bridges are set to.
#[derive(Drop)]
pub struct CallerBinding {
    node: usize,
    call: Address,
    user_data: ArrayVec<u8, 16>,
    terms: BridgeTerms,
}

/// What is bridged: so many connections at most, of these services and callers, and the addresses of all PADs.
#[derive(Clone, Copy)]
pub struct BridgeBindings<'a> {
    pub connections: u16,
    pub services: &'a [ServiceBinding],
    pub callers: &'a [CallerBinding],
    pub pads: &'a [Address],
}

/// A caller, and what it asks of the network.
#[derive(Drop)]
pub(crate) struct Caller {
    pub(crate) node: usize,
    pub(crate) address: Address,
    pub(crate) user_data: ArrayVec<u8, 16>,
    terms: BridgeTerms,
}

/// Whose connection a bridge has.
#[derive(Clone, Copy)]
pub(crate) enum Owner {
    /// Nobody's.
    Nobody,
    /// That of the service of this place.
    Service(usize),
    /// That of the caller of this place.
    Caller(usize),
}

/// A bridge, the call that it has, and room for a message.
#[derive(Drop)]
pub(crate) struct BridgePort {
    pub(crate) bridge: Bridge,
    pub(crate) at: Option<HostChannel>,
    pub(crate) owner: Owner,
    pub(crate) message: Vec<u8>,
}

/// All bridges.
#[derive(Drop)]
pub(crate) struct Bridges {
    pub(crate) ports: Vec<BridgePort>,
    pub(crate) callers: Vec<Caller>,
    services: Vec<ServiceBinding>,
    pads: Vec<Address>,
    stopping: bool,
}

impl BridgePort {
    fn new(alloc: Global) -> Result<Self, AllocError>
        ensures { IfOk result (λ port. port.at ≡ None) }
    {
        Ok(BridgePort {
            bridge: Bridge::new(alloc)?,
            at: None,
            owner: Owner::Nobody,
            message: Vec::with_capacity(alloc, MOST_MESSAGE)?,
        })
    }

    /// Whether it has the call of this channel.
    fn is_at(&self, at: HostChannel) -> bool
        ensures { result ≡ has_channel at self.now }
    {
        match self.at {
            Some(own) => own.node == at.node && own.channel == at.channel,
            None => false,
        }
    }

    /// Forgets the channel of its call, if it has none any more.
    pub(crate) fn forget_call(&mut self)
        ensures bridge { self.new.bridge ≡ self.old.bridge }
        ensures at { self.new.at ≡ kept_channel (has_call self.old.bridge) self.old.at }
        ensures owner { self.new.owner ≡ self.old.owner }
    {
        if !self.bridge.has_call() {
            self.at = None;
        }
    }

    /// Its call is over.
    fn end_call(&mut self)
        ensures hears { bridged self.new ≡ after_news (Cleared 0 0) (bridged self.old) }
        ensures gone { self.new.at ≡ None }
    {
        self.bridge.call_ended(0, 0);
        self.at = None;
    }

    /// Hears what became of its call.
    fn hear(&mut self, news: &News)
        ensures { bridged self.new ≡ after_news news.now (bridged self.old) }
    {
        match *news {
            News::Rings { .. } => {}
            News::Connected => self.bridge.connected(),
            News::Cleared { cause, diagnostic } => {
                self.bridge.call_ended(cause, diagnostic);
                self.forget_call();
            }
            News::Reset => self.bridge.reset(),
        }
    }
}

impl CallerBinding {
    /// The calls of this host go to this address, with these octets of user data, or none if there are over 16.
    pub fn new(node: usize, call: Address, user_data: &[u8], terms: BridgeTerms) -> Self {
        CallerBinding {
            node,
            call,
            user_data: kept(user_data),
            terms,
        }
    }

    /// The number of the host.
    pub(crate) fn node(&self) -> usize {
        self.node
    }
}

impl Caller {
    fn new(binding: &CallerBinding) -> Self {
        Caller {
            node: binding.node,
            address: binding.call,
            user_data: kept(binding.user_data.as_slice()),
            terms: binding.terms,
        }
    }

    /// The event of its call.
    pub(crate) fn call(&self) -> Event
        ensures calling { is_calling result ≡ true }
        ensures of_node { is_call_of self.now.node result ≡ true }
    {
        Event::Call {
            node: self.node,
            address: self.address,
            user_data: kept(self.user_data.as_slice()),
        }
    }
}

/// So many bridges, without calls.
fn new_ports(alloc: Global, count: u16) -> Result<Vec<BridgePort>, AllocError>
    ensures { IfOk result (λ ports. HaveNoChannels ports.items) }
{
    let mut ports = Vec::new(alloc);
    for _ in 0..count {
        ports.push(BridgePort::new(alloc)?)?;
    }
    Ok(ports)
}

/// Writes what the peer of a call that came is written first: who calls, if the service is told that and there is memory
/// for it.
fn write_first(
    message: &mut Vec<u8>,
    hello: bool,
    calling: &Option<Address>,
    called: &Option<Address>,
    user_data: &[u8],
)
    ensures { IsHello message.new.items }
{
    if !hello || write_hello(message, calling, called, user_data).is_err() {
        message.clear();
    }
}

/// User data, kept in place; none if there are over 16 octets.
pub(crate) fn kept(user_data: &[u8]) -> ArrayVec<u8, 16> {
    let mut kept = ArrayVec::new();
    let _ = kept.try_extend_from_slice(user_data);
    kept
}

impl Bridges {
    /// These bridges, without calls. `AllocError` comes for want of memory; no other call wants any.
    pub(crate) fn new(alloc: Global, bindings: &BridgeBindings<'_>) -> Result<Self, AllocError>
        ensures { IfOk result (λ bridges. AreOnOwnChannels bridges.ports.items) }
    {
        let ports = new_ports(alloc, bindings.connections)?;
        let mut callers = Vec::new(alloc);
        for binding in bindings.callers {
            callers.push(Caller::new(binding))?;
        }
        Ok(Bridges {
            ports,
            callers,
            services: bindings.services.to_vec(alloc)?,
            pads: bindings.pads.to_vec(alloc)?,
            stopping: false,
        })
    }

    /// Hears what a host was told. The answer is whether a call came for which no bridge is free: it is to be refused.
    pub(crate) fn hear(&mut self, letter: &Letter) -> bool
        ensures { GoesThrough [] self.old.ports.items self.new.ports.items }
    {
        match letter.news {
            News::Rings {
                ref calling,
                ref called,
                ref user_data,
            } => !self.ring(letter.at, calling, called, user_data.as_slice()),
            News::Connected | News::Cleared { .. } | News::Reset => {
                self.tell(letter.at, &letter.news);
                false
            }
        }
    }

    /// Tells the bridge that has the call of a channel what became of it.
    fn tell(&mut self, at: HostChannel, news: &News)
        ensures { GoesThrough [] self.old.ports.items self.new.ports.items }
    {
        let Some(place) = self.place_of(at) else {
            return;
        };
        self.ports[place].hear(news);
    }

    /// A call that a bridge still has on a channel is over.
    fn end_call(&mut self, at: HostChannel)
        ensures { EndsCall at self.old.ports.items self.new.ports.items }
    {
        let Some(place) = self.place_of(at) else {
            return;
        };
        self.ports[place].end_call();
    }

    /// A call that a bridge still has on this channel, if it is one, is over.
    fn leave_channel(&mut self, at: Option<HostChannel>)
        ensures { LeavesChannel at self.old.ports.items self.new.ports.items }
    {
        match at {
            Some(at) => self.end_call(at),
            None => {}
        }
    }

    /// The place of the bridge that has the call of a channel.
    fn place_of(&self, at: HostChannel) -> Option<usize>
        ensures { result ≡ position (has_channel at) self.now.ports.items }
    {
        self.ports.iter().position(|port| port.is_at(at))
    }

    /// Whether a bridge has the call of a channel.
    pub(crate) fn have(&self, at: HostChannel) -> bool
        ensures { result ≡ list_any (has_channel at) self.now.ports.items }
    {
        self.ports.iter().any(|port| port.is_at(at))
    }

    /// The channel of the call that the bridge of a place has, if it has one.
    pub(crate) fn channel(&self, place: usize) -> Option<HostChannel>
        ensures { result ≡ channel_at place self.now.ports.items }
    {
        match self.ports.get(place) {
            Some(port) => port.at,
            None => None,
        }
    }

    /// A call came: the first free bridge has it, and wants a connection. The answer is whether there was one. A call that a
    /// bridge still has on its channel is over.
    fn ring(
        &mut self,
        at: HostChannel,
        calling: &Option<Address>,
        called: &Option<Address>,
        user_data: &[u8],
    ) -> bool
        ensures { GoesThrough [] self.old.ports.items self.new.ports.items }
    {
        let far_end = match calling {
            Some(calling) => self.far_end(calling),
            None => FarEnd::Host,
        };
        self.end_call(at);
        let Some(place) = self.service_of(at.node) else {
            return false;
        };
        let Some(service) = self.services.get(place) else {
            return false;
        };
        let service = *service;
        let Some(free) = self.free_port() else {
            return false;
        };
        let port = &mut self.ports[free];
        write_first(&mut port.message, service.hello, calling, called, user_data);
        port.bridge
            .ring(service.terms, far_end, port.message.as_slice());
        port.at = Some(at);
        port.owner = Owner::Service(place);
        true
    }

    /// The place of the service of a host.
    fn service_of(&self, node: usize) -> Option<usize> {
        self.services
            .iter()
            .position(|service| service.node == node)
    }

    /// The caller whose call the bridge of a place is to place, if it is to place one.
    pub(crate) fn caller_of(&self, place: usize) -> Option<&Caller> {
        let port = self.ports.get(place)?;
        match (port.bridge.turn(), port.owner) {
            (Turn::Call, Owner::Caller(caller)) => self.callers.get(caller),
            _ => None,
        }
    }

    /// The call of the bridge of a place was placed on this channel, or could not be. A call that a bridge still has on the
    /// channel is over.
    pub(crate) fn placed(&mut self, place: usize, at: Option<HostChannel>)
        ensures { GoesThroughCall at self.old.ports.items self.new.ports.items }
    {
        self.leave_channel(at);
        if let Some(port) = self.ports.get_mut(place) {
            port.bridge.placed(at.is_some());
            port.at = at;
        }
    }

    /// A connection came to a caller: the first free bridge has it, and the answer is its place.
    pub(crate) fn attach(&mut self, caller: usize) -> Option<usize>
        ensures { AreOnOwnChannels self.old.ports.items → AreOnOwnChannels self.new.ports.items }
    {
        let binding = self.callers.get(caller)?;
        let terms = binding.terms;
        let far_end = self.far_end(&binding.address);
        let place = self.free_port()?;
        let port = self.ports.get_mut(place)?;
        port.bridge.attach(terms, far_end);
        port.at = None;
        port.owner = Owner::Caller(caller);
        Some(place)
    }

    /// The first bridge that is free; none once the service stops.
    fn free_port(&self) -> Option<usize>
        ensures { result ≡ (if self.now.stopping then None else position is_free_port self.now.ports.items) }
    {
        if self.stopping {
            return None;
        }
        self.first_free()
    }

    fn first_free(&self) -> Option<usize>
        ensures { result ≡ position is_free_port self.now.ports.items }
    {
        self.ports.iter().position(|port| port.bridge.is_free())
    }

    /// What is at the far end of a call from or to this address.
    fn far_end(&self, address: &Address) -> FarEnd {
        if self.pads.iter().any(|pad| pad.digits() == address.digits()) {
            FarEnd::Pad
        } else {
            FarEnd::Host
        }
    }

    /// The connection of a bridge stands.
    pub(crate) fn opened(&mut self, place: usize)
        ensures { self.new.ports.items ≡ bridge_changed place (with_phases bridge_phase.opened) self.old.ports.items }
    {
        if let Some(port) = self.ports.get_mut(place) {
            port.bridge.opened();
        }
    }

    /// Takes octets of a peer, as long as there is room; all, if there is no such bridge.
    pub(crate) fn octets(&mut self, place: usize, octets: &[u8]) -> usize
        ensures within { result ≤ length octets.now }
        ensures count { (b : BridgePort) → slice_get self.old.ports.items place ≡ Some b
            → result ≡ bridge_state.heard_count octets.now b.bridge }
        ensures taken { self.new.ports.items ≡ bridge_changed place (bridge_state.heard (take result octets.now)) self.old.ports.items }
    {
        match self.ports.get_mut(place) {
            Some(port) => port.bridge.octets(octets),
            None => octets.len(),
        }
    }

    /// A peer sends no more.
    pub(crate) fn ended(&mut self, place: usize)
        ensures { self.new.ports.items ≡ bridge_changed place (with_phases peer_ended) self.old.ports.items }
    {
        if let Some(port) = self.ports.get_mut(place) {
            port.bridge.ended();
        }
    }

    /// The connection of a bridge is broken, or could not be had.
    pub(crate) fn lost(&mut self, place: usize)
        ensures { self.new.ports.items ≡ bridge_changed place (with_phases bridge_phase.broken) self.old.ports.items }
    {
        if let Some(port) = self.ports.get_mut(place) {
            port.bridge.lost();
        }
    }

    /// The connection of a bridge was closed.
    pub(crate) fn closed(&mut self, place: usize)
        ensures { self.new.ports.items ≡ bridge_changed place (with_phases bridge_phase.closed) self.old.ports.items }
    {
        if let Some(port) = self.ports.get_mut(place) {
            port.bridge.closed();
        }
    }

    /// A bridge is to go once what waits is written out.
    pub(crate) fn end(&mut self, place: usize)
        ensures { self.new.ports.items ≡ bridge_changed place (with_phases bridge_phase.dismissed) self.old.ports.items }
    {
        if let Some(port) = self.ports.get_mut(place) {
            port.bridge.end();
        }
    }

    /// Octets that wait to be written to a peer, from the first on: some if there are any, and not always all.
    pub(crate) fn waiting(&self, place: usize) -> &[u8]
        ensures { (b : BridgePort) → slice_get self.now.ports.items place ≡ Some b → AreFirst result.now b.bridge }
    {
        match self.ports.get(place) {
            Some(port) => port.bridge.waiting(),
            None => &[],
        }
    }

    /// The first octets that wait were written.
    pub(crate) fn written(&mut self, place: usize, count: usize)
        ensures { self.new.ports.items ≡ bridge_changed place (bridge_state.written count) self.old.ports.items }
    {
        if let Some(port) = self.ports.get_mut(place) {
            port.bridge.written(count);
        }
    }

    /// Whether octets of a peer are to be read.
    pub(crate) fn wants(&self, place: usize) -> bool {
        match self.ports.get(place) {
            Some(port) => port.bridge.wants(),
            None => true,
        }
    }

    /// What the shell is to do next for a bridge, if anything; their ports begin with this one.
    pub(crate) fn order(&mut self, first: usize) -> Option<Order>
        ensures from { IfSome result (IsFrom first) }
        ensures apart { AreOnOwnChannels self.old.ports.items → AreOnOwnChannels self.new.ports.items }
    {
        for place in 0..self.ports.len() {
            let port = first.checked_add(place)?;
            let bridge = self.ports.get_mut(place)?;
            if let Some(order) = order_of(port, bridge) {
                return Some(order);
            }
        }
        None
    }

    /// How many bridges there are.
    pub(crate) fn len(&self) -> usize
        ensures { result ≡ length self.now.ports.items }
    {
        self.ports.len()
    }

    /// What waits at a bridge, if there is such a bridge.
    pub(crate) fn status(&self, place: usize) -> Option<PortStatus> {
        let port = self.ports.get(place)?;
        Some(PortStatus {
            in_use: !port.bridge.is_free(),
            keys: port.bridge.waiting_to_say(),
            octets: port.bridge.waiting_to_write(),
            overtaken: 0,
        })
    }

    /// Lets ticks pass.
    pub(crate) fn elapse(&mut self, ticks: u16)
        ensures { AreOnOwnChannels self.old.ports.items → AreOnOwnChannels self.new.ports.items }
    {
        for place in 0..self.ports.len() {
            self.ports[place].bridge.elapse(ticks);
        }
    }

    /// No call comes any more, and those that are there are cleared, once what waits is written out.
    pub(crate) fn stop(&mut self)
        ensures { AreOnOwnChannels self.old.ports.items → AreOnOwnChannels self.new.ports.items }
    {
        self.stopping = true;
        for place in 0..self.ports.len() {
            self.ports[place].bridge.end();
        }
    }

    /// Whether no bridge has a call or a connection.
    pub(crate) fn are_free(&self) -> bool
        ensures { result ≡ are_free self.now.ports.items }
    {
        self.ports.iter().all(|port| port.bridge.is_free())
    }
}

/// The next order of a bridge, if there is one.
fn order_of(port: usize, bridge: &mut BridgePort) -> Option<Order>
    ensures order { IfSome result (λ order. port_of order ≡ Some port) }
    ensures at { bridge.new.at ≡ bridge.old.at }
{
    match (bridge.bridge.order()?, bridge.owner) {
        (bridge_ports::Order::Connect, Owner::Service(service)) => {
            Some(Order::Connect { port, service })
        }
        (bridge_ports::Order::EndWriting, _) => Some(Order::EndWriting(port)),
        (bridge_ports::Order::Connect | bridge_ports::Order::Close, _) => Some(Order::Close(port)),
    }
}
