//! What the network does for bridges.
ghost use Rattle.std.specs.Prelude.{◌≡◌, ◌++◌, [], false, true};
ghost use Rattle.std.specs.Bool.{OnTrue};
ghost use Rattle.net_events.specs.declared.event.Event.TheVariants.{Ask, Take};
ghost use Rattle.packet_host.specs.declared.request.HostRequest.TheVariants.{Say};
ghost use Rattle.service.specs.AllBridges.{CallsOn, ServesBridges, bridged, channel_of, forgotten};
ghost use Rattle.service.specs.Bridging.{Carries, packet_in, said_of, with_packets};

use crate::bridges::{BridgePort, Bridges, Caller};
use crate::exchange::{Exchange, hear, is_idle, octets_of};
use crate::hosts::HostChannel;
use bridge_ports::{Bridge, MOST_MESSAGE, Turn};
use line_sim::{Event, HostRequest, Line, Outcome};
use packet_layer::Front;
use std::mem;

/// How many packets of a call are taken in a round.
const MOST_TAKEN: u32 = 8;

/// Does what is to be done next in each call: of built-in services, and of bridges, which first are told what became of
/// theirs.
pub(crate) fn serve_calls<L: Line>(exchange: &mut Exchange<L>, bridges: &mut Bridges) -> bool
    ensures { ServesBridges L.service result exchange.old.net exchange.new.net bridges.old.ports.items
        bridges.new.ports.items }
{
    let called = exchange.serve_calls(bridges);
    let told = deliver_letters(exchange, bridges);
    let served = serve_ports(exchange, bridges);
    called | told | served
}

/// Tells each bridge what became of its call, and says whether there was anything to tell.
fn deliver_letters<L: Line>(exchange: &mut Exchange<L>, bridges: &mut Bridges) -> bool
    ensures { ServesBridges L.service result exchange.old.net exchange.new.net bridges.old.ports.items
        bridges.new.ports.items }
{
    let mut any = false;
    for _ in 0..exchange.mail.len() {
        exchange.deliver_letter(bridges);
        any = true;
    }
    any
}

/// Does what is to be done next for each bridge.
fn serve_ports<L: Line>(exchange: &mut Exchange<L>, bridges: &mut Bridges) -> bool
    ensures { ServesBridges L.service result exchange.old.net exchange.new.net bridges.old.ports.items
        bridges.new.ports.items }
{
    let mut any = false;
    for place in 0..bridges.len() {
        let done = exchange.serve_bridge(bridges, place);
        any |= done;
    }
    any
}

#[tactic(auto, using(crate::proofs::EachBridge::serves_none))]
impl<L: Line> Exchange<L> {
    /// Tells the bridges the next note. A call for which no bridge is free is refused.
    fn deliver_letter(&mut self, bridges: &mut Bridges)
        ensures { ServesBridges L.service true self.old.net self.new.net bridges.old.ports.items
            bridges.new.ports.items }
    {
        let Some(letter) = self.mail.next() else {
            return;
        };
        if bridges.hear(&letter) {
            self.happen(&ask_event(letter.at, HostRequest::Refuse));
            self.calls.clear(letter.at, 0, 0, self.seconds);
        }
    }

    /// Does what is to be done next for the bridge of a place, and says whether there was anything.
    fn serve_bridge(&mut self, bridges: &mut Bridges, place: usize) -> bool
        ensures { ServesBridges L.service result self.old.net self.new.net bridges.old.ports.items
            bridges.new.ports.items }
    {
        let Some(at) = bridges.channel(place) else {
            return self.place_call(bridges, place);
        };
        match bridges.ports.get_mut(place) {
            Some(port) => self.serve_call_at(at, port),
            None => false,
        }
    }

    /// Asks what is to be asked next for the call of a bridge, and takes what comes.
    fn serve_call_at(&mut self, at: HostChannel, port: &mut BridgePort) -> bool
        ensures carries { Carries L.service at result self.old.net self.new.net port.old.bridge port.new.bridge }
        ensures forgets { bridged port.new ≡ forgotten (record (bridged port.old) { bridge = port.new.bridge }) }
    {
        let asked = self.ask_next(at, port);
        let took = self.take_some(at, &mut port.bridge);
        port.forget_call();
        asked | took
    }

    /// Places the call of a caller for the bridge of a place, if it is to be placed.
    fn place_call(&mut self, bridges: &mut Bridges, place: usize) -> bool
        ensures { ServesBridges L.service result self.old.net self.new.net bridges.old.ports.items
            bridges.new.ports.items }
    {
        let Some(caller) = bridges.caller_of(place) else {
            return false;
        };
        let at = self.call(caller);
        bridges.placed(place, at);
        true
    }

    /// Calls, and gives the channel of the call if it was placed.
    fn call(&mut self, caller: &Caller) -> Option<HostChannel>
        ensures { CallsOn L.service result self.old.net self.new.net }
    {
        match self.net.step(&caller.call()) {
            Ok(answer) => {
                hear(
                    &mut self.hosts,
                    &mut self.calls,
                    &mut self.mail,
                    self.seconds,
                    answer.notes.as_slice(),
                );
                self.passing.see_all(answer);
                let at = channel_of(caller.node, answer.outcome);
                self.calls.place_on(at, &caller.address, self.seconds);
                at
            }
            Err(_) => None,
        }
    }

    /// Asks what is to be asked next for the call of a bridge, besides taking.
    fn ask_next(&mut self, at: HostChannel, port: &mut BridgePort) -> bool
        ensures carries { Carries L.service at result self.old.net self.new.net port.old.bridge port.new.bridge }
        ensures at { port.new.at ≡ port.old.at }
        ensures owner { port.new.owner ≡ port.old.owner }
    {
        match port.bridge.turn() {
            Turn::Rest | Turn::Call => false,
            Turn::Answer => self.answer_for(at, &mut port.bridge),
            Turn::Refuse => self.end_for(at, &mut port.bridge, HostRequest::Refuse),
            Turn::Clear => self.end_for(at, &mut port.bridge, HostRequest::Clear),
            Turn::Say => self.say_next(at, port),
            Turn::SayEnd => self.say_end(at, &mut port.bridge),
            Turn::AwaitConfirmation => self.await_confirmation(at, &mut port.bridge),
        }
    }

    /// Answers the call.
    fn answer_for(&mut self, at: HostChannel, bridge: &mut Bridge) -> bool
        ensures { Carries L.service at result self.old.net self.new.net bridge.old bridge.new }
    {
        let done = self.happen(&ask_event(at, HostRequest::Answer));
        bridge.answered(done);
        if done {
            self.calls.connect(at);
        }
        done
    }

    /// Refuses or clears the call.
    fn end_for(&mut self, at: HostChannel, bridge: &mut Bridge, request: HostRequest) -> bool
        requires { said_of request ≡ [] }
        ensures { Carries L.service at result self.old.net self.new.net bridge.old bridge.new }
    {
        let done = self.happen(&ask_event(at, request));
        bridge.cleared();
        self.calls.clear(at, 0, 0, self.seconds);
        done
    }

    /// Whether the end of the peer's side is confirmed, of which the bridge is then told.
    fn await_confirmation(&mut self, at: HostChannel, bridge: &mut Bridge) -> bool
        ensures { Carries L.service at result self.old.net self.new.net bridge.old bridge.new }
    {
        let confirmed = self.net.confirmed(at.node, u16::from(at.channel));
        if confirmed {
            bridge.confirmed();
        }
        confirmed
    }

    /// Says the first octets that wait as one message, if the host takes it.
    fn say_next(&mut self, at: HostChannel, port: &mut BridgePort) -> bool
        ensures carries { Carries L.service at result self.old.net self.new.net port.old.bridge port.new.bridge }
        ensures at { port.new.at ≡ port.old.at }
        ensures owner { port.new.owner ≡ port.old.owner }
    {
        let mut octets = mem::replace(&mut port.message, Vec::new(self.alloc));
        let (first, second) = port.bridge.message(MOST_MESSAGE);
        if !fill_message(&mut octets, first, second) {
            return false;
        }
        let count = octets.as_slice().len();
        let event = ask_event(at, say_request(octets, false));
        let said = self.happen(&event);
        port.message = octets_of(self.alloc, event);
        if !said {
            return false;
        }
        port.bridge.said(count);
        self.calls.said(at, count);
        true
    }

    /// Says an empty message with D = 1, if the host takes it.
    fn say_end(&mut self, at: HostChannel, bridge: &mut Bridge) -> bool
        ensures { Carries L.service at result self.old.net self.new.net bridge.old bridge.new }
    {
        let request = say_request(Vec::new(self.alloc), true);
        if !self.happen(&ask_event(at, request)) {
            return false;
        }
        bridge.said_end();
        true
    }

    /// Takes packets of the call of a bridge, as long as there are any and there is room.
    fn take_some(&mut self, at: HostChannel, bridge: &mut Bridge) -> bool
        ensures { Carries L.service at result self.old.net self.new.net bridge.old bridge.new }
    {
        if !self.take_packet(at, bridge) {
            return false;
        }
        for _ in 1..MOST_TAKEN {
            if !self.take_packet(at, bridge) {
                return true;
            }
        }
        true
    }

    /// Takes what comes next on a channel, if there is room for it, and says whether there was anything. What is qualified,
    /// and interrupts, are dropped.
    fn take_packet(&mut self, at: HostChannel, bridge: &mut Bridge) -> bool
        ensures { Carries L.service at result self.old.net self.new.net bridge.old bridge.new }
    {
        if !bridge.takes() {
            return false;
        }
        match self.net.step(&take_event(at)) {
            Ok(answer) => {
                hear(
                    &mut self.hosts,
                    &mut self.calls,
                    &mut self.mail,
                    self.seconds,
                    answer.notes.as_slice(),
                );
                self.passing.see_all(answer);
                self.calls.take(at, answer.outcome, answer.text.len());
                let done = !is_idle(answer);
                hand_over(bridge, answer.outcome, answer.text.as_slice());
                done
            }
            Err(_) => false,
        }
    }
}

/// The channel on which a call of this host was placed, if it was.
fn channel_of(node: usize, outcome: Outcome) -> Option<HostChannel>
    ensures { result ≡ channel_of node outcome }
{
    match outcome {
        Outcome::Called { channel } => Some(HostChannel { node, channel }),
        _ => None,
    }
}

/// A host asks something of the call of a channel.
pub(crate) fn ask_event(at: HostChannel, request: HostRequest) -> Event
    ensures { result ≡ Ask at.node at.channel request }
{
    Event::Ask {
        node: at.node,
        channel: u16::from(at.channel),
        request,
    }
}

/// A host takes what waits on a channel.
pub(crate) fn take_event(at: HostChannel) -> Event
    ensures { result ≡ Take at.node at.channel }
{
    Event::Take {
        node: at.node,
        channel: u16::from(at.channel),
    }
}

/// A message without Q is said.
pub(crate) fn say_request(octets: Vec<u8>, delivery: bool) -> HostRequest
    ensures { result ≡ Say octets false delivery }
{
    HostRequest::Say {
        octets,
        qualified: false,
        delivery,
    }
}

/// Hands what was taken to a bridge, if it is user data without Q.
fn hand_over(bridge: &mut Bridge, outcome: Outcome, octets: &[u8])
    ensures { bridge.new ≡ with_packets (packet_in outcome octets.now) bridge.old }
{
    if let Outcome::Took(
        Some(
            Front::Data {
                qualified: false,
                more,
                ..
            },
        ),
    ) = outcome
    {
        bridge.took(octets, more);
    }
}

/// Fills a message with these octets. Otherwise there is no memory for them.
fn fill_message(message: &mut Vec<u8>, first: &[u8], second: &[u8]) -> bool
    ensures { OnTrue result (message.new.items ≡ first.now ++ second.now) }
{
    message.clear();
    message.extend_from_slice(first).is_ok() && message.extend_from_slice(second).is_ok()
}
