//! A network, the calls at its hosts and their built-in services.
ghost use Rattle.std.specs.Prelude.{◌≡◌, false};
ghost use Rattle.user_nodes.specs.declared.terminal.TerminalEvent.TheVariants.{Leaves};
ghost use Rattle.net_events.specs.declared.event.Event.TheVariants.{AtTerminal, Deliver};
ghost use Rattle.service.specs.AllBridges.{ServesBridges};
ghost use Rattle.service.specs.Bridging.{PassesAt};
ghost use Rattle.service.specs.Serving.{DeliversBelow, Expires, Serves, WishesKeys, WishesPresence, WishesText, WishesXon};
ghost use Rattle.service.specs.Steps.{Does, Passes, is_at_terminal, is_idle_answer, is_idle_outcome, key_event, presence_event};

use crate::bridges::Bridges;
use crate::bridging::{ask_event, say_request, take_event};
use crate::builtin::Turn;
use crate::calls::Calls;
use crate::hosts::{HostChannel, Hosts};
use crate::mail::Mail;
use crate::passing::Passing;
use crate::place::Place;
use crate::terminal::{Presence, Terminal, XON};
use clock_texts::utc_text;
use frame_codec::FrameBuf;
use line_sim::{
    Answer, CallUser, Direction, Event, HostRequest, Line, Outcome, PadAnswer, TerminalEvent,
    UserNote,
};
use net_process::Process;
use service_ports::Key;
use std::alloc::{AllocError, Global};

/// A network, the calls at its hosts, their built-in services, and the time.
#[derive(Drop)]
pub(crate) struct Exchange<L: Line> {
    pub(crate) alloc: Global,
    pub(crate) net: Process<L>,
    pub(crate) hosts: Hosts,
    pub(crate) calls: Calls,
    pub(crate) mail: Mail,
    pub(crate) seconds: i64,
    /// What came last on a line to another process.
    pub(crate) came: FrameBuf,
    pub(crate) passing: Passing,
}

#[tactic(auto, using(crate::proofs::Stepping::passes_none, crate::proofs::Bridged::passes_at_none, crate::proofs::EachBridge::serves_none))]
impl<L: Line> Exchange<L> {
    /// Lets an event happen of which only the notes are wanted, and says whether it did anything.
    pub(crate) fn happen(&mut self, event: &Event) -> bool
        ensures does { Does L.service event.now result self.old.net self.new.net }
        ensures passes { is_at_terminal event.now ≡ false → Passes L.service result self.old.net self.new.net }
    {
        match self.net.step(event) {
            Ok(answer) => {
                hear(
                    &mut self.hosts,
                    &mut self.calls,
                    &mut self.mail,
                    self.seconds,
                    answer.notes.as_slice(),
                );
                self.passing.see_all(answer);
                !is_idle(answer)
            }
            Err(_) => false,
        }
    }

    /// Tells a PAD who is at a terminal, if it was not told yet, and says whether there was anything to tell.
    pub(crate) fn tell(&mut self, at: Place, terminal: &mut Terminal) -> bool
        ensures { Serves L.service at (WishesPresence at) result self.old.net self.new.net terminal.old terminal.new }
    {
        let Some(presence) = terminal.untold else {
            return false;
        };
        if !self.happen(&at_terminal(at, presence_event(presence))) {
            return false;
        }
        terminal.untold = None;
        true
    }

    /// Tells a PAD that nobody is at a terminal.
    pub(crate) fn leave(&mut self, at: Place) -> bool
        ensures { Does L.service (AtTerminal at.node at.number Leaves) result self.old.net self.new.net }
    {
        self.happen(&at_terminal(at, TerminalEvent::Leaves))
    }

    /// Types the next key of a terminal, and says whether there was one that could be typed, or that others gave way to.
    pub(crate) fn type_next(&mut self, at: Place, terminal: &mut Terminal) -> bool
        ensures { Serves L.service at (WishesKeys at) result self.old.net self.new.net terminal.old terminal.new }
    {
        let Some(key) = terminal.port.next_key() else {
            return false;
        };
        if self.happen(&at_terminal(at, key_event(key))) {
            terminal.port.drop_keys(1);
            return true;
        }
        if self.hasten(at, terminal) {
            return true;
        }
        terminal.overtake()
    }

    /// Types an XON before the keys that wait, and says whether there was one that could be typed.
    fn hasten(&mut self, at: Place, terminal: &mut Terminal) -> bool
        ensures { Serves L.service at (WishesXon at) result self.old.net self.new.net terminal.old terminal.new }
    {
        let Some(place) = terminal.find_xon() else {
            return false;
        };
        if !self.happen(&at_terminal(at, TerminalEvent::Key(XON))) {
            return false;
        }
        terminal.port.drop_key(place);
        true
    }

    /// Shows what waits at a terminal, if a client is there to whom it can be shown, and says whether there was
    /// anything.
    pub(crate) fn show_next(&mut self, at: Place, terminal: &mut Terminal) -> bool
        ensures { Serves L.service at (WishesText at) result self.old.net self.new.net terminal.old terminal.new }
    {
        if !terminal.may_show() {
            return false;
        }
        match self.net.step(&at_terminal(at, TerminalEvent::Print)) {
            Ok(answer) => {
                hear(
                    &mut self.hosts,
                    &mut self.calls,
                    &mut self.mail,
                    self.seconds,
                    answer.notes.as_slice(),
                );
                self.passing.see_all(answer);
                if is_idle(answer) {
                    return false;
                }
                terminal.show(answer.text.as_slice());
                true
            }
            Err(_) => false,
        }
    }

    /// Does what is to be done next in each call of a built-in service.
    pub(crate) fn serve_calls(&mut self, bridges: &Bridges) -> bool
        ensures { ServesBridges L.service result self.old.net self.new.net bridges.now.ports.items
            bridges.now.ports.items }
    {
        let mut any = false;
        for host in 0..self.hosts.len() {
            for place in 0..self.hosts.channels(host) {
                let done = self.serve_call(host, place, bridges);
                any |= done;
            }
        }
        any
    }

    /// Does what is to be done next on a channel, unless a bridge has its call.
    fn serve_call(&mut self, host: usize, place: u8, bridges: &Bridges) -> bool
        ensures { ServesBridges L.service result self.old.net self.new.net bridges.now.ports.items
            bridges.now.ports.items }
    {
        let Some((at, turn)) = self.hosts.turn(host, place) else {
            return false;
        };
        if matches!(turn, Turn::Rest) {
            return false;
        }
        if bridges.have(at) {
            return false;
        }
        self.serve_turn(at, turn)
    }

    /// Does what a built-in service does next on a channel.
    fn serve_turn(&mut self, at: HostChannel, turn: Turn) -> bool
        ensures { PassesAt L.service at result self.old.net self.new.net }
    {
        match turn {
            Turn::Rest => false,
            Turn::Answer => self.answer(at),
            Turn::Refuse => self.end(at, HostRequest::Refuse),
            Turn::Take => self.take_next(at),
            Turn::SayHeld => self.say_held(at),
            Turn::SayTime => self.say_time(at),
            Turn::AwaitConfirmation => self.clear_if_confirmed(at),
            Turn::Clear => self.end(at, HostRequest::Clear),
        }
    }

    /// Answers a call.
    fn answer(&mut self, at: HostChannel) -> bool
        ensures { PassesAt L.service at result self.old.net self.new.net }
    {
        let done = self.ask(at, HostRequest::Answer);
        if let Some(call) = self.hosts.call_mut(at) {
            call.answered(done);
        }
        if done {
            self.calls.connect(at);
        }
        done
    }

    /// Says what is held as one message, if the host takes it.
    fn say_held(&mut self, at: HostChannel) -> bool
        ensures { PassesAt L.service at result self.old.net self.new.net }
    {
        let Some(call) = self.hosts.call_mut(at) else {
            return false;
        };
        let held = call.lend_held(self.alloc);
        let event = ask_event(at, say_request(held, false));
        let said = self.happen(&event);
        let octets = octets_of(self.alloc, event);
        let count = if said { octets.len() } else { 0 };
        self.calls.said(at, count);
        if let Some(call) = self.hosts.call_mut(at) {
            call.give_back(octets, said);
        }
        said
    }

    /// Says the time, and asks that it is confirmed.
    fn say_time(&mut self, at: HostChannel) -> bool
        ensures { PassesAt L.service at result self.old.net self.new.net }
    {
        let Ok(text) = time_message(self.alloc, self.seconds) else {
            return false;
        };
        let count = text.len();
        if !self.happen(&ask_event(at, say_request(text, true))) {
            return false;
        }
        self.calls.said(at, count);
        if let Some(call) = self.hosts.call_mut(at) {
            call.said_all();
        }
        true
    }

    /// Clears a call once all that was said is confirmed.
    fn clear_if_confirmed(&mut self, at: HostChannel) -> bool
        ensures { PassesAt L.service at result self.old.net self.new.net }
    {
        if !self.net.confirmed(at.node, u16::from(at.channel)) {
            return false;
        }
        self.end(at, HostRequest::Clear)
    }

    /// Ends a call by this request.
    fn end(&mut self, at: HostChannel, request: HostRequest) -> bool
        ensures { PassesAt L.service at result self.old.net self.new.net }
    {
        let done = self.ask(at, request);
        if let Some(call) = self.hosts.call_mut(at) {
            call.end();
        }
        self.calls.clear(at, 0, 0, self.seconds);
        done
    }

    /// Asks something of the call of a channel, and says whether that was done.
    pub(crate) fn ask(&mut self, at: HostChannel, request: HostRequest) -> bool
        ensures { PassesAt L.service at result self.old.net self.new.net }
    {
        self.happen(&ask_event(at, request))
    }

    /// Takes what comes next on a channel, and says whether there was anything. What is qualified, and interrupts, are
    /// dropped.
    fn take_next(&mut self, at: HostChannel) -> bool
        ensures { PassesAt L.service at result self.old.net self.new.net }
    {
        match self.net.step(&take_event(at)) {
            Ok(answer) => {
                hear(
                    &mut self.hosts,
                    &mut self.calls,
                    &mut self.mail,
                    self.seconds,
                    answer.notes.as_slice(),
                );
                self.passing.see_all(answer);
                self.hosts.take(at, &answer.outcome, answer.text.as_slice());
                self.calls.took(at, answer.text.len());
                !is_idle(answer)
            }
            Err(_) => false,
        }
    }

    /// Delivers the first frame in flight in each direction of so many lines.
    pub(crate) fn deliver_frames(&mut self, lines: usize) -> bool
        ensures { DeliversBelow L.service lines result self.old.net self.new.net }
    {
        let mut any = false;
        for line in 0..lines {
            let from_dte = self.deliver(line, Direction::FromDte);
            let from_dce = self.deliver(line, Direction::FromDce);
            any |= from_dte | from_dce;
        }
        any
    }

    fn deliver(&mut self, line: usize, direction: Direction) -> bool
        ensures { Does L.service (Deliver line direction) result self.old.net self.new.net }
    {
        self.happen(&Event::Deliver { line, direction })
    }

    /// Handles the expiry of the first timer that is due.
    pub(crate) fn expire(&mut self) -> bool
        ensures { Expires L.service result self.old.net self.new.net }
    {
        match self.net.next_due() {
            Some(expiry) => self.happen(&expiry),
            None => false,
        }
    }
}

/// Hears what the hosts and PADs were told.
pub(crate) fn hear(
    hosts: &mut Hosts,
    calls: &mut Calls,
    mail: &mut Mail,
    seconds: i64,
    notes: &[UserNote],
) {
    for note in notes {
        if let CallUser::Terminal(terminal) = note.user {
            calls.hear_terminal(note, terminal, seconds);
            continue;
        }
        if !mail.hear(note) {
            hosts.hear(note);
        }
        calls.hear(note, seconds);
    }
}

/// Whether an answer says that the event did nothing.
pub(crate) fn is_idle(answer: &Answer) -> bool
    ensures { result ≡ is_idle_answer answer.now }
{
    answer.text.is_empty() && is_idle_outcome(answer.outcome)
}

/// Whether it is the outcome of an event that did nothing, if no text was shown or taken.
fn is_idle_outcome(outcome: Outcome) -> bool
    ensures { result ≡ is_idle_outcome outcome }
{
    match outcome {
        Outcome::Delivered(arrived) => !arrived,
        Outcome::Typed(answer) => matches!(answer, PadAnswer::Dropped),
        Outcome::Printed => true,
        Outcome::Took(front) => front.is_none(),
        Outcome::Called { .. } | Outcome::Done => false,
    }
}

/// The event of a key.
fn key_event(key: Key) -> TerminalEvent
    ensures { result ≡ key_event key }
{
    match key {
        Key::Octet(octet) => TerminalEvent::Key(octet),
        Key::Break => TerminalEvent::Break,
    }
}

/// The event that a client came to a terminal or left it.
fn presence_event(presence: Presence) -> TerminalEvent
    ensures { result ≡ presence_event presence }
{
    match presence {
        Presence::Here => TerminalEvent::Arrives,
        Presence::Gone => TerminalEvent::Leaves,
    }
}

/// Something happens at a terminal.
fn at_terminal(at: Place, event: TerminalEvent) -> Event
    ensures { result ≡ AtTerminal at.node at.number event }
{
    Event::AtTerminal {
        node: at.node,
        terminal: at.number,
        event,
    }
}

/// The octets that an event says.
pub(crate) fn octets_of(alloc: Global, event: Event) -> Vec<u8> {
    match event {
        Event::Ask {
            request: HostRequest::Say { octets, .. },
            ..
        } => octets,
        _ => Vec::new(alloc),
    }
}

/// What the service `time` says.
fn time_message(alloc: Global, seconds: i64) -> Result<Vec<u8>, AllocError> {
    let mut text = utc_text(alloc, seconds)?;
    text.push_str("\r\n")?;
    Ok(text.into_bytes())
}
