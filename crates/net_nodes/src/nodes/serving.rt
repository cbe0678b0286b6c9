//! What comes to the nodes at their lines.
ghost use Rattle.std.specs.Prelude.{◌≡◌, ◌≢◌, false, Ok, Err};
ghost use Rattle.std.specs.Result.{result_and};
ghost use Rattle.switch_laws.specs.Turn.{AreOctets};
ghost use Rattle.call_records.specs.Register.{HasNoRecords};
ghost use Rattle.net_events.specs.declared.event.Event.TheVariants as event_is;
ghost use Rattle.net_events.specs.declared.event.StepFault.TheVariants.{OutOfMemory};
ghost use Rattle.node_events.specs.AnswerRoom.{IsRoomy};
ghost use Rattle.net_events.specs.AtSwitch.{Hears};
ghost use Rattle.net_events.specs.EventView.{switch_event_of};
ghost use Rattle.net_nodes.specs.Places.{IsStanding, HearsAt, IsOwnLine, is_switch_at};
ghost use Rattle.net_nodes.specs.Happening.{Happens};
ghost use Rattle.net_nodes.specs.Steps.{hearer, relink_at};

use crate::nodes::turn::{place_at, serve_at};
use crate::nodes::{LineSide, Nodes};
use frame_codec::FrameBuf;
use frame_lines::{Direction, Line};
use link_timers::{Role, TimerId};
use net_events::{Answer, LineEvent, Outcome, StepFault, SwitchEvent};
use node_events::{MOST_WRITES, make_bare, make_room};

/// The end that hears what is sent in a direction.
fn hearer(direction: Direction) -> Role
    ensures { result ≡ hearer direction }
{
    match direction {
        Direction::FromDte => Role::Dce,
        Direction::FromDce => Role::Dte,
    }
}

/// An own line of a switch: the place of the switch among the nodes, and the number of the line there.
#[derive(Clone, Copy)]
struct OwnLine {
    place: usize,
    own: usize,
}

/// What a switch hears on an own line: octets.
fn frame_heard(own: usize, octets: &[u8]) -> SwitchEvent<'_>
    ensures event { switch_event_of result ≡ Hears own octets.now }
    ensures octets { AreOctets octets.now }
{
    SwitchEvent::Hears(own, octets)
}

impl<L: Line> Nodes<L> {
    /// The first frame in flight in a direction arrives. It is taken into the place that is lent.
    pub(super) fn deliver(
        &mut self,
        line: usize,
        direction: Direction,
        frame: &mut FrameBuf,
        answer: &mut Answer,
    ) -> Result<(), StepFault>
        requires { IsStanding self.old }
        ensures done { Happens L.service (event_is.Deliver line direction) self.old
            (result_and result (Ok answer.new)) self.new }
        ensures kept { IsRoomy answer.old → IsRoomy answer.new }
        ensures ready { IsRoomy answer.old → HasNoRecords self.old.register → result ≢ Err OutOfMemory }
    {
        if line >= self.lines.len() {
            return Err(StepFault::NoSuchNode);
        }
        let net_line = &self.lines[line];
        if net_line.line.is_certainly_empty(direction) {
            make_bare(answer, Outcome::Delivered(false));
            return Ok(());
        }
        let place = place_at(hearer(direction), net_line);
        match self.own_line(line, place) {
            Some(own) => {
                self.deliver_to_switch(line, direction, OwnLine { place, own }, frame, answer)
            }
            None => self.deliver_to_user(line, direction, frame, answer),
        }
    }

    /// The first frame in flight in a direction arrives at a node with users.
    fn deliver_to_user(
        &mut self,
        line: usize,
        direction: Direction,
        frame: &mut FrameBuf,
        answer: &mut Answer,
    ) -> Result<(), StepFault>
        requires { HearsAt line (hearer direction) self.old }
        ensures done { Happens L.service (event_is.Deliver line direction) self.old
            (result_and result (Ok answer.new)) self.new }
        ensures kept { IsRoomy answer.old → IsRoomy answer.new }
        ensures ready { IsRoomy answer.old → HasNoRecords self.old.register → result ≢ Err OutOfMemory }
    {
        make_room(answer, 0)?;
        self.register.open(line, MOST_WRITES)?;
        let net_line = &mut self.lines[line];
        if !net_line.line.take(direction, frame) {
            answer.outcome = Outcome::Delivered(false);
            return Ok(());
        }
        let end = LineSide {
            line,
            role: hearer(direction),
        };
        let event = LineEvent::Hears(frame.as_slice());
        let (nodes, register) = (&mut self.nodes, &mut self.register);
        serve_at(nodes, net_line, register, end, &event, answer)
    }

    /// The first frame in flight in a direction arrives at a switch, on an own line of it.
    fn deliver_to_switch(
        &mut self,
        line: usize,
        direction: Direction,
        at: OwnLine,
        frame: &mut FrameBuf,
        answer: &mut Answer,
    ) -> Result<(), StepFault>
        requires standing { IsStanding self.old }
        requires switch { IsOwnLine line at.place at.own (hearer direction) self.old }
        ensures done { Happens L.service (event_is.Deliver line direction) self.old
            (result_and result (Ok answer.new)) self.new }
        ensures kept { IsRoomy answer.old → IsRoomy answer.new }
        ensures ready { IsRoomy answer.old → HasNoRecords self.old.register → result ≢ Err OutOfMemory }
    {
        self.make_switch_room(at.place, answer)?;
        if !self.lines[line].line.take(direction, frame) {
            answer.outcome = Outcome::Delivered(false);
            return Ok(());
        }
        let event = frame_heard(at.own, frame.as_slice());
        self.switch_acts(at.place, &event, answer)
    }

    /// The first frame in flight in a direction is lost.
    pub(super) fn lose(
        &mut self,
        line: usize,
        direction: Direction,
        frame: &mut FrameBuf,
        answer: &mut Answer,
    ) -> Result<(), StepFault>
        ensures done { Happens L.service (event_is.Lose line direction) self.old
            (result_and result (Ok answer.new)) self.new }
        ensures kept { IsRoomy answer.old → IsRoomy answer.new }
        ensures ready { result ≢ Err OutOfMemory }
    {
        if line >= self.lines.len() {
            return Err(StepFault::NoSuchNode);
        }
        let _ = self.lines[line].line.take(direction, frame);
        make_bare(answer, Outcome::Done);
        Ok(())
    }

    /// A timer of a node's end of a line expires.
    pub(super) fn expire(
        &mut self,
        node: usize,
        line: usize,
        timer: TimerId,
        answer: &mut Answer,
    ) -> Result<(), StepFault>
        requires { IsStanding self.old }
        ensures done { Happens L.service (event_is.Expire node line timer) self.old
            (result_and result (Ok answer.new)) self.new }
        ensures kept { IsRoomy answer.old → IsRoomy answer.new }
        ensures ready { IsRoomy answer.old → HasNoRecords self.old.register → result ≢ Err OutOfMemory }
    {
        if let Some(own) = self.own_line(line, node) {
            self.make_switch_room(node, answer)?;
            return self.switch_acts(node, &SwitchEvent::Expires(own, timer), answer);
        }
        let end = self.end_of(node)?;
        if end.line != line {
            return Err(StepFault::NoSuchNode);
        }
        self.act(end, &LineEvent::Expires(timer), answer)
    }

    /// The end of a role of a line, a node with users or a switch, gives its link up. A DTE sets it up again.
    pub(super) fn relink(
        &mut self,
        line: usize,
        role: Role,
        answer: &mut Answer,
    ) -> Result<(), StepFault>
        requires { IsStanding self.old }
        ensures done { Happens L.service (relink_at role line) self.old
            (result_and result (Ok answer.new)) self.new }
        ensures kept { IsRoomy answer.old → IsRoomy answer.new }
        ensures ready { IsRoomy answer.old → HasNoRecords self.old.register → result ≢ Err OutOfMemory }
    {
        if line >= self.lines.len() {
            return Err(StepFault::NoSuchNode);
        }
        let place = place_at(role, &self.lines[line]);
        match self.own_line(line, place) {
            Some(own) => {
                self.make_switch_room(place, answer)?;
                self.switch_acts(place, &SwitchEvent::Relinks(own), answer)
            }
            None => {
                let end = LineSide { line, role };
                self.act(end, &LineEvent::Relinks, answer)
            }
        }
    }

    /// A node restarts, and its lines lose all frames.
    pub(super) fn restart(&mut self, node: usize, answer: &mut Answer) -> Result<(), StepFault>
        requires { IsStanding self.old }
        ensures done { Happens L.service (event_is.Restart node) self.old
            (result_and result (Ok answer.new)) self.new }
        ensures kept { IsRoomy answer.old → IsRoomy answer.new }
        ensures ready { IsRoomy answer.old → HasNoRecords self.old.register → result ≢ Err OutOfMemory }
    {
        if self.is_switch(node) {
            self.make_switch_room(node, answer)?;
            return self.switch_acts(node, &SwitchEvent::Restarts, answer);
        }
        self.restart_user(node, answer)
    }

    /// A node with users restarts.
    fn restart_user(&mut self, node: usize, answer: &mut Answer) -> Result<(), StepFault>
        requires standing { IsStanding self.old }
        requires user { is_switch_at node self.old ≡ false }
        ensures done { Happens L.service (event_is.Restart node) self.old
            (result_and result (Ok answer.new)) self.new }
        ensures kept { IsRoomy answer.old → IsRoomy answer.new }
        ensures ready { IsRoomy answer.old → HasNoRecords self.old.register → result ≢ Err OutOfMemory }
    {
        let end = self.end_of(node)?;
        make_room(answer, 0)?;
        self.register.open(end.line, MOST_WRITES)?;
        let net_line = &mut self.lines[end.line];
        net_line.line.empty();
        let (nodes, register) = (&mut self.nodes, &mut self.register);
        let event = LineEvent::Restarts;
        serve_at(nodes, net_line, register, end, &event, answer)
    }
}
