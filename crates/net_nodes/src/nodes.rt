//! The nodes of a network on their lines, and the register of their calls: each event, exactly.
ghost use Rattle.std.specs.Prelude.{◌≡◌, ◌≢◌, MatchResult, None, Ok, Err, true, false};
ghost use Rattle.std.specs.Result.{result_and};
ghost use Rattle.call_records.specs.Register.{HasNoRecords, forgotten};
ghost use Rattle.net_events.specs.declared.event.StepFault.TheVariants.{NoSuchNode, NoSuchCall, OutOfMemory};
ghost use Rattle.node_events.specs.AnswerRoom.{IsRoomy};
ghost use Rattle.net_nodes.specs.Faults.{is_channel_at};
ghost use Rattle.net_nodes.specs.Places.{IsStanding, IsPlaceOf, user_at, own_line_at};
ghost use Rattle.net_nodes.specs.Happening.{Happens};

mod asking;
mod carrying;
mod questions;
mod serving;
mod switching;
mod turn;

use call_records::Register;
use frame_codec::FrameBuf;
use frame_lines::Line;
use link_timers::Role;
use net_events::{Answer, Event, StepFault};
use net_node::NetNode;
use node_events::NetLine;
use std::marker::Model;

/// An end of a line.
#[derive(Clone, Copy)]
pub(crate) struct LineSide {
    line: usize,
    role: Role,
}

/// The nodes of a network, its lines, and the register of all calls.
#[derive(Drop)]
pub struct Nodes<L: Line> {
    nodes: Vec<NetNode>,
    lines: Vec<NetLine<L>>,
    register: Register,
}

impl<L: Line> Model for Nodes<L> {
    ghost use Rattle.std.specs.FinMap as map;
    ghost use Rattle.address_routes.specs.Routes.{by_digits};
    ghost use Rattle.std.specs.Coded.{codes, coded_list, coded_ℕ};
    ghost use Rattle.call_records.specs.RegisterView.{register_of};
    ghost use Rattle.net_events.specs.Network.{Network};

    ghost Value = { Network };

    ghost coded = { Prim.hlevel (codes, map.code {R = by_digits} (coded_list coded_ℕ) coded_ℕ) };

    ghost view = { λ n. record {
      nodes = n.nodes.items;
      lines = n.lines.items;
      register = register_of n.register;
    } };
}

impl<L: Line> Nodes<L> {
    ghost use Rattle.call_records.specs.RegisterView.{register_of};

    /// These nodes, on these lines, with a register of their calls.
    pub fn new(nodes: Vec<NetNode>, lines: Vec<NetLine<L>>, register: Register) -> Self
        ensures { result
            ≡ record { nodes = nodes.items; lines = lines.items; register = register_of register } }
    {
        Nodes {
            nodes,
            lines,
            register,
        }
    }

    /// Forgets the records and pairs of all calls, as [`Register::forget`] does.
    pub fn forget(&mut self)
        ensures { self.new ≡ record self.old { register = forgotten self.old.register } }
    {
        self.register.forget();
    }

    /// The end of its line that the node with users of this place is.
    fn end_of(&self, place: usize) -> Result<LineSide, StepFault>
        requires { IsStanding self.now }
        ensures { MatchResult result (λ end. IsPlaceOf place end self.now)
            (λ fault. (user_at place self.now ≡ None) × (fault ≡ NoSuchNode)) }
    {
        if place >= self.nodes.len() {
            return Err(StepFault::NoSuchNode);
        }
        let Some(line) = self.nodes[place].line() else {
            return Err(StepFault::NoSuchNode);
        };
        if line >= self.lines.len() {
            return Err(StepFault::NoSuchNode);
        }
        let role = if self.lines[line].dte == place {
            Role::Dte
        } else {
            Role::Dce
        };
        Ok(LineSide { line, role })
    }

    /// Which of the own lines of the switch at this place a line is.
    fn own_line(&self, line: usize, place: usize) -> Option<usize>
        ensures { result ≡ own_line_at line place self.now }
    {
        if place >= self.nodes.len() {
            return None;
        }
        self.nodes[place].own_line(line)
    }

    /// The channel of this number, which the line has.
    fn channel(&self, line: usize, channel: u16) -> Result<u8, StepFault>
        ensures { MatchResult result (λ c. (is_channel_at line channel self.now ≡ true) × (c ≡ channel))
            (λ fault. (is_channel_at line channel self.now ≡ false) × (fault ≡ NoSuchCall)) }
    {
        if line >= self.lines.len() || channel == 0 {
            return Err(StepFault::NoSuchCall);
        }
        if channel > u16::from(self.lines[line].channels) {
            return Err(StepFault::NoSuchCall);
        }
        Ok(channel as u8)
    }

    /// Handles an event, and writes the answer in place of the last one. If the event is refused, the answer says
    /// nothing: [`StepFault`] has the refusals. A frame that arrives or is lost is taken into the place that is lent. If
    /// the answer has room for all that an event may give, and the register has no records, no memory is asked for.
    #[inline(always)]
    pub fn happen(
        &mut self,
        event: &Event,
        frame: &mut FrameBuf,
        answer: &mut Answer,
    ) -> Result<(), StepFault>
        requires { IsStanding self.old }
        ensures done { Happens L.service event.now self.old (result_and result (Ok answer.new)) self.new }
        ensures kept { IsRoomy answer.old → IsRoomy answer.new }
        ensures ready { IsRoomy answer.old → HasNoRecords self.old.register → result ≢ Err OutOfMemory }
    {
        match event {
            Event::AtTerminal {
                node,
                terminal,
                event,
            } => self.at_terminal(*node, *terminal, *event, answer),
            Event::Call {
                node,
                address,
                user_data,
            } => self.call(*node, *address, user_data, answer),
            Event::Ask {
                node,
                channel,
                request,
            } => self.ask(*node, *channel, request, answer),
            Event::Take { node, channel } => self.take(*node, *channel, answer),
            Event::Deliver { line, direction } => self.deliver(*line, *direction, frame, answer),
            Event::Lose { line, direction } => self.lose(*line, *direction, frame, answer),
            Event::Expire { node, line, timer } => self.expire(*node, *line, *timer, answer),
            Event::Relink { line } => self.relink(*line, Role::Dte, answer),
            Event::GivesUp { line } => self.relink(*line, Role::Dce, answer),
            Event::Restart { node } => self.restart(*node, answer),
        }
    }
}
