//! What is asked of the nodes, and time.
ghost use Rattle.std.specs.Prelude.{◌≡◌, ◌≤◌, ◌<◌, length, map};
ghost use Rattle.std.specs.Bool.{OnTrue};
ghost use Rattle.std.specs.List.{list_all};
ghost use Rattle.frame_lines.specs.declared.line.Direction.TheVariants.{FromDte, FromDce};
ghost use Rattle.call_records.specs.RecordView.{shown, pair_of};
ghost use Rattle.net_events.specs.Network.{all_elapsed};
ghost use Rattle.net_nodes.specs.Due.{net_due, net_due_at};
ghost use Rattle.net_nodes.specs.Happening.{FindsNoFrame, FindNoFrames};
ghost use Rattle.net_nodes.specs.Questions.{net_confirmed, net_has_to_take, net_room_to_say, net_rests, is_empty};
ghost use Rattle.net_nodes.specs.Questions.{net_shows, user_channel};
ghost use Rattle.net_node.specs.Node.{rests, user_of};

use crate::nodes::Nodes;
use call_records::{Pair, Record};
use frame_lines::{Direction, Line};
use net_events::Event;
use net_node::{NetNode, first_node_due};
use node_events::NetLine;

/// Whether no frame is in flight on a line.
fn is_empty<L: Line>(net_line: &NetLine<L>) -> bool
    ensures { result ≡ is_empty net_line.now }
{
    let line = &net_line.line;
    !line.in_flight(Direction::FromDte) && !line.in_flight(Direction::FromDce)
}

impl<L: Line> Nodes<L> {
    /// The records of all calls, in the order of making.
    pub fn records(&self) -> &[Record]
        ensures { map shown result.now ≡ self.now.register.records }
    {
        self.register.book.records()
    }

    /// The pairs of records, in the order of acceptance.
    pub fn pairs(&self) -> &[Pair]
        ensures { map pair_of result.now ≡ self.now.register.pairs }
    {
        self.register.book.pairs()
    }

    /// Whether no frame is in flight.
    fn are_lines_empty(&self) -> bool
        ensures { result ≡ list_all is_empty self.now.lines }
    {
        self.lines.iter().all(|line| is_empty(line))
    }

    /// Whether it is certain that a delivery on a line in this direction finds no frame, and so changes nothing. A line
    /// that does not know says no, and so does one that is not there.
    pub fn finds_none(&self, line: usize, direction: Direction) -> bool
        ensures { OnTrue result (FindsNoFrame L.service line direction self.now) }
    {
        line < self.lines.len() && self.is_certainly_empty(line, direction)
    }

    /// Whether it is certain that a delivery in this direction finds no frame, on a line that is there.
    fn is_certainly_empty(&self, line: usize, direction: Direction) -> bool
        requires { line < length self.now.lines }
        ensures { OnTrue result (FindsNoFrame L.service line direction self.now) }
    {
        self.lines[line].line.is_certainly_empty(direction)
    }

    /// A number from this one on: it is certain that deliveries on the lines before it find no frame, either way. It is
    /// that of the first line of which this is not certain, if there is one. That it is the first is not promised.
    pub fn next_with_frames(&self, from: usize) -> usize
        ensures onward { from ≤ result }
        ensures none { FindNoFrames L.service from result self.now }
    {
        for line in from..self.lines.len() {
            if !self.find_none(line) {
                return line;
            }
        }
        from.max(self.lines.len())
    }

    /// Whether it is certain that deliveries in both directions on a line that is there find no frame.
    fn find_none(&self, line: usize) -> bool
        requires { line < length self.now.lines }
        ensures from_dte { OnTrue result (FindsNoFrame L.service line FromDte self.now) }
        ensures from_dce { OnTrue result (FindsNoFrame L.service line FromDce self.now) }
    {
        self.is_certainly_empty(line, Direction::FromDte)
            && self.is_certainly_empty(line, Direction::FromDce)
    }

    fn are_nodes_at_rest(&self) -> bool
        ensures { result ≡ list_all rests self.now.nodes }
    {
        self.nodes.iter().all(|node| node.is_at_rest())
    }

    /// Whether nothing is in flight, unacknowledged or owed, nothing waits to be sent or taken, and no switch gathers
    /// anything.
    pub fn is_at_rest(&self) -> bool
        ensures { result ≡ net_rests self.now }
    {
        self.are_lines_empty() && self.are_nodes_at_rest()
    }

    /// Whether the node of this place is a host, and the channel has a call in data transfer in which each packet sent
    /// with D = 1 since the last reset was covered by a P(R) (X.25 4.3.3).
    pub fn confirmed(&self, node: usize, channel: u16) -> bool
        ensures { result ≡ net_confirmed node channel self.now }
    {
        let Some(node) = self.nodes.get(node) else {
            return false;
        };
        match self.user_channel(node, channel) {
            Some(channel) => node.confirmed(channel),
            None => false,
        }
    }

    /// The channel of this number of a node with users, if it is one and its line has the channel.
    fn user_channel(&self, node: &NetNode, channel: u16) -> Option<u8>
        ensures { result ≡ user_channel channel self.now (user_of node.now) }
    {
        let line = node.line()?;
        self.channel(line, channel).ok()
    }

    /// Whether the node of this place is a PAD, and the terminal has anything to show.
    pub fn shows(&self, node: usize, terminal: u16) -> bool
        ensures { result ≡ net_shows node terminal self.now }
    {
        let Some(node) = self.nodes.get(node) else {
            return false;
        };
        node.shows(terminal)
    }

    /// Whether the node of this place is a host, and anything waits to be taken on the channel.
    pub fn has_to_take(&self, node: usize, channel: u16) -> bool
        ensures { result ≡ net_has_to_take node channel self.now }
    {
        let Some(node) = self.nodes.get(node) else {
            return false;
        };
        match self.user_channel(node, channel) {
            Some(channel) => node.has_to_take(channel),
            None => false,
        }
    }

    /// How many octets a message without Q may have now on the channel of the host of this place, at most 1,024. At any
    /// other node it is 0.
    pub fn room_to_say(&self, node: usize, channel: u16) -> usize
        ensures { result ≡ net_room_to_say node channel self.now }
    {
        let Some(node) = self.nodes.get(node) else {
            return 0;
        };
        match self.user_channel(node, channel) {
            Some(channel) => node.room_to_say(channel),
            None => 0,
        }
    }

    /// Lets ticks pass, each a twentieth of a second.
    pub fn elapse(&mut self, ticks: u16)
        ensures { self.new ≡ all_elapsed ticks self.old }
    {
        for node in self.nodes.iter_mut() {
            node.elapse(ticks);
        }
    }

    /// The expiry of the first timer without a tick left, of the first node that has one, and there of the first line.
    pub fn next_due(&self) -> Option<Event>
        ensures { result ≡ net_due self.now }
    {
        let (node, (line, timer)) = first_node_due(&self.nodes)?;
        Some(Event::Expire { node, line, timer })
    }

    /// The expiry of the first timer without a tick left at the node of this place; at a switch on the first of its
    /// lines that has one.
    pub fn next_due_at(&self, node: usize) -> Option<Event>
        ensures { result ≡ net_due_at node self.now }
    {
        if node >= self.nodes.len() {
            return None;
        }
        let (line, timer) = self.nodes[node].due()?;
        Some(Event::Expire { node, line, timer })
    }
}
