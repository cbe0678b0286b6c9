//! One node of a network.
ghost use Rattle.std.specs.Prelude.{◌≡◌, ◌≤◌, is_none, length};
ghost use Rattle.std.specs.Option.{option_map};
ghost use Rattle.net_events.specs.NextDue.{due_at, due_on_lines, due_from};
ghost use Rattle.net_events.specs.Network.{elapsed_node};
ghost use Rattle.net_events.specs.Network as network;
ghost use Rattle.net_node.specs.Node.{user_of, own_line, rests, confirmed_by};
ghost use Rattle.net_node.specs.Questions.{shows_by, has_to_take_by, room_to_say_by};

use link_timers::TimerId;
use net_config::find_own;
use net_events::network_line;
use std::marker::Model;
use user_nodes::Node;
use x25_switch::Switch;

/// What a node is: one with users, at a line, or a switch, each of whose own lines is this line of the network.
#[derive(Drop)]
pub enum Equipment {
    User { line: usize, node: Node },
    Switching { lines: Vec<usize>, switch: Switch },
}

/// A node of a network.
#[derive(Drop)]
pub struct NetNode {
    pub kind: Equipment,
}

impl Model for NetNode {
    ghost use Rattle.std.specs.FinMap as map;
    ghost use Rattle.address_routes.specs.Routes.{by_digits};
    ghost use Rattle.std.specs.Coded.{codes, coded_list, coded_ℕ};
    ghost use Rattle.net_events.specs.Network as network;
    ghost use Rattle.net_node.specs.NodeView.{kind_of};

    ghost Value = { network.NetNode };

    ghost coded = { Prim.hlevel (codes, map.code {R = by_digits} (coded_list coded_ℕ) coded_ℕ) };

    ghost view = { λ n. kind_of n.kind };
}

impl NetNode {
    /// Lets ticks pass, each a twentieth of a second.
    pub fn elapse(&mut self, ticks: u16)
        ensures { self.new ≡ elapsed_node ticks self.old }
    {
        match &mut self.kind {
            Equipment::User { node, .. } => node.elapse(ticks),
            Equipment::Switching { switch, .. } => switch.elapse(ticks),
        }
    }

    /// Whether the node is at rest, a switch on all its lines.
    pub fn is_at_rest(&self) -> bool
        ensures { result ≡ rests self.now }
    {
        match &self.kind {
            Equipment::User { node, .. } => node.is_at_rest(),
            Equipment::Switching { switch, .. } => switch.is_at_rest(),
        }
    }

    /// The first timer without a tick left, and the line on which it runs.
    pub fn due(&self) -> Option<(usize, TimerId)>
        ensures { result ≡ due_at self.now }
    {
        match &self.kind {
            Equipment::User { line, node } => match node.due() {
                Some(timer) => Some((*line, timer)),
                None => None,
            },
            Equipment::Switching { lines, switch } => first_due(lines, switch),
        }
    }

    /// The line of a node with users.
    pub fn line(&self) -> Option<usize>
        ensures { result ≡ option_map (λ n. n.line) (user_of self.now) }
    {
        match &self.kind {
            Equipment::User { line, .. } => Some(*line),
            Equipment::Switching { .. } => None,
        }
    }

    /// Which of the own lines of a switch a line of the network is.
    pub fn own_line(&self, line: usize) -> Option<usize>
        ensures { result ≡ own_line line self.now }
    {
        match &self.kind {
            Equipment::User { .. } => None,
            Equipment::Switching { lines, .. } => find_own(lines, line),
        }
    }

    /// Whether the node is a switch.
    pub fn is_switch(&self) -> bool
        ensures { result ≡ is_none (user_of self.now) }
    {
        match &self.kind {
            Equipment::User { .. } => false,
            Equipment::Switching { .. } => true,
        }
    }

    /// How many lines a switch has, at most 64.
    pub fn own_lines(&self) -> usize
        ensures count { (n : network.PlacedSwitch) → self.now ≡ network.Switching n → result ≡ length n.switch.lines }
        ensures most { result ≤ 64 }
    {
        match &self.kind {
            Equipment::User { .. } => 0,
            Equipment::Switching { switch, .. } => switch.lines(),
        }
    }

    /// Whether a terminal of a PAD has anything to show.
    pub fn shows(&self, terminal: u16) -> bool
        ensures { result ≡ shows_by terminal (user_of self.now) }
    {
        match &self.kind {
            Equipment::User { node, .. } => node.shows(terminal),
            Equipment::Switching { .. } => false,
        }
    }

    /// Whether anything waits to be taken on a channel of a host.
    pub fn has_to_take(&self, channel: u8) -> bool
        ensures { result ≡ has_to_take_by channel (user_of self.now) }
    {
        match &self.kind {
            Equipment::User { node, .. } => node.has_to_take(channel),
            Equipment::Switching { .. } => false,
        }
    }

    /// How many octets a message without Q may have now on a channel of a host.
    pub fn room_to_say(&self, channel: u8) -> usize
        ensures { result ≡ room_to_say_by channel (user_of self.now) }
    {
        match &self.kind {
            Equipment::User { node, .. } => node.room_to_say(channel),
            Equipment::Switching { .. } => 0,
        }
    }

    /// Whether a host says that each packet with D = 1 was covered.
    pub fn confirmed(&self, channel: u8) -> bool
        ensures { result ≡ confirmed_by channel (user_of self.now) }
    {
        match &self.kind {
            Equipment::User { node, .. } => node.confirmed(channel),
            Equipment::Switching { .. } => false,
        }
    }
}

/// The first node with a timer without a tick left, that timer, and the line on which it runs.
pub fn first_node_due(nodes: &[NetNode]) -> Option<(usize, (usize, TimerId))>
    ensures { result ≡ option_map (λ d. (d.place, (d.line, d.timer))) (due_from 0 nodes.now) }
{
    for place in 0..nodes.len() {
        if let Some(due) = nodes[place].due() {
            return Some((place, due));
        }
    }
    None
}

/// The first timer without a tick left of the first own line of a switch that has one, and its line of the network.
fn first_due(lines: &[usize], switch: &Switch) -> Option<(usize, TimerId)>
    ensures { result ≡ due_on_lines lines.now switch.now.lines }
{
    for own in 0..lines.len() {
        if own >= switch.lines() {
            return None;
        }
        match switch.due(own) {
            Some(timer) => return Some((network_line(lines, own), timer)),
            None => {}
        }
    }
    None
}
