//! A node at an end of a line.
ghost use Rattle.std.specs.Prelude.{◌≡◌, ◌≤◌, ◌∷◌, [], length};
ghost use Rattle.std.specs.Bool.{OnTrue, OnFalse};
ghost use Rattle.packet_end.specs.PacketEnd.{without_first_frame};
ghost use Rattle.user_nodes.specs.Node.{end_of, with_end, frames_of, node_rests, node_due};
ghost use Rattle.user_nodes.specs.Node.{node_elapsed, node_confirmed};
ghost use Rattle.user_nodes.specs.Questions.{node_shows, node_has_to_take, node_room_to_say};
ghost use Rattle.user_nodes.specs.NodeView.{node_of};
ghost use Rattle.user_nodes.specs.NodeEvents.{heard, node_runs, expired, relinked, restarted};

use link_timers::TimerId;
use packet_end::{FrameBuf, MOST_FRAMES};
use packet_host::Host;
use x25_pad::Pad;

/// A node at an end of a line. Frames that were not taken by `out`, and notes that were not read, are gone when the
/// next event begins.
#[derive(Drop)]
pub enum Node {
    Pad(Pad),
    Host(Host),
}

impl Node {
    /// Takes the octets of a received frame (X.25 2.4, 3 to 5).
    pub fn on_frame(&mut self, octets: &[u8])
        ensures { node_of self.new ≡ heard (node_of self.old) octets.now }
    {
        match self {
            Node::Pad(pad) => pad.on_frame(octets),
            Node::Host(host) => host.on_frame(octets),
        }
    }

    /// Takes an expiry of a timer of the line, or at a PAD of a terminal's idle timer, and answers whether it ran. If
    /// it did not, nothing happens.
    pub fn on_timer(&mut self, id: TimerId) -> bool
        ensures ran { result ≡ node_runs (node_of self.old) id }
        ensures node { node_of self.new ≡ expired (node_of self.old) id }
    {
        match self {
            Node::Pad(pad) => pad.on_timer(id),
            Node::Host(host) => host.on_timer(id),
        }
    }

    /// Gives the link up and sets it up again: all calls close.
    pub fn relink(&mut self)
        ensures { node_of self.new ≡ relinked (node_of self.old) }
    {
        match self {
            Node::Pad(pad) => pad.relink(),
            Node::Host(host) => host.relink(),
        }
    }

    /// Restarts: its calls are over for it, and nobody is told.
    pub fn restart(&mut self)
        ensures { node_of self.new ≡ restarted (node_of self.old) }
    {
        match self {
            Node::Pad(pad) => pad.restart(),
            Node::Host(host) => host.restart(),
        }
    }

    /// Takes the next frame that goes out, if there is one. If there is none, `frame` stays as it is.
    pub fn out(&mut self, frame: &mut FrameBuf) -> bool
        ensures frame { OnTrue result (frames_of (node_of self.old) ≡ frame.new ∷ frames_of (node_of self.new)) }
        ensures nothing { OnFalse result (frames_of (node_of self.old) ≡ []) }
        ensures same { OnFalse result (frame.new ≡ frame.old) }
        ensures node { node_of self.new ≡ with_end (without_first_frame (end_of (node_of self.old)))
            (node_of self.old) }
    {
        match self {
            Node::Pad(pad) => pad.out(frame),
            Node::Host(host) => host.out(frame),
        }
    }

    /// How many frames wait to be taken, at most [`MOST_FRAMES`].
    pub fn waiting_frames(&self) -> usize
        ensures count { result ≡ length (frames_of (node_of self.now)) }
        ensures most { result ≤ MOST_FRAMES }
    {
        match self {
            Node::Pad(pad) => pad.waiting_frames(),
            Node::Host(host) => host.waiting_frames(),
        }
    }

    /// Lets ticks pass, each a twentieth of a second: each timer that runs has so many less, not below 0.
    pub fn elapse(&mut self, ticks: u16)
        ensures { node_of self.new ≡ node_elapsed ticks (node_of self.old) }
    {
        match self {
            Node::Pad(pad) => pad.elapse(ticks),
            Node::Host(host) => host.elapse(ticks),
        }
    }

    /// The first timer that runs with no tick left, in the order of [`TimerId`] and then by number.
    pub fn due(&self) -> Option<TimerId>
        ensures { result ≡ node_due (node_of self.now) }
    {
        match self {
            Node::Pad(pad) => pad.due(),
            Node::Host(host) => host.due(),
        }
    }

    /// Whether the link is up with nothing unacknowledged and nothing to be said, no packet is owed, and nothing waits
    /// to be sent or taken on any channel.
    pub fn is_at_rest(&self) -> bool
        ensures { result ≡ node_rests (node_of self.now) }
    {
        match self {
            Node::Pad(pad) => pad.is_at_rest(),
            Node::Host(host) => host.is_at_rest(),
        }
    }

    /// Whether the node is a PAD, and the terminal has anything to show, as [`Pad::shows`].
    pub fn shows(&self, terminal: u16) -> bool
        ensures { result ≡ node_shows (node_of self.now) terminal }
    {
        match self {
            Node::Pad(pad) => pad.shows(terminal),
            Node::Host(_) => false,
        }
    }

    /// Whether the node is a host, and anything waits to be taken on the channel.
    pub fn has_to_take(&self, channel: u8) -> bool
        ensures { result ≡ node_has_to_take (node_of self.now) channel }
    {
        match self {
            Node::Pad(_) => false,
            Node::Host(host) => host.has_to_take(channel),
        }
    }

    /// How many octets a message without Q may have now on the channel of a host, as [`Host::room_to_say`]; at a PAD 0.
    pub fn room_to_say(&self, channel: u8) -> usize
        ensures { result ≡ node_room_to_say (node_of self.now) channel }
    {
        match self {
            Node::Pad(_) => 0,
            Node::Host(host) => host.room_to_say(channel),
        }
    }

    /// Whether the node is a host, and the channel has a call in data transfer in which each packet sent with D = 1
    /// since the last reset is covered by a P(R) (X.25 4.3.3).
    pub fn confirmed(&self, channel: u8) -> bool
        ensures { result ≡ node_confirmed (node_of self.now) channel }
    {
        match self {
            Node::Pad(_) => false,
            Node::Host(host) => host.confirmed(channel),
        }
    }
}
