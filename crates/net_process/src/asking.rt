//! Questions to the nodes of a process. At a node of another process, and at one that has not started, there is nothing.
ghost use Rattle.std.specs.Prelude.{◌≡◌, ◌&&◌, true, false, if◌then◌else◌};
ghost use Rattle.net_nodes.specs.Questions.{net_confirmed, net_shows, net_has_to_take, net_room_to_say};
ghost use Rattle.net_nodes.specs.Questions.{MaySay, PrintsNothing};
ghost use Rattle.net_process.specs.Process.{runs, process_rests};

use crate::process::Process;
use line_sim::Line;

impl<L: Line> Process<L> {
    /// Whether nothing is in flight, unacknowledged, owed or gathered, and nothing waits to be sent, passed on or taken.
    /// A process with remote lines does not know that.
    pub fn at_rest(&self) -> bool
        ensures { result ≡ process_rests self.now }
    {
        self.lines.is_empty() && self.part.is_at_rest()
    }

    /// Whether the host of this place has a call in data transfer on the channel in which each packet with D = 1 since
    /// the last reset was covered (X.25 4.3.3).
    pub fn confirmed(&self, node: usize, channel: u16) -> bool
        ensures { result ≡ (runs self.now node && net_confirmed node channel self.now.part) }
    {
        self.runs(node) && self.part.confirmed(node, channel)
    }

    /// Whether the node of this place is a PAD, and the terminal has anything to show. If not, to print there shows
    /// nothing and takes nothing.
    pub fn shows(&self, node: usize, terminal: u16) -> bool
        ensures exact { result ≡ (runs self.now node && net_shows node terminal self.now.part) }
        ensures nothing { runs self.now node ≡ true → result ≡ false → PrintsNothing node terminal self.now.part }
    {
        self.runs(node) && self.part.shows(node, terminal)
    }

    /// Whether the node of this place is a host, and anything waits to be taken on the channel.
    pub fn has_to_take(&self, node: usize, channel: u16) -> bool
        ensures { result ≡ (runs self.now node && net_has_to_take node channel self.now.part) }
    {
        self.runs(node) && self.part.has_to_take(node, channel)
    }

    /// How many octets a message without Q may have now on the channel of the host of this place, at most 1,024: so many
    /// are not refused, if there are any. At any other node it is 0.
    pub fn room_to_say(&self, node: usize, channel: u16) -> usize
        ensures exact { result ≡ (if runs self.now node then net_room_to_say node channel self.now.part else 0) }
        ensures said { MaySay node channel result self.now.part }
    {
        if self.runs(node) {
            self.part.room_to_say(node, channel)
        } else {
            0
        }
    }
}
