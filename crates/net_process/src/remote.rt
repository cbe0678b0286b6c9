//! The calls of whoever has the connections of remote lines.
ghost use Rattle.std.specs.Prelude.{◌≡◌, ◌≤◌, length, take, drop, [], None};
ghost use Rattle.net_process.specs.Remote.{made, lost, takes, with_came, output_at, with_written, order_at, after_order_at, line_at, meets_at, HasRead};

use crate::carrying::direction_to;
use crate::process::Process;
use frame_codec::FrameBuf;
use line_carriers::CarrierFault;
use line_sim::Line;
use remote_lines::{LineEnd, LineOrder, LineState, Reading};

// A place that no remote line has does nothing in any of these.
impl<L: Line> Process<L> {
    /// How many remote lines there are.
    pub fn remote_lines(&self) -> usize
        ensures { result ≡ length self.now.lines }
    {
        self.lines.len()
    }

    /// The end here of a remote line, and how far the line is.
    pub fn remote_line(&self, place: usize) -> Option<(LineEnd, LineState)>
        ensures { result ≡ line_at place self.now }
    {
        let line = self.lines.get(place)?;
        Some((line.end(), line.state()))
    }

    /// What the first octets over a connection say, before it replaces the one of a remote line: the number of the
    /// partner's start, or the first thing that differs from the hello of a partner. None if there is no such line.
    pub fn line_meets(&self, place: usize, octets: &[u8]) -> Option<Result<u64, CarrierFault>>
        ensures { result ≡ meets_at place self.now octets.now }
    {
        Some(self.lines.get(place)?.meets(octets))
    }

    /// A new connection of a remote line stands, and replaces the old one: what that one had is dropped, also what is in
    /// flight on the line here.
    pub fn line_made(&mut self, place: usize)
        ensures { self.new ≡ made place self.old }
    {
        if place < self.lines.len() {
            self.lines[place].connected();
            self.settle(place);
        }
    }

    /// The connection of a remote line broke, or was closed: what it had is dropped, also what is in flight on the line
    /// here.
    pub fn line_lost(&mut self, place: usize)
        ensures { self.new ≡ lost place self.old }
    {
        if place < self.lines.len() {
            self.lines[place].lost();
            self.settle(place);
        }
    }

    /// Takes octets that came over the connection of a remote line, from the first on, as many as there is room for. The
    /// answer is how many were taken.
    pub fn line_came(&mut self, place: usize, octets: &[u8]) -> usize
        ensures taken { result ≡ takes place self.old (length octets.now) }
        ensures after { self.new ≡ with_came place (take result octets.now) self.old }
    {
        if place < self.lines.len() {
            self.lines[place].octets(octets)
        } else {
            0
        }
    }

    /// Octets that wait to be written to the connection of a remote line, from the first on: some if there are any, and
    /// not always all.
    pub fn line_waiting(&self, place: usize) -> &[u8]
        ensures front { take (length result.now) (output_at place self.now) ≡ result.now }
        ensures some { length result.now ≡ 0 → output_at place self.now ≡ [] }
    {
        match self.lines.get(place) {
            Some(line) => line.waiting(),
            None => &[],
        }
    }

    /// Drops the first `count` octets that wait on a remote line, which were written; all, if there are fewer.
    pub fn line_written(&mut self, place: usize, count: usize)
        ensures { self.new ≡ with_written place count self.old }
    {
        if place < self.lines.len() {
            self.lines[place].written(count);
        }
    }

    /// Reads what comes next over the connection of a remote line, if there is anything. A frame comes in place of what
    /// the buffer held and is brought to the node here, and its delivery is the event of its arrival. Nothing is read while
    /// a frame that came before is in flight. A fault closes the connection.
    pub fn line_read(&mut self, place: usize, frame: &mut FrameBuf) -> Reading
        ensures { HasRead L.service place frame.old self.old result frame.new self.new }
    {
        if place >= self.lines.len() {
            return Reading::Nothing;
        }
        let LineEnd { line, role, .. } = self.lines[place].end();
        if !self.part.finds_none(line, direction_to(role)) {
            return Reading::Nothing;
        }
        match self.lines[place].read(frame) {
            Reading::Nothing => Reading::Nothing,
            Reading::OfLine => {
                self.settle(place);
                Reading::OfLine
            }
            Reading::Frame => {
                self.part.bring(line, direction_to(role), frame);
                Reading::Frame
            }
        }
    }

    /// What is to be done next for a remote line: each thing is ordered once.
    pub fn line_order(&mut self, place: usize) -> Option<LineOrder>
        ensures order { result ≡ order_at place self.old }
        ensures after { self.new ≡ after_order_at place self.old }
    {
        if place < self.lines.len() {
            self.lines[place].next_order()
        } else {
            None
        }
    }
}
