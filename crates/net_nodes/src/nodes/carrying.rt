//! Frames that go from a line, or come to it, by another way than a node's.
ghost use Rattle.std.specs.Prelude.{◌≡◌, false, Some, None, slice_get};
ghost use Rattle.std.specs.Bool.{OnFalse};
ghost use Rattle.net_nodes.specs.Carrying.{HandedOn, PutAt};

use crate::nodes::Nodes;
use frame_codec::FrameBuf;
use frame_lines::{Direction, Line};

impl<L: Line> Nodes<L> {
    /// Takes the first frame in flight in a direction of a line, for whoever carries it on, and says whether there was
    /// one. If there was none, or no such line, `frame` stays as it is.
    pub fn hand_on(&mut self, line: usize, direction: Direction, frame: &mut FrameBuf) -> bool
        ensures handed { (l : _) → slice_get self.old.lines line ≡ Some l
            → HandedOn L.service line direction l self.old result frame.new self.new }
        ensures beyond { slice_get self.old.lines line ≡ None → result ≡ false }
        ensures untouched { slice_get self.old.lines line ≡ None → self.new ≡ self.old }
        ensures same { OnFalse result (frame.new ≡ frame.old) }
    {
        if line >= self.lines.len() {
            return false;
        }
        self.lines[line].line.take(direction, frame)
    }

    /// Puts a frame on a line in a direction: it comes after those in flight, or is lost if the line may lose it. If
    /// there is no such line, nothing changes.
    pub fn put_on(&mut self, line: usize, direction: Direction, frame: &FrameBuf)
        ensures put { (l : _) → slice_get self.old.lines line ≡ Some l
            → PutAt L.service line direction frame.now l self.old self.new }
        ensures untouched { slice_get self.old.lines line ≡ None → self.new ≡ self.old }
    {
        if line < self.lines.len() {
            self.lines[line].line.put(direction, frame);
        }
    }
}
