//! Frames between the nodes here and the connections of remote lines.
ghost use Rattle.std.specs.Prelude.{◌≡◌, ◌<◌, ℕ, [], length};
ghost use Rattle.net_events.specs.OneLine.{direction_of, direction_to};
ghost use Rattle.net_process.specs.Carrying.{frames_at, with_frames, sends, settled, carried};

use crate::process::Process;
use frame_codec::FrameBuf;
use line_sim::{Direction, Line};
use link_timers::Role;
use live_net::LivePart;
use remote_lines::{LineEnd, RemoteLine};

/// The direction in which the end of a role sends.
pub(crate) fn direction_of(role: Role) -> Direction
    ensures { result ≡ direction_of role }
{
    match role {
        Role::Dte => Direction::FromDte,
        Role::Dce => Direction::FromDce,
    }
}

/// The direction of what comes to the end of a role.
pub(crate) fn direction_to(role: Role) -> Direction
    ensures { result ≡ direction_to role }
{
    direction_of(role.other())
}

/// Hands the frames in flight in a direction of a line to the connection of a remote line, in order. One that it does not
/// take is lost.
fn send_all<L: Line>(
    part: &mut LivePart<L>,
    line: usize,
    direction: Direction,
    remote: &mut RemoteLine,
)
    requires { L.service.faithful }
    ensures part { part.new ≡ with_frames line direction [] part.old }
    ensures remote { remote.new ≡ sends remote.old (frames_at line direction part.old) }
{
    let mut frame = FrameBuf::new();
    while part.carry_off(line, direction, &mut frame) {
        remote.send(frame.as_slice());
    }
}

/// Loses the frames in flight in a direction of a line.
fn lose_all<L: Line>(part: &mut LivePart<L>, line: usize, direction: Direction)
    requires { L.service.faithful }
    ensures { part.new ≡ with_frames line direction [] part.old }
{
    let mut frame = FrameBuf::new();
    while part.carry_off(line, direction, &mut frame) {}
}

impl<L: Line> Process<L> {
    /// Hands what a node here sent on a remote line to its connection, in order, as far as the line is open and has room;
    /// the rest is lost. On a line that is not open, what came for the node is lost too.
    pub(crate) fn settle(&mut self, place: usize)
        requires { place < length self.old.lines }
        ensures { self.new ≡ settled place self.old }
    {
        let LineEnd { line, role, .. } = self.lines[place].end();
        let open = self.lines[place].is_open();
        send_all(
            &mut self.part,
            line,
            direction_of(role),
            &mut self.lines[place],
        );
        if open {
            return;
        }
        lose_all(&mut self.part, line, direction_to(role));
    }

    /// Hands all that the nodes here sent on remote lines to their connections, as far as a line is open and has room; the
    /// rest is lost. Nothing is in flight on a line that is not open then. This is for the end of each round of events.
    pub fn carry(&mut self)
        ensures { self.new ≡ carried self.old }
    {
        for place in 0..self.lines.len() {
            self.settle(place);
        }
    }
}
