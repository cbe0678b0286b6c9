//! The lines of a switch, and what is asked of their channels.
ghost use Rattle.std.specs.Prelude.{◌≡◌, ◌≤◌, ◌<◌, ◌∷◌, [], Some, IfSome, length, map, slice_get, MatchResult};
ghost use Rattle.std.specs.List.{list_all};
ghost use Rattle.std.specs.Option.{option_map, ForSome};
ghost use Rattle.std.specs.Bool.{OnTrue, OnFalse};
ghost use Rattle.packet_layer.specs.RequestView.{request_of};
ghost use Rattle.data_transfer.specs.TakenView.{maybe_front};
ghost use Rattle.packet_end.specs.PacketEnd.{without_first_frame};
ghost use Rattle.packet_end.specs.declared.fault.EndFault.TheVariants as fault_is;
ghost use Rattle.switch_joins.specs.Direction.{new_direction, covered_by};
ghost use Rattle.switch_joins.specs.Held.{begun};
ghost use Rattle.switch_lines.specs.Making.{IsConfig, made_line, shares_with, greatest_info};
ghost use Rattle.switch_lines.specs.Lines.{role_on, is_trunk, with_joined, ask, front_at, changed};
ghost use Rattle.switch_lines.specs.Switch.{timer_runs, due_on, frames_on, with_end, line_rests};
ghost use Rattle.switch_lines.specs.ByPlace.{kept_at, freed_at};
ghost use Rattle.switch_lines.specs.Pooled.{plain};
ghost use Rattle.switch_lines.specs.Touched.{AreThere, HasAllFrames};
ghost use Rattle.switch_lines.specs.Waiting.{other_at};

mod calling;
mod finishing;
mod heeding;
mod relaying;
mod reopening;
mod telling;
mod touched;
mod turning;

use flow_window::pool::Pool;
use frame_codec::{FrameBuf, MAX_INFORMATION};
use joined_line::{SwitchLine, SwitchLineConfig};
use link_timers::{Role, TimerId};
use number_set::NumberSet;
use packet_end::{EndFault, MOST_FRAMES};
use packet_layer::{Front, Request};
use std::alloc::{AllocError, Global};
use std::marker::Model;
use switch_joins::{ChannelSet, Joined, MOST_LINES, SwitchChannel};

/// The lines of a switch, at most 64.
#[derive(Drop)]
pub struct Lines {
    lines: Vec<SwitchLine>,
    /// The packets of all lines lie here.
    pool: Pool,
    /// The lines at which something happened since they were settled. On the others nothing is left to do.
    touched: NumberSet,
    /// The lines besides these at which frames of the last event may be left.
    untaken: NumberSet,
    /// Joined channels whose joins are to be relayed. On all others nothing waits that the other leg takes.
    to_relay: ChannelSet,
    /// Channels that refused what waits on the other leg, and may take it once their line took a packet.
    refusing: ChannelSet,
}

impl Model for Lines {
    ghost use Rattle.std.specs.Prelude.{List};
    ghost use Rattle.switch_lines.specs.Lines.{SwitchLine as Line};

    ghost Value = { List Line };

    ghost use Rattle.switch_lines.specs.LinesView.{lines_of, AreLines};

    ghost view = { lines_of };

    ghost invariant = { AreLines };
}

/// How many buffers lines need together.
fn buffers_for(lines: &[SwitchLineConfig]) -> usize
    requires { IsConfig lines.now }
    ensures { result ≡ shares_with lines.now }
{
    let mut total = 0;
    for line in lines {
        total += line.buffers();
    }
    total
}

/// The most octets that a buffer of lines has to hold.
fn octets_for(lines: &[SwitchLineConfig]) -> u16
    requires { IsConfig lines.now }
    ensures value { result ≡ greatest_info lines.now }
    ensures most { result ≤ MAX_INFORMATION }
{
    let mut most = 0;
    for line in lines {
        most = line.params.info().max(most);
    }
    most
}

/// The channel that a channel is joined to, if it is.
fn other_of(lines: &[SwitchLine], leg: SwitchChannel) -> Option<SwitchChannel>
    ensures { result ≡ other_at (plain lines.now) leg }
{
    lines.get(leg.line)?.joins().other(leg.channel)
}

/// The channel that a join leads to, if there is one.
fn joined_to(joined: &Option<Joined>) -> Option<SwitchChannel>
    ensures { result ≡ option_map (λ j. j.other) (option_map begun joined.now) }
{
    match joined {
        Some(joined) => Some(joined.other),
        None => None,
    }
}

/// Whether all of these lines are at rest.
fn rest(lines: &[SwitchLine]) -> bool
    ensures { result ≡ list_all (λ p. line_rests p.line) lines.now }
{
    lines.iter().all(|line| line.is_at_rest())
}

impl Lines {
    /// The lines, each as `SwitchLine::new` makes it. `OutOfMemory` comes for want of memory.
    pub fn new(alloc: Global, lines: &[SwitchLineConfig]) -> Result<Lines, EndFault>
        requires { IsConfig lines.now }
        ensures { MatchResult result (λ made. made ≡ map made_line lines.now) (λ fault. fault ≡ fault_is.OutOfMemory) }
    {
        let mut pool = Pool::new(alloc, buffers_for(lines), usize::from(octets_for(lines)))?;
        let mut made = Vec::new(alloc);
        for line in lines {
            let line = SwitchLine::new(alloc, *line, &mut pool)?;
            match made.push(line) {
                Ok(()) => {}
                Err(failed) => return Err(AllocError::from(failed).into()),
            }
        }
        let touched = NumberSet::first(made.len());
        Ok(Lines {
            lines: made,
            pool,
            touched,
            untaken: NumberSet::new(),
            to_relay: ChannelSet::new(),
            refusing: ChannelSet::new(),
        })
    }

    /// How many lines there are, at most 64.
    pub fn len(&self) -> usize
        ensures count { result ≡ length self.now }
        ensures most { result ≤ MOST_LINES }
    {
        self.lines.len()
    }

    /// The switch's role on a line.
    pub fn role(&self, line: usize) -> Role
        requires { line < length self.now }
        ensures { role_on (slice_get self.now line) ≡ Some result }
    {
        self.lines[line].role()
    }

    /// Whether a timer of a line runs, also with no tick left.
    pub fn is_running(&self, line: usize, id: TimerId) -> bool
        requires { line < length self.now }
        ensures { result ≡ timer_runs (slice_get self.now line) id }
    {
        self.lines[line].is_running(id)
    }

    /// The first timer of a line that runs with no tick left.
    pub fn due(&self, line: usize) -> Option<TimerId>
        requires { line < length self.now }
        ensures { result ≡ due_on (slice_get self.now line) }
    {
        self.lines[line].due()
    }

    /// Whether all lines are at rest: each link is up with nothing unacknowledged, no packet waits to be sent or to be
    /// carried on, and nothing is gathered.
    pub fn is_at_rest(&self) -> bool
        ensures { result ≡ list_all line_rests self.now }
    {
        rest(&self.lines)
    }

    /// Takes the next frame that goes out on a line, if there is one.
    pub fn out(&mut self, line: usize, frame: &mut FrameBuf) -> bool
        requires { line < length self.old }
        ensures frame { OnTrue result (frames_on (slice_get self.old line)
            ≡ frame.new ∷ frames_on (slice_get self.new line)) }
        ensures nothing { OnFalse result (frames_on (slice_get self.old line) ≡ []) }
        ensures same { OnFalse result (frame.new ≡ frame.old) }
        ensures lines { self.new ≡ changed line (with_end without_first_frame) self.old }
    {
        self.lines[line].out(frame)
    }

    /// How many frames wait to go out on a line, at most [`MOST_FRAMES`].
    pub fn waiting_frames(&self, line: usize) -> usize
        requires { line < length self.now }
        ensures count { result ≡ length (frames_on (slice_get self.now line)) }
        ensures most { result ≤ MOST_FRAMES }
    {
        self.lines[line].waiting_frames()
    }

    /// Lines on which frames may wait to go out: on all others none does.
    pub fn with_frames(&self) -> NumberSet
        ensures there { AreThere result self.now }
        ensures others { HasAllFrames result self.now }
    {
        self.touched.with(self.untaken)
    }

    /// The channel that a channel is joined to, if it is. Then both are channels of these lines.
    pub fn other(&self, leg: SwitchChannel) -> Option<SwitchChannel>
        ensures other { result ≡ other_at self.now leg }
        ensures there { IfSome result (λ other. (leg.line < length self.now) × (other.line < length self.now)) }
    {
        other_of(&self.lines, leg)
    }

    /// Whether a line is a trunk.
    fn is_trunk(&self, line: usize) -> bool
        requires { line < length self.now }
        ensures { result ≡ is_trunk (slice_get self.now line) }
    {
        self.lines[line].address().is_none()
    }

    /// Joins a channel, or ends its join. What is gathered from there is dropped.
    fn set_joined(&mut self, leg: SwitchChannel, joined: Option<Joined>)
        requires there { leg.line < length self.old }
        requires other { ForSome joined (λ j. j.other.line < length self.old) }
        ensures { self.new ≡ with_joined leg (option_map begun joined) self.old }
    {
        self.to_relay.insert_join(leg, other_of(&self.lines, leg));
        self.to_relay.insert_join(leg, joined_to(&joined));
        self.lines[leg.line].set_joined(leg.channel, joined, &mut self.pool);
    }

    /// Asks something of a call. What is refused changes nothing.
    fn ask(&mut self, leg: SwitchChannel, request: &Request<'_>)
        requires { leg.line < length self.old }
        ensures { self.new ≡ ask leg (request_of request.now) self.old }
    {
        self.touched.insert(leg.line);
        self.to_relay.insert_join(leg, other_of(&self.lines, leg));
        self.lines[leg.line].ask(leg.channel, request, &mut self.pool);
    }

    /// What `take` would give.
    fn front(&self, leg: SwitchChannel) -> Option<Front>
        requires { leg.line < length self.now }
        ensures { result ≡ maybe_front (front_at self.now leg) }
    {
        self.lines[leg.line].front(leg.channel, &self.pool)
    }

    /// Restarts the direction from a joined channel. What is gathered from there is dropped.
    fn renew(&mut self, leg: SwitchChannel)
        requires { leg.line < length self.old }
        ensures { self.new ≡ kept_at leg (λ v. new_direction) self.old }
    {
        self.to_relay.insert_join(leg, other_of(&self.lines, leg));
        self.lines[leg.line].renew(leg.channel, &mut self.pool);
    }

    /// P(R) covers so many packets more of the channel that a channel is joined to.
    fn cover(&mut self, leg: SwitchChannel, count: u8)
        requires { leg.line < length self.old }
        ensures { self.new ≡ kept_at leg (covered_by count) self.old }
    {
        self.lines[leg.line].cover(leg.channel, count);
    }

    /// Releases what may be released of the packets taken on a joined channel.
    fn release(&mut self, leg: SwitchChannel)
        requires { leg.line < length self.old }
        ensures { self.new ≡ freed_at leg self.old }
    {
        self.touched.insert(leg.line);
        self.lines[leg.line].release(leg.channel, &mut self.pool);
    }
}
