//! A line whose other end is in another process.
ghost use Rattle.std.specs.Prelude.{◌≡◌, ◌++◌, length, take, drop, false, IfOk};
ghost use Rattle.std.specs.Bool.{OnTrue, OnFalse};
ghost use Rattle.std.specs.List.{list_all};
ghost use Rattle.line_carriers.specs.Carrier.{is_open, takes_octets, with_octets, takes_frame, after_next};
ghost use Rattle.line_carriers.specs.Wire.{frame_form};
ghost use Rattle.remote_lines.specs.RemoteLine.{
  new_line,
  state_of,
  connected,
  lost,
  reading_of,
  after_read,
  may_start,
  lets_start,
  started,
  elapsed,
  first_order,
  after_order,
};

use crate::order::{Ending, LineOrder};
use frame_codec::FrameBuf;
use line_carriers::{Carrier, Expiry, Heard, Hello};
use link_timers::Role;
use std::alloc::{AllocError, Global};
use std::ops::Deref;

/// An end of a line: the number of the line in the network file, from 0, the role of the end, and the place of the node
/// there.
#[derive(Clone, Copy)]
pub struct LineEnd {
    pub line: usize,
    pub role: Role,
    pub node: usize,
}

/// How far a line is.
#[derive(Clone, Copy)]
pub enum LineState {
    /// The node here starts, and the partner has not said that it may.
    Starting,
    /// The node here may start, as far as this line goes.
    Ready,
    /// The node here has started, and the line is not open.
    Closed,
    /// Frames go both ways.
    Open,
}

/// What was read of a line.
#[derive(Clone, Copy)]
pub enum Reading {
    /// Nothing: what comes next is not there, or not whole.
    Nothing,
    /// What concerns the line alone: the partner's hello, a sign, a frame that is lost, or a fault.
    OfLine,
    /// A frame for the node here.
    Frame,
}

/// A line whose other end is in another process.
///
/// The line is closed until both ends have opened it over the connection that stands: no frame is sent, and each that
/// comes is lost. The node here starts when the partner of each of its lines is ready, or did not answer for twice the
/// time of silence. What asks about the connection, without a change, is a call of [`Carrier`].
#[derive(Drop)]
pub struct RemoteLine {
    end: LineEnd,
    carrier: Carrier,
    /// How many ticks the node here waits for the partner before it starts.
    wait: u32,
    /// Whether the link is to be given up.
    gives_up: bool,
    /// Why the connection is to be closed.
    ending: Option<Ending>,
    /// Whether the log has it that the line is open.
    told_open: bool,
}

impl Deref for RemoteLine {
    type Target = Carrier;

    fn deref(&self) -> &Carrier
        ensures { result.now ≡ self.now.carrier }
    {
        &self.carrier
    }
}

impl RemoteLine {
    /// A line without a connection, whose node here has not started. `hello` is what this end says of itself. After
    /// `hold` ticks without a connection over which the partner said hello the link is to be given up. A connection over
    /// which nothing came for `silence` ticks is closed. Twenty ticks are a second. `AllocError` comes for want of memory;
    /// no other call wants any.
    pub fn new(
        alloc: Global,
        end: LineEnd,
        hello: Hello,
        hold: u16,
        silence: u16,
    ) -> Result<Self, AllocError>
        ensures { IfOk result (λ line. line ≡ new_line end hello hold silence) }
    {
        Ok(RemoteLine {
            end,
            carrier: Carrier::new(alloc, hello, hold, silence)?,
            wait: 2 * u32::from(silence),
            gives_up: false,
            ending: None,
            told_open: false,
        })
    }

    /// The end here.
    pub fn end(&self) -> LineEnd
        ensures { result ≡ self.now.end }
    {
        self.end
    }

    /// How far the line is.
    pub fn state(&self) -> LineState
        ensures { result ≡ state_of self.now }
    {
        if self.carrier.has_started() {
            if self.carrier.is_open() {
                LineState::Open
            } else {
                LineState::Closed
            }
        } else if self.carrier.is_ready() {
            LineState::Ready
        } else {
            LineState::Starting
        }
    }

    /// A new connection to the partner stands, and replaces the old one: what that one had is dropped, and there is no
    /// order to close it.
    pub fn connected(&mut self)
        ensures { self.new ≡ connected self.old }
    {
        self.carrier.connected();
        self.ending = None;
    }

    /// The connection broke, or was closed, if one stood: what it had is dropped.
    pub fn lost(&mut self)
        ensures { self.new ≡ lost self.old }
    {
        self.carrier.lost();
        self.ending = None;
    }

    /// Takes octets that came over the connection, from the first on, as many as there is room for. The answer is how
    /// many were taken: none without a connection.
    pub fn octets(&mut self, octets: &[u8]) -> usize
        ensures taken { result ≡ takes_octets self.old.carrier (length octets.now) }
        ensures after { self.new ≡ record self.old { carrier = with_octets self.old.carrier (take result octets.now) } }
    {
        self.carrier.octets(octets)
    }

    /// Drops the first `count` octets that wait, which were written; all, if there are fewer.
    pub fn written(&mut self, count: usize)
        ensures { self.new ≡ record self.old {
          carrier = record self.old.carrier { output = drop count self.old.carrier.output };
        } }
    {
        self.carrier.written(count);
    }

    /// Sends a frame of 1 to 1,030 octets, if the line is open and has room for the whole of it. Else the frame is lost,
    /// and nothing changes.
    pub fn send(&mut self, frame: &[u8]) -> bool
        ensures sent { OnTrue result (self.new ≡ record self.old {
          carrier = record self.old.carrier { output = self.old.carrier.output ++ frame_form frame.now };
        }) }
        ensures lost { OnFalse result (self.new ≡ self.old) }
        ensures taken { result ≡ takes_frame self.old.carrier frame.now }
    {
        self.carrier.add_frame(frame)
    }

    /// Reads what comes next, if the whole of it came. A frame comes in place of what the buffer held. A fault closes the
    /// connection.
    pub fn read(&mut self, frame: &mut FrameBuf) -> Reading
        ensures reading { result ≡ reading_of (after_next self.old.carrier frame.old).answer }
        ensures after { self.new ≡ after_read self.old frame.old }
        ensures frame { frame.new ≡ (after_next self.old.carrier frame.old).frame }
    {
        match self.carrier.next(frame) {
            Ok(Heard::Nothing) => Reading::Nothing,
            Ok(Heard::Frame) => Reading::Frame,
            Ok(_) => Reading::OfLine,
            Err(fault) => {
                self.ending = Some(Ending::Fault(fault));
                Reading::OfLine
            }
        }
    }

    /// Whether the node here may start, as far as this line goes: the partner is ready, or twice the time of silence is
    /// over since the process began.
    pub fn may_start(&self) -> bool
        ensures { result ≡ may_start self.now }
    {
        self.carrier.is_ready() || self.wait == 0
    }

    /// The node here has restarted: this end opens the line, now and at each connection to come. If there is no room to
    /// say so, the connection is closed.
    pub fn start(&mut self)
        ensures { self.new ≡ started self.old }
    {
        if let Err(fault) = self.carrier.start() {
            self.ending = Some(Ending::Fault(fault));
        }
    }

    /// Lets ticks pass. After `silence` ticks without an octet the connection is closed. After `hold` ticks without a
    /// connection over which the partner said hello the link is to be given up, if the node here has started.
    pub fn elapse(&mut self, ticks: u16)
        ensures { self.new ≡ elapsed self.old ticks }
    {
        self.wait = self.wait.saturating_sub(u32::from(ticks));
        match self.carrier.elapse(ticks) {
            Some(Expiry::Silence) => self.ending = Some(Ending::Silence),
            Some(Expiry::Hold) => self.gives_up = self.carrier.has_started(),
            None => {}
        }
    }

    /// Whether the end here is to give the link up.
    pub fn gives_up(&self) -> bool
        ensures { result ≡ self.now.gives_up }
    {
        self.gives_up
    }

    /// The link was given up.
    pub fn gave_up(&mut self)
        ensures { self.new ≡ record self.old { gives_up = false } }
    {
        self.gives_up = false;
    }

    /// What is to be done next for the line, if anything: each thing is ordered once. Its connection is closed first, if
    /// this end has ended it. Then the log is told whether the line is open, if it has it otherwise.
    pub fn next_order(&mut self) -> Option<LineOrder>
        ensures order { result ≡ first_order self.old }
        ensures after { self.new ≡ after_order self.old }
    {
        if let Some(ending) = self.ending {
            self.ending = None;
            return Some(LineOrder::Close(ending));
        }
        let open = self.carrier.is_open();
        if open == self.told_open {
            return None;
        }
        self.told_open = open;
        Some(if open {
            LineOrder::TellOpen
        } else {
            LineOrder::TellClosed
        })
    }
}

/// Whether the node of this place may start: each of these lines that ends there lets it.
pub fn may_start(lines: &[RemoteLine], node: usize) -> bool
    ensures { result ≡ list_all (λ line. lets_start node line) lines.now }
{
    lines
        .iter()
        .all(|line| line.end.node != node || line.may_start())
}
