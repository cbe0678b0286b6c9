//! One end of a line over a connection.
ghost use Rattle.std.specs.Prelude.{◌≡◌, ◌+◌, ◌-◌, ◌≤◌, [], ◌++◌, length, take, drop, min, IfOk};
ghost use Rattle.std.specs.Bool.{OnTrue, OnFalse};
ghost use Rattle.octet_rings.specs.Places.{most_octets};
ghost use Rattle.line_carriers.specs.Wire.{frame_form};
ghost use Rattle.line_carriers.specs.Carrier.{
  new_carrier,
  cut,
  connected,
  first_sign,
  meets,
  stands,
  lost,
  is_ready,
  is_open,
  with_octets,
  takes_octets,
  takes_frame,
  after_start,
  after_next,
  read_by,
  after_hello,
  after_item,
  after_sign,
  after_ticks,
  absence_after,
  after_beat,
};

use crate::fault::CarrierFault;
use crate::hello::{HELLO, Hello};
use crate::sign::Sign;
use crate::wire::{Item, LENGTH, SIGN, add_frame, add_sign, next_item};
use arrayvec::ArrayVec;
use frame_codec::{FrameBuf, MAX_FRAME};
use link_timers::Countdown;
use octet_rings::OctetRing;
use std::alloc::{AllocError, Global};

/// What was read.
#[derive(Clone, Copy)]
pub enum Heard {
    /// Nothing: what comes next is not there, or not whole.
    Nothing,
    /// The partner's hello, with the number of its start.
    Hello(u64),
    /// A sign.
    Sign(Sign),
    /// A frame.
    Frame,
    /// A frame that is lost, since the line is closed.
    Lost,
}

/// What ran out.
#[derive(Clone, Copy)]
pub enum Expiry {
    /// Nothing came for `silence` ticks: the connection is to be closed.
    Silence,
    /// The partner's hello was not read for `hold` ticks: the link over the line is to be given up.
    Hold,
}

/// What the partner has said since its hello.
#[derive(Clone, Copy)]
struct Partner {
    ready: bool,
    opened: bool,
}

/// The connection to the partner.
#[derive(Clone, Copy)]
enum Connection {
    /// There is none.
    Away,
    /// The partner's hello is not read yet.
    Greeting,
    /// The partner's hello is read.
    Met(Partner),
}

/// One end of a line whose other end is in another process. It reads and writes octets; who calls it has the socket.
///
/// The line is *open* if both ends have opened it over the connection that stands. Else it is closed: no frame is added,
/// and each frame that comes is lost. A new connection replaces the old one, and what the old one had is dropped.
#[derive(Drop)]
pub struct Carrier {
    hello: Hello,
    hold: u16,
    silence: u16,
    started: bool,
    connection: Connection,
    /// Until a connection that stands is closed.
    left: Countdown,
    /// Until the link is given up. It runs as long as the partner's hello is not read.
    absence: Countdown,
    /// Until the partner is told again that this end is still here.
    pulse: Countdown,
    input: OctetRing,
    output: OctetRing,
}

impl Carrier {
    /// An end without a connection, whose node has not started yet. After `hold` ticks without a connection over which the
    /// partner said hello it tells so; a connection over which nothing came for `silence` ticks is closed. Twenty ticks
    /// are a second. `AllocError` comes for want of memory; no other call wants any.
    pub fn new(alloc: Global, hello: Hello, hold: u16, silence: u16) -> Result<Self, AllocError>
        ensures { IfOk result (λ carrier. carrier ≡ new_carrier hello hold silence) }
    {
        let input = OctetRing::new(alloc)?;
        let output = OctetRing::new(alloc)?;
        let mut absence = Countdown::new();
        absence.start(hold);
        Ok(Carrier {
            hello,
            hold,
            silence,
            started: false,
            connection: Connection::Away,
            left: Countdown::new(),
            absence,
            pulse: Countdown::new(),
            input,
            output,
        })
    }

    /// A new connection stands, and replaces the old one: what that one had is dropped. This end says hello, and that it
    /// is open, or that it starts.
    pub fn connected(&mut self)
        ensures { self.new ≡ connected self.old }
    {
        self.cut();
        self.connection = Connection::Greeting;
        self.left.start(self.silence);
        self.pulse.start(self.silence / 3);
        self.hello.say(&mut self.output);
        let sign = self.first_sign();
        add_sign(&mut self.output, sign);
    }

    /// What this end says after its hello.
    fn first_sign(&self) -> Sign
        ensures { result ≡ first_sign self.now }
    {
        if self.started {
            Sign::Open
        } else {
            Sign::Starting
        }
    }

    /// The connection broke, if one stood: what it had is dropped.
    pub fn lost(&mut self)
        ensures { self.new ≡ lost self.old }
    {
        if self.stands() {
            self.cut();
        }
    }

    fn cut(&mut self)
        ensures { self.new ≡ cut self.old }
    {
        self.miss();
        self.connection = Connection::Away;
        self.left.stop();
        self.pulse.stop();
        self.input.clear();
        self.output.clear();
    }

    /// The partner is absent from now on, if it was there.
    fn miss(&mut self)
        ensures { self.new ≡ record self.old { absence = absence_after self.old.connection self.old } }
    {
        if matches!(self.connection, Connection::Met(_)) {
            self.absence.start(self.hold);
        }
    }

    /// What the first octets over a connection say, before it replaces the one that stands: the number of the partner's
    /// start, or the first thing that differs from the hello of a partner. Fewer than 48 octets are none.
    pub fn meets(&self, octets: &[u8]) -> Result<u64, CarrierFault>
        ensures { result ≡ meets self.now octets.now }
    {
        match octets.get(..HELLO) {
            Some(hello) => self.hello.read_other(hello),
            None => Err(CarrierFault::OtherProtocol),
        }
    }

    /// Whether a connection stands.
    pub fn stands(&self) -> bool
        ensures { result ≡ stands self.now }
    {
        !matches!(self.connection, Connection::Away)
    }

    /// Whether the partner has said that this end may start.
    pub fn is_ready(&self) -> bool
        ensures { result ≡ is_ready self.now }
    {
        matches!(self.connection, Connection::Met(partner) if partner.ready)
    }

    /// Whether the line is open.
    pub fn is_open(&self) -> bool
        ensures { result ≡ is_open self.now }
    {
        self.started && matches!(self.connection, Connection::Met(partner) if partner.opened)
    }

    /// Whether the node here has restarted over this line: this end opens the line at each connection.
    pub fn has_started(&self) -> bool
        ensures { result ≡ self.now.started }
    {
        self.started
    }

    /// The node here has restarted: this end opens the line, now and at each connection to come. Only the first call
    /// does anything. If there is no room to say so the connection is closed, with `NoRoom`.
    pub fn start(&mut self) -> Result<(), CarrierFault>
        ensures after { self.new ≡ (after_start self.old).carrier }
        ensures answer { result ≡ (after_start self.old).answer }
    {
        if self.started {
            return Ok(());
        }
        self.started = true;
        if !self.stands() {
            return Ok(());
        }
        if self.output.room() < SIGN {
            self.cut();
            return Err(CarrierFault::NoRoom);
        }
        add_sign(&mut self.output, Sign::Open);
        Ok(())
    }

    /// Takes octets that came, from the first on, as many as there is room for; none without a connection. The answer
    /// is how many were taken.
    pub fn octets(&mut self, octets: &[u8]) -> usize
        ensures taken { result ≡ takes_octets self.old (length octets.now) }
        ensures after { self.new ≡ with_octets self.old (take result octets.now) }
    {
        if !self.stands() {
            return 0;
        }
        self.left.start(self.silence);
        self.input.fill(octets)
    }

    /// Octets that wait to be written, from the first on: some if there are any, and not always all.
    pub fn waiting(&self) -> &[u8]
        ensures front { take (length result.now) self.now.output ≡ result.now }
        ensures some { length result.now ≡ 0 → self.now.output ≡ [] }
    {
        self.output.waiting()
    }

    /// Drops the first `count` octets that wait, which were written; all, if there are fewer.
    pub fn written(&mut self, count: usize)
        ensures { self.new ≡ record self.old { output = drop count self.old.output } }
    {
        self.output.drop_front(count);
    }

    /// Adds a frame of 1 to 1,030 octets, the whole of it, if the line is open and has room for it. Else nothing changes,
    /// and the frame is lost.
    pub fn add_frame(&mut self, frame: &[u8]) -> bool
        ensures added { OnTrue result (self.new ≡ record self.old { output = self.old.output ++ frame_form frame.now }) }
        ensures lost { OnFalse result (self.new ≡ self.old) }
        ensures taken { result ≡ takes_frame self.old frame.now }
    {
        if !self.takes_frame(frame) {
            return false;
        }
        add_frame(&mut self.output, frame);
        true
    }

    fn takes_frame(&self, frame: &[u8]) -> bool
        ensures { result ≡ takes_frame self.now frame.now }
    {
        !frame.is_empty()
            && frame.len() <= MAX_FRAME
            && self.is_open()
            && self.output.room() >= LENGTH + frame.len()
    }

    /// Reads what comes next, if the whole of it came: the hello, a sign or a frame. A frame comes in place of what the
    /// buffer held. To a partner that starts this end says that it is ready.
    ///
    /// A fault closes the connection: something differs in the hello (`OtherProtocol`, `OtherVersion`, `OtherNetwork`,
    /// `OtherLine`, `OtherRole`, the first of them), a frame is `TooLong`, an octet is an `UnknownSign`, the partner starts
    /// after it has opened (`OutOfTurn`), or there is no room for the answer (`NoRoom`).
    pub fn next(&mut self, frame: &mut FrameBuf) -> Result<Heard, CarrierFault>
        ensures after { self.new ≡ (after_next self.old frame.old).carrier }
        ensures answer { result ≡ (after_next self.old frame.old).answer }
        ensures frame { frame.new ≡ (after_next self.old frame.old).frame }
    {
        let heard = self.read(frame);
        if heard.is_err() {
            self.cut();
        }
        heard
    }

    fn read(&mut self, frame: &mut FrameBuf) -> Result<Heard, CarrierFault>
        ensures after { self.new ≡ (read_by self.old.connection self.old frame.old).carrier }
        ensures answer { result ≡ (read_by self.old.connection self.old frame.old).answer }
        ensures frame { frame.new ≡ (read_by self.old.connection self.old frame.old).frame }
    {
        match self.connection {
            Connection::Away => Ok(Heard::Nothing),
            Connection::Greeting => self.next_hello(),
            Connection::Met(partner) => self.next_item(partner, frame),
        }
    }

    fn next_hello(&mut self) -> Result<Heard, CarrierFault>
        ensures after { self.new ≡ (after_hello self.old).carrier }
        ensures answer { result ≡ (after_hello self.old).answer }
    {
        if self.input.len() < HELLO {
            return Ok(Heard::Nothing);
        }
        let octets = self.take_hello();
        let start = self.hello.read_other(octets.as_slice())?;
        self.connection = Connection::Met(Partner {
            ready: false,
            opened: false,
        });
        self.absence.stop();
        Ok(Heard::Hello(start))
    }

    fn take_hello(&mut self) -> ArrayVec<u8, HELLO>
        requires { 48 ≤ length self.old.input }
        ensures octets { result.items ≡ take 48 self.old.input }
        ensures size { length result.items ≡ 48 }
        ensures rest { self.new ≡ record self.old { input = drop 48 self.old.input } }
    {
        let (first, second) = self.input.front(HELLO);
        let octets = joined(first, second);
        self.input.drop_front(HELLO);
        octets
    }

    fn next_item(&mut self, partner: Partner, frame: &mut FrameBuf) -> Result<Heard, CarrierFault>
        ensures after { self.new ≡ (after_item self.old partner frame.old).carrier }
        ensures answer { result ≡ (after_item self.old partner frame.old).answer }
        ensures frame { frame.new ≡ (after_item self.old partner frame.old).frame }
    {
        match next_item(&mut self.input, frame)? {
            None => Ok(Heard::Nothing),
            Some(Item::Sign(sign)) => self.hear(partner, sign),
            Some(Item::Frame) if self.is_open() => Ok(Heard::Frame),
            Some(Item::Frame) => Ok(Heard::Lost),
        }
    }

    fn hear(&mut self, partner: Partner, sign: Sign) -> Result<Heard, CarrierFault>
        ensures after { self.new ≡ (after_sign self.old partner sign).carrier }
        ensures answer { result ≡ (after_sign self.old partner sign).answer }
    {
        match sign {
            Sign::StillHere => {}
            Sign::Starting if partner.opened => return Err(CarrierFault::OutOfTurn),
            Sign::Starting if self.output.room() < SIGN => return Err(CarrierFault::NoRoom),
            Sign::Starting => add_sign(&mut self.output, Sign::Ready),
            Sign::Ready => self.connection = Connection::Met(Partner {
                ready: true,
                ..partner
            }),
            Sign::Open => self.connection = Connection::Met(Partner {
                opened: true,
                ..partner
            }),
        }
        Ok(Heard::Sign(sign))
    }

    /// Lets ticks pass, and tells what ran out: `Silence` closes the connection, `Hold` comes once until the partner's hello
    /// is read. After each third of `silence` the partner is told that this end is still here, unless octets wait to be
    /// written.
    pub fn elapse(&mut self, ticks: u16) -> Option<Expiry>
        ensures after { self.new ≡ (after_ticks self.old ticks).carrier }
        ensures expiry { result ≡ (after_ticks self.old ticks).expiry }
    {
        self.left.elapse(ticks);
        self.absence.elapse(ticks);
        self.pulse.elapse(ticks);
        if self.left.is_due() {
            self.cut();
            return Some(Expiry::Silence);
        }
        if self.absence.is_due() {
            self.absence.stop();
            return Some(Expiry::Hold);
        }
        if self.pulse.is_due() {
            self.beat();
        }
        None
    }

    fn beat(&mut self)
        ensures { self.new ≡ after_beat self.old }
    {
        self.pulse.start(self.silence / 3);
        if self.output.len() == 0 {
            add_sign(&mut self.output, Sign::StillHere);
        }
    }
}

/// The octets of a hello that came in two pieces.
fn joined(first: &[u8], second: &[u8]) -> ArrayVec<u8, HELLO>
    requires { length first.now + length second.now ≤ 48 }
    ensures { result.items ≡ first.now ++ second.now }
{
    let mut octets = ArrayVec::new();
    let _ = octets.try_extend_from_slice(first);
    let _ = octets.try_extend_from_slice(second);
    octets
}
