//! The end of a line that a gateway has.
ghost use Rattle.std.specs.Prelude.{◌≡◌, [], ◌∷◌, MatchResult};
ghost use Rattle.std.specs.Bool.{OnTrue, OnFalse};
ghost use Rattle.lapb.specs.Machine as machine;
ghost use Rattle.lapb.specs.Octets.{on_octets};
ghost use Rattle.lapb.specs.Params.{AreParams};
ghost use Rattle.line_end.specs.End as end;
ghost use Rattle.gateway_end.specs.Params.{MadeNot, link_params};
ghost use Rattle.gateway_end.specs.GatewayEnd.{
  Elapses,
  Finishes,
  Follow,
  Heeds,
  IsHeldBack,
  IsMade,
  Pass,
  waiting_after,
};

mod connections;

use crate::asking::{heed, next_packet};
use crate::fault::GatewayFault;
use crate::params::GatewayParams;
use flow_window::pool::Pool;
use frame_codec::FrameBuf;
use line_end::LineEnd;
use link_timers::Role;
use std::alloc::Global;
use std::marker::Model;
use std::ops::Deref;
use xot_codec::XotPacket;
use xot_gateway::{Work, XotCalls};

/// How many packets the link may have unacknowledged, and one more.
const BUFFERS: usize = 8;

/// The end of a line that a gateway has, as the DTE of the line: the link (X.25 2.4), and each call of the line over a
/// connection of its own (RFC 1613).
///
/// An event is a frame that comes, time that passes, a link that is given up, or what happens at a connection, and then
/// `finish`. Then the frames are taken by `out`. A packet of the calls that the link does not take waits, and goes
/// before all others; it is lost only with the session of the link. What asks about the calls, without a change, is a
/// call of [`XotCalls`].
#[derive(Drop)]
pub struct GatewayEnd {
    line: LineEnd,
    calls: XotCalls,
    pool: Pool,
    /// The packet that waits for the link.
    next: Option<XotPacket>,
    /// How many connections there may be.
    connections: usize,
    /// The connection that is asked first for a packet.
    turn: usize,
}

impl Model for GatewayEnd {
    ghost use Rattle.gateway_end.specs.GatewayEnd.{GatewayEnd as EndValue};

    ghost Value = { EndValue };

    ghost use Rattle.gateway_end.specs.EndView.{end_of, IsEnd};

    ghost view = { end_of };

    ghost invariant = { IsEnd };
}

impl Deref for GatewayEnd {
    type Target = XotCalls;

    fn deref(&self) -> &XotCalls
        ensures { result.now ≡ self.now.calls }
    {
        &self.calls
    }
}

impl GatewayEnd {
    /// The end of a new line: its link is started. It takes all the memory that it ever uses.
    ///
    /// `BadParams` comes if `k` is not from 1 to 7 or `n2` not from 1 to 20, and then `OutOfMemory` for want of memory.
    pub fn new(alloc: Global, params: GatewayParams) -> Result<Self, GatewayFault>
        ensures { MatchResult result
            (λ end. AreParams (link_params params) × IsMade params end)
            (λ fault. MadeNot params fault) }
    {
        let link = params.link();
        link.check()?;
        let calls = XotCalls::new(alloc, params.line, params.channels, params.connections)?;
        let mut pool = Pool::new(alloc, BUFFERS, usize::from(link.info))?;
        let line = LineEnd::new(Role::Dte, link, &mut pool)?;
        Ok(GatewayEnd {
            line,
            calls,
            pool,
            next: None,
            connections: params.connections,
            turn: 0,
        })
    }

    /// Takes the octets of a frame of the line. The packet that it brings, if it does, goes to its call.
    pub fn on_frame(&mut self, octets: &[u8])
        ensures line { self.new.line ≡ end.received self.old.line octets.now }
        ensures calls { Follow (on_octets self.old.line.link octets.now) self.old.calls self.new.calls }
        ensures waiting { self.new.waiting ≡ waiting_after (on_octets self.old.line.link octets.now).note self.old.waiting }
    {
        let received = self.line.on_frame(octets, &mut self.pool);
        heed(received.note, &mut self.calls, &mut self.next);
        if let Some(packet) = received.packet {
            self.calls.from_line(packet);
        }
    }

    /// Lets ticks pass, each a twentieth of a second. If T1 has run out then, the link does what it has to.
    pub fn elapse(&mut self, ticks: u16)
        ensures { Elapses ticks self.old self.new }
    {
        self.line.elapse(ticks);
        self.calls.elapse(ticks);
        if !self.line.is_due() {
            return;
        }
        if let Some(note) = self.line.on_t1(&mut self.pool) {
            heed(note, &mut self.calls, &mut self.next);
        }
    }

    /// Gives the link up and sets it up again: each call is cleared.
    pub fn relink(&mut self)
        ensures line { self.new.line ≡ end.relinked self.old.line }
        ensures calls { Heeds (machine.relink self.old.line.link).note self.old.calls self.new.calls }
        ensures waiting { self.new.waiting ≡ waiting_after (machine.relink self.old.line.link).note self.old.waiting }
    {
        let note = self.line.relink(&mut self.pool);
        heed(note, &mut self.calls, &mut self.next);
    }

    /// Ends an event: packets of the calls go to the link, as many as it takes, and what it may send goes out. Each
    /// connection is asked in turn. If the answer is true, a packet of the calls was taken, and more may be there.
    pub fn finish(&mut self) -> bool
        ensures { Finishes self.old self.new }
    {
        let took = self.pass_packets();
        self.line.settle(&mut self.pool);
        took
    }

    /// Whether a packet of the calls waits for the link. Then connections are not asked for more.
    pub fn is_held_back(&self) -> bool
        ensures { OnFalse result (self.now.waiting ≡ []) }
    {
        self.next.is_some()
    }

    /// Packets of the calls pass to the link, as many as it takes. What waits goes first.
    fn pass_packets(&mut self) -> bool
        ensures pass { Pass self.old self.new }
        ensures held_back { IsHeldBack self.new }
    {
        let mut took = false;
        self.hand_over();
        for _ in 0..BUFFERS {
            if !self.pass_next(&mut took) {
                return took;
            }
        }
        took
    }

    /// The next packet of the calls passes to the link. The answer is whether the link took it.
    fn pass_next(&mut self, took: &mut bool) -> bool
        ensures pass { Pass self.old self.new }
        ensures held_back { IsHeldBack self.new }
    {
        let asked = self.ask();
        *took = *took || asked;
        self.hand_over()
    }

    /// Asks the calls for the next packet, if none waits, and says whether they had one.
    fn ask(&mut self) -> bool
        ensures { Pass self.old self.new }
    {
        if self.next.is_some() {
            return false;
        }
        let mut packet = XotPacket::new();
        match next_packet(
            &mut self.calls,
            self.connections,
            &mut self.turn,
            &mut packet,
        ) {
            Work::Nothing => false,
            Work::Taken => true,
            Work::Sends => {
                self.next = Some(packet);
                true
            }
        }
    }

    /// Offers the packet that waits to the link, and says whether the link took it.
    fn hand_over(&mut self) -> bool
        ensures pass { Pass self.old self.new }
        ensures held_back { IsHeldBack self.new }
    {
        let Some(packet) = &self.next else {
            return false;
        };
        if !self.line.can_offer() {
            return false;
        }
        let _ = self.line.offer(packet.as_slice(), &mut self.pool);
        self.next = None;
        true
    }

    /// Takes the next frame that goes out, if there is one. If there is none, `frame` stays as it is.
    pub fn out(&mut self, frame: &mut FrameBuf) -> bool
        ensures frame { OnTrue result (self.old.line.frames ≡ frame.new ∷ self.new.line.frames) }
        ensures nothing { OnFalse result (self.old.line.frames ≡ []) }
        ensures same { OnFalse result (frame.new ≡ frame.old) }
        ensures end { self.new ≡ record self.old { line = end.without_first self.old.line } }
    {
        self.line.out(frame)
    }
}
