//! The end of a line: its link, T1, and the frames that go out.
ghost use Rattle.std.specs.Prelude.{
  ◌≡◌,
  ◌≤◌,
  ◌<◌,
  [],
  ◌∷◌,
  length,
  MatchOption,
  MatchResult,
  IsOk,
  is_ok,
  OnErr,
  Err,
  Some,
  None,
  is_some,
  option_copied,
};
ghost use Rattle.std.specs.Bool.{OnTrue, OnFalse};
ghost use Rattle.link_timers.specs.Timers.{is_due};
ghost use Rattle.flow_window.specs.Pool.{Holds, Balances, in_use};
ghost use Rattle.frame_codec.specs.Spelling.{most_information};
ghost use Rattle.lapb.specs.Machine as machine;
ghost use Rattle.lapb.specs.Octets.{on_octets};
ghost use Rattle.lapb.specs.Offers.{refusal};
ghost use Rattle.lapb.specs.Unsent.{HasSentAll};
ghost use Rattle.lapb.specs.Params.{AreParams};
ghost use Rattle.line_end.specs.End.{
  timed,
  runs_then,
  made,
  without_frames,
  received,
  after_t1,
  t1_note,
  relinked,
  restarted,
  offered,
  settled,
  without_first,
  elapsed,
  SendsUpTo,
};

use flow_window::pool::Pool;
use frame_codec::FrameBuf;
use lapb::{BadParams, Link, LinkOut, LinkParams, MOST_FRAMES, Note, OfferFault, Timing};
use link_timers::{Countdown, Role};
use std::marker::Model;
use std::ops::Deref;

/// How long T1 runs, in ticks of a twentieth of a second (X.25 2.4.8.1).
const T1_TICKS: u16 = 60;

/// What a received frame tells the packet layer.
#[derive(Drop)]
pub struct Received<'a> {
    /// What becomes of the link.
    pub note: Note,
    /// The next packet of the session, if the frame brought it.
    pub packet: Option<&'a [u8]>,
}

/// The end of a line: the link (X.25 2.4), whose packets lie in buffers of a pool, T1, and the frames that go out.
///
/// A node calls it in this order in each of its events: `drop_frames`, what happens at this line (a frame, an expiry,
/// a relink), an offer of each packet that may go, `settle`; then it takes the frames by `out`. Up to [`MOST_FRAMES`]
/// frames wait to be taken; one more is dropped, as a lost frame, which no event with at most two calls before
/// `settle` comes to. What asks the link alone, without a change, is a call of [`Link`].
#[derive(Drop)]
pub struct LineEnd {
    link: Link,
    t1: Countdown,
    out: LinkOut,
}

impl Model for LineEnd {
    ghost use Rattle.line_end.specs.Held as held;

    ghost Value = { held.LineEnd };

    ghost use Rattle.line_end.specs.EndView.{holding, IsEnd};

    ghost view = { holding };

    ghost invariant = { IsEnd };
}

impl Deref for LineEnd {
    type Target = Link;

    fn deref(&self) -> &Link
        ensures link { result.now.link ≡ self.now.end.link }
        ensures most { self.now.end.link.k ≤ 7 }
    {
        &self.link
    }
}

impl LineEnd {
    /// The end of this role of a line. On a standing line the link is up. On any other it is started: a DTE sends SABM,
    /// a DCE asks for it by DM (X.25 2.4.4.1).
    ///
    /// `BadParams` comes if `k` is not from 1 to 7, `n2` not from 1 to 20, or `info` more than 1,028.
    pub fn new(role: Role, params: LinkParams, pool: &mut Pool) -> Result<LineEnd, BadParams>
        ensures end { MatchResult result
            (λ end. AreParams params × (end ≡ record { end = made role params; held = [] }))
            (λ _. AreParams params → ⊥) }
        ensures pool { Balances pool.old [] pool.new [] }
    {
        let mut end = LineEnd {
            link: Link::new(role, params)?,
            t1: Countdown::new(),
            out: LinkOut::new(),
        };
        if !params.standing {
            end.relink(pool);
        }
        Ok(end)
    }

    /// Begins an event of the node: drops the frames that were not taken, as lost.
    pub fn drop_frames(&mut self)
        ensures { self.new ≡ record self.old { end = without_frames self.old.end } }
    {
        self.out.clear_frames();
    }

    /// Takes the octets of a received frame (X.25 2.4.4 to 2.4.7).
    pub fn on_frame<'a>(&mut self, octets: &'a [u8], pool: &mut Pool) -> Received<'a>
        requires { Holds pool.old self.old.held }
        ensures end { self.new.end ≡ received self.old.end octets.now }
        ensures frames { SendsUpTo 1 self.old.end (on_octets self.old.end.link octets.now) }
        ensures note { result.note ≡ (on_octets self.old.end.link octets.now).note }
        ensures packet { option_copied result.packet ≡ (on_octets self.old.end.link octets.now).accepted }
        ensures pool { Balances pool.old self.old.held pool.new self.new.held }
        ensures tight { length self.new.held ≡ length self.new.end.link.queue }
        ensures most { length self.new.held ≤ self.new.end.link.k }
        ensures k { self.new.end.link.k ≡ self.old.end.link.k }
        ensures info { self.new.end.link.info ≡ self.old.end.link.info }
    {
        self.link.on_frame(octets, &mut self.out, pool);
        set_timer(&mut self.t1, self.out.take_timer());
        Received {
            note: self.out.note(),
            packet: if self.out.accepted() {
                octets.get(2..)
            } else {
                None
            },
        }
    }

    /// Takes an expiry of T1 (X.25 2.4.8.1): what it tells of the link, or `None` if T1 does not run, which changes
    /// nothing.
    pub fn on_t1(&mut self, pool: &mut Pool) -> Option<Note>
        requires { Holds pool.old self.old.held }
        ensures end { self.new.end ≡ after_t1 self.old.end }
        ensures frames { SendsUpTo 1 self.old.end (machine.on_t1 self.old.end.link) }
        ensures note { result ≡ t1_note self.old.end }

        // T1 runs exactly if the link needs it.
        ensures t1 { is_some self.old.end.t1 ≡ machine.runs self.old.end.link }
        ensures pool { Balances pool.old self.old.held pool.new self.new.held }
        ensures tight { length self.new.held ≡ length self.new.end.link.queue }
        ensures most { length self.new.held ≤ self.new.end.link.k }
        ensures k { self.new.end.link.k ≡ self.old.end.link.k }
        ensures info { self.new.end.link.info ≡ self.old.end.link.info }
    {
        if !self.t1.is_running() {
            return None;
        }
        self.t1.stop();
        self.link.on_t1(&mut self.out, pool);
        set_timer(&mut self.t1, self.out.take_timer());
        Some(self.out.note())
    }

    /// Gives the link up and sets it up again (X.25 2.4.4.1, 2.4.7). A DTE that is setting it up goes on.
    pub fn relink(&mut self, pool: &mut Pool) -> Note
        requires { Holds pool.old self.old.held }
        ensures end { self.new.end ≡ relinked self.old.end }
        ensures frames { SendsUpTo 1 self.old.end (machine.relink self.old.end.link) }
        ensures note { result ≡ (machine.relink self.old.end.link).note }
        ensures pool { Balances pool.old self.old.held pool.new self.new.held }
        ensures tight { length self.new.held ≡ length self.new.end.link.queue }
        ensures most { length self.new.held ≤ self.new.end.link.k }
        ensures k { self.new.end.link.k ≡ self.old.end.link.k }
        ensures info { self.new.end.link.info ≡ self.old.end.link.info }
    {
        self.link.relink(&mut self.out, pool);
        set_timer(&mut self.t1, self.out.take_timer());
        self.out.note()
    }

    /// Restarts with the node, as on a line that is not standing. What went before is forgotten, also the frames that
    /// were not taken.
    pub fn restart(&mut self, pool: &mut Pool)
        requires { Holds pool.old self.old.held }
        ensures end { self.new.end ≡ restarted self.old.end }
        ensures pool { Balances pool.old self.old.held pool.new self.new.held }
        ensures tight { length self.new.held ≡ length self.new.end.link.queue }
        ensures most { length self.new.held ≤ self.new.end.link.k }
        ensures k { self.new.end.link.k ≡ self.old.end.link.k }
        ensures info { self.new.end.link.info ≡ self.old.end.link.info }
    {
        self.link.restart(pool);
        self.t1.stop();
        self.out.clear_frames();
        self.relink(pool);
    }

    /// Offers a packet of at most `info` octets to the link. It goes out in an I frame by a later `settle`.
    ///
    /// `Down` comes if the link is not up, `Full` if k packets are unacknowledged. A packet that is refused changes
    /// nothing.
    pub fn offer(&mut self, packet: &[u8], pool: &mut Pool) -> Result<(), OfferFault>
        requires packet { length packet.now ≤ self.old.end.link.info }
        requires holds { Holds pool.old self.old.held }
        requires size { self.old.end.link.info ≤ pool.old.size }
        requires room { in_use pool.old < length pool.old.places }
        ensures answer { MatchOption (refusal self.old.end.link) (IsOk result) (λ fault. result ≡ Err fault) }
        ensures taken { is_ok result ≡ machine.can_offer self.old.end.link }
        ensures end { self.new.end ≡ offered self.old.end packet.now }

        // A packet that is refused changes nothing, in the pool too.
        ensures kept { OnErr result ((self.new ≡ self.old) × (pool.new ≡ pool.old)) }
        ensures pool { Balances pool.old self.old.held pool.new self.new.held }
        ensures tight { length self.new.held ≡ length self.new.end.link.queue }
        ensures most { length self.new.held ≤ self.new.end.link.k }
        ensures k { self.new.end.link.k ≡ self.old.end.link.k }
        ensures info { self.new.end.link.info ≡ self.old.end.link.info }
    {
        self.link.offer(packet, pool)
    }

    /// Ends an event of the node: the I frames that may go go out, in order. If none goes, RR goes if an
    /// acknowledgement is owed.
    pub fn settle(&mut self, pool: &mut Pool)
        requires holds { Holds pool.old self.old.held }
        requires size { pool.old.size ≤ most_information }
        ensures end { self.new.end ≡ settled self.old.end }

        // No packet that may go now stays unsent.
        ensures all_sent { HasSentAll self.new.end.link }
        ensures frames { SendsUpTo 7 self.old.end (machine.settle self.old.end.link) }

        // The buffers stay.
        ensures held { self.new.held ≡ self.old.held }
        ensures pool { pool.new ≡ pool.old }
        ensures most { length self.new.held ≤ self.new.end.link.k }
        ensures k { self.new.end.link.k ≡ self.old.end.link.k }
        ensures info { self.new.end.link.info ≡ self.old.end.link.info }
    {
        self.link.settle(&mut self.out, pool);
        set_timer(&mut self.t1, self.out.take_timer());
    }

    /// Takes the next frame that goes out, if there is one. If there is none, `frame` stays as it is.
    pub fn out(&mut self, frame: &mut FrameBuf) -> bool
        ensures frame { OnTrue result (self.old.end.frames ≡ frame.new ∷ self.new.end.frames) }
        ensures nothing { OnFalse result (self.old.end.frames ≡ []) }
        ensures same { OnFalse result (frame.new ≡ frame.old) }
        ensures end { self.new ≡ record self.old { end = without_first self.old.end } }
    {
        let Some(first) = self.out.frames().first() else {
            return false;
        };
        frame.clear();
        frame.extend(first.as_slice());
        self.out.drop_first();
        true
    }

    /// Lets ticks pass, each a twentieth of a second: T1 has so many less, if it runs, not below 0.
    pub fn elapse(&mut self, ticks: u16)
        ensures { self.new ≡ record self.old { end = elapsed self.old.end ticks } }
    {
        self.t1.elapse(ticks);
    }

    /// Whether T1 runs with no tick left.
    pub fn is_due(&self) -> bool
        ensures { result ≡ is_due self.now.end.t1 }
    {
        self.t1.is_due()
    }

    /// How many frames wait to be taken.
    pub fn waiting(&self) -> usize
        ensures count { result ≡ length self.now.end.frames }
        ensures most { result ≤ MOST_FRAMES }
    {
        self.out.frames().len()
    }

    /// Whether T1 runs, also with no tick left.
    pub fn runs_t1(&self) -> bool
        ensures { result ≡ is_some self.now.end.t1 }
    {
        self.t1.is_running()
    }
}

/// Does with T1 what a call of the link asks for.
fn set_timer(t1: &mut Countdown, change: Timing)
    ensures left { t1.new ≡ timed change t1.old }
    ensures runs { is_some t1.new ≡ runs_then change (is_some t1.old) }
{
    match change {
        Timing::Keep => {}
        Timing::Start => t1.start(T1_TICKS),
        Timing::Stop => t1.stop(),
    }
}
