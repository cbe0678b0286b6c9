//! Setting the link up and giving it up (X.25 2.4.4, 2.4.7). A rule answers whether T1 restarts.
ghost use Rattle.std.specs.Prelude.{◌≡◌, [], ◌∷◌};
ghost use Rattle.frame_codec.specs.Views.{report_of, value_of};
ghost use Rattle.frame_codec.specs.Spelling.{spelling, most_information, HasSpelling};
ghost use Rattle.lapb.specs.Machine as machine;
ghost use Rattle.lapb.specs.Out.{with_step, with_frames};

use crate::link::Link;
use crate::note::Note;
use crate::out::LinkOut;
use crate::phase::Phase;
use crate::sent::{command, response};
use frame_codec::{Frame, FrameKind, Rejection};
use link_timers::Role;

impl Link {
    ghost use Rattle.lapb.specs.LinkView.{IsReport};

    pub(crate) fn clear(&mut self, phase: Phase)
        ensures { self.new ≡ record self.old { link = machine.cleared self.old.link phase } }
    {
        self.phase = phase;
        self.window.clear();
        self.receive.clear();
        self.queue.clear();
        self.heard = false;
        self.owed = false;
        self.rejecting = false;
        self.busy = false;
        self.polling = false;
        self.polls = 0;
        self.repeats = false;
    }

    /// One frame is sent. Few of the calls send one, so its writing stays out of their way.
    #[inline(never)]
    pub(crate) fn put(&self, frame: &Frame<'_>, out: &mut LinkOut)
        requires { HasSpelling most_information (value_of frame.now) }
        ensures { out.new ≡ record out.old {
          frames = with_frames out.old.frames (spelling self.now.link.role (value_of frame.now) ∷ []);
        } }
    {
        out.put(self.role, frame);
    }

    /// Nothing happens.
    pub(crate) fn still(&self, out: &mut LinkOut) -> bool
        ensures out { out.new ≡ with_step out.old self.now.link.role (machine.still self.now.link) }
        ensures anew { result ≡ (machine.still self.now.link).anew }
    {
        out.tell(Note::Nothing);
        false
    }

    /// One frame is sent, and nothing else happens.
    pub(crate) fn sends(&self, frame: &Frame<'_>, out: &mut LinkOut) -> bool
        requires { HasSpelling most_information (value_of frame.now) }
        ensures out { out.new ≡ with_step out.old self.now.link.role
            (machine.sends self.now.link (value_of frame.now)) }
        ensures anew { result ≡ (machine.sends self.now.link (value_of frame.now)).anew }
    {
        out.tell(Note::Nothing);
        self.put(frame, out);
        false
    }

    /// A set-up act of a DTE; the SABMs of an act carry one P, those of the next the other.
    #[cold]
    #[inline(never)]
    pub(crate) fn set_up(&mut self, out: &mut LinkOut) -> bool
        ensures link { self.new ≡ record self.old { link = (machine.set_up self.old.link).link } }
        ensures out { out.new ≡ with_step out.old self.old.link.role (machine.set_up self.old.link) }
        ensures anew { result ≡ (machine.set_up self.old.link).anew }
    {
        out.tell(left(self.phase));
        self.clear(Phase::SettingUp);
        self.bit = !self.bit;
        self.put(&command(FrameKind::Sabm, self.bit), out);
        true
    }

    /// A DCE asks to be set up.
    #[cold]
    #[inline(never)]
    pub(crate) fn disconnect(&mut self, out: &mut LinkOut) -> bool
        ensures link { self.new ≡ record self.old { link = (machine.disconnect self.old.link).link } }
        ensures out { out.new ≡ with_step out.old self.old.link.role (machine.disconnect self.old.link) }
        ensures anew { result ≡ (machine.disconnect self.old.link).anew }
    {
        out.tell(left(self.phase));
        self.clear(Phase::Down);
        self.repeats = true;
        self.put(&response(FrameKind::Dm, false), out);
        true
    }

    pub(crate) fn relink_rule(&mut self, out: &mut LinkOut) -> bool
        ensures link { self.new ≡ record self.old { link = (machine.relink self.old.link).link } }
        ensures out { out.new ≡ with_step out.old self.old.link.role (machine.relink self.old.link) }
        ensures anew { result ≡ (machine.relink self.old.link).anew }
    {
        match (self.role, self.phase) {
            (Role::Dte, Phase::SettingUp) => self.still(out),
            (Role::Dte, Phase::Down | Phase::Up | Phase::Rejecting) => self.set_up(out),
            (Role::Dce, _) => self.disconnect(out),
        }
    }

    /// A DCE takes a SABM; it sends no I frame before it hears the DTE.
    #[cold]
    #[inline(never)]
    pub(crate) fn take_sabm(&mut self, pf: bool, out: &mut LinkOut) -> bool
        ensures link { self.new ≡ record self.old { link = (machine.take_sabm self.old.link pf).link } }
        ensures out { out.new ≡ with_step out.old self.old.link.role (machine.take_sabm self.old.link pf) }
        ensures anew { result ≡ (machine.take_sabm self.old.link pf).anew }
    {
        self.clear(Phase::Up);
        out.tell(Note::Up);
        self.put(&response(FrameKind::Ua, pf), out);
        false
    }

    /// A DTE takes the UA of its act, and polls.
    #[cold]
    #[inline(never)]
    pub(crate) fn come_up(&mut self, out: &mut LinkOut) -> bool
        ensures link { self.new ≡ record self.old { link = (machine.come_up self.old.link).link } }
        ensures out { out.new ≡ with_step out.old self.old.link.role (machine.come_up self.old.link) }
        ensures anew { result ≡ (machine.come_up self.old.link).anew }
    {
        self.clear(Phase::Up);
        self.heard = true;
        self.polling = true;
        self.polls = 1;
        out.tell(Note::Up);
        self.put(&command(FrameKind::Rr { nr: 0 }, true), out);
        true
    }

    /// DISC is answered by UA.
    #[cold]
    #[inline(never)]
    pub(crate) fn take_disc(&mut self, pf: bool, out: &mut LinkOut) -> bool
        ensures link { self.new ≡ record self.old { link = (machine.take_disc self.old.link pf).link } }
        ensures out { out.new ≡ with_step out.old self.old.link.role (machine.take_disc self.old.link pf) }
        ensures anew { result ≡ (machine.take_disc self.old.link pf).anew }
    {
        out.tell(left(self.phase));
        self.clear(Phase::Down);
        self.put(&response(FrameKind::Ua, pf), out);
        false
    }

    /// A frame cannot be taken: a DTE sets the link up again, a DCE reports the frame by FRMR.
    #[cold]
    #[inline(never)]
    pub(crate) fn reject(&mut self, report: Rejection, pf: bool, out: &mut LinkOut) -> bool
        requires { IsReport report }
        ensures link { self.new ≡ record self.old {
          link = (machine.reject_as self.old.link.role self.old.link
              (report_of report) pf).link;
        } }
        ensures out { out.new ≡ with_step out.old self.old.link.role (machine.reject_as self.old.link.role self.old.link
            (report_of report) pf) }
        ensures anew { result ≡ (machine.reject_as self.old.link.role self.old.link (report_of report) pf).anew }
    {
        match self.role {
            Role::Dte => self.set_up(out),
            Role::Dce => {
                out.tell(left(self.phase));
                self.clear(Phase::Rejecting);
                self.report = report;
                self.put(&response(FrameKind::Frmr(report), pf), out);
                true
            }
        }
    }

    /// What a Frame Reject is to tell of a frame.
    pub(crate) fn report_on(&self, control: u8, response: bool, reason: Reason) -> Rejection
        ensures value { report_of result ≡ machine.report_of self.now.link control response reason.w reason.x reason.y
            reason.z }
        ensures valid { IsReport result }
    {
        Rejection {
            control,
            vs: self.window.next_number(),
            vr: self.receive.expected(),
            response,
            w: reason.w,
            x: reason.x,
            y: reason.y,
            z: reason.z,
        }
    }
}

/// Why a frame is rejected: W, X, Y and Z of a Frame Reject.
#[derive(Clone, Copy)]
pub(crate) struct Reason {
    pub(crate) w: bool,
    pub(crate) x: bool,
    pub(crate) y: bool,
    pub(crate) z: bool,
}

/// What the packet layer is told where the link leaves this phase for none of a session.
fn left(phase: Phase) -> Note
    ensures { result ≡ machine.left phase }
{
    match phase {
        Phase::Up => Note::Down,
        Phase::Down | Phase::SettingUp | Phase::Rejecting => Note::Nothing,
    }
}
