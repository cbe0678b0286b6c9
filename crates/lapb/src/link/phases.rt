//! What a link makes of a frame in each phase (X.25 2.4.4, 2.4.7.3), and of octets that are no frame.
ghost use Rattle.std.specs.Prelude.{◌≡◌};
ghost use Rattle.frame_codec.specs.Views.{content_of, value_of};
ghost use Rattle.frame_codec.specs.Spelling.{HasNumbers};
ghost use Rattle.lapb.specs.Machine as machine;
ghost use Rattle.lapb.specs.Out.{with_step};
ghost use Rattle.frame_codec.specs.Frame as spec;

use crate::link::Link;
use crate::out::LinkOut;
use crate::phase::Phase;
use crate::sent::response;
use frame_codec::{Frame, FrameKind};
use link_timers::Role;

impl Link {
    /// A frame that could be read. A DCE takes a SABM in any phase.
    #[inline(always)]
    pub(crate) fn take_frame(&mut self, frame: &Frame<'_>, out: &mut LinkOut) -> bool
        requires { HasNumbers (content_of frame.now.kind) }
        ensures link { self.new ≡ record self.old {
          link = (machine.on_frame self.old.link (value_of frame.now)).link;
        } }
        ensures out { out.new ≡ with_step out.old self.old.link.role
            (machine.on_frame self.old.link (value_of frame.now)) }
        ensures anew { result ≡ (machine.on_frame self.old.link (value_of frame.now)).anew }
    {
        match (frame.kind, self.role) {
            (FrameKind::Sabm, Role::Dce) => self.take_sabm(frame.pf, out),
            (FrameKind::Sabm, Role::Dte)
            | (FrameKind::I { .. }, _)
            | (FrameKind::Rr { .. }, _)
            | (FrameKind::Rnr { .. }, _)
            | (FrameKind::Rej { .. }, _)
            | (FrameKind::Disc, _)
            | (FrameKind::Dm, _)
            | (FrameKind::Ua, _)
            | (FrameKind::Frmr(_), _) => self.in_phase(frame, out),
        }
    }

    #[inline(always)]
    fn in_phase(&mut self, frame: &Frame<'_>, out: &mut LinkOut) -> bool
        requires { HasNumbers (content_of frame.now.kind) }
        ensures link { self.new ≡ record self.old {
          link = (machine.in_phase self.old.link.phase self.old.link.role self.old.link (content_of
              frame.now.kind) frame.now.response frame.now.pf).link;
        } }
        ensures out { out.new ≡ with_step out.old self.old.link.role
            (machine.in_phase self.old.link.phase self.old.link.role self.old.link (content_of frame.now.kind)
            frame.now.response frame.now.pf) }
        ensures anew { result ≡ (machine.in_phase self.old.link.phase self.old.link.role self.old.link
            (content_of
            frame.now.kind) frame.now.response frame.now.pf).anew }
    {
        match self.phase {
            Phase::Up => self.in_up(frame, out),
            Phase::Down => self.in_down(frame, out),
            Phase::SettingUp => self.in_setting_up(frame, out),
            Phase::Rejecting => self.in_rejecting(frame, out),
        }
    }

    /// DISC and a command with P = 1 are answered by DM; DM or SABM begins an act at a DTE.
    fn in_down(&mut self, frame: &Frame<'_>, out: &mut LinkOut) -> bool
        ensures link { self.new ≡ record self.old {
          link = (machine.in_down self.old.link.role self.old.link (content_of frame.now.kind)
              frame.now.response frame.now.pf).link;
        } }
        ensures out { out.new ≡ with_step out.old self.old.link.role
            (machine.in_down self.old.link.role self.old.link (content_of frame.now.kind) frame.now.response
            frame.now.pf) }
        ensures anew { result ≡ (machine.in_down self.old.link.role self.old.link (content_of
            frame.now.kind)
            frame.now.response frame.now.pf).anew }
    {
        match (self.role, frame.kind) {
            (Role::Dte, FrameKind::Sabm | FrameKind::Dm) => self.set_up(out),
            (_, FrameKind::Disc) => self.sends_disconnected(frame.pf, out),
            (Role::Dce, FrameKind::Sabm | FrameKind::Dm)
            | (_, FrameKind::I { .. })
            | (_, FrameKind::Rr { .. })
            | (_, FrameKind::Rnr { .. })
            | (_, FrameKind::Rej { .. })
            | (_, FrameKind::Ua)
            | (_, FrameKind::Frmr(_)) => {
                if frame.pf && !frame.response {
                    self.sends_disconnected(true, out)
                } else {
                    self.still(out)
                }
            }
        }
    }

    fn in_setting_up(&mut self, frame: &Frame<'_>, out: &mut LinkOut) -> bool
        ensures link { self.new ≡ record self.old {
          link = (machine.in_setting_up self.old.link (content_of frame.now.kind) frame.now.response
              frame.now.pf).link;
        } }
        ensures out { out.new ≡ with_step out.old self.old.link.role
            (machine.in_setting_up self.old.link (content_of frame.now.kind) frame.now.response frame.now.pf) }
        ensures anew { result ≡ (machine.in_setting_up self.old.link (content_of frame.now.kind)
            frame.now.response frame.now.pf).anew }
    {
        match frame.kind {
            FrameKind::Ua => {
                if frame.pf == self.bit {
                    self.come_up(out)
                } else {
                    self.still(out)
                }
            }
            FrameKind::Disc => self.sends_disconnected(frame.pf, out),
            FrameKind::I { .. }
            | FrameKind::Rr { .. }
            | FrameKind::Rnr { .. }
            | FrameKind::Rej { .. }
            | FrameKind::Sabm
            | FrameKind::Dm
            | FrameKind::Frmr(_) => self.still(out),
        }
    }

    /// A DCE that sent FRMR sends it again at each command.
    fn in_rejecting(&mut self, frame: &Frame<'_>, out: &mut LinkOut) -> bool
        ensures link { self.new ≡ record self.old {
          link = (machine.in_rejecting self.old.link (content_of frame.now.kind) frame.now.response
              frame.now.pf).link;
        } }
        ensures out { out.new ≡ with_step out.old self.old.link.role
            (machine.in_rejecting self.old.link (content_of frame.now.kind) frame.now.response frame.now.pf) }
        ensures anew { result ≡ (machine.in_rejecting self.old.link (content_of frame.now.kind)
            frame.now.response frame.now.pf).anew }
    {
        match frame.kind {
            FrameKind::Disc => self.take_disc(frame.pf, out),
            FrameKind::I { .. }
            | FrameKind::Rr { .. }
            | FrameKind::Rnr { .. }
            | FrameKind::Rej { .. }
            | FrameKind::Sabm
            | FrameKind::Dm
            | FrameKind::Ua
            | FrameKind::Frmr(_) => {
                if frame.response {
                    self.still(out)
                } else {
                    self.sends_report(frame.pf, out)
                }
            }
        }
    }

    /// The Frame Reject that was sent last, again.
    pub(crate) fn sends_report(&self, pf: bool, out: &mut LinkOut) -> bool
        ensures out { out.new ≡ with_step out.old self.now.link.role (machine.sends self.now.link
            (machine.response (spec.Frmr self.now.link.report) pf)) }
        ensures anew { result ≡ (machine.sends self.now.link (machine.response (spec.Frmr self.now.link.report)
            pf)).anew }
    {
        self.sends(&response(FrameKind::Frmr(self.report), pf), out)
    }

    pub(crate) fn sends_disconnected(&self, pf: bool, out: &mut LinkOut) -> bool
        ensures out { out.new ≡ with_step out.old self.now.link.role (machine.sends self.now.link
            (machine.response spec.Dm pf)) }
        ensures anew { result ≡ (machine.sends self.now.link (machine.response spec.Dm pf)).anew }
    {
        self.sends(&response(FrameKind::Dm, pf), out)
    }
}
