//! Octets that are no frame (X.25 2.4.6, 2.4.7.3).
ghost use Rattle.std.specs.Prelude.{◌≡◌, ◌<◌, length, true};
ghost use Rattle.link_timers.specs.Role.{other_of};
ghost use Rattle.frame_codec.specs.Spelling.{address_of, HasNumbers};
ghost use Rattle.frame_codec.specs.Views.{content_of, report_of, value_of};
ghost use Rattle.lapb.specs.Machine as machine;
ghost use Rattle.lapb.specs.Octets.{on_fault, on_octets};
ghost use Rattle.lapb.specs.Defects.{defect_of};
ghost use Rattle.lapb.specs.Out.{gathered, with_step};

use crate::link::Link;
use crate::link::setting::Reason;
use crate::out::LinkOut;
use crate::phase::Phase;
use frame_codec::{Frame, FrameFault, FrameKind, Rejection, read_frame};
use link_timers::Role;

/// Why a frame of this line could not be read.
#[derive(Clone, Copy)]
pub(crate) enum Defect {
    UndefinedControl,
    InformationNotAllowed,
    InformationTooLong,
}

impl Link {
    ghost use Rattle.lapb.specs.LinkView.{IsReport};

    /// Takes octets, and says what becomes of T1.
    pub(crate) fn take_octets(&mut self, bytes: &[u8], out: &mut LinkOut)
        ensures link { self.new ≡ record self.old { link = (on_octets self.old.link bytes.now).link } }
        ensures out { out.new ≡ gathered out.old self.old.link (on_octets self.old.link bytes.now) }
    {
        if self.phase == Phase::Up {
            self.read_octets(bytes, out);
        } else {
            self.take_outside(bytes, out);
        }
    }

    /// Few frames come where the link is not up. What they need stays out of the way of all others.
    #[cold]
    #[inline(never)]
    fn take_outside(&mut self, bytes: &[u8], out: &mut LinkOut)
        ensures link { self.new ≡ record self.old { link = (on_octets self.old.link bytes.now).link } }
        ensures out { out.new ≡ gathered out.old self.old.link (on_octets self.old.link bytes.now) }
    {
        self.read_octets(bytes, out);
    }

    #[inline(always)]
    fn read_octets(&mut self, bytes: &[u8], out: &mut LinkOut)
        ensures link { self.new ≡ record self.old { link = (on_octets self.old.link bytes.now).link } }
        ensures out { out.new ≡ gathered out.old self.old.link (on_octets self.old.link bytes.now) }
    {
        match read_frame(bytes, self.role, self.info) {
            Ok(frame) => self.end_frame(&frame, out),
            Err(fault) => self.end_fault(fault, bytes, out),
        }
    }

    /// After an I frame T1 runs only if it ran before or starts again. So it is not asked whether it ran.
    #[inline(always)]
    fn end_frame(&mut self, frame: &Frame<'_>, out: &mut LinkOut)
        requires { HasNumbers (content_of frame.now.kind) }
        ensures link { self.new ≡ record self.old {
          link = (machine.on_frame self.old.link (value_of frame.now)).link;
        } }
        ensures out { out.new ≡ gathered out.old self.old.link (machine.on_frame self.old.link (value_of frame.now)) }
    {
        match frame.kind {
            FrameKind::I { .. } => {
                let anew = self.take_frame(frame, out);
                out.set_timer(true, self.runs(), anew);
            }
            FrameKind::Rr { .. }
            | FrameKind::Rnr { .. }
            | FrameKind::Rej { .. }
            | FrameKind::Sabm
            | FrameKind::Disc
            | FrameKind::Dm
            | FrameKind::Ua
            | FrameKind::Frmr(_) => {
                let ran = self.runs();
                let anew = self.take_frame(frame, out);
                out.set_timer(ran, self.runs(), anew);
            }
        }
    }

    #[cold]
    #[inline(never)]
    fn end_fault(&mut self, fault: FrameFault, bytes: &[u8], out: &mut LinkOut)
        requires { length bytes.now < 2 → fault ≡ FrameFault.TooShort }
        ensures link { self.new ≡ record self.old { link = (on_fault self.old.link fault bytes.now).link } }
        ensures out { out.new ≡ gathered out.old self.old.link (on_fault self.old.link fault bytes.now) }
    {
        let ran = self.runs();
        let anew = self.take_fault(fault, bytes, out);
        out.set_timer(ran, self.runs(), anew);
    }

    fn take_fault(&mut self, fault: FrameFault, bytes: &[u8], out: &mut LinkOut) -> bool
        requires { length bytes.now < 2 → fault ≡ FrameFault.TooShort }
        ensures link { self.new ≡ record self.old { link = (on_fault self.old.link fault bytes.now).link } }
        ensures out { out.new ≡ with_step out.old self.old.link.role (on_fault self.old.link fault bytes.now) }
        ensures anew { result ≡ (on_fault self.old.link fault bytes.now).anew }
    {
        let [address, control, ..] = bytes else {
            return self.still(out);
        };
        let is_response = *address == self.response_address();
        match fault {
            FrameFault::TooShort | FrameFault::WrongAddress => self.still(out),
            FrameFault::UnknownControl => self.take_defect(
                Defect::UndefinedControl,
                *control,
                is_response,
                out,
            ),
            FrameFault::InfoNotAllowed => self.take_defect(
                Defect::InformationNotAllowed,
                *control,
                is_response,
                out,
            ),
            FrameFault::InfoTooLong => self.take_defect(
                Defect::InformationTooLong,
                *control,
                is_response,
                out,
            ),
        }
    }

    /// The address octet of the responses that this end receives.
    fn response_address(&self) -> u8
        ensures { result ≡ address_of (other_of self.now.link.role) true }
    {
        match self.role {
            Role::Dte => 0x01,
            Role::Dce => 0x03,
        }
    }

    /// A frame whose control octet or information field cannot be taken.
    fn take_defect(
        &mut self,
        defect: Defect,
        control: u8,
        is_response: bool,
        out: &mut LinkOut,
    ) -> bool
        ensures link { self.new ≡ record self.old {
          link = (machine.on_defect self.old.link (defect_of defect) control
              is_response).link;
        } }
        ensures out { out.new ≡ with_step out.old self.old.link.role
            (machine.on_defect self.old.link (defect_of defect) control is_response) }
        ensures anew { result ≡ (machine.on_defect self.old.link (defect_of defect) control is_response).anew }
    {
        match self.phase {
            Phase::Up => {
                let report = self.defect_report(defect, control, is_response);
                self.reject(report, control >> 4 & 1 == 1 && !is_response, out)
            }
            Phase::Down | Phase::SettingUp | Phase::Rejecting => self.still(out),
        }
    }

    fn defect_report(&self, defect: Defect, control: u8, is_response: bool) -> Rejection
        ensures value { report_of result ≡ machine.defect_report self.now.link (defect_of defect) control is_response }
        ensures valid { IsReport result }
    {
        let (w, x, y) = match defect {
            Defect::UndefinedControl => (true, false, false),
            Defect::InformationNotAllowed => (true, true, false),
            Defect::InformationTooLong => (false, false, true),
        };
        self.report_on(control, is_response, Reason { w, x, y, z: false })
    }
}
