//! The information transfer phase (X.25 2.4.5): received I and supervisory frames.
ghost use Rattle.std.specs.Prelude.{◌≡◌, ◌<◌, ◌+◌, ◌*◌, true, false, map, MatchOption};
ghost use Rattle.frame_codec.specs.Frame as spec;
ghost use Rattle.frame_codec.specs.Views.{content_of};
ghost use Rattle.frame_codec.specs.Spelling.{HasNumbers, bit_of, spelling};
ghost use Rattle.lapb.specs.Machine as machine;
ghost use Rattle.lapb.specs.Out.{with_step, with_frames, answered, number_rejected, supervisory_taken};

use crate::link::Link;
use crate::link::setting::Reason;
use crate::note::Note;
use crate::out::LinkOut;
use crate::sent::response;
use frame_codec::{Frame, FrameKind};
use link_timers::Role;

impl Link {
    /// Takes N(R), where it lies from V(A) to V(M): how many packets it newly acknowledges.
    fn acknowledge(&mut self, nr: u8) -> Option<u8>
        requires { nr < 8 }
        ensures { MatchOption result
            ((machine.is_valid self.old.link nr ≡ false) × (self.new ≡ self.old))
            (λ newly. (machine.is_valid self.old.link nr ≡ true) × (newly ≡ machine.ahead self.old.link.oldest nr)
            × (self.new ≡ record self.old { link = machine.acknowledged self.old.link nr })) }
    {
        match self.window.ack(nr) {
            Ok(newly) => {
                self.queue.drop_front(newly);
                self.heard = true;
                Some(newly)
            }
            Err(_) => None,
        }
    }

    /// RR, RNR and REJ, where N(R) was taken.
    fn on_supervisory(
        &mut self,
        busy: bool,
        back: bool,
        is_response: bool,
        pf: bool,
        out: &mut LinkOut,
    )
        ensures link { self.new ≡ record self.old {
          link = (machine.on_supervisory self.old.link busy back is_response
              pf).link;
        } }
        ensures out { out.new ≡ with_step out.old self.old.link.role
            (machine.on_supervisory self.old.link busy back is_response pf) }
    {
        self.busy = busy;
        let ends_poll = is_response && pf;
        if back || ends_poll {
            let oldest = self.window.oldest();
            self.window.go_back(oldest);
        }
        if ends_poll {
            self.polling = false;
            self.polls = 0;
        }
        let polls = pf && !is_response;
        if polls {
            self.owed = false;
        }
        self.answer(polls, out);
    }

    /// RR as a response with F = 1, if it is due.
    fn answer(&self, due: bool, out: &mut LinkOut)
        ensures { out.new ≡ answered out.old self.now.link.role due self.now.link.expected }
    {
        if due {
            self.put_ready(out);
        }
        out.tell(Note::Nothing);
    }

    /// RR as a response with F = 1.
    #[cold]
    #[inline(never)]
    fn put_ready(&self, out: &mut LinkOut)
        ensures { out.new ≡ record out.old {
          frames = with_frames out.old.frames
              (map (spelling self.now.link.role) (machine.answers true self.now.link.expected));
        } }
    {
        let nr = self.receive.expected();
        self.put(&response(FrameKind::Rr { nr }, true), out);
    }

    /// An I frame in sequence is accepted.
    fn accept(&mut self, pf: bool, out: &mut LinkOut)
        ensures link { (packet : machine.Octets) → self.new ≡ record self.old {
          link = (machine.accept self.old.link pf packet).link;
        } }
        ensures out { (packet : machine.Octets) → out.new ≡ with_step out.old self.old.link.role
            (machine.accept self.old.link pf packet) }
    {
        let expected = self.receive.expected();
        let _ = self.receive.offer(expected);
        self.rejecting = false;
        self.owed = !pf;
        self.answer(pf, out);
        out.accept();
    }

    /// An I frame out of sequence is discarded, and the first such one answered by REJ.
    #[cold]
    #[inline(never)]
    fn discard(&mut self, pf: bool, out: &mut LinkOut)
        ensures link { self.new ≡ record self.old { link = (machine.discard self.old.link pf).link } }
        ensures out { out.new ≡ with_step out.old self.old.link.role (machine.discard self.old.link pf) }
    {
        let rejecting = self.rejecting;
        self.rejecting = true;
        self.owed = self.owed && rejecting && !pf;
        if rejecting {
            self.answer(pf, out);
        } else {
            let nr = self.receive.expected();
            self.sends(&response(FrameKind::Rej { nr }, pf), out);
        }
    }

    /// An I frame whose N(R) was taken.
    fn on_information(&mut self, ns: u8, pf: bool, out: &mut LinkOut)
        ensures link { (packet : machine.Octets) → self.new ≡ record self.old {
          link = (machine.on_information self.old.link ns pf packet).link;
        } }
        ensures out { (packet : machine.Octets) → out.new ≡ with_step out.old self.old.link.role
            (machine.on_information self.old.link ns pf packet) }
    {
        if ns == self.receive.expected() {
            self.accept(pf, out);
        } else {
            self.discard(pf, out);
        }
    }

    /// N(R) of no number from V(A) to V(M).
    #[cold]
    #[inline(never)]
    fn reject_number(&mut self, control: u8, is_response: bool, pf: bool, out: &mut LinkOut) -> bool
        ensures link { self.new ≡ record self.old {
          link = (number_rejected self.old.link control is_response pf).link;
        } }
        ensures out { out.new ≡ with_step out.old self.old.link.role
            (number_rejected self.old.link control is_response pf) }
        ensures anew { result ≡ (number_rejected self.old.link control is_response pf).anew }
    {
        let reason = Reason {
            w: false,
            x: false,
            y: false,
            z: true,
        };
        let report = self.report_on(control, is_response, reason);
        self.reject(report, pf && !is_response, out)
    }

    #[inline(always)]
    fn take_information(
        &mut self,
        ns: u8,
        nr: u8,
        is_response: bool,
        pf: bool,
        out: &mut LinkOut,
    ) -> bool
        requires ns { ns < 8 }
        requires nr { nr < 8 }
        ensures link { (packet : machine.Octets) → self.new ≡ record self.old {
          link = (machine.in_up self.old.link.role self.old.link (spec.I ns nr packet) is_response pf).link;
        } }
        ensures out { (packet : machine.Octets) → out.new ≡ with_step out.old self.old.link.role
            (machine.in_up self.old.link.role self.old.link (spec.I ns nr packet) is_response pf) }
        ensures anew { (packet : machine.Octets) → result ≡ (machine.in_up self.old.link.role self.old.link (spec.I ns
            nr packet) is_response pf).anew }
    {
        let Some(newly) = self.acknowledge(nr) else {
            return self.reject_number(control_octet(nr, pf, ns * 2), is_response, pf, out);
        };
        self.on_information(ns, pf, out);
        newly > 0
    }

    /// RR, RNR or REJ, by the low half of its control octet.
    #[inline(always)]
    fn take_supervisory(
        &mut self,
        nr: u8,
        rule: Supervisory,
        is_response: bool,
        pf: bool,
        out: &mut LinkOut,
    ) -> bool
        requires nr { nr < 8 }
        requires low { rule.low < 16 }
        ensures link { self.new ≡ record self.old {
          link = (supervisory_taken self.old.link nr rule.low rule.busy
              rule.back is_response pf).link;
        } }
        ensures out { out.new ≡ with_step out.old self.old.link.role (supervisory_taken self.old.link nr rule.low
            rule.busy rule.back is_response pf) }
        ensures anew { result ≡ (supervisory_taken self.old.link nr rule.low rule.busy rule.back is_response pf).anew }
    {
        let Some(newly) = self.acknowledge(nr) else {
            return self.reject_number(control_octet(nr, pf, rule.low), is_response, pf, out);
        };
        self.on_supervisory(rule.busy, rule.back, is_response, pf, out);
        newly > 0
    }

    #[inline(always)]
    pub(crate) fn in_up(&mut self, frame: &Frame<'_>, out: &mut LinkOut) -> bool
        requires { HasNumbers (content_of frame.now.kind) }
        ensures link { self.new ≡ record self.old {
          link = (machine.in_up self.old.link.role self.old.link (content_of frame.now.kind)
              frame.now.response frame.now.pf).link;
        } }
        ensures out { out.new ≡ with_step out.old self.old.link.role (machine.in_up self.old.link.role self.old.link
            (content_of frame.now.kind) frame.now.response frame.now.pf) }
        ensures anew { result ≡ (machine.in_up self.old.link.role self.old.link (content_of frame.now.kind)
            frame.now.response frame.now.pf).anew }
    {
        let (is_response, pf) = (frame.response, frame.pf);
        match frame.kind {
            FrameKind::I { ns, nr, .. } => self.take_information(ns, nr, is_response, pf, out),
            FrameKind::Rr { nr } => self.take_supervisory(nr, READY, is_response, pf, out),
            FrameKind::Rnr { nr } => self.take_supervisory(nr, NOT_READY, is_response, pf, out),
            FrameKind::Rej { nr } => self.take_supervisory(nr, REJECT, is_response, pf, out),
            FrameKind::Disc => self.take_disc(pf, out),
            FrameKind::Ua => self.still(out),
            FrameKind::Sabm | FrameKind::Dm => match self.role {
                Role::Dte => self.set_up(out),
                Role::Dce => self.still(out),
            },
            FrameKind::Frmr(_) => match self.role {
                Role::Dte => self.set_up(out),
                Role::Dce => self.disconnect(out),
            },
        }
    }
}

/// The low half of the control octet of a supervisory frame, and what the frame does: it makes the partner busy, or
/// sets V(S) back to N(R).
#[derive(Clone, Copy)]
struct Supervisory {
    low: u8,
    busy: bool,
    back: bool,
}

const READY: Supervisory = Supervisory {
    low: 0x01,
    busy: false,
    back: false,
};

const NOT_READY: Supervisory = Supervisory {
    low: 0x05,
    busy: true,
    back: false,
};

const REJECT: Supervisory = Supervisory {
    low: 0x09,
    busy: false,
    back: true,
};

/// The control octet of a frame that carries N(R).
fn control_octet(nr: u8, pf: bool, low: u8) -> u8
    requires nr { nr < 8 }
    requires low { low < 16 }
    ensures { result ≡ nr * 32 + bit_of pf * 16 + low }
{
    let poll = if pf { 0x10 } else { 0 };
    nr * 32 + poll + low
}
