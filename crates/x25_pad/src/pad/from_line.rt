//! What comes from the line and what goes to it.
ghost use Rattle.std.specs.Prelude.{◌≡◌, ◌∷◌, []};
ghost use Rattle.std.specs.Bool.{OnTrue, OnFalse};
ghost use Rattle.packet_end.specs.PacketEnd as end;
ghost use Rattle.packet_layer.specs.LayerTimers.{TimersAgree};
ghost use Rattle.x25_pad.specs.Pad as spec;
ghost use Rattle.x25_pad.specs.Sending.{frames_on_frame, frames_on_relink};

use crate::pad::Pad;
use packet_end::FrameBuf;

impl Pad {
    /// Takes the octets of a received frame (X.25 2.4, 3 to 5). The terminals learn what becomes of their calls. A call
    /// that comes in is accepted for the first terminal without one, and else cleared, with cause 0 and diagnostic 0.
    /// All frames of the event wait then: the answer and those of its end.
    pub fn on_frame(&mut self, octets: &[u8])
        ensures pad { self.new ≡ spec.after_frame self.old octets.now }
        ensures nothing_kept_back { end.KeepsNothingBack self.new.line.end }
        ensures frames { self.new.line.end.line.frames ≡ frames_on_frame self.old octets.now }
        ensures timers { TimersAgree self.new.line.end.layer self.new.line.end.timers }
    {
        self.begin();
        self.line.end.on_frame(octets);
        self.end_line_event();
    }

    /// Gives the link up and sets it up again: all calls end.
    pub fn relink(&mut self)
        ensures pad { self.new ≡ spec.after_relink self.old }
        ensures nothing_kept_back { end.KeepsNothingBack self.new.line.end }
        ensures frames { self.new.line.end.line.frames ≡ frames_on_relink self.old }
        ensures timers { TimersAgree self.new.line.end.layer self.new.line.end.timers }
    {
        self.begin();
        self.line.end.relink();
        self.end_line_event();
    }

    /// Takes the next frame that goes out, if there is one. If there is none, `frame` stays as it is.
    pub fn out(&mut self, frame: &mut FrameBuf) -> bool
        ensures frame { OnTrue result (self.old.line.end.line.frames ≡ frame.new ∷ self.new.line.end.line.frames) }
        ensures nothing { OnFalse result (self.old.line.end.line.frames ≡ []) }
        ensures same { OnFalse result (frame.new ≡ frame.old) }
        ensures pad { self.new ≡ spec.with_end (end.without_first_frame self.old.line.end) self.old }
    {
        self.line.end.out(frame)
    }
}
