//! What comes from the line and what goes to it.
ghost use Rattle.std.specs.Prelude.{◌≡◌, ◌∷◌, [], ◌++◌};
ghost use Rattle.std.specs.Bool.{OnTrue, OnFalse};
ghost use Rattle.packet_end.specs.PacketEnd as end;
ghost use Rattle.packet_end.specs.Sending.{answer_frames, expiry_frames, relink_frames, ending_frames};
ghost use Rattle.packet_layer.specs.LayerTimers.{TimersAgree};
ghost use Rattle.packet_host.specs.Host.{after_frame, after_expiry, after_relink};

use crate::host::Host;
use link_timers::TimerId;
use packet_end::FrameBuf;

impl Host {
    /// Takes the octets of a received frame (X.25 2.4, 3 to 5). All frames of the event wait then: the answer and those
    /// of its end.
    pub fn on_frame(&mut self, octets: &[u8])
        ensures host { self.new ≡ after_frame self.old octets.now }
        ensures nothing_kept_back { end.KeepsNothingBack self.new }
        ensures frames { self.new.line.frames ≡ answer_frames self.old octets.now
            ++ ending_frames (end.received (end.begun self.old) octets.now) }
        ensures timers { TimersAgree self.new.layer self.new.timers }
    {
        self.end.begin();
        self.end.on_frame(octets);
        self.end.finish();
    }

    /// Takes an expiry of a timer, and answers whether it ran. If it did not, nothing happens.
    pub fn on_timer(&mut self, id: TimerId) -> bool
        ensures ran { result ≡ end.runs_at self.old id }
        ensures host { self.new ≡ after_expiry self.old id }
        ensures nothing_kept_back { OnTrue result (end.KeepsNothingBack self.new) }
        ensures frames { OnTrue result (self.new.line.frames ≡ expiry_frames id self.old
            ++ ending_frames (end.after_timer (end.begun self.old) id)) }
    {
        if !self.end.is_running(id) {
            return false;
        }
        self.end.begin();
        self.end.on_timer(id);
        self.end.finish();
        true
    }

    /// Gives the link up and sets it up again: all calls close.
    pub fn relink(&mut self)
        ensures host { self.new ≡ after_relink self.old }
        ensures nothing_kept_back { end.KeepsNothingBack self.new }
        ensures frames { self.new.line.frames
            ≡ relink_frames self.old ++ ending_frames (end.relinked (end.begun self.old)) }
        ensures timers { TimersAgree self.new.layer self.new.timers }
    {
        self.end.begin();
        self.end.relink();
        self.end.finish();
    }

    /// Restarts the host. What went before is forgotten, also frames and notes.
    pub fn restart(&mut self)
        ensures host { self.new ≡ end.restarted self.old }
        ensures nothing_kept_back { end.KeepsNothingBack self.new }
    {
        self.end.restart();
    }

    /// Takes the next frame that goes out, if there is one. If there is none, `frame` stays as it is.
    pub fn out(&mut self, frame: &mut FrameBuf) -> bool
        ensures frame { OnTrue result (self.old.line.frames ≡ frame.new ∷ self.new.line.frames) }
        ensures nothing { OnFalse result (self.old.line.frames ≡ []) }
        ensures same { OnFalse result (frame.new ≡ frame.old) }
        ensures host { self.new ≡ end.without_first_frame self.old }
    {
        self.end.out(frame)
    }

    /// Lets ticks pass, each a twentieth of a second: each timer that runs has so many less, not below 0.
    pub fn elapse(&mut self, ticks: u16)
        ensures { self.new ≡ end.elapsed self.old ticks }
    {
        self.end.elapse(ticks);
    }
}
