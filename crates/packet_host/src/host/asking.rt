//! What the user of a host asks of a call, as a value (X.25 4.1 to 4.4).
ghost use Rattle.std.specs.Prelude.{◌≡◌, Some, None, MatchResult, OnOk, OnErr};
ghost use Rattle.packet_layer.specs.RequestView.{refusal_of};
ghost use Rattle.packet_end.specs.PacketEnd as end;
ghost use Rattle.packet_host.specs.Asking.{ask_refusal, asked_for, after_ask};
ghost use Rattle.packet_host.specs.Host.{ended_frames};

use crate::host::Host;
use crate::request::HostRequest;
use packet_layer::ChannelFault;

impl Host {
    /// Asks something of the call on the channel: it is `answer`, `refuse`, `say`, `interrupt`, `reset`, `clear`,
    /// `stop` or `go`, with the refusals of that call.
    pub fn ask(&mut self, channel: u8, request: &HostRequest) -> Result<(), ChannelFault>
        ensures answer { MatchResult result
            (λ _. ask_refusal self.old channel request.now ≡ None)
            (λ fault. ask_refusal self.old channel request.now ≡ Some (refusal_of fault)) }
        ensures host { self.new ≡ after_ask self.old channel request.now }
        ensures err { OnErr result (self.new ≡ self.old) }
        ensures nothing_kept_back { OnOk result (end.KeepsNothingBack self.new) }
        ensures frames { OnOk result (self.new.line.frames ≡ ended_frames (asked_for self.old channel request.now)) }
    {
        match request {
            HostRequest::Answer => self.answer(channel),
            HostRequest::Refuse => self.refuse(channel),
            HostRequest::Say {
                octets,
                qualified,
                delivery,
            } => self.say(channel, octets.as_slice(), *qualified, *delivery),
            HostRequest::Interrupt { octets } => self.interrupt(channel, octets.as_slice()),
            HostRequest::Reset => self.reset(channel),
            HostRequest::Clear => self.clear(channel),
            HostRequest::Stop => self.stop(channel),
            HostRequest::Go => self.go(channel),
        }
    }
}
