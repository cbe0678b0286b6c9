//! What a user asks of the calls of a line (X.25 4.1 to 4.4). None of these ends the event.
ghost use Rattle.std.specs.Prelude.{◌≡◌, ◌<◌, ◌≤◌, length, Some, None, MatchResult};
ghost use Rattle.flow_window.specs.Pool.{IsIn, Holds, Balances};
ghost use Rattle.packet_codec.specs.Packet.{IsCallValue};
ghost use Rattle.packet_codec.specs.View.{call_view};
ghost use Rattle.packet_channel.specs.Answers.{handed_back};
ghost use Rattle.data_transfer.specs.Held.{Loses, Takes, datum_in};
ghost use Rattle.packet_channel.specs.Channel.{Request as ask};
ghost use Rattle.packet_layer.specs.Layer as machine;
ghost use Rattle.data_transfer.specs.Octets.{parts_of};
ghost use Rattle.data_transfer.specs.Packets.{Datum};
ghost use Rattle.packet_layer.specs.RequestView.{request_of, refusal_of, call_refusal_of};
ghost use Rattle.data_transfer.specs.TakenView.{maybe_taken_in, maybe_buffers_in, maybe_front};
ghost use Rattle.data_transfer.specs.Traffic.Taken.{TakenPacket};
ghost use Rattle.packet_end.specs.PacketEnd.{asked, called};
ghost use Rattle.packet_end.specs.Pooled.{Serves};

use crate::pooled::PooledEnd;
use flow_window::pool::Pool;
use packet_codec::CallData;
use packet_layer::{CallFault, ChannelFault, Front, KeptPacket, RefusedBuf, Request, TakenBuf};

impl PooledEnd {
    /// Places a call on a free channel, a DTE on the highest one and a DCE on the lowest (X.25 4.1.2), and answers the
    /// channel. The facilities have at most 109 octets and the user data at most 16.
    ///
    /// `NotReady` comes if the restart procedure is not done, then `NoChannel` if no channel is free. A call that is
    /// refused changes nothing.
    pub fn call(&mut self, call: &CallData<'_>) -> Result<u8, CallFault>
        requires { IsCallValue (call_view call.now) }
        ensures answer { MatchResult result
            (λ channel. machine.channel_given self.old.end.layer self.old.end.layer.phase ≡ Some channel)
            (λ fault. machine.call_refusal self.old.end.layer self.old.end.layer.phase ≡ Some (call_refusal_of fault)) }
        ensures end { self.new ≡ record self.old { end = called self.old.end (parts_of (call_view call.now)) } }
    {
        self.touched.touch();
        let channel = self.layer.call(call)?;
        self.touched.insert(channel);
        Ok(channel)
    }

    /// Asks something of the call on the channel: [`Request`] has each refusal. A channel that the line does not have
    /// has no call. What is refused changes nothing.
    pub fn ask(
        &mut self,
        channel: u8,
        request: &Request<'_>,
        pool: &mut Pool,
    ) -> Result<(), ChannelFault>
        requires { Serves pool.old self.old.held self.old.share self.old.info }
        ensures answer { MatchResult result
            (λ _. machine.request_refusal self.old.end.layer channel (request_of request.now) ≡ None)
            (λ fault. machine.request_refusal self.old.end.layer channel (request_of request.now)
            ≡ Some (refusal_of fault)) }
        ensures end { self.new ≡ record self.old {
          end = asked self.old.end channel (request_of request.now);
          held = self.new.held;
        } }
        ensures pool { Balances pool.old self.old.held pool.new self.new.held }
        ensures within { length self.new.held < self.new.share }
    {
        self.touched.insert_asked(channel, request);
        self.layer.ask(channel, request, pool)
    }

    /// Takes what comes next on the channel, if anything: an interrupt before all packets. A packet stays in its buffer,
    /// whose number is handed out with M, Q and D.
    pub fn take_buf(&mut self, channel: u8) -> Option<TakenBuf>
        ensures taken { maybe_taken_in result ≡ machine.front_on self.old.end.layer channel }
        // A packet is no larger than the line's size.
        ensures short { (d : Datum) → machine.front_on self.old.end.layer channel ≡ Some (TakenPacket d)
            → length d.octets ≤ self.old.end.layer.flow.size }
        ensures end { self.new ≡ record self.old { end = asked self.old.end channel ask.Taking; held = self.new.held } }
        ensures held { Loses self.old.held (maybe_buffers_in result) self.new.held }
        ensures within { length self.new.held < self.new.share }
    {
        self.touched.touch();
        self.layer.take_buf(channel)
    }

    /// Puts a Data packet that lies in a buffer into the send queue of the channel: `Request::Send` has each refusal.
    /// With a refusal the packet comes back.
    pub fn send_buf(
        &mut self,
        channel: u8,
        packet: KeptPacket,
        pool: &Pool,
    ) -> Result<(), RefusedBuf>
        requires { IsIn packet.buffer pool.now }
        ensures answer { let asks = ask.Sending (datum_in packet) in
            MatchResult result
            (λ _. machine.request_refusal self.old.end.layer channel asks ≡ None)
            (λ refused. machine.request_refusal self.old.end.layer channel asks ≡ Some (refusal_of refused.fault)) }
        ensures back { MatchResult result (λ _. Unit {0}) (λ refused. refused.packet ≡ packet) }
        ensures end { self.new ≡ record self.old {
          end = asked self.old.end channel (ask.Sending (datum_in packet));
          held = self.new.held;
        } }
        ensures held { Takes self.old.held packet.buffer (handed_back result) self.new.held }
        ensures within { length self.new.held < self.new.share }
    {
        self.touched.touch();
        self.layer.send_buf(channel, packet, pool)
    }

    /// What `take_buf` would give on the channel, if anything: an interrupt, or a Data packet of so many octets with M, Q
    /// and D.
    pub fn front(&self, channel: u8, pool: &Pool) -> Option<Front>
        requires { Holds pool.now self.now.held }
        ensures { result ≡ maybe_front (machine.front_on self.now.end.layer channel) }
    {
        self.layer.front(channel, pool)
    }
}
