//! What a user asks of the calls of a line (X.25 4.1 to 4.4).
ghost use Rattle.std.specs.Prelude.{◌≤◌, ◌≡◌, ◌<◌, ◌+◌, true, false, Some, None, MatchResult, MatchOption, OnErr, length};
ghost use Rattle.flow_window.specs.Pool.{IsIn, Holds, Balances};
ghost use Rattle.packet_channel.specs.Answers.{WhenSending, handed_back};
ghost use Rattle.data_transfer.specs.Held.{Loses, Takes, datum_in};
ghost use Rattle.packet_layer.specs.Held.{HasRoom, most_held, plain};
ghost use Rattle.packet_codec.specs.Packet.{IsCallValue};
ghost use Rattle.packet_codec.specs.View.{call_view};
ghost use Rattle.packet_channel.specs.Channel.{Request as asked};
ghost use Rattle.packet_layer.specs.Layer as machine;
ghost use Rattle.data_transfer.specs.Octets.{parts_of};
ghost use Rattle.data_transfer.specs.Packets.{Datum};
ghost use Rattle.data_transfer.specs.Traffic.Taken.{TakenPacket};
ghost use Rattle.packet_layer.specs.RequestView.{request_of, refusal_of, call_refusal_of};
ghost use Rattle.data_transfer.specs.TakenView.{maybe_taken, maybe_taken_in, maybe_buffers_in};
ghost use Rattle.packet_layer.specs.Free.{IsFreeAt};
ghost use Rattle.packet_layer.specs.Answered.{IsPassedOn};

use crate::fault::CallFault;
use crate::layer::Layer;
use crate::restart::Phase;
use data_transfer::{KeptPacket, Taken, TakenBuf};
use flow_window::pool::Pool;
use link_timers::Role;
use packet_channel::{Channel, ChannelFault, RefusedBuf, Request};
use packet_codec::{CallBuf, CallData};

fn lowest_free(channels: &[Channel]) -> Option<usize>
    ensures { MatchOption result (machine.lowest_free (plain channels.now) ≡ None)
        (λ place. (machine.lowest_free (plain channels.now) ≡ Some (place + 1))
        × IsFreeAt (plain channels.now) place) }
{
    for (place, channel) in channels.iter().enumerate() {
        if channel.is_free() {
            return Some(place);
        }
    }
    None
}

fn highest_free(channels: &[Channel]) -> Option<usize>
    ensures { MatchOption result (machine.highest_free (plain channels.now) ≡ None)
        (λ place. (machine.highest_free (plain channels.now) ≡ Some (place + 1))
        × IsFreeAt (plain channels.now) place) }
{
    let mut found = None;
    for (place, channel) in channels.iter().enumerate() {
        if channel.is_free() {
            found = Some(place);
        }
    }
    found
}

impl Layer {
    /// Places a call on a free channel, a DTE on the highest one and a DCE on the lowest (X.25 4.1.2), and answers
    /// the channel. The facilities have at most 109 octets and the user data at most 16.
    ///
    /// `NotReady` comes if the restart procedure is not done, then `NoChannel` if no channel is free. A call that is
    /// refused changes nothing.
    pub fn call(&mut self, call: &CallData<'_>) -> Result<u8, CallFault>
        requires { IsCallValue (call_view call.now) }
        ensures answer { MatchResult result
            (λ channel. machine.channel_given self.old.layer self.old.layer.phase ≡ Some channel)
            (λ fault. machine.call_refusal self.old.layer self.old.layer.phase ≡ Some (call_refusal_of fault)) }
        ensures layer { self.new ≡ record self.old {
          layer = machine.call self.old.layer (parts_of (call_view call.now));
        } }
        ensures most { most_held self.new.layer ≡ most_held self.old.layer }
    {
        let Phase::PacketReady = self.phase else {
            return Err(CallFault::NotReady);
        };
        let Some(place) = self.free_place() else {
            return Err(CallFault::NoChannel);
        };
        let call = CallBuf::new(call);
        self.to_serve.insert(place);
        let channel = &mut self.channels[place];
        if channel.place_call(call) {
            self.relink = true;
        }
        Ok(place as u8 + 1)
    }

    fn free_place(&self) -> Option<usize>
        ensures { MatchOption result (machine.free_channel self.now.layer.role self.now.layer.channels ≡ None)
            (λ place. (machine.free_channel self.now.layer.role self.now.layer.channels ≡ Some (place + 1))
            × IsFreeAt self.now.layer.channels place) }
    {
        match self.role {
            Role::Dte => highest_free(self.channels.as_slice()),
            Role::Dce => lowest_free(self.channels.as_slice()),
        }
    }

    /// Asks something of the call on the channel: [`Request`] has each refusal. A channel that the line does not have
    /// has no call. What is refused changes nothing. The pool needs room for a packet that is to go, and for nothing
    /// else.
    #[tactic(auto, using(crate::proofs::Placed::own_few))]
    pub fn ask(
        &mut self,
        channel: u8,
        request: &Request<'_>,
        pool: &mut Pool,
    ) -> Result<(), ChannelFault>
        requires holds { Holds pool.old self.old.held }
        requires size { WhenSending (request_of request.now) (self.old.layer.flow.size ≤ pool.old.size) }
        requires room { WhenSending (request_of request.now)
            (HasRoom pool.old self.old.held (most_held self.old.layer + 1)) }
        ensures answer { MatchResult result
            (λ _. machine.request_refusal self.old.layer channel (request_of request.now) ≡ None)
            (λ fault. machine.request_refusal self.old.layer channel (request_of request.now)
            ≡ Some (refusal_of fault)) }
        ensures layer { self.new.layer ≡ machine.request self.old.layer channel (request_of request.now) }
        ensures pool { Balances pool.old self.old.held pool.new self.new.held }
        ensures most { most_held self.new.layer ≡ most_held self.old.layer }
        ensures few { length self.new.held ≤ most_held self.new.layer }

        // What is refused changes nothing, in the pool too.
        ensures kept { OnErr result ((self.new ≡ self.old) × (pool.new ≡ pool.old)) }
    {
        let Some(place) = self.place(u16::from(channel)) else {
            return Err(ChannelFault::NoCall);
        };
        let role = self.role;
        let flow = self.flow;
        self.to_serve.insert(place);
        let channel = &mut self.channels[place];
        let relink = channel.request(role, flow, request, pool)?;
        self.relink_if(relink);
        Ok(())
    }

    /// What the answer of a channel is for its layer, which asks for a relink if the channel does.
    fn answered(&mut self, answer: Result<bool, ChannelFault>) -> Result<(), ChannelFault>
        ensures { IsPassedOn self.old answer self.new result }
    {
        match answer {
            Ok(relink) => {
                self.relink_if(relink);
                Ok(())
            }
            Err(fault) => Err(fault),
        }
    }

    /// Accepts the call that came in on the channel (X.25 4.1.4).
    ///
    /// `NoCall` comes if none waits for it: no call came in, or a DTE's own call collided with it.
    pub fn accept(&mut self, channel: u8) -> Result<(), ChannelFault>
        ensures answer { MatchResult result
            (λ _. machine.request_refusal self.old.layer channel asked.Accept ≡ None)
            (λ fault. machine.request_refusal self.old.layer channel asked.Accept ≡ Some (refusal_of fault)) }
        ensures layer { self.new.layer ≡ machine.request self.old.layer channel asked.Accept }
        ensures held { self.new.held ≡ self.old.held }
        ensures most { most_held self.new.layer ≡ most_held self.old.layer }
        ensures kept { OnErr result (self.new ≡ self.old) }
    {
        let Some(place) = self.place(u16::from(channel)) else {
            return Err(ChannelFault::NoCall);
        };
        let role = self.role;
        self.to_serve.insert(place);
        let channel = &mut self.channels[place];
        let answer = channel.accept(role);
        self.answered(answer)
    }

    /// Clears the call on the channel, also one that is being set up, with a cause and a diagnostic (X.25 4.1.7).
    ///
    /// `NoCall` comes if there is none.
    pub fn clear(
        &mut self,
        channel: u8,
        cause: u8,
        diagnostic: u8,
        pool: &mut Pool,
    ) -> Result<(), ChannelFault>
        requires holds { Holds pool.old self.old.held }
        ensures answer { MatchResult result
            (λ _. machine.request_refusal self.old.layer channel (asked.Clearing cause diagnostic) ≡ None)
            (λ fault. machine.request_refusal self.old.layer channel (asked.Clearing cause diagnostic)
            ≡ Some (refusal_of fault)) }
        ensures layer { self.new.layer ≡ machine.request self.old.layer channel (asked.Clearing cause diagnostic) }
        ensures pool { Balances pool.old self.old.held pool.new self.new.held }
        ensures most { most_held self.new.layer ≡ most_held self.old.layer }
        ensures kept { OnErr result ((self.new ≡ self.old) × (pool.new ≡ pool.old)) }
    {
        self.ask(channel, &Request::Clear { cause, diagnostic }, pool)
    }

    /// Resets the call on the channel with a cause and a diagnostic: what waits in both directions is dropped (X.25
    /// 4.4.3).
    ///
    /// `NoCall` comes if no call is in data transfer, `Resetting` while the last own reset is not confirmed.
    pub fn reset(
        &mut self,
        channel: u8,
        cause: u8,
        diagnostic: u8,
        pool: &mut Pool,
    ) -> Result<(), ChannelFault>
        requires holds { Holds pool.old self.old.held }
        ensures answer { MatchResult result
            (λ _. machine.request_refusal self.old.layer channel (asked.Resetting cause diagnostic) ≡ None)
            (λ fault. machine.request_refusal self.old.layer channel (asked.Resetting cause diagnostic)
            ≡ Some (refusal_of fault)) }
        ensures layer { self.new.layer ≡ machine.request self.old.layer channel (asked.Resetting cause diagnostic) }
        ensures pool { Balances pool.old self.old.held pool.new self.new.held }
        ensures most { most_held self.new.layer ≡ most_held self.old.layer }
        ensures kept { OnErr result ((self.new ≡ self.old) × (pool.new ≡ pool.old)) }
    {
        self.ask(channel, &Request::Reset { cause, diagnostic }, pool)
    }

    /// Puts a Data packet with its bits M, Q and D into the send queue of the channel (X.25 4.3).
    ///
    /// A packet that is refused changes nothing. The first of these faults is answered:
    ///
    /// - `NoCall`: no call is in data transfer.
    /// - `Resetting`: the own reset is not confirmed.
    /// - `QueueFull`: 8 packets wait.
    /// - `TooLong`: there are more octets than a packet of the line may have.
    pub fn send(
        &mut self,
        channel: u8,
        octets: &[u8],
        more: bool,
        qualified: bool,
        delivery: bool,
        pool: &mut Pool,
    ) -> Result<(), ChannelFault>
        requires holds { Holds pool.old self.old.held }
        requires size { self.old.layer.flow.size ≤ pool.old.size }
        requires room { HasRoom pool.old self.old.held (most_held self.old.layer + 1) }
        ensures answer { let asks = asked.Sending
            (record { octets = octets.now; more = more; qualified = qualified; delivery = delivery }) in
            MatchResult result
            (λ _. machine.request_refusal self.old.layer channel asks ≡ None)
            (λ fault. machine.request_refusal self.old.layer channel asks ≡ Some (refusal_of fault)) }
        ensures layer { self.new.layer
            ≡ machine.request self.old.layer channel
            (asked.Sending (record { octets = octets.now; more = more; qualified = qualified; delivery = delivery })) }
        ensures pool { Balances pool.old self.old.held pool.new self.new.held }
        ensures most { most_held self.new.layer ≡ most_held self.old.layer }
        ensures kept { OnErr result ((self.new ≡ self.old) × (pool.new ≡ pool.old)) }
    {
        self.ask(
            channel,
            &Request::Send {
                octets,
                more,
                qualified,
                delivery,
            },
            pool,
        )
    }

    /// Puts a Data packet that lies in a buffer in use into the send queue, as `send` does with octets. The faults are
    /// those of `send`, and with a fault the packet comes back.
    #[tactic(auto, using(crate::proofs::Placed::own_few))]
    pub fn send_buf(
        &mut self,
        channel: u8,
        packet: KeptPacket,
        pool: &Pool,
    ) -> Result<(), RefusedBuf>
        requires { IsIn packet.buffer pool.now }
        ensures answer { let asks = asked.Sending (datum_in packet) in
            MatchResult result
            (λ _. machine.request_refusal self.old.layer channel asks ≡ None)
            (λ refused. machine.request_refusal self.old.layer channel asks ≡ Some (refusal_of refused.fault)) }
        ensures back { MatchResult result (λ _. Unit {0}) (λ refused. refused.packet ≡ packet) }
        ensures layer { self.new.layer ≡ machine.request self.old.layer channel (asked.Sending (datum_in packet)) }
        ensures held { Takes self.old.held packet.buffer (handed_back result) self.new.held }
        ensures most { most_held self.new.layer ≡ most_held self.old.layer }
        ensures few { length self.new.held ≤ most_held self.new.layer }
    {
        let Some(place) = self.place(u16::from(channel)) else {
            let fault = ChannelFault::NoCall;
            return Err(RefusedBuf { fault, packet });
        };
        let flow = self.flow;
        self.to_serve.insert(place);
        let channel = &mut self.channels[place];
        channel.send_buf(flow, packet, pool)
    }

    /// Sends an interrupt of 1 to 32 octets on the channel (X.25 4.3.7).
    ///
    /// The first of these faults is answered:
    ///
    /// - `NoCall`: no call is in data transfer.
    /// - `Resetting`: the own reset is not confirmed.
    /// - `TooLong`: there are no octets, or more than 32.
    /// - `InterruptPending`: the last interrupt is not confirmed.
    pub fn interrupt(&mut self, channel: u8, octets: &[u8]) -> Result<(), ChannelFault>
        ensures answer { MatchResult result
            (λ _. machine.request_refusal self.old.layer channel (asked.Interrupting octets.now) ≡ None)
            (λ fault. machine.request_refusal self.old.layer channel (asked.Interrupting octets.now)
            ≡ Some (refusal_of fault)) }
        ensures layer { self.new.layer ≡ machine.request self.old.layer channel (asked.Interrupting octets.now) }
        ensures held { self.new.held ≡ self.old.held }
        ensures most { most_held self.new.layer ≡ most_held self.old.layer }
        ensures kept { OnErr result (self.new ≡ self.old) }
    {
        let Some(place) = self.place(u16::from(channel)) else {
            return Err(ChannelFault::NoCall);
        };
        self.to_serve.insert(place);
        let channel = &mut self.channels[place];
        let answer = channel.interrupt(octets);
        self.answered(answer)
    }

    /// Asks the far end by RNR to send no more data on the channel (X.25 4.4.1.5).
    ///
    /// `NoCall` comes if no call is in data transfer.
    pub fn stop(&mut self, channel: u8) -> Result<(), ChannelFault>
        ensures answer { MatchResult result
            (λ _. machine.request_refusal self.old.layer channel (asked.Stopping true) ≡ None)
            (λ fault. machine.request_refusal self.old.layer channel (asked.Stopping true) ≡ Some (refusal_of fault)) }
        ensures layer { self.new.layer ≡ machine.request self.old.layer channel (asked.Stopping true) }
        ensures held { self.new.held ≡ self.old.held }
        ensures most { most_held self.new.layer ≡ most_held self.old.layer }
        ensures kept { OnErr result (self.new ≡ self.old) }
    {
        self.tell_stopped(channel, true)
    }

    /// Ends by RR what `stop` asked (X.25 4.4.1.4).
    ///
    /// `NoCall` comes if no call is in data transfer.
    pub fn go(&mut self, channel: u8) -> Result<(), ChannelFault>
        ensures answer { MatchResult result
            (λ _. machine.request_refusal self.old.layer channel (asked.Stopping false) ≡ None)
            (λ fault. machine.request_refusal self.old.layer channel (asked.Stopping false) ≡ Some (refusal_of fault)) }
        ensures layer { self.new.layer ≡ machine.request self.old.layer channel (asked.Stopping false) }
        ensures held { self.new.held ≡ self.old.held }
        ensures most { most_held self.new.layer ≡ most_held self.old.layer }
        ensures kept { OnErr result (self.new ≡ self.old) }
    {
        self.tell_stopped(channel, false)
    }

    /// Asks the far end to send no more data, or to send again.
    fn tell_stopped(&mut self, channel: u8, stopped: bool) -> Result<(), ChannelFault>
        ensures answer { MatchResult result
            (λ _. machine.request_refusal self.old.layer channel (asked.Stopping stopped) ≡ None)
            (λ fault. machine.request_refusal self.old.layer channel (asked.Stopping stopped)
            ≡ Some (refusal_of fault)) }
        ensures layer { self.new.layer ≡ machine.request self.old.layer channel (asked.Stopping stopped) }
        ensures held { self.new.held ≡ self.old.held }
        ensures most { most_held self.new.layer ≡ most_held self.old.layer }
        ensures kept { OnErr result (self.new ≡ self.old) }
    {
        let Some(place) = self.place(u16::from(channel)) else {
            return Err(ChannelFault::NoCall);
        };
        self.to_serve.insert(place);
        let channel = &mut self.channels[place];
        let answer = channel.stop(stopped);
        self.answered(answer)
    }

    /// Takes what comes next on the channel, if anything: an interrupt before all packets.
    pub fn take(&mut self, channel: u8, pool: &mut Pool) -> Option<Taken>
        requires holds { Holds pool.old self.old.held }
        ensures taken { maybe_taken result ≡ machine.front_on self.old.layer channel }
        ensures layer { self.new.layer ≡ machine.request self.old.layer channel asked.Taking }
        ensures pool { Balances pool.old self.old.held pool.new self.new.held }
        ensures most { most_held self.new.layer ≡ most_held self.old.layer }
        ensures few { length self.new.held ≤ most_held self.new.layer }
    {
        let taken = self.take_buf(channel)?;
        Some(taken.take_out(pool))
    }

    /// Takes what comes next on the channel as `take` does, but a packet stays in its buffer, whose number is handed
    /// out with M, Q and D.
    #[tactic(auto, using(crate::proofs::Placed::own_few))]
    pub fn take_buf(&mut self, channel: u8) -> Option<TakenBuf>
        ensures taken { maybe_taken_in result ≡ machine.front_on self.old.layer channel }
        // A packet is no larger than the line's size.
        ensures short { (d : Datum) → machine.front_on self.old.layer channel ≡ Some (TakenPacket d)
            → length d.octets ≤ self.old.layer.flow.size }
        ensures layer { self.new.layer ≡ machine.request self.old.layer channel asked.Taking }
        ensures held { Loses self.old.held (maybe_buffers_in result) self.new.held }
        ensures most { most_held self.new.layer ≡ most_held self.old.layer }
        ensures few { length self.new.held ≤ most_held self.new.layer }
    {
        let place = self.place(u16::from(channel))?;
        self.to_serve.insert(place);
        let channel = &mut self.channels[place];
        channel.take_buf()
    }

    /// Lets P(R) pass `count` more of the packets that were taken on the channel (X.25 4.4.1.3). Nothing happens if
    /// fewer are taken and not released.
    pub fn release(&mut self, channel: u8, count: u8)
        ensures layer { self.new.layer ≡ machine.request self.old.layer channel (asked.Releasing count) }
        ensures held { self.new.held ≡ self.old.held }
        ensures most { most_held self.new.layer ≡ most_held self.old.layer }
    {
        let Some(place) = self.place(u16::from(channel)) else {
            return;
        };
        self.to_serve.insert(place);
        let channel = &mut self.channels[place];
        let answer = channel.release(count);
        let _ = self.answered(answer);
    }

    /// Owes the confirmation of the interrupt that was taken on the channel (X.25 4.3.7). Nothing happens if none is
    /// unconfirmed.
    pub fn confirm_interrupt(&mut self, channel: u8)
        ensures layer { self.new.layer ≡ machine.request self.old.layer channel asked.Confirming }
        ensures held { self.new.held ≡ self.old.held }
        ensures most { most_held self.new.layer ≡ most_held self.old.layer }
    {
        let Some(place) = self.place(u16::from(channel)) else {
            return;
        };
        self.to_serve.insert(place);
        let channel = &mut self.channels[place];
        let answer = channel.confirm_interrupt();
        let _ = self.answered(answer);
    }
}
