//! The host and its calls.
ghost use Rattle.std.specs.Prelude.{◌≡◌, ◌≤◌, [], true, false, Some, None, length, MatchResult, OnOk, OnErr};
ghost use Rattle.std.specs.Prelude.{OnSome, slice_get, IfSome, is_some, vec_capacity};
ghost use Rattle.packet_channel.specs.Channel.{Request as ask};
ghost use Rattle.packet_layer.specs.Layer as machine;
ghost use Rattle.packet_channel.specs.NoteView.{maybe_note};
ghost use Rattle.packet_layer.specs.RequestView.{request_of, refusal_of, call_refusal_of};
ghost use Rattle.data_transfer.specs.TakenView.{taken_of, maybe_taken, maybe_front, taken_octets, taken_with, HasFewOctets};
ghost use Rattle.packet_end.specs.Params.{AreParams, MadeNot};
ghost use Rattle.packet_end.specs.PacketEnd as end;
ghost use Rattle.packet_layer.specs.LayerTimers.{TimersAgree};
ghost use Rattle.packet_host.specs.Host.{ended, call_parts, after_call, after_request, refuse_refusal, after_refuse};
ghost use Rattle.packet_host.specs.Host.{let_go, after_take, ended_frames};
ghost use Rattle.packet_host.specs.Making.{made};

mod asking;
mod line;
mod saying;

use crate::config::HostConfig;
use packet_codec::{Address, CallData, MAX_USER_DATA};
use packet_end::{EndFault, PacketEnd};
use packet_layer::{CallFault, ChannelFault, Front, LayerNote, Request, Taken};
use std::alloc::Global;
use std::marker::Model;
use std::ops::Deref;

/// A host at one end of a line, in either role. Each call that changes the host, but `elapse` and what takes, is one
/// event. Its frames are then taken by `out` and its notes by `notes`. After the next event they are gone, a frame as
/// if the line had lost it. A call that is refused changes nothing. What asks about the host, without a change, is a call
/// of [`PacketEnd`].
#[derive(Drop)]
pub struct Host {
    end: PacketEnd,
}

impl Model for Host {
    ghost use Rattle.packet_end.specs.PacketEnd.{PacketEnd as EndValue};

    ghost Value = { EndValue };

    ghost use Rattle.packet_host.specs.HostView.{host_of};

    ghost view = { host_of };
}

impl Deref for Host {
    type Target = PacketEnd;

    fn deref(&self) -> &PacketEnd
        ensures { result.now ≡ self.now }
    {
        &self.end
    }
}

impl Host {
    /// The host at its line, which is new: the link is started, or up on a standing line. It takes all the memory that
    /// it ever uses.
    ///
    /// `BadConfig` comes if a parameter is out of its range, and then `OutOfMemory` for want of memory.
    pub fn new(alloc: Global, config: HostConfig) -> Result<Host, EndFault>
        ensures { MatchResult result
            (λ host. AreParams config.line × (host ≡ made config))
            (λ fault. MadeNot config.line fault) }
    {
        let end = PacketEnd::new(alloc, config.role, config.line)?;
        Ok(Host { end })
    }

    /// Calls an address with at most 16 octets of call user data (X.25 4.1.2), and answers the channel: the highest
    /// free one of a DTE, the lowest of a DCE.
    ///
    /// `NotReady` comes if the restart procedure is not done, then `NoChannel` if no channel is free.
    pub fn call(&mut self, address: Address, user_data: &[u8]) -> Result<u8, CallFault>
        requires { length user_data.now ≤ 16 }
        ensures answer { MatchResult result
            (λ channel. machine.channel_given self.old.layer self.old.layer.phase ≡ Some channel)
            (λ fault. machine.call_refusal self.old.layer self.old.layer.phase ≡ Some (call_refusal_of fault)) }
        ensures host { self.new ≡ after_call self.old (call_parts address user_data.now) }
        ensures err { OnErr result (self.new ≡ self.old) }
        ensures nothing_kept_back { OnOk result (end.KeepsNothingBack self.new) }
        ensures frames { OnOk result (self.new.line.frames
            ≡ ended_frames (end.called self.old (call_parts address user_data.now))) }
    {
        let channel = self.end.call(&CallData {
            called: address,
            calling: None,
            facilities: &[],
            user_data,
        })?;
        self.end_event();
        Ok(channel)
    }

    /// Accepts the call that came in on the channel (X.25 4.1.4).
    ///
    /// `NoCall` comes if none waits for it: no call came in, or a DTE's own call collided with it.
    pub fn answer(&mut self, channel: u8) -> Result<(), ChannelFault>
        ensures answer { MatchResult result
            (λ _. machine.request_refusal self.old.layer channel ask.Accept ≡ None)
            (λ fault. machine.request_refusal self.old.layer channel ask.Accept ≡ Some (refusal_of fault)) }
        ensures host { self.new ≡ after_request self.old channel ask.Accept }
        ensures nothing_kept_back { OnOk result (end.KeepsNothingBack self.new) }
        ensures frames { OnOk result (self.new.line.frames ≡ ended_frames (end.asked self.old channel ask.Accept)) }
    {
        self.request(channel, &Request::Accept)
    }

    /// Clears the call that came in on the channel and is not answered, with cause 0 and diagnostic 0 (X.25 4.1.7).
    ///
    /// `NoCall` comes if there is none.
    pub fn refuse(&mut self, channel: u8) -> Result<(), ChannelFault>
        ensures answer { MatchResult result
            (λ _. refuse_refusal self.old channel ≡ None)
            (λ fault. refuse_refusal self.old channel ≡ Some (refusal_of fault)) }
        ensures host { self.new ≡ after_refuse self.old channel }
        ensures nothing_kept_back { OnOk result (end.KeepsNothingBack self.new) }
        ensures frames { OnOk result (self.new.line.frames
            ≡ ended_frames (end.asked self.old channel (ask.Clearing 0 0))) }
    {
        if !self.end.can_accept(channel) {
            return Err(ChannelFault::NoCall);
        }
        self.clear(channel)
    }

    /// Clears the call on the channel, also one that is being set up, with cause 0 and diagnostic 0 (X.25 4.1.7).
    ///
    /// `NoCall` comes if there is none.
    pub fn clear(&mut self, channel: u8) -> Result<(), ChannelFault>
        ensures answer { MatchResult result
            (λ _. machine.request_refusal self.old.layer channel (ask.Clearing 0 0) ≡ None)
            (λ fault. machine.request_refusal self.old.layer channel (ask.Clearing 0 0) ≡ Some (refusal_of fault)) }
        ensures host { self.new ≡ after_request self.old channel (ask.Clearing 0 0) }
        ensures nothing_kept_back { OnOk result (end.KeepsNothingBack self.new) }
        ensures frames { OnOk result (self.new.line.frames ≡ ended_frames (end.asked self.old channel (ask.Clearing 0 0))) }
    {
        let request = Request::Clear {
            cause: 0,
            diagnostic: 0,
        };
        self.request(channel, &request)
    }

    /// Resets the call on the channel with cause 0 and diagnostic 0: what waits in both directions is dropped (X.25
    /// 4.4.3).
    ///
    /// `NoCall` comes if no call is in data transfer, `Resetting` while the last own reset is not confirmed.
    pub fn reset(&mut self, channel: u8) -> Result<(), ChannelFault>
        ensures answer { MatchResult result
            (λ _. machine.request_refusal self.old.layer channel (ask.Resetting 0 0) ≡ None)
            (λ fault. machine.request_refusal self.old.layer channel (ask.Resetting 0 0) ≡ Some (refusal_of fault)) }
        ensures host { self.new ≡ after_request self.old channel (ask.Resetting 0 0) }
        ensures nothing_kept_back { OnOk result (end.KeepsNothingBack self.new) }
        ensures frames { OnOk result (self.new.line.frames ≡ ended_frames (end.asked self.old channel (ask.Resetting 0 0))) }
    {
        let request = Request::Reset {
            cause: 0,
            diagnostic: 0,
        };
        self.request(channel, &request)
    }

    /// Sends an interrupt of 1 to 32 octets on the channel (X.25 4.3.7).
    ///
    /// The first of these faults is answered:
    ///
    /// - `NoCall`: no call is in data transfer.
    /// - `Resetting`: the own reset is not confirmed.
    /// - `TooLong`: there are no octets, or more than 32.
    /// - `InterruptPending`: the last interrupt is not confirmed.
    pub fn interrupt(&mut self, channel: u8, octets: &[u8]) -> Result<(), ChannelFault>
        ensures answer { MatchResult result
            (λ _. machine.request_refusal self.old.layer channel (ask.Interrupting octets.now) ≡ None)
            (λ fault. machine.request_refusal self.old.layer channel (ask.Interrupting octets.now)
            ≡ Some (refusal_of fault)) }
        ensures host { self.new ≡ after_request self.old channel (ask.Interrupting octets.now) }
        ensures nothing_kept_back { OnOk result (end.KeepsNothingBack self.new) }
        ensures frames { OnOk result (self.new.line.frames ≡ ended_frames (end.asked self.old channel (ask.Interrupting octets.now))) }
    {
        self.request(channel, &Request::Interrupt(octets))
    }

    /// Asks the far end by RNR to send no more data on the channel (X.25 4.4.1.5).
    ///
    /// `NoCall` comes if no call is in data transfer.
    pub fn stop(&mut self, channel: u8) -> Result<(), ChannelFault>
        ensures answer { MatchResult result
            (λ _. machine.request_refusal self.old.layer channel (ask.Stopping true) ≡ None)
            (λ fault. machine.request_refusal self.old.layer channel (ask.Stopping true) ≡ Some (refusal_of fault)) }
        ensures host { self.new ≡ after_request self.old channel (ask.Stopping true) }
        ensures nothing_kept_back { OnOk result (end.KeepsNothingBack self.new) }
        ensures frames { OnOk result (self.new.line.frames ≡ ended_frames (end.asked self.old channel (ask.Stopping true))) }
    {
        self.request(channel, &Request::Stop(true))
    }

    /// Ends by RR what `stop` asked (X.25 4.4.1.4).
    ///
    /// `NoCall` comes if no call is in data transfer.
    pub fn go(&mut self, channel: u8) -> Result<(), ChannelFault>
        ensures answer { MatchResult result
            (λ _. machine.request_refusal self.old.layer channel (ask.Stopping false) ≡ None)
            (λ fault. machine.request_refusal self.old.layer channel (ask.Stopping false) ≡ Some (refusal_of fault)) }
        ensures host { self.new ≡ after_request self.old channel (ask.Stopping false) }
        ensures nothing_kept_back { OnOk result (end.KeepsNothingBack self.new) }
        ensures frames { OnOk result (self.new.line.frames ≡ ended_frames (end.asked self.old channel (ask.Stopping false))) }
    {
        self.request(channel, &Request::Stop(false))
    }

    /// Takes what comes next on the channel, if anything: an interrupt, which is then confirmed, before all packets,
    /// each of which is then acknowledged by P(R) (X.25 4.3.7, 4.4.1.3).
    pub fn take(&mut self, channel: u8) -> Option<Taken>
        ensures taken { maybe_taken result ≡ machine.front_on self.old.layer channel }
        ensures host { self.new ≡ after_take self.old channel }
        ensures nothing_kept_back { OnSome result (end.KeepsNothingBack self.new) }
        ensures frames { IfSome result (λ taken. self.new.line.frames
            ≡ ended_frames (let_go (taken_of taken) channel (end.asked self.old channel ask.Taking))) }
    {
        let taken = self.end.take(channel)?;
        let request = match taken {
            Taken::Interrupt(_) => Request::ConfirmInterrupt,
            Taken::Data(_) => Request::Release(1),
        };
        let _ = self.end.ask(channel, &request);
        self.end_event();
        Some(taken)
    }

    /// Takes what comes next on the channel as `take` does, but copies its octets into a text, which is empty and has room
    /// for them.
    pub fn take_into(&mut self, channel: u8, text: &mut Vec<u8>) -> Option<Front>
        requires empty { text.old.items ≡ [] }
        requires places { MAX_USER_DATA ≤ vec_capacity text.old }
        ensures front { result ≡ maybe_front (machine.front_on self.old.layer channel) }
        ensures text { text.new.items ≡ taken_octets (machine.front_on self.old.layer channel) }
        ensures few { IfSome result (λ front. HasFewOctets front text.new.items) }
        ensures kept { vec_capacity text.old ≤ vec_capacity text.new }
        ensures host { self.new ≡ after_take self.old channel }
        ensures nothing_kept_back { OnSome result (end.KeepsNothingBack self.new) }
        ensures frames { IfSome result (λ front. self.new.line.frames ≡ ended_frames
            (let_go (taken_with front text.new.items) channel (end.asked self.old channel ask.Taking))) }
    {
        let front = self.end.take_into(channel, text)?;
        let request = match front {
            Front::Interrupt => Request::ConfirmInterrupt,
            Front::Data { .. } => Request::Release(1),
        };
        let _ = self.end.ask(channel, &request);
        self.end_event();
        Some(front)
    }

    /// Whether anything waits to be taken on the channel.
    pub fn has_to_take(&self, channel: u8) -> bool
        ensures { result ≡ is_some (machine.front_on self.now.layer channel) }
    {
        self.end.front(channel).is_some()
    }

    /// Takes the next note of the event, if there is one.
    pub fn notes(&mut self) -> Option<LayerNote>
        ensures note { maybe_note result ≡ slice_get self.old.notes 0 }
        ensures host { self.new ≡ end.without_first_note self.old }
    {
        self.end.notes()
    }

    /// A request at the end of the line, which is an event where it is not refused.
    fn request(&mut self, channel: u8, request: &Request<'_>) -> Result<(), ChannelFault>
        ensures answer { MatchResult result
            (λ _. machine.request_refusal self.old.layer channel (request_of request.now) ≡ None)
            (λ fault. machine.request_refusal self.old.layer channel (request_of request.now)
            ≡ Some (refusal_of fault)) }
        ensures host { self.new ≡ after_request self.old channel (request_of request.now) }
        ensures nothing_kept_back { OnOk result (end.KeepsNothingBack self.new) }
        ensures frames { OnOk result (self.new.line.frames
            ≡ ended_frames (end.asked self.old channel (request_of request.now))) }
    {
        self.end.ask(channel, request)?;
        self.end_event();
        Ok(())
    }

    /// Ends an event that has changed the end of the line.
    fn end_event(&mut self)
        ensures host { self.new ≡ ended self.old }
        ensures nothing_kept_back { end.KeepsNothingBack self.new }
        ensures frames { self.new.line.frames ≡ ended_frames self.old }
        ensures timers { TimersAgree self.new.layer self.new.timers }
    {
        self.end.begin();
        self.end.finish();
    }
}
