//! One end of a line with its packet layer, and with a pool of its own.
ghost use Rattle.std.specs.Prelude.{◌≡◌, ◌≤◌, ◌+◌, [], ◌∷◌, length, Some, None, MatchResult, slice_get};
ghost use Rattle.std.specs.Prelude.{IfSome, vec_capacity};
ghost use Rattle.std.specs.Bool.{OnTrue, OnFalse};
ghost use Rattle.packet_codec.specs.Packet.{IsCallValue};
ghost use Rattle.packet_codec.specs.View.{call_view};
ghost use Rattle.packet_channel.specs.Channel.{Request as ask};
ghost use Rattle.packet_layer.specs.Layer as machine;
ghost use Rattle.data_transfer.specs.Octets.{parts_of};
ghost use Rattle.data_transfer.specs.Packets.{Datum};
ghost use Rattle.packet_layer.specs.RequestView.{request_of, refusal_of, call_refusal_of};
ghost use Rattle.data_transfer.specs.TakenView.{maybe_taken, maybe_front, taken_octets, HasFewOctets};
ghost use Rattle.data_transfer.specs.Traffic.Taken.{TakenPacket};
ghost use Rattle.packet_end.specs.Params.{AreParams, MadeNot};
ghost use Rattle.packet_layer.specs.LayerTimers.{TimersAgree};
ghost use Rattle.packet_end.specs.PacketEnd.{made, begun, received, after_timer, relinked, restarted};
ghost use Rattle.packet_end.specs.PacketEnd.{KeepsNothingBack, finished, asked, called};
ghost use Rattle.packet_end.specs.PacketEnd.{elapsed, without_first_frame, without_first_note};
ghost use Rattle.packet_end.specs.Sending.{EndsWhole};

use crate::fault::EndFault;
use crate::params::EndParams;
use crate::pooled::PooledEnd;
use flow_window::pool::Pool;
use frame_codec::FrameBuf;
use link_timers::{Role, TimerId};
use packet_codec::{CallData, MAX_USER_DATA};
use packet_layer::{CallFault, ChannelFault, Front, LayerNote, Request, Taken};
use std::alloc::Global;
use std::marker::Model;
use std::ops::Deref;

/// One end of a line with its packet layer: the link with the frames that go out, the logical channels, the timers of
/// both, and what is told of the calls. Its packets lie in a pool of its own. What asks about the end, without a
/// change, is a call of [`PooledEnd`] or of the packet layer.
///
/// An event of a node with one line is `begin`, then what happens at the line (`on_frame`, `on_timer`, `relink` or what
/// a user asks of a call), then `finish`. Then the frames are taken by `out` and the notes by `notes`.
#[derive(Drop)]
pub struct PacketEnd {
    end: PooledEnd,
    pool: Pool,
}

impl Model for PacketEnd {
    ghost use Rattle.packet_end.specs.PacketEnd.{PacketEnd as EndValue};

    ghost Value = { EndValue };

    ghost use Rattle.packet_end.specs.EndView.{end_of, IsEnd};

    ghost view = { end_of };

    ghost invariant = { IsEnd };
}

impl Deref for PacketEnd {
    type Target = PooledEnd;

    fn deref(&self) -> &PooledEnd
        ensures { result.now.end ≡ self.now }
    {
        &self.end
    }
}

impl PacketEnd {
    ghost use Rattle.packet_channel.specs.NoteView.{maybe_note};

    /// The end of this role of a line: its link is as `LineEnd::new` makes it, its packet layer as `Layer::new`. It
    /// takes all the memory that it ever uses.
    ///
    /// `BadConfig` comes if a parameter is out of its range, and then `OutOfMemory` for want of memory.
    pub fn new(alloc: Global, role: Role, params: EndParams) -> Result<PacketEnd, EndFault>
        ensures { MatchResult result
            (λ end. AreParams params × (end ≡ made role params))
            (λ fault. MadeNot params fault) }
    {
        params.check()?;
        let mut pool = Pool::new(alloc, params.buffers(), usize::from(params.info()))?;
        let end = PooledEnd::new(alloc, role, params, &mut pool)?;
        Ok(PacketEnd { end, pool })
    }

    /// Begins an event of the node: drops the frames, as lost, and the notes that were not taken.
    pub fn begin(&mut self)
        ensures { self.new ≡ begun self.old }
    {
        self.end.begin();
    }

    /// Takes the octets of a received frame, and hands what it tells to the packet layer (X.25 2.4, 3 to 5).
    pub fn on_frame(&mut self, octets: &[u8])
        requires { self.old.notes ≡ [] }
        ensures end { self.new ≡ received self.old octets.now }
        ensures notes { length self.new.notes ≤ 64 }
    {
        self.end.on_frame(octets, &mut self.pool);
    }

    /// Takes an expiry of a timer. If the timer does not run, nothing happens.
    pub fn on_timer(&mut self, id: TimerId)
        requires { self.old.notes ≡ [] }
        ensures end { self.new ≡ after_timer self.old id }
        ensures notes { length self.new.notes ≤ 64 }
    {
        self.end.on_timer(id, &mut self.pool);
    }

    /// Gives the link up and sets it up again: all calls close.
    pub fn relink(&mut self)
        requires { length self.old.notes ≤ 64 }
        ensures end { self.new ≡ relinked self.old }
        ensures notes { length self.new.notes ≤ length self.old.notes + 32 }
    {
        self.end.relink(&mut self.pool);
    }

    /// Restarts the end of the line with its node, as on a line that is not standing. All that went before is
    /// forgotten, frames and notes too.
    pub fn restart(&mut self)
        ensures end { self.new ≡ restarted self.old }
        ensures nothing_kept_back { KeepsNothingBack self.new }
    {
        self.end.restart(&mut self.pool);
    }

    /// Ends an event: a relink if it is due, all packets that may go, the timers as the packet layer wants them, and
    /// the frames that the link may send. No frame of the event is lost.
    #[inline(always)]
    pub fn finish(&mut self)
        requires { length self.old.notes ≤ 64 }
        ensures end { self.new ≡ finished self.old }
        ensures notes { length self.new.notes ≤ length self.old.notes + 32 }
        ensures nothing_kept_back { KeepsNothingBack self.new }
        ensures frames { EndsWhole self.old self.new }
        ensures timers { TimersAgree self.new.layer self.new.timers }
    {
        self.end.finish(&mut self.pool);
    }

    /// Takes the next frame that goes out, if there is one. If there is none, `frame` stays as it is.
    pub fn out(&mut self, frame: &mut FrameBuf) -> bool
        ensures frame { OnTrue result (self.old.line.frames ≡ frame.new ∷ self.new.line.frames) }
        ensures nothing { OnFalse result (self.old.line.frames ≡ []) }
        ensures same { OnFalse result (frame.new ≡ frame.old) }
        ensures end { self.new ≡ without_first_frame self.old }
    {
        self.end.out(frame)
    }

    /// Takes the next note, if there is one.
    pub fn notes(&mut self) -> Option<LayerNote>
        ensures note { maybe_note result ≡ slice_get self.old.notes 0 }
        ensures end { self.new ≡ without_first_note self.old }
    {
        self.end.notes()
    }

    /// Lets ticks pass, each a twentieth of a second: each timer that runs has so many less, not below 0.
    pub fn elapse(&mut self, ticks: u16)
        ensures { self.new ≡ elapsed self.old ticks }
    {
        self.end.elapse(ticks);
    }

    /// Places a call on a free channel, a DTE on the highest one and a DCE on the lowest (X.25 4.1.2), and answers the
    /// channel. The facilities have at most 109 octets and the user data at most 16.
    ///
    /// `NotReady` comes if the restart procedure is not done, then `NoChannel` if no channel is free. A call that is
    /// refused changes nothing.
    pub fn call(&mut self, call: &CallData<'_>) -> Result<u8, CallFault>
        requires { IsCallValue (call_view call.now) }
        ensures answer { MatchResult result
            (λ channel. machine.channel_given self.old.layer self.old.layer.phase ≡ Some channel)
            (λ fault. machine.call_refusal self.old.layer self.old.layer.phase ≡ Some (call_refusal_of fault)) }
        ensures end { self.new ≡ called self.old (parts_of (call_view call.now)) }
    {
        self.end.call(call)
    }

    /// Asks something of the call on the channel: [`Request`] has each refusal. A channel that the line does not have
    /// has no call. What is refused changes nothing.
    pub fn ask(&mut self, channel: u8, request: &Request<'_>) -> Result<(), ChannelFault>
        ensures answer { MatchResult result
            (λ _. machine.request_refusal self.old.layer channel (request_of request.now) ≡ None)
            (λ fault. machine.request_refusal self.old.layer channel (request_of request.now)
            ≡ Some (refusal_of fault)) }
        ensures end { self.new ≡ asked self.old channel (request_of request.now) }
    {
        self.end.ask(channel, request, &mut self.pool)
    }

    /// Takes what comes next on the channel, if anything: an interrupt before all packets.
    pub fn take(&mut self, channel: u8) -> Option<Taken>
        ensures taken { maybe_taken result ≡ machine.front_on self.old.layer channel }
        // A packet is no larger than the line's size.
        ensures short { (d : Datum) → machine.front_on self.old.layer channel ≡ Some (TakenPacket d)
            → length d.octets ≤ self.old.layer.flow.size }
        ensures end { self.new ≡ asked self.old channel ask.Taking }
    {
        let taken = self.end.take_buf(channel)?;
        Some(taken.take_out(&mut self.pool))
    }

    /// Takes what comes next on the channel as `take` does, but copies its octets into a text, which is empty and has room
    /// for them.
    pub fn take_into(&mut self, channel: u8, text: &mut Vec<u8>) -> Option<Front>
        requires empty { text.old.items ≡ [] }
        requires places { MAX_USER_DATA ≤ vec_capacity text.old }
        ensures front { result ≡ maybe_front (machine.front_on self.old.layer channel) }
        ensures text { text.new.items ≡ taken_octets (machine.front_on self.old.layer channel) }
        ensures few { IfSome result (λ front. HasFewOctets front text.new.items) }
        ensures kept { vec_capacity text.old ≤ vec_capacity text.new }
        ensures end { self.new ≡ asked self.old channel ask.Taking }
    {
        let taken = self.end.take_buf(channel)?;
        Some(taken.take_into(&mut self.pool, text))
    }

    /// What `take` would give on the channel, if anything: an interrupt, or a Data packet of so many octets with M, Q
    /// and D.
    pub fn front(&self, channel: u8) -> Option<Front>
        ensures { result ≡ maybe_front (machine.front_on self.now.layer channel) }
    {
        self.end.front(channel, &self.pool)
    }
}
