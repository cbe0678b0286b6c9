//! A line of a switch: its end, and the channels of it that are joined.
ghost use Rattle.std.specs.Prelude.{◌≡◌, ◌≤◌, ◌<◌, ◌∷◌, [], Some, MatchResult, length, map, slice_get};
ghost use Rattle.std.specs.Bool.{OnFalse, OnTrue};
ghost use Rattle.std.specs.Option.{option_map};
ghost use Rattle.data_transfer.specs.Packets.{Datum};
ghost use Rattle.flow_window.specs.Pool.{Pool as PoolValue, IsIn, Holds, Balances, in_use};
ghost use Rattle.data_transfer.specs.Held.{Loses, datum_in};
ghost use Rattle.packet_codec.specs.Packet.{IsCallValue};
ghost use Rattle.packet_codec.specs.View.{call_view};
ghost use Rattle.packet_channel.specs.Channel.{Request as ask};
ghost use Rattle.packet_layer.specs.Layer as machine;
ghost use Rattle.packet_channel.specs.NoteView.{maybe_note};
ghost use Rattle.data_transfer.specs.Octets.{parts_of};
ghost use Rattle.packet_layer.specs.RequestView.{request_of, call_refusal_of};
ghost use Rattle.data_transfer.specs.TakenView.{maybe_taken, maybe_taken_in, maybe_buffers_in};
ghost use Rattle.packet_end.specs.Params.{AreParams, info_of};
ghost use Rattle.packet_end.specs.PacketEnd as end;
ghost use Rattle.packet_end.specs.Pooled.{Serves};
ghost use Rattle.packet_layer.specs.LayerTimers.{TimersAgree};
ghost use Rattle.packet_end.specs.declared.fault.EndFault.TheVariants as fault_is;
ghost use Rattle.switch_joins.specs.Direction.{new_direction, carried, covered_by};
ghost use Rattle.switch_joins.specs.Held.{begun};
ghost use Rattle.switch_joins.specs.Joins.{nth_joined, with_nth_joined, gathered_by};
ghost use Rattle.switch_joins.specs.Turning.{nothing_gathered, all_made, turned};
ghost use Rattle.joined_line.specs.SwitchLine.{with_end, quieted, may_offer, without_joins, line_rests};
ghost use Rattle.joined_line.specs.Making.{line_share, made_line};
ghost use Rattle.joined_line.specs.OfLine.{asked_on, kept_on, freed_on};
ghost use Rattle.joined_line.specs.Pooled.{on_line};

use crate::config::SwitchLineConfig;
use flow_window::pool::Pool;
use frame_codec::FrameBuf;
use link_timers::TimerId;
use packet_codec::{Address, CallData};
use packet_end::{EndFault, PooledEnd};
use packet_layer::{CallFault, KeptPacket, LayerNote, Request, Taken, TakenBuf};
use std::alloc::Global;
use std::marker::Model;
use std::ops::Deref;
use switch_joins::{Joined, Joins, Turned};

/// A line of a switch: its end, the address that calls from it get as their calling address (a trunk has none), and
/// for each of its channels what it is joined to, if it is. What asks about the end, without a change, is a call of
/// [`PooledEnd`] or of the packet layer, and what asks about the joins one of [`Joins`].
#[derive(Drop)]
pub struct SwitchLine {
    end: PooledEnd,
    address: Option<Address>,
    joined: Joins,
}

impl Model for SwitchLine {
    ghost use Rattle.joined_line.specs.Pooled.{PooledLine};

    ghost Value = { PooledLine };

    ghost use Rattle.joined_line.specs.LineView.{pooled_of, IsLine};

    ghost view = { pooled_of };

    ghost invariant = { IsLine };
}

impl Deref for SwitchLine {
    type Target = PooledEnd;

    fn deref(&self) -> &PooledEnd
        ensures end { result.now.end ≡ self.now.line.end }
        ensures info { result.now.info ≡ self.now.claim.info }
        ensures held { (pool : PoolValue) → Holds pool self.now.held → Holds pool result.now.held }
    {
        &self.end
    }
}

/// Puts a packet that lies in a buffer into the send queue of a channel. If it is refused, its buffer goes back.
fn send_on(line: &mut PooledEnd, channel: u8, packet: KeptPacket, pool: &mut Pool)
    requires { IsIn packet.buffer pool.old }
    ensures line { line.new ≡ record line.old {
      end = end.asked line.old.end channel (ask.Sending (datum_in packet));
      held = line.new.held;
    } }
    ensures pool { Balances pool.old (packet.buffer ∷ line.old.held) pool.new line.new.held }
    ensures within { length line.new.held < line.new.share }
{
    if let Err(refused) = line.send_buf(channel, packet, pool) {
        refused.packet.give_back(pool);
    }
}

impl SwitchLine {
    /// The switch's end of a line, without joins. `OutOfMemory` comes for want of memory.
    pub fn new(
        alloc: Global,
        config: SwitchLineConfig,
        pool: &mut Pool,
    ) -> Result<SwitchLine, EndFault>
        requires { AreParams config.params }
        ensures line { MatchResult result
            (λ line. line ≡ record {
              line = made_line config;
              held = [];
              claim = record { share = line_share config; info = info_of config.params.flow };
            })
            (λ fault. fault ≡ fault_is.OutOfMemory) }
        ensures pool { Balances pool.old [] pool.new [] }
    {
        let end = PooledEnd::new(alloc, config.role, config.params, pool)?;
        let joined = Joins::new(alloc, config.params.channels)?;
        Ok(SwitchLine {
            end,
            address: config.address,
            joined,
        })
    }

    /// The joins of its channels.
    pub fn joins(&self) -> &Joins
        ensures joined { result.now.joined ≡ self.now.line.joined }
        ensures held { (pool : PoolValue) → Holds pool self.now.held → Holds pool result.now.held }
    {
        &self.joined
    }

    /// The address that calls from the line get as their calling address. A trunk has none.
    pub fn address(&self) -> Option<Address>
        ensures { result ≡ self.now.line.address }
    {
        self.address
    }

    /// Joins a channel, or ends its join. What is gathered from there is dropped.
    pub fn set_joined(&mut self, channel: u8, joined: Option<Joined>, pool: &mut Pool)
        requires { Serves pool.old self.old.held self.old.claim.share self.old.claim.info }
        ensures line { self.new.line
            ≡ (record self.old.line {
              joined = with_nth_joined self.old.line.joined channel (option_map begun joined);
            }) }
        ensures claim { self.new.claim ≡ self.old.claim }
        ensures few { length self.new.line.joined ≤ 32 }
        ensures pool { Balances pool.old self.old.held pool.new self.new.held }
        ensures within { length self.new.held < self.new.claim.share }
    {
        self.joined.set(channel, joined, pool);
    }

    /// Restarts the direction from a joined channel. What is gathered from there is dropped.
    pub fn renew(&mut self, channel: u8, pool: &mut Pool)
        requires { Serves pool.old self.old.held self.old.claim.share self.old.claim.info }
        ensures line { self.new.line ≡ kept_on channel (λ v. new_direction) self.old.line }
        ensures claim { self.new.claim ≡ self.old.claim }
        ensures pool { Balances pool.old self.old.held pool.new self.new.held }
        ensures within { length self.new.held < self.new.claim.share }
    {
        self.joined.renew(channel, pool);
    }

    /// P(R) covers so many packets more of the channel that a channel is joined to.
    pub fn cover(&mut self, channel: u8, count: u8)
        ensures { self.new ≡ on_line (kept_on channel (covered_by count)) self.old }
    {
        self.joined.cover(channel, count);
    }

    /// A packet was taken on a channel, with D = 1 or without, and went on as it is: nothing is gathered from there.
    pub fn pass(&mut self, channel: u8, delivery: bool)
        requires { gathered_by (nth_joined self.old.line.joined channel) ≡ nothing_gathered }
        ensures { (d : Datum) →
            self.new ≡ on_line (kept_on channel (carried delivery (all_made (d ∷ [])))) self.old }
    {
        self.joined.pass(channel, delivery);
    }

    /// A packet was taken on a channel, with D = 1 or without, and what it makes due was sent. What is left is gathered.
    pub fn carry(&mut self, channel: u8, delivery: bool, turned: &Turned, pool: &mut Pool)
        requires pool { Serves pool.old self.old.held self.old.claim.share self.old.claim.info }
        requires room { in_use pool.old < length pool.old.places }
        requires size { length turned.now.left.octets ≤ pool.old.size }
        ensures line { self.new.line ≡ kept_on channel (carried delivery turned.now) self.old.line }
        ensures claim { self.new.claim ≡ self.old.claim }
        ensures pool { Balances pool.old self.old.held pool.new self.new.held }
        ensures within { length self.new.held < self.new.claim.share }
    {
        self.joined.carry(channel, delivery, turned, pool);
    }

    /// Releases what may be released of the packets taken on a joined channel.
    pub fn release(&mut self, channel: u8, pool: &mut Pool)
        requires { Serves pool.old self.old.held self.old.claim.share self.old.claim.info }
        ensures line { self.new.line ≡ freed_on channel self.old.line }
        ensures claim { self.new.claim ≡ self.old.claim }
        ensures pool { Balances pool.old self.old.held pool.new self.new.held }
        ensures within { length self.new.held < self.new.claim.share }
    {
        if let Some(count) = self.joined.release(channel) {
            let _ = self.end.ask(channel, &Request::Release(count), pool);
        }
    }

    /// Begins an event.
    pub fn begin(&mut self)
        ensures { self.new ≡ on_line (with_end end.begun) self.old }
    {
        self.end.begin();
    }

    /// Takes the octets of a frame.
    pub fn on_frame(&mut self, octets: &[u8], pool: &mut Pool)
        requires read { self.old.line.end.notes ≡ [] }
        requires pool { Serves pool.old self.old.held self.old.claim.share self.old.claim.info }
        ensures line { self.new.line ≡ with_end (λ e. end.received (quieted e) octets.now) self.old.line }
        ensures claim { self.new.claim ≡ self.old.claim }
        ensures notes { length self.new.line.end.notes ≤ 64 }
        ensures pool { Balances pool.old self.old.held pool.new self.new.held }
        ensures within { length self.new.held < self.new.claim.share }
    {
        self.end.on_frame(octets, pool);
    }

    /// Takes an expiry of a timer. If the timer does not run, nothing happens.
    pub fn on_timer(&mut self, id: TimerId, pool: &mut Pool)
        requires read { self.old.line.end.notes ≡ [] }
        requires pool { Serves pool.old self.old.held self.old.claim.share self.old.claim.info }
        ensures line { self.new.line ≡ with_end (λ e. end.after_timer (quieted e) id) self.old.line }
        ensures claim { self.new.claim ≡ self.old.claim }
        ensures notes { length self.new.line.end.notes ≤ 64 }
        ensures pool { Balances pool.old self.old.held pool.new self.new.held }
        ensures within { length self.new.held < self.new.claim.share }
    {
        self.end.on_timer(id, pool);
    }

    /// Sets the link up again.
    pub fn relink(&mut self, pool: &mut Pool)
        requires read { self.old.line.end.notes ≡ [] }
        requires pool { Serves pool.old self.old.held self.old.claim.share self.old.claim.info }
        ensures line { self.new.line ≡ with_end (λ e. end.relinked (quieted e)) self.old.line }
        ensures claim { self.new.claim ≡ self.old.claim }
        ensures notes { length self.new.line.end.notes ≤ 64 }
        ensures pool { Balances pool.old self.old.held pool.new self.new.held }
        ensures within { length self.new.held < self.new.claim.share }
    {
        self.end.relink(pool);
    }

    /// Takes the next note, if there is one.
    pub fn notes(&mut self) -> Option<LayerNote>
        ensures note { maybe_note result ≡ slice_get self.old.line.end.notes 0 }
        ensures line { self.new ≡ on_line (with_end end.without_first_note) self.old }
    {
        self.end.notes()
    }

    /// Asks something of a call. What is refused changes nothing.
    pub fn ask(&mut self, channel: u8, request: &Request<'_>, pool: &mut Pool)
        requires { Serves pool.old self.old.held self.old.claim.share self.old.claim.info }
        ensures line { self.new.line ≡ with_end (λ e. end.asked e channel (request_of request.now)) self.old.line }
        ensures claim { self.new.claim ≡ self.old.claim }
        ensures pool { Balances pool.old self.old.held pool.new self.new.held }
        ensures within { length self.new.held < self.new.claim.share }
    {
        let _ = self.end.ask(channel, request, pool);
    }

    /// Takes what comes next on a channel, if anything, with a packet in its buffer.
    pub fn take_buf(&mut self, channel: u8) -> Option<TakenBuf>
        ensures taken { maybe_taken_in result ≡ machine.front_on self.old.line.end.layer channel }
        ensures line { self.new.line ≡ with_end (λ e. end.asked e channel ask.Taking) self.old.line }
        ensures claim { self.new.claim ≡ self.old.claim }
        ensures held { Loses self.old.held (maybe_buffers_in result) self.new.held }
        ensures within { length self.new.held < self.new.claim.share }
    {
        self.end.take_buf(channel)
    }

    /// Takes what comes next on a channel, if anything.
    pub fn take(&mut self, channel: u8, pool: &mut Pool) -> Option<Taken>
        requires { Serves pool.old self.old.held self.old.claim.share self.old.claim.info }
        ensures taken { maybe_taken result ≡ machine.front_on self.old.line.end.layer channel }
        ensures line { self.new.line ≡ with_end (λ e. end.asked e channel ask.Taking) self.old.line }
        ensures claim { self.new.claim ≡ self.old.claim }
        ensures pool { Balances pool.old self.old.held pool.new self.new.held }
        ensures within { length self.new.held < self.new.claim.share }
    {
        let taken = self.end.take_buf(channel)?;
        Some(taken.take_out(pool))
    }

    /// Puts the packets that are due into the send queue of a channel, in order. What is refused changes nothing.
    pub fn send_all(&mut self, channel: u8, due: &Turned, pool: &mut Pool)
        requires pool { Serves pool.old self.old.held self.old.claim.share self.old.claim.info }
        requires within { length self.old.held < self.old.claim.share }
        ensures line { self.new.line ≡ asked_on channel (map ask.Sending due.now.made) self.old.line }
        ensures claim { self.new.claim ≡ self.old.claim }
        ensures pool { Balances pool.old self.old.held pool.new self.new.held }
        ensures within { length self.new.held < self.new.claim.share }
    {
        for n in 0..due.count() {
            self.ask(channel, &due.request(n), pool);
        }
    }

    /// Puts a packet that lies in a buffer into the send queue of a channel. If it is refused, its buffer goes back.
    pub fn send_packet(&mut self, channel: u8, packet: KeptPacket, pool: &mut Pool)
        requires { IsIn packet.buffer pool.old }
        ensures line { self.new.line
            ≡ with_end (λ e. end.asked e channel (ask.Sending (datum_in packet))) self.old.line }
        ensures claim { self.new.claim ≡ self.old.claim }
        ensures pool { Balances pool.old (packet.buffer ∷ self.old.held) pool.new self.new.held }
        ensures within { length self.new.held < self.new.claim.share }
    {
        send_on(&mut self.end, channel, packet, pool);
    }

    /// Places a call on a free channel, and answers the channel. `NotReady` comes if the restart is not done, then
    /// `NoChannel` if no channel is free.
    pub fn call(&mut self, call: &CallData<'_>) -> Result<u8, CallFault>
        requires { IsCallValue (call_view call.now) }
        ensures answer { MatchResult result
            (λ channel. machine.channel_given self.old.line.end.layer self.old.line.end.layer.phase ≡ Some channel)
            (λ fault. machine.call_refusal self.old.line.end.layer self.old.line.end.layer.phase
            ≡ Some (call_refusal_of fault)) }
        ensures line { self.new ≡ on_line (with_end (λ e. end.called e (parts_of (call_view call.now)))) self.old }
    {
        self.end.call(call)
    }

    /// Offers packets to the link, and answers whether it took any.
    #[tactic(auto, using(crate::proofs::Unread::all_offered_read))]
    pub fn offer(&mut self, pool: &mut Pool) -> bool
        requires { Serves pool.old self.old.held self.old.claim.share self.old.claim.info }
        ensures offered { result ≡ may_offer self.old.line }
        ensures line { self.new.line ≡ with_end end.all_offered self.old.line }
        ensures claim { self.new.claim ≡ self.old.claim }
        ensures pool { Balances pool.old self.old.held pool.new self.new.held }
        ensures within { length self.new.held < self.new.claim.share }
    {
        self.end.offer_packets(pool)
    }

    /// Ends an event.
    pub fn settle(&mut self, pool: &mut Pool)
        requires { Serves pool.old self.old.held self.old.claim.share self.old.claim.info }
        ensures line { self.new ≡ on_line (with_end end.settled) self.old }
        ensures timers { TimersAgree self.new.line.end.layer self.new.line.end.timers }
        ensures pool { pool.new ≡ pool.old }
    {
        self.end.settle(pool);
    }

    /// Restarts the line: no link is up, and no call is left.
    pub fn restart(&mut self, pool: &mut Pool)
        requires { Serves pool.old self.old.held self.old.claim.share self.old.claim.info }
        ensures line { self.new.line ≡ without_joins self.old.line }
        ensures claim { self.new.claim ≡ self.old.claim }
        ensures pool { Balances pool.old self.old.held pool.new self.new.held }
        ensures within { length self.new.held < self.new.claim.share }
    {
        self.end.restart(pool);
        self.joined.clear(pool);
    }

    /// Takes the next frame that goes out, if there is one.
    pub fn out(&mut self, frame: &mut FrameBuf) -> bool
        ensures frame { OnTrue result (self.old.line.end.line.frames ≡ frame.new ∷ self.new.line.end.line.frames) }
        ensures nothing { OnFalse result (self.old.line.end.line.frames ≡ []) }
        ensures same { OnFalse result (frame.new ≡ frame.old) }
        ensures line { self.new ≡ on_line (with_end end.without_first_frame) self.old }
    {
        self.end.out(frame)
    }

    /// Lets ticks pass, each a twentieth of a second: each timer that runs has so many less left, at least 0.
    pub fn elapse(&mut self, ticks: u16)
        ensures { self.new ≡ on_line (with_end (λ e. end.elapsed e ticks)) self.old }
    {
        self.end.elapse(ticks);
    }

    /// Whether the link is up with nothing unacknowledged, no packet waits to be sent or taken, and nothing is gathered.
    pub fn is_at_rest(&self) -> bool
        ensures { result ≡ line_rests self.now.line }
    {
        self.end.is_at_rest() && self.joined.gathers_nothing()
    }
}
