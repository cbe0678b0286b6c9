//! Packets from the link, by the state of the call (X.25 tables C-3 and C-4).
ghost use Rattle.std.specs.Prelude.{◌≡◌, ◌≤◌, ◌<◌, ℕ, [], length, true, false};
ghost use Rattle.flow_window.specs.Pool.{Holds, Balances, in_use};
ghost use Rattle.packet_codec.specs.Packet.{IsContentOn};
ghost use Rattle.packet_codec.specs.View.{content_view};
ghost use Rattle.data_transfer.specs.Packets.{Body as body};
ghost use Rattle.packet_channel.specs.Channel as machine;
ghost use Rattle.packet_channel.specs.Held.{Fits};
ghost use Rattle.data_transfer.specs.Octets.{body_of};
ghost use Rattle.data_transfer.specs.Traffic.{hears};
ghost use Rattle.data_transfer.specs.HeardView.{heard_of};
ghost use Rattle.packet_channel.specs.Done.{IsDone};
ghost use Rattle.data_transfer.specs.declared.flow.Flow.{Flow as FlowValue};

use crate::channel::Channel;
use crate::control::Control;
use crate::note::{LayerNote, Reason};
use crate::notes::Notes;
use crate::state::{ChannelState, End};
use data_transfer::{Flow, Heard};
use flow_window::pool::Pool;
use link_timers::Role;
use packet_codec::{CallBuf, Content, Numbering, Packet, clear_cause, diagnostic};

impl Channel {
    /// Takes a packet that the link brings, and answers whether one control packet too many is owed.
    pub fn take_packet(
        &mut self,
        end: End,
        packet: &Packet<'_>,
        pool: &mut Pool,
        notes: &mut Notes,
    ) -> bool
        requires window { end.flow.window ≤ 32 }
        requires most { end.flow.size ≤ 1024 }
        requires fits { IsContentOn end.flow.numbering end.flow.size packet.now.channel (content_view packet.now.content) }
        requires holds { Holds pool.old self.old.held }
        requires read { notes.old ≡ [] }
        requires size { end.flow.size ≤ pool.old.size }
        requires room { in_use pool.old < length pool.old.places }
        ensures done { IsDone (machine.received end.role end.flow end.channel self.old.channel
            (body_of (content_view packet.now.content))) self.new.channel result notes.new }
        ensures pool { Balances pool.old self.old.held pool.new self.new.held }
        ensures fits { Fits end.flow self.old → Fits end.flow self.new }
    {
        match self.state {
            ChannelState::Ready => self.in_ready(end, packet, pool, notes),
            ChannelState::OwnWaiting => self.in_own_waiting(end, packet, pool, notes),
            ChannelState::FarWaiting => self.in_far_waiting(end, packet, pool, notes),
            ChannelState::Transfer if self.resetting => self.in_own_reset(end, packet, pool, notes),
            ChannelState::Transfer => self.in_flow_ready(end, packet, pool, notes),
            ChannelState::Collision => self.in_collision(end, packet, pool, notes),
            ChannelState::OwnClear => {
                self.in_own_clear(packet);
                false
            }
        }
    }

    fn in_ready(
        &mut self,
        end: End,
        packet: &Packet<'_>,
        pool: &mut Pool,
        notes: &mut Notes,
    ) -> bool
        requires state { self.old.channel.state ≡ machine.ChannelState.Ready }
        requires fits { IsContentOn end.flow.numbering end.flow.size packet.now.channel (content_view packet.now.content) }
        requires holds { Holds pool.old self.old.held }
        requires read { notes.old ≡ [] }
        ensures done { IsDone (machine.in_ready end.role end.channel self.old.channel
            (body_of (content_view packet.now.content))) self.new.channel result notes.new }
        ensures pool { Balances pool.old self.old.held pool.new self.new.held }
        ensures fits { (flow : FlowValue) → Fits flow self.old → Fits flow self.new }
    {
        match &packet.content {
            Content::CallRequest(call) => {
                self.state = ChannelState::FarWaiting;
                notes.add(LayerNote::Incoming(end.channel, CallBuf::new(call)));
                false
            }
            Content::ClearRequest { .. } => self.owe(Control::ClearConfirmation),
            _ => self.clear_error(end, diagnostic::NOT_ALLOWED_IN_P1, false, pool, notes),
        }
    }

    /// In a call collision the DCE's own call is cancelled.
    fn in_own_waiting(
        &mut self,
        end: End,
        packet: &Packet<'_>,
        pool: &mut Pool,
        notes: &mut Notes,
    ) -> bool
        requires state { self.old.channel.state ≡ machine.ChannelState.OwnWaiting }
        requires fits { IsContentOn end.flow.numbering end.flow.size packet.now.channel (content_view packet.now.content) }
        requires holds { Holds pool.old self.old.held }
        requires read { notes.old ≡ [] }
        ensures done { IsDone (machine.in_own_waiting end.role end.channel self.old.channel
            (body_of (content_view packet.now.content))) self.new.channel result notes.new }
        ensures pool { Balances pool.old self.old.held pool.new self.new.held }
        ensures fits { (flow : FlowValue) → Fits flow self.old → Fits flow self.new }
    {
        match &packet.content {
            Content::CallAccepted => {
                self.state = ChannelState::Transfer;
                notes.add(LayerNote::Connected(end.channel));
                false
            }
            Content::CallRequest(call) => {
                self.state = ChannelState::Collision;
                match end.role {
                    Role::Dte => false,
                    Role::Dce => {
                        notes.add(LayerNote::Closed {
                            channel: end.channel,
                            cause: clear_cause::NUMBER_BUSY,
                            diagnostic: diagnostic::NO_INFORMATION,
                            reason: Reason::Cancelled,
                        });
                        notes.add(LayerNote::Incoming(end.channel, CallBuf::new(call)));
                        false
                    }
                }
            }
            Content::ClearRequest { cause, diagnostic } => {
                self.far_cleared(end, *cause, *diagnostic, pool, notes)
            }
            _ => self.not_allowed(end, pool, notes),
        }
    }

    fn in_far_waiting(
        &mut self,
        end: End,
        packet: &Packet<'_>,
        pool: &mut Pool,
        notes: &mut Notes,
    ) -> bool
        requires holds { Holds pool.old self.old.held }
        requires read { notes.old ≡ [] }
        ensures done { IsDone (machine.in_far_waiting end.role end.channel self.old.channel
            (body_of (content_view packet.now.content))) self.new.channel result notes.new }
        ensures pool { Balances pool.old self.old.held pool.new self.new.held }
        ensures fits { (flow : FlowValue) → Fits flow self.old → Fits flow self.new }
    {
        match packet.content {
            Content::ClearRequest { cause, diagnostic } => self.far_cleared(
                end, cause, diagnostic, pool, notes,
            ),
            _ => self.not_allowed(end, pool, notes),
        }
    }

    fn in_collision(
        &mut self,
        end: End,
        packet: &Packet<'_>,
        pool: &mut Pool,
        notes: &mut Notes,
    ) -> bool
        requires holds { Holds pool.old self.old.held }
        requires read { notes.old ≡ [] }
        ensures done { IsDone (machine.in_collision end.role end.channel self.old.channel
            (body_of (content_view packet.now.content))) self.new.channel result notes.new }
        ensures pool { Balances pool.old self.old.held pool.new self.new.held }
        ensures fits { (flow : FlowValue) → Fits flow self.old → Fits flow self.new }
    {
        match packet.content {
            Content::CallAccepted => match end.role {
                Role::Dte => {
                    self.state = ChannelState::Transfer;
                    notes.add(LayerNote::Connected(end.channel));
                    false
                }
                Role::Dce => self.not_allowed(end, pool, notes),
            },
            Content::ClearRequest { cause, diagnostic } => self.far_cleared(
                end, cause, diagnostic, pool, notes,
            ),
            _ => self.not_allowed(end, pool, notes),
        }
    }

    /// Nothing is owed or noted.
    fn in_own_clear(&mut self, packet: &Packet<'_>)
        requires { self.old.channel.state ≡ machine.ChannelState.OwnClear }
        ensures done { IsDone (machine.in_own_clear self.old.channel (body_of (content_view packet.now.content)))
            self.new.channel false [] }
        ensures held { self.new.held ≡ self.old.held }
        ensures arrived { self.new.channel.traffic.arrived ≡ self.old.channel.traffic.arrived }
        ensures waiting { self.new.channel.traffic.waiting ≡ self.old.channel.traffic.waiting }
    {
        match packet.content {
            Content::ClearRequest { .. } | Content::ClearConfirmation => {
                self.state = ChannelState::Ready;
            }
            _ => {}
        }
    }

    fn in_own_reset(
        &mut self,
        end: End,
        packet: &Packet<'_>,
        pool: &mut Pool,
        notes: &mut Notes,
    ) -> bool
        requires state { self.old.channel.state ≡ machine.ChannelState.Transfer }
        requires holds { Holds pool.old self.old.held }
        requires read { notes.old ≡ [] }
        ensures done { IsDone (machine.in_own_reset end.role end.channel self.old.channel
            (body_of (content_view packet.now.content))) self.new.channel result notes.new }
        ensures pool { Balances pool.old self.old.held pool.new self.new.held }
        ensures fits { (flow : FlowValue) → Fits flow self.old → Fits flow self.new }
    {
        match packet.content {
            Content::ClearRequest { cause, diagnostic } => self.far_cleared(
                end, cause, diagnostic, pool, notes,
            ),
            Content::ResetRequest { .. } | Content::ResetConfirmation => {
                self.resetting = false;
                false
            }
            Content::Data(_)
            | Content::ReceiveReady(_)
            | Content::ReceiveNotReady(_)
            | Content::Interrupt(_)
            | Content::InterruptConfirmation => false,
            _ => self.not_allowed(end, pool, notes),
        }
    }

    fn in_flow_ready(
        &mut self,
        end: End,
        packet: &Packet<'_>,
        pool: &mut Pool,
        notes: &mut Notes,
    ) -> bool
        requires window { end.flow.window ≤ 32 }
        requires most { end.flow.size ≤ 1024 }
        requires fits { IsContentOn end.flow.numbering end.flow.size packet.now.channel (content_view packet.now.content) }
        requires state { self.old.channel.state ≡ machine.ChannelState.Transfer }
        requires holds { Holds pool.old self.old.held }
        requires read { notes.old ≡ [] }
        requires size { end.flow.size ≤ pool.old.size }
        requires room { in_use pool.old < length pool.old.places }
        ensures done { IsDone (machine.in_flow_ready end.role end.flow end.channel self.old.channel
            (body_of (content_view packet.now.content))) self.new.channel result notes.new }
        ensures pool { Balances pool.old self.old.held pool.new self.new.held }
        ensures fits { Fits end.flow self.old → Fits end.flow self.new }
    {
        match packet.content {
            Content::ClearRequest { cause, diagnostic } => self.far_cleared(
                end, cause, diagnostic, pool, notes,
            ),
            Content::ResetRequest { cause, diagnostic } => self.far_reset(
                end, cause, diagnostic, pool, notes,
            ),
            Content::ResetConfirmation => self.reset_error(
                end,
                diagnostic::NOT_ALLOWED_IN_D1,
                pool,
                notes,
            ),
            Content::Data(_)
            | Content::ReceiveReady(_)
            | Content::ReceiveNotReady(_)
            | Content::Interrupt(_)
            | Content::InterruptConfirmation => {
                let heard = self.hear(end.flow, packet, pool);
                self.after_heard(end, heard, pool, notes)
            }
            _ => self.not_allowed(end, pool, notes),
        }
    }

    /// The far end resets the call.
    fn far_reset(
        &mut self,
        end: End,
        cause: u8,
        diagnostic: u8,
        pool: &mut Pool,
        notes: &mut Notes,
    ) -> bool
        requires state { self.old.channel.state ≡ machine.ChannelState.Transfer }
        requires holds { Holds pool.old self.old.held }
        requires read { notes.old ≡ [] }
        ensures done { IsDone (machine.in_flow_ready end.role end.flow end.channel self.old.channel
            (body.Reset cause diagnostic)) self.new.channel result notes.new }
        ensures held { self.new.held ≡ [] }
        ensures pool { Balances pool.old self.old.held pool.new [] }
    {
        self.resetting = false;
        self.traffic.clear(pool);
        notes.add(LayerNote::Reset {
            channel: end.channel,
            cause,
            diagnostic,
            reason: Reason::FarEnd,
        });
        self.owe(Control::ResetConfirmation)
    }

    /// What a packet of data transfer does to the traffic.
    fn hear(&mut self, flow: Flow, packet: &Packet<'_>, pool: &mut Pool) -> Heard
        requires window { flow.window ≤ 32 }
        requires most { flow.size ≤ 1024 }
        requires content { IsContentOn flow.numbering flow.size packet.now.channel (content_view packet.now.content) }
        requires state { self.old.channel.state ≡ machine.ChannelState.Transfer }
        requires size { flow.size ≤ pool.old.size }
        requires room { in_use pool.old < length pool.old.places }
        ensures heard { heard_of result self.new.channel.traffic
            ≡ hears flow self.old.channel.traffic (body_of (content_view packet.now.content)) }
        ensures rest { self.new.channel ≡ record self.old.channel { traffic = self.new.channel.traffic } }
        ensures pool { Balances pool.old self.old.held pool.new self.new.held }
        ensures fits { Fits flow self.old → Fits flow self.new }
    {
        match &packet.content {
            Content::Data(packet) => self.traffic.hear_data(flow, packet, pool),
            Content::ReceiveReady(receive) => self.traffic.hear_ready(flow, *receive, false),
            Content::ReceiveNotReady(receive) => self.traffic.hear_ready(flow, *receive, true),
            Content::Interrupt(octets) => self.traffic.hear_interrupt(octets),
            Content::InterruptConfirmation => self.traffic.hear_interrupt_confirmation(),
            _ => Heard::Wrong(diagnostic::NO_INFORMATION),
        }
    }

    /// What a packet of data transfer does besides what it does to the traffic.
    fn after_heard(&mut self, end: End, heard: Heard, pool: &mut Pool, notes: &mut Notes) -> bool
        requires transfer { machine.in_transfer self.old.channel.state ≡ true }
        requires holds { Holds pool.old self.old.held }
        requires read { notes.old ≡ [] }
        ensures done { IsDone (machine.after_heard end.role end.channel self.old.channel
            (heard_of heard self.old.channel.traffic)) self.new.channel result notes.new }
        ensures pool { Balances pool.old self.old.held pool.new self.new.held }
        ensures fits { (flow : FlowValue) → Fits flow self.old → Fits flow self.new }
    {
        match heard {
            Heard::Keeps(0) => false,
            Heard::Keeps(count) => {
                notes.add(LayerNote::Covered {
                    channel: end.channel,
                    count,
                });
                false
            }
            Heard::Confirms => {
                notes.add(LayerNote::InterruptConfirmed(end.channel));
                false
            }
            Heard::Wrong(diagnostic) => self.reset_error(end, diagnostic, pool, notes),
        }
    }
}
