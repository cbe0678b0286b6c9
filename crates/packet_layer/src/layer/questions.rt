//! What a user may ask of a layer without changing anything.
ghost use Rattle.std.specs.Prelude.{◌≡◌, false, Some, None, is_some, MatchResult};
ghost use Rattle.std.specs.Bool.{OnTrue};
ghost use Rattle.flow_window.specs.Pool.{Holds};
ghost use Rattle.std.specs.List.{list_all};
ghost use Rattle.packet_layer.specs.Layer as machine;
ghost use Rattle.packet_layer.specs.Interrupting.{may_interrupt};
ghost use Rattle.packet_layer.specs.RequestView.{refusal_of};
ghost use Rattle.data_transfer.specs.Flow.{IsFlow};
ghost use Rattle.data_transfer.specs.TakenView.{maybe_front};

use crate::layer::Layer;
use data_transfer::{Flow, Front};
use flow_window::pool::Pool;
use link_timers::Role;
use packet_channel::{Channel, ChannelFault};

impl Layer {
    /// Whether certainly no packet goes to the link next, so that none need be asked for.
    pub fn is_certainly_silent(&self) -> bool
        ensures { OnTrue result (is_some (machine.next_packet self.now.layer).packet ≡ false) }
    {
        self.to_serve.is_empty() && self.owed.is_empty()
    }

    /// Whether `accept` takes a call on the channel: one came in and is not answered.
    pub fn can_accept(&self, channel: u8) -> bool
        ensures { result ≡ machine.can_accept self.now.layer channel }
    {
        match self.channel(u16::from(channel)) {
            Some(channel) => channel.state().may_accept(self.role),
            None => false,
        }
    }

    /// Whether data may be queued on the channel, however much waits there: `NoCall` comes if no call is in data
    /// transfer, then `Resetting` while the own reset is not confirmed.
    pub fn may_send(&self, channel: u8) -> Result<(), ChannelFault>
        ensures { MatchResult result
            (λ _. machine.flow_refusal self.now.layer channel ≡ None)
            (λ fault. machine.flow_refusal self.now.layer channel ≡ Some (refusal_of fault)) }
    {
        let Some(channel) = self.channel(u16::from(channel)) else {
            return Err(ChannelFault::NoCall);
        };
        if !channel.state().in_transfer() {
            return Err(ChannelFault::NoCall);
        }
        if channel.waits_for_reset() {
            return Err(ChannelFault::Resetting);
        }
        Ok(())
    }

    /// How many packets `send` would take on the channel, 0 to 8: none if it would answer `NoCall` or `Resetting`.
    pub fn room(&self, channel: u8) -> u8
        ensures { result ≡ machine.room self.now.layer channel }
    {
        match self.channel(u16::from(channel)) {
            Some(channel) => channel.room(),
            None => 0,
        }
    }

    /// Whether `interrupt` takes 1 to 32 octets on the channel: it has a call without an unconfirmed own reset, and no
    /// interrupt of it is unconfirmed.
    pub fn may_interrupt(&self, channel: u8) -> bool
        ensures { result ≡ may_interrupt self.now.layer channel }
    {
        match self.channel(u16::from(channel)) {
            Some(channel) => channel.may_interrupt(),
            None => false,
        }
    }

    /// What `take` would give on the channel, if anything: an interrupt, or a Data packet of so many octets with M, Q
    /// and D.
    pub fn front(&self, channel: u8, pool: &Pool) -> Option<Front>
        requires { Holds pool.now self.now.held }
        ensures { result ≡ maybe_front (machine.front_on self.now.layer channel) }
    {
        let channel = self.channel(u16::from(channel))?;
        channel.front(pool)
    }

    /// Whether the channel has a call in which every packet with D = 1 since the last reset was covered (X.25 4.3.3).
    pub fn confirmed(&self, channel: u8) -> bool
        ensures { result ≡ machine.confirmed self.now.layer channel }
    {
        match self.channel(u16::from(channel)) {
            Some(channel) => channel.is_confirmed(),
            None => false,
        }
    }

    /// The layer's role, which it keeps: of two layers on a line one is the DTE, the other one the DCE (X.25 3).
    pub fn role(&self) -> Role
        ensures { result ≡ self.now.layer.role }
    {
        self.role
    }

    /// The flow control parameters of the layer's line, which it keeps.
    pub fn flow(&self) -> Flow
        ensures flow { result ≡ self.now.layer.flow }
        ensures allowed { IsFlow result }
    {
        self.flow
    }

    /// Whether the link has to be set up again: from when a rule asks for it until `link_down` or `link_up`.
    pub fn must_relink(&self) -> bool
        ensures { result ≡ self.now.layer.relink }
    {
        self.relink
    }

    /// Whether no packet is owed and nothing waits to be sent or taken, on any channel.
    pub fn is_at_rest(&self) -> bool
        ensures { result ≡ machine.at_rest self.now.layer }
    {
        self.owed.is_empty() && rest(self.channels.as_slice())
    }
}

/// Whether nothing is owed and nothing waits on any of these channels.
fn rest(channels: &[Channel]) -> bool
    ensures { result ≡ list_all (λ c. machine.channel_rests c.channel) channels.now }
{
    channels.iter().all(|channel| channel.is_at_rest())
}
