//! The packet layer of one line (X.25 3 to 5).
ghost use Rattle.std.specs.Prelude.{◌≡◌, ◌<◌, ◌≤◌, ◌+◌, MatchResult, MatchOption, IfOk, Some, None, false, Bool};
ghost use Rattle.std.specs.Prelude.{ℕ, [], length, drop, replicate, slice_get};
ghost use Rattle.packet_channel.specs.Channel.{Channel as ChannelValue, closed_channel};
ghost use Rattle.flow_window.specs.Pool.{Buffer, weight};
ghost use Rattle.packet_layer.specs.Layer as machine;
ghost use Rattle.packet_layer.specs.Params.{AreParams, MadeNot};

mod calls;
mod closing;
mod packets;
mod questions;
mod serving;
mod sessions;
mod timers;

use crate::fault::LayerFault;
use crate::params::LayerParams;
use crate::restart::{Phase, RestartPacket};
use data_transfer::Flow;
use link_timers::Role;
use number_set::NumberSet;
use packet_channel::{Channel, End, LayerNote, Notes, Owed};
use std::alloc::{AllocError, Global};
use std::marker::Model;

/// One end of a line at the packet layer: its logical channels, the restart procedure, and what it owes to the link.
#[derive(Drop)]
pub struct Layer {
    role: Role,
    flow: Flow,
    channels: Vec<Channel>,
    /// The places of the channels that may have something for the link. The others have nothing.
    to_serve: NumberSet,
    phase: Phase,
    owed: Owed<RestartPacket>,
    served_last: u8,
    relink: bool,
    notes: Notes,
}

impl Model for Layer {
    ghost use Rattle.packet_layer.specs.Held as held;

    ghost Value = { held.Layer };

    ghost use Rattle.packet_layer.specs.LayerView.{holding, IsLayer};

    ghost view = { holding };

    ghost invariant = { IsLayer };
}

fn closed_channels(alloc: Global, count: u8) -> Result<Vec<Channel>, AllocError>
    ensures { IfOk result (λ channels. channels.items
        ≡ replicate count (record { channel = closed_channel; held = [] })) }
{
    let mut channels = Vec::new(alloc);
    for _ in 0..count {
        channels.push(Channel::new(alloc)?)?;
    }
    Ok(channels)
}

impl Layer {
    ghost use Rattle.packet_channel.specs.NoteView.{maybe_note};

    /// A packet layer without a session of the link, or on a standing line one in data transfer on channel 1. It
    /// takes all the memory that it ever uses.
    ///
    /// `BadParams` comes if the channels are not 1 to 32 or the flow control parameters none that a line may have, and
    /// then `OutOfMemory` for want of memory.
    pub fn new(alloc: Global, role: Role, params: LayerParams) -> Result<Layer, LayerFault>
        ensures { MatchResult result
            (λ layer. AreParams params.channels params.flow
            × (layer ≡ record {
              layer = machine.made role params.channels params.flow params.standing;
              held = [];
            }))
            (λ fault. MadeNot params.channels params.flow fault) }
    {
        params.check()?;
        let LayerParams {
            channels,
            flow,
            standing,
        } = params;
        let notes = Notes::new(alloc)?;
        let mut channels = closed_channels(alloc, channels)?;
        if standing {
            let first = &mut channels[0];
            first.stand();
        }
        Ok(Layer {
            role,
            flow,
            channels,
            to_serve: NumberSet::new(),
            phase: if standing {
                Phase::PacketReady
            } else {
                Phase::NoSession
            },
            owed: Owed::new(),
            served_last: 0,
            relink: false,
            notes,
        })
    }

    /// Takes the first note that is not read, if any. Notes that are not read are dropped by the next `link_up`,
    /// `link_down`, `on_packet` or `on_timer`.
    pub fn notes(&mut self) -> Option<LayerNote>
        ensures value { maybe_note result ≡ slice_get self.old.layer.notes 0 }
        ensures layer { self.new ≡ record self.old {
          layer = record self.old.layer { notes = drop 1 self.old.layer.notes };
        } }
    {
        self.notes.take()
    }

    /// How many notes are not read.
    pub fn unread_notes(&self) -> usize
        ensures count { result ≡ length self.now.layer.notes }
        ensures most { result ≤ 32 }
    {
        self.notes.len()
    }

    /// The place of a channel among those of the line.
    fn place(&self, channel: u16) -> Option<usize>
        ensures { MatchOption result (machine.channel_of self.now.layer channel ≡ None)
            (λ place. (place + 1 ≡ channel) × (place < length self.now.layer.channels)) }
    {
        let place = usize::from(channel).checked_sub(1)?;
        if place < self.channels.len() {
            Some(place)
        } else {
            None
        }
    }

    /// The channel of this number, if it is one of the line.
    fn channel(&self, number: u16) -> Option<&Channel>
        ensures found { MatchOption result (machine.channel_of self.now.layer number ≡ None)
            (λ channel. machine.channel_of self.now.layer number ≡ Some channel.now.channel) }
        ensures held { MatchOption result (Unit {0})
            (λ channel. (w : Buffer → ℕ) → weight w channel.now.held ≤ weight w self.now.held) }
    {
        let place = self.place(number)?;
        Some(&self.channels[place])
    }

    /// The channel of this number, where the restart procedure is done.
    fn ready_channel(&self, number: u16) -> Option<&Channel>
        ensures { MatchOption result
            ((test : ChannelValue → Bool)
            → machine.runs_at test self.now.layer.phase (machine.channel_of self.now.layer number) ≡ false)
            (λ channel. (self.now.layer.phase ≡ machine.Phase.PacketReady)
            × (machine.channel_of self.now.layer number ≡ Some channel.now.channel)) }
    {
        match self.phase {
            Phase::PacketReady => self.channel(number),
            Phase::NoSession | Phase::OwnRestart => None,
        }
    }

    /// The end at which the channel with this place is seen.
    #[tactic(auto, using(data_transfer::proofs::Windows::window_small, data_transfer::proofs::Windows::size_most))]
    fn end(&self, place: usize) -> End
        requires { place < length self.now.layer.channels }
        ensures role { result.role ≡ self.now.layer.role }
        ensures flow { result.flow ≡ self.now.layer.flow }
        ensures most { result.flow.window ≤ 32 }
        ensures size { result.flow.size ≤ 1024 }
        ensures channel { result.channel ≡ place + 1 }
    {
        End {
            role: self.role,
            flow: self.flow,
            channel: place as u8 + 1,
        }
    }

    /// Asks for a relink where a step of a channel does.
    fn relink_if(&mut self, asked: bool)
        ensures { self.new ≡ record self.old {
          layer = record self.old.layer { relink = machine.set_if asked self.old.layer.relink };
        } }
    {
        if asked {
            self.relink = true;
        }
    }
}
