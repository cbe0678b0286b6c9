//! What happened at an end of a line since its last event ended.
ghost use Rattle.std.specs.Prelude.{◌≡◌, ◌≢◌, ℕ, true, false};
ghost use Rattle.packet_codec.specs.Reading.{named_channel};
ghost use Rattle.packet_layer.specs.RequestView.{request_of};
ghost use Rattle.packet_end.specs.Touched.{has, IsTouched, NamesAnother, is_of_call};

use packet_codec::logical_channel;
use packet_layer::{MOST_CHANNELS, Request};

/// What happened at an end of a line since its last event ended, and which timers of the packet layer may therefore
/// run that are not to run, or may not run though they are to. The timers of the restart count as those of channel 0.
#[derive(Clone, Copy)]
pub(crate) enum Touched {
    /// Nothing happened.
    Nothing,
    /// Something happened that concerns none of these timers.
    NoTimer,
    /// Something happened that concerns the timers of this channel.
    Channel(u8),
    /// Something happened that may concern any timer.
    Everything,
}

impl Touched {
    /// Adds what concerns no timer.
    pub(crate) fn touch(&mut self)
        ensures others { (n : ℕ) → has self.new n ≡ has self.old n }
        ensures touched { IsTouched self.new }
    {
        if let Touched::Nothing = self {
            *self = Touched::NoTimer;
        }
    }

    /// Adds what concerns the timers of a channel.
    pub(crate) fn insert(&mut self, channel: u8)
        ensures others { (n : ℕ) → has self.new n ≡ false → (has self.old n ≡ false) × (n ≢ channel) }
        ensures touched { IsTouched self.new }
    {
        match self {
            Touched::Nothing | Touched::NoTimer => *self = Touched::Channel(channel),
            Touched::Channel(touched) if *touched == channel => {}
            Touched::Channel(_) | Touched::Everything => *self = Touched::Everything,
        }
    }

    /// Adds what a request on a channel concerns: the timers of the channel if it may begin or end an own call, reset or
    /// clear.
    pub(crate) fn insert_asked(&mut self, channel: u8, request: &Request<'_>)
        ensures others { (n : ℕ) → has self.new n ≡ false → (has self.old n ≡ false)
            × (is_of_call (request_of request.now) ≡ true → n ≢ channel) }
        ensures touched { IsTouched self.new }
    {
        match request {
            Request::Accept | Request::Clear { .. } | Request::Reset { .. } => self.insert(channel),
            _ => self.touch(),
        }
    }

    /// Adds what concerns the timers of the channel that the octets of a packet name.
    pub(crate) fn insert_named(&mut self, packet: &[u8])
        ensures others { (n : ℕ) → has self.new n ≡ false → (has self.old n ≡ false)
            × NamesAnother (named_channel packet.now) n }
        ensures touched { IsTouched self.new }
    {
        match logical_channel(packet) {
            Some(channel) if 1 <= channel && channel <= u16::from(MOST_CHANNELS) => {
                self.insert(channel as u8);
            }
            _ => *self = Touched::Everything,
        }
    }
}
