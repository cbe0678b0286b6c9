//! What a terminal learns of its call.
ghost use Rattle.std.specs.Prelude.{◌≡◌};
ghost use Rattle.pad_ports.specs.Ports.{channel_of};

/// What a terminal learns of the call on a channel.
#[derive(Clone, Copy)]
pub enum PortNote {
    /// The call is connected.
    Connected(u8),
    /// The call was cleared, with this cause.
    Cleared(u8, u8),
    /// The call was reset, with this cause.
    Reset(u8, u8),
}

impl PortNote {
    /// The channel.
    pub fn channel(self) -> u8
        ensures { result ≡ channel_of self }
    {
        match self {
            PortNote::Connected(channel)
            | PortNote::Cleared(channel, _)
            | PortNote::Reset(channel, _) => channel,
        }
    }
}
