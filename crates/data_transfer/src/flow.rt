//! The flow control parameters of a line (X.25 4.4.1).
ghost use Rattle.std.specs.Bool.{OnTrue, OnFalse};
ghost use Rattle.std.specs.Prelude.{◌≡◌};
ghost use Rattle.data_transfer.specs.Flow.{most_window, is_size, IsFlow};

use packet_codec::Numbering;

/// The packet size of a line for which no other is chosen (X.25 4.3.2).
pub const DEFAULT_SIZE: u16 = 128;

/// The window, the numbering and the packet size that both ends of a line use in each direction.
#[derive(Clone, Copy, PartialEq, Eq)]
pub struct Flow {
    /// How many Data packets of a call may be unacknowledged in each direction, from 1 to 7, and to 32
    /// with numbers modulo 128 (X.25 4.4.1.2).
    pub window: u8,
    /// How packets are numbered.
    pub numbering: Numbering,
    /// How many octets of user data a packet may have: 128, 256, 512 or 1,024 (X.25 4.3.2).
    pub size: u16,
}

impl Flow {
    /// The largest window with this numbering.
    fn most_window(&self) -> u8
        ensures { result ≡ most_window self.now.numbering }
    {
        match self.numbering {
            Numbering::Modulo8 => 7,
            Numbering::Modulo128 => 32,
        }
    }

    /// Whether it is one of the packet sizes.
    fn is_size(&self) -> bool
        ensures { result ≡ is_size self.now.size }
    {
        matches!(self.size, 128 | 256 | 512 | 1024)
    }

    /// Whether a line may have these parameters.
    pub fn is_allowed(&self) -> bool
        ensures allowed { OnTrue result (IsFlow self.now) }
        ensures others { OnFalse result (IsFlow self.now → ⊥) }
    {
        1 <= self.window && self.window <= self.most_window() && self.is_size()
    }
}
