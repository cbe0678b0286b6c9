//! Packet sizes of the two lines of a join (X.25 4.4.1).
ghost use Rattle.std.specs.Prelude.{◌≡◌, ◌≤◌, true};
ghost use Rattle.data_transfer.specs.Flow.{is_size};

use std::marker::Model;

/// The packet sizes of the line that packets come from, and of the one that they go on to: each 128, 256, 512 or 1,024
/// octets.
#[derive(Clone, Copy)]
pub struct Sizes {
    near: u16,
    far: u16,
}

impl Model for Sizes {
    ghost use Rattle.std.specs.Prelude.{◌≤◌};
    ghost use Rattle.switch_joins.specs.Turning.{Sizes as SizesValue};

    ghost Value = { SizesValue };

    ghost view = { λ s. record { near = s.near; far = s.far } };

    ghost invariant = { λ s. (1 ≤ s.near) × (1 ≤ s.far) × (s.far ≤ 1024) };

    ghost inverse = { λ s. record { near = s.near; far = s.far } };
}

impl Sizes {
    /// The sizes of these two lines.
    pub fn new(near: u16, far: u16) -> Self
        requires near { is_size near ≡ true }
        requires far { is_size far ≡ true }
        ensures { result ≡ record { near = near; far = far } }
    {
        Sizes { near, far }
    }

    pub(crate) fn near(self) -> u16
        ensures value { result ≡ self.near }
        ensures some { 1 ≤ result }
    {
        self.near
    }

    pub(crate) fn far(self) -> u16
        ensures value { result ≡ self.far }
        ensures some { 1 ≤ result }
        ensures most { result ≤ 1024 }
    {
        self.far
    }
}
