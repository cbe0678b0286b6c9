//! The numbers of the buffers in use.
ghost use Rattle.std.specs.Prelude.{◌≡◌};
ghost use Rattle.flow_window.specs.Slot.{octets_in};

use crate::pool::given::Given;
use crate::pool::slot::Slot;
use std::marker::Model;

/// The number of a buffer in use. There is one for each of them: it cannot be cloned.
///
/// Contracts see the octets that were put into the buffer along with its number.
#[derive(Drop)]
pub struct BufNo {
    number: usize,
    given: Given,
}

impl Model for BufNo {
    ghost use Rattle.flow_window.specs.Pool.{Buffer};

    ghost Value = { Buffer };

    ghost use Rattle.flow_window.specs.Number.{buffer_of};

    ghost view = { buffer_of };
}

impl BufNo {
    pub(crate) fn of(number: usize, slot: &Slot) -> Self
        ensures { result ≡ record { number = number; octets = octets_in slot.now.content } }
    {
        BufNo {
            number,
            given: Given::of(slot),
        }
    }

    pub(crate) fn number(&self) -> usize
        ensures { result ≡ self.now.number }
    {
        self.number
    }
}
