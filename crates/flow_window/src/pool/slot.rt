//! The places of the buffers of a pool.
ghost use Rattle.std.specs.Prelude.{◌≡◌, ◌≤◌, ◌++◌, length, drop, Some, None, is_some, true, IfOk};

use std::alloc::{AllocError, Global};
use std::marker::Model;

/// A place for the octets of one buffer.
#[derive(Drop)]
pub(crate) struct Slot {
    octets: Vec<u8>,
    len: usize,
    used: bool,
}

impl Model for Slot {
    ghost use Rattle.flow_window.specs.Slot.{Slot as SlotValue};

    ghost Value = { SlotValue };

    ghost use Rattle.flow_window.specs.SlotView.{slot_of, IsSlot};

    ghost view = { slot_of };

    ghost invariant = { IsSlot };
}

impl Slot {
    /// A place for up to `size` octets, not in use.
    pub(crate) fn new(alloc: Global, size: usize) -> Result<Self, AllocError>
        ensures { IfOk result (λ slot. slot ≡ record { size = size; content = None }) }
    {
        let mut octets = Vec::new(alloc);
        octets.resize(size, 0)?;
        Ok(Slot {
            octets,
            len: 0,
            used: false,
        })
    }

    pub(crate) fn fill(&mut self, octets: &[u8])
        requires { length octets.now ≤ self.old.size }
        ensures { self.new ≡ record self.old { content = Some octets.now } }
    {
        write_front(&mut self.octets, octets);
        self.len = octets.len();
        self.used = true;
    }

    /// What it holds, while it is in use.
    pub(crate) fn as_slice(&self) -> &[u8]
        requires { is_some self.now.content ≡ true }
        ensures value { self.now.content ≡ Some result.now }
        ensures fits { length result.now ≤ self.now.size }
    {
        &self.octets[..self.len]
    }

    pub(crate) fn empty(&mut self)
        ensures { self.new ≡ record self.old { content = None } }
    {
        self.used = false;
    }
}

/// In line it takes registers from all that stands around it.
#[inline(never)]
fn write_front(place: &mut [u8], octets: &[u8])
    requires { length octets.now ≤ length place.old }
    ensures { place.new ≡ octets.now ++ drop (length octets.now) place.old }
{
    place[..octets.len()].copy_from_slice(octets);
}
