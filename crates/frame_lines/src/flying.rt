//! Frames on their way in one direction.
ghost use Rattle.std.specs.Prelude.{◌≡◌, ◌≤◌, ◌<◌, ◌==◌, [], ◌∷◌, ◌++◌, length, take, drop, slice_get, Some, None, IfOk};
ghost use Rattle.std.specs.Bool.{OnTrue, OnFalse};

use crate::memory::FRAMES_IN_FLIGHT;
use frame_codec::FrameBuf;
use std::alloc::{AllocError, Global};
use std::marker::Model;

/// The frames on their way in one direction, in order, up to [`FRAMES_IN_FLIGHT`]. Each is written into a place that
/// was made once, and stays there until it is taken. If all were taken, the next one comes into the first place.
#[derive(Drop)]
pub(crate) struct Flying {
    taken: usize,
    end: usize,
    places: Vec<FrameBuf>,
}

impl Model for Flying {
    ghost use Rattle.std.specs.Prelude.{◌≡◌, ◌≤◌, ◌-◌, ℕ, List, length, take, drop};
    ghost use Rattle.std.specs.Coded.{coded_list, coded_ℕ};
    ghost use Rattle.frame_lines.specs.declared.memory.TheConstants.{FRAMES_IN_FLIGHT};

    ghost Value = { List (List ℕ) };

    ghost coded = { coded_list (coded_list coded_ℕ) };

    ghost view = { λ f. drop f.taken (take f.end f.places.items) };

    ghost invariant = { λ f. (f.taken ≤ f.end - 1) × (f.end ≤ FRAMES_IN_FLIGHT)
        × (length f.places.items ≡ FRAMES_IN_FLIGHT) };
}

impl Flying {
    /// No frames.
    pub(crate) fn new(alloc: Global) -> Result<Self, AllocError>
        ensures { IfOk result (λ flying. flying ≡ []) }
    {
        let mut places = Vec::with_capacity(alloc, FRAMES_IN_FLIGHT)?;
        for made in 0..FRAMES_IN_FLIGHT {
            places.push(FrameBuf::new())?;
        }
        Ok(Flying {
            taken: 0,
            end: 0,
            places,
        })
    }

    /// Forgets all frames.
    pub(crate) fn clear(&mut self)
        ensures { self.new ≡ [] }
    {
        self.taken = 0;
        self.end = 0;
    }

    /// Whether there is none.
    pub(crate) fn is_empty(&self) -> bool
        ensures { result ≡ (length self.now == 0) }
    {
        self.end == 0
    }

    /// Adds a frame behind the others, if there are fewer than [`FRAMES_IN_FLIGHT`].
    pub(crate) fn put(&mut self, frame: &FrameBuf)
        ensures room { length self.old < FRAMES_IN_FLIGHT → self.new ≡ self.old ++ frame.now ∷ [] }
        ensures beyond { FRAMES_IN_FLIGHT ≤ length self.old → self.new ≡ self.old }
    {
        if self.end == FRAMES_IN_FLIGHT {
            make_room(self.places.as_mut_slice(), &mut self.taken, &mut self.end);
            if self.end == FRAMES_IN_FLIGHT {
                return;
            }
        }
        let place = &mut self.places[self.end];
        place.clear();
        place.extend(frame.as_slice());
        self.end += 1;
    }

    /// Takes the first frame, if there is one.
    pub(crate) fn take(&mut self, frame: &mut FrameBuf) -> bool
        ensures taken { OnTrue result (slice_get self.old 0 ≡ Some frame.new) }
        ensures none { OnFalse result (slice_get self.old 0 ≡ None) }
        ensures same { OnFalse result (frame.new ≡ frame.old) }
        ensures others { self.new ≡ drop 1 self.old }
    {
        if self.end == 0 {
            return false;
        }
        frame.clear();
        frame.extend(self.places[self.taken].as_slice());
        if self.taken + 1 == self.end {
            self.clear();
        } else {
            self.taken += 1;
        }
        true
    }
}

/// Moves the frames that were not taken to the front.
#[cold]
#[inline(never)]
fn make_room(places: &mut [FrameBuf], taken: &mut usize, end: &mut usize)
    requires taken { taken.old < end.old }
    requires end { end.old ≤ FRAMES_IN_FLIGHT }
    requires places { length places.old ≡ FRAMES_IN_FLIGHT }
    ensures frames { drop taken.new (take end.new places.new) ≡ drop taken.old (take end.old places.old) }
    ensures taken { taken.new < end.new }
    ensures end { end.new ≤ FRAMES_IN_FLIGHT }
    ensures places { length places.new ≡ FRAMES_IN_FLIGHT }
    ensures full { end.new ≡ FRAMES_IN_FLIGHT → taken.new ≡ 0 }
{
    places.rotate_left(*taken);
    *end -= *taken;
    *taken = 0;
}
