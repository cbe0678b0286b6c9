//! The frames that an event put on lines.
ghost use Rattle.std.specs.Prelude.{◌≡◌, ◌≤◌, ◌<◌, [], ◌∷◌, ◌++◌, length, max, OnOk, IsOk, IfOk};
ghost use Rattle.std.specs.Borrow.{Lends, sem};
ghost use Rattle.frame_codec.specs.contracts.buffer.FrameBuf as frame;
ghost use Rattle.net_events.specs.contracts.puts.Puts.{the_row};

use crate::answer::Put;
use frame_codec::FrameBuf;
use frame_lines::Direction;
use std::alloc::{AllocError, Global};
use std::marker::Model;

/// The frames that an event put on lines, in order. Each is written into a place that was made once, and that the frames
/// of later events use again.
#[derive(Drop)]
pub struct Puts {
    places: Vec<Put>,
    len: usize,
}

impl Model for Puts {
    ghost use Rattle.std.specs.Prelude.{◌≤◌, length, take};
    ghost use Rattle.net_events.specs.Puts.{PutList};

    ghost Value = { PutList };

    ghost view = { λ p. record { items = take p.len p.places.items; room = length p.places.items } };

    ghost invariant = { λ p. p.len ≤ length p.places.items };
}

impl Puts {
    /// No frames, and no room for any.
    pub fn new(alloc: Global) -> Self
        ensures items { result.items ≡ [] }
        ensures room { result.room ≡ 0 }
    {
        Puts {
            places: Vec::new(alloc),
            len: 0,
        }
    }

    /// No frames, and room for so many. `AllocError` comes for want of memory.
    pub fn with_room(alloc: Global, frames: usize) -> Result<Self, AllocError>
        ensures items { IfOk result (λ puts. puts.items ≡ []) }
        ensures room { IfOk result (λ puts. puts.room ≡ frames) }
    {
        let mut puts = Puts::new(alloc);
        puts.reserve(frames)?;
        Ok(puts)
    }

    /// Makes room for so many frames, if there is less; else it takes no memory. Without the memory the frames are as
    /// before.
    #[inline(always)]
    pub fn reserve(&mut self, frames: usize) -> Result<(), AllocError>
        ensures items { self.new.items ≡ self.old.items }
        ensures room { OnOk result (self.new.room ≡ max self.old.room frames) }
        ensures ready { frames ≤ self.old.room → IsOk result }
    {
        if self.places.len() < frames {
            self.grow(frames)?;
        }
        Ok(())
    }

    /// Makes places up to so many, in a list that moves once at most.
    #[inline(never)]
    fn grow(&mut self, frames: usize) -> Result<(), AllocError>
        requires { self.old.room < frames }
        ensures items { self.new.items ≡ self.old.items }
        ensures room { OnOk result (self.new.room ≡ frames) }
    {
        self.places
            .reserve(frames.saturating_sub(self.places.len()))?;
        for made in self.places.len()..frames {
            self.places.push(Put {
                line: 0,
                direction: Direction::FromDte,
                octets: FrameBuf::new(),
            })?;
        }
        Ok(())
    }

    /// Forgets all frames, and keeps their room.
    pub fn clear(&mut self)
        ensures items { self.new.items ≡ [] }
        ensures room { self.new.room ≡ self.old.room }
    {
        self.len = 0;
    }

    /// Adds a frame that is put on the line of this number, and lends the place into which it is to be written.
    pub fn add(&mut self, line: usize, direction: Direction) -> &mut FrameBuf
        requires { length self.old.items < self.old.room }
        ensures* { sem 𝓛 (Lends the_row frame.the_row self.entry result (λ octets. record {
          items = self.entry.now.items ++ record { line = line; direction = direction; octets = octets } ∷ [];
          room = self.entry.now.room;
        })) }
    {
        let place = &mut self.places[self.len];
        self.len += 1;
        place.line = line;
        place.direction = direction;
        &mut place.octets
    }

    /// The frames.
    pub fn as_slice(&self) -> &[Put]
        ensures { result.now ≡ self.now.items }
    {
        &self.places[..self.len]
    }
}
