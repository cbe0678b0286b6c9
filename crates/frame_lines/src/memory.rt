//! Lines in memory.
ghost use Rattle.std.specs.Prelude.{◌≡◌, ◌≢◌, ◌<◌, ◌≤◌, ◌↔◌, [], ◌∷◌, ◌++◌, length, slice_get, IsTrue, IfOk, replicate};
ghost use Rattle.std.specs.Prelude.{Some, None};
ghost use Rattle.std.specs.Bool.{OnTrue, OnFalse};
ghost use Rattle.frame_lines.specs.Lines.{memory_service, no_flights, flying, with_flying, without_first, IsPut};

use crate::flying::Flying;
use crate::line::{Direction, Line};
use frame_codec::FrameBuf;
use std::alloc::{AllocError, Global};
use std::marker::Model;

/// How many frames a memory line holds for each direction.
pub const FRAMES_IN_FLIGHT: usize = 64;

/// A line in memory, which holds [`FRAMES_IN_FLIGHT`] frames for each direction: a frame put beyond these is lost. It
/// is faithful.
#[derive(Drop)]
pub struct MemLine {
    from_dte: Flying,
    from_dce: Flying,
}

impl Model for MemLine {
    ghost use Rattle.frame_lines.specs.Lines.{Flights};

    ghost Value = { Flights };

    ghost view = { λ l. record { from_dte = l.from_dte; from_dce = l.from_dce } };
}

impl MemLine {
    /// An empty line. `AllocError` comes for want of memory.
    pub fn new(alloc: Global) -> Result<Self, AllocError>
        ensures { IfOk result (λ line. line ≡ no_flights) }
    {
        let from_dte = Flying::new(alloc)?;
        let from_dce = Flying::new(alloc)?;
        Ok(MemLine { from_dte, from_dce })
    }
}

impl Line for MemLine {
    ghost flights = { λ l. l };

    ghost service = { memory_service };

    fn put(&mut self, direction: Direction, frame: &FrameBuf)
        ensures puts { IsPut memory_service direction frame.now self.old self.new }
        ensures room { length (flying direction self.old) < FRAMES_IN_FLIGHT
            → self.new ≡ with_flying direction (flying direction self.old ++ frame.now ∷ []) self.old }
        ensures beyond { FRAMES_IN_FLIGHT ≤ length (flying direction self.old) → self.new ≡ self.old }
    {
        match direction {
            Direction::FromDte => self.from_dte.put(frame),
            Direction::FromDce => self.from_dce.put(frame),
        }
    }

    fn take(&mut self, direction: Direction, frame: &mut FrameBuf) -> bool
        ensures taken { OnTrue result (slice_get (flying direction self.old) 0 ≡ Some frame.new) }
        ensures none { OnFalse result (slice_get (flying direction self.old) 0 ≡ None) }
        ensures same { OnFalse result (frame.new ≡ frame.old) }
        ensures others { self.new ≡ without_first direction self.old }
    {
        match direction {
            Direction::FromDte => self.from_dte.take(frame),
            Direction::FromDce => self.from_dce.take(frame),
        }
    }

    fn empty(&mut self)
        ensures { self.new ≡ no_flights }
    {
        self.from_dte.clear();
        self.from_dce.clear();
    }

    fn in_flight(&self, direction: Direction) -> bool
        ensures { IsTrue result ↔ (flying direction self.now ≢ []) }
    {
        match direction {
            Direction::FromDte => !self.from_dte.is_empty(),
            Direction::FromDce => !self.from_dce.is_empty(),
        }
    }

    fn is_certainly_empty(&self, direction: Direction) -> bool
        ensures { IsTrue result ↔ (flying direction self.now ≡ []) }
    {
        match direction {
            Direction::FromDte => self.from_dte.is_empty(),
            Direction::FromDce => self.from_dce.is_empty(),
        }
    }
}

/// Makes `n` empty lines in memory. `AllocError` comes for want of memory.
pub fn mem_lines(alloc: Global, n: usize) -> Result<Vec<MemLine>, AllocError>
    ensures { IfOk result (λ lines. lines.items ≡ replicate n no_flights) }
{
    let mut lines = Vec::with_capacity(alloc, n)?;
    for made in 0..n {
        lines.push(MemLine::new(alloc)?)?;
    }
    Ok(lines)
}
