//! Lines: each hands over whole frames or nothing, for each direction in order.
ghost use Rattle.std.specs.Prelude.{◌≡◌, ◌≢◌, ◌↔◌, [], slice_get, IsTrue, true, Some, None};
ghost use Rattle.std.specs.Bool.{OnTrue, OnFalse};
ghost use Rattle.frame_lines.specs.Lines.{Flights, LineService, no_flights, flying, without_first, IsPut};

use frame_codec::FrameBuf;

/// The direction of a frame on a line, by the role of the end that sent it.
#[derive(Clone, Copy, PartialEq, Eq)]
pub enum Direction {
    FromDte,
    FromDce,
}

/// A line between two nodes. It is faithful if two things hold. For each direction it hands over the frames that were
/// put, in their order, without those that it lost, and nothing else. And it loses a frame that is put only if it may.
pub trait Line: Drop {
    ghost flights: { Self → Flights };

    ghost service: { LineService };

    /// Sends a frame: it comes after those in flight, or is lost if the line may lose it.
    fn put(&mut self, direction: Direction, frame: &FrameBuf)
        ensures { service.faithful → IsPut service direction frame.now (flights self.old) (flights self.new) };

    /// Takes the first frame in flight, if there is one. If there is none, `frame` stays as it is.
    fn take(&mut self, direction: Direction, frame: &mut FrameBuf) -> bool
        ensures taken { service.faithful
            → OnTrue result (slice_get (flying direction (flights self.old)) 0 ≡ Some frame.new) }
        ensures none { service.faithful → OnFalse result (slice_get (flying direction (flights self.old)) 0 ≡ None) }
        ensures same { OnFalse result (frame.new ≡ frame.old) }
        ensures others { service.faithful → flights self.new ≡ without_first direction (flights self.old) };

    /// Loses all frames in flight, in both directions.
    fn empty(&mut self)
        ensures { service.faithful → flights self.new ≡ no_flights };

    /// Whether a frame is in flight in this direction, as far as the line knows.
    fn in_flight(&self, direction: Direction) -> bool
        ensures { IsTrue result ↔ (flying direction (flights self.now) ≢ []) };

    /// Whether it is certain that no frame is in flight in this direction, so that none need be taken. A line that does
    /// not know says no.
    fn is_certainly_empty(&self, _direction: Direction) -> bool
        ensures { service.faithful → result ≡ true → flying _direction (flights self.now) ≡ [] }
    {
        false
    }
}
