//! Whether a PAD took what happened at a terminal.

/// Whether a PAD took a key, a break or the end of an idle time.
#[derive(Clone, Copy, PartialEq, Eq)]
pub enum PadAnswer {
    /// The input was taken.
    Taken,
    /// The input was dropped: what it would have sent had no place in the send queue, or the terminal is absent.
    Dropped,
}

ghost use Rattle.std.specs.Prelude.{◌≡◌};
ghost use Rattle.x25_pad.specs.Pad.{answer_of};

impl PadAnswer {
    pub(crate) fn of(taken: bool) -> PadAnswer
        ensures { result ≡ answer_of taken }
    {
        if taken {
            PadAnswer::Taken
        } else {
            PadAnswer::Dropped
        }
    }
}
