//! What the two ends of a line tell each other beside frames.
ghost use Rattle.std.specs.Prelude.{◌≡◌};
ghost use Rattle.line_carriers.specs.Wire.{code, sign_of};

/// What an end of a line tells the other one.
#[derive(Clone, Copy)]
pub enum Sign {
    /// It is still here.
    StillHere,
    /// Its node starts, and the line is not open yet.
    Starting,
    /// The line is closed here, and the other end may start.
    Ready,
    /// It opens the line.
    Open,
}

impl Sign {
    /// The octet that stands for it.
    pub(crate) fn code(self) -> u8
        ensures { result ≡ code self }
    {
        match self {
            Sign::StillHere => 0,
            Sign::Starting => 1,
            Sign::Ready => 2,
            Sign::Open => 3,
        }
    }

    /// The sign that an octet stands for.
    pub(crate) fn of_code(octet: u8) -> Option<Sign>
        ensures { result ≡ sign_of octet }
    {
        match octet {
            0 => Some(Sign::StillHere),
            1 => Some(Sign::Starting),
            2 => Some(Sign::Ready),
            3 => Some(Sign::Open),
            _ => None,
        }
    }
}
