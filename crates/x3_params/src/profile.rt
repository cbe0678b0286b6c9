//! The profiles: sets of initial values.
ghost use Rattle.std.specs.Prelude.{◌≡◌};

/// A set of initial values (X.28 3.4).
#[derive(Clone, Copy, PartialEq, Eq)]
pub enum Profile {
    /// Number 90: for a person at a terminal. The PAD echoes and forwards at control characters.
    Simple,
    /// Number 91: for a terminal that sends any octets. The PAD forwards when the terminal pauses.
    Transparent,
}

impl Profile {
    ghost use Rattle.x3_params.specs.Table.{profile_numbered};

    /// The profile that a number names, as in the command `PROF`, if it names one.
    pub fn numbered(number: u8) -> Option<Profile>
        ensures { result ≡ profile_numbered number }
    {
        match number {
            90 => Some(Profile::Simple),
            91 => Some(Profile::Transparent),
            _ => None,
        }
    }
}
