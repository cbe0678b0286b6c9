//! The roles of the two ends of a line.
ghost use Rattle.std.specs.Prelude.{◌≡◌};
ghost use Rattle.link_timers.specs.Role.{other_of};

/// The role of an end of a line. A line has one end of each role (X.25 1; ISO 7776 3).
#[derive(Clone, Copy, PartialEq, Eq)]
pub enum Role {
    /// The data terminal equipment: it sets the link up.
    Dte,
    /// The data circuit-terminating equipment: it answers.
    Dce,
}

impl Role {
    /// The role of the line's other end.
    pub fn other(self) -> Role
        ensures { result ≡ other_of self }
    {
        match self {
            Role::Dte => Role::Dce,
            Role::Dce => Role::Dte,
        }
    }
}
