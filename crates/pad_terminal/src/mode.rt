//! What the keys of a terminal are for.

/// What a terminal's keys and its call are at (X.28 3.1).
#[derive(Clone, Copy, PartialEq, Eq)]
pub enum Mode {
    /// The terminal has left, and there is no call. Keys and breaks are dropped.
    Absent,
    /// There is no call. Keys go to the command line.
    Free,
    /// A call is being set up. Keys go to the command line.
    CallSetUp,
    /// The call is connected. Keys are edited and sent.
    DataTransfer,
    /// The call is connected, and the PAD was recalled. Keys go to the command line.
    CommandState,
}

ghost use Rattle.std.specs.Prelude.{◌≡◌};
ghost use Rattle.pad_terminal.specs.Terminal.{is_present, has_call, is_connected, is_data_transfer};

impl Mode {
    /// Whether the terminal has not left.
    pub fn is_present(self) -> bool
        ensures { result ≡ is_present self }
    {
        !matches!(self, Mode::Absent)
    }

    /// Whether there is a call, connected or being set up.
    pub fn has_call(self) -> bool
        ensures { result ≡ has_call self }
    {
        !matches!(self, Mode::Absent | Mode::Free)
    }

    /// Whether a call is connected.
    pub fn is_connected(self) -> bool
        ensures { result ≡ is_connected self }
    {
        matches!(self, Mode::DataTransfer | Mode::CommandState)
    }

    /// Whether keys are edited and sent.
    pub(crate) fn is_data_transfer(self) -> bool
        ensures { result ≡ is_data_transfer self }
    {
        matches!(self, Mode::DataTransfer)
    }
}
