//! What happens at a terminal.

/// What happens at a terminal of a PAD.
#[derive(Clone, Copy, PartialEq, Eq)]
pub enum TerminalEvent {
    /// A key of this octet.
    Key(u8),
    /// A break (X.3 3.7).
    Break,
    /// The end of the idle time (X.3 3.4). If the idle timer does not run, nothing happens.
    Idle,
    /// What waits at the terminal is shown, and then what comes next on its call.
    Print,
    /// The terminal leaves (X.28 3.1), and is then absent. Its call is cleared as by the command CLR. What it typed, what
    /// waits to be shown and its parameters are dropped.
    Leaves,
    /// The terminal arrives (X.28 3.1), and is then present without a call. If it is present already, nothing happens.
    Arrives,
}
