//! What a call of a link tells the packet layer, and what becomes of T1.
/// What a call tells the packet layer of the link.
#[derive(Clone, Copy, PartialEq, Eq)]
pub enum Note {
    /// The call tells nothing of the link.
    Nothing,
    /// A new session has begun, even if the link was up before.
    Up,
    /// The link has left the information transfer phase.
    Down,
}

/// What becomes of T1 (X.25 2.4.8.1).
#[derive(Clone, Copy, PartialEq, Eq)]
pub enum Timing {
    /// T1 goes on as it is, running or not.
    Keep,
    /// T1 starts again, whether it runs or not.
    Start,
    /// T1 stops, if it runs.
    Stop,
}
