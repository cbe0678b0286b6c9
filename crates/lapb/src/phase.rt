//! The phases of a link.
/// The phase of a link (X.25 2.4.4).
#[derive(Clone, Copy, PartialEq, Eq)]
pub enum Phase {
    /// The disconnected phase: no packet can be offered.
    Down,
    /// A DTE has sent SABM and waits for the UA that answers it.
    SettingUp,
    /// The information transfer phase: packets can be offered and are accepted.
    Up,
    /// A DCE has sent FRMR and waits to be set up again.
    Rejecting,
}
