//! What may happen at a switch.
use link_timers::TimerId;

/// What comes to a switch. Its own lines are numbered from 0.
#[derive(Clone, Copy)]
pub enum SwitchEvent<'a> {
    /// A frame arrives on an own line.
    Hears(usize, &'a [u8]),
    /// A timer of an own line expires.
    Expires(usize, TimerId),
    /// The link of an own line is given up, and set up again if the switch is the DTE there.
    Relinks(usize),
    /// The switch restarts.
    Restarts,
}
