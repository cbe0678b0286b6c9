//! Channels of a switch's lines.

/// The most lines of a switch.
pub const MOST_LINES: usize = 64;

/// A logical channel of a line of a switch. Lines are numbered from 0, channels from 1.
#[derive(Clone, Copy, PartialEq, Eq)]
pub struct SwitchChannel {
    pub line: usize,
    pub channel: u8,
}

/// A call that was joined: the channel on which it came in, and the one on which it goes on.
#[derive(Clone, Copy, PartialEq, Eq)]
pub struct NewJoin {
    pub came_in: SwitchChannel,
    pub placed: SwitchChannel,
}
