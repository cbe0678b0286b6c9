//! Lines by number.

/// The number of a line of a network.
#[derive(Clone, Copy, PartialEq, Eq)]
pub struct LineNo(pub u16);
