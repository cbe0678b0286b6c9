//! What a cause is due to, more closely (X.25 annex E).

/// Nothing more is said.
pub const NO_INFORMATION: u8 = 0;
/// A P(S) that is not the next, or beyond the window.
pub const INVALID_SEND_NUMBER: u8 = 1;
/// A P(R) that names no packet which is not acknowledged.
pub const INVALID_RECEIVE_NUMBER: u8 = 2;
/// A packet that has no place in r1.
pub const NOT_ALLOWED_IN_R1: u8 = 17;
/// With the number of a state p1 to p7 added: a packet that has no place in this state.
pub const NOT_ALLOWED_IN_P: u8 = 19;
/// A packet that has no place in p1.
pub const NOT_ALLOWED_IN_P1: u8 = 20;
/// A packet that has no place in d1.
pub const NOT_ALLOWED_IN_D1: u8 = 27;
