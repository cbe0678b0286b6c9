//! Why a packet layer restarts (X.25 5.5.1, table 5-9).

/// The end that restarts is a DTE.
pub const DTE_ORIGINATED: u8 = 0;
/// A procedure error at the near end.
pub const LOCAL_PROCEDURE_ERROR: u8 = 1;
/// The network has no means for the line.
pub const NETWORK_CONGESTION: u8 = 3;
/// The link of the line is set up.
pub const NETWORK_OPERATIONAL: u8 = 7;
