//! Why a call is reset (X.25 5.4.3, table 5-8).

/// The user of the end that resets asks for it, or that end is a DTE.
pub const DTE_ORIGINATED: u8 = 0;
/// A procedure error at the far end.
pub const REMOTE_PROCEDURE_ERROR: u8 = 3;
/// A procedure error at the near end.
pub const LOCAL_PROCEDURE_ERROR: u8 = 5;
/// The network has no means for the data.
pub const NETWORK_CONGESTION: u8 = 7;
