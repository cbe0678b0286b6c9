//! What a packet layer tells its user.

use packet_codec::CallBuf;

/// Why a call ended or was reset.
#[derive(Clone, Copy, PartialEq, Eq)]
pub enum Reason {
    /// The far end cleared or reset it.
    FarEnd,
    /// A fault was found here, or a timer expired.
    LocalFault,
    /// The link's session ended or another one began.
    LinkLost,
    /// The far end restarted the packet layer.
    FarRestart,
    /// The DCE's call gave way to a call of the DTE on the same channel.
    Cancelled,
}

/// A change on a logical channel, numbered from 1, that its user did not make.
#[derive(Drop)]
pub enum LayerNote {
    /// A call came in, with what its Call packet says (X.25 4.1.3).
    Incoming(u8, CallBuf),
    /// The far end accepted the call (X.25 4.1.5).
    Connected(u8),
    /// The call has ended, with a cause and a diagnostic (X.25 4.1.7, 4.1.8).
    Closed {
        channel: u8,
        cause: u8,
        diagnostic: u8,
        reason: Reason,
    },
    /// The call was reset, with a cause and a diagnostic (X.25 4.4.3).
    Reset {
        channel: u8,
        cause: u8,
        diagnostic: u8,
        reason: Reason,
    },
    /// The far end confirmed the interrupt (X.25 4.3.7).
    InterruptConfirmed(u8),
    /// A P(R) newly covered so many of the packets sent (X.25 4.4.1.3).
    Covered {
        channel: u8,
        count: u8,
    },
}
