//! Frames by their kinds (ISO 7776 3 and 4).
/// What a Frame Reject tells of the frame that its sender rejected (ISO 7776 5.2).
#[derive(Clone, Copy, PartialEq, Eq)]
pub struct Rejection {
    /// The control octet of the rejected frame.
    pub control: u8,
    /// V(S) of the end that rejected the frame, modulo 8.
    pub vs: u8,
    /// V(R) of the end that rejected the frame, modulo 8.
    pub vr: u8,
    /// Whether the rejected frame was a response.
    pub response: bool,
    /// The control octet is not known.
    pub w: bool,
    /// The frame had an information field that it may not have. Then W is set too.
    pub x: bool,
    /// The information field is too long.
    pub y: bool,
    /// N(R) is not valid.
    pub z: bool,
}

/// The kinds of frame, with their sequence numbers, which are modulo 8 (ISO 7776 table 1).
#[derive(Clone, Copy, PartialEq, Eq)]
pub enum FrameKind<'a> {
    /// Information: carries one packet.
    I {
        ns: u8,
        nr: u8,
        information: &'a [u8],
    },
    /// Receive Ready.
    Rr {
        nr: u8,
    },
    /// Receive Not Ready.
    Rnr {
        nr: u8,
    },
    /// Reject: asks for the I frames from N(R) on again.
    Rej {
        nr: u8,
    },
    /// Set Asynchronous Balanced Mode: sets the link up.
    Sabm,
    /// Disconnect.
    Disc,
    /// Disconnected Mode.
    Dm,
    /// Unnumbered Acknowledgement.
    Ua,
    /// Frame Reject.
    Frmr(Rejection),
}

/// A frame, without its address octet, which says no more than `response` and who sends it.
#[derive(Clone, Copy, PartialEq, Eq)]
pub struct Frame<'a> {
    pub kind: FrameKind<'a>,
    /// Whether it is a response. Else it is a command.
    pub response: bool,
    /// The poll bit of a command, the final bit of a response.
    pub pf: bool,
}
