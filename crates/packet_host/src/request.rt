//! What a host is asked of a call.

/// What the user of a host asks of the call on a logical channel. [`Host::ask`](crate::Host::ask) has the refusals of
/// each.
#[derive(Drop)]
pub enum HostRequest {
    /// The call that came in is accepted (X.25 4.1.4).
    Answer,
    /// The call that came in is cleared before it is accepted (X.25 4.1.7).
    Refuse,
    /// Octets go as one message, cut into packets of the line's size, with Q on all of them and D on the last (X.25
    /// 4.3.3 to 4.3.6).
    Say {
        octets: Vec<u8>,
        qualified: bool,
        delivery: bool,
    },
    /// An interrupt of 1 to 32 octets goes (X.25 4.3.7).
    Interrupt {
        octets: Vec<u8>,
    },
    /// The call is reset (X.25 4.4.3).
    Reset,
    /// The call is cleared (X.25 4.1.7).
    Clear,
    /// The far end is told to send no data (X.25 4.4.1.5).
    Stop,
    /// The far end may send data again (X.25 4.4.1.4).
    Go,
}
