//! What is gathered of a message until a packet of the far line is full (X.25 4.3.4).

use flow_window::pool::BufNo;

/// Octets that were taken and wait for more, in a buffer, and whether they have Q.
#[derive(Drop)]
pub(crate) struct Gathering {
    pub buffer: BufNo,
    pub qualified: bool,
}
