//! How a PAD is to be made.

use packet_end::EndParams;
use x3_params::Params;

/// How a PAD is to be made.
#[derive(Clone, Copy)]
pub struct PadConfig {
    /// The parameters of the line, whose packets have at most 128 octets of user data.
    pub line: EndParams,
    /// The initial values of the parameters of each terminal.
    pub params: Params,
    /// How many terminals there are, from 1 to 16.
    pub terminals: u8,
}
