//! How a host is to be made.

use link_timers::Role;
use packet_end::EndParams;

/// How a host is to be made.
#[derive(Clone, Copy, PartialEq, Eq)]
pub struct HostConfig {
    /// Which end of its line the host is.
    pub role: Role,
    /// The parameters of the line.
    pub line: EndParams,
}
