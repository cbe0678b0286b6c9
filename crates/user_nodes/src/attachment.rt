//! Where a node is attached to its network.

use link_timers::Role;

/// Where a node is attached to its network: the line, the end of the line that the node is, and the node's number.
#[derive(Clone, Copy, PartialEq, Eq)]
pub struct Attachment {
    pub line: usize,
    pub role: Role,
    pub node: usize,
}
