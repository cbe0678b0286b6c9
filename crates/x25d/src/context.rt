//! What each turn of the shell has at hand.
use crate::sockets::Sockets;

/// The system, the sockets, and how many ticks have passed since the last turn.
#[derive(Clone, Copy)]
pub(crate) struct Context<'a> {
    pub(crate) rt: &'a HostRuntime,
    pub(crate) sockets: &'a Sockets<'a>,
    pub(crate) ticks: u16,
}
