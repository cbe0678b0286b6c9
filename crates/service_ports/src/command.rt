//! The commands of telnet that a server sends.

/// The octet that begins a command (RFC 854): interpret as command.
pub(crate) const IAC: u8 = 255;

/// The options of telnet: the server echoes (RFC 857).
pub(crate) const ECHO: u8 = 1;

/// No go-ahead is sent (RFC 858).
pub(crate) const SUPPRESS_GO_AHEAD: u8 = 3;

/// A command to a client.
#[derive(Clone, Copy, PartialEq, Eq)]
pub enum TelnetCommand {
    /// Nothing is to be done.
    NoOperation,
    /// The server offers an option.
    Will(u8),
    /// The server does not take an option.
    Wont(u8),
    /// The client may take an option.
    Do(u8),
    /// The client is not to take an option.
    Dont(u8),
}
