//! What the octets of a connection are.

/// What the octets of a connection are.
#[derive(Clone, Copy, PartialEq, Eq)]
pub enum PortMode {
    /// Telnet (RFC 854).
    Telnet,
    /// Keys and text as they are: each octet is a key, and no command is sent.
    Raw,
}

impl PortMode {
    ghost use Rattle.std.specs.Prelude.{◌≡◌};
    ghost use Rattle.service_ports.specs.Modes.{is_telnet};

    /// Whether the octets are those of telnet.
    pub fn is_telnet(self) -> bool
        ensures { result ≡ is_telnet self }
    {
        matches!(self, PortMode::Telnet)
    }
}
