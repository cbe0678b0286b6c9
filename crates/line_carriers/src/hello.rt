//! How a connection begins.
ghost use Rattle.std.specs.Prelude.{◌≡◌, ◌+◌, ◌≤◌, [], ◌++◌, length, Result};
ghost use Rattle.sha2.specs.Sha256.{sha256};
ghost use Rattle.octet_rings.specs.Places.{most_octets};
ghost use Rattle.line_carriers.specs.Hello.{hello_of, hello_form, hello_read, role_octet};

use crate::fault::CarrierFault;
use link_timers::Role;
use octet_rings::OctetRing;
use sha2::{Digest, Sha256};

/// The octets that begin a hello.
const PROTOCOL: [u8; 4] = *b"X25L";

/// The version that is spoken.
const VERSION: u8 = 1;

/// How many octets a hello has.
pub(crate) const HELLO: usize = 48;

/// What an end of a line says first over a connection: which network it is of, which line and which end it is, and a
/// number that is another one each time its process starts.
#[derive(Drop)]
pub struct Hello {
    network: [u8; 32],
    line: u16,
    role: Role,
    start: u64,
}

impl Hello {
    /// The hello of an end: the text of the network file, the number of the line in it, from 0, the role of the end
    /// and a number of this start of its process.
    pub fn new(network_file: &[u8], line: u16, role: Role, start: u64) -> Hello
        ensures { result ≡ hello_of network_file.now line role start }
    {
        Hello {
            network: Sha256::digest(network_file),
            line,
            role,
            start,
        }
    }

    /// Adds its octets: `X25L`, 1, the SHA-256 of the network file (32), the line (2), the role (1: 0 is the DTE, 1 the
    /// DCE) and the number of the start (8). Numbers have their high octets first.
    pub(crate) fn say(&self, output: &mut OctetRing)
        requires { output.old ≡ [] }
        ensures form { output.new ≡ hello_form self.now }
        ensures size { length output.new ≡ 48 }
    {
        output.extend(&PROTOCOL);
        output.extend(&[VERSION]);
        output.extend(&self.network);
        output.extend(&self.line.to_be_bytes());
        output.extend(&[role_octet(self.role)]);
        output.extend(&self.start.to_be_bytes());
    }

    /// Reads the hello of the other end, and gives the number of its start. The first of these that differs is the
    /// fault: protocol, version, network file, line; or its role is not the other one.
    pub(crate) fn read_other(&self, octets: &[u8]) -> Result<u64, CarrierFault>
        requires { length octets.now ≡ 48 }
        ensures { result ≡ hello_read self.now octets.now }
    {
        let line = self.line.to_be_bytes();
        if &octets[..4] != PROTOCOL.as_slice() {
            return Err(CarrierFault::OtherProtocol);
        }
        if octets[4] != VERSION {
            return Err(CarrierFault::OtherVersion);
        }
        if &octets[5..37] != self.network.as_slice() {
            return Err(CarrierFault::OtherNetwork);
        }
        if &octets[37..39] != line.as_slice() {
            return Err(CarrierFault::OtherLine);
        }
        if octets[39] != role_octet(self.role.other()) {
            return Err(CarrierFault::OtherRole);
        }
        let mut start = [0; 8];
        start.copy_from_slice(&octets[40..48]);
        Ok(u64::from_be_bytes(start))
    }
}

fn role_octet(role: Role) -> u8
    ensures { result ≡ role_octet role }
{
    match role {
        Role::Dte => 0,
        Role::Dce => 1,
    }
}
