//! What sends and receives datagrams.
ghost use Rattle.std.specs.Prelude.{ℕ, List, Result, ⊤};
ghost use Rattle.std.specs.Io.{ReadsAtMost};
ghost use Rattle.std.specs.declared.io.Error.{Error};

use std::io;
use std::net::UdpSocket;

/// One of two partners that send each other datagrams. None of its calls waits.
pub trait Datagrams: Drop {
    // What `send` does: the partner before, the octets, the answer and the partner after.
    ghost sends: { Self → List ℕ → Result ℕ Error → Self → Type 0 } = { λ _ _ _ _. ⊤ };

    // What `recv` does: the partner before, the answer, the octets of the place after, and the partner after.
    ghost receives: { Self → Result ℕ Error → List ℕ → Self → Type 0 } = { λ _ _ _ _. ⊤ };

    /// Sends a datagram to the partner, and gives how many of its octets went.
    fn send(&mut self, octets: &[u8]) -> io::Result<usize>
        ensures { sends self.old octets.now result self.new };

    /// Receives the next datagram of the partner, and gives how many octets of it are in `octets`; those that find no
    /// place there are lost.
    fn recv(&mut self, octets: &mut [u8]) -> io::Result<usize>
        ensures bound { ReadsAtMost result octets.new }
        ensures received { receives self.old result octets.new self.new };
}

impl Datagrams for UdpSocket {
    fn send(&mut self, octets: &[u8]) -> io::Result<usize> {
        UdpSocket::send(self, octets)
    }

    fn recv(&mut self, octets: &mut [u8]) -> io::Result<usize> {
        UdpSocket::recv(self, octets)
    }
}
