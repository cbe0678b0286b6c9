//! What no clause says of the ends of a line over sockets: that they are on this machine, whose fault it is if one is
//! not had, and that nothing is left in flight once a line was emptied.
use frame_codec::FrameBuf;
use frame_lines::{Datagrams, Direction, Line, SocketFault, UdpLine};
use std::alloc::Global;
use std::io;
use std::net::{IpAddr, Ipv4Addr, Net, SocketAddr, UdpSocket};

/// The system's sockets that are bound to this address; others are refused with an error of this kind.
#[derive(Drop)]
struct Local<'a, N: Net> {
    net: &'a N,
    address: Ipv4Addr,
    refusal: io::ErrorKind,
}

impl<N: Net> Net for Local<'_, N> {
    type Stream = N::Stream;

    type Listener = N::Listener;

    fn bind(&self, addr: SocketAddr) -> io::Result<N::Listener> {
        self.net.bind(addr)
    }

    fn connect(&self, addr: SocketAddr) -> io::Result<N::Stream> {
        self.net.connect(addr)
    }

    fn bind_udp(&self, addr: SocketAddr) -> io::Result<UdpSocket> {
        if addr.ip() == IpAddr::V4(self.address) {
            self.net.bind_udp(addr)
        } else {
            Err(io::Error::from(self.refusal))
        }
    }
}

/// Why a pair of sockets is not made, if those at this address alone are had, and others are refused so.
fn fault_of<N: Net + Drop>(
    net: &N,
    alloc: Global,
    address: Ipv4Addr,
    refusal: io::ErrorKind,
) -> Option<SocketFault> {
    let local = Local {
        net,
        address,
        refusal,
    };
    UdpLine::pair(&local, alloc).err()
}

#[test]
fn both_ends_are_on_this_machine_and_a_fault_is_told_as_it_came(rt: HostRuntime) {
    const OTHER: Ipv4Addr = Ipv4Addr::UNSPECIFIED;
    assert!(rt;
        fault_of(
            &rt,
            rt.alloc(),
            Ipv4Addr::LOCALHOST,
            io::ErrorKind::AddrNotAvailable
        )
        .is_none()
    );
    assert!(rt;
        fault_of(&rt, rt.alloc(), OTHER, io::ErrorKind::AddrNotAvailable)
            == Some(SocketFault::Socket)
    );
    assert!(rt;
        fault_of(&rt, rt.alloc(), OTHER, io::ErrorKind::OutOfMemory)
            == Some(SocketFault::OutOfMemory)
    );
}

/// A partner for whom so many datagrams wait, each of one octet; the receive fails that leaves so many of them.
#[derive(Drop)]
struct Waiting {
    datagrams: u32,
    failing: u32,
}

impl Waiting {
    /// Five datagrams, of which the receive fails that leaves so many.
    fn five(failing: u32) -> Self {
        Waiting {
            datagrams: 5,
            failing,
        }
    }
}

impl Datagrams for Waiting {
    fn send(&mut self, octets: &[u8]) -> io::Result<usize> {
        Ok(octets.len())
    }

    fn recv(&mut self, octets: &mut [u8]) -> io::Result<usize> {
        if self.datagrams == 0 {
            return Err(io::Error::from(io::ErrorKind::WouldBlock));
        }
        self.datagrams -= 1;
        if self.datagrams == self.failing {
            return Err(io::Error::from(io::ErrorKind::ConnectionRefused));
        }
        let count = octets.len().min(1);
        octets[..count].fill(0x41);
        Ok(count)
    }
}

/// Whether nothing comes in either direction once a line was emptied on which five frames waited each way.
fn empties(alloc: Global, at_dte: u32, at_dce: u32) -> bool {
    match UdpLine::over(alloc, Waiting::five(at_dte), Waiting::five(at_dce)) {
        Ok(mut line) => {
            line.empty();
            let mut frame = FrameBuf::new();
            !line.take(Direction::FromDte, &mut frame) && !line.take(Direction::FromDce, &mut frame)
        }
        Err(_) => false,
    }
}

#[test]
fn nothing_is_in_flight_on_an_emptied_line(rt: HostRuntime) {
    for failing in 0..=5 {
        assert!(rt; empties(rt.alloc(), failing, 5), "at the DTE, {failing}");
        assert!(rt; empties(rt.alloc(), 5, failing), "at the DCE, {failing}");
    }
}
