//! What no clause says of a line over sockets: which datagrams are frames, that a pair carries them, and that a call
//! that fails loses its frame and no other.
use frame_codec::FrameBuf;
use frame_lines::{Datagrams, Direction, Line, SocketFault, UdpLine};
use std::alloc::Global;
use std::io;
use std::net::{Ipv4Addr, Net, UdpSocket};
use std::test::Fail;

/// A partner that can send nothing, and whose one datagram has so many octets; where it has none to give it fails.
#[derive(Drop)]
struct Partner {
    octets: Option<usize>,
}

impl Datagrams for Partner {
    fn send(&mut self, _octets: &[u8]) -> io::Result<usize> {
        Err(io::Error::from(io::ErrorKind::ConnectionRefused))
    }

    fn recv(&mut self, octets: &mut [u8]) -> io::Result<usize> {
        match self.octets.take() {
            Some(count) => {
                let count = count.min(octets.len());
                octets[..count].fill(0x41);
                Ok(count)
            }
            None => Err(io::Error::from(io::ErrorKind::WouldBlock)),
        }
    }
}

/// A frame of these octets.
fn frame_of(octets: &[u8; 2]) -> FrameBuf {
    let mut frame = FrameBuf::new();
    frame.push(octets[0]);
    frame.push(octets[1]);
    frame
}

/// Whether of a partner's one datagram of so many octets a frame of this length is taken, and then nothing.
fn takes(alloc: Global, octets: Option<usize>, taken: Option<usize>) -> bool {
    let dte = Partner { octets: None };
    let dce = Partner { octets };
    match UdpLine::over(alloc, dte, dce) {
        Ok(mut line) => {
            line.put(Direction::FromDte, &frame_of(b"AB"));
            next_length(&mut line) == taken && next_length(&mut line).is_none()
        }
        Err(_) => false,
    }
}

/// The length of the next frame of the DTE, if one comes.
fn next_length(line: &mut UdpLine<Partner>) -> Option<usize> {
    let mut frame = FrameBuf::new();
    if line.take(Direction::FromDte, &mut frame) {
        Some(frame.len())
    } else {
        None
    }
}

#[test]
fn takes_datagrams_that_are_frames(rt: HostRuntime) {
    const DATAGRAMS: &[(Option<usize>, Option<usize>)] = &[
        (None, None),
        (Some(0), None),
        (Some(1), Some(1)),
        (Some(1_030), Some(1_030)),
        (Some(1_031), None),
        (Some(2_000), None),
    ];
    for (octets, taken) in DATAGRAMS {
        assert!(rt; takes(rt.alloc(), *octets, *taken), "at {octets:?}");
    }
}

/// Whether a line tells of no frame on its way, and a frame of these octets comes.
fn comes<L: Line>(line: &mut L, direction: Direction, octets: &[u8]) -> bool {
    let mut frame = FrameBuf::new();
    !line.in_flight(direction) && line.take(direction, &mut frame) && frame.as_slice() == octets
}

/// Whether nothing comes.
fn is_empty<L: Line>(line: &mut L) -> bool {
    let mut frame = FrameBuf::new();
    !line.take(Direction::FromDte, &mut frame) && !line.take(Direction::FromDce, &mut frame)
}

fn carries<L: Line>(line: &mut L) -> bool {
    line.put(Direction::FromDte, &frame_of(b"AB"));
    line.put(Direction::FromDte, &frame_of(b"CD"));
    line.put(Direction::FromDce, &frame_of(b"EF"));
    comes(line, Direction::FromDte, b"AB")
        && comes(line, Direction::FromDce, b"EF")
        && comes(line, Direction::FromDte, b"CD")
        && is_empty(line)
}

fn loses<L: Line>(line: &mut L) -> bool {
    line.put(Direction::FromDte, &frame_of(b"AB"));
    line.put(Direction::FromDce, &frame_of(b"CD"));
    line.empty();
    is_empty(line)
}

#[test]
fn carries_frames_in_order_and_loses_what_is_in_flight(rt: HostRuntime) -> Result<(), Fail> {
    let mut line = UdpLine::pair(&rt, rt.alloc())?;
    assert!(rt; carries(&mut line));
    assert!(rt; loses(&mut line));
    Ok(())
}

/// How a partner fails at a call.
#[derive(Clone, Copy)]
pub(crate) enum Failure {
    SendFails,
    SendIsShort,
    ReceiveFails,
    ReceiveIsEmpty,
}

/// A socket that carries, but for one call.
#[derive(Drop)]
pub(crate) struct Failing {
    socket: UdpSocket,
    failure: Failure,
    /// The number of the call that fails, of those that are left; 0 for none.
    failing: u32,
}

impl Failing {
    /// Whether the next call of the failing kind is the one that fails.
    fn fails_now(&mut self) -> bool {
        let fails = self.failing == 1;
        self.failing = self.failing.saturating_sub(1);
        fails
    }
}

impl Datagrams for Failing {
    fn send(&mut self, octets: &[u8]) -> io::Result<usize> {
        let failure = self.failure;
        match failure {
            Failure::SendFails if self.fails_now() => {
                Err(io::Error::from(io::ErrorKind::ConnectionRefused))
            }
            Failure::SendIsShort if self.fails_now() => {
                self.socket.send(&octets[..octets.len() / 2])
            }
            _ => self.socket.send(octets),
        }
    }

    fn recv(&mut self, octets: &mut [u8]) -> io::Result<usize> {
        let received = self.socket.recv(octets);
        let failure = self.failure;
        match failure {
            Failure::ReceiveFails if self.fails_now() => {
                Err(io::Error::from(io::ErrorKind::ConnectionRefused))
            }
            Failure::ReceiveIsEmpty if self.fails_now() => Ok(0),
            _ => received,
        }
    }
}

/// A line over two sockets, of which the one at the DTE's end fails at its call of one number, and that at the DCE's at
/// that of another.
pub(crate) fn failing_line<N: Net>(
    net: &N,
    alloc: Global,
    failure: Failure,
    [at_dte, at_dce]: [u32; 2],
) -> Result<UdpLine<Failing>, SocketFault> {
    let dte = UdpSocket::bind(net, (Ipv4Addr::LOCALHOST, 0))?;
    let dce = UdpSocket::bind(net, (Ipv4Addr::LOCALHOST, 0))?;
    dte.connect(dce.local_addr()?)?;
    dce.connect(dte.local_addr()?)?;
    dte.set_nonblocking(true)?;
    dce.set_nonblocking(true)?;
    UdpLine::over(
        alloc,
        Failing {
            socket: dte,
            failure,
            failing: at_dte,
        },
        Failing {
            socket: dce,
            failure,
            failing: at_dce,
        },
    )
}

/// How a call fails, its number at the DTE's end and at the DCE's, the direction of the frames, and which of two frames
/// then come.
type Failed = (Failure, [u32; 2], Direction, [bool; 2]);

/// The first receive finds no frame, and the others one each.
const FAILED: &[Failed] = &[
    (
        Failure::SendFails,
        [1, 0],
        Direction::FromDte,
        [false, true],
    ),
    (
        Failure::SendFails,
        [2, 0],
        Direction::FromDte,
        [true, false],
    ),
    (
        Failure::SendFails,
        [0, 1],
        Direction::FromDce,
        [false, true],
    ),
    (
        Failure::SendFails,
        [0, 2],
        Direction::FromDce,
        [true, false],
    ),
    (
        Failure::SendIsShort,
        [1, 0],
        Direction::FromDte,
        [false, true],
    ),
    (
        Failure::SendIsShort,
        [2, 0],
        Direction::FromDte,
        [true, false],
    ),
    (
        Failure::SendIsShort,
        [0, 1],
        Direction::FromDce,
        [false, true],
    ),
    (
        Failure::SendIsShort,
        [0, 2],
        Direction::FromDce,
        [true, false],
    ),
    (
        Failure::ReceiveFails,
        [0, 1],
        Direction::FromDte,
        [true, true],
    ),
    (
        Failure::ReceiveFails,
        [0, 2],
        Direction::FromDte,
        [false, true],
    ),
    (
        Failure::ReceiveFails,
        [0, 3],
        Direction::FromDte,
        [true, false],
    ),
    (
        Failure::ReceiveFails,
        [1, 0],
        Direction::FromDce,
        [true, true],
    ),
    (
        Failure::ReceiveFails,
        [2, 0],
        Direction::FromDce,
        [false, true],
    ),
    (
        Failure::ReceiveFails,
        [3, 0],
        Direction::FromDce,
        [true, false],
    ),
    (
        Failure::ReceiveIsEmpty,
        [0, 1],
        Direction::FromDte,
        [true, true],
    ),
    (
        Failure::ReceiveIsEmpty,
        [0, 2],
        Direction::FromDte,
        [false, true],
    ),
    (
        Failure::ReceiveIsEmpty,
        [0, 3],
        Direction::FromDte,
        [true, false],
    ),
    (
        Failure::ReceiveIsEmpty,
        [1, 0],
        Direction::FromDce,
        [true, true],
    ),
    (
        Failure::ReceiveIsEmpty,
        [2, 0],
        Direction::FromDce,
        [false, true],
    ),
    (
        Failure::ReceiveIsEmpty,
        [3, 0],
        Direction::FromDce,
        [true, false],
    ),
];

/// Whether a frame of these octets comes once it was put.
fn crosses<L: Line>(line: &mut L, direction: Direction, octets: &[u8; 2]) -> bool {
    line.put(direction, &frame_of(octets));
    comes(line, direction, octets)
}

/// Whether nothing comes first, and of two frames, put one after the other, these come.
fn cross_so<L: Line>(line: &mut L, direction: Direction, [first, second]: [bool; 2]) -> bool {
    !line.take(direction, &mut FrameBuf::new())
        && crosses(line, direction, b"AB") == first
        && crosses(line, direction, b"CD") == second
}

/// Whether a call that fails loses what it has to.
fn fails_so<N: Net>(net: &N, alloc: Global, failed: &Failed) -> bool {
    let (failure, numbers, direction, frames) = *failed;
    match failing_line(net, alloc, failure, numbers) {
        Ok(mut line) => cross_so(&mut line, direction, frames),
        Err(_) => false,
    }
}

#[test]
fn a_call_that_fails_loses_its_frame(rt: HostRuntime) -> Result<(), Fail> {
    for failed in FAILED {
        assert!(rt; fails_so(&rt, rt.alloc(), failed));
    }
    Ok(())
}
