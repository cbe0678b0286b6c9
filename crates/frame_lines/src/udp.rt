//! A line over a pair of sockets, or over anything else that sends datagrams.
ghost use Rattle.std.specs.Prelude.{◌≡◌, ◌≤◌, false, length, IfOk, IfErr};
ghost use Rattle.std.specs.Bool.{OnFalse};
ghost use Rattle.frame_lines.specs.Lines.{no_flights};
ghost use Rattle.frame_lines.specs.Sockets.{socket_service, sender, receiver, Sends, Puts, Takes};

use crate::datagrams::Datagrams;
use crate::fault::SocketFault;
use crate::line::{Direction, Line};
use frame_codec::{FrameBuf, MAX_FRAME};
use std::alloc::Global;
use std::io::ErrorKind;
use std::net::{Ipv4Addr, Net, UdpSocket};

/// How many datagrams of a direction are received at most when it is emptied.
const DATAGRAMS_EMPTIED: u32 = 1_024;

/// A line over two partners, one at each end, that send each other a datagram for each frame. Nothing is known of what
/// arrives. A datagram that does not go whole is a frame that the line lost, and so is one that does not come, has no
/// octets or has more than a frame. With a datagram that went cut, the line loses what else waits in its direction, so
/// that no part of a frame is taken as a frame.
#[derive(Drop)]
pub struct UdpLine<D: Datagrams> {
    dte: D,
    dce: D,
    received: Vec<u8>,
}

impl UdpLine<UdpSocket> {
    /// A line over two sockets on 127.0.0.1 that know each other alone and do not wait, which receives into 1,031
    /// octets, one more than the longest frame has.
    ///
    /// `OutOfMemory` comes for want of memory and `Socket` if the system gives no such sockets.
    pub fn pair<N: Net>(net: &N, alloc: Global) -> Result<Self, SocketFault>
        ensures { IfOk result (λ line. length line.received.items ≡ 1031) }
    {
        let dte = UdpSocket::bind(net, (Ipv4Addr::LOCALHOST, 0))?;
        let dce = UdpSocket::bind(net, (Ipv4Addr::LOCALHOST, 0))?;
        connect(&dte, &dce)?;
        UdpLine::over(alloc, dte, dce)
    }
}

/// Lets two sockets know each other alone, and not wait.
fn connect(dte: &UdpSocket, dce: &UdpSocket) -> Result<(), SocketFault> {
    dte.connect(dce.local_addr()?)?;
    dce.connect(dte.local_addr()?)?;
    dte.set_nonblocking(true)?;
    Ok(dce.set_nonblocking(true)?)
}

impl<D: Datagrams> UdpLine<D> {
    /// A line over two partners: the one at the DTE's end and the one at the DCE's.
    ///
    /// `OutOfMemory` comes for want of memory.
    pub fn over(alloc: Global, dte: D, dce: D) -> Result<Self, SocketFault>
        ensures partners { IfOk result (λ line. (line.dte ≡ dte) × (line.dce ≡ dce)) }
        ensures room { IfOk result (λ line. length line.received.items ≡ 1031) }
        ensures fault { IfErr result (λ fault. fault ≡ SocketFault.OutOfMemory) }
    {
        let received = vec![in alloc; 0; MAX_FRAME + 1]?;
        Ok(UdpLine { dte, dce, received })
    }

    /// Loses the datagrams that wait in a direction.
    fn lose_waiting(&mut self, direction: Direction)
        ensures { sender direction self.new.dte self.new.dce ≡ sender direction self.old.dte self.old.dce }
    {
        let received = self.received.as_mut_slice();
        match direction {
            Direction::FromDte => receive_all(&mut self.dce, received),
            Direction::FromDce => receive_all(&mut self.dte, received),
        }
    }
}

/// Sends a datagram of these octets by a partner, and says whether it went cut.
fn goes_cut<D: Datagrams>(partner: &mut D, octets: &[u8]) -> bool
    ensures { Sends D D.sends octets.now partner.old result partner.new }
{
    match partner.send(octets) {
        Ok(count) => count != octets.len(),
        Err(_) => false,
    }
}

/// Receives datagrams until none waits.
fn receive_all<D: Datagrams>(partner: &mut D, place: &mut [u8]) {
    for _ in 0..DATAGRAMS_EMPTIED {
        match partner.recv(place) {
            Err(error) if error.kind() == ErrorKind::WouldBlock => return,
            _ => {}
        }
    }
}

/// Takes a partner's next datagram if it is a frame; else `frame` stays.
fn take_frame<D: Datagrams>(partner: &mut D, place: &mut [u8], frame: &mut FrameBuf) -> bool
    ensures same { OnFalse result (frame.new ≡ frame.old) }
    ensures takes { Takes D D.receives partner.old result frame.new partner.new }
{
    match partner.recv(place) {
        Ok(count) if count == 0 || count > MAX_FRAME => false,
        Ok(count) => {
            frame.clear();
            frame.extend(&place[..count]);
            true
        }
        Err(_) => false,
    }
}

impl<D: Datagrams> Line for UdpLine<D> {
    ghost flights = { λ _. no_flights };

    ghost service = { socket_service };

    fn put(&mut self, direction: Direction, frame: &FrameBuf)
        ensures { Puts D D.sends frame.now
            (sender direction self.old.dte self.old.dce) (sender direction self.new.dte self.new.dce)
            (receiver direction self.old.dte self.old.dce) (receiver direction self.new.dte self.new.dce) }
    {
        let octets = frame.as_slice();
        let is_cut = match direction {
            Direction::FromDte => goes_cut(&mut self.dte, octets),
            Direction::FromDce => goes_cut(&mut self.dce, octets),
        };
        if is_cut {
            self.lose_waiting(direction);
        }
    }

    fn take(&mut self, direction: Direction, frame: &mut FrameBuf) -> bool
        ensures same { OnFalse result (frame.new ≡ frame.old) }
        ensures takes { Takes D D.receives (receiver direction self.old.dte self.old.dce) result frame.new
            (receiver direction self.new.dte self.new.dce) }
        ensures others { sender direction self.new.dte self.new.dce ≡ sender direction self.old.dte self.old.dce }
    {
        let place = self.received.as_mut_slice();
        match direction {
            Direction::FromDte => take_frame(&mut self.dce, place, frame),
            Direction::FromDce => take_frame(&mut self.dte, place, frame),
        }
    }

    fn empty(&mut self) {
        self.lose_waiting(Direction::FromDte);
        self.lose_waiting(Direction::FromDce);
    }

    fn in_flight(&self, _direction: Direction) -> bool
        ensures never { result ≡ false }
    {
        false
    }
}
