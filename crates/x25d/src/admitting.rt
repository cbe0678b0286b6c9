//! Those who come to the doors of a service.
use crate::controls::Control;
use crate::log::Peer;
use crate::serving::Running;
use crate::shell::Shell;
use crate::sockets::Leads;
use crate::visits::Visit;
use mio::net::TcpStream;
use service::PortMode;
use std::io::{self, Write};
use std::net::SocketAddr;

/// What a client is told for whom there is no terminal.
const NO_TERMINAL: &[u8] = b"All terminals are taken. Try again later.\r\n";

/// One who came: the connection, from where, and to which door.
#[derive(Drop)]
struct Guest {
    stream: TcpStream,
    from: SocketAddr,
    at: SocketAddr,
}

impl Shell<'_> {
    /// Accepts one who waits at each door, and says whether there was any. So the call of one who came has its connection
    /// before the next one takes a place.
    pub(crate) fn accept(&mut self, rt: &HostRuntime, service: &mut Running) -> bool {
        let mut any = false;
        for number in 0..self.sockets.entrances.len() {
            let came = self.accept_one(rt, service, number);
            any = any || came;
        }
        any
    }

    /// Accepts one who waits at a door, and says whether there was one.
    fn accept_one(&mut self, rt: &HostRuntime, service: &mut Running, number: usize) -> bool {
        let may_come = self.may_come(service, number);
        let Some(entrance) = self.sockets.entrances.get_mut(number) else {
            return false;
        };
        let (leads, at) = (entrance.leads, entrance.door.at());
        if !may_come {
            return false;
        }
        let Some((stream, from)) = entrance.door.next() else {
            return false;
        };
        let guest = Guest { stream, from, at };
        if matches!(leads, Leads::Line(_, _)) {
            self.admit_partner(rt, guest, number);
        } else if entrance.lets_in(from.ip()) {
            self.admit(rt, service, guest, leads);
        } else {
            self.log.refuse(rt, from.ip(), at);
        }
        true
    }

    /// Gives one who came for a line a place, until it has said hello.
    fn admit_partner(&mut self, rt: &HostRuntime, mut guest: Guest, door: usize) {
        let _ = guest.stream.set_nodelay(true);
        let free = self.lines.free_wire();
        if let Some(number) = free
            && self.lines.lets_in(door, guest.from.ip())
            && self.watch_wire(&mut guest.stream, number).is_ok()
            && let Some(wire) = self.lines.wire_mut(number)
        {
            wire.accept(guest.stream, guest.from, door);
            return;
        }
        self.log.refuse(rt, guest.from.ip(), guest.at);
    }

    /// Has the system tell of a line's connection, which has this place.
    fn watch_wire(&self, stream: &mut TcpStream, number: usize) -> io::Result<()> {
        self.sockets
            .watch(stream, self.places.len().saturating_add(number))
    }

    /// Whether one who waits at a door may come now. Who asks, or wants the page, waits for a place; who comes to a
    /// terminal or to call waits until the PAD or the host has started.
    fn may_come(&self, service: &Running, number: usize) -> bool {
        match self.sockets.entrances.get(number) {
            Some(entrance) => match entrance.leads {
                Leads::Control => self.controls.iter().any(|place| place.is_none()),
                Leads::Web => self.visits.iter().any(|place| place.is_none()),
                Leads::Terminals(_, _, node) | Leads::Caller(_, node) => {
                    self.names.runs(service, node)
                }
                Leads::Line(_, _) | Leads::Equipment(_) => true,
            },
            None => false,
        }
    }

    /// Gives one who came a port, or a place at the control port or at the page.
    fn admit(&mut self, rt: &HostRuntime, service: &mut Running, guest: Guest, leads: Leads<'_>) {
        match leads {
            Leads::Control => return self.hear(rt, guest.stream),
            Leads::Web => return self.visit(rt, guest.stream),
            Leads::Equipment(line) => return self.admit_call(rt, guest, line),
            _ => {}
        }
        match self.port_for(service, leads) {
            Some(port) => self.seat(rt, service, guest, leads, port),
            None => {
                self.log.refuse(rt, guest.from.ip(), guest.at);
                turn_away(guest.stream, leads);
            }
        }
    }

    /// Gives one who came for the equipment at a line a place, and closes the connection if there is none.
    fn admit_call(&mut self, rt: &HostRuntime, mut guest: Guest, line: u16) {
        let _ = guest.stream.set_nodelay(true);
        let first = self.places.len().saturating_add(self.lines.wires());
        if !self.has_place() {
            return self.log.refuse(rt, guest.from.ip(), guest.at);
        }
        let (stream, from) = (guest.stream, guest.from);
        match self
            .equipment
            .admit(&self.sockets, stream, from, line, first)
        {
            Some(number) => self.log.call_came(rt, line, number, from),
            None => self.log.refuse(rt, from.ip(), guest.at),
        }
    }

    /// Hears a question, for which there is a place.
    fn hear(&mut self, rt: &HostRuntime, stream: TcpStream) {
        let Some(free) = self.controls.iter().position(|place| place.is_none()) else {
            return;
        };
        if let Some(place) = self.controls.get_mut(free) {
            *place = Some(Control::new(rt.alloc(), stream));
        }
    }

    /// Takes one who wants the page, for whom there is a place.
    fn visit(&mut self, rt: &HostRuntime, stream: TcpStream) {
        let Some(free) = self.visits.iter().position(|place| place.is_none()) else {
            return;
        };
        if let Some(place) = self.visits.get_mut(free) {
            *place = Some(Visit::new(rt.alloc(), stream));
        }
    }

    /// The port of one who came, if one is free and there may be a connection more.
    fn port_for(&self, service: &mut Running, leads: Leads<'_>) -> Option<usize> {
        if !self.has_place() {
            return None;
        }
        match leads {
            Leads::Terminals(table, _, _) => service.attach(table),
            Leads::Caller(caller, _) => service.attach_caller(caller),
            Leads::Line(_, _) | Leads::Equipment(_) | Leads::Control | Leads::Web => None,
        }
    }

    /// Whether there may be a connection more.
    pub(crate) fn has_place(&self) -> bool {
        self.equipment.connections() < self.left_by_ports()
    }

    /// How many connections the ports leave to equipment.
    pub(crate) fn left_by_ports(&self) -> usize {
        let taken = self
            .places
            .iter()
            .filter(|place| place.peer.is_some())
            .count();
        usize::from(self.connections).saturating_sub(taken)
    }

    /// Gives one who came this port.
    fn seat(
        &mut self,
        rt: &HostRuntime,
        service: &mut Running,
        mut guest: Guest,
        leads: Leads<'_>,
        port: usize,
    ) {
        let _ = guest.stream.set_nodelay(true);
        if self.sockets.watch(&mut guest.stream, port).is_err() {
            service.closed(port);
            return;
        }
        if let Some(place) = self.places.get_mut(port) {
            place.accept(guest.stream, peer_of(guest.from, leads));
        }
        self.log.attach(rt, port, guest.from);
    }
}

fn peer_of(from: SocketAddr, leads: Leads<'_>) -> Peer {
    match leads {
        Leads::Caller(_, _) => Peer::Caller(from),
        _ => Peer::Client(from),
    }
}

/// Closes the connection of one for whom there is no port. A client of telnet is told so.
fn turn_away(mut stream: TcpStream, leads: Leads<'_>) {
    if let Leads::Terminals(_, PortMode::Telnet, _) = leads {
        let _ = stream.write(NO_TERMINAL);
    }
}
