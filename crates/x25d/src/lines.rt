//! Lines whose other ends are elsewhere. Those to other processes have connections that come or are asked for.
use crate::context::Context;
use crate::log::Log;
use crate::serving::Running;
use crate::sockets::Sockets;
use crate::wires::{Turn, Wire, wires};
use line_carriers::CarrierFault;
use mio::net::TcpStream;
use remote_lines::LineOrder;
use service_files::{Allow, LineTable, ServiceFile, Way};
use std::alloc::{AllocError, Global};
use std::io;
use std::net::{IpAddr, SocketAddr};

/// After how many ticks a connection that cannot be had is asked for again, at first.
const FIRST_PAUSE: u16 = 2;

/// After how many ticks it is asked for again, at most.
const MOST_PAUSE: u16 = 40;

/// How many may be there who came and have not said hello.
const MOST_GUESTS: usize = 4;

/// How many orders of a line are done in one turn.
const MOST_ORDERS: usize = 8;

/// How the connection of a line comes about, and when it is asked for again.
#[derive(Drop)]
struct Link<'a> {
    number: u16,
    way: Way,
    /// The door at which it comes.
    door: Option<usize>,
    allow: &'a Allow,
    /// How many ticks are left until it is asked for.
    left: u16,
    /// How many ticks pass after the next time that it is lost.
    pause: u16,
}

impl Link<'_> {
    /// Whether the line leads to another process.
    fn is_to_process(&self) -> bool {
        matches!(self.way, Way::Listen(_) | Way::Connect(_))
    }

    /// Whether one at this address may come to this door for the line.
    fn lets_in(&self, door: usize, from: IpAddr) -> bool {
        self.door == Some(door) && self.allow.allows(from.to_canonical())
    }

    /// Its connection is lost, or cannot be had.
    fn lose(&mut self) {
        self.left = self.pause;
        self.pause = self.pause.saturating_mul(2).min(MOST_PAUSE);
    }
}

/// All lines whose other ends are elsewhere, in the order of their tables, and places for connections to other processes.
#[derive(Drop)]
pub(crate) struct Lines<'a> {
    links: Vec<Link<'a>>,
    wires: Vec<Wire>,
}

impl<'a> Lines<'a> {
    /// The lines of a service file, without connections.
    pub(crate) fn new(
        alloc: Global,
        file: &'a ServiceFile<'_>,
        sockets: &Sockets<'_>,
    ) -> Result<Self, AllocError> {
        let mut links = Vec::new(alloc);
        for table in &file.lines {
            links.push(link_of(table, sockets))?;
        }
        let count = match links.iter().filter(|link| link.is_to_process()).count() {
            0 => 0,
            lines => lines.saturating_mul(2).saturating_add(MOST_GUESTS),
        };
        let wires = wires(alloc, count)?;
        Ok(Lines { links, wires })
    }

    /// How many places for connections there are.
    pub(crate) fn wires(&self) -> usize {
        self.wires.len()
    }

    /// The place of this number for a connection.
    pub(crate) fn wire_mut(&mut self, number: usize) -> Option<&mut Wire> {
        self.wires.get_mut(number)
    }

    /// Whether one at this address may come to a door for some line.
    pub(crate) fn lets_in(&self, door: usize, from: IpAddr) -> bool {
        self.links.iter().any(|link| link.lets_in(door, from))
    }

    /// The number of a place for one more connection, if there is one.
    pub(crate) fn free_wire(&self) -> Option<usize> {
        self.wires.iter().position(|wire| wire.is_free())
    }

    /// Reads what came on all connections, and asks for those that are wanting. Places for connections count from `first`.
    pub(crate) fn turn(
        &mut self,
        context: Context<'_>,
        service: &mut Running,
        log: &mut Log,
        first: usize,
    ) {
        for number in 0..self.wires.len() {
            let turn = match self.wires.get_mut(number) {
                Some(wire) => wire.turn(service, context.ticks),
                None => Turn::Goes,
            };
            self.follow(context.rt, service, log, number, turn);
        }
        for line in 0..self.links.len() {
            if self.wants(line, context.ticks) {
                self.ask(context, log, first, line);
            }
        }
    }

    /// Does what follows from what became of a connection.
    fn follow(
        &mut self,
        rt: &HostRuntime,
        service: &mut Running,
        log: &mut Log,
        number: usize,
        turn: Turn,
    ) {
        match turn {
            Turn::Goes => {}
            Turn::Says { door } => self.meet(rt, service, log, number, door),
            Turn::Silent => self.turn_away(rt, log, number, None),
            Turn::Made(line) => {
                service.net_mut().line_made(line);
                if let Some(wire) = self.wires.get_mut(number) {
                    wire.stand(line);
                }
            }
            Turn::Lost(line) => {
                service.net_mut().line_lost(line);
                self.close(line);
                self.lose(line);
            }
        }
    }

    /// One who came has said hello: the partner of a line gets its place, and whoever else is turned away.
    fn meet(
        &mut self,
        rt: &HostRuntime,
        service: &mut Running,
        log: &mut Log,
        number: usize,
        door: usize,
    ) {
        let mut fault = None;
        for line in 0..self.links.len() {
            match self.meets(service, number, door, line) {
                Some(Ok(_)) => {
                    self.replace(service, number, line);
                    return;
                }
                Some(Err(why)) => fault = Some(why),
                None => {}
            }
        }
        self.turn_away(rt, log, number, fault);
    }

    /// What the hello of one who came to a door says to the end here of a line, if it may come for that.
    fn meets(
        &self,
        service: &Running,
        number: usize,
        door: usize,
        line: usize,
    ) -> Option<Result<u64, CarrierFault>> {
        let wire = self.wires.get(number)?;
        let link = self.links.get(line)?;
        if link.lets_in(door, wire.peer?.ip()) {
            service.net().line_meets(line, wire.hello())
        } else {
            None
        }
    }

    /// One who came gets the place of a line's connection.
    fn replace(&mut self, service: &mut Running, number: usize, line: usize) {
        self.close(line);
        service.net_mut().line_made(line);
        if let Some(wire) = self.wires.get_mut(number) {
            service.net_mut().line_came(line, wire.hello());
            wire.stand(line);
        }
    }

    fn turn_away(
        &mut self,
        rt: &HostRuntime,
        log: &mut Log,
        number: usize,
        fault: Option<CarrierFault>,
    ) {
        if let Some(wire) = self.wires.get_mut(number)
            && let Some(peer) = wire.close()
        {
            log.stranger(rt, peer.ip(), fault);
        }
    }

    /// Closes what is there of a line.
    fn close(&mut self, line: usize) {
        for wire in self.wires.iter_mut() {
            if wire.is_of(line) {
                wire.close();
            }
        }
    }

    fn lose(&mut self, line: usize) {
        if let Some(link) = self.links.get_mut(line) {
            link.lose();
        }
    }

    /// Whether a connection of a line is to be asked for. Ticks have passed.
    fn wants(&mut self, line: usize, ticks: u16) -> bool {
        if self.wires.iter().any(|wire| wire.is_of(line)) {
            return false;
        }
        match self.links.get_mut(line) {
            Some(link) => {
                link.left = link.left.saturating_sub(ticks);
                matches!(link.way, Way::Connect(_)) && link.left == 0
            }
            None => false,
        }
    }

    /// Asks for the connection of a line.
    fn ask(&mut self, context: Context<'_>, log: &mut Log, first: usize, line: usize) {
        let Some((number, to)) = self.target(line) else {
            return;
        };
        if let Err(why) = self.connect(context, first, line, to) {
            log.line_failed(context.rt, number, to, why);
            self.lose(line);
        }
    }

    /// The number of a line, and where its connection is made to.
    fn target(&self, line: usize) -> Option<(u16, SocketAddr)> {
        let link = self.links.get(line)?;
        match link.way {
            Way::Connect(to) => Some((link.number, to)),
            _ => None,
        }
    }

    fn connect(
        &mut self,
        context: Context<'_>,
        first: usize,
        line: usize,
        to: SocketAddr,
    ) -> io::Result<()> {
        let Some(number) = self.free_wire() else {
            return Ok(());
        };
        let mut stream = TcpStream::connect(context.rt, to)?;
        context
            .sockets
            .watch(&mut stream, first.saturating_add(number))?;
        stream.set_nodelay(true)?;
        if let Some(wire) = self.wires.get_mut(number) {
            wire.ask(stream, to, line);
        }
        Ok(())
    }

    /// Writes what waits on all lines. Nothing waits for the room that this makes.
    pub(crate) fn write(&mut self, service: &mut Running) {
        for wire in self.wires.iter_mut() {
            wire.write(service);
        }
    }

    /// Whether there is more to do at once.
    pub(crate) fn is_busy(&self, service: &Running) -> bool {
        self.wires.iter().any(|wire| wire.is_busy(service))
    }

    /// Does what the lines to other processes order, and says whether there was any order.
    pub(crate) fn obey(&mut self, rt: &HostRuntime, service: &mut Running, log: &mut Log) -> bool {
        let mut any = false;
        for line in 0..self.links.len() {
            if !self.is_to_process(line) {
                continue;
            }
            for _ in 0..MOST_ORDERS {
                let Some(order) = service.net_mut().line_order(line) else {
                    break;
                };
                self.obey_order(rt, log, line, order);
                any = true;
            }
        }
        any
    }

    fn obey_order(&mut self, rt: &HostRuntime, log: &mut Log, line: usize, order: LineOrder) {
        let Some(number) = self.number(line) else {
            return;
        };
        match order {
            LineOrder::Close(ending) => {
                log.line_closed(rt, number, ending);
                self.close(line);
                self.lose(line);
            }
            LineOrder::TellOpen => {
                self.settle(line);
                log.line_up(rt, number);
            }
            LineOrder::TellClosed => log.line_down(rt, number),
        }
    }

    /// Whether a line leads to another process.
    fn is_to_process(&self, line: usize) -> bool {
        match self.links.get(line) {
            Some(link) => link.is_to_process(),
            None => false,
        }
    }

    /// The number of a line.
    fn number(&self, line: usize) -> Option<u16> {
        Some(self.links.get(line)?.number)
    }

    /// A line is open: if it is lost, its connection is soon asked for again.
    fn settle(&mut self, line: usize) {
        if let Some(link) = self.links.get_mut(line) {
            link.pause = FIRST_PAUSE;
        }
    }
}

/// The line of a table, and the door to which its connection comes.
fn link_of<'a>(table: &'a LineTable, sockets: &Sockets<'_>) -> Link<'a> {
    Link {
        number: table.line,
        way: table.way,
        door: match table.way {
            Way::Listen(at) => sockets.line_door(at, table.line),
            _ => None,
        },
        allow: &table.allow,
        left: 0,
        pause: FIRST_PAUSE,
    }
}
