//! A line to equipment of another make, each of whose calls has a TCP connection of its own (RFC 1613).
use crate::call_wires::{CallWire, Change, call_wires};
use crate::context::Context;
use crate::far_end::FarEnd;
use crate::log::Log;
use crate::serving::Running;
use crate::sockets::Sockets;
use frame_codec::FrameBuf;
use gateway_end::{GatewayEnd, Order};
use mio::event::Event;
use mio::net::TcpStream;
use std::alloc::{AllocError, Global};
use std::io;
use std::net::SocketAddr;

/// How many orders of a gateway are done in one turn, at most.
const MOST_ORDERS: usize = 64;

/// How many frames go each way in one turn, at most.
const MOST_FRAMES: usize = 64;

/// Why a call has no connection if there are as many as there may be.
const NO_PLACE: &str = "all connections are taken";

/// Why a call has no connection if the line says nothing of where to connect to.
const NO_PEER: &str = "the line has no 'connect'";

/// A line whose calls are connections.
#[derive(Drop)]
pub(crate) struct GatewayLine {
    far: FarEnd,
    end: GatewayEnd,
    wires: Vec<CallWire>,
    /// Where connections are made to.
    connect: Option<SocketAddr>,
    /// How many connections the gateways before this one may have.
    before: usize,
    /// Whether the log has it that the line is up.
    told_up: bool,
}

impl GatewayLine {
    /// A line of a gateway with so many places for connections, and those before it. `AllocError` comes for want of
    /// memory; no other call wants any.
    pub(crate) fn new(
        alloc: Global,
        far: FarEnd,
        end: GatewayEnd,
        connect: Option<SocketAddr>,
        connections: usize,
        before: usize,
    ) -> Result<Self, AllocError> {
        Ok(GatewayLine {
            far,
            end,
            wires: call_wires(alloc, connections)?,
            connect,
            before,
            told_up: false,
        })
    }

    /// The number of the line in the network's file.
    pub(crate) fn number(&self) -> u16 {
        self.far.number
    }

    /// Notes what the system tells of the connection of this number, of those of all gateways, if it is one of this one.
    pub(crate) fn report(&mut self, number: usize, event: &Event) {
        if let Some(wire) = self.wires.get_mut(number.wrapping_sub(self.before)) {
            wire.connection.report(event);
        }
    }

    /// How many places for connections there are.
    pub(crate) fn wires(&self) -> usize {
        self.wires.len()
    }

    /// How many connections there are.
    pub(crate) fn connections(&self) -> usize {
        self.wires.iter().filter(|wire| wire.is_taken()).count()
    }

    /// Takes one who came, and says whether there was a place. Places for connections count from `first`.
    pub(crate) fn admit(
        &mut self,
        sockets: &Sockets<'_>,
        mut stream: TcpStream,
        from: SocketAddr,
        first: usize,
    ) -> Option<usize> {
        let number = self.end.attach()?;
        let place = first.saturating_add(self.before).saturating_add(number);
        let watched = sockets.watch(&mut stream, place);
        if watched.is_ok()
            && let Some(wire) = self.wires.get_mut(number)
        {
            wire.accept(stream, from);
            return Some(number);
        }
        self.end.lost(number);
        None
    }

    /// Moves what is there between the line and the connections, and says whether there was anything. Places for
    /// connections count from `first`, and there may be `room` connections more.
    pub(crate) fn turn(
        &mut self,
        context: Context<'_>,
        service: &mut Running,
        log: &mut Log,
        first: usize,
        room: usize,
    ) -> bool {
        let rt = context.rt;
        self.pass_time(service, context.ticks);
        let came = self.read(rt, log);
        let took = self.take(service);
        let passed = self.end.finish();
        if !passed && !self.end.is_held_back() {
            self.let_go(rt, log);
        }
        let gave = self.give(service);
        let obeyed = self.obey(context, log, first, room);
        let wrote = self.write();
        self.far.obey(rt, service, log);
        self.tell(rt, log);
        came || took || passed || gave || obeyed || wrote
    }

    fn pass_time(&mut self, service: &mut Running, ticks: u16) {
        self.far.join(service);
        self.far.elapse(ticks);
        if ticks > 0 {
            self.end.elapse(ticks);
        }
    }

    /// Reads what came over all connections, and says whether there was anything.
    fn read(&mut self, rt: &HostRuntime, log: &mut Log) -> bool {
        let mut any = false;
        for number in 0..self.wires.len() {
            let change = match self.wires.get_mut(number) {
                Some(wire) => wire.turn(&mut self.end, number),
                None => Change::Nothing,
            };
            let changed = self.follow(rt, log, number, change);
            any = any || changed;
        }
        any
    }

    /// Does what follows from what became of a connection, and says whether anything did.
    fn follow(&mut self, rt: &HostRuntime, log: &mut Log, number: usize, change: Change) -> bool {
        match change {
            Change::Nothing => return false,
            Change::Came => {}
            Change::Made => self.end.opened(number),
            Change::Failed(why) => {
                if let Some(to) = self.close(number) {
                    log.call_failed(rt, self.far.number, number, to, why);
                }
                self.end.lost(number);
            }
            Change::Lost => {
                self.leave(rt, log, number);
                self.end.lost(number);
            }
        }
        true
    }

    /// Ends the calls whose peers send no more.
    fn let_go(&mut self, rt: &HostRuntime, log: &mut Log) {
        for number in 0..self.wires.len() {
            let is_over = match self.wires.get(number) {
                Some(wire) => wire.is_over(),
                None => false,
            };
            if is_over {
                self.leave(rt, log, number);
                self.end.lost(number);
            }
        }
    }

    /// Takes the frames of the network, and says whether there were any.
    fn take(&mut self, service: &mut Running) -> bool {
        let took = self.far.take(service);
        let mut frame = FrameBuf::new();
        for _ in 0..MOST_FRAMES {
            if !self.far.read(&mut frame) {
                break;
            }
            self.end.on_frame(frame.as_slice());
        }
        took
    }

    /// Gives the network the frames of the gateway, and says whether there were any. Before the line is open they wait.
    fn give(&mut self, service: &mut Running) -> bool {
        let mut frame = FrameBuf::new();
        for _ in 0..MOST_FRAMES {
            if !self.far.remote.is_open() || !self.end.out(&mut frame) {
                break;
            }
            self.far.send(frame.as_slice());
        }
        self.far.give(service)
    }

    /// Does what the gateway orders, and says whether there was anything.
    fn obey(&mut self, context: Context<'_>, log: &mut Log, first: usize, room: usize) -> bool {
        for done in 0..MOST_ORDERS {
            match self.end.next_order() {
                Some(Order::Connect(number)) => self.connect(context, log, first, room, number),
                Some(Order::Close(number)) => self.leave(context.rt, log, number),
                None => return done > 0,
            }
        }
        true
    }

    /// Asks for the connection of this number.
    fn connect(
        &mut self,
        context: Context<'_>,
        log: &mut Log,
        first: usize,
        room: usize,
        number: usize,
    ) {
        let rt = context.rt;
        let Some(to) = self.connect else {
            log.call_refused(rt, self.far.number, number, NO_PEER);
            self.end.lost(number);
            return;
        };
        if self.connections() >= room {
            log.call_refused(rt, self.far.number, number, NO_PLACE);
            self.end.lost(number);
            return;
        }
        log.call_connect(rt, self.far.number, number, to);
        let place = first.saturating_add(self.before).saturating_add(number);
        if let Err(why) = self.ask(context, place, number, to) {
            log.call_failed(rt, self.far.number, number, to, why);
            self.end.lost(number);
        }
    }

    fn ask(
        &mut self,
        context: Context<'_>,
        place: usize,
        number: usize,
        to: SocketAddr,
    ) -> io::Result<()> {
        let mut stream = TcpStream::connect(context.rt, to)?;
        context.sockets.watch(&mut stream, place)?;
        stream.set_nodelay(true)?;
        if let Some(wire) = self.wires.get_mut(number) {
            wire.ask(stream, to);
        }
        Ok(())
    }

    /// Writes what waits at all connections, and says whether anything was written.
    fn write(&mut self) -> bool {
        let mut any = false;
        for number in 0..self.wires.len() {
            if let Some(wire) = self.wires.get_mut(number) {
                let wrote = wire.write(&mut self.end, number);
                any = any || wrote;
            }
        }
        any
    }

    /// Closes a connection, if there is one, and tells the log.
    fn leave(&mut self, rt: &HostRuntime, log: &mut Log, number: usize) {
        if let Some(peer) = self.close(number) {
            log.call_left(rt, self.far.number, number, peer);
        }
    }

    /// Closes a connection, if there is one, and says with whom it was.
    fn close(&mut self, number: usize) -> Option<SocketAddr> {
        self.wires.get_mut(number)?.close()
    }

    /// Tells the log that the line is up or down, if it has it otherwise.
    fn tell(&mut self, rt: &HostRuntime, log: &mut Log) {
        let is_up = self.end.is_ready();
        if is_up == self.told_up {
            return;
        }
        self.told_up = is_up;
        if is_up {
            log.line_up(rt, self.far.number);
        } else {
            log.line_down(rt, self.far.number);
        }
    }
}
