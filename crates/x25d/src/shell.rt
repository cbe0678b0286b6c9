//! The sockets of a service, its clock and its log. It has no rule of its own.
use crate::bridging::connects;
use crate::captures::Captures;
use crate::clock::{self, Clock, TICK_MILLIS};
use crate::context::Context;
use crate::controls::{self, Control};
use crate::equipment::Equipment;
use crate::lines::Lines;
use crate::log::Log;
use crate::names::Names;
use crate::places::{Place, places};
use crate::pumps::{is_busy, read_port, write_port};
use crate::questions::serve_control;
use crate::serving::{NetworkFile, Running};
use crate::sockets::Sockets;
use crate::visits::{self, Visit};
use crate::web::serve_visit;
use mio::{Events, Token};
use service::Order;
use service_files::{Connect, ServiceFile};
use std::alloc::{AllocError, Global};
use std::io;

/// How many events the system tells at once.
const MOST_EVENTS: usize = 256;

/// How often the sockets are asked before the shell sleeps, after a turn in which something happened.
const MOST_LOOKS: u32 = 200;

/// How many orders of the service are done in one turn.
const MOST_ORDERS: usize = 256;

/// How many rounds the service has until what they brought is written.
const MOST_ROUNDS: u32 = 16;

/// How often the service has rounds in one turn.
const MOST_PASSES: u32 = 4;

/// All lines whose other ends are elsewhere.
#[derive(Drop)]
struct Remote<'a> {
    lines: Lines<'a>,
    equipment: Equipment,
}

impl<'a> Remote<'a> {
    fn new(
        rt: &HostRuntime,
        network: NetworkFile<'_>,
        file: &'a ServiceFile<'_>,
        sockets: &Sockets<'_>,
    ) -> io::Result<Self> {
        let alloc = rt.alloc();
        let NetworkFile { octets, config } = network;
        let start = clock::micros_since_1970(rt)?;
        let lines = Lines::new(alloc, file, sockets)?;
        let equipment = Equipment::new(alloc, config, file, octets, start)?;
        Ok(Remote { lines, equipment })
    }
}

/// All places for connections: of ports, at the control port, and of the page.
#[derive(Drop)]
struct Guests {
    places: Vec<Place>,
    controls: Vec<Option<Control>>,
    visits: Vec<Option<Visit>>,
}

impl Guests {
    /// Places for connections at so many ports.
    fn new(alloc: Global, ports: usize) -> Result<Self, AllocError> {
        Ok(Guests {
            places: places(alloc, ports)?,
            controls: controls::places(alloc)?,
            visits: visits::places(alloc)?,
        })
    }
}

/// All that the shell has.
#[derive(Drop)]
pub(crate) struct Shell<'a> {
    pub(crate) names: Names<'a>,
    /// How many connections there may be at once.
    pub(crate) connections: u16,
    /// The services that connections lead to.
    pub(crate) services: Vec<Connect>,
    pub(crate) sockets: Sockets<'a>,
    /// What the system tells.
    events: Events,
    /// Whether anything happened in the last turn.
    awake: bool,
    /// The connections of all ports.
    pub(crate) places: Vec<Place>,
    pub(crate) lines: Lines<'a>,
    pub(crate) equipment: Equipment,
    pub(crate) controls: Vec<Option<Control>>,
    pub(crate) visits: Vec<Option<Visit>>,
    clock: Clock,
    pub(crate) log: Log,
    pub(crate) captures: Option<Captures>,
    busy: bool,
}

impl<'a> Shell<'a> {
    /// A shell that begins, without connections at so many ports.
    pub(crate) fn new(
        rt: &HostRuntime,
        network: NetworkFile<'a>,
        file: &'a ServiceFile<'_>,
        sockets: Sockets<'a>,
        log: Log,
        ports: usize,
    ) -> io::Result<Self> {
        let alloc = rt.alloc();
        let clock = Clock::new(rt)?;
        let remote = Remote::new(rt, network, file, &sockets)?;
        let guests = Guests::new(alloc, ports)?;
        let services = connects(alloc, file)?;
        let events = Events::with_capacity(alloc, MOST_EVENTS)?;
        let Remote { lines, equipment } = remote;
        let Guests {
            places,
            controls,
            visits,
        } = guests;
        Ok(Shell {
            names: Names::new(network.config),
            connections: file.connections,
            services,
            lines,
            equipment,
            sockets,
            events,
            awake: false,
            places,
            controls,
            visits,
            clock,
            log,
            captures: None,
            busy: false,
        })
    }

    /// Tells the log that the service begins, and where.
    pub(crate) fn begin(&mut self, rt: &HostRuntime) {
        self.log.start(rt);
        for entrance in &self.sockets.entrances {
            self.log.bind(rt, entrance);
        }
        for socket in &self.sockets.datagrams {
            self.log.bind_datagrams(rt, socket);
        }
    }

    /// Writes the rest of what was captured, and tells the log that the service has ended.
    pub(crate) fn end(&mut self, rt: &HostRuntime, service: &mut Running) {
        if let Some(captures) = self.captures.as_mut() {
            captures.finish(service);
        }
        self.log.stopped(rt);
    }

    /// Waits for something to happen, does what is to be done, and says whether the service goes on.
    pub(crate) fn turn(&mut self, rt: &HostRuntime, service: &mut Running) -> io::Result<bool> {
        self.wait()?;
        let ticks = self.pass_time(rt, service)?;
        self.turn_lines(rt, service, ticks);
        let came = self.accept(rt, service);
        self.tell_made(rt, service);
        self.read(service);
        let more = self.work(rt, service);
        let moved = self.turn_equipment(rt, service, ticks);
        let obeyed = self.obey(rt, service);
        let told = self.lines.obey(rt, service, &mut self.log);
        self.serve_controls(rt, service, ticks);
        self.serve_visits(rt, service, ticks);
        self.write_captured(rt, service);
        self.busy = came || more || moved || obeyed || told || self.is_busy(service);
        Ok(!service.has_stopped())
    }

    /// Waits for the sockets, until the next tick if nothing is to be done.
    fn wait(&mut self) -> io::Result<()> {
        if self.busy {
            self.sockets.wait(&mut self.events, 0)?;
        } else if !self.awake || !self.look()? {
            self.sockets.wait(&mut self.events, TICK_MILLIS)?;
        }
        self.awake = self.busy || !self.events.is_empty();
        self.report();
        Ok(())
    }

    /// Asks the sockets a while without sleeping, and says whether they told anything. A partner with a small window answers
    /// sooner than a sleeper wakes.
    fn look(&mut self) -> io::Result<bool> {
        for _ in 0..MOST_LOOKS {
            self.sockets.wait(&mut self.events, 0)?;
            if !self.events.is_empty() {
                return Ok(true);
            }
        }
        Ok(false)
    }

    /// Hands what the system told to the connections.
    fn report(&mut self) {
        let doors = self.sockets.entrances.len();
        let wires = doors.wrapping_add(self.places.len());
        let calls = wires.wrapping_add(self.lines.wires());
        for event in self.events.iter() {
            let Token(token) = event.token();
            if let Some(entrance) = self.sockets.entrances.get_mut(token) {
                entrance.door.report();
            } else if let Some(place) = self.places.get_mut(token.wrapping_sub(doors)) {
                place.connection.report(event);
            } else if let Some(wire) = self.lines.wire_mut(token.wrapping_sub(wires)) {
                wire.connection.report(event);
            } else {
                self.equipment.report(token.wrapping_sub(calls), event);
            }
        }
    }

    /// Gives the service the time.
    fn pass_time(&mut self, rt: &HostRuntime, service: &mut Running) -> io::Result<u16> {
        service.time(clock::seconds_since_1970(rt)?);
        if self.captures.is_some() {
            service.time_frames(clock::micros_since_1970(rt)?);
        }
        let ticks = self.clock.ticks(rt)?;
        self.log.seconds = self.clock.seconds();
        if ticks > 0 {
            service.elapse(ticks);
        }
        Ok(ticks)
    }

    /// Gives the service its rounds, and writes what they bring, on lines first. What is written at a port makes room for
    /// more there. The answer is whether more may be left.
    fn work(&mut self, rt: &HostRuntime, service: &mut Running) -> bool {
        for _ in 0..MOST_PASSES {
            let more = self.give_rounds(rt, service);
            self.lines.write(service);
            let wrote = self.write(service);
            if !more && !wrote {
                return false;
            }
        }
        true
    }

    /// Gives the service its rounds, and says whether more may be left. What comes from ends that are elsewhere, and goes to
    /// them, moves before each round. What a round captured is written after it, if it is much, so that the next one finds
    /// room.
    fn give_rounds(&mut self, rt: &HostRuntime, service: &mut Running) -> bool {
        if service.net().remote_lines() == 0 && self.captures.is_none() {
            return service.work(MOST_ROUNDS);
        }
        for _ in 0..MOST_ROUNDS {
            let served = service.serve_lines();
            let worked = service.work(1);
            self.write_captured(rt, service);
            if !worked && !served {
                return false;
            }
        }
        true
    }

    /// Reads what came on lines to other processes, and asks for connections of those that have none.
    fn turn_lines(&mut self, rt: &HostRuntime, service: &mut Running, ticks: u16) {
        let first = self.places.len();
        let context = Context {
            rt,
            sockets: &self.sockets,
            ticks,
        };
        self.lines.turn(context, service, &mut self.log, first);
    }

    /// Moves what is there on lines to equipment, and says whether there was anything.
    fn turn_equipment(&mut self, rt: &HostRuntime, service: &mut Running, ticks: u16) -> bool {
        let first = self.places.len().saturating_add(self.lines.wires());
        let most = self.left_by_ports();
        let context = Context {
            rt,
            sockets: &self.sockets,
            ticks,
        };
        self.equipment
            .turn(context, service, &mut self.log, first, most)
    }

    /// Writes what was captured. If it cannot be written, the capture ends, and nothing else.
    fn write_captured(&mut self, rt: &HostRuntime, service: &mut Running) {
        let outcome = match self.captures.as_mut() {
            Some(captures) => captures.write(rt, service, self.log.seconds),
            None => return,
        };
        if let Err(why) = outcome {
            self.captures = None;
            self.log.capture_ended(rt, why);
        }
    }

    fn read(&mut self, service: &mut Running) {
        for port in 0..self.places.len() {
            if let Some(place) = self.places.get_mut(port)
                && place.connection.may_read()
            {
                read_port(service, port, place);
            }
        }
    }

    /// Writes what waits, and says whether anything was written: then there may be room for more.
    fn write(&mut self, service: &mut Running) -> bool {
        let mut any = false;
        for port in 0..self.places.len() {
            if let Some(place) = self.places.get_mut(port)
                && place.connection.may_write()
            {
                let wrote = write_port(service, port, place);
                any = any || wrote;
            }
        }
        any
    }

    fn is_busy(&self, service: &Running) -> bool {
        for port in 0..self.places.len() {
            if let Some(place) = self.places.get(port)
                && is_busy(service, port, &place.connection)
            {
                return true;
            }
        }
        self.lines.is_busy(service)
    }

    /// Does what the service orders, and says whether there was any order.
    fn obey(&mut self, rt: &HostRuntime, service: &mut Running) -> bool {
        for done in 0..MOST_ORDERS {
            match service.next_order() {
                Some(order) => self.obey_order(rt, service, order),
                None => return done > 0,
            }
        }
        true
    }

    fn obey_order(&mut self, rt: &HostRuntime, service: &mut Running, order: Order) {
        match order {
            Order::Close(port) => self.close(rt, service, port),
            Order::Connect {
                port,
                service: number,
            } => self.connect(rt, service, port, number),
            Order::EndWriting(port) => self.end_writing(port),
            Order::LogOvertaken { port, keys } => self.log.overtaken(rt, port, keys),
            Order::LogIdle(port) => self.log.idle(rt, port),
            Order::LogCall(note) => self.log.call(rt, self.names, &note),
            Order::LogMissed(calls) => self.log.missed(rt, calls),
        }
    }

    fn close(&mut self, rt: &HostRuntime, service: &mut Running, port: usize) {
        service.closed(port);
        if let Some(place) = self.places.get_mut(port)
            && let Some(peer) = place.close()
        {
            self.log.leave(rt, port, peer);
        }
    }

    /// The connection of a port is to be ended for writing once what waits is written.
    fn end_writing(&mut self, port: usize) {
        if let Some(place) = self.places.get_mut(port) {
            place.ends = true;
        }
    }

    /// Answers the questions that are there.
    fn serve_controls(&mut self, rt: &HostRuntime, service: &mut Running, ticks: u16) {
        for place in self.controls.iter_mut() {
            let stays = match place {
                Some(control) => {
                    control.elapse(ticks)
                        && serve_control(rt, service, self.names, &mut self.log, control)
                }
                None => true,
            };
            if !stays {
                *place = None;
            }
        }
    }

    /// Answers those who want the page.
    fn serve_visits(&mut self, rt: &HostRuntime, service: &Running, ticks: u16) {
        for place in self.visits.iter_mut() {
            let stays = match place {
                Some(visit) => serve_visit(rt, service, self.names, &self.log, visit, ticks),
                None => true,
            };
            if !stays {
                *place = None;
            }
        }
    }
}
