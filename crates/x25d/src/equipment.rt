//! Equipment of other makes, at lines whose other ends are elsewhere.
use crate::context::Context;
use crate::datagram_line::DatagramLine;
use crate::far_end::FarEnd;
use crate::gateway_line::GatewayLine;
use crate::log::Log;
use crate::serving::Running;
use crate::shares::{far_end, line_of};
use crate::sockets::Sockets;
use gateway_end::{GatewayEnd, GatewayFault, GatewayParams, XotLine};
use mio::event::Event;
use mio::net::TcpStream;
use net_config::{Config, LineConfig};
use packet_codec::Numbering;
use service_files::{LineTable, ServiceFile, Way};
use std::alloc::Global;
use std::io::{self, ErrorKind};
use std::net::SocketAddr;
use xot_codec::LineFlow;

/// How many connections a gateway has places for beside one for each channel: calls that find no free channel are cleared
/// there.
const MORE_PLACES: usize = 4;

/// All lines to equipment, in the order of their tables.
#[derive(Drop)]
pub(crate) struct Equipment {
    gateways: Vec<GatewayLine>,
    datagrams: Vec<DatagramLine>,
}

impl Equipment {
    /// The lines of a service file to equipment. `network` is the text of the network's file, and `start` the number of
    /// this start. It takes all the memory that is ever used.
    pub(crate) fn new(
        alloc: Global,
        config: &Config,
        file: &ServiceFile<'_>,
        network: &[u8],
        start: u64,
    ) -> io::Result<Self> {
        let mut equipment = Equipment {
            gateways: Vec::new(alloc),
            datagrams: Vec::new(alloc),
        };
        equipment.add_all(alloc, config, file, network, start)?;
        Ok(equipment)
    }

    fn add_all(
        &mut self,
        alloc: Global,
        config: &Config,
        file: &ServiceFile<'_>,
        network: &[u8],
        start: u64,
    ) -> io::Result<()> {
        for (place, table) in file.lines.iter().enumerate() {
            if let Some(end) = far_end(config, table) {
                let remote = line_of(alloc, table, end, network, start)?;
                let far = FarEnd::new(place, table.line, remote);
                self.add(alloc, config, file, table, far)?;
            }
        }
        Ok(())
    }

    /// Adds the line of a table, if equipment is at its far end.
    fn add(
        &mut self,
        alloc: Global,
        config: &Config,
        file: &ServiceFile<'_>,
        table: &LineTable,
        far: FarEnd,
    ) -> io::Result<()> {
        match table.way {
            Way::Listen(_) | Way::Connect(_) => {}
            Way::Udp(way) => self
                .datagrams
                .push(DatagramLine::new(alloc, far, way.partner)?)?,
            Way::Xot(way) => self.add_gateway(alloc, config, file, far, way.connect())?,
        }
        Ok(())
    }

    fn add_gateway(
        &mut self,
        alloc: Global,
        config: &Config,
        file: &ServiceFile<'_>,
        far: FarEnd,
        connect: Option<SocketAddr>,
    ) -> io::Result<()> {
        let Some(line) = config.lines.get(usize::from(far.number)) else {
            return Ok(());
        };
        let connections = usize::from(line.channels)
            .saturating_add(MORE_PLACES)
            .min(usize::from(file.connections));
        let before = self.wires();
        let end = gateway_of(alloc, line, connections)?;
        let gateway = GatewayLine::new(alloc, far, end, connect, connections, before)?;
        self.gateways.push(gateway)?;
        Ok(())
    }

    /// How many places for connections there are.
    fn wires(&self) -> usize {
        let mut wires: usize = 0;
        for gateway in &self.gateways {
            wires = wires.saturating_add(gateway.wires());
        }
        wires
    }

    /// How many connections there are.
    pub(crate) fn connections(&self) -> usize {
        let mut connections: usize = 0;
        for gateway in &self.gateways {
            connections = connections.saturating_add(gateway.connections());
        }
        connections
    }

    /// Notes what the system tells of the connection of this number, of those of all gateways.
    pub(crate) fn report(&mut self, number: usize, event: &Event) {
        for gateway in self.gateways.iter_mut() {
            gateway.report(number, event);
        }
    }

    /// Takes one who came for a line of this number in the network's file. The answer is the number of the connection;
    /// none if there is no place. Places for connections count from `first`.
    pub(crate) fn admit(
        &mut self,
        sockets: &Sockets<'_>,
        stream: TcpStream,
        from: SocketAddr,
        line: u16,
        first: usize,
    ) -> Option<usize> {
        let place = self.find(line)?;
        self.gateways
            .get_mut(place)?
            .admit(sockets, stream, from, first)
    }

    /// The place of the gateway of a line.
    fn find(&self, line: u16) -> Option<usize> {
        self.gateways
            .iter()
            .position(|gateway| gateway.number() == line)
    }

    /// Moves what is there on all lines to equipment, and says whether there was anything. Places for connections count
    /// from `first`, and there may be `most` connections.
    pub(crate) fn turn(
        &mut self,
        context: Context<'_>,
        service: &mut Running,
        log: &mut Log,
        first: usize,
        most: usize,
    ) -> bool {
        let mut any = false;
        for place in 0..self.gateways.len() {
            let others = self.connections_but(place);
            let room = most.saturating_sub(others);
            if let Some(gateway) = self.gateways.get_mut(place) {
                let moved = gateway.turn(context, service, log, first, room);
                any = any || moved;
            }
        }
        for place in 0..self.datagrams.len() {
            if let Some(line) = self.datagrams.get_mut(place)
                && let Some(socket) = context.sockets.datagrams.get(place)
            {
                let moved = line.turn(context, service, log, socket);
                any = any || moved;
            }
        }
        any
    }

    /// How many connections the gateways but this one have.
    fn connections_but(&self, place: usize) -> usize {
        let own = match self.gateways.get(place) {
            Some(gateway) => gateway.connections(),
            None => 0,
        };
        self.connections().saturating_sub(own)
    }
}

/// The end of a line that a gateway has, as the network's file describes the line.
fn gateway_of(alloc: Global, line: &LineConfig, connections: usize) -> io::Result<GatewayEnd> {
    let params = GatewayParams {
        k: octet(line.k),
        n2: octet(line.n2),
        line: XotLine {
            numbering: match line.modulo {
                128 => Numbering::Modulo128,
                _ => Numbering::Modulo8,
            },
            flow: LineFlow {
                size: line.size,
                window: octet(line.window),
            },
        },
        channels: octet(line.channels),
        connections,
    };
    match GatewayEnd::new(alloc, params) {
        Ok(end) => Ok(end),
        Err(GatewayFault::OutOfMemory) => Err(io::Error::from(ErrorKind::OutOfMemory)),
        Err(GatewayFault::BadParams) => Err(io::Error::from(ErrorKind::InvalidData)),
    }
}

/// A number that the network's file has within an octet.
fn octet(number: u16) -> u8 {
    u8::try_from(number).unwrap_or(u8::MAX)
}
