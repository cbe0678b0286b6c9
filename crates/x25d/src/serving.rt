//! What is served: the built-in network, or what a service file says.
use crate::bindings::Bound;
use crate::captures::Captures;
use crate::clock::micros_since_1970;
use crate::faults::Fault;
use crate::files::{Octets, read_both};
use crate::first_lines::say_first;
use crate::log::Log;
use crate::network::{NETWORK, NUMBERS, SERVICE};
use crate::shares::share_of;
use crate::shell::Shell;
use crate::sockets::Sockets;
use frame_lines::MemLine;
use line_sim::{Config, MakeFault, mem_lines};
use network_reasons::read_network;
use service::{Process, Service, Share};
use service_files::{Refusal, ServiceFile, read_document, read_service};
use std::alloc::Global;
use std::io::{self, ErrorKind};
use std::net::SocketAddr;
use std::path::Path;
use toml::Table;

/// The service that runs.
pub(crate) type Running = Service<MemLine>;

/// A network, and the text of its file.
#[derive(Clone, Copy)]
pub(crate) struct NetworkFile<'a> {
    pub(crate) octets: &'a [u8],
    pub(crate) config: &'a Config,
}

/// Serves the built-in network, with its terminals and its control port at these addresses, until it is stopped.
pub(crate) fn serve_built_in(
    rt: &HostRuntime,
    listen: SocketAddr,
    control: SocketAddr,
) -> Result<(), Fault> {
    let alloc = rt.alloc();
    let document = document_of(alloc, SERVICE.as_bytes())?;
    let mut file = file_of(alloc, &document)?;
    file.control = Some(control);
    if let Some(table) = file.terminals.get_mut(0) {
        table.listen = listen;
    }
    let config = config_of(alloc, NETWORK.as_bytes())?;
    let network = NetworkFile {
        octets: NETWORK.as_bytes(),
        config: &config,
    };
    serve(rt, Path::new(""), network, &file, None, Some(NUMBERS))
}

/// Serves what a service file says, until it is stopped, and says whether it can be served. If not, what is wrong first
/// is told on standard error.
pub(crate) fn serve_file(rt: &HostRuntime, name: &str) -> Result<bool, Fault> {
    let octets = read_both(rt, name)?;
    if !is_right(rt, &octets)? {
        return Ok(false);
    }
    serve_octets(rt, Path::new(name), &octets)?;
    Ok(true)
}

/// Whether a service file can be served. If not, what is wrong first is told on standard error.
fn is_right(rt: &HostRuntime, octets: &Octets) -> Result<bool, Fault> {
    let checked = service_files::check_service(
        rt.alloc(),
        octets.service.as_slice(),
        octets.network.as_slice(),
    )?;
    if !checked.is_right {
        eprint!(rt; "{}", checked.text)?;
    }
    Ok(checked.is_right)
}

/// Serves a file of this name that was checked.
fn serve_octets(rt: &HostRuntime, name: Path<'_>, octets: &Octets) -> Result<(), Fault> {
    let alloc = rt.alloc();
    let document = document_of(alloc, octets.service.as_slice())?;
    let file = file_of(alloc, &document)?;
    let config = config_of(alloc, octets.network.as_slice())?;
    let network = NetworkFile {
        octets: octets.network.as_slice(),
        config: &config,
    };
    serve_beside(rt, name, network, &file)
}

/// Serves a file of this name. Its log, if it names one, lies beside it.
fn serve_beside(
    rt: &HostRuntime,
    name: Path<'_>,
    network: NetworkFile<'_>,
    file: &ServiceFile<'_>,
) -> Result<(), Fault> {
    match file.log {
        None => serve(rt, name, network, file, None, None),
        Some(log) => {
            let log = name.with_file_name(rt.alloc(), log)?;
            serve(rt, name, network, file, Some(log.as_path()), None)
        }
    }
}

/// Opens the log and the sockets, makes the network and serves it.
fn serve(
    rt: &HostRuntime,
    name: Path<'_>,
    network: NetworkFile<'_>,
    file: &ServiceFile<'_>,
    log: Option<Path<'_>>,
    numbers: Option<&str>,
) -> Result<(), Fault> {
    let log = match Log::open(rt, log) {
        Ok(log) => log,
        Err(error) => return Err(Fault::NoLog(error)),
    };
    let sockets = Sockets::open(rt, file)?;
    let mut service = service_on(rt, network, file)?;
    let ports = service.ports();
    let outcome = match Shell::new(rt, network, file, sockets, log, ports) {
        Ok(mut shell) => {
            let _ = say_first(rt, &shell.sockets, numbers);
            serve_at(rt, name, file, &mut shell, &mut service)
        }
        Err(error) => Err(Fault::from(error)),
    };
    service.release();
    outcome
}

/// Serves a network until it is stopped. A capture lies beside the service file of this name.
fn serve_at(
    rt: &HostRuntime,
    name: Path<'_>,
    file: &ServiceFile<'_>,
    shell: &mut Shell<'_>,
    service: &mut Running,
) -> Result<(), Fault> {
    if let Some(table) = file.capture.as_ref() {
        shell.captures = Some(Captures::open(rt, service, name, table)?);
    }
    shell.begin(rt);
    for _ in 0..u64::MAX {
        if !shell.turn(rt, service)? {
            break;
        }
    }
    shell.end(rt, service);
    Ok(())
}

/// A service on a network, or on what of it is this process's own.
fn service_on(
    rt: &HostRuntime,
    network: NetworkFile<'_>,
    file: &ServiceFile<'_>,
) -> io::Result<Running> {
    let alloc = rt.alloc();
    let NetworkFile { octets, config } = network;
    let share = share_of(alloc, config, file, octets, micros_since_1970(rt)?)?;
    let bound = Bound::new(alloc, config, file)?;
    let net = net_of(alloc, config, share)?;
    Ok(Service::new(alloc, net, config.lines.len(), &bound.bindings())?)
}

/// A network over lines in memory, of which this is the process's share.
fn net_of(alloc: Global, config: &Config, share: Share) -> io::Result<Process<MemLine>> {
    let lines = mem_lines(alloc, config.lines.len())?;
    match Process::new(alloc, config, lines, share) {
        Ok(net) => Ok(net),
        Err(MakeFault::OutOfMemory) => Err(io::Error::from(ErrorKind::OutOfMemory)),
        Err(_) => Err(io::Error::from(ErrorKind::InvalidData)),
    }
}

/// The network of a text that was checked.
fn config_of(alloc: Global, octets: &[u8]) -> Result<Config, Fault> {
    let mut told = String::new(alloc);
    match read_network(alloc, &mut told, octets)? {
        Some(config) => Ok(config),
        None => Err(Fault::from(Refusal::Told)),
    }
}

/// The document of a text that was checked.
fn document_of(alloc: Global, octets: &[u8]) -> Result<Table, Fault> {
    let mut told = String::new(alloc);
    Ok(read_document(alloc, &mut told, octets)?)
}

/// What a document says that was checked.
fn file_of(alloc: Global, document: &Table) -> Result<ServiceFile<'_>, Fault> {
    let mut told = String::new(alloc);
    Ok(read_service(alloc, &mut told, document)?)
}
