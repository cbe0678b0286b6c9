//! The files that say what is to be served.
use crate::faults::Fault;
use service_files::network_name;
use std::fs::File;
use std::io::{self, Read};
use std::path::Path;

/// How many octets a file has at most.
const MOST_OCTETS: u64 = 1_048_576;

/// The octets of a service file, and those of the network's file that it names, none if it names none.
#[derive(Drop)]
pub(crate) struct Octets {
    pub(crate) service: Vec<u8>,
    pub(crate) network: Vec<u8>,
}

/// Reads a service file, and the network's file that it names.
pub(crate) fn read_both(rt: &HostRuntime, file: &str) -> Result<Octets, Fault> {
    let service = match read_file(rt, Path::new(file)) {
        Ok(octets) => octets,
        Err(error) => return Err(Fault::NoServiceFile(error)),
    };
    let network = network_of(rt, file, service.as_slice())?;
    Ok(Octets { service, network })
}

/// The octets of the network's file that a service file names, which lies beside it; none if it names none.
fn network_of(rt: &HostRuntime, file: &str, service: &[u8]) -> Result<Vec<u8>, Fault> {
    match network_name(rt.alloc(), service)? {
        Some(name) => {
            let path = Path::new(file).with_file_name(rt.alloc(), name.as_str())?;
            read_network(rt, path.as_path())
        }
        None => Ok(Vec::new(rt.alloc())),
    }
}

/// Reads the file of a network.
pub(crate) fn read_network(rt: &HostRuntime, path: Path<'_>) -> Result<Vec<u8>, Fault> {
    match read_file(rt, path) {
        Ok(octets) => Ok(octets),
        Err(error) => Err(Fault::NoNetworkFile(error)),
    }
}

/// The octets of a file.
fn read_file(rt: &HostRuntime, path: Path<'_>) -> io::Result<Vec<u8>> {
    let mut octets = Vec::new(rt.alloc());
    let mut file = File::open(rt, path)?.take(MOST_OCTETS + 1);
    file.read_to_end(&mut octets)?;
    if octets.len() as u64 > MOST_OCTETS {
        return Err(io::Error::other("it has more than 1,048,576 octets"));
    }
    Ok(octets)
}
