//! What a running service tells of itself.
use crate::log::Log;
use crate::names::Names;
use crate::serving::Running;
use crate::words::VERSION;
use service::CallStatus;
use status_texts::{PortLine, Status};
use std::alloc::{AllocError, Global};

/// The status of a service, by the names of its network and what its log counted.
pub(crate) fn status_of<'a>(
    alloc: Global,
    service: &Running,
    names: Names<'a>,
    log: &Log,
) -> Result<Status<'a>, AllocError> {
    let lines = names.lines(alloc, service)?;
    Ok(Status {
        version: VERSION,
        seconds: log.seconds,
        nodes: names.nodes(alloc, service)?,
        calls: names.calls(alloc, service, &lines, &calls_of(alloc, service)?)?,
        lines,
        counts: log.counts,
        ports: ports_of(alloc, service)?,
    })
}

fn calls_of(alloc: Global, service: &Running) -> Result<Vec<CallStatus>, AllocError> {
    let mut calls = Vec::new(alloc);
    for place in 0..service.calls() {
        if let Some(call) = service.call(place) {
            calls.push(call)?;
        }
    }
    Ok(calls)
}

fn ports_of(alloc: Global, service: &Running) -> Result<Vec<PortLine>, AllocError> {
    let mut ports = Vec::new(alloc);
    for port in 0..service.ports() {
        if let Some(status) = service.status(port) {
            ports.push(PortLine {
                in_use: status.in_use,
                keys: status.keys,
                octets: status.octets,
                overtaken: status.overtaken,
            })?;
        }
    }
    Ok(ports)
}
