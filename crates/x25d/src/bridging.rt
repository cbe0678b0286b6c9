//! What a service file bridges: hosts that are services, callers that place calls, and the addresses of PADs.
use net_config::{Config, NodeConfig, NodeKind};
use packet_codec::Address;
use service::{BridgeBindings, BridgeTerms, CallerBinding, ServiceBinding};
use service_files::{CallerTable, Connect, HostService, ServiceFile, node_of};
use std::alloc::{AllocError, Global};

/// How many ticks a caller's connection may take to stand: none, since it stands when it comes.
const NO_WAIT: u16 = 0;

/// All that a service file bridges.
#[derive(Drop)]
pub(crate) struct BoundBridges {
    connections: u16,
    services: Vec<ServiceBinding>,
    callers: Vec<CallerBinding>,
    pads: Vec<Address>,
}

impl BoundBridges {
    /// What a file bridges that fits its network.
    pub(crate) fn new(
        alloc: Global,
        config: &Config,
        file: &ServiceFile<'_>,
    ) -> Result<Self, AllocError> {
        Ok(BoundBridges {
            connections: file.connections,
            services: bound_services(alloc, config, file)?,
            callers: bound_callers(alloc, config, file)?,
            pads: pad_addresses(alloc, config)?,
        })
    }

    pub(crate) fn bindings(&self) -> BridgeBindings<'_> {
        BridgeBindings {
            connections: self.connections,
            services: self.services.as_slice(),
            callers: self.callers.as_slice(),
            pads: self.pads.as_slice(),
        }
    }
}

/// The services that connections lead to, in the order of their tables.
pub(crate) fn connects(alloc: Global, file: &ServiceFile<'_>) -> Result<Vec<Connect>, AllocError> {
    let mut connects = Vec::new(alloc);
    for table in &file.services {
        if let HostService::Connect(connect) = table.service {
            connects.push(connect)?;
        }
    }
    Ok(connects)
}

fn bound_services(
    alloc: Global,
    config: &Config,
    file: &ServiceFile<'_>,
) -> Result<Vec<ServiceBinding>, AllocError> {
    let mut bindings = Vec::new(alloc);
    for table in &file.services {
        if let HostService::Connect(connect) = table.service
            && let Some(node) = node_of(&config.nodes, table.host)
        {
            let hello = connect.hello;
            let terms = BridgeTerms {
                wait: connect.wait,
                linger: connect.linger,
                at_reset: connect.at_reset,
            };
            bindings.push(ServiceBinding { node, hello, terms })?;
        }
    }
    Ok(bindings)
}

fn bound_callers(
    alloc: Global,
    config: &Config,
    file: &ServiceFile<'_>,
) -> Result<Vec<CallerBinding>, AllocError> {
    let mut bindings = Vec::new(alloc);
    for table in &file.callers {
        if let Some(binding) = bound_caller(config, table) {
            bindings.push(binding)?;
        }
    }
    Ok(bindings)
}

fn bound_caller(config: &Config, table: &CallerTable<'_>) -> Option<CallerBinding> {
    let node = node_of(&config.nodes, table.host)?;
    let call = Address::read(table.call.as_bytes()).ok()?;
    let terms = BridgeTerms {
        wait: NO_WAIT,
        linger: table.linger,
        at_reset: table.at_reset,
    };
    Some(CallerBinding::new(node, call, table.user_data.as_slice(), terms))
}

/// The addresses of all PADs that have one.
fn pad_addresses(alloc: Global, config: &Config) -> Result<Vec<Address>, AllocError> {
    let mut addresses = Vec::new(alloc);
    for node in &config.nodes {
        if let Some(address) = pad_address(config, node) {
            addresses.push(address)?;
        }
    }
    Ok(addresses)
}

/// The address of a node, if it is a PAD and has one.
fn pad_address(config: &Config, node: &NodeConfig) -> Option<Address> {
    if !matches!(node.kind, NodeKind::Pad(_)) {
        return None;
    }
    let name = node.name.as_str();
    let line = config.lines.iter().find(|line| line.dte.as_str() == name)?;
    Address::read(line.address.as_bytes()).ok()
}
