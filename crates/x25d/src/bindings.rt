//! What a service file binds, with the numbers of the nodes in the network.
use crate::bridging::BoundBridges;
use net_config::{Config, NodeKind, TerminalsConfig};
use service::{Bindings, BuiltIn, HostBinding, PadBinding, TerminalsBinding};
use service_files::{
    BuiltInName, HostService, ServiceFile, TerminalsTable, channels_of, last_of, node_of,
};
use std::alloc::{AllocError, Global};
use x3_params::Params;

/// All that a service file binds.
#[derive(Drop)]
pub(crate) struct Bound<'a> {
    terminals: Vec<TerminalsBinding<'a>>,
    pads: Vec<PadBinding>,
    hosts: Vec<HostBinding>,
    bridges: BoundBridges,
}

impl<'a> Bound<'a> {
    /// What a file binds that fits its network.
    pub(crate) fn new(
        alloc: Global,
        config: &Config,
        file: &'a ServiceFile<'_>,
    ) -> Result<Self, AllocError> {
        Ok(Bound {
            terminals: bound_terminals(alloc, config, file)?,
            pads: bound_pads(alloc, config)?,
            hosts: bound_hosts(alloc, config, file)?,
            bridges: BoundBridges::new(alloc, config, file)?,
        })
    }

    pub(crate) fn bindings(&self) -> Bindings<'_> {
        Bindings {
            terminals: self.terminals.as_slice(),
            pads: self.pads.as_slice(),
            hosts: self.hosts.as_slice(),
            bridges: self.bridges.bindings(),
        }
    }
}

fn bound_terminals<'a>(
    alloc: Global,
    config: &Config,
    file: &'a ServiceFile<'_>,
) -> Result<Vec<TerminalsBinding<'a>>, AllocError> {
    let mut bindings = Vec::new(alloc);
    for table in &file.terminals {
        if let Some(node) = node_of(&config.nodes, table.pad) {
            bindings.push(bound_table(config, table, node))?;
        }
    }
    Ok(bindings)
}

/// A table of terminals of the PAD with this number.
fn bound_table<'a>(
    config: &Config,
    table: &'a TerminalsTable<'_>,
    node: usize,
) -> TerminalsBinding<'a> {
    TerminalsBinding {
        name: table.pad,
        node,
        first: table.first,
        last: last_of(config, table),
        mode: table.mode,
        greeting: table.greeting,
        idle: table.idle,
        has_xon: match config.nodes.get(node) {
            Some(found) => has_xon(&found.kind),
            None => false,
        },
    }
}

/// Whether DC1 is XON at the terminals of a node at first.
fn has_xon(kind: &NodeKind) -> bool {
    match kind {
        NodeKind::Pad(pad) => initial_params(pad).has_flow_control(),
        _ => false,
    }
}

/// The parameters that a PAD's terminals have at first.
fn initial_params(pad: &TerminalsConfig) -> Params {
    let mut params = Params::profile(pad.profile, 0);
    for setting in &pad.settings {
        let _ = params.set(setting.number, setting.value);
    }
    params
}

/// Every PAD of a network.
fn bound_pads(alloc: Global, config: &Config) -> Result<Vec<PadBinding>, AllocError> {
    let mut bindings = Vec::new(alloc);
    for (node, found) in config.nodes.iter().enumerate() {
        if let NodeKind::Pad(pad) = &found.kind {
            bindings.push(PadBinding {
                node,
                terminals: pad.terminals,
                channels: channels_at(config, found.name.as_str()),
            })?;
        }
    }
    Ok(bindings)
}

/// Every host of a network, with its service if it has one.
fn bound_hosts(
    alloc: Global,
    config: &Config,
    file: &ServiceFile<'_>,
) -> Result<Vec<HostBinding>, AllocError> {
    let mut bindings = Vec::new(alloc);
    for (node, found) in config.nodes.iter().enumerate() {
        if let NodeKind::Host = &found.kind {
            let name = found.name.as_str();
            bindings.push(HostBinding {
                node,
                channels: channels_at(config, name),
                service: service_at(file, name),
            })?;
        }
    }
    Ok(bindings)
}

/// How many logical channels the line of the node of this name has.
fn channels_at(config: &Config, name: &str) -> u8 {
    u8::try_from(channels_of(config, name)).unwrap_or(u8::MAX)
}

/// The built-in service of the host of this name.
fn service_at(file: &ServiceFile<'_>, name: &str) -> Option<BuiltIn> {
    let table = file.services.iter().find(|table| table.host == name)?;
    match table.service {
        HostService::BuiltIn(BuiltInName::Echo) => Some(BuiltIn::Echo),
        HostService::BuiltIn(BuiltInName::Time) => Some(BuiltIn::Time),
        HostService::BuiltIn(BuiltInName::Discard) => Some(BuiltIn::Discard),
        HostService::Connect(_) => None,
    }
}
