//! What of a network is this process's own.
use line_carriers::Hello;
use link_timers::Role;
use net_config::Config;
use remote_lines::{LineEnd, RemoteLine};
use service::Share;
use service_files::{End, LineTable, ServiceFile, node_of, own_nodes};
use std::alloc::{AllocError, Global};

/// The share that a service file gives this process, which starts with this number. `network` is the text of the network's
/// file.
pub(crate) fn share_of(
    alloc: Global,
    config: &Config,
    file: &ServiceFile<'_>,
    network: &[u8],
    start: u64,
) -> Result<Share, AllocError> {
    let mut remote = Vec::new(alloc);
    for table in &file.lines {
        if let Some(end) = near_end(config, table) {
            remote.push(line_of(alloc, table, end, network, start)?)?;
        }
    }
    Ok(Share {
        own: own_nodes(alloc, config, file)?,
        remote,
    })
}

/// The line of a table at one of its ends.
pub(crate) fn line_of(
    alloc: Global,
    table: &LineTable,
    end: LineEnd,
    network: &[u8],
    start: u64,
) -> Result<RemoteLine, AllocError> {
    let hello = Hello::new(network, table.line, end.role, start);
    RemoteLine::new(alloc, end, hello, table.hold, table.silence)
}

/// The end here of the line of a table.
fn near_end(config: &Config, table: &LineTable) -> Option<LineEnd> {
    end_of(config, table.line, role_of(table.here))
}

/// The other end of the line of a table.
pub(crate) fn far_end(config: &Config, table: &LineTable) -> Option<LineEnd> {
    end_of(config, table.line, role_of(table.here).other())
}

fn role_of(end: End) -> Role {
    match end {
        End::Dte => Role::Dte,
        End::Dce => Role::Dce,
    }
}

/// The end of a line that has this role.
fn end_of(config: &Config, number: u16, role: Role) -> Option<LineEnd> {
    let line = usize::from(number);
    let ends = config.lines.get(line)?;
    let name = match role {
        Role::Dte => ends.dte.as_str(),
        Role::Dce => ends.dce.as_str(),
    };
    Some(LineEnd {
        line,
        role,
        node: node_of(&config.nodes, name)?,
    })
}
