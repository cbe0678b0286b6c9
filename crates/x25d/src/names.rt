//! What things of a network are called: in the log and in the status.
use crate::serving::Running;
use crate::states::{line_state, node_state};
use net_config::{Config, LineConfig, NodeKind};
use service::{CallChange, CallStatus, NotedCall};
use service_files::node_of;
use status_texts::{CallLine, CallOctets, LineState, NetLine, NodeLine, Route, way_of};
use std::alloc::{AllocError, Global};

/// What stands for a name or an address that is not known.
const UNKNOWN: &str = "unknown";

/// The names of a network's nodes, and the addresses of their lines.
#[derive(Clone, Copy)]
pub(crate) struct Names<'a> {
    config: &'a Config,
}

impl<'a> Names<'a> {
    pub(crate) fn new(config: &'a Config) -> Self {
        Names { config }
    }

    /// The name of a node.
    fn node(&self, node: usize) -> &'a str {
        match self.config.nodes.get(node) {
            Some(node) => node.name.as_str(),
            None => UNKNOWN,
        }
    }

    /// The address of the line whose DTE a node is; none if it has none.
    fn address(&self, node: usize) -> &'a str {
        let name = self.node(node);
        match self
            .config
            .lines
            .iter()
            .find(|line| line.dte.as_str() == name)
        {
            Some(line) if !line.address.is_empty() => line.address.as_str(),
            _ => UNKNOWN,
        }
    }

    /// All nodes, and how far each is.
    pub(crate) fn nodes(
        &self,
        alloc: Global,
        service: &Running,
    ) -> Result<Vec<NodeLine<'a>>, AllocError> {
        let mut nodes = Vec::new(alloc);
        for (number, node) in self.config.nodes.iter().enumerate() {
            nodes.push(NodeLine {
                name: node.name.as_str(),
                kind: kind_of(&node.kind),
                state: node_state(service, number),
            })?;
        }
        Ok(nodes)
    }

    /// All lines, and how far each is.
    pub(crate) fn lines(
        &self,
        alloc: Global,
        service: &Running,
    ) -> Result<Vec<NetLine<'a>>, AllocError> {
        let mut lines = Vec::new(alloc);
        for (number, line) in self.config.lines.iter().enumerate() {
            lines.push(NetLine {
                dte: line.dte.as_str(),
                dce: line.dce.as_str(),
                address: line.address.as_str(),
                state: self.line_state(service, number, line),
            })?;
        }
        Ok(lines)
    }

    /// How far a line is.
    fn line_state(&self, service: &Running, number: usize, line: &LineConfig) -> LineState {
        match (
            node_of(&self.config.nodes, line.dte.as_str()),
            node_of(&self.config.nodes, line.dce.as_str()),
        ) {
            (Some(dte), Some(dce)) => line_state(service, number, dte, dce),
            _ => LineState::Elsewhere,
        }
    }

    /// Whether the node of a name has started.
    pub(crate) fn runs(&self, service: &Running, name: &str) -> bool {
        match node_of(&self.config.nodes, name) {
            Some(node) => service.net().runs(node),
            None => false,
        }
    }

    /// All routes.
    fn routes(&self, alloc: Global) -> Result<Vec<Route<'a>>, AllocError> {
        let mut routes = Vec::new(alloc);
        for route in &self.config.routes {
            routes.push(Route {
                switch: route.switch.as_str(),
                prefix: route.prefix.as_str(),
                line: usize::from(route.line),
            })?;
        }
        Ok(routes)
    }

    /// The calls of these places, in words, with the lines that they pass over. A call of a terminal whose other end is
    /// here too is told by that end, if it is a host or is called.
    pub(crate) fn calls(
        &self,
        alloc: Global,
        service: &Running,
        lines: &[NetLine<'_>],
        calls: &[CallStatus],
    ) -> Result<Vec<CallLine<'a>>, AllocError> {
        let routes = self.routes(alloc)?;
        let mut told = Vec::new(alloc);
        for call in calls {
            let mut line = self.call(alloc, call)?;
            if self.is_told_there(service, call, &line) {
                continue;
            }
            line.over = way_of(alloc, lines, &routes, line.from.as_str(), line.to.as_str())?;
            told.push(line)?;
        }
        Ok(told)
    }

    /// Whether the other end of a call at a PAD tells of it.
    fn is_told_there(&self, service: &Running, call: &CallStatus, line: &CallLine<'_>) -> bool {
        if call.octets.is_some() {
            return false;
        }
        let far = if call.is_ours { &line.to } else { &line.from };
        match self.node_at(far.as_str()) {
            Some(node) => service.net().owns(node) && (call.is_ours || self.is_host(node)),
            None => false,
        }
    }

    /// The number of the node whose line an address names.
    fn node_at(&self, address: &str) -> Option<usize> {
        let line = self.config.lines.iter().find(|line| {
            !line.address.is_empty() && address.starts_with(line.address.as_str())
        })?;
        node_of(&self.config.nodes, line.dte.as_str())
    }

    fn is_host(&self, node: usize) -> bool {
        match self.config.nodes.get(node) {
            Some(node) => matches!(node.kind, NodeKind::Host),
            None => false,
        }
    }

    /// A call, in words.
    fn call(&self, alloc: Global, call: &CallStatus) -> Result<CallLine<'a>, AllocError> {
        let far = match &call.far {
            Some(far) => digits_text(alloc, far.digits())?,
            None => String::from_str(alloc, UNKNOWN)?,
        };
        let here = String::from_str(alloc, self.address(call.node))?;
        let (from, to) = if call.is_ours {
            (here, far)
        } else {
            (far, here)
        };
        Ok(CallLine {
            from,
            to,
            node: self.node(call.node),
            channel: call.channel,
            since: call.since,
            octets: octets_of(call.octets),
            over: Vec::new(alloc),
        })
    }
}

fn octets_of(octets: Option<service::CallOctets>) -> Option<CallOctets> {
    let service::CallOctets { taken, said } = octets?;
    Some(CallOctets { taken, said })
}

fn kind_of(kind: &NodeKind) -> status_texts::NodeKind {
    match kind {
        NodeKind::Pad(_) => status_texts::NodeKind::Pad,
        NodeKind::Host => status_texts::NodeKind::Host,
        NodeKind::Switch => status_texts::NodeKind::Switch,
    }
}

/// What happened to a call at a host or a PAD, as a line of the log.
pub(crate) fn call_text(
    alloc: Global,
    names: &Names<'_>,
    note: &NotedCall,
) -> Result<String, AllocError> {
    let at = place_text(alloc, names, note)?;
    match &note.change {
        CallChange::Incoming { from } => {
            let from = match from {
                Some(from) => digits_text(alloc, from.digits())?,
                None => String::from_str(alloc, UNKNOWN)?,
            };
            let to = names.address(note.node);
            format!(in alloc; "call from={from} to={to} {at}")
        }
        CallChange::Called { to } => {
            let from = names.address(note.node);
            let to = digits_text(alloc, to.digits())?;
            format!(in alloc; "call from={from} to={to} {at}")
        }
        CallChange::Connected => format!(in alloc; "connected {at}"),
        CallChange::Ended { cause, diagnostic } => {
            format!(in alloc; "cleared {at} cause={cause} diagnostic={diagnostic}")
        }
        CallChange::Cleared {
            cause,
            diagnostic,
            seconds,
            taken,
            said,
        } => format!(in alloc;
            "cleared {at} cause={cause} diagnostic={diagnostic} taken={taken} said={said} seconds={seconds}"
        ),
        CallChange::Reset { cause, diagnostic } => {
            format!(in alloc; "reset {at} cause={cause} diagnostic={diagnostic}")
        }
        CallChange::Dropped { octets } => format!(in alloc; "dropped {at} octets={octets}"),
    }
}

/// Where a call is: the node, the terminal if one has it, and the logical channel.
fn place_text(alloc: Global, names: &Names<'_>, note: &NotedCall) -> Result<String, AllocError> {
    let (node, channel) = (names.node(note.node), note.channel);
    match note.terminal {
        Some(terminal) => { format!(in alloc; "node={node} terminal={terminal} channel={channel}") }
        None => format!(in alloc; "node={node} channel={channel}"),
    }
}

/// The digits of an address as text.
fn digits_text(alloc: Global, digits: &[u8]) -> Result<String, AllocError> {
    let mut text = String::new(alloc);
    for digit in digits {
        write!(text, "{digit}")?;
    }
    Ok(text)
}
