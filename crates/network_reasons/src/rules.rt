//! How a rule that does not hold is told.
use file_tables::did_you_mean;
use net_config::{
    BrokenRule, Config, LineConfig, LineRule, NodeConfig, NodeKind, NodeRule, RouteConfig,
    RouteRule,
};
use std::alloc::{AllocError, Global};
use std::fmt::Write;

/// Tells which rule of networks does not hold, and of which node, line or route.
pub(crate) fn tell_rule(
    alloc: Global,
    out: &mut String,
    config: &Config,
    broken: BrokenRule,
) -> Result<(), AllocError> {
    match broken {
        BrokenRule::Node(place, rule) => match config.nodes.get(place) {
            Some(node) => tell_node(out, place, node, rule),
            None => Ok(()),
        },
        BrokenRule::Line(place, rule) => match config.lines.get(place) {
            Some(line) => {
                write!(out, "line {place}: ")?;
                tell_line(alloc, out, config, line, rule)
            }
            None => Ok(()),
        },
        BrokenRule::Route(place, rule) => match config.routes.get(place) {
            Some(route) => {
                write!(out, "route {place}: ")?;
                tell_route(alloc, out, config, route, rule)
            }
            None => Ok(()),
        },
        BrokenRule::FewSwitches => out.push_str("more than 16 nodes are switches"),
    }
}

fn tell_node(
    out: &mut String,
    place: usize,
    node: &NodeConfig,
    rule: NodeRule,
) -> Result<(), AllocError> {
    write!(out, "node {place} ({}): ", node.name)?;
    out.push_str(match (rule, &node.kind) {
        (NodeRule::NameOnce, _) => "its name is another node's too",
        (NodeRule::AtALine, _) => "it is at no line",
        (NodeRule::AtFewLines, NodeKind::Switch) => "it is at more than 64 lines",
        (NodeRule::AtFewLines, _) => "it is at more than one line, as only a switch may be",
        (NodeRule::Terminals, _) => "terminals has to be 1 to 16",
        (NodeRule::Speed, _) => "speed has to be 0 to 255",
        (NodeRule::Settings, _) => {
            "set has a parameter that is not there or cannot have its value (parameter 11 is set by speed)"
        }
        (NodeRule::FewRoutes, _) => "it has more than 256 routes",
    })
}

fn tell_line(
    alloc: Global,
    out: &mut String,
    config: &Config,
    line: &LineConfig,
    rule: LineRule,
) -> Result<(), AllocError> {
    match rule {
        LineRule::DteIsNode => {
            write!(out, "dte = \"{}\" is no node", line.dte)?;
            ask_for_node(alloc, out, config, &line.dte)
        }
        LineRule::DceIsNode => {
            write!(out, "dce = \"{}\" is no node", line.dce)?;
            ask_for_node(alloc, out, config, &line.dce)
        }
        LineRule::TwoNodes => out.push_str("both ends are one node"),
        LineRule::DceNoPad => write!(
            out,
            "'{}' is a PAD, which is the DTE of its line: exchange dte and dce",
            line.dce
        ),
        LineRule::TrunkToSwitch => out.push_str(
            "a switch is the DCE of a line to a PAD or a host: exchange dte and dce",
        ),
        LineRule::TrunkBack => {
            out.push_str(
                "the DCE of a trunk is the switch that comes earlier in the text: exchange dte and dce",
            )
        }
        LineRule::DteOnce => write!(
            out,
            "'{}' is the DTE of another line too, and may be that of one alone",
            line.dte
        ),
        LineRule::Address => write!(
            out,
            "a line to a switch has an address, which is that of '{}'",
            line.dte
        ),
        LineRule::NoAddress => out.push_str("a trunk, or a line without a switch, has no address"),
        LineRule::StandsAlone => {
            out.push_str("a standing line is the only line of its network, from a PAD to a host")
        }
        _ => tell_number(out, line, rule),
    }
}

fn tell_number(out: &mut String, line: &LineConfig, rule: LineRule) -> Result<(), AllocError> {
    match rule {
        LineRule::Channels => write!(out, "channels = {} has to be 1 to 32", line.channels),
        LineRule::Numbered => write!(
            out,
            "window = {} and modulo = {} have to be 1 to 7 and 8, or 1 to 32 and 128",
            line.window, line.modulo
        ),
        LineRule::Sized => write!(out, "size = {} has to be 128, 256, 512 or 1024", line.size),
        LineRule::SizeAtPad => write!(out, "size = {} has to be 128 at a PAD", line.size),
        LineRule::K => write!(out, "k = {} has to be 1 to 7", line.k),
        _ => write!(out, "n2 = {} has to be 1 to 20", line.n2),
    }
}

fn tell_route(
    alloc: Global,
    out: &mut String,
    config: &Config,
    route: &RouteConfig,
    rule: RouteRule,
) -> Result<(), AllocError> {
    match rule {
        RouteRule::OfASwitch => {
            write!(out, "switch = \"{}\" is no switch", route.switch)?;
            ask_for_node(alloc, out, config, &route.switch)
        }
        RouteRule::Prefix => write!(
            out,
            "prefix = \"{}\" has to be 1 to 15 digits",
            route.prefix
        ),
        RouteRule::ToOwnLine => write!(
            out,
            "line = {} is no line of '{}'",
            route.line, route.switch
        ),
        RouteRule::PrefixOnce => write!(
            out,
            "'{}' has another route for {}",
            route.switch, route.prefix
        ),
    }
}

/// Asks for the node whose name is most like this one.
pub fn ask_for_node(
    alloc: Global,
    out: &mut String,
    config: &Config,
    name: &str,
) -> Result<(), AllocError> {
    let mut names = Vec::new(alloc);
    for node in &config.nodes {
        names.push(node.name.as_str())?;
    }
    did_you_mean(alloc, out, name, names.as_slice())
}
