//! How lines are told whose other ends are elsewhere, and what does not hold of them.
use crate::file::{End, LineTable, ServiceFile, UdpWay, Way, XotWay};
use crate::line_rules::{BrokenLine, LineRule};
use net_config::Config;
use std::alloc::AllocError;
use std::fmt::Write;

/// Tells which rule does not hold, and of which table.
pub(crate) fn tell_broken_line(
    out: &mut String,
    config: &Config,
    file: &ServiceFile<'_>,
    broken: BrokenLine,
) -> Result<(), AllocError> {
    match broken {
        BrokenLine::Line(place, rule) => match file.lines.get(place) {
            Some(table) => {
                write!(out, "line {place}: ")?;
                tell_rule(out, config, table, rule)
            }
            None => Ok(()),
        },
        BrokenLine::PadElsewhere(place) => match file.terminals.get(place) {
            Some(table) => tell_elsewhere(out, "terminals", place, "pad", table.pad),
            None => Ok(()),
        },
        BrokenLine::ServiceElsewhere(place) => match file.services.get(place) {
            Some(table) => tell_elsewhere(out, "service", place, "host", table.host),
            None => Ok(()),
        },
        BrokenLine::CallerElsewhere(place) => match file.callers.get(place) {
            Some(table) => tell_elsewhere(out, "caller", place, "host", table.host),
            None => Ok(()),
        },
    }
}

fn tell_elsewhere(
    out: &mut String,
    table: &str,
    place: usize,
    key: &str,
    name: &str,
) -> Result<(), AllocError> {
    write!(
        out,
        "{table} {place}: {key} = \"{name}\" is elsewhere, behind a line of [[line]]"
    )
}

fn tell_rule(
    out: &mut String,
    config: &Config,
    table: &LineTable,
    rule: LineRule,
) -> Result<(), AllocError> {
    let line = table.line;
    match rule {
        LineRule::LineIsThere => write!(
            out,
            "line = {line} is no line of the network, which has {}, counted from 0",
            config.lines.len()
        ),
        LineRule::LineOnce => write!(out, "line = {line} stands in another table too"),
        LineRule::NotStanding => write!(out, "line = {line} has a standing call"),
        LineRule::OtherEndElsewhere => write!(out, "line = {line} has both its ends here"),
        LineRule::DceHere => write!(
            out,
            "here = \"dte\" has to be \"dce\": equipment is the DTE of its line"
        ),
        LineRule::SwitchHere => tell_here(out, config, table),
        LineRule::EquipmentThere => tell_there(out, config, table),
        LineRule::ListenApart => tell_listen(out, table.way),
        LineRule::BindOnce => tell_bind(out, table.way),
        LineRule::AllowBeyond => write!(
            out,
            "its listen is beyond this machine, and allow has to say who may connect"
        ),
        LineRule::SilenceLong => write!(out, "silence = {} has to be 3 at least", table.silence),
    }
}

/// The names of the nodes at the ends of a line, that of the DTE first.
fn ends_of<'a>(config: &'a Config, table: &LineTable) -> (&'a str, &'a str) {
    match config.lines.get(usize::from(table.line)) {
        Some(line) => (line.dte.as_str(), line.dce.as_str()),
        None => ("", ""),
    }
}

fn name_of(end: End) -> &'static str {
    match end {
        End::Dte => "dte",
        End::Dce => "dce",
    }
}

fn tell_here(out: &mut String, config: &Config, table: &LineTable) -> Result<(), AllocError> {
    let (dte, dce) = ends_of(config, table);
    let (end, node) = match table.here {
        End::Dte => ("dte", dte),
        End::Dce => ("dce", dce),
    };
    write!(
        out,
        "here = \"{end}\" is '{node}', which is no switch: equipment is at a line of a switch"
    )
}

fn tell_there(out: &mut String, config: &Config, table: &LineTable) -> Result<(), AllocError> {
    let (line, (dte, dce)) = (table.line, ends_of(config, table));
    let node = match table.here {
        End::Dte => dce,
        End::Dce => dte,
    };
    match table.way {
        Way::Udp(_) => write!(
            out,
            "line = {line} leads to '{node}', which is neither a host nor a switch"
        ),
        _ => write!(out, "line = {line} leads to '{node}', which is no host"),
    }
}

fn tell_listen(out: &mut String, way: Way) -> Result<(), AllocError> {
    match way {
        Way::Xot(XotWay::Listen(listen) | XotWay::Both { listen, .. }) => write!(
            out,
            "listen = \"{listen}\" stands in another table too, or is control"
        ),
        _ => write!(
            out,
            "its listen stands in a table of another kind too, or is control"
        ),
    }
}

fn tell_bind(out: &mut String, way: Way) -> Result<(), AllocError> {
    match way {
        Way::Udp(UdpWay { bind, .. }) => {
            write!(out, "bind = \"{bind}\" stands in another table too")
        }
        _ => Ok(()),
    }
}

/// Tells how the other end of a line is reached.
pub(crate) fn tell_line(
    out: &mut String,
    config: &Config,
    table: &LineTable,
) -> Result<(), AllocError> {
    let (dte, dce) = ends_of(config, table);
    let (line, end) = (table.line, name_of(table.here));
    write!(out, "line {line} {dte} {dce}: {end} here, ")?;
    match table.way {
        Way::Listen(at) => write!(out, "listen {at}\n"),
        Way::Connect(at) => write!(out, "connect {at}\n"),
        Way::Xot(XotWay::Listen(at)) => write!(out, "xot, listen {at}\n"),
        Way::Xot(XotWay::Connect(at)) => write!(out, "xot, connect {at}\n"),
        Way::Xot(XotWay::Both { listen, connect }) => {
            write!(out, "xot, listen {listen}, connect {connect}\n")
        }
        Way::Udp(UdpWay { bind, partner }) => {
            write!(out, "udp, bind {bind}, partner {partner}\n")
        }
    }
}
