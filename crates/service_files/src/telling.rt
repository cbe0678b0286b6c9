//! How a rule that does not hold, and what fits, are told.
use crate::file::{
    BuiltInName, CallerTable, HostService, ServiceFile, ServiceTable, TerminalsTable,
};
use crate::line_telling::tell_line;
use crate::rules::{BrokenBinding, CallerRule, ServiceRule, TerminalsRule, last_of, terminals_in};
use net_config::Config;
use network_reasons::ask_for_node;
use std::alloc::{AllocError, Global};
use std::fmt::Write;
use std::net::SocketAddr;

/// Tells which rule does not hold, and of which table.
pub(crate) fn tell_broken(
    alloc: Global,
    out: &mut String,
    config: &Config,
    file: &ServiceFile<'_>,
    broken: BrokenBinding,
) -> Result<(), AllocError> {
    match broken {
        BrokenBinding::Terminals(place, rule) => match file.terminals.get(place) {
            Some(table) => {
                write!(out, "terminals {place}: ")?;
                tell_terminals(alloc, out, config, table, rule)
            }
            None => Ok(()),
        },
        BrokenBinding::Service(place, rule) => match file.services.get(place) {
            Some(table) => {
                write!(out, "service {place}: ")?;
                tell_service(alloc, out, config, table, rule)
            }
            None => Ok(()),
        },
        BrokenBinding::Caller(place, rule) => match file.callers.get(place) {
            Some(table) => {
                write!(out, "caller {place}: ")?;
                tell_caller(alloc, out, config, table, rule)
            }
            None => Ok(()),
        },
        BrokenBinding::ControlBeyond => {
            out.push_str("control has to be an address of this machine alone, as 127.0.0.1:7999")
        }
    }
}

fn tell_terminals(
    alloc: Global,
    out: &mut String,
    config: &Config,
    table: &TerminalsTable<'_>,
    rule: TerminalsRule,
) -> Result<(), AllocError> {
    let pad = table.pad;
    match rule {
        TerminalsRule::PadIsNode => {
            write!(out, "pad = \"{pad}\" is no node")?;
            ask_for_node(alloc, out, config, pad)
        }
        TerminalsRule::PadIsPad => write!(out, "pad = \"{pad}\" is no PAD"),
        TerminalsRule::FirstIsThere => tell_first(out, config, table),
        TerminalsRule::LastIsThere => tell_last(out, config, table),
        TerminalsRule::Apart => write!(out, "a terminal of '{pad}' stands in another table too"),
        TerminalsRule::ListenOnce => tell_listen_twice(out, table.listen),
        TerminalsRule::GreetingAtTelnet => out.push_str(
            "a greeting is for mode = \"telnet\" alone",
        ),
        TerminalsRule::AllowBeyond => tell_beyond(out, table.listen),
    }
}

fn tell_listen_twice(out: &mut String, listen: SocketAddr) -> Result<(), AllocError> {
    write!(
        out,
        "listen = \"{listen}\" stands in another table too, or is control"
    )
}

fn tell_beyond(out: &mut String, listen: SocketAddr) -> Result<(), AllocError> {
    write!(
        out,
        "listen = \"{listen}\" is beyond this machine, and allow has to say who may connect"
    )
}

fn tell_first(
    out: &mut String,
    config: &Config,
    table: &TerminalsTable<'_>,
) -> Result<(), AllocError> {
    let count = terminals_in(&config.nodes, table.pad);
    write!(
        out,
        "first = {} is no terminal of '{}', which has {count}, counted from 0",
        table.first, table.pad
    )
}

fn tell_last(
    out: &mut String,
    config: &Config,
    table: &TerminalsTable<'_>,
) -> Result<(), AllocError> {
    let count = terminals_in(&config.nodes, table.pad);
    write!(
        out,
        "last = {} is no terminal of '{}' from first = {} on; it has {count}, counted from 0",
        last_of(config, table),
        table.pad,
        table.first
    )
}

fn tell_service(
    alloc: Global,
    out: &mut String,
    config: &Config,
    table: &ServiceTable<'_>,
    rule: ServiceRule,
) -> Result<(), AllocError> {
    let host = table.host;
    match rule {
        ServiceRule::HostIsNode => tell_no_node(alloc, out, config, host),
        ServiceRule::HostIsHost => tell_no_host(out, host),
        ServiceRule::HostOnce => write!(out, "'{host}' has another service too"),
    }
}

fn tell_caller(
    alloc: Global,
    out: &mut String,
    config: &Config,
    table: &CallerTable<'_>,
    rule: CallerRule,
) -> Result<(), AllocError> {
    match rule {
        CallerRule::HostIsNode => tell_no_node(alloc, out, config, table.host),
        CallerRule::HostIsHost => tell_no_host(out, table.host),
        CallerRule::ListenOnce => tell_listen_twice(out, table.listen),
        CallerRule::AllowBeyond => tell_beyond(out, table.listen),
    }
}

fn tell_no_node(
    alloc: Global,
    out: &mut String,
    config: &Config,
    host: &str,
) -> Result<(), AllocError> {
    write!(out, "host = \"{host}\" is no node")?;
    ask_for_node(alloc, out, config, host)
}

fn tell_no_host(out: &mut String, host: &str) -> Result<(), AllocError> {
    write!(out, "host = \"{host}\" is no host")
}

/// Tells what a file that fits its network binds, a line each, of which the last one has no end.
pub(crate) fn tell_bindings(
    out: &mut String,
    config: &Config,
    file: &ServiceFile<'_>,
) -> Result<(), AllocError> {
    for table in &file.terminals {
        let (first, last) = (table.first, last_of(config, table));
        write!(
            out,
            "terminals {first} to {last} of {} at {}\n",
            table.pad, table.listen
        )?;
    }
    for table in &file.services {
        write!(out, "host {}: ", table.host)?;
        tell_host_service(out, table.service)?;
    }
    for table in &file.callers {
        write!(
            out,
            "calls of {} from host {} at {}\n",
            table.call, table.host, table.listen
        )?;
    }
    for table in &file.lines {
        tell_line(out, config, table)?;
    }
    if let Some(web) = file.web {
        write!(out, "page at {web}\n")?;
    }
    if let Some(control) = file.control {
        write!(out, "control at {control}\n")?;
    }
    if let Some(capture) = file.capture {
        let (name, files, size) = (capture.file, capture.files, capture.size);
        write!(out, "capture in {name}, {files} files of {size} MiB\n")?;
    }
    write!(out, "at most {} connections", file.connections)
}

fn tell_host_service(out: &mut String, service: HostService) -> Result<(), AllocError> {
    match service {
        HostService::BuiltIn(builtin) => write!(out, "builtin {}\n", name_of(builtin)),
        HostService::Connect(connect) => write!(out, "connect {}\n", connect.at),
    }
}

fn name_of(builtin: BuiltInName) -> &'static str {
    match builtin {
        BuiltInName::Echo => "echo",
        BuiltInName::Time => "time",
        BuiltInName::Discard => "discard",
    }
}
