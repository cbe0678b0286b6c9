//! An X.25 network that people can use: telnet to it and dial.
#![tactic(auto)]

mod admitting;
mod asking;
mod bindings;
mod bridging;
mod call_wires;
mod captures;
mod checking;
mod clock;
mod connecting;
mod context;
mod controls;
mod datagram_line;
mod equipment;
mod far_end;
mod faults;
mod files;
mod first_lines;
mod gateway_line;
mod lines;
mod log;
mod names;
mod network;
mod places;
mod pumps;
mod questions;
mod serving;
mod shares;
mod shell;
mod sockets;
mod states;
mod status;
mod visits;
mod web;
mod wires;
mod words;

use faults::Fault;
use std::process::ExitCode;
use std::{env, io};
use words::{Asked, Words};

fn main(rt: HostRuntime) -> ExitCode {
    match run(&rt) {
        Ok(status) => ExitCode::from(status),
        Err(error) => {
            let _ = eprintln!(rt; "x25d: {error}");
            ExitCode::from(1)
        }
    }
}

/// Runs the program on its command words, and gives the status to end with.
fn run(rt: &HostRuntime) -> io::Result<u8> {
    let words = arguments(rt)?;
    match words::read_words(rt.alloc(), words.as_slice()) {
        Ok(words) => Ok(status_of(rt, obey(rt, &words))),
        Err(error) => {
            error.print(rt)?;
            Ok(if error.use_stderr() { 2 } else { 0 })
        }
    }
}

/// Does what the words ask for, and says whether nothing is wrong.
fn obey(rt: &HostRuntime, words: &Words<'_>) -> Result<bool, Fault> {
    match words.asked {
        Asked::CheckService { file } => return checking::check_service(rt, file),
        Asked::CheckNetwork { file } => return checking::check_network(rt, file),
        Asked::ServeFile { file } => return serving::serve_file(rt, file),
        Asked::Serve { listen } => serving::serve_built_in(rt, listen, words.control)?,
        Asked::Status => asking::ask(rt, words.control, "status")?,
        Asked::Stop => asking::ask(rt, words.control, "stop")?,
        Asked::Clear { port } => asking::ask_to_clear(rt, words.control, port)?,
    }
    Ok(true)
}

/// The status to end with. A fault is told first.
fn status_of(rt: &HostRuntime, outcome: Result<bool, Fault>) -> u8 {
    match outcome {
        Ok(true) => 0,
        Ok(false) => 1,
        Err(fault) => {
            let _ = eprintln!(rt; "x25d: {fault}");
            1
        }
    }
}

/// The command words, without the program's name.
fn arguments(rt: &HostRuntime) -> io::Result<Vec<String>> {
    let mut words = Vec::new(rt.alloc());
    for word in env::args(rt)?.skip(1) {
        words.push(word)?;
    }
    Ok(words)
}
