//! An X.25 network of PADs, hosts and switches, driven by a script.
#![tactic(auto)]

use net_player::{perform, refuse_words};
use std::io::{BufWriter, Stderr};
use std::process::ExitCode;
use std::{env, io};

fn main(rt: HostRuntime) -> ExitCode {
    let mut err = rt.stderr();
    let status = match run(&rt, &mut err) {
        Ok(status) => status,
        Err(error) => refuse_words(&error, &mut err),
    };
    ExitCode::from(status)
}

/// Runs the program on its command words, and gives the status to end with.
fn run(rt: &HostRuntime, err: &mut Stderr) -> io::Result<u8> {
    let words = read_arguments(rt)?;
    run_on(rt, words.as_slice(), err)
}

/// Runs the program on these words. Its output is written as many whole lines at a time as the buffer has room for.
fn run_on(rt: &HostRuntime, words: &[String], err: &mut Stderr) -> io::Result<u8> {
    let mut out = BufWriter::new(rt.alloc(), io::writer(rt))?;
    Ok(perform(rt, rt.alloc(), words, &mut rt.reader(), &mut out, err))
}

/// The command words, without the program's name.
fn read_arguments(rt: &HostRuntime) -> io::Result<Vec<String>> {
    let mut words = Vec::new(rt.alloc());
    for word in env::args(rt)?.skip(1) {
        words.push(word)?;
    }
    Ok(words)
}
