//! The command words.
use clap::error::ErrorKind;
use clap::{Arg, ArgMatches, Command, Error, value_parser};
use std::alloc::{AllocError, Global};
use std::net::SocketAddr;

/// The version of the program.
pub(crate) const VERSION: &str = "0.1.0";

/// Where the terminals are, if no word says so.
const TERMINALS: &str = "127.0.0.1:7001";

/// Where the control port is, if no word says so.
pub(crate) const CONTROL: &str = "127.0.0.1:7999";

/// What is wrong with an address.
const NO_ADDRESS: &str = "an address is an IP address and a port, as 127.0.0.1:7001";

/// What is asked for.
#[derive(Clone, Copy)]
pub(crate) enum Asked<'a> {
    /// The service file of this name is to be checked.
    CheckService { file: &'a str },
    /// The network's file of this name is to be checked.
    CheckNetwork { file: &'a str },
    /// The built-in network is to be served, with its terminals at this address.
    Serve { listen: SocketAddr },
    /// What the service file of this name says is to be served.
    ServeFile { file: &'a str },
    /// What a running one does is to be told.
    Status,
    /// The port of this number is to be cleared.
    Clear { port: u16 },
    /// A running one is to stop.
    Stop,
}

/// What the words ask for, and where the control port is.
#[derive(Clone, Copy)]
pub(crate) struct Words<'a> {
    pub(crate) asked: Asked<'a>,
    pub(crate) control: SocketAddr,
}

/// Reads the words of a command line, without the program's name. An error has the text of help, of the version or of
/// what is wrong.
pub(crate) fn read_words<'a>(alloc: Global, words: &'a [String]) -> Result<Words<'a>, Error> {
    let mut program = program(alloc)?;
    let matches = program.try_get_matches_from_mut(words)?;
    match words_of(&matches) {
        Some(words) => Ok(words),
        None => Err(program.error(ErrorKind::ValueValidation, NO_ADDRESS)?),
    }
}

/// The words that the program takes.
fn program<'a>(alloc: Global) -> Result<Command<'a>, AllocError> {
    let program = add_clearing(alloc, options(alloc)?)?;
    add_serving(alloc, add_checking(alloc, program)?)?
        .subcommand(question(alloc, "status", "Tells what the running service does"))?
        .subcommand(question(alloc, "stop", "Stops the running service"))
}

/// The program with its options.
fn options<'a>(alloc: Global) -> Result<Command<'a>, AllocError> {
    let control = address(alloc, "control", CONTROL).global(true);
    Command::new(alloc, "x25d")
        .bin_name("x25d")?
        .no_binary_name(true)
        .version(VERSION)
        .about("An X.25 network that people can use: telnet to it and dial.")
        .arg(address(alloc, "listen", TERMINALS).help("Where the terminals are"))?
        .arg(control.help("Where the control port is"))
}

/// An option that has an address.
fn address<'a>(alloc: Global, name: &'a str, usual: &'a str) -> Arg<'a> {
    Arg::new(alloc, name)
        .long(name)
        .value_name("ADDRESS")
        .default_value(usual)
}

/// A word that asks something of a running service.
fn question<'a>(alloc: Global, name: &'a str, about: &'a str) -> Command<'a> {
    Command::new(alloc, name).about(about)
}

/// The command with the word that clears a port.
fn add_clearing<'a>(alloc: Global, command: Command<'a>) -> Result<Command<'a>, AllocError> {
    command.subcommand(clearing(alloc)?)
}

/// The word that clears a port.
fn clearing<'a>(alloc: Global) -> Result<Command<'a>, AllocError> {
    let port = Arg::new(alloc, "port")
        .value_name("NUMBER")
        .required(true)
        .value_parser(value_parser!(u16))
        .help("The port's number in the status");
    question(alloc, "clear", "Ends the port of this number").arg(port)
}

/// The command with the word that serves a file.
fn add_serving<'a>(alloc: Global, command: Command<'a>) -> Result<Command<'a>, AllocError> {
    command.subcommand(serving(alloc)?)
}

/// The word that serves a file.
fn serving<'a>(alloc: Global) -> Result<Command<'a>, AllocError> {
    let service = file(alloc, "service").help("A service file, with its network");
    question(alloc, "serve", "Serves what a file says").arg(service.required(true))
}

/// The command with the word that checks a file.
fn add_checking<'a>(alloc: Global, command: Command<'a>) -> Result<Command<'a>, AllocError> {
    command.subcommand(checking(alloc)?)
}

/// The word that checks a file.
fn checking<'a>(alloc: Global) -> Result<Command<'a>, AllocError> {
    let service = file(alloc, "service").help("A service file, with its network");
    let network = file(alloc, "network").help("The file of a network");
    question(alloc, "check", "Says what is wrong with a file")
        .arg(service.required_unless_present("network")?)?
        .arg(network.conflicts_with("service")?)
}

/// An option that has the name of a file.
fn file<'a>(alloc: Global, name: &'a str) -> Arg<'a> {
    Arg::new(alloc, name).long(name).value_name("FILE")
}

/// What the words were found to ask for; none if an address is none.
fn words_of<'a>(matches: &ArgMatches<'a>) -> Option<Words<'a>> {
    Some(Words {
        asked: asked_by(matches)?,
        control: matches.get_one("control")?,
    })
}

fn asked_by<'a>(matches: &ArgMatches<'a>) -> Option<Asked<'a>> {
    match matches.subcommand() {
        None => Some(Asked::Serve {
            listen: matches.get_one("listen")?,
        }),
        Some(("status", _)) => Some(Asked::Status),
        Some(("stop", _)) => Some(Asked::Stop),
        Some(("check", found)) => checked_by(found),
        Some(("serve", found)) => Some(Asked::ServeFile {
            file: found.get_str("service")?,
        }),
        Some((_, found)) => Some(Asked::Clear {
            port: found.get_one("port")?,
        }),
    }
}

/// Which file is to be checked.
fn checked_by<'a>(found: &ArgMatches<'a>) -> Option<Asked<'a>> {
    match found.get_str("service") {
        Some(file) => Some(Asked::CheckService { file }),
        None => Some(Asked::CheckNetwork {
            file: found.get_str("network")?,
        }),
    }
}
