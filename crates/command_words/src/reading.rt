//! Reading of the command words.
ghost use Rattle.std.specs.Prelude.{◌≡◌, [], map, false, Ok, Err, None, Option, string_bytes, IfOk, MatchOption};
ghost use Rattle.clap.specs.declared.builder.command.Command.{out-Command};
ghost use Rattle.clap.specs.Words.{app_of, rule_of, subcommand_rows_of, with_subcommand};
ghost use Rattle.command_words.specs.Invocations.{Asks, Found, file_option, played, program};
ghost use Rattle.command_words.specs.declared.invocation.Invocation.{Invocation};

use crate::invocation::{Invocation, RunMode, WordsFault};
use clap::error::ErrorKind;
use clap::{Arg, ArgMatches, Command, Error};
use std::alloc::{AllocError, Global};

/// Reads the words of a command line, without the program's name: none for the built-in network with the script on
/// standard input, or `sim` or `run` with `--net FILE` and `--script FILE`, in either order.
///
/// `BadWords` if the words are anything else, a call for help among them; `OutOfMemory` if no memory was left.
pub fn read_words<'a>(
    alloc: Global,
    words: &'a [String],
) -> Result<Option<Invocation<'a>>, WordsFault>
    ensures none { words.entry.now ≡ [] → result ≡ Ok None }
    ensures asks { IfOk result (Asks (map (λ word. string_bytes word) words.entry.now)) }
    ensures bad { result ≡ Err WordsFault.BadWords
        → (asked : Option Invocation) → ¬ Asks (map (λ word. string_bytes word) words.entry.now) asked }
{
    if words.is_empty() {
        return Ok(None);
    }
    let matches = program(alloc)?.try_get_matches_from(words)?;
    match invocation_of(&matches) {
        Some(invocation) => Ok(Some(invocation)),
        None => Err(WordsFault::BadWords),
    }
}

/// The words that the program takes.
fn program<'a>(alloc: Global) -> Result<Command<'a>, AllocError>
    ensures { IfOk result (λ command. app_of command ≡ program) }
{
    let nameless = Command::new(alloc, "x25net").no_binary_name(true);
    add_mode(alloc, add_mode(alloc, nameless, "sim")?, "run")
}

/// The command with one mode more, which has its two files.
fn add_mode<'a>(
    alloc: Global,
    command: Command<'a>,
    name: &'a str,
) -> Result<Command<'a>, AllocError>
    ensures { IfOk result
        (λ with_mode. app_of with_mode ≡ with_subcommand (app_of command.entry) (played name.entry.now).top) }
{
    command.subcommand(mode(alloc, name)?)
}

/// A mode, which has its two files.
fn mode<'a>(alloc: Global, name: &'a str) -> Result<Command<'a>, AllocError>
    ensures app { IfOk result (λ mode. app_of mode ≡ played name.entry.now) }
    ensures local { IfOk result (λ mode. (out-Command mode).has_globals ≡ false) }
{
    Command::new(alloc, name)
        .arg(file_option(alloc, "net"))?
        .arg(file_option(alloc, "script"))
}

/// An option that has to be given, with the name of a file.
fn file_option<'a>(alloc: Global, name: &'a str) -> Arg<'a>
    ensures rule { rule_of result ≡ file_option name.entry.now }
    ensures local { result.global ≡ false }
{
    Arg::new(alloc, name).long(name).required(true)
}

/// What the words were found to ask for.
fn invocation_of<'a>(matches: &ArgMatches<'a>) -> Option<Invocation<'a>>
    ensures { MatchOption result ((invocation : Invocation) → ¬ Found (subcommand_rows_of matches.now) invocation)
        (Found (subcommand_rows_of matches.now)) }
{
    let (word, found) = matches.subcommand()?;
    let mode = match word {
        "sim" => RunMode::Sim,
        "run" => RunMode::Run,
        _ => return None,
    };
    Some(Invocation {
        mode,
        net: found.get_str("net")?,
        script: found.get_str("script")?,
    })
}
