//! Scripts: a text of one command a line, read for a network.
ghost use Rattle.std.specs.Prelude.{IfOk, IfErr, map, option_map};
ghost use Rattle.net_files.specs.Values.{request_value, event_value, command_value};
ghost use Rattle.net_files.specs.Values.{EventValue as event};
ghost use Rattle.net_files.specs.Reading.{keys_of, at_terminal_of, call_of, take_of, directed_of, timer_of, expiry_of};
ghost use Rattle.net_files.specs.Reading.{switch_of, say_of, request_of, ask_of, event_of, command_of, commands_of};
ghost use Rattle.net_files.specs.Reading.{added, added_one, command_from};
ghost use Rattle.net_files.specs.Words.{next_word, named, number_at, node_at, last};
ghost use Rattle.net_files.specs.Answers.{Gives, GivesOrWants, left_of};
ghost use Rattle.net_files.specs.Scripts.{AreRead, IsScript, IsScriptFault, lines_of};

use crate::commands::Commands;
use crate::fault::ProgFault;
use crate::keywords::{
    CommandWord, EventWord, RequestWord, direction_of, flags_of, lone_timer, numbered_timer,
    switch_of,
};
use crate::names::Names;
use crate::words::{LineFault, Words, cut, read_text};
use arrayvec::ArrayVec;
use frame_lines::Direction;
use link_timers::TimerId;
use net_config::Config;
use net_events::Event;
use packet_host::HostRequest;
use std::alloc::Global;
use user_nodes::TerminalEvent;

/// A script, read for a network: the names of the network's nodes, how many lines it has, and the commands.
#[derive(Drop)]
pub struct Script {
    pub names: Vec<String>,
    pub lines: usize,
    pub commands: Commands,
}

/// Reads a script for a network: a command a line, of words with one space between them. Empty lines are skipped.
///
/// `OutOfMemory` comes for want of memory. `Script` has the number of the first line that is no command, counted from
/// 1. What a number means, as of a terminal or a channel, is tested when the event comes. A line is no command if one
/// of these holds:
///
/// - The word is unknown, or words are missing or too many.
/// - No node has the name.
/// - A number is not 0 to 65,535.
/// - An address is not 1 to 15 digits.
/// - A text has a backslash that begins no octet.
/// - The user data of a call has more than 16 octets.
pub fn read_script(alloc: Global, text: &[u8], config: &Config) -> Result<Script, ProgFault>
    ensures script { IfOk result (IsScript config.now text.now) }
    ensures fault { IfErr result (IsScriptFault config.now text.now) }
{
    let names = Names::of(alloc, config)?;
    let commands = read_lines(alloc, text, &names)?;
    Ok(Script {
        names: names.into_list(),
        lines: config.lines.len(),
        commands,
    })
}

/// The commands of the lines of a text.
fn read_lines(alloc: Global, text: &[u8], names: &Names<'_>) -> Result<Commands, ProgFault>
    ensures { AreRead names.now (lines_of text.now) result }
{
    let mut commands = Commands::new(alloc);
    let mut rest = Some(text);
    let mut number = 0usize;
    while let Some(lines) = rest {
        let (line, others) = cut(lines, b'\n');
        number += 1;
        match add_command(alloc, line, names, &mut commands) {
            Ok(()) => rest = others,
            Err(LineFault::NotACommand) => return Err(ProgFault::Script(number)),
            Err(LineFault::OutOfMemory) => return Err(ProgFault::OutOfMemory),
        }
    }
    Ok(commands)
}

/// Adds the command of a line to others, or none where the line is empty.
#[tactic(auto, using(crate::proofs::ScriptLines::added_line))]
fn add_command(
    alloc: Global,
    line: &[u8],
    names: &Names<'_>,
    commands: &mut Commands,
) -> Result<(), LineFault>
    ensures { GivesOrWants (λ _. map command_value commands.new) result
        (added (map command_value commands.old) (commands_of names.now line.now)) }
{
    if line.is_empty() {
        return Ok(());
    }
    add_line(alloc, line, names, commands)
}

/// Adds the command of a line that is not empty to others.
fn add_line(
    alloc: Global,
    line: &[u8],
    names: &Names<'_>,
    commands: &mut Commands,
) -> Result<(), LineFault>
    ensures { GivesOrWants (λ _. map command_value commands.new) result
        (added_one (map command_value commands.old) (command_of names.now line.now)) }
{
    let mut words = Words::new(line);
    let word = words.command_word()?;
    add_from(alloc, word, words, names, commands)
}

/// Adds the command of a line, behind its first word, to others.
fn add_from(
    alloc: Global,
    word: CommandWord,
    words: Words<'_>,
    names: &Names<'_>,
    commands: &mut Commands,
) -> Result<(), LineFault>
    ensures { GivesOrWants (λ _. map command_value commands.new) result
        (added_one (map command_value commands.old)
        (command_from names.now word (left_of words.entry))) }
{
    match word {
        CommandWord::Key => add_keys(words, names, commands),
        CommandWord::Flow => {
            words.end()?;
            Ok(commands.add_flow()?)
        }
        CommandWord::Tick => {
            let ticks = read_tick(words)?;
            Ok(commands.add_tick(ticks)?)
        }
        CommandWord::Trace => {
            let traces = read_trace(words)?;
            Ok(commands.add_trace(traces)?)
        }
        CommandWord::Check => {
            words.end()?;
            Ok(commands.add_check()?)
        }
        CommandWord::Event(word) => {
            let event = read_event(alloc, word, words, names)?;
            Ok(commands.add_event(event)?)
        }
    }
}

/// `key NODE TERM TEXT`: a key for each octet of the text.
fn add_keys(words: Words<'_>, names: &Names<'_>, commands: &mut Commands) -> Result<(), LineFault>
    ensures { GivesOrWants (λ _. map command_value commands.new) result
        (added_one (map command_value commands.old) (keys_of names.now (left_of words.entry))) }
{
    let mut words = words;
    let node = words.node(names)?;
    let terminal = words.number()?;
    commands.add_keys(node, terminal, words.text())
}

/// `tick N`: how many.
fn read_tick(words: Words<'_>) -> Result<u16, LineFault>
    ensures { Gives (λ ticks. ticks) result (last (number_at (left_of words.entry))) }
{
    let mut words = words;
    let ticks = words.number()?;
    words.end()?;
    Ok(ticks)
}

/// `trace on` or `trace off`: which.
fn read_trace(words: Words<'_>) -> Result<bool, LineFault>
    ensures { Gives (λ traces. traces) result (last (named switch_of (next_word (left_of words.entry)))) }
{
    let mut words = words;
    let word = words.next_word()?;
    let Some(traces) = switch_of(word) else {
        return Err(LineFault::NotACommand);
    };
    words.end()?;
    Ok(traces)
}

/// What follows the name of an event.
fn read_event(
    alloc: Global,
    word: EventWord,
    words: Words<'_>,
    names: &Names<'_>,
) -> Result<Event, LineFault>
    ensures { GivesOrWants event_value result (event_of names.now word (left_of words.entry)) }
{
    match word {
        EventWord::Break => read_at_terminal(words, names, TerminalEvent::Break),
        EventWord::Idle => read_at_terminal(words, names, TerminalEvent::Idle),
        EventWord::Print => read_at_terminal(words, names, TerminalEvent::Print),
        EventWord::Call => read_call(alloc, words, names),
        EventWord::Take => read_take(words, names),
        EventWord::Deliver => {
            let (line, direction) = read_direction(words)?;
            Ok(Event::Deliver { line, direction })
        }
        EventWord::Lose => {
            let (line, direction) = read_direction(words)?;
            Ok(Event::Lose { line, direction })
        }
        EventWord::Expire => read_expiry(words, names),
        EventWord::Relink => read_relink(words),
        EventWord::Restart => read_restart(words, names),
        EventWord::Ask(word) => read_ask(alloc, word, words, names),
    }
}

/// `NODE TERM`, and what happens there.
fn read_at_terminal(
    words: Words<'_>,
    names: &Names<'_>,
    event: TerminalEvent,
) -> Result<Event, LineFault>
    ensures { Gives event_value result (at_terminal_of names.now event (left_of words.entry)) }
{
    let mut words = words;
    let node = words.node(names)?;
    let terminal = words.number()?;
    words.end()?;
    Ok(Event::AtTerminal {
        node,
        terminal,
        event,
    })
}

/// `call NODE ADDRESS TEXT`, where the text is the user data.
fn read_call(alloc: Global, words: Words<'_>, names: &Names<'_>) -> Result<Event, LineFault>
    ensures { GivesOrWants event_value result (call_of names.now (left_of words.entry)) }
{
    let mut words = words;
    let node = words.node(names)?;
    let address = words.address()?;
    let text = read_text(alloc, words.text())?;
    match ArrayVec::try_from(text.as_slice()) {
        Ok(user_data) => Ok(Event::Call {
            node,
            address,
            user_data,
        }),
        Err(_) => Err(LineFault::NotACommand),
    }
}

/// `take NODE CH`.
fn read_take(words: Words<'_>, names: &Names<'_>) -> Result<Event, LineFault>
    ensures { Gives event_value result (take_of names.now (left_of words.entry)) }
{
    let mut words = words;
    let node = words.node(names)?;
    let channel = words.number()?;
    words.end()?;
    Ok(Event::Take { node, channel })
}

/// `LINE >` or `LINE <`, at the end.
fn read_direction(words: Words<'_>) -> Result<(usize, Direction), LineFault>
    ensures { Gives (λ read. read) result (directed_of (left_of words.entry)) }
{
    let mut words = words;
    let line = usize::from(words.number()?);
    let word = words.next_word()?;
    let Some(direction) = direction_of(word) else {
        return Err(LineFault::NotACommand);
    };
    words.end()?;
    Ok((line, direction))
}

/// `expire NODE LINE`, and a timer.
fn read_expiry(words: Words<'_>, names: &Names<'_>) -> Result<Event, LineFault>
    ensures { Gives event_value result (expiry_of names.now (left_of words.entry)) }
{
    let mut words = words;
    let node = words.node(names)?;
    let line = usize::from(words.number()?);
    let timer = read_timer(words)?;
    Ok(Event::Expire { node, line, timer })
}

/// `T1`, `T10` or `T20`, another timer of the packet layer and its channel, or `Idle` and a terminal, at the end.
fn read_timer(words: Words<'_>) -> Result<TimerId, LineFault>
    ensures { Gives (λ timer. timer) result (timer_of (left_of words.entry)) }
{
    let mut words = words;
    let word = words.next_word()?;
    if let Some(timer) = lone_timer(word) {
        words.end()?;
        return Ok(timer);
    }
    let number = words.timer_number()?;
    words.end()?;
    numbered_timer(word, number).ok_or(LineFault::NotACommand)
}

/// `relink LINE`.
fn read_relink(words: Words<'_>) -> Result<Event, LineFault>
    ensures { Gives event_value result (option_map event.Relink (last (number_at (left_of words.entry)))) }
{
    let mut words = words;
    let line = usize::from(words.number()?);
    words.end()?;
    Ok(Event::Relink { line })
}

/// `restart NODE`.
fn read_restart(words: Words<'_>, names: &Names<'_>) -> Result<Event, LineFault>
    ensures { Gives event_value result
        (option_map event.Restart (last (node_at names.now (left_of words.entry)))) }
{
    let mut words = words;
    let node = words.node(names)?;
    words.end()?;
    Ok(Event::Restart { node })
}

/// `NODE CH`, and what is asked of the call there.
fn read_ask(
    alloc: Global,
    word: RequestWord,
    words: Words<'_>,
    names: &Names<'_>,
) -> Result<Event, LineFault>
    ensures { GivesOrWants event_value result (ask_of names.now word (left_of words.entry)) }
{
    let mut words = words;
    let node = words.node(names)?;
    let channel = words.number()?;
    let request = read_request(alloc, word, words)?;
    Ok(Event::Ask {
        node,
        channel,
        request,
    })
}

/// What the word asks, with what it takes to be said.
fn read_request(
    alloc: Global,
    word: RequestWord,
    words: Words<'_>,
) -> Result<HostRequest, LineFault>
    ensures { GivesOrWants request_value result (request_of word (left_of words.entry)) }
{
    let request = match word {
        RequestWord::Say => return read_say(alloc, words),
        RequestWord::Interrupt => return read_interrupt(alloc, words),
        RequestWord::Answer => HostRequest::Answer,
        RequestWord::Refuse => HostRequest::Refuse,
        RequestWord::Reset => HostRequest::Reset,
        RequestWord::Clear => HostRequest::Clear,
        RequestWord::Stop => HostRequest::Stop,
        RequestWord::Go => HostRequest::Go,
    };
    words.end()?;
    Ok(request)
}

/// `FLAGS TEXT` behind `say NODE CH`.
fn read_say(alloc: Global, words: Words<'_>) -> Result<HostRequest, LineFault>
    ensures { GivesOrWants request_value result (say_of (left_of words.entry)) }
{
    let mut words = words;
    let word = words.next_word()?;
    let Some((qualified, delivery)) = flags_of(word) else {
        return Err(LineFault::NotACommand);
    };
    let octets = read_text(alloc, words.text())?;
    Ok(HostRequest::Say {
        octets,
        qualified,
        delivery,
    })
}

/// `TEXT` behind `int NODE CH`.
fn read_interrupt(alloc: Global, words: Words<'_>) -> Result<HostRequest, LineFault>
    ensures { GivesOrWants request_value result (request_of RequestWord.Interrupt (left_of words.entry)) }
{
    let octets = read_text(alloc, words.text())?;
    Ok(HostRequest::Interrupt { octets })
}
