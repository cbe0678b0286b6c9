//! What an event does at one node, on its line and in the register: the node is called, the network writes what was
//! asked and what the node noted, and the frames go onto the line.
ghost use Rattle.std.specs.Prelude.{◌≡◌, ◌≢◌, ◌≤◌, ◌<◌, [], None, Ok, Err, OnOk, IsOk, MatchResult, length, vec_capacity};
ghost use Rattle.std.specs.Result.{result_and};
ghost use Rattle.call_records.specs.Register.{HasNoRecords};
ghost use Rattle.call_records.specs.RegisterView.{register_of};
ghost use Rattle.user_nodes.specs.Node.{Host as HostNode, Pad as PadNode};
ghost use Rattle.user_nodes.specs.NodeView.{node_of};
ghost use Rattle.user_nodes.specs.Turn.{told};
ghost use Rattle.user_nodes.specs.Writing.{IsRoomFor};
ghost use Rattle.node_laws.specs.Quiet.{IsQuiet};
ghost use Rattle.net_events.specs.NodeEvents.{turn_of, AtTerminal as terminal_event};
ghost use Rattle.net_events.specs.OneLine.{direction_of};
ghost use Rattle.net_events.specs.EventView.{line_event_of, host_event_of, user_event_of};
ghost use Rattle.net_events.specs.declared.event.StepFault.TheVariants.{OutOfMemory};
ghost use Rattle.node_events.specs.AnswerRoom.{IsRoomy};
ghost use Rattle.node_events.specs.Outcomes.{IsOutcome};
ghost use Rattle.node_events.specs.Served.{IsCalled, Served, IsEmpty, IsReady};
ghost use Rattle.node_events.specs.Users.{IsWhole, IsWholeCall, is_on_line, IsRefusedWith, IsOpened};
ghost use Rattle.node_events.specs.Users.{IsCalledBy, IsServed, terminal_fault};
ghost use Rattle.node_events.specs.Users.{host_fault, user_fault};

use crate::hosts::{MOST_TAKEN, ask_host};
use crate::net_line::NetLine;
use crate::room::make_room;
use crate::send::put_frames;
use crate::terminals::at_terminal;
use call_records::{Book, Register};
use frame_lines::{Direction, Line};
use link_timers::Role;
use net_events::{Answer, HostEvent, LineEvent, Outcome, StepFault, UserEvent};
use packet_host::Host;
use std::alloc::AllocError;
use user_nodes::{Attachment, Node, TerminalEvent, write_notes};
use x25_pad::{MOST_TEXT, Pad};

/// An event needs room in the book for no more writes than this: those of a message of eight packets.
pub const MOST_WRITES: usize = 8;

/// The direction in which the end of a role sends.
pub fn direction_of(role: Role) -> Direction
    ensures { result ≡ direction_of role }
{
    match role {
        Role::Dte => Direction::FromDte,
        Role::Dce => Direction::FromDce,
    }
}

/// Ends the turn of a node that was called: its notes are written into the book, and its frames go onto the line.
#[inline(always)]
fn finish<L: Line>(
    node: &mut Node,
    at: Attachment,
    line: &mut L,
    book: &mut Book,
    answer: &mut Answer,
)
    requires room { IsRoomFor (node_of node.old) book.old.room book.old.pairs }
    requires ready { IsReady answer.old }
    ensures served { Served L.service at (told at.role (node_of node.old) book.old.book) (L.flights line.old)
        answer.new.frames.items answer.new.notes.items (node_of node.new) (L.flights line.new) book.new.book }
    ensures text { answer.new.text ≡ answer.old.text }
    ensures outcome { answer.new.outcome ≡ answer.old.outcome }
    ensures kept { IsRoomy answer.old → IsRoomy answer.new }
{
    write_notes(node, at, book, &mut answer.notes);
    put_frames(
        node,
        at.line,
        line,
        direction_of(at.role),
        &mut answer.frames,
    );
}

// ---- what comes at the line

/// Calls a node with what comes at its line, writes it into the book, and gives the outcome.
#[inline(always)]
fn call_at_line(
    node: &mut Node,
    role: Role,
    event: &LineEvent<'_>,
    book: &mut Book,
    outcome: &mut Outcome,
)
    requires room { (MOST_WRITES ≤ book.old.room) × (1 ≤ book.old.pairs) }
    requires quiet { IsQuiet (node_of node.old) }
    ensures answer { IsOutcome (line_event_of event.now) (node_of node.old) outcome.new }
    ensures called { IsCalled (line_event_of event.now) role (node_of node.old) book.old.book (node_of node.new)
        book.new }
{
    match event {
        LineEvent::Hears(octets) => {
            node.on_frame(octets);
            *outcome = Outcome::Delivered(true);
        }
        LineEvent::Expires(timer) => {
            let _ = node.on_timer(*timer);
            *outcome = Outcome::Done;
        }
        LineEvent::Relinks => {
            node.relink();
            *outcome = Outcome::Done;
        }
        LineEvent::Restarts => {
            node.restart();
            book.close_all(role);
            *outcome = Outcome::Done;
        }
    }
}

/// Serves what comes at the line of a node, and writes the answer.
#[inline(always)]
pub fn serve_line<L: Line>(
    node: &mut Node,
    at: Attachment,
    event: &LineEvent<'_>,
    line: &mut L,
    book: &mut Book,
    answer: &mut Answer,
)
    requires quiet { IsQuiet (node_of node.old) }
    requires writes { MOST_WRITES ≤ book.old.room }
    requires pairs { 1 ≤ book.old.pairs }
    requires empty { IsEmpty answer.old }
    ensures answer { IsOutcome (line_event_of event.now) (node_of node.old) answer.new.outcome }
    ensures text { answer.new.text.items ≡ [] }
    ensures served { Served L.service at
        (turn_of (line_event_of event.now) at.role (node_of node.old) book.old.book) (L.flights line.old)
        answer.new.frames.items answer.new.notes.items (node_of node.new) (L.flights line.new) book.new.book }
    ensures kept { IsRoomy answer.old → IsRoomy answer.new }
{
    call_at_line(node, at.role, event, book, &mut answer.outcome);
    finish(node, at, line, book, answer);
}

// ---- what users do

/// Makes room for what a user does: in the answer for so many octets of text, and in the book, at which the register is
/// opened for the line.
#[inline(always)]
fn open_turn(
    line: usize,
    octets: usize,
    register: &mut Register,
    answer: &mut Answer,
) -> Result<(), AllocError>
    requires { line < length register.old.lines.items }
    ensures same { register_of register.new ≡ register_of register.old }
    ensures opened { OnOk result (IsOpened line (register_of register.old) register.new) }
    ensures empty { OnOk result (IsEmpty answer.new) }
    ensures text { OnOk result (octets ≤ vec_capacity answer.new.text) }
    ensures kept { IsRoomy answer.old → octets ≤ 3200 → IsRoomy answer.new }
    ensures ready { IsRoomy answer.old → HasNoRecords (register_of register.old) → octets ≤ 3200 → IsOk result }
{
    make_room(answer, octets)?;
    register.open(line, MOST_WRITES)
}

/// Calls a PAD with what happens at a terminal. The PAD refuses nothing but a terminal that it does not have.
#[inline(always)]
fn call_pad(
    pad: &mut Pad,
    at: Attachment,
    terminal: u16,
    event: TerminalEvent,
    register: &mut Register,
    answer: &mut Answer,
) -> Result<(), StepFault>
    requires there { at.line < length register.old.lines.items }
    requires quiet { IsQuiet (PadNode pad.old) }
    ensures called { MatchResult result
        (λ _. (terminal_fault terminal pad.old ≡ None) × IsCalledBy at (terminal_event terminal event) (PadNode pad.old)
        (register_of register.old) answer.new (PadNode pad.new) register.new)
        (λ fault. IsRefusedWith (terminal_fault terminal pad.old) fault × (pad.new ≡ pad.old)
        × (register_of register.new ≡ register_of register.old)) }
    ensures kept { IsRoomy answer.old → IsRoomy answer.new }
    ensures ready { IsRoomy answer.old → HasNoRecords (register_of register.old) → result ≢ Err OutOfMemory }
{
    if terminal >= u16::from(pad.terminals()) {
        return Err(StepFault::NoSuchTerminal);
    }
    open_turn(at.line, MOST_TEXT, register, answer)?;
    at_terminal(
        pad,
        terminal as u8,
        event,
        &mut answer.text,
        &mut answer.outcome,
    );
    Ok(())
}

/// Whether a line of so many channels has the one of which a host is asked, if it is asked of one.
fn is_on_line(event: &HostEvent<'_>, channels: u8) -> bool
    ensures { result ≡ is_on_line event.now channels }
{
    match event {
        HostEvent::Calls(_, _) => true,
        HostEvent::Asks(channel, _) | HostEvent::Takes(channel) => {
            *channel != 0 && *channel <= u16::from(channels)
        }
    }
}

/// Calls a host with what its user asks, on a line of so many channels.
fn call_host(
    host: &mut Host,
    at: Attachment,
    channels: u8,
    event: &HostEvent<'_>,
    register: &mut Register,
    answer: &mut Answer,
) -> Result<(), StepFault>
    requires there { at.line < length register.old.lines.items }
    requires whole { IsWholeCall event.now }
    requires quiet { IsQuiet (HostNode host.old) }
    ensures called { MatchResult result
        (λ _. (host_fault channels event.now host.old ≡ None) × IsCalledBy at (host_event_of event.now)
        (HostNode host.old) (register_of register.old) answer.new (HostNode host.new) register.new)
        (λ fault. IsRefusedWith (host_fault channels event.now host.old) fault × (host.new ≡ host.old)
        × (register_of register.new ≡ register_of register.old)) }
    ensures kept { IsRoomy answer.old → IsRoomy answer.new }
    ensures ready { IsRoomy answer.old → HasNoRecords (register_of register.old) → result ≢ Err OutOfMemory }
{
    if !is_on_line(event, channels) {
        return Err(StepFault::NoSuchCall);
    }
    open_turn(at.line, MOST_TAKEN, register, answer)?;
    ask_host(
        host,
        at.role,
        event,
        &mut register.book,
        &mut answer.text,
        &mut answer.outcome,
    )?;
    Ok(())
}

/// Calls a node with what a user does: a PAD has terminals, and a host is asked.
#[inline(always)]
fn call_user(
    node: &mut Node,
    at: Attachment,
    channels: u8,
    event: &UserEvent<'_>,
    register: &mut Register,
    answer: &mut Answer,
) -> Result<(), StepFault>
    requires there { at.line < length register.old.lines.items }
    requires whole { IsWhole event.now }
    requires quiet { IsQuiet (node_of node.old) }
    ensures called { MatchResult result
        (λ _. (user_fault channels event.now (node_of node.old) ≡ None) × IsCalledBy at (user_event_of event.now)
        (node_of node.old) (register_of register.old) answer.new (node_of node.new) register.new)
        (λ fault. IsRefusedWith (user_fault channels event.now (node_of node.old)) fault
        × (node_of node.new ≡ node_of node.old) × (register_of register.new ≡ register_of register.old)) }
    ensures kept { IsRoomy answer.old → IsRoomy answer.new }
    ensures ready { IsRoomy answer.old → HasNoRecords (register_of register.old) → result ≢ Err OutOfMemory }
{
    match node {
        Node::Pad(pad) => match event {
            UserEvent::AtTerminal(terminal, event) => {
                call_pad(pad, at, *terminal, *event, register, answer)
            }
            UserEvent::AtHost(_) => Err(StepFault::NoSuchNode),
        },
        Node::Host(host) => match event {
            UserEvent::AtHost(event) => call_host(host, at, channels, event, register, answer),
            UserEvent::AtTerminal(_, _) => Err(StepFault::NoSuchNode),
        },
    }
}

/// Serves what a user does at a node, and writes the answer. What is refused changes nothing.
#[inline(always)]
pub fn serve_user<L: Line>(
    node: &mut Node,
    at: Attachment,
    event: &UserEvent<'_>,
    net_line: &mut NetLine<L>,
    register: &mut Register,
    answer: &mut Answer,
) -> Result<(), StepFault>
    requires there { at.line < length register.old.lines.items }
    requires whole { IsWhole event.now }
    requires quiet { IsQuiet (node_of node.old) }
    ensures line { net_line.new ≡ record net_line.old { flights = net_line.new.flights } }
    ensures served { IsServed L.service at (user_event_of event.now)
        (user_fault net_line.old.channels event.now (node_of node.old))
        (record { node = node_of node.old; flights = net_line.old.flights; register = register_of register.old })
        (result_and result (Ok answer.new))
        (record { node = node_of node.new; flights = net_line.new.flights; register = register_of register.new }) }
    ensures kept { IsRoomy answer.old → IsRoomy answer.new }
    ensures ready { IsRoomy answer.old → HasNoRecords (register_of register.old) → result ≢ Err OutOfMemory }
{
    call_user(node, at, net_line.channels, event, register, answer)?;
    finish(node, at, &mut net_line.line, &mut register.book, answer);
    Ok(())
}
