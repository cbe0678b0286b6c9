//! The turn of a node with users at its end of a line.
ghost use Rattle.std.specs.Prelude.{◌≡◌, ◌≢◌, ◌≤◌, ◌<◌, Some, Ok, Err, MatchResult, length, slice_get};
ghost use Rattle.std.specs.Result.{result_and};
ghost use Rattle.call_records.specs.Register.{HasNoRecords};
ghost use Rattle.call_records.specs.RegisterView.{register_of};
ghost use Rattle.net_events.specs.declared.event.StepFault.TheVariants.{OutOfMemory};
ghost use Rattle.net_events.specs.EventView.{line_event_of, user_event_of};
ghost use Rattle.net_events.specs.Network as network;
ghost use Rattle.node_laws.specs.Quiet.{IsQuiet};
ghost use Rattle.node_events.specs.AnswerRoom.{IsRoomy};
ghost use Rattle.node_events.specs.Served.{IsEmpty};
ghost use Rattle.node_events.specs.Users.{IsWhole, IsRefusedWith, user_fault};
ghost use Rattle.net_nodes.specs.Turns.{LineServed, UserServed, CanServe, CanServeUser, HadTurn, CanAct, LeavesLine};
ghost use Rattle.net_nodes.specs.Turns.{Acts, UserActs};

use crate::nodes::{LineSide, Nodes};
use call_records::{Book, Register};
use frame_lines::Line;
use link_timers::Role;
use net_events::{Answer, LineEvent, StepFault, UserEvent};
use net_node::{Equipment, NetNode};
use node_events::{MOST_WRITES, NetLine, make_room, serve_line, serve_user};
use user_nodes::Attachment;

/// The place of the node at the end of a role of a line.
pub(super) fn place_at<L: Line>(role: Role, net_line: &NetLine<L>) -> usize
    ensures { result ≡ network.place_at role net_line.now }
{
    match role {
        Role::Dte => net_line.dte,
        Role::Dce => net_line.dce,
    }
}

/// Where the node at an end of a line is attached.
fn attachment<L: Line>(end: LineSide, net_line: &NetLine<L>) -> Attachment
    ensures { result ≡ record { line = end.line; role = end.role; node = network.place_at end.role net_line.now } }
{
    Attachment {
        line: end.line,
        role: end.role,
        node: place_at(end.role, net_line),
    }
}

// ---- what comes at the line

/// Serves what comes at the line of a node with users.
#[inline(always)]
fn serve_line_of<L: Line>(
    node: &mut NetNode,
    at: Attachment,
    event: &LineEvent<'_>,
    line: &mut L,
    book: &mut Book,
    answer: &mut Answer,
) -> Result<(), StepFault>
    requires quiet { (n : network.PlacedNode) → node.old ≡ network.User n → IsQuiet n.node }
    requires writes { 8 ≤ book.old.room }
    requires pairs { 1 ≤ book.old.pairs }
    requires empty { IsEmpty answer.old }
    ensures done { (n : network.PlacedNode) → node.old ≡ network.User n
        → MatchResult (result_and result (Ok answer.new))
        (λ a. LineServed L.service at (line_event_of event.now) n (L.flights line.old) book.old.book a node.new
        (L.flights line.new) book.new.book)
        (λ fault. ⊥) }
    ensures kept { IsRoomy answer.old → IsRoomy answer.new }
    ensures ready { result ≢ Err OutOfMemory }
{
    let Equipment::User { node, .. } = &mut node.kind else {
        return Err(StepFault::NoSuchNode);
    };
    serve_line(node, at, event, line, book, answer);
    Ok(())
}

/// Serves what comes at the node at an end of a line, at which the register is open, and writes the answer.
#[inline(always)]
pub(super) fn serve_at<L: Line>(
    nodes: &mut Vec<NetNode>,
    net_line: &mut NetLine<L>,
    register: &mut Register,
    end: LineSide,
    event: &LineEvent<'_>,
    answer: &mut Answer,
) -> Result<(), StepFault>
    requires { CanServe end nodes.old.items net_line.old register.old answer.old }
    ensures done { (n : network.PlacedNode)
        → slice_get nodes.old.items (network.place_at end.role net_line.old) ≡ Some (network.User n)
        → MatchResult (result_and result (Ok answer.new))
        (λ a. HadTurn L.service end (line_event_of event.now) n nodes.old.items net_line.old (register_of register.old)
        a nodes.new.items net_line.new (register_of register.new))
        (λ fault. ⊥) }
    ensures kept { IsRoomy answer.old → IsRoomy answer.new }
    ensures ready { result ≢ Err OutOfMemory }
{
    let at = attachment(end, net_line);
    serve_line_of(
        &mut nodes[at.node],
        at,
        event,
        &mut net_line.line,
        &mut register.book,
        answer,
    )
}

// ---- what users do

/// Serves what a user does at a node.
#[inline(always)]
fn serve_user_of<L: Line>(
    node: &mut NetNode,
    at: Attachment,
    event: &UserEvent<'_>,
    net_line: &mut NetLine<L>,
    register: &mut Register,
    answer: &mut Answer,
) -> Result<(), StepFault>
    requires there { at.line < length register.old.lines.items }
    requires whole { IsWhole event.now }
    requires quiet { (n : network.PlacedNode) → node.old ≡ network.User n → IsQuiet n.node }
    ensures line { net_line.new ≡ record net_line.old { flights = net_line.new.flights } }
    ensures served { (n : network.PlacedNode) → node.old ≡ network.User n
        → UserServed L.service at (user_event_of event.now) (user_fault net_line.old.channels event.now n.node) n
        net_line.old.flights (register_of register.old) (result_and result (Ok answer.new)) node.new
        net_line.new.flights (register_of register.new) }
    ensures kept { IsRoomy answer.old → IsRoomy answer.new }
    ensures ready { IsRoomy answer.old → HasNoRecords (register_of register.old) → result ≢ Err OutOfMemory }
{
    let Equipment::User { node, .. } = &mut node.kind else {
        return Err(StepFault::NoSuchNode);
    };
    serve_user(node, at, event, net_line, register, answer)
}

/// Serves what a user does at the node at an end of a line, and writes the answer.
#[inline(always)]
fn serve_user_at<L: Line>(
    nodes: &mut Vec<NetNode>,
    net_line: &mut NetLine<L>,
    register: &mut Register,
    end: LineSide,
    event: &UserEvent<'_>,
    answer: &mut Answer,
) -> Result<(), StepFault>
    requires can { CanServeUser end nodes.old.items net_line.old register.old }
    requires whole { IsWhole event.now }
    ensures done { (n : network.PlacedNode)
        → slice_get nodes.old.items (network.place_at end.role net_line.old) ≡ Some (network.User n)
        → MatchResult (result_and result (Ok answer.new))
        (λ a. (user_fault net_line.old.channels event.now n.node ≡ None) × HadTurn L.service end
        (user_event_of event.now) n nodes.old.items net_line.old (register_of register.old) a nodes.new.items
        net_line.new (register_of register.new))
        (λ fault. IsRefusedWith (user_fault net_line.old.channels event.now n.node) fault
        × (nodes.new.items ≡ nodes.old.items) × (net_line.new ≡ net_line.old)
        × (register_of register.new ≡ register_of register.old)) }
    ensures kept { IsRoomy answer.old → IsRoomy answer.new }
    ensures ready { IsRoomy answer.old → HasNoRecords (register_of register.old) → result ≢ Err OutOfMemory }
{
    let at = attachment(end, net_line);
    serve_user_of(&mut nodes[at.node], at, event, net_line, register, answer)
}

impl<L: Line> Nodes<L> {
    /// Something comes to the node at an end of a line; it is not that a frame arrives or that the node restarts.
    pub(super) fn act(
        &mut self,
        end: LineSide,
        event: &LineEvent<'_>,
        answer: &mut Answer,
    ) -> Result<(), StepFault>
        requires can { CanAct end self.old }
        requires leaves { LeavesLine event.now }
        ensures done { Acts L.service end (line_event_of event.now) self.old (result_and result (Ok answer.new)) self.new }
        ensures kept { IsRoomy answer.old → IsRoomy answer.new }
        ensures ready { IsRoomy answer.old → HasNoRecords self.old.register → result ≢ Err OutOfMemory }
    {
        make_room(answer, 0)?;
        self.register.open(end.line, MOST_WRITES)?;
        let (nodes, register) = (&mut self.nodes, &mut self.register);
        serve_at(
            nodes,
            &mut self.lines[end.line],
            register,
            end,
            event,
            answer,
        )
    }

    /// A user does something at the node at an end of a line.
    #[inline(always)]
    pub(super) fn user_acts(
        &mut self,
        end: LineSide,
        event: &UserEvent<'_>,
        answer: &mut Answer,
    ) -> Result<(), StepFault>
        requires can { CanAct end self.old }
        requires whole { IsWhole event.now }
        ensures done { UserActs L.service end event.now self.old (result_and result (Ok answer.new)) self.new }
        ensures kept { IsRoomy answer.old → IsRoomy answer.new }
        ensures ready { IsRoomy answer.old → HasNoRecords self.old.register → result ≢ Err OutOfMemory }
    {
        let (nodes, register) = (&mut self.nodes, &mut self.register);
        serve_user_at(
            nodes,
            &mut self.lines[end.line],
            register,
            end,
            event,
            answer,
        )
    }
}
