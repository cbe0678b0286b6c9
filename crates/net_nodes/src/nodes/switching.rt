//! What happens at the switch of a place in the network.
ghost use Rattle.std.specs.Prelude.{◌≡◌, ◌≢◌, ◌≤◌, [], Some, Err, OnOk, IsOk, MatchResult, length, slice_get};
ghost use Rattle.call_records.specs.RegisterView.{register_of};
ghost use Rattle.net_events.specs.EventView.{switch_event_of};
ghost use Rattle.net_events.specs.Network as network;
ghost use Rattle.net_events.specs.declared.event.StepFault.TheVariants.{OutOfMemory};
ghost use Rattle.node_events.specs.AnswerRoom.{IsRoomy};
ghost use Rattle.node_events.specs.Switching.{HasRoom};
ghost use Rattle.net_nodes.specs.Places.{is_switch_at};
ghost use Rattle.net_nodes.specs.Steps.{switch_outcome};
ghost use Rattle.net_nodes.specs.Switching.{CanSwitch, SwitchActed, CanServeSwitch, NodeServed};

use crate::nodes::Nodes;
use call_records::Register;
use frame_lines::Line;
use line_end::MOST_FRAMES;
use net_events::{Answer, Outcome, Puts, StepFault, SwitchEvent};
use net_node::{Equipment, NetNode};
use node_events::{NetLine, make_frame_room, serve_switch};
use std::alloc::AllocError;

/// What the event gives besides frames.
fn outcome_of(event: &SwitchEvent<'_>) -> Outcome
    ensures { result ≡ switch_outcome (switch_event_of event.now) }
{
    match event {
        SwitchEvent::Hears(_, _) => Outcome::Delivered(true),
        SwitchEvent::Expires(_, _) => Outcome::Done,
        SwitchEvent::Relinks(_) => Outcome::Done,
        SwitchEvent::Restarts => Outcome::Done,
    }
}

/// Serves an event at a node that is a switch, and lists the frames that it puts.
fn serve_switch_of<L: Line>(
    node: &mut NetNode,
    lines: &mut Vec<NetLine<L>>,
    register: &mut Register,
    event: &SwitchEvent<'_>,
    puts: &mut Puts,
) -> Result<(), StepFault>
    requires { CanServeSwitch (switch_event_of event.now) node.old lines.old.items puts.old.items
        puts.old.room }
    ensures done { (n : network.PlacedSwitch) → node.old ≡ network.Switching n
        → MatchResult result (λ _. NodeServed L.service (switch_event_of event.now) n lines.old.items
        (register_of register.old) node.new lines.new.items (register_of register.new) puts.new.items) (λ _. ⊥) }
    ensures places { puts.new.room ≡ puts.old.room }
    ensures most { length puts.new.items ≤ puts.new.room }
    ensures ready { result ≢ Err OutOfMemory }
{
    let Equipment::Switching { lines: own, switch } = &mut node.kind else {
        return Err(StepFault::NoSuchNode);
    };
    serve_switch(switch, own, lines, register, event, puts);
    Ok(())
}

impl<L: Line> Nodes<L> {
    /// Whether a switch is at this place.
    pub(super) fn is_switch(&self, place: usize) -> bool
        ensures { result ≡ is_switch_at place self.now }
    {
        place < self.nodes.len() && self.nodes[place].is_switch()
    }

    /// Empties an answer, and makes room in it for all frames of an event at the switch of this place.
    pub(super) fn make_switch_room(
        &self,
        place: usize,
        answer: &mut Answer,
    ) -> Result<(), AllocError>
        ensures room { (n : network.PlacedSwitch) → slice_get self.now.nodes place ≡ Some (network.Switching n)
            → OnOk result (HasRoom (length n.switch.lines) answer.new.frames.items answer.new.frames.room) }
        ensures frames { answer.new.frames.items ≡ [] }
        ensures notes { answer.new.notes.items ≡ [] }
        ensures text { answer.new.text.items ≡ [] }
        ensures kept { IsRoomy answer.old → IsRoomy answer.new }
        ensures ready { IsRoomy answer.old → IsOk result }
    {
        let lines = if place < self.nodes.len() {
            self.nodes[place].own_lines()
        } else {
            0
        };
        make_frame_room(answer, lines * MOST_FRAMES)
    }

    /// Serves an event at the switch of this place, and writes the answer, in which nothing stands before.
    pub(super) fn switch_acts(
        &mut self,
        place: usize,
        event: &SwitchEvent<'_>,
        answer: &mut Answer,
    ) -> Result<(), StepFault>
        requires can { CanSwitch (switch_event_of event.now) place self.old answer.old.frames.items
            answer.old.frames.room }
        requires notes { answer.old.notes.items ≡ [] }
        requires text { answer.old.text.items ≡ [] }
        ensures done { (n : network.PlacedSwitch) → slice_get self.old.nodes place ≡ Some (network.Switching n)
            → MatchResult result (λ _. SwitchActed L.service (switch_event_of event.now) place n self.old answer.new
            self.new) (λ _. ⊥) }
        ensures kept { IsRoomy answer.old → IsRoomy answer.new }
        ensures ready { result ≢ Err OutOfMemory }
    {
        let (lines, register) = (&mut self.lines, &mut self.register);
        let served = serve_switch_of(
            &mut self.nodes[place],
            lines,
            register,
            event,
            &mut answer.frames,
        );
        answer.outcome = outcome_of(event);
        served
    }
}
