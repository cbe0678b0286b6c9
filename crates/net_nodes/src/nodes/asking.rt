//! What the users of the nodes ask.
ghost use Rattle.std.specs.Prelude.{◌≢◌, Ok, Err};
ghost use Rattle.std.specs.Result.{result_and};
ghost use Rattle.call_records.specs.Register.{HasNoRecords};
ghost use Rattle.net_events.specs.declared.event.Event.TheVariants as event_is;
ghost use Rattle.net_events.specs.declared.event.StepFault.TheVariants.{OutOfMemory};
ghost use Rattle.node_events.specs.AnswerRoom.{IsRoomy};
ghost use Rattle.net_nodes.specs.Places.{IsStanding};
ghost use Rattle.net_nodes.specs.Happening.{Happens};

use crate::nodes::Nodes;
use arrayvec::ArrayVec;
use frame_lines::Line;
use net_events::{Answer, HostEvent, StepFault, UserEvent};
use packet_codec::Address;
use packet_host::HostRequest;
use user_nodes::TerminalEvent;

impl<L: Line> Nodes<L> {
    /// Something happens at a terminal of a PAD.
    pub(super) fn at_terminal(
        &mut self,
        node: usize,
        terminal: u16,
        event: TerminalEvent,
        answer: &mut Answer,
    ) -> Result<(), StepFault>
        requires { IsStanding self.old }
        ensures done { Happens L.service (event_is.AtTerminal node terminal event) self.old
            (result_and result (Ok answer.new)) self.new }
        ensures kept { IsRoomy answer.old → IsRoomy answer.new }
        ensures ready { IsRoomy answer.old → HasNoRecords self.old.register → result ≢ Err OutOfMemory }
    {
        let end = self.end_of(node)?;
        self.user_acts(end, &UserEvent::AtTerminal(terminal, event), answer)
    }

    /// A host places a call.
    pub(super) fn call(
        &mut self,
        node: usize,
        address: Address,
        user_data: &ArrayVec<u8, 16>,
        answer: &mut Answer,
    ) -> Result<(), StepFault>
        requires { IsStanding self.old }
        ensures done { Happens L.service (event_is.Call node address user_data.now) self.old
            (result_and result (Ok answer.new)) self.new }
        ensures kept { IsRoomy answer.old → IsRoomy answer.new }
        ensures ready { IsRoomy answer.old → HasNoRecords self.old.register → result ≢ Err OutOfMemory }
    {
        let end = self.end_of(node)?;
        let event = UserEvent::AtHost(HostEvent::Calls(address, user_data.as_slice()));
        self.user_acts(end, &event, answer)
    }

    /// A host is asked something on a channel.
    pub(super) fn ask(
        &mut self,
        node: usize,
        channel: u16,
        request: &HostRequest,
        answer: &mut Answer,
    ) -> Result<(), StepFault>
        requires { IsStanding self.old }
        ensures done { Happens L.service (event_is.Ask node channel request.now) self.old
            (result_and result (Ok answer.new)) self.new }
        ensures kept { IsRoomy answer.old → IsRoomy answer.new }
        ensures ready { IsRoomy answer.old → HasNoRecords self.old.register → result ≢ Err OutOfMemory }
    {
        let end = self.end_of(node)?;
        let event = UserEvent::AtHost(HostEvent::Asks(channel, request));
        self.user_acts(end, &event, answer)
    }

    /// A host takes what waits on a channel.
    pub(super) fn take(
        &mut self,
        node: usize,
        channel: u16,
        answer: &mut Answer,
    ) -> Result<(), StepFault>
        requires { IsStanding self.old }
        ensures done { Happens L.service (event_is.Take node channel) self.old
            (result_and result (Ok answer.new)) self.new }
        ensures kept { IsRoomy answer.old → IsRoomy answer.new }
        ensures ready { IsRoomy answer.old → HasNoRecords self.old.register → result ≢ Err OutOfMemory }
    {
        let end = self.end_of(node)?;
        let event = UserEvent::AtHost(HostEvent::Takes(channel));
        self.user_acts(end, &event, answer)
    }
}
