//! Calls that come in (X.25 4.1).
ghost use Rattle.std.specs.Prelude.{◌≡◌, ◌<◌, IfOk, OnErr, length, slice_get};
ghost use Rattle.std.specs.Option.{option_to_list};
ghost use Rattle.address_routes.specs.Routes.{line_for};
ghost use Rattle.packet_codec.specs.Packet.{IsCallValue};
ghost use Rattle.packet_codec.specs.View.{call_view};
ghost use Rattle.data_transfer.specs.Octets.{parts_of};
ghost use Rattle.switch_lines.specs.Calling.{answer_of};
ghost use Rattle.switch_lines.specs.NewJoins.{join_of};
ghost use Rattle.switch_lines.specs.Switch.{answer, answer_on, answered, route_from, forwarded, place_call, with_join};

use crate::lines::Lines;
use address_routes::Routes;
use packet_codec::{Address, CallData, clear_cause, diagnostic};
use packet_layer::{CallFault, Request};
use switch_joins::{Joined, NewJoin, SwitchChannel};

impl Lines {
    /// A call came in on a channel: it goes on and is joined, or is cleared. Answers the join.
    pub(super) fn answer(
        &mut self,
        routes: &Routes,
        leg: SwitchChannel,
        call: &CallData<'_>,
    ) -> Option<NewJoin>
        requires there { leg.line < length self.old }
        requires call { IsCallValue (call_view call.now) }
        ensures join { option_to_list result
            ≡ join_of (answer routes.now self.old leg.line (parts_of (call_view call.now))) leg }
        ensures lines { let parts = parts_of (call_view call.now) in
            self.new ≡ answered (answer routes.now self.old leg.line parts) leg parts self.old }
    {
        match self.forward(routes, leg.line, call) {
            Ok(other) => {
                self.join(leg, other);
                Some(NewJoin {
                    came_in: leg,
                    placed: other,
                })
            }
            Err(cause) => {
                let request = Request::Clear {
                    cause,
                    diagnostic: diagnostic::NO_INFORMATION,
                };
                self.ask(leg, &request);
                None
            }
        }
    }

    /// Lets a call that came on a line go on to the line of its route, and answers the channel there or the cause for
    /// which it cannot.
    fn forward(
        &mut self,
        routes: &Routes,
        line: usize,
        call: &CallData<'_>,
    ) -> Result<SwitchChannel, u8>
        requires there { line < length self.old }
        requires call { IsCallValue (call_view call.now) }
        ensures answer { answer routes.now self.old line (parts_of (call_view call.now)) ≡ answer_of result }
        ensures ok { IfOk result (λ q. self.new
            ≡ place_call q.line (forwarded self.old line (parts_of (call_view call.now))) self.old) }
        ensures err { OnErr result (self.new ≡ self.old) }
    {
        if !call.facilities.is_empty() {
            return Err(clear_cause::INVALID_FACILITY);
        }
        let Some(to) = self.route(routes, line, &call.called) else {
            return Err(clear_cause::NOT_OBTAINABLE);
        };
        let call = self.forwarded(line, call);
        self.call(to, &call)
    }

    /// The line that a call which came on a line goes on to, if it has a route: one back over a trunk is none.
    fn route(&self, routes: &Routes, line: usize, called: &Address) -> Option<usize>
        requires { line < length self.now }
        ensures { result ≡ route_from line self.now (line_for routes.now called.now) }
    {
        let to = usize::from(routes.find(called)?.0);
        if to == line && self.is_trunk(line) {
            return None;
        }
        Some(to)
    }

    /// A call as it goes on: the calling address is that of the line that it came on, on a trunk the call's own.
    fn forwarded<'a>(&self, line: usize, call: &CallData<'a>) -> CallData<'a>
        requires there { line < length self.now }
        requires call { IsCallValue (call_view call.now) }
        ensures parts { parts_of (call_view result) ≡ forwarded self.now line (parts_of (call_view call.now)) }
        ensures fits { IsCallValue (call_view result) }
    {
        CallData {
            called: call.called,
            calling: self.lines[line].address().or(call.calling),
            facilities: &[],
            user_data: call.user_data,
        }
    }

    /// Places a call on a line, and answers its channel there or the cause for which there is none.
    fn call(&mut self, line: usize, call: &CallData<'_>) -> Result<SwitchChannel, u8>
        requires { IsCallValue (call_view call.now) }
        ensures answer { answer_on line (slice_get self.old line) ≡ answer_of result }
        ensures line { IfOk result (λ q. q.line ≡ line) }
        ensures lines { self.new ≡ place_call line (parts_of (call_view call.now)) self.old }
        ensures err { OnErr result (self.new ≡ self.old) }
    {
        if line >= self.lines.len() {
            return Err(clear_cause::NOT_OBTAINABLE);
        }
        self.touched.insert(line);
        match self.lines[line].call(call) {
            Ok(channel) => Ok(SwitchChannel { line, channel }),
            Err(CallFault::NotReady) => Err(clear_cause::OUT_OF_ORDER),
            Err(CallFault::NoChannel) => Err(clear_cause::NUMBER_BUSY),
        }
    }

    /// The calls on two channels are joined. On the first one it came in.
    fn join(&mut self, caller: SwitchChannel, callee: SwitchChannel)
        requires caller { caller.line < length self.old }
        requires callee { callee.line < length self.old }
        ensures { self.new ≡ with_join caller callee self.old }
    {
        let there = Joined {
            other: callee,
            came_in: true,
        };
        let back = Joined {
            other: caller,
            came_in: false,
        };
        self.set_joined(caller, Some(there));
        self.set_joined(callee, Some(back));
    }
}
