//! What the other leg of a join is told of a channel (X.25 4.1 to 4.4).
ghost use Rattle.std.specs.Prelude.{◌≡◌};
ghost use Rattle.packet_channel.specs.NoteView.{reason_of};
ghost use Rattle.data_transfer.specs.Packets.{Note as note};
ghost use Rattle.switch_lines.specs.Relay.{told};

use crate::lines::Lines;
use joined_line::{far_clear_cause, far_diagnostic, far_reset_cause};
use packet_layer::{Reason, Request};
use switch_joins::SwitchChannel;

impl Lines {
    /// The call on a channel was accepted there.
    #[tactic(auto, using(crate::proofs::Telling::tells_connected, crate::proofs::Telling::tells_no_one))]
    pub(super) fn tell_connected(&mut self, leg: SwitchChannel)
        ensures { self.new ≡ told (note.Connected leg.channel) leg self.old }
    {
        if let Some(other) = self.other(leg) {
            self.ask(other, &Request::Accept);
        }
    }

    /// The call on a channel is over: so is the join, and the call on the other leg.
    #[tactic(auto, using(crate::proofs::Telling::tells_closed, crate::proofs::Telling::tells_no_one))]
    pub(super) fn tell_closed(
        &mut self,
        leg: SwitchChannel,
        cause: u8,
        diagnostic: u8,
        reason: Reason,
    )
        ensures { self.new
            ≡ told (note.Closed leg.channel cause diagnostic (reason_of reason)) leg self.old }
    {
        let Some(other) = self.other(leg) else {
            return;
        };
        let trunk = self.is_trunk(leg.line);
        self.set_joined(leg, None);
        self.set_joined(other, None);
        let request = Request::Clear {
            cause: far_clear_cause(trunk, reason, cause),
            diagnostic: far_diagnostic(reason, diagnostic),
        };
        self.ask(other, &request);
    }

    /// The call on a channel was reset: so is the other leg, unless its own reset is unconfirmed.
    #[tactic(auto, using(crate::proofs::Telling::tells_reset, crate::proofs::Telling::tells_no_one))]
    pub(super) fn tell_reset(
        &mut self,
        leg: SwitchChannel,
        cause: u8,
        diagnostic: u8,
        reason: Reason,
    )
        ensures { self.new
            ≡ told (note.WasReset leg.channel cause diagnostic (reason_of reason)) leg self.old }
    {
        let Some(other) = self.other(leg) else {
            return;
        };
        let request = Request::Reset {
            cause: far_reset_cause(reason, cause),
            diagnostic: far_diagnostic(reason, diagnostic),
        };
        self.ask(other, &request);
        self.renew(leg);
        self.renew(other);
    }

    /// The interrupt that was sent on a channel is confirmed there: so is the one that was taken on the other leg.
    #[tactic(auto, using(crate::proofs::Telling::tells_confirmed, crate::proofs::Telling::tells_no_one))]
    pub(super) fn tell_confirmed(&mut self, leg: SwitchChannel)
        ensures { self.new ≡ told (note.InterruptConfirmed leg.channel) leg self.old }
    {
        if let Some(other) = self.other(leg) {
            self.ask(other, &Request::ConfirmInterrupt);
        }
    }

    /// A P(R) newly covered so many packets that were sent on a channel: what waited for that is released on the other
    /// leg.
    #[tactic(auto, using(crate::proofs::Telling::tells_covered, crate::proofs::Telling::tells_no_one))]
    pub(super) fn tell_covered(&mut self, leg: SwitchChannel, count: u8)
        ensures { self.new ≡ told (note.Covered leg.channel count) leg self.old }
    {
        if let Some(other) = self.other(leg) {
            self.cover(other, count);
            self.release(other);
        }
    }
}
