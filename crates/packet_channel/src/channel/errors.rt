//! Procedure errors (X.25 tables C-3 and C-4).
ghost use Rattle.std.specs.Prelude.{◌≡◌, ℕ, [], true};
ghost use Rattle.flow_window.specs.Pool.{Holds, Balances};
ghost use Rattle.packet_channel.specs.Channel as machine;
ghost use Rattle.packet_channel.specs.Held.{Fits};
ghost use Rattle.packet_channel.specs.StateView.{state_of};
ghost use Rattle.packet_channel.specs.Done.{IsDone};
ghost use Rattle.data_transfer.specs.declared.flow.Flow.{Flow as FlowValue};

use crate::channel::Channel;
use crate::control::Control;
use crate::note::{LayerNote, Reason};
use crate::notes::Notes;
use crate::state::{ChannelState, End, error_cause};
use flow_window::pool::Pool;
use packet_codec::{clear_cause, diagnostic, reset_cause};

/// The diagnostic of a packet of a type that is not known. None is given for another fault.
fn diagnostic_if(unknown: bool, diagnostic: u8) -> u8
    ensures { result ≡ machine.diagnostic_if unknown diagnostic }
{
    if unknown {
        diagnostic
    } else {
        diagnostic::NO_INFORMATION
    }
}

impl Channel {
    /// Ends the call and what is in transfer.
    pub(crate) fn end_call(&mut self, state: ChannelState, pool: &mut Pool)
        requires { Holds pool.old self.old.held }
        ensures channel { self.new
            ≡ record { channel = machine.ended (state_of state) self.old.channel; held = [] } }
        ensures pool { Balances pool.old self.old.held pool.new [] }
    {
        self.state = state;
        self.resetting = false;
        self.traffic.clear(pool);
    }

    /// Clears the call for a fault that was found here, or for a timer that expired. As each step does, it answers
    /// whether one control packet too many is owed. The user is told if there was a call.
    pub fn clear_error(
        &mut self,
        end: End,
        diagnostic: u8,
        had_call: bool,
        pool: &mut Pool,
        notes: &mut Notes,
    ) -> bool
        requires holds { Holds pool.old self.old.held }
        requires read { notes.old ≡ [] }
        ensures done { IsDone (machine.clear_error end.role end.channel diagnostic had_call self.old.channel)
            self.new.channel result notes.new }
        ensures held { self.new.held ≡ [] }
        ensures pool { Balances pool.old self.old.held pool.new self.new.held }
        ensures fits { (flow : FlowValue) → Fits flow self.old → Fits flow self.new }
    {
        self.end_call(ChannelState::OwnClear, pool);
        let clear = Control::Clear {
            cause: error_cause(end.role, clear_cause::LOCAL_PROCEDURE_ERROR),
            diagnostic,
        };
        if !had_call {
            return self.owe(clear);
        }
        notes.add(LayerNote::Closed {
            channel: end.channel,
            cause: clear_cause::LOCAL_PROCEDURE_ERROR,
            diagnostic,
            reason: Reason::LocalFault,
        });
        self.owe(clear)
    }

    /// Resets the call for a fault that was found here.
    pub(crate) fn reset_error(
        &mut self,
        end: End,
        diagnostic: u8,
        pool: &mut Pool,
        notes: &mut Notes,
    ) -> bool
        requires transfer { machine.in_transfer self.old.channel.state ≡ true }
        requires holds { Holds pool.old self.old.held }
        requires read { notes.old ≡ [] }
        ensures done { IsDone (machine.reset_error end.role end.channel diagnostic self.old.channel) self.new.channel
            result notes.new }
        ensures held { self.new.held ≡ [] }
        ensures pool { Balances pool.old self.old.held pool.new [] }
    {
        self.resetting = true;
        self.traffic.clear(pool);
        notes.add(LayerNote::Reset {
            channel: end.channel,
            cause: reset_cause::LOCAL_PROCEDURE_ERROR,
            diagnostic,
            reason: Reason::LocalFault,
        });
        self.owe(Control::Reset {
            cause: error_cause(end.role, reset_cause::LOCAL_PROCEDURE_ERROR),
            diagnostic,
        })
    }

    /// Clears the call for a packet that has no place in its state.
    pub(crate) fn not_allowed(&mut self, end: End, pool: &mut Pool, notes: &mut Notes) -> bool
        requires holds { Holds pool.old self.old.held }
        requires read { notes.old ≡ [] }
        ensures done { IsDone (machine.not_allowed end.role end.channel self.old.channel) self.new.channel result
            notes.new }
        ensures held { self.new.held ≡ [] }
        ensures pool { Balances pool.old self.old.held pool.new [] }
    {
        let number = self.state.number(end.role);
        self.clear_error(
            end,
            diagnostic::NOT_ALLOWED_IN_P + number,
            true,
            pool,
            notes,
        )
    }

    /// The far end clears the call.
    pub(crate) fn far_cleared(
        &mut self,
        end: End,
        cause: u8,
        diagnostic: u8,
        pool: &mut Pool,
        notes: &mut Notes,
    ) -> bool
        requires holds { Holds pool.old self.old.held }
        requires read { notes.old ≡ [] }
        ensures done { IsDone (machine.far_cleared end.channel cause diagnostic self.old.channel) self.new.channel
            result notes.new }
        ensures held { self.new.held ≡ [] }
        ensures pool { Balances pool.old self.old.held pool.new [] }
    {
        self.end_call(ChannelState::Ready, pool);
        notes.add(LayerNote::Closed {
            channel: end.channel,
            cause,
            diagnostic,
            reason: Reason::FarEnd,
        });
        self.owe(Control::ClearConfirmation)
    }

    /// Takes octets that are no packet: they count as a packet that the state does not allow, and with diagnostic 0 if
    /// their fault is not an unknown type. Answers whether one control packet too many is owed.
    pub fn take_unreadable(
        &mut self,
        end: End,
        unknown: bool,
        pool: &mut Pool,
        notes: &mut Notes,
    ) -> bool
        requires holds { Holds pool.old self.old.held }
        requires read { notes.old ≡ [] }
        ensures done { IsDone (machine.unreadable end.role end.channel unknown self.old.channel) self.new.channel
            result notes.new }
        ensures pool { Balances pool.old self.old.held pool.new self.new.held }
        ensures fits { (flow : FlowValue) → Fits flow self.old → Fits flow self.new }
    {
        let number = self.state.number(end.role);
        let in_state = diagnostic_if(unknown, diagnostic::NOT_ALLOWED_IN_P + number);
        match self.state {
            ChannelState::Ready => self.clear_error(end, in_state, false, pool, notes),
            ChannelState::OwnClear => false,
            ChannelState::Transfer if !self.resetting => {
                self.reset_error(
                    end,
                    diagnostic_if(unknown, diagnostic::NOT_ALLOWED_IN_D1),
                    pool,
                    notes,
                )
            }
            ChannelState::Transfer
            | ChannelState::OwnWaiting
            | ChannelState::FarWaiting
            | ChannelState::Collision => self.clear_error(end, in_state, true, pool, notes),
        }
    }
}
