//! States of a call.

ghost use Rattle.std.specs.Prelude.{◌≡◌};
ghost use Rattle.call_states.specs.EndStates.{state_of, state_number};
ghost use Rattle.call_states.specs.EndStates.EndState.{OwnWaiting, FarWaiting, OwnClear};

use link_timers::Role;

/// The state of a call on a logical channel (X.25 4.1).
#[derive(Clone, Copy, PartialEq, Eq)]
pub enum CallState {
    /// p1: ready, no call.
    Ready,
    /// p2: the DTE has called and waits.
    DteWaiting,
    /// p3: the DCE has called and waits.
    DceWaiting,
    /// p4: data transfer.
    DataTransfer,
    /// p5: both ends have called.
    CallCollision,
    /// p6: the DTE clears.
    DteClear,
    /// p7: the DCE clears.
    DceClear,
}

impl CallState {
    /// The state after a call of this end: p2 for a DTE, p3 for a DCE.
    pub(crate) fn own_waiting(role: Role) -> CallState
        ensures { result ≡ state_of role OwnWaiting }
    {
        match role {
            Role::Dte => CallState::DteWaiting,
            Role::Dce => CallState::DceWaiting,
        }
    }

    /// The state after a call of the other end: p3 for a DTE, p2 for a DCE.
    pub(crate) fn far_waiting(role: Role) -> CallState
        ensures { result ≡ state_of role FarWaiting }
    {
        match role {
            Role::Dte => CallState::DceWaiting,
            Role::Dce => CallState::DteWaiting,
        }
    }

    /// The state in which this end clears: p6 for a DTE, p7 for a DCE.
    pub(crate) fn own_clear(role: Role) -> CallState
        ensures { result ≡ state_of role OwnClear }
    {
        match role {
            Role::Dte => CallState::DteClear,
            Role::Dce => CallState::DceClear,
        }
    }

    /// The number of the state, 1 to 7.
    pub fn number(self) -> u8
        ensures { result ≡ state_number self }
    {
        match self {
            CallState::Ready => 1,
            CallState::DteWaiting => 2,
            CallState::DceWaiting => 3,
            CallState::DataTransfer => 4,
            CallState::CallCollision => 5,
            CallState::DteClear => 6,
            CallState::DceClear => 7,
        }
    }
}
