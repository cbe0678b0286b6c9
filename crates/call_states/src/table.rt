//! The state table of call set-up and clearing.

ghost use Rattle.std.specs.Prelude.{◌≡◌, ◌↔◌, IsTrue, IsSome};
ghost use Rattle.call_states.specs.EndStates.{end_state_of, state_of};
ghost use Rattle.call_states.specs.EndStates.EndState.{Ready, OwnWaiting, FarWaiting, DataTransfer, CallCollision};
ghost use Rattle.call_states.specs.EndStates.EndState.{OwnClear};
ghost use Rattle.call_states.specs.Table.{call_step, diagnostic_of, step_at, step_of};

use crate::state::CallState;
use link_timers::Role;
use packet_codec::{PacketType, diagnostic};

/// What the user of this end does.
#[derive(Clone, Copy, PartialEq, Eq)]
pub enum UserAct {
    /// Calls.
    Call,
    /// Accepts the incoming call.
    Accept,
    /// Clears the call.
    Clear,
}

/// What happens to a call.
#[derive(Clone, Copy, PartialEq, Eq)]
pub enum CallEvent {
    /// The user of this end acts.
    User(UserAct),
    /// A packet of this type came.
    Received(PacketType),
    /// A packet came that cannot be read.
    Unreadable,
}

/// What a step tells the user of this end.
#[derive(Clone, Copy, PartialEq, Eq)]
pub enum CallNote {
    /// Nothing.
    Nothing,
    /// The other end calls.
    Incoming,
    /// The call is connected.
    Connected,
    /// The other end calls, and the call of this end is cancelled.
    Cancelled,
    /// The call is cleared.
    Cleared,
    /// The packet is discarded.
    Discarded,
    /// What the packet does is decided by the reset state, and by the numbers and interrupts of the call.
    InDataTransfer,
}

/// What an event makes of a call.
#[derive(Clone, Copy, PartialEq, Eq)]
pub struct CallStep {
    /// The new state.
    pub state: CallState,
    /// The type of the packet that is owed to the other end.
    pub owed: Option<PacketType>,
    /// What the user is told.
    pub note: CallNote,
    /// The diagnostic, if the event is a procedure error.
    pub error: Option<u8>,
}

impl CallState {
    /// The step of the state table for an event. The table has a row for the role, the state and the event (X.25
    /// Annex C, table C-3).
    #[tactic(auto, using(crate::proofs::Rows::kept_at))]
    pub fn step(role: Role, state: CallState, event: CallEvent) -> CallStep
        requires { IsSome (step_of role state event) }
        ensures row { step_of role state event ≡ Some result }
        // The state in which the other end clears is never entered.
        ensures kept { IsSome (end_state_of role result.state) }
    {
        match (role, state) {
            (_, CallState::Ready) => in_ready(role, event),
            (Role::Dte, CallState::DteWaiting) | (Role::Dce, CallState::DceWaiting) => {
                in_own_waiting(role, event)
            }
            (Role::Dte, CallState::DceWaiting) | (Role::Dce, CallState::DteWaiting) => {
                in_far_waiting(role, event)
            }
            (_, CallState::DataTransfer) => in_data_transfer(role, event),
            (_, CallState::CallCollision) => in_collision(role, event),
            (Role::Dte, CallState::DteClear) | (Role::Dce, CallState::DceClear) => {
                in_own_clear(role, event)
            }
            (Role::Dte, CallState::DceClear) | (Role::Dce, CallState::DteClear) => unreachable!(),
        }
    }

    /// Whether the user of this end may call, accept or clear in this state: whether the table has a row for it.
    pub fn allows(self, role: Role, act: UserAct) -> bool
        ensures { IsTrue result ↔ IsSome (step_of role self (CallEvent.User act)) }
    {
        match act {
            UserAct::Call => self == CallState::Ready,
            UserAct::Accept => {
                self == CallState::far_waiting(role)
                    || (role == Role::Dce && self == CallState::CallCollision)
            }
            UserAct::Clear => {
                self == CallState::DteWaiting
                    || self == CallState::DceWaiting
                    || self == CallState::DataTransfer
                    || self == CallState::CallCollision
            }
        }
    }
}

fn moves(state: CallState, owed: Option<PacketType>, note: CallNote) -> CallStep
    ensures { result ≡ call_step state owed note None }
{
    CallStep {
        state,
        owed,
        note,
        error: None,
    }
}

/// A packet that has no place in the state: this end clears.
fn refuses(role: Role, state: CallState, note: CallNote) -> CallStep
    ensures { result
        ≡ call_step (state_of role OwnClear) (Some PacketType.ClearRequest) note (Some (diagnostic_of state)) }
{
    CallStep {
        state: CallState::own_clear(role),
        owed: Some(PacketType::ClearRequest),
        note,
        error: Some(diagnostic::NOT_ALLOWED_IN_P + state.number()),
    }
}

/// The user of this end clears.
fn clears(role: Role) -> CallStep
    ensures { result ≡ call_step (state_of role OwnClear) (Some PacketType.ClearRequest) CallNote.Nothing None }
{
    let owed = Some(PacketType::ClearRequest);
    moves(CallState::own_clear(role), owed, CallNote::Nothing)
}

/// The other end clears.
fn is_cleared(note: CallNote) -> CallStep
    ensures { result ≡ call_step CallState.Ready (Some PacketType.ClearConfirmation) note None }
{
    let owed = Some(PacketType::ClearConfirmation);
    moves(CallState::Ready, owed, note)
}

/// The user of this end accepts.
fn accepts() -> CallStep
    ensures { result ≡ call_step CallState.DataTransfer (Some PacketType.CallAccepted) CallNote.Nothing None }
{
    let owed = Some(PacketType::CallAccepted);
    moves(CallState::DataTransfer, owed, CallNote::Nothing)
}

fn in_ready(role: Role, event: CallEvent) -> CallStep
    requires { IsSome (step_at role Ready event) }
    ensures { step_at role Ready event ≡ Some result }
{
    match event {
        CallEvent::User(UserAct::Call) => {
            let owed = Some(PacketType::CallRequest);
            moves(CallState::own_waiting(role), owed, CallNote::Nothing)
        }
        CallEvent::User(UserAct::Accept) | CallEvent::User(UserAct::Clear) => unreachable!(),
        CallEvent::Received(PacketType::CallRequest) => {
            moves(CallState::far_waiting(role), None, CallNote::Incoming)
        }
        CallEvent::Received(PacketType::ClearRequest) => is_cleared(CallNote::Nothing),
        _ => refuses(role, CallState::Ready, CallNote::Nothing),
    }
}

fn in_own_waiting(role: Role, event: CallEvent) -> CallStep
    requires { IsSome (step_at role OwnWaiting event) }
    ensures { step_at role OwnWaiting event ≡ Some result }
{
    match event {
        CallEvent::User(UserAct::Call) | CallEvent::User(UserAct::Accept) => unreachable!(),
        CallEvent::User(UserAct::Clear) => clears(role),
        CallEvent::Received(PacketType::CallAccepted) => {
            moves(CallState::DataTransfer, None, CallNote::Connected)
        }
        CallEvent::Received(PacketType::CallRequest) => match role {
            Role::Dte => moves(CallState::CallCollision, None, CallNote::Nothing),
            // The call of the DTE goes on.
            Role::Dce => moves(CallState::CallCollision, None, CallNote::Cancelled),
        },
        CallEvent::Received(PacketType::ClearRequest) => is_cleared(CallNote::Cleared),
        _ => refuses(role, CallState::own_waiting(role), CallNote::Cleared),
    }
}

fn in_far_waiting(role: Role, event: CallEvent) -> CallStep
    requires { IsSome (step_at role FarWaiting event) }
    ensures { step_at role FarWaiting event ≡ Some result }
{
    match event {
        CallEvent::User(UserAct::Call) => unreachable!(),
        CallEvent::User(UserAct::Accept) => accepts(),
        CallEvent::User(UserAct::Clear) => clears(role),
        CallEvent::Received(PacketType::ClearRequest) => is_cleared(CallNote::Cleared),
        _ => refuses(role, CallState::far_waiting(role), CallNote::Cleared),
    }
}

fn in_data_transfer(role: Role, event: CallEvent) -> CallStep
    requires { IsSome (step_at role DataTransfer event) }
    ensures { step_at role DataTransfer event ≡ Some result }
{
    match event {
        CallEvent::User(UserAct::Call) | CallEvent::User(UserAct::Accept) => unreachable!(),
        CallEvent::User(UserAct::Clear) => clears(role),
        CallEvent::Received(PacketType::ClearRequest) => is_cleared(CallNote::Cleared),
        CallEvent::Received(
            PacketType::Data
            | PacketType::Interrupt
            | PacketType::InterruptConfirmation
            | PacketType::ReceiveReady
            | PacketType::ReceiveNotReady
            | PacketType::ResetRequest
            | PacketType::ResetConfirmation,
        ) => moves(CallState::DataTransfer, None, CallNote::InDataTransfer),
        _ => refuses(role, CallState::DataTransfer, CallNote::Cleared),
    }
}

fn in_collision(role: Role, event: CallEvent) -> CallStep
    requires { IsSome (step_at role CallCollision event) }
    ensures { step_at role CallCollision event ≡ Some result }
{
    match (role, event) {
        (_, CallEvent::User(UserAct::Call)) | (Role::Dte, CallEvent::User(UserAct::Accept)) =>
            unreachable!(),
        (Role::Dce, CallEvent::User(UserAct::Accept)) => accepts(),
        (_, CallEvent::User(UserAct::Clear)) => clears(role),
        (Role::Dte, CallEvent::Received(PacketType::CallAccepted)) => {
            moves(CallState::DataTransfer, None, CallNote::Connected)
        }
        (_, CallEvent::Received(PacketType::ClearRequest)) => is_cleared(CallNote::Cleared),
        _ => refuses(role, CallState::CallCollision, CallNote::Cleared),
    }
}

fn in_own_clear(role: Role, event: CallEvent) -> CallStep
    requires { IsSome (step_at role OwnClear event) }
    ensures { step_at role OwnClear event ≡ Some result }
{
    match event {
        CallEvent::User(UserAct::Call)
        | CallEvent::User(UserAct::Accept)
        | CallEvent::User(UserAct::Clear) => unreachable!(),
        CallEvent::Received(PacketType::ClearRequest | PacketType::ClearConfirmation) => {
            moves(CallState::Ready, None, CallNote::Nothing)
        }
        _ => moves(CallState::own_clear(role), None, CallNote::Discarded),
    }
}
