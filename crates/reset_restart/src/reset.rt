//! The states of reset, within data transfer.

ghost use Rattle.std.specs.Prelude.{◌≡◌, IsSome};
ghost use Rattle.reset_restart.specs.Reset.{own_reset, end_state_of, reset_step, step_at};
ghost use Rattle.reset_restart.specs.Reset.EndState.{Ready, OwnReset};

use link_timers::Role;
use packet_codec::{PacketType, diagnostic};

/// The state of a channel in data transfer (X.25 4.4.3).
#[derive(Clone, Copy, PartialEq, Eq)]
pub enum ResetState {
    /// d1: flow control ready.
    FlowControlReady,
    /// d2: the DTE resets.
    DteReset,
    /// d3: the DCE resets.
    DceReset,
}

/// What happens to a channel in data transfer.
#[derive(Clone, Copy, PartialEq, Eq)]
pub enum ResetEvent {
    /// The user of this end resets.
    UserReset,
    /// A packet of this type came.
    Received(PacketType),
    /// A packet came that cannot be read.
    Unreadable,
}

/// What a step tells the user of this end.
#[derive(Clone, Copy, PartialEq, Eq)]
pub enum ResetNote {
    /// Nothing.
    Nothing,
    /// The channel is reset.
    Reset,
    /// The packet is discarded.
    Discarded,
}

/// What an event makes of a channel in data transfer.
#[derive(Clone, Copy, PartialEq, Eq)]
pub struct ResetStep {
    /// The new state.
    pub state: ResetState,
    /// The type of the packet that is owed to the other end.
    pub owed: Option<PacketType>,
    /// What the user is told.
    pub note: ResetNote,
    /// The diagnostic, if the event is a procedure error.
    pub error: Option<u8>,
}

impl ResetState {
    /// The state in which this end resets: d2 for a DTE, d3 for a DCE.
    pub fn own(role: Role) -> ResetState
        ensures { result ≡ own_reset role }
    {
        match role {
            Role::Dte => ResetState::DteReset,
            Role::Dce => ResetState::DceReset,
        }
    }

    /// The step of the state table for an event. The table has a row for the role, the state and the event (X.25
    /// Annex C, table C-4).
    #[tactic(auto, using(crate::proofs::ResetRows::kept_at))]
    pub fn step(role: Role, state: ResetState, event: ResetEvent) -> ResetStep
        requires { IsSome (reset_step role state event) }
        ensures row { reset_step role state event ≡ Some result }
        // The state that the other end begins is never entered.
        ensures kept { IsSome (end_state_of role result.state) }
    {
        match (role, state) {
            (_, ResetState::FlowControlReady) => in_flow_control_ready(role, event),
            (Role::Dte, ResetState::DteReset) | (Role::Dce, ResetState::DceReset) => {
                in_own_reset(role, event)
            }
            (Role::Dte, ResetState::DceReset) | (Role::Dce, ResetState::DteReset) => unreachable!(),
        }
    }
}

fn moves(state: ResetState, owed: Option<PacketType>, note: ResetNote) -> ResetStep
    ensures { result ≡ record { state = state; owed = owed; note = note; error = None } }
{
    ResetStep {
        state,
        owed,
        note,
        error: None,
    }
}

fn in_flow_control_ready(role: Role, event: ResetEvent) -> ResetStep
    requires { IsSome (step_at role Ready event) }
    ensures { step_at role Ready event ≡ Some result }
{
    match event {
        ResetEvent::UserReset => {
            let owed = Some(PacketType::ResetRequest);
            moves(ResetState::own(role), owed, ResetNote::Nothing)
        }
        ResetEvent::Received(PacketType::ResetRequest) => {
            let owed = Some(PacketType::ResetConfirmation);
            moves(ResetState::FlowControlReady, owed, ResetNote::Reset)
        }
        ResetEvent::Received(PacketType::ResetConfirmation) | ResetEvent::Unreadable => ResetStep {
            state: ResetState::own(role),
            owed: Some(PacketType::ResetRequest),
            note: ResetNote::Reset,
            error: Some(diagnostic::NOT_ALLOWED_IN_D1),
        },
        ResetEvent::Received(_) => unreachable!(),
    }
}

fn in_own_reset(role: Role, event: ResetEvent) -> ResetStep
    requires { IsSome (step_at role OwnReset event) }
    ensures { step_at role OwnReset event ≡ Some result }
{
    match event {
        ResetEvent::Received(PacketType::ResetRequest | PacketType::ResetConfirmation) => {
            moves(ResetState::FlowControlReady, None, ResetNote::Nothing)
        }
        ResetEvent::Received(
            PacketType::Data
            | PacketType::Interrupt
            | PacketType::InterruptConfirmation
            | PacketType::ReceiveReady
            | PacketType::ReceiveNotReady,
        ) => moves(ResetState::own(role), None, ResetNote::Discarded),
        _ => unreachable!(),
    }
}
