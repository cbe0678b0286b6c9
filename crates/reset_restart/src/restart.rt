//! The states of restart.

ghost use Rattle.std.specs.Prelude.{◌≡◌, IsSome};
ghost use Rattle.reset_restart.specs.Restart.{own_restart, end_state_of, restart_step, step_at};
ghost use Rattle.reset_restart.specs.Restart.EndState.{Ready, OwnRestart};

use link_timers::Role;
use packet_codec::{PacketType, diagnostic};

/// The state of a line's packet layer (X.25 3).
#[derive(Clone, Copy, PartialEq, Eq)]
pub enum RestartState {
    /// r1: packet layer ready.
    PacketLayerReady,
    /// r2: the DTE restarts.
    DteRestart,
    /// r3: the DCE restarts.
    DceRestart,
}

/// What a step tells the users of this end.
#[derive(Clone, Copy, PartialEq, Eq)]
pub enum RestartNote {
    /// Nothing.
    Nothing,
    /// All calls of the line are closed, and all channels in p1.
    CallsClosed,
    /// The packet is discarded.
    Discarded,
}

/// What a received packet makes of a line's packet layer.
#[derive(Clone, Copy, PartialEq, Eq)]
pub struct RestartStep {
    /// The new state.
    pub state: RestartState,
    /// The type of the packet that is owed to the other end.
    pub owed: Option<PacketType>,
    /// What the users are told.
    pub note: RestartNote,
    /// The diagnostic, if the packet is a procedure error.
    pub error: Option<u8>,
}

impl RestartState {
    /// The state in which this end restarts: r2 for a DTE, r3 for a DCE.
    pub fn own(role: Role) -> RestartState
        ensures { result ≡ own_restart role }
    {
        match role {
            Role::Dte => RestartState::DteRestart,
            Role::Dce => RestartState::DceRestart,
        }
    }

    /// The step of the state table for a received packet of the type. The table has a row for the role, the state and
    /// the type (X.25 Annex C, table C-2).
    #[tactic(auto, using(crate::proofs::RestartRows::kept_at))]
    pub fn step(role: Role, state: RestartState, event: PacketType) -> RestartStep
        requires { IsSome (restart_step role state event) }
        ensures row { restart_step role state event ≡ Some result }
        // The state that the other end begins is never entered.
        ensures kept { IsSome (end_state_of role result.state) }
    {
        match (role, state) {
            (_, RestartState::PacketLayerReady) => in_packet_layer_ready(role, event),
            (Role::Dte, RestartState::DteRestart) | (Role::Dce, RestartState::DceRestart) => {
                in_own_restart(role, event)
            }
            (Role::Dte, RestartState::DceRestart) | (Role::Dce, RestartState::DteRestart) => {
                unreachable!()
            }
        }
    }
}

fn in_packet_layer_ready(role: Role, event: PacketType) -> RestartStep
    requires { IsSome (step_at role Ready event) }
    ensures { step_at role Ready event ≡ Some result }
{
    match event {
        PacketType::RestartRequest => RestartStep {
            state: RestartState::PacketLayerReady,
            owed: Some(PacketType::RestartConfirmation),
            note: RestartNote::CallsClosed,
            error: None,
        },
        PacketType::RestartConfirmation => RestartStep {
            state: RestartState::own(role),
            owed: Some(PacketType::RestartRequest),
            note: RestartNote::CallsClosed,
            error: Some(diagnostic::NOT_ALLOWED_IN_R1),
        },
        _ => unreachable!(),
    }
}

fn in_own_restart(role: Role, event: PacketType) -> RestartStep
    requires { IsSome (step_at role OwnRestart event) }
    ensures { step_at role OwnRestart event ≡ Some result }
{
    let (state, note) = match event {
        PacketType::RestartRequest | PacketType::RestartConfirmation => {
            (RestartState::PacketLayerReady, RestartNote::Nothing)
        }
        _ => (RestartState::own(role), RestartNote::Discarded),
    };
    RestartStep {
        state,
        owed: None,
        note,
        error: None,
    }
}
