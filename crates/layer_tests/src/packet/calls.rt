//! Rows of the state table.

use call_states::{CallEvent, CallNote, CallState, CallStep, UserAct};
use link_timers::Role;
use packet_codec::PacketType;

// A role, a state and an event, and what comes of them.
type Row = (Role, CallState, CallEvent, CallStep);

const CALL: Row = (
    Role::Dte,
    CallState::Ready,
    CallEvent::User(UserAct::Call),
    CallStep {
        state: CallState::DteWaiting,
        owed: Some(PacketType::CallRequest),
        note: CallNote::Nothing,
        error: None,
    },
);

// A Call in data transfer at a DCE is an error.
const CALL_IN_A_CALL: Row = (
    Role::Dce,
    CallState::DataTransfer,
    CallEvent::Received(PacketType::CallRequest),
    CallStep {
        state: CallState::DceClear,
        owed: Some(PacketType::ClearRequest),
        note: CallNote::Cleared,
        error: Some(0x17),
    },
);

const ROWS: &[Row] = &[CALL, CALL_IN_A_CALL];

#[test]
fn steps_are_those_of_the_table(rt: HostRuntime) {
    for (role, state, event, step) in ROWS {
        assert!(rt; CallState::step(*role, *state, *event) == *step);
    }
}

/// Where two calls meet the DCE may accept, and the DTE may not.
#[test]
fn a_dce_accepts_where_calls_meet(rt: HostRuntime) {
    assert!(rt; CallState::CallCollision.allows(Role::Dce, UserAct::Accept));
    assert!(rt; !CallState::CallCollision.allows(Role::Dte, UserAct::Accept));
}
