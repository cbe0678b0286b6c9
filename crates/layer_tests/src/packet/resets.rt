//! Rows of the two state tables.

use link_timers::Role;
use packet_codec::PacketType;
use reset_restart::{
    ResetEvent, ResetNote, ResetState, ResetStep, RestartNote, RestartState, RestartStep,
};

/// A Reset Confirmation of no reset, at a DCE.
#[test]
fn resets(rt: HostRuntime) {
    const STEP: ResetStep = ResetStep {
        state: ResetState::DceReset,
        owed: Some(PacketType::ResetRequest),
        note: ResetNote::Reset,
        error: Some(0x1b),
    };
    let event = ResetEvent::Received(PacketType::ResetConfirmation);
    assert!(rt; ResetState::step(Role::Dce, ResetState::FlowControlReady, event) == STEP);
    assert!(rt; ResetState::own(Role::Dce) == ResetState::DceReset);
}

/// A Restart Confirmation of no restart, at a DCE.
#[test]
fn restarts(rt: HostRuntime) {
    const STEP: RestartStep = RestartStep {
        state: RestartState::DceRestart,
        owed: Some(PacketType::RestartRequest),
        note: RestartNote::CallsClosed,
        error: Some(0x11),
    };
    let event = PacketType::RestartConfirmation;
    assert!(rt; RestartState::step(Role::Dce, RestartState::PacketLayerReady, event) == STEP);
    assert!(rt; RestartState::own(Role::Dce) == RestartState::DceRestart);
}
