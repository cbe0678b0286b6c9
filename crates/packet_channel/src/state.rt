//! The state of a logical channel in call set-up and clearing (X.25 tables C-1 and C-2), seen from one end.
ghost use Rattle.std.specs.Prelude.{◌≡◌, ◌≤◌};
ghost use Rattle.packet_channel.specs.Channel as machine;
ghost use Rattle.packet_channel.specs.StateView.{state_of};

use data_transfer::Flow;
use link_timers::Role;
use packet_codec::clear_cause;

/// The states p1 to p7 of a channel. "Own" is what this end began, "far" what the other end did.
#[derive(Clone, Copy, PartialEq, Eq)]
pub enum ChannelState {
    /// p1.
    Ready,
    /// p2 of a DTE, p3 of a DCE.
    OwnWaiting,
    /// p3 of a DTE, p2 of a DCE.
    FarWaiting,
    /// p4.
    Transfer,
    /// p5.
    Collision,
    /// p6 of a DTE, p7 of a DCE.
    OwnClear,
}

impl ChannelState {
    /// The number of the state, 1 to 7.
    pub(crate) fn number(self, role: Role) -> u8
        ensures value { result ≡ machine.p_number role (state_of self) }
        ensures most { result ≤ 7 }
    {
        match (self, role) {
            (ChannelState::Ready, _) => 1,
            (ChannelState::OwnWaiting, Role::Dte) | (ChannelState::FarWaiting, Role::Dce) => 2,
            (ChannelState::OwnWaiting, Role::Dce) | (ChannelState::FarWaiting, Role::Dte) => 3,
            (ChannelState::Transfer, _) => 4,
            (ChannelState::Collision, _) => 5,
            (ChannelState::OwnClear, Role::Dte) => 6,
            (ChannelState::OwnClear, Role::Dce) => 7,
        }
    }

    /// Whether the user may accept a call.
    pub fn may_accept(self, role: Role) -> bool
        ensures { result ≡ machine.may_accept role (state_of self) }
    {
        match (self, role) {
            (ChannelState::FarWaiting, _) | (ChannelState::Collision, Role::Dce) => true,
            (ChannelState::Collision, Role::Dte)
            | (ChannelState::Ready, _)
            | (ChannelState::OwnWaiting, _)
            | (ChannelState::Transfer, _)
            | (ChannelState::OwnClear, _) => false,
        }
    }

    /// Whether there is a call, being set up or in data transfer.
    pub fn has_call(self) -> bool
        ensures clears { result ≡ machine.may_clear (state_of self) }
        ensures had { result ≡ machine.had_call (state_of self) }
    {
        match self {
            ChannelState::Ready | ChannelState::OwnClear => false,
            ChannelState::OwnWaiting
            | ChannelState::FarWaiting
            | ChannelState::Transfer
            | ChannelState::Collision => true,
        }
    }

    /// Whether the call is in data transfer, in p4.
    pub fn in_transfer(self) -> bool
        ensures { result ≡ machine.in_transfer (state_of self) }
    {
        match self {
            ChannelState::Transfer => true,
            ChannelState::Ready
            | ChannelState::OwnWaiting
            | ChannelState::FarWaiting
            | ChannelState::Collision
            | ChannelState::OwnClear => false,
        }
    }

    pub(crate) fn is_ready(self) -> bool
        ensures { result ≡ machine.is_ready (state_of self) }
    {
        match self {
            ChannelState::Ready => true,
            ChannelState::OwnWaiting
            | ChannelState::FarWaiting
            | ChannelState::Transfer
            | ChannelState::Collision
            | ChannelState::OwnClear => false,
        }
    }

    /// Whether the own call waits for its answer.
    pub fn waits_for_call(self, role: Role) -> bool
        ensures { result ≡ machine.waits_for_call role (state_of self) }
    {
        match (self, role) {
            (ChannelState::OwnWaiting, _) | (ChannelState::Collision, Role::Dte) => true,
            (ChannelState::Collision, Role::Dce)
            | (ChannelState::Ready, _)
            | (ChannelState::FarWaiting, _)
            | (ChannelState::Transfer, _)
            | (ChannelState::OwnClear, _) => false,
        }
    }

    /// Whether the own clear waits for its confirmation.
    pub fn waits_for_clear(self) -> bool
        ensures { result ≡ machine.waits_for_clear (state_of self) }
    {
        match self {
            ChannelState::OwnClear => true,
            ChannelState::Ready
            | ChannelState::OwnWaiting
            | ChannelState::FarWaiting
            | ChannelState::Transfer
            | ChannelState::Collision => false,
        }
    }
}

/// The most logical channels of a line.
pub const MOST_CHANNELS: u8 = 32;

/// The end of a line at which a channel is seen: its role, the flow control parameters of the line, and the channel's
/// number.
#[derive(Clone, Copy)]
pub struct End {
    pub role: Role,
    pub flow: Flow,
    pub channel: u8,
}

/// The cause of a procedure error: a DCE sends this one, a DTE 0 (X.25 5.2.3, 5.4.3, 5.5.1).
pub fn error_cause(role: Role, cause: u8) -> u8
    ensures { result ≡ machine.error_cause role cause }
{
    match role {
        Role::Dte => clear_cause::DTE_ORIGINATED,
        Role::Dce => cause,
    }
}
