//! What a call is in, and what each packet makes of it.
ghost use Rattle.std.specs.Prelude.{◌≡◌};
ghost use Rattle.packet_codec.specs.View.{content_view};
ghost use Rattle.xot_gateway.specs.States.{is_transfer, line_move, connection_move, fault_move};
ghost use Rattle.xot_gateway.specs.Connections.{alone_in, cause_at_connection, cause_at_line};

use packet_codec::Content;
use packet_codec::clear_cause::{
    INVALID_FACILITY, LOCAL_PROCEDURE_ERROR, OUT_OF_ORDER, REMOTE_PROCEDURE_ERROR,
};

/// The state of a call on its channel of the line (X.25 4.1, Annex B).
#[derive(Clone, Copy, PartialEq, Eq)]
pub(crate) enum Phase {
    /// p2: the Call of the connection went to the line.
    DteWaiting,
    /// p3: the Call of the line went to the connection.
    DceWaiting,
    /// p4: data transfer.
    DataTransfer,
    /// p6: the Clear of the connection went to the line.
    DteClear,
    /// p7: the Clear of the line went to the connection.
    DceClear,
}

/// Why the gateway clears a call.
#[derive(Clone, Copy, PartialEq, Eq)]
pub(crate) enum Refusal {
    /// The Call Accepted of the connection asks for a facility that the network has not, or ends below the line's size or
    /// window.
    Facilities,
    /// A packet of the connection is none, or its state does not allow it.
    Procedure,
}

/// What a channel is in whose call has no connection.
#[derive(Clone, Copy, PartialEq, Eq)]
pub(crate) enum ChannelState {
    /// p1, or the call of the channel has a connection.
    Ready,
    /// A Clear of this cause is to go to the line.
    ToClear(u8),
    /// p6: it went, and is not confirmed.
    Clearing,
    /// p7: a Clear Confirmation is to go to the line.
    ToConfirm,
}

/// What the first packet of a connection becomes.
#[derive(Clone, Copy, PartialEq, Eq)]
pub(crate) enum FirstMove {
    /// A Call, on the channel of this place.
    Calls(u8),
    /// It is dropped, and the connection gets a Clear of this cause.
    Clears(u8),
    /// A Clear, which is confirmed.
    Confirms,
}

/// What becomes of a packet and of its call.
#[derive(Clone, Copy, PartialEq, Eq)]
pub(crate) enum Move {
    /// The packet is dropped.
    Drops,
    /// The packet goes on, and the call is then in this phase.
    Passes(Phase),
    /// A Clear Confirmation goes on, and the call has ended.
    Confirms,
    /// The packet is dropped, and the call is cleared on both sides.
    Refuses(Refusal),
}

impl Phase {
    /// What the channel of a call is in whose connection is gone: the call is cleared with cause 9, a Clear that went to
    /// the line is still to be confirmed there, and a Clear of the line is to be confirmed.
    pub(crate) fn alone(self) -> ChannelState
        ensures { result ≡ alone_in self }
    {
        match self {
            Phase::DteWaiting | Phase::DceWaiting | Phase::DataTransfer => {
                ChannelState::ToClear(OUT_OF_ORDER)
            }
            Phase::DteClear => ChannelState::Clearing,
            Phase::DceClear => ChannelState::ToConfirm,
        }
    }
}

impl Refusal {
    /// The cause that the connection is told.
    pub(crate) fn at_connection(self) -> u8
        ensures { result ≡ cause_at_connection self }
    {
        match self {
            Refusal::Facilities => INVALID_FACILITY,
            Refusal::Procedure => LOCAL_PROCEDURE_ERROR,
        }
    }

    /// The cause that the line is told.
    pub(crate) fn at_line(self) -> u8
        ensures { result ≡ cause_at_line self }
    {
        match self {
            Refusal::Facilities => INVALID_FACILITY,
            Refusal::Procedure => REMOTE_PROCEDURE_ERROR,
        }
    }
}

/// What a packet of the line becomes (X.25 Annex B, tables B-2 and B-3). A Call in p2 is a collision, in which the Call of
/// a DTE goes on (X.25 4.1.6).
pub(crate) fn line_move(phase: Phase, content: &Content) -> Move
    ensures { result ≡ line_move phase (content_view content.now) }
{
    match (phase, content) {
        (Phase::DceClear, _) => Move::Drops,
        (Phase::DteClear, Content::ClearRequest { .. } | Content::ClearConfirmation) => {
            Move::Confirms
        }
        (Phase::DteClear, _) => Move::Drops,
        (_, Content::ClearRequest { .. }) => Move::Passes(Phase::DceClear),
        (Phase::DteWaiting, Content::CallAccepted) => Move::Passes(Phase::DataTransfer),
        (Phase::DataTransfer, content) if is_transfer(content) => {
            Move::Passes(Phase::DataTransfer)
        }
        _ => Move::Drops,
    }
}

/// What a packet of the connection becomes, of which a Call Accepted has facilities that the network carries or not.
pub(crate) fn connection_move(phase: Phase, carried: bool, content: &Content) -> Move
    ensures { result ≡ connection_move phase carried (content_view content.now) }
{
    match (phase, content) {
        (Phase::DteClear, _) => Move::Drops,
        (Phase::DceClear, Content::ClearRequest { .. } | Content::ClearConfirmation) => {
            Move::Confirms
        }
        (Phase::DceClear, _) => Move::Drops,
        (_, Content::ClearRequest { .. }) => Move::Passes(Phase::DteClear),
        (Phase::DceWaiting, Content::CallAccepted) if carried => Move::Passes(Phase::DataTransfer),
        (Phase::DceWaiting, Content::CallAccepted) => Move::Refuses(Refusal::Facilities),
        (Phase::DataTransfer, content) if is_transfer(content) => {
            Move::Passes(Phase::DataTransfer)
        }
        _ => Move::Refuses(Refusal::Procedure),
    }
}

/// What octets of the connection become that are no packet: while a call is cleared they are dropped.
pub(crate) fn fault_move(phase: Phase) -> Move
    ensures { result ≡ fault_move phase }
{
    match phase {
        Phase::DteClear | Phase::DceClear => Move::Drops,
        _ => Move::Refuses(Refusal::Procedure),
    }
}

/// Whether a packet is one of data transfer (X.25 4.3 and 4.4), which the gateway only passes on.
fn is_transfer(content: &Content) -> bool
    ensures { result ≡ is_transfer (content_view content.now) }
{
    matches!(
        content,
        Content::Data(_)
            | Content::Interrupt(_)
            | Content::InterruptConfirmation
            | Content::ReceiveReady(_)
            | Content::ReceiveNotReady(_)
            | Content::ResetRequest { .. }
            | Content::ResetConfirmation
    )
}
