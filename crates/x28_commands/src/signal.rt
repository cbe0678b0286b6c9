//! The service signals of a PAD.
use crate::command::ENTRY_LIMIT;
use arrayvec::ArrayVec;

/// A parameter's number and its value, or none if it was refused.
#[derive(Clone, Copy, Default, PartialEq, Eq)]
pub struct ParameterValue {
    pub number: u8,
    pub value: Option<u8>,
}

/// What a PAD tells its terminal (X.28 3.5).
#[derive(Drop)]
pub enum Signal {
    /// `COM`: a call is connected.
    Connected,
    /// `CLR` and why: the call was cleared, with this cause.
    ClearIndication(u8),
    /// `CLR PAD`: the call was cleared, since the far end invited the PAD to clear it.
    InvitedToClear,
    /// `CLR CONF`: the terminal's own command cleared the call.
    ClearConfirmation,
    /// `RESET` and why: the call was reset, with this cause.
    ResetIndication(u8),
    /// `FREE`: there is no call.
    Free,
    /// `ENGAGED`: there is one.
    Engaged,
    /// `ERR`: the command was not read, or could not be carried out.
    Error,
    /// `PAR` and values of parameters.
    Parameters(ArrayVec<ParameterValue, ENTRY_LIMIT>),
    /// A new line alone: the command was carried out.
    Acknowledgement,
    /// `*`: the PAD waits for a command.
    Prompt,
}
