//! The messages and their parts.
use arrayvec::ArrayVec;

/// How many pairs a message has at most.
pub const PAIR_LIMIT: usize = 63;

/// References of parameters, each with a value.
pub type Pairs = ArrayVec<(u8, u8), PAIR_LIMIT>;

/// The octets of a message.
pub type MessageBuf = ArrayVec<u8, 128>;

/// A message between a PAD and a host (X.29 4.4).
#[derive(Drop)]
pub enum Message {
    /// Code 0: values of parameters, in answer to a message that asked for them.
    ParameterIndication(Pairs),
    /// Code 1: asks the PAD to clear the call.
    InvitationToClear,
    /// Code 2: sets parameters.
    Set(Pairs),
    /// Code 3: tells of a break.
    IndicationOfBreak(Pairs),
    /// Code 4: asks for the values of parameters.
    Read(Pairs),
    /// Code 5: a message was wrong. The type of the error, and the code of the message if it had one.
    Error(u8, Option<u8>),
    /// Code 6: sets parameters, and asks for their values.
    SetAndRead(Pairs),
}
