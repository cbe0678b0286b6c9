//! Why a line is no command.
use thiserror::Error;

/// Why a line is no command.
#[derive(Clone, Copy, Debug, PartialEq, Eq, Error)]
pub enum CommandFault {
    /// The line does not begin with a keyword, or something follows one that stands alone.
    #[error("there is no such command")]
    Unknown,
    /// A number, a colon or a pair is missing or wrong.
    #[error("a number or a pair is wrong")]
    BadNumber,
    /// A selection has no address, or something else after it.
    #[error("the selection is wrong")]
    BadAddress,
    /// The line, a list or the user data is too long.
    #[error("the line is too long")]
    TooLong,
}
