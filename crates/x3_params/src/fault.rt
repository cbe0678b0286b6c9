//! Why a parameter was not set.
use thiserror::Error;

/// Why a parameter was not set.
#[derive(Clone, Copy, Debug, PartialEq, Eq, Error)]
pub enum ParamFault {
    #[error("there is no such parameter")]
    NoSuchParameter,
    #[error("the parameter has no such value")]
    BadValue,
    #[error("the parameter is read only")]
    ReadOnly,
}
