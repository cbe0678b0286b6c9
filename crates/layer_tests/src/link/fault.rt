//! Why what is tested was not made.
use lapb::BadParams;
use std::alloc::AllocError;

/// Why a link or the end of a line was not made.
#[derive(Clone, Copy)]
pub enum LinkFault {
    BadParams,
    OutOfMemory,
}

impl From<BadParams> for LinkFault {
    fn from(_: BadParams) -> Self {
        LinkFault::BadParams
    }
}

impl From<AllocError> for LinkFault {
    fn from(_: AllocError) -> Self {
        LinkFault::OutOfMemory
    }
}
