//! What a line asks of whoever has its connection and the log.
use line_carriers::CarrierFault;
use thiserror::Error;

/// Why this end closed a connection.
#[derive(Clone, Copy, Debug, Error)]
pub enum Ending {
    /// What came over it is not what a partner says, or there was no room for an answer.
    #[error("{0}")]
    Fault(CarrierFault),
    /// Nothing came over it for the time of silence.
    #[error("silence")]
    Silence,
}

/// What is to be done for a line.
#[derive(Clone, Copy)]
pub enum LineOrder {
    /// Its connection is to be closed, and the log is told why.
    Close(Ending),
    /// The log is told that it is open.
    TellOpen,
    /// The log is told that it is closed.
    TellClosed,
}
