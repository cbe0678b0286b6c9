//! What becomes of a call at a socket.
use std::io;

/// What was read.
#[derive(Clone, Copy)]
pub enum Heard {
    /// Octets, which are to be taken.
    Octets,
    /// Nothing: none are there, or not all that were read before are taken.
    Nothing,
    /// The peer sends no more.
    End,
    /// The connection is broken.
    Loss,
}

/// What was written.
#[derive(Clone, Copy)]
pub enum Written {
    /// So many octets, from the first on.
    Octets(usize),
    /// Nothing: there is no room.
    Nothing,
    /// The connection is broken.
    Loss,
}

/// What became of a connection that is asked for.
#[derive(Clone, Copy)]
pub enum Made {
    /// It is not known yet.
    NotYet,
    /// It stands.
    Stands,
    /// It cannot be had.
    Failed(io::Error),
}
