//! What a packet of data transfer was.
/// What a packet of data transfer was (X.25 4.3, 4.4).
#[derive(Clone, Copy)]
pub enum Heard {
    /// The packet is in order, and its P(R), if it has one, newly covers so many packets.
    Keeps(u8),
    /// The packet confirms the interrupt.
    Confirms,
    /// The packet is a procedure error with this diagnostic.
    Wrong(u8),
}
