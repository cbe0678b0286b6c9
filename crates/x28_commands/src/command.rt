//! The commands of a terminal.
use arrayvec::ArrayVec;
use packet_codec::Address;

/// How many entries a list has at most: one for each parameter.
pub const ENTRY_LIMIT: usize = 18;

/// How many octets of user data a selection has at most.
pub const USER_DATA_LIMIT: usize = 12;

/// A command of a terminal to its PAD (X.28 3.2).
#[derive(Drop)]
pub enum Command {
    /// Nothing but spaces.
    Empty,
    /// `STAT`: asks whether there is a call.
    Status,
    /// `CLR`: clears the call.
    Clear,
    /// `INT`: sends an interrupt.
    Interrupt,
    /// `RESET`: resets the call.
    Reset,
    /// `PROF`: takes the values of a profile, by its number.
    Profile(u8),
    /// `PAR?`: asks for the values of parameters, by their numbers; of all for none.
    Read(ArrayVec<u8, ENTRY_LIMIT>),
    /// `SET`: sets parameters, each by its number and its value.
    Set(ArrayVec<(u8, u8), ENTRY_LIMIT>),
    /// `SET?`: sets parameters, and asks for their values.
    SetAndRead(ArrayVec<(u8, u8), ENTRY_LIMIT>),
    /// A line that begins with a digit: calls an address.
    Select(Selection),
}

/// The selection of a call.
#[derive(Drop)]
pub struct Selection {
    /// The address to be called.
    pub address: Address,
    /// The octets after `D` or `P`.
    pub user_data: ArrayVec<u8, USER_DATA_LIMIT>,
}
