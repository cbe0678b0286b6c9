//! Windows of modular sequence numbers (X.25 2.4.5 and 4.4.1), for any modulus from 2 to 128.
#![tactic(auto)]

mod modulus;
pub mod pool;
mod receive;
mod send;
mod seq;

pub use modulus::{Mod8, Mod128, Modulus};
pub use receive::{Offer, RecvWindow};
pub use send::{OutOfWindow, SendWindow};
pub use seq::Seq;
