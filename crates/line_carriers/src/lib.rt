//! One end of a line whose other end is in another process: frames over a stream of octets, as TCP carries them. A
//! connection begins with a hello of each side. The line over it is closed until both ends have opened it.
#![tactic(auto)]

mod carrier;
mod fault;
mod hello;
mod law;
mod sign;
mod wire;

pub use carrier::{Carrier, Expiry, Heard};
pub use fault::CarrierFault;
pub use hello::Hello;
pub use law::{carrier_law, cut_off_law, opening_law};
pub use sign::Sign;
