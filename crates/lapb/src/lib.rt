//! The link of one line, in either role (LAPB, X.25 2.4; ISO 7776).
#![tactic(auto)]

mod law;
mod link;
mod note;
mod out;
mod phase;
mod queue;
mod sent;

pub use law::link_law;
pub use link::{BadParams, Link, LinkParams, OfferFault};
pub use note::{Note, Timing};
pub use out::{LinkOut, MOST_FRAMES};
pub use phase::Phase;
