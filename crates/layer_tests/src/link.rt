//! Worked examples of frames and of the link, by the octets of their frames, and the end of a line for tests.
mod fault;
#[cfg(test)]
mod frames;
#[cfg(test)]
mod links;
mod station;
mod terminus;
#[cfg(test)]
mod timers;
#[cfg(test)]
mod windows;

pub use fault::LinkFault;
pub use terminus::Terminus;
