//! Worked examples of a gateway for equipment of others, by the octets of packets and of frames: calls and their
//! facilities, what the state of a call allows, clears, restarts, faults, and the link of the line.
#![tactic(auto)]

#[cfg(test)]
mod calls;
#[cfg(test)]
mod faults;
#[cfg(test)]
mod frames;
#[cfg(test)]
mod places;
#[cfg(test)]
mod random;
#[cfg(test)]
mod restarts;
#[cfg(test)]
mod states;
#[cfg(test)]
mod steps;
