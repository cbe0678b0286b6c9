//! Worked examples of packets by their octets, rows of the state tables, and the calls of a packet layer.
#[cfg(test)]
mod calls;
#[cfg(test)]
mod layers;
#[cfg(test)]
mod packets;
#[cfg(test)]
mod resets;
mod station;
