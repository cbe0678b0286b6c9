//! Files of networks and services with one thing wrong, and what is told of each.
#![tactic(auto)]

#[cfg(test)]
mod edits;
#[cfg(test)]
mod networks;
#[cfg(test)]
mod services;
