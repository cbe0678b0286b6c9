//! Worked examples of the program and of what it stands on, as far as no session shows them: what networks keep of
//! calls, lines over sockets and what is printed if one of their calls fails, readers and writers that refuse a call, and
//! lines that are none of a trace.
#![tactic(auto)]

#[cfg(test)]
mod captures;
#[cfg(test)]
mod losses;
#[cfg(test)]
mod records;
#[cfg(test)]
mod socket_ends;
#[cfg(test)]
mod sockets;
#[cfg(test)]
mod streams;
#[cfg(test)]
mod terminals;
