//! The hosts of a network, and the calls of their built-in services.
use crate::builtin::{BuiltIn, Call, Turn};
use line_sim::{NoteKind, Outcome, UserNote};
use packet_layer::Front;
use std::alloc::{AllocError, Global};

/// A host: its number in the network, how many logical channels its line has, and its built-in service. Without one each
/// call that comes in is refused at once.
#[derive(Clone, Copy)]
pub struct HostBinding {
    pub node: usize,
    pub channels: u8,
    pub service: Option<BuiltIn>,
}

/// A host, its service and its calls, by their channels from 1 on.
#[derive(Drop)]
struct Host {
    node: usize,
    service: Option<BuiltIn>,
    calls: Vec<Call>,
}

/// A logical channel of a host.
#[derive(Clone, Copy)]
pub(crate) struct HostChannel {
    pub(crate) node: usize,
    pub(crate) channel: u8,
}

impl HostChannel {
    /// The one of a note.
    pub(crate) fn of(note: &UserNote) -> Self {
        HostChannel {
            node: note.node,
            channel: note.channel,
        }
    }
}

/// All hosts.
#[derive(Drop)]
pub(crate) struct Hosts {
    hosts: Vec<Host>,
}

impl Hosts {
    /// These hosts, without calls.
    pub(crate) fn new(alloc: Global, bindings: &[HostBinding]) -> Result<Self, AllocError> {
        let mut hosts = Vec::new(alloc);
        for binding in bindings {
            hosts.push(Host::new(alloc, binding)?)?;
        }
        Ok(Hosts { hosts })
    }

    pub(crate) fn len(&self) -> usize {
        self.hosts.len()
    }

    /// How many channels a host has.
    pub(crate) fn channels(&self, host: usize) -> u8 {
        match self.hosts.get(host) {
            Some(host) => host.channels(),
            None => 0,
        }
    }

    /// What is to be done next on the channel of this place of a host, from 0, and which one it is in the network.
    pub(crate) fn turn(&self, host: usize, place: u8) -> Option<(HostChannel, Turn)> {
        let host = self.hosts.get(host)?;
        let call = host.calls.get(usize::from(place))?;
        let node = host.node;
        let channel = place.checked_add(1)?;
        Some((HostChannel { node, channel }, call.turn(host.service)))
    }

    /// The call of a channel.
    pub(crate) fn call_mut(&mut self, at: HostChannel) -> Option<&mut Call> {
        let host = self.hosts.iter_mut().find(|host| host.node == at.node)?;
        host.calls.get_mut(usize::from(at.channel.checked_sub(1)?))
    }

    /// Hears what was taken on a channel. What is qualified, and interrupts, are dropped.
    pub(crate) fn take(&mut self, at: HostChannel, outcome: &Outcome, octets: &[u8]) {
        if is_message(outcome)
            && let Some(call) = self.call_mut(at)
        {
            call.hold(octets);
        }
    }

    /// Hears what a host was told.
    pub(crate) fn hear(&mut self, note: &UserNote) {
        let Some(call) = self.call_mut(HostChannel::of(note)) else {
            return;
        };
        match note.kind {
            NoteKind::Incoming { .. } => call.ring(),
            NoteKind::Dialled { .. } | NoteKind::Connected => {}
            NoteKind::Cleared { .. } => call.end(),
            NoteKind::Reset { .. } => call.reset(),
        }
    }
}

impl Host {
    fn new(alloc: Global, binding: &HostBinding) -> Result<Self, AllocError> {
        let mut calls = Vec::new(alloc);
        for _ in 0..binding.channels {
            calls.push(Call::new(alloc)?)?;
        }
        Ok(Host {
            node: binding.node,
            service: binding.service,
            calls,
        })
    }

    fn channels(&self) -> u8 {
        u8::try_from(self.calls.len()).unwrap_or(u8::MAX)
    }
}

/// Whether user data was taken that is not qualified.
fn is_message(outcome: &Outcome) -> bool {
    matches!(
        outcome,
        Outcome::Took(Some(Front::Data {
            qualified: false,
            ..
        }))
    )
}
