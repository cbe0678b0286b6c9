//! The calls at the hosts and PADs of a network, and what is to be logged of them.
ghost use Rattle.std.specs.Prelude.{◌≡◌, length, slice_get};
ghost use Rattle.service.specs.Calls.{call_of};

use crate::absent::PadBinding;
use crate::call_address::CallAddress;
use crate::hosts::{HostBinding, HostChannel};
use line_sim::{NoteKind, Outcome, UserNote};
use packet_codec::Address;
use packet_layer::Front;
use std::alloc::{AllocError, Global};

/// How many notes of calls may be there. Their places are free again once all are logged.
const MOST_NOTES: usize = 1024;

/// What became of a call at a host or a PAD, to be logged.
#[derive(Clone, Copy)]
pub struct NotedCall {
    /// The number of the host or PAD.
    pub node: usize,
    /// The logical channel of the call.
    pub channel: u8,
    /// The terminal of the PAD that has the call, if one has it.
    pub terminal: Option<u8>,
    pub change: CallChange,
}

/// What changed.
#[derive(Clone, Copy)]
pub enum CallChange {
    /// A call came in, from this address if it was told.
    Incoming {
        from: Option<CallAddress>,
    },
    /// A call of this address was placed.
    Called {
        to: CallAddress,
    },
    /// The call was accepted, by either end.
    Connected,
    /// The call of a PAD is over, for this cause and diagnostic (0 and 0 if the PAD cleared it).
    Ended {
        cause: u8,
        diagnostic: u8,
    },
    /// The call of a host is over, for this cause and diagnostic (0 and 0 if the host cleared it), after so many seconds,
    /// in which so many octets were taken from the network and said to it.
    Cleared {
        cause: u8,
        diagnostic: u8,
        seconds: u64,
        taken: u64,
        said: u64,
    },
    /// An interrupt or a packet with Q = 1 of so many octets was taken, which no service or caller has, and was dropped.
    Dropped {
        octets: usize,
    },
    /// The call was reset, for this cause and diagnostic.
    Reset {
        cause: u8,
        diagnostic: u8,
    },
}

/// How many octets of a call went each way at a host.
#[derive(Clone, Copy)]
pub struct CallOctets {
    /// Taken from the network.
    pub taken: u64,
    /// Said to it.
    pub said: u64,
}

impl CallOctets {
    const NONE: CallOctets = CallOctets { taken: 0, said: 0 };
}

/// A call that is there.
#[derive(Clone, Copy)]
pub struct CallStatus {
    /// The number of the host or PAD.
    pub node: usize,
    /// The logical channel of the call.
    pub channel: u8,
    /// The address of the other end, if it was told.
    pub far: Option<CallAddress>,
    /// Whether this end placed it.
    pub is_ours: bool,
    /// When it began, in seconds since the beginning of 1970.
    pub since: i64,
    /// How many octets went each way. Those of a PAD's calls are not counted.
    pub octets: Option<CallOctets>,
}

/// The places for calls of a host or PAD: that of its channel 1, and how many there are.
#[derive(Clone, Copy)]
struct NodePlaces {
    node: usize,
    first: usize,
    channels: u8,
}

/// The calls at all hosts and PADs, and what is to be logged of them.
#[derive(Drop)]
pub(crate) struct Calls {
    nodes: Vec<NodePlaces>,
    calls: Vec<Option<CallStatus>>,
    /// Notes that are to be logged, from the next one on.
    notes: Vec<NotedCall>,
    next: usize,
    missed: u64,
}

impl Calls {
    /// No call at these hosts and PADs.
    pub(crate) fn new(
        alloc: Global,
        hosts: &[HostBinding],
        pads: &[PadBinding],
    ) -> Result<Self, AllocError> {
        let mut calls = Calls {
            nodes: Vec::new(alloc),
            calls: Vec::new(alloc),
            notes: Vec::with_capacity(alloc, MOST_NOTES)?,
            next: 0,
            missed: 0,
        };
        for host in hosts {
            calls.add(host.node, host.channels)?;
        }
        for pad in pads {
            calls.add(pad.node, pad.channels)?;
        }
        Ok(calls)
    }

    /// Adds places for so many calls of a node.
    fn add(&mut self, node: usize, channels: u8) -> Result<(), AllocError> {
        self.nodes.push(NodePlaces {
            node,
            first: self.calls.len(),
            channels,
        })?;
        for _ in 0..channels {
            self.calls.push(None)?;
        }
        Ok(())
    }

    /// Hears what a host was told.
    pub(crate) fn hear(&mut self, note: &UserNote, seconds: i64) {
        let at = HostChannel::of(note);
        match note.kind {
            NoteKind::Incoming { ref calling, .. } => {
                self.ring(at, address_of(calling), seconds);
            }
            NoteKind::Dialled { ref called } => self.place(at, called, seconds),
            NoteKind::Connected => self.connect(at),
            NoteKind::Cleared { cause, diagnostic } => self.clear(at, cause, diagnostic, seconds),
            NoteKind::Reset { cause, diagnostic } => {
                self.note(at, CallChange::Reset { cause, diagnostic });
            }
        }
    }

    /// Hears what a PAD was told of the call of a terminal, if one has it.
    pub(crate) fn hear_terminal(&mut self, note: &UserNote, terminal: Option<u8>, seconds: i64) {
        let at = HostChannel::of(note);
        let change = match note.kind {
            NoteKind::Incoming { ref calling, .. } => {
                let from = address_of(calling);
                self.begin(at, from, false, None, seconds);
                CallChange::Incoming { from }
            }
            NoteKind::Dialled { ref called } => {
                let to = CallAddress::of(called);
                self.begin(at, Some(to), true, None, seconds);
                CallChange::Called { to }
            }
            NoteKind::Connected => CallChange::Connected,
            NoteKind::Cleared { cause, diagnostic } => {
                self.end(at);
                CallChange::Ended { cause, diagnostic }
            }
            NoteKind::Reset { cause, diagnostic } => CallChange::Reset { cause, diagnostic },
        };
        self.keep(NotedCall {
            node: note.node,
            channel: note.channel,
            terminal,
            change,
        });
    }

    fn ring(&mut self, at: HostChannel, from: Option<CallAddress>, seconds: i64) {
        self.begin(at, from, false, Some(CallOctets::NONE), seconds);
        self.note(at, CallChange::Incoming { from });
    }

    fn begin(
        &mut self,
        at: HostChannel,
        far: Option<CallAddress>,
        is_ours: bool,
        octets: Option<CallOctets>,
        seconds: i64,
    ) {
        if let Some(place) = self.place_mut(at) {
            *place = Some(CallStatus {
                node: at.node,
                channel: at.channel,
                far,
                is_ours,
                since: seconds,
                octets,
            });
        }
    }

    /// A call is over: gives it, if it was there.
    fn end(&mut self, at: HostChannel) -> Option<CallStatus> {
        match self.place_mut(at) {
            Some(place) => place.take(),
            None => None,
        }
    }

    /// A call of this address was placed on this channel, or could not be.
    pub(crate) fn place_on(&mut self, at: Option<HostChannel>, to: &Address, seconds: i64) {
        if let Some(at) = at {
            self.place(at, to, seconds);
        }
    }

    /// A call of this address was placed.
    fn place(&mut self, at: HostChannel, to: &Address, seconds: i64) {
        let to = CallAddress::of(to);
        self.begin(at, Some(to), true, Some(CallOctets::NONE), seconds);
        self.note(at, CallChange::Called { to });
    }

    /// A call was accepted.
    pub(crate) fn connect(&mut self, at: HostChannel) {
        self.note(at, CallChange::Connected);
    }

    /// A call is over.
    pub(crate) fn clear(&mut self, at: HostChannel, cause: u8, diagnostic: u8, seconds: i64) {
        let Some(call) = self.end(at) else {
            return;
        };
        let CallOctets { taken, said } = call.octets.unwrap_or(CallOctets::NONE);
        self.note(
            at,
            CallChange::Cleared {
                cause,
                diagnostic,
                seconds: seconds_between(call.since, seconds),
                taken,
                said,
            },
        );
    }

    /// Something was taken for a bridge: user data without Q, or what is dropped.
    pub(crate) fn take(&mut self, at: HostChannel, outcome: Outcome, octets: usize) {
        match outcome {
            Outcome::Took(
                Some(
                    Front::Data {
                        qualified: false,
                        ..
                    },
                ),
            ) => self.took(at, octets),
            Outcome::Took(Some(_)) => self.note(at, CallChange::Dropped { octets }),
            _ => {}
        }
    }

    /// So many octets were taken from the network.
    pub(crate) fn took(&mut self, at: HostChannel, count: usize) {
        if let Some(octets) = self.octets_mut(at) {
            octets.taken = octets.taken.saturating_add(count as u64);
        }
    }

    /// So many octets were said to the network.
    pub(crate) fn said(&mut self, at: HostChannel, count: usize) {
        if let Some(octets) = self.octets_mut(at) {
            octets.said = octets.said.saturating_add(count as u64);
        }
    }

    fn octets_mut(&mut self, at: HostChannel) -> Option<&mut CallOctets> {
        match self.place_mut(at) {
            Some(Some(call)) => call.octets.as_mut(),
            _ => None,
        }
    }

    fn note(&mut self, at: HostChannel, change: CallChange) {
        self.keep(NotedCall {
            node: at.node,
            channel: at.channel,
            terminal: None,
            change,
        });
    }

    /// Keeps a note to be logged. One for which there is no place is counted.
    fn keep(&mut self, note: NotedCall) {
        if self.notes.len() >= MOST_NOTES || self.notes.push(note).is_err() {
            self.missed = self.missed.saturating_add(1);
        }
    }

    /// The next note that is to be logged.
    pub(crate) fn next_note(&mut self) -> Option<NotedCall> {
        let note = *self.notes.get(self.next)?;
        self.next += 1;
        if self.next == self.notes.len() {
            self.notes.clear();
            self.next = 0;
        }
        Some(note)
    }

    /// How many notes had no place since this was last asked, if any.
    pub(crate) fn next_missed(&mut self) -> Option<u64> {
        if self.missed == 0 {
            return None;
        }
        let missed = self.missed;
        self.missed = 0;
        Some(missed)
    }

    /// How many places for calls there are.
    pub(crate) fn len(&self) -> usize
        ensures { result ≡ length self.now.calls.items }
    {
        self.calls.len()
    }

    /// The call of this place, if one is there.
    pub(crate) fn get(&self, place: usize) -> Option<CallStatus>
        ensures { result ≡ call_of (slice_get self.now.calls.items place) }
    {
        match self.calls.get(place) {
            Some(call) => *call,
            None => None,
        }
    }

    fn place_mut(&mut self, at: HostChannel) -> Option<&mut Option<CallStatus>> {
        let places = self.nodes.iter().find(|places| places.node == at.node)?;
        if at.channel > places.channels {
            return None;
        }
        let after_first = usize::from(at.channel.checked_sub(1)?);
        self.calls.get_mut(places.first.checked_add(after_first)?)
    }
}

/// How many seconds one time is after another; 0 if it is before it.
fn seconds_between(from: i64, to: i64) -> u64 {
    u64::try_from(to.saturating_sub(from)).unwrap_or(0)
}

/// The digits of an address, if there is one.
fn address_of(address: &Option<Address>) -> Option<CallAddress> {
    match address {
        Some(address) => Some(CallAddress::of(address)),
        None => None,
    }
}
