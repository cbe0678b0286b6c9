//! What a network keeps of each end's part in a call, and which two of these make a call.
ghost use Rattle.std.specs.Prelude.{◌≡◌, ◌≤◌, OnOk};
ghost use Rattle.call_records.specs.Records.{new_record, with_epoch, with_hop};
ghost use Rattle.call_records.specs.RecordView.{shown, grown, needed, left, Fits, HasPlaces, HasNoPlaces, IsCounted, hop_of};

use arrayvec::ArrayVec;
use epochs::{Interrupt, Passed, PassedPacket, drop_spare};
use packet_codec::Address;
use std::alloc::{AllocError, Global};
use x3_params::Params;

/// A step of editing at a PAD, with the parameters that were then in force.
#[derive(Clone, Copy)]
pub enum EditStep {
    /// A key that was taken.
    Key { octet: u8, params: Params },
    /// The end of the idle time (X.3 3.4).
    Idle { params: Params },
}

/// How many hops a path has at most.
const MOST_HOPS: usize = 16;

/// A hop of a call: a switch placed it onward, on a channel of a line.
#[derive(Clone, Copy, Default)]
pub struct Hop {
    /// The number of the switch's node.
    pub switch: usize,
    /// The number of the line.
    pub line: usize,
    pub channel: u8,
}

/// One end's part in one call.
#[derive(Drop)]
pub struct Record {
    /// The number of the record in the order of making, from 0.
    pub number: usize,
    /// The number of the node whose call this is.
    pub node: usize,
    /// The address of this end: of a callee the called one, of a caller that of its line, if the line has any. A
    /// standing call has none.
    pub own: Option<Address>,
    /// The address of the far end.
    pub far: Option<Address>,
    /// If the call came in, the number of the record with which the other end placed it.
    pub(crate) caller: Option<usize>,
    /// Of a caller, the hops over which the call goes on from its own line.
    pub path: ArrayVec<Hop, MOST_HOPS>,
    /// What this end sent; a packet counts that a received P(R) covered.
    pub sent: Passed,
    /// What this end took; a packet counts that was released.
    pub taken: Passed,
    /// Whether the call is over for this end.
    pub closed: bool,
    /// The steps of editing, at a PAD.
    pub steps: Vec<EditStep>,
    /// For how many writes every list has room, as far as it is known.
    pub(crate) places: usize,
}

/// A call: the numbers of the records of the end that called and of the end that was called.
#[derive(Clone, Copy, PartialEq, Eq)]
pub struct Pair {
    pub caller: usize,
    pub callee: usize,
}

/// What a write adds to a record.
#[derive(Drop)]
pub(crate) enum Growth<'a> {
    /// A packet that was accepted to be sent.
    Sent(PassedPacket<'a>),
    /// An interrupt that was accepted to be sent.
    InterruptSent(Interrupt),
    /// A packet that was taken.
    Taken(PassedPacket<'a>),
    /// An interrupt that was taken.
    InterruptTaken(Interrupt),
    /// So many more of the packets sent are covered.
    Covered(usize),
    /// So many more of the packets taken are released.
    Released(usize),
    /// A step of editing.
    Step(EditStep),
    /// A reset opens an epoch.
    Epoch,
    /// The call is over for this end.
    Closed,
}

impl Growth<'_> {
    /// The room that it leaves.
    #[inline(always)]
    pub(crate) fn left(&self, room: usize) -> usize
        requires { needed self.now ≤ room }
        ensures { result ≡ left self.now room }
    {
        match self {
            Growth::Covered(_) | Growth::Released(_) | Growth::Closed => room,
            Growth::Epoch => 0,
            Growth::Sent(packet) | Growth::Taken(packet) => room - packet.places(),
            Growth::InterruptSent(_) | Growth::InterruptTaken(_) | Growth::Step(_) => room - 1,
        }
    }
}

/// The addresses of a call, as one of its ends sees them. An end without an address has none.
#[derive(Clone, Copy)]
pub(crate) struct Addresses {
    pub(crate) own: Option<Address>,
    pub(crate) far: Option<Address>,
}

impl Record {
    /// The record of an end's part in a new call, with the room of spare lists, if there are any.
    pub(crate) fn new(
        alloc: Global,
        spare: &mut Vec<Passed>,
        number: usize,
        node: usize,
        addresses: Addresses,
        caller: Option<usize>,
    ) -> Self
        ensures shown { shown result ≡ new_record number node addresses.own addresses.far caller }
        ensures counted { IsCounted result }
    {
        Record {
            number,
            node,
            own: addresses.own,
            far: addresses.far,
            caller,
            path: ArrayVec::new(),
            sent: Passed::from_spare(alloc, spare),
            taken: Passed::from_spare(alloc, spare),
            closed: false,
            steps: Vec::new(alloc),
            places: 0,
        }
    }

    /// Makes room for so many writes in every list, unless it is known to be there.
    pub(crate) fn reserve(&mut self, count: usize) -> Result<(), AllocError>
        ensures same { shown self.new ≡ shown self.old }
        ensures ok { OnOk result (count ≤ self.new.places) }
        ensures counted { IsCounted self.old → IsCounted self.new }
    {
        if count <= self.places {
            return Ok(());
        }
        self.places = 0;
        self.sent.reserve(count)?;
        self.taken.reserve(count)?;
        self.steps.reserve(count)?;
        self.places = count;
        Ok(())
    }

    /// Grows by a write.
    #[inline(always)]
    pub(crate) fn grow(&mut self, growth: Growth<'_>)
        requires places { needed growth ≤ self.old.places }
        requires counted { IsCounted self.old }
        requires fits { Fits growth }
        ensures shown { shown self.new ≡ grown growth.entry (shown self.old) }
        ensures places { self.new.places ≡ left growth.entry self.old.places }
        ensures counted { IsCounted self.new }
    {
        self.places = growth.left(self.places);
        match growth {
            Growth::Sent(packet) => self.sent.push(packet),
            Growth::InterruptSent(interrupt) => self.sent.push_interrupt(interrupt),
            Growth::Taken(packet) => self.taken.push(packet),
            Growth::InterruptTaken(interrupt) => self.taken.push_interrupt(interrupt),
            Growth::Covered(count) => self.sent.count(count),
            Growth::Released(count) => self.taken.count(count),
            Growth::Step(step) => self.steps.push_reserved(step),
            Growth::Epoch => self.open_epoch(),
            Growth::Closed => self.closed = true,
        }
    }

    /// The call goes on over one more hop, if its path has room for it.
    pub(crate) fn go_on(&mut self, hop: Hop)
        ensures shown { shown self.new ≡ with_hop (hop_of hop) (shown self.old) }
        ensures places { self.new.places ≡ self.old.places }
        ensures counted { IsCounted self.old → IsCounted self.new }
    {
        if !self.path.is_full() {
            self.path.push(hop);
        }
    }

    /// Gives back what room there is beyond what the record has, as far as there is memory for it.
    pub(crate) fn drop_spare(
        &mut self,
        alloc: Global,
        spare: &mut Vec<Passed>,
    ) -> Result<(), AllocError>
        ensures same { shown self.new ≡ shown self.old }
        ensures fits { OnOk result (HasNoPlaces self.new) }
        ensures counted { IsCounted self.new }
    {
        self.places = 0;
        self.sent.drop_spare(alloc, spare)?;
        self.taken.drop_spare(alloc, spare)?;
        drop_spare(alloc, &mut self.steps)
    }

    /// Opens an epoch in both directions.
    fn open_epoch(&mut self)
        requires { HasPlaces 1 self.old }
        ensures shown { shown self.new ≡ with_epoch (shown self.old) }
        ensures places { self.new.places ≡ self.old.places }
    {
        self.sent.end_epoch();
        self.taken.end_epoch();
    }
}
