//! What passed in one direction of a call, epoch by epoch, that is, between two resets.
ghost use Rattle.std.specs.Bool.{OnTrue};
ghost use Rattle.std.specs.Prelude.{◌≡◌, ◌≤◌, ◌*◌, option_map, slice_get, length, OnOk};
ghost use Rattle.epochs.specs.Counted.{counted as counted_of};
ghost use Rattle.epochs.specs.Packets.{data_packet_of, places_of};
ghost use Rattle.epochs.specs.Passed.{first_epoch, with_packet, with_interrupt, with_counted, with_end};
ghost use Rattle.epochs.specs.Passed.{HasSpare, HasNoSpare, HasUsed};
ghost use Rattle.epochs.specs.EpochEnds.{outset, end_of, part_between, part_of, IsWithin};

use crate::interrupt::Interrupt;
use crate::packets::{Packets, PacketsIter, PassedPacket};
use crate::spare::drop_spare;
use std::alloc::{AllocError, Global};
use std::marker::Model;
use std::mem::replace;

/// Where an epoch ended: how many packets and interrupts had passed on the call by then, and how many of the packets of
/// this epoch counted.
#[derive(Clone, Copy)]
struct EpochEnd {
    packets: usize,
    interrupts: usize,
    counted: usize,
}

/// What passed in one direction in one epoch: the packets and the interrupts, and how many of the packets counted. A
/// packet that was sent counts if a received P(R) covered it, one that was taken if it was released.
#[derive(Drop)]
pub struct Epoch<'a> {
    pub packets: PacketsIter<'a>,
    pub interrupts: &'a [Interrupt],
    pub counted: usize,
}

/// What passed in one direction of a call. The packets of all epochs lie in one list and so do the interrupts, and of
/// an epoch that ended its end alone is kept.
#[derive(Drop)]
pub struct Passed {
    packets: Packets,
    interrupts: Vec<Interrupt>,
    ends: Vec<EpochEnd>,
    // How many of the packets of the last epoch count.
    counted: usize,
}

impl Model for Passed {
    ghost use Rattle.epochs.specs.Passed.{PassedState};

    ghost Value = { PassedState };

    ghost use Rattle.epochs.specs.PassedView.{state_of, EndsAreInOrder};

    ghost view = { state_of };

    ghost invariant = { EndsAreInOrder };
}

impl Passed {
    /// One epoch, in which nothing passed yet, without room.
    pub(crate) fn new(alloc: Global) -> Self
        ensures epochs { result.epochs ≡ first_epoch }
        ensures no_room { HasNoSpare result }
    {
        Passed {
            packets: Packets::new(alloc),
            interrupts: Vec::new(alloc),
            ends: Vec::new(alloc),
            counted: 0,
        }
    }

    /// One epoch, in which nothing passed yet, with the room of a spare one, if there is one.
    pub fn from_spare(alloc: Global, spare: &mut Vec<Passed>) -> Self
        ensures { result.epochs ≡ first_epoch }
    {
        if let Some(passed) = spare.pop() {
            if passed.is_blank() {
                return passed;
            }
        }
        Passed::new(alloc)
    }

    /// Whether certainly nothing passed.
    #[tactic(auto, using(crate::proofs::Blank::nothing_passed))]
    fn is_blank(&self) -> bool
        ensures { OnTrue result (self.now.epochs ≡ first_epoch) }
    {
        self.packets.len() == 0
            && self.interrupts.is_empty()
            && self.ends.is_empty()
            && self.counted == 0
    }

    /// How many epochs ended.
    pub fn ended(&self) -> usize
        ensures { result ≡ length self.now.epochs.before }
    {
        self.ends.len()
    }

    /// The epoch of this number, from 0, of those that ended.
    pub fn before(&self, number: usize) -> Option<Epoch<'_>>
        ensures { option_map part_of result ≡ slice_get self.now.epochs.before number }
    {
        let ends = self.ends.as_slice();
        match ends.get(number) {
            Some(end) => {
                let from = last_end(&ends[..number]);
                let interrupts = self.interrupts.as_slice();
                Some(epoch_between(&self.packets, interrupts, from, *end))
            }
            None => None,
        }
    }

    /// The last epoch.
    pub fn last(&self) -> Epoch<'_>
        ensures { part_of result ≡ self.now.epochs.last }
    {
        let from = last_end(self.ends.as_slice());
        let interrupts = self.interrupts.as_slice();
        let here = end_here(&self.packets, interrupts, self.counted);
        epoch_between(&self.packets, interrupts, from, here)
    }

    /// Makes room for packets that take so many places, for as many interrupts and as many ends of epochs more.
    pub fn reserve(&mut self, count: usize) -> Result<(), AllocError>
        ensures same { self.new.epochs ≡ self.old.epochs }
        ensures ok { OnOk result (HasSpare count self.new) }
    {
        self.packets.reserve(count)?;
        self.interrupts.reserve(count)?;
        self.ends.reserve(count)
    }

    /// A packet passed.
    pub fn push(&mut self, packet: PassedPacket<'_>)
        requires fits { length packet.octets.now ≤ 1024 }
        requires spare { 130 * places_of packet.octets.now ≤ self.old.octets }
        ensures epochs { self.new.epochs ≡ with_packet (data_packet_of packet.entry) self.old.epochs }
        ensures used { HasUsed (130 * places_of packet.entry.octets.now) 0 0 self.old self.new }
    {
        self.packets.push(packet);
    }

    /// An interrupt passed.
    pub fn push_interrupt(&mut self, interrupt: Interrupt)
        requires { 1 ≤ self.old.interrupts }
        ensures epochs { self.new.epochs ≡ with_interrupt interrupt self.old.epochs }
        ensures used { HasUsed 0 1 0 self.old self.new }
    {
        self.interrupts.push_reserved(interrupt);
    }

    /// So many more of the packets of the last epoch count, if so many do not yet.
    pub fn count(&mut self, more: usize)
        ensures epochs { self.new.epochs ≡ with_counted more self.old.epochs }
        ensures used { HasUsed 0 0 0 self.old self.new }
    {
        let from = last_end(self.ends.as_slice());
        let all = self.packets.len() - from.packets;
        self.counted = counted(all, self.counted, more);
    }

    /// The last epoch ended, and another one begins.
    pub fn end_epoch(&mut self)
        requires { 1 ≤ self.old.ends }
        ensures epochs { self.new.epochs ≡ with_end self.old.epochs }
        ensures used { HasUsed 0 0 1 self.old self.new }
    {
        let here = end_here(&self.packets, self.interrupts.as_slice(), self.counted);
        self.ends.push_reserved(here);
        self.counted = 0;
    }

    /// Gives back what room there is beyond what passed, as far as there is memory for it. If nothing passed, all of it
    /// goes to the spare ones, if they are not too many.
    pub fn drop_spare(&mut self, alloc: Global, spare: &mut Vec<Passed>) -> Result<(), AllocError>
        ensures same { self.new.epochs ≡ self.old.epochs }
        ensures fits { OnOk result (HasNoSpare self.new) }
    {
        if self.is_blank() {
            let blank = replace(self, Passed::new(alloc));
            if spare.len() < spare.capacity() {
                spare.push_reserved(blank);
            }
            return Ok(());
        }
        self.packets.drop_spare(alloc)?;
        drop_spare(alloc, &mut self.interrupts)?;
        drop_spare(alloc, &mut self.ends)
    }
}

/// Where an epoch would end that ended now.
fn end_here(packets: &Packets, interrupts: &[Interrupt], counted: usize) -> EpochEnd
    ensures { result ≡ record {
      packets = length packets.now.packets;
      interrupts = length interrupts.now;
      counted = counted;
    } }
{
    EpochEnd {
        packets: packets.len(),
        interrupts: interrupts.len(),
        counted,
    }
}

/// Where the last of these epochs ended, and so where the next one begins.
fn last_end(ends: &[EpochEnd]) -> EpochEnd
    ensures { result ≡ end_of outset ends.now }
{
    let start = EpochEnd {
        packets: 0,
        interrupts: 0,
        counted: 0,
    };
    ends.last().copied().unwrap_or(start)
}

/// What passed between two ends.
fn epoch_between<'a>(
    packets: &'a Packets,
    interrupts: &'a [Interrupt],
    from: EpochEnd,
    to: EpochEnd,
) -> Epoch<'a>
    requires order { IsWithin to.packets to.interrupts from }
    requires there { IsWithin (length packets.now.packets) (length interrupts.now) to }
    ensures { part_of result ≡ part_between from to packets.now.packets interrupts.now }
{
    Epoch {
        packets: packets.between(from.packets, to.packets),
        interrupts: &interrupts[from.interrupts..to.interrupts],
        counted: to.counted,
    }
}

/// A count with so many more, where it is of so many; what would pass further is not counted.
fn counted(all: usize, count: usize, more: usize) -> usize
    ensures { result ≡ counted_of all count more }
{
    match count.checked_add(more) {
        Some(sum) if sum <= all => sum,
        _ => count,
    }
}
