//! The two ends of a line, channel by channel.
ghost use Rattle.std.specs.Prelude.{◌≡◌, ◌≤◌, List, [], IfOk, Some, None, length, replicate};
ghost use Rattle.call_records.specs.Records.{RecordValue, PairValue};
ghost use Rattle.packet_codec.specs.Digits.{digits_or_none};
ghost use Rattle.call_records.specs.Book.{address_of, free_slot, nth_slot, with_nth, side_of, with_slot};
ghost use Rattle.call_records.specs.BookView.{book_with, CallsHavePlaces};
ghost use Rattle.call_records.specs.RecordView.{PlacesAt};
ghost use Rattle.call_records.specs.Register.{holds};

use crate::record::Record;
use link_timers::Role;
use packet_codec::Address;
use std::alloc::{AllocError, Global};
use std::marker::Model;

/// A channel at an end of the line: the number of the record of the present call, that of the call that this end placed
/// there last, and where the present call came in, that of the record of the end that placed it.
#[derive(Clone, Copy)]
pub(crate) struct Slot {
    pub(crate) present: Option<usize>,
    pub(crate) placed: Option<usize>,
    pub(crate) caller: Option<usize>,
}

impl Model for Slot {
    ghost use Rattle.call_records.specs.Book.{Slot as SlotValue};

    ghost Value = { SlotValue };

    ghost view = { λ s. record { present = s.present; placed = s.placed; caller = s.caller } };

    ghost inverse = { λ s. record { present = s.present; placed = s.placed; caller = s.caller } };
}

impl Slot {
    /// A channel on which no call is present, and none was placed.
    pub(crate) fn free() -> Slot
        ensures { result ≡ free_slot }
    {
        Slot {
            present: None,
            placed: None,
            caller: None,
        }
    }
}

/// An end of the line: its node, the line's address at the end that has it, and its channels from 1 on.
#[derive(Drop)]
pub(crate) struct Side {
    node: usize,
    address: Option<Address>,
    slots: Vec<Slot>,
}

impl Model for Side {
    ghost use Rattle.std.specs.Prelude.{◌≤◌, length};
    ghost use Rattle.packet_codec.specs.Digits.{digits_or_none};
    ghost use Rattle.call_records.specs.Book.{Side as SideValue};

    ghost Value = { SideValue };

    ghost view = { λ s. record { node = s.node; address = digits_or_none s.address; slots = s.slots.items } };

    ghost invariant = { λ s. length s.slots.items ≤ 255 };
}

impl Side {
    /// An end with this node, with this address if any, and so many channels, all free.
    pub(crate) fn new(
        alloc: Global,
        node: usize,
        address: Option<Address>,
        channels: u8,
    ) -> Result<Side, AllocError>
        ensures { IfOk result (λ side. side ≡ record {
          node = node;
          address = digits_or_none address;
          slots = replicate channels free_slot;
        }) }
    {
        let mut slots = Vec::new(alloc);
        for _ in 0..channels {
            slots.push(Slot::free())?;
        }
        Ok(Side {
            node,
            address,
            slots,
        })
    }

    /// The number of its node.
    pub(crate) fn node(&self) -> usize
        ensures { result ≡ self.now.node }
    {
        self.node
    }

    /// The line's address, if this end has it.
    pub(crate) fn address(&self) -> Option<Address>
        ensures { result ≡ address_of self.now.address }
    {
        match &self.address {
            Some(address) => Some(Address::new(address.digits())),
            None => None,
        }
    }

    /// How many channels it has.
    pub(crate) fn channels(&self) -> u8
        ensures { result ≡ length self.now.slots }
    {
        self.slots.len() as u8
    }

    /// What is kept of a channel.
    pub(crate) fn slot(&self, channel: u8) -> Slot
        ensures { result ≡ nth_slot self.now.slots channel }
    {
        let Some(place) = usize::from(channel).checked_sub(1) else {
            return Slot::free();
        };
        match self.slots.get(place) {
            Some(slot) => *slot,
            None => Slot::free(),
        }
    }

    /// How many places the records of the present calls count at least.
    pub(crate) fn least_places(&self, records: &[Record]) -> usize
        ensures { CallsHavePlaces result self.now.slots records.now }
    {
        let slots = self.slots.as_slice();
        let mut least = usize::MAX;
        for slot in slots {
            if let Some(number) = slot.present {
                least = least.min(places_at(records, number));
            }
        }
        least
    }

    /// Keeps something of a channel, if the line has it.
    pub(crate) fn put(&mut self, channel: u8, slot: Slot)
        ensures { self.new ≡ record self.old { slots = with_nth self.old.slots channel slot } }
    {
        let Some(place) = usize::from(channel).checked_sub(1) else {
            return;
        };
        if place < self.slots.len() {
            self.slots[place] = slot;
        }
    }

    /// Holds a record on a channel as that of the call placed there last, if the line has the channel.
    pub(crate) fn hold(&mut self, channel: u8, holder: Option<usize>)
        ensures { self.new ≡ record self.old {
          slots = with_nth self.old.slots channel (record (nth_slot self.old.slots channel) { placed = holder });
        } }
    {
        let slot = Slot {
            placed: holder,
            ..self.slot(channel)
        };
        self.put(channel, slot);
    }
}

/// How many places the record of this number counts, if there is one.
fn places_at(records: &[Record], number: usize) -> usize
    ensures { PlacesAt result number records.now }
{
    match records.get(number) {
        Some(record) => record.places,
        None => usize::MAX,
    }
}

/// The two ends of a line.
#[derive(Drop)]
pub(crate) struct Ends {
    pub(crate) dte: Side,
    pub(crate) dce: Side,
}

impl Ends {
    /// The ends of a line between two nodes with so many channels, all free. The line's address, if it has one, is the
    /// DTE's.
    pub(crate) fn new(
        alloc: Global,
        dte_node: usize,
        dce_node: usize,
        address: Option<Address>,
        channels: u8,
    ) -> Result<Ends, AllocError>
        ensures { IfOk result (λ ends. ends ≡ record {
          dte = record { node = dte_node; address = digits_or_none address; slots = replicate channels free_slot };
          dce = record { node = dce_node; address = []; slots = replicate channels free_slot };
        }) }
    {
        Ok(Ends {
            dte: Side::new(alloc, dte_node, address, channels)?,
            dce: Side::new(alloc, dce_node, None, channels)?,
        })
    }

    /// The end of this role.
    pub(crate) fn of(&self, role: Role) -> &Side
        ensures { (records : List RecordValue) (pairs : List PairValue) → result.now
            ≡ side_of role (book_with records pairs self.now) }
    {
        match role {
            Role::Dte => &self.dte,
            Role::Dce => &self.dce,
        }
    }

    /// How many places the records of the present calls of both ends count at least.
    pub(crate) fn least_places(&self, records: &[Record]) -> usize
        ensures dte { CallsHavePlaces result self.now.dte.slots records.now }
        ensures dce { CallsHavePlaces result self.now.dce.slots records.now }
    {
        self.dte
            .least_places(records)
            .min(self.dce.least_places(records))
    }

    /// How many channels the two ends have together.
    pub(crate) fn channels(&self) -> usize {
        usize::from(self.dte.channels()) + usize::from(self.dce.channels())
    }

    /// Keeps something of a channel of the end of this role.
    pub(crate) fn put(&mut self, role: Role, channel: u8, slot: Slot)
        ensures { (records : List RecordValue) (pairs : List PairValue) → book_with records pairs self.new
            ≡ with_slot role channel slot (book_with records pairs self.old) }
    {
        match role {
            Role::Dte => self.dte.put(channel, slot),
            Role::Dce => self.dce.put(channel, slot),
        }
    }

    /// Holds a record on a channel of the end of this role as that of the call placed there last, if the line has the
    /// channel.
    pub(crate) fn hold(&mut self, role: Role, channel: u8, holder: Option<usize>)
        ensures { (records : List RecordValue) (pairs : List PairValue) → book_with records pairs self.new
            ≡ holds role channel holder (book_with records pairs self.old) }
    {
        match role {
            Role::Dte => self.dte.hold(channel, holder),
            Role::Dce => self.dce.hold(channel, holder),
        }
    }
}
