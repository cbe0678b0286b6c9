//! The book of a line, and what is written into it.
ghost use Rattle.std.specs.Prelude.{◌≡◌, ◌≤◌, ◌+◌, ◌-◌, ℕ, List, [], ◌∷◌, IfOk, OnOk, OnErr, IsOk, IsTrue, Some, map, length};
ghost use Rattle.std.specs.Prelude.{vec_len};
ghost use Rattle.std.specs.Prelude.{◌<◌, ◌++◌, vec_capacity};
ghost use Rattle.std.specs.Option.{option_to_list};
ghost use Rattle.packet_channel.specs.NoteView.{note_of};
ghost use Rattle.data_transfer.specs.TakenView.{taken_with, HasFewOctets};
ghost use Rattle.data_transfer.specs.Octets.{parts_of};
ghost use Rattle.epochs.specs.Packets.{data_packet_of, places_of};
ghost use Rattle.call_records.specs.Book.{made_book, slot_at, address_of, with_change, changed, places, comes};
ghost use Rattle.call_records.specs.Book.{answers, closes, renews, sends, interrupts, takes, releases, covers, edits, told};
ghost use Rattle.packet_codec.specs.Digits.{digits_or_none};
ghost use Rattle.call_records.specs.Records.{changed_at, with_taken, with_interrupt_taken, with_hop};
ghost use Rattle.call_records.specs.Closing.{all_closed};
ghost use Rattle.call_records.specs.Room.{opens, room_after, taken_room};
ghost use Rattle.call_records.specs.BookView.{CallsHavePlaces};
ghost use Rattle.call_records.specs.RecordView.{shown, pair_of, step_of, grown, needed, left, Fits};
ghost use Rattle.call_records.specs.RecordView.{PlacesAt, NoPlacesAt, AreCounted, hop_of};

use crate::ends::{Ends, Side, Slot};
use crate::record::{Addresses, EditStep, Growth, Hop, Pair, Record};
use epochs::{Interrupt, Passed, PassedPacket};
use link_timers::Role;
use packet_codec::{Address, CallBuf, CallData};
use packet_layer::{Front, LayerNote};
use std::alloc::{AllocError, Global};
use std::marker::Model;

/// How many places more than it is asked for `reserve` makes in each list, so that it need not look at it again before
/// they are used up.
const AHEAD: usize = 24;

/// How many places the lists of records and of pairs have at least: enough for 16 writes in an empty book.
const FIRST_PLACES: usize = 16 + AHEAD;

/// How many lists with room a book keeps for later calls: those of both ends of a call, sent and taken.
const MOST_SPARE: usize = 4;

/// The book of a line: the records of the calls' two ends, the pairs of them that make a call, and for each end,
/// channel by channel, which records belong there. Only `new` and `reserve` take memory; what is written needs room
/// that was reserved, a packet as much as it has places: [`PassedPacket::places`]. A call that comes in leaves no room, but
/// that for pairs stays: so it can be accepted at once. The record of a call that is over keeps no spare room, once room
/// is made again.
#[derive(Drop)]
pub struct Book {
    alloc: Global,
    records: Vec<Record>,
    pairs: Vec<Pair>,
    ends: Ends,
    room: usize,
    pair_room: usize,
    // So many places there are in every list in which there has to be room.
    places: usize,
    // The records of the calls that ended since room was made last.
    over: Vec<usize>,
    // What records of calls that are over, in which nothing passed, had room for.
    spare: Vec<Passed>,
}

impl Model for Book {
    ghost use Rattle.call_records.specs.Room.{BookState};

    ghost Value = { BookState };

    ghost use Rattle.call_records.specs.BookView.{state_of, HasRoom};

    ghost view = { state_of };

    ghost invariant = { HasRoom };
}

impl Book {
    /// The book of a line without an address between two nodes, with channels from 1 on. On a standing line channel 1
    /// has a call, which counts as placed by the DTE. It is refused for want of memory. There is no room yet.
    pub fn new(
        alloc: Global,
        dte_node: usize,
        dce_node: usize,
        channels: u8,
        standing: bool,
    ) -> Result<Book, AllocError>
        ensures { IfOk result (λ b. b ≡ record {
          book = made_book dte_node dce_node channels standing;
          room = 0;
          pairs = 0;
        }) }
    {
        let mut ends = Ends {
            dte: Side::new(alloc, dte_node, None, channels)?,
            dce: Side::new(alloc, dce_node, None, channels)?,
        };
        let mut spare = Vec::with_capacity(alloc, MOST_SPARE)?;
        let mut records = Vec::with_capacity(alloc, FIRST_PLACES)?;
        let mut pairs = Vec::with_capacity(alloc, FIRST_PLACES)?;
        if standing {
            let unknown = Addresses {
                own: None,
                far: None,
            };
            let caller = Record::new(alloc, &mut spare, 0, dte_node, unknown, None);
            let callee = Record::new(alloc, &mut spare, 1, dce_node, unknown, Some(0));
            records.push_reserved(caller);
            records.push_reserved(callee);
            pairs.push_reserved(Pair {
                caller: 0,
                callee: 1,
            });
            let caller = Slot {
                present: Some(0),
                placed: Some(0),
                caller: None,
            };
            let callee = Slot {
                present: Some(1),
                placed: None,
                caller: Some(0),
            };
            ends.put(Role::Dte, 1, caller);
            ends.put(Role::Dce, 1, callee);
        }
        Ok(Book {
            alloc,
            records,
            pairs,
            ends,
            room: 0,
            pair_room: 0,
            places: 0,
            over: Vec::new(alloc),
            spare,
        })
    }

    /// Makes room for so many writes: in the lists of records and of pairs, and in the record of each present call.
    /// Without the memory there is no room, and the book is as before. In a book without records and pairs there is
    /// room for 16 writes: no memory is asked for.
    #[inline(always)]
    pub fn reserve(&mut self, count: usize) -> Result<(), AllocError>
        ensures same { self.new.book ≡ self.old.book }
        ensures ok { OnOk result (self.new.room ≡ count) }
        ensures pairs { OnOk result (self.new.pairs ≡ count) }
        ensures err { OnErr result (self.new.room ≡ 0) }
        ensures no_pairs { OnErr result (self.new.pairs ≡ 0) }
        ensures ready { self.old.book.records ≡ [] → self.old.book.pairs ≡ [] → count ≤ 16 → IsOk result }
    {
        if count <= self.places && self.over.is_empty() {
            self.room = count;
            self.pair_room = count;
            return Ok(());
        }
        self.reserve_anew(count)
    }

    /// Makes room for so many writes where it is not known to be there: asks the record of each present call, and lets
    /// those of calls that are over give back their spare room.
    #[inline(never)]
    fn reserve_anew(&mut self, count: usize) -> Result<(), AllocError>
        ensures same { self.new.book ≡ self.old.book }
        ensures ok { OnOk result (self.new.room ≡ count) }
        ensures pairs { OnOk result (self.new.pairs ≡ count) }
        ensures err { OnErr result (self.new.room ≡ 0) }
        ensures no_pairs { OnErr result (self.new.pairs ≡ 0) }
        ensures ready { self.old.book.records ≡ [] → self.old.book.pairs ≡ [] → count ≤ 16 → IsOk result }
    {
        self.room = 0;
        self.pair_room = 0;
        self.places = 0;
        let places = count.saturating_add(AHEAD);
        reserve_in_records(
            self.alloc,
            &mut self.records,
            &self.ends,
            &mut self.over,
            &mut self.spare,
            places,
        )?;
        self.records.reserve(places)?;
        self.pairs.reserve(places)?;
        self.places = places;
        self.room = count;
        self.pair_room = count;
        Ok(())
    }

    /// Forgets all records and pairs, and keeps the places of their lists. A channel keeps the number of the record that
    /// was present on it or placed there. Until a call is placed or comes in there, this number names no record, or one
    /// that was made since.
    pub fn forget(&mut self)
        ensures { self.new.book ≡ record self.old.book { records = []; pairs = [] } }
    {
        self.records.clear();
        self.pairs.clear();
        self.over.clear();
    }

    /// Exchanges the ends of its line for those of another one. There is no room then, but the records of the present
    /// calls may have places.
    pub(crate) fn exchange_ends(&mut self, ends: &mut Ends)
        ensures book { self.new ≡ record {
          book = record self.old.book { dte = ends.old.dte; dce = ends.old.dce };
          room = 0;
          pairs = 0;
        } }
        ensures ends { ends.new ≡ record { dte = self.old.book.dte; dce = self.old.book.dce } }
    {
        self.room = 0;
        self.pair_room = 0;
        self.places = self
            .places
            .min(known_places(&self.records, ends, &self.over));
        std::mem::swap(&mut self.ends, ends);
    }

    /// The records, by their numbers.
    pub fn records(&self) -> &[Record]
        ensures { map shown result.now ≡ self.now.book.records }
    {
        self.records.as_slice()
    }

    /// The pairs, in the order of acceptance.
    pub fn pairs(&self) -> &[Pair]
        ensures { map pair_of result.now ≡ self.now.book.pairs }
    {
        self.pairs.as_slice()
    }

    /// The number of the record of the present call on a channel of an end.
    pub fn present(&self, role: Role, channel: u8) -> Option<usize>
        ensures { result ≡ (slot_at role channel self.now.book).present }
    {
        self.ends.of(role).slot(channel).present
    }

    /// For how many writes there is room. If there is none, one pair may still have room.
    pub fn room(&self) -> usize
        ensures { result ≡ self.now.room }
    {
        self.room
    }

    /// An end places a call to an address (X.25 4.1.2); its own one is the line's, if it has it. No room is left, since
    /// the new record has none.
    pub fn place(&mut self, role: Role, channel: u8, called: &Address)
        requires { 1 ≤ self.old.room }
        ensures { self.new ≡ record self.old { book = places role channel called.now self.old.book; room = 0 } }
    {
        let number = self.records.len();
        let here = self.ends.of(role);
        let node = here.node();
        let addresses = Addresses {
            own: here.address(),
            far: recorded(called),
        };
        let slot = Slot {
            present: Some(number),
            placed: Some(number),
            caller: None,
        };
        let spare = &mut self.spare;
        self.records.push_reserved(Record::new(self.alloc, spare, number, node, addresses, None));
        self.ends.put(role, channel, slot);
        self.room = 0;
        self.places = 0;
    }

    /// A call comes in at an end: it is the one that the other end placed last on this channel.
    fn receive_call(&mut self, role: Role, channel: u8, call: &CallBuf)
        requires { 1 ≤ self.old.room }
        ensures { self.new ≡ record self.old { book = comes role channel (parts_of call.now) self.old.book; room = 0 } }
    {
        let number = self.records.len();
        let here = self.ends.of(role);
        let node = here.node();
        let placed = here.slot(channel).placed;
        let caller = self.ends.of(role.other()).slot(channel).placed;
        let slot = Slot {
            present: Some(number),
            placed,
            caller,
        };
        let data = call.data();
        let addresses = Addresses {
            own: Some(data.called),
            far: calling_of(&data),
        };
        let spare = &mut self.spare;
        self.records.push_reserved(Record::new(self.alloc, spare, number, node, addresses, caller));
        self.ends.put(role, channel, slot);
        self.room = 0;
        self.places = 0;
    }

    /// An end accepts the call that came in (X.25 4.1.4): its record and that of the end that placed it are a pair.
    pub fn answer(&mut self, role: Role, channel: u8)
        requires { 1 ≤ self.old.room + self.old.pairs }
        ensures { self.new ≡ record {
          book = answers role channel self.old.book;
          room = self.old.room - 1;
          pairs = self.old.pairs - 1;
        } }
    {
        let Slot {
            present,
            caller,
            ..
        } = self.ends.of(role).slot(channel);
        self.room = self.room.saturating_sub(1);
        self.pair_room = self.pair_room.saturating_sub(1);
        self.places = self.places.saturating_sub(1);
        let (Some(caller), Some(callee)) = (caller, present) else {
            return;
        };
        self.pairs.push_reserved(Pair { caller, callee });
    }

    /// The present call is over for an end (X.25 4.1.7, 4.1.8).
    pub fn close(&mut self, role: Role, channel: u8)
        ensures { self.new ≡ record self.old { book = closes role channel self.old.book } }
    {
        let present = self.present(role, channel);
        self.grow(role, channel, Growth::Closed);
        let placed = self.ends.of(role).slot(channel).placed;
        let slot = Slot {
            present: None,
            placed,
            caller: None,
        };
        self.ends.put(role, channel, slot);
        note_end(&mut self.over, present);
    }

    /// The present calls on all channels of an end are over for it, in rising order of channels.
    pub fn close_all(&mut self, role: Role)
        ensures { self.new ≡ record self.old { book = all_closed role self.old.book } }
    {
        let channels = self.ends.of(role).channels();
        for place in 0..channels {
            if self.present(role, place + 1).is_some() {
                self.close(role, place + 1);
            }
        }
    }

    /// The present call was reset (X.25 4.4.3): an epoch begins, sent and taken. No room is left then.
    pub fn renew(&mut self, role: Role, channel: u8)
        requires { 1 ≤ self.old.room }
        ensures { self.new ≡ record self.old { book = renews role channel self.old.book; room = 0 } }
    {
        self.grow(role, channel, Growth::Epoch);
    }

    /// A Data packet of at most 1,024 octets was accepted to be sent (X.25 4.3).
    pub fn send(&mut self, role: Role, channel: u8, packet: PassedPacket<'_>)
        requires room { places_of packet.octets.now ≤ self.old.room }
        requires fits { length packet.octets.now ≤ 1024 }
        ensures { self.new ≡ record self.old {
          book = sends role channel (data_packet_of packet.entry) self.old.book;
          room = self.old.room - places_of packet.entry.octets.now;
        } }
    {
        self.grow(role, channel, Growth::Sent(packet));
    }

    /// An interrupt of at most 32 octets was accepted to be sent (X.25 4.3.7).
    pub fn interrupt(&mut self, role: Role, channel: u8, octets: &[u8])
        requires room { 1 ≤ self.old.room }
        requires fits { length octets.now ≤ 32 }
        ensures { self.new ≡ record self.old {
          book = interrupts role channel octets.now self.old.book;
          room = self.old.room - 1;
        } }
    {
        self.grow(role, channel, Growth::InterruptSent(Interrupt::new(octets)));
    }

    /// A packet or an interrupt of these octets was taken.
    pub fn take(&mut self, role: Role, channel: u8, front: &Front, octets: &[u8])
        requires few { HasFewOctets front.now octets.now }
        requires room { taken_room (taken_with front.now octets.now) ≤ self.old.room }
        ensures { self.new ≡ record self.old {
          book = takes role channel (Some (taken_with front.now octets.now)) self.old.book;
          room = self.old.room - taken_room (taken_with front.now octets.now);
        } }
    {
        match *front {
            Front::Interrupt => self.take_interrupt(role, channel, octets),
            Front::Data {
                more,
                qualified,
                delivery,
                ..
            } => {
                let packet = PassedPacket {
                    octets,
                    more,
                    qualified,
                    delivery,
                };
                self.take_packet(role, channel, packet);
            }
        }
    }

    /// A Data packet of at most 1,024 octets was taken.
    pub fn take_packet(&mut self, role: Role, channel: u8, packet: PassedPacket<'_>)
        requires room { places_of packet.octets.now ≤ self.old.room }
        requires fits { length packet.octets.now ≤ 1024 }
        ensures { self.new ≡ record self.old {
          book = changed role channel (with_taken (data_packet_of packet.entry)) self.old.book;
          room = self.old.room - places_of packet.entry.octets.now;
        } }
    {
        self.grow(role, channel, Growth::Taken(packet));
    }

    /// An interrupt of at most 32 octets was taken.
    pub fn take_interrupt(&mut self, role: Role, channel: u8, octets: &[u8])
        requires room { 1 ≤ self.old.room }
        requires fits { length octets.now ≤ 32 }
        ensures { self.new ≡ record self.old {
          book = changed role channel (with_interrupt_taken octets.now) self.old.book;
          room = self.old.room - 1;
        } }
    {
        self.grow(
            role,
            channel,
            Growth::InterruptTaken(Interrupt::new(octets)),
        );
    }

    /// Counts so many more of the packets taken as released, if so many are not yet (X.25 4.4.1.3).
    pub fn release(&mut self, role: Role, channel: u8, count: usize)
        ensures { self.new ≡ record self.old { book = releases role channel count self.old.book } }
    {
        self.grow(role, channel, Growth::Released(count));
    }

    /// Counts so many more of the packets sent as covered, if so many are not yet (X.25 4.4.1.3).
    pub fn cover(&mut self, role: Role, channel: u8, count: usize)
        ensures { self.new ≡ record self.old { book = covers role channel count self.old.book } }
    {
        self.grow(role, channel, Growth::Covered(count));
    }

    /// A PAD took a step of editing on its call.
    pub fn edit(&mut self, role: Role, channel: u8, step: EditStep)
        requires { 1 ≤ self.old.room }
        ensures { self.new ≡ record self.old {
          book = edits role channel (step_of step) self.old.book;
          room = self.old.room - 1;
        } }
    {
        self.grow(role, channel, Growth::Step(step));
    }

    /// An end's packet layer told something. A note of a call that came in and one of a reset need room, and leave
    /// none.
    pub fn tell(&mut self, role: Role, note: &LayerNote)
        requires { IsTrue (opens (note_of note.now)) → 1 ≤ self.old.room }
        ensures { self.new ≡ record self.old {
          book = told role (note_of note.now) self.old.book;
          room = room_after (note_of note.now) self.old.room;
        } }
    {
        match note {
            LayerNote::Incoming(channel, call) => self.receive_call(role, *channel, call),
            LayerNote::Connected(_) | LayerNote::InterruptConfirmed(_) => {}
            LayerNote::Closed { channel, .. } => self.close(role, *channel),
            LayerNote::Reset { channel, .. } => self.renew(role, *channel),
            LayerNote::Covered { channel, count } => {
                self.cover(role, *channel, usize::from(*count));
            }
        }
    }

    /// The call of the record of this number goes on over one more hop, if there is the record and its path has room.
    pub(crate) fn go_on(&mut self, number: usize, hop: Hop)
        ensures { self.new ≡ record self.old {
          book = with_change (Some number) (with_hop (hop_of hop)) self.old.book;
        } }
    {
        go_on_at(&mut self.records, number, hop);
    }

    /// The record of the present call on a channel grows by a write.
    #[inline(always)]
    fn grow(&mut self, role: Role, channel: u8, growth: Growth<'_>)
        requires room { needed growth ≤ self.old.room }
        requires fits { Fits growth }
        ensures { self.new ≡ record self.old {
          book = changed role channel (grown growth.entry) self.old.book;
          room = left growth.entry self.old.room;
        } }
    {
        let present = self.ends.of(role).slot(channel).present;
        self.room = growth.left(self.room);
        self.places = growth.left(self.places);
        let Some(number) = present else {
            return;
        };
        grow_at(&mut self.records, number, growth);
    }
}

/// The call of this record, if there is one, is over: the record is listed, to give back its spare room when room is
/// made next.
fn note_end(over: &mut Vec<usize>, present: Option<usize>)
    ensures { vec_len over.old < vec_capacity over.old → over.new.items ≡ over.old.items ++ option_to_list present }
{
    let Some(number) = present else {
        return;
    };
    if over.len() < over.capacity() {
        over.push_reserved(number);
    }
}

/// The calling address that a call gives, if it gives one.
pub fn calling_of(call: &CallData<'_>) -> Option<Address>
    ensures { result ≡ address_of (digits_or_none call.now.calling) }
{
    match &call.calling {
        Some(address) => recorded(address),
        None => None,
    }
}

/// An address, as a record has it.
fn recorded(address: &Address) -> Option<Address>
    ensures { result ≡ address_of address.now }
{
    Some(Address::new(address.digits()))
}

/// The record of this number grows by a write, if there is one.
#[inline(always)]
fn grow_at(records: &mut Vec<Record>, number: usize, growth: Growth<'_>)
    requires places { PlacesAt (needed growth) number records.old.items }
    requires counted { AreCounted records.old.items }
    requires fits { Fits growth }
    ensures shown { map shown records.new.items ≡ changed_at number (grown growth.entry) (map shown records.old.items) }
    ensures len { vec_len records.new ≡ vec_len records.old }
    ensures capacity { vec_capacity records.new ≡ vec_capacity records.old }
    ensures room { (room other : ℕ) → PlacesAt room number records.old.items → PlacesAt room other records.old.items →
        PlacesAt (left growth.entry room) other records.new.items }
    ensures counted { AreCounted records.new.items }
{
    if number < records.len() {
        let record = &mut records[number];
        record.grow(growth);
    }
}

/// The call of the record of this number goes on over one more hop, if there is the record.
fn go_on_at(records: &mut Vec<Record>, number: usize, hop: Hop)
    ensures shown { map shown records.new.items
        ≡ changed_at number (with_hop (hop_of hop)) (map shown records.old.items) }
    ensures len { vec_len records.new ≡ vec_len records.old }
    ensures capacity { vec_capacity records.new ≡ vec_capacity records.old }
    ensures room { (room other : ℕ) → PlacesAt room other records.old.items → PlacesAt room other records.new.items }
    ensures counted { AreCounted records.old.items → AreCounted records.new.items }
{
    if number < records.len() {
        let record = &mut records[number];
        record.go_on(hop);
    }
}

/// Makes room in the record of this number, if there is one.
fn reserve_at(records: &mut Vec<Record>, number: usize, count: usize) -> Result<(), AllocError>
    ensures same { map shown records.new.items ≡ map shown records.old.items }
    ensures len { vec_len records.new ≡ vec_len records.old }
    ensures capacity { vec_capacity records.new ≡ vec_capacity records.old }
    ensures kept { OnOk result ((other : ℕ) → PlacesAt count other records.old.items →
        PlacesAt count other records.new.items) }
    ensures ok { OnOk result (PlacesAt count number records.new.items) }
    ensures counted { AreCounted records.old.items → AreCounted records.new.items }
{
    if number < records.len() {
        let record = &mut records[number];
        record.reserve(count)?;
    }
    Ok(())
}

/// Makes room in the records of the present calls of an end.
fn reserve_present(records: &mut Vec<Record>, side: &Side, count: usize) -> Result<(), AllocError>
    ensures same { map shown records.new.items ≡ map shown records.old.items }
    ensures len { vec_len records.new ≡ vec_len records.old }
    ensures capacity { vec_capacity records.new ≡ vec_capacity records.old }
    ensures kept { OnOk result ((other : ℕ) → PlacesAt count other records.old.items →
        PlacesAt count other records.new.items) }
    ensures ok { OnOk result (CallsHavePlaces count side.now.slots records.new.items) }
    ensures counted { AreCounted records.old.items → AreCounted records.new.items }
{
    for place in 0..side.channels() {
        if let Some(number) = side.slot(place + 1).present {
            reserve_at(records, number, count)?;
        }
    }
    Ok(())
}

/// How many places the records of the present calls of both ends count, if all of these calls can be listed as they end.
fn known_places(records: &[Record], ends: &Ends, over: &Vec<usize>) -> usize
    ensures dte { CallsHavePlaces result ends.now.dte.slots records.now }
    ensures dce { CallsHavePlaces result ends.now.dce.slots records.now }
{
    if ends.channels() <= over.capacity() {
        ends.least_places(records)
    } else {
        0
    }
}

/// Makes room in the records of the present calls of both ends. The records of calls that are over give back their spare
/// room first, and are not listed any more. Without a record nothing is asked for.
fn reserve_in_records(
    alloc: Global,
    records: &mut Vec<Record>,
    ends: &Ends,
    over: &mut Vec<usize>,
    spare: &mut Vec<Passed>,
    count: usize,
) -> Result<(), AllocError>
    ensures same { map shown records.new.items ≡ map shown records.old.items }
    ensures len { vec_len records.new ≡ vec_len records.old }
    ensures capacity { vec_capacity records.new ≡ vec_capacity records.old }
    ensures counted { AreCounted records.old.items → AreCounted records.new.items }
    ensures dte { OnOk result (CallsHavePlaces count ends.now.dte.slots records.new.items) }
    ensures dce { OnOk result (CallsHavePlaces count ends.now.dce.slots records.new.items) }
    ensures ready { vec_len records.old ≡ 0 → IsOk result }
{
    if records.is_empty() {
        return Ok(());
    }
    drop_spare(alloc, records, over.as_slice(), spare)?;
    over.clear();
    over.reserve(ends.channels())?;
    reserve_present(records, ends.of(Role::Dte), count)?;
    reserve_present(records, ends.of(Role::Dce), count)?;
    Ok(())
}

/// The records of these numbers give back their spare room.
fn drop_spare(
    alloc: Global,
    records: &mut Vec<Record>,
    numbers: &[usize],
    spare: &mut Vec<Passed>,
) -> Result<(), AllocError>
    ensures same { map shown records.new.items ≡ map shown records.old.items }
    ensures len { vec_len records.new ≡ vec_len records.old }
    ensures capacity { vec_capacity records.new ≡ vec_capacity records.old }
    ensures fits { OnOk result (NoPlacesAt numbers.now records.new.items) }
    ensures counted { AreCounted records.old.items → AreCounted records.new.items }
{
    for number in numbers {
        drop_spare_at(alloc, records, *number, spare)?;
    }
    Ok(())
}

/// The record of this number, if there is one, gives back its spare room.
fn drop_spare_at(
    alloc: Global,
    records: &mut Vec<Record>,
    number: usize,
    spare: &mut Vec<Passed>,
) -> Result<(), AllocError>
    ensures same { map shown records.new.items ≡ map shown records.old.items }
    ensures len { vec_len records.new ≡ vec_len records.old }
    ensures capacity { vec_capacity records.new ≡ vec_capacity records.old }
    ensures kept { OnOk result ((numbers : List ℕ) → NoPlacesAt numbers records.old.items →
        NoPlacesAt numbers records.new.items) }
    ensures fits { OnOk result (NoPlacesAt (number ∷ []) records.new.items) }
    ensures counted { AreCounted records.old.items → AreCounted records.new.items }
{
    if number < records.len() {
        let record = &mut records[number];
        record.drop_spare(alloc, spare)?;
    }
    Ok(())
}
