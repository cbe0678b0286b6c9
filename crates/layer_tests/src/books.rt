//! Little books, write by write.
ghost use Rattle.std.specs.Prelude.{◌≡◌, ◌≤◌};

use call_records::{Book, Pair, Record, all_match};
use epochs::{PassedPacket, matches};
use link_timers::Role;
use packet_codec::{Address, CallBuf, CallData};
use packet_layer::{LayerNote, Reason};
use std::alloc::Global;
use std::process::Abort;

mod examples;

/// The nodes of the two ends.
const DTE_NODE: usize = 10;

const DCE_NODE: usize = 20;

const CALLED: [u8; 4] = [2, 0, 0, 1];

// What a record must show.
#[derive(Clone, Copy)]
enum Shown<'a> {
    // it is open, and of this node and these addresses, of which no digits are none
    Open(usize, &'a [u8], &'a [u8]),
    IsClosed(bool),
    // how many epochs ended in it both ways
    Ended(usize),
    // whether there is room for more than it has
    HasSpare(bool),
}

// What is written into a book, or looked at, with what must be there.
#[derive(Clone, Copy)]
enum Step<'a> {
    // an end places a call on a channel, or answers the one there, or closes it
    Place(Role, u8),
    Answer(Role, u8),
    Close(Role, u8),
    // what an end is told of the call on a channel
    Incoming(Role, u8),
    Connected(Role, u8),
    Cancelled(Role, u8),
    // what passes on channel 1: a packet with M = 1, the last one of a message, an interrupt
    Send(Role, &'a [u8]),
    SendLast(Role, &'a [u8]),
    SendInterrupt(Role, &'a [u8]),
    // a reset of channel 1
    Renew(Role),
    // which pairs there are
    Pairs(&'a [Pair]),
    // the record of the present call on a channel
    Present(Role, u8, Option<usize>),
    // what the record of a number shows
    Shows(usize, Shown<'a>),
    // whether what the DTE's record has as sent, if it had been taken, matches what the DCE's record has as sent
    Matches(bool),
    // whether in each pair what was taken matches what was sent
    AllMatch(bool),
}

use Shown::{Ended, HasSpare, IsClosed, Open};
use Step::{
    AllMatch, Answer, Cancelled, Close, Connected, Incoming, Matches, Pairs, Place, Present, Renew,
    Send, SendInterrupt, SendLast, Shows,
};

// A rule, and steps by which it is seen at a new book, with a call that stands on channel 1 or without one.
struct Example<'a> {
    rule: &'a str,
    standing: bool,
    steps: &'a [Step<'a>],
}

fn play(rt: &impl Abort, alloc: Global, examples: &[Example<'_>]) {
    for example in examples {
        let rule = example.rule;
        assert!(rt; holds(alloc, example), "{rule}");
    }
}

/// Whether the steps of an example fit at a new book of a line of four channels.
fn holds(alloc: Global, example: &Example<'_>) -> bool {
    match Book::new(alloc, DTE_NODE, DCE_NODE, 4, example.standing) {
        Ok(mut book) => fit(&mut book, example.steps),
        Err(_) => false,
    }
}

fn fit(book: &mut Book, steps: &[Step<'_>]) -> bool {
    let mut same = true;
    for step in steps {
        same = same && fits(book, *step);
    }
    same
}

fn fits(book: &mut Book, step: Step<'_>) -> bool {
    match step {
        Pairs(pairs) => book.pairs() == pairs,
        Present(role, channel, number) => book.present(role, channel) == number,
        Shows(number, shown) => record_shows(book, number, shown),
        Matches(matching) => sent_matches(book) == Some(matching),
        AllMatch(matching) => all_match(book.records(), book.pairs()) == matching,
        _ => writes(book, step),
    }
}

/// Whether what the first record has as sent matches what the second one has.
fn sent_matches(book: &Book) -> Option<bool> {
    match book.records() {
        [dte, dce, ..] => Some(matches(&dte.sent, &dce.sent)),
        _ => None,
    }
}

/// Writes, where there is room for it.
fn writes(book: &mut Book, step: Step<'_>) -> bool {
    match book.reserve(8) {
        Ok(()) => {
            write(book, step);
            true
        }
        Err(_) => false,
    }
}

fn write(book: &mut Book, step: Step<'_>)
    requires { 8 ≤ book.old.room }
{
    match step {
        Place(role, channel) => book.place(role, channel, &Address::new(&CALLED)),
        Answer(role, channel) => book.answer(role, channel),
        Close(role, channel) => book.close(role, channel),
        Renew(role) => book.renew(role, 1),
        _ => pass(book, step),
    }
}

/// What passes on channel 1.
fn pass(book: &mut Book, step: Step<'_>)
    requires { 8 ≤ book.old.room }
{
    match step {
        Send(role, octets) if octets.len() <= 8 => book.send(role, 1, packet(octets, true)),
        SendLast(role, octets) if octets.len() <= 8 => book.send(role, 1, packet(octets, false)),
        SendInterrupt(role, octets) if octets.len() <= 8 => book.interrupt(role, 1, octets),
        _ => tell(book, step),
    }
}

fn packet(octets: &[u8], more: bool) -> PassedPacket<'_>
    ensures { result.octets.now ≡ octets.now }
{
    PassedPacket {
        octets,
        more,
        qualified: false,
        delivery: false,
    }
}

/// What an end is told.
fn tell(book: &mut Book, step: Step<'_>)
    requires { 8 ≤ book.old.room }
{
    match step {
        Incoming(role, channel) => book.tell(role, &incoming(channel)),
        Connected(role, channel) => book.tell(role, &LayerNote::Connected(channel)),
        Cancelled(role, channel) => book.tell(role, &cancelled(channel)),
        _ => {}
    }
}

/// A call that comes in on a channel, with no address but the one that it calls.
fn incoming(channel: u8) -> LayerNote {
    let call = CallBuf::new(&CallData {
        called: Address::new(&CALLED),
        calling: None,
        facilities: &[],
        user_data: &[],
    });
    LayerNote::Incoming(channel, call)
}

fn cancelled(channel: u8) -> LayerNote {
    LayerNote::Closed {
        channel,
        cause: 1,
        diagnostic: 0,
        reason: Reason::Cancelled,
    }
}

fn is_address(address: &Option<Address>, digits: &[u8]) -> bool {
    match address {
        Some(address) => address.digits() == digits,
        None => digits.is_empty(),
    }
}

fn record_shows(book: &Book, number: usize, shown: Shown<'_>) -> bool {
    match book.records().get(number) {
        Some(record) => record.number == number && shows(record, shown),
        None => false,
    }
}

fn shows(record: &Record, shown: Shown<'_>) -> bool {
    match shown {
        Open(node, own, far) => is_open(record, node, own, far),
        IsClosed(closed) => record.closed == closed,
        Ended(count) => record.sent.ended() == count && record.taken.ended() == count,
        HasSpare(spare) => (record.steps.len() < record.steps.capacity()) == spare,
    }
}

fn is_open(record: &Record, node: usize, own: &[u8], far: &[u8]) -> bool {
    record.node == node
        && is_address(&record.own, own)
        && is_address(&record.far, far)
        && !record.closed
}
