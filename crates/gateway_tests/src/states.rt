//! What the state of a call allows, of packets of the line and of those of the connection, and data transfer.

use crate::steps::{Bench, Example, LINE, Step, WIDE, play};
use Step::{
    Attaches, Hears, HearsNothing, Line, Lost, Octets, Opened, Orders, Owes, OwesNothing, Passes,
    Says, Takes,
};
use std::alloc::Global;
use std::process::Abort;
use xot_gateway::Order;

const CALL: &[u8] = &[0x10, 0x02, 0x0b, 0x02, 0x20, 0x00];

const CALL_OVER: &[u8] = &[
    0x10, 0x02, 0x0b, 0x02, 0x20, 0x06, 0x42, 0x07, 0x07, 0x43, 0x02, 0x02,
];

const ACCEPTED: &[u8] = &[0x10, 0x02, 0x0f];

const ACCEPTED_OVER: &[u8] = &[
    0x10, 0x02, 0x0f, 0x00, 0x06, 0x42, 0x07, 0x07, 0x43, 0x02, 0x02,
];

const DATA: &[u8] = &[0x10, 0x02, 0x00, 0x41];

const CLEAR: &[u8] = &[0x10, 0x02, 0x13, 0x00, 0x00];

const CLEAR_CONFIRMATION: &[u8] = &[0x10, 0x02, 0x17];

/// The connection called: p2.
const CONNECTION_CALLED: &[Step] = &[Attaches(Some(0)), Says(0, CALL), Passes(0, CALL)];

/// The line called: p3.
const LINE_CALLED: &[Step] = &[
    Line(CALL),
    Orders(Some(Order::Connect(0))),
    Opened(0),
    Hears(0, CALL_OVER),
];

/// Data transfer: p4.
pub(crate) const TRANSFER: &[Step] = &[
    Attaches(Some(0)),
    Says(0, CALL),
    Passes(0, CALL),
    Line(ACCEPTED),
    Hears(0, ACCEPTED_OVER),
];

/// The connection cleared: p6.
pub(crate) const CONNECTION_CLEARED: &[Step] = &[
    Attaches(Some(0)),
    Says(0, CALL),
    Passes(0, CALL),
    Line(ACCEPTED),
    Hears(0, ACCEPTED_OVER),
    Says(0, CLEAR),
    Passes(0, CLEAR),
];

/// The line cleared: p7.
pub(crate) const LINE_CLEARED: &[Step] = &[
    Attaches(Some(0)),
    Says(0, CALL),
    Passes(0, CALL),
    Line(ACCEPTED),
    Hears(0, ACCEPTED_OVER),
    Line(CLEAR),
    Hears(0, CLEAR),
];

// A row of a table: a state, and what becomes of each packet of the table's head.
#[derive(Clone, Copy)]
struct Row<'a> {
    state: &'a str,
    before: &'a [Step<'a>],
    outcomes: [&'a [Step<'a>]; 5],
}

// Call Accepted, data, Clear, Clear Confirmation, another packet.
const OF_THE_LINE: [Step; 5] = [
    Line(ACCEPTED),
    Line(DATA),
    Line(CLEAR),
    Line(CLEAR_CONFIRMATION),
    Line(CALL),
];

const UNHEARD: &[Step] = &[HearsNothing(0), OwesNothing];

const CLEARED_OVER: &[Step] = &[Hears(0, CLEAR), OwesNothing];

const CONFIRMED_OVER: &[Step] = &[Hears(0, CLEAR_CONFIRMATION), OwesNothing];

const AT_THE_LINE: [Row; 5] = [
    Row {
        state: "p2",
        before: CONNECTION_CALLED,
        outcomes: [
            &[Hears(0, ACCEPTED_OVER), OwesNothing],
            UNHEARD,
            CLEARED_OVER,
            UNHEARD,
            UNHEARD,
        ],
    },
    Row {
        state: "p3",
        before: LINE_CALLED,
        outcomes: [UNHEARD, UNHEARD, CLEARED_OVER, UNHEARD, UNHEARD],
    },
    Row {
        state: "p4",
        before: TRANSFER,
        outcomes: [
            UNHEARD,
            &[Hears(0, DATA), OwesNothing],
            CLEARED_OVER,
            UNHEARD,
            UNHEARD,
        ],
    },
    Row {
        state: "p6",
        before: CONNECTION_CLEARED,
        outcomes: [UNHEARD, UNHEARD, CONFIRMED_OVER, CONFIRMED_OVER, UNHEARD],
    },
    Row {
        state: "p7",
        before: LINE_CLEARED,
        outcomes: [UNHEARD, UNHEARD, UNHEARD, UNHEARD, UNHEARD],
    },
];

const OF_THE_CONNECTION: [Step; 5] = [
    Says(0, ACCEPTED),
    Says(0, DATA),
    Says(0, CLEAR),
    Says(0, CLEAR_CONFIRMATION),
    Says(0, &[0x10, 0x02, 0x29]),
];

const DROPPED: &[Step] = &[Takes(0), HearsNothing(0), OwesNothing];

const REFUSED: &[Step] = &[
    Takes(0),
    Hears(0, &[0x10, 0x02, 0x13, 0x13, 0x00]),
    Owes(&[0x10, 0x02, 0x13, 0x11, 0x00]),
    OwesNothing,
];

const CLEARED: &[Step] = &[Passes(0, CLEAR), HearsNothing(0), OwesNothing];

const CONFIRMED: &[Step] = &[
    Passes(0, CLEAR_CONFIRMATION),
    HearsNothing(0),
    OwesNothing,
    Orders(Some(Order::Close(0))),
];

const AT_THE_CONNECTION: [Row; 5] = [
    Row {
        state: "p2",
        before: CONNECTION_CALLED,
        outcomes: [REFUSED, REFUSED, CLEARED, REFUSED, REFUSED],
    },
    Row {
        state: "p3",
        before: LINE_CALLED,
        outcomes: [
            &[Passes(0, ACCEPTED), HearsNothing(0), OwesNothing],
            REFUSED,
            CLEARED,
            REFUSED,
            REFUSED,
        ],
    },
    Row {
        state: "p4",
        before: TRANSFER,
        outcomes: [
            REFUSED,
            &[Passes(0, DATA), HearsNothing(0), OwesNothing],
            CLEARED,
            REFUSED,
            REFUSED,
        ],
    },
    Row {
        state: "p6",
        before: CONNECTION_CLEARED,
        outcomes: [DROPPED, DROPPED, DROPPED, DROPPED, DROPPED],
    },
    Row {
        state: "p7",
        before: LINE_CLEARED,
        outcomes: [DROPPED, DROPPED, CONFIRMED, CONFIRMED, DROPPED],
    },
];

fn at_the_line() -> [Row<'static>; 5] {
    AT_THE_LINE
}

fn at_the_connection() -> [Row<'static>; 5] {
    AT_THE_CONNECTION
}

/// Plays each packet in the state of a row.
fn play_row(rt: &impl Abort, alloc: Global, packets: [Step<'static>; 5], row: &Row<'static>) {
    let state = row.state;
    for (place, packet) in packets.iter().enumerate() {
        let holds = row_fits(alloc, row, place, *packet);
        assert!(rt; holds, "packet {place} in {state}");
    }
}

/// Whether a packet comes to what the row says at this place.
fn row_fits(alloc: Global, row: &Row<'static>, place: usize, packet: Step<'static>) -> bool {
    let (Some(mut bench), Some(outcome)) = (Bench::new(alloc, LINE), row.outcomes.get(place)) else {
        return false;
    };
    bench.fits(row.before) && bench.fits(&[packet]) && bench.fits(outcome)
}

#[test]
fn the_state_says_which_packets_of_the_line_pass(rt: HostRuntime) {
    for row in &at_the_line() {
        play_row(&rt, rt.alloc(), OF_THE_LINE, row);
    }
}

#[test]
fn the_state_says_which_packets_of_the_connection_pass(rt: HostRuntime) {
    for row in &at_the_connection() {
        play_row(&rt, rt.alloc(), OF_THE_CONNECTION, row);
    }
}

/// Data transfer on a line with packets of 256 octets and a window of 7, modulo 128.
const TRANSFER_WIDE: &[Step] = &[
    Attaches(Some(0)),
    Says(
        0,
        &[
            0x20, 0x01, 0x0b, 0x02, 0x20, 0x06, 0x42, 0x08, 0x08, 0x43, 0x07, 0x07,
        ],
    ),
    Passes(0, &[0x20, 0x02, 0x0b, 0x02, 0x20, 0x00]),
    Line(&[0x20, 0x02, 0x0f]),
    Hears(
        0,
        &[
            0x20, 0x02, 0x0f, 0x00, 0x06, 0x42, 0x08, 0x08, 0x43, 0x07, 0x07,
        ],
    ),
];

const TRANSFERS: &[Example] = &[
    Example {
        rule: "Data, RR and RNR of the connection pass with the channel of the call",
        line: LINE,
        before: TRANSFER,
        steps: &[
            Says(0, &[0x10, 0x01, 0x10, 0x41]),
            Passes(0, &[0x10, 0x02, 0x10, 0x41]),
            Says(0, &[0xd1, 0x05, 0xe2]),
            Passes(0, &[0xd0, 0x02, 0xe2]),
            Says(0, &[0x10, 0x02, 0x21]),
            Passes(0, &[0x10, 0x02, 0x21]),
            Says(0, &[0x10, 0x03, 0x45]),
            Passes(0, &[0x10, 0x02, 0x45]),
        ],
    },
    Example {
        rule: "Data, RR and RNR of the line pass as they are",
        line: LINE,
        before: TRANSFER,
        steps: &[
            Line(&[0x90, 0x02, 0x00, 0x41, 0x42]),
            Line(&[0x10, 0x02, 0x61]),
            Line(&[0x10, 0x02, 0x85]),
            Hears(0, &[0x90, 0x02, 0x00, 0x41, 0x42]),
            Hears(0, &[0x10, 0x02, 0x61]),
            Hears(0, &[0x10, 0x02, 0x85]),
            OwesNothing,
        ],
    },
    Example {
        rule: "numbers modulo 128 pass",
        line: WIDE,
        before: TRANSFER_WIDE,
        steps: &[
            Says(0, &[0x20, 0x01, 0xfe, 0x03, 0x41]),
            Passes(0, &[0x20, 0x02, 0xfe, 0x03, 0x41]),
            Says(0, &[0x20, 0x01, 0x01, 0x1e]),
            Passes(0, &[0x20, 0x02, 0x01, 0x1e]),
            Line(&[0x20, 0x02, 0x05, 0x02]),
            Hears(0, &[0x20, 0x02, 0x05, 0x02]),
        ],
    },
    Example {
        rule: "interrupts, resets and their confirmations pass both ways",
        line: LINE,
        before: TRANSFER,
        steps: &[
            Says(0, &[0x10, 0x01, 0x23, 0x2a]),
            Passes(0, &[0x10, 0x02, 0x23, 0x2a]),
            Line(&[0x10, 0x02, 0x27]),
            Hears(0, &[0x10, 0x02, 0x27]),
            Line(&[0x10, 0x02, 0x23, 0x01, 0x02]),
            Hears(0, &[0x10, 0x02, 0x23, 0x01, 0x02]),
            Says(0, &[0x10, 0x01, 0x27]),
            Passes(0, &[0x10, 0x02, 0x27]),
            Says(0, &[0x10, 0x01, 0x1b, 0x00, 0x07]),
            Passes(0, &[0x10, 0x02, 0x1b, 0x00, 0x07]),
            Line(&[0x10, 0x02, 0x1f]),
            Hears(0, &[0x10, 0x02, 0x1f]),
            Line(&[0x10, 0x02, 0x1b, 0x05, 0x01]),
            Hears(0, &[0x10, 0x02, 0x1b, 0x05, 0x01]),
            Says(0, &[0x10, 0x01, 0x1f]),
            Passes(0, &[0x10, 0x02, 0x1f]),
        ],
    },
];

fn transfers() -> &'static [Example<'static>] {
    TRANSFERS
}

const TOO_LONG: &[Example] = &[
    Example {
        rule: "a packet of 129 octets on a line of 128 clears both sides",
        line: LINE,
        before: TRANSFER,
        steps: &[
            Octets(0, &[0x00, 0x00, 0x00, 0x84, 0x10, 0x01, 0x00]),
            Octets(0, &[0x41; 129]),
            Takes(0),
            Hears(0, &[0x10, 0x02, 0x13, 0x13, 0x00]),
            Owes(&[0x10, 0x02, 0x13, 0x11, 0x00]),
        ],
    },
    Example {
        rule: "an interrupt of 33 octets clears both sides",
        line: LINE,
        before: TRANSFER,
        steps: &[
            Octets(0, &[0x00, 0x00, 0x00, 0x24, 0x10, 0x01, 0x23]),
            Octets(0, &[0x41; 33]),
            Takes(0),
            Hears(0, &[0x10, 0x02, 0x13, 0x13, 0x00]),
            Owes(&[0x10, 0x02, 0x13, 0x11, 0x00]),
        ],
    },
    Example {
        rule: "numbers modulo 8 on a line modulo 128 clear both sides",
        line: WIDE,
        before: TRANSFER_WIDE,
        steps: &[
            Says(0, &[0x10, 0x01, 0x00, 0x41]),
            Takes(0),
            Hears(0, &[0x20, 0x02, 0x13, 0x13, 0x00]),
            Owes(&[0x20, 0x02, 0x13, 0x11, 0x00]),
        ],
    },
];

fn too_long() -> &'static [Example<'static>] {
    TOO_LONG
}

#[test]
fn packets_of_data_transfer_pass_unchanged(rt: HostRuntime) {
    play(&rt, rt.alloc(), transfers());
    play(&rt, rt.alloc(), too_long());
}

const CLEARS: &[Example] = &[
    Example {
        rule: "a long Clear of the connection is cut to five octets",
        line: LINE,
        before: TRANSFER,
        steps: &[
            Says(0, &[0x10, 0x01, 0x13, 0x80, 0x42, 0x00, 0x00]),
            Passes(0, &[0x10, 0x02, 0x13, 0x80, 0x42]),
        ],
    },
    Example {
        rule: "a Clear without a diagnostic passes",
        line: LINE,
        before: TRANSFER,
        steps: &[
            Says(0, &[0x10, 0x01, 0x13, 0x05]),
            Passes(0, &[0x10, 0x02, 0x13, 0x05]),
        ],
    },
    Example {
        rule: "a long Clear Confirmation of the connection is cut to three octets",
        line: LINE,
        before: LINE_CLEARED,
        steps: &[
            Says(0, &[0x10, 0x01, 0x17, 0x00, 0x00, 0x03, 0xc1, 0x01, 0xff]),
            Passes(0, CLEAR_CONFIRMATION),
            Orders(Some(Order::Close(0))),
        ],
    },
    Example {
        rule: "after the Clear Confirmation of the line the other side closes, and the channel is free",
        line: LINE,
        before: CONNECTION_CLEARED,
        steps: &[
            Line(CLEAR_CONFIRMATION),
            Hears(0, CLEAR_CONFIRMATION),
            Orders(None),
            Lost(0),
            OwesNothing,
            Attaches(Some(0)),
            Says(0, CALL),
            Passes(0, CALL),
        ],
    },
    Example {
        rule: "what waits is written before a connection is closed",
        line: LINE,
        before: TRANSFER,
        steps: &[
            Line(DATA),
            Line(CLEAR),
            Says(0, CLEAR),
            Passes(0, CLEAR_CONFIRMATION),
            Orders(None),
            Hears(0, DATA),
            Hears(0, CLEAR),
            Orders(Some(Order::Close(0))),
        ],
    },
];

fn clears() -> &'static [Example<'static>] {
    CLEARS
}

#[test]
fn clears_are_confirmed_and_end_connections(rt: HostRuntime) {
    play(&rt, rt.alloc(), clears());
}
