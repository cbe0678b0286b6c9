//! Headers in pieces and at fault, connections that are lost or late, and a peer that does not read.

use crate::states::{CONNECTION_CLEARED, LINE_CLEARED, TRANSFER};
use crate::steps::{Example, LINE, Step, play};
use Step::{
    Attaches, Elapses, HearsNothing, Lacks, Line, Lines, Lost, Octets, Opened, Orders, Owes,
    OwesNothing, Passes, Says, Takes,
};
use xot_gateway::Order;

const CALL: &[u8] = &[0x10, 0x02, 0x0b, 0x02, 0x20, 0x00];

const OUT_OF_ORDER: &[u8] = &[0x10, 0x02, 0x13, 0x09, 0x00];

const CLEAR_CONFIRMATION: &[u8] = &[0x10, 0x02, 0x17];

const HEADERS: &[Example] = &[
    Example {
        rule: "a packet is waited for until the whole of it came",
        line: LINE,
        before: &[Attaches(Some(0))],
        steps: &[
            Lacks(0),
            Octets(0, &[0x00]),
            Lacks(0),
            Octets(0, &[0x00, 0x00]),
            Lacks(0),
            Octets(0, &[0x06, 0x10, 0x01]),
            Lacks(0),
            Octets(0, &[0x0b, 0x02, 0x20]),
            Lacks(0),
            Octets(0, &[0x00]),
            Passes(0, CALL),
            Lacks(0),
        ],
    },
    Example {
        rule: "packets that come at once are taken one by one",
        line: LINE,
        before: TRANSFER,
        steps: &[
            Octets(
                0,
                &[
                    0x00, 0x00, 0x00, 0x03, 0x10, 0x01, 0x27, 0x00, 0x00, 0x00, 0x03, 0x10, 0x01,
                    0x21,
                ],
            ),
            Passes(0, &[0x10, 0x02, 0x27]),
            Passes(0, &[0x10, 0x02, 0x21]),
            Lacks(0),
        ],
    },
    Example {
        rule: "another version ends the connection, and clears the call with cause 9",
        line: LINE,
        before: TRANSFER,
        steps: &[
            Octets(0, &[0x00, 0x01, 0x00, 0x03, 0x10, 0x01, 0x27]),
            Takes(0),
            HearsNothing(0),
            Owes(OUT_OF_ORDER),
            Orders(Some(Order::Close(0))),
        ],
    },
    Example {
        rule: "a length below 3 ends the connection",
        line: LINE,
        before: TRANSFER,
        steps: &[
            Octets(0, &[0x00, 0x00, 0x00, 0x02]),
            Takes(0),
            Owes(OUT_OF_ORDER),
            Orders(Some(Order::Close(0))),
        ],
    },
    Example {
        rule: "a length beyond 1,030 ends the connection, also a first one",
        line: LINE,
        before: &[Attaches(Some(0))],
        steps: &[
            Octets(0, &[0x00, 0x00, 0x04, 0x07]),
            Takes(0),
            OwesNothing,
            HearsNothing(0),
            Orders(Some(Order::Close(0))),
            Attaches(Some(0)),
        ],
    },
];

fn headers() -> &'static [Example<'static>] {
    HEADERS
}

#[test]
fn headers_in_pieces_are_read_and_bad_ones_end_connections(rt: HostRuntime) {
    play(&rt, rt.alloc(), headers());
}

const LOSSES: &[Example] = &[
    Example {
        rule: "a connection that cannot be made clears the call with cause 9",
        line: LINE,
        before: &[Line(CALL), Orders(Some(Order::Connect(0)))],
        steps: &[
            Lost(0),
            Owes(OUT_OF_ORDER),
            OwesNothing,
            Line(CLEAR_CONFIRMATION),
            Line(CALL),
            Orders(Some(Order::Connect(0))),
        ],
    },
    Example {
        rule: "the call of a connection that is lost is cleared with cause 9",
        line: LINE,
        before: TRANSFER,
        steps: &[
            Lost(0),
            Owes(OUT_OF_ORDER),
            OwesNothing,
            Line(&[0x10, 0x02, 0x00, 0x41]),
            Line(CLEAR_CONFIRMATION),
            OwesNothing,
            Orders(None),
        ],
    },
    Example {
        rule: "a Clear that went to the line is awaited there though its connection is lost",
        line: LINE,
        before: CONNECTION_CLEARED,
        steps: &[
            Lost(0),
            OwesNothing,
            Attaches(Some(0)),
            Says(0, CALL),
            Passes(0, &[0x10, 0x01, 0x0b, 0x02, 0x20, 0x00]),
            Line(CLEAR_CONFIRMATION),
            Attaches(Some(1)),
            Says(1, CALL),
            Passes(1, CALL),
        ],
    },
    Example {
        rule: "a Clear of the line is confirmed if its connection is lost",
        line: LINE,
        before: LINE_CLEARED,
        steps: &[Lost(0), Owes(CLEAR_CONFIRMATION), OwesNothing],
    },
    Example {
        rule: "the other calls go on",
        line: LINE,
        before: TRANSFER,
        steps: &[
            Attaches(Some(1)),
            Says(1, CALL),
            Passes(1, &[0x10, 0x01, 0x0b, 0x02, 0x20, 0x00]),
            Lost(1),
            Owes(&[0x10, 0x01, 0x13, 0x09, 0x00]),
            HearsNothing(0),
            Says(0, &[0x10, 0x02, 0x00, 0x41]),
            Passes(0, &[0x10, 0x02, 0x00, 0x41]),
        ],
    },
];

fn losses() -> &'static [Example<'static>] {
    LOSSES
}

#[test]
fn calls_end_with_their_connections(rt: HostRuntime) {
    play(&rt, rt.alloc(), losses());
}

const LATE: &[Example] = &[
    Example {
        rule: "a connection over which no packet comes within a minute is closed",
        line: LINE,
        before: &[Attaches(Some(0))],
        steps: &[
            Elapses(1199),
            Orders(None),
            Elapses(1),
            Orders(Some(Order::Close(0))),
            OwesNothing,
        ],
    },
    Example {
        rule: "a Clear of the line that is not confirmed within a minute is confirmed for the peer",
        line: LINE,
        before: LINE_CLEARED,
        steps: &[
            Elapses(1200),
            Orders(Some(Order::Close(0))),
            Owes(CLEAR_CONFIRMATION),
        ],
    },
    Example {
        rule: "a Clear of the gateway waits a minute",
        line: LINE,
        before: &[Attaches(Some(0)), Says(0, &[0x10, 0x01, 0xf5]), Takes(0)],
        steps: &[
            Elapses(1199),
            Orders(None),
            Elapses(1),
            Orders(Some(Order::Close(0))),
        ],
    },
    Example {
        rule: "a call waits for its answer as long as the line does",
        line: LINE,
        before: &[
            Line(CALL),
            Orders(Some(Order::Connect(0))),
            Opened(0),
            Elapses(3600),
        ],
        steps: &[Orders(None), OwesNothing],
    },
    Example {
        rule: "64 KiB wait for a peer that does not read; one packet more ends the connection",
        line: LINE,
        before: TRANSFER,
        steps: &[
            // 4,096 packets with their headers have 65,536 octets
            Lines(4096, &[0x10, 0x02, 0x23, 1, 2, 3, 4, 5, 6, 7, 8, 9]),
            Orders(None),
            OwesNothing,
            Line(&[0x10, 0x02, 0x21]),
            Owes(OUT_OF_ORDER),
            HearsNothing(0),
            Orders(Some(Order::Close(0))),
        ],
    },
];

fn late() -> &'static [Example<'static>] {
    LATE
}

#[test]
fn nobody_is_waited_for_longer_than_a_minute(rt: HostRuntime) {
    play(&rt, rt.alloc(), late());
}
