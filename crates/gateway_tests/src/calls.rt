//! Calls over connections and their facilities, both ways, and the first packets of connections.

use crate::steps::{Example, LINE, Step, WIDE, play};
use Step::{
    Attaches, Hears, HearsNothing, Line, LinkDown, Opened, Orders, Owes, OwesNothing, Passes, Says,
    Takes,
};
use xot_gateway::Order;

const FROM_CONNECTIONS: &[Example] = &[
    Example {
        rule: "a call goes to the highest channel without facilities, and its answer gets those of the line",
        line: LINE,
        before: &[Attaches(Some(0))],
        steps: &[
            Says(
                0,
                &[
                    0x10, 0x01, 0x0b, 0x44, 0x20, 0x01, 0x10, 0x01, 0x06, 0x42, 0x07, 0x07, 0x43,
                    0x02, 0x02, 0x01, 0x00, 0x00, 0x00,
                ],
            ),
            Passes(
                0,
                &[
                    0x10, 0x02, 0x0b, 0x44, 0x20, 0x01, 0x10, 0x01, 0x00, 0x01, 0x00, 0x00, 0x00,
                ],
            ),
            HearsNothing(0),
            Line(&[0x10, 0x02, 0x0f]),
            Hears(
                0,
                &[
                    0x10, 0x02, 0x0f, 0x00, 0x06, 0x42, 0x07, 0x07, 0x43, 0x02, 0x02,
                ],
            ),
        ],
    },
    Example {
        rule: "a call that asks for more is brought down by the answer",
        line: LINE,
        before: &[Attaches(Some(0))],
        steps: &[
            Says(
                0,
                &[
                    0x10, 0x01, 0x0b, 0x04, 0x20, 0x01, 0x06, 0x42, 0x08, 0x08, 0x43, 0x04, 0x04,
                ],
            ),
            Passes(0, &[0x10, 0x02, 0x0b, 0x04, 0x20, 0x01, 0x00]),
            Line(&[0x10, 0x02, 0x0f, 0x00, 0x00]),
            Hears(
                0,
                &[
                    0x10, 0x02, 0x0f, 0x00, 0x06, 0x42, 0x07, 0x07, 0x43, 0x02, 0x02,
                ],
            ),
        ],
    },
    Example {
        rule: "throughput and a charging facility of 0 are dropped, and the channel has no meaning",
        line: LINE,
        before: &[Attaches(Some(0))],
        steps: &[
            Says(
                0,
                &[
                    0x1f, 0xff, 0x0b, 0x03, 0x20, 0x10, 0x04, 0x02, 0xaa, 0x01, 0x00,
                ],
            ),
            Passes(0, &[0x10, 0x02, 0x0b, 0x03, 0x20, 0x10, 0x00]),
        ],
    },
    Example {
        rule: "16 octets of user data pass",
        line: LINE,
        before: &[Attaches(Some(0))],
        steps: &[
            Says(
                0,
                &[
                    0x10, 0x01, 0x0b, 0x02, 0x20, 0x00, 1, 2, 3, 4, 5, 6, 7, 8, 9, 10, 11, 12, 13,
                    14, 15, 16,
                ],
            ),
            Passes(
                0,
                &[
                    0x10, 0x02, 0x0b, 0x02, 0x20, 0x00, 1, 2, 3, 4, 5, 6, 7, 8, 9, 10, 11, 12, 13,
                    14, 15, 16,
                ],
            ),
        ],
    },
    Example {
        rule: "the line's larger packets and window are asked for in any order",
        line: WIDE,
        before: &[Attaches(Some(0))],
        steps: &[
            Says(
                0,
                &[
                    0x20, 0x01, 0x0b, 0x02, 0x20, 0x06, 0x43, 0x07, 0x09, 0x42, 0x09, 0x08,
                ],
            ),
            Passes(0, &[0x20, 0x02, 0x0b, 0x02, 0x20, 0x00]),
            Line(&[0x20, 0x02, 0x0f]),
            Hears(
                0,
                &[
                    0x20, 0x02, 0x0f, 0x00, 0x06, 0x42, 0x08, 0x08, 0x43, 0x07, 0x07,
                ],
            ),
        ],
    },
];

fn from_connections() -> &'static [Example<'static>] {
    FROM_CONNECTIONS
}

// A Call of the line on channel 1 with user data, for which a connection is made.
const CALLED: &[Step] = &[
    Line(&[0x10, 0x01, 0x0b, 0x44, 0x20, 0x01, 0x10, 0x01, 0x00, 0xc0]),
    Orders(Some(Order::Connect(0))),
    Orders(None),
    HearsNothing(0),
    Opened(0),
    Hears(
        0,
        &[
            0x10, 0x01, 0x0b, 0x44, 0x20, 0x01, 0x10, 0x01, 0x06, 0x42, 0x07, 0x07, 0x43, 0x02,
            0x02, 0xc0,
        ],
    ),
];

// The same on a line with larger packets.
const CALLED_WIDE: &[Step] = &[
    Line(&[0x20, 0x01, 0x0b, 0x02, 0x20, 0x00]),
    Orders(Some(Order::Connect(0))),
    Opened(0),
    Hears(
        0,
        &[
            0x20, 0x01, 0x0b, 0x02, 0x20, 0x06, 0x42, 0x08, 0x08, 0x43, 0x07, 0x07,
        ],
    ),
];

const FROM_THE_LINE: &[Example] = &[
    Example {
        rule: "an answer with the facilities of the line goes on without them",
        line: LINE,
        before: CALLED,
        steps: &[
            Says(
                0,
                &[
                    0x10, 0x07, 0x0f, 0x00, 0x06, 0x42, 0x07, 0x07, 0x43, 0x02, 0x02,
                ],
            ),
            Passes(0, &[0x10, 0x01, 0x0f]),
        ],
    },
    Example {
        rule: "an answer with addresses and without facilities is one of 128 octets and a window of 2",
        line: LINE,
        before: CALLED,
        steps: &[
            Says(0, &[0x10, 0x01, 0x0f, 0x04, 0x20, 0x01, 0x00]),
            Passes(0, &[0x10, 0x01, 0x0f]),
        ],
    },
    Example {
        rule: "an answer of three octets that ends below the line's size clears both sides",
        line: WIDE,
        before: CALLED_WIDE,
        steps: &[
            Says(0, &[0x20, 0x01, 0x0f]),
            Takes(0),
            Hears(0, &[0x20, 0x01, 0x13, 0x03, 0x00]),
            Owes(&[0x20, 0x01, 0x13, 0x03, 0x00]),
            Line(&[0x20, 0x01, 0x17]),
            OwesNothing,
            Says(0, &[0x20, 0x01, 0x17]),
            Takes(0),
            Orders(Some(Order::Close(0))),
        ],
    },
    Example {
        rule: "an answer that ends below the line's window clears both sides",
        line: LINE,
        before: CALLED,
        steps: &[
            Says(0, &[0x10, 0x01, 0x0f, 0x00, 0x03, 0x43, 0x02, 0x01]),
            Takes(0),
            Hears(0, &[0x10, 0x01, 0x13, 0x03, 0x00]),
            Owes(&[0x10, 0x01, 0x13, 0x03, 0x00]),
        ],
    },
    Example {
        rule: "an answer that asks for reverse charging clears both sides",
        line: LINE,
        before: CALLED,
        steps: &[
            Says(0, &[0x10, 0x01, 0x0f, 0x00, 0x02, 0x01, 0x01]),
            Takes(0),
            Hears(0, &[0x10, 0x01, 0x13, 0x03, 0x00]),
            Owes(&[0x10, 0x01, 0x13, 0x03, 0x00]),
        ],
    },
    Example {
        rule: "a call is refused with a cause and a diagnostic",
        line: LINE,
        before: CALLED,
        steps: &[
            Says(0, &[0x10, 0x01, 0x13, 0x00, 0x42]),
            Passes(0, &[0x10, 0x01, 0x13, 0x00, 0x42]),
            Line(&[0x10, 0x01, 0x17]),
            Hears(0, &[0x10, 0x01, 0x17]),
        ],
    },
];

fn from_the_line() -> &'static [Example<'static>] {
    FROM_THE_LINE
}

#[test]
fn calls_pass_with_the_facilities_of_the_line(rt: HostRuntime) {
    play(&rt, rt.alloc(), from_connections());
    play(&rt, rt.alloc(), from_the_line());
}

// The first packet of a connection of a line of 128 octets and a window of 2, and the Clear that answers it.
type First = (&'static [u8], &'static [u8]);

const REFUSED: &[First] = &[
    // reverse charging, fast select, a closed user group, other facilities, and a torn one
    (
        &[0x10, 0x01, 0x0b, 0x02, 0x20, 0x02, 0x01, 0x01],
        &[0x10, 0x01, 0x13, 0x03, 0x00],
    ),
    (
        &[0x10, 0x01, 0x0b, 0x02, 0x20, 0x02, 0x01, 0x80],
        &[0x10, 0x01, 0x13, 0x03, 0x00],
    ),
    (
        &[0x10, 0x01, 0x0b, 0x02, 0x20, 0x02, 0x03, 0x11],
        &[0x10, 0x01, 0x13, 0x03, 0x00],
    ),
    (
        &[0x10, 0x01, 0x0b, 0x02, 0x20, 0x02, 0x04, 0x01],
        &[0x10, 0x01, 0x13, 0x03, 0x00],
    ),
    (
        &[0x10, 0x01, 0x0b, 0x02, 0x20, 0x04, 0xc9, 0x02, 0xaa, 0xbb],
        &[0x10, 0x01, 0x13, 0x03, 0x00],
    ),
    (
        &[0x10, 0x01, 0x0b, 0x02, 0x20, 0x02, 0x42, 0x07],
        &[0x10, 0x01, 0x13, 0x03, 0x00],
    ),
    // packets of 64 octets one way, and a window of 1 one way
    (
        &[0x10, 0x01, 0x0b, 0x02, 0x20, 0x03, 0x42, 0x07, 0x06],
        &[0x10, 0x01, 0x13, 0x03, 0x00],
    ),
    (
        &[0x10, 0x01, 0x0b, 0x02, 0x20, 0x03, 0x43, 0x01, 0x02],
        &[0x10, 0x01, 0x13, 0x03, 0x00],
    ),
    // PVC set-up
    (
        &[0x10, 0x01, 0xf5, 0x00, 0x00, 0x00],
        &[0x10, 0x01, 0x13, 0x03, 0x00],
    ),
    // Data, Call Accepted, Clear Confirmation, a Restart
    (&[0x10, 0x01, 0x00, 0x41], &[0x10, 0x01, 0x13, 0x13, 0x00]),
    (&[0x10, 0x01, 0x0f], &[0x10, 0x01, 0x13, 0x13, 0x00]),
    (&[0x10, 0x01, 0x17], &[0x10, 0x01, 0x13, 0x13, 0x00]),
    (
        &[0x10, 0x00, 0xfb, 0x00, 0x00],
        &[0x10, 0x01, 0x13, 0x13, 0x00],
    ),
    // a call modulo 128, no called address, a digit above 9, and 17 octets of user data
    (
        &[0x20, 0x01, 0x0b, 0x02, 0x20, 0x00],
        &[0x10, 0x01, 0x13, 0x13, 0x00],
    ),
    (
        &[0x10, 0x01, 0x0b, 0x00, 0x00],
        &[0x10, 0x01, 0x13, 0x13, 0x00],
    ),
    (
        &[0x10, 0x01, 0x0b, 0x02, 0x2a, 0x00],
        &[0x10, 0x01, 0x13, 0x13, 0x00],
    ),
    (
        &[
            0x10, 0x01, 0x0b, 0x02, 0x20, 0x00, 1, 2, 3, 4, 5, 6, 7, 8, 9, 10, 11, 12, 13, 14, 15,
            16, 17,
        ],
        &[0x10, 0x01, 0x13, 0x13, 0x00],
    ),
];

fn refused() -> &'static [First] {
    REFUSED
}

#[test]
fn first_packets_that_are_no_call_are_cleared(rt: HostRuntime) {
    for (packet, clear) in refused() {
        let example = Example {
            rule: "a first packet is refused",
            line: LINE,
            before: &[Attaches(Some(0))],
            steps: &[
                Says(0, packet),
                Takes(0),
                OwesNothing,
                Hears(0, clear),
                Orders(None),
                Says(0, &[0x10, 0x01, 0x17]),
                Takes(0),
                Orders(Some(Order::Close(0))),
            ],
        };
        play(&rt, rt.alloc(), &[example]);
    }
}

const OTHERS: &[Example] = &[
    Example {
        rule: "a Clear that comes first is confirmed",
        line: LINE,
        before: &[Attaches(Some(0))],
        steps: &[
            Says(0, &[0x10, 0x01, 0x13, 0x00, 0x00]),
            Takes(0),
            OwesNothing,
            Hears(0, &[0x10, 0x01, 0x17]),
            Orders(None),
        ],
    },
    Example {
        rule: "a call is cleared with cause 9 while the line is not in r1",
        line: LINE,
        before: &[LinkDown, Attaches(Some(0))],
        steps: &[
            Says(0, &[0x10, 0x01, 0x0b, 0x02, 0x20, 0x00]),
            Takes(0),
            OwesNothing,
            Hears(0, &[0x10, 0x01, 0x13, 0x09, 0x00]),
        ],
    },
    Example {
        rule: "a call that ends below the line's size is cleared with cause 3",
        line: WIDE,
        before: &[Attaches(Some(0))],
        steps: &[
            Says(0, &[0x20, 0x01, 0x0b, 0x02, 0x20, 0x00]),
            Takes(0),
            Hears(0, &[0x20, 0x01, 0x13, 0x03, 0x00]),
        ],
    },
    Example {
        rule: "a call that ends below the line's window is cleared with cause 3",
        line: WIDE,
        before: &[Attaches(Some(0))],
        steps: &[
            Says(0, &[0x20, 0x01, 0x0b, 0x02, 0x20, 0x03, 0x42, 0x08, 0x08]),
            Takes(0),
            Hears(0, &[0x20, 0x01, 0x13, 0x03, 0x00]),
        ],
    },
];

fn others() -> &'static [Example<'static>] {
    OTHERS
}

#[test]
fn calls_that_are_not_carried_are_cleared(rt: HostRuntime) {
    play(&rt, rt.alloc(), others());
}
