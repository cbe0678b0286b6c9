//! Channels and connections that are free, and those that are not.

use crate::steps::{Example, LINE, Step, play};
use Step::{Attaches, Hears, Line, Lost, Opened, Orders, Owes, OwesNothing, Passes, Says, Takes};
use xot_gateway::Order;

const CALL: &[u8] = &[0x10, 0x01, 0x0b, 0x02, 0x20, 0x00];

const CALL_ON_1: &[u8] = &[0x10, 0x01, 0x0b, 0x02, 0x20, 0x00];

const CALL_ON_2: &[u8] = &[0x10, 0x02, 0x0b, 0x02, 0x20, 0x00];

const CLEAR_BUSY: &[u8] = &[0x10, 0x01, 0x13, 0x01, 0x00];

// A call of a connection on each of the two channels.
const BOTH_CALLED: &[Step] = &[
    Attaches(Some(0)),
    Says(0, CALL),
    Passes(0, CALL_ON_2),
    Attaches(Some(1)),
    Says(1, CALL),
    Passes(1, CALL_ON_1),
];

const EXAMPLES: &[Example] = &[
    Example {
        rule: "a call is cleared with cause 1 while no channel is free",
        line: LINE,
        before: BOTH_CALLED,
        steps: &[
            Attaches(Some(2)),
            Says(2, CALL),
            Takes(2),
            Hears(2, CLEAR_BUSY),
            OwesNothing,
        ],
    },
    Example {
        rule: "a channel is free again once its Clear is confirmed",
        line: LINE,
        before: BOTH_CALLED,
        steps: &[
            Lost(0),
            Owes(&[0x10, 0x02, 0x13, 0x09, 0x00]),
            Attaches(Some(0)),
            Says(0, CALL),
            Takes(0),
            Hears(0, CLEAR_BUSY),
            Line(&[0x10, 0x02, 0x17]),
            Attaches(Some(2)),
            Says(2, CALL),
            Passes(2, CALL_ON_2),
        ],
    },
    Example {
        rule: "a call of the line is cleared with cause 1 if no connection more can be made",
        line: LINE,
        before: &[Attaches(Some(0)), Attaches(Some(1)), Attaches(Some(2))],
        steps: &[
            Attaches(None),
            Line(CALL_ON_1),
            Orders(None),
            Owes(CLEAR_BUSY),
            Line(&[0x10, 0x01, 0x17]),
            Lost(1),
            Line(CALL_ON_1),
            Orders(Some(Order::Connect(1))),
        ],
    },
    Example {
        rule: "a call of the line takes its channel, and one of a connection another",
        line: LINE,
        before: &[
            Line(CALL_ON_2),
            Orders(Some(Order::Connect(0))),
            Opened(0),
            Attaches(Some(1)),
        ],
        steps: &[Says(1, CALL), Passes(1, CALL_ON_1)],
    },
    Example {
        rule: "a channel that the line does not have, channel 0 and channels without a call are not heard",
        line: LINE,
        before: &[
            Line(&[0x10, 0x03, 0x0b, 0x02, 0x20, 0x00]),
            Line(&[0x10, 0x00, 0x0b, 0x02, 0x20, 0x00]),
            Line(&[0x11, 0x01, 0x0b, 0x02, 0x20, 0x00]),
            Line(&[0x10, 0x01, 0x00, 0x41]),
            Line(&[0x10, 0x01, 0x0f]),
            Line(&[0x10, 0x01, 0x17]),
            Line(&[0x10, 0x01, 0xf1]),
            Line(&[0x10]),
        ],
        steps: &[OwesNothing, Orders(None)],
    },
    Example {
        rule: "a Clear on a channel without a call is confirmed",
        line: LINE,
        before: &[Line(&[0x10, 0x01, 0x13, 0x00, 0x00])],
        steps: &[Owes(&[0x10, 0x01, 0x17]), OwesNothing, Orders(None)],
    },
];

fn examples() -> &'static [Example<'static>] {
    EXAMPLES
}

#[test]
fn calls_get_free_channels_and_connections(rt: HostRuntime) {
    play(&rt, rt.alloc(), examples());
}
