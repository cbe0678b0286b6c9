//! The link of a line comes up or is lost, and the line restarts.

use crate::states::{CONNECTION_CLEARED, LINE_CLEARED, TRANSFER};
use crate::steps::{Example, LINE, Step, play};
use Step::{
    Attaches, Hears, HearsNothing, Line, LinkDown, LinkUp, Orders, Owes, OwesNothing, Passes, Says,
    Takes,
};
use xot_gateway::Order;

const RESTART: &[u8] = &[0x10, 0x00, 0xfb, 0x00, 0x00];

const RESTART_OF_THE_LINE: &[u8] = &[0x10, 0x00, 0xfb, 0x07, 0x00];

const RESTART_CONFIRMATION: &[u8] = &[0x10, 0x00, 0xff];

const OUT_OF_ORDER: &[u8] = &[0x10, 0x02, 0x13, 0x09, 0x00];

const CLEAR_CONFIRMATION: &[u8] = &[0x10, 0x02, 0x17];

const CALL: &[u8] = &[0x10, 0x02, 0x0b, 0x02, 0x20, 0x00];

const RESTARTS: &[Example] = &[
    Example {
        rule: "a Restart of the line clears a call with cause 9, and is confirmed",
        line: LINE,
        before: TRANSFER,
        steps: &[
            Line(RESTART_OF_THE_LINE),
            Hears(0, OUT_OF_ORDER),
            Owes(RESTART_CONFIRMATION),
            OwesNothing,
            Says(0, CLEAR_CONFIRMATION),
            Takes(0),
            Orders(Some(Order::Close(0))),
        ],
    },
    Example {
        rule: "a Restart of the line confirms a Clear of the connection",
        line: LINE,
        before: CONNECTION_CLEARED,
        steps: &[
            Line(RESTART_OF_THE_LINE),
            Hears(0, CLEAR_CONFIRMATION),
            Owes(RESTART_CONFIRMATION),
            OwesNothing,
        ],
    },
    Example {
        rule: "a Restart of the line after its Clear says nothing more",
        line: LINE,
        before: LINE_CLEARED,
        steps: &[
            Line(RESTART_OF_THE_LINE),
            HearsNothing(0),
            Owes(RESTART_CONFIRMATION),
            OwesNothing,
            Says(0, CLEAR_CONFIRMATION),
            Takes(0),
            OwesNothing,
            Orders(Some(Order::Close(0))),
        ],
    },
    Example {
        rule: "a Restart Confirmation in r1 is an error: the gateway restarts the line",
        line: LINE,
        before: TRANSFER,
        steps: &[
            Line(RESTART_CONFIRMATION),
            Hears(0, OUT_OF_ORDER),
            Owes(RESTART),
            OwesNothing,
        ],
    },
    Example {
        rule: "channels are free after a Restart",
        line: LINE,
        before: TRANSFER,
        steps: &[
            Line(RESTART_OF_THE_LINE),
            Owes(RESTART_CONFIRMATION),
            Attaches(Some(1)),
            Says(1, CALL),
            Passes(1, CALL),
        ],
    },
];

fn restarts() -> &'static [Example<'static>] {
    RESTARTS
}

const LINKS: &[Example] = &[
    Example {
        rule: "a link that comes up anew clears a call with cause 9 and restarts the line",
        line: LINE,
        before: TRANSFER,
        steps: &[
            LinkUp,
            Hears(0, OUT_OF_ORDER),
            Owes(RESTART),
            OwesNothing,
            Line(RESTART_CONFIRMATION),
            OwesNothing,
            Attaches(Some(1)),
            Says(1, CALL),
            Passes(1, CALL),
        ],
    },
    Example {
        rule: "a link that is lost clears a call with cause 9",
        line: LINE,
        before: TRANSFER,
        steps: &[
            LinkDown,
            Hears(0, OUT_OF_ORDER),
            OwesNothing,
            Line(&[0x10, 0x02, 0x00, 0x41]),
            HearsNothing(0),
        ],
    },
    Example {
        rule: "Restarts of both ends that cross are one Restart",
        line: LINE,
        before: &[LinkUp, Owes(RESTART)],
        steps: &[
            Line(RESTART_OF_THE_LINE),
            OwesNothing,
            Attaches(Some(0)),
            Says(0, CALL),
            Passes(0, CALL),
        ],
    },
    Example {
        rule: "packets of calls are not heard before the Restart is confirmed",
        line: LINE,
        before: &[LinkUp, Owes(RESTART)],
        steps: &[
            Line(CALL),
            Orders(None),
            Attaches(Some(0)),
            Says(0, CALL),
            Takes(0),
            Hears(0, &[0x10, 0x01, 0x13, 0x09, 0x00]),
            OwesNothing,
        ],
    },
];

fn links() -> &'static [Example<'static>] {
    LINKS
}

#[test]
fn restarts_and_links_end_calls(rt: HostRuntime) {
    play(&rt, rt.alloc(), restarts());
    play(&rt, rt.alloc(), links());
}
