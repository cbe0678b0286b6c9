//! Rules of books, each with writes by which it is seen.
use crate::books::{CALLED, DCE_NODE, DTE_NODE, Example, Shown, Step, play};
use Shown::{Ended, HasSpare, IsClosed, Open};
use Step::{
    AllMatch, Answer, Cancelled, Close, Connected, Incoming, Matches, Pairs, Place, Present, Renew,
    Send, SendInterrupt, SendLast, Shows,
};
use call_records::Pair;
use link_timers::Role::{Dce, Dte};

// What matches, and what does not.
const MATCHES: &[Example] = &[
    Example {
        rule: "a taken epoch begins a later sent one",
        standing: true,
        steps: &[
            Send(Dte, b"A"),
            Send(Dce, b"B"),
            Matches(false),
            Renew(Dce),
            Send(Dce, b"AC"),
            Matches(true),
        ],
    },
    Example {
        rule: "two taken epochs do not come of one sent epoch",
        standing: true,
        steps: &[
            Send(Dte, b"A"),
            Send(Dce, b"AA"),
            Matches(true),
            Renew(Dte),
            Send(Dte, b"A"),
            Matches(false),
            Renew(Dce),
            Send(Dce, b"A"),
            Matches(true),
        ],
    },
    Example {
        rule: "two taken epochs do not come of two sent ones in the other order",
        standing: true,
        steps: &[
            Send(Dte, b"A"),
            Renew(Dte),
            Send(Dte, b"B"),
            Send(Dce, b"B"),
            Renew(Dce),
            Send(Dce, b"A"),
            Matches(false),
            Renew(Dce),
            Send(Dce, b"BB"),
            Matches(true),
        ],
    },
    Example {
        rule: "an empty epoch need not come of any",
        standing: true,
        steps: &[
            Matches(true),
            Renew(Dte),
            Renew(Dte),
            Matches(true),
            Send(Dte, b"A"),
            Matches(false),
            AllMatch(true),
        ],
    },
    Example {
        rule: "where a packet ends does not show, and the end of a message does",
        standing: true,
        steps: &[
            Send(Dte, b"A"),
            Send(Dte, b""),
            Send(Dte, b"BC"),
            Send(Dce, b"AB"),
            Matches(false),
            Send(Dce, b"C"),
            Matches(true),
            SendLast(Dte, b""),
            Send(Dce, b"D"),
            Matches(false),
        ],
    },
    Example {
        rule: "a packet without octets and with M = 1 has no item",
        standing: true,
        steps: &[
            Send(Dte, b""),
            Renew(Dte),
            Send(Dte, b"A"),
            Send(Dce, b"A"),
            Matches(true),
        ],
    },
    Example {
        rule: "interrupts count apart from packets",
        standing: true,
        steps: &[
            SendInterrupt(Dte, &[7]),
            Matches(false),
            Send(Dce, b"A"),
            SendInterrupt(Dce, &[7]),
            Matches(true),
            SendInterrupt(Dte, &[7]),
            SendInterrupt(Dce, &[8]),
            Matches(false),
        ],
    },
];

fn matching() -> &'static [Example<'static>] {
    MATCHES
}

#[test]
fn taken_matches_sent(rt: HostRuntime) {
    play(&rt, rt.alloc(), matching());
}

// Calls that are placed, that cross and that are reset.
const CALLS: &[Example] = &[
    Example {
        rule: "a call is placed and answered",
        standing: false,
        steps: &[
            Place(Dte, 2),
            Shows(0, Open(DTE_NODE, &[], &CALLED)),
            Incoming(Dce, 2),
            Shows(1, Open(DCE_NODE, &CALLED, &[])),
            Pairs(&[]),
            Answer(Dce, 2),
            Connected(Dte, 2),
            Pairs(&[Pair {
                caller: 0,
                callee: 1,
            }]),
            Close(Dte, 2),
            Shows(0, IsClosed(true)),
            Shows(1, IsClosed(false)),
            Present(Dte, 2, None),
            Present(Dce, 2, Some(1)),
        ],
    },
    Example {
        rule: "one of two calls that cross is cancelled",
        standing: false,
        steps: &[
            Place(Dte, 1),
            Place(Dce, 1),
            Cancelled(Dce, 1),
            Incoming(Dce, 1),
            Shows(1, IsClosed(true)),
            Shows(2, Open(DCE_NODE, &CALLED, &[])),
            Answer(Dce, 1),
            Answer(Dte, 1),
            Pairs(&[Pair {
                caller: 0,
                callee: 2,
            }]),
        ],
    },
    Example {
        rule: "the record of a call that is over keeps no spare room, once room is made again",
        standing: true,
        steps: &[
            Send(Dte, b"A"),
            Shows(0, HasSpare(true)),
            Close(Dte, 1),
            Place(Dte, 2),
            Shows(0, HasSpare(false)),
            Shows(1, HasSpare(true)),
        ],
    },
    Example {
        rule: "a reset ends an epoch both ways",
        standing: true,
        steps: &[
            Send(Dte, b"AB"),
            Renew(Dte),
            Shows(0, Ended(1)),
            Shows(1, Ended(0)),
        ],
    },
];

fn calls() -> &'static [Example<'static>] {
    CALLS
}

#[test]
fn books_have_calls(rt: HostRuntime) {
    play(&rt, rt.alloc(), calls());
}
