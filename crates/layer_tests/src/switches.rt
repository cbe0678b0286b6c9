//! Calls through a switch, whose partners send any packet.

use crate::switch_steps::{Bench, FirstLine, Step};
use Step::{Arrives, Expires, Flow, Gets, GetsNothing, Hears, HearsNothing, Joined, Send};
use link_timers::{Role, TimerId};
use std::alloc::Global;
use std::process::Abort;

const RESTART_BY_DTE: &[u8] = &[0x10, 0x00, 0xfb, 0x00, 0x00];

const RESTART_BY_DCE: &[u8] = &[0x10, 0x00, 0xfb, 0x07, 0x00];

// How a switch begins.
#[derive(Clone, Copy)]
enum Beginning {
    // the packet layers of all lines are up, of users 1, 2 and 4
    Up,
    // and there is a call
    InACall,
    // line 0 is a trunk, of which the switch is the DTE, and there is a call over it
    OnATrunk,
    // line 0 takes one packet at a time, and there is a call between the other lines
    BesideACall,
}

// The links and the packet layers of the lines of three users come up.
const USERS: &[Step] = &[
    Flow,
    Hears(0, RESTART_BY_DCE),
    Hears(1, RESTART_BY_DCE),
    Hears(2, RESTART_BY_DCE),
    Send(0, RESTART_BY_DTE),
    Send(1, RESTART_BY_DTE),
    Send(2, RESTART_BY_DTE),
    Flow,
];

// A call from channel 4 of line 0 to the address 2, which is accepted.
const CALL: &[Step] = &[
    Send(0, &[0x10, 0x04, 0x0b, 0x01, 0x20, 0x00]),
    Flow,
    Hears(1, &[0x10, 0x01, 0x0b, 0x11, 0x21, 0x00]),
    Joined(0, 4, Some((1, 1))),
    Joined(1, 1, Some((0, 4))),
    Send(1, &[0x10, 0x01, 0x0f]),
    Flow,
    Hears(0, &[0x10, 0x04, 0x0f]),
];

// The lines of a trunk and of two users come up. Then a call from channel 4 of line 1 goes out on channel 4 of the trunk,
// and is accepted.
const TRUNK: &[Step] = &[
    Flow,
    Hears(0, RESTART_BY_DTE),
    Hears(1, RESTART_BY_DCE),
    Hears(2, RESTART_BY_DCE),
    Send(0, RESTART_BY_DCE),
    Send(1, RESTART_BY_DTE),
    Send(2, RESTART_BY_DTE),
    Flow,
    Send(1, &[0x10, 0x04, 0x0b, 0x01, 0x10, 0x00]),
    Flow,
    Hears(0, &[0x10, 0x04, 0x0b, 0x11, 0x12, 0x00]),
    Send(0, &[0x10, 0x04, 0x0f]),
    Flow,
    Hears(1, &[0x10, 0x04, 0x0f]),
];

// A call from channel 4 of line 1 to the address 4, which is accepted.
const CALL_BESIDE: &[Step] = &[
    Send(1, &[0x10, 0x04, 0x0b, 0x01, 0x40, 0x00]),
    Flow,
    Hears(2, &[0x10, 0x01, 0x0b, 0x11, 0x42, 0x00]),
    Send(2, &[0x10, 0x01, 0x0f]),
    Flow,
    Hears(1, &[0x10, 0x04, 0x0f]),
];

fn users() -> &'static [Step<'static>] {
    USERS
}

fn a_call_beside() -> &'static [Step<'static>] {
    CALL_BESIDE
}

fn a_call() -> &'static [Step<'static>] {
    CALL
}

fn a_trunk() -> &'static [Step<'static>] {
    TRUNK
}

// A rule, and steps by which it is seen at a switch.
struct Example<'a> {
    rule: &'a str,
    begins: Beginning,
    steps: &'a [Step<'a>],
}

fn play(rt: &impl Abort, alloc: Global, examples: &[Example<'_>]) {
    for example in examples {
        let rule = example.rule;
        assert!(rt; holds(alloc, example), "{rule}");
    }
}

/// Whether the steps of an example fit at a new switch.
fn holds(alloc: Global, example: &Example<'_>) -> bool {
    match Bench::new(alloc, first_line(example.begins)) {
        Some(mut bench) => begins(alloc, &mut bench, example.begins) && bench.fits(example.steps),
        None => false,
    }
}

fn first_line(begins: Beginning) -> FirstLine {
    match begins {
        Beginning::Up | Beginning::InACall => FirstLine::User,
        Beginning::OnATrunk => FirstLine::Trunk,
        Beginning::BesideACall => FirstLine::OnePacket,
    }
}

fn begins(alloc: Global, bench: &mut Bench, begins: Beginning) -> bool {
    match begins {
        Beginning::Up => bench.begin(alloc, Role::Dte) && bench.fits(users()),
        Beginning::InACall => {
            bench.begin(alloc, Role::Dte) && bench.fits(users()) && bench.fits(a_call())
        }
        Beginning::OnATrunk => bench.begin(alloc, Role::Dce) && bench.fits(a_trunk()),
        Beginning::BesideACall => {
            bench.begin(alloc, Role::Dte) && bench.fits(users()) && bench.fits(a_call_beside())
        }
    }
}

// Calls that are cleared, by their causes.
const CAUSES: &[Example] = &[
    Example {
        rule: "calls are cleared in order of causes",
        begins: Beginning::Up,
        steps: &[
            // a facility, and no route
            Send(0, &[0x10, 0x04, 0x0b, 0x01, 0x30, 0x02, 0x01, 0x01]),
            Flow,
            Hears(0, &[0x10, 0x04, 0x13, 0x03, 0x00]),
            Joined(0, 4, None),
            // no route
            Send(0, &[0x10, 0x03, 0x0b, 0x01, 0x30, 0x00]),
            Flow,
            Hears(0, &[0x10, 0x03, 0x13, 0x0d, 0x00]),
        ],
    },
    Example {
        rule: "a call with a facility is cleared, though its address has a route",
        begins: Beginning::Up,
        steps: &[
            Send(0, &[0x10, 0x04, 0x0b, 0x04, 0x20, 0x01, 0x02, 0x01, 0x01]),
            Flow,
            Hears(0, &[0x10, 0x04, 0x13, 0x03, 0x00]),
            HearsNothing(1),
        ],
    },
    Example {
        rule: "no channel is left for a fifth call",
        begins: Beginning::Up,
        steps: &[
            Send(0, &[0x10, 0x01, 0x0b, 0x01, 0x20, 0x00]),
            Send(0, &[0x10, 0x02, 0x0b, 0x01, 0x20, 0x00]),
            Send(0, &[0x10, 0x03, 0x0b, 0x01, 0x20, 0x00]),
            Send(2, &[0x10, 0x01, 0x0b, 0x01, 0x20, 0x00]),
            Flow,
            Send(0, &[0x10, 0x04, 0x0b, 0x01, 0x20, 0x00]),
            Flow,
            Hears(0, &[0x10, 0x04, 0x13, 0x01, 0x00]),
        ],
    },
    Example {
        rule: "an expiry clears both legs",
        begins: Beginning::Up,
        steps: &[
            Send(0, &[0x10, 0x04, 0x0b, 0x01, 0x20, 0x00]),
            Flow,
            Hears(1, &[0x10, 0x01, 0x0b, 0x11, 0x21, 0x00]),
            Expires(1, TimerId::T11(2), false),
            Expires(1, TimerId::T11(1), true),
            Flow,
            Hears(1, &[0x10, 0x01, 0x13, 0x13, 0x00]),
            Hears(0, &[0x10, 0x04, 0x13, 0x11, 0x00]),
            Joined(0, 4, None),
        ],
    },
    Example {
        rule: "a Restart of a DTE clears the far leg with 0",
        begins: Beginning::InACall,
        steps: &[
            Send(0, RESTART_BY_DTE),
            Flow,
            Hears(0, &[0x10, 0x00, 0xff]),
            Hears(1, &[0x10, 0x01, 0x13, 0x00, 0x00]),
        ],
    },
];

fn causes() -> &'static [Example<'static>] {
    CAUSES
}

#[test]
fn switches_clear_calls(rt: HostRuntime) {
    play(&rt, rt.alloc(), causes());
}

// What a trunk brings, and timers at its DTE.
const TRUNKS: &[Example] = &[
    Example {
        rule: "a Restart on a trunk clears the far leg with 9",
        begins: Beginning::OnATrunk,
        steps: &[
            Send(0, RESTART_BY_DCE),
            Flow,
            Hears(0, &[0x10, 0x00, 0xff]),
            Hears(1, &[0x10, 0x04, 0x13, 0x09, 0x00]),
        ],
    },
    Example {
        rule: "the wrong P(S) at the DTE resets the far leg",
        begins: Beginning::OnATrunk,
        steps: &[
            Send(0, &[0x10, 0x04, 0x02, 0x41]),
            Flow,
            Hears(0, &[0x10, 0x04, 0x1b, 0x00, 0x01]),
            Hears(1, &[0x10, 0x04, 0x1b, 0x03, 0x00]),
        ],
    },
    Example {
        rule: "an expiry of T22 clears both legs, and one of T23 restarts the line",
        begins: Beginning::OnATrunk,
        steps: &[
            Send(1, &[0x10, 0x04, 0x1b, 0x00, 0x00]),
            Flow,
            Hears(1, &[0x10, 0x04, 0x1f]),
            Hears(0, &[0x10, 0x04, 0x1b, 0x00, 0x00]),
            Expires(0, TimerId::T22(4), true),
            Flow,
            Hears(0, &[0x10, 0x04, 0x13, 0x00, 0x00]),
            Hears(1, &[0x10, 0x04, 0x13, 0x11, 0x00]),
            Expires(0, TimerId::T23(4), true),
            Flow,
            Hears(0, RESTART_BY_DTE),
            // and T20 sets the link up anew
            Expires(0, TimerId::T20, true),
            Flow,
            Hears(0, RESTART_BY_DTE),
        ],
    },
    Example {
        rule: "an expiry of T21 clears both legs",
        begins: Beginning::OnATrunk,
        steps: &[
            Send(1, &[0x10, 0x03, 0x0b, 0x01, 0x10, 0x00]),
            Flow,
            Hears(0, &[0x10, 0x03, 0x0b, 0x11, 0x12, 0x00]),
            Expires(0, TimerId::T21(3), true),
            Flow,
            Hears(0, &[0x10, 0x03, 0x13, 0x00, 0x00]),
            Hears(1, &[0x10, 0x03, 0x13, 0x11, 0x00]),
        ],
    },
];

fn trunks() -> &'static [Example<'static>] {
    TRUNKS
}

#[test]
fn far_legs_are_told_of_trunks(rt: HostRuntime) {
    play(&rt, rt.alloc(), trunks());
}

const RESET: &[u8] = &[0x10, 0x01, 0x1b, 0x03, 0x00];

const CLEAR: &[u8] = &[0x10, 0x01, 0x13, 0x11, 0x00];

// Errors of a DTE in a call, with what then goes to lines 0 and 1.
const ERRORS: &[Example] = &[
    Example {
        rule: "a packet has the wrong send number",
        begins: Beginning::InACall,
        steps: &[
            Send(0, &[0x10, 0x04, 0x02, 0x41]),
            Flow,
            Hears(0, &[0x10, 0x04, 0x1b, 0x05, 0x01]),
            Hears(1, RESET),
            HearsNothing(0),
            HearsNothing(1),
        ],
    },
    Example {
        rule: "a receive number is out of its window",
        begins: Beginning::InACall,
        steps: &[
            Send(0, &[0x10, 0x04, 0x61]),
            Flow,
            Hears(0, &[0x10, 0x04, 0x1b, 0x05, 0x02]),
            Hears(1, RESET),
            HearsNothing(0),
            HearsNothing(1),
        ],
    },
    Example {
        rule: "a reset that was not asked is confirmed",
        begins: Beginning::InACall,
        steps: &[
            Send(0, &[0x10, 0x04, 0x1f]),
            Flow,
            Hears(0, &[0x10, 0x04, 0x1b, 0x05, 0x1b]),
            Hears(1, RESET),
            HearsNothing(0),
            HearsNothing(1),
        ],
    },
    Example {
        rule: "a second interrupt comes before the first is confirmed",
        begins: Beginning::InACall,
        steps: &[
            Send(0, &[0x10, 0x04, 0x23, 0x01]),
            Send(0, &[0x10, 0x04, 0x23, 0x01]),
            Flow,
            Hears(0, &[0x10, 0x04, 0x1b, 0x05, 0x00]),
            Hears(1, &[0x10, 0x01, 0x23, 0x01]),
            Hears(1, RESET),
            HearsNothing(0),
            HearsNothing(1),
        ],
    },
    Example {
        rule: "a call comes on a channel in a call",
        begins: Beginning::InACall,
        steps: &[
            Send(0, &[0x10, 0x04, 0x0b, 0x04, 0x20, 0x01, 0x00]),
            Flow,
            Hears(0, &[0x10, 0x04, 0x13, 0x13, 0x17]),
            Hears(1, CLEAR),
            HearsNothing(0),
            HearsNothing(1),
        ],
    },
    Example {
        rule: "data come on a channel without a call",
        begins: Beginning::InACall,
        steps: &[
            Send(0, &[0x10, 0x03, 0x00, 0x41]),
            Flow,
            Hears(0, &[0x10, 0x03, 0x13, 0x13, 0x14]),
            HearsNothing(0),
            HearsNothing(1),
        ],
    },
    Example {
        rule: "a restart that was not asked is confirmed",
        begins: Beginning::InACall,
        steps: &[
            Send(0, &[0x10, 0x00, 0xff]),
            Flow,
            Hears(0, &[0x10, 0x00, 0xfb, 0x01, 0x11]),
            Hears(1, CLEAR),
            HearsNothing(0),
            HearsNothing(1),
        ],
    },
];

fn errors() -> &'static [Example<'static>] {
    ERRORS
}

// Packets that cannot be read, in a call, with what then goes to lines 0 and 1.
const UNREADABLE: &[Example] = &[
    Example {
        rule: "a packet of no type comes on a channel in a call",
        begins: Beginning::InACall,
        steps: &[
            Send(0, &[0x10, 0x04, 0xf1]),
            Flow,
            Hears(0, &[0x10, 0x04, 0x1b, 0x05, 0x1b]),
            Hears(1, RESET),
            HearsNothing(0),
            HearsNothing(1),
        ],
    },
    Example {
        rule: "data come on a channel that the line does not have",
        begins: Beginning::InACall,
        steps: &[
            Send(0, &[0x10, 0x09, 0x00]),
            Flow,
            HearsNothing(0),
            HearsNothing(1),
        ],
    },
    Example {
        rule: "a call comes on channel 0",
        begins: Beginning::InACall,
        steps: &[
            Send(0, &[0x10, 0x00, 0x0b]),
            Flow,
            HearsNothing(0),
            HearsNothing(1),
        ],
    },
    Example {
        rule: "a packet has two octets",
        begins: Beginning::InACall,
        steps: &[
            Send(0, &[0x10, 0x04]),
            Flow,
            HearsNothing(0),
            HearsNothing(1),
            Joined(0, 4, Some((1, 1))),
        ],
    },
];

fn unreadable() -> &'static [Example<'static>] {
    UNREADABLE
}

// A line that relinks because five packets are owed on it.
const OWED: &[Example] = &[Example {
    rule: "a fifth owed packet ends the session of its line, and no call between others",
    begins: Beginning::BesideACall,
    steps: &[
        Arrives(0, &[0x01, 0x22, 0x10, 0x03, 0x13, 0x00, 0x00]),
        Gets(0, &[0x03, 0x42, 0x10, 0x03, 0x17]),
        Arrives(0, &[0x01, 0x24, 0x10, 0x03, 0x13, 0x00, 0x00]),
        Gets(0, &[0x01, 0x61]),
        Arrives(0, &[0x01, 0x26, 0x10, 0x03, 0x13, 0x00, 0x00]),
        Gets(0, &[0x01, 0x81]),
        Arrives(0, &[0x01, 0x28, 0x10, 0x03, 0x13, 0x00, 0x00]),
        Gets(0, &[0x01, 0xa1]),
        Arrives(0, &[0x01, 0x2a, 0x10, 0x03, 0x13, 0x00, 0x00]),
        Gets(0, &[0x01, 0xc1]),
        Arrives(0, &[0x01, 0x2c, 0x10, 0x03, 0x13, 0x00, 0x00]),
        Gets(0, &[0x01, 0x0f]),
        GetsNothing(0),
        GetsNothing(1),
        GetsNothing(2),
        Joined(1, 4, Some((2, 1))),
        Joined(2, 1, Some((1, 4))),
    ],
}];

fn owed() -> &'static [Example<'static>] {
    OWED
}

#[test]
fn errors_of_one_leg_go_on(rt: HostRuntime) {
    play(&rt, rt.alloc(), errors());
    play(&rt, rt.alloc(), unreadable());
    play(&rt, rt.alloc(), owed());
}
