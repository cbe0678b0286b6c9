//! A terminal that leaves and arrives, by what it is shown and by the frames that its PAD sends.

use crate::lines::STANDING;
use crate::pads::new_pad;
use Step::{Arrives, Drops, Hears, Leaves, Quiet, Restarts, Sends, Shows, Types};
use arrayvec::ArrayVec;
use frame_codec::FrameBuf;
use std::alloc::Global;
use x25_pad::{MOST_TEXT, Pad, PadAnswer};

/// What is done at a PAD, or what has to be seen there. A terminal goes by its number.
#[derive(Clone, Copy)]
enum Step<'a> {
    /// Keys that the PAD takes.
    Types(u8, &'a [u8]),
    /// A key and a break, both of which the PAD drops.
    Drops(u8),
    Leaves(u8),
    Arrives(u8),
    /// A frame comes to the PAD.
    Hears(&'a [u8]),
    /// The PAD sends this frame and no other.
    Sends(&'a [u8]),
    /// The PAD sends nothing.
    Quiet,
    /// A terminal is shown this text.
    Shows(u8, &'a [u8]),
    Restarts,
}

/// A rule, and steps by which it is seen at a new PAD of two terminals, of which the first has a standing call on channel
/// 1 of two.
struct Example<'a> {
    rule: &'a str,
    steps: &'a [Step<'a>],
}

/// The PAD clears the standing call in its first frame.
const CLEARS: Step = Sends(&[0x01, 0x00, 0x10, 0x01, 0x13, 0x00, 0x00]);

/// A call comes in on channel 2 in the first frame of the DCE.
const RINGS: Step = Hears(&[0x03, 0x00, 0x10, 0x02, 0x0b, 0x01, 0x20, 0x00]);

const EXAMPLES: &[Example] = &[
    Example {
        rule: "the call of a terminal that leaves is cleared once, and an absent terminal is cut off",
        steps: &[
            Leaves(0),
            CLEARS,
            Drops(0),
            Shows(0, b""),
            Leaves(0),
            Quiet,
            Drops(0),
            Arrives(0),
            Quiet,
            Shows(0, b""),
            Types(0, b"STAT\r"),
            Shows(0, b"STAT\r\r\nFREE\r\n"),
        ],
    },
    Example {
        rule: "a half-typed command is dropped",
        steps: &[
            Types(1, b"PAR?"),
            Leaves(1),
            Quiet,
            Arrives(1),
            Types(1, b"2\r"),
            Sends(&[
                0x01, 0x00, 0x10, 0x02, 0x0b, 0x01, 0x20, 0x00, 0x01, 0x00, 0x00, 0x00,
            ]),
            Shows(1, b"2\r"),
        ],
    },
    Example {
        rule: "no call is given to an absent terminal",
        steps: &[
            Leaves(1),
            RINGS,
            Sends(&[0x01, 0x20, 0x10, 0x02, 0x13, 0x00, 0x00]),
            Arrives(1),
            Shows(1, b""),
            Hears(&[0x03, 0x22, 0x10, 0x02, 0x17]),
            Sends(&[0x03, 0x41]),
            Hears(&[0x03, 0x24, 0x10, 0x02, 0x0b, 0x01, 0x20, 0x00]),
            Sends(&[0x01, 0x62, 0x10, 0x02, 0x0f]),
            Shows(1, b"\r\nCOM\r\n"),
        ],
    },
    Example {
        rule: "a call that comes in is given to the lowest terminal that is present and has none",
        steps: &[
            Leaves(0),
            CLEARS,
            RINGS,
            Sends(&[0x01, 0x22, 0x10, 0x02, 0x0f]),
            Shows(0, b""),
            Shows(1, b"\r\nCOM\r\n"),
        ],
    },
    Example {
        rule: "text that is held, that waits, and that was not taken is dropped",
        steps: &[
            Types(0, b"HI"),
            Hears(&[0x03, 0x00, 0x10, 0x01, 0x00, 0x48, 0x4f]),
            Sends(&[0x03, 0x21]),
            Leaves(0),
            Sends(&[0x01, 0x20, 0x10, 0x01, 0x13, 0x00, 0x00]),
            Arrives(0),
            Shows(0, b""),
            Hears(&[0x03, 0x22, 0x10, 0x01, 0x17]),
            Sends(&[0x03, 0x41]),
            Shows(0, b""),
        ],
    },
    Example {
        rule: "parameters are the initial ones again",
        steps: &[
            Types(1, b"SET 2:0\r"),
            Leaves(1),
            Arrives(1),
            Types(1, b"PAR?2\r"),
            Shows(1, b"PAR?2\r\r\nPAR 2:1\r\n"),
        ],
    },
    Example {
        rule: "an arrival changes nothing of a terminal that is present",
        steps: &[
            Types(0, b"HI"),
            Arrives(0),
            Quiet,
            Types(0, b"\r"),
            Sends(&[0x01, 0x00, 0x10, 0x01, 0x00, 0x48, 0x49, 0x0d]),
            Shows(0, b"HI\r"),
        ],
    },
    Example {
        rule: "all terminals are present after a restart",
        steps: &[
            Leaves(1),
            Drops(1),
            Restarts,
            Types(1, b"STAT\r"),
            Shows(1, b"STAT\r\r\nFREE\r\n"),
        ],
    },
];

fn examples() -> &'static [Example<'static>] {
    EXAMPLES
}

#[test]
fn terminals_leave_and_arrive(rt: HostRuntime) {
    for example in examples() {
        let rule = example.rule;
        assert!(rt; holds(rt.alloc(), example.steps), "{rule}");
    }
}

/// Whether steps fit at a new PAD.
fn holds(alloc: Global, steps: &[Step<'_>]) -> bool {
    match new_pad(alloc, STANDING, 2) {
        Ok(mut pad) => fits(&mut pad, steps),
        Err(_) => false,
    }
}

fn fits(pad: &mut Pad, steps: &[Step<'_>]) -> bool {
    let mut same = true;
    for step in steps {
        same = same && does(pad, *step);
    }
    same
}

/// Does a step, or looks whether it is as it has to be.
fn does(pad: &mut Pad, step: Step<'_>) -> bool {
    match step {
        Types(terminal, keys) => takes(pad, terminal, keys),
        Drops(terminal) => drops(pad, terminal),
        Leaves(terminal) => leaves(pad, terminal),
        Arrives(terminal) => arrives(pad, terminal),
        Hears(octets) => {
            pad.on_frame(octets);
            true
        }
        Sends(octets) => sends(pad, octets),
        Quiet => pad.waiting_frames() == 0,
        Shows(terminal, text) => shows(pad, terminal, text),
        Restarts => {
            pad.restart();
            true
        }
    }
}

fn takes(pad: &mut Pad, terminal: u8, keys: &[u8]) -> bool {
    let mut all = true;
    for key in keys {
        all = all && press(pad, terminal, *key) == Some(PadAnswer::Taken);
    }
    all
}

fn press(pad: &mut Pad, terminal: u8, key: u8) -> Option<PadAnswer> {
    if terminal >= pad.terminals() {
        return None;
    }
    Some(pad.on_key(terminal, key))
}

fn drops(pad: &mut Pad, terminal: u8) -> bool {
    if terminal >= pad.terminals() {
        return false;
    }
    let breaks = pad.on_break(terminal);
    breaks == PadAnswer::Dropped && press(pad, terminal, b'H') == Some(PadAnswer::Dropped)
}

fn leaves(pad: &mut Pad, terminal: u8) -> bool {
    if terminal >= pad.terminals() {
        return false;
    }
    pad.on_leaving(terminal);
    true
}

fn arrives(pad: &mut Pad, terminal: u8) -> bool {
    if terminal >= pad.terminals() {
        return false;
    }
    pad.on_arriving(terminal);
    true
}

fn sends(pad: &mut Pad, octets: &[u8]) -> bool {
    let mut frame = FrameBuf::new();
    pad.waiting_frames() == 1 && pad.out(&mut frame) && frame.as_slice() == octets
}

fn shows(pad: &mut Pad, terminal: u8, text: &[u8]) -> bool {
    if terminal >= pad.terminals() {
        return false;
    }
    let mut shown = ArrayVec::<u8, MOST_TEXT>::new();
    let _ = pad.print(terminal, &mut shown);
    shown.as_slice() == text
}
