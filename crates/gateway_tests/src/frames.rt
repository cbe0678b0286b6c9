//! The end of the line of a gateway, by the octets of its frames.

use crate::steps::LINE;
use FrameStep::{
    Arrives, Attaches, Comes, Elapses, HeldBack, Ready, Relinks, Sends, SendsNothing, Writes,
};
use frame_codec::FrameBuf;
use gateway_end::{GatewayEnd, GatewayFault, GatewayParams};
use std::alloc::Global;

/// A line on which the link may have one packet unacknowledged.
const ONE_PACKET: GatewayParams = GatewayParams {
    k: 1,
    n2: 3,
    line: LINE,
    channels: 2,
    connections: 3,
};

// A step. Each event is followed by `finish`.
#[derive(Clone, Copy)]
enum FrameStep<'a> {
    // a frame of the line arrives
    Arrives(&'a [u8]),
    // so many ticks pass
    Elapses(u16),
    // the link is given up
    Relinks,
    // a connection comes, and gets this number
    Attaches(usize),
    // octets come over a connection
    Comes(usize, &'a [u8]),
    // the next frame that goes out
    Sends(&'a [u8]),
    // no frame more
    SendsNothing,
    // what is written to a connection
    Writes(usize, &'a [u8]),
    // whether a packet waits for the link
    HeldBack(bool),
    // whether the line is in r1
    Ready(bool),
}

/// Does a step, and answers whether it is as the example says.
fn takes(end: &mut GatewayEnd, step: FrameStep<'_>) -> bool {
    match step {
        Attaches(_) | Comes(..) | Writes(..) => takes_at(end, step),
        Arrives(_) | Elapses(_) | Relinks => happens(end, step),
        Sends(frame) => sends(end, frame),
        SendsNothing => !end.out(&mut FrameBuf::new()),
        HeldBack(held_back) => end.is_held_back() == held_back,
        Ready(ready) => end.is_ready() == ready,
    }
}

/// What happens at the line.
fn happens(end: &mut GatewayEnd, step: FrameStep<'_>) -> bool {
    match step {
        Arrives(frame) => end.on_frame(frame),
        Elapses(ticks) => end.elapse(ticks),
        Relinks => end.relink(),
        _ => return false,
    }
    end.finish();
    true
}

/// What happens at a connection.
fn takes_at(end: &mut GatewayEnd, step: FrameStep<'_>) -> bool {
    match step {
        Attaches(number) => end.attach() == Some(number),
        Comes(number, octets) => {
            let all = end.came(number, octets) == octets.len();
            end.finish();
            all
        }
        Writes(number, octets) => {
            let same = end.waiting(number) == octets;
            end.written(number, octets.len());
            same
        }
        _ => false,
    }
}

fn sends(end: &mut GatewayEnd, octets: &[u8]) -> bool {
    let mut frame = FrameBuf::new();
    end.out(&mut frame) && frame.as_slice() == octets
}

fn fits(end: &mut GatewayEnd, steps: &[FrameStep<'_>]) -> bool {
    let mut fits = true;
    for step in steps {
        fits = fits && takes(end, *step);
    }
    fits
}

// The link comes up, and the Restart is its first packet.
const BEGINS: &[FrameStep] = &[
    Sends(&[0x01, 0x3f]),
    SendsNothing,
    Ready(false),
    Arrives(&[0x01, 0x73]),
    Sends(&[0x01, 0x11]),
    SendsNothing,
    Arrives(&[0x01, 0x11]),
    Sends(&[0x01, 0x00, 0x10, 0x00, 0xfb, 0x00, 0x00]),
    SendsNothing,
    Arrives(&[0x03, 0x20, 0x10, 0x00, 0xff]),
    Sends(&[0x03, 0x21]),
    SendsNothing,
    Ready(true),
];

// A call of each of two connections: the second one waits for the link until the first one is acknowledged.
const CALLS: &[FrameStep] = &[
    Attaches(0),
    Attaches(1),
    Comes(0, &[0, 0, 0, 6, 0x10, 0x01, 0x0b, 0x02, 0x20, 0x00]),
    Sends(&[0x01, 0x22, 0x10, 0x02, 0x0b, 0x02, 0x20, 0x00]),
    HeldBack(false),
    Comes(1, &[0, 0, 0, 6, 0x10, 0x01, 0x0b, 0x02, 0x30, 0x00]),
    SendsNothing,
    HeldBack(true),
    Arrives(&[0x01, 0x41]),
    Sends(&[0x01, 0x24, 0x10, 0x01, 0x0b, 0x02, 0x30, 0x00]),
    SendsNothing,
    HeldBack(false),
    Arrives(&[0x03, 0x62, 0x10, 0x02, 0x0f]),
    Sends(&[0x03, 0x41]),
    Writes(
        0,
        &[
            0, 0, 0, 11, 0x10, 0x02, 0x0f, 0x00, 0x06, 0x42, 0x07, 0x07, 0x43, 0x02, 0x02,
        ],
    ),
    Arrives(&[0x03, 0x64, 0x10, 0x01, 0x0f]),
    Sends(&[0x03, 0x61]),
    Writes(
        1,
        &[
            0, 0, 0, 11, 0x10, 0x01, 0x0f, 0x00, 0x06, 0x42, 0x07, 0x07, 0x43, 0x02, 0x02,
        ],
    ),
    SendsNothing,
];

// Connections take turns: three packets of one are there, and two of another.
const TURNS: &[FrameStep] = &[
    Comes(
        1,
        &[
            0, 0, 0, 4, 0x10, 0x01, 0x00, 0x61, 0, 0, 0, 4, 0x10, 0x01, 0x02, 0x62, 0, 0, 0, 4,
            0x10, 0x01, 0x04, 0x63,
        ],
    ),
    Sends(&[0x01, 0x66, 0x10, 0x01, 0x00, 0x61]),
    HeldBack(true),
    Comes(
        0,
        &[
            0, 0, 0, 4, 0x10, 0x01, 0x00, 0x71, 0, 0, 0, 4, 0x10, 0x01, 0x02, 0x72,
        ],
    ),
    SendsNothing,
    Arrives(&[0x01, 0x81]),
    Sends(&[0x01, 0x68, 0x10, 0x01, 0x02, 0x62]),
    Arrives(&[0x01, 0xa1]),
    Sends(&[0x01, 0x6a, 0x10, 0x02, 0x00, 0x71]),
    Arrives(&[0x01, 0xc1]),
    Sends(&[0x01, 0x6c, 0x10, 0x01, 0x04, 0x63]),
    Arrives(&[0x01, 0xe1]),
    Sends(&[0x01, 0x6e, 0x10, 0x02, 0x02, 0x72]),
    Arrives(&[0x01, 0x01]),
    SendsNothing,
    HeldBack(false),
];

// Two packets of a connection, of which the link takes one.
const WAITING: &[FrameStep] = &[
    Comes(
        0,
        &[
            0, 0, 0, 4, 0x10, 0x02, 0x00, 0x61, 0, 0, 0, 4, 0x10, 0x02, 0x02, 0x62,
        ],
    ),
    Sends(&[0x01, 0x66, 0x10, 0x02, 0x00, 0x61]),
    SendsNothing,
    HeldBack(true),
];

// The link is set up anew: both calls are cleared with cause 9, what waited is dropped, and the Restart comes first.
const ANEW: &[FrameStep] = &[
    Sends(&[0x01, 0x2f]),
    SendsNothing,
    HeldBack(false),
    Ready(false),
    Writes(0, &[0, 0, 0, 5, 0x10, 0x02, 0x13, 0x09, 0x00]),
    Writes(1, &[0, 0, 0, 5, 0x10, 0x01, 0x13, 0x09, 0x00]),
    Arrives(&[0x01, 0x63]),
    Sends(&[0x01, 0x11]),
    Arrives(&[0x01, 0x11]),
    Sends(&[0x01, 0x00, 0x10, 0x00, 0xfb, 0x00, 0x00]),
    SendsNothing,
];

// A frame out of its turn brings nothing to a call.
const OUT_OF_TURN: &[FrameStep] = &[
    Arrives(&[0x03, 0x68, 0x10, 0x02, 0x00, 0x41]),
    Sends(&[0x03, 0x69]),
    Writes(0, &[]),
    Arrives(&[0x03, 0x66, 0x10, 0x02, 0x00, 0x41]),
    Sends(&[0x03, 0x81]),
    Writes(0, &[0, 0, 0, 4, 0x10, 0x02, 0x00, 0x41]),
    SendsNothing,
];

// DM of the DCE.
const DISCONNECTED: &[FrameStep] = &[Arrives(&[0x01, 0x0f])];

// A frame that cannot be taken.
const UNKNOWN_FRAME: &[FrameStep] = &[Arrives(&[0x03, 0xff])];

const RELINK: &[FrameStep] = &[Relinks];

// Three polls go without an answer.
const SILENCE: &[FrameStep] = &[
    Elapses(59),
    SendsNothing,
    Elapses(1),
    Sends(&[0x01, 0x71]),
    Elapses(60),
    Sends(&[0x01, 0x71]),
    Elapses(60),
    Sends(&[0x01, 0x71]),
    SendsNothing,
    Elapses(60),
];

fn runs() -> [[&'static [FrameStep<'static>]; 3]; 6] {
    [
        [TURNS, &[], &[]],
        [OUT_OF_TURN, &[], &[]],
        [WAITING, DISCONNECTED, ANEW],
        [WAITING, UNKNOWN_FRAME, ANEW],
        [WAITING, RELINK, ANEW],
        [WAITING, SILENCE, ANEW],
    ]
}

/// Whether a run fits after two calls.
fn holds(alloc: Global, run: &[&[FrameStep<'_>]; 3]) -> bool {
    match GatewayEnd::new(alloc, ONE_PACKET) {
        Ok(mut end) => {
            fits(&mut end, BEGINS)
                && fits(&mut end, CALLS)
                && run.iter().all(|steps| fits(&mut end, steps))
        }
        Err(_) => false,
    }
}

#[test]
fn packets_go_in_frames_and_end_with_the_link(rt: HostRuntime) {
    for (place, run) in runs().iter().enumerate() {
        assert!(rt; holds(rt.alloc(), run), "run {place}");
    }
}

#[test]
fn a_window_of_the_link_beyond_seven_is_refused(rt: HostRuntime) {
    let params = GatewayParams { k: 8, ..ONE_PACKET };
    assert!(rt; GatewayEnd::new(rt.alloc(), params).err() == Some(GatewayFault::BadParams));
}
