//! A host at the DCE of a line on which a call stands, by the octets of its frames.

use crate::lines::{LINE, STANDING};
use frame_codec::FrameBuf;
use link_timers::Role;
use packet_codec::Numbering;
use packet_end::{EndFault, EndParams};
use packet_host::{Host, HostConfig};
use packet_layer::{Flow, Taken};
use std::alloc::Global;

pub(crate) fn new_host(alloc: Global, line: EndParams) -> Result<Host, EndFault> {
    Host::new(
        alloc,
        HostConfig {
            role: Role::Dce,
            line,
        },
    )
}

// The same line with the largest window and numbers modulo 128, and with a window of one frame.
const MODULO_128: EndParams = EndParams {
    flow: Flow {
        window: 32,
        numbering: Numbering::Modulo128,
        size: 128,
    },
    ..STANDING
};

const ONE_FRAME: EndParams = EndParams { k: 1, ..STANDING };

// A line, and frames that come in turn, each with the one frame that answers it.
type Example = (EndParams, &'static [(&'static [u8], &'static [u8])]);

const EXAMPLES: &[Example] = &[
    // acknowledged and ignored: a packet without a type, and one of the other numbering
    (
        STANDING,
        &[
            (&[0x01, 0x00, 0x10, 0x01], &[0x01, 0x21]),
            (&[0x01, 0x02, 0x20, 0x01, 0x00], &[0x01, 0x41]),
        ],
    ),
    // the wrong P(S), and Call Accepted of a wrong length
    (
        STANDING,
        &[(
            &[0x01, 0x00, 0x10, 0x01, 0x02, 0x41],
            &[0x03, 0x20, 0x10, 0x01, 0x1b, 0x05, 0x01],
        )],
    ),
    (
        STANDING,
        &[(
            &[0x01, 0x00, 0x10, 0x01, 0x0f, 0x01],
            &[0x03, 0x20, 0x10, 0x01, 0x1b, 0x05, 0x00],
        )],
    ),
    // P(R) of a packet that was not sent, and the wrong P(S), modulo 128
    (
        MODULO_128,
        &[(
            &[0x01, 0x00, 0x20, 0x01, 0x05, 0xfe],
            &[0x03, 0x20, 0x20, 0x01, 0x1b, 0x05, 0x02],
        )],
    ),
    (
        MODULO_128,
        &[(
            &[0x01, 0x00, 0x20, 0x01, 0xfe, 0x00, 0x58],
            &[0x03, 0x20, 0x20, 0x01, 0x1b, 0x05, 0x01],
        )],
    ),
    // RR with P(R) where numbers modulo 8 have it, and Data of three octets
    (
        MODULO_128,
        &[(
            &[0x01, 0x00, 0x20, 0x01, 0x21, 0x00],
            &[0x03, 0x20, 0x20, 0x01, 0x1b, 0x05, 0x1b],
        )],
    ),
    (
        MODULO_128,
        &[(
            &[0x01, 0x00, 0x20, 0x01, 0x00],
            &[0x03, 0x20, 0x20, 0x01, 0x1b, 0x05, 0x00],
        )],
    ),
    // a fifth packet that is owed sets the link up anew
    (
        ONE_FRAME,
        &[
            (
                &[0x01, 0x00, 0x10, 0x02, 0x13, 0x00, 0x00],
                &[0x03, 0x20, 0x10, 0x02, 0x17],
            ),
            (&[0x01, 0x02, 0x10, 0x02, 0x13, 0x00, 0x00], &[0x01, 0x41]),
            (&[0x01, 0x04, 0x10, 0x02, 0x13, 0x00, 0x00], &[0x01, 0x61]),
            (&[0x01, 0x06, 0x10, 0x02, 0x13, 0x00, 0x00], &[0x01, 0x81]),
            (&[0x01, 0x08, 0x10, 0x02, 0x13, 0x00, 0x00], &[0x01, 0xa1]),
            (&[0x01, 0x0a, 0x10, 0x02, 0x13, 0x00, 0x00], &[0x01, 0x0f]),
        ],
    ),
];

fn examples() -> &'static [Example] {
    EXAMPLES
}

/// Whether one frame goes out, of these octets.
fn sends(host: &mut Host, octets: &[u8]) -> bool {
    let mut frame = FrameBuf::new();
    host.waiting_frames() == 1 && host.out(&mut frame) && frame.as_slice() == octets
}

fn answers(host: &mut Host, frames: &[(&[u8], &[u8])]) -> bool {
    let mut same = true;
    for (heard, sent) in frames {
        host.on_frame(heard);
        same = same && sends(host, sent);
    }
    same
}

/// Whether a new host answers the frames of an example.
fn holds(alloc: Global, example: &Example) -> bool {
    let (line, frames) = *example;
    match new_host(alloc, line) {
        Ok(mut host) => answers(&mut host, frames),
        Err(_) => false,
    }
}

#[test]
fn hosts_answer_any_packets(rt: HostRuntime) {
    for (place, example) in examples().iter().enumerate() {
        assert!(rt; holds(rt.alloc(), example), "example {place}");
    }
}

/// Whether a packet with D = 1 goes out, and is confirmed once RR covers it.
fn is_confirmed(host: &mut Host) -> bool {
    let said = host.say(1, b"HI", false, true).is_ok() && !host.confirmed(1);
    let sent = sends(host, &[0x03, 0x00, 0x50, 0x01, 0x00, 0x48, 0x49]);
    host.on_frame(&[0x01, 0x20, 0x10, 0x01, 0x21]);
    said && sent && host.confirmed(1) && sends(host, &[0x01, 0x21])
}

/// Whether a packet that comes is acknowledged by the link, and by the packet layer once it is taken.
fn is_taken(host: &mut Host) -> bool {
    host.on_frame(&[0x01, 0x22, 0x10, 0x01, 0x20, 0x58]);
    let heard = sends(host, &[0x01, 0x41]);
    let taken = match host.take(1) {
        Some(Taken::Data(data)) => data.octets() == b"X".as_slice(),
        _ => false,
    };
    heard && taken && sends(host, &[0x03, 0x42, 0x10, 0x01, 0x21])
}

fn delivers(alloc: Global) -> bool {
    match new_host(alloc, STANDING) {
        Ok(mut host) => is_confirmed(&mut host) && is_taken(&mut host),
        Err(_) => false,
    }
}

#[test]
fn packets_are_confirmed_and_taken(rt: HostRuntime) {
    assert!(rt; delivers(rt.alloc()));
}

fn is_bad(alloc: Global, line: EndParams) -> bool {
    new_host(alloc, line).err() == Some(EndFault::BadConfig)
}

#[test]
fn the_window_of_a_link_is_at_most_seven(rt: HostRuntime) {
    assert!(rt; is_bad(rt.alloc(), EndParams { k: 8, ..LINE }));
}
