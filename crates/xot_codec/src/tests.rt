//! Octets of calls over TCP, as a Linux system and a gateway send them.
use crate::{
    FacilityFault, LineFlow, XotFault, XotPacket, XotStream, put_facilities, take_facilities,
};
use std::alloc::Global;

/// A Call Request with facilities 42 and 43 and user data 01 00 00 00.
const CALL: &[u8] = &[
    0x10, 0x01, 0x0B, 0x44, 0x20, 0x01, 0x10, 0x01, 0x06, 0x42, 0x07, 0x07, 0x43, 0x02, 0x02, 0x01,
    0x00, 0x00, 0x00,
];

/// A Call Accepted with facilities 42 and 43.
const ACCEPTED: &[u8] = &[
    0x10, 0x01, 0x0F, 0x00, 0x06, 0x42, 0x07, 0x07, 0x43, 0x02, 0x02,
];

/// A Clear Request with cause 9.
const CLEAR: &[u8] = &[0x10, 0x01, 0x13, 0x09, 0x00];

/// Octets that come, and the packets that are read of them before the fault, if there is one.
#[derive(Clone, Copy)]
struct Example {
    came: &'static [u8],
    packets: &'static [&'static [u8]],
    fault: Option<XotFault>,
}

fn examples() -> [Example; 6] {
    [
        Example {
            came: &[
                0x00, 0x00, 0x00, 0x13, 0x10, 0x01, 0x0B, 0x44, 0x20, 0x01, 0x10, 0x01, 0x06, 0x42,
                0x07, 0x07, 0x43, 0x02, 0x02, 0x01, 0x00, 0x00, 0x00,
            ],
            packets: &[CALL],
            fault: None,
        },
        Example {
            came: &[
                0x00, 0x00, 0x00, 0x0B, 0x10, 0x01, 0x0F, 0x00, 0x06, 0x42, 0x07, 0x07, 0x43, 0x02,
                0x02, 0x00, 0x00, 0x00, 0x05, 0x10, 0x01, 0x13, 0x09, 0x00,
            ],
            packets: &[ACCEPTED, CLEAR],
            fault: None,
        },
        Example {
            came: &[0x00, 0x00, 0x00, 0x05, 0x10, 0x01, 0x13, 0x09],
            packets: &[],
            fault: None,
        },
        Example {
            came: &[
                0x00, 0x00, 0x00, 0x05, 0x10, 0x01, 0x13, 0x09, 0x00, 0x00, 0x01, 0x00, 0x03,
            ],
            packets: &[CLEAR],
            fault: Some(XotFault::OtherVersion),
        },
        Example {
            came: &[0x00, 0x00, 0x00, 0x02, 0x10, 0x01],
            packets: &[],
            fault: Some(XotFault::TooShort),
        },
        Example {
            came: &[0x00, 0x00, 0x04, 0x07, 0x10],
            packets: &[],
            fault: Some(XotFault::TooLong),
        },
    ]
}

/// Whether the packets are read in order, then nothing or the fault, if the octets come in these pieces.
fn reads(alloc: Global, example: &Example, pieces: [&[u8]; 2]) -> bool {
    let Ok(mut stream) = XotStream::new(alloc) else {
        return false;
    };
    let mut packet = XotPacket::new();
    let mut packets = example.packets;
    for piece in pieces {
        stream.octets(piece);
        for _ in 0..3 {
            match (stream.next_packet(&mut packet), packets) {
                (Ok(true), [first, rest @ ..]) if *first == packet.as_slice() => packets = rest,
                (Ok(true), _) => return false,
                (Ok(false), _) => break,
                (Err(fault), _) => return packets.is_empty() && example.fault == Some(fault),
            }
        }
    }
    packets.is_empty() && example.fault.is_none()
}

#[test]
fn packets_are_read_from_any_pieces(rt: HostRuntime) {
    for (place, example) in examples().iter().enumerate() {
        for cut in 0..example.came.len() {
            let pieces = [&example.came[..cut], &example.came[cut..]];
            assert!(rt;
                reads(rt.alloc(), example, pieces),
                "example {place} cut at {cut}"
            );
        }
    }
}

#[test]
fn packets_are_written_with_their_headers(rt: HostRuntime) {
    let Ok(mut stream) = XotStream::new(rt.alloc()) else {
        return;
    };
    let added = stream.add_packet(ACCEPTED) && stream.add_packet(CLEAR);
    assert!(rt; added && stream.waiting() == examples()[1].came);
    assert!(rt; !stream.add_packet(&CLEAR[..2]) && !stream.add_packet(&[0; 1031]));
}

/// A facility field that comes to a line, and the answer.
#[derive(Clone, Copy)]
struct Field {
    line: LineFlow,
    facilities: &'static [u8],
    fault: Option<FacilityFault>,
}

const SMALL: LineFlow = LineFlow {
    size: 128,
    window: 2,
};

const LARGE: LineFlow = LineFlow {
    size: 256,
    window: 3,
};

const fn row(line: LineFlow, facilities: &'static [u8], fault: Option<FacilityFault>) -> Field {
    Field {
        line,
        facilities,
        fault,
    }
}

/// Facilities of a Linux system, and of others by the standard.
fn fields() -> [Field; 15] {
    let not_carried = Some(FacilityFault::NotCarried);
    [
        row(SMALL, &[], None),
        row(SMALL, &[0x42, 0x07, 0x07, 0x43, 0x02, 0x02], None),
        row(SMALL, &[0x42, 0x08, 0x08, 0x43, 0x04, 0x04], None),
        row(SMALL, &[0x01, 0x00, 0x02, 0xAA], None),
        row(SMALL, &[0x01, 0x81, 0x02, 0xAA], not_carried),
        row(SMALL, &[0x01, 0x01], not_carried),
        row(SMALL, &[0x03, 0x11], not_carried),
        row(SMALL, &[0x04, 0x01], not_carried),
        row(SMALL, &[0xC9, 0x02, 0xAA, 0xBB], not_carried),
        row(SMALL, &[0x43, 0x02], not_carried),
        row(
            SMALL,
            &[0x42, 0x06, 0x07],
            Some(FacilityFault::SmallPackets),
        ),
        row(LARGE, &[], Some(FacilityFault::SmallPackets)),
        row(LARGE, &[0x42, 0x08, 0x08], Some(FacilityFault::SmallWindow)),
        row(
            LARGE,
            &[0x42, 0x08, 0x08, 0x43, 0x03, 0x02],
            Some(FacilityFault::SmallWindow),
        ),
        row(LARGE, &[0x43, 0x03, 0x03, 0x42, 0x09, 0x08], None),
    ]
}

#[test]
fn calls_are_carried_or_refused_by_their_facilities(rt: HostRuntime) {
    for (place, field) in fields().iter().enumerate() {
        let fault = take_facilities(field.line, field.facilities).err();
        assert!(rt; fault == field.fault, "field {place}");
    }
    assert!(rt; put_facilities(LARGE) == [0x42, 0x08, 0x08, 0x43, 0x03, 0x03]);
}
