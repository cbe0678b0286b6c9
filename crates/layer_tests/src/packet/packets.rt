//! Packets and addresses, by their octets.

use packet_codec::{
    Address, AddressFault, CallBuf, CallData, Content, Numbering, PacketBuf, PacketFault,
    logical_channel, read_packet, write_packet,
};

/// How the third octet and those behind it number packets: bits 6 and 5 of the first octet say it.
fn numbering_of(octets: &[u8]) -> Numbering {
    match octets.first() {
        Some(first) if *first & 0x30 == 0x20 => Numbering::Modulo128,
        _ => Numbering::Modulo8,
    }
}

// Octets of a packet, and the octets that it is written as, which are empty where they are the same.
const PACKETS: &[(&[u8], &[u8])] = &[
    (&[0x10, 0x04, 0x13, 0x03], &[0x10, 0x04, 0x13, 0x03, 0x00]),
    (&[0x10, 0x04, 0x0f, 0x00, 0x00], &[0x10, 0x04, 0x0f]),
    (b"\x10\x04\x00HELLO\r", &[]),
    (b"\x50\x04\x00HI", &[]),
    (&[0x90, 0x04, 0x20, 0x00, 0x8b, 0x03], &[]),
    (&[0x10, 0x01, 0x10], &[]),
    (&[0x10, 0x04, 0x21], &[]),
    (&[0x10, 0x04, 0x25], &[]),
    (&[0x10, 0x04, 0x23, 0x01], &[]),
    (&[0x10, 0x04, 0x27], &[]),
    (&[0x10, 0x04, 0x1b, 0x00, 0x00], &[]),
    (&[0x10, 0x04, 0x1f], &[]),
    (&[0x10, 0x03, 0x17], &[]),
    (&[0x10, 0x00, 0xfb, 0x07, 0x00], &[]),
    (&[0x10, 0x00, 0xff], &[]),
    (b"\x20\x04\x00\x00HELLO\r", &[]),
    (b"\xe0\x04\xfe\xfdHI", &[]),
    (&[0x20, 0x04, 0x01, 0x02], &[]),
    (&[0x20, 0x04, 0x05, 0xfe], &[]),
    (&[0x20, 0x04, 0x0b, 0x04, 0x20, 0x01, 0x00], &[]),
    (&[0x20, 0x00, 0xfb, 0x07, 0x00], &[]),
];

fn packets() -> &'static [(&'static [u8], &'static [u8])] {
    PACKETS
}

fn is_written(octets: &[u8], written: &[u8]) -> bool {
    if written.is_empty() {
        is_written_as(octets, octets)
    } else {
        is_written_as(octets, written)
    }
}

/// Whether octets are a packet that is written as these.
fn is_written_as(octets: &[u8], written: &[u8]) -> bool {
    match read_packet(octets, numbering_of(octets), 128) {
        Ok(packet) => {
            let mut buf = PacketBuf::new();
            write_packet(&packet, &mut buf);
            buf.as_slice() == written
        }
        Err(_) => false,
    }
}

#[test]
fn packets_are_read_and_written(rt: HostRuntime) {
    for (octets, written) in packets() {
        assert!(rt; is_written(octets, written), "{octets:?}");
    }
}

/// Whether octets are one Data packet of the user data `HI`, with these numbers, M = 1, Q = 1 and D = 0.
fn is_data(octets: &[u8], send: u8, receive: u8) -> bool {
    match read_packet(octets, numbering_of(octets), 128) {
        Ok(packet) => match packet.content {
            Content::Data(data) => {
                data.more
                    && data.qualified
                    && !data.delivery
                    && data.send == send
                    && data.receive == receive
                    && data.user_data == b"HI".as_slice()
            }
            _ => false,
        },
        Err(_) => false,
    }
}

#[test]
fn packets_have_numbers(rt: HostRuntime) {
    assert!(rt; is_data(b"\x90\x04\xdcHI", 6, 6));
    assert!(rt; is_data(b"\xa0\x04\xfe\xcbHI", 127, 101));
}

// A Data packet of 129 octets.
const TOO_LONG: &[u8] =
    b"\x10\x01\x00AAAAAAAAAAAAAAAAAAAAAAAAAAAAAAAAAAAAAAAAAAAAAAAAAAAAAAAAAAAAAAAAAAAAAA\
    AAAAAAAAAAAAAAAAAAAAAAAAAAAAAAAAAAAAAAAAAAAAAAAAAAAAAAAAAAA";

const FAULTS: &[(&[u8], PacketFault)] = &[
    (
        &[0x10, 0x04, 0x0f, 0x00, 0x00, 0x41],
        PacketFault::BadLength,
    ),
    (&[0x10, 0x04, 0x0b, 0x00, 0x00], PacketFault::BadAddress),
    (
        &[0x10, 0x04, 0x0b, 0x04, 0x20, 0x0a, 0x00],
        PacketFault::BadAddress,
    ),
    (&[0x10, 0x00, 0xf1], PacketFault::UnknownType),
    (&[0x50, 0x04, 0x23, 0x41], PacketFault::UnknownType),
    (&[0x30, 0x01, 0x00], PacketFault::BadFormatId),
    (&[0x10, 0x01], PacketFault::TooShort),
    (TOO_LONG, PacketFault::DataTooLong),
    (&[0x20, 0x04, 0x01, 0x03], PacketFault::UnknownType),
    (&[0x20, 0x04, 0x05, 0x01], PacketFault::UnknownType),
    (&[0x20, 0x04, 0x01], PacketFault::BadLength),
];

fn faults() -> &'static [(&'static [u8], PacketFault)] {
    FAULTS
}

fn has_fault(octets: &[u8], wanted: PacketFault) -> bool {
    match read_packet(octets, numbering_of(octets), 128) {
        Ok(_) => false,
        Err(fault) => fault == wanted,
    }
}

#[test]
fn other_octets_have_faults(rt: HostRuntime) {
    for (octets, fault) in faults() {
        assert!(rt; has_fault(octets, *fault), "{octets:?}");
    }
}

// A Call of 1001 to 2001 with four octets of user data, and one with a facility.
const CALL: &[u8] = &[
    0x10, 0x01, 0x0b, 0x44, 0x20, 0x01, 0x10, 0x01, 0x00, 0x01, 0x00, 0x00, 0x00,
];

const FACILITY: &[u8] = &[0x10, 0x04, 0x0b, 0x04, 0x20, 0x01, 0x02, 0x01, 0x01];

/// Whether octets are a Call to 2001 that tells this, also where it is kept in a buffer.
fn is_call(octets: &[u8], calling: &[u8], facilities: &[u8], user_data: &[u8]) -> bool {
    let Ok(packet) = read_packet(octets, Numbering::Modulo8, 128) else {
        return false;
    };
    match &packet.content {
        Content::CallRequest(call) => {
            let kept = CallBuf::new(call);
            let data = kept.data();
            data.facilities == facilities
                && data.user_data == user_data
                && are_addresses(&data, calling)
        }
        _ => false,
    }
}

fn are_addresses(call: &CallData<'_>, calling: &[u8]) -> bool {
    is_address(b"2001", &call.called)
        && match &call.calling {
            Some(address) => is_address(calling, address),
            None => calling.is_empty(),
        }
}

fn is_address(text: &[u8], address: &Address) -> bool {
    match Address::read(text) {
        Ok(read) => read == *address,
        Err(_) => false,
    }
}

#[test]
fn calls_have_blocks(rt: HostRuntime) {
    assert!(rt; is_call(CALL, b"1001", &[], &[1, 0, 0, 0]) && is_written_as(CALL, CALL));
    assert!(rt; is_call(FACILITY, b"", &[1, 1], &[]) && is_written_as(FACILITY, FACILITY));
}

fn is_refused(text: &[u8], wanted: AddressFault) -> bool {
    match Address::read(text) {
        Ok(_) => false,
        Err(fault) => fault == wanted,
    }
}

#[test]
fn addresses_have_digits(rt: HostRuntime) {
    assert!(rt; is_refused(b"", AddressFault::Empty));
    assert!(rt; is_refused(b"1234567890123456", AddressFault::TooLong));
    assert!(rt; is_refused(b"12A", AddressFault::NotADigit));
}

/// Whether octets are RR on channel 1.
fn is_ready(octets: &[u8]) -> bool {
    match read_packet(octets, Numbering::Modulo8, 128) {
        Ok(packet) => matches!(packet.content, Content::ReceiveReady(_)) && packet.channel == 1,
        Err(_) => false,
    }
}

#[test]
fn packets_have_types_and_channels(rt: HostRuntime) {
    assert!(rt; is_ready(&[0x10, 0x01, 0x41]));
    assert!(rt; logical_channel(&[0x11, 0x04, 0xf1]) == Some(0x104));
}
