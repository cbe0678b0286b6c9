//! Messages of X.29 by their octets.
use x29_messages::{Message, MessageBuf, MessageFault, Pairs, read_message, write_message};

/// Whether octets have this fault.
fn has_fault(octets: &[u8], wanted: MessageFault) -> bool {
    match read_message(octets) {
        Ok(_) => false,
        Err(fault) => fault == wanted,
    }
}

#[test]
fn refuses_octets(rt: HostRuntime) {
    assert!(rt; has_fault(b"", MessageFault::Empty));
    assert!(rt; has_fault(b"\x07", MessageFault::UnknownCode));
    assert!(rt; has_fault(b"\x02\x02", MessageFault::OddLength));
}

/// Whether octets set these parameters, each by its number and its value.
fn sets(octets: &[u8], wanted: &[(u8, u8)]) -> bool {
    match read_message(octets) {
        Ok(Message::Set(pairs)) => pairs.as_slice() == wanted,
        _ => false,
    }
}

#[test]
fn reads_messages(rt: HostRuntime) {
    assert!(rt; sets(b"\x02\x02\x00\x0B\x01", &[(2, 0), (11, 1)]));
}

/// Whether a message is written as these octets.
fn is_written(message: &Message, octets: &[u8]) -> bool {
    let mut out = MessageBuf::new();
    write_message(message, &mut out);
    out.as_slice() == octets
}

/// That parameter 11, marked as refused, has the value 3.
fn parameter() -> Message {
    let mut pairs = Pairs::new();
    pairs.push((0x8B, 3));
    Message::ParameterIndication(pairs)
}

#[test]
fn writes_messages(rt: HostRuntime) {
    assert!(rt; is_written(&parameter(), b"\x00\x8B\x03"));
    assert!(rt; is_written(&Message::Error(1, Some(7)), b"\x05\x01\x07"));
    assert!(rt; is_written(&Message::Error(0, None), b"\x05\x00"));
}
