//! Frames of the link layer, by their octets.
use FrameKind::{Disc, Dm, Frmr, I, Rej, Rnr, Rr, Sabm, Ua};
use frame_codec::{Frame, FrameBuf, FrameFault, FrameKind, Rejection, read_frame, write_frame};
use link_timers::Role;

// The most octets of information of a line with packets of 128 octets, and of any line.
const SHORT: u16 = 145;

const LONG: u16 = 1_028;

// Octets, where they are read, and the frame that they are: its kind, whether it is a response, and its P/F bit.
type Row = (&'static [u8], Role, FrameKind<'static>, bool, bool);

const FRAMES: &[Row] = &[
    (&[0x01, 0x3F], Role::Dce, Sabm, false, true),
    (&[0x03, 0x2F], Role::Dte, Sabm, false, false),
    (&[0x01, 0x43], Role::Dce, Disc, false, false),
    (&[0x03, 0x53], Role::Dte, Disc, false, true),
    (&[0x01, 0x11], Role::Dce, Rr { nr: 0 }, false, true),
    (
        &[0x01, 0x6E, 0x10, 0x01],
        Role::Dce,
        I {
            ns: 7,
            nr: 3,
            information: &[0x10, 0x01],
        },
        false,
        false,
    ),
    (&[0x01, 0x0F], Role::Dte, Dm, true, false),
    (&[0x03, 0x1F], Role::Dce, Dm, true, true),
    (&[0x01, 0x73], Role::Dte, Ua, true, true),
    (&[0x03, 0x63], Role::Dce, Ua, true, false),
    (&[0x01, 0xF1], Role::Dte, Rr { nr: 7 }, true, true),
    (&[0x03, 0x25], Role::Dce, Rnr { nr: 1 }, true, false),
    (&[0x01, 0x09], Role::Dte, Rej { nr: 0 }, true, false),
    (
        &[0x01, 0x97, 0xFF, 0x00, 0x01],
        Role::Dte,
        Frmr(OF_W),
        true,
        true,
    ),
    (
        &[0x03, 0x87, 0x21, 0x7A, 0x0F],
        Role::Dce,
        Frmr(OF_ALL),
        true,
        false,
    ),
];

// What reports tell: of an unknown control octet, and of a response, with every reason.
const OF_W: Rejection = Rejection {
    control: 0xFF,
    vs: 0,
    vr: 0,
    response: false,
    w: true,
    x: false,
    y: false,
    z: false,
};

const OF_ALL: Rejection = Rejection {
    control: 0x21,
    vs: 5,
    vr: 3,
    response: true,
    w: true,
    x: true,
    y: true,
    z: true,
};

fn frames() -> &'static [Row] {
    FRAMES
}

#[test]
fn frames_are_read_and_written(rt: HostRuntime) {
    for row in frames() {
        assert!(rt; fits(row));
    }
}

/// Whether a row's octets are read as its frame, and are written back.
fn fits(row: &Row) -> bool {
    let (octets, at, kind, response, pf) = *row;
    let frame = Frame { kind, response, pf };
    read_frame(octets, at, SHORT) == Ok(frame) && is_written_back(octets, at)
}

/// Whether the frame that the octets spell is written with the same octets.
#[tactic(auto, using(frame_codec::proofs::Grammar::form_spelt))]
fn is_written_back(octets: &[u8], at: Role) -> bool {
    match read_frame(octets, at, LONG) {
        Ok(frame) => {
            let mut buffer = FrameBuf::new();
            write_frame(&frame, at.other(), &mut buffer);
            buffer.as_slice() == octets
        }
        Err(_) => false,
    }
}

// I frames with as many octets of information as that line's may have, and with one more.
pub(crate) const LONGEST: &[u8] =
    b"\x01\x00AAAAAAAAAAAAAAAAAAAAAAAAAAAAAAAAAAAAAAAAAAAAAAAAAAAAAAAAAAAAAAAAAAAAAAAAAAAAAAAA\
    AAAAAAAAAAAAAAAAAAAAAAAAAAAAAAAAAAAAAAAAAAAAAAAAAAAAAAAAAAAAAAAAA";

pub(crate) const TOO_LONG: &[u8] =
    b"\x01\x00AAAAAAAAAAAAAAAAAAAAAAAAAAAAAAAAAAAAAAAAAAAAAAAAAAAAAAAAAAAAAAAAAAAAAAAAAAAAAAAA\
    AAAAAAAAAAAAAAAAAAAAAAAAAAAAAAAAAAAAAAAAAAAAAAAAAAAAAAAAAAAAAAAAAA";

// Octets, where they are read, and why they are no frame.
type Refused = (&'static [u8], Role, FrameFault);

const REFUSED: &[Refused] = &[
    (&[0x01], Role::Dce, FrameFault::TooShort),
    (&[0x05, 0x00], Role::Dce, FrameFault::WrongAddress),
    (&[0x01, 0xFF], Role::Dce, FrameFault::UnknownControl),
    (&[0x01, 0x63], Role::Dce, FrameFault::UnknownControl),
    (&[0x01, 0x21, 0x00], Role::Dce, FrameFault::InfoNotAllowed),
    (
        &[0x03, 0x97, 0xFF, 0x00],
        Role::Dce,
        FrameFault::InfoNotAllowed,
    ),
    (TOO_LONG, Role::Dce, FrameFault::InfoTooLong),
];

fn refused() -> &'static [Refused] {
    REFUSED
}

#[test]
fn other_octets_are_refused(rt: HostRuntime) {
    for row in refused() {
        assert!(rt; is_refused(row));
    }
}

fn is_refused(row: &Refused) -> bool {
    let (octets, at, fault) = *row;
    read_frame(octets, at, SHORT) == Err(fault)
}
