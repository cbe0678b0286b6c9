//! Two links by the octets of their frames.
use crate::link::fault::LinkFault;
use crate::link::frames::{LONGEST, TOO_LONG};
use crate::link::station::Station;
use lapb::{Link, LinkOut, LinkParams, Note, OfferFault, Phase, Timing};
use link_timers::Role;
use std::alloc::Global;
use std::process::Abort;

// The frames that go out, and no others.
type Frames<'a> = &'a [&'a [u8]];

// What is done at a link, or looked at, with what must come of it.
#[derive(Clone, Copy)]
enum Act<'a> {
    // it begins, and sends these frames
    Start(Frames<'a>),
    // it is set up anew, gives this note and sends these frames, and T1 starts
    Relink(Note, Frames<'a>),
    // the same when T1 expires
    Expire(Note, Frames<'a>),
    // it takes a frame without a packet to accept, gives this note and sends these frames
    Take(&'a [u8], Note, Frames<'a>),
    // it accepts the packet of a frame, and these frames are sent by then and by the end of the event
    Accept(&'a [u8], Frames<'a>),
    // the event ends, and these frames are sent
    Settle(Frames<'a>),
    // a packet of one octet is offered
    Offer(u8, Result<(), OfferFault>),
    In(Phase),
    Rests,
}

// An act at one of the two ends, or what both do.
#[derive(Clone, Copy)]
enum Turn<'a> {
    Dte(Act<'a>),
    Dce(Act<'a>),
    // both offer eight packets as room allows, which arrive in order, and no other
    Cross,
}

use Act::{Accept, Expire, In, Offer, Relink, Rests, Settle, Start, Take};
use Turn::{Cross, Dce, Dte};

fn link(alloc: Global, role: Role) -> Result<Station, LinkFault> {
    let params = LinkParams {
        k: 7,
        n2: 3,
        info: 145,
        standing: false,
    };
    Station::new(alloc, role, params)
}

// A rule, and turns by which it is seen at two links.
type Example<'a> = (&'a str, &'a [Turn<'a>]);

/// Plays each example at two new links, after turns that are the same for all.
fn play(rt: &impl Abort, alloc: Global, begins: &[Turn<'_>], examples: &[Example<'_>]) {
    for (rule, turns) in examples {
        assert!(rt; holds(alloc, begins, turns), "{rule}");
    }
}

fn holds(alloc: Global, begins: &[Turn<'_>], turns: &[Turn<'_>]) -> bool {
    match link(alloc, Role::Dte) {
        Ok(mut dte) => holds_from(alloc, &mut dte, begins, turns),
        Err(_) => false,
    }
}

fn holds_from(alloc: Global, dte: &mut Station, begins: &[Turn<'_>], turns: &[Turn<'_>]) -> bool {
    match link(alloc, Role::Dce) {
        Ok(mut dce) => fit(dte, &mut dce, begins) && fit(dte, &mut dce, turns),
        Err(_) => false,
    }
}

fn fit(dte: &mut Station, dce: &mut Station, turns: &[Turn<'_>]) -> bool {
    let mut same = true;
    for turn in turns {
        same = same && turn_fits(dte, dce, turn);
    }
    same
}

fn turn_fits(dte: &mut Station, dce: &mut Station, turn: &Turn<'_>) -> bool {
    match turn {
        Dte(act) => fits(dte, *act),
        Dce(act) => fits(dce, *act),
        Cross => cross(dte, dce) == (8, 8),
    }
}

fn fits(link: &mut Station, act: Act<'_>) -> bool {
    match act {
        Offer(octet, answer) => link.offer(&[octet]) == answer,
        In(phase) => link.phase() == phase,
        Rests => link.at_rest(),
        _ => gives(link, &mut LinkOut::new(), act),
    }
}

/// Whether what an act gives is what must come of it.
fn gives(link: &mut Station, out: &mut LinkOut, act: Act<'_>) -> bool {
    match act {
        Start(frames) => {
            link.start(out);
            are_sent(out, frames)
        }
        Relink(note, frames) => {
            link.relink(out);
            is_begun(out, note, frames)
        }
        Expire(note, frames) => {
            link.on_t1(out);
            is_begun(out, note, frames)
        }
        Take(octets, note, frames) => {
            link.on_frame(octets, out);
            out.note() == note && !out.accepted() && are_sent(out, frames)
        }
        Accept(octets, frames) => accepts(link, out, octets) && are_sent(out, frames),
        Settle(frames) => {
            link.settle(out);
            are_sent(out, frames)
        }
        _ => false,
    }
}

/// Whether the packet of a frame is accepted. The event ends.
fn accepts(link: &mut Station, out: &mut LinkOut, octets: &[u8]) -> bool {
    link.on_frame(octets, out);
    let accepted = out.accepted();
    link.settle(out);
    accepted
}

/// Whether this note is given, T1 starts, and these frames and no others are to be sent.
fn is_begun(out: &mut LinkOut, note: Note, frames: Frames<'_>) -> bool {
    out.note() == note && out.take_timer() == Timing::Start && are_sent(out, frames)
}

/// Whether these frames and no others are to be sent. They are taken away.
fn are_sent(out: &mut LinkOut, expected: Frames<'_>) -> bool {
    let mut same = true;
    for octets in expected {
        same = same && is_sent(out, octets);
    }
    same && out.frames().is_empty()
}

/// Whether the first frame has these octets. It is taken away.
fn is_sent(out: &mut LinkOut, octets: &[u8]) -> bool {
    let same = match out.frames().first() {
        Some(frame) => frame.as_slice() == octets,
        None => false,
    };
    out.drop_first();
    same
}

// Both ends come up, and the poll is answered.
const SET_UP: &[Turn] = &[
    Dte(Relink(Note::Nothing, &[&[0x01, 0x3F]])),
    Dce(Take(&[0x01, 0x3F], Note::Up, &[&[0x01, 0x73]])),
    Dte(Take(&[0x01, 0x73], Note::Up, &[&[0x01, 0x11]])),
    Dce(Take(&[0x01, 0x11], Note::Nothing, &[&[0x01, 0x11]])),
    Dte(Take(&[0x01, 0x11], Note::Nothing, &[])),
];

const A_STALE_ACKNOWLEDGEMENT: &[Turn] = &[
    Dte(Start(&[&[0x01, 0x3F]])),
    Dte(Expire(Note::Nothing, &[&[0x01, 0x3F]])),
    Dce(Take(&[0x01, 0x3F], Note::Up, &[&[0x01, 0x73]])),
    Dte(Take(&[0x01, 0x73], Note::Up, &[&[0x01, 0x11]])),
    Dce(Take(&[0x01, 0x3F], Note::Up, &[&[0x01, 0x73]])),
    Dte(Relink(Note::Down, &[&[0x01, 0x2F]])),
    Dte(Take(&[0x01, 0x73], Note::Nothing, &[])),
    Dte(In(Phase::SettingUp)),
    Dce(Take(&[0x01, 0x11], Note::Nothing, &[&[0x01, 0x11]])),
    Dte(Take(&[0x01, 0x11], Note::Nothing, &[])),
    Dce(Take(&[0x01, 0x2F], Note::Up, &[&[0x01, 0x63]])),
    Dte(Take(&[0x01, 0x63], Note::Up, &[&[0x01, 0x11]])),
];

const EIGHT_PACKETS: &[Turn] = &[
    Dte(Relink(Note::Nothing, &[&[0x01, 0x3F]])),
    Dce(Take(&[0x01, 0x3F], Note::Up, &[&[0x01, 0x73]])),
    Dte(Take(&[0x01, 0x73], Note::Up, &[&[0x01, 0x11]])),
    Dce(Offer(9, Ok(()))),
    Dce(Settle(&[])),
    Dce(Take(&[0x01, 0x3F], Note::Up, &[&[0x01, 0x73]])),
    Dce(Settle(&[])),
    Dce(Take(&[0x01, 0x11], Note::Nothing, &[&[0x01, 0x11]])),
    Dte(Take(&[0x01, 0x11], Note::Nothing, &[])),
    Cross,
    Dte(Rests),
    Dce(Rests),
];

const A_FULL_WINDOW: &[Turn] = &[
    Dte(Offer(0, Ok(()))),
    Dte(Offer(1, Ok(()))),
    Dte(Offer(2, Ok(()))),
    Dte(Offer(3, Ok(()))),
    Dte(Offer(4, Ok(()))),
    Dte(Offer(5, Ok(()))),
    Dte(Offer(6, Ok(()))),
    Dte(Offer(7, Err(OfferFault::Full))),
    Dte(Settle(&[
        &[0x01, 0x00, 0],
        &[0x01, 0x02, 1],
        &[0x01, 0x04, 2],
        &[0x01, 0x06, 3],
        &[0x01, 0x08, 4],
        &[0x01, 0x0A, 5],
        &[0x01, 0x0C, 6],
    ])),
    Dce(Accept(&[0x01, 0x00, 0], &[&[0x01, 0x21]])),
    Dce(Accept(&[0x01, 0x02, 1], &[&[0x01, 0x41]])),
    Dce(Accept(&[0x01, 0x04, 2], &[&[0x01, 0x61]])),
    Dce(Accept(&[0x01, 0x06, 3], &[&[0x01, 0x81]])),
    Dce(Accept(&[0x01, 0x08, 4], &[&[0x01, 0xA1]])),
    Dce(Accept(&[0x01, 0x0A, 5], &[&[0x01, 0xC1]])),
    Dce(Accept(&[0x01, 0x0C, 6], &[&[0x01, 0xE1]])),
    Dte(Expire(Note::Nothing, &[&[0x01, 0x11]])),
    Dce(Take(&[0x01, 0x11], Note::Nothing, &[&[0x01, 0xF1]])),
    Dte(Take(&[0x01, 0xF1], Note::Nothing, &[])),
    Dte(Offer(7, Ok(()))),
    Dte(Offer(8, Ok(()))),
    Dte(Settle(&[&[0x01, 0x0E, 7], &[0x01, 0x00, 8]])),
    Dce(Accept(&[0x01, 0x0E, 7], &[&[0x01, 0x01]])),
    Dce(Accept(&[0x01, 0x00, 8], &[&[0x01, 0x21]])),
];

const THREE_FRAMES: Frames<'static> = &[&[0x01, 0x00, 0], &[0x01, 0x02, 1], &[0x01, 0x04, 2]];

const A_LOST_FRAME: &[Turn] = &[
    Dte(Offer(0, Ok(()))),
    Dte(Offer(1, Ok(()))),
    Dte(Offer(2, Ok(()))),
    Dte(Settle(THREE_FRAMES)),
    Dce(Take(&[0x01, 0x02, 1], Note::Nothing, &[&[0x01, 0x09]])),
    Dce(Take(&[0x01, 0x04, 2], Note::Nothing, &[])),
    Dte(Take(&[0x01, 0x09], Note::Nothing, &[])),
    Dte(Settle(THREE_FRAMES)),
    Dce(Accept(&[0x01, 0x00, 0], &[&[0x01, 0x21]])),
    Dce(Accept(&[0x01, 0x02, 1], &[&[0x01, 0x41]])),
    Dce(Accept(&[0x01, 0x04, 2], &[&[0x01, 0x61]])),
];

const A_SILENT_PARTNER: &[Turn] = &[
    Dte(Offer(0, Ok(()))),
    Dte(Settle(&[&[0x01, 0x00, 0]])),
    Dte(Expire(Note::Nothing, &[&[0x01, 0x11]])),
    Dte(Expire(Note::Nothing, &[&[0x01, 0x11]])),
    Dte(Expire(Note::Nothing, &[&[0x01, 0x11]])),
    Dte(Expire(Note::Down, &[&[0x01, 0x2F]])),
    Dte(Offer(0, Err(OfferFault::Down))),
];

const UNKNOWN_CONTROL: &[Turn] = &[
    Dce(Take(&[0x01], Note::Nothing, &[])),
    Dce(Take(&[0x05, 0x00], Note::Nothing, &[])),
    Dce(Take(
        &[0x01, 0xFF],
        Note::Down,
        &[&[0x01, 0x97, 0xFF, 0x00, 0x01]],
    )),
    Dce(In(Phase::Rejecting)),
    Dce(Take(
        &[0x01, 0x11],
        Note::Nothing,
        &[&[0x01, 0x97, 0xFF, 0x00, 0x01]],
    )),
];

const A_BAD_NUMBER: &[Turn] = &[Dce(Take(
    &[0x01, 0x21],
    Note::Down,
    &[&[0x01, 0x87, 0x21, 0x00, 0x08]],
))];

const A_FIELD_THAT_IS_NOT_ALLOWED: &[Turn] = &[Dce(Take(
    &[0x01, 0x3F, 0x00],
    Note::Down,
    &[&[0x01, 0x97, 0x3F, 0x00, 0x03]],
))];

// The line's I frames have at most 145 octets of information.
const THE_LONGEST_FIELD: &[Turn] = &[Dce(Accept(LONGEST, &[&[0x01, 0x21]]))];

const A_FIELD_THAT_IS_TOO_LONG: &[Turn] = &[Dce(Take(
    TOO_LONG,
    Note::Down,
    &[&[0x01, 0x87, 0x00, 0x00, 0x04]],
))];

const SET_UPS: &[Example] = &[
    (
        "a stale acknowledgement is ignored",
        A_STALE_ACKNOWLEDGEMENT,
    ),
    ("eight packets cross after a repeated set-up", EIGHT_PACKETS),
];

const WINDOWS: &[Example] = &[
    ("the window is seven", A_FULL_WINDOW),
    ("a lost frame is sent again", A_LOST_FRAME),
];

const FAULTS: &[Example] = &[
    ("a silent partner ends the session", A_SILENT_PARTNER),
    ("an unknown control octet is reported", UNKNOWN_CONTROL),
    ("a bad number is reported", A_BAD_NUMBER),
];

const FIELDS: &[Example] = &[
    (
        "an information field that the frame cannot have is reported",
        A_FIELD_THAT_IS_NOT_ALLOWED,
    ),
    ("the longest one is taken", THE_LONGEST_FIELD),
    ("one octet more is reported", A_FIELD_THAT_IS_TOO_LONG),
];

fn set_ups() -> &'static [Example<'static>] {
    SET_UPS
}

fn windows() -> &'static [Example<'static>] {
    WINDOWS
}

fn faults() -> &'static [Example<'static>] {
    FAULTS
}

fn fields() -> &'static [Example<'static>] {
    FIELDS
}

/// The turns by which both ends come up.
fn set_up() -> &'static [Turn<'static>] {
    SET_UP
}

#[test]
fn links_are_set_up(rt: HostRuntime) {
    play(&rt, rt.alloc(), &[], set_ups());
}

#[test]
fn links_carry_packets_and_report_faults(rt: HostRuntime) {
    play(&rt, rt.alloc(), set_up(), windows());
    play(&rt, rt.alloc(), set_up(), faults());
    play(&rt, rt.alloc(), set_up(), fields());
}

/// Takes all frames of one end at the other, and the end of the event there. The packet that is expected next there is
/// one octet, `next`; gives the one after those that came, or 99 where another came.
fn take_all(to: &mut Station, from: &mut LinkOut, out: &mut LinkOut, next: u8) -> u8 {
    let mut next = next;
    for frame in from.frames() {
        to.on_frame(frame.as_slice(), out);
        if out.accepted() {
            next = match frame.as_slice() {
                [_, _, packet] if *packet == next && next < 99 => next + 1,
                _ => 99,
            };
        }
    }
    to.settle(out);
    from.clear();
    next
}

/// Offers packets of one octet, from `next` to 7, as room allows: the next one.
fn offer_all(link: &mut Station, next: u8) -> u8 {
    for number in next..8 {
        if link.offer(&[number]).is_err() {
            return number;
        }
    }
    8
}

/// Offers eight packets at each end as room allows: how many arrived in order, and no other, at each.
fn cross(dte: &mut Station, dce: &mut Station) -> (u8, u8) {
    let mut up = LinkOut::new();
    let mut down = LinkOut::new();
    let (mut at_dte, mut at_dce, mut from_dte, mut from_dce) = (0, 0, 0u8, 0u8);
    for _ in 0..9 {
        from_dte = offer_all(dte, from_dte);
        from_dce = offer_all(dce, from_dce);
        dte.settle(&mut up);
        at_dce = take_all(dce, &mut up, &mut down, at_dce);
        at_dte = take_all(dte, &mut down, &mut up, at_dte);
    }
    (at_dte, at_dce)
}

#[test]
fn a_window_is_at_most_seven(rt: HostRuntime) {
    assert!(rt; is_made(7) && !is_made(8));
}

fn is_made(k: u8) -> bool {
    let params = LinkParams {
        k,
        n2: 20,
        info: 145,
        standing: true,
    };
    Link::new(Role::Dce, params).is_ok()
}
