//! Octets of any kind over a connection, beside a call on another one.

use crate::states::TRANSFER;
use crate::steps::{Bench, LINE, Step};
use std::alloc::Global;

/// How many streams come, and how many octets of each.
const STREAMS: u32 = 200;

const OCTETS: usize = 64;

/// The next number of a sequence (Numerical Recipes' ranqd1).
fn next(number: u32) -> u32 {
    number.wrapping_mul(1_664_525).wrapping_add(1_013_904_223)
}

/// So many octets, by a number.
fn octets(seed: u32) -> [u8; OCTETS] {
    let mut number = seed;
    let mut octets = [0; OCTETS];
    for octet in octets.iter_mut() {
        number = next(number);
        *octet = (number / 16_777_216) as u8;
    }
    octets
}

/// A packet of 60 octets by a number, after a good header. Its format is that of the line.
fn packet(seed: u32) -> [u8; OCTETS] {
    let mut packet = octets(seed);
    packet[0] = 0;
    packet[1] = 0;
    packet[2] = 0;
    packet[3] = 60;
    packet[4] = 0x10;
    packet
}

const DATA_AND_BACK: &[Step] = &[
    Step::Lost(1),
    Step::OwesNothing,
    Step::Says(0, &[0x10, 0x02, 0x00, 0x41]),
    Step::Passes(0, &[0x10, 0x02, 0x00, 0x41]),
    Step::Line(&[0x10, 0x02, 0x00, 0x42]),
    Step::Hears(0, &[0x10, 0x02, 0x00, 0x42]),
    Step::HearsNothing(0),
];

fn data_and_back() -> &'static [Step<'static>] {
    DATA_AND_BACK
}

/// Whether nothing of a stream on another connection passes, and the call goes on.
fn goes_on(bench: &mut Bench, octets: &[u8]) -> bool {
    bench.fits(&[Step::Attaches(Some(1)), Step::Octets(1, octets)])
        && bench.passes_nothing(1)
        && bench.fits(data_and_back())
}

/// Whether a call goes on beside all streams.
fn holds(alloc: Global) -> bool {
    let Some(mut bench) = Bench::new(alloc, LINE) else {
        return false;
    };
    let mut holds = bench.fits(TRANSFER);
    for seed in 0..STREAMS {
        holds = holds && goes_on(&mut bench, &octets(seed)) && goes_on(&mut bench, &packet(seed));
    }
    holds
}

#[test]
fn random_octets_reach_nobody(rt: HostRuntime) {
    assert!(rt; holds(rt.alloc()));
}
