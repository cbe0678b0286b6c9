//! What is printed on the built-in network, over sockets of which one call fails.
use crate::sockets::{Failing, Failure, failing_line};
use frame_lines::UdpLine;
use net_files::{FIRST, ProgFault, read_net, read_script};
use net_player::{Config, Net, play};
use std::alloc::{AllocError, Global};
use std::net;

/// A line is typed, and the host takes it; T1 expires before the frame is looked for, or after it; or not at all.
const TYPED: &[u8] = b"key pad 0 HEX\\7FLLO\\0D\nflow\ntake host 1\nflow\n";

const POLLED: &[u8] = b"key pad 0 HEX\\7FLLO\\0D\nexpire pad 0 T1\nflow\ntake host 1\nflow\n";

const POLLED_LATER: &[u8] =
    b"key pad 0 HEX\\7FLLO\\0D\nflow\nexpire pad 0 T1\nflow\ntake host 1\nflow\n";

/// What is printed if the frame is lost, and if it comes.
const LOST: &[u8] = b"host/1 none\nend busy\n";

const TAKEN: &[u8] = b"host/1 data - \"HELLO\\0D\"\nend rest\n";

/// How a call fails, its number at the PAD's end and at the host's, what is played, and what is printed.
type Loss = (Failure, [u32; 2], &'static [u8], &'static [u8]);

/// The first send of the PAD is that of the line, and so is the second receive of the host: the first one is made when
/// the network empties its line.
const LOSSES: &[Loss] = &[
    (Failure::SendFails, [0, 0], TYPED, TAKEN),
    (Failure::SendFails, [1, 0], TYPED, LOST),
    (Failure::SendFails, [1, 0], POLLED, TAKEN),
    (Failure::SendIsShort, [1, 0], TYPED, LOST),
    (Failure::SendIsShort, [1, 0], POLLED, TAKEN),
    (Failure::ReceiveFails, [0, 2], TYPED, LOST),
    (Failure::ReceiveFails, [0, 2], POLLED_LATER, TAKEN),
    (Failure::ReceiveIsEmpty, [0, 2], TYPED, LOST),
    (Failure::ReceiveIsEmpty, [0, 2], POLLED_LATER, TAKEN),
];

fn losses() -> &'static [Loss] {
    LOSSES
}

/// The one line of a network.
fn lines_of(alloc: Global, line: UdpLine<Failing>) -> Result<Vec<UdpLine<Failing>>, AllocError> {
    let mut lines = Vec::new(alloc);
    lines.push(line)?;
    Ok(lines)
}

/// Whether this is printed on the built-in network if a call fails.
fn prints<N: net::Net>(system: &N, alloc: Global, loss: &Loss) -> bool {
    let (failure, numbers, _, _) = *loss;
    match failing_line(system, alloc, failure, numbers) {
        Ok(line) => prints_over(alloc, line, loss),
        Err(_) => false,
    }
}

fn prints_over(alloc: Global, line: UdpLine<Failing>, loss: &Loss) -> bool {
    match (read_net(alloc, FIRST), lines_of(alloc, line)) {
        (Ok(config), Ok(lines)) => prints_on(alloc, &config, lines, loss),
        _ => false,
    }
}

fn prints_on(alloc: Global, config: &Config, lines: Vec<UdpLine<Failing>>, loss: &Loss) -> bool {
    if lines.len() != config.lines.len() {
        return false;
    }
    match Net::new(alloc, config, lines) {
        Ok(mut net) => prints_at(alloc, config, &mut net, loss) == Ok(true),
        Err(_) => false,
    }
}

fn prints_at(
    alloc: Global,
    config: &Config,
    net: &mut Net<UdpLine<Failing>>,
    loss: &Loss,
) -> Result<bool, ProgFault> {
    let (_, _, text, printed) = *loss;
    let script = read_script(alloc, text, config)?;
    let mut out = Vec::new(alloc);
    play(alloc, net, &script, &mut out)?;
    Ok(out.as_slice() == printed)
}

#[test]
fn a_frame_is_lost_with_a_call_that_fails(rt: HostRuntime) {
    for loss in losses() {
        assert!(rt; prints(&rt, rt.alloc(), loss));
    }
}
