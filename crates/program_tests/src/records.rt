//! What networks keep of their calls, where delivery is confirmed, which deliveries find no frame, and events that are
//! run without a script.
use net_files::{FIRST, ProgFault, read_net, read_script};
use net_player::{
    Config, Direction, Epoch, Event, MemLine, Net, Pair, Record, StepFault, TerminalEvent, play,
    run,
};
use packet_codec::Address;
use std::alloc::Global;
use std::process::Abort;

/// Two hosts on one line of four channels.
const PAIR: &str = r#"
[[node]]
name = "a"
kind = "host"

[[node]]
name = "b"
kind = "host"

[[line]]
dte = "a"
dce = "b"
"#;

/// Two hosts on a line with one channel.
const NARROW: &str = r#"
[[node]]
name = "a"
kind = "host"

[[node]]
name = "b"
kind = "host"

[[line]]
dte = "a"
dce = "b"
channels = 1
"#;

/// A PAD and a host on a line of four channels.
const DIRECT: &str = r#"
[[node]]
name = "pad"
kind = "pad"
set = "3:2"

[[node]]
name = "host"
kind = "host"

[[line]]
dte = "pad"
dce = "host"
"#;

/// Two hosts at a switch, of which the second has one channel.
const SWITCHED: &str = r#"
[[node]]
name = "h1"
kind = "host"

[[node]]
name = "h2"
kind = "host"

[[node]]
name = "s"
kind = "switch"

[[line]]
dte = "h1"
dce = "s"
address = "1001"

[[line]]
dte = "h2"
dce = "s"
address = "2001"
channels = 1

[[route]]
switch = "s"
prefix = "1"
line = 0

[[route]]
switch = "s"
prefix = "2"
line = 1
"#;

/// A PAD and a host at a switch.
const SMALL: &str = r#"
[[node]]
name = "pad"
kind = "pad"

[[node]]
name = "host"
kind = "host"

[[node]]
name = "s"
kind = "switch"

[[line]]
dte = "pad"
dce = "s"
address = "1001"

[[line]]
dte = "host"
dce = "s"
address = "2001"

[[route]]
switch = "s"
prefix = "1001"
line = 0

[[route]]
switch = "s"
prefix = "2001"
line = 1
"#;

/// Two switches with a trunk between them, and a host at each.
const TREE: &str = r#"
[[node]]
name = "h1"
kind = "host"

[[node]]
name = "h2"
kind = "host"

[[node]]
name = "s1"
kind = "switch"

[[node]]
name = "s2"
kind = "switch"

[[line]]
dte = "h1"
dce = "s1"
address = "1001"

[[line]]
dte = "s2"
dce = "s1"

[[line]]
dte = "h2"
dce = "s2"
address = "2001"

[[route]]
switch = "s1"
prefix = "2"
line = 1

[[route]]
switch = "s2"
prefix = "2"
line = 2
"#;

/// What a record has: its node, the digits of its own address and of the far end's, the hops of its path by switch, line
/// and channel, how many epochs it sent and took before the last ones, the messages of these with how many are covered
/// and released, whether it is closed, and how many steps of editing there were.
#[derive(Clone, Copy)]
struct Kept {
    node: usize,
    own: &'static [u8],
    far: &'static [u8],
    path: &'static [(usize, usize, u8)],
    resets: (usize, usize),
    sent: &'static [&'static [u8]],
    covered: usize,
    taken: &'static [&'static [u8]],
    released: usize,
    closed: bool,
    steps: usize,
}

/// A record in which nothing happened.
const FRESH: Kept = Kept {
    node: 0,
    own: &[],
    far: &[],
    path: &[],
    resets: (0, 0),
    sent: &[],
    covered: 0,
    taken: &[],
    released: 0,
    closed: false,
    steps: 0,
};

/// A record of the first host at the switch, and one of the second.
const AT_FIRST: Kept = Kept {
    own: &[1, 0, 0, 1],
    far: &[2, 0, 0, 1],
    ..FRESH
};

const AT_SECOND: Kept = Kept {
    node: 1,
    own: &[2, 0, 0, 1],
    far: &[1, 0, 0, 1],
    ..FRESH
};

/// What is played, whether delivery is then confirmed on the channels that are looked at, and whether a delivery on
/// line 0 from the DTE, and from the DCE, then finds no frame.
struct Stage {
    script: &'static [u8],
    confirmed: [bool; 2],
    finds_none: [bool; 2],
}

/// A network, the channels that are looked at, one of its first node and one of its second, what is played there in
/// turn, and what the network's pairs and records then are.
struct Case {
    network: &'static str,
    channels: [u16; 2],
    stages: &'static [Stage],
    pairs: &'static [Pair],
    records: &'static [Kept],
}

/// The pair of the first two records.
const FIRST_PAIR: Pair = Pair {
    caller: 0,
    callee: 1,
};

const CASES: [Case; 4] = [
    // A packet with D = 1 is confirmed once it was taken.
    Case {
        network: PAIR,
        channels: [4, 4],
        stages: &[
            Stage {
                script: b"",
                confirmed: [false, false],
                finds_none: [false, false],
            },
            Stage {
                script: b"flow\n",
                confirmed: [false, false],
                finds_none: [true, true],
            },
            Stage {
                script: b"call a 2001\n",
                confirmed: [false, false],
                finds_none: [false, true],
            },
            Stage {
                script: b"flow\nanswer b 4\nflow\n",
                confirmed: [true, true],
                finds_none: [true, true],
            },
            Stage {
                script: b"say a 4 d HI\nflow\n",
                confirmed: [false, true],
                finds_none: [true, true],
            },
            Stage {
                script: b"take b 4\nflow\n",
                confirmed: [true, true],
                finds_none: [true, true],
            },
        ],
        pairs: &[FIRST_PAIR],
        records: &[
            Kept {
                far: &[2, 0, 0, 1],
                sent: &[b"HI"],
                covered: 1,
                ..FRESH
            },
            Kept {
                node: 1,
                own: &[2, 0, 0, 1],
                taken: &[b"HI"],
                released: 1,
                ..FRESH
            },
        ],
    },
    // Of two calls that collide on the one channel that of the DCE is cancelled.
    Case {
        network: NARROW,
        channels: [1, 1],
        stages: &[Stage {
            script: b"flow\ncall a 1\ncall b 1\nflow\nanswer b 1\nflow\n",
            confirmed: [true, true],
            finds_none: [true, true],
        }],
        pairs: &[Pair {
            caller: 0,
            callee: 2,
        }],
        records: &[
            Kept { far: &[1], ..FRESH },
            Kept {
                node: 1,
                far: &[1],
                closed: true,
                ..FRESH
            },
            Kept {
                node: 1,
                own: &[1],
                ..FRESH
            },
        ],
    },
    // A terminal calls, types a line and answers a message, and the PAD clears the call that comes in beside it.
    Case {
        network: DIRECT,
        channels: [4, 4],
        stages: &[Stage {
            script: b"flow\nkey pad 0 2001\\0D\nflow\nanswer host 4\nflow\nkey pad 0 HI\\0D\nsay host 4 q \\04\\03\\00\nflow\nprint pad 0\ncall host 7\nflow\ntake host 4\ntake host 4\nflow\n",
            confirmed: [false, true],
            finds_none: [true, true],
        }],
        pairs: &[FIRST_PAIR],
        records: &[
            Kept {
                far: &[2, 0, 0, 1],
                sent: &[b"HI\r", &[0, 3, 2]],
                covered: 2,
                taken: &[&[4, 3, 0]],
                released: 1,
                steps: 3,
                ..FRESH
            },
            Kept {
                node: 1,
                own: &[2, 0, 0, 1],
                sent: &[&[4, 3, 0]],
                covered: 1,
                taken: &[b"HI\r", &[0, 3, 2]],
                released: 2,
                ..FRESH
            },
            Kept {
                node: 1,
                far: &[7],
                closed: true,
                ..FRESH
            },
            Kept {
                own: &[7],
                closed: true,
                ..FRESH
            },
        ],
    },
    // Each end resets the call in turn, while a packet with D = 1 is not confirmed; then the call is cleared, and the
    // channel of the second host used again from there.
    Case {
        network: SWITCHED,
        channels: [4, 1],
        stages: &[
            Stage {
                script: b"flow\ncall h1 2001\nflow\nanswer h2 1\nflow\n",
                confirmed: [true, true],
                finds_none: [true, true],
            },
            Stage {
                script: b"say h1 4 d HI\nflow\n",
                confirmed: [false, true],
                finds_none: [true, true],
            },
            Stage {
                script: b"take h2 1\ndeliver 1 >\n",
                confirmed: [false, true],
                finds_none: [true, false],
            },
            Stage {
                script: b"reset h1 4\nflow\n",
                confirmed: [true, true],
                finds_none: [true, true],
            },
            Stage {
                script: b"say h1 4 d HO\nflow\n",
                confirmed: [false, true],
                finds_none: [true, true],
            },
            Stage {
                script: b"reset h2 1\nflow\n",
                confirmed: [true, true],
                finds_none: [true, true],
            },
            Stage {
                script: b"clear h1 4\nflow\ncall h2 1001\nflow\nanswer h1 1\nsay h1 1 q THREE\nflow\ntake h2 1\nflow\n",
                confirmed: [false, true],
                finds_none: [true, true],
            },
        ],
        pairs: &[
            FIRST_PAIR,
            Pair {
                caller: 2,
                callee: 3,
            },
        ],
        records: &[
            Kept {
                path: &[(2, 1, 1)],
                resets: (2, 2),
                closed: true,
                ..AT_FIRST
            },
            Kept {
                resets: (2, 2),
                closed: true,
                ..AT_SECOND
            },
            Kept {
                path: &[(2, 0, 1)],
                taken: &[b"THREE"],
                released: 1,
                ..AT_SECOND
            },
            Kept {
                sent: &[b"THREE"],
                covered: 1,
                ..AT_FIRST
            },
        ],
    },
];

/// The record of the PAD at the switch, with the one hop of its call.
const AT_PAD: Kept = Kept {
    path: &[(2, 1, 1)],
    ..AT_FIRST
};

/// Resets that cross: each record has one epoch more for what its end begins or learns of.
const RESETS: [Case; 4] = [
    // Both ends of a line reset the call at once.
    Case {
        network: PAIR,
        channels: [4, 4],
        stages: &[Stage {
            script: b"flow\ncall a 2001\nflow\nanswer b 4\nflow\nreset a 4\nreset b 4\nflow\n",
            confirmed: [true, true],
            finds_none: [true, true],
        }],
        pairs: &[FIRST_PAIR],
        records: &[
            Kept {
                far: &[2, 0, 0, 1],
                resets: (1, 1),
                ..FRESH
            },
            Kept {
                node: 1,
                own: &[2, 0, 0, 1],
                resets: (1, 1),
                ..FRESH
            },
        ],
    },
    // Both hosts at a switch do.
    Case {
        network: SWITCHED,
        channels: [4, 1],
        stages: &[Stage {
            script: b"flow\ncall h1 2001\nflow\nanswer h2 1\nflow\nreset h1 4\nreset h2 1\nflow\n",
            confirmed: [true, true],
            finds_none: [true, true],
        }],
        pairs: &[FIRST_PAIR],
        records: &[
            Kept {
                path: &[(2, 1, 1)],
                resets: (1, 1),
                ..AT_FIRST
            },
            Kept {
                resets: (1, 1),
                ..AT_SECOND
            },
        ],
    },
    // A PAD and a host do.
    Case {
        network: SMALL,
        channels: [4, 1],
        stages: &[Stage {
            script: b"flow\nkey pad 0 2001\\0D\nflow\nanswer host 1\nflow\nkey pad 0 \\10RESET\\0D\nreset host 1\nflow\n",
            confirmed: [false, true],
            finds_none: [true, true],
        }],
        pairs: &[FIRST_PAIR],
        records: &[
            Kept {
                resets: (1, 1),
                ..AT_PAD
            },
            Kept {
                resets: (1, 1),
                ..AT_SECOND
            },
        ],
    },
    // A PAD resets the call twice, and the host learns of one reset.
    Case {
        network: SMALL,
        channels: [4, 1],
        stages: &[
            Stage {
                script: b"flow\nkey pad 0 2001\\0D\nflow\nanswer host 1\nflow\nkey pad 0 \\10RESET\\0D\ndeliver 0 >\ndeliver 0 <\nkey pad 0 ONE\\0D\nkey pad 0 \\10RESET\\0D\n",
                confirmed: [false, true],
                finds_none: [false, true],
            },
            Stage {
                script: b"deliver 0 >\ndeliver 0 <\ndeliver 0 >\ndeliver 0 <\ndeliver 0 >\ndeliver 0 <\ndeliver 0 >\ndeliver 0 <\ndeliver 0 >\ndeliver 0 <\ndeliver 0 >\ndeliver 0 <\n",
                confirmed: [false, true],
                finds_none: [true, true],
            },
            Stage {
                script: b"key pad 0 TWO\\0D\nflow\ntake host 1\n",
                confirmed: [false, true],
                finds_none: [true, true],
            },
        ],
        pairs: &[FIRST_PAIR],
        records: &[
            Kept {
                resets: (2, 2),
                sent: &[b"TWO\r"],
                covered: 1,
                steps: 8,
                ..AT_PAD
            },
            Kept {
                resets: (1, 1),
                taken: &[b"TWO\r"],
                released: 1,
                ..AT_SECOND
            },
        ],
    },
];

/// A message without octets, and one with D = 1 over a trunk.
const MESSAGES: [Case; 2] = [
    // The PAD takes a packet without octets.
    Case {
        network: SMALL,
        channels: [4, 1],
        stages: &[Stage {
            script: b"flow\nkey pad 0 2001\\0D\nflow\nanswer host 1\nflow\nprint pad 0\nsay host 1 - \nflow\nprint pad 0\nflow\n",
            confirmed: [false, true],
            finds_none: [true, true],
        }],
        pairs: &[FIRST_PAIR],
        records: &[
            Kept {
                taken: &[b""],
                released: 1,
                ..AT_PAD
            },
            Kept {
                sent: &[b""],
                covered: 1,
                ..AT_SECOND
            },
        ],
    },
    // A packet with D = 1 is confirmed once the host beyond the trunk took it and its RR packet came.
    Case {
        network: TREE,
        channels: [4, 1],
        stages: &[
            Stage {
                script: b"flow\ncall h1 2001\nflow\nanswer h2 1\nflow\n",
                confirmed: [true, true],
                finds_none: [true, true],
            },
            Stage {
                script: b"say h1 4 d HI\nflow\n",
                confirmed: [false, true],
                finds_none: [true, true],
            },
            Stage {
                script: b"take h2 1\n",
                confirmed: [false, true],
                finds_none: [true, true],
            },
            Stage {
                script: b"flow\n",
                confirmed: [true, true],
                finds_none: [true, true],
            },
        ],
        pairs: &[FIRST_PAIR],
        records: &[
            Kept {
                path: &[(2, 1, 1), (3, 2, 1)],
                sent: &[b"HI"],
                covered: 1,
                ..AT_FIRST
            },
            Kept {
                taken: &[b"HI"],
                released: 1,
                ..AT_SECOND
            },
        ],
    },
];

/// Whether the address has these digits, or there is none where these are none.
fn is_address(address: Option<Address>, digits: &[u8]) -> bool {
    match address {
        Some(address) => address.digits() == digits,
        None => digits.is_empty(),
    }
}

/// Whether the path has these hops.
fn is_path(record: &Record, hops: &[(usize, usize, u8)]) -> bool {
    let mut same = record.path.len() == hops.len();
    for (hop, expected) in record.path.iter().zip(hops) {
        same = same && (hop.switch, hop.line, hop.channel) == *expected;
    }
    same
}

/// Whether these messages passed in the epoch, a packet each, and so many of them count.
fn has_passed(epoch: Epoch<'_>, messages: &[&[u8]], count: usize) -> bool {
    let Epoch {
        packets,
        counted,
        ..
    } = epoch;
    let mut same = packets.len() == messages.len() && counted == count;
    for (packet, octets) in packets.zip(messages) {
        same = same && packet.octets == *octets && !packet.more;
    }
    same
}

fn is_kept(record: &Record, kept: &Kept) -> bool {
    record.node == kept.node
        && is_address(record.own, kept.own)
        && is_address(record.far, kept.far)
        && is_path(record, kept.path)
        && (record.sent.ended(), record.taken.ended()) == kept.resets
        && has_passed(record.sent.last(), kept.sent, kept.covered)
        && has_passed(record.taken.last(), kept.taken, kept.released)
        && record.closed == kept.closed
        && record.steps.len() == kept.steps
}

/// Whether these are the records, numbered in order.
fn are_kept(records: &[Record], expected: &[Kept]) -> bool {
    let mut same = records.len() == expected.len();
    for (number, record) in records.iter().enumerate() {
        same = same && record.number == number;
    }
    for (record, kept) in records.iter().zip(expected) {
        same = same && is_kept(record, kept);
    }
    same
}

/// Plays a script on a network of this configuration, and adds what it prints.
pub(crate) fn plays(
    alloc: Global,
    net: &mut Net<MemLine>,
    config: &Config,
    script: &[u8],
    printed: &mut Vec<u8>,
) -> Result<(), ProgFault> {
    let script = read_script(alloc, script, config)?;
    play(alloc, net, &script, printed)
}

fn go_so(rt: &impl Abort, alloc: Global, cases: &[Case]) {
    for case in cases {
        let network = case.network;
        assert!(rt; goes_so(alloc, case), "{network}");
    }
}

/// Whether on the network of a case each stage goes so, and these are the pairs and records then.
fn goes_so(alloc: Global, case: &Case) -> bool {
    match read_net(alloc, case.network) {
        Ok(config) => match Net::on_memory_lines(alloc, &config) {
            Ok(mut net) => goes_so_on(alloc, &mut net, &config, case),
            Err(_) => false,
        },
        Err(_) => false,
    }
}

fn goes_so_on(alloc: Global, net: &mut Net<MemLine>, config: &Config, case: &Case) -> bool {
    let mut same = true;
    for stage in case.stages {
        same = same && has_stage(alloc, net, config, case.channels, stage);
    }
    same && are_pairs(net.pairs(), case.pairs) && are_kept(net.records(), case.records)
}

fn has_stage(
    alloc: Global,
    net: &mut Net<MemLine>,
    config: &Config,
    channels: [u16; 2],
    stage: &Stage,
) -> bool {
    plays(alloc, net, config, stage.script, &mut Vec::new(alloc)).is_ok()
        && are_confirmed(net, channels, stage.confirmed)
        && find_none(net, stage.finds_none)
}

fn are_pairs(pairs: &[Pair], expected: &[Pair]) -> bool {
    pairs == expected
}

/// Whether delivery is confirmed so on these channels of the first node and the second. It never is where there is no
/// call, nor at a node that there is not.
fn are_confirmed(
    net: &Net<MemLine>,
    [first, second]: [u16; 2],
    [at_first, at_second]: [bool; 2],
) -> bool {
    net.confirmed(0, first) == at_first
        && net.confirmed(1, second) == at_second
        && !net.confirmed(0, 3)
        && !net.confirmed(3, 1)
}

/// Whether deliveries on line 0 find none so. If both do, the next line with frames is another one.
fn find_none(net: &Net<MemLine>, [from_dte, from_dce]: [bool; 2]) -> bool {
    net.finds_none(0, Direction::FromDte) == from_dte
        && net.finds_none(0, Direction::FromDce) == from_dce
        && (net.next_with_frames(0) > 0) == (from_dte && from_dce)
        && !net.finds_none(3, Direction::FromDte)
        && net.next_with_frames(3) == 3
}

#[test]
fn networks_keep_records_and_pairs_and_confirm_delivery(rt: HostRuntime) {
    go_so(&rt, rt.alloc(), &CASES);
    go_so(&rt, rt.alloc(), &RESETS);
    go_so(&rt, rt.alloc(), &MESSAGES);
}

/// CR at terminal 0 of a node.
fn key(node: usize) -> Event {
    Event::AtTerminal {
        node,
        terminal: 0,
        event: TerminalEvent::Key(0x0d),
    }
}

fn take(node: usize, channel: u16) -> Event {
    Event::Take { node, channel }
}

/// The first frame from the DTE arrives.
fn deliver() -> Event {
    Event::Deliver {
        line: 0,
        direction: Direction::FromDte,
    }
}

/// The host takes what the PAD sent.
const CROSSED: [Kept; 2] = [
    Kept {
        sent: &[&[0x0d]],
        steps: 1,
        ..FRESH
    },
    Kept {
        node: 1,
        taken: &[&[0x0d]],
        released: 1,
        ..FRESH
    },
];

/// Whether the network is as the events leave it, and refuses one more.
fn has_crossed(net: &mut Net<MemLine>) -> bool {
    !net.at_rest()
        && are_kept(net.records(), &CROSSED)
        && matches!(net.step(&key(2)), Err(StepFault::NoSuchNode))
}

/// Whether events, some of which are refused, lead to such a network.
fn lead_there(alloc: Global) -> bool {
    let events = [key(0), key(2), take(1, 2), deliver(), take(1, 1)];
    match read_net(alloc, FIRST) {
        Ok(config) => match run(alloc, &config, &events) {
            Ok(mut net) => has_crossed(&mut net),
            Err(_) => false,
        },
        Err(_) => false,
    }
}

#[test]
fn events_run_in_order(rt: HostRuntime) {
    assert!(rt; lead_there(rt.alloc()));
}
