//! Terminals that leave and arrive, and links that are given up, by what a network prints after them.
use crate::records::plays;
use Step::{At, GivesUp, Plays};
use TerminalEvent::{Arrives, Leaves};
use net_files::read_net;
use net_player::{Config, Event, MemLine, Net, StepFault, TerminalEvent};
use std::alloc::Global;

/// A PAD with two terminals, and a host, at a switch.
const TERMINALS: &str = r#"
[[node]]
name = "pad"
kind = "pad"
terminals = 2

[[node]]
name = "sw"
kind = "switch"

[[node]]
name = "host"
kind = "host"

[[route]]
switch = "sw"
prefix = "1001"
line = 0

[[route]]
switch = "sw"
prefix = "2001"
line = 1

[[line]]
dte = "pad"
dce = "sw"
address = "1001"

[[line]]
dte = "host"
dce = "sw"
address = "2001"
"#;

/// A PAD and a host on one line.
const DIRECT: &str = r#"
[[node]]
name = "pad"
kind = "pad"

[[node]]
name = "host"
kind = "host"

[[line]]
dte = "pad"
dce = "host"
"#;

/// A script and what it prints, something at a terminal, or a link that is given up by the DCE of this line.
#[derive(Clone, Copy)]
enum Step {
    Plays(&'static [u8], &'static [u8]),
    At(u16, TerminalEvent),
    GivesUp(usize),
}

/// A network of which the first node is a PAD, and what happens there.
struct Case {
    network: &'static str,
    steps: &'static [Step],
}

/// The terminal calls the host, which answers.
const CALLS: Step = Plays(
    b"flow\nkey pad 0 2001\\0D\nflow\nanswer host 1\nflow\nprint pad 0\n",
    b"host/1 incoming 1001\npad.0 \"2001\\0D\\0D\\0ACOM\\0D\\0A\"\nend rest\n",
);

const CASES: &[Case] = &[
    // A call is cleared, and one that comes in is given to the lowest terminal that is present, if there is one.
    Case {
        network: TERMINALS,
        steps: &[
            CALLS,
            At(0, Leaves),
            Plays(
                b"flow\nprint pad 0\ncall host 1001\nflow\nprint pad 1\n",
                b"host/1 cleared 0 0\npad.0 \"\"\nhost/4 called\nhost/4 connected\npad.1 \"\\0D\\0ACOM\\0D\\0A\"\nend rest\n",
            ),
            At(1, Leaves),
            Plays(
                b"flow\ncall host 1001\nflow\nkey pad 1 A\n",
                b"host/4 cleared 0 0\nhost/4 called\nhost/4 cleared 0 0\ndropped\nend rest\n",
            ),
            At(0, Arrives),
            Plays(
                b"key pad 0 STAT\\0D\nprint pad 0\ncall host 1001\nflow\nprint pad 0\n",
                b"pad.0 \"STAT\\0D\\0D\\0AFREE\\0D\\0A\"\nhost/4 called\nhost/4 connected\npad.0 \"\\0D\\0ACOM\\0D\\0A\"\nend rest\n",
            ),
        ],
    },
    // The line of the host is given up by the switch: the call of the terminal is cleared as well. Then the link is set
    // up again.
    Case {
        network: TERMINALS,
        steps: &[
            CALLS,
            GivesUp(1),
            Plays(
                b"flow\nprint pad 0\n",
                b"host/1 cleared 9 0\npad.0 \"\\0D\\0ACLR DER\\0D\\0A\"\nend rest\n",
            ),
            CALLS,
        ],
    },
    // A host gives its line up.
    Case {
        network: DIRECT,
        steps: &[
            Plays(
                b"flow\nkey pad 0 2001\\0D\nflow\nanswer host 4\nflow\nprint pad 0\n",
                b"host/4 incoming\npad.0 \"2001\\0D\\0D\\0ACOM\\0D\\0A\"\nend rest\n",
            ),
            GivesUp(0),
            Plays(
                b"clear host 4\nflow\nprint pad 0\n",
                b"refused 4 NoCall\npad.0 \"\\0D\\0ACLR DER\\0D\\0A\"\nend rest\n",
            ),
        ],
    },
];

fn cases() -> &'static [Case] {
    CASES
}

fn event_at(node: usize, terminal: u16, event: TerminalEvent) -> Event {
    Event::AtTerminal {
        node,
        terminal,
        event,
    }
}

/// Whether an event of a step is not refused, or a script prints so.
fn goes_so(alloc: Global, net: &mut Net<MemLine>, config: &Config, step: Step) -> bool {
    match step {
        Plays(script, output) => prints(alloc, net, config, script, output),
        At(terminal, event) => net.step(&event_at(0, terminal, event)).is_ok(),
        GivesUp(line) => net.step(&Event::GivesUp { line }).is_ok(),
    }
}

fn prints(
    alloc: Global,
    net: &mut Net<MemLine>,
    config: &Config,
    script: &[u8],
    output: &[u8],
) -> bool {
    let mut printed = Vec::new(alloc);
    plays(alloc, net, config, script, &mut printed).is_ok() && printed.as_slice() == output
}

/// Whether there is nothing at another place.
fn refuses_others(net: &mut Net<MemLine>) -> bool {
    matches!(
        net.step(&event_at(1, 0, Leaves)),
        Err(StepFault::NoSuchNode)
    ) && matches!(
        net.step(&event_at(0, 2, Arrives)),
        Err(StepFault::NoSuchTerminal)
    ) && matches!(
        net.step(&Event::GivesUp { line: 2 }),
        Err(StepFault::NoSuchNode)
    )
}

fn all_go_so(alloc: Global, net: &mut Net<MemLine>, config: &Config, steps: &[Step]) -> bool {
    let mut same = true;
    for step in steps {
        same = same && goes_so(alloc, net, config, *step);
    }
    same && refuses_others(net)
}

/// Whether the steps of a case go so on its network.
fn holds(alloc: Global, case: &Case) -> bool {
    match read_net(alloc, case.network) {
        Ok(config) => match Net::on_memory_lines(alloc, &config) {
            Ok(mut net) => all_go_so(alloc, &mut net, &config, case.steps),
            Err(_) => false,
        },
        Err(_) => false,
    }
}

#[test]
fn terminals_leave_and_links_are_given_up(rt: HostRuntime) {
    for (number, case) in cases().iter().enumerate() {
        assert!(rt; holds(rt.alloc(), case), "{number}");
    }
}
