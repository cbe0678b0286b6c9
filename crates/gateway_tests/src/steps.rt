//! The calls of a line with their connections, and steps of an example.

use packet_codec::Numbering;
use std::alloc::Global;
use std::process::Abort;
use xot_codec::{LineFlow, XotPacket};
use xot_gateway::{Order, Work, XotCalls, XotLine};

/// A line with packets of 128 octets and a window of 2, modulo 8.
pub(crate) const LINE: XotLine = XotLine {
    numbering: Numbering::Modulo8,
    flow: LineFlow {
        size: 128,
        window: 2,
    },
};

/// A line with packets of 256 octets and a window of 7, modulo 128.
pub(crate) const WIDE: XotLine = XotLine {
    numbering: Numbering::Modulo128,
    flow: LineFlow {
        size: 256,
        window: 7,
    },
};

/// How many channels a line has, and how many connections there may be.
const CHANNELS: u8 = 2;

const CONNECTIONS: usize = 3;

/// A step. Connections are counted from 0.
#[derive(Clone, Copy)]
pub(crate) enum Step<'a> {
    /// The link comes up.
    LinkUp,
    /// The link is lost.
    LinkDown,
    /// So many ticks pass.
    Elapses(u16),
    /// A packet of the line comes.
    Line(&'a [u8]),
    /// So many such packets of the line come.
    Lines(u16, &'a [u8]),
    /// The gateway itself has this packet for the line.
    Owes(&'a [u8]),
    /// It has none.
    OwesNothing,
    /// A connection comes, and gets this number.
    Attaches(Option<usize>),
    /// What is to be done with a connection next.
    Orders(Option<Order>),
    /// A connection stands.
    Opened(usize),
    /// A connection is lost.
    Lost(usize),
    /// Octets come over a connection.
    Octets(usize, &'a [u8]),
    /// A packet comes over a connection, with its header.
    Says(usize, &'a [u8]),
    /// The next packet of a connection goes to the line, as this one.
    Passes(usize, &'a [u8]),
    /// The next packet of a connection is taken, and nothing goes to the line.
    Takes(usize),
    /// No whole packet of a connection is there.
    Lacks(usize),
    /// What is written to a connection next is this packet, with its header.
    Hears(usize, &'a [u8]),
    /// Nothing is written to a connection.
    HearsNothing(usize),
}

/// A rule, the line on which it is seen, and steps by which it is.
#[derive(Clone, Copy)]
pub(crate) struct Example<'a> {
    pub(crate) rule: &'a str,
    pub(crate) line: XotLine,
    pub(crate) before: &'a [Step<'a>],
    pub(crate) steps: &'a [Step<'a>],
}

/// The link comes up, and the line restarts.
const READY: &[Step] = &[
    Step::LinkUp,
    Step::Owes(&[0x10, 0x00, 0xfb, 0x00, 0x00]),
    Step::Line(&[0x10, 0x00, 0xff]),
];

/// What comes first on a line modulo 128.
const READY_WIDE: &[Step] = &[
    Step::LinkUp,
    Step::Owes(&[0x20, 0x00, 0xfb, 0x00, 0x00]),
    Step::Line(&[0x20, 0x00, 0xff]),
];

fn ready(line: XotLine) -> &'static [Step<'static>] {
    match line.numbering {
        Numbering::Modulo8 => READY,
        Numbering::Modulo128 => READY_WIDE,
    }
}

/// Plays examples, each at a new line in r1.
pub(crate) fn play(rt: &impl Abort, alloc: Global, examples: &[Example<'_>]) {
    for example in examples {
        let rule = example.rule;
        assert!(rt; holds(alloc, example), "{rule}");
    }
}

fn holds(alloc: Global, example: &Example<'_>) -> bool {
    match Bench::new(alloc, example.line) {
        Some(mut bench) => bench.fits(example.before) && bench.fits(example.steps),
        None => false,
    }
}

/// The calls of a line.
#[derive(Drop)]
pub(crate) struct Bench {
    calls: XotCalls,
}

impl Bench {
    /// The calls of a line in r1.
    pub(crate) fn new(alloc: Global, line: XotLine) -> Option<Bench> {
        match XotCalls::new(alloc, line, CHANNELS, CONNECTIONS) {
            Ok(calls) => made_ready(Bench { calls }, line),
            Err(_) => None,
        }
    }

    /// Does these steps. Whether each is as an example says.
    pub(crate) fn fits(&mut self, steps: &[Step<'_>]) -> bool {
        let mut fits = true;
        for step in steps {
            fits = fits && self.takes(*step);
        }
        fits
    }

    fn takes(&mut self, step: Step<'_>) -> bool {
        match step {
            Step::LinkUp | Step::LinkDown | Step::Elapses(_) | Step::Line(_) | Step::Lines(..) =>
                self.happens(step),
            Step::Owes(packet) => self.owes(packet),
            Step::OwesNothing => !self.calls.next_owed(&mut XotPacket::new()),
            Step::Attaches(number) => self.calls.attach() == number,
            Step::Orders(order) => self.calls.next_order() == order,
            Step::Opened(_) | Step::Lost(_) | Step::Octets(..) | Step::Says(..) => {
                self.comes(step)
            }
            Step::Passes(number, packet) => self.passes(number, packet),
            Step::Takes(number) => self.serves(number, Work::Taken),
            Step::Lacks(number) => self.serves(number, Work::Nothing),
            Step::Hears(number, packet) => self.hears(number, packet),
            Step::HearsNothing(number) => self.calls.waiting(number).is_empty(),
        }
    }

    /// What happens at the line, or to all calls.
    fn happens(&mut self, step: Step<'_>) -> bool {
        match step {
            Step::LinkUp => self.calls.link_up(),
            Step::LinkDown => self.calls.link_down(),
            Step::Elapses(ticks) => self.calls.elapse(ticks),
            Step::Line(packet) => self.calls.from_line(packet),
            Step::Lines(count, packet) => self.floods(count, packet),
            _ => return false,
        }
        true
    }

    fn floods(&mut self, count: u16, packet: &[u8]) {
        for _ in 0..count {
            self.calls.from_line(packet);
        }
    }

    /// What happens at a connection. Whether all octets are taken.
    fn comes(&mut self, step: Step<'_>) -> bool {
        match step {
            Step::Opened(number) => self.calls.opened(number),
            Step::Lost(number) => self.calls.lost(number),
            Step::Octets(number, octets) => return self.came(number, octets),
            Step::Says(number, packet) => {
                return self.came(number, &header(packet)) && self.came(number, packet);
            }
            _ => return false,
        }
        true
    }

    fn came(&mut self, number: usize, octets: &[u8]) -> bool {
        self.calls.came(number, octets) == octets.len()
    }

    fn owes(&mut self, packet: &[u8]) -> bool {
        let mut out = XotPacket::new();
        self.calls.next_owed(&mut out) && out.as_slice() == packet
    }

    fn passes(&mut self, number: usize, packet: &[u8]) -> bool {
        let mut out = XotPacket::new();
        self.calls.serve(number, &mut out) == Work::Sends && out.as_slice() == packet
    }

    fn serves(&mut self, number: usize, work: Work) -> bool {
        self.calls.serve(number, &mut XotPacket::new()) == work
    }

    /// Whether no packet of a connection goes to the line.
    pub(crate) fn passes_nothing(&mut self, number: usize) -> bool {
        let mut out = XotPacket::new();
        for _ in 0..32 {
            match self.calls.serve(number, &mut out) {
                Work::Sends => return false,
                Work::Taken => {}
                Work::Nothing => return true,
            }
        }
        true
    }

    /// Whether this packet is written next. Then it was written.
    fn hears(&mut self, number: usize, packet: &[u8]) -> bool {
        let begins = match self.calls.waiting(number).strip_prefix(&header(packet)) {
            Some(rest) => rest.starts_with(packet),
            None => false,
        };
        self.calls.written(number, packet.len().saturating_add(4));
        begins
    }
}

/// The calls once the line is in r1.
fn made_ready(mut bench: Bench, line: XotLine) -> Option<Bench> {
    if bench.fits(ready(line)) {
        Some(bench)
    } else {
        None
    }
}

/// The header of a packet: the version, 0, and its length.
fn header(packet: &[u8]) -> [u8; 4] {
    let length = packet.len().min(65535);
    [0, 0, (length / 256) as u8, (length % 256) as u8]
}
