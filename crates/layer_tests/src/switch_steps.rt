//! A switch of three lines with partners that send any packet, and steps of an example.

use crate::lines::{LINE, address_of};
use crate::link::Terminus;
use address_routes::{LineNo, Routes};
use arrayvec::ArrayVec;
use frame_codec::FrameBuf;
use lapb::LinkParams;
use link_timers::{Role, TimerId};
use packet_codec::PacketBuf;
use packet_end::EndParams;
use std::alloc::Global;
use x25_switch::{Switch, SwitchChannel, SwitchConfig, SwitchLineConfig};

/// A step.
#[derive(Clone, Copy)]
pub(crate) enum Step<'a> {
    /// The partner on a line hands a packet to its link.
    Send(usize, &'a [u8]),
    /// All frames arrive, and those that they are answered by.
    Flow,
    /// The next packet that the partner on a line was sent.
    Hears(usize, &'a [u8]),
    /// No packet more.
    HearsNothing(usize),
    /// A frame arrives at the switch on a line, whoever sent it.
    Arrives(usize, &'a [u8]),
    /// The next frame that the switch sent on a line.
    Gets(usize, &'a [u8]),
    /// No frame more.
    GetsNothing(usize),
    /// What a channel is joined to, by line and channel.
    Joined(usize, u8, Option<(usize, u8)>),
    /// An expiry, and whether the timer ran.
    Expires(usize, TimerId, bool),
}

// The partner's link of a line, the frames that come to it, and the packets that came.
#[derive(Drop)]
struct Partner {
    end: Terminus,
    coming: ArrayVec<FrameBuf, 32>,
    heard: ArrayVec<PacketBuf, 16>,
}

/// Takes the frames that the switch sends on a line.
fn collect_at(switch: &mut Switch, line: usize, coming: &mut ArrayVec<FrameBuf, 32>) {
    for _ in 0..16 {
        let mut frame = FrameBuf::new();
        if line >= switch.lines() || coming.is_full() || !switch.out(line, &mut frame) {
            break;
        }
        coming.push(frame);
    }
}

/// A switch of three lines with their partners.
#[derive(Drop)]
pub(crate) struct Bench {
    switch: Switch,
    partners: Vec<Partner>,
}

/// A line to a DTE of this address.
fn user_line(address: &[u8]) -> SwitchLineConfig {
    SwitchLineConfig {
        params: LINE,
        role: Role::Dce,
        address: Some(address_of(address)),
    }
}

// A trunk, of which the switch is the DTE.
const TRUNK: SwitchLineConfig = SwitchLineConfig {
    params: LINE,
    role: Role::Dte,
    address: None,
};

/// What line 0 is.
#[derive(Clone, Copy)]
pub(crate) enum FirstLine {
    /// The line of the user 1.
    User,
    /// That line with k = 1: one packet of the switch may be unacknowledged.
    OnePacket,
    /// A trunk, of which the switch is the DTE.
    Trunk,
}

/// Lines 1 and 2 are those of the users 2 and 4.
fn lines(first: FirstLine) -> [SwitchLineConfig; 3] {
    let first = match first {
        FirstLine::User => user_line(b"1"),
        FirstLine::OnePacket => SwitchLineConfig {
            params: EndParams { k: 1, ..LINE },
            ..user_line(b"1")
        },
        FirstLine::Trunk => TRUNK,
    };
    [first, user_line(b"2"), user_line(b"4")]
}

fn place((line, channel): (usize, u8)) -> SwitchChannel {
    SwitchChannel { line, channel }
}

/// Adds the routes to the lines. Whether all are added.
fn add_routes(routes: &mut Routes) -> bool {
    routes.add(&address_of(b"1"), LineNo(0)).is_ok()
        && routes.add(&address_of(b"2"), LineNo(1)).is_ok()
        && routes.add(&address_of(b"4"), LineNo(2)).is_ok()
}

fn new_routes(alloc: Global) -> Option<Routes> {
    let mut routes = Routes::new(alloc).ok()?;
    if add_routes(&mut routes) {
        Some(routes)
    } else {
        None
    }
}

fn new_switch(alloc: Global, lines: &[SwitchLineConfig]) -> Option<Switch> {
    match new_routes(alloc) {
        Some(routes) => Switch::new(alloc, SwitchConfig { lines, routes }).ok(),
        None => None,
    }
}

fn new_partner(alloc: Global, role: Role) -> Option<Partner> {
    let params = LinkParams {
        k: 7,
        n2: 3,
        info: 145,
        standing: false,
    };
    match Terminus::new(alloc, role, params) {
        Ok(end) => Some(Partner {
            end,
            coming: ArrayVec::new(),
            heard: ArrayVec::new(),
        }),
        Err(_) => None,
    }
}

/// Adds a partner. Whether there is memory for it.
fn add_partner(alloc: Global, role: Role, partners: &mut Vec<Partner>) -> bool {
    match new_partner(alloc, role) {
        Some(partner) => partners.push(partner).is_ok(),
        None => false,
    }
}

impl Bench {
    /// A new switch of such a line and of those of two users.
    pub(crate) fn new(alloc: Global, first: FirstLine) -> Option<Bench> {
        match new_switch(alloc, &lines(first)) {
            Some(switch) => Some(Bench {
                switch,
                partners: Vec::new(alloc),
            }),
            None => None,
        }
    }

    /// Brings the partners, of which the first has this role. Whether there is memory for them.
    pub(crate) fn begin(&mut self, alloc: Global, first: Role) -> bool {
        let begun = add_partner(alloc, first, &mut self.partners)
            && add_partner(alloc, Role::Dte, &mut self.partners)
            && add_partner(alloc, Role::Dte, &mut self.partners);
        self.collect();
        begun
    }

    /// Takes the frames that the switch sends.
    fn collect(&mut self) {
        for line in 0..self.switch.lines() {
            if let Some(partner) = self.partners.get_mut(line) {
                collect_at(&mut self.switch, line, &mut partner.coming);
            }
        }
    }

    /// A frame arrives at the switch.
    fn arrive(&mut self, line: usize, octets: &[u8]) {
        if line < self.switch.lines() {
            let _ = self.switch.on_frame(line, octets);
            self.collect();
        }
    }

    /// The first frame in each direction of a line arrives. Whether there was one.
    fn deliver(&mut self, line: usize) -> bool {
        let mut frame = FrameBuf::new();
        let Some(partner) = self.partners.get_mut(line) else {
            return false;
        };
        let sent = partner.end.out(&mut frame);
        let came = hear(partner);
        if sent {
            self.arrive(line, frame.as_slice());
        }
        sent || came
    }

    /// All frames arrive, and those that they are answered by.
    fn flow(&mut self) {
        for _ in 0..64 {
            let first = self.deliver(0);
            let second = self.deliver(1);
            let third = self.deliver(2);
            if !first && !second && !third {
                return;
            }
        }
    }

    /// Does these steps. Whether each is as an example says.
    pub(crate) fn fits(&mut self, steps: &[Step<'_>]) -> bool {
        let mut fits = true;
        for step in steps {
            fits = fits && self.takes(*step);
        }
        fits
    }

    /// Does a step, and answers whether it is as the example says.
    fn takes(&mut self, step: Step<'_>) -> bool {
        match step {
            Step::Send(line, _)
            | Step::Hears(line, _)
            | Step::HearsNothing(line)
            | Step::Gets(line, _)
            | Step::GetsNothing(line) => self.partner_takes(line, step),
            Step::Flow => {
                self.flow();
                true
            }
            Step::Arrives(line, octets) => {
                self.arrive(line, octets);
                true
            }
            Step::Joined(line, channel, other) => self.is_joined(line, channel, other),
            Step::Expires(line, id, runs) => self.expires(line, id, runs),
        }
    }

    fn partner_takes(&mut self, line: usize, step: Step<'_>) -> bool {
        match self.partners.get_mut(line) {
            Some(partner) => partner.takes(step),
            None => false,
        }
    }

    /// Whether a channel is joined to this one, or to none.
    fn is_joined(&self, line: usize, channel: u8, other: Option<(usize, u8)>) -> bool {
        self.switch.joins(SwitchChannel { line, channel }) == other.map(place)
    }

    fn expires(&mut self, line: usize, id: TimerId, runs: bool) -> bool {
        if line >= self.switch.lines() {
            return false;
        }
        let ran = self.switch.on_timer(line, id);
        self.collect();
        ran == runs
    }
}

impl Partner {
    /// Does a step, and answers whether it is as the example says.
    fn takes(&mut self, step: Step<'_>) -> bool {
        match step {
            Step::Send(_, packet) => self.send(packet),
            Step::Hears(_, packet) => self.hears(packet),
            Step::HearsNothing(_) => self.heard.is_empty(),
            Step::Gets(_, octets) => self.gets(octets),
            Step::GetsNothing(_) => self.coming.is_empty(),
            Step::Flow | Step::Arrives(..) | Step::Joined(..) | Step::Expires(..) => false,
        }
    }

    fn send(&mut self, packet: &[u8]) -> bool {
        if packet.len() > 145 {
            return false;
        }
        let taken = self.end.offer(packet).is_ok();
        self.end.settle();
        taken
    }

    fn hears(&mut self, packet: &[u8]) -> bool {
        !self.heard.is_empty() && self.heard.remove(0).as_slice() == packet
    }

    fn gets(&mut self, octets: &[u8]) -> bool {
        !self.coming.is_empty() && self.coming.remove(0).as_slice() == octets
    }
}

/// The first frame that comes to a partner is taken. Whether there was one.
fn hear(partner: &mut Partner) -> bool {
    if partner.coming.is_empty() {
        return false;
    }
    let frame = partner.coming.remove(0);
    let received = partner.end.on_frame(frame.as_slice());
    if let Some(octets) = received.packet
        && !partner.heard.is_full()
    {
        let mut packet = PacketBuf::new();
        let _ = packet.try_extend_from_slice(octets);
        partner.heard.push(packet);
    }
    partner.end.settle();
    true
}
