//! The packets that a packet of one line makes due on another one (X.25 4.3.4).
ghost use Rattle.std.specs.Prelude.{◌≡◌, ◌≤◌, ◌<◌, ◌+◌, ◌++◌, ◌==◌, [], if◌then◌else◌, length, map, slice_get, Some};
ghost use Rattle.flow_window.specs.Pool.{Balances, in_use};
ghost use Rattle.packet_channel.specs.Channel.{Request as ask};
ghost use Rattle.packet_channel.specs.RequestView.{request_of};
ghost use Rattle.switch_joins.specs.Held.{gathered_in, buffers_in, IsPart};
ghost use Rattle.switch_joins.specs.Turning.{turned};
ghost use Rattle.switch_joins.specs.TurnedView.{piece};

use crate::gathering::Gathering;
use crate::plan::{Outline, Plan, pieces};
use crate::sizes::Sizes;
use arrayvec::ArrayVec;
use data_transfer::AnyUserData;
use flow_window::pool::Pool;
use packet_channel::Request;
use std::marker::Model;

/// The most octets of a packet.
const MOST_OCTETS: usize = 1_024;

/// The packets that a packet makes due, and the octets that wait for more after it.
#[derive(Drop)]
pub struct Turned {
    // what was gathered and goes first, if it does
    first: ArrayVec<u8, MOST_OCTETS>,
    first_qualified: bool,
    // what waits, or else goes in packets of this size
    rest: ArrayVec<u8, MOST_OCTETS>,
    waits: bool,
    size: usize,
    // the bits of the last of them
    more: bool,
    qualified: bool,
    delivery: bool,
}

impl Model for Turned {
    ghost use Rattle.switch_joins.specs.Turning.{Turn};

    ghost Value = { Turn };

    ghost use Rattle.switch_joins.specs.TurnedView.{turn_of, IsTurned};

    ghost view = { turn_of };

    ghost invariant = { IsTurned };
}

/// Octets, and others after them.
fn together(octets: &[u8], others: &[u8]) -> ArrayVec<u8, MOST_OCTETS>
    requires { length octets.now + length others.now ≤ 1024 }
    ensures { result.items ≡ octets.now ++ others.now }
{
    let mut all = ArrayVec::new();
    let _ = all.try_extend_from_slice(octets);
    let _ = all.try_extend_from_slice(others);
    all
}

/// How many packets go before the rest: one, if octets go first.
fn packets_of(first: &[u8]) -> usize
    ensures { result ≡ (if length first.now == 0 then 0 else 1) }
{
    usize::from(!first.is_empty())
}

/// The first packet of this size of a packet with these octets and bits.
fn first_piece(
    octets: &[u8],
    size: usize,
    more: bool,
    qualified: bool,
    delivery: bool,
) -> Request<'_>
    ensures { request_of result ≡ ask.Sending (piece size octets.now
        (record { octets = octets.now; more = more; qualified = qualified; delivery = delivery })) }
{
    let is_last = octets.len() <= size;
    Request::Send {
        octets: &octets[..octets.len().min(size)],
        more: more || !is_last,
        qualified,
        delivery: delivery && is_last,
    }
}

impl Turned {
    /// What becomes of a packet, if these octets are gathered, with Q or without.
    pub(crate) fn new(
        sizes: Sizes,
        gathered: &[u8],
        qualified: bool,
        packet: &AnyUserData,
    ) -> Turned
        requires { length gathered.now ≤ 1024 }
        ensures { result ≡ turned sizes (record { octets = gathered.now; qualified = qualified }) packet.now }
    {
        let outline = Outline {
            length: packet.octets().len() as u16,
            more: packet.more(),
            qualified: packet.qualified(),
            delivery: packet.delivery(),
        };
        let plan = Plan::new(sizes, gathered.len(), qualified, outline);
        let first = if plan.gathered_first {
            gathered
        } else {
            &gathered[..0]
        };
        let rest = together(&gathered[first.len()..], packet.octets());
        Turned {
            first: together(first, &[]),
            first_qualified: qualified,
            rest,
            waits: plan.rest_waits,
            size: plan.size,
            more: outline.more,
            qualified: outline.qualified,
            delivery: outline.delivery,
        }
    }

    /// How many packets are due.
    pub fn count(&self) -> usize
        ensures { result ≡ length self.now.made }
    {
        packets_of(self.first.as_slice()) + pieces(self.waits, self.rest.len(), self.size)
    }

    /// The n-th packet that is due, from 0, as what is asked for it.
    pub fn request(&self, n: usize) -> Request<'_>
        requires { n < length self.now.made }
        ensures { slice_get (map ask.Sending self.now.made) n ≡ Some (request_of result) }
    {
        let before = packets_of(self.first.as_slice());
        if n < before {
            return Request::Send {
                octets: self.first.as_slice(),
                more: true,
                qualified: self.first_qualified,
                delivery: false,
            };
        }
        let rest = &self.rest.as_slice()[(n - before) * self.size..];
        first_piece(rest, self.size, self.more, self.qualified, self.delivery)
    }

    /// Puts the octets that wait into a buffer, if there are any.
    pub(crate) fn gather(&self, pool: &mut Pool) -> Option<Gathering>
        requires room { in_use pool.old < length pool.old.places }
        requires size { length self.now.left.octets ≤ pool.old.size }
        ensures gathered { gathered_in result ≡ self.now.left }
        ensures part { IsPart result }
        ensures pool { Balances pool.old [] pool.new (buffers_in result) }
    {
        if !self.waits {
            return None;
        }
        let buffer = pool.put(self.rest.as_slice())?;
        Some(Gathering {
            buffer,
            qualified: self.qualified,
        })
    }
}
