//! What a channel is joined to.
ghost use Rattle.std.specs.Prelude.{◌≡◌, ◌≤◌, ◌<◌, ◌∷◌, [], true, false, None, length, MatchOption};
ghost use Rattle.std.specs.Option.{option_map};
ghost use Rattle.std.specs.Bool.{OnTrue};
ghost use Rattle.epochs.specs.Item.{DataPacket};
ghost use Rattle.flow_window.specs.Pool.{Holds, Balances, in_use};
ghost use Rattle.data_transfer.specs.Held.{are_short};
ghost use Rattle.switch_joins.specs.Direction.{new_direction, carried, passed, covered_by, releasable, released};
ghost use Rattle.switch_joins.specs.Held.{joined_in, buffers_of, begun};
ghost use Rattle.switch_joins.specs.Joins.{joined_with, gathered_by, gathers_nothing};
ghost use Rattle.switch_joins.specs.Outline.{outline_of};
ghost use Rattle.switch_joins.specs.Turning.{all_made, nothing_gathered, turned};

use crate::channels::SwitchChannel;
use crate::direction::Direction;
use crate::plan::{self, Outline};
use crate::sizes::Sizes;
use crate::turned::Turned;
use data_transfer::AnyUserData;
use flow_window::pool::Pool;
use std::marker::Model;

/// What a channel is joined to: the other channel, and whether the call came in here.
#[derive(Clone, Copy)]
pub struct Joined {
    pub other: SwitchChannel,
    pub came_in: bool,
}

// A joined channel, with the direction from it to the other one.
#[derive(Drop)]
struct Join {
    to: Joined,
    kept: Direction,
}

/// The place for a join that each channel has.
#[derive(Drop)]
pub(crate) struct ChannelJoin {
    join: Option<Join>,
}

impl Model for ChannelJoin {
    ghost use Rattle.std.specs.Prelude.{Option};
    ghost use Rattle.std.specs.Option.{option_map};
    ghost use Rattle.switch_joins.specs.Held.{HeldJoin};

    ghost Value = { Option HeldJoin };

    ghost view = { λ p. option_map (λ j. record { other = j.to.other; came_in = j.to.came_in; kept = j.kept }) p.join };
}

impl ChannelJoin {
    /// Without a join.
    pub(crate) fn new() -> Self
        ensures { result ≡ None }
    {
        ChannelJoin { join: None }
    }

    /// The channel that is joined to this one, if one is.
    pub(crate) fn other(&self) -> Option<SwitchChannel>
        ensures { result ≡ option_map (λ j. j.other) (joined_in self.now) }
    {
        match &self.join {
            Some(join) => Some(join.to.other),
            None => None,
        }
    }

    /// Joins the channel, or ends its join. What is gathered is dropped.
    pub(crate) fn set(&mut self, joined: Option<Joined>, pool: &mut Pool)
        requires { Holds pool.old (buffers_of self.old) }
        ensures joined { joined_in self.new ≡ option_map begun joined }
        ensures held { buffers_of self.new ≡ [] }
        ensures pool { Balances pool.old (buffers_of self.old) pool.new [] }
    {
        self.renew(pool);
        self.join = match joined {
            Some(to) => Some(Join {
                to,
                kept: Direction::new(),
            }),
            None => None,
        };
    }

    /// Restarts the direction from here, if the channel is joined. What is gathered is dropped.
    pub(crate) fn renew(&mut self, pool: &mut Pool)
        requires { Holds pool.old (buffers_of self.old) }
        ensures joined { joined_in self.new ≡ joined_with (λ v. new_direction) (joined_in self.old) }
        ensures held { buffers_of self.new ≡ [] }
        ensures pool { Balances pool.old (buffers_of self.old) pool.new [] }
    {
        if let Some(join) = &mut self.join {
            join.kept.renew(pool);
        }
    }

    /// So many packets of the other leg are covered.
    pub(crate) fn cover(&mut self, count: u8)
        ensures joined { joined_in self.new ≡ joined_with (covered_by count) (joined_in self.old) }
        ensures held { buffers_of self.new ≡ buffers_of self.old }
    {
        if let Some(join) = &mut self.join {
            join.kept.cover(count);
        }
    }

    /// Whether nothing is gathered.
    pub(crate) fn gathers_nothing(&self) -> bool
        ensures empty { result ≡ gathers_nothing (joined_in self.now) }
        ensures nothing { OnTrue result (gathered_by (joined_in self.now) ≡ nothing_gathered) }
    {
        match &self.join {
            Some(join) => join.kept.gathers_nothing(),
            None => true,
        }
    }

    /// How many packets a packet makes due; `None` if one of them is longer than the size of the far line.
    pub(crate) fn due(&self, sizes: Sizes, packet: Outline, pool: &Pool) -> Option<usize>
        requires { Holds pool.now (buffers_of self.now) }
        ensures { (d : DataPacket) → outline_of d ≡ packet → MatchOption result
            (are_short sizes.far (turned sizes (gathered_by (joined_in self.now)) d).made ≡ false)
            (λ count. (are_short sizes.far (turned sizes (gathered_by (joined_in self.now)) d).made ≡ true)
            × (count ≡ length (turned sizes (gathered_by (joined_in self.now)) d).made)) }
    {
        match &self.join {
            Some(join) => join.kept.due(sizes, packet, pool),
            None => plan::due(sizes, 0, false, packet),
        }
    }

    /// What becomes of a packet.
    pub(crate) fn turned(&self, sizes: Sizes, packet: &AnyUserData, pool: &Pool) -> Turned
        requires { Holds pool.now (buffers_of self.now) }
        ensures { result ≡ turned sizes (gathered_by (joined_in self.now)) packet.now }
    {
        match &self.join {
            Some(join) => join.kept.turned(sizes, packet, pool),
            None => Turned::new(sizes, &[], false, packet),
        }
    }

    /// A packet was taken and sent on as it is.
    pub(crate) fn pass(&mut self, delivery: bool)
        requires { length (gathered_by (joined_in self.old)).octets ≡ 0 }
        ensures joined { joined_in self.new ≡ joined_with (passed delivery) (joined_in self.old) }
        ensures held { buffers_of self.new ≡ buffers_of self.old }
    {
        if let Some(join) = &mut self.join {
            join.kept.send(delivery, 1);
        }
    }

    /// A packet was taken, and what it makes due was sent.
    pub(crate) fn carry(&mut self, delivery: bool, turned: &Turned, pool: &mut Pool)
        requires holds { Holds pool.old (buffers_of self.old) }
        requires room { in_use pool.old < length pool.old.places }
        requires size { length turned.now.left.octets ≤ pool.old.size }
        ensures joined { joined_in self.new ≡ joined_with (carried delivery turned.now) (joined_in self.old) }
        ensures pool { Balances pool.old (buffers_of self.old) pool.new (buffers_of self.new) }
    {
        if let Some(join) = &mut self.join {
            join.kept.carry(delivery, turned, pool);
        }
    }

    /// Answers how many packets may be released, in order, and keeps them no longer.
    pub(crate) fn release(&mut self) -> Option<u8>
        ensures count { result ≡ option_map (λ j. releasable j.kept.held) (joined_in self.old) }
        ensures joined { joined_in self.new ≡ joined_with released (joined_in self.old) }
        ensures held { buffers_of self.new ≡ buffers_of self.old }
    {
        match &mut self.join {
            Some(join) => Some(join.kept.release()),
            None => None,
        }
    }
}
