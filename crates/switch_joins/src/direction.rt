//! What a switch keeps of one direction of a join, from one reset to the next (X.25 4.3.3, 4.3.4).
ghost use Rattle.std.specs.Prelude.{◌≡◌, ◌≤◌, ◌<◌, ◌==◌, ◌∷◌, ◌++◌, [], if◌then◌else◌, true, false, None, length, MatchOption};
ghost use Rattle.flow_window.specs.Pool.{Holds, Balances, in_use};
ghost use Rattle.std.specs.Bool.{OnTrue};
ghost use Rattle.epochs.specs.Item.{DataPacket};
ghost use Rattle.data_transfer.specs.Held.{are_short};
ghost use Rattle.switch_joins.specs.Direction.{carried, more_sent, kept_places, covered_by, releasable, released};
ghost use Rattle.switch_joins.specs.Held.{direction_in, gathered_in, buffers_in, IsPart};
ghost use Rattle.switch_joins.specs.Outline.{outline_of};
ghost use Rattle.switch_joins.specs.Turning.{all_made, nothing_gathered, turned};

use crate::gathering::Gathering;
use crate::plan::{self, Outline};
use crate::sizes::Sizes;
use crate::turned::Turned;
use arrayvec::ArrayVec;
use data_transfer::AnyUserData;
use flow_window::pool::Pool;
use std::marker::Model;

/// The most packets of a call that are taken and not released: no window is larger.
const MOST_HELD: usize = 32;

/// How many more packets of the far leg have to be covered, for each packet that was taken on the near leg and is not
/// released, until all that it made due is; how many packets sent on the far leg are not covered; and what is gathered.
#[derive(Drop)]
pub(crate) struct Direction {
    held: ArrayVec<u8, MOST_HELD>,
    outstanding: u8,
    gathered: Option<Gathering>,
}

impl Model for Direction {
    ghost use Rattle.std.specs.Prelude.{◌≤◌, length};
    ghost use Rattle.switch_joins.specs.Held.{HeldDirection, IsPart};

    ghost Value = { HeldDirection };

    ghost view = { λ d. record { held = d.held.items; outstanding = d.outstanding; gathered = d.gathered } };

    ghost invariant = { λ d. (length d.held.items ≤ 32) × IsPart d.gathered };
}

/// The count of packets that are not covered, after so many more were sent.
fn with_more(outstanding: u8, count: usize) -> u8
    ensures { result ≡ more_sent count outstanding }
{
    usize::from(outstanding).saturating_add(count).min(255) as u8
}

impl Direction {
    /// Nothing was taken yet.
    pub(crate) fn new() -> Self
        ensures { result ≡ record { held = []; outstanding = 0; gathered = None } }
    {
        Direction {
            held: ArrayVec::new(),
            outstanding: 0,
            gathered: None,
        }
    }

    /// Gives the buffer back in which octets are gathered, if there are any. Nothing is gathered then.
    pub(crate) fn drop_gathered(&mut self, pool: &mut Pool)
        requires { Holds pool.old (buffers_in self.old.gathered) }
        ensures direction { self.new ≡ record self.old { gathered = None } }
        ensures pool { Balances pool.old (buffers_in self.old.gathered) pool.new [] }
    {
        if let Some(gathering) = self.gathered.take() {
            pool.free(gathering.buffer);
        }
    }

    /// Restarts the direction, as after a reset.
    pub(crate) fn renew(&mut self, pool: &mut Pool)
        requires { Holds pool.old (buffers_in self.old.gathered) }
        ensures direction { self.new ≡ record { held = []; outstanding = 0; gathered = None } }
        ensures pool { Balances pool.old (buffers_in self.old.gathered) pool.new [] }
    {
        self.drop_gathered(pool);
        self.held.clear();
        self.outstanding = 0;
    }

    /// So many packets of the far leg are covered.
    pub(crate) fn cover(&mut self, count: u8)
        ensures direction { direction_in self.new ≡ covered_by count (direction_in self.old) }
        ensures gathered { self.new.gathered ≡ self.old.gathered }
    {
        self.outstanding = self.outstanding.saturating_sub(count);
        for uncovered in self.held.iter_mut() {
            *uncovered = uncovered.saturating_sub(count);
        }
    }

    /// Whether nothing is gathered.
    pub(crate) fn gathers_nothing(&self) -> bool
        ensures empty { result ≡ (length (gathered_in self.now.gathered).octets == 0) }
        ensures nothing { OnTrue result (gathered_in self.now.gathered ≡ nothing_gathered) }
    {
        self.gathered.is_none()
    }

    /// How many packets a packet makes due; `None` if one of them is longer than the size of the far line.
    pub(crate) fn due(&self, sizes: Sizes, packet: Outline, pool: &Pool) -> Option<usize>
        requires { Holds pool.now (buffers_in self.now.gathered) }
        ensures { (d : DataPacket) → outline_of d ≡ packet → MatchOption result
            (are_short sizes.far (turned sizes (gathered_in self.now.gathered) d).made ≡ false)
            (λ count. (are_short sizes.far (turned sizes (gathered_in self.now.gathered) d).made ≡ true)
            × (count ≡ length (turned sizes (gathered_in self.now.gathered) d).made)) }
    {
        match &self.gathered {
            Some(gathering) => {
                let gathered = pool.octets(&gathering.buffer).len();
                plan::due(sizes, gathered, gathering.qualified, packet)
            }
            None => plan::due(sizes, 0, false, packet),
        }
    }

    /// What becomes of a packet.
    pub(crate) fn turned(&self, sizes: Sizes, packet: &AnyUserData, pool: &Pool) -> Turned
        requires { Holds pool.now (buffers_in self.now.gathered) }
        ensures { result ≡ turned sizes (gathered_in self.now.gathered) packet.now }
    {
        match &self.gathered {
            Some(gathering) => {
                Turned::new(
                    sizes,
                    pool.octets(&gathering.buffer),
                    gathering.qualified,
                    packet,
                )
            }
            None => Turned::new(sizes, &[], false, packet),
        }
    }

    /// A packet was taken, with D = 1 or without, and what it makes due was sent.
    pub(crate) fn carry(&mut self, delivery: bool, turned: &Turned, pool: &mut Pool)
        requires holds { Holds pool.old (buffers_in self.old.gathered) }
        requires room { in_use pool.old < length pool.old.places }
        requires size { length turned.now.left.octets ≤ pool.old.size }
        ensures direction { direction_in self.new ≡ carried delivery turned.now (direction_in self.old) }
        ensures pool { Balances pool.old (buffers_in self.old.gathered) pool.new (buffers_in self.new.gathered) }
    {
        self.send(delivery, turned.count());
        self.drop_gathered(pool);
        self.gathered = turned.gather(pool);
    }

    /// A packet was taken, with D = 1 or without, and so many packets were sent for it.
    pub(crate) fn send(&mut self, delivery: bool, count: usize)
        ensures direction { self.new ≡ record self.old {
          held = kept_places
              (self.old.held ++ (if delivery then more_sent count self.old.outstanding else 0) ∷ []);
          outstanding = more_sent count self.old.outstanding;
        } }
        ensures part { IsPart self.new.gathered }
    {
        self.outstanding = with_more(self.outstanding, count);
        let uncovered = if delivery { self.outstanding } else { 0 };
        if !self.held.is_full() {
            self.held.push(uncovered);
        }
    }

    /// Answers how many packets may be released, in order, and keeps them no longer.
    pub(crate) fn release(&mut self) -> u8
        ensures count { result ≡ releasable self.old.held }
        ensures direction { direction_in self.new ≡ released (direction_in self.old) }
        ensures gathered { self.new.gathered ≡ self.old.gathered }
    {
        let mut count = 0;
        while let Some(0) = self.held.as_slice().first() {
            self.held.remove(0);
            count += 1;
        }
        count
    }
}
