//! The joins of the channels of a line.
ghost use Rattle.std.specs.Prelude.{◌≡◌, ◌+◌, ◌<◌, ◌≤◌, ◌==◌, ◌&&◌, ◌∷◌, [], true, false};
ghost use Rattle.std.specs.Prelude.{None, Some, Option, IfOk, MatchOption, length, map, replicate};
ghost use Rattle.std.specs.List.{list_all};
ghost use Rattle.std.specs.Option.{option_map};
ghost use Rattle.std.specs.Bool.{OnTrue};
ghost use Rattle.epochs.specs.Item.{DataPacket};
ghost use Rattle.flow_window.specs.Pool.{Holds, Balances, in_use};
ghost use Rattle.data_transfer.specs.Held.{are_short};
ghost use Rattle.switch_joins.specs.Direction.{new_direction, carried, covered_by, releasable, released};
ghost use Rattle.switch_joins.specs.Held.{begun, joined_in};
ghost use Rattle.switch_joins.specs.Joins.{Joined as JoinedValue, nth_joined, with_nth_joined, with_nth_kept};
ghost use Rattle.switch_joins.specs.Joins.{gathered_by, gathers_nothing};
ghost use Rattle.switch_joins.specs.Outline.{outline_of};
ghost use Rattle.switch_joins.specs.Turning.{all_made, nothing_gathered, turned};

use crate::channels::SwitchChannel;
use crate::join::{ChannelJoin, Joined};
use crate::plan::{self, Outline};
use crate::sizes::Sizes;
use crate::turned::Turned;
use data_transfer::AnyUserData;
use flow_window::pool::Pool;
use std::alloc::{AllocError, Global};
use std::marker::Model;

/// What each channel of a line is joined to, if it is: at most 32 channels, numbered from 1. What is gathered from a
/// channel lies in a buffer of the switch's pool.
#[derive(Drop)]
pub struct Joins {
    places: Vec<ChannelJoin>,
}

impl Model for Joins {
    ghost use Rattle.std.specs.Prelude.{◌≤◌, length};
    ghost use Rattle.switch_joins.specs.Held.{HeldJoins, plain, buffers};

    ghost Value = { HeldJoins };

    ghost view = { λ a. record { joined = plain a.places.items; held = buffers a.places.items } };

    ghost invariant = { λ a. length a.places.items ≤ 32 };
}

/// Whether nothing is gathered from any of these.
fn all_gather_nothing(places: &[ChannelJoin]) -> bool
    ensures { result ≡ list_all (λ o. gathers_nothing (joined_in o)) places.now }
{
    places.iter().all(|place| place.gathers_nothing())
}

impl Joins {
    /// The joins of so many channels, none of which is joined. `AllocError` comes for want of memory.
    pub fn new(alloc: Global, channels: u8) -> Result<Joins, AllocError>
        requires { channels ≤ 32 }
        ensures { IfOk result (λ joins. joins ≡ record { joined = replicate channels None; held = [] }) }
    {
        let mut places = Vec::new(alloc);
        for _ in 0..channels {
            places.push(ChannelJoin::new())?;
        }
        Ok(Joins { places })
    }

    /// How many channels there are, at most 32.
    pub fn channels(&self) -> u8
        ensures count { result ≡ length self.now.joined }
        ensures most { result ≤ 32 }
    {
        self.places.len() as u8
    }

    /// The channel that a channel is joined to, if it is.
    pub fn other(&self, channel: u8) -> Option<SwitchChannel>
        ensures { result ≡ option_map (λ j. j.other) (nth_joined self.now.joined channel) }
    {
        let place = self.place(channel)?;
        self.places[place].other()
    }

    /// Joins a channel, or ends its join. What is gathered from it is dropped. Without such a channel nothing changes.
    pub fn set(&mut self, channel: u8, joined: Option<Joined>, pool: &mut Pool)
        requires { Holds pool.old self.old.held }
        ensures joined { self.new.joined ≡ with_nth_joined self.old.joined channel (option_map begun joined) }
        ensures most { length self.new.joined ≤ 32 }
        ensures few { length self.new.held ≤ length self.old.joined }
        ensures pool { Balances pool.old self.old.held pool.new self.new.held }
    {
        if let Some(place) = self.place(channel) {
            self.places[place].set(joined, pool);
        }
    }

    /// Restarts the direction from a channel, as after a reset, if the channel is joined. What is gathered from it is
    /// dropped.
    pub fn renew(&mut self, channel: u8, pool: &mut Pool)
        requires { Holds pool.old self.old.held }
        ensures joined { self.new.joined ≡ with_nth_kept self.old.joined channel (λ v. new_direction) }
        ensures few { length self.new.held ≤ length self.old.joined }
        ensures pool { Balances pool.old self.old.held pool.new self.new.held }
    {
        if let Some(place) = self.place(channel) {
            self.places[place].renew(pool);
        }
    }

    /// P(R) covers so many packets more of the channel that a channel is joined to.
    pub fn cover(&mut self, channel: u8, count: u8)
        ensures { self.new ≡ record self.old { joined = with_nth_kept self.old.joined channel (covered_by count) } }
    {
        if let Some(place) = self.place(channel) {
            self.places[place].cover(count);
        }
    }

    /// Whether a packet from a channel goes on as it is, in its buffer: both lines have one packet size, and nothing is
    /// gathered from the channel.
    pub fn goes_whole(&self, channel: u8, sizes: Sizes) -> bool
        ensures whole { result
            ≡ ((sizes.near == sizes.far)
            && (length (gathered_by (nth_joined self.now.joined channel)).octets == 0)) }
        ensures nothing { OnTrue result (gathered_by (nth_joined self.now.joined channel) ≡ nothing_gathered) }
    {
        sizes.near() == sizes.far() && self.gathers_nothing_from(channel)
    }

    /// Whether nothing is gathered from a channel.
    fn gathers_nothing_from(&self, channel: u8) -> bool
        ensures empty { result ≡ gathers_nothing (nth_joined self.now.joined channel) }
        ensures nothing { OnTrue result (gathered_by (nth_joined self.now.joined channel) ≡ nothing_gathered) }
    {
        match self.place(channel) {
            Some(place) => self.places[place].gathers_nothing(),
            None => true,
        }
    }

    /// How many packets a packet from a channel makes due; `None` if one of them is longer than the size of the line
    /// that they go to.
    pub fn due(&self, channel: u8, sizes: Sizes, packet: Outline, pool: &Pool) -> Option<usize>
        requires { Holds pool.now self.now.held }
        ensures { (d : DataPacket) → outline_of d ≡ packet → MatchOption result
            (are_short sizes.far (turned sizes (gathered_by (nth_joined self.now.joined channel)) d).made ≡ false)
            (λ count. (are_short sizes.far (turned sizes (gathered_by (nth_joined self.now.joined channel)) d).made ≡ true)
            × (count ≡ length (turned sizes (gathered_by (nth_joined self.now.joined channel)) d).made)) }
    {
        match self.place(channel) {
            Some(place) => self.places[place].due(sizes, packet, pool),
            None => plan::due(sizes, 0, false, packet),
        }
    }

    /// What becomes of a packet from a channel: the packets that it makes due, and what is gathered after it.
    pub fn turned(&self, channel: u8, sizes: Sizes, packet: &AnyUserData, pool: &Pool) -> Turned
        requires { Holds pool.now self.now.held }
        ensures { result ≡ turned sizes (gathered_by (nth_joined self.now.joined channel)) packet.now }
    {
        match self.place(channel) {
            Some(place) => self.places[place].turned(sizes, packet, pool),
            None => Turned::new(sizes, &[], false, packet),
        }
    }

    /// A packet was taken on a channel, with D = 1 or without, and went on as it is: nothing is gathered from there.
    pub fn pass(&mut self, channel: u8, delivery: bool)
        requires { length (gathered_by (nth_joined self.old.joined channel)).octets ≡ 0 }
        ensures { (d : DataPacket) → self.new ≡ record self.old {
          joined = with_nth_kept self.old.joined channel (carried delivery (all_made (d ∷ [])));
        } }
    {
        if let Some(place) = self.place(channel) {
            self.places[place].pass(delivery);
        }
    }

    /// A packet was taken on a channel, with D = 1 or without, and what it makes due was sent. What is left is gathered.
    pub fn carry(&mut self, channel: u8, delivery: bool, turned: &Turned, pool: &mut Pool)
        requires holds { Holds pool.old self.old.held }
        requires room { in_use pool.old < length pool.old.places }
        requires size { length turned.now.left.octets ≤ pool.old.size }
        ensures joined { self.new.joined ≡ with_nth_kept self.old.joined channel (carried delivery turned.now) }
        ensures few { length self.new.held ≤ length self.old.joined }
        ensures pool { Balances pool.old self.old.held pool.new self.new.held }
    {
        if let Some(place) = self.place(channel) {
            self.places[place].carry(delivery, turned, pool);
        }
    }

    /// Answers how many of the packets taken on a joined channel may be released, in order, and keeps them no longer.
    pub fn release(&mut self, channel: u8) -> Option<u8>
        ensures count { result
            ≡ option_map (λ j. releasable j.kept.held) (nth_joined self.old.joined channel) }
        ensures joins { self.new ≡ record self.old { joined = with_nth_kept self.old.joined channel released } }
    {
        let place = self.place(channel)?;
        self.places[place].release()
    }

    /// Whether nothing is gathered from any channel.
    pub fn gathers_nothing(&self) -> bool
        ensures { result ≡ list_all gathers_nothing self.now.joined }
    {
        all_gather_nothing(self.places.as_slice())
    }

    /// Ends all joins.
    pub fn clear(&mut self, pool: &mut Pool)
        requires { Holds pool.old self.old.held }
        ensures joined { self.new.joined ≡ map (λ o. None) self.old.joined }
        ensures held { self.new.held ≡ [] }
        ensures pool { Balances pool.old self.old.held pool.new [] }
    {
        for place in self.places.iter_mut() {
            place.set(None, pool);
        }
    }

    /// The place of a channel.
    fn place(&self, channel: u8) -> Option<usize>
        ensures { MatchOption result
            ((nth_joined self.now.joined channel ≡ None)
            × ((o : Option JoinedValue) → with_nth_joined self.now.joined channel o ≡ self.now.joined))
            (λ place. (place + 1 ≡ channel) × (place < length self.now.joined)) }
    {
        let place = usize::from(channel).checked_sub(1)?;
        if place < self.places.len() {
            Some(place)
        } else {
            None
        }
    }
}
