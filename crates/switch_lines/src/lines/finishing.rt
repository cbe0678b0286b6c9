//! What happens on a line, and the end of an event.
ghost use Rattle.std.specs.Prelude.{◌≡◌, ℕ, ◌<◌, ◌++◌, [], true, false, None, Some, drop, length, map, slice_get};
ghost use Rattle.std.specs.List.{list_any};
ghost use Rattle.arrayvec.specs.ArrayVec.{array_vec_len};
ghost use Rattle.packet_codec.specs.Reading.{named_channel};
ghost use Rattle.packet_end.specs.PacketEnd as end;
ghost use Rattle.switch_lines.specs.NewJoins.{joins_acted};
ghost use Rattle.switch_lines.specs.ByPlace.{AreRead};
ghost use Rattle.switch_lines.specs.Alone.{finished_alone, offered_alone, relayed_alone};
ghost use Rattle.switch_lines.specs.Switch.{acted, all_begun, all_relinked, relinks_of, to_relink, lines_first};
ghost use Rattle.switch_lines.specs.Switch.{may_offer, offering_from, with_end, without_joins};
ghost use Rattle.switch_lines.specs.Touched.{members};

use crate::lines::reopening::reopen;
use crate::lines::touched::{begin_lines, offer_lines, restart_lines, settle_lines};
use crate::lines::{Lines, other_of};
use address_routes::Routes;
use arrayvec::ArrayVec;
use link_timers::TimerId;
use number_set::NumberSet;
use packet_codec::logical_channel;
use switch_joins::{END_OF_CHANNELS, MOST_LINES, NewJoin, SwitchChannel};

/// The most packets that a link has unacknowledged.
const MOST_PACKETS: usize = 7;

/// The most lines of a list: all of a switch, and one of them once more.
const MOST_LISTED: usize = MOST_LINES + 1;

// Lines by number.
type LineList = ArrayVec<usize, MOST_LISTED>;

/// The channel that the packet of an I frame names, if it is one of a line: its packet begins with the third octet. There
/// is no channel 0.
fn named_in(octets: &[u8]) -> u8
    ensures { (c : ℕ) → named_channel (drop 2 octets.now) ≡ Some c → c < 63 → c ≡ result }
{
    let [_, _, packet @ ..] = octets else {
        return 0;
    };
    match logical_channel(packet) {
        Some(channel) if channel < u16::from(END_OF_CHANNELS) => channel as u8,
        _ => 0,
    }
}

impl Lines {
    /// Begins an event: the frames of the last one that were not taken are dropped.
    pub fn begin(&mut self)
        ensures { self.new ≡ all_begun self.old }
    {
        begin_lines(&mut self.lines, self.touched.with(self.untaken));
        self.untaken = NumberSet::new();
    }

    /// Takes the octets of a frame on a line, and heeds what it tells. Answers the first call that is joined then, if
    /// one is.
    pub fn on_frame(&mut self, routes: &Routes, line: usize, octets: &[u8]) -> Option<NewJoin>
        requires there { line < length self.old }
        requires read { AreRead self.old }
        ensures join { result ≡ slice_get (joins_acted routes.now line (λ e. end.received e octets.now) self.old) 0 }
        ensures lines { self.new ≡ acted routes.now line (λ e. end.received e octets.now) self.old }
    {
        self.touched.insert(line);
        let channel = named_in(octets);
        let leg = SwitchChannel { line, channel };
        self.to_relay.insert_join(leg, other_of(&self.lines, leg));
        self.lines[line].on_frame(octets, &mut self.pool);
        self.heed_line(routes, line)
    }

    /// Takes an expiry of a timer of a line, and heeds what it tells.
    pub fn on_timer(&mut self, routes: &Routes, line: usize, id: TimerId)
        requires there { line < length self.old }
        requires read { AreRead self.old }
        ensures { self.new ≡ acted routes.now line (λ e. end.after_timer e id) self.old }
    {
        self.touched.insert(line);
        self.lines[line].on_timer(id, &mut self.pool);
        let _ = self.heed_line(routes, line);
    }

    /// Sets the link of a line up again, and heeds what that tells.
    pub fn relink(&mut self, routes: &Routes, line: usize)
        requires there { line < length self.old }
        requires read { AreRead self.old }
        ensures { self.new ≡ acted routes.now line end.relinked self.old }
    {
        self.touched.insert(line);
        self.lines[line].relink(&mut self.pool);
        let _ = self.heed_line(routes, line);
    }

    /// Ends an event of a line. Links that have to be set up again are set up. What may go on is relayed on the joins
    /// of this line and of those lines, and offered to the links. Each line settles.
    pub fn finish(&mut self, routes: &Routes, line: usize)
        requires read { AreRead self.old }
        ensures { self.new ≡ finished_alone routes.now line self.old }
    {
        self.relink_and_relay(routes, line);
        let all_offered = self.offer_and_relay();
        self.settle(all_offered);
    }

    /// Settles the lines on which something happened, which is all of them that need it. Then nothing is left to do
    /// there, if all was offered.
    fn settle(&mut self, all_offered: bool)
        requires offered { all_offered ≡ true → list_any may_offer self.old ≡ false }
        requires relinked { to_relink self.old ≡ None }
        ensures { self.new ≡ map (with_end end.settled) self.old }
    {
        settle_lines(&mut self.lines, self.touched, &mut self.pool);
        self.untaken = self.untaken.with(self.touched);
        if all_offered {
            self.touched = NumberSet::new();
        }
    }

    /// Sets up anew each link of which its packet layer asks for it. Then what waits is relayed on the joins of a line,
    /// and of the lines of those links.
    fn relink_and_relay(&mut self, routes: &Routes, line: usize)
        requires { AreRead self.old }
        ensures { self.new ≡ relayed_alone (lines_first line routes.now self.old)
            (all_relinked (length self.old) routes.now self.old) }
    {
        match self.to_relink() {
            Some(_) => self.relay_relinked(routes, line),
            None => self.relay_line(line),
        }
    }

    /// Relinks and relays if a link has to be set up again, which is rare.
    #[inline(never)]
    fn relay_relinked(&mut self, routes: &Routes, line: usize)
        requires { AreRead self.old }
        ensures { self.new ≡ relayed_alone (lines_first line routes.now self.old)
            (all_relinked (length self.old) routes.now self.old) }
    {
        let mut concerned = ArrayVec::new();
        concerned.push(line);
        self.relink_all(routes, &mut concerned);
        self.relay_listed(&concerned);
    }

    /// Sets up anew each link of which its packet layer asks for it, and adds its line to the list. That may close calls
    /// of other lines, and ask for it there.
    fn relink_all(&mut self, routes: &Routes, concerned: &mut LineList)
        requires read { AreRead self.old }
        requires room { array_vec_len concerned.old ≡ 1 }
        ensures lines { self.new ≡ all_relinked (length self.old) routes.now self.old }
        ensures concerned { concerned.new.items
            ≡ concerned.old.items ++ relinks_of (length self.old) (to_relink self.old) routes.now self.old }
    {
        for _ in 0..self.lines.len() {
            let Some(line) = self.to_relink() else {
                return;
            };
            self.relink(routes, line);
            concerned.push(line);
        }
    }

    /// The first line whose packet layer asks for it.
    fn to_relink(&self) -> Option<usize>
        ensures { result ≡ to_relink self.now }
    {
        let mut which = self.touched;
        while let Some(line) = which.take_first() {
            if self.lines[line].must_relink() {
                return Some(line);
            }
        }
        None
    }

    /// Packets are offered to the links. What waits on the joins of the lines whose links took one is relayed then, and
    /// so on until the links take no more. Answers whether that was seen, in as many rounds as links of at most seven
    /// packets need.
    fn offer_and_relay(&mut self) -> bool
        ensures lines { self.new ≡ offered_alone [] self.old }
        ensures all { result ≡ true → list_any may_offer self.new ≡ false }
    {
        for _ in 0..MOST_PACKETS * self.lines.len() {
            let offering = self.offer();
            if offering.is_empty() {
                return true;
            }
            self.relay_lines(offering);
        }
        false
    }

    /// Offers packets to the links, in the order of the lines, and answers which took one.
    fn offer(&mut self) -> NumberSet
        ensures offering { members result ≡ offering_from 0 self.old }
        ensures lines { self.new ≡ map (with_end end.all_offered) self.old }
    {
        reopen(
            &self.lines,
            self.touched,
            &mut self.to_relay,
            &mut self.refusing,
        );
        offer_lines(&mut self.lines, self.touched, &mut self.pool)
    }

    /// Restarts on all lines.
    pub fn restart(&mut self)
        ensures { self.new ≡ map without_joins self.old }
    {
        restart_lines(&mut self.lines, &mut self.pool);
        self.touched = NumberSet::first(self.lines.len());
    }

    /// Lets ticks pass on all lines, each a twentieth of a second.
    pub fn elapse(&mut self, ticks: u16)
        ensures { self.new ≡ map (with_end (λ e. end.elapsed e ticks)) self.old }
    {
        for line in self.lines.iter_mut() {
            line.elapse(ticks);
        }
    }
}
