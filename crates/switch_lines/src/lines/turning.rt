//! What is taken on one leg of a join goes on to the other one, also if the packet sizes of their lines differ (X.25
//! 4.3.4).
ghost use Rattle.std.specs.Prelude.{◌≡◌, ◌<◌, ◌≤◌, [], ◌∷◌, Some, length, map, slice_get};
ghost use Rattle.packet_channel.specs.Channel.{Request as ask_for};
ghost use Rattle.data_transfer.specs.Packets.{Datum};
ghost use Rattle.data_transfer.specs.TakenView.{maybe_front, maybe_taken};
ghost use Rattle.switch_joins.specs.Direction.{carried};
ghost use Rattle.switch_joins.specs.Joins.{gathered_by};
ghost use Rattle.switch_joins.specs.Turning.{nothing_gathered, all_made, turned};
ghost use Rattle.switch_lines.specs.Lines.{ask, ask_all, joined_at, front_at, sizes_at};
ghost use Rattle.switch_lines.specs.ByPlace.{kept_at, TakesFront, MovesFront};
ghost use Rattle.switch_lines.specs.Pooled.{PooledLine, plain};
ghost use Rattle.switch_lines.specs.Waiting.{other_at};

use crate::lines::{Lines, other_of};
use joined_line::SwitchLine;
use packet_layer::{AnyUserData, Front, Request, Taken, TakenBuf};
use switch_joins::{Outline, Sizes, SwitchChannel};

/// The packet sizes of the lines of two channels.
fn sizes_of(lines: &[SwitchLine], leg: SwitchChannel, other: SwitchChannel) -> Sizes
    requires there { leg.line < length lines.now }
    requires other { other.line < length lines.now }
    ensures sizes { result ≡ sizes_at (plain lines.now) leg other }
    ensures fits { (far : PooledLine) → slice_get lines.now other.line ≡ Some far → result.far ≤ far.claim.info }
{
    Sizes::new(lines[leg.line].size(), lines[other.line].size())
}

impl Lines {
    /// Whether the other leg of a join takes every packet that the first one on a channel makes due.
    pub(super) fn may_take(&self, leg: SwitchChannel, other: SwitchChannel, front: Front) -> bool
        requires there { leg.line < length self.now }
        requires other { other.line < length self.now }
        requires front { maybe_front (front_at self.now leg) ≡ Some front }
        ensures { TakesFront result self.now leg other }
    {
        let far = &self.lines[other.line];
        match front {
            Front::Interrupt => far.may_interrupt(other.channel),
            Front::Data {
                length,
                more,
                qualified,
                delivery,
            } => {
                let packet = Outline {
                    length,
                    more,
                    qualified,
                    delivery,
                };
                let sizes = sizes_of(&self.lines, leg, other);
                let joins = self.lines[leg.line].joins();
                match joins.due(leg.channel, sizes, packet, &self.pool) {
                    Some(due) => due <= usize::from(far.room(other.channel)),
                    None => false,
                }
            }
        }
    }

    /// What waits first on a joined channel is taken there, and goes on to the other leg.
    pub(super) fn move_front(&mut self, leg: SwitchChannel, other: SwitchChannel)
        requires there { leg.line < length self.old }
        requires other { other.line < length self.old }
        requires joined { other_at self.old leg ≡ Some other }
        ensures { MovesFront (front_at self.old leg) leg other self.old self.new }
    {
        let sizes = sizes_of(&self.lines, leg, other);
        if self.lines[leg.line].joins().goes_whole(leg.channel, sizes) {
            self.move_whole(leg, other);
        } else {
            self.move_turned(leg, other);
        }
    }

    /// What waits first on a joined channel is taken there, and goes on to the other leg as it is, in its buffer.
    fn move_whole(&mut self, leg: SwitchChannel, other: SwitchChannel)
        requires there { leg.line < length self.old }
        requires other { other.line < length self.old }
        requires joined { other_at self.old leg ≡ Some other }
        requires whole { (sizes_at self.old leg other).near ≡ (sizes_at self.old leg other).far }
        requires nothing { gathered_by (joined_at self.old leg) ≡ nothing_gathered }
        ensures { MovesFront (front_at self.old leg) leg other self.old self.new }
    {
        self.touched.insert(leg.line);
        self.to_relay.insert_join(leg, Some(other));
        match self.lines[leg.line].take_buf(leg.channel) {
            Some(TakenBuf::Interrupt(interrupt)) => {
                self.ask(other, &Request::Interrupt(interrupt.octets()));
            }
            Some(TakenBuf::Data(packet)) => {
                let delivery = packet.delivery();
                self.touched.insert(other.line);
                self.lines[other.line].send_packet(other.channel, packet, &mut self.pool);
                self.pass(leg, delivery);
            }
            None => {}
        }
    }

    /// A packet was taken on a joined channel, with D = 1 or without, and went on as it is.
    fn pass(&mut self, leg: SwitchChannel, delivery: bool)
        requires there { leg.line < length self.old }
        requires nothing { gathered_by (joined_at self.old leg) ≡ nothing_gathered }
        ensures { (d : Datum) → self.new ≡ kept_at leg (carried delivery (all_made (d ∷ []))) self.old }
    {
        self.lines[leg.line].pass(leg.channel, delivery);
    }

    /// What waits first on a joined channel is taken there, and what it makes due goes on to the other leg.
    fn move_turned(&mut self, leg: SwitchChannel, other: SwitchChannel)
        requires there { leg.line < length self.old }
        requires other { other.line < length self.old }
        ensures { MovesFront (front_at self.old leg) leg other self.old self.new }
    {
        match self.take(leg) {
            Some(Taken::Interrupt(interrupt)) => {
                self.ask(other, &Request::Interrupt(interrupt.octets()));
            }
            Some(Taken::Data(packet)) => self.turn(leg, other, &packet),
            None => {}
        }
    }

    /// Takes what waits first on a channel, if anything.
    fn take(&mut self, leg: SwitchChannel) -> Option<Taken>
        requires { leg.line < length self.old }
        ensures taken { maybe_taken result ≡ front_at self.old leg }
        ensures lines { self.new ≡ ask leg ask_for.Taking self.old }
    {
        self.touched.insert(leg.line);
        self.to_relay.insert_join(leg, other_of(&self.lines, leg));
        self.lines[leg.line].take(leg.channel, &mut self.pool)
    }

    /// What a packet that was taken on a joined channel makes due is sent on the other leg, and what is left is gathered.
    fn turn(&mut self, leg: SwitchChannel, other: SwitchChannel, packet: &AnyUserData)
        requires there { leg.line < length self.old }
        requires other { other.line < length self.old }
        ensures { let turn = turned (sizes_at self.old leg other) (gathered_by (joined_at self.old leg)) packet.now in
            self.new ≡ kept_at leg (carried packet.now.delivery turn)
            (ask_all other (map ask_for.Sending turn.made) self.old) }
    {
        let sizes = sizes_of(&self.lines, leg, other);
        let joins = self.lines[leg.line].joins();
        let turned = joins.turned(leg.channel, sizes, packet, &self.pool);
        self.touched.insert(other.line);
        self.lines[other.line].send_all(other.channel, &turned, &mut self.pool);
        self.to_relay.insert_join(leg, other_of(&self.lines, leg));
        self.lines[leg.line].carry(leg.channel, packet.delivery(), &turned, &mut self.pool);
    }
}
