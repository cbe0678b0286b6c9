//! What a host says on a call (X.25 4.3).
ghost use Rattle.std.specs.Prelude.{◌≡◌, ◌≤◌, ℕ, List, length, false, true, Some, None, MatchResult, OnOk};
ghost use Rattle.data_transfer.specs.Cutting.{cut};
ghost use Rattle.data_transfer.specs.Flow.{is_size};
ghost use Rattle.packet_layer.specs.RequestView.{refusal_of};
ghost use Rattle.packet_end.specs.PacketEnd as end;
ghost use Rattle.packet_host.specs.Host.{after_say, ended_frames};
ghost use Rattle.packet_host.specs.Saying.{say_refusal, places_needed, room_to_say, most_octets, message, queued, AllTaken};

use crate::host::Host;
use data_transfer::full_packets;
use packet_end::PacketEnd;
use packet_layer::{ChannelFault, Request, SEND_QUEUE};

/// The most octets of a message that is not qualified.
const MOST_OCTETS: usize = 1_024;

/// The most octets of a qualified message.
const MOST_QUALIFIED: usize = 128;

impl Host {
    /// Says octets on the channel: full packets of the line's size with M = 1, then the rest with M = 0 and, if asked
    /// for, D. No octets are one empty packet. Q is on all packets (X.25 4.3.3 to 4.3.6). At most 1,024 octets are
    /// said, with Q 128.
    ///
    /// The first of these faults is answered:
    ///
    /// - `NoCall`: no call is in data transfer.
    /// - `Resetting`: the own reset is not confirmed.
    /// - `QueueFull`: the send queue has fewer places than the packets need. They never need more than 8, and with Q
    ///   one.
    /// - `TooLong`: there are more octets than may be said.
    #[tactic(auto, using(crate::proofs::Taken::all_said))]
    pub fn say(
        &mut self,
        channel: u8,
        octets: &[u8],
        qualified: bool,
        delivery: bool,
    ) -> Result<(), ChannelFault>
        ensures answer { MatchResult result
            (λ _. say_refusal self.old.layer channel octets.now qualified ≡ None)
            (λ fault. say_refusal self.old.layer channel octets.now qualified ≡ Some (refusal_of fault)) }

        // No packet of an accepted message is refused by the send queue.
        ensures taken { OnOk result (AllTaken channel (cut self.old.layer.flow.size (message octets.now qualified delivery)) self.old) }
        ensures host { self.new ≡ after_say self.old channel octets.now qualified delivery }
        ensures nothing_kept_back { OnOk result (end.KeepsNothingBack self.new) }
        ensures frames { OnOk result (self.new.line.frames
            ≡ ended_frames (queued channel (cut self.old.layer.flow.size (message octets.now qualified delivery)) self.old)) }
    {
        self.end.may_send(channel)?;
        let size = self.packet_size();
        if usize::from(self.end.room(channel)) < needed(octets, size, qualified) {
            return Err(ChannelFault::QueueFull);
        }
        if most(qualified) < octets.len() {
            return Err(ChannelFault::TooLong);
        }
        queue(&mut self.end, channel, octets, qualified, delivery);
        self.end_event();
        Ok(())
    }

    /// How many octets a message without Q may have now, at most 1,024: so many are not refused, if there are any. It is 0
    /// if no call is in data transfer, the own reset is not confirmed, or the send queue has no place.
    pub fn room_to_say(&self, channel: u8) -> usize
        ensures exact { result ≡ room_to_say self.now.layer channel }
        ensures taken { (octets : List ℕ) → 1 ≤ length octets → length octets ≤ result
            → say_refusal self.now.layer channel octets false ≡ None }
    {
        let places = usize::from(self.end.room(channel));
        MOST_OCTETS.min(places * usize::from(self.packet_size()))
    }

    /// How many octets of user data a packet of its line may have: 128, 256, 512 or 1,024 (X.25 4.3.2).
    pub fn packet_size(&self) -> u16
        ensures size { result ≡ self.now.layer.flow.size }
        ensures allowed { is_size result ≡ true }
    {
        self.end.flow().size
    }
}

/// How many places of the send queue a message needs.
fn needed(octets: &[u8], size: u16, qualified: bool) -> usize
    requires { is_size size ≡ true }
    ensures { result ≡ places_needed size qualified octets.now }
{
    if qualified {
        1
    } else {
        SEND_QUEUE.min(full_packets(octets, size) + 1)
    }
}

/// The most octets of a message.
fn most(qualified: bool) -> usize
    ensures { result ≡ most_octets qualified }
{
    if qualified {
        MOST_QUALIFIED
    } else {
        MOST_OCTETS
    }
}

/// Puts the packets of a message into the send queue.
fn queue(end: &mut PacketEnd, channel: u8, octets: &[u8], qualified: bool, delivery: bool)
    ensures { end.new ≡ queued channel (cut end.old.layer.flow.size (message octets.now qualified delivery)) end.old }
{
    let size = end.flow().size;
    let mut rest = octets;
    for _ in 0..full_packets(octets, size) {
        let (octets, others) = rest.split_at(usize::from(size));
        let full = Request::Send {
            octets,
            more: true,
            qualified,
            delivery: false,
        };
        let _ = end.ask(channel, &full);
        rest = others;
    }
    let last = Request::Send {
        octets: rest,
        more: false,
        qualified,
        delivery,
    };
    let _ = end.ask(channel, &last);
}
