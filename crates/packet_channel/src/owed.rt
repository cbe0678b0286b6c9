//! Packets that are owed to the link.
ghost use Rattle.std.specs.Prelude.{◌≡◌, [], Some, drop, option_copied, slice_get};
ghost use Rattle.packet_channel.specs.Channel.{with_owed, passes_limit};

use arrayvec::ArrayVec;
use std::marker::Model;
use std::ops::Deref;

/// How many control packets may be owed on a channel, and how many restart packets.
const MOST_OWED: usize = 4;

/// The packets of one kind that are owed to the link, in order.
#[derive(Drop)]
pub struct Owed<P> {
    packets: ArrayVec<P, MOST_OWED>,
}

impl<P> Model for Owed<P> {
    ghost use Rattle.std.specs.Prelude.{List};

    ghost Value = { List P };

    ghost view = { λ o. o.packets.items };
}

impl<P> Deref for Owed<P> {
    type Target = ArrayVec<P, MOST_OWED>;

    fn deref(&self) -> &ArrayVec<P, MOST_OWED>
        ensures { result.now.items ≡ self.now }
    {
        &self.packets
    }
}

impl<P: Default + Drop> Owed<P> {
    /// No packets.
    pub fn new() -> Self
        ensures { result ≡ [] }
    {
        Owed {
            packets: ArrayVec::new(),
        }
    }

    /// Owes a packet more, and answers whether it is one too many. That one is not kept.
    pub fn owe(&mut self, packet: P) -> bool
        ensures owed { self.new ≡ with_owed self.old (Some packet) }
        ensures passes { result ≡ passes_limit self.old (Some packet) }
    {
        if self.packets.is_full() {
            return true;
        }
        self.packets.push(packet);
        false
    }

    /// The first packet, if there is one.
    pub fn first(&self) -> Option<&P>
        ensures { option_copied result ≡ slice_get self.now 0 }
    {
        self.packets.as_slice().first()
    }

    /// Drops the first packet, if there is one.
    pub fn drop_first(&mut self)
        ensures { self.new ≡ drop 1 self.old }
    {
        if self.packets.len() <= 1 {
            self.packets.clear();
        } else {
            let _ = self.packets.remove(0);
        }
    }
}
