//! The items of packets, one after the other: where a packet ends does not show.
ghost use Rattle.std.specs.Prelude.{◌≡◌};
ghost use Rattle.epochs.specs.Item.{all_items};

use crate::packets::{PacketsIter, PassedPacket};

/// An octet of a message, its end, and the same two where the message is qualified.
#[derive(Clone, Copy, PartialEq, Eq)]
pub(crate) enum Item {
    Octet(u8),
    End,
    QualifiedOctet(u8),
    QualifiedEnd,
}

impl Item {
    ghost use Rattle.epochs.specs.Matching.Items.{value_of, octet_of, end_of};

    /// An octet of a message.
    fn octet(qualified: bool, octet: u8) -> Item
        ensures { value_of result ≡ octet_of qualified octet }
    {
        if qualified {
            Item::QualifiedOctet(octet)
        } else {
            Item::Octet(octet)
        }
    }

    /// The end of a message.
    fn end(qualified: bool) -> Item
        ensures { value_of result ≡ end_of qualified }
    {
        if qualified {
            Item::QualifiedEnd
        } else {
            Item::End
        }
    }
}

/// Goes over the items of packets.
#[derive(Drop)]
pub(crate) struct Items<'a> {
    /// What is left of the packet in hand. Once its end was given, it counts as one with M = 1.
    packet: PassedPacket<'a>,
    packets: PacketsIter<'a>,
}

impl<'a> Items<'a> {
    ghost use Rattle.std.specs.Prelude.{[], ◌∷◌, MatchOption};
    ghost use Rattle.epochs.specs.Item.{items_of};
    ghost use Rattle.epochs.specs.Packets.{data_packet_of};
    ghost use Rattle.epochs.specs.Matching.Items.{items_left, value_of};

    /// The items of these packets.
    pub(crate) fn new(packets: PacketsIter<'a>) -> Self
        ensures { items_left result ≡ all_items packets.entry }
    {
        Items {
            packet: PassedPacket {
                octets: &[],
                more: true,
                qualified: false,
                delivery: false,
            },
            packets,
        }
    }

    /// The next item of the packet in hand.
    fn next_in_hand(&mut self) -> Option<Item>
        ensures item { MatchOption result
            ((items_of (data_packet_of self.old.packet) ≡ []) × (self.new.packet ≡ self.old.packet))
            (λ item. items_of (data_packet_of self.old.packet)
            ≡ value_of item ∷ items_of (data_packet_of self.new.packet)) }
        ensures packets { self.new.packets ≡ self.old.packets }
    {
        if let [octet, rest @ ..] = self.packet.octets {
            self.packet.octets = rest;
            return Some(Item::octet(self.packet.qualified, *octet));
        }
        if self.packet.more {
            return None;
        }
        self.packet.more = true;
        Some(Item::end(self.packet.qualified))
    }
}

impl Iterator for Items<'_> {
    type Item = Item;

    ghost use Rattle.std.specs.Iterator.{YieldsFirstBy, item_count};
    ghost use Rattle.epochs.specs.Matching.Items.{items_left, value_of};

    ghost next_gives = { YieldsFirstBy value_of items_left };

    ghost remaining = { item_count items_left };

    fn next(&mut self) -> Option<Item> {
        loop {
            if let Some(item) = self.next_in_hand() {
                return Some(item);
            }
            self.packet = self.packets.next()?;
        }
    }
}
