//! Whether taken epochs match sent ones, found in one pass over both.
ghost use Rattle.std.specs.Prelude.{◌↔◌, ℕ, List, ◌∷◌, map, IsTrue};
ghost use Rattle.std.specs.Bool.{OnTrue, OnFalse};
ghost use Rattle.epochs.specs.Prefix.{IsListPrefix};
ghost use Rattle.epochs.specs.Item.{Item, all_items};
ghost use Rattle.epochs.specs.Epoch.{Epoch, IsEmpty, IsPrefixOf};
ghost use Rattle.epochs.specs.Match.{Match};
ghost use Rattle.epochs.specs.Matching.Epochs.{epoch_of, epochs_in};
ghost use Rattle.epochs.specs.Matching.EpochsLeft.{part_at, parts_left};

use crate::epochs_iter::{EpochAt, Epochs};
use crate::interrupt::Interrupt;
use crate::items::Items;
use crate::packets::PacketsIter;
use crate::passed::Passed;

/// Whether what one end of a call took matches what the other end sent. Each epoch in which anything was taken begins a
/// sent one. Later ones begin later ones, and no two begin the same one. Only the items and the interrupts count, and
/// not how they are cut into packets.
pub fn matches(taken: &Passed, sent: &Passed) -> bool
    ensures { IsTrue result ↔ Match (epochs_in taken.now.epochs) (epochs_in sent.now.epochs) }
{
    let mut others = Epochs::new(sent);
    for epoch in Epochs::new(taken) {
        if !is_empty(epoch) && !begins_one(epoch, &mut others) {
            return false;
        }
    }
    true
}

/// Whether an epoch, which is not empty, begins one of others. They are gone over up to the first that it begins.
fn begins_one(epoch: EpochAt<'_>, others: &mut Epochs<'_>) -> bool
    requires { IsEmpty (epoch_of (part_at epoch)) → ⊥ }
    ensures found { OnTrue result ((later : List Epoch)
        → Match (epoch_of (part_at epoch.entry) ∷ later) (map epoch_of (parts_left others.old))
        ↔ Match later (map epoch_of (parts_left others.new))) }
    ensures none { OnFalse result ((later : List Epoch)
        → Match (epoch_of (part_at epoch.entry) ∷ later) (map epoch_of (parts_left others.old)) → ⊥) }
{
    while let Some(other) = others.next() {
        if begins(epoch, other) {
            return true;
        }
    }
    false
}

/// Whether an epoch begins another one: its items the other's items, and its interrupts the other's interrupts.
fn begins(epoch: EpochAt<'_>, other: EpochAt<'_>) -> bool
    ensures { IsTrue result ↔ IsPrefixOf (epoch_of (part_at epoch.entry)) (epoch_of (part_at other.entry)) }
{
    let epoch = epoch.epoch();
    let other = other.epoch();
    items_begin(epoch.packets, other.packets)
        && interrupts_begin(epoch.interrupts, other.interrupts)
}

/// Whether nothing passed in an epoch.
fn is_empty(epoch: EpochAt<'_>) -> bool
    ensures { IsTrue result ↔ IsEmpty (epoch_of (part_at epoch.entry)) }
{
    let epoch = epoch.epoch();
    epoch.interrupts.is_empty() && Items::new(epoch.packets).next().is_none()
}

/// Whether the items of packets begin those of others.
fn items_begin(packets: PacketsIter<'_>, others: PacketsIter<'_>) -> bool
    ensures { IsTrue result ↔ IsListPrefix Item (all_items packets.entry) (all_items others.entry) }
{
    let mut other_items = Items::new(others);
    for item in Items::new(packets) {
        if other_items.next() != Some(item) {
            return false;
        }
    }
    true
}

/// Whether interrupts begin others.
fn interrupts_begin(interrupts: &[Interrupt], others: &[Interrupt]) -> bool
    ensures { IsTrue result ↔ IsListPrefix (List ℕ) interrupts.now others.now }
{
    let mut rest = others;
    for interrupt in interrupts {
        let Some((other, more)) = rest.split_first() else {
            return false;
        };
        if other.octets() != interrupt.octets() {
            return false;
        }
        rest = more;
    }
    true
}
