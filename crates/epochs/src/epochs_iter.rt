//! The epochs of what passed on a call, one after the other.
ghost use Rattle.std.specs.Prelude.{◌≡◌};
ghost use Rattle.epochs.specs.Matching.Epochs.{all_parts};

use crate::passed::{Epoch, Passed};

/// An epoch of what passed: that of this number of those that ended, or the last one.
#[derive(Clone, Copy)]
pub(crate) struct EpochAt<'a> {
    passed: &'a Passed,
    number: usize,
}

impl<'a> EpochAt<'a> {
    ghost use Rattle.epochs.specs.EpochEnds.{part_of};
    ghost use Rattle.epochs.specs.Matching.EpochsLeft.{part_at};

    /// What passed in it.
    pub(crate) fn epoch(self) -> Epoch<'a>
        ensures { part_of result ≡ part_at self.entry }
    {
        match self.passed.before(self.number) {
            Some(epoch) => epoch,
            None => self.passed.last(),
        }
    }
}

/// Goes over the epochs of what passed, of which the last one goes on.
#[derive(Drop)]
pub(crate) struct Epochs<'a> {
    passed: &'a Passed,
    /// How many were given, until the last one was.
    given: Option<usize>,
}

impl<'a> Epochs<'a> {
    ghost use Rattle.epochs.specs.Matching.EpochsLeft.{parts_left};

    /// All of them.
    pub(crate) fn new(passed: &'a Passed) -> Self
        ensures { parts_left result ≡ all_parts passed.now.epochs }
    {
        Epochs {
            passed,
            given: Some(0),
        }
    }
}

impl<'a> Iterator for Epochs<'a> {
    type Item = EpochAt<'a>;

    ghost use Rattle.std.specs.Iterator.{YieldsFirstBy, item_count};
    ghost use Rattle.epochs.specs.Matching.EpochsLeft.{part_at, parts_left};

    ghost next_gives = { YieldsFirstBy part_at parts_left };

    ghost remaining = { item_count parts_left };

    fn next(&mut self) -> Option<EpochAt<'a>> {
        let number = self.given?;
        self.given = if number < self.passed.ended() {
            Some(number + 1)
        } else {
            None
        };
        Some(EpochAt {
            passed: self.passed,
            number,
        })
    }
}
