//! What was put into a buffer, for proofs.
// What was put into a buffer. It exists only in proofs.
ghost use Rattle.std.specs.Prelude.{◌≡◌, List, ℕ};
ghost use Rattle.std.specs.Borrow.{ftrue};
ghost use Rattle.flow_window.specs.Slot.{octets_in};

use crate::pool::slot::Slot;
use std::marker::Model;

#[derive(Drop)]
pub(crate) struct Given {
    ghost octets: { List ℕ },
}

impl Model for Given {
    ghost also_owns = { λ _. ftrue };
}

impl Given {
    #[inline(always)]
    pub(crate) fn of(_slot: &Slot) -> Given
        ensures { result.octets ≡ octets_in _slot.now.content }
    {
        Given {}
    }
}
