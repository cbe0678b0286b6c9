//! The laws of matching, and that it is found in one pass.
ghost use Rattle.epochs.specs.Laws.{IsReflexive, IsTransitive, IsKeptByGrowth, IsKeptByOpening, IsKeptByBothOpening};
ghost use Rattle.epochs.specs.Laws.{AlignedListsMatch, HasRisingPlaces};
ghost use Rattle.epochs.specs.ConfirmedLaws.{ConfirmsItself, ConfirmsOnward, ConfirmsInTurn, AlignedListsConfirm};
ghost use Rattle.epochs.specs.ConfirmedLaws.{NothingConfirms, ConfirmedIsTaken, ConfirmsIsMatch, RelayConfirms};
ghost use Rattle.epochs.specs.Matching.Decision.{OnePassDecides};

/// The laws of matching, as a contract: it does nothing.
pub fn match_laws()
    ensures reflexive { IsReflexive }
    ensures transitive { IsTransitive }
    ensures grows { IsKeptByGrowth }
    ensures opens { IsKeptByOpening }
    ensures both_open { IsKeptByBothOpening }
    ensures aligned { AlignedListsMatch }
    // What a match is, and so what it refuses: two taken epochs of one sent epoch, or of two in the other order.
    ensures rising { HasRisingPlaces }
{}

/// The laws of matching with confirmed items, as a contract: it does nothing. By one matching, what was taken matches
/// what was sent, and what is confirmed was taken.
pub fn confirmation_laws()
    ensures itself { ConfirmsItself }
    ensures onward { ConfirmsOnward }
    ensures in_turn { ConfirmsInTurn }
    ensures aligned { AlignedListsConfirm }
    ensures none { NothingConfirms }
    ensures taken { ConfirmedIsTaken }
    ensures is_match { ConfirmsIsMatch }

    // What a switch releases confirms no more than what is covered on its other leg.
    ensures relay { RelayConfirms }
{}

/// One pass over taken and sent epochs finds whether they match: a contract, whose function does nothing. An empty
/// taken epoch is dropped; each other one comes of the first sent epoch left that it begins, and later ones of later
/// ones.
pub fn decision_law()
    ensures decides { OnePassDecides }
{}
