//! What the register of a network has of each of its lines, whatever is written.
ghost use Rattle.record_laws.specs.Registers.RegisterLaws.{MadeLaw, WriteLaw, InTurnLaw, PromiseLaw, PresentLaw, OwnedLaw, NodeLaw};
ghost use Rattle.record_laws.specs.Registers.RegisterLaws.{CameLaw, PairedLaw, CalleeLaw, RecordsLaw};
ghost use Rattle.record_laws.specs.Registers.RegisterRest.{RestLaw};

/// The law of the register of a network of many lines, over definitions alone: from the making on, and whatever is
/// written at its lines, it has the records, pairs and channels of each line's book, numbered over the whole network.
/// If the book of each line holds, both records of each pair of the register are there, match both ways, and are of the
/// two ends of one line. No record is in two pairs, and each that took anything is in one.
pub fn register_law()
    ensures made { MadeLaw }
    ensures writes { WriteLaw }
    ensures in_turn { InTurnLaw }
    ensures promise { PromiseLaw }

    // A channel has a present record exactly where the line's book has one. Each record is one of a line's book, and
    // each of a node at one line only is one of that line's book.
    ensures present { PresentLaw }
    ensures owned { OwnedLaw }
    ensures nodes { NodeLaw }

    // Where each line's book has open records where one is present and there alone, so has the register.
    ensures records { RecordsLaw }

    // A call that came in is known as one in the register where it is in the line's book, and is in a pair in the
    // register where it is in the book; and so is a call that was placed.
    ensures came { CameLaw }
    ensures paired { PairedLaw }
    ensures callee { CalleeLaw }

    // Where nothing is missing in the books of the lines, nothing is missing in the register.
    ensures rest { RestLaw }
{}
