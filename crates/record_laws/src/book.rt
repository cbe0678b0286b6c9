//! The law of the book of a line.
ghost use Rattle.record_laws.specs.Books.Headline.{BookLaw, RecordsLaw, PresentLaw, AnsweredLaw, CallsLaw, CallersLaw};
ghost use Rattle.record_laws.specs.Books.AcceptedCalls.{AcceptedLaw, AcceptedRun};
ghost use Rattle.record_laws.specs.Books.Counts.{CountsLaw};
ghost use Rattle.record_laws.specs.Books.Uses.{UsesLaw, KeepingLaw};
ghost use Rattle.record_laws.specs.Books.Delivery.{DeliveryLaw};
ghost use Rattle.record_laws.specs.Books.Open.{OpenLaw};

/// The law of the book of a line, over the definitions alone. It holds whatever is called at the two ends of a line
/// whose sessions come in rising order. The epochs that one end of a pair took match those that the other end sent,
/// both ways. The nodes and addresses of a pair are right. No record is in two pairs, and each that took anything is in
/// one.
pub fn book_law()
    ensures book { BookLaw }

    // A present record is open and of the node at its end, and each open record is present on one channel.
    ensures records { RecordsLaw }

    // A channel has a present record exactly where the packet layer of its end has a call there.
    ensures present { PresentLaw }

    // Where an end may accept a call, the book has it as one that came in. In data transfer each call is in a pair, at
    // the end that placed it too.
    ensures answered { AnsweredLaw }

    // Each call that came in holds as a pair does, accepted or not, and a call that was placed comes in once at most.
    ensures calls { CallsLaw }

    // The record of a call that came in has the number of the record of the end that placed it.
    ensures callers { CallersLaw }

    // The last epochs of a present record are the present one of its channel. Two open records of a pair are present on
    // one channel, one at each end.
    ensures epochs { OpenLaw }

    // The epochs of each record, open or closed, are those that the packet layer of its end counted: packets,
    // interrupts, and how many packets a P(R) covered and how many were released. In all others nothing passed.
    ensures counts { CountsLaw }

    // Each record is of one use of a channel, and no two are of one use. No epoch of it is lost, whatever happens.
    ensures uses { UsesLaw }
    ensures keeping { KeepingLaw }

    // The pairs are the calls that were accepted, one for each, open or over, also if nothing was taken.
    ensures accepted { AcceptedLaw }
{}

/// A call that is accepted and cleared before anything is sent meets what the law asks for, and is a pair: by
/// computation.
pub fn accepted_run()
    ensures { AcceptedRun }
{}

/// If each packet of an epoch that was sent with D = 1 is covered, what is confirmed of the epoch is all of it up to
/// the last such packet.
pub fn delivery_law()
    ensures { DeliveryLaw }
{}
