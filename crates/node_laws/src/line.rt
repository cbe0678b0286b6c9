//! What passes between the two ends of a line over frames that may be lost: the link and the packet layer of each end
//! together.
ghost use Rattle.node_laws.specs.Lines.LineLaw.{LineEndsLaw, ActLaw, LossLaw};
ghost use Rattle.node_laws.specs.Lines.LineRest.{RestLaw};

/// The law of a line with both its ends, over definitions alone. It holds whatever is called at the ends, whatever
/// timers expire, whichever frames are lost and however often an end restarts. The two packet layers go through what
/// happens to two layers on a line whose link accepts in each session the packets offered in it, in order. So the law
/// of such a line holds of them: what an end takes in an epoch of a call begins the list of what the other end sent in
/// it, and no packet that arrives is a procedure error (X.25 2.4, 3, 4).
pub fn line_ends_law()
    ensures law { LineEndsLaw }

    // Act by act: which events of the two layers it is, the notes that they give, and the sessions in which the ends
    // stand.
    ensures acts { ActLaw }

    // A loss is no event of the layers.
    ensures losses { LossLaw }
{}

/// The law of a line at rest, over definitions alone: if both ends are at rest, each took in the present epoch of a
/// call all that the other one sent in its own (X.25 2.4, 4.3, 4.4). That a line ever comes to rest is not promised.
pub fn rest_law()
    ensures { RestLaw }
{}
