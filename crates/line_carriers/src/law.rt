//! What the two ends of a connection make of each other, over definitions alone.
ghost use Rattle.line_carriers.specs.Laws.{StreamLaw, HelloLaw};
ghost use Rattle.line_carriers.specs.Opening.{OpenLaw};
ghost use Rattle.line_carriers.specs.CutOff.{CutOffLaw};

/// The laws of a connection. Whatever pieces its octets come in, what is taken at one end is the beginning of what was
/// added at the other. A hello gives the number of its start, or the first thing that differs.
pub fn carrier_law()
    ensures stream { StreamLaw }
    ensures hello { HelloLaw }
{}

/// The law of opening. As long as a connection stands and the line over it is not open at an end, this end hands over its
/// hello and signs alone, and no frame. An end that has not started does not say that it opens.
pub fn opening_law()
    ensures { OpenLaw }
{}

/// The law of a start. As long as a connection stands at both ends of a line and the one end has not started, the other
/// is not open, and signs alone are on the way between them, besides hellos: no frame, in either direction.
pub fn cut_off_law()
    ensures { CutOffLaw }
{}
