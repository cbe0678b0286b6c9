//! The law of what a PAD says of itself.
ghost use Rattle.node_laws.specs.Pads.Happening.{OccasionLaw};
ghost use Rattle.node_laws.specs.Pads.Courses.{CourseLaw};
ghost use Rattle.node_laws.specs.Pads.EventCourses.{EventCourseLaw};
ghost use Rattle.node_laws.specs.Pads.Typed.{TypedLaw};
ghost use Rattle.node_laws.specs.Pads.Sending.{OfPadLaw};

/// The law of what a PAD says of itself, over definitions alone. On each call the qualified packets that it sends are
/// an answer to each message that it took there and that asks for one, and an indication of each break that asks for
/// one, once and in the order in which these came; its interrupts are those of breaks and of the command INT, one each
/// (X.3 3.7; X.28 3.3; X.29 4.4). It says so of one event, and of every list of events at both ends from the making on.
pub fn occasion_law()
    ensures event { OccasionLaw }
    ensures course { CourseLaw }
    // An answer is an indication of parameters or an error.
    ensures of_pad { OfPadLaw }
{}

/// The law of the course that a list of events makes, over definitions alone. It is made of these events at the PAD,
/// each once and in order, from the making on. What else comes to be in the book of the line is not of the PAD. Each
/// record of the PAD has sent what was typed, and of itself what its occasions in this course ask for (X.3; X.28 3.3;
/// X.29 4.4).
pub fn event_course_law()
    ensures { EventCourseLaw }
{}

/// The law of what was typed on each call, over definitions alone. The steps of editing of a record are what the events
/// of the course typed on its call: in order each key that is text and was taken, and each end of an idle time that ran
/// and was not dropped, with the values that the parameters then had. The terminal then had its call on a channel whose
/// present record this was, so they came while the call stood. All of a call were typed at one terminal (X.3 3.3, 3.4;
/// X.28 3.5).
pub fn typed_law()
    ensures { TypedLaw }
{}
