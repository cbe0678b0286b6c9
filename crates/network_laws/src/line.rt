//! One line of a network.
ghost use Rattle.network_laws.specs.LineLaw.{MadeLaw, EventLaw, LossLaw, TimeLaw, BookLaw, TypedLaw};
ghost use Rattle.network_laws.specs.LineCourse.{MadeCourse, EventCourse, LossCourse, TimeCourse, SentCourse};

use frame_lines::Line;

/// The law of one line of a network with the two nodes at its ends, over definitions alone. What holds of the line
/// holds from the making on, whatever happens at either node and on the line, refused or not. If it holds, what one end
/// of each call took matches what the other one sent, and a PAD's calls carry what its terminal typed (X.25 2.4, 3, 4;
/// X.3).
pub fn one_line_law<L: Line>()
    ensures made { MadeLaw L.service }
    ensures event { EventLaw L.service }
    ensures loss { LossLaw L.service }
    ensures time { TimeLaw L.service }
    ensures book { BookLaw L.service }
    ensures typed { TypedLaw L.service }
{}

/// The law of the course of events that leads to a PAD on a line, over definitions alone. It begins when the line is
/// made. An event at the PAD, with the octets of a frame as they arrive, makes the course go on by this event. An event
/// at the other end makes it go on by what is written there. Time goes on, and a loss is no event of the course. Each
/// record of the PAD has sent what was typed, and of itself what its occasions in this course ask for (X.3; X.28 3.3;
/// X.29 4.4).
pub fn line_course_law<L: Line>()
    ensures made { MadeCourse }
    ensures event { EventCourse L.service }
    ensures loss { LossCourse }
    ensures time { TimeCourse }
    ensures sent { SentCourse }
{}
