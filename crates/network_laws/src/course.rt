//! The courses of the PADs of a network.
ghost use Rattle.network_laws.specs.Courses.{MadeCourse, OwnCourse, OtherCourse, SwitchCourse, LossCourse};
ghost use Rattle.network_laws.specs.Courses.{TimeCourse, SentCourse, TypedCourse};

use frame_lines::Line;

/// The law of the courses of the PADs of a network, with switches or without, over definitions alone. The course of a
/// PAD is that of the network's own events: it begins with none when the network is made. An event at the PAD makes it
/// go on by this event, with the octets of a frame as they arrive, and time by the ticks that pass. An event at another
/// node, at a switch or on a line leaves it as it is. Each record of the PAD has sent what was typed, and of itself what
/// its occasions in this course ask for. The steps of a record are the keys and the ends of idle times that this course
/// has at one terminal while the call stood: each that is text and was taken, and no other (X.3; X.28 3.3; X.29 4.4).
pub fn pad_course_law<L: Line>()
    ensures made { MadeCourse L.service }
    ensures own { OwnCourse L.service }
    ensures other { OtherCourse L.service }
    ensures switch { SwitchCourse L.service }
    ensures loss { LossCourse L.service }
    ensures time { TimeCourse }
    ensures sent { SentCourse }
    ensures typed { TypedCourse }
{}
