//! The legs of a switch's calls are the present records of its lines' books.
ghost use Rattle.switched_call_laws.specs.SwitchRecords.SwitchRecordLaws.{MadeLaw, ActsLaw, WritesLaw, PartnerLaw, RestLaw, RestsLaw};
ghost use Rattle.switched_call_laws.specs.SwitchRecords.SwitchRecordLaws.{JoinsLaw};
ghost use Rattle.switched_call_laws.specs.SwitchRecords.SwitchRecordLaws.{FrameLaw, TimerLaw, RelinkLaw, ElapseLaw, RestartLaw};
ghost use Rattle.switched_call_laws.specs.SwitchRecords.Kept.{StepsLaw, FrameKeptLaw, TimerKeptLaw, RelinkKeptLaw, ElapseKeptLaw};
ghost use Rattle.switched_call_laws.specs.SwitchRecords.Kept.{RestartKeptLaw, OutLaw, LeadsLaw, LegsLaw};
ghost use Rattle.switched_call_laws.specs.SwitchRecords.Opened.{ComesLaw, PlacesLaw, HeadLaw, HeadsLaw};
ghost use Rattle.switched_call_laws.specs.SwitchRecords.Tied.{TiedLaw};

/// What a switch does at its end of a line is written in the line's book, so that the present record of each channel
/// has the epochs of its leg, reset by reset: the packets and interrupts sent and taken, and how many of them were
/// covered and released. What is written at the other end changes none of these records (X.25 4).
pub fn leg_record_law()
    ensures made { MadeLaw }
    ensures acts { ActsLaw }
    ensures writes { WritesLaw }

    // What is written at the other end.
    ensures partner { PartnerLaw }

    // A record that is of no present call stays as it is.
    ensures rest { RestLaw }
    ensures rests { RestsLaw }

    // A new record has the addresses of its call, and no record changes them.
    ensures comes { ComesLaw }
    ensures places { PlacesLaw }
    ensures head { HeadLaw }
    ensures heads { HeadsLaw }
{}

/// The two records of a join have, epoch by epoch, what the switch handed on. What it sent on one leg matches what it
/// took on the other. By the same matching no more is confirmed on the leg where packets are taken than on the one
/// where they are sent (X.25 4.3.3, 4.4.3).
pub fn join_record_law()
    ensures { JoinsLaw }
{}

/// The law of the joins and the books over whole events of a switch, whatever octets come on its lines. Some acts lead
/// to the switch after the event. All its joins hold then, these acts write the books, and the present records of the
/// books are the legs.
pub fn switch_record_law()
    ensures frames { FrameLaw }
    ensures timers { TimerLaw }
    ensures relinks { RelinkLaw }
    ensures elapses { ElapseLaw }
    ensures restarts { RestartLaw }
{}

/// The law of each line of a switch, in either role, whatever its partners are: what is kept of a line and of its book
/// is kept over each event of the switch, with the book that the acts of the event write. The book of a line on which
/// the switch is the DTE is seen with its sides exchanged. The same acts move the legs.
pub fn kept_lines_law()
    ensures frames { FrameKeptLaw }
    ensures timers { TimerKeptLaw }
    ensures relinks { RelinkKeptLaw }
    ensures elapses { ElapseKeptLaw }
    ensures restarts { RestartKeptLaw }
    ensures out { OutLaw }

    // Each event is a list of steps at the ends of the lines, and these are acts of their packet layers.
    ensures steps { StepsLaw }
    ensures leads { LeadsLaw }
    ensures legs { LegsLaw }
{}

/// The law of the joins and that of the lines, of the same epochs: by one list of acts, those that an event is, each
/// line of a switch is kept with its book, all joins hold of the legs that these acts move, and the present records of
/// the books are these legs. So it is from the making of the switch on, and after each of its events, restarts among
/// them; and the present records of the two legs of a join have what the switch handed on.
pub fn tied_law()
    ensures { TiedLaw }
{}
