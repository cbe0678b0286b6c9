//! What a call and its connection are at, and what becomes of them.
ghost use Rattle.std.specs.Prelude.{◌≡◌};
ghost use Rattle.bridge_ports.specs.Phases.{absent, attached, broken, call_given_up, connection_awaited, connection_closed, connection_flushed, far_ended, has_whole_end, no_terms, other_end, own_moved, own_reset, own_waited, rung, timed, whole_end};

/// How long what waits may take to be written out after a whole end of a call, in ticks.
pub(crate) const MOST_FLUSH: u16 = 200;

/// What becomes of a call that is reset.
#[derive(Clone, Copy)]
pub enum AtReset {
    /// It is cleared.
    ClearCall,
    /// It goes on, for services of records that can bear a gap.
    Continue,
}

/// What a bridge is set to. All times are in ticks.
#[derive(Clone, Copy)]
pub struct BridgeTerms {
    /// How long a connection may take to stand after a call came.
    pub wait: u16,
    /// How long the other way is quiet, after the peer ended its side, before the call is cleared.
    pub linger: u16,
    pub at_reset: AtReset,
}

/// Who is at the far end of a call.
#[derive(Clone, Copy)]
pub enum FarEnd {
    /// A host, whose empty message is the end of its side.
    Host,
    /// A PAD, whose clear is the end of its side.
    Pad,
}

/// What the call of a bridge is at.
#[derive(Clone, Copy)]
pub enum CallPhase {
    /// There is none.
    Idle,
    /// It came, and waits for a connection.
    Incoming,
    /// It came, and its connection stands: it is to be answered.
    ToAnswer,
    /// It came, and its connection could not be had: it is to be refused.
    ToRefuse,
    /// It is to be placed.
    ToPlace,
    /// It was placed.
    Placed,
    /// It stands.
    Standing,
    /// It is to be cleared.
    ToClear,
}

/// What the connection of a bridge is at.
#[derive(Clone, Copy)]
pub enum Connection {
    /// There is none.
    Absent,
    /// One is wanted, within so many ticks.
    Wanted(u16),
    /// One is wanted so, and the order to make it was given.
    Awaited(u16),
    /// It stands.
    Open,
    /// The call ended whole: what waits is written out, and the peer ends its side, within so many ticks.
    Flushing(u16),
    /// It is to be closed.
    Closing,
    /// It is to be closed, and the order was given.
    Closed,
}

/// The way from the peer into the call.
#[derive(Clone, Copy)]
pub enum OwnSide {
    /// The peer may send octets.
    Speaking,
    /// The peer sends no more: once its octets are said, an empty message is to be said.
    Ended,
    /// That was said, and is to be confirmed.
    EndSaid,
    /// It was confirmed, and since so many ticks nothing came the other way.
    EndConfirmed(u16),
}

/// The way from the call to the peer.
#[derive(Clone, Copy)]
pub enum FarSide {
    /// The far end may send octets.
    Coming,
    /// It sends no more: once what waits is written, the connection is to be ended for writing.
    EndTaken,
    /// The far end sends no more, and the order to end the connection for writing was given.
    Shut,
}

/// What a call and its connection are at.
#[derive(Clone, Copy)]
pub struct Phases {
    pub call: CallPhase,
    pub connection: Connection,
    pub own: OwnSide,
    pub far: FarSide,
    pub far_end: FarEnd,
    /// Whether the last packet that was taken had M = 1, so that the next one belongs to the same message.
    pub in_message: bool,
}

impl BridgeTerms {
    /// What a bridge is set to that has had no call yet.
    pub(crate) fn none() -> Self
        ensures { result ≡ no_terms }
    {
        BridgeTerms {
            wait: 0,
            linger: 0,
            at_reset: AtReset::ClearCall,
        }
    }
}

impl Phases {
    /// No call and no connection.
    pub(crate) fn absent() -> Self
        ensures { result ≡ absent }
    {
        Phases {
            call: CallPhase::Idle,
            connection: Connection::Absent,
            own: OwnSide::Speaking,
            far: FarSide::Coming,
            far_end: FarEnd::Host,
            in_message: false,
        }
    }

    /// A call came, and a connection is wanted within so many ticks.
    pub(crate) fn rung(far_end: FarEnd, wait: u16) -> Self
        ensures { result ≡ rung wait far_end }
    {
        Phases {
            call: CallPhase::Incoming,
            connection: Connection::Wanted(wait),
            far_end,
            ..Phases::absent()
        }
    }

    /// A connection came, and a call is to be placed for it.
    pub(crate) fn attached(far_end: FarEnd) -> Self
        ensures { result ≡ attached far_end }
    {
        Phases {
            call: CallPhase::ToPlace,
            connection: Connection::Open,
            far_end,
            ..Phases::absent()
        }
    }

    /// The connection cannot be used any more: it is closed, and the call is refused or cleared.
    pub(crate) fn break_off(&mut self)
        ensures { self.new ≡ broken self.old }
    {
        self.call = self.call.given_up();
        self.connection = self.connection.closing();
    }

    /// The call is over, and all that the far end said was taken: it is written out.
    pub(crate) fn end_whole(&mut self)
        ensures { self.new ≡ whole_end self.old }
    {
        self.call = CallPhase::Idle;
        self.connection = self.connection.flushing();
        self.far = self.far.ended();
    }

    /// The call is over otherwise: the connection is closed at once.
    pub(crate) fn end_otherwise(&mut self)
        ensures { self.new ≡ other_end self.old }
    {
        self.call = CallPhase::Idle;
        self.connection = self.connection.closing();
    }

    /// Whether a clear with this cause and diagnostic is a whole end of the call.
    pub(crate) fn has_whole_end(&self, cause: u8, diagnostic: u8) -> bool
        ensures { result ≡ has_whole_end cause diagnostic self.now }
    {
        let far_has_ended = matches!(self.far_end, FarEnd::Pad)
            || !matches!(self.far, FarSide::Coming);
        cause == 0 && diagnostic == 0 && matches!(self.call, CallPhase::Standing) && far_has_ended
    }

    /// Lets ticks pass, in which nothing waited to be written or something did.
    pub(crate) fn elapse(&mut self, ticks: u16, is_written: bool)
        ensures { self.new ≡ timed ticks is_written self.old }
    {
        match self.connection {
            Connection::Wanted(left) if left > ticks => {
                self.connection = Connection::Wanted(left - ticks);
            }
            Connection::Awaited(left) if left > ticks => {
                self.connection = Connection::Awaited(left - ticks);
            }
            Connection::Flushing(left) if left > ticks => {
                self.connection = Connection::Flushing(left - ticks);
            }
            Connection::Wanted(_) | Connection::Awaited(_) | Connection::Flushing(_) => {
                self.break_off();
            }
            Connection::Open => self.own = self.own.waited(ticks, is_written),
            Connection::Absent | Connection::Closing | Connection::Closed => {}
        }
    }
}

impl CallPhase {
    /// What becomes of a call whose connection is gone.
    pub(crate) fn given_up(self) -> Self
        ensures { result ≡ call_given_up self }
    {
        match self {
            CallPhase::Incoming | CallPhase::ToAnswer | CallPhase::ToRefuse => CallPhase::ToRefuse,
            CallPhase::Placed | CallPhase::Standing | CallPhase::ToClear => CallPhase::ToClear,
            CallPhase::Idle | CallPhase::ToPlace => CallPhase::Idle,
        }
    }
}

impl Connection {
    /// What becomes of a connection that is to be closed.
    pub(crate) fn closing(self) -> Self
        ensures { result ≡ connection_closed self }
    {
        match self {
            Connection::Absent | Connection::Wanted(_) => Connection::Absent,
            Connection::Closed => Connection::Closed,
            _ => Connection::Closing,
        }
    }

    /// What becomes of a connection once it is ordered.
    pub(crate) fn awaited(self) -> Self
        ensures { result ≡ connection_awaited self }
    {
        match self {
            Connection::Wanted(left) => Connection::Awaited(left),
            other => other,
        }
    }

    /// What becomes of a connection to which what waits is to be written, and no more.
    pub(crate) fn flushing(self) -> Self
        ensures { result ≡ connection_flushed self }
    {
        match self {
            Connection::Open => Connection::Flushing(MOST_FLUSH),
            Connection::Flushing(left) => Connection::Flushing(left),
            other => other.closing(),
        }
    }
}

impl OwnSide {
    /// Something came the other way.
    pub(crate) fn moved(self) -> Self
        ensures { result ≡ own_moved self }
    {
        match self {
            OwnSide::EndConfirmed(_) => OwnSide::EndConfirmed(0),
            other => other,
        }
    }

    /// The call was reset: the end is to be said again, unless it was confirmed.
    pub(crate) fn reset(self) -> Self
        ensures { result ≡ own_reset self }
    {
        match self {
            OwnSide::EndSaid => OwnSide::Ended,
            other => other,
        }
    }

    /// Ticks pass. As long as something waits to be written, it is not quiet.
    pub(crate) fn waited(self, ticks: u16, is_written: bool) -> Self
        ensures { result ≡ own_waited ticks is_written self }
    {
        match self {
            OwnSide::EndConfirmed(quiet) if is_written => {
                OwnSide::EndConfirmed(quiet.saturating_add(ticks))
            }
            other => other.moved(),
        }
    }
}

impl FarSide {
    /// The far end sends no more.
    pub(crate) fn ended(self) -> Self
        ensures { result ≡ far_ended self }
    {
        match self {
            FarSide::Coming | FarSide::EndTaken => FarSide::EndTaken,
            FarSide::Shut => FarSide::Shut,
        }
    }
}
