//! The far end of a line to equipment of another make. The network has it as it has the end in another process.
use crate::log::Log;
use crate::serving::Running;
use frame_codec::FrameBuf;
use remote_lines::{LineOrder, Reading, RemoteLine};

/// How many orders are done in one turn, at most.
const MOST_ORDERS: usize = 8;

/// How often octets move in one turn, at most.
const MOST_MOVES: usize = 16;

/// How much is read in one turn, at most.
const MOST_READ: usize = 256;

/// The far end of a line. Octets go between the two ends as they go over a connection between two processes.
#[derive(Drop)]
pub(crate) struct FarEnd {
    /// The place of the line among those whose other ends are elsewhere.
    line: usize,
    /// The number of the line in the network's file.
    pub(crate) number: u16,
    pub(crate) remote: RemoteLine,
    /// Whether the two ends are joined.
    is_joined: bool,
}

impl FarEnd {
    /// The far end of the line of a place, not joined yet.
    pub(crate) fn new(line: usize, number: u16, remote: RemoteLine) -> Self {
        FarEnd {
            line,
            number,
            remote,
            is_joined: false,
        }
    }

    /// Joins the two ends, if they are not.
    pub(crate) fn join(&mut self, service: &mut Running) {
        if !self.is_joined {
            service.net_mut().line_made(self.line);
            self.remote.connected();
            self.is_joined = true;
        }
    }

    /// Lets ticks pass.
    pub(crate) fn elapse(&mut self, ticks: u16) {
        if ticks > 0 {
            self.remote.elapse(ticks);
        }
    }

    /// Takes what the network has for this end, and says whether that was anything.
    pub(crate) fn take(&mut self, service: &mut Running) -> bool {
        for moves in 0..MOST_MOVES {
            let count = self.remote.octets(service.net().line_waiting(self.line));
            if count == 0 {
                return moves > 0;
            }
            service.net_mut().line_written(self.line, count);
        }
        true
    }

    /// Reads the next frame for the equipment, if there is one.
    pub(crate) fn read(&mut self, frame: &mut FrameBuf) -> bool {
        for _ in 0..MOST_READ {
            match self.remote.read(frame) {
                Reading::Frame => return true,
                Reading::Nothing => return false,
                Reading::OfLine => self.start(),
            }
        }
        false
    }

    /// The equipment is there from the start: the line opens once the network lets it.
    fn start(&mut self) {
        if self.remote.may_start() {
            self.remote.start();
        }
    }

    /// Sends a frame of the equipment. It is lost if the line is not open or has no room.
    pub(crate) fn send(&mut self, frame: &[u8]) {
        let _ = self.remote.send(frame);
    }

    /// Gives the network what this end has for it, and says whether that was anything.
    pub(crate) fn give(&mut self, service: &mut Running) -> bool {
        for moves in 0..MOST_MOVES {
            let count = service
                .net_mut()
                .line_came(self.line, self.remote.waiting());
            if count == 0 {
                return moves > 0;
            }
            self.remote.written(count);
        }
        true
    }

    /// Does what the two ends order. An end that closes the line parts them, until the next turn. The answer is whether
    /// the line has opened or closed since it was told.
    pub(crate) fn obey(
        &mut self,
        rt: &HostRuntime,
        service: &mut Running,
        log: &mut Log,
    ) -> Option<bool> {
        let mut told = None;
        for _ in 0..MOST_ORDERS {
            match service.net_mut().line_order(self.line) {
                Some(LineOrder::Close(ending)) => {
                    log.line_closed(rt, self.number, ending);
                    self.part(service);
                }
                Some(LineOrder::TellOpen) => told = Some(true),
                Some(LineOrder::TellClosed) => told = Some(false),
                None => break,
            }
        }
        for _ in 0..MOST_ORDERS {
            match self.remote.next_order() {
                Some(LineOrder::Close(_)) => self.part(service),
                Some(LineOrder::TellOpen | LineOrder::TellClosed) => {}
                None => break,
            }
        }
        told
    }

    /// Parts the two ends: what is on the way between them is lost.
    fn part(&mut self, service: &mut Running) {
        service.net_mut().line_lost(self.line);
        self.remote.lost();
        self.is_joined = false;
    }
}
