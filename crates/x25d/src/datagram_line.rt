//! A line to equipment of another make whose frames go as datagrams of UDP, one each.
use crate::context::Context;
use crate::far_end::FarEnd;
use crate::log::Log;
use crate::serving::Running;
use crate::sockets::DatagramSocket;
use frame_codec::{FrameBuf, MAX_FRAME};
use std::alloc::{AllocError, Global};
use std::net::SocketAddr;

/// How many datagrams are sent or taken in one turn, at most.
const MOST_DATAGRAMS: usize = 64;

/// A line whose frames are datagrams.
#[derive(Drop)]
pub(crate) struct DatagramLine {
    far: FarEnd,
    /// Where datagrams go to, and from where alone they are taken.
    partner: SocketAddr,
    /// Room for a datagram that is longer than a frame.
    datagram: Vec<u8>,
}

impl DatagramLine {
    /// A line with this partner. `AllocError` comes for want of memory; no other call wants any.
    pub(crate) fn new(alloc: Global, far: FarEnd, partner: SocketAddr) -> Result<Self, AllocError> {
        Ok(DatagramLine {
            far,
            partner,
            datagram: vec![in alloc; 0; MAX_FRAME + 1]?,
        })
    }

    /// Sends and takes what is there, and says whether there was anything.
    pub(crate) fn turn(
        &mut self,
        context: Context<'_>,
        service: &mut Running,
        log: &mut Log,
        socket: &DatagramSocket,
    ) -> bool {
        let Context { rt, ticks, .. } = context;
        self.far.join(service);
        self.far.elapse(ticks);
        let took = self.far.take(service);
        let sent = self.send(socket);
        let came = self.receive(rt, log, socket);
        let gave = self.far.give(service);
        self.obey(rt, service, log);
        took || sent || came || gave
    }

    /// Sends the frames of the network, each as a datagram. One that the system does not take is lost.
    fn send(&mut self, socket: &DatagramSocket) -> bool {
        let mut frame = FrameBuf::new();
        for count in 0..MOST_DATAGRAMS {
            if !self.far.read(&mut frame) {
                return count > 0;
            }
            let _ = socket.socket.send_to(frame.as_slice(), self.partner);
        }
        true
    }

    /// Takes the datagrams of the partner, each as a frame. Those of others are dropped, and the log is told.
    fn receive(&mut self, rt: &HostRuntime, log: &mut Log, socket: &DatagramSocket) -> bool {
        for count in 0..MOST_DATAGRAMS {
            match socket.socket.recv_from(self.datagram.as_mut_slice()) {
                Ok((length, from)) if from == self.partner => {
                    if let Some(frame) = self.datagram.get(..length) {
                        self.far.send(frame);
                    }
                }
                Ok((_, from)) => log.refuse(rt, from.ip(), socket.at),
                Err(_) => return count > 0,
            }
        }
        true
    }

    fn obey(&mut self, rt: &HostRuntime, service: &mut Running, log: &mut Log) {
        match self.far.obey(rt, service, log) {
            Some(true) => log.line_up(rt, self.far.number),
            Some(false) => log.line_down(rt, self.far.number),
            None => {}
        }
    }
}
