//! Connections to services, which the core of the service orders.
use crate::serving::Running;
use crate::shell::Shell;
use mio::net::TcpStream;
use std::io;
use std::net::SocketAddr;
use tcp_sockets::Made;

/// Why a service is not connected to if there are as many connections as there may be.
const NO_PLACE: &str = "all connections are taken";

impl Shell<'_> {
    /// Asks for a connection to a service, which a port is to have.
    pub(crate) fn connect(
        &mut self,
        rt: &HostRuntime,
        service: &mut Running,
        port: usize,
        number: usize,
    ) {
        let Some(at) = self.services.get(number).map(|connect| connect.at) else {
            service.lost(port);
            return;
        };
        self.log.connect(rt, port, at);
        if let Err(why) = self.ask(rt, port, at) {
            self.log.failed(rt, port, at, why);
            service.lost(port);
        }
    }

    fn ask(&mut self, rt: &HostRuntime, port: usize, at: SocketAddr) -> io::Result<()> {
        if !self.has_place() {
            return Err(io::Error::other(NO_PLACE));
        }
        let mut stream = TcpStream::connect(rt, at)?;
        self.sockets.watch(&mut stream, port)?;
        stream.set_nodelay(true)?;
        if let Some(place) = self.places.get_mut(port) {
            place.ask(stream, at);
        }
        Ok(())
    }

    /// Tells the service what became of the connections that were asked for.
    pub(crate) fn tell_made(&mut self, rt: &HostRuntime, service: &mut Running) {
        for port in 0..self.places.len() {
            match self.made(port) {
                Made::NotYet => {}
                Made::Stands => service.opened(port),
                Made::Failed(why) => {
                    self.tell_failed(rt, port, why);
                    service.lost(port);
                }
            }
        }
    }

    /// What became of the connection that was asked for at a port.
    fn made(&mut self, port: usize) -> Made {
        match self.places.get_mut(port) {
            Some(place) => place.connection.made(),
            None => Made::NotYet,
        }
    }

    /// Forgets a connection that cannot be had, and tells the log.
    fn tell_failed(&mut self, rt: &HostRuntime, port: usize, why: io::Error) {
        if let Some(place) = self.places.get_mut(port)
            && let Some(peer) = place.close()
        {
            self.log.failed(rt, port, peer.at(), why);
        }
    }
}
