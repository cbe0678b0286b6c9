//! Octets between the sockets of ports and the service: nothing is read that has no place there.
use crate::places::Place;
use crate::serving::Running;
use tcp_sockets::{Connection, Heard, Written};

/// How often a connection is read or written in one turn.
const MOST_CALLS: usize = 16;

/// Hands over what a connection has, as long as the service takes it.
pub(crate) fn read_port(service: &mut Running, port: usize, place: &mut Place) {
    for _ in 0..MOST_CALLS {
        hand_over(service, port, &mut place.connection);
        if !service.wants(port) {
            tell_gone(service, port, place);
            return;
        }
        match place.connection.read() {
            Heard::Octets => {}
            Heard::Nothing => return,
            Heard::End => {
                service.ended(port);
                return;
            }
            Heard::Loss => {
                service.lost(port);
                return;
            }
        }
    }
}

fn hand_over(service: &mut Running, port: usize, connection: &mut Connection) {
    if !connection.unread().is_empty() {
        let count = service.octets(port, connection.unread());
        connection.taken(count);
    }
}

/// Tells of a peer that is gone while the service takes nothing: the connection is broken, or its client left a terminal.
fn tell_gone(service: &mut Running, port: usize, place: &Place) {
    if place.connection.is_broken() {
        service.lost(port);
    } else if place.is_terminal() && place.connection.has_ended() {
        service.ended(port);
    }
}

/// Writes what waits for a connection, as long as there is room, and says whether anything was written: then the service
/// may have room for more.
pub(crate) fn write_port(service: &mut Running, port: usize, place: &mut Place) -> bool {
    for calls in 0..MOST_CALLS {
        if service.waiting(port).is_empty() {
            place.finish();
            return calls > 0;
        }
        match place.connection.write(service.waiting(port)) {
            Written::Octets(count) => service.written(port, count),
            Written::Nothing => return calls > 0,
            Written::Loss => {
                service.lost(port);
                return calls > 0;
            }
        }
    }
    true
}

/// Whether there is more to do for a connection at once.
pub(crate) fn is_busy(service: &Running, port: usize, connection: &Connection) -> bool {
    connection.may_read() && service.wants(port)
        || connection.may_write() && !service.waiting(port).is_empty()
}
