//! What a service prints when it begins.
use crate::sockets::{Entrance, Leads, Sockets};
use crate::words::CONTROL;
use service::PortMode;
use std::io;
use std::net::SocketAddr;

/// Prints where terminals, callers, lines and equipment come, what can be dialled, and how the service is asked and
/// stopped.
pub(crate) fn say_first(
    rt: &HostRuntime,
    sockets: &Sockets<'_>,
    numbers: Option<&str>,
) -> io::Result<()> {
    for entrance in &sockets.entrances {
        say_entrance(rt, entrance)?;
    }
    for socket in &sockets.datagrams {
        say_door(rt, "equipment  udp", socket.at)?;
    }
    for entrance in &sockets.entrances {
        let at = entrance.door.at();
        match entrance.leads {
            Leads::Control => say_control(rt, at, numbers)?,
            Leads::Web => println!(rt; "page       http://{at}/")?,
            _ => {}
        }
    }
    Ok(())
}

/// Prints where a door for terminals, callers or lines is.
fn say_entrance(rt: &HostRuntime, entrance: &Entrance<'_>) -> io::Result<()> {
    let at = entrance.door.at();
    match entrance.leads {
        Leads::Terminals(_, PortMode::Telnet, _) => say_door(rt, "terminals  telnet", at),
        Leads::Terminals(_, PortMode::Raw, _) => say_door(rt, "terminals  raw", at),
        Leads::Caller(_, _) => say_door(rt, "callers    tcp", at),
        Leads::Line(_, _) => say_door(rt, "lines      tcp", at),
        Leads::Equipment(_) => say_door(rt, "equipment  xot", at),
        Leads::Control | Leads::Web => Ok(()),
    }
}

fn say_door(rt: &HostRuntime, what: &str, at: SocketAddr) -> io::Result<()> {
    let (host, port) = (at.ip(), at.port());
    println!(rt; "{what} {host} {port}")
}

fn say_control(rt: &HostRuntime, at: SocketAddr, numbers: Option<&str>) -> io::Result<()> {
    if let Some(numbers) = numbers {
        println!(rt; "numbers    {numbers}")?;
    }
    let at = format!(in rt.alloc(); "{at}")?;
    if at.as_str() == CONTROL {
        println!(rt; "status     x25d status     stop  x25d stop")
    } else {
        println!(rt; "status     x25d status --control {at}     stop  x25d stop --control {at}")
    }
}
