//! A packet layer at the DCE of a line on which a call stands, by the octets of its packets.
use crate::packet::station::Station;
use link_timers::{Role, TimerId};
use packet_codec::{Numbering, PacketBuf};
use packet_layer::{Flow, LayerFault, LayerParams, Taken};
use std::alloc::Global;

fn station(alloc: Global, window: u8) -> Result<Station, LayerFault> {
    let params = LayerParams {
        channels: 4,
        flow: Flow {
            window,
            numbering: Numbering::Modulo8,
            size: 128,
        },
        standing: true,
    };
    Station::new(alloc, Role::Dce, params)
}

/// Whether these octets go to the link next.
fn says(station: &mut Station, octets: &[u8]) -> bool {
    let mut buf = PacketBuf::new();
    station.next_packet(&mut buf) && buf.as_slice() == octets
}

/// Whether a packet or an interrupt of these octets is taken.
fn takes(station: &mut Station, octets: &[u8]) -> bool {
    match station.take(1) {
        Some(Taken::Data(data)) => data.octets() == octets,
        Some(Taken::Interrupt(data)) => data.octets() == octets,
        None => false,
    }
}

/// A call comes in on channel 4, is accepted and is cleared.
fn has_calls(station: &mut Station) -> bool {
    station.on_packet(&[0x10, 0x04, 0x0b, 0x04, 0x20, 0x01, 0x00]);
    station.accept(4).is_ok()
        && says(station, &[0x10, 0x04, 0x0f])
        && station.clear(4).is_ok()
        && says(station, &[0x10, 0x04, 0x13, 0x00, 0x00])
}

/// A packet and an interrupt come, are taken, and are acknowledged and confirmed.
fn hears(station: &mut Station) -> bool {
    station.on_packet(b"\x10\x01\x00X");
    let taken = takes(station, b"X");
    station.release(1, 1);
    let acknowledged = says(station, &[0x10, 0x01, 0x21]);
    station.on_packet(&[0x10, 0x01, 0x23, 0x01]);
    let interrupted = takes(station, &[1]);
    station.confirm_interrupt(1);
    taken && acknowledged && interrupted && says(station, &[0x10, 0x01, 0x27])
}

/// A packet with D = 1 and an interrupt go.
fn sends(station: &mut Station) -> bool {
    station.send(1, b"HI", true).is_ok()
        && says(station, b"\x50\x01\x20HI")
        && station.interrupt(1, &[1]).is_ok()
        && says(station, &[0x10, 0x01, 0x23, 0x01])
}

/// The partner is stopped and goes on, and the call is reset.
fn asks(station: &mut Station) -> bool {
    station.stop(1).is_ok()
        && says(station, &[0x10, 0x01, 0x25])
        && station.go(1).is_ok()
        && says(station, &[0x10, 0x01, 0x21])
        && station.reset(1).is_ok()
        && station.layer().runs(TimerId::T12(1))
        && says(station, &[0x10, 0x01, 0x1b, 0x00, 0x00])
}

fn carries(alloc: Global) -> bool {
    match station(alloc, 2) {
        Ok(mut station) => {
            has_calls(&mut station)
                && hears(&mut station)
                && sends(&mut station)
                && asks(&mut station)
        }
        Err(_) => false,
    }
}

#[test]
fn layers_carry_calls(rt: HostRuntime) {
    assert!(rt; carries(rt.alloc()));
}

#[test]
fn windows_have_a_packet(rt: HostRuntime) {
    assert!(rt; station(rt.alloc(), 0).err() == Some(LayerFault::BadParams));
}
