//! Timers by their ticks.
use link_timers::{TimerId, Timers};

fn started() -> Timers {
    let mut timers = Timers::new();
    timers.start(TimerId::T1, 3);
    timers.start(TimerId::T13(4), 2);
    timers
}

/// Whether two ticks make timer 13 of channel 4 due, and it fires once.
fn fires_once(timers: &mut Timers) -> bool {
    timers.tick(2).as_slice() == [TimerId::T13(4)].as_slice()
        && timers.fire(TimerId::T13(4))
        && !timers.fire(TimerId::T13(4))
}

/// Whether timer 1 is due after one tick more, and is not once it is stopped.
fn is_stopped(timers: &mut Timers) -> bool {
    let due = timers.tick(1).as_slice() == [TimerId::T1].as_slice()
        && timers.is_running(TimerId::T1);
    timers.stop(TimerId::T1);
    due && !timers.is_running(TimerId::T1) && !timers.fire(TimerId::T1) && timers.tick(1).is_empty()
}

#[test]
fn ticks_and_fires(rt: HostRuntime) {
    let mut timers = started();
    assert!(rt; fires_once(&mut timers) && is_stopped(&mut timers));
}
