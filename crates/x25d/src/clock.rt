//! The clock of the machine.
use std::io;
use std::time::{Instant, SystemTime, UNIX_EPOCH};

/// A tick of the network, in thousandths of a second.
pub(crate) const TICK_MILLIS: u32 = 50;

/// The most ticks that the network is given at once.
const MOST_TICKS: u64 = 65_535;

/// The ticks since the start.
#[derive(Drop)]
pub(crate) struct Clock {
    start: Instant,
    given: u64,
}

impl Clock {
    pub(crate) fn new(rt: &HostRuntime) -> io::Result<Self> {
        Ok(Clock {
            start: Instant::now(rt)?,
            given: 0,
        })
    }

    /// The ticks since the last call. After a pause of the machine they come in parts.
    pub(crate) fn ticks(&mut self, rt: &HostRuntime) -> io::Result<u16> {
        let passed = self.passed_ticks(rt)?;
        let ticks = passed.saturating_sub(self.given).min(MOST_TICKS);
        self.given = self.given.saturating_add(ticks);
        Ok(u16::try_from(ticks).unwrap_or(u16::MAX))
    }

    fn passed_ticks(&self, rt: &HostRuntime) -> io::Result<u64> {
        let passed = self.start.elapsed(rt)?;
        let parts = u64::from(passed.subsec_millis() / TICK_MILLIS);
        Ok(passed.as_secs().saturating_mul(20).saturating_add(parts))
    }

    /// The seconds since the start.
    pub(crate) fn seconds(&self) -> u64 {
        self.given / 20
    }
}

/// The seconds since the beginning of 1970.
pub(crate) fn seconds_since_1970(rt: &HostRuntime) -> io::Result<i64> {
    match SystemTime::now(rt)?.duration_since(UNIX_EPOCH) {
        Ok(passed) => Ok(i64::try_from(passed.as_secs()).unwrap_or(i64::MAX)),
        Err(_) => Ok(0),
    }
}

/// The microseconds since the beginning of 1970: another number at each start.
pub(crate) fn micros_since_1970(rt: &HostRuntime) -> io::Result<u64> {
    match SystemTime::now(rt)?.duration_since(UNIX_EPOCH) {
        Ok(passed) => Ok(
            passed
                .as_secs()
                .saturating_mul(1_000_000)
                .saturating_add(u64::from(passed.subsec_micros())),
        ),
        Err(_) => Ok(0),
    }
}
