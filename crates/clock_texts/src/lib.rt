//! Times of a clock as texts.
#![tactic(auto)]

use jiff::Timestamp;
use jiff::tz::TimeZone;
use std::alloc::{AllocError, Global};

/// The date and the time of day, in UTC, so many seconds after the beginning of 1970: `2026-11-29 08:00:12 UTC`. A time
/// after the year 9999 is `later`.
pub fn utc_text(alloc: Global, seconds: i64) -> Result<String, AllocError> {
    let Ok(instant) = Timestamp::from_second(seconds) else {
        return String::from_str(alloc, "later");
    };
    match instant
        .to_zoned(TimeZone::UTC)
        .strftime(alloc, "%Y-%m-%d %H:%M:%S UTC")
    {
        Ok(text) => Ok(text),
        Err(_) => String::from_str(alloc, "later"),
    }
}
