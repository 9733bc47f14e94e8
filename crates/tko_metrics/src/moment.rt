//! The wall clock.

use std::time::{Clock, SystemTime};

/// Milliseconds since 1970, or 0 where the clock cannot be read.
pub fn moment_now(clock: &impl Clock) -> u64 {
    let Ok(time) = SystemTime::now(clock) else {
        return 0;
    };
    match time.duration_since(SystemTime::UNIX_EPOCH) {
        Ok(since) => u64::try_from(since.as_millis()).unwrap_or(u64::MAX),
        Err(_) => 0,
    }
}
