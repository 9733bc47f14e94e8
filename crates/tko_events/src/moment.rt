//! Moments of the wall clock as text.

use jiff::Timestamp;
use std::fmt;

/// A moment as UTC time with milliseconds, such as `2026-11-23T12:41:41.007Z`.
#[derive(Clone, Copy)]
pub(crate) struct Utc(pub(crate) u64);

impl fmt::Display for Utc {
    fn fmt<W: fmt::Write>(&self, f: &mut fmt::Formatter<W>) -> fmt::Result {
        let millis = i64::try_from(self.0).unwrap_or(0);
        match Timestamp::from_millisecond(millis) {
            Ok(timestamp) => write!(f, "{timestamp:.3}"),
            Err(_) => f.write_str("-"),
        }
    }
}
