//! How long a client may complete no request.
ghost use Rattle.std.specs.Prelude.{◌≡◌};
ghost use Rattle.tko_pace.specs.Silence.{is_over};

/// Whether the time of a client is over that completed no request since then. Moments and the limit
/// are milliseconds of one clock; a limit of 0 is none.
pub fn is_over(limit: u32, since: u64, now: u64) -> bool
    ensures { result ≡ is_over limit since now }
{
    0 < limit && u64::from(limit) <= now.saturating_sub(since)
}
