//! How the time for connecting is divided among the addresses of a server.
ghost use Rattle.std.specs.Prelude.{◌≡◌, ◌+◌, ◌-◌};
ghost use Rattle.tko_tcp.specs.ExchangeTimes.{share_of};

/// Until when a connection may be tried at an address that begins at `now`, where all is over at
/// `due` and so many addresses are left, this one among them: each of them has an equal part of
/// what is left. Moments are in milliseconds.
pub fn share_until(now: u64, due: u64, left: u64) -> u64
    ensures { result ≡ now + share_of (due - now) left }
{
    now.saturating_add(due.saturating_sub(now) / left.max(1))
}
