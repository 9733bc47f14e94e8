//! The time of an exchange.
ghost use Rattle.std.specs.Prelude.{◌≡◌, ◌*◌, ◌<◌, MatchOption, Option, max, min};
ghost use Rattle.std.specs.declared.time.Instant.{Instant};
ghost use Rattle.std.specs.Duration.{as_nanos};
ghost use Rattle.tko_tcp.specs.ExchangeTimes.{IsLater, IsTimeBegun, came_in, left_of, looked_at};
ghost use Rattle.tko_tcp.specs.ExchangeTimes.{millis_in, millis_passed, quarter_of, share_of};
ghost use Rattle.tko_tcp.specs.ExchangeTimes.{turn_left};
ghost use Rattle.tko_tcp.specs.ProbeTimes.{nanos_in_milli};

use crate::progress::Progress;
use std::time::{Clock, Duration, Instant};
use tko_pace::RunningTime;

/// How long an exchange has run, and how long it may, in milliseconds: of the time in which the
/// process ran. A call of it that may wait waits for a quarter of the limit at most, and then the
/// clock is read. So a pause of the process is known as one, also where the process had waited.
#[derive(Clone, Copy)]
pub(crate) struct ExchangeTime {
    /// When it began; None if the clock could not be read.
    begun: Option<Instant>,
    pub(crate) limit: Duration,
    /// How much time the clock showed since.
    shown: u64,
    running: RunningTime,
    progress: Progress,
}

impl ExchangeTime {
    /// The time of an exchange that begins now.
    pub(crate) fn begin<C: Clock>(clock: &C, limit: Duration) -> ExchangeTime
        ensures { IsTimeBegun limit result }
    {
        ExchangeTime {
            begun: Instant::now(clock).ok(),
            limit,
            shown: 0,
            running: RunningTime::new(millis_in(limit)),
            progress: Progress::begin(0),
        }
    }

    /// When it began, if the clock could be read.
    pub(crate) fn begun(&self) -> Option<Instant> {
        self.begun
    }

    /// Reads the clock, after a call that waited for a quarter of the limit at most. If it cannot
    /// be read, so long passed.
    pub(crate) fn look<C: Clock>(&mut self, clock: &C)
        ensures looked { (now : Option Instant) × (self.new ≡ looked_at now self.old) }
        ensures later { IsLater self.old self.new }
    {
        self.look_at(Instant::now(clock).ok());
    }

    fn look_at(&mut self, now: Option<Instant>)
        ensures looked { self.new ≡ looked_at now self.old }
        ensures later { IsLater self.old self.new }
    {
        let before = self.running.moment();
        let quarter = quarter_of(self.running.limit());
        self.shown = match millis_passed(self.begun, now) {
            Some(passed) => passed,
            None => self.shown.saturating_add(quarter),
        };
        self.running.read(self.shown, quarter);
        let moment = self.running.moment();
        prove!(before <= moment);
        self.progress.look(moment);
    }

    /// So many bytes of the response came.
    pub(crate) fn come(&mut self, count: usize)
        ensures { self.new ≡ came_in count self.old }
    {
        self.progress.come(count);
    }

    /// How many milliseconds are left, by the clock as it was read last.
    fn left(&self) -> u64
        ensures { result ≡ left_of self.now }
    {
        let passed = self.running.moment().saturating_sub(self.progress.since);
        self.running.limit().saturating_sub(passed)
    }

    /// How long a call that begins now may wait; None if no time is left.
    pub(crate) fn turn(&self) -> Option<Duration>
        ensures { MatchOption result (left_of self.now ≡ 0)
            (λ turn. (0 < left_of self.now)
            × (as_nanos turn ≡ turn_left self.now * nanos_in_milli)) }
    {
        let left = self.left();
        if left == 0 {
            return None;
        }
        Some(Duration::from_millis(self.wait(left)))
    }

    /// How long a call waits at most.
    pub(crate) fn quarter(&self) -> Duration
        ensures { as_nanos result ≡ quarter_of self.now.running.limit * nanos_in_milli }
    {
        Duration::from_millis(quarter_of(self.running.limit()))
    }

    /// For how many milliseconds a call waits where it may wait for so many.
    pub(crate) fn wait(&self, left: u64) -> u64
        ensures { result ≡ min left (quarter_of self.now.running.limit) }
    {
        left.min(quarter_of(self.running.limit()))
    }

    /// How many milliseconds one of `parts` equal parts of the time that is left is, but at least
    /// one; None if none is left.
    pub(crate) fn share(&self, parts: u64) -> Option<u64>
        ensures { MatchOption result (left_of self.now ≡ 0)
            (λ share. share ≡ max (share_of (left_of self.now) parts) 1) }
    {
        let left = self.left();
        if left == 0 {
            return None;
        }
        Some((left / parts.max(1)).max(1))
    }

    /// How many milliseconds the process ran in it.
    pub(crate) fn moment(&self) -> u64
        ensures { result ≡ self.now.running.ran }
    {
        self.running.moment()
    }
}

/// How long one call waits at most, under a limit.
fn quarter_of(limit: u64) -> u64
    ensures { result ≡ quarter_of limit }
{
    (limit / 4).max(1)
}

fn millis_passed(from: Option<Instant>, to: Option<Instant>) -> Option<u64>
    ensures { result ≡ millis_passed from to }
{
    match (from, to) {
        (Some(from), Some(to)) => Some(millis_in(to.duration_since(from))),
        _ => None,
    }
}

/// How many whole milliseconds a time has; the greatest number means that many or more.
fn millis_in(time: Duration) -> u64
    ensures { result ≡ millis_in (as_nanos time) }
{
    u64::try_from(time.as_millis()).unwrap_or(u64::MAX)
}
