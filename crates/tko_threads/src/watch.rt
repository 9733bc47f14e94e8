//! When a round of probes is due while a client is served, and when the client's time is over.
ghost use Rattle.std.specs.Prelude.{◌≡◌, ◌≢◌, ◌-◌, None, Some};
ghost use Rattle.tko_threads.specs.Watching.{after_watch_turn, begun_watch, caught_up, resting, turn_at};

use crate::patience::IDLE;
use tko_pace::is_over;

/// What comes next, where a client's bytes are to be read.
#[derive(Clone, Copy, Debug, PartialEq, Eq)]
pub(crate) enum WatchNext {
    /// They are read.
    Read,
    /// First a round of probes is run.
    Idle,
    /// The client completed no request for too long.
    Over,
}

/// What a worker knows of the time of its client. Moments are milliseconds of one clock.
#[derive(Clone, Copy, Debug)]
pub(crate) struct Watch {
    /// How long the client may complete no request; 0 is no limit.
    limit: u32,
    /// How many requests the worker had begun to answer at the last look.
    requests: u64,
    /// Since when the client has completed no request, where rounds at idle turns do not count.
    since: u64,
    /// When the last round had ended.
    rounded: u64,
    /// Where a round is being run at an idle turn: how long the client had completed no request
    /// when it began.
    waited: Option<u64>,
}

impl Watch {
    /// Before the first client. The last round has just ended.
    pub(crate) fn new(now: u64) -> Watch
        ensures { result ≡ record {
          limit = 0;
          requests = 0;
          since = now;
          rounded = now;
          waited = None;
        } }
    {
        Watch {
            limit: 0,
            requests: 0,
            since: now,
            rounded: now,
            waited: None,
        }
    }

    /// A client begins, whose limit this is. When the last round ended is kept, so that clients
    /// that come and go put no round off.
    pub(crate) fn begin(&mut self, now: u64, requests: u64, limit: u32)
        ensures { self.new ≡ begun_watch limit now (caught_up self.old now requests) }
    {
        self.catch_up(now, requests);
        self.since = now;
        self.limit = limit;
    }

    /// What comes next at this moment, where the worker has begun to answer so many requests.
    pub(crate) fn look(&mut self, now: u64, requests: u64) -> WatchNext
        ensures turn { result ≡ turn_at (caught_up self.old now requests) now }
        ensures watch { self.new ≡ after_watch_turn result now (caught_up self.old now requests) }
        // A request gives the client all of its time again, and its round was the last one.
        ensures served { self.old.requests ≢ requests → result ≡ WatchNext.Read }
        // Between two idle turns stands a read.
        ensures reads { result ≡ WatchNext.Idle → self.old.waited ≡ None }
        ensures unlimited { self.old.limit ≡ 0 → result ≢ WatchNext.Over }
    {
        self.catch_up(now, requests);
        let turn = self.turn(now);
        if turn == WatchNext::Idle {
            self.rest(now);
        }
        turn
    }

    /// At this moment a round begins, at an idle turn.
    pub(crate) fn rest(&mut self, now: u64)
        ensures { self.new ≡ resting now self.old }
    {
        self.waited = Some(now.saturating_sub(self.since));
    }

    /// A round has ended that was run while there was no client.
    pub(crate) fn end_round(&mut self, now: u64)
        ensures { self.new ≡ record self.old { rounded = now; waited = None } }
    {
        self.rounded = now;
        self.waited = None;
    }

    /// Learns what was done since the last look: requests, each of which its round followed, or a
    /// round at an idle turn.
    fn catch_up(&mut self, now: u64, requests: u64)
        ensures { self.new ≡ caught_up self.old now requests }
    {
        if self.requests != requests {
            self.requests = requests;
            self.since = now;
            self.rounded = now;
        } else if let Some(waited) = self.waited {
            self.since = now.saturating_sub(waited);
            self.rounded = now;
        }
        self.waited = None;
    }

    fn turn(&self, now: u64) -> WatchNext
        ensures { result ≡ turn_at self.now now }
    {
        if is_over(self.limit, self.since, now) {
            return WatchNext::Over;
        }
        if now.saturating_sub(self.rounded) < u64::from(IDLE) {
            return WatchNext::Read;
        }
        WatchNext::Idle
    }
}
