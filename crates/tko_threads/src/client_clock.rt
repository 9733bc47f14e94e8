//! The moments of a client, without the pauses of the process.
ghost use Rattle.std.specs.Prelude.{◌≡◌, ℕ};
ghost use Rattle.tko_pace.specs.Running.{ran_to};
ghost use Rattle.tko_threads.specs.Watching.{longest_wait};

use crate::patience::IDLE;
use crate::request_times::RequestTimes;
use tko_io::{Clock, IoRuntime};
use tko_pace::RunningTime;

/// For how long the process ran, as a worker's clock shows it that reads it after each wait for its
/// client. A pause counts as long as one such wait; so does what else takes long, as the answer to
/// a request, in which no time passes for a client.
#[derive(Drop)]
pub(crate) struct ClientClock<'r, M> {
    clock: M,
    running: RunningTime,
    /// What is told what the clock shows.
    times: &'r RequestTimes,
}

impl<'r, M: Clock> ClientClock<'r, M> {
    pub(crate) fn new(clock: M, times: &'r RequestTimes) -> ClientClock<'r, M> {
        ClientClock {
            clock,
            running: RunningTime::new(u64::from(4 * IDLE)),
            times,
        }
    }

    /// For how many milliseconds the process ran by now.
    pub(crate) fn moment<R: IoRuntime>(&mut self, rt: &R) -> u64
        ensures read { (shown : ℕ) × M.reads self.old.clock shown self.new.clock
            × (self.new.running ≡ ran_to shown longest_wait self.old.running) }
        ensures moment { result ≡ self.new.running.ran }
    {
        let shown = self.clock.next(rt);
        if let Some(now) = self.clock.instant() {
            self.times.look(now);
        }
        self.running.read(shown, u64::from(IDLE));
        self.running.moment()
    }
}
