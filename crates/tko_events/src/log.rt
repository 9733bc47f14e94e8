//! The end of the log that takes events.

use crate::event::{LogEvent, What};
use crate::lacks::SaidLacks;
use crate::reader::LogReader;
use crate::said_counts::SaidCounts;
use crossbeam_channel::{Sender, TrySendError, bounded};
use std::alloc::{AllocError, Global};
use std::net::SocketAddr;
use std::sync::atomic::{AtomicU64, Ordering};
use std::sync::{Arc, Wait};
use std::time::Clock;
use tko_io::IoRuntime;
use tko_metrics::{Meter, Refusal, moment_now};
use tko_model::MAX_SERVERS;
use tko_tcp::{Lack, LookUpEnd, LookUpObserver};

/// How many events wait for the reader at most; more are counted and lost.
const MAX_PENDING: usize = 4096;

/// How often a send is tried: beside another thread's send a channel with room may refuse one.
const EVENT_SEND_TRIES: u32 = 16;

/// What all ends of a log share.
#[derive(Drop)]
pub(crate) struct SharedLog {
    pub(crate) sender: Sender<LogEvent>,
    pub(crate) lost: AtomicU64,
    pub(crate) sessions: AtomicU64,
    pub(crate) faults: AtomicU64,
    pub(crate) ended: AtomicU64,
    said: SaidLacks,
    /// Of each server, the requests that timed out without a mark.
    slow: SaidCounts,
    /// Of each reason, what was refused.
    refused: SaidCounts,
}

/// Takes events from any thread. It never waits for a reader: where no room is left, an event is
/// lost and counted. A log that is off takes nothing. With it goes the meter of the same server.
#[derive(Drop)]
pub struct Log {
    shared: Option<Arc<SharedLog, Global>>,
    meter: Meter,
}

/// A log and its reader.
pub fn open(alloc: Global) -> Result<(Log, LogReader), AllocError> {
    let (sender, receiver) = bounded(alloc, MAX_PENDING)?;
    let shared = Arc::new(
        alloc,
        SharedLog {
            sender,
            lost: AtomicU64::new(0),
            sessions: AtomicU64::new(0),
            faults: AtomicU64::new(0),
            ended: AtomicU64::new(0),
            said: SaidLacks::new(),
            slow: SaidCounts::new(alloc, MAX_SERVERS as usize)?,
            refused: SaidCounts::new(alloc, Refusal::ALL.len())?,
        },
    )?;
    let reader = LogReader {
        receiver,
        shared: Arc::try_clone(&shared)?,
    };
    Ok((
        Log {
            shared: Some(shared),
            meter: Meter::off(),
        },
        reader,
    ))
}

impl Log {
    /// A log that takes nothing.
    pub fn off() -> Log {
        Log::metered(Meter::off())
    }

    /// A log that takes nothing, beside this meter.
    pub fn metered(meter: Meter) -> Log {
        let shared = None;
        Log { shared, meter }
    }

    /// This log beside this meter.
    pub fn with_meter(self, meter: Meter) -> Log {
        let Log { shared, .. } = self;
        Log { shared, meter }
    }

    /// The meter beside it.
    pub fn meter(&self) -> &Meter {
        &self.meter
    }

    /// Whether it takes events.
    pub(crate) fn is_on(&self) -> bool {
        self.shared.is_some()
    }

    /// Another end of this log, or without one a log that takes nothing.
    pub fn another(log: Option<&Log>) -> Result<Log, AllocError> {
        let Some(log) = log else {
            return Ok(Log::off());
        };
        let shared = match &log.shared {
            Some(shared) => Some(Arc::try_clone(shared)?),
            None => None,
        };
        let meter = log.meter.another()?;
        Ok(Log { shared, meter })
    }

    /// Tells what happens at this moment.
    pub fn tell<R: Wait + Clock>(&self, rt: &R, what: What) {
        if self.is_on() {
            let moment = Some(moment_now(rt));
            self.send(rt, LogEvent { moment, what });
        }
    }

    /// Tells that a connection to a server could not be made for what the proxy itself lacked, at
    /// most once in ten seconds for each lack, whichever thread tells it.
    pub fn tell_lack<R: Wait + Clock>(&self, rt: &R, server: usize, lack: Lack) {
        let Some(shared) = &self.shared else {
            return;
        };
        let moment = moment_now(rt);
        if shared.said.say(lack, moment) {
            self.send(
                rt,
                LogEvent {
                    moment: Some(moment),
                    what: What::Lacking { server, lack },
                },
            );
        }
    }

    /// Tells that a request to a server timed out and that the server stays in use, at most once in
    /// ten seconds for each server, with how many did since.
    pub(crate) fn tell_slow<R: Wait + Clock>(&self, rt: &R, server: usize) {
        let Some(shared) = &self.shared else {
            return;
        };
        let moment = moment_now(rt);
        if let Some(count) = shared.slow.count(server, moment) {
            self.send(
                rt,
                LogEvent {
                    moment: Some(moment),
                    what: What::Slow { server, count },
                },
            );
        }
    }

    /// Tells that what the client at this address sent was refused, at most once in ten seconds for
    /// each reason, with how often that was since.
    pub fn tell_refused<R: Wait + Clock>(&self, rt: &R, why: Refusal, client: Option<SocketAddr>) {
        let Some(shared) = &self.shared else {
            return;
        };
        let moment = moment_now(rt);
        if let Some(count) = shared.refused.count(why.place(), moment) {
            let what = What::Refused { why, count, client };
            let moment = Some(moment);
            self.send(rt, LogEvent { moment, what });
        }
    }

    /// Counts a session that has ended.
    pub fn count_session(&self, is_faulty: bool) {
        if let Some(shared) = &self.shared {
            shared.sessions.fetch_add(1, Ordering::SeqCst);
            shared
                .faults
                .fetch_add(u64::from(is_faulty), Ordering::SeqCst);
        }
    }

    /// Ends the log: its reader writes what is waiting, and returns.
    pub fn end<R: Wait + Clock>(&self, rt: &R) {
        if let Some(shared) = &self.shared {
            shared.ended.store(1, Ordering::SeqCst);
            self.tell(rt, What::Ended);
        }
    }

    /// Sends an event, or counts it as lost.
    pub(crate) fn send<R: Wait>(&self, rt: &R, event: LogEvent) {
        let Some(shared) = &self.shared else {
            return;
        };
        for _ in 0..EVENT_SEND_TRIES {
            match shared.sender.try_send(rt, event) {
                Ok(()) => return,
                Err(TrySendError::Full(_)) => {}
                Err(_) => break,
            }
        }
        shared.lost.fetch_add(1, Ordering::SeqCst);
    }
}

impl LookUpObserver for Log {
    fn looked_up<R: IoRuntime>(&self, rt: &R, server: usize, end: LookUpEnd) {
        self.tell(rt, What::LookedUp { server, end });
    }
}
