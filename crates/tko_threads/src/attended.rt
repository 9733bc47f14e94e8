//! What a client sends, read while its worker keeps an eye on the time.
ghost use Rattle.std.specs.Prelude.{◌≡◌, ◌≤◌, IfOk, length};
ghost use Rattle.tko_threads.specs.ClientEnds.{IsGivenOn};

use crate::client_clock::ClientClock;
use crate::request_times::RequestTimes;
use crate::watch::{Watch, WatchNext};
use std::sync::atomic::{AtomicU64, Ordering};
use tko_io::{Clock, Inlet, IoRuntime, Stop, raise};
use tko_port::FirstByte;

/// A worker's watch over its clients, one after another, and the clock of its moments.
#[derive(Drop)]
pub(crate) struct Attendance<'r, M> {
    watch: Watch,
    clock: ClientClock<'r, M>,
    /// How many requests the worker has begun to answer.
    requests: &'r AtomicU64,
}

/// A client's inlet, which is idle where a round is due too, and which fails where the client's
/// time is over. Where the client's first byte is of the binary protocol it gives nothing, as if
/// the client had sent no more.
#[derive(Drop)]
pub(crate) struct Attended<'a, 'r, I, M> {
    inner: I,
    attendance: &'a mut Attendance<'r, M>,
    first: FirstByte,
    /// How often a round was due, and how often the time was over.
    idles: u64,
    failures: u64,
}

impl<'r, M: Clock> Attendance<'r, M> {
    pub(crate) fn new<R: IoRuntime>(
        rt: &R,
        clock: M,
        requests: &'r AtomicU64,
        times: &'r RequestTimes,
    ) -> Attendance<'r, M> {
        let mut clock = ClientClock::new(clock, times);
        let watch = Watch::new(clock.moment(rt));
        Attendance {
            watch,
            clock,
            requests,
        }
    }

    /// A client begins, which may complete no request for so long; 0 is no limit.
    pub(crate) fn begin<R: IoRuntime>(&mut self, rt: &R, limit: u32) {
        let now = self.clock.moment(rt);
        let requests = self.requests();
        self.watch.begin(now, requests, limit);
    }

    /// A round was run while there was no client.
    pub(crate) fn end_round<R: IoRuntime>(&mut self, rt: &R) {
        let now = self.clock.moment(rt);
        self.watch.end_round(now);
    }

    /// What comes next.
    fn look<R: IoRuntime>(&mut self, rt: &R) -> WatchNext {
        let now = self.clock.moment(rt);
        let requests = self.requests();
        self.watch.look(now, requests)
    }

    /// The client's inlet is idle.
    fn rest<R: IoRuntime>(&mut self, rt: &R) {
        let now = self.clock.moment(rt);
        self.watch.rest(now);
    }

    fn requests(&self) -> u64 {
        self.requests.load(Ordering::SeqCst)
    }
}

impl<'a, 'r, I, M> Attended<'a, 'r, I, M> {
    pub(crate) fn new(inner: I, attendance: &'a mut Attendance<'r, M>) -> Attended<'a, 'r, I, M>
        ensures first { result.first ≡ FirstByte.Awaited }
    {
        Attended {
            inner,
            attendance,
            first: FirstByte::Awaited,
            idles: 0,
            failures: 0,
        }
    }

    /// Whether the client was found to speak the binary protocol.
    pub(crate) fn is_binary(&self) -> bool {
        self.first.is_binary()
    }
}

/// What is given on of what a read gave.
fn given_on(first: &mut FirstByte, buffer: &[u8], read: Result<usize, Stop>) -> Result<usize, Stop>
    requires within { IfOk read (λ count. count ≤ length buffer.now) }
    ensures within { IfOk result (λ count. count ≤ length buffer.now) }
    ensures given { IsGivenOn first.old buffer.now read result first.new }
{
    if let Ok(count) = read {
        if !first.look(&buffer[..count]) {
            return Ok(0);
        }
    }
    read
}

impl<'a, 'r, I: Inlet, M: Clock> Inlet for Attended<'a, 'r, I, M> {
    ghost use Rattle.std.specs.Prelude.{◌+◌};
    ghost use Rattle.tko_threads.specs.ClientEnds.{GivesOn, IsGivenAll};
    ghost use Rattle.tko_threads.specs.GivenOn.{gives_nothing, gives_on};

    ghost gives = { λ a bytes b. GivesOn I.gives a bytes b };

    ghost is_ended = { λ a. IsGivenAll I.is_ended a };

    ghost failures = { λ a. I.failures a.inner + a.failures };

    ghost idles = { λ a. I.idles a.inner + a.idles };

    ghost nothing = { λ x. gives_nothing I.gives x (I.nothing x.inner) };

    ghost goes_on = { λ x y z bytes more first second. gives_on I.gives x y z bytes more
        (I.goes_on x.inner y.inner z.inner bytes more) first second };

    fn read<R: IoRuntime>(&mut self, rt: &R, buffer: &mut [u8]) -> Result<usize, Stop> {
        match self.attendance.look(rt) {
            WatchNext::Read => {
                let read = self.inner.read(rt, buffer);
                if read == Err(Stop::Idle) {
                    self.attendance.rest(rt);
                }
                given_on(&mut self.first, buffer, read)
            }
            WatchNext::Idle => {
                raise(rt, &mut self.idles);
                Err(Stop::Idle)
            }
            WatchNext::Over => {
                raise(rt, &mut self.failures);
                Err(Stop::Fault)
            }
        }
    }
}
