//! A server with what runs beside it: its event log and its metrics.
ghost use Rattle.tko_server.specs.ServerRuns.{IsServerRun};

use crate::crew::WorkerKind;
use crate::logging::{LogWriter, log_of};
use crate::metering::meter_of;
use crate::running::{Ended, Options, RunParts, open_and_run};
use crate::{Announce, Logging, Metering, ServerRunFault};
use std::alloc::Global;
use std::net::TcpListener;
use std::thread;
use std::thread::Threads;
use tko_io::IoRuntime;
use tko_scrapes::Scrapes;

/// What a server is run with, beside its options.
#[derive(Drop)]
pub struct ServerRun<'a, A> {
    /// Where its clients connect.
    pub listener: &'a TcpListener,
    /// Which workers serve them.
    pub kind: WorkerKind,
    /// The event log that is written meanwhile, if there is one.
    pub logging: Option<Logging>,
    /// The metrics that are answered for meanwhile, if there are any.
    pub metering: Option<Metering>,
    /// What is announced once clients can connect.
    pub announcement: A,
}

/// What `run_to_end` does, by the workers and with all else that is given here. Returns the
/// announcement too, as the run left it.
pub fn run_all<
    R: IoRuntime<Listener = TcpListener> + Threads + Sync + Copy + Send + 'static + Eprint,
    A: Announce + Drop,
>(
    rt: &R,
    alloc: Global,
    options: &Options,
    run: ServerRun<'_, A>,
) -> (A, Result<Ended, ServerRunFault>)
    ensures { IsServerRun A.announces A.fails options.now run.entry.announcement
        result.0 result.1 }
{
    let ServerRun {
        listener,
        kind,
        logging,
        metering,
        announcement,
    } = run;
    let (meter, scrapes) = meter_of(metering);
    let (log, mut writer) = log_of(logging, meter);
    let run = RunParts {
        listener,
        kind,
        log: &log,
        announcement,
    };
    run_with_metrics(rt, alloc, options, run, &mut writer, &scrapes)
}

/// Runs a server while its metrics, if there are any, are answered for on a thread of their own.
/// Where the system gives it no thread, nobody answers for them.
fn run_with_metrics<
    R: IoRuntime<Listener = TcpListener> + Threads + Sync + Copy + Send + 'static + Eprint,
    A: Announce + Drop,
>(
    rt: &R,
    alloc: Global,
    options: &Options,
    run: RunParts<'_, A>,
    writer: &mut Option<LogWriter>,
    scrapes: &Option<Scrapes>,
) -> (A, Result<Ended, ServerRunFault>)
    ensures { IsServerRun A.announces A.fails options.now run.entry.announcement
        result.0 result.1 }
{
    let Some(scrapes) = scrapes else {
        return run_with_log(rt, alloc, options, run, writer);
    };
    // (where the system gives no thread, what the first of the two does comes last)
    let (_answered, ended) = thread::join(
        rt,
        || scrapes.answer_all(rt, alloc),
        || -> (A, Result<Ended, ServerRunFault>)
            ensures { IsServerRun A.announces A.fails options.entry.now run.entry.announcement
                result.0 result.1 }
        {
            let ended = run_with_log(rt, alloc, options, run, writer);
            scrapes.end();
            ended
        },
    );
    ended
}

/// Runs a server while its log, if it is written, is written to standard error on a thread of its
/// own. It returns once the log is written: where nobody reads standard error, it waits then, and
/// the workers before that do not. Where the system gives the log no thread, it is written at the
/// end.
fn run_with_log<
    R: IoRuntime<Listener = TcpListener> + Threads + Sync + Copy + Send + 'static + Eprint,
    A: Announce + Drop,
>(
    rt: &R,
    alloc: Global,
    options: &Options,
    run: RunParts<'_, A>,
    writer: &mut Option<LogWriter>,
) -> (A, Result<Ended, ServerRunFault>)
    ensures { IsServerRun A.announces A.fails options.now run.entry.announcement
        result.0 result.1 }
{
    let Some(writer) = writer else {
        return open_and_run(rt, alloc, options, run);
    };
    // (where the system gives no thread, what the first of the two does comes last)
    let (_written, ended) = thread::join(
        rt,
        || writer.write_lines(rt, alloc),
        || -> (A, Result<Ended, ServerRunFault>)
            ensures { IsServerRun A.announces A.fails options.entry.now run.entry.announcement
                result.0 result.1 }
        {
            let log = run.log;
            let ended = open_and_run(rt, alloc, options, run);
            log.end(rt);
            ended
        },
    );
    ended
}
