//! The command `serve`: a server over TCP, and its totals.
ghost use Rattle.std.specs.Prelude.{◌≡◌, IfErr, IfOk, OnErr, OnOk};
ghost use Rattle.tko_cli.specs.Announcements.{IsReadyWritten};
ghost use Rattle.tko_cli.specs.Notices.{HasNotices, HasServerNotes, HasServerWarnings};
ghost use Rattle.tko_cli.specs.Serving.{HasServedOrChecked, HasTotals, IsNamed, IsOfOptions, IsRunnable, IsSilentOrNoted, PreparedFails, RunFails, ServeFails, TotalsFail, fault_of_server};
ghost use Rattle.tko_cli.specs.Totals.{totals_text};
ghost use Rattle.tko_server.specs.Closing.{HasServerEnded};
ghost use Rattle.tko_server.specs.ServerRuns.{IsServerRun};

use crate::announcement::{Announcement, give_back, print_valid};
use crate::notice::{Notice, write_notice, write_notice_if, write_warnings};
use crate::odd_options::write_odd_options;
use crate::open_files::has_no_memory_limit;
use crate::planned::named_server;
use crate::prepared::{Prepared, prepare};
use crate::totals::totals_lines;
use std::alloc::Global;
use std::fs::{File, Files};
use std::net::TcpListener;
use std::thread::Threads;
use tko_commands::{Fault, write_text};
use tko_desk::Totals;
use tko_io::{IoRuntime, Outlet};
use tko_metrics::Build;
use tko_options::{Mode, ServeOptions};
use tko_server::{Announce, Ended, ServerRun, ServerRunFault, WorkerKind, WorkerReport, run_all};

/// Serves clients over TCP until the last of the connections has ended, and then prints the totals.
/// The metrics name this build. `ready` is printed once clients can connect: when each worker has
/// asked for its first one. Before it listens come the warnings on the configuration and on the
/// addresses of the options, before `ready` a notice of what the server does with its descriptors,
/// and before the totals notices say what the workers met. With `--check` it ends before it
/// listens, and prints `valid`.
pub(crate) fn serve<
    R: IoRuntime<Listener = TcpListener>
        + Threads
        + Sync
        + Copy
        + Send
        + 'static
        + Files<File = File>
        + Eprint,
    O: Outlet,
    F: Outlet,
>(
    rt: &R,
    alloc: Global,
    build: Build,
    options: &ServeOptions,
    output: &mut O,
    faults: &mut F,
) -> Result<(), Fault>
    ensures ok { OnOk result (HasServedOrChecked O.takes options.now output.old output.new) }
    ensures err { IfErr result (ServeFails O.takes O.failures options.now output.old output.new) }
    ensures noted { OnOk result (HasServerNotes F.takes F.failures options.now
        faults.old faults.new) }
    ensures told { OnErr result (IsSilentOrNoted O.takes O.failures
        (HasServerNotes F.takes F.failures options.now)
        output.old output.new faults.old faults.new) }
    ensures refused { IfErr result (λ fault. IsOfOptions fault → faults.new ≡ faults.old) }
{
    let server = named_server(rt, alloc, options)?;
    write_server_warnings(rt, alloc, faults, options);
    if options.only_check {
        return print_valid(rt, output);
    }
    run_named(rt, alloc, build, options, server, output, faults)
}

/// Writes what is warned of in the configuration and in the addresses of the options.
fn write_server_warnings<R: IoRuntime, F: Outlet>(
    rt: &R,
    alloc: Global,
    faults: &mut F,
    options: &ServeOptions,
)
    ensures { HasServerWarnings F.takes F.failures options.now faults.old faults.new }
{
    write_warnings(rt, alloc, faults, options.config.as_str());
    write_odd_options(rt, alloc, faults, options);
}

/// Opens what this server listens on, and runs it to its end.
fn run_named<
    R: IoRuntime<Listener = TcpListener>
        + Threads
        + Sync
        + Copy
        + Send
        + 'static
        + Files<File = File>
        + Eprint,
    O: Outlet,
    F: Outlet,
>(
    rt: &R,
    alloc: Global,
    build: Build,
    options: &ServeOptions,
    server: tko_server::Options,
    output: &mut O,
    faults: &mut F,
) -> Result<(), Fault>
    requires { IsNamed options.now server }
    ensures ok { OnOk result (HasTotals O.takes server output.old output.new) }
    ensures err { IfErr result
        (RunFails O.takes O.failures options.now output.old output.new) }
    ensures noted { HasNotices F.takes F.failures faults.old faults.new }
{
    let prepared = prepare(rt, alloc, build, options, server)?;
    note_memory(rt, alloc, faults);
    run_prepared(rt, alloc, prepared, output, faults)
}

/// Runs the server to its end, with `ready` before and the totals after it.
fn run_prepared<
    R: IoRuntime<Listener = TcpListener>
        + Threads
        + Sync
        + Copy
        + Send
        + 'static
        + Files<File = File>
        + Eprint,
    O: Outlet,
    F: Outlet,
>(rt: &R, alloc: Global, prepared: Prepared, output: &mut O, faults: &mut F) -> Result<(), Fault>
    requires { IsRunnable prepared }
    ensures ok { OnOk result (HasTotals O.takes prepared.server output.old output.new) }
    ensures err { IfErr result (PreparedFails O.takes O.failures output.old output.new) }
    ensures noted { HasNotices F.takes F.failures faults.old faults.new }
{
    note_descriptors(rt, alloc, faults, prepared.mode, &prepared.server);
    match run_announced(rt, alloc, prepared, output) {
        Ok(ended) => {
            report(rt, alloc, faults, &ended.report);
            write_totals(rt, alloc, output, &ended.totals)
        }
        Err(cause) => Err(fault_of_server(cause)),
    }
}

/// Runs the server to its end, and prints `ready` once clients can connect.
pub(crate) fn run_announced<
    R: IoRuntime<Listener = TcpListener> + Threads + Sync + Copy + Send + 'static + Eprint,
    O: Outlet,
>(rt: &R, alloc: Global, prepared: Prepared, output: &mut O) -> Result<Ended, ServerRunFault>
    requires { IsRunnable prepared }
    ensures ok { OnOk result (IsReadyWritten O.takes O.failures output.old output.new) }
    ensures ended { IfOk result (HasServerEnded prepared.server) }
    ensures err { IfErr result (λ cause.
        PreparedFails O.takes O.failures output.old output.new (fault_of_server cause)) }
{
    let announcement = Announcement { output };
    let (announcement, ended) = run_in_mode(rt, alloc, prepared, announcement);
    let Announcement { output } = announcement;
    give_back(output);
    ended
}

/// Runs the server to its end, by the workers of its mode.
fn run_in_mode<
    R: IoRuntime<Listener = TcpListener> + Threads + Sync + Copy + Send + 'static + Eprint,
    A: Announce + Drop,
>(rt: &R, alloc: Global, prepared: Prepared, announcement: A) -> (A, Result<Ended, ServerRunFault>)
    ensures { IsServerRun A.announces A.fails prepared.server announcement result.0 result.1 }
{
    let Prepared {
        mode,
        server,
        listener,
        logging,
        metering,
    } = prepared;
    let run = ServerRun {
        listener: &listener,
        kind: kind_of(mode),
        logging,
        metering,
        announcement,
    };
    run_all(rt, alloc, &server, run)
}

/// The workers that serve in this mode.
fn kind_of(mode: Mode) -> WorkerKind {
    match mode {
        Mode::Threads => WorkerKind::Blocking,
        Mode::Events => WorkerKind::Events,
    }
}

/// Writes a line for each kind of total.
fn write_totals<R: IoRuntime, O: Outlet>(
    rt: &R,
    alloc: Global,
    output: &mut O,
    totals: &Totals,
) -> Result<(), Fault>
    ensures ok { OnOk result (O.takes output.old (totals_text totals.now.counts) output.new) }
    ensures err { IfErr result (TotalsFail O.failures output.old output.new) }
{
    let lines = totals_lines(alloc, totals)?;
    write_text(rt, output, &lines)?;
    Ok(())
}

/// Which fault of the program the server's is.
fn fault_of_server(cause: ServerRunFault) -> Fault
    ensures { result ≡ fault_of_server cause }
{
    match cause {
        ServerRunFault::Settings(setting) => Fault::from(setting),
        ServerRunFault::Memory => Fault::Memory,
        ServerRunFault::Announce => Fault::Write,
        ServerRunFault::Accept => Fault::Accept,
    }
}

/// Writes what a server does with the descriptors that it may have open.
fn note_descriptors<R: IoRuntime, F: Outlet>(
    rt: &R,
    alloc: Global,
    faults: &mut F,
    mode: Mode,
    server: &tko_server::Options,
)
    ensures { HasNotices F.takes F.failures faults.old faults.new }
{
    let allotment = match mode {
        Mode::Threads => server.allotment(),
        Mode::Events => server.event_allotment(),
    };
    let notice = match server.open_files {
        Some(limit) => Notice::Descriptors(allotment, limit),
        None => Notice::UnknownLimit(allotment),
    };
    write_notice(rt, alloc, faults, notice);
}

/// Writes that the process may take all memory, where that is so.
fn note_memory<R: IoRuntime + Files<File = File>, F: Outlet>(rt: &R, alloc: Global, faults: &mut F)
    ensures { HasNotices F.takes F.failures faults.old faults.new }
{
    let is_told = has_no_memory_limit(rt, alloc);
    write_notice_if(rt, alloc, faults, is_told, Notice::NoMemoryLimit);
}

/// Writes what the workers met, where it is worth a notice.
#[tactic(auto, using(crate::proofs::NoticeLemmas::more_notices))]
fn report<R: IoRuntime, F: Outlet>(rt: &R, alloc: Global, faults: &mut F, report: &WorkerReport)
    ensures { HasNotices F.takes F.failures faults.old faults.new }
{
    let faulty = Notice::Faults(report.faults, report.sessions);
    write_notice_if(rt, alloc, faults, 0 < report.faults, faulty);
    write_notice_if(rt, alloc, faults, report.memory, Notice::Memory);
    write_notice_if(rt, alloc, faults, report.ledger_full, Notice::LedgerFull);
}
