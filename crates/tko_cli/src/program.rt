//! From the arguments to the status.
ghost use Rattle.std.specs.Prelude.{◌≡◌, ◌<◌, ◌≤◌, IfErr, OnOk, map, string_bytes};
ghost use Rattle.tko_cli.specs.Endings.{HasCommandFailed, HasNotServed, HasNotesFor, HasServedFor, IsCommandDone, IsFaultTold, LacksVersions, ends};
ghost use Rattle.tko_cli.specs.Notices.{HasServerNotes};
ghost use Rattle.tko_cli.specs.Serving.{HasServedOrChecked, ServeFails};

use crate::demo::run_demo;
use crate::serving::serve;
use std::alloc::Global;
use std::fs::{File, Files};
use std::net::TcpListener;
use std::thread::Threads;
use tko_commands::{
    DONE, Fault, fail, loaded_server, refuse_config, refuse_delays, refuse_listen, refuse_metrics,
    refuse_settings, run_check, run_dry, run_replay, status_of, write_text,
};
use tko_io::{Inlet, IoRuntime, Outlet};
use tko_metrics::Build;
use tko_options::{Asked, Refusal, ServeOptions, VERSION};
use tko_reach::run_connected;

const REFUSED: u8 = 2;

/// Runs the command that the words name, of which the first is the program's name, and returns the
/// status: 0 where it was done, 1 after a fault, 2 where the words were refused, 3 where a server
/// did not give its version to `check --connect`. Replies and runs go to `output`, and the line of
/// a fault to `faults`. `sources` is the hash of the sources that the program was built from, which
/// the metrics of `serve` name beside its version.
pub fn command<
    R: IoRuntime<Listener = TcpListener>
        + Threads
        + Sync
        + Copy
        + Send
        + 'static
        + Files<File = File>
        + Eprint,
    I: Inlet,
    O: Outlet,
    F: Outlet,
>(
    rt: &R,
    alloc: Global,
    sources: &'static str,
    words: &[String],
    input: &mut I,
    output: &mut O,
    faults: &mut F,
) -> u8
    ensures status { result ≤ 3 }
    ensures done { result ≡ 0 → IsCommandDone I.Inlet O.Outlet F.Outlet (map string_bytes words.now)
        (ends input.old output.old faults.old) (ends input.new output.new faults.new) }
    ensures fault { result ≡ 1 → HasCommandFailed I.Inlet O.Outlet F.Outlet
        (map string_bytes words.now)
        (ends input.old output.old faults.old) (ends input.new output.new faults.new) }
    ensures refused { result ≡ 2 → (input.new ≡ input.old) × (output.new ≡ output.old) }
    ensures unanswered { result ≡ 3 → LacksVersions I.Inlet O.Outlet (map string_bytes words.now)
        (ends input.old output.old faults.old) (ends input.new output.new faults.new) }
{
    match Asked::read(alloc, words) {
        Ok(Asked::Dry(options)) => run_dry(rt, alloc, options, input, output, faults),
        Ok(Asked::Replay) => run_replay(rt, alloc, input, output, faults),
        Ok(Asked::Serve(options)) => {
            let build = Build {
                version: VERSION,
                sources,
            };
            run_server(rt, alloc, build, options, output, faults)
        }
        Ok(Asked::Demo(options)) => run_demo(rt, alloc, options, input, output, faults),
        Ok(Asked::Check(options)) if options.connect => {
            run_connected(rt, alloc, options, input, output, faults)
        }
        Ok(Asked::Check(options)) => run_check(rt, alloc, options, input, output, faults),
        Err(Refusal::Memory) => status_of(rt, alloc, faults, Err(Fault::Memory)),
        Err(Refusal::Wrong(text)) => refuse(rt, faults, text.as_str()),
        Err(Refusal::Answer(text)) => {
            let done = show(rt, output, text.as_str());
            status_of(rt, alloc, faults, done)
        }
    }
}

/// Serves clients by this build, and returns the status.
fn run_server<
    R: IoRuntime<Listener = TcpListener>
        + Threads
        + Sync
        + Copy
        + Send
        + 'static
        + Files<File = File>
        + Eprint,
    O: Outlet,
    F: Outlet,
>(rt: &R, alloc: Global, build: Build, options: ServeOptions, output: &mut O, faults: &mut F) -> u8
    ensures status { result ≤ 1 }
    ensures done { result ≡ 0 → HasServedFor O.Outlet F.Outlet options
        (output.old, faults.old) (output.new, faults.new) }
    ensures fault { result ≡ 1 → IsFaultTold O.takes O.failures F.Outlet
        (HasNotesFor F.Outlet options)
        (HasNotServed O.takes O.failures options output.old output.new)
        output.old output.new faults.old faults.new }
{
    match loaded_server(rt, alloc, options, faults) {
        Ok(options) => serve_loaded(rt, alloc, build, &options, output, faults),
        Err(fault) => fail(rt, alloc, faults, fault),
    }
}

/// Serves clients over the configuration of the options, and returns the status.
fn serve_loaded<
    R: IoRuntime<Listener = TcpListener>
        + Threads
        + Sync
        + Copy
        + Send
        + 'static
        + Files<File = File>
        + Eprint,
    O: Outlet,
    F: Outlet,
>(rt: &R, alloc: Global, build: Build, options: &ServeOptions, output: &mut O, faults: &mut F) -> u8
    ensures status { result ≤ 1 }
    ensures done { result ≡ 0 → HasServedOrChecked O.takes options.now output.old output.new }
    ensures noted { result ≡ 0 → HasServerNotes F.takes F.failures options.now
        faults.old faults.new }
    ensures fault { result ≡ 1 → IsFaultTold O.takes O.failures F.Outlet
        (HasServerNotes F.takes F.failures options.now)
        (ServeFails O.takes O.failures options.now output.old output.new)
        output.old output.new faults.old faults.new }
{
    match serve(rt, alloc, build, options, output, faults) {
        Ok(()) => DONE,
        Err(Fault::Config(cause)) => {
            refuse_config(rt, alloc, faults, options.config.as_str(), cause)
        }
        Err(Fault::Settings(outside)) => refuse_settings(rt, alloc, faults, outside),
        Err(Fault::Delays(delays)) => refuse_delays(rt, alloc, faults, delays),
        Err(Fault::Listen(cause)) => {
            refuse_listen(rt, alloc, faults, options.listen.as_str(), cause)
        }
        Err(Fault::Metrics(cause)) => {
            refuse_metrics(rt, alloc, faults, metrics_of(options), cause)
        }
        Err(fault) => fail(rt, alloc, faults, fault),
    }
}

/// The address of the metrics, and the empty text where none is given.
fn metrics_of(options: &ServeOptions) -> &str {
    match &options.metrics {
        Some(address) => address.as_str(),
        None => "",
    }
}

/// Reports why the words were refused, and returns the status. A failure to report it is not
/// reported.
fn refuse<R: IoRuntime, F: Outlet>(rt: &R, faults: &mut F, text: &str) -> u8
    ensures { result ≡ 2 }
{
    let _ = write_text(rt, faults, text.as_bytes());
    REFUSED
}

/// Writes the help or the version.
fn show<R: IoRuntime, O: Outlet>(rt: &R, outlet: &mut O, text: &str) -> Result<(), Fault>
    ensures ok { OnOk result (O.takes outlet.old text.now outlet.new) }
    ensures err { IfErr result (λ fault. (fault ≡ Fault.Write)
        × (O.failures outlet.old < O.failures outlet.new)) }
{
    write_text(rt, outlet, text.as_bytes())?;
    Ok(())
}
