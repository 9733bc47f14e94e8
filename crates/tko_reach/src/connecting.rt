//! The command `check --connect`.
ghost use Rattle.std.specs.Prelude.{◌≡◌, ◌≢◌, ◌≤◌, true, false, IfErr, IfOk};
ghost use Rattle.tko_commands.specs.FaultLines.{IsReasonTold};
ghost use Rattle.tko_reach.specs.Connecting.{HasCheckedServers, HasAskedServers, HasNotAskedServers, HasPrintedServers, ReachFails, ServersFail};

use crate::printing::append_servers;
use crate::reach::gave_versions;
use crate::reaching::reach_all;
use std::alloc::Global;
use std::fs::Files;
use std::net::TcpListener;
use std::thread::Threads;
use tko_commands::{DONE, Fault, check_loaded, fail, loaded_check, write_text};
use tko_io::{Inlet, IoRuntime, Outlet};
use tko_options::CheckOptions;
use tko_pools::Config;

/// The status where a server did not give its version.
const UNANSWERED: u8 = 3;

/// Checks a configuration, asks each of its servers for its version, prints what came, and returns
/// the status: 0 where each gave it, 3 where one did not, and 1 after a fault.
pub fn run_connected<
    R: IoRuntime<Listener = TcpListener> + Threads + Sync + Copy + Send + 'static + Files,
    I: Inlet,
    O: Outlet,
    F: Outlet,
>(rt: &R, alloc: Global, options: CheckOptions, input: &mut I, output: &mut O, faults: &mut F) -> u8
    ensures status { result ≤ 3 }
    ensures read { result ≢ 2 }
    ensures whole { result ≡ 0 → HasAskedServers I.Inlet R.File.remaining O.takes options true
        (input.old, output.old) (input.new, output.new) }
    ensures part { result ≡ 3 → HasAskedServers I.Inlet R.File.remaining O.takes options false
        (input.old, output.old) (input.new, output.new) }
    ensures done { result ≢ 1 → faults.new ≡ faults.old }
    ensures fault { result ≡ 1 → IsReasonTold F.takes F.failures
        (HasNotAskedServers I.Inlet R.File.remaining O.Outlet options
        (input.old, output.old) (input.new, output.new)) faults.old faults.new }
{
    match loaded_check(rt, alloc, options, faults) {
        Ok(options) => connect_loaded(rt, alloc, &options, input, output, faults),
        Err(fault) => fail(rt, alloc, faults, fault),
    }
}

/// The same, of options with the text of their files.
fn connect_loaded<
    R: IoRuntime<Listener = TcpListener> + Threads + Sync + Copy + Send + 'static + Files,
    I: Inlet,
    O: Outlet,
    F: Outlet,
>(
    rt: &R,
    alloc: Global,
    options: &CheckOptions,
    input: &mut I,
    output: &mut O,
    faults: &mut F,
) -> u8
    ensures status { result ≤ 3 }
    ensures read { result ≢ 2 }
    ensures whole { result ≡ 0 → HasCheckedServers I.Inlet R.File.remaining O.takes options.now true
        (input.old, output.old) (input.new, output.new) }
    ensures part { result ≡ 3 → HasCheckedServers I.Inlet R.File.remaining O.takes options.now false
        (input.old, output.old) (input.new, output.new) }
    ensures done { result ≢ 1 → faults.new ≡ faults.old }
    ensures fault { result ≡ 1 → IsReasonTold F.takes F.failures
        (ServersFail I.Inlet R.File.remaining O.Outlet options.now
        (input.old, output.old) (input.new, output.new)) faults.old faults.new }
{
    let status = check_loaded(rt, alloc, options, input, output, faults);
    if status != DONE {
        return status;
    }
    match reach(rt, alloc, options, output) {
        Ok(true) => DONE,
        Ok(false) => UNANSWERED,
        Err(fault) => fail(rt, alloc, faults, fault),
    }
}

/// Asks each server of a configuration, prints what came of them, and returns whether each gave
/// its version.
fn reach<R: IoRuntime<Listener = TcpListener> + Threads + Sync + Copy + Send + 'static, O: Outlet>(
    rt: &R,
    alloc: Global,
    options: &CheckOptions,
    output: &mut O,
) -> Result<bool, Fault>
    ensures ok { IfOk result (λ is_whole.
        HasPrintedServers O.takes options.now is_whole output.old output.new) }
    ensures err { IfErr result (ReachFails O.failures options.now output.old output.new) }
{
    let config = Config::read(alloc, options.config.as_bytes())?;
    let servers = reach_all(rt, alloc, config.addresses(), options.timeout)?;
    let mut text = Vec::new(alloc);
    append_servers(&mut text, &servers)?;
    write_text(rt, output, &text)?;
    Ok(gave_versions(&servers))
}
