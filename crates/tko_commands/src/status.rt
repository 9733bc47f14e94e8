//! Commands run to their status. Their faults are reported.
ghost use Rattle.std.specs.Prelude.{◌≡◌, ◌≤◌, Err, IsOk};
ghost use Rattle.tko_commands.specs.Checks.{CheckFails, HasChecked};
ghost use Rattle.tko_commands.specs.Done.{HasCheckedAll, HasDried};
ghost use Rattle.tko_commands.specs.FaultLines.{IsReasonTold};
ghost use Rattle.tko_commands.specs.NotDone.{HasNotChecked, HasNotDried};
ghost use Rattle.tko_commands.specs.Replays.{ReplayFails, ReplaysSchedule};

use crate::Fault;
use crate::checking::check;
use crate::dry::dry;
use crate::loading::{loaded_check, loaded_dry};
use crate::refusing::{fail, refuse_against, refuse_config, refuse_keys, refuse_settings};
use crate::replay::replay;
use std::alloc::Global;
use std::fs::Files;
use tko_io::{Inlet, IoRuntime, Outlet};
use tko_options::{CheckOptions, DryOptions};

/// The status of a command that was done.
pub const DONE: u8 = 0;

/// Answers the input from scripted servers, and returns the status.
pub fn run_dry<R: IoRuntime + Files, I: Inlet, O: Outlet, F: Outlet>(
    rt: &R,
    alloc: Global,
    options: DryOptions,
    input: &mut I,
    output: &mut O,
    faults: &mut F,
) -> u8
    ensures status { result ≤ 1 }
    ensures dry { result ≡ 0 → HasDried I.Inlet O.Outlet options
        (input.old, output.old) (input.new, output.new) }
    ensures done { result ≡ 0 → faults.new ≡ faults.old }
    ensures fault { result ≡ 1 → IsReasonTold F.takes F.failures
        (HasNotDried I.Inlet O.Outlet options (input.old, output.old) (input.new, output.new))
        faults.old faults.new }
{
    match loaded_dry(rt, alloc, options, faults) {
        Ok(options) => {
            let done = dry(rt, alloc, &options, input, output);
            status_over(rt, alloc, faults, json_of(&options), done)
        }
        Err(fault) => fail(rt, alloc, faults, fault),
    }
}

/// The text of the configuration, and the empty one where there is none.
fn json_of(options: &DryOptions) -> &str {
    match &options.config {
        Some(json) => json.as_str(),
        None => "",
    }
}

/// Plays a schedule, and returns the status.
pub fn run_replay<R: IoRuntime, I: Inlet, O: Outlet, F: Outlet>(
    rt: &R,
    alloc: Global,
    input: &mut I,
    output: &mut O,
    faults: &mut F,
) -> u8
    ensures status { result ≤ 1 }
    ensures replay { result ≡ 0 → ReplaysSchedule I.gives I.is_ended O.takes
        input.old output.old input.new output.new }
    ensures done { result ≡ 0 → faults.new ≡ faults.old }
    ensures fault { result ≡ 1 → IsReasonTold F.takes F.failures
        (ReplayFails I.gives I.is_ended I.failures O.failures
        input.old input.new output.old output.new) faults.old faults.new }
{
    let done = replay(rt, alloc, input, output);
    status_of(rt, alloc, faults, done)
}

/// Checks a configuration, and returns the status. The input is read only for a list of keys.
pub fn run_check<R: IoRuntime + Files, I: Inlet, O: Outlet, F: Outlet>(
    rt: &R,
    alloc: Global,
    options: CheckOptions,
    input: &mut I,
    output: &mut O,
    faults: &mut F,
) -> u8
    ensures status { result ≤ 1 }
    ensures check { result ≡ 0 → HasCheckedAll I.Inlet R.File.remaining O.takes options
        (input.old, output.old) (input.new, output.new) }
    ensures done { result ≡ 0 → faults.new ≡ faults.old }
    ensures fault { result ≡ 1 → IsReasonTold F.takes F.failures
        (HasNotChecked I.failures O.failures options
        (input.old, output.old) (input.new, output.new)) faults.old faults.new }
{
    match loaded_check(rt, alloc, options, faults) {
        Ok(options) => check_loaded(rt, alloc, &options, input, output, faults),
        Err(fault) => fail(rt, alloc, faults, fault),
    }
}

/// Checks the configuration in the text of the options, and returns the status. The input is read
/// only for a list of keys.
pub fn check_loaded<R: IoRuntime + Files, I: Inlet, O: Outlet, F: Outlet>(
    rt: &R,
    alloc: Global,
    options: &CheckOptions,
    input: &mut I,
    output: &mut O,
    faults: &mut F,
) -> u8
    ensures status { result ≤ 1 }
    ensures check { result ≡ 0 → HasChecked I.Inlet R.File.remaining O.takes options.now
        (input.old, output.old) (input.new, output.new) }
    ensures done { result ≡ 0 → faults.new ≡ faults.old }
    ensures fault { result ≡ 1 → IsReasonTold F.takes F.failures
        (CheckFails I.failures O.failures options.now
        (input.old, output.old) (input.new, output.new)) faults.old faults.new }
{
    let done = check(rt, alloc, options, input, output);
    status_of_check(rt, alloc, faults, options, done)
}

/// The status of a check of these options, which wrote nothing to `faults`. Its fault is reported,
/// and before it why a text is no configuration, or a file cannot be read.
fn status_of_check<R: IoRuntime, F: Outlet>(
    rt: &R,
    alloc: Global,
    faults: &mut F,
    options: &CheckOptions,
    done: Result<(), Fault>,
) -> u8
    ensures status { result ≤ 1 }
    ensures ok { result ≡ 0 → IsOk done }
    ensures done { result ≡ 0 → faults.new ≡ faults.old }
    ensures fault { result ≡ 1 → IsReasonTold F.takes F.failures
        (λ fault. done ≡ Err fault) faults.old faults.new }
{
    match done {
        Err(Fault::Against(cause)) => refuse_against(rt, alloc, faults, options, cause),
        done => status_over(rt, alloc, faults, options.config.as_str(), done),
    }
}

/// The status of a command that wrote nothing to `faults`. Its fault is reported.
pub fn status_of<R: IoRuntime, F: Outlet>(
    rt: &R,
    alloc: Global,
    faults: &mut F,
    done: Result<(), Fault>,
) -> u8
    ensures status { result ≤ 1 }
    ensures ok { result ≡ 0 → IsOk done }
    ensures done { result ≡ 0 → faults.new ≡ faults.old }
    ensures fault { result ≡ 1 → IsReasonTold F.takes F.failures
        (λ fault. done ≡ Err fault) faults.old faults.new }
{
    match done {
        Ok(()) => DONE,
        Err(fault) => fail(rt, alloc, faults, fault),
    }
}

/// The status of a command over this text of a configuration, which wrote nothing to `faults`. Its
/// fault is reported, and before it why the text is no configuration, which option is outside its
/// range, or why a file cannot be read.
fn status_over<R: IoRuntime, F: Outlet>(
    rt: &R,
    alloc: Global,
    faults: &mut F,
    json: &str,
    done: Result<(), Fault>,
) -> u8
    ensures status { result ≤ 1 }
    ensures ok { result ≡ 0 → IsOk done }
    ensures done { result ≡ 0 → faults.new ≡ faults.old }
    ensures fault { result ≡ 1 → IsReasonTold F.takes F.failures
        (λ fault. done ≡ Err fault) faults.old faults.new }
{
    match done {
        Err(Fault::Config(cause)) => refuse_config(rt, alloc, faults, json, cause),
        Err(Fault::Settings(outside)) => refuse_settings(rt, alloc, faults, outside),
        Err(Fault::KeysFile(unread)) => refuse_keys(rt, alloc, faults, unread),
        done => status_of(rt, alloc, faults, done),
    }
}
