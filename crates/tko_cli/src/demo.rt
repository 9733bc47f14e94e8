//! The command `demo`: the proxy before two servers for trials, and the story that a client plays.
ghost use Rattle.std.specs.Prelude.{◌≡◌, ◌≤◌, IfErr, OnOk};
ghost use Rattle.tko_cli.specs.Demos.{EndsAs, HasDemonstrated, HasShownTotals, IsDemoFault};
ghost use Rattle.tko_demo.specs.Stories.{DisplayFails, StayFails};

use crate::demo_proxy::{DemoProxy, any_port};
use crate::totals::noted_totals;
use std::alloc::Global;
use std::fs::{File, Files};
use std::net::TcpListener;
use std::thread::Threads;
use tko_commands::DONE;
use tko_demo::{DemoFault, DemoServer, show_fault, show_story, stay, write};
use tko_io::{Inlet, IoRuntime, Outlet};
use tko_options::DemoOptions;

const FAILED: u8 = 1;

/// Shows the proxy at work, and returns the status.
pub(crate) fn run_demo<
    R: IoRuntime<Listener = TcpListener>
        + Threads
        + Sync
        + Copy
        + Send
        + 'static
        + Files<File = File>
        + Eprint,
    I: Inlet,
    O: Outlet,
    F: Outlet,
>(rt: &R, alloc: Global, options: DemoOptions, input: &mut I, output: &mut O, faults: &mut F) -> u8
    ensures status { result ≤ 1 }
    ensures done { result ≡ 0 → HasDemonstrated I.Inlet O.takes options
        (input.old, output.old) (input.new, output.new) }
    ensures silent { result ≡ 0 → faults.new ≡ faults.old }
    ensures fault { result ≡ 1 → IsDemoFault F.takes F.failures
        (StayFails I.failures O.failures (input.old, output.old) (input.new, output.new))
        faults.old faults.new }
{
    match demo(rt, alloc, options, input, output) {
        Ok(()) => DONE,
        Err(fault) => {
            show_fault(rt, faults, fault);
            FAILED
        }
    }
}

/// Starts two servers and the proxy, shows the story, and ends as the options say.
fn demo<
    R: IoRuntime<Listener = TcpListener>
        + Threads
        + Sync
        + Copy
        + Send
        + 'static
        + Files<File = File>
        + Eprint,
    I: Inlet,
    O: Outlet,
>(
    rt: &R,
    alloc: Global,
    options: DemoOptions,
    input: &mut I,
    output: &mut O,
) -> Result<(), DemoFault>
    ensures ok { OnOk result (HasDemonstrated I.Inlet O.takes options
        (input.old, output.old) (input.new, output.new)) }
    ensures err { IfErr result (StayFails I.failures O.failures
        (input.old, output.old) (input.new, output.new)) }
{
    let near = DemoServer::start(rt, alloc, any_port())?;
    let far = DemoServer::start(rt, alloc, any_port())?;
    let proxy = DemoProxy::start(rt, alloc, options, near.address(), far.address())?;
    show_story(rt, alloc, near, &far, proxy.address, output)?;
    finish(rt, alloc, options, proxy, input, output)
}

/// Stays, or ends with the proxy's totals.
fn finish<R: IoRuntime + Threads, I: Inlet, O: Outlet>(
    rt: &R,
    alloc: Global,
    options: DemoOptions,
    proxy: DemoProxy,
    input: &mut I,
    output: &mut O,
) -> Result<(), DemoFault>
    ensures ok { OnOk result (EndsAs I.Inlet O.takes options.stay
        (input.old, output.old) (input.new, output.new)) }
    ensures err { IfErr result (StayFails I.failures O.failures
        (input.old, output.old) (input.new, output.new)) }
{
    if options.stay {
        stay(rt, alloc, proxy.address.port(), input, output)
    } else {
        show_totals(rt, alloc, proxy, output)
    }
}

/// Shows the totals of the proxy, which ends since its only client has left.
fn show_totals<R: IoRuntime + Threads, O: Outlet>(
    rt: &R,
    alloc: Global,
    proxy: DemoProxy,
    output: &mut O,
) -> Result<(), DemoFault>
    ensures ok { OnOk result (HasShownTotals O.takes output.old output.new) }
    ensures err { IfErr result (DisplayFails O.failures output.old output.new) }
{
    let totals = proxy.totals(rt)?;
    let text = noted_totals(alloc, &totals)?;
    write(rt, output, &text)
}
