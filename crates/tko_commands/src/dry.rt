//! The command `dry`: a session over scripted servers.
ghost use Rattle.std.specs.Prelude.{◌<◌, IfOk, IfErr, OnOk};
ghost use Rattle.tko_commands.specs.DryRuns.{AreDefaultDelays, AreFresh, DryFails, IsDry};

use crate::Fault;
use crate::configured::config_of;
use crate::grouped::settings_over;
use crate::outcomes::scripts_of;
use crate::trail_lines::trail_lines;
use crate::writing::write_text;
use std::alloc::Global;
use tko_bytes::NoMemory;
use tko_io::{FrozenClock, Inlet, IoRuntime, Outlet};
use tko_links::{Script, Scripted};
use tko_model::Plain;
use tko_options::DryOptions;
use tko_pools::Config;
use tko_prober::{Backend, Delays, Probers};
use tko_route::PlainHealth;
use tko_session::{Kept, Parts, serve};

/// How long the first probe of a server waits, in milliseconds.
const FIRST_DELAY: u32 = 10_000;

/// How long any probe may wait, in milliseconds.
const GREATEST_DELAY: u32 = 60_000;

/// The clock of the probers stands still, so no probe is ever due.
type DryParts = Parts<PlainHealth, Scripted, Kept, FrozenClock>;

/// Answers the requests of the input, and then prints the trails if they are asked for.
pub(crate) fn dry<R: IoRuntime, I: Inlet, O: Outlet>(
    rt: &R,
    alloc: Global,
    options: &DryOptions,
    input: &mut I,
    output: &mut O,
) -> Result<(), Fault>
    ensures ok { OnOk result (IsDry I.Inlet O.Outlet options.now
        (input.old, output.old) (input.new, output.new)) }
    ensures err { IfErr result (DryFails I.Inlet O.Outlet options.now
        (input.old, output.old) (input.new, output.new)) }
{
    let scripts = scripts_of(alloc, options.outcomes.as_str())?;
    let config = config_of(alloc, options)?;
    let settings = settings_over(alloc, &config, options.settings(config.servers()))?;
    let tracker = Plain::open(alloc, settings)?;
    let mut parts = parts_of(alloc, config, tracker, scripts)?;
    serve(rt, alloc, input, output, &mut parts)?;
    if !options.trail {
        return Ok(());
    }
    let lines = trail_lines(alloc, parts.trails.trails())?;
    write_text(rt, output, &lines)?;
    Ok(())
}

/// The parts of this configuration, over its tracker and its scripts.
fn parts_of(
    alloc: Global,
    config: Config,
    tracker: Plain,
    scripts: Vec<Script>,
) -> Result<DryParts, NoMemory>
    requires { 0 < tracker.settings.threads }
    ensures { IfOk result (AreFresh scripts.items config tracker) }
{
    let servers = config.servers() as usize;
    Ok(Parts {
        backend: Backend {
            health: PlainHealth::new(tracker, 0),
            links: Scripted::new(alloc, servers, scripts)?,
            probers: Probers::new(alloc, default_delays(), servers)?,
            clock: FrozenClock,
        },
        trails: Kept::new(alloc),
        config,
    })
}

/// The delays of probes that no option names.
fn default_delays() -> Delays
    ensures { AreDefaultDelays result }
{
    match Delays::new(FIRST_DELAY, GREATEST_DELAY) {
        Some(delays) => delays,
        None => unreachable!(),
    }
}
