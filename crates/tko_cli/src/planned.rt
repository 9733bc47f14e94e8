//! What `serve` runs on, read from its options before anything is opened.
ghost use Rattle.std.specs.Prelude.{◌≡◌, IfErr, IfOk, option_map, string_bytes};
ghost use Rattle.tko_cli.specs.Planned.{IsServePlan, IsServerOf, NoPlan, is_address_if_any, serve_grouping, serve_keys, serve_patience};
ghost use Rattle.tko_cli.specs.Serving.{IsNamed};

use crate::open_files::open_file_limit;
use std::alloc::Global;
use std::fs::{File, Files};
use tko_commands::{Fault, ListenFault, RefusedDelays, settings_over};
use tko_keys::{Grouping, KeyPlan};
use tko_model::Settings;
use tko_options::ServeOptions;
use tko_pools::{Config, is_address};
use tko_prober::Delays;
use tko_server::Patience;

/// What the options of `serve` name.
#[derive(Drop)]
pub(crate) struct ServePlan {
    pub config: Config,
    pub settings: Settings,
    pub delays: Delays,
}

impl ServePlan {
    /// What a server is started with, in a process that may have `open_files` files open.
    pub fn server(self, options: &ServeOptions, open_files: Option<u64>) -> tko_server::Options
        ensures { IsServerOf self options.now open_files result }
    {
        tko_server::Options {
            config: self.config,
            settings: self.settings,
            delays: self.delays,
            timeout: options.timeout,
            patience: patience_of(options),
            open_files,
            clients: options.clients,
            keys: keys_of(options),
            connections: options.connections,
        }
    }
}

/// How the keys of one request are sent.
fn keys_of(options: &ServeOptions) -> KeyPlan
    ensures { result ≡ serve_keys options.now }
{
    KeyPlan {
        most: options.keys_at_once as usize,
        grouping: grouping_of(options.group_keys),
    }
}

/// Whether the keys that go to one server go out in one request.
fn grouping_of(group_keys: bool) -> Grouping
    ensures { result ≡ serve_grouping group_keys }
{
    if group_keys {
        Grouping::ByServer
    } else {
        Grouping::ByKey
    }
}

/// How long the server waits for a client.
fn patience_of(options: &ServeOptions) -> Patience
    ensures { result ≡ serve_patience options.now }
{
    Patience {
        write_timeout: options.write_timeout,
        idle_timeout: options.idle_timeout,
    }
}

/// A server that the options name, in a process with the open files that the system allows it.
pub(crate) fn named_server<R: Files<File = File>>(
    rt: &R,
    alloc: Global,
    options: &ServeOptions,
) -> Result<tko_server::Options, Fault>
    ensures ok { IfOk result (IsNamed options.now) }
    ensures err { IfErr result (NoPlan options.now) }
{
    let plan = plan_of(alloc, options)?;
    Ok(plan.server(options, open_file_limit(rt, alloc)))
}

/// Reads what the options name, in the order configuration, settings, delays, addresses.
fn plan_of(alloc: Global, options: &ServeOptions) -> Result<ServePlan, Fault>
    ensures ok { IfOk result (IsServePlan options.now) }
    ensures err { IfErr result (NoPlan options.now) }
{
    let config = Config::read(alloc, options.config.as_bytes())?;
    let settings = settings_over(alloc, &config, options.settings(config.servers()))?;
    let (first, greatest) = (options.first_delay, options.greatest_delay);
    let Some(delays) = Delays::new(first, greatest) else {
        return Err(Fault::Delays(RefusedDelays { first, greatest }));
    };
    if !is_address(options.listen.as_bytes()) {
        return Err(Fault::Listen(ListenFault::NoAddress));
    }
    if !is_address_if_any(&options.metrics) {
        return Err(Fault::Metrics(ListenFault::NoAddress));
    }
    Ok(ServePlan {
        config,
        settings,
        delays,
    })
}

/// Whether there is no text, or it is an address.
fn is_address_if_any(text: &Option<String>) -> bool
    ensures { result ≡ is_address_if_any (option_map string_bytes text.now) }
{
    match text {
        Some(address) => is_address(address.as_bytes()),
        None => true,
    }
}
