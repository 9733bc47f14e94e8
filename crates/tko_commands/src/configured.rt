//! The configuration that the options name.
ghost use Rattle.std.specs.Prelude.{◌≡◌, ◌≤◌, IfOk, IfErr, map, string_bytes};
ghost use Rattle.tko_model.specs.Limits.{max_servers};
ghost use Rattle.tko_pools.specs.Configs.{in_order};
ghost use Rattle.tko_commands.specs.Configured.{IsConfigured, NoConfig, scripted_names};

use crate::Fault;
use crate::grouped::settings_within;
use std::alloc::Global;
use tko_bytes::NoMemory;
use tko_options::DryOptions;
use tko_pools::Config;

/// The configuration of the JSON, or without one that of as many servers as the options name.
pub(crate) fn config_of(alloc: Global, options: &DryOptions) -> Result<Config, Fault>
    ensures ok { IfOk result (IsConfigured options.now) }
    ensures err { IfErr result (NoConfig options.now) }
{
    match &options.config {
        Some(json) => Ok(Config::read(alloc, json.as_bytes())?),
        None => {
            settings_within(alloc, &options.settings(options.servers))?;
            Ok(scripted_config(alloc, options.servers)?)
        }
    }
}

/// The configuration of `servers` servers, which every key tries in order.
fn scripted_config(alloc: Global, servers: u32) -> Result<Config, NoMemory>
    requires { servers ≤ max_servers }
    ensures { IfOk result (λ config. config ≡ in_order (scripted_names servers)) }
{
    let names = names_of(alloc, servers)?;
    Config::in_order(alloc, names)
}

/// The names of `servers` servers.
fn names_of(alloc: Global, servers: u32) -> Result<Vec<String>, NoMemory>
    ensures { IfOk result (λ names. map string_bytes names.items ≡ scripted_names servers) }
{
    let mut names = Vec::new(alloc);
    for server in 0..servers {
        names.push(format!(in alloc; "dry:{server}")?)?;
    }
    Ok(names)
}
