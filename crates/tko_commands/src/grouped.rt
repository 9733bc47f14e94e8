//! The settings of a tracker over the pools of a configuration.
ghost use Rattle.std.specs.Prelude.{◌≡◌, IfErr, IfOk, length};
ghost use Rattle.tko_model.specs.Ranges.{IsWithinRanges};
ghost use Rattle.tko_model.specs.Settings.{in_one_group};
ghost use Rattle.tko_commands.specs.Grouped.{NoSettings, grouped};

use crate::{Fault, OutsideRange};
use std::alloc::Global;
use tko_model::{OneGroup, Settings};
use tko_pools::Config;

/// These settings over the groups of the configuration's servers. A group has the limit of its
/// pool, or else that of the settings, which has to be in its range even where no group has it.
pub fn settings_over(alloc: Global, config: &Config, options: OneGroup) -> Result<Settings, Fault>
    requires servers { options.servers ≡ length config.now.addresses }
    ensures ok { IfOk result (λ settings. settings ≡ grouped config.now options) }
    ensures within { IfOk result IsWithinRanges }
    ensures options { IfOk result (λ _. IsWithinRanges (in_one_group options)) }
    ensures err { IfErr result (NoSettings options) }
{
    let mut settings = settings_within(alloc, &options)?;
    settings.limits = config.limits(alloc, options.limit)?;
    settings.group_of = config.groups().to_vec(alloc)?;
    Ok(settings)
}

/// These settings over one group, each in its range.
pub(crate) fn settings_within(alloc: Global, options: &OneGroup) -> Result<Settings, Fault>
    ensures ok { IfOk result (λ settings. settings ≡ in_one_group options.now) }
    ensures within { IfOk result IsWithinRanges }
    ensures err { IfErr result (NoSettings options.now) }
{
    let settings = options.settings(alloc)?;
    match settings.check() {
        Ok(()) => Ok(settings),
        Err(setting) => Err(Fault::Settings(OutsideRange::of(options, setting))),
    }
}
