//! The tracker of a server.
ghost use Rattle.std.specs.Prelude.{◌≡◌, ◌↔◌, Err, IfErr, IfOk, Some};
ghost use Rattle.tko_model.specs.Ranges.{first_fault};
ghost use Rattle.tko_tracker.specs.Seated.{ArePasses};
ghost use Rattle.tko_server.specs.Runs.{IsBeforeStart, tracker_settings};

use crate::{Options, ServerRunFault};
use std::alloc::Global;
use tko_model::{Settings, SettingsFault};
use tko_tracker::{IdlePass, Tracker, open};

/// The tracker of a server with these options, and the passes of its threads.
pub(crate) fn opened(
    alloc: Global,
    options: &Options,
) -> Result<(Tracker, Vec<IdlePass>), ServerRunFault>
    ensures asked { IfOk result (λ made. made.0.settings ≡ tracker_settings options.now) }
    ensures passes { IfOk result (λ made. ArePasses made.0 made.1.items) }
    ensures settings { (fault : SettingsFault) → (result ≡ Err (ServerRunFault.Settings fault))
        ↔ (first_fault (tracker_settings options.now) ≡ Some fault) }
    ensures early { IfErr result IsBeforeStart }
{
    let settings = settings_of(alloc, options)?;
    Ok(open(alloc, settings)?)
}

/// The settings of the tracker: those of the options, over the servers of the configuration. They
/// are checked before they are copied, so that memory running out hides no fault of theirs.
fn settings_of(alloc: Global, options: &Options) -> Result<Settings, ServerRunFault>
    ensures ok { IfOk result (λ settings. settings ≡ tracker_settings options.now) }
    ensures err { (fault : SettingsFault) → (result ≡ Err (ServerRunFault.Settings fault))
        ↔ (first_fault (tracker_settings options.now) ≡ Some fault) }
    ensures early { IfErr result IsBeforeStart }
{
    let servers = options.config.servers();
    options.settings.check_with_servers(servers)?;
    let mut settings = options.settings.try_clone(alloc)?;
    settings.servers = servers;
    Ok(settings)
}
