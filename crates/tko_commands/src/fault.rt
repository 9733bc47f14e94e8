//! Why a command fails, and the line that reports it.
ghost use Rattle.std.specs.Prelude.{◌≡◌};
ghost use Rattle.tko_commands.specs.Faults.{config_name, setting_name};

use crate::{ListenFault, OutsideRange, RefusedDelays, UnreadKeys};
use std::error::Error;
use std::fmt;
use tko_model::SettingsFault;
use tko_pools::ConfigFault;

/// Why a command ended with status 1. It prints as the line that reports it, without its LF.
#[derive(Debug, Drop)]
pub enum Fault {
    Read,
    Write,
    LineTooLong,
    Memory,
    /// The first setting outside its range.
    Settings(OutsideRange),
    /// Why the text is no configuration.
    Config(ConfigFault),
    /// Why the text of the configuration that keys are compared with is none.
    Against(ConfigFault),
    /// The file of the configuration cannot be read.
    ConfigFile,
    /// The file of the list of keys cannot be read.
    KeysFile(UnreadKeys),
    /// The number of the first bad word of `--outcomes`, counted from 1.
    Outcomes(usize),
    /// The number of a schedule's first bad line, counted from 1; 0 where the text is too long.
    Line(u32),
    /// The check refuses the run that was played.
    Check,
    /// The first delay of probes is 0 or above the greatest.
    Delays(RefusedDelays),
    /// Why nothing can listen at the address that clients are to connect to.
    Listen(ListenFault),
    /// Why nothing can listen at the address of the metrics.
    Metrics(ListenFault),
    /// The listener failed.
    Accept,
}

impl fmt::Display for Fault {
    ghost use Rattle.std.specs.Prelude.{Some};
    ghost use Rattle.tko_commands.specs.Faults.{fault_line};

    ghost output = { λ fault. Some (fault_line fault) };

    fn fmt<W: fmt::Write>(&self, f: &mut fmt::Formatter<W>) -> fmt::Result {
        match self {
            Fault::Read => f.write_str("fault: read"),
            Fault::Write => f.write_str("fault: write"),
            Fault::LineTooLong => f.write_str("fault: line too long"),
            Fault::Memory => f.write_str("fault: memory"),
            Fault::Settings(outside) => {
                let name = setting_name(outside.setting);
                write!(f, "fault: settings {name}")
            }
            Fault::Config(cause) => {
                let name = config_name(cause);
                write!(f, "fault: config {name}")
            }
            Fault::Against(cause) => {
                let name = config_name(cause);
                write!(f, "fault: against {name}")
            }
            Fault::ConfigFile => f.write_str("fault: config file"),
            Fault::KeysFile(_) => f.write_str("fault: keys file"),
            Fault::Outcomes(number) => write!(f, "fault: outcomes {number}"),
            Fault::Line(number) => write!(f, "fault: schedule line {number}"),
            Fault::Check => f.write_str("fault: check"),
            Fault::Delays(_) => f.write_str("fault: delays"),
            Fault::Listen(_) => f.write_str("fault: listen"),
            Fault::Metrics(_) => f.write_str("fault: metrics"),
            Fault::Accept => f.write_str("fault: accept"),
        }
    }
}

impl Error for Fault {}

/// The word that names a setting.
pub(crate) fn setting_name(setting: SettingsFault) -> &'static str
    ensures { result.now ≡ setting_name setting }
{
    match setting {
        SettingsFault::Servers => "servers",
        SettingsFault::Threads => "threads",
        SettingsFault::Failures => "failures",
        SettingsFault::Limit => "limit",
        SettingsFault::Tries => "tries",
        SettingsFault::Stamp => "stamp",
        SettingsFault::Groups => "groups",
    }
}

/// The word that names why a text is no configuration.
fn config_name(cause: &ConfigFault) -> &'static str
    ensures { result.now ≡ config_name cause.now }
{
    match cause {
        ConfigFault::Json => "json",
        ConfigFault::NoPools => "no-pools",
        ConfigFault::EmptyPool(_) => "empty-pool",
        ConfigFault::Address(_) => "address",
        ConfigFault::SoftLimit(_) => "soft-limit",
        ConfigFault::PoolKey(key, _) => key.word(),
        ConfigFault::Route => "route",
        ConfigFault::NoSuchPool(_) => "no-such-pool",
        ConfigFault::TooManyServers => "too-many-servers",
        ConfigFault::Memory => "memory",
    }
}
