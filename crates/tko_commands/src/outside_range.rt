//! A setting outside its range, and the option that gives it.
ghost use Rattle.std.specs.Prelude.{◌≡◌, IfOk};
ghost use Rattle.tko_commands.specs.Faults.{without_option};
ghost use Rattle.tko_commands.specs.OutsideRanges.{option_of, option_range, outside_of, range_line};

use crate::fault::setting_name;
use std::alloc::Global;
use tko_bytes::NoMemory;
use tko_model::{
    Layout, MAX_LIMIT, MAX_SERVERS, MAX_TRIES, OneGroup, SettingsFault, append_number,
};

/// A setting outside its range.
#[derive(Clone, Copy, Debug, PartialEq, Eq)]
pub struct OutsideRange {
    pub setting: SettingsFault,
    /// What the option of this name gives; none for a setting of a schedule, or where there is no
    /// option for it.
    pub option: Option<OptionRange>,
}

/// The number that an option gives, and the range that it has to be in, both ends included.
#[derive(Clone, Copy, Debug, PartialEq, Eq)]
pub struct OptionRange {
    pub value: u32,
    pub least: u32,
    pub most: u32,
}

impl OutsideRange {
    /// Of a setting that these options give.
    pub(crate) fn of(options: &OneGroup, setting: SettingsFault) -> OutsideRange
        ensures { result ≡ outside_of options.now setting }
    {
        OutsideRange {
            setting,
            option: option_of(options, setting),
        }
    }

    /// Of a setting that no option gives.
    pub(crate) fn without_option(setting: SettingsFault) -> OutsideRange
        ensures { result ≡ without_option setting }
    {
        OutsideRange {
            setting,
            option: None,
        }
    }
}

/// What these options give for a setting.
fn option_of(options: &OneGroup, setting: SettingsFault) -> Option<OptionRange>
    ensures { result ≡ option_of options.now setting }
{
    match setting {
        SettingsFault::Servers => option_range(options.servers, 1, MAX_SERVERS),
        SettingsFault::Threads => option_range(options.threads, 1, Layout::Two.max_threads()),
        SettingsFault::Failures => option_range(options.failures, 1, Layout::Two.max_failures()),
        SettingsFault::Limit => option_range(options.limit, 0, MAX_LIMIT),
        SettingsFault::Tries => option_range(options.tries, 1, MAX_TRIES),
        SettingsFault::Stamp => None,
        SettingsFault::Groups => None,
    }
}

fn option_range(value: u32, least: u32, most: u32) -> Option<OptionRange>
    ensures { result ≡ option_range value least most }
{
    Some(OptionRange { value, least, most })
}

/// The line that says which option gives a number outside which range.
pub(crate) fn range_line(
    alloc: Global,
    setting: SettingsFault,
    range: OptionRange,
) -> Result<Vec<u8>, NoMemory>
    ensures { IfOk result (λ line. line.items ≡ range_line setting range) }
{
    let mut line = Vec::from_slice(alloc, b"settings: --")?;
    line.extend_from_slice(setting_name(setting).as_bytes())?;
    append_number(&mut line, b" ", u64::from(range.value))?;
    append_number(&mut line, b": from ", u64::from(range.least))?;
    append_number(&mut line, b" to ", u64::from(range.most))?;
    line.extend_from_slice(b"\n")?;
    Ok(line)
}
