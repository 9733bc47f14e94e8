//! The header of a schedule: the lines that give its version and its settings.
ghost use Rattle.std.specs.Prelude.{◌≡◌, ◌-◌, Ok, drop, IfOk, IfErr};
ghost use Rattle.tko_bytes.specs.Lines.{lines_of};
ghost use Rattle.tko_runs.specs.ScheduleHeaders.{counts_in, header, one_group_in, settings_in, several_groups_in, with_groups};
ghost use Rattle.tko_runs.specs.Schedules.{IsFault};
ghost use Rattle.tko_runs.specs.Versions.{header_lines};

mod lines;

use crate::schedule::header::lines::{header_list, header_number, in_field, title};
use crate::{ScheduleFault, Version};
use std::alloc::Global;
use tko_model::{OneGroup, Settings};

/// The settings that each version has in the same lines.
#[derive(Clone, Copy)]
pub(crate) struct HeaderSettings {
    pub servers: u32,
    pub threads: u32,
    pub failures: u32,
}

impl HeaderSettings {
    /// The settings with these groups.
    fn with_groups(
        self,
        limits: Vec<u32>,
        group_of: Vec<u32>,
        tries: u32,
        opening_stamp: u64,
    ) -> Settings
        ensures { result ≡ with_groups self limits.items group_of.items tries opening_stamp }
    {
        Settings {
            servers: self.servers,
            threads: self.threads,
            failures: self.failures,
            limits,
            group_of,
            tries,
            opening_stamp,
        }
    }
}

/// The version and the settings of the header at the start of a text, and the rest of the text.
/// The ranges of the settings are not checked.
pub(crate) fn read_header(
    alloc: Global,
    text: &[u8],
) -> Result<(Version, Settings, &[u8]), ScheduleFault>
    ensures ok { IfOk result (λ read.
        header (lines_of text.now) ≡ Ok (record { version = read.0; settings = read.1 })) }
    ensures rest { IfOk result (λ read.
        lines_of read.2.now ≡ drop (header_lines read.0) (lines_of text.now)) }
    ensures err { IfErr result (λ fault. IsFault (header (lines_of text.now)) fault) }
{
    let (version, rest) = title(text)?;
    let (counts, rest) = read_counts(rest)?;
    let (settings, rest) = read_settings(alloc, version, counts, rest)?;
    Ok((version, settings, rest))
}

/// The second line to the fourth.
fn read_counts(text: &[u8]) -> Result<(HeaderSettings, &[u8]), ScheduleFault>
    ensures ok { IfOk result (λ read. counts_in (lines_of text.now) ≡ Ok read.0) }
    ensures rest { IfOk result (λ read. lines_of read.1.now ≡ drop 3 (lines_of text.now)) }
    ensures err { IfErr result (λ fault. IsFault (counts_in (lines_of text.now)) fault) }
{
    let (servers, rest) = header_number(2, b"servers", text)?;
    let (threads, rest) = header_number(3, b"threads", rest)?;
    let (failures, rest) = header_number(4, b"failures", rest)?;
    let counts = HeaderSettings {
        servers: in_field(servers),
        threads: in_field(threads),
        failures: in_field(failures),
    };
    Ok((counts, rest))
}

/// The lines after the fourth.
fn read_settings<'a>(
    alloc: Global,
    version: Version,
    counts: HeaderSettings,
    text: &'a [u8],
) -> Result<(Settings, &'a [u8]), ScheduleFault>
    ensures ok { IfOk result (λ read. settings_in version counts (lines_of text.now) ≡ Ok read.0) }
    ensures rest { IfOk result (λ read.
        lines_of read.1.now ≡ drop (header_lines version - 4) (lines_of text.now)) }
    ensures err { IfErr result (λ fault.
        IsFault (settings_in version counts (lines_of text.now)) fault) }
{
    match version {
        Version::One => read_one_group(alloc, counts, text),
        Version::Two => read_groups(alloc, counts, text),
        Version::Three => read_groups(alloc, counts, text),
    }
}

/// The lines of the first version.
fn read_one_group<'a>(
    alloc: Global,
    counts: HeaderSettings,
    text: &'a [u8],
) -> Result<(Settings, &'a [u8]), ScheduleFault>
    ensures ok { IfOk result (λ read. one_group_in counts (lines_of text.now) ≡ Ok read.0) }
    ensures rest { IfOk result (λ read. lines_of read.1.now ≡ drop 3 (lines_of text.now)) }
    ensures err { IfErr result (λ fault. IsFault (one_group_in counts (lines_of text.now)) fault) }
{
    let (limit, rest) = header_number(5, b"limit", text)?;
    let (tries, rest) = header_number(6, b"tries", rest)?;
    let (stamp, rest) = header_number(7, b"stamp", rest)?;
    let group = OneGroup {
        servers: counts.servers,
        threads: counts.threads,
        failures: counts.failures,
        limit: in_field(limit),
        tries: in_field(tries),
        opening_stamp: stamp,
    };
    let settings = group.settings(alloc)?;
    Ok((settings, rest))
}

/// Those of the other versions.
fn read_groups<'a>(
    alloc: Global,
    counts: HeaderSettings,
    text: &'a [u8],
) -> Result<(Settings, &'a [u8]), ScheduleFault>
    ensures ok { IfOk result (λ read. several_groups_in counts (lines_of text.now) ≡ Ok read.0) }
    ensures rest { IfOk result (λ read. lines_of read.1.now ≡ drop 4 (lines_of text.now)) }
    ensures err { IfErr result (λ fault.
        IsFault (several_groups_in counts (lines_of text.now)) fault) }
{
    let (limits, rest) = header_list(alloc, 5, b"limits", text)?;
    let (groups, rest) = header_list(alloc, 6, b"groups", rest)?;
    let (tries, rest) = header_number(7, b"tries", rest)?;
    let (stamp, rest) = header_number(8, b"stamp", rest)?;
    let settings = counts.with_groups(limits, groups, in_field(tries), stamp);
    Ok((settings, rest))
}
