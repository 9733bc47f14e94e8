//! The file of a configuration.
ghost use Rattle.std.specs.Prelude.{◌≡◌, None, Ok, IfOk, IfErr, OnOk, is_some};
ghost use Rattle.tko_commands.specs.Reasons.{HasLineOf, IsFileFault, IsFileReason, IsLoadedCheck, IsLoadedDry, IsLoadedServer, IsReasonFor};

use crate::Fault;
use crate::reasons::reason_line;
use crate::writing::write_text;
use std::alloc::Global;
use std::fs::{File, Files};
use std::io;
use tko_io::{IoRuntime, Outlet};
use tko_options::{CheckOptions, DryOptions, ServeOptions};

/// The options, with the text of their configuration's file in the place of the configuration.
pub(crate) fn loaded_dry<R: IoRuntime + Files, F: Outlet>(
    rt: &R,
    alloc: Global,
    mut options: DryOptions,
    faults: &mut F,
) -> Result<DryOptions, Fault>
    ensures ok { IfOk result (IsLoadedDry options) }
    ensures kept { OnOk result (faults.new ≡ faults.old) }
    ensures err { IfErr result IsFileFault }
    ensures told { IfErr result (λ fault.
        HasLineOf F.takes F.failures (IsReasonFor fault) faults.old faults.new) }
{
    if let Some(json) = load(rt, alloc, &options.config_file, faults)? {
        options.config = Some(json);
    }
    Ok(options)
}

/// The options, with the text of their configuration's file in the place of the configuration.
pub fn loaded_server<R: IoRuntime + Files, F: Outlet>(
    rt: &R,
    alloc: Global,
    mut options: ServeOptions,
    faults: &mut F,
) -> Result<ServeOptions, Fault>
    ensures ok { IfOk result (IsLoadedServer options) }
    ensures kept { OnOk result (faults.new ≡ faults.old) }
    ensures err { IfErr result IsFileFault }
    ensures told { IfErr result (λ fault.
        HasLineOf F.takes F.failures (IsReasonFor fault) faults.old faults.new) }
{
    if let Some(json) = load(rt, alloc, &options.config_file, faults)? {
        options.config = json;
    }
    Ok(options)
}

/// The options, with the text of their configuration's file in the place of the configuration, and
/// that of the file of the one to compare with in the place of that.
pub fn loaded_check<R: IoRuntime + Files, F: Outlet>(
    rt: &R,
    alloc: Global,
    mut options: CheckOptions,
    faults: &mut F,
) -> Result<CheckOptions, Fault>
    ensures ok { IfOk result (IsLoadedCheck options) }
    ensures kept { OnOk result (faults.new ≡ faults.old) }
    ensures err { IfErr result IsFileFault }
    ensures told { IfErr result (λ fault.
        HasLineOf F.takes F.failures (IsReasonFor fault) faults.old faults.new) }
{
    if let Some(json) = load(rt, alloc, &options.config_file, faults)? {
        options.config = json;
    }
    if let Some(json) = load(rt, alloc, &options.against_file, faults)? {
        options.against = Some(json);
    }
    Ok(options)
}

/// The text of a configuration's file, if a path is given. Where the file cannot be read, a line
/// says why.
fn load<R: IoRuntime + Files, F: Outlet>(
    rt: &R,
    alloc: Global,
    path: &Option<String>,
    faults: &mut F,
) -> Result<Option<String>, Fault>
    ensures alone { path.now ≡ None → (result ≡ Ok None) }
    ensures given { IfOk result (λ text. is_some text ≡ is_some path.now) }
    ensures kept { OnOk result (faults.new ≡ faults.old) }
    ensures err { IfErr result IsFileFault }
    ensures told { IfErr result (λ fault.
        HasLineOf F.takes F.failures (IsReasonFor fault) faults.old faults.new) }
{
    let Some(path) = path else {
        return Ok(None);
    };
    match read_file(rt, alloc, path.as_str()) {
        Ok(text) => Ok(Some(text)),
        Err(error) if error.kind() == io::ErrorKind::OutOfMemory => Err(Fault::Memory),
        Err(error) => {
            write_reason(rt, alloc, faults, path.as_str(), &error);
            Err(Fault::ConfigFile)
        }
    }
}

fn read_file<R: Files>(rt: &R, alloc: Global, path: &str) -> io::Result<String> {
    io::read_to_string(alloc, File::open(rt, path)?)
}

/// Writes why a file cannot be read. The line is left out where memory runs out for it, and a
/// failure to write it is not reported.
fn write_reason<R: IoRuntime, F: Outlet>(
    rt: &R,
    alloc: Global,
    faults: &mut F,
    path: &str,
    error: &io::Error,
)
    ensures { HasLineOf F.takes F.failures (IsFileReason path.now) faults.old faults.new }
{
    let Ok(detail) = format!(in alloc; "{error}") else {
        return;
    };
    if let Ok(line) = reason_line(alloc, b"config: ", path, detail.as_str()) {
        let _ = write_text(rt, faults, &line);
    }
}
