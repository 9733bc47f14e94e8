//! What is warned of in the addresses that the options of `serve` give.
ghost use Rattle.std.specs.Prelude.{IfOk, codes, option_map, string_bytes};
ghost use Rattle.tko_cli.specs.Notices.{AreOptionNotes, IsNoteIfAny};
ghost use Rattle.tko_commands.specs.Reasons.{HasLineOf};

use std::alloc::Global;
use tko_bytes::NoMemory;
use tko_commands::write_text;
use tko_explain::odd_address;
use tko_io::{IoRuntime, Outlet};
use tko_options::ServeOptions;

/// Writes what is warned of in the addresses that the options give. It is left out where memory
/// runs out for it, and a failure to write it is not reported.
pub(crate) fn write_odd_options<R: IoRuntime, F: Outlet>(
    rt: &R,
    alloc: Global,
    outlet: &mut F,
    options: &ServeOptions,
)
    ensures { HasLineOf F.takes F.failures (AreOptionNotes options.now) outlet.old outlet.new }
{
    if let Ok(text) = option_notes(alloc, options) {
        let _ = write_text(rt, outlet, &text);
    }
}

/// A line for each of these addresses that is odd.
fn option_notes(alloc: Global, options: &ServeOptions) -> Result<Vec<u8>, NoMemory>
    ensures { IfOk result (λ text. AreOptionNotes options.now text.items) }
{
    let mut text = odd_address(alloc, "--listen", options.listen.as_str())?;
    let metrics = metrics_note(alloc, options)?;
    text.extend_from_slice(&metrics)?;
    Ok(text)
}

/// What is said of the address of the metrics, if one is given.
fn metrics_note(alloc: Global, options: &ServeOptions) -> Result<Vec<u8>, NoMemory>
    ensures { IfOk result (λ note. IsNoteIfAny (codes "--metrics")
        (option_map string_bytes options.now.metrics) note.items) }
{
    match &options.metrics {
        Some(address) => odd_address(alloc, "--metrics", address.as_str()),
        None => Ok(Vec::new(alloc)),
    }
}
