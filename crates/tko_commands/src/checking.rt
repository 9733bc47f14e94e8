//! The command `check`: what a configuration means, or why it is none.
ghost use Rattle.std.specs.Prelude.{IfErr, IfOk, OnOk};
ghost use Rattle.tko_commands.specs.Checks.{CheckFails, HasChecked, IsCheckText, PrintFails, list_of};

use crate::Fault;
use crate::key_lists::counted_keys;
use crate::writing::write_text;
use std::alloc::Global;
use std::fs::Files;
use tko_explain::report;
use tko_io::{Inlet, IoRuntime, Outlet};
use tko_options::CheckOptions;

/// Prints what a configuration means, the targets of the keys, and what is counted of the list of
/// keys.
pub(crate) fn check<R: IoRuntime + Files, I: Inlet, O: Outlet>(
    rt: &R,
    alloc: Global,
    options: &CheckOptions,
    input: &mut I,
    output: &mut O,
) -> Result<(), Fault>
    ensures ok { OnOk result (HasChecked I.Inlet R.File.remaining O.takes options.now
        (input.old, output.old) (input.new, output.new)) }
    ensures err { IfErr result (CheckFails I.failures O.failures options.now
        (input.old, output.old) (input.new, output.new)) }
{
    let text = check_text(rt, alloc, options, input)?;
    write_text(rt, output, &text)?;
    Ok(())
}

/// The text that is printed.
fn check_text<R: IoRuntime + Files, I: Inlet>(
    rt: &R,
    alloc: Global,
    options: &CheckOptions,
    input: &mut I,
) -> Result<Vec<u8>, Fault>
    ensures ok { IfOk result (λ text. IsCheckText I.Inlet R.File.remaining options.now
        input.old input.new text.items) }
    ensures err { IfErr result (PrintFails I.failures options.now (list_of options.now)
        input.old input.new) }
{
    let mut text = report(alloc, options.config.as_str(), &options.keys)?;
    let counted = counted_keys(rt, alloc, options, input)?;
    text.extend_from_slice(&counted)?;
    Ok(text)
}
