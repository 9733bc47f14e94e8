//! What `serve` says beside its totals and its fault.
ghost use Rattle.std.specs.Prelude.{◌≡◌, ◌++◌, IfOk, OnOk};
ghost use Rattle.tko_cli.specs.Notices.{HasNotice, HasNotices, HasWarnings, notice_bytes, notice_line, use_text};

use std::alloc::Global;
use tko_bytes::NoMemory;
use tko_commands::write_text;
use tko_explain::warnings_of;
use tko_io::{IoRuntime, Outlet};
use tko_model::append_number;
use tko_server::Allotment;

/// What `serve` says on standard error.
#[derive(Clone, Copy, Debug, PartialEq, Eq)]
pub(crate) enum Notice {
    /// What the server needs of descriptors, how many it may have open, and what it does with them.
    Descriptors(Allotment, u64),
    /// The same where it is not known how many it may have open.
    UnknownLimit(Allotment),
    /// No limit on the memory of the process is set.
    NoMemoryLimit,
    /// How many sessions ended by a fault, and how many ended.
    Faults(u64, u64),
    /// Memory ran out in a session or in a round.
    Memory,
    /// The ledger was full.
    LedgerFull,
}

/// The line of a notice.
fn notice_text(alloc: Global, notice: Notice) -> Result<Vec<u8>, NoMemory>
    ensures { IfOk result (λ text. text.items ≡ notice_bytes notice) }
{
    let mut text = Vec::new(alloc);
    append_notice(&mut text, notice)?;
    text.extend_from_slice(b"\n")?;
    Ok(text)
}

fn append_notice(out: &mut Vec<u8>, notice: Notice) -> Result<(), NoMemory>
    ensures { OnOk result (out.new.items ≡ out.old.items ++ notice_line notice) }
{
    match notice {
        Notice::Descriptors(allotment, limit) => {
            append_number(out, b"note: ", allotment.needed)?;
            append_number(out, b" descriptors needed at most, ", limit)?;
            out.extend_from_slice(b" allowed")?;
            append_use(out, allotment)?;
        }
        Notice::UnknownLimit(allotment) => {
            append_number(out, b"note: ", allotment.needed)?;
            out.extend_from_slice(b" descriptors needed at most, limit unknown")?;
            append_use(out, allotment)?;
        }
        Notice::NoMemoryLimit => {
            let text = b"note: no limit on memory is set (ulimit -v, LimitAS of the unit)";
            out.extend_from_slice(text)?;
        }
        Notice::Faults(faults, sessions) => {
            append_number(out, b"note: ", faults)?;
            append_number(out, b" of ", sessions)?;
            out.extend_from_slice(b" sessions ended by a fault")?;
        }
        Notice::Memory => {
            out.extend_from_slice(b"note: memory ran out in a session or in a round")?;
        }
        Notice::LedgerFull => {
            out.extend_from_slice(b"note: a total is too low, since it was full")?;
        }
    }
    Ok(())
}

/// Appends what the server does with its descriptors.
fn append_use(out: &mut Vec<u8>, allotment: Allotment) -> Result<(), NoMemory>
    ensures { OnOk result (out.new.items ≡ out.old.items ++ use_text allotment) }
{
    append_number(out, b": ", u64::from(allotment.workers))?;
    append_number(out, b" workers, ", allotment.clients)?;
    out.extend_from_slice(b" clients at once")?;
    Ok(())
}

/// Writes a notice. It is left out where memory runs out for it, and a failure to write it is not
/// reported.
pub(crate) fn write_notice<R: IoRuntime, F: Outlet>(
    rt: &R,
    alloc: Global,
    outlet: &mut F,
    notice: Notice,
)
    ensures { HasNotice F.takes F.failures outlet.old notice outlet.new }
{
    if let Ok(line) = notice_text(alloc, notice) {
        let _ = write_text(rt, outlet, line.as_slice());
    }
}

/// Writes a notice where there is something to say.
#[tactic(auto, using(crate::proofs::NoticeLemmas::no_notice))]
pub(crate) fn write_notice_if<R: IoRuntime, F: Outlet>(
    rt: &R,
    alloc: Global,
    outlet: &mut F,
    is_told: bool,
    notice: Notice,
)
    ensures { HasNotices F.takes F.failures outlet.old outlet.new }
{
    if is_told {
        write_notice(rt, alloc, outlet, notice);
    }
}

/// Writes what is warned of in the text of a configuration. It is left out where memory runs out
/// for it, and a failure to write it is not reported.
pub(crate) fn write_warnings<R: IoRuntime, F: Outlet>(
    rt: &R,
    alloc: Global,
    outlet: &mut F,
    json: &str,
)
    ensures { HasWarnings F.takes F.failures json.now outlet.old outlet.new }
{
    if let Ok(text) = warnings_of(alloc, json) {
        let _ = write_text(rt, outlet, &text);
    }
}
