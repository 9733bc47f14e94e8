//! Why there is a fault, in a line before that of the fault.
ghost use Rattle.std.specs.Prelude.{◌++◌, ◌≡◌, IfOk, codes};
ghost use Rattle.tko_explain.specs.Reasons.{IsReasonOf};
ghost use Rattle.tko_commands.specs.OutsideRanges.{IsDelaysReason, IsRangeReason};
ghost use Rattle.tko_commands.specs.Reasons.{HasLineOf, IsAddressReason, IsKeysReason};

use crate::outside_range::range_line;
use crate::refused_delays::delays_line;
use crate::writing::write_text;
use crate::{ListenFault, OutsideRange, RefusedDelays, UnreadKeys};
use std::alloc::Global;
use tko_bytes::NoMemory;
use tko_explain::reason;
use tko_io::{IoRuntime, Outlet};
use tko_pools::ConfigFault;

/// Writes why a text is no configuration, where this is the cause. The line is left out where
/// memory runs out for it, and a failure to write it is not reported.
pub(crate) fn write_config_reason<R: IoRuntime, F: Outlet>(
    rt: &R,
    alloc: Global,
    faults: &mut F,
    json: &str,
    cause: &ConfigFault,
)
    ensures { HasLineOf F.takes F.failures (IsReasonOf json.now cause.now) faults.old faults.new }
{
    if let Ok(line) = reason(alloc, json.as_bytes(), cause) {
        let _ = write_text(rt, faults, &line);
    }
}

/// Writes which option gives a setting outside its range, where one does. The line is left out
/// where memory runs out for it, and a failure to write it is not reported.
pub(crate) fn write_range_reason<R: IoRuntime, F: Outlet>(
    rt: &R,
    alloc: Global,
    faults: &mut F,
    outside: OutsideRange,
)
    ensures { HasLineOf F.takes F.failures (IsRangeReason outside) faults.old faults.new }
{
    let Some(range) = outside.option else {
        return;
    };
    if let Ok(line) = range_line(alloc, outside.setting, range) {
        let _ = write_text(rt, faults, &line);
    }
}

/// Writes why delays of probes are refused. The line is left out where memory runs out for it, and
/// a failure to write it is not reported.
pub(crate) fn write_delays_reason<R: IoRuntime, F: Outlet>(
    rt: &R,
    alloc: Global,
    faults: &mut F,
    delays: RefusedDelays,
)
    ensures { HasLineOf F.takes F.failures (IsDelaysReason delays) faults.old faults.new }
{
    if let Ok(line) = delays_line(alloc, delays) {
        let _ = write_text(rt, faults, &line);
    }
}

/// Writes why the file of a list of keys cannot be read. The line is left out where memory runs out
/// for it, and a failure to write it is not reported.
pub(crate) fn write_keys_reason<R: IoRuntime, F: Outlet>(
    rt: &R,
    alloc: Global,
    faults: &mut F,
    unread: &UnreadKeys,
)
    ensures { HasLineOf F.takes F.failures (IsKeysReason unread.now) faults.old faults.new }
{
    let (path, words) = (unread.path.as_str(), unread.words.as_str());
    if let Ok(line) = reason_line(alloc, b"keys: ", path, words) {
        let _ = write_text(rt, faults, &line);
    }
}

/// Writes why nothing can listen at an address, after this word. The line is left out where memory
/// runs out for it, and a failure to write it is not reported.
pub(crate) fn write_address_reason<R: IoRuntime, F: Outlet>(
    rt: &R,
    alloc: Global,
    faults: &mut F,
    word: &[u8],
    address: &str,
    cause: &ListenFault,
)
    ensures { HasLineOf F.takes F.failures (IsAddressReason word.now cause.now address.now)
        faults.old faults.new }
{
    if let Ok(line) = reason_line(alloc, word, address, cause.words()) {
        let _ = write_text(rt, faults, &line);
    }
}

/// The line that says of a place what is wrong there.
pub(crate) fn reason_line(
    alloc: Global,
    before: &[u8],
    place: &str,
    words: &str,
) -> Result<Vec<u8>, NoMemory>
    ensures { IfOk result (λ line. line.items
        ≡ before.now ++ place.now ++ codes ": " ++ words.now ++ codes "\n") }
{
    let mut line = Vec::from_slice(alloc, before)?;
    line.extend_from_slice(place.as_bytes())?;
    line.extend_from_slice(b": ")?;
    line.extend_from_slice(words.as_bytes())?;
    line.extend_from_slice(b"\n")?;
    Ok(line)
}
