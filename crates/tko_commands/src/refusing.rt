//! Faults on standard error: the line of each, and before it the line that says why, where there is
//! one.
ghost use Rattle.std.specs.Prelude.{◌≡◌, ◌<◌, OnOk, OnErr};
ghost use Rattle.tko_commands.specs.FaultLines.{HasFaultLine, IsFaultWritten, IsReasonTold, IsToldAfter};
ghost use Rattle.tko_commands.specs.Reasons.{IsListenReason, IsMetricsReason};

use crate::key_lists::against_of;
use crate::reasons::{
    write_address_reason, write_config_reason, write_delays_reason, write_keys_reason,
    write_range_reason,
};
use crate::writing::{WriteFault, write_text};
use crate::{Fault, ListenFault, OutsideRange, RefusedDelays, UnreadKeys};
use std::alloc::Global;
use tko_io::{IoRuntime, Outlet};
use tko_options::CheckOptions;
use tko_pools::ConfigFault;

/// The status of a command that ended by a fault.
const FAILED: u8 = 1;

/// Reports why a text is no configuration, and then the fault. Returns its status.
pub fn refuse_config<R: IoRuntime, F: Outlet>(
    rt: &R,
    alloc: Global,
    faults: &mut F,
    json: &str,
    cause: ConfigFault,
) -> u8
    ensures status { result ≡ 1 }
    ensures fault { IsReasonTold F.takes F.failures (λ fault. fault ≡ Fault.Config cause)
        faults.old faults.new }
{
    write_config_reason(rt, alloc, faults, json, &cause);
    fail(rt, alloc, faults, Fault::Config(cause))
}

/// Reports why the text that keys are compared with is no configuration, and then the fault.
/// Returns its status.
pub(crate) fn refuse_against<R: IoRuntime, F: Outlet>(
    rt: &R,
    alloc: Global,
    faults: &mut F,
    options: &CheckOptions,
    cause: ConfigFault,
) -> u8
    ensures status { result ≡ 1 }
    ensures fault { IsReasonTold F.takes F.failures (λ fault. fault ≡ Fault.Against cause)
        faults.old faults.new }
{
    write_config_reason(rt, alloc, faults, against_of(options).unwrap_or(""), &cause);
    fail(rt, alloc, faults, Fault::Against(cause))
}

/// Reports which option gives a setting outside its range, where one does, and then the fault.
/// Returns its status.
pub fn refuse_settings<R: IoRuntime, F: Outlet>(
    rt: &R,
    alloc: Global,
    faults: &mut F,
    outside: OutsideRange,
) -> u8
    ensures status { result ≡ 1 }
    ensures fault { IsReasonTold F.takes F.failures (λ fault. fault ≡ Fault.Settings outside)
        faults.old faults.new }
{
    write_range_reason(rt, alloc, faults, outside);
    fail(rt, alloc, faults, Fault::Settings(outside))
}

/// Reports why delays of probes are refused, and then the fault. Returns its status.
pub fn refuse_delays<R: IoRuntime, F: Outlet>(
    rt: &R,
    alloc: Global,
    faults: &mut F,
    delays: RefusedDelays,
) -> u8
    ensures status { result ≡ 1 }
    ensures fault { IsReasonTold F.takes F.failures (λ fault. fault ≡ Fault.Delays delays)
        faults.old faults.new }
{
    write_delays_reason(rt, alloc, faults, delays);
    fail(rt, alloc, faults, Fault::Delays(delays))
}

/// Reports why the file of a list of keys cannot be read, and then the fault. Returns its status.
pub(crate) fn refuse_keys<R: IoRuntime, F: Outlet>(
    rt: &R,
    alloc: Global,
    faults: &mut F,
    unread: UnreadKeys,
) -> u8
    ensures status { result ≡ 1 }
    ensures fault { IsReasonTold F.takes F.failures (λ fault. fault ≡ Fault.KeysFile unread)
        faults.old faults.new }
{
    write_keys_reason(rt, alloc, faults, &unread);
    fail(rt, alloc, faults, Fault::KeysFile(unread))
}

/// Reports why nothing can listen at an address, and then the fault. Returns its status.
pub fn refuse_listen<R: IoRuntime, F: Outlet>(
    rt: &R,
    alloc: Global,
    faults: &mut F,
    address: &str,
    cause: ListenFault,
) -> u8
    ensures status { result ≡ 1 }
    ensures fault { IsToldAfter F.takes F.failures (IsListenReason cause address.now)
        (Fault.Listen cause) faults.old faults.new }
{
    write_address_reason(rt, alloc, faults, b"listen: ", address, &cause);
    fail(rt, alloc, faults, Fault::Listen(cause))
}

/// Reports why nothing can listen at the address of the metrics, and then the fault. Returns its
/// status.
pub fn refuse_metrics<R: IoRuntime, F: Outlet>(
    rt: &R,
    alloc: Global,
    faults: &mut F,
    address: &str,
    cause: ListenFault,
) -> u8
    ensures status { result ≡ 1 }
    ensures fault { IsToldAfter F.takes F.failures (IsMetricsReason cause address.now)
        (Fault.Metrics cause) faults.old faults.new }
{
    write_address_reason(rt, alloc, faults, b"metrics: ", address, &cause);
    fail(rt, alloc, faults, Fault::Metrics(cause))
}

/// Reports a fault and returns its status. A failure to report it is not reported.
pub fn fail<R: IoRuntime, F: Outlet>(rt: &R, alloc: Global, faults: &mut F, fault: Fault) -> u8
    ensures status { result ≡ 1 }
    ensures fault { IsFaultWritten F.takes F.failures fault faults.old faults.new }
{
    let _ = write_fault(rt, alloc, faults, fault);
    FAILED
}

/// Writes the line of a fault, or that memory ran out.
fn write_fault<R: IoRuntime, F: Outlet>(
    rt: &R,
    alloc: Global,
    faults: &mut F,
    fault: Fault,
) -> Result<(), WriteFault>
    ensures ok { OnOk result (HasFaultLine F.takes fault faults.old faults.new) }
    ensures err { OnErr result (F.failures faults.old < F.failures faults.new) }
{
    match format!(in alloc; "{fault}\n") {
        Ok(line) => write_text(rt, faults, line.as_bytes()),
        Err(_) => write_text(rt, faults, b"fault: memory\n"),
    }
}
