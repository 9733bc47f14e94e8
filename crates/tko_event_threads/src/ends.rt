//! How the clients of a worker ended, as it reports and tells it.
ghost use Rattle.std.specs.Prelude.{◌≡◌};
ghost use Rattle.tko_event_threads.specs.Ends.{are_any, report_of};

use tko_metrics::Ending;
use tko_threads::{Metered, WorkerReport};
use tko_worker::EndCounts;

/// Whether a client ended.
pub(crate) fn are_any(ends: &EndCounts) -> bool
    ensures { result ≡ are_any ends.now }
{
    0 < ends.finished
        || 0 < ends.line_too_long
        || 0 < ends.memory
        || 0 < ends.read
        || 0 < ends.write
}

/// What a worker whose clients ended so reports of them.
pub(crate) fn report_of(ends: &EndCounts) -> WorkerReport
    ensures { result ≡ report_of ends.now }
{
    let faults = ends
        .line_too_long
        .saturating_add(ends.memory)
        .saturating_add(ends.read)
        .saturating_add(ends.write);
    WorkerReport {
        sessions: ends.finished.saturating_add(faults),
        faults,
        memory: 0 < ends.memory,
        ledger_full: false,
    }
}

/// Tells the meter and the log how each of these clients ended, if any did.
pub(crate) fn tell_ends(metered: &Metered<'_>, ends: &EndCounts) {
    if !are_any(ends) {
        return;
    }
    tell(metered, ends.finished, Ending::Done);
    tell(metered, ends.line_too_long, Ending::LineTooLong);
    tell(metered, ends.memory, Ending::Memory);
    tell(metered, ends.read, Ending::Read);
    tell(metered, ends.write, Ending::Write);
}

/// Tells that so many clients ended so.
fn tell(metered: &Metered<'_>, count: u64, ending: Ending) {
    for _ in 0..count {
        metered.end_session(ending);
    }
}
