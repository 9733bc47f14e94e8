//! What a server comes to.
ghost use Rattle.std.specs.Prelude.{◌≡◌};
ghost use Rattle.tko_server.specs.Endings.{ended_by};

use crate::ServerRunFault;
use tko_accept::AcceptEnd;
use tko_bytes::NoMemory;
use tko_threads::WorkerReport;

/// What the workers of a server met that ended well, and how many connections it accepted.
#[derive(Clone, Copy, Debug)]
pub(crate) struct ServedReport {
    pub(crate) report: WorkerReport,
    pub(crate) accepted: u64,
}

/// The result of a server, by what its workers report, why it stopped accepting, and how many
/// connections it had accepted. Workers that are gone before that mean that memory ran out.
pub(crate) fn ended_by(
    report: Result<WorkerReport, NoMemory>,
    ended: AcceptEnd,
    accepted: u64,
) -> Result<ServedReport, ServerRunFault>
    ensures { result ≡ ended_by report ended accepted }
{
    let report = report?;
    match ended {
        AcceptEnd::Enough => Ok(ServedReport { report, accepted }),
        AcceptEnd::NoWorker => Err(ServerRunFault::Memory),
        AcceptEnd::Broken => Err(ServerRunFault::Accept),
    }
}
