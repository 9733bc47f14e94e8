//! What came of a probe, in the words of a worker that waits.
ghost use Rattle.std.specs.Prelude.{◌≡◌};
ghost use Rattle.tko_client.specs.Comings.{result_of};
ghost use Rattle.tko_rounds.specs.Probes.{is_counted_probe, probed_of_came};

use tko_links::{ExchangeNoMemory, Outcome};
use tko_mux::Came;
use tko_pipe::Fate;
use tko_prober::Probed;

/// What came of a probe. Where memory ran out for it, it is not counted.
pub(crate) fn result_of(came: Came) -> Result<Outcome, ExchangeNoMemory>
    ensures { result ≡ result_of came }
{
    match came {
        Came::Response(response) => Ok(Outcome::Reply(response)),
        Came::Fate(Fate::Refused) => Ok(Outcome::Refused),
        Came::Fate(Fate::Timeout) => Ok(Outcome::Timeout),
        Came::Fate(Fate::Broken) => Ok(Outcome::Broken),
        Came::Fate(Fate::Aborted) => Ok(Outcome::Aborted),
        Came::Fate(Fate::Memory) => Err(ExchangeNoMemory { sent: false }),
        Came::Unsent => Err(ExchangeNoMemory { sent: false }),
    }
}

/// What the prober takes for the result of its probe.
pub(crate) fn probed_by(came: &Came) -> Probed
    ensures { result ≡ probed_of_came came.now }
{
    match came {
        Came::Response(_) => Probed::Answered,
        Came::Fate(Fate::Refused) => Probed::Refused,
        Came::Fate(Fate::Timeout) => Probed::Failed,
        Came::Fate(Fate::Broken) => Probed::Failed,
        Came::Fate(Fate::Aborted) => Probed::Failed,
        Came::Fate(Fate::Memory) => Probed::Failed,
        Came::Unsent => Probed::Failed,
    }
}

/// Whether it counts as a probe.
pub(crate) fn is_probe(came: &Came) -> bool
    ensures { result ≡ is_counted_probe came.now }
{
    match came {
        Came::Response(_) => true,
        Came::Fate(Fate::Refused) => true,
        Came::Fate(Fate::Timeout) => true,
        Came::Fate(Fate::Broken) => true,
        Came::Fate(Fate::Aborted) => true,
        Came::Fate(Fate::Memory) => false,
        Came::Unsent => false,
    }
}
