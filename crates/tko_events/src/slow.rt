//! Servers whose requests time out without a mark.
ghost use Rattle.std.specs.Prelude.{◌≡◌};
ghost use Rattle.tko_events.specs.Events.{is_slow, leaves_in_use};

use tko_links::Outcome;
use tko_model::Reply;

/// Whether an attempt that came to this, and to which the health replied so, timed out and left the
/// server in use.
pub(crate) fn is_slow(outcome: &Outcome, reply: Reply) -> bool
    ensures { result ≡ is_slow outcome.now reply }
{
    matches!(outcome, Outcome::Timeout) && leaves_in_use(reply)
}

/// Whether the server is not marked, once the health replied so to a soft failure.
fn leaves_in_use(reply: Reply) -> bool
    ensures { result ≡ leaves_in_use reply }
{
    matches!(
        reply,
        Reply::Counted(_) | Reply::Full | Reply::Worn | Reply::Contended
    )
}
