//! When the requests of a client were sent, for an observer that times responses. No contract
//! speaks of moments.
ghost use Rattle.std.specs.Prelude.{◌≡◌};
ghost use Rattle.tko_client.specs.Comings.{is_unsent};

use crate::Sends;
use crate::answering::Answering;
use crate::calls::Went;
use tko_model::Clear;
use tko_mux::Came;
use tko_session::{Parts, Progress, Trails, observe_end};

/// Notes when a request is sent, where one is.
pub(crate) fn note_sent<H, T: Trails, C>(
    it: &mut Answering,
    parts: &Parts<H, Sends, T, C>,
    asked: &Option<Clear>,
)
    ensures { it.new ≡ it.old }
{
    let (Some(clear), Some(moment)) = (asked, parts.trails.now()) else {
        return;
    };
    match &mut it.keys {
        Some(keys) => keys.note_sent(clear.server(), moment),
        None => it.session.note_sent(moment),
    }
}

/// Tells that this server gave a response to a request, where that is what came of it and responses
/// are timed.
pub(crate) fn tell_response<H, T: Trails, C>(
    it: &mut Answering,
    parts: &mut Parts<H, Sends, T, C>,
    server: usize,
    came: &Came,
)
    ensures same { it.new ≡ it.old }
    ensures parts { parts.new ≡ parts.old }
{
    if parts.trails.now().is_none() {
        return;
    }
    let Some(moment) = take_sent(it, server, came) else {
        return;
    };
    if let Came::Response(_) = came {
        parts.trails.responded(server, moment);
    }
}

/// When the request was sent that this came of, which is the last one where it was not sent.
fn take_sent(it: &mut Answering, server: usize, came: &Came) -> Option<u64>
    ensures { it.new ≡ it.old }
{
    match &mut it.keys {
        Some(keys) => keys.take_sent(server, is_unsent(came)),
        None => Some(it.session.sent_moment()),
    }
}

/// Whether the request was not sent.
fn is_unsent(came: &Came) -> bool
    ensures { result ≡ is_unsent came.now }
{
    match came {
        Came::Unsent => true,
        Came::Response(_) | Came::Fate(_) => false,
    }
}

/// Tells that a request whose keys are complete was answered wholly, where its reply was taken.
pub(crate) fn tell_end<H, T: Trails, C>(
    it: &Answering,
    parts: &mut Parts<H, Sends, T, C>,
    went: &Went,
)
    ensures { parts.new ≡ parts.old }
{
    if let Went::On = went {
        observe_end(&it.session, parts, Progress::More);
    }
}
