//! Sends that are counted.
ghost use Rattle.std.specs.Prelude.{◌≡◌, ◌≢◌, ◌+◌, ◌<◌, ℕ, true, length, slice_index};
ghost use Rattle.tko_links.specs.Links.{most_sends, part_of};
ghost use Rattle.tko_reply.specs.Interactions.{with_links};
ghost use Rattle.tko_client.specs.Counts.{AreSendsCounted};

use crate::Sends;
use tko_io::IoRuntime;
use tko_session::{Parts, Trails};

/// Counts so many sends to a server, one for each key of a request, and tells how often it was sent
/// to.
pub(crate) fn count_sends<R: IoRuntime, H, T: Trails, C>(
    rt: &R,
    parts: &mut Parts<H, Sends, T, C>,
    server: usize,
    keys: usize,
)
    requires { server < length parts.old.backend.links }
    ensures { AreSendsCounted server keys parts.old parts.new }
{
    for _ in 0..keys {
        count_send(rt, parts, server);
    }
    parts.trails.sent(server, parts.backend.links.of(server));
}

/// Counts a send.
fn count_send<R: IoRuntime, H, T: Trails, C>(
    rt: &R,
    parts: &mut Parts<H, Sends, T, C>,
    server: usize,
)
    requires { server < length parts.old.backend.links }
    ensures counted { (at : ℕ) → slice_index parts.new.backend.links at
        ≡ slice_index parts.old.backend.links at + part_of true server at }
    ensures room { slice_index parts.old.backend.links server ≢ most_sends }
    ensures servers { length parts.new.backend.links ≡ length parts.old.backend.links }
    ensures others { parts.new ≡ with_links parts.new.backend.links parts.old }
{
    parts.backend.links.room(rt, server);
    parts.backend.links.count(rt, server);
}

/// Tells how often a server was sent to, where a send to it was not possible.
pub(crate) fn tell_unsent<R: IoRuntime, H, T: Trails, C>(
    rt: &R,
    parts: &mut Parts<H, Sends, T, C>,
    server: usize,
)
    requires { server < length parts.old.backend.links }
    ensures room { slice_index parts.old.backend.links server ≢ most_sends }
    ensures same { parts.new ≡ parts.old }
{
    parts.backend.links.room(rt, server);
    parts.trails.sent(server, parts.backend.links.of(server));
}
