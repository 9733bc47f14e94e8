//! What came of a request for keys that were handed over, which takes these on.
ghost use Rattle.std.specs.Prelude.{◌≡◌, ◌≢◌, ◌<◌, [], false, true, Err, IfSome, IsSome, Ok};
ghost use Rattle.std.specs.Prelude.{length, slice_index};
ghost use Rattle.tko_links.specs.Links.{is_sent, most_sends};
ghost use Rattle.tko_pools.specs.Configs.{Configuration};
ghost use Rattle.tko_keys.specs.KeysDriven.{AreUnderWay};
ghost use Rattle.tko_keys.specs.KeysState.{first_send, keys_first};
ghost use Rattle.tko_client.specs.Answerings.{AreReadyForOutcome};
ghost use Rattle.tko_client.specs.Counts.{AreSendsCounted};
ghost use Rattle.tko_client.specs.Keys.{HasStoppedAs, HaveActedOnOutcome};
ghost use Rattle.tko_client.specs.Steps.{HasStayed, client_ghosts};

use crate::Sends;
use crate::counting::count_sends;
use crate::keys::go_on_all;
use std::alloc::Global;
use tko_io::IoRuntime;
use tko_keys::KeysAtOnce;
use tko_links::Outcome;
use tko_route::Health;
use tko_session::{Parts, Trails};

/// Takes what came of the first request that is under way at a server, which is counted once for
/// each of its keys and recorded once. Each of them goes on then.
pub(crate) fn take_keys<R: IoRuntime, H: Health, T: Trails, C>(
    rt: &R,
    alloc: Global,
    keys: &mut KeysAtOnce,
    parts: &mut Parts<H, Sends, T, C>,
    server: usize,
    outcome: Outcome,
)
    requires servers { H.servers parts.old.backend.health ≡ length parts.old.config.addresses }
    requires links { server < length parts.old.backend.links }
    requires ready { AreReadyForOutcome parts.old.config server keys.old }
    requires sent { is_sent outcome ≡ true }
    ensures taken { HaveActedOnOutcome (client_ghosts H.Health T.Trails) false server (Ok outcome)
        (keys.old, parts.old) (keys.new, parts.new) }
    ensures stays { HasStayed H.servers parts.old parts.new }
{
    count_keys(rt, keys, parts, server);
    keys.arrive(rt, alloc, &mut parts.backend.health, server, outcome);
    go_on_all(rt, alloc, keys, parts);
}

/// Counts a send for each key of the first request under way at a server.
fn count_keys<R: IoRuntime, H, T: Trails, C>(
    rt: &R,
    keys: &KeysAtOnce,
    parts: &mut Parts<H, Sends, T, C>,
    server: usize,
)
    requires links { server < length parts.old.backend.links }
    requires awaits { IsSome (first_send server keys.now.sends) }
    ensures { IfSome (keys_first server keys.now)
        (λ count. AreSendsCounted server count parts.old parts.new) }
{
    count_sends(rt, parts, server, keys.keys_to(server));
}

/// Memory ran out for the first request that is under way at a server, or before the last one was
/// sent. Its keys are dropped, and no other key is begun.
pub(crate) fn stop_keys<R: IoRuntime, H: Health, T: Trails, C>(
    rt: &R,
    alloc: Global,
    keys: &mut KeysAtOnce,
    parts: &mut Parts<H, Sends, T, C>,
    server: usize,
    unsent: bool,
)
    requires servers { H.servers parts.old.backend.health ≡ length parts.old.config.addresses }
    requires room { slice_index parts.old.backend.links server ≢ most_sends }
    requires ready { AreReadyForOutcome parts.old.config server keys.old }
    ensures taken { HaveActedOnOutcome (client_ghosts H.Health T.Trails) unsent server
        (Err (record { sent = false })) (keys.old, parts.old) (keys.new, parts.new) }
    ensures stays { HasStayed H.servers parts.old parts.new }
{
    stop_send(alloc, keys, server, unsent);
    go_on_all(rt, alloc, keys, parts);
}

/// The keys of that request are to be dropped.
fn stop_send(alloc: Global, keys: &mut KeysAtOnce, server: usize, unsent: bool)
    requires awaits { IsSome (first_send server keys.old.sends) }
    requires settled { keys.old.came.places ≡ [] }
    ensures stopped { HasStoppedAs unsent server keys.old keys.new }
    ensures ready { (config : Configuration) → AreUnderWay config keys.old
        → AreUnderWay config keys.new }
{
    if unsent {
        keys.unsent(alloc, server);
    } else {
        keys.stop(alloc, server);
    }
}
