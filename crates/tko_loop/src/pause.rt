//! How long the poll may wait.
ghost use Rattle.std.specs.Prelude.{◌≡◌, ◌<◌, ◌≤◌, ◌+◌, ℕ, [], IfSome, true, length, slice_get};
ghost use Rattle.std.specs.Bool.{OnFalse, OnTrue};
ghost use Rattle.tko_worker.specs.Turns.{IsNextDue, NoneWanted, ServersRest};
ghost use Rattle.tko_loop.specs.Addresses.{IsLookedUp};
ghost use Rattle.tko_loop.specs.Held.{held_port};
ghost use Rattle.tko_loop.specs.Pauses.{longest, longest_look_up, pause_of};
ghost use Rattle.tko_loop.specs.Waits.{IsWantedAt, MayWait};

use crate::{Addresses, Held};
use tko_port::Talking;
use tko_worker::{EventWorker, Outlook};

/// The longest wait, in milliseconds. A turn without events follows it, for what goes by the clock.
const IDLE_PAUSE: u64 = 100;

/// The longest wait while the addresses of a server are looked up.
const LOOK_UP_PAUSE: u64 = 10;

/// How many milliseconds the poll may wait after a turn that judged by the first moment, where the
/// next one judges by the second. At its end this lies ahead of the worker, and more clients may
/// wait to be taken in or not. A connection that is wanted is begun in the next turn, so that does
/// not wait; one that is being made may be given up for another address at the moment `until`.
pub(crate) fn pause_after<P, T: Talking<P> + Drop, K: Drop>(
    worker: &EventWorker<Held<K>, T, P>,
    servers: &Vec<Addresses>,
    ahead: Outlook,
    until: Option<u64>,
    judged: u64,
    next: u64,
) -> u64
    requires touched { worker.now.clients.touched ≡ [] }
    requires spent { OnTrue ahead.rests (worker.now.clients.spent ≡ []) }
    requires servers { OnTrue ahead.rests (ServersRest held_port judged worker.now.clients.mux.lines
        worker.now.peers.items (length worker.now.peers.items)) }
    requires due { IsNextDue worker.now.clients.mux.lines (length worker.now.peers.items)
        ahead.due }
    requires wants { OnFalse ahead.wants (NoneWanted held_port worker.now.clients.mux.lines
        worker.now.peers.items (length worker.now.peers.items)) }
    ensures may { MayWait judged next result servers.now.items worker.now }
    ensures until { IfSome until (λ moment. 0 < result → next + result ≤ moment) }
{
    let most = longest_wait(worker, servers, ahead);
    let most = pause_of(most, until, next);
    pause_of(most, ahead.due, next)
}

/// How long the poll may wait, where no response is due.
fn longest_wait<P, T: Talking<P> + Drop, K: Drop>(
    worker: &EventWorker<Held<K>, T, P>,
    servers: &Vec<Addresses>,
    ahead: Outlook,
) -> u64
    requires wants { OnFalse ahead.wants (NoneWanted held_port worker.now.clients.mux.lines
        worker.now.peers.items (length worker.now.peers.items)) }
    ensures rests { 0 < result → ahead.rests ≡ true }
    ensures begun { 0 < result → (server : ℕ) → server < length servers.now.items
        → server < length worker.now.peers.items → IsWantedAt worker.now server
        → IsLookedUp (slice_get servers.now.items server) }
    ensures look_up { (server : ℕ) → server < length servers.now.items
        → server < length worker.now.peers.items → IsWantedAt worker.now server
        → result ≤ longest_look_up }
    ensures within { result ≤ longest }
{
    if !ahead.rests {
        return 0;
    }
    if !ahead.wants {
        return IDLE_PAUSE;
    }
    let mut most = IDLE_PAUSE;
    for server in 0..servers.len() {
        if worker.wants(server) {
            if !servers[server].is_looked_up() {
                return 0;
            }
            most = LOOK_UP_PAUSE;
        }
    }
    most
}

/// How many milliseconds of these the poll may wait, where a response is due at this moment and it
/// is now.
fn pause_of(most: u64, due: Option<u64>, now: u64) -> u64
    ensures { result ≡ pause_of most due now }
{
    match due {
        Some(moment) => moment.saturating_sub(now).min(most),
        None => most,
    }
}
