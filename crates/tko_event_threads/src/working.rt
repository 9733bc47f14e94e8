//! A worker: one thread that serves many clients at once.
ghost use Rattle.std.specs.Prelude.{◌≡◌, IfOk, length, replicate};
ghost use Rattle.tko_health.specs.Seating.{Leaves};
ghost use Rattle.tko_event_threads.specs.Worked.{HasEventWorked, IsEventEquipped, IsMeansOf};
ghost use Rattle.tko_event_threads.specs.Worked.{IsWaysOf};

use crate::accounted::Accounted;
use crate::host::EventHost;
use crate::origin::{Opening, Origin};
use crate::seated::SeatHealth;
use std::alloc::Global;
use std::marker::Brand;
use std::sync::Wait;
use std::sync::atomic::AtomicU64;
use tko_accept::FirstAsk;
use tko_bytes::NoMemory;
use tko_client::{Lent, Sends};
use tko_events::WorkerLog;
use tko_health::{Health, Seating};
use tko_io::IoRuntime;
use tko_keys::KeyPlan;
use tko_loop::{Addresses, EventLoop, LoopEntry, LoopLimits};
use tko_pools::Config;
use tko_prober::{Backend, Probers};
use tko_rounds::Rounds;
use tko_session::Parts;
use tko_threads::{Account, Metered, WorkerReport, leave};

/// What an event-driven worker works with: the seating that its seat is of, the configuration, the
/// probers, its account, its end of the log and of the meter; and for its loop the addresses of the
/// servers, the limits, how the keys of a request are sent, where clients come, and with whom it
/// reports that it asks for them.
#[derive(Drop)]
pub struct EventParts<'a, S, K> {
    pub seating: &'a S,
    pub config: Config,
    pub probers: Probers,
    pub account: Account<'a>,
    pub log: WorkerLog,
    pub servers: Vec<Addresses>,
    pub limits: LoopLimits,
    /// How the keys of one request are sent.
    pub keys: KeyPlan,
    pub way_in: LoopEntry<K>,
    pub first_ask: FirstAsk,
}

/// What a worker works with beside its loop.
#[derive(Drop)]
struct WorkerMeans<'a, S> {
    seating: &'a S,
    config: Config,
    probers: Probers,
    account: Account<'a>,
    log: WorkerLog,
}

/// What the loop of a worker is made of.
#[derive(Drop)]
struct Ways<K> {
    servers: Vec<Addresses>,
    limits: LoopLimits,
    keys: KeyPlan,
    way_in: LoopEntry<K>,
    first_ask: FirstAsk,
}

/// What the sessions of a worker's clients share. Nothing of it reads a clock: the loop does.
type LentOf<'r, 'a, 'm, R, N, H> = Lent<'r, R, SeatHealth<N, H>, Accounted<'a, 'm, N>, ()>;

/// Serves the clients that come, until no client is left and none can come. At the end of each turn
/// of events a round is run, and where clients ended the account is settled. At the end the worker
/// gives up its marks, and gives its seat back.
///
/// If memory runs out before there is a loop, those that wait to be taken in are closed, and the
/// report has its memory flag. So it has where the system does not let the loop wait for events
/// any more.
pub fn event_worker<R: IoRuntime, H: Health + Drop, S: Seating<Worker = H>, K: Drop>(
    rt: &R,
    alloc: Global,
    idle: S::Idle,
    parts: EventParts<'_, S, K>,
) -> (S::Idle, WorkerReport)
    requires own { S.own parts.seating.now idle }
    requires equipped { IsEventEquipped S.servers parts }
    ensures own { S.own parts.entry.seating.now result.0 }
    ensures worked { HasEventWorked H.steps (S.begins parts.entry.seating.now idle)
        (Leaves H.steps (S.gives_back parts.entry.seating.now))
        (λ share. share ≡ parts.entry.account.share.now) result }
{
    work::<Brand, R, H, S, K>(rt, alloc, idle, parts)
}

/// The same, where the type names where the worker began.
fn work<N: Origin<H> + Opening, R: IoRuntime, H: Health + Drop, S: Seating<Worker = H>, K: Drop>(
    rt: &R,
    alloc: Global,
    idle: S::Idle,
    parts: EventParts<'_, S, K>,
) -> (S::Idle, WorkerReport)
    requires own { S.own parts.seating.now idle }
    requires equipped { IsEventEquipped S.servers parts }
    requires seated { (health : H) → S.begins parts.seating.now idle health
        → N.seated health }
    requires opened { N.opened parts.account.share.now }
    ensures own { S.own parts.entry.seating.now result.0 }
    ensures worked { HasEventWorked H.steps N.seated
        (Leaves H.steps (S.gives_back parts.entry.seating.now)) N.opened result }
{
    let requests = AtomicU64::new(0);
    let (means, ways) = split_parts(parts);
    let counts = no_counts(alloc, means.config.addresses().len());
    let health: SeatHealth<N, H> = SeatHealth::new(means.seating.seat(idle));
    let metered = Metered::new(means.log, &requests);
    let trails: Accounted<'_, '_, N> = Accounted::new(metered, means.account);
    let Ok((links, rounds)) = counts else {
        return end(rt, means.seating, health, trails, 0, true);
    };
    let shared = shared_parts(health, links, means.probers, trails, means.config);
    let lent = Lent::new(rt, alloc, shared);
    serve_all(rt, alloc, means.seating, lent, rounds, ways)
}

/// What a worker works with beside its loop, and what its loop is made of.
fn split_parts<'a, S, K>(parts: EventParts<'a, S, K>) -> (WorkerMeans<'a, S>, Ways<K>)
    ensures means { IsMeansOf parts.entry result.0 }
    ensures ways { IsWaysOf parts.entry result.1 }
{
    let means = WorkerMeans {
        seating: parts.seating,
        config: parts.config,
        probers: parts.probers,
        account: parts.account,
        log: parts.log,
    };
    let ways = Ways {
        servers: parts.servers,
        limits: parts.limits,
        keys: parts.keys,
        way_in: parts.way_in,
        first_ask: parts.first_ask,
    };
    (means, ways)
}

/// What the sessions of a worker's clients share.
fn shared_parts<'a, 'm, N: Origin<H> + Opening, H: Health + Drop>(
    health: SeatHealth<N, H>,
    links: Sends,
    probers: Probers,
    trails: Accounted<'a, 'm, N>,
    config: Config,
) -> Parts<SeatHealth<N, H>, Sends, Accounted<'a, 'm, N>, ()>
    ensures health { result.backend.health ≡ health }
    ensures links { result.backend.links ≡ links }
    ensures probers { result.backend.probers ≡ probers }
    ensures trails { result.trails ≡ trails.entry }
    ensures config { result.config ≡ config }
{
    let backend = Backend {
        health,
        links,
        probers,
        clock: (),
    };
    Parts {
        backend,
        trails,
        config,
    }
}

/// No server was sent to or probed yet.
fn no_counts(alloc: Global, servers: usize) -> Result<(Sends, Rounds), NoMemory>
    ensures { IfOk result (λ counts. counts.0 ≡ replicate servers 0) }
{
    let sends = Sends::new(alloc, servers)?;
    let rounds = Rounds::new(alloc, servers)?;
    Ok((sends, rounds))
}

/// Runs the loop over these parts until it is over, and ends the worker.
fn serve_all<
    N: Origin<H> + Opening,
    R: IoRuntime,
    H: Health + Drop,
    S: Seating<Worker = H>,
    K: Drop,
>(
    rt: &R,
    alloc: Global,
    seating: &S,
    lent: LentOf<'_, '_, '_, R, N, H>,
    rounds: Rounds,
    ways: Ways<K>,
) -> (S::Idle, WorkerReport)
    ensures own { S.own seating.now result.0 }
    ensures worked { HasEventWorked H.steps N.seated
        (Leaves H.steps (S.gives_back seating.now)) N.opened result }
{
    let Ways {
        servers,
        limits,
        keys,
        way_in,
        first_ask,
    } = ways;
    let mut host = EventHost::new(rt, rounds, keys);
    lent.parts
        .trails
        .set_no_load(lent.parts.backend.probers.servers());
    let (lent, ran_out) = match EventLoop::new(rt, alloc, way_in, lent, servers, limits) {
        Ok(mut it) => {
            first_ask.report(rt);
            let ran = it.run(rt, alloc, &mut host);
            (it.into_parts(), ran.is_err())
        }
        Err(lent) => (lent, true),
    };
    let Parts {
        backend,
        trails,
        ..
    } = lent.parts;
    trails.set_no_load(backend.probers.servers());
    end(rt, seating, backend.health, trails, host.probes(), ran_out)
}

/// Settles the account once more, and gives the seat back. Memory ran out for the worker, or did
/// not, and so many probes were sent in all.
fn end<N: Origin<H> + Opening, R: IoRuntime, H: Health + Drop, S: Seating<Worker = H>>(
    rt: &R,
    seating: &S,
    health: SeatHealth<N, H>,
    trails: Accounted<'_, '_, N>,
    sent: u64,
    ran_out: bool,
) -> (S::Idle, WorkerReport)
    ensures own { S.own seating.now result.0 }
    ensures worked { HasEventWorked H.steps N.seated
        (Leaves H.steps (S.gives_back seating.now)) N.opened result }
{
    let mut trails = trails;
    trails.note_short(ran_out);
    trails.settle(rt, sent);
    let (metered, report) = trails.into_end();
    let health = health.into_health();
    (leave(rt, seating, health, &metered), report)
}
