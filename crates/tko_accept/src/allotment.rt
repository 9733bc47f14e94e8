//! How many descriptors a server needs, and what it does with fewer.
ghost use Rattle.std.specs.Prelude.{◌≡◌, ◌<◌, ◌≤◌, ◌⊎◌, ◌+◌, ◌-◌, ◌*◌, ◌^◌, MatchOption, max};
ghost use Rattle.std.specs.Prelude.{min, unwrap_or};
ghost use Rattle.tko_accept.specs.Allotments.{Fits, FitsEvents, HasClients, IsUnlimited};
ghost use Rattle.tko_accept.specs.Allotments.{clients_without_limit, event_files, look_up_files};
ghost use Rattle.tko_accept.specs.Allotments.{most_of_worker, needed_by_events, needed_files};

/// The descriptors that belong to no worker and no client: the standard streams, the listener, and
/// twelve to spare.
const OTHERS: u64 = 16;

/// How many accepted connections may wait for a worker that serves one client at a time.
pub const MAX_QUEUED: u64 = 64;

/// How many descriptors the system's resolver opens for a worker while it looks up a host's name.
const LOOK_UP_FILES: u64 = 2;

/// How many descriptors an event-driven worker has open beside its connections to the servers: its
/// poll, its waker, and a new connection that is about to replace another.
const OF_EVENTS: u64 = 3;

/// The most clients of an event-driven server whose options and descriptors do not limit them.
const CLIENTS_WITHOUT_LIMIT: u64 = u32::MAX as u64;

/// How many descriptors a server needs, and how many workers and clients fit into its limit.
#[derive(Clone, Copy, Debug, PartialEq, Eq)]
pub struct Allotment {
    /// How many descriptors are open at most if nothing limits them, or 2^64 - 1 if they are more.
    pub needed: u64,
    /// How many workers serve clients.
    pub workers: u32,
    /// How many clients may be connected at once: those that are served, and those that wait.
    pub clients: u64,
}

impl Allotment {
    /// The allotment of workers that serve one client at a time, if the process may have at most
    /// `limit` descriptors open. Each worker has a connection to each server and a client, and
    /// looks up the name of one host at a time. There is at least one worker and one client, even
    /// if they do not fit.
    pub fn of(limit: Option<u64>, threads: u32, servers: u32) -> Allotment
        requires { 0 < threads }
        ensures needed { result.needed ≡ needed_files threads servers }
        ensures allotted { MatchOption limit (IsUnlimited threads result)
            (λ limit. Fits limit threads (servers + look_up_files)
            result.workers result.clients) }
    {
        let needed = needed_files(threads, servers);
        let (workers, clients) = match limit {
            Some(limit) => fitting(limit, threads, u64::from(servers) + LOOK_UP_FILES),
            None => (threads, u64::from(threads) + MAX_QUEUED),
        };
        Allotment {
            needed,
            workers,
            clients,
        }
    }

    /// The allotment of event-driven workers, each of which has a connection to each server. The
    /// number of clients does not depend on that of workers: it is `clients`, or as many as fit.
    pub fn of_events(
        limit: Option<u64>,
        threads: u32,
        servers: u32,
        clients: Option<u64>,
    ) -> Allotment
        requires some { 0 < threads }
        requires asked { MatchOption clients (Unit {0}) (λ count. 0 < count) }
        ensures needed { result.needed ≡ needed_by_events threads servers
            (unwrap_or clients result.clients) }
        ensures allotted { MatchOption limit
            (HasClients threads (unwrap_or clients clients_without_limit) result)
            (λ limit. FitsEvents limit threads (servers + event_files)
            (unwrap_or clients clients_without_limit) result.workers result.clients) }
    {
        let asked = clients.unwrap_or(CLIENTS_WITHOUT_LIMIT);
        let (workers, fit) = match limit {
            Some(limit) => fitting_events(limit, threads, u64::from(servers) + OF_EVENTS, asked),
            None => (threads, asked),
        };
        Allotment {
            needed: needed_by_events(threads, servers, clients.unwrap_or(fit)),
            workers,
            clients: fit,
        }
    }
}

/// How many descriptors workers that serve one client at a time have open at most.
fn needed_files(threads: u32, servers: u32) -> u64
    ensures { result ≡ needed_files threads servers }
{
    let each = u64::from(servers) + LOOK_UP_FILES + 1;
    u64::from(threads)
        .saturating_mul(each)
        .saturating_add(OTHERS + MAX_QUEUED)
}

/// How many descriptors event-driven workers with this many clients have open at most.
fn needed_by_events(threads: u32, servers: u32, clients: u64) -> u64
    ensures { result ≡ needed_by_events threads servers clients }
{
    let each = u64::from(servers) + OF_EVENTS;
    u64::from(threads)
        .saturating_mul(each)
        .saturating_add(OTHERS)
        .saturating_add(clients)
}

/// How many workers that serve one client at a time, and how many clients, fit into a limit. A
/// worker has `each` descriptors beside its client's.
fn fitting(limit: u64, threads: u32, each: u64) -> (u32, u64)
    requires some { 0 < threads }
    requires each { each ≤ most_of_worker }
    ensures { Fits limit threads each result.0 result.1 }
{
    let free = limit.saturating_sub(OTHERS);
    let workers = number_of_workers(free, threads, each);
    let clients = number_of_clients(free, workers, each, u64::from(workers) + MAX_QUEUED);
    (workers, clients)
}

/// How many event-driven workers, and how many clients of the `asked` ones, fit into a limit.
fn fitting_events(limit: u64, threads: u32, each: u64, asked: u64) -> (u32, u64)
    requires some { 0 < threads }
    requires each { each ≤ most_of_worker }
    requires asked { 0 < asked }
    ensures { FitsEvents limit threads each asked result.0 result.1 }
{
    let free = limit.saturating_sub(OTHERS);
    let workers = number_of_workers(free, threads, each);
    (workers, number_of_clients(free, workers, each, asked))
}

/// How many workers fit, each with one client, but at least one.
fn number_of_workers(free: u64, threads: u32, each: u64) -> u32
    requires some { 0 < threads }
    requires each { each ≤ most_of_worker }
    ensures some { (0 < result) × (result ≤ threads) }
    ensures fit { (each + 1 ≤ free) → (result * (each + 1) ≤ free) }
    ensures only { free ≤ each → result ≡ 1 }
    ensures greatest { (result ≡ threads) ⊎ (free < (result + 1) * (each + 1)) }
{
    let fit = free / (each + 1);
    let workers = fit.min(u64::from(threads)).max(1);
    workers as u32
}

/// How many clients fit beside these workers: at most `asked`, and at least one.
fn number_of_clients(free: u64, workers: u32, each: u64, asked: u64) -> u64
    requires reserved { workers * each < 2 ^ 64 }
    ensures { result ≡ max 1 (min asked (free - workers * each)) }
{
    let reserved = u64::from(workers) * each;
    free.saturating_sub(reserved).min(asked).max(1)
}
