//! A pool of two, of which each needs the other at work.
ghost use Rattle.std.specs.Prelude.{◌≡◌, All, IfOk, length};
ghost use Rattle.tko_tracker.specs.Seated.{ArePasses};
ghost use Rattle.tko_threads.specs.Workers.{AreMembersReady, IsEquipped};

use super::gate::Gate;
use super::screen::OneClient;
use super::staged::{Meets, Staged};
use crate::{Account, Member, WorkerParts, pool};
use std::alloc::Global;
use std::marker::Brand;
use std::net::{Net, TcpListener, TcpStream};
use std::sync::{Mutex, Wait};
use std::test::Fail;
use std::thread::Threads;
use std::time::Clock;
use tko_desk::{Book, Share};
use tko_events::WorkerLog;
use tko_health::{Health, Seating, SharedSeating};
use tko_io::FrozenClock;
use tko_links::{Script, Scripted};
use tko_model::OneGroup;
use tko_pools::Config;
use tko_prober::{Delays, Probers};
use tko_tracker::{IdlePass, Named, Tracker, open};

/// One server and two threads.
const SETTINGS: OneGroup = OneGroup {
    threads: 2,
    ..OneGroup::SMALL
};

/// What the client of each member sends.
const REQUEST: &[u8] = b"get a\r\n";

/// What two members share.
#[derive(Drop)]
struct PoolShared<S> {
    seating: S,
    book: Mutex<Book>,
    text: Mutex<Vec<u8>>,
    gate: Gate,
}

/// One of the two.
type Overlapping<'a, P, S> = Member<'a, OneClient<'a>, P, S, Staged<'a>, FrozenClock>;

impl<P: Drop, S: Seating<Idle = P>> PoolShared<S> {
    /// A member with one client for each seat. The first has the first of the two requests.
    fn members<'a>(
        &'a self,
        alloc: Global,
        seats: Vec<P>,
        shares: &'a mut [Share],
    ) -> Result<Vec<Overlapping<'a, P, S>>, Fail>
        requires own { All (λ idle. S.own self.now.seating idle) seats.items }
        requires servers { S.servers self.now.seating ≡ 1 }
        ensures ready { IfOk result (λ members. AreMembersReady S.own S.servers
            (λ links. length links.inner.sends) members.items) }
    {
        let mut members = Vec::new(alloc);
        for (idle, share) in seats.into_iter().zip(shares.iter_mut()) {
            let is_first = members.is_empty();
            members.push(Member {
                source: OneClient {
                    bytes: Some(REQUEST),
                    text: &self.text,
                },
                idle,
                parts: self.parts(alloc, is_first, share)?,
            })?;
        }
        Ok(members)
    }

    /// What one of them works with.
    fn parts<'a>(
        &'a self,
        alloc: Global,
        is_first: bool,
        share: &'a mut Share,
    ) -> Result<WorkerParts<'a, S, Staged<'a>, FrozenClock>, Fail>
        requires servers { S.servers self.now.seating ≡ 1 }
        ensures equipped { IfOk result (λ parts.
            IsEquipped S.servers (λ links. length links.inner.sends) parts) }
        ensures seating { IfOk result (λ parts. parts.seating.now ≡ self.now.seating) }
    {
        let mut scripts = Vec::new(alloc);
        scripts.push(Script::Bytes(b"END\r\n".to_vec(alloc)?))?;
        Ok(WorkerParts {
            seating: &self.seating,
            links: Staged {
                inner: Scripted::new(alloc, 1, scripts)?,
                meets: if is_first {
                    Meets::FirstAt(&self.gate)
                } else {
                    Meets::SecondAt(&self.gate)
                },
            },
            config: config(alloc)?,
            probers: Probers::new(alloc, Delays::new(10_000, 60_000).ok_or("delays")?, 1)?,
            clock: FrozenClock,
            account: Account {
                book: &self.book,
                share,
            },
            log: WorkerLog::off(),
        })
    }
}

/// The configuration of one server.
fn config(alloc: Global) -> Result<Config, Fail>
    ensures { IfOk result (λ config. length config.addresses ≡ 1) }
{
    let mut addresses = Vec::new(alloc);
    addresses.push(String::from_str(alloc, "s:1")?)?;
    Ok(Config::in_order(alloc, addresses)?)
}

/// What a pool of two came to.
#[derive(Drop)]
struct PoolEnded {
    workers: usize,
    late: bool,
    text: Vec<u8>,
}

/// Runs both as a pool, with these seats.
fn run_both<
    R: Wait + Net<Stream = TcpStream, Listener = TcpListener> + Clock + Threads + Sync,
    P: Drop + Send,
    H: Health + Drop + Send,
    S: Seating<Idle = P, Worker = H> + Drop + Sync,
>(rt: &R, alloc: Global, seating: S, seats: Vec<P>) -> Result<PoolEnded, Fail>
    requires own { All (λ idle. S.own seating idle) seats.items }
    requires servers { S.servers seating ≡ 1 }
{
    let (book, mut shares) = Book::open(alloc, 0, 2)?;
    let shared = PoolShared {
        seating,
        book: Mutex::new(book),
        text: Mutex::new(Vec::new(alloc)),
        gate: Gate::new(),
    };
    let members = shared.members(alloc, seats, &mut shares)?;
    let workers = pool(rt, alloc, members)?.len();
    Ok(PoolEnded {
        workers,
        late: shared.gate.is_late(),
        text: shared.text.into_inner(),
    })
}

/// Both over the tracker that `N` names.
fn run_both_at<
    R: Wait + Net<Stream = TcpStream, Listener = TcpListener> + Clock + Threads + Sync,
    N: Named + Send + Sync,
>(rt: &R, alloc: Global, tracker: &Tracker, passes: Vec<IdlePass>) -> Result<PoolEnded, Fail>
    requires named { tracker.now ≡ N.tracker }
    requires passes { ArePasses N.tracker passes.items }
    requires servers { N.tracker.settings.servers ≡ 1 }
{
    run_both(rt, alloc, SharedSeating::<N>::new(tracker, 1), passes)
}

#[test]
fn workers_overlap(rt: HostRuntime) -> Result<(), Fail> {
    let _sockets: Option<(TcpStream, TcpListener)> = None;
    let (tracker, passes) = open(rt.alloc(), SETTINGS.settings(rt.alloc())?)?;
    let ended = run_both_at::<_, Brand>(&rt, rt.alloc(), &tracker, passes)?;
    assert_eq!(rt; ended.workers, 2);
    assert!(rt; !ended.late);
    assert_eq!(rt; ended.text.as_slice(), b"END\r\nEND\r\n".as_slice());
    Ok(())
}
