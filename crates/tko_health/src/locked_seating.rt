//! Seats at one tracker in a lock.
ghost use Rattle.std.specs.List.{range_with_len};
ghost use Rattle.std.specs.Prelude.{◌≡◌, ◌<◌, ◌↔◌, All, IfOk, Some};
ghost use Rattle.tko_model.specs.Ranges.{first_fault};
ghost use Rattle.tko_health.specs.Locked.{IsSeatOf, OwnsNone};
ghost use Rattle.tko_health.specs.Seating.{ReleasesMarks};

use crate::health::Health;
use crate::locked_health::LockedHealth;
use crate::locked_tracker::{LockedSeat, LockedTracker, TrackerSettings};
use crate::seating::Seating;
use std::alloc::Global;
use std::marker::{Model, PhantomData};
use std::sync::{Arc, Mutex, Wait};
use tko_bytes::NoMemory;
use tko_model::{OpenFault, Plain, Settings, SettingsFault};

/// A thread's seat at a tracker in a lock, while no worker uses it: no mark is the thread's own.
/// Contracts see the thread's number.
#[derive(Drop)]
pub struct LockedIdle<S: TrackerSettings> {
    health: LockedHealth<S>,
}

impl<S: TrackerSettings> Model for LockedIdle<S> {
    ghost use Rattle.std.specs.Prelude.{ℕ};
    ghost use Rattle.tko_health.specs.Locked.{OwnsNone};

    ghost Value = { ℕ };

    ghost view = { λ i. i.health.thread };

    ghost invariant = { λ i. OwnsNone i.health };
}

impl<S: TrackerSettings> LockedIdle<S> {
    /// The number that its marks name.
    pub fn thread(&self) -> u32
        ensures thread { result ≡ self.now }
        ensures within { result < S.settings.threads }
    {
        self.health.thread()
    }
}

/// Seats the threads that share one tracker in a lock. Each idle seat has a handle of its own on
/// the tracker, so seating takes no memory.
#[derive(Drop)]
pub struct LockedSeating<S: TrackerSettings> {
    of: PhantomData<S>,
}

impl<S: TrackerSettings> LockedSeating<S> {
    /// Opens a tracker whose servers are all up, with an idle seat for each thread, in the order of
    /// their numbers.
    pub fn open(
        alloc: Global,
        settings: Settings,
    ) -> Result<(LockedSeating<S>, Vec<LockedIdle<S>>), OpenFault>
        requires { settings ≡ S.settings }
        ensures seats { IfOk result (λ opened.
            opened.1.items ≡ range_with_len 0 settings.threads) }
        ensures own { IfOk result (λ opened.
            All (λ idle. idle < S.settings.threads) opened.1.items) }
        ensures settings { (fault : SettingsFault) →
            (result ≡ Err (OpenFault.Settings fault)) ↔ (first_fault settings ≡ Some fault) }
    {
        let plain = match Plain::open(alloc, settings) {
            Ok(plain) => plain,
            Err(fault) => return Err(fault),
        };
        match idle_seats(alloc, plain) {
            Ok(seats) => Ok((LockedSeating { of: PhantomData }, seats)),
            Err(NoMemory) => Err(OpenFault::Memory),
        }
    }
}

/// An idle seat for each thread, at this tracker in a lock.
fn idle_seats<S: TrackerSettings>(
    alloc: Global,
    plain: Plain,
) -> Result<Vec<LockedIdle<S>>, NoMemory>
    requires { plain.settings ≡ S.settings }
    ensures { IfOk result (λ seats. seats.items ≡ range_with_len 0 S.settings.threads) }
{
    let threads = plain.settings().threads;
    let servers = plain.settings().servers as usize;
    let tracker = Arc::new(alloc, Mutex::new(LockedTracker::new(plain)))?;
    let mut seats = Vec::with_capacity(alloc, threads as usize)?;
    for thread in 0..threads {
        seats.push(idle_seat(alloc, &tracker, servers, thread)?)?;
    }
    Ok(seats)
}

/// The idle seat of this number at a tracker in a lock.
fn idle_seat<S: TrackerSettings>(
    alloc: Global,
    tracker: &Arc<Mutex<LockedTracker<S>>>,
    servers: usize,
    thread: u32,
) -> Result<LockedIdle<S>, NoMemory>
    requires servers { servers ≡ S.settings.servers }
    requires thread { thread < S.settings.threads }
    ensures { IfOk result (λ idle. idle ≡ thread) }
{
    let seat = LockedSeat::new(alloc, servers, thread)?;
    let health = LockedHealth::new(Arc::try_clone(tracker)?, seat);
    Ok(LockedIdle { health })
}

impl<S: TrackerSettings> Seating for LockedSeating<S> {
    type Idle = LockedIdle<S>;

    type Worker = LockedHealth<S>;

    ghost servers = { λ s. S.settings.servers };

    ghost own = { λ s idle. idle < S.settings.threads };

    ghost begins = { λ s idle worker. IsSeatOf idle worker };

    ghost gives_back = { λ s worker idle. IsSeatOf idle worker };

    fn seat(&self, idle: LockedIdle<S>) -> LockedHealth<S> {
        idle.health
    }

    /// Releases each server, so that no mark is the thread's own.
    fn leave<R: Wait>(&self, rt: &R, worker: LockedHealth<S>) -> LockedIdle<S> {
        let mut health = worker;
        release_all(rt, &mut health);
        let _thread = health.thread();
        LockedIdle { health }
    }
}

/// Releases each server.
fn release_all<R: Wait, S: TrackerSettings>(rt: &R, health: &mut LockedHealth<S>)
    ensures releases { ReleasesMarks ⟦<LockedHealth<S> as Health>⟧.steps health.old health.new }
    ensures none { OwnsNone health.new }
{
    let _thread = health.thread();
    for server in 0..health.servers() {
        health.release(rt, server);
    }
}
