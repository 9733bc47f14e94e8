//! The servers' hosts whose names have to be looked up.
ghost use Rattle.std.specs.Prelude.{◌≡◌, ◌<◌, IfOk, IfSome, Some, length, string_bytes};
ghost use Rattle.std.specs.Arc.{arc_value};
ghost use Rattle.std.specs.Bool.{OnTrue};
ghost use Rattle.tko_tcp.specs.declared.host_state.HostState.{HostState};
ghost use Rattle.tko_tcp.specs.ExchangeTimes.{IsLater};
ghost use Rattle.tko_tcp.specs.Hosts.{IsNext};
ghost use Rattle.tko_tcp.specs.ServerHosts.{name_at};

use crate::addresses::ResolvedAddresses;
use crate::exchange_time::ExchangeTime;
use crate::host_state::{ConnectStep, HostState};
use crate::reached::ReachedServer;
use crate::tcp_address::host_and_port;
use std::alloc::{AllocError, Global};
use std::net::IpAddr;
use std::sync::atomic::{AtomicBool, AtomicU64, Ordering};
use std::sync::{Arc, Mutex, Wait};
use tko_bytes::NoMemory;
use tko_io::IoRuntime;

/// How many values the low half of a counter has.
const LOW_HALF: u64 = 1 << 32;

/// The servers' hosts that have a name, and the addresses known for each. All workers and the
/// thread that looks the names up share them. A host that is given by its IP address is not among
/// them.
#[derive(Drop)]
pub struct Names {
    pub(crate) shared: Arc<SharedNames, Global>,
}

#[derive(Drop)]
pub(crate) struct SharedNames {
    pub(crate) hosts: Vec<HostEntry>,
    /// The servers at these hosts.
    pub(crate) servers: Vec<ReachedServer>,
    /// Changes whenever a look-up is requested, and by `end`.
    pub(crate) asks: AtomicU64,
    /// Changes whenever a look-up has ended.
    pub(crate) answers: AtomicU64,
    pub(crate) is_ended: AtomicBool,
}

/// A host with a name, and what is known of it.
#[derive(Drop)]
pub(crate) struct HostEntry {
    pub(crate) name: String,
    pub(crate) state: Mutex<HostState>,
}

impl Names {
    /// The named hosts of these addresses, each once. Requests a look-up of each.
    pub fn open(alloc: Global, addresses: &[String]) -> Result<Names, NoMemory> {
        let mut hosts = Vec::new(alloc);
        let mut servers = Vec::new(alloc);
        for number in 0..addresses.len() {
            let address = addresses[number].as_str();
            if let Some(name) = name_in(address) {
                let host = add(alloc, &mut hosts, name)?;
                servers.push(ReachedServer::new(alloc, address, number, host)?)?;
            }
        }
        let shared = SharedNames {
            hosts,
            servers,
            asks: AtomicU64::new(0),
            answers: AtomicU64::new(0),
            is_ended: AtomicBool::new(false),
        };
        let shared = Arc::new(alloc, shared)?;
        Ok(Names { shared })
    }

    /// Another handle of the same hosts, for another thread.
    pub fn another(&self) -> Result<Names, AllocError>
        ensures { IfOk result (λ names. arc_value names.shared ≡ arc_value self.now.shared) }
    {
        let shared = Arc::try_clone(&self.shared)?;
        Ok(Names { shared })
    }

    /// Whether no host has to be looked up.
    pub fn is_empty(&self) -> bool {
        self.shared.hosts.is_empty()
    }

    /// Ends `look_up_all`: no further host is looked up.
    pub fn end(&self) {
        self.shared.is_ended.store(true, Ordering::SeqCst);
        self.wake_resolver();
    }

    /// The host with this name.
    pub(crate) fn host(&self, name: &str) -> Option<&HostEntry>
        ensures { IfSome result (λ host. string_bytes host.now.name ≡ name.now) }
    {
        self.shared
            .hosts
            .iter()
            .find(|host| host.name.as_str() == name)
    }

    /// The index of the host with this name.
    pub(crate) fn place(&self, name: &str) -> Option<usize>
        ensures { IfSome result (λ place.
            name_at (arc_value self.now.shared).hosts.items place ≡ Some name.now) }
    {
        for place in 0..self.shared.hosts.len() {
            if self.shared.hosts[place].has_name(name) {
                return Some(place);
            }
        }
        None
    }

    /// The index of the server with this address, if its host has a name.
    pub(crate) fn server_at(&self, address: &str) -> Option<usize> {
        self.shared.servers.iter().position(|it| it.is_at(address))
    }

    /// At which of its host's addresses a connection to the server with this index was made last,
    /// by any worker.
    pub(crate) fn reached(&self, server: usize) -> Option<usize> {
        self.shared.servers.get(server)?.place()
    }

    /// A connection to the server with this index was made at this one of its host's addresses.
    pub(crate) fn reach(&self, server: usize, place: usize) {
        if let Some(it) = self.shared.servers.get(server) {
            it.reach(place);
        }
    }

    /// What a connect to the host at `place` does next, for a caller that must not wait. If no
    /// address is known, requests a look-up, unless one has ended since the caller last asked:
    /// `since` is the number of ended look-ups at that time.
    pub(crate) fn next<R: Wait>(&self, rt: &R, place: usize, since: Option<u64>) -> ConnectStep
        requires { place < length (arc_value self.now.shared).hosts.items }
        ensures { (old new : HostState) × IsNext old since result new }
    {
        let step = self.shared.hosts[place].next(rt, since);
        if let ConnectStep::Wait(_) = &step {
            self.wake_resolver();
        }
        step
    }

    /// Requests a look-up of the host at `place`.
    pub(crate) fn ask_at<R: Wait>(&self, rt: &R, place: usize)
        requires { place < length (arc_value self.now.shared).hosts.items }
    {
        self.ask(rt, &self.shared.hosts[place]);
    }

    /// Returns the addresses of a host. If none are known, waits until a look-up has ended, but not
    /// longer than the exchange has time; None if none were found by then.
    pub(crate) fn addresses<R: IoRuntime>(
        &self,
        rt: &R,
        host: &HostEntry,
        time: &mut ExchangeTime,
    ) -> Option<ResolvedAddresses>
        ensures { IsLater time.old time.new }
    {
        let mut since = None;
        for _ in rt.forever() {
            let answers = self.shared.answers.load(Ordering::SeqCst);
            match host.next(rt, since) {
                ConnectStep::Try(addresses) => return Some(addresses),
                ConnectStep::Wait(ended) => since = Some(ended),
                ConnectStep::GiveUp => return None,
            }
            time.look(rt);
            let turn = time.turn()?;
            self.wake_resolver();
            let answers_then = low_half(answers);
            self.shared.answers.park_timeout(rt, answers_then, turn);
        }
        unreachable!()
    }

    /// Requests a look-up of a host.
    pub(crate) fn ask<R: Wait>(&self, rt: &R, host: &HostEntry) {
        host.state.lock(rt).ask();
        self.wake_resolver();
    }

    fn wake_resolver(&self) {
        self.shared.asks.fetch_add(1, Ordering::SeqCst);
        self.shared.asks.wake_one();
    }
}

impl HostEntry {
    fn has_name(&self, name: &str) -> bool
        ensures { OnTrue result (string_bytes self.now.name ≡ name.now) }
    {
        self.name.as_str() == name
    }

    fn next<R: Wait>(&self, rt: &R, since: Option<u64>) -> ConnectStep
        ensures { (old new : HostState) × IsNext old since result new }
    {
        self.state.lock(rt).next(since)
    }
}

/// The low half of a counter, on which a thread waits.
pub(crate) fn low_half(number: u64) -> u32 {
    (number % LOW_HALF) as u32
}

/// The host of an address, if it is a name that has to be looked up.
fn name_in(address: &str) -> Option<&str> {
    let (host, _) = host_and_port(address)?;
    if host.parse::<IpAddr>().is_ok() {
        None
    } else {
        Some(host)
    }
}

/// The index of the host with this name, which is added unless there is one.
fn add(alloc: Global, hosts: &mut Vec<HostEntry>, name: &str) -> Result<usize, NoMemory> {
    if let Some(place) = hosts.iter().position(|host| host.name.as_str() == name) {
        return Ok(place);
    }
    let name = String::from_str(alloc, name)?;
    let state = Mutex::new(HostState::new());
    hosts.push(HostEntry { name, state })?;
    Ok(hosts.len() - 1)
}
