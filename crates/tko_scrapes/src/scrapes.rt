//! The thread that answers for the metrics and the health.
ghost use Rattle.std.specs.Prelude.{◌≡◌, IfOk};
ghost use Rattle.tko_scrapes.specs.Scrapes.{asked_pools};

use crate::page_client::PageClient;
use crate::page_clients::PageClients;
use crate::pages::Pages;
use std::alloc::{AllocError, Global};
use std::net::TcpListener;
use std::sync::Wait;
use std::time::{Clock, Instant};
use tko_metrics::{Meter, Process, ShownPool, moment_now};
use tko_status::Past;

/// How many milliseconds it waits where no client came and none moved anything.
const POLL_PAUSE: u64 = 50;

/// What the thread keeps from one round to the next.
#[derive(Drop)]
struct Rounds {
    /// When it began.
    begin: Instant,
    clients: PageClients,
    past: Past,
}

impl Rounds {
    /// How many milliseconds after it began this moment is.
    fn uptime(&self, now: Instant) -> u64 {
        let passed = now.duration_since(self.begin).as_millis();
        u64::try_from(passed).unwrap_or(u64::MAX)
    }
}

/// Answers several clients at once, on one thread.
#[derive(Drop)]
pub struct Scrapes {
    listener: TcpListener,
    meter: Meter,
    process: Process,
    addresses: Vec<String>,
    pools: Vec<ShownPool>,
}

impl Scrapes {
    /// Of this meter, over servers of these addresses and the pools of a route over them, for the
    /// clients of this listener.
    pub fn new(
        alloc: Global,
        listener: TcpListener,
        meter: Meter,
        addresses: &[String],
        pools: Vec<ShownPool>,
        process: Process,
    ) -> Result<Scrapes, AllocError>
        ensures { IfOk result (λ scrapes. asked_pools scrapes ≡ pools.items) }
    {
        let mut copies = Vec::new(alloc);
        for address in addresses {
            copies.push(String::from_str(alloc, address.as_str())?)?;
        }
        Ok(Scrapes {
            listener,
            meter,
            process,
            addresses: copies,
            pools,
        })
    }

    /// Ends it: the thread that answers returns.
    pub fn end(&self) {
        self.meter.end();
    }

    /// Answers until the meter ends. A client for which there is no memory, or that takes too long,
    /// is closed.
    pub fn answer_all<R: Wait + Clock>(&self, rt: &R, alloc: Global) {
        if self.listener.set_nonblocking(true).is_err() {
            return;
        }
        let Ok(begin) = Instant::now(rt) else {
            return;
        };
        let mut rounds = Rounds {
            begin,
            clients: PageClients::new(alloc),
            past: Past::new(alloc),
        };
        for _ in rt.forever() {
            if self.meter.has_ended() {
                return;
            }
            if !self.serve_once(rt, alloc, &mut rounds) {
                self.meter.wait(rt, POLL_PAUSE);
            }
        }
    }

    /// Keeps what is counted, takes in one client, if one waits, and gives each a turn. Returns
    /// whether there may be more to do at once.
    fn serve_once<R: Clock>(&self, rt: &R, alloc: Global, rounds: &mut Rounds) -> bool {
        let Ok(now) = Instant::now(rt) else {
            return false;
        };
        let uptime = rounds.uptime(now);
        // (without memory for it, the page shows a shorter time)
        let _ = rounds
            .past
            .keep(alloc, uptime, &self.meter, &self.addresses);
        let has_come = self.take_in(alloc, &mut rounds.clients, now);
        let mut pages = Pages {
            alloc,
            meter: &self.meter,
            addresses: &self.addresses,
            pools: &self.pools,
            process: &self.process,
            past: rounds.past.readings(),
            uptime,
            moment: moment_now(rt),
        };
        rounds.clients.turn_all(&mut pages, now) || has_come
    }

    /// Takes in one client, if there is room and one waits. One for which there is no memory is
    /// closed.
    fn take_in(&self, alloc: Global, clients: &mut PageClients, now: Instant) -> bool {
        if !clients.has_room(now) {
            return false;
        }
        let Ok((stream, _)) = self.listener.accept() else {
            return false;
        };
        if let Ok(client) = PageClient::new(alloc, stream, now) {
            clients.add(client);
        }
        true
    }
}
