//! The lines of the log.
ghost use Rattle.std.specs.Prelude.{◌≡◌, ◌<◌, ◌+◌, IfOk, length, map, slice_set, string_bytes};
ghost use Rattle.tko_bytes.specs.Numbers.{capped};
ghost use Rattle.tko_events.specs.Lines.{IsJournalBegun, address_at, count_in, known_after, known_at, mark_word};

use crate::event::{Cause, LogEvent, ServerChange, What, lack_word, reason_word};
use crate::moment::Utc;
use std::alloc::{AllocError, Global};
use std::net::SocketAddr;
use tko_metrics::Refusal;
use tko_tcp::{Lack, LookUpEnd};

/// The mark of a server in a line.
#[derive(Clone, Copy, Debug, PartialEq, Eq)]
pub(crate) enum Marked {
    Up,
    Soft,
    Hard,
}

/// What the log knows of a server.
#[derive(Clone, Copy, Debug, PartialEq, Eq)]
pub(crate) struct KnownServer {
    mark: Marked,
    /// The probes since it was marked.
    probes: u64,
}

/// The lines of a server's events, with what they know of each server from the events before.
#[derive(Drop)]
pub struct Journal {
    listen: String,
    /// How many soft failures in a row mark a server.
    failures: u32,
    names: Vec<String>,
    servers: Vec<KnownServer>,
}

impl Journal {
    /// No events yet, of a program that listens here, over servers of these names.
    pub fn new(
        alloc: Global,
        listen: String,
        failures: u32,
        names: Vec<String>,
    ) -> Result<Journal, AllocError>
        ensures { IfOk result
            (IsJournalBegun (string_bytes listen) failures (map string_bytes names.items)) }
    {
        let up = KnownServer {
            mark: Marked::Up,
            probes: 0,
        };
        let servers = vec![in alloc; up; names.len()]?;
        Ok(Journal {
            listen,
            failures,
            names,
            servers,
        })
    }

    /// The line of an event; where the event has no moment, it happens at this one.
    pub fn line(&mut self, alloc: Global, event: LogEvent, now: u64) -> Result<String, AllocError> {
        let utc = Utc(event.moment.unwrap_or(now));
        match event.what {
            What::Started => format!(in alloc; "{utc} started servers={}\n", self.names.len()),
            What::Listening => format!(in alloc; "{utc} listening address={}\n", self.listen),
            What::Server {
                server,
                worker,
                change,
                cause,
            } => self.server_line(alloc, utc, server, worker, change, cause),
            What::Lacking { server, lack } => self.lack_line(alloc, utc, server, lack),
            What::Slow { server, count } => {
                let name = self.name(server);
                format!(in alloc; "{utc} slow server={name} count={count}\n")
            }
            What::Refused { why, count, client } => refused_line(alloc, utc, why, count, client),
            What::LookedUp { server, end } => self.name_line(alloc, utc, server, end),
            What::Clients { sessions, faults } => {
                format!(in alloc; "{utc} clients sessions={sessions} faults={faults}\n")
            }
            What::Ended => format!(in alloc; "{utc} ended\n"),
        }
    }

    /// The line of a server's event.
    fn server_line(
        &mut self,
        alloc: Global,
        utc: Utc,
        server: usize,
        worker: u32,
        change: ServerChange,
        cause: Option<Cause>,
    ) -> Result<String, AllocError> {
        let word = change.word();
        let cause = Cause::word(cause);
        let (mark, count) = self.note(server, change);
        let (name, mark) = (self.name(server), mark.word());
        format!(in alloc;
            "{utc} {word} server={name} mark={mark} worker={worker} outcome={cause} count={count}\n"
        )
    }

    /// The line of what the proxy itself lacked. Ports are lacking for a server, and all else for
    /// any.
    fn lack_line(
        &self,
        alloc: Global,
        utc: Utc,
        server: usize,
        lack: Lack,
    ) -> Result<String, AllocError> {
        let (word, name) = (lack_word(lack), self.name(server));
        match lack {
            Lack::Ports => format!(in alloc; "{utc} lacking {word} server={name}\n"),
            Lack::Descriptors | Lack::Memory => format!(in alloc; "{utc} lacking {word}\n"),
        }
    }

    /// The line of how a look-up of a server's name ended.
    fn name_line(
        &self,
        alloc: Global,
        utc: Utc,
        server: usize,
        end: LookUpEnd,
    ) -> Result<String, AllocError> {
        let name = self.name(server);
        match end {
            LookUpEnd::Found => format!(in alloc; "{utc} resolved server={name}\n"),
            LookUpEnd::Unresolved(reason) => {
                let reason = reason_word(reason);
                format!(in alloc; "{utc} unresolved server={name} reason={reason}\n")
            }
        }
    }

    /// The address of a server.
    fn name(&self, server: usize) -> &str
        ensures { result.now ≡ address_at self.now.names.items server }
    {
        match self.names.get(server) {
            Some(name) => name.as_str(),
            None => "?",
        }
    }

    /// Notes an event of a server. Returns the server's mark from then on, and the count of its
    /// line: the failures that made a mark, or else the probes since then.
    fn note(&mut self, server: usize, change: ServerChange) -> (Marked, u64)
        ensures others { self.new ≡ record self.old { servers = self.new.servers } }
        ensures known { server < length self.old.servers.items → self.new.servers.items
            ≡ slice_set self.old.servers.items server
            (known_after change (known_at self.old.servers.items server)) }
        ensures mark { server < length self.old.servers.items → result.0
            ≡ (known_after change (known_at self.old.servers.items server)).mark }
        ensures count { server < length self.old.servers.items → result.1
            ≡ count_in self.old.failures change (known_at self.old.servers.items server) }
    {
        if self.servers.len() <= server {
            return (Marked::Up, 0);
        }
        self.servers[server].note(u64::from(self.failures), change)
    }
}

/// The line of what was refused so often, the last time of the client at this address.
fn refused_line(
    alloc: Global,
    utc: Utc,
    why: Refusal,
    count: u64,
    client: Option<SocketAddr>,
) -> Result<String, AllocError> {
    let kind = why.word();
    match client {
        Some(client) => {
            format!(in alloc; "{utc} refused kind={kind} count={count} client={client}\n")
        }
        None => format!(in alloc; "{utc} refused kind={kind} count={count} client=unknown\n"),
    }
}

impl KnownServer {
    /// Notes an event. So many failures in a row make a soft mark.
    fn note(&mut self, failures: u64, change: ServerChange) -> (Marked, u64)
        ensures known { self.new ≡ known_after change self.old }
        ensures mark { result.0 ≡ self.new.mark }
        ensures count { result.1 ≡ count_in failures change self.old }
    {
        let count = match change {
            ServerChange::MarkedSoft => self.begin(Marked::Soft, failures),
            ServerChange::MarkedHard => self.begin(Marked::Hard, 1),
            ServerChange::Hardened => self.turn(Marked::Hard),
            ServerChange::Unmarked | ServerChange::Released => self.turn(Marked::Up),
            ServerChange::Probed => self.count_probe(),
        };
        (self.mark, count)
    }

    /// A mark of this kind begins, made by this many failures.
    fn begin(&mut self, mark: Marked, failures: u64) -> u64
        ensures known { self.new ≡ record { mark = mark; probes = 0 } }
        ensures count { result ≡ failures }
    {
        self.mark = mark;
        self.probes = 0;
        failures
    }

    /// The mark turns into this one.
    fn turn(&mut self, mark: Marked) -> u64
        ensures known { self.new ≡ record self.old { mark = mark } }
        ensures count { result ≡ self.old.probes }
    {
        self.mark = mark;
        self.probes
    }

    fn count_probe(&mut self) -> u64
        ensures known { self.new ≡ record self.old { probes = capped (self.old.probes + 1) } }
        ensures count { result ≡ self.new.probes }
    {
        self.probes = self.probes.saturating_add(1);
        self.probes
    }
}

impl Marked {
    fn word(self) -> &'static str
        ensures { result.now ≡ mark_word self }
    {
        match self {
            Marked::Up => "up",
            Marked::Soft => "soft",
            Marked::Hard => "hard",
        }
    }
}
