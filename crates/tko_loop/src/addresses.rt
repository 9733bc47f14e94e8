//! The addresses of a server.
ghost use Rattle.std.specs.Prelude.{◌≡◌, ◌<◌, None, IfOk, is_some, length, nat_lt};
ghost use Rattle.tko_tcp.specs.declared.server_host.ServerHost.{ServerHost};
ghost use Rattle.tko_tcp.specs.ServerHosts.{LeadsTo};
ghost use Rattle.tko_loop.specs.Addresses.{AreAddressesOf, AreFreshAddresses, IsAddressTaken, IsBegunIf, IsConnectBegun, IsRenewed, IsUnmade, awaited_of, following, is_last_reached, noting_failure, passing, place_in};
ghost use Rattle.tko_loop.specs.Addresses.{unmade_of, first_place_of, lack_in, lacked_of, reach_of, reached_of, reaching, until_of};

use std::alloc::{AllocError, Global};
use std::net::SocketAddr;
use std::sync::Wait;
use tko_bytes::NoMemory;
use tko_tcp::{Known, Lack, NamedHost, Names, ServerHost, share_until};

/// Where a server may be. Its addresses are tried one after another, from the one on at which a
/// connection was made last by any worker. While others are left, each has an equal part of the
/// time that is left. The addresses of a host are those that are known at that moment; nothing here
/// waits for a look-up.
#[derive(Drop)]
pub struct Addresses {
    /// The host that is looked up, if it is one.
    host: Option<NamedHost>,
    all: Vec<SocketAddr>,
    /// The place of the address at which the next connection is begun.
    next: usize,
    /// The place of the address at which the last connection was begun.
    last: usize,
    /// How many were begun since one was made, since those that wait were told that none could be,
    /// or since a look-up was asked for because none was.
    tried: usize,
    /// The place of the address at which a connection was made last, by any worker, if one was.
    reached: Option<usize>,
    /// Whether one of those that were tried failed, and that for no lack of the proxy itself.
    refused: bool,
    /// What the proxy itself lacked for a connection to the address that was reached last, if it
    /// lacked anything.
    lacked: Option<Lack>,
    /// Until when a connection is tried at the address that was tried last, if others are left.
    until: Option<u64>,
    /// While a look-up is awaited: how many had ended when it was asked for.
    awaited: Option<u64>,
}

/// Where a connection is begun.
#[derive(Clone, Copy, Debug, PartialEq, Eq)]
pub(crate) enum Reach {
    At(SocketAddr),
    /// No address is known yet.
    Later,
    /// There is no address.
    Nowhere,
}

/// What follows where a connection could not be made.
#[derive(Clone, Copy, Debug, PartialEq, Eq)]
pub(crate) enum Unmade {
    /// Another address is left to try.
    Next,
    /// The server failed: at none of its addresses a connection could be made.
    Refused,
    /// That cannot be told, for this which the proxy itself lacked.
    Lacking(Lack),
}

impl Unmade {
    /// What the proxy itself lacked, if that is why.
    pub(crate) fn lack(self) -> Option<Lack>
        ensures { result ≡ lack_in self }
    {
        match self {
            Unmade::Next | Unmade::Refused => None,
            Unmade::Lacking(lack) => Some(lack),
        }
    }
}

impl Addresses {
    /// A server at one of these.
    pub fn new(all: Vec<SocketAddr>) -> Addresses
        ensures { AreFreshAddresses None all.items result }
    {
        Addresses::at(None, all)
    }

    /// The server with this address, as a configuration has it.
    pub fn of(alloc: Global, address: &str, names: &Names) -> Result<Addresses, AllocError>
        ensures { IfOk result (λ it. (host : ServerHost) × LeadsTo address.now host
            × AreAddressesOf host it) }
    {
        match names.server_host(address)? {
            ServerHost::Nowhere => Ok(Addresses::new(Vec::new(alloc))),
            ServerHost::Fixed(at) => Ok(Addresses::new(vec![in alloc; at]?)),
            ServerHost::Named(host) => Ok(Addresses::at(Some(host), Vec::new(alloc))),
        }
    }

    fn at(host: Option<NamedHost>, all: Vec<SocketAddr>) -> Addresses
        ensures { AreFreshAddresses host all.items result }
    {
        Addresses {
            host,
            all,
            next: 0,
            last: 0,
            tried: 0,
            reached: None,
            refused: false,
            lacked: None,
            until: None,
            awaited: None,
        }
    }

    /// Where a connection is begun now.
    pub(crate) fn begin<R: Wait>(&mut self, rt: &R) -> Reach
        ensures { IsConnectBegun self.old result self.new }
    {
        self.renew(rt);
        self.begin_now()
    }

    /// The same, by what was known.
    fn begin_now(&mut self) -> Reach
        ensures { IsBegunIf self.old.awaited self.old result self.new }
    {
        if let Some(_) = self.awaited {
            return Reach::Later;
        }
        reach_of(self.take_next())
    }

    /// Whether a look-up is awaited.
    pub(crate) fn is_looked_up(&self) -> bool
        ensures { result ≡ is_some self.now.awaited }
    {
        self.awaited.is_some()
    }

    /// No connection is wanted. A look-up that was asked for counts for none that is wanted later.
    pub(crate) fn rest(&mut self)
        ensures { self.new ≡ record self.old { awaited = None } }
    {
        self.awaited = None;
    }

    /// Takes what is known of the host now. Where a connection was begun at each address and none
    /// was made, a look-up is asked for.
    fn renew<R: Wait>(&mut self, rt: &R)
        ensures { IsRenewed self.old self.new }
    {
        let Some(host) = &self.host else {
            return;
        };
        if 0 < self.tried && self.all.len() <= self.tried {
            self.tried = 0;
            host.ask(rt);
        }
        self.reached = reached_of(self.tried, host.reached(), self.reached);
        self.next = first_place_of(self.tried, self.reached, self.next);
        self.awaited = awaited_of(host.known(rt, self.awaited, &mut self.all));
        self.next = place_in(self.all.len(), self.next);
    }

    /// The next address in turn.
    fn take_next(&mut self) -> Option<SocketAddr>
        ensures { IsAddressTaken self.old result self.new }
    {
        let mut address = *self.all.get(self.next)?;
        if let Some(host) = &self.host {
            address.set_port(host.port());
        }
        self.last = self.next;
        self.next = following(self.next, self.all.len());
        self.refused = self.refused && 0 < self.tried;
        self.lacked = lacked_of(self.tried, self.lacked);
        self.tried = self.tried.saturating_add(1);
        Some(address)
    }

    /// A connection was made.
    pub(crate) fn made(&mut self)
        ensures { self.new ≡ reaching self.old }
    {
        self.next = self.last;
        self.tried = 0;
        self.reached = Some(self.last);
        if let Some(host) = &self.host {
            host.reach(self.last);
        }
    }

    /// A connection is being made from now on at the address that was tried last, for those of whom
    /// the first waits until this moment.
    pub(crate) fn begun(&mut self, now: u64, due: Option<u64>)
        ensures { self.new ≡ record self.old { until = until_of due now self.old } }
    {
        self.until = self.until_of(now, due);
    }

    fn until_of(&self, now: u64, due: Option<u64>) -> Option<u64>
        ensures { result ≡ until_of due now self.now }
    {
        let due = due?;
        let others = self.all.len().saturating_sub(self.tried);
        if others == 0 {
            return None;
        }
        Some(share_until(now, due, (others as u64).saturating_add(1)))
    }

    /// Until when the connection is tried that is being made, if another address is left.
    pub(crate) fn until(&self) -> Option<u64>
        ensures { result ≡ self.now.until }
    {
        self.until
    }

    /// No connection was made in the time of the address that was tried last, and others are left.
    pub(crate) fn pass(&mut self)
        ensures { self.new ≡ passing self.old }
    {
        self.refused = true;
        self.until = None;
    }

    /// A connection could not be made, perhaps for this which the proxy itself lacked. Where the
    /// server failed, a look-up is asked for.
    pub(crate) fn failed<R: Wait>(&mut self, rt: &R, lack: Option<Lack>) -> Unmade
        ensures { IsUnmade (nat_lt self.old.tried (length self.old.all.items)) lack self.old
            result self.new }
    {
        self.note(lack);
        if self.tried < self.all.len() {
            return Unmade::Next;
        }
        self.tried = 0;
        let unmade = self.end(lack);
        if unmade == Unmade::Refused {
            if let Some(host) = &self.host {
                host.ask(rt);
            }
        }
        unmade
    }

    /// Notes why no connection could be made at the address that was tried last.
    fn note(&mut self, lack: Option<Lack>)
        ensures { self.new ≡ noting_failure lack self.old }
    {
        match lack {
            Some(_) if is_last_reached(self.reached, self.last) => self.lacked = lack,
            Some(_) => {}
            None => self.refused = true,
        }
    }

    /// What follows where none is left, and the last one failed for this lack or another reason.
    fn end(&self, lack: Option<Lack>) -> Unmade
        ensures { result ≡ unmade_of lack self.now }
    {
        match (self.lacked, lack) {
            (Some(lack), _) => Unmade::Lacking(lack),
            (None, Some(lack)) if !self.refused => Unmade::Lacking(lack),
            _ => Unmade::Refused,
        }
    }
}

/// What was lacking, once all addresses are to be tried, is lacking no more.
fn lacked_of(tried: usize, lacked: Option<Lack>) -> Option<Lack>
    ensures { result ≡ lacked_of tried lacked }
{
    if tried == 0 { None } else { lacked }
}

/// Whether it is known, and this one.
fn is_last_reached(known: Option<usize>, place: usize) -> bool
    ensures { result ≡ is_last_reached known place }
{
    match known {
        Some(its) => its == place,
        None => false,
    }
}

/// The place after one of so many, of which the first follows the last.
fn following(place: usize, count: usize) -> usize
    requires { place < count }
    ensures { result ≡ following place count }
{
    if place + 1 < count { place + 1 } else { 0 }
}

/// A place among so many: this one, or the first where they are fewer.
fn place_in(count: usize, place: usize) -> usize
    ensures { result ≡ place_in count place }
{
    if count <= place { 0 } else { place }
}

/// Where the server was reached last, by what another worker may have found since. That counts once
/// all addresses are to be tried.
fn reached_of(tried: usize, found: Option<usize>, reached: Option<usize>) -> Option<usize>
    ensures { result ≡ reached_of tried found reached }
{
    if tried != 0 {
        return reached;
    }
    match found {
        Some(_) => found,
        None => reached,
    }
}

/// The place from which on addresses are tried: that one, once all are to be tried.
fn first_place_of(tried: usize, reached: Option<usize>, next: usize) -> usize
    ensures { result ≡ first_place_of tried reached next }
{
    if tried != 0 {
        return next;
    }
    reached.unwrap_or(next)
}

/// How many look-ups had ended when one was asked for, where one is awaited.
fn awaited_of(told: Result<Known, NoMemory>) -> Option<u64>
    ensures { result ≡ awaited_of told }
{
    match told {
        Ok(Known::Asked(ended)) => Some(ended),
        _ => None,
    }
}

/// Where a connection is begun that has this address.
fn reach_of(address: Option<SocketAddr>) -> Reach
    ensures { result ≡ reach_of address }
{
    match address {
        Some(address) => Reach::At(address),
        None => Reach::Nowhere,
    }
}
