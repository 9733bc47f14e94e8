//! Links in memory, which play a list of scripts.
ghost use Rattle.std.specs.Prelude.{◌≡◌, ◌<◌, ◌+◌, ℕ, [], true, false, IfOk, IfErr, OnErr, OnOk, length, replicate, slice_index};
ghost use Rattle.tko_links.specs.Links.{EndsUnaborted, HasExchanged, WasProbed, is_counted, most_sends, outcome_in, part_of};
ghost use Rattle.tko_links.specs.Scripted.{ComesOfBytes, Hits, HitsKeys, IsPlayed, hit_text};

use crate::links::{ExchangeNoMemory, Links, Outcome};
use itoa::Buffer;
use std::alloc::Global;
use std::marker::Model;
use tko_bytes::append;
use tko_io::IoRuntime;
use tko_model::{Clear, Duty};
use tko_text::{Key, ReadFault, Request, Response};

/// What comes of the next request or probe, whatever it is.
#[derive(Debug, Drop)]
pub enum Script {
    Refused,
    Timeout,
    /// The connection fails in the middle of the exchange.
    Broken,
    /// The server answers these bytes, and then its end of the connection closes.
    Bytes(Vec<u8>),
    /// The server answers a value of the asked key with these bytes, flags 0 and, where it was
    /// asked for, cas number 1. Any request but a retrieval of one key cannot read the answer.
    Hit(Vec<u8>),
}

/// The bytes of a request. Contracts see their list.
#[derive(Debug, Drop)]
pub struct RequestText {
    bytes: Vec<u8>,
}

impl Model for RequestText {
    ghost use Rattle.std.specs.Prelude.{List, ℕ};

    ghost Value = { List ℕ };

    ghost view = { λ text. text.bytes.items };
}

impl RequestText {
    pub fn as_bytes(&self) -> &[u8]
        ensures { result.now ≡ self.now }
    {
        self.bytes.as_slice()
    }
}

/// Links that play one script for each request and for each probe, and refuse where the list is
/// used up. They keep the bytes of each request sent.
#[derive(Debug, Drop)]
pub struct Scripted {
    alloc: Global,
    scripts: Vec<Script>,
    next: usize,
    sends: Vec<u64>,
    probes: Vec<u64>,
    requests: Vec<RequestText>,
}

impl Model for Scripted {
    ghost use Rattle.std.specs.Prelude.{◌≡◌, ◌≤◌, drop, vec_len};
    ghost use Rattle.tko_links.specs.Scripted.{ScriptedState};

    ghost Value = { ScriptedState };

    ghost view = { λ links. record {
      scripts = drop links.next links.scripts.items;
      sends = links.sends.items;
      probes = links.probes.items;
      requests = links.requests.items;
    } };

    ghost invariant = { λ links.
        (links.next ≤ vec_len links.scripts) × (vec_len links.probes ≡ vec_len links.sends) };
}

impl Script {
    ghost use Rattle.tko_links.specs.Scripted.{ScriptGives};

    /// What it gives to a request.
    fn outcome(&self, alloc: Global, request: &Request) -> Result<Outcome, ExchangeNoMemory>
        ensures came { ScriptGives self.now request.now (outcome_in result) }
        ensures sent { IfErr result (λ fault. fault ≡ record { sent = true }) }
        ensures aborted { ¬ (result ≡ Ok Outcome.Aborted) }
    {
        match self {
            Script::Refused => Ok(Outcome::Refused),
            Script::Timeout => Ok(Outcome::Timeout),
            Script::Broken => Ok(Outcome::Broken),
            Script::Bytes(bytes) => read_answer(alloc, request, bytes.as_slice()),
            Script::Hit(text) => hit(alloc, request, text.as_slice()),
        }
    }
}

/// What comes of a request that these bytes answer.
fn read_answer(alloc: Global, request: &Request, bytes: &[u8]) -> Result<Outcome, ExchangeNoMemory>
    ensures came { ComesOfBytes bytes.now request.now (outcome_in result) }
    ensures sent { IfErr result (λ fault. fault ≡ record { sent = true }) }
    ensures aborted { ¬ (result ≡ Ok Outcome.Aborted) }
{
    match Response::read(alloc, request, bytes) {
        Ok((response, _)) => Ok(Outcome::Reply(response)),
        Err(ReadFault::Short | ReadFault::Unreadable) => Ok(Outcome::Broken),
        Err(ReadFault::Memory) => Err(ExchangeNoMemory { sent: true }),
    }
}

/// What comes of a request that a value of its key answers.
fn hit(alloc: Global, request: &Request, text: &[u8]) -> Result<Outcome, ExchangeNoMemory>
    ensures came { Hits text.now request.now (outcome_in result) }
    ensures sent { IfErr result (λ fault. fault ≡ record { sent = true }) }
    ensures aborted { ¬ (result ≡ Ok Outcome.Aborted) }
{
    match request {
        Request::Get { keys } => hit_of(alloc, request, keys.as_slice(), b"", text),
        Request::Gets { keys } => hit_of(alloc, request, keys.as_slice(), b" 1", text),
        _ => Ok(Outcome::Broken),
    }
}

/// The same for a retrieval of these keys, with this text of a cas number.
fn hit_of(
    alloc: Global,
    request: &Request,
    keys: &[Key],
    cas: &[u8],
    text: &[u8],
) -> Result<Outcome, ExchangeNoMemory>
    ensures came { HitsKeys keys.now cas.now text.now request.now (outcome_in result) }
    ensures sent { IfErr result (λ fault. fault ≡ record { sent = true }) }
    ensures aborted { ¬ (result ≡ Ok Outcome.Aborted) }
{
    match keys {
        [key] => hit_key(alloc, request, key, cas, text),
        _ => Ok(Outcome::Broken),
    }
}

/// The same for this one key.
fn hit_key(
    alloc: Global,
    request: &Request,
    key: &Key,
    cas: &[u8],
    text: &[u8],
) -> Result<Outcome, ExchangeNoMemory>
    ensures came { ComesOfBytes (hit_text key.now cas.now text.now) request.now
        (outcome_in result) }
    ensures sent { IfErr result (λ fault. fault ≡ record { sent = true }) }
    ensures aborted { ¬ (result ≡ Ok Outcome.Aborted) }
{
    let Ok(bytes) = hit_text(alloc, key, cas, text) else {
        return Err(ExchangeNoMemory { sent: true });
    };
    read_answer(alloc, request, bytes.as_slice())
}

/// The bytes of a value and the line `END`.
fn hit_text<'a>(
    alloc: Global,
    key: &'a Key,
    cas: &'a [u8],
    text: &'a [u8],
) -> Result<Vec<u8>, tko_bytes::NoMemory>
    ensures { IfOk result (λ bytes. bytes.items ≡ hit_text key.now cas.now text.now) }
{
    let mut size = Buffer::new();
    let mut bytes = Vec::new(alloc);
    let size = size.format(text.len()).as_bytes();
    append(
        &mut bytes,
        &[
            b"VALUE ",
            key.as_bytes(),
            b" 0 ",
            size,
            cas,
            b"\r\n",
            text,
            b"\r\nEND\r\n",
        ],
    )?;
    Ok(bytes)
}

impl Scripted {
    ghost use Rattle.std.specs.Prelude.{drop, slice_get};
    ghost use Rattle.tko_links.specs.Scripted.{NextGives, counted_send};

    /// Links to `servers` servers, none of which was sent to or probed.
    pub fn new(
        alloc: Global,
        servers: usize,
        scripts: Vec<Script>,
    ) -> Result<Scripted, tko_bytes::NoMemory>
        ensures { IfOk result (λ links. links
            ≡ record {
              scripts = scripts.items;
              sends = replicate servers 0;
              probes = replicate servers 0;
              requests = [];
            }) }
    {
        let sends = vec![in alloc; 0; servers]?;
        let probes = vec![in alloc; 0; servers]?;
        let requests = Vec::new(alloc);
        Ok(Scripted {
            alloc,
            scripts,
            next: 0,
            sends,
            probes,
            requests,
        })
    }

    /// The bytes of each request that was sent, in order.
    pub fn requests(&self) -> &[RequestText]
        ensures { result.now ≡ self.now.requests }
    {
        self.requests.as_slice()
    }

    /// Keeps a request's bytes and counts it.
    fn count(&mut self, server: usize, request: &Request) -> Result<(), ExchangeNoMemory>
        requires server { server < length self.old.sends }
        requires few { slice_index self.old.sends server < most_sends }
        ensures ok { OnOk result (self.new ≡ counted_send self.old server request.now) }
        ensures err { OnErr result (self.new ≡ self.old) }
        ensures unsent { IfErr result (λ fault. fault ≡ record { sent = false }) }
    {
        let bytes = request
            .write(self.alloc)
            .map_err(|_| ExchangeNoMemory { sent: false })?;
        self.requests
            .push(RequestText { bytes })
            .map_err(|_| ExchangeNoMemory { sent: false })?;
        self.sends[server] += 1;
        Ok(())
    }

    /// Plays the next script.
    fn play(&mut self, request: &Request) -> Result<Outcome, ExchangeNoMemory>
        ensures left { self.new ≡ record self.old { scripts = drop 1 self.old.scripts } }
        ensures came { NextGives (slice_get self.old.scripts 0) request.now (outcome_in result) }
        ensures sent { IfErr result (λ fault. fault ≡ record { sent = true }) }
        ensures aborted { ¬ (result ≡ Ok Outcome.Aborted) }
    {
        let Some(script) = self.scripts.get(self.next) else {
            return Ok(Outcome::Refused);
        };
        self.next += 1;
        script.outcome(self.alloc, request)
    }
}

/// The clauses are those of `Links`; `ends` is its `spent`, and that nothing is aborted.
impl Links for Scripted {
    ghost servers = { λ links. length links.sends };

    ghost sent = { λ links server. slice_index links.sends server };

    ghost probed = { λ links server. slice_index links.probes server };

    ghost exchanges = { λ old it new. IsPlayed old it new };

    fn exchange<R: IoRuntime>(
        &mut self,
        _rt: &R,
        clear: Clear,
        request: &Request,
    ) -> Result<Outcome, ExchangeNoMemory>
        requires { clear < length self.old.sends }
        ensures record { HasExchanged IsPlayed self.old clear request.now result self.new }
        ensures ends { EndsUnaborted (slice_index self.old.sends clear) result }
        ensures sends { (server : ℕ) → slice_index self.new.sends server
            ≡ slice_index self.old.sends server + part_of (is_counted result) clear server }
        ensures probes { (server : ℕ) → slice_index self.new.probes server
            ≡ slice_index self.old.probes server }
        ensures servers { length self.new.sends ≡ length self.old.sends }
    {
        let server = clear.server();
        if self.sends[server] == u64::MAX {
            return Ok(Outcome::Spent);
        }
        self.count(server, request)?;
        self.play(request)
    }

    fn probe<R: IoRuntime>(&mut self, _rt: &R, duty: Duty) -> Result<Outcome, ExchangeNoMemory>
        requires { duty < length self.old.sends }
        ensures record { WasProbed IsPlayed self.old duty result self.new }
        ensures ends { EndsUnaborted (slice_index self.old.probes duty) result }
        ensures probes { (server : ℕ) → slice_index self.new.probes server
            ≡ slice_index self.old.probes server + part_of (is_counted result) duty server }
        ensures sends { (server : ℕ) → slice_index self.new.sends server
            ≡ slice_index self.old.sends server }
        ensures servers { length self.new.sends ≡ length self.old.sends }
    {
        let server = duty.server();
        if self.probes[server] == u64::MAX {
            return Ok(Outcome::Spent);
        }
        self.probes[server] += 1;
        self.play(&Request::Version)
    }

    fn sends(&self, server: usize) -> u64 {
        self.sends[server]
    }

    fn probes(&self, server: usize) -> u64 {
        self.probes[server]
    }
}
