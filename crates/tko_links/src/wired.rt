//! Links over a wire.
ghost use Rattle.std.specs.Prelude.{◌≡◌, ◌<◌, ◌+◌, ℕ, true, IfOk, length, replicate, slice_index};
ghost use Rattle.tko_links.specs.Exchanges.{IsProbing, IsWireExchange};
ghost use Rattle.tko_links.specs.Links.{EndsUnaborted, HasExchanged, WasProbed, is_counted, outcome_in, part_of};
ghost use Rattle.tko_links.specs.Wired.{IsWired};

use crate::exchanging::{Buffers, exchange_over};
use crate::links::{ExchangeNoMemory, Links, Outcome};
use crate::wire::Wire;
use std::alloc::Global;
use std::marker::Model;
use std::time::Instant;
use tko_io::IoRuntime;
use tko_model::{Clear, Duty};
use tko_text::Request;

/// Links over the connections of a wire. A server is connected when it is first sent to, and its
/// connection stays as long as each response ends with the last byte that came.
#[derive(Drop)]
pub struct Wired<W: Wire> {
    alloc: Global,
    wire: W,
    buffers: Buffers,
    sends: Vec<u64>,
    probes: Vec<u64>,
}

impl<W: Wire> Model for Wired<W> {
    ghost use Rattle.std.specs.Prelude.{◌≡◌, length};
    ghost use Rattle.tko_links.specs.Wired.{WiredState};

    ghost Value = { WiredState W };

    ghost view = { λ l. record {
      wire = l.wire;
      sends = l.sends.items;
      probes = l.probes.items;
    } };

    ghost invariant = { λ l. (length l.sends.items ≡ W.servers l.wire)
        × (length l.probes.items ≡ W.servers l.wire) };
}

impl<W: Wire + Drop> Wired<W> {
    /// Links to the servers of a wire, none of which was sent to or probed.
    pub fn new(alloc: Global, wire: W) -> Result<Wired<W>, tko_bytes::NoMemory>
        ensures { IfOk result (λ links. links ≡ record {
          wire = wire;
          sends = replicate (W.servers wire) 0;
          probes = replicate (W.servers wire) 0;
        }) }
    {
        let servers = wire.servers();
        let sends = vec![in alloc; 0; servers]?;
        let probes = vec![in alloc; 0; servers]?;
        let buffers = Buffers::new(alloc);
        Ok(Wired {
            alloc,
            wire,
            buffers,
            sends,
            probes,
        })
    }
}

impl<W: Wire> Wired<W> {
    pub fn wire(&self) -> &W
        ensures { result.now ≡ self.now.wire }
    {
        &self.wire
    }

    /// Exchanges a request that was counted.
    fn exchange_counted<R: IoRuntime>(
        &mut self,
        rt: &R,
        server: usize,
        request: &Request,
    ) -> Result<Outcome, ExchangeNoMemory>
        requires { server < W.servers self.old.wire }
        ensures exchange { IsWireExchange W.servers W.is_connected W.failures W.steps
            server request.now self.old.wire (outcome_in result) self.new.wire }
        ensures counts { self.new ≡ record self.old { wire = self.new.wire } }
        ensures counted { is_counted result ≡ true }
        ensures aborted { ¬ (result ≡ Ok Outcome.Aborted) }
    {
        let came = exchange_over(
            rt,
            self.alloc,
            &mut self.wire,
            &mut self.buffers,
            server,
            request,
        );
        self.buffers.release();
        came
    }

    /// Sends a probe that was counted, under the time limit of probes.
    fn probe_counted<R: IoRuntime>(
        &mut self,
        rt: &R,
        server: usize,
    ) -> Result<Outcome, ExchangeNoMemory>
        requires { server < W.servers self.old.wire }
        ensures probe { IsProbing W.servers W.is_connected W.failures W.steps server
            self.old.wire (outcome_in result) self.new.wire }
        ensures counts { self.new ≡ record self.old { wire = self.new.wire } }
        ensures counted { is_counted result ≡ true }
        ensures aborted { ¬ (result ≡ Ok Outcome.Aborted) }
    {
        self.wire.set_probing(rt, server, true);
        let came = self.exchange_counted(rt, server, &Request::Version);
        self.wire.set_probing(rt, server, false);
        came
    }
}

/// The clauses are those of `Links`, with `ends` for `spent`: nothing is aborted. `record` says
/// what an item is.
impl<W: Wire> Links for Wired<W> {
    ghost servers = { λ links. length links.sends };

    ghost sent = { λ links server. slice_index links.sends server };

    ghost probed = { λ links server. slice_index links.probes server };

    ghost exchanges = { λ old it new.
        IsWired W.servers W.is_connected W.failures W.steps old it new };

    fn exchange<R: IoRuntime>(
        &mut self,
        rt: &R,
        clear: Clear,
        request: &Request,
    ) -> Result<Outcome, ExchangeNoMemory>
        requires { clear < length self.old.sends }
        ensures record { HasExchanged (IsWired W.servers W.is_connected W.failures W.steps) self.old
            clear request.now result self.new }
        ensures ends { EndsUnaborted (slice_index self.old.sends clear) result }
        ensures sends { (server : ℕ) → slice_index self.new.sends server
            ≡ slice_index self.old.sends server + part_of (is_counted result) clear server }
        ensures probes { (server : ℕ) → slice_index self.new.probes server
            ≡ slice_index self.old.probes server }
        ensures servers { length self.new.sends ≡ length self.old.sends }
    {
        let server = clear.server();
        if self.sends[server] == u64::MAX {
            return Ok(Outcome::Spent);
        }
        self.sends[server] += 1;
        self.exchange_counted(rt, server, request)
    }

    fn probe<R: IoRuntime>(&mut self, rt: &R, duty: Duty) -> Result<Outcome, ExchangeNoMemory>
        requires { duty < length self.old.sends }
        ensures record { WasProbed (IsWired W.servers W.is_connected W.failures W.steps) self.old
            duty result self.new }
        ensures ends { EndsUnaborted (slice_index self.old.probes duty) result }
        ensures probes { (server : ℕ) → slice_index self.new.probes server
            ≡ slice_index self.old.probes server + part_of (is_counted result) duty server }
        ensures sends { (server : ℕ) → slice_index self.new.sends server
            ≡ slice_index self.old.sends server }
        ensures servers { length self.new.sends ≡ length self.old.sends }
    {
        let server = duty.server();
        if self.probes[server] == u64::MAX {
            return Ok(Outcome::Spent);
        }
        self.probes[server] += 1;
        self.probe_counted(rt, server)
    }

    fn sends(&self, server: usize) -> u64 {
        self.sends[server]
    }

    fn probes(&self, server: usize) -> u64 {
        self.probes[server]
    }

    fn begun(&self, server: usize) -> Option<Instant> {
        self.wire.begun(server)
    }
}
