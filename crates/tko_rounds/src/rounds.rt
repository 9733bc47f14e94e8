//! What a worker knows of its probes.
ghost use Rattle.std.specs.Prelude.{◌≡◌, ◌<◌, IfOk, Some, count_by, length, slice_get, slice_set, sum_by};
ghost use Rattle.std.specs.Bool.{OnFalse, OnTrue};
ghost use Rattle.tko_bytes.specs.Numbers.{capped};
ghost use Rattle.tko_rounds.specs.Probes.{IsProbeCounted, count_of, no_probes, outs, with_out};

use crate::coming::is_probe;
use std::alloc::Global;
use std::marker::Model;
use std::sync::Wait;
use tko_bytes::NoMemory;
use tko_io::raise;
use tko_mux::Came;

/// What a worker knows of its probes: how often each server was probed, and whether a probe of it
/// is out, from the round that sent it to the one that takes what came of it.
#[derive(Debug, Drop)]
pub struct Rounds {
    counts: Vec<u64>,
    out: Vec<bool>,
    /// How many servers have a probe out.
    outs: usize,
}

impl Model for Rounds {
    ghost use Rattle.std.specs.Prelude.{◌≡◌, count_by, length};
    ghost use Rattle.tko_rounds.specs.Probes.{ProbesState};

    ghost Value = { ProbesState };

    ghost view = { λ r. record { counts = r.counts.items; out = r.out.items } };

    ghost invariant = { λ r. (length r.counts.items ≡ length r.out.items)
        × (r.outs ≡ count_by (λ is_out. is_out) r.out.items) };
}

impl Rounds {
    /// None of so many servers was probed.
    pub fn new(alloc: Global, servers: usize) -> Result<Rounds, NoMemory>
        ensures { IfOk result (λ rounds. rounds ≡ no_probes servers) }
    {
        let counts = vec![in alloc; 0; servers]?;
        let out = vec![in alloc; false; servers]?;
        Ok(Rounds {
            counts,
            out,
            outs: 0,
        })
    }

    /// How often this server was probed.
    pub fn of(&self, server: usize) -> u64
        ensures { result ≡ count_of self.now server }
    {
        match self.counts.get(server) {
            Some(count) => *count,
            None => 0,
        }
    }

    /// How often all of them were, at most 2^64 - 1.
    pub fn total(&self) -> u64
        ensures { result ≡ capped (sum_by (λ count. count) self.now.counts) }
    {
        sum_of(self.counts.as_slice())
    }

    /// How many servers there are.
    pub(crate) fn servers(&self) -> usize
        ensures { result ≡ length self.now.out }
    {
        self.out.len()
    }

    /// Whether no probe is out.
    pub(crate) fn has_none_out(&self) -> bool
        ensures yes { OnTrue result (outs self.now ≡ 0) }
        ensures no { OnFalse result (¬ (outs self.now ≡ 0)) }
    {
        self.outs == 0
    }

    /// Whether a probe of this server is out.
    pub(crate) fn is_out(&self, server: usize) -> bool
        requires { server < length self.now.out }
        ensures { slice_get self.now.out server ≡ Some result }
    {
        self.out[server]
    }

    /// A probe of this server is out, or is not any more.
    pub(crate) fn set_out(&mut self, server: usize, is_out: bool)
        requires { server < length self.old.out }
        ensures { self.new ≡ with_out server is_out self.old }
    {
        replace_flag(&mut self.out, &mut self.outs, server, is_out);
    }

    /// Counts a probe that came to this, if it counts. It blocks forever at 2^64 - 1, which no run
    /// reaches.
    pub(crate) fn count<R: Wait>(&mut self, rt: &R, server: usize, came: &Came)
        requires { server < length self.old.out }
        ensures { IsProbeCounted came.now server self.old self.new }
    {
        if !is_probe(came) {
            return;
        }
        raise(rt, &mut self.counts[server]);
    }
}

/// The sum of these, at most 2^64 - 1.
fn sum_of(counts: &[u64]) -> u64
    ensures { result ≡ capped (sum_by (λ count. count) counts.now) }
{
    let mut sum: u64 = 0;
    for count in counts {
        sum = sum.saturating_add(*count);
    }
    sum
}

/// Puts this into a place. `outs` counts the places that are set.
fn replace_flag(flags: &mut [bool], outs: &mut usize, server: usize, is_out: bool)
    requires within { server < length flags.old }
    requires counted { outs.old ≡ count_by (λ is_out. is_out) flags.old }
    ensures flags { flags.new ≡ slice_set flags.old server is_out }
    ensures counts { outs.new ≡ count_by (λ is_out. is_out) flags.new }
{
    let added = usize::from(is_out);
    let was = usize::from(flags[server]);
    flags[server] = is_out;
    *outs = *outs + added - was;
}
