//! How often each server was sent to.
ghost use Rattle.std.specs.Prelude.{◌≡◌, ◌≢◌, ◌+◌, ◌<◌, ℕ, true, IfOk, length, replicate};
ghost use Rattle.std.specs.Prelude.{slice_index};
ghost use Rattle.tko_links.specs.Links.{most_sends, part_of};

use std::alloc::Global;
use std::marker::Model;
use std::sync::Wait;
use tko_bytes::NoMemory;
use tko_io::raise;

/// How often each server was sent to. It stands where a worker that waits has its links: the
/// connections are not the sessions'.
#[derive(Drop)]
pub struct Sends {
    counts: Vec<u64>,
}

impl Model for Sends {
    ghost use Rattle.std.specs.Prelude.{List, ℕ};

    ghost Value = { List ℕ };

    ghost view = { λ s. s.counts.items };
}

impl Sends {
    /// None of so many servers was sent to.
    pub fn new(alloc: Global, servers: usize) -> Result<Sends, NoMemory>
        ensures { IfOk result (λ sends. sends ≡ replicate servers 0) }
    {
        let counts = vec![in alloc; 0; servers]?;
        Ok(Sends { counts })
    }

    /// How often this server was sent to.
    pub fn of(&self, server: usize) -> u64
        requires { server < length self.now }
        ensures { result ≡ slice_index self.now server }
    {
        self.counts[server]
    }

    /// Returns where a send to this server can be counted. It blocks forever at 2^64 - 1, which no
    /// run reaches.
    pub fn room<R: Wait>(&self, rt: &R, server: usize)
        requires { server < length self.now }
        ensures { slice_index self.now server ≢ most_sends }
    {
        for _ in rt.forever() {
            if self.counts[server] != u64::MAX {
                return;
            }
        }
        unreachable!()
    }

    /// Counts a send.
    pub fn count<R: Wait>(&mut self, rt: &R, server: usize)
        requires { server < length self.old }
        ensures counted { (at : ℕ) → slice_index self.new at
            ≡ slice_index self.old at + part_of true server at }
        ensures servers { length self.new ≡ length self.old }
    {
        raise(rt, &mut self.counts[server]);
    }
}
