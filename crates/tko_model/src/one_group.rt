//! Settings without groups.
ghost use Rattle.std.specs.Prelude.{◌≡◌, IfOk};
ghost use Rattle.tko_model.specs.Settings.{in_one_group};

use crate::settings::{MAX_SERVERS, Settings};
use std::alloc::Global;
use tko_bytes::NoMemory;

/// The settings of a tracker whose servers are all in one group.
#[derive(Clone, Copy, Debug, PartialEq, Eq)]
pub struct OneGroup {
    /// 1 to `MAX_SERVERS`.
    pub servers: u32,
    /// 1 to `Layout::max_threads`.
    pub threads: u32,
    /// How many soft failures in a row mark a server, 1 to `Layout::max_failures`.
    pub failures: u32,
    /// How many soft marks there may be at once, 0 to `MAX_LIMIT`.
    pub limit: u32,
    /// How many tries a call may lose to other threads before it gives up, 1 to `MAX_TRIES`.
    pub tries: u32,
    /// Each server's stamp at the start, up to `WORN_STAMP`.
    pub opening_stamp: u64,
}

impl OneGroup {
    /// For tests, which name what differs: one server and one thread, where the first failure marks
    /// the server, and the limit is one that no test meets.
    pub const SMALL: OneGroup = OneGroup {
        servers: 1,
        threads: 1,
        failures: 1,
        limit: 40,
        tries: 8,
        opening_stamp: 0,
    };

    /// The settings, with group 0 for each server. They need not be in their ranges.
    pub fn settings(&self, alloc: Global) -> Result<Settings, NoMemory>
        ensures { IfOk result (λ settings. settings ≡ in_one_group self.now) }
    {
        Ok(Settings {
            servers: self.servers,
            threads: self.threads,
            failures: self.failures,
            limits: vec![in alloc; self.limit; 1]?,
            group_of: vec![in alloc; 0; self.servers.min(MAX_SERVERS) as usize]?,
            tries: self.tries,
            opening_stamp: self.opening_stamp,
        })
    }
}
