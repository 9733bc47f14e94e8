//! The settings of a tracker and their ranges.
ghost use Rattle.std.specs.Prelude.{◌≡◌, ◌<◌, ◌^◌, ◌↔◌, Some, IfOk, IsOk};
ghost use Rattle.tko_model.specs.Ranges.{IsWithin, IsWithinRanges, are_within, first_fault, first_fault_in, has_groups};
ghost use Rattle.tko_model.specs.Settings.{with_servers};

use crate::Layout;
use std::alloc::Global;
use std::marker::Model;
use thiserror::Error;
use tko_bytes::NoMemory;

/// The most servers that a tracker has.
pub const MAX_SERVERS: u32 = 256;

/// The most soft marks that may be allowed at once in a group.
pub const MAX_LIMIT: u32 = 256;

/// The most groups of servers.
pub const MAX_GROUPS: usize = 256;

/// The most tries that a call may be given.
pub const MAX_TRIES: u32 = 1_000;

/// From this stamp on an unmarked server takes no more changes, so that a stamp stays below 2^51.
pub const WORN_STAMP: u64 = (1 << 51) - 8;

/// What a tracker is opened with. In contracts the limits and the groups are lists of numbers.
#[derive(Debug, Drop)]
pub struct Settings {
    /// 1 to `MAX_SERVERS`.
    pub servers: u32,
    /// 1 to `Layout::max_threads`.
    pub threads: u32,
    /// How many soft failures in a row mark a server, 1 to `Layout::max_failures`.
    pub failures: u32,
    /// Of each group of servers, 1 to `MAX_GROUPS`: how many soft marks there may be at once among
    /// them, 0 to `MAX_LIMIT`.
    pub limits: Vec<u32>,
    /// Of each server: its group, by the group's place in `limits`.
    pub group_of: Vec<u32>,
    /// How many tries a call may lose to other threads before it gives up, 1 to `MAX_TRIES`.
    pub tries: u32,
    /// Each server's stamp at the start, up to `WORN_STAMP`.
    pub opening_stamp: u64,
}

impl Model for Settings {
    ghost use Rattle.tko_model.specs.Settings.{Settings};

    ghost Value = { Settings };

    ghost view = { λ s. record {
      servers = s.servers;
      threads = s.threads;
      failures = s.failures;
      limits = s.limits.items;
      group_of = s.group_of.items;
      tries = s.tries;
      opening_stamp = s.opening_stamp;
    } };
}

/// Which setting is outside its range.
#[derive(Clone, Copy, Debug, PartialEq, Eq, Error)]
pub enum SettingsFault {
    #[error("servers")]
    Servers,
    #[error("threads")]
    Threads,
    #[error("failures")]
    Failures,
    /// A limit is too high.
    #[error("limit")]
    Limit,
    #[error("tries")]
    Tries,
    #[error("stamp")]
    Stamp,
    /// There is no group, there are too many, or not each server has one of them.
    #[error("groups")]
    Groups,
}

impl Settings {
    ghost use Rattle.tko_model.specs.Groups.{group_of, groups, limit_of};

    /// Refuses the first setting outside its range, in the order of the faults.
    pub fn check(&self) -> Result<(), SettingsFault>
        ensures ok { IsOk result ↔ IsWithinRanges self.now }
        ensures err { (fault : SettingsFault) →
            (result ≡ Err fault) ↔ (first_fault self.now ≡ Some fault) }
    {
        self.check_in(Layout::Two)
    }

    /// `check` of the same settings with another number of servers.
    pub fn check_with_servers(&self, servers: u32) -> Result<(), SettingsFault>
        ensures ok { IsOk result ↔ IsWithinRanges (with_servers servers self.now) }
        ensures err { (fault : SettingsFault) →
            (result ≡ Err fault) ↔ (first_fault (with_servers servers self.now) ≡ Some fault) }
    {
        self.check_for(Layout::Two, servers)
    }

    /// `check` with the ranges of a layout.
    pub fn check_in(&self, layout: Layout) -> Result<(), SettingsFault>
        ensures ok { IsOk result ↔ IsWithin layout self.now }
        ensures err { (fault : SettingsFault) →
            (result ≡ Err fault) ↔ (first_fault_in layout self.now ≡ Some fault) }
    {
        self.check_for(layout, self.servers)
    }

    /// `check_in` of the same settings with another number of servers.
    #[tactic(auto, unfolding(crate::specs::Ranges::first_fault_in))]
    fn check_for(&self, layout: Layout, servers: u32) -> Result<(), SettingsFault>
        ensures ok { IsOk result ↔ IsWithin layout (with_servers servers self.now) }
        ensures err { (fault : SettingsFault) → (result ≡ Err fault)
            ↔ (first_fault_in layout (with_servers servers self.now) ≡ Some fault) }
    {
        if servers == 0 || servers > MAX_SERVERS {
            return Err(SettingsFault::Servers);
        }
        if self.threads == 0 || self.threads > layout.max_threads() {
            return Err(SettingsFault::Threads);
        }
        if self.failures == 0 || self.failures > layout.max_failures() {
            return Err(SettingsFault::Failures);
        }
        if !are_within(&self.limits, MAX_LIMIT) {
            return Err(SettingsFault::Limit);
        }
        if self.tries == 0 || self.tries > MAX_TRIES {
            return Err(SettingsFault::Tries);
        }
        if self.opening_stamp > WORN_STAMP {
            return Err(SettingsFault::Stamp);
        }
        if !self.has_groups_for(servers) {
            return Err(SettingsFault::Groups);
        }
        Ok(())
    }

    /// Whether there are groups, and each of so many servers has one of them.
    fn has_groups_for(&self, servers: u32) -> bool
        ensures { result ≡ has_groups (with_servers servers self.now) }
    {
        let groups = self.limits.len();
        (1..=MAX_GROUPS).contains(&groups)
            && self.group_of.len() == servers as usize
            && are_within(&self.group_of, groups as u32 - 1)
    }

    /// The same settings once more.
    pub fn try_clone(&self, alloc: Global) -> Result<Settings, NoMemory>
        ensures { IfOk result (λ settings. settings ≡ self.now) }
    {
        Ok(Settings {
            servers: self.servers,
            threads: self.threads,
            failures: self.failures,
            limits: self.limits.to_vec(alloc)?,
            group_of: self.group_of.to_vec(alloc)?,
            tries: self.tries,
            opening_stamp: self.opening_stamp,
        })
    }

    /// How many groups of servers there are. They are numbered from 0.
    #[tactic(auto, unfolding(crate::specs::Groups::groups))]
    pub fn groups(&self) -> usize
        ensures { result ≡ groups self.now }
    {
        self.limits.len()
    }

    /// The group of a server.
    #[tactic(auto, unfolding(crate::specs::Groups::group_of))]
    pub fn group_of(&self, server: usize) -> usize
        ensures value { result ≡ group_of self.now server }
        ensures small { result < 2 ^ 32 }
    {
        self.group_of.get(server).copied().unwrap_or(0) as usize
    }

    /// How many servers of a group may have a soft mark.
    #[tactic(auto, unfolding(crate::specs::Groups::limit_of))]
    pub fn limit_of(&self, group: usize) -> u32
        ensures { result ≡ limit_of self.now group }
    {
        self.limits.get(group).copied().unwrap_or(0)
    }
}

/// Whether each number is at most as high as this one.
fn are_within(numbers: &[u32], high: u32) -> bool
    ensures { result ≡ are_within high numbers.now }
{
    numbers.iter().all(|number| *number <= high)
}
