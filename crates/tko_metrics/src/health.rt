//! The health of the pools of a route: whether each has a server in use.
ghost use Rattle.std.specs.Prelude.{◌≡◌, ◌++◌, IfOk, OnOk, flat_map, length, map, string_bytes};
ghost use Rattle.std.specs.List.{filter};
ghost use Rattle.tko_metrics.specs.Health.{IsHealth, IsReportOf, are_healthy, health_text, in_use, is_pool_healthy, marked_line, member_line, pool_lines, unused_line, use_line};

use crate::marking::Marking;
use crate::meter::{Meter, SharedMeter};
use crate::reading::Shown;
use crate::sample::{add_digits, add_seconds};
use std::alloc::Global;
use tko_bytes::{NoMemory, append};

/// A pool of the route: its name, and the numbers of its servers.
#[derive(Drop)]
pub struct ShownPool {
    pub name: String,
    pub servers: Vec<usize>,
}

/// Whether each pool has a server in use, and a text that says it of each.
#[derive(Drop)]
pub struct HealthReport {
    pub is_healthy: bool,
    pub text: Vec<u8>,
}

impl Meter {
    /// The health of these pools at this moment, over servers of these addresses. A server is in
    /// use if no worker has a mark on it; a meter that is off has no marks.
    pub fn health(
        &self,
        alloc: Global,
        addresses: &[String],
        pools: &[ShownPool],
    ) -> Result<HealthReport, NoMemory>
        ensures { IfOk result (λ report.
            IsHealth (map string_bytes addresses.now) pools.now report) }
    {
        let nothing = SharedMeter::of(Vec::new(alloc));
        let shared = self.shared().unwrap_or(&nothing);
        let servers = Shown::all(alloc, shared, addresses)?;
        HealthReport::of(alloc, &servers, pools)
    }
}

impl HealthReport {
    /// The health of these pools over these servers.
    fn of(
        alloc: Global,
        servers: &[Shown<'_>],
        pools: &[ShownPool],
    ) -> Result<HealthReport, NoMemory>
        ensures { IfOk result (λ report. IsReportOf servers.now pools.now report) }
    {
        let mut text = Vec::new(alloc);
        add_pools(&mut text, servers, pools)?;
        Ok(HealthReport {
            is_healthy: are_healthy(servers, pools),
            text,
        })
    }
}

/// Whether each of these pools has a server in use.
fn are_healthy(servers: &[Shown<'_>], pools: &[ShownPool]) -> bool
    ensures { result ≡ are_healthy servers.now pools.now }
{
    pools.iter().all(|pool| is_pool_healthy(servers, pool))
}

/// Whether a pool has a server in use.
fn is_pool_healthy(servers: &[Shown<'_>], pool: &ShownPool) -> bool
    ensures { result ≡ is_pool_healthy servers.now pool.now }
{
    pool.servers.iter().any(|number| in_use(servers, *number))
}

/// Whether the server of this number is in use: no worker has a mark on it.
fn in_use(servers: &[Shown<'_>], number: usize) -> bool
    ensures { result ≡ in_use servers.now number }
{
    match servers.get(number) {
        Some(server) => !server.reading.mark.is_set(),
        None => false,
    }
}

/// How many of these numbers are those of servers in use.
pub fn used_of(servers: &[Shown<'_>], numbers: &[usize]) -> usize
    ensures { result ≡ length (filter (in_use servers.now) numbers.now) }
{
    numbers
        .iter()
        .filter(|number| in_use(servers, **number))
        .count()
}

/// Appends the lines of these pools.
fn add_pools(out: &mut Vec<u8>, servers: &[Shown<'_>], pools: &[ShownPool]) -> Result<(), NoMemory>
    ensures { OnOk result (out.new.items ≡ out.old.items ++ health_text servers.now pools.now) }
{
    for pool in pools {
        add_pool(out, servers, pool)?;
    }
    Ok(())
}

/// Appends the line of a pool, and one for each of its servers that is not in use.
#[tactic(auto, unfolding(crate::specs::Health::pool_lines))]
fn add_pool(out: &mut Vec<u8>, servers: &[Shown<'_>], pool: &ShownPool) -> Result<(), NoMemory>
    ensures { OnOk result (out.new.items ≡ out.old.items ++ pool_lines servers.now pool.now) }
{
    let used = used_of(servers, &pool.servers);
    add_use(out, pool.name.as_str(), used, pool.servers.len())?;
    add_members(out, servers, &pool.servers)
}

/// Appends how many of all servers of a pool are in use.
#[tactic(auto, unfolding(crate::specs::Health::use_line))]
fn add_use(out: &mut Vec<u8>, name: &str, used: usize, all: usize) -> Result<(), NoMemory>
    ensures { OnOk result (out.new.items ≡ out.old.items ++ use_line name.now used all) }
{
    append(out, &[b"pool ", name.as_bytes(), b": "])?;
    add_digits(out, used as u64)?;
    append(out, &[b" of "])?;
    add_digits(out, all as u64)?;
    append(out, &[b" servers in use\n"])
}

/// Appends a line for each server of these numbers that is not in use.
fn add_members(out: &mut Vec<u8>, servers: &[Shown<'_>], numbers: &[usize]) -> Result<(), NoMemory>
    ensures { OnOk result
        (out.new.items ≡ out.old.items ++ flat_map (member_line servers.now) numbers.now) }
{
    for number in numbers {
        add_member(out, servers, *number)?;
    }
    Ok(())
}

/// Appends a line for the server of this number, if it is not in use.
fn add_member(out: &mut Vec<u8>, servers: &[Shown<'_>], number: usize) -> Result<(), NoMemory>
    ensures { OnOk result (out.new.items ≡ out.old.items ++ member_line servers.now number) }
{
    match servers.get(number) {
        Some(server) => add_marked(out, *server),
        None => Ok(()),
    }
}

/// Appends a line for a server, if it is not in use.
fn add_marked(out: &mut Vec<u8>, server: Shown<'_>) -> Result<(), NoMemory>
    ensures { OnOk result (out.new.items ≡ out.old.items ++ marked_line server.entry) }
{
    let Shown { address, reading } = server;
    match reading.mark {
        Marking::Up => Ok(()),
        Marking::Soft => add_unused(out, address, b"soft", reading.since),
        Marking::Hard => add_unused(out, address, b"hard", reading.since),
    }
}

/// Appends which mark a server has, and since when.
#[tactic(auto, unfolding(crate::specs::Health::unused_line))]
fn add_unused(out: &mut Vec<u8>, address: &str, mark: &[u8], since: u64) -> Result<(), NoMemory>
    ensures { OnOk result
        (out.new.items ≡ out.old.items ++ unused_line address.now mark.now since) }
{
    append(out, &[b"  ", address.as_bytes(), b" ", mark, b" since "])?;
    add_seconds(out, since)?;
    append(out, &[b"\n"])
}
