//! All servers at once.
ghost use Rattle.std.specs.Prelude.{◌≡◌, ◌<◌, IfOk, length, map, string_bytes};
ghost use Rattle.tko_reach.specs.Reaching.{AreReached, IsReachOf, IsReachedAt, unasked};

use crate::asking::ask;
use crate::reach::{Reach, Reached};
use crate::unobserved::Unobserved;
use std::alloc::Global;
use std::net::TcpListener;
use std::thread;
use std::thread::Threads;
use tko_bytes::NoMemory;
use tko_io::IoRuntime;
use tko_tcp::{Names, TcpWire};

/// Asks the servers with these addresses for their versions, all at once, each on a thread of its
/// own and within `time_limit_ms` milliseconds, connecting included. A server for which the system
/// gives no thread is asked before or after another one. Names are looked up on one more thread,
/// which nobody joins.
pub fn reach_all<R: IoRuntime<Listener = TcpListener> + Threads + Sync + Copy + Send + 'static>(
    rt: &R,
    alloc: Global,
    addresses: &[String],
    time_limit_ms: u32,
) -> Result<Vec<Reached>, NoMemory>
    ensures { IfOk result (λ servers.
        AreReached time_limit_ms (map string_bytes addresses.now) servers.items) }
{
    let names = Names::open(alloc, addresses)?;
    if !names.is_empty() {
        let theirs = names.another()?;
        let runtime = *rt;
        thread::spawn(rt, move || theirs.look_up_all(&runtime, alloc, &Unobserved)).map_err(
            |_| NoMemory,
        )?;
    }
    let asked = ask_all(rt, alloc, addresses, &names, time_limit_ms);
    names.end();
    asked
}

/// Asks each server on a thread of its own, or one after another where no thread can be made.
fn ask_all<R: IoRuntime<Listener = TcpListener> + Threads + Sync>(
    rt: &R,
    alloc: Global,
    addresses: &[String],
    names: &Names,
    time_limit_ms: u32,
) -> Result<Vec<Reached>, NoMemory>
    ensures { IfOk result (λ servers.
        AreReached time_limit_ms (map string_bytes addresses.now) servers.items) }
{
    let ask_one = |number: usize| -> Result<Reached, NoMemory>
        requires { number < length addresses.now }
        ensures { IfOk result (IsReachedAt time_limit_ms (map string_bytes addresses.entry.now)
            number) }
    { ask_server(rt, alloc, addresses, number, names, time_limit_ms) };
    let asked = thread::map_indices(rt, alloc, addresses.len(), &ask_one)?;
    all_asked(alloc, asked)
}

/// Asks the server with this number.
fn ask_server<R: IoRuntime>(
    rt: &R,
    alloc: Global,
    addresses: &[String],
    number: usize,
    names: &Names,
    time_limit_ms: u32,
) -> Result<Reached, NoMemory>
    requires { number < length addresses.now }
    ensures { IfOk result (IsReachedAt time_limit_ms (map string_bytes addresses.now) number) }
{
    let address = String::from_str(alloc, addresses[number].as_str())?;
    let reach = reach_at(rt, alloc, address.as_str(), names, time_limit_ms)?;
    Ok(Reached {
        number,
        address,
        reach,
    })
}

/// Asks the server with this address.
fn reach_at<R: IoRuntime>(
    rt: &R,
    alloc: Global,
    address: &str,
    names: &Names,
    time_limit_ms: u32,
) -> Result<Reach, NoMemory>
    ensures { IfOk result (IsReachOf time_limit_ms address.now) }
{
    let mut wire = wire_to(alloc, address, names.another()?, time_limit_ms)?;
    ask(rt, alloc, &mut wire, 0)
}

/// The connections to the server with this address alone.
fn wire_to(
    alloc: Global,
    address: &str,
    names: Names,
    time_limit_ms: u32,
) -> Result<TcpWire, NoMemory>
    ensures { IfOk result (λ wire. wire ≡ unasked time_limit_ms address.now) }
{
    let address = String::from_str(alloc, address)?;
    TcpWire::new(alloc, &[address], names, time_limit_ms)
}

/// What came of each server, unless memory ran out for one.
fn all_asked(alloc: Global, asked: Vec<Result<Reached, NoMemory>>) -> Result<Vec<Reached>, NoMemory>
    ensures { IfOk result (λ servers. map Ok servers.items ≡ asked.items) }
{
    let mut servers = Vec::new(alloc);
    for server in asked {
        servers.push(server?)?;
    }
    Ok(servers)
}
