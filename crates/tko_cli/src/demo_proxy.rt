//! The proxy of `demo`, on a thread of its own.
ghost use Rattle.std.specs.Prelude.{IfErr, IfOk};
ghost use Rattle.tko_cli.specs.Serving.{IsNamed, IsRunnable};
ghost use Rattle.tko_demo.specs.Faults.{IsUnavailable};

use crate::planned::named_server;
use crate::prepared::{Prepared, logging_of};
use crate::serving::run_announced;
use std::alloc::{AllocError, Global};
use std::fs::{File, Files};
use std::net::{Ipv4Addr, SocketAddr, TcpListener};
use std::thread;
use std::thread::{JoinHandle, Threads};
use tko_commands::Fault;
use tko_demo::DemoFault;
use tko_desk::Totals;
use tko_io::{IoRuntime, Taped};
use tko_options::{DemoOptions, Mode, ServeOptions};
use tko_server::ServerRunFault;

/// How long the first probe of the server that goes away waits, in milliseconds: until the server
/// is back also on a slow machine, so that the first probe is the one that it answers.
const FIRST_DELAY: u32 = 1500;

const ROUTE: &str =
    "{\"type\": \"FailoverRoute\", \"children\": [\"PoolRoute|near\", \"PoolRoute|far\"]}";

/// The proxy, which serves on a thread of its own.
#[derive(Drop)]
pub(crate) struct DemoProxy {
    pub address: SocketAddr,
    thread: JoinHandle<Result<Totals, ServerRunFault>>,
}

impl DemoProxy {
    /// Starts it before a server of each pool.
    pub fn start<
        R: IoRuntime<Listener = TcpListener>
            + Threads
            + Sync
            + Copy
            + Send
            + 'static
            + Files<File = File>
            + Eprint,
    >(
        rt: &R,
        alloc: Global,
        demo: DemoOptions,
        near: SocketAddr,
        far: SocketAddr,
    ) -> Result<DemoProxy, DemoFault>
        ensures { IfErr result IsUnavailable }
    {
        let Ok(listener) = TcpListener::bind(rt, any_port()) else {
            return Err(DemoFault::Port);
        };
        let Ok(address) = listener.local_addr() else {
            return Err(DemoFault::Port);
        };
        let options = serve_options(alloc, demo, address, near, far)?;
        let Ok(prepared) = prepare_at(rt, alloc, &options, listener, address) else {
            return Err(DemoFault::Memory);
        };
        let runtime = *rt;
        let serves = move || -> Result<Totals, ServerRunFault>
            requires { IsRunnable prepared }
        { totals_of(&runtime, alloc, prepared) };
        let Ok(thread) = thread::spawn(rt, serves) else {
            return Err(DemoFault::Thread);
        };
        Ok(DemoProxy { address, thread })
    }

    /// Waits until it has ended, as it does once its only client has left, and returns its totals.
    pub fn totals<R: Threads>(self, rt: &R) -> Result<Totals, DemoFault>
        ensures { IfErr result IsUnavailable }
    {
        let DemoProxy { thread, .. } = self;
        match thread.join(rt) {
            Ok(totals) => Ok(totals),
            Err(ServerRunFault::Accept) => Err(DemoFault::Port),
            Err(_) => Err(DemoFault::Memory),
        }
    }
}

/// Any port of 127.0.0.1 that is free.
pub(crate) fn any_port() -> SocketAddr {
    SocketAddr::from((Ipv4Addr::LOCALHOST, 0))
}

/// What `serve` is asked for: one event-driven worker, so that it is the same one at each run that
/// meets the server's failure. Without `--stay` it ends when its only client has left.
fn serve_options(
    alloc: Global,
    demo: DemoOptions,
    address: SocketAddr,
    near: SocketAddr,
    far: SocketAddr,
) -> Result<ServeOptions, AllocError> {
    let (log, connections) = if demo.stay { ("stderr", 0) } else { ("off", 1) };
    Ok(ServeOptions {
        listen: format!(in alloc; "{address}")?,
        config: config_of(alloc, near, far)?,
        config_file: None,
        mode: Mode::Events,
        threads: 1,
        clients: None,
        keys_at_once: 1,
        group_keys: false,
        connections,
        timeout: 1000,
        write_timeout: 5000,
        idle_timeout: 0,
        first_delay: FIRST_DELAY,
        greatest_delay: 5000,
        failures: 3,
        limit: 40,
        tries: 8,
        log: String::from_str(alloc, log)?,
        metrics: None,
        only_check: false,
    })
}

/// The configuration: a server in each of two pools, of which far is asked where near fails.
fn config_of(alloc: Global, near: SocketAddr, far: SocketAddr) -> Result<String, AllocError> {
    let near = format!(in alloc; "\"near\": {{\"servers\": [\"{near}\"]}}")?;
    let far = format!(in alloc; "\"far\": {{\"servers\": [\"{far}\"]}}")?;
    format!(in alloc; "{{\"pools\": {{{near}, {far}}}, \"route\": {ROUTE}}}")
}

/// What `serve` prepares for these options, with a listener that is there already, and the address
/// that it reports.
fn prepare_at<R: IoRuntime + Files<File = File>>(
    rt: &R,
    alloc: Global,
    options: &ServeOptions,
    listener: TcpListener,
    address: SocketAddr,
) -> Result<Prepared, Fault>
    ensures { IfOk result (λ prepared. IsNamed options.now prepared.server) }
{
    let server = named_server(rt, alloc, options)?;
    let logging = logging_of(rt, alloc, options, address, &server)?;
    Ok(Prepared {
        mode: options.mode,
        server,
        listener,
        logging,
        metering: None,
    })
}

/// Serves until the last of the connections has ended, and returns the totals.
fn totals_of<
    R: IoRuntime<Listener = TcpListener> + Threads + Sync + Copy + Send + 'static + Eprint,
>(rt: &R, alloc: Global, prepared: Prepared) -> Result<Totals, ServerRunFault>
    requires { IsRunnable prepared }
{
    let mut unread = Taped::new(Vec::new(alloc), 4096, Vec::new(alloc));
    let ended = run_announced(rt, alloc, prepared, &mut unread)?;
    Ok(ended.totals)
}
