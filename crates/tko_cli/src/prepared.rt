//! A server that is ready to run, with what runs beside it.
ghost use Rattle.std.specs.Prelude.{◌≡◌, IfErr, IfOk, IfSome, bytes_eq, codes, is_some, string_bytes};
ghost use Rattle.std.specs.Net.Text.{socket_text};
ghost use Rattle.tko_cli.specs.Serving.{HasBeside, HasNoListener, HasNoMetrics, HasNotOpened};
ghost use Rattle.tko_server.specs.Beside.{IsLogOf, IsMeterOf};

use std::alloc::{AllocError, Global};
use std::fs::{File, Files};
use std::io;
use std::net::{SocketAddr, TcpListener};
use tko_commands::{Fault, ListenFault};
use tko_io::IoRuntime;
use tko_metrics::{Build, Process};
use tko_options::{Mode, ServeOptions};
use tko_server::{Logging, Metering};

/// A server that is ready to run, with its listener.
#[derive(Drop)]
pub(crate) struct Prepared {
    /// How the server serves its clients.
    pub mode: Mode,
    pub server: tko_server::Options,
    pub listener: TcpListener,
    pub logging: Option<Logging>,
    pub metering: Option<Metering>,
}

/// This server of this build, with a listener for its clients, and with the event log and the
/// metrics that the options ask for.
pub(crate) fn prepare<R: IoRuntime<Listener = TcpListener> + Files<File = File>>(
    rt: &R,
    alloc: Global,
    build: Build,
    options: &ServeOptions,
    server: tko_server::Options,
) -> Result<Prepared, Fault>
    ensures ok { IfOk result (λ prepared. prepared.server ≡ server) }
    ensures beside { IfOk result (HasBeside options.now) }
    ensures err { IfErr result (HasNotOpened options.now) }
{
    let (listener, address) = listener_of(rt, alloc, options.listen.as_str())?;
    let logging = logging_of(rt, alloc, options, address, &server)?;
    let metering = metering_of(rt, alloc, build, options, &server)?;
    Ok(Prepared {
        mode: options.mode,
        server,
        listener,
        logging,
        metering,
    })
}

/// A listener at this address, with the one that it reports, or what the system says against it.
fn listener_of<R: IoRuntime<Listener = TcpListener>>(
    rt: &R,
    alloc: Global,
    address: &str,
) -> Result<(TcpListener, SocketAddr), Fault>
    ensures { IfErr result HasNoListener }
{
    match bound(rt, alloc, address)? {
        Ok(bound) => Ok(bound),
        Err(words) => Err(Fault::Listen(ListenFault::System(words))),
    }
}

/// A listener at this address, with the one that it reports, or what the system says against it; or
/// memory ran out for that.
fn bound<R: IoRuntime<Listener = TcpListener>>(
    rt: &R,
    alloc: Global,
    address: &str,
) -> Result<Result<(TcpListener, SocketAddr), String>, AllocError> {
    match bind(rt, address) {
        Ok(bound) => Ok(Ok(bound)),
        Err(error) => Ok(Err(format!(in alloc; "{error}")?)),
    }
}

/// A listener at one of the addresses that this text names, with the one that it reports.
fn bind<R: IoRuntime<Listener = TcpListener>>(
    rt: &R,
    address: &str,
) -> io::Result<(TcpListener, SocketAddr)> {
    let listener = TcpListener::bind(rt, address)?;
    let address = listener.local_addr()?;
    Ok((listener, address))
}

/// The event log of this server, which listens at this address, that the options ask for, if they
/// do. Its lines go to the standard error of the runtime, and not to the outlet of the faults.
pub(crate) fn logging_of<R: IoRuntime>(
    rt: &R,
    alloc: Global,
    options: &ServeOptions,
    address: SocketAddr,
    server: &tko_server::Options,
) -> Result<Option<Logging>, AllocError>
    ensures asked { IfOk result (λ logging.
        is_some logging ≡ bytes_eq (string_bytes options.now.log) (codes "stderr")) }
    ensures of { IfOk result (λ logging.
        IfSome logging (IsLogOf (socket_text address) server.now)) }
{
    if !options.has_log() {
        return Ok(None);
    }
    let listen = format!(in alloc; "{address}")?;
    let logging = Logging::start(rt, alloc, listen.as_str(), server)?;
    Ok(Some(logging))
}

/// The metrics of this server of this build that the options ask for, if they do.
fn metering_of<R: IoRuntime<Listener = TcpListener> + Files<File = File>>(
    rt: &R,
    alloc: Global,
    build: Build,
    options: &ServeOptions,
    server: &tko_server::Options,
) -> Result<Option<Metering>, Fault>
    ensures asked { IfOk result (λ metering. is_some metering ≡ is_some options.now.metrics) }
    ensures of { IfOk result (λ metering. IfSome metering (IsMeterOf server.now)) }
    ensures err { IfErr result (HasNoMetrics options.now) }
{
    let Some(address) = &options.metrics else {
        return Ok(None);
    };
    match bound(rt, alloc, address.as_str())? {
        Ok((listener, _)) => Ok(Some(metering_at(rt, alloc, build, listener, server)?)),
        Err(words) => Err(Fault::Metrics(ListenFault::System(words))),
    }
}

/// The metrics of this server of this build, which this listener answers for.
fn metering_at<R: IoRuntime<Listener = TcpListener> + Files<File = File>>(
    rt: &R,
    alloc: Global,
    build: Build,
    listener: TcpListener,
    server: &tko_server::Options,
) -> Result<Metering, AllocError>
    ensures { IfOk result (IsMeterOf server.now) }
{
    let process = Process::open(rt, build, server.open_files);
    Metering::start(alloc, listener, server, process)
}
