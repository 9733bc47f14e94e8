//! Connecting to a server by its address, within a time limit.
ghost use Rattle.tko_tcp.specs.ExchangeTimes.{IsLater};

use crate::exchange_time::ExchangeTime;
use crate::names::Names;
use crate::tcp_address::host_and_port;
use libc::net::{POLLOUT, poll};
use libc::types::pollfd;
use std::io::{Error, ErrorKind, Result};
use std::net::{IpAddr, SocketAddr, TcpStream};
use std::os::fd::AsRawFd;
use tko_io::IoRuntime;

/// Connects to a server. If its host is a name, it must be one of `names`: `connect` waits for its
/// addresses if none are known, and requests a look-up if it cannot connect to any of them.
pub(crate) fn connect<R: IoRuntime>(
    rt: &R,
    names: &Names,
    address: &str,
    time: &mut ExchangeTime,
) -> Result<TcpStream>
    ensures { IsLater time.old time.new }
{
    let Some((host, port)) = host_and_port(address) else {
        return Err(Error::from(ErrorKind::InvalidInput));
    };
    if let Ok(ip) = host.parse::<IpAddr>() {
        return connect_one(rt, SocketAddr::new(ip, port), time, 1);
    }
    let Some(host) = names.host(host) else {
        return Err(Error::from(ErrorKind::NotFound));
    };
    let Some(addresses) = names.addresses(rt, host, time) else {
        return Err(Error::from(ErrorKind::AddrNotAvailable));
    };
    let server = names.server_at(address);
    let first = server.and_then(|server| names.reached(server)).unwrap_or(0);
    match connect_any(rt, addresses.as_slice(), first, port, time) {
        Ok((stream, place)) => {
            if let Some(server) = server {
                names.reach(server, place);
            }
            Ok(stream)
        }
        Err(error) => {
            names.ask(rt, host);
            Err(error)
        }
    }
}

/// Connects to the first of these addresses that accepts, and returns which one that is. They are
/// tried in turn from this place on. Each gets an equal part of the time that is left, so that one
/// that does not answer leaves time for those after it.
fn connect_any<R: IoRuntime>(
    rt: &R,
    addresses: &[SocketAddr],
    first: usize,
    port: u16,
    time: &mut ExchangeTime,
) -> Result<(TcpStream, usize)>
    ensures { IsLater time.old time.new }
{
    let mut last = Error::from(ErrorKind::AddrNotAvailable);
    let mut untried = addresses.len() as u64;
    let mut place = first;
    for _ in addresses {
        if addresses.len() <= place {
            place = 0;
        }
        let Some(address) = addresses.get(place) else {
            break;
        };
        let mut address = *address;
        address.set_port(port);
        match connect_one(rt, address, time, untried) {
            Ok(stream) => return Ok((stream, place)),
            Err(error) => last = error,
        }
        place = place.saturating_add(1);
        untried = untried.saturating_sub(1);
    }
    Err(last)
}

/// Connects to this address, within one of `parts` equal parts of the time that is left.
fn connect_one<R: IoRuntime>(
    rt: &R,
    address: SocketAddr,
    time: &mut ExchangeTime,
    parts: u64,
) -> Result<TcpStream>
    ensures { IsLater time.old time.new }
{
    time.look(rt);
    let Some(share) = time.share(parts) else {
        return Err(Error::from(ErrorKind::TimedOut));
    };
    let stream = TcpStream::from(mio::net::TcpStream::connect(rt, address)?);
    wait_until_connected(rt, &stream, time, share)?;
    stream.set_nonblocking(false)?;
    Ok(stream)
}

/// Waits until a connection is made that has begun, for so many milliseconds in which the process
/// runs. It takes too long only if it is not made when it is looked at after them.
fn wait_until_connected<R: IoRuntime>(
    rt: &R,
    stream: &TcpStream,
    time: &mut ExchangeTime,
    share: u64,
) -> Result<()>
    ensures { IsLater time.old time.new }
{
    let end = time.moment().saturating_add(share);
    for _ in rt.forever() {
        let left = end.saturating_sub(time.moment());
        if is_settled(stream, time.wait(left)) {
            return match stream.take_error()? {
                Some(error) => Err(error),
                None => stream.peer_addr().map(drop),
            };
        }
        if left == 0 {
            return Err(Error::from(ErrorKind::TimedOut));
        }
        time.look(rt);
    }
    unreachable!()
}

/// Whether a connection is made or has failed, after at most so many milliseconds.
fn is_settled(stream: &TcpStream, wait: u64) -> bool {
    let writable = pollfd {
        fd: stream.as_raw_fd(),
        events: POLLOUT,
        revents: 0,
    };
    poll(&mut [writable], i32::try_from(wait).unwrap_or(i32::MAX)) == 1
}
