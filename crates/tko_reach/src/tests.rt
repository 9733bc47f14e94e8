//! Servers over the loopback, and what is printed.

use crate::{Reach, Reached, append_servers, gave_versions, reach_all};
use std::alloc::Global;
use std::net::{Ipv4Addr, Net, SocketAddr, TcpListener, TcpStream};
use std::sync::Wait;
use std::test::Fail;
use std::thread::Threads;
use std::time::Clock;

/// What came of the servers with these addresses.
fn reach<
    R: Wait
        + Net<Stream = TcpStream, Listener = TcpListener>
        + Clock
        + Threads
        + Sync
        + Copy
        + Send
        + 'static,
>(rt: &R, alloc: Global, addresses: &[String]) -> Result<Vec<Reached>, Fail> {
    Ok(reach_all(rt, alloc, addresses, 100).map_err(|_| "memory")?)
}

#[test]
fn a_server_that_is_silent_and_one_that_is_gone(rt: HostRuntime) -> Result<(), Fail> {
    let alloc = rt.alloc();
    let any = SocketAddr::from((Ipv4Addr::LOCALHOST, 0));
    let silent = TcpListener::bind(&rt, any)?;
    let silent_at = silent.local_addr()?;
    let gone = TcpListener::bind(&rt, any)?;
    let gone_at = gone.local_addr()?;
    drop(gone);
    let mut addresses = Vec::new(alloc);
    addresses.push(format!(in alloc; "{silent_at}")?)?;
    addresses.push(format!(in alloc; "{gone_at}")?)?;
    let servers = reach(&rt, alloc, &addresses)?;
    assert!(rt; !gave_versions(&servers));
    let mut text = Vec::new(alloc);
    append_servers(&mut text, &servers)?;
    let wanted = format!(in alloc;
        "server 0 {silent_at} timeout\nserver 1 {gone_at} refused\n\
        total server 2 version 0 answer 0 refused 1 timeout 1 broken 0\n"
    )?;
    assert_eq!(rt; text.as_slice(), wanted.as_bytes());
    Ok(())
}

#[test]
fn answers_are_cut_and_shown_by_printable_bytes(rt: HostRuntime) -> Result<(), Fail> {
    let alloc = rt.alloc();
    let long = "x".repeat(alloc, 81)?;
    for (bytes, shown) in [
        (
            "HTTP/1.1 400 Bad Request\r\nServer: a\r\n",
            " answer HTTP/1.1 400 Bad Request",
        ),
        ("ERROR\r\n", " answer ERROR"),
        ("a\tb\\\u{e9}\n", " answer a\\x09b\\x5c\\xc3\\xa9"),
        ("VERSION 1.6.18\r\n", " version 1.6.18"),
        ("VERSION\r\n", " answer VERSION"),
    ] {
        let reach = Reach::heard(alloc, bytes.as_bytes()).map_err(|_| "memory")?;
        let reach = reach.ok_or("short")?;
        let address = String::from_str(alloc, "a:1")?;
        let server = Reached {
            number: 7,
            address,
            reach,
        };
        let mut text = Vec::new(alloc);
        append_servers(&mut text, &[server])?;
        let wanted = format!(in alloc; "server 7 a:1{shown}\n")?;
        assert!(rt; text.starts_with(wanted.as_bytes()));
    }
    assert!(rt;
        Reach::heard(alloc, b"VERSION 1")
            .map_err(|_| "memory")?
            .is_none()
    );
    let mut text = Vec::new(alloc);
    crate::shown::append_shown(&mut text, long.as_bytes())?;
    assert_eq!(rt; text.len(), 82);
    Ok(())
}
