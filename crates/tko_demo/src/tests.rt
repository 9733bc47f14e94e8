//! A server over the loopback, and exchanges over bytes in memory.

use crate::playing::play;
use crate::{Addresses, Caller, DemoFault, DemoServer, Exchange};
use std::alloc::Global;
use std::io::{Read, Write};
use std::net::{Ipv4Addr, Net, SocketAddr, TcpListener, TcpStream};
use std::sync::Wait;
use std::test::Fail;
use std::thread::Threads;
use std::time::{Clock, Duration};
use tko_io::Taped;

const ASKED: &[u8] = b"set a 5 0 2\r\n10\r\nappend a 0 0 1\r\n0\r\nincr a 1\r\ngets a b\r\n\
    cas a 0 0 1 7\r\nx\r\nadd a 0 0 1\r\ny\r\ndecr a 200\r\ndelete a noreply\r\nget a\r\nget\r\n\
    replace a 0 0 1\r\nz\r\ntouch a 1\r\nversion\r\nquit\r\n";

const ANSWERED: &[u8] = b"STORED\r\nSTORED\r\n101\r\nVALUE a 5 3 3\r\n101\r\nEND\r\nEXISTS\r\n\
    NOT_STORED\r\n0\r\nEND\r\nCLIENT_ERROR bad command line format\r\nNOT_STORED\r\n\
    NOT_FOUND\r\nVERSION demo\r\n";

/// A server at any port.
fn start<
    R: Wait
        + Net<Stream = TcpStream, Listener = TcpListener>
        + Clock
        + Threads
        + Sync
        + Copy
        + Send
        + 'static,
>(rt: &R, alloc: Global, address: SocketAddr) -> Result<DemoServer, DemoFault> {
    DemoServer::start(rt, alloc, address)
}

#[test]
fn a_server_answers_and_starts_empty_again(rt: HostRuntime) -> Result<(), Fail> {
    let alloc = rt.alloc();
    let any = SocketAddr::from((Ipv4Addr::LOCALHOST, 0));
    let server = start(&rt, alloc, any).map_err(|_| "start")?;
    let address = server.address();
    let mut stream = TcpStream::connect(&rt, address)?;
    stream.set_read_timeout(Some(Duration::from_millis(10_000)))?;
    stream.write_all(ASKED)?;
    let mut read = Vec::new(alloc);
    stream.read_to_end(&mut read)?;
    assert_eq!(rt; read.as_slice(), ANSWERED);
    server.stop(&rt);
    assert!(rt; TcpStream::connect(&rt, address).is_err());
    let server = start(&rt, alloc, address).map_err(|_| "start again")?;
    server.stop(&rt);
    Ok(())
}

/// What is played over these replies, and what is printed.
fn played<R: Wait + Net<Stream = TcpStream> + Clock>(
    rt: &R,
    alloc: Global,
    replies: &str,
) -> Result<(Result<(), DemoFault>, Vec<u8>), Fail> {
    let at = Addresses {
        near: "127.0.0.1:1",
        far: "127.0.0.1:2",
    };
    let tape = |text: &str| -> Result<Taped, Fail> {
        let bytes = Vec::from_slice(alloc, text.as_bytes())?;
        Ok(Taped::new(bytes, 1, Vec::new(alloc)))
    };
    let mut caller = Caller {
        inlet: tape(replies)?,
        outlet: tape("")?,
    };
    let mut output = tape("")?;
    let exchanges = [Exchange::Found, Exchange::Marked];
    let came = play(rt, alloc, &at, &mut caller, &mut output, &exchanges);
    Ok((came, Vec::from_slice(alloc, output.bytes())?))
}

const FOUND: &str = "> get greeting\n< VALUE greeting 0 5\n< hello\n< END\n";

/// The bytes come one by one, so a wrong reply is heard up to its first wrong byte.
#[test]
fn a_reply_that_is_not_the_right_one_ends_it(rt: HostRuntime) -> Result<(), Fail> {
    let alloc = rt.alloc();
    let found = "VALUE greeting 0 5\r\nhello\r\nEND\r\n";
    let marked = "STAT 127.0.0.1:1 hard:0\r\nSTAT 127.0.0.1:2 up:0\r\nEND\r\n";
    for (second, came, shown) in [
        (
            marked,
            Ok(()),
            "> stats tko\n< STAT near hard:0\n< STAT far up:0\n< END\n",
        ),
        (
            "STAT 127.0.0.1:1 up:0\r\n",
            Err(DemoFault::Reply),
            "> stats tko\n< STAT 127.0.0.1:1 u\n",
        ),
        ("", Err(DemoFault::Reply), "> stats tko\n"),
    ] {
        let replies = format!(in alloc; "{found}{second}")?;
        let (given, printed) = played(&rt, alloc, replies.as_str())?;
        assert_eq!(rt; given, came);
        let wanted = format!(in alloc; "{FOUND}{shown}")?;
        assert_eq!(rt; printed.as_slice(), wanted.as_bytes());
    }
    Ok(())
}
