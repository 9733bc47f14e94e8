//! TCP keepalive.

use libc::net::{SO_KEEPALIVE, SOL_SOCKET, setsockopt};
use std::io;
use std::io::ErrorKind;
use std::net::TcpStream;
use std::os::fd::AsRawFd;

/// The bytes of the longest value of an option.
const MAX_VALUE: usize = 16;

/// The bytes of the value of this option, an `int`.
const VALUE: usize = 4;

/// Has the system ask, at its own times, whether a quiet peer is still there.
pub(crate) fn keep_alive(stream: &TcpStream) -> io::Result<()> {
    let mut on = [0u8; MAX_VALUE];
    on[..VALUE].copy_from_slice(&1i32.to_ne_bytes());
    let status = unsafe {
        setsockopt(
            stream.as_raw_fd(),
            SOL_SOCKET,
            SO_KEEPALIVE,
            &on,
            VALUE as u32,
        )
    };
    if status == 0 {
        return Ok(());
    }
    Err(io::Error::from(ErrorKind::Other))
}
