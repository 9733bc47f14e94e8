//! What a call may need of the runtime.

use std::net::{Net, TcpStream};
use std::sync::Wait;
use std::time::Clock;

/// A runtime that lets a call wait, use the network and read the clock. What works in memory uses
/// none of them.
pub trait IoRuntime: Wait + Net<Stream = TcpStream> + Clock {}

impl<R: Wait + Net<Stream = TcpStream> + Clock> IoRuntime for R {}
