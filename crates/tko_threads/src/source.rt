//! Where a worker's connections come from.

use crate::Patience;
use std::net::SocketAddr;
use tko_io::{Clock, Inlet, IoRuntime, Outlet};

/// A client: where its bytes come from, where its replies go, its address, where that is known, and
/// how long it is waited for.
#[derive(Drop)]
pub struct Visitor<I, O> {
    pub reader: I,
    pub writer: O,
    pub address: Option<SocketAddr>,
    pub patience: Patience,
}

/// What a worker does next.
#[derive(Drop)]
pub enum Next<I, O> {
    Connection(Visitor<I, O>),
    /// There is none now, and the worker may do something else.
    Idle,
    /// None comes any more.
    Closed,
}

/// Gives one connection after another.
pub trait Source {
    type Reader: Inlet + Drop;

    type Writer: Outlet + Drop;

    type Clock: Clock + Drop;

    /// The clock by which clients are waited for.
    fn clock<R: IoRuntime>(&self, rt: &R) -> Self::Clock;

    /// The next connection, for which it may wait.
    fn next<R: IoRuntime>(&mut self, rt: &R) -> Next<Self::Reader, Self::Writer>;
}
