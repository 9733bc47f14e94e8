//! Clients in memory.

use crate::{Next, Patience, Source, Visitor};
use std::sync::Mutex;
use tko_io::{FrozenClock, IoRuntime, Outlet, Piped, Stop};

const PATIENCE: Patience = Patience {
    write_timeout: 5_000,
    idle_timeout: 0,
};

/// Where the replies to several clients go, one after another.
#[derive(Drop)]
pub struct Screen<'a> {
    pub text: &'a Mutex<Vec<u8>>,
}

impl<'a> Outlet for Screen<'a> {
    ghost takes = { λ _ _ _. Unit {0} };

    ghost failures = { λ _. 0 };

    ghost nothing = { λ _. tt };

    ghost goes_on = { λ _ _ _ _ _ _ _. tt };

    fn write<R: IoRuntime>(&mut self, rt: &R, piece: &[u8]) -> Result<usize, Stop> {
        match self.text.lock(rt).extend_from_slice(piece) {
            Ok(()) => Ok(piece.len()),
            Err(_) => Err(Stop::Again),
        }
    }
}

/// A source of one client, which sends this.
#[derive(Drop)]
pub struct OneClient<'a> {
    pub bytes: Option<&'a [u8]>,
    pub text: &'a Mutex<Vec<u8>>,
}

impl<'a> Source for OneClient<'a> {
    type Reader = Piped<&'a [u8]>;

    type Writer = Screen<'a>;

    type Clock = FrozenClock;

    fn clock<R: IoRuntime>(&self, _rt: &R) -> FrozenClock {
        FrozenClock
    }

    fn next<R: IoRuntime>(&mut self, _rt: &R) -> Next<Piped<&'a [u8]>, Screen<'a>> {
        match self.bytes.take() {
            Some(bytes) => Next::Connection(Visitor {
                reader: Piped::new(bytes),
                writer: Screen { text: self.text },
                address: None,
                patience: PATIENCE,
            }),
            None => Next::Closed,
        }
    }
}
