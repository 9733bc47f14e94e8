//! The loop of a server: its listener and its clients at one poll.

use crate::guest::Guest;
use crate::store::Store;
use mio::net::TcpListener;
use mio::{Events, Interest, Poll, Token};
use std::alloc::Global;
use std::net::Net;
use std::sync::Wait;
use std::sync::atomic::{AtomicBool, Ordering};
use std::time::Duration;
use std::{io, net};

/// How many events one poll gives at most.
const EVENTS: usize = 64;

/// How long a poll waits for an event, in milliseconds, before it is asked whether the server is
/// to stop.
const PAUSE: u64 = 20;

/// A server's listener, its clients and what is stored. Its sockets are registered at its poll, of
/// which an event ends the wait; then each client has a turn, since there are few.
#[derive(Drop)]
pub(crate) struct Host {
    alloc: Global,
    poll: Poll,
    events: Events,
    listener: TcpListener,
    guests: Vec<Guest>,
    store: Store,
}

impl Host {
    /// A server with nothing stored, whose clients come to this listener.
    pub(crate) fn new<N: Net>(
        net: &N,
        alloc: Global,
        listener: net::TcpListener,
    ) -> io::Result<Host> {
        listener.set_nonblocking(true)?;
        let poll = Poll::new(net)?;
        let mut listener = TcpListener::from_std(listener);
        poll.registry()
            .register(&mut listener, Token(0), Interest::READABLE)?;
        Ok(Host {
            alloc,
            poll,
            events: Events::with_capacity(alloc, EVENTS)?,
            listener,
            guests: Vec::new(alloc),
            store: Store::new(alloc),
        })
    }

    /// Serves the clients until it is to stop, or the poll fails.
    pub(crate) fn serve<R: Wait>(&mut self, rt: &R, is_over: &AtomicBool) {
        let pause = Duration::from_millis(PAUSE);
        for _ in rt.forever() {
            if is_over.load(Ordering::SeqCst) {
                return;
            }
            if self.poll.poll(&mut self.events, Some(pause)).is_err() {
                return;
            }
            self.welcome();
            self.turn_all();
        }
        unreachable!()
    }

    /// Takes in the clients that wait. One that cannot be taken in is left.
    fn welcome(&mut self) {
        for _ in 0..u64::MAX {
            let Ok((mut stream, _)) = self.listener.accept() else {
                return;
            };
            let both = Interest::READABLE | Interest::WRITABLE;
            let registered = self.poll.registry().register(&mut stream, Token(1), both);
            if registered.is_ok() && stream.set_nodelay(true).is_ok() {
                let _ = self.guests.push(Guest::new(self.alloc, stream));
            }
        }
    }

    /// Gives each client a turn, and leaves those that have ended.
    fn turn_all(&mut self) {
        let (alloc, store) = (self.alloc, &mut self.store);
        self.guests.retain_mut(|guest| guest.turn(alloc, store));
    }
}
