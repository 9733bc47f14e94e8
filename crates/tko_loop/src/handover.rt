//! How clients get from another thread to the loop.

use crate::targets::WAKER;
use crossbeam_channel::{Receiver, Sender, bounded};
use mio::{Poll, Waker};
use std::alloc::Global;
use std::io;
use std::io::ErrorKind;
use std::net::{SocketAddr, TcpStream};
use std::sync::{Arc, Wait};
use tko_io::IoRuntime;

/// A client that another thread accepted.
#[derive(Drop)]
pub struct Arrival<K> {
    pub stream: TcpStream,
    /// Its address.
    pub client: SocketAddr,
    /// It is dropped once the client's socket was closed.
    pub ticket: K,
}

/// The way of clients to a loop. Once it is dropped, no more come.
pub struct Handover<K> {
    clients: Sender<Arrival<K>>,
    waker: Arc<Waker, Global>,
}

impl<K: Drop> Handover<K> {
    /// Hands a client to the loop, and wakes that. It waits while as many as there is room for wait
    /// to be taken. Where there is no loop any more, or no memory, the client comes back.
    pub fn send<R: Wait>(&self, rt: &R, arrival: Arrival<K>) -> Result<(), Arrival<K>> {
        let sent = self.clients.send(rt, arrival);
        // A wake that fails is made up for by the loop's next idle turn.
        let _ = self.waker.wake();
        match sent {
            Ok(()) => Ok(()),
            Err(error) => Err(error.into_inner()),
        }
    }
}

impl<K: Drop> Drop for Handover<K> {
    fn drop(self) {
        let Handover { clients, waker } = self;
        drop(clients);
        let _ = waker.wake();
        drop(waker);
    }
}

/// Where a loop takes its clients and waits for events, as it is handed to the loop's thread.
#[derive(Drop)]
pub struct LoopEntry<K> {
    pub(crate) poll: Poll,
    pub(crate) clients: Receiver<Arrival<K>>,
    /// It is kept here, so that a wake is not lost.
    pub(crate) waker: Arc<Waker, Global>,
}

impl<K: Drop> LoopEntry<K> {
    /// A way to a loop, where so many clients can wait to be taken in.
    pub fn open<R: IoRuntime>(
        rt: &R,
        alloc: Global,
        room: usize,
    ) -> io::Result<(LoopEntry<K>, Handover<K>)> {
        let Ok((sender, receiver)) = bounded(alloc, room) else {
            return Err(ErrorKind::OutOfMemory.into());
        };
        let poll = Poll::new(rt)?;
        let waker = Arc::new(alloc, Waker::new(poll.registry(), WAKER)?)?;
        let entry = LoopEntry {
            poll,
            clients: receiver,
            waker: Arc::try_clone(&waker)?,
        };
        let handover = Handover {
            clients: sender,
            waker,
        };
        Ok((entry, handover))
    }
}
