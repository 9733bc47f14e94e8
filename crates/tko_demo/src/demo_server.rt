//! A server on a thread of its own.
ghost use Rattle.std.specs.Prelude.{IfErr};
ghost use Rattle.tko_demo.specs.Faults.{IsUnavailable};

use crate::fault::DemoFault;
use crate::host::Host;
use std::alloc::Global;
use std::net::{SocketAddr, TcpListener};
use std::sync::Arc;
use std::sync::atomic::{AtomicBool, Ordering};
use std::thread;
use std::thread::{JoinHandle, Threads};
use tko_io::IoRuntime;

/// A server at a port, on a thread of its own. One that is dropped goes on until the program ends.
#[derive(Drop)]
pub struct DemoServer {
    address: SocketAddr,
    is_over: Arc<AtomicBool, Global>,
    thread: JoinHandle<()>,
}

impl DemoServer {
    /// Starts a server with nothing stored at this address, of which the port 0 is any that is
    /// free.
    pub fn start<R: IoRuntime<Listener = TcpListener> + Threads + Sync + Copy + Send + 'static>(
        rt: &R,
        alloc: Global,
        address: SocketAddr,
    ) -> Result<DemoServer, DemoFault>
        ensures { IfErr result IsUnavailable }
    {
        let Ok(listener) = TcpListener::bind(rt, address) else {
            return Err(DemoFault::Port);
        };
        let Ok(address) = listener.local_addr() else {
            return Err(DemoFault::Port);
        };
        let Ok(mut host) = Host::new(rt, alloc, listener) else {
            return Err(DemoFault::Port);
        };
        let Ok(is_over) = Arc::new(alloc, AtomicBool::new(false)) else {
            return Err(DemoFault::Memory);
        };
        let (runtime, ends) = (*rt, Arc::try_clone(&is_over)?);
        let Ok(thread) = thread::spawn(rt, move || host.serve(&runtime, &ends)) else {
            return Err(DemoFault::Thread);
        };
        Ok(DemoServer {
            address,
            is_over,
            thread,
        })
    }

    /// Where it listens.
    pub fn address(&self) -> SocketAddr {
        self.address
    }

    /// Closes its listener and its connections, and returns once that is done.
    pub fn stop<R: Threads>(self, rt: &R) {
        let DemoServer {
            is_over,
            thread,
            ..
        } = self;
        is_over.store(true, Ordering::SeqCst);
        thread.join(rt);
    }
}
