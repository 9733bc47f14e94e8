//! The thread that looks up the names of the servers.

use std::alloc::{AllocError, Global};
use std::net::TcpListener;
use std::thread;
use std::thread::Threads;
use tko_bytes::NoMemory;
use tko_events::Log;
use tko_io::IoRuntime;
use tko_tcp::Names;

/// The names of a server's configuration, which a thread looks up as long as this value is there.
pub(crate) struct Naming {
    names: Names,
}

impl Naming {
    /// Starts to look up the hosts of these addresses, on a thread of its own where there are any,
    /// which tells the log of names that cannot be looked up. Nobody joins it, so that a look-up
    /// that hangs doesn't delay the end of the program, which cuts it off.
    pub(crate) fn start<R: IoRuntime<Listener = TcpListener> + Threads + Copy + Send + 'static>(
        rt: &R,
        alloc: Global,
        addresses: &[String],
        log: &Log,
    ) -> Result<Naming, NoMemory> {
        let names = Names::open(alloc, addresses)?;
        if !names.is_empty() {
            let theirs = names.another()?;
            let log = Log::another(Some(log))?;
            let rt = *rt;
            thread::spawn(&rt, move || theirs.look_up_all(&rt, alloc, &log)).map_err(|_| NoMemory)?;
        }
        Ok(Naming { names })
    }

    /// The names, for a worker.
    pub(crate) fn names(&self) -> Result<Names, AllocError> {
        self.names.another()
    }
}

impl Drop for Naming {
    fn drop(self) {
        self.names.end();
        let Naming { names } = self;
        drop(names);
    }
}
