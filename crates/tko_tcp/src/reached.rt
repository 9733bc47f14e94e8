//! The servers at hosts with a name, and where each was reached last.
ghost use Rattle.std.specs.Prelude.{◌≡◌, ◌==◌, if◌then◌else◌, None, Some};

use std::alloc::{AllocError, Global};
use std::sync::atomic::{AtomicU64, Ordering};

/// A server at a host with a name, and at which of the host's addresses a connection to it was made
/// last. All workers share it. It is a hint: a look-up may have changed the addresses since.
#[derive(Drop)]
pub(crate) struct ReachedServer {
    address: String,
    /// Its index in the configuration.
    number: usize,
    /// The index of its host in `Names`.
    host: usize,
    /// One more than the place of that address; 0 before the first connection.
    reached: AtomicU64,
}

impl ReachedServer {
    /// The server with this address, this index in the configuration and this host, to which no
    /// connection was made yet.
    pub(crate) fn new(
        alloc: Global,
        address: &str,
        number: usize,
        host: usize,
    ) -> Result<ReachedServer, AllocError> {
        Ok(ReachedServer {
            address: String::from_str(alloc, address)?,
            number,
            host,
            reached: AtomicU64::new(0),
        })
    }

    /// Whether this is its address.
    pub(crate) fn is_at(&self, address: &str) -> bool {
        self.address.as_str() == address
    }

    /// Its index in the configuration, if this is its host.
    pub(crate) fn number_at(&self, host: usize) -> Option<usize>
        ensures { result ≡ (if self.now.host == host then Some self.now.number else None) }
    {
        if self.host == host {
            Some(self.number)
        } else {
            None
        }
    }

    /// The place of the address at which a connection was made last.
    pub(crate) fn place(&self) -> Option<usize> {
        let reached = self.reached.load(Ordering::SeqCst);
        usize::try_from(reached.checked_sub(1)?).ok()
    }

    /// A connection was made at the address with this place.
    pub(crate) fn reach(&self, place: usize) {
        let reached = (place as u64).saturating_add(1);
        self.reached.store(reached, Ordering::SeqCst);
    }
}
