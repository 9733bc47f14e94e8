//! How often the log says that the proxy itself lacks something.
ghost use Rattle.tko_events.specs.Limits.{IsLimited};

use std::sync::atomic::{AtomicU64, Ordering};
use tko_tcp::Lack;

/// How long what was said is not said again, in milliseconds.
const LACKS_EVERY: u64 = 10_000;

/// From which moment on each lack may be said again, for all threads. Moments are in milliseconds
/// since 1970.
#[derive(Drop)]
pub(crate) struct SaidLacks {
    ports: AtomicU64,
    descriptors: AtomicU64,
    memory: AtomicU64,
}

impl SaidLacks {
    /// Nothing was said yet.
    pub(crate) fn new() -> SaidLacks {
        SaidLacks {
            ports: AtomicU64::new(0),
            descriptors: AtomicU64::new(0),
            memory: AtomicU64::new(0),
        }
    }

    /// Whether it is to be said at this moment that something is lacking. Of several threads that
    /// ask at once one is told so.
    pub(crate) fn say(&self, lack: Lack, now: u64) -> bool {
        let said = self.of(lack);
        let due = said.load(Ordering::SeqCst);
        match say_again(due, now) {
            Some(next) => said
                .compare_exchange(due, next, Ordering::SeqCst, Ordering::SeqCst)
                .is_ok(),
            None => false,
        }
    }

    fn of(&self, lack: Lack) -> &AtomicU64 {
        match lack {
            Lack::Ports => &self.ports,
            Lack::Descriptors => &self.descriptors,
            Lack::Memory => &self.memory,
        }
    }
}

/// From which moment on it may be said again, if it is said at this one; `None` if it may not be
/// said, since it may be from `due` on. A moment that far ahead is of a clock that was set back.
pub(crate) fn say_again(due: u64, now: u64) -> Option<u64>
    ensures { IsLimited due now result }
{
    let next = now.saturating_add(LACKS_EVERY);
    if due <= now || next < due {
        Some(next)
    } else {
        None
    }
}
