//! Two requests that wait for each other.

use std::sync::atomic::{AtomicBool, Ordering};
use std::thread;
use std::time::Duration;
use tko_io::IoRuntime;

/// How many turns of a millisecond a request waits for the other.
const TURNS: u32 = 1_000;

/// Two requests that wait for each other: the second is answered once the first came, and the first
/// once the second was answered.
#[derive(Drop)]
pub struct Gate {
    first_came: AtomicBool,
    second_answered: AtomicBool,
    late: AtomicBool,
}

impl Gate {
    pub fn new() -> Gate {
        Gate {
            first_came: AtomicBool::new(false),
            second_answered: AtomicBool::new(false),
            late: AtomicBool::new(false),
        }
    }

    /// Whether one of the two waited in vain.
    pub fn is_late(&self) -> bool {
        self.late.load(Ordering::SeqCst)
    }

    /// The first of the two came, and waits until the second was answered.
    pub fn hold_first<R: IoRuntime>(&self, rt: &R) {
        self.first_came.store(true, Ordering::SeqCst);
        self.wait(rt, &self.second_answered);
    }

    /// The second of the two waits until the first came.
    pub fn hold_second<R: IoRuntime>(&self, rt: &R) {
        self.wait(rt, &self.first_came);
    }

    /// The second of the two was answered.
    pub fn let_first_go(&self) {
        self.second_answered.store(true, Ordering::SeqCst);
    }

    fn wait<R: IoRuntime>(&self, rt: &R, flag: &AtomicBool) {
        for _ in 0..TURNS {
            if flag.load(Ordering::SeqCst) {
                return;
            }
            thread::sleep(rt, Duration::from_millis(1));
        }
        self.late.store(true, Ordering::SeqCst);
    }
}
