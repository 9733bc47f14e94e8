//! The thread that looks names up.

use crate::look_ups::{LookUpEnd, LookUpObserver, look_up};
use crate::names::{Names, low_half};
use std::alloc::Global;
use std::sync::atomic::Ordering;
use tko_io::IoRuntime;

impl Names {
    /// Looks up each host whose look-up is requested, one after another, until `end` is called. A
    /// look-up that has begun by then is finished first. The observer is told of each that ends
    /// otherwise than the one before it, for each server of the host.
    pub fn look_up_all<R: IoRuntime, O: LookUpObserver>(
        &self,
        rt: &R,
        alloc: Global,
        observer: &O,
    ) {
        for _ in rt.forever() {
            let asks = self.shared.asks.load(Ordering::SeqCst);
            for host in 0..self.shared.hosts.len() {
                if self.has_ended() {
                    return;
                }
                if let Some(end) = self.look_up_asked(rt, alloc, host) {
                    self.tell(rt, host, end, observer);
                }
            }
            if self.has_ended() {
                return;
            }
            self.shared.asks.park(rt, low_half(asks));
        }
    }

    fn has_ended(&self) -> bool {
        self.shared.is_ended.load(Ordering::SeqCst)
    }

    /// Looks up the host with this index if its look-up is requested. Returns how that ended, if
    /// the one before it ended otherwise.
    fn look_up_asked<R: IoRuntime>(&self, rt: &R, alloc: Global, host: usize) -> Option<LookUpEnd> {
        let host = self.shared.hosts.get(host)?;
        if !host.state.lock(rt).is_asked() {
            return None;
        }
        let (found, end) = look_up(rt, alloc, host.name.as_str());
        let told = host.state.lock(rt).answer(found, end);
        self.shared.answers.fetch_add(1, Ordering::SeqCst);
        self.shared.answers.wake_all();
        told
    }

    /// Tells how a look-up of the host with this index ended, for each of its servers.
    fn tell<R: IoRuntime, O: LookUpObserver>(
        &self,
        rt: &R,
        host: usize,
        end: LookUpEnd,
        observer: &O,
    ) {
        for server in &self.shared.servers {
            if let Some(number) = server.number_at(host) {
                observer.looked_up(rt, number, end);
            }
        }
    }
}
