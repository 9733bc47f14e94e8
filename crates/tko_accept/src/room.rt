//! How many clients are connected at once.

use std::alloc::{AllocError, Global};
use std::sync::atomic::{AtomicU64, Ordering};
use std::sync::{Arc, Wait};
use std::time::Duration;
use tko_metrics::Meter;

/// For how many milliseconds the thread that accepts waits for a client to leave.
const ROOM_PAUSE: u64 = 100;

/// How many values the low half of the counter of clients has, on which a thread waits.
const LOW_HALF: u64 = 1 << 32;

/// How many clients may be connected at once, and how many are. Only the thread that accepts lets
/// clients in; any thread lets them out.
#[derive(Drop)]
pub struct Room {
    most: u64,
    connected: AtomicU64,
    meter: Meter,
}

impl Room {
    /// A room for at most `most` clients, with none in it. The meter counts them.
    pub fn open(alloc: Global, most: u64, meter: Meter) -> Result<Arc<Room, Global>, AllocError> {
        let room = Room {
            most,
            connected: AtomicU64::new(0),
            meter,
        };
        Ok(Arc::new(alloc, room)?)
    }

    /// Returns whether one more client may be connected. If not, it first waits until a client
    /// leaves, but at most `ROOM_PAUSE`.
    pub(crate) fn has_place<R: Wait>(&self, rt: &R) -> bool {
        let connected = self.connected.load(Ordering::SeqCst);
        if connected < self.most {
            return true;
        }
        self.wait_while(rt, connected);
        false
    }

    /// Waits until a client leaves, but at most `ROOM_PAUSE`.
    pub(crate) fn wait<R: Wait>(&self, rt: &R) {
        self.wait_while(rt, self.connected.load(Ordering::SeqCst));
    }

    /// Waits while the number of clients is still `connected`, but at most `ROOM_PAUSE`.
    fn wait_while<R: Wait>(&self, rt: &R, connected: u64) {
        let pause = Duration::from_millis(ROOM_PAUSE);
        let low = connected % LOW_HALF;
        self.connected.park_timeout(rt, low as u32, pause);
    }
}

/// One client's place in a room. Dropping it frees the place.
pub struct ClientPlace {
    room: Arc<Room, Global>,
}

impl ClientPlace {
    /// Takes a place, also where the room has none left: `has_place` says whether it has.
    pub(crate) fn take(room: &Arc<Room, Global>) -> Result<ClientPlace, AllocError> {
        let room = Arc::try_clone(room)?;
        room.connected.fetch_add(1, Ordering::SeqCst);
        room.meter.enter();
        Ok(ClientPlace { room })
    }
}

impl Drop for ClientPlace {
    fn drop(self) {
        self.room.meter.leave();
        self.room.connected.fetch_sub(1, Ordering::SeqCst);
        self.room.connected.wake_one();
        let ClientPlace { room } = self;
        drop(room);
    }
}
