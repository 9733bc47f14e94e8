//! What an event-driven worker serves.

use crate::counter::Counter;

/// What an event-driven worker serves at a moment.
#[derive(Clone, Copy, Debug, PartialEq, Eq)]
pub struct WorkerLoad {
    pub clients: u64,
    /// Its connections to servers, made or being made.
    pub connections: u64,
    /// How many bytes of replies it holds for its clients, whole or under way.
    pub waiting: u64,
}

/// The load of one worker, which alone writes here.
#[derive(Drop)]
pub(crate) struct LoadNumbers {
    /// 1 once the worker told its load, as each event-driven one does.
    told: Counter,
    clients: Counter,
    connections: Counter,
    waiting: Counter,
}

impl LoadNumbers {
    /// No load was told.
    pub(crate) fn new() -> LoadNumbers {
        LoadNumbers {
            told: Counter::new(),
            clients: Counter::new(),
            connections: Counter::new(),
            waiting: Counter::new(),
        }
    }

    pub(crate) fn set(&self, load: WorkerLoad) {
        self.clients.set(load.clients);
        self.connections.set(load.connections);
        self.waiting.set(load.waiting);
        self.told.set(1);
    }

    pub(crate) fn is_told(&self) -> bool {
        self.told.get() == 1
    }

    /// The load at this moment.
    pub(crate) fn reading(&self) -> WorkerLoad {
        WorkerLoad {
            clients: self.clients.get(),
            connections: self.connections.get(),
            waiting: self.waiting.get(),
        }
    }
}
