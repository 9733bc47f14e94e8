//! The clients of the metrics that are connected.
ghost use Rattle.std.specs.Prelude.{◌≡◌, ◌<◌, ◌≤◌, length};
ghost use Rattle.tko_scrapes.specs.declared.page_clients.TheConstants.{MAX_PAGE_CLIENTS};

use crate::page_client::PageClient;
use crate::pages::Pages;
use crate::visit::CallEnd;
use std::alloc::Global;
use std::time::Instant;

/// How many clients are connected at most. Their descriptors are among those that a server has to
/// spare.
const MAX_PAGE_CLIENTS: usize = 8;

/// The clients that are connected, those first that came first.
#[derive(Drop)]
pub(crate) struct PageClients {
    clients: Vec<PageClient>,
    ghost few: { length clients.items ≤ MAX_PAGE_CLIENTS },
}

impl PageClients {
    pub(crate) fn new(alloc: Global) -> PageClients {
        PageClients {
            clients: Vec::new(alloc),
        }
    }

    /// Whether one more may come: there is a place, or the first one has had its time.
    pub(crate) fn has_room(&self, now: Instant) -> bool {
        match self.clients.first() {
            Some(first) => self.clients.len() < MAX_PAGE_CLIENTS || first.may_go(now),
            None => true,
        }
    }

    /// Adds a client, and closes the first one where there is no place for both. Where memory runs
    /// out, the new one is closed.
    pub(crate) fn add(&mut self, client: PageClient)
        ensures { length self.new.clients.items ≤ MAX_PAGE_CLIENTS }
    {
        if self.clients.len() == MAX_PAGE_CLIENTS {
            self.clients.remove(0);
        }
        let _ = self.clients.push(client);
    }

    /// Gives each client a turn, and closes those that are done, that are broken and whose time is
    /// over. Returns whether something was moved.
    pub(crate) fn turn_all(&mut self, pages: &mut Pages<'_>, now: Instant) -> bool {
        let mut has_moved = false;
        for _ in 0..self.clients.len() {
            if self.clients.is_empty() {
                break;
            }
            let mut client = self.clients.remove(0);
            let turn = client.turn(pages);
            has_moved = has_moved || turn == CallEnd::Moved;
            self.keep(client, turn, now);
        }
        has_moved
    }

    /// Puts a client back behind the others, unless it is to be closed.
    fn keep(&mut self, client: PageClient, turn: CallEnd, now: Instant)
        requires { length self.old.clients.items < MAX_PAGE_CLIENTS }
    {
        let stays = matches!(turn, CallEnd::Moved | CallEnd::Waits) && !client.is_late(now);
        if stays {
            let _ = self.clients.push(client);
        }
    }
}
