//! The moments of a request and the address of its client, for an observer that tells them. No
//! contract speaks of them.
ghost use Rattle.std.specs.Prelude.{◌≡◌};

use super::Session;
use std::net::SocketAddr;

impl Session {
    /// The request was read at this moment.
    pub(crate) fn note_read(&mut self, moment: u64)
        ensures { self.new ≡ self.old }
    {
        self.read_moment = moment;
    }

    /// When the request was read.
    pub fn read_moment(&self) -> u64 {
        self.read_moment
    }

    /// The request was sent at this moment.
    pub fn note_sent(&mut self, moment: u64)
        ensures { self.new ≡ self.old }
    {
        self.sent_moment = moment;
    }

    /// When the request was last sent.
    pub fn sent_moment(&self) -> u64 {
        self.sent_moment
    }

    /// Its client is at this address.
    pub fn note_client(&mut self, client: SocketAddr)
        ensures { self.new ≡ self.old }
    {
        self.client = Some(client);
    }

    /// Where its client is, if that was noted.
    pub fn client(&self) -> Option<SocketAddr> {
        self.client
    }
}
