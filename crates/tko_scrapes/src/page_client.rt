//! A client of the metrics over its socket.
ghost use Rattle.std.specs.Prelude.{◌↔◌, ◌-◌, ◌*◌, ◌≤◌, IsTrue};
ghost use Rattle.std.specs.Time.{instant_nanos};
ghost use Rattle.tko_scrapes.specs.Visits.{nanos_in_millisecond, page_grace, page_time};

use crate::pages::Pages;
use crate::visit::{CallEnd, PageExchange, after};
use std::alloc::Global;
use std::io;
use std::io::Read;
use std::net::{Shutdown, TcpStream};
use std::time::{Duration, Instant};

/// How many milliseconds a client may stay: to ask, to take its answer, and to close.
const TIME: u64 = 5000;

/// How many milliseconds a client stays at least where another one waits for its place.
const GRACE: u64 = 100;

/// How many bytes after the request are read at once.
const REST: usize = 4096;

/// Where a client stands.
#[derive(Drop)]
enum PageStage {
    Asks(PageExchange),
    /// It has its answer. What it still sends is read, since a connection that is closed with
    /// unread bytes is reset, and a reset may overtake the answer.
    Leaves,
}

/// A client, its socket, and the moment at which it came.
#[derive(Drop)]
pub(crate) struct PageClient {
    stream: TcpStream,
    came: Instant,
    stage: PageStage,
}

impl PageClient {
    pub(crate) fn new(alloc: Global, stream: TcpStream, came: Instant) -> io::Result<PageClient> {
        stream.set_nonblocking(true)?;
        stream.set_nodelay(true)?;
        Ok(PageClient {
            stream,
            came,
            stage: PageStage::Asks(PageExchange::new(alloc)?),
        })
    }

    /// Whether its time is over.
    pub(crate) fn is_late(&self, now: Instant) -> bool
        ensures { IsTrue result
            ↔ (page_time * nanos_in_millisecond
            ≤ instant_nanos now - instant_nanos self.now.came) }
    {
        has_passed(TIME, self.came, now)
    }

    /// Whether it may be closed for another client.
    pub(crate) fn may_go(&self, now: Instant) -> bool
        ensures { IsTrue result
            ↔ (page_grace * nanos_in_millisecond
            ≤ instant_nanos now - instant_nanos self.now.came) }
    {
        has_passed(GRACE, self.came, now)
    }

    /// One call of the system, and what follows from it.
    pub(crate) fn turn(&mut self, pages: &mut Pages<'_>) -> CallEnd {
        let (mut reader, mut writer) = (&self.stream, &self.stream);
        match &mut self.stage {
            PageStage::Asks(visit) => match visit.turn(pages, &mut reader, &mut writer) {
                CallEnd::Done => self.leave(),
                turn => turn,
            },
            PageStage::Leaves => drain(&mut reader),
        }
    }

    /// Tells the client that nothing follows its answer.
    fn leave(&mut self) -> CallEnd {
        self.stage = PageStage::Leaves;
        match self.stream.shutdown(Shutdown::Write) {
            Ok(()) => CallEnd::Moved,
            Err(_) => CallEnd::Broken,
        }
    }
}

/// Reads once what nobody asks for, and is done where nothing follows.
fn drain<R: Read>(reader: &mut R) -> CallEnd {
    let mut rest = [0u8; REST];
    match reader.read(&mut rest) {
        Ok(0) => CallEnd::Done,
        read => after(&read),
    }
}

/// Whether so many milliseconds have passed from one moment to another.
fn has_passed(time: u64, from: Instant, to: Instant) -> bool
    ensures { IsTrue result
        ↔ (time * nanos_in_millisecond ≤ instant_nanos to - instant_nanos from) }
{
    Duration::from_millis(time) <= to.duration_since(from)
}
