//! How long a server waits for a client.
ghost use Rattle.std.specs.Prelude.{◌≡◌, ◌==◌, if◌then◌else◌, min};
ghost use Rattle.tko_threads.specs.Watching.{longest_wait};

use crate::keepalive::keep_alive;
use std::io;
use std::net::TcpStream;
use std::time::Duration;

/// For how many milliseconds at most a worker waits for its client, to send bytes or to take some,
/// until it looks at the time again.
pub const IDLE: u32 = 100;

/// How long a server waits for a client, in milliseconds.
#[derive(Clone, Copy, Debug, PartialEq, Eq)]
pub struct Patience {
    /// In so long, from 1, a client must take 64 KiB of the replies that wait, or all of them.
    pub write_timeout: u32,
    /// How long a client may complete no request; 0 is no limit.
    pub idle_timeout: u32,
}

impl Patience {
    /// How long one read waits.
    fn read_turn(self) -> u32
        ensures { result ≡ (if self.idle_timeout == 0 then longest_wait
            else min self.idle_timeout longest_wait) }
    {
        if self.idle_timeout == 0 {
            return IDLE;
        }
        self.idle_timeout.min(IDLE)
    }

    /// How long one write waits.
    fn write_turn(self) -> u32
        ensures { result ≡ min self.write_timeout longest_wait }
    {
        self.write_timeout.min(IDLE)
    }

    /// Sets a client's socket up. Whether a quiet client is still there is asked by TCP keepalive,
    /// at the system's times.
    pub fn set(self, stream: &TcpStream) -> io::Result<()> {
        stream.set_nodelay(true)?;
        keep_alive(stream)?;
        stream.set_read_timeout(Some(milliseconds(self.read_turn())))?;
        stream.set_write_timeout(Some(milliseconds(self.write_turn())))
    }
}

fn milliseconds(count: u32) -> Duration {
    Duration::from_millis(u64::from(count))
}
