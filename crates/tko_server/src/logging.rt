//! The event log of a server.
ghost use Rattle.std.specs.Prelude.{◌≡◌, IfOk, map, string_bytes};
ghost use Rattle.tko_server.specs.Beside.{IsLogOf};

use crate::running::Options;
use std::alloc::{AllocError, Global};
use std::sync::Wait;
use std::time::Clock;
use tko_events::{Journal, Log, LogReader, What, open};
use tko_metrics::Meter;

/// An event log that is to be written: both its ends, and the lines.
#[derive(Drop)]
pub struct Logging {
    log: Log,
    reader: LogReader,
    journal: Journal,
}

/// What writes the lines of a log.
#[derive(Drop)]
pub(crate) struct LogWriter {
    reader: LogReader,
    journal: Journal,
}

impl Logging {
    /// A log of a server that is started with these options, and will listen at this address. Its
    /// first event is that the program has started.
    pub fn start<R: Wait + Clock>(
        rt: &R,
        alloc: Global,
        listen: &str,
        options: &Options,
    ) -> Result<Logging, AllocError>
        ensures { IfOk result (IsLogOf listen.now options.now) }
    {
        let (log, reader) = open(alloc)?;
        let names = copies_of(alloc, options.config.addresses())?;
        let listen = String::from_str(alloc, listen)?;
        let journal = Journal::new(alloc, listen, options.settings.failures, names)?;
        log.tell(rt, What::Started);
        Ok(Logging {
            log,
            reader,
            journal,
        })
    }
}

impl LogWriter {
    /// Writes the lines to standard error until the log ends.
    pub(crate) fn write_lines<R: Wait + Clock + Eprint>(&mut self, rt: &R, alloc: Global) {
        self.reader.write_lines(rt, alloc, &mut self.journal);
    }
}

/// Copies of these texts.
fn copies_of(alloc: Global, texts: &[String]) -> Result<Vec<String>, AllocError>
    ensures { IfOk result (λ copies. map string_bytes copies.items ≡ map string_bytes texts.now) }
{
    let mut copies = Vec::new(alloc);
    for text in texts {
        copies.push(String::from_str(alloc, text.as_str())?)?;
    }
    Ok(copies)
}

/// The end of this log that takes events, beside this meter, and what writes its lines; where there
/// is none, a log that takes nothing.
pub(crate) fn log_of(logging: Option<Logging>, meter: Meter) -> (Log, Option<LogWriter>) {
    let Some(logging) = logging else {
        return (Log::metered(meter), None);
    };
    let Logging {
        log,
        reader,
        journal,
    } = logging;
    (log.with_meter(meter), Some(LogWriter { reader, journal }))
}
