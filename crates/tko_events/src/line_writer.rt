//! The lines of the log on standard error, where a write may fail.
ghost use Rattle.std.specs.Prelude.{◌≡◌, ◌+◌, false};
ghost use Rattle.tko_bytes.specs.Numbers.{capped};

use crate::moment::Utc;

/// Writes lines to standard error, and counts those that could not be written.
#[derive(Clone, Copy, Debug, PartialEq, Eq)]
pub(crate) struct LineWriter {
    /// How many events are lost of which no line says so yet.
    lost: u64,
    /// Whether a write failed since the last line. What it wrote may be a part of a line.
    is_torn: bool,
}

impl LineWriter {
    /// Nothing was written or lost yet.
    pub(crate) fn new() -> LineWriter
        ensures { result ≡ record { lost = 0; is_torn = false } }
    {
        LineWriter {
            lost: 0,
            is_torn: false,
        }
    }

    /// So many events were lost.
    pub(crate) fn lose(&mut self, count: u64)
        ensures { self.new ≡ record self.old { lost = capped (self.old.lost + count) } }
    {
        self.lost = self.lost.saturating_add(count);
    }

    /// Writes a line, with its end. One that cannot be written is lost.
    pub(crate) fn write<R: Eprint>(&mut self, rt: &R, line: &str) {
        if !self.try_to_write(rt, line) {
            self.lose(1);
        }
    }

    /// Writes how many events were lost, if there are any, at this moment. If that cannot be
    /// written, a later line says it.
    pub(crate) fn write_lost<R: Eprint>(&mut self, rt: &R, moment: u64) {
        if self.lost == 0 || !self.end_torn_line(rt) {
            return;
        }
        let (utc, lost) = (Utc(moment), self.lost);
        match eprintln!(rt; "{utc} lost events={lost}") {
            Ok(()) => self.lost = 0,
            Err(_) => self.is_torn = true,
        }
    }

    /// Writes a line, and returns whether all of it was written.
    fn try_to_write<R: Eprint>(&mut self, rt: &R, line: &str) -> bool {
        if !self.end_torn_line(rt) {
            return false;
        }
        self.is_torn = rt.eprint(line).is_err();
        !self.is_torn
    }

    /// Ends the line of which a part may have been written, so that the next one is a line of its
    /// own. Returns whether there is none such any more.
    fn end_torn_line<R: Eprint>(&mut self, rt: &R) -> bool {
        if self.is_torn {
            self.is_torn = rt.eprint("\n").is_err();
        }
        !self.is_torn
    }
}
