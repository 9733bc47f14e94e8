//! What `serve` prints once clients can connect, and what a check prints in its place.
ghost use Rattle.std.specs.Prelude.{◌≡◌, ◌<◌, IfErr, OnOk};
ghost use Rattle.tko_cli.specs.Announcements.{HasPrinted, HasNotPrinted, valid_text};

use tko_commands::{Fault, write_text};
use tko_io::{IoRuntime, Outlet};
use tko_server::{Announce, AnnounceFault, FirstAsks};

/// The output on which `ready` is to be printed.
#[derive(Drop)]
pub(crate) struct Announcement<'a, O> {
    pub(crate) output: &'a mut O,
}

impl<O: Outlet> Announce for Announcement<'_, O> {
    ghost announces = { HasPrinted O.takes O.failures };

    ghost fails = { HasNotPrinted O.failures };

    fn announce<R: IoRuntime>(&mut self, rt: &R, _asks: &FirstAsks) -> Result<(), AnnounceFault> {
        match write_text(rt, self.output, b"ready\n") {
            Ok(()) => Ok(()),
            Err(_) => Err(AnnounceFault),
        }
    }
}

/// Prints that a check found no fault.
pub(crate) fn print_valid<R: IoRuntime, O: Outlet>(rt: &R, output: &mut O) -> Result<(), Fault>
    ensures ok { OnOk result (O.takes output.old valid_text output.new) }
    ensures err { IfErr result (λ fault. (fault ≡ Fault.Write)
        × (O.failures output.old < O.failures output.new)) }
{
    write_text(rt, output, b"valid\n")?;
    Ok(())
}

/// Does nothing. Proofs know what was written to an output that an announcement had only where the
/// output is used once more.
pub(crate) fn give_back<O>(output: &mut O)
    ensures { output.new ≡ output.old }
{}
