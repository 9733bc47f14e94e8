//! Whole texts onto an outlet.
ghost use Rattle.std.specs.Prelude.{◌≡◌, ◌<◌, OnErr, OnOk};
ghost use Rattle.tko_commands.specs.Texts.{WritesFront};

use tko_io::{IoRuntime, Outlet, write_all};

/// The outlet failed.
#[derive(Clone, Copy, Debug, PartialEq, Eq)]
pub struct WriteFault;

/// Writes all of a text. A write that was interrupted is made again.
pub fn write_text<R: IoRuntime, O: Outlet>(
    rt: &R,
    outlet: &mut O,
    text: &[u8],
) -> Result<(), WriteFault>
    ensures ok { OnOk result (O.takes outlet.old text.now outlet.new) }
    ensures calm { OnOk result (O.failures outlet.new ≡ O.failures outlet.old) }
    ensures err { OnErr result (O.failures outlet.old < O.failures outlet.new) }
    ensures part { OnErr result (WritesFront O.takes text.now outlet.old outlet.new) }
{
    let mut written = 0;
    if write_all(rt, outlet, text, &mut written) {
        Ok(())
    } else {
        Err(WriteFault)
    }
}
