//! The answer to a request for the version.
ghost use Rattle.std.specs.Prelude.{◌≡◌, ◌<◌, true, IfOk};
ghost use Rattle.tko_reach.specs.Asking.{Hears};

use crate::reach::Reach;
use std::alloc::Global;
use tko_bytes::NoMemory;
use tko_io::IoRuntime;
use tko_links::Wire;

/// How many bytes are read at once.
const PIECE: usize = 512;

/// Reads from a server up to the end of its answer.
pub(crate) fn hear<R: IoRuntime, W: Wire>(
    rt: &R,
    alloc: Global,
    wire: &mut W,
    server: usize,
) -> Result<Reach, NoMemory>
    requires within { server < W.servers wire.old }
    requires connected { W.is_connected wire.old server ≡ true }
    ensures { IfOk result (λ reach. Hears W.servers W.is_connected W.failures W.steps server
        wire.old reach wire.new) }
{
    let mut bytes = Vec::new(alloc);
    let mut piece = [0; PIECE];
    for _ in rt.forever() {
        match wire.read(rt, server, &mut piece) {
            Ok(0) => return Ok(Reach::Broken),
            Ok(count) => {
                bytes.extend_from_slice(&piece[..count])?;
                match Reach::heard(alloc, &bytes)? {
                    None => {}
                    Some(reach) => return Ok(reach),
                }
            }
            Err(fault) => return Ok(Reach::cut(fault)),
        }
    }
    unreachable!()
}
