//! Asking a server for its version.
ghost use Rattle.std.specs.Prelude.{◌≡◌, ◌<◌, true, IfOk};
ghost use Rattle.tko_links.specs.Wires.{MayConnect};
ghost use Rattle.tko_reach.specs.Asking.{IsServerAsked, Sends};

use crate::hearing::hear;
use crate::reach::Reach;
use std::alloc::Global;
use tko_bytes::NoMemory;
use tko_io::IoRuntime;
use tko_links::{Wire, WireFault};

/// Connects a server, asks it for its version and reads what it answers.
pub(crate) fn ask<R: IoRuntime, W: Wire>(
    rt: &R,
    alloc: Global,
    wire: &mut W,
    server: usize,
) -> Result<Reach, NoMemory>
    requires { MayConnect W.servers W.is_connected wire.old server }
    ensures { IfOk result (λ reach. IsServerAsked W.servers W.is_connected W.failures W.steps server
        wire.old reach wire.new) }
{
    if let Err(fault) = wire.connect(rt, server) {
        return Ok(Reach::unconnected(fault));
    }
    if let Err(fault) = send(rt, wire, server, b"version\r\n") {
        return Ok(Reach::cut(fault));
    }
    hear(rt, alloc, wire, server)
}

/// Writes a text: in one call, continued where the wire took less.
fn send<R: IoRuntime, W: Wire>(
    rt: &R,
    wire: &mut W,
    server: usize,
    text: &[u8],
) -> Result<(), WireFault>
    requires within { server < W.servers wire.old }
    requires connected { W.is_connected wire.old server ≡ true }
    ensures { Sends W.servers W.is_connected W.failures W.steps server text.now wire.old result
        wire.new }
{
    let mut at = 0;
    while at < text.len() {
        match wire.write(rt, server, &text[at..]) {
            Ok(0) => return Err(WireFault::Other),
            Ok(count) => at += count,
            Err(fault) => return Err(fault),
        }
    }
    Ok(())
}
