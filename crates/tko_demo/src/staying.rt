//! What follows the story where the proxy is to stay.
ghost use Rattle.std.specs.Prelude.{◌≡◌, IfErr, IfOk, OnOk};
ghost use Rattle.tko_demo.specs.Stories.{InputFails, StayFails, StaysToEnd, stay_text};

use crate::fault::DemoFault;
use crate::showing::write;
use itoa::Buffer;
use std::alloc::Global;
use tko_bytes::{NoMemory, append};
use tko_io::{Inlet, IoRuntime, Outlet, piece_buffer, wait_for_piece};

/// Says where the proxy is, and waits for the end of the input.
pub fn stay<R: IoRuntime, I: Inlet, O: Outlet>(
    rt: &R,
    alloc: Global,
    port: u16,
    input: &mut I,
    output: &mut O,
) -> Result<(), DemoFault>
    ensures ok { OnOk result (StaysToEnd I.Inlet O.takes
        (input.old, output.old) (input.new, output.new)) }
    ensures err { IfErr result (StayFails I.failures O.failures
        (input.old, output.old) (input.new, output.new)) }
{
    let text = stay_text(alloc, port)?;
    write(rt, output, &text)?;
    wait_for_end(rt, alloc, input)
}

/// What is printed of a proxy at this port.
fn stay_text(alloc: Global, port: u16) -> Result<Vec<u8>, NoMemory>
    ensures { IfOk result (λ text. text.items ≡ stay_text port) }
{
    let (mut text, mut digits) = (Vec::new(alloc), Buffer::new());
    let pieces = [
        b"The proxy stays until standard input ends. In another terminal:\n  nc 127.0.0.1 ",
        digits.format(port).as_bytes(),
        b"\n",
    ];
    append(&mut text, &pieces)?;
    Ok(text)
}

/// Reads the input to its end.
fn wait_for_end<R: IoRuntime, I: Inlet>(
    rt: &R,
    alloc: Global,
    input: &mut I,
) -> Result<(), DemoFault>
    ensures ok { OnOk result (I.is_ended input.new) }
    ensures err { IfErr result (InputFails I.failures input.old input.new) }
{
    let mut buffer = piece_buffer(alloc)?;
    for _ in rt.forever() {
        match wait_for_piece(rt, input, &mut buffer) {
            Some(0) => return Ok(()),
            Some(_) => {}
            None => return Err(DemoFault::Read),
        }
    }
    unreachable!()
}
