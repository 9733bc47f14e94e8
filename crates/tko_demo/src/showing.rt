//! What was asked and answered, as lines of text.
ghost use Rattle.std.specs.Prelude.{◌≡◌, ◌<◌, ◌++◌, IfErr, IfOk, OnOk};
ghost use Rattle.tko_demo.specs.Exchanges.{shown_text, signed_lines};
ghost use Rattle.tko_demo.specs.Faults.{IsFaultShown};
ghost use Rattle.tko_demo.specs.Playing.{HasNotShown, IsShown};

use crate::exchange::{Addresses, Exchange};
use crate::fault::DemoFault;
use std::alloc::Global;
use tko_bytes::{NoMemory, append, first_line};
use tko_io::{IoRuntime, Outlet, write_all};

/// The pools of the servers, as they are printed in the place of their addresses.
const POOLS: Addresses<'static> = Addresses {
    near: "near",
    far: "far",
};

/// Writes an exchange whose reply was the right one.
pub(crate) fn show<R: IoRuntime, O: Outlet>(
    rt: &R,
    alloc: Global,
    output: &mut O,
    exchange: Exchange,
) -> Result<(), DemoFault>
    ensures ok { OnOk result (IsShown O.takes O.failures (shown_text exchange)
        output.old output.new) }
    ensures err { IfErr result (HasNotShown O.failures output.old output.new) }
{
    let text = shown(alloc, exchange)?;
    write(rt, output, &text)
}

/// Writes a request and the bytes that came in the place of its reply.
pub(crate) fn show_wrong<R: IoRuntime, O: Outlet>(
    rt: &R,
    alloc: Global,
    output: &mut O,
    exchange: Exchange,
    bytes: &[u8],
) -> Result<(), DemoFault>
    ensures { IfErr result (HasNotShown O.failures output.old output.new) }
{
    let mut text = Vec::new(alloc);
    append_signed(&mut text, b"> ", exchange.request().as_bytes())?;
    append_signed(&mut text, b"< ", bytes)?;
    write(rt, output, &text)
}

/// An exchange as it is printed.
#[tactic(auto, unfolding(crate::specs::Exchanges::shown_text))]
fn shown(alloc: Global, exchange: Exchange) -> Result<Vec<u8>, NoMemory>
    ensures { IfOk result (λ text. text.items ≡ shown_text exchange) }
{
    let mut text = Vec::new(alloc);
    append_signed(&mut text, b"> ", exchange.request().as_bytes())?;
    let reply = exchange.reply(alloc, &POOLS)?;
    append_signed(&mut text, b"< ", &reply)?;
    Ok(text)
}

/// Appends the lines of a text, each after this sign.
fn append_signed(out: &mut Vec<u8>, sign: &[u8], text: &[u8]) -> Result<(), NoMemory>
    ensures { OnOk result (out.new.items ≡ out.old.items ++ signed_lines sign.now text.now) }
{
    let mut rest = text;
    while !rest.is_empty() {
        let (line, behind) = first_line(rest);
        append(out, &[sign, line, b"\n"])?;
        rest = behind;
    }
    Ok(())
}

/// Writes a text.
pub fn write<R: IoRuntime, O: Outlet>(rt: &R, output: &mut O, text: &[u8]) -> Result<(), DemoFault>
    ensures ok { OnOk result (IsShown O.takes O.failures text.now output.old output.new) }
    ensures err { IfErr result (HasNotShown O.failures output.old output.new) }
{
    let mut written = 0;
    if write_all(rt, output, text, &mut written) {
        Ok(())
    } else {
        Err(DemoFault::Write)
    }
}

/// Writes the line of a fault. A failure to write it is not reported.
pub fn show_fault<R: IoRuntime, F: Outlet>(rt: &R, faults: &mut F, fault: DemoFault)
    ensures { IsFaultShown F.takes F.failures fault faults.old faults.new }
{
    let mut written = 0;
    let _ = write_all(rt, faults, fault.line().as_bytes(), &mut written);
}
