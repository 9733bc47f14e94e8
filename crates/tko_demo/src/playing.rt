//! The client's exchanges, one after another.
ghost use Rattle.std.specs.Prelude.{◌≡◌, IfErr, IfOk, OnOk, flat_map};
ghost use Rattle.tko_demo.specs.Exchanges.{shown_text};
ghost use Rattle.tko_demo.specs.Playing.{HasAsked, HasNotPlayed, HasPlayed, HasWaited, HasGotReply, IsShown};

use crate::exchange::{Addresses, Exchange};
use crate::fault::DemoFault;
use crate::hearing::{Heard, hear};
use crate::showing::{show, show_wrong};
use std::alloc::Global;
use std::thread;
use std::time::Duration;
use tko_bytes::NoMemory;
use tko_io::{Inlet, IoRuntime, Outlet, write_all};

/// How often it is asked at most whether a probe was answered.
const MAX_ASKED: u32 = 100;

/// How many milliseconds lie between.
const PAUSE: u64 = 50;

/// The two ends of the client's connection.
#[derive(Drop)]
pub struct Caller<I, C> {
    pub inlet: I,
    pub outlet: C,
}

/// Plays these exchanges: each request is sent, its reply is read, and both are printed. It ends
/// with the first reply that is not the right one, which is printed too.
pub(crate) fn play<R: IoRuntime, I: Inlet, C: Outlet, O: Outlet>(
    rt: &R,
    alloc: Global,
    at: &Addresses<'_>,
    caller: &mut Caller<I, C>,
    output: &mut O,
    exchanges: &[Exchange],
) -> Result<(), DemoFault>
    ensures played { OnOk result (HasPlayed I.gives C.takes at.now.near.now at.now.far.now
        exchanges.now caller.old caller.new) }
    ensures shown { OnOk result (IsShown O.takes O.failures
        (flat_map shown_text exchanges.now) output.old output.new) }
    ensures err { IfErr result (HasNotPlayed I.Inlet C.Outlet
        at.now.near.now at.now.far.now O.failures output.old output.new caller.new) }
{
    for exchange in exchanges {
        play_one(rt, alloc, at, caller, output, *exchange)?;
    }
    Ok(())
}

/// Plays one exchange.
fn play_one<R: IoRuntime, I: Inlet, C: Outlet, O: Outlet>(
    rt: &R,
    alloc: Global,
    at: &Addresses<'_>,
    caller: &mut Caller<I, C>,
    output: &mut O,
    exchange: Exchange,
) -> Result<(), DemoFault>
    ensures answered { OnOk result (HasGotReply I.gives C.takes at.now.near.now at.now.far.now
        exchange exchange caller.old caller.new) }
    ensures shown { OnOk result (IsShown O.takes O.failures (shown_text exchange)
        output.old output.new) }
    ensures err { IfErr result (HasNotPlayed I.Inlet C.Outlet
        at.now.near.now at.now.far.now O.failures output.old output.new caller.new) }
{
    match ask(rt, alloc, at, caller, exchange, exchange)? {
        Heard::Due | Heard::Other => show(rt, alloc, output, exchange),
        Heard::Wrong(bytes) => {
            show_wrong(rt, alloc, output, exchange, &bytes)?;
            Err(DemoFault::Reply)
        }
    }
}

/// Asks for the marks until the server of the first pool has none, and prints that. As long as it
/// is marked, the client asks again after a pause, which is not printed, but not without end.
pub(crate) fn play_until_unmarked<R: IoRuntime, I: Inlet, C: Outlet, O: Outlet>(
    rt: &R,
    alloc: Global,
    at: &Addresses<'_>,
    caller: &mut Caller<I, C>,
    output: &mut O,
) -> Result<(), DemoFault>
    ensures waited { OnOk result (HasWaited I.gives C.takes at.now.near.now at.now.far.now
        caller.old caller.new) }
    ensures shown { OnOk result (IsShown O.takes O.failures (shown_text Exchange.Unmarked)
        output.old output.new) }
    ensures err { IfErr result (HasNotPlayed I.Inlet C.Outlet
        at.now.near.now at.now.far.now O.failures output.old output.new caller.new) }
{
    for _ in 0..MAX_ASKED {
        match ask(rt, alloc, at, caller, Exchange::Unmarked, Exchange::Marked)? {
            Heard::Due => return show(rt, alloc, output, Exchange::Unmarked),
            Heard::Other => pause(rt),
            Heard::Wrong(bytes) => {
                show_wrong(rt, alloc, output, Exchange::Unmarked, &bytes)?;
                return Err(DemoFault::Reply);
            }
        }
    }
    play_one(rt, alloc, at, caller, output, Exchange::Unmarked)
}

/// Sends the request of an exchange, and hears the reply that is due, the one of the other
/// exchange, or what is neither.
fn ask<R: IoRuntime, I: Inlet, C: Outlet>(
    rt: &R,
    alloc: Global,
    at: &Addresses<'_>,
    caller: &mut Caller<I, C>,
    exchange: Exchange,
    other: Exchange,
) -> Result<Heard, DemoFault>
    ensures ok { IfOk result (λ heard. HasAsked I.Inlet C.Outlet at.now.near.now
        at.now.far.now exchange other caller.old heard caller.new) }
    ensures err { IfErr result (λ fault. fault ≡ DemoFault.Memory) }
{
    let due = exchange.reply(alloc, at)?;
    let other = other.reply(alloc, at)?;
    let request = exchange.request().as_bytes();
    let mut written = 0;
    if !write_all(rt, &mut caller.outlet, request, &mut written) {
        return Ok(Heard::Wrong(Vec::new(alloc)));
    }
    let heard = hear(rt, alloc, &mut caller.inlet, &due, &other)?;
    Ok(heard)
}

/// Lets a moment pass.
fn pause<R: IoRuntime>(rt: &R) {
    let _ = thread::sleep(rt, Duration::from_millis(PAUSE));
}
