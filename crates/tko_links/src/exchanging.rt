//! One exchange over a wire.
ghost use Rattle.std.specs.Prelude.{◌≡◌, ◌<◌, true, IfErr, OnOk};
ghost use Rattle.tko_text.specs.Requests.{request_text};
ghost use Rattle.tko_links.specs.ExchangeParts.{Opens, Receives, SendsAndReceives, SendsPart, returned, stays_after};
ghost use Rattle.tko_links.specs.Incoming.{arrival, nothing_yet};
ghost use Rattle.tko_links.specs.Exchanges.{IsPart, IsWireExchange, closing_of};
ghost use Rattle.tko_links.specs.Links.{is_counted, outcome_in};
ghost use Rattle.tko_links.specs.Wires.{is_ok};

use crate::fault::LinkFault;
use crate::incoming::IncomingResponse;
use crate::links::{ExchangeNoMemory, Outcome};
use crate::wire::{Wire, WireFault};
use std::alloc::Global;
use tko_bytes::KEPT_CAPACITY;
use tko_io::IoRuntime;
use tko_text::{Request, Response};

/// Exchanges a request, which was counted, over the connection that is there, or over a new one.
/// The connection stays exactly if a response came and nothing after it.
pub(crate) fn exchange_over<R: IoRuntime, W: Wire>(
    rt: &R,
    alloc: Global,
    wire: &mut W,
    buffers: &mut Buffers,
    server: usize,
    request: &Request,
) -> Result<Outcome, ExchangeNoMemory>
    requires { server < W.servers wire.old }
    ensures record { IsWireExchange W.servers W.is_connected W.failures W.steps server request.now
        wire.old (outcome_in result) wire.new }
    ensures counted { is_counted result ≡ true }
{
    match connect(rt, wire, server) {
        Ok(()) => {
            let received = send_and_receive(rt, alloc, wire, buffers, server, request);
            close(wire, server, received)
        }
        Err(_) => Ok(Outcome::Refused),
    }
}

/// Ends an exchange: what it returns, after the connection is shut unless it can be used again.
fn close<W: Wire>(
    wire: &mut W,
    server: usize,
    received: Result<(Response, bool), LinkFault>,
) -> Result<Outcome, ExchangeNoMemory>
    requires within { server < W.servers wire.old }
    requires connected { W.is_connected wire.old server ≡ true }
    ensures closes { IsPart W.servers W.is_connected W.failures W.steps server wire.old
        (closing_of (stays_after received) server) (stays_after received) wire.new }
    ensures returns { result ≡ returned received }
{
    match received {
        Ok((response, true)) => Ok(Outcome::Reply(response)),
        Ok((response, false)) => {
            wire.shut(server);
            Ok(Outcome::Reply(response))
        }
        Err(fault) => {
            wire.shut(server);
            fault.outcome()
        }
    }
}

/// The connection of an exchange: the one that is there, unless it can't be used any more, or else
/// a new one.
fn connect<R: IoRuntime, W: Wire>(rt: &R, wire: &mut W, server: usize) -> Result<(), WireFault>
    requires { server < W.servers wire.old }
    ensures { Opens W.servers W.is_connected W.failures W.steps server wire.old (is_ok result)
        wire.new }
{
    if !wire.is_connected(server) {
        return wire.connect(rt, server);
    }
    if wire.is_usable(rt, server) {
        return Ok(());
    }
    wire.shut(server);
    wire.connect(rt, server)
}

/// Prints a request, writes it and reads its response.
fn send_and_receive<R: IoRuntime, W: Wire>(
    rt: &R,
    alloc: Global,
    wire: &mut W,
    buffers: &mut Buffers,
    server: usize,
    request: &Request,
) -> Result<(Response, bool), LinkFault>
    requires within { server < W.servers wire.old }
    requires connected { W.is_connected wire.old server ≡ true }
    ensures { SendsAndReceives W.servers W.is_connected W.failures W.steps server request.now
        wire.old result wire.new }
{
    buffers.print(request)?;
    send(rt, wire, server, buffers.text.as_slice())?;
    buffers.incoming.begin();
    receive(rt, alloc, wire, &mut buffers.incoming, server, request)
}

/// Writes a text: in one call, continued where the wire took less.
fn send<R: IoRuntime, W: Wire>(
    rt: &R,
    wire: &mut W,
    server: usize,
    text: &[u8],
) -> Result<(), LinkFault>
    requires within { server < W.servers wire.old }
    requires connected { W.is_connected wire.old server ≡ true }
    ensures { SendsPart W.servers W.is_connected W.failures W.steps server text.now wire.old result
        wire.new }
{
    let mut at = 0;
    while at < text.len() {
        match wire.write(rt, server, &text[at..]) {
            Ok(0) => return Err(LinkFault::Broken),
            Ok(count) => at += count,
            Err(fault) => return Err(LinkFault::of(fault)),
        }
    }
    Ok(())
}

/// Reads until the response is whole, or never can be.
fn receive<R: IoRuntime, W: Wire>(
    rt: &R,
    alloc: Global,
    wire: &mut W,
    incoming: &mut IncomingResponse,
    server: usize,
    request: &Request,
) -> Result<(Response, bool), LinkFault>
    requires within { server < W.servers wire.old }
    requires connected { W.is_connected wire.old server ≡ true }
    requires nothing { arrival incoming.old ≡ nothing_yet }
    requires looked { incoming.old.looked ≡ 0 }
    ensures { Receives W.servers W.is_connected W.failures W.steps server request.now wire.old
        result wire.new }
{
    for _ in rt.forever() {
        match incoming.buffer.read(rt, wire, server, incoming.least) {
            Ok(count) => match incoming.look(alloc, request, count) {
                Ok(None) => {}
                Ok(Some(reply)) => return Ok(reply),
                Err(fault) => return Err(fault),
            },
            Err(fault) => return Err(fault),
        }
    }
    unreachable!()
}

/// The buffers of one exchange, which the next one reuses.
#[derive(Debug, Drop)]
pub(crate) struct Buffers {
    /// The printed request.
    text: Vec<u8>,
    incoming: IncomingResponse,
}

impl Buffers {
    pub(crate) fn new(alloc: Global) -> Buffers {
        Buffers {
            text: Vec::new(alloc),
            incoming: IncomingResponse::new(alloc),
        }
    }

    /// Prints a request into the text.
    fn print(&mut self, request: &Request) -> Result<(), LinkFault>
        ensures ok { OnOk result (self.new.text.items ≡ request_text request.now) }
        ensures err { IfErr result (λ fault. fault ≡ LinkFault.Memory) }
    {
        self.text.clear();
        match request.append_to(&mut self.text) {
            Ok(()) => Ok(()),
            Err(_) => Err(LinkFault::Memory),
        }
    }

    /// Gives up room above `KEPT_CAPACITY`.
    pub(crate) fn release(&mut self) {
        tko_bytes::clear(&mut self.text, KEPT_CAPACITY);
        self.incoming.release();
    }
}
