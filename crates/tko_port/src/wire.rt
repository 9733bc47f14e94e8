//! A server's socket: what is read from it, and what is written to it.
ghost use Rattle.std.specs.Prelude.{◌≡◌, ◌≢◌, ◌<◌, ◌≤◌, [], Some, None, IfSome, drop, length, option_map};
ghost use Rattle.std.specs.Bool.{OnFalse, OnTrue};
ghost use Rattle.tko_pipe.specs.Pipes.{IsCause, PipeState};
ghost use Rattle.tko_mux.specs.Linking.{AreLinked};
ghost use Rattle.tko_mux.specs.Muxes.{line_at};
ghost use Rattle.tko_port.specs.Wires.{AreGivenUp, CannotWriteTo, FindsNothing, HasCome, HasRead, HasWritten, IsConnectionMade, IsNotWritable, IsOpen, KeepsSessions, LeavesPort, OtherLines, ReadsFromPort, WritesPiece, due_at, in_flight_at, is_first_late, link_at, unwritten_at};

use crate::{Port, Read};
use tko_mux::{Asking, Mux};
use tko_pipe::{Link, ShutCause};

/// How far the connection to a server is.
fn link_to<P, S: Asking<P> + Drop>(mux: &Mux<S, P>, server: usize) -> Option<Link>
    ensures { result ≡ link_at (line_at mux.now server) }
{
    let line = mux.line(server)?;
    let pipe = line.pipe()?;
    Some(pipe.link())
}

/// Whether the connection to a server was made.
pub fn is_connected<P, S: Asking<P> + Drop>(mux: &Mux<S, P>, server: usize) -> bool
    ensures yes { OnTrue result (link_at (line_at mux.now server) ≡ Some Link.Connected) }
    ensures not { OnFalse result (link_at (line_at mux.now server) ≢ Some Link.Connected) }
{
    match link_to(mux, server) {
        Some(Link::Connected) => true,
        Some(Link::Connecting) => false,
        Some(Link::Shut(_)) => false,
        None => false,
    }
}

/// Whether the connection to a server is being made, or is to be begun.
pub fn is_connecting<P, S: Asking<P> + Drop>(mux: &Mux<S, P>, server: usize) -> bool
    ensures yes { OnTrue result (link_at (line_at mux.now server) ≡ Some Link.Connecting) }
    ensures not { OnFalse result (link_at (line_at mux.now server) ≢ Some Link.Connecting) }
{
    match link_to(mux, server) {
        Some(Link::Connecting) => true,
        Some(Link::Connected) => false,
        Some(Link::Shut(_)) => false,
        None => false,
    }
}

/// Whether something is to be written to a server.
pub fn has_unwritten<P, S: Asking<P> + Drop>(mux: &Mux<S, P>, server: usize) -> bool
    ensures none { OnFalse result (unwritten_at (line_at mux.now server) ≡ []) }
{
    !unwritten(mux, server).is_empty()
}

/// Whether there is such a server, and nobody is left that waited on a connection to it that was
/// shut.
pub fn is_open<P, S: Asking<P> + Drop>(mux: &Mux<S, P>, server: usize) -> bool
    ensures open { OnTrue result (IsOpen (line_at mux.now server)) }
    ensures not { OnFalse result (IsOpen (line_at mux.now server) → ⊥) }
{
    match mux.line(server) {
        Some(line) => !line.is_leaving(),
        None => false,
    }
}

/// Whether the first response of a server is late at this moment.
pub fn is_late<P, S: Asking<P> + Drop>(mux: &Mux<S, P>, server: usize, now: u64) -> bool
    ensures { result ≡ is_first_late (line_at mux.now server) now }
{
    match first_due(mux, server) {
        Some(due) => due <= now,
        None => false,
    }
}

/// When the first response of a server is late, if one is awaited and no byte comes.
pub fn first_due<P, S: Asking<P> + Drop>(mux: &Mux<S, P>, server: usize) -> Option<u64>
    ensures { result ≡ due_at mux.now.lines server }
{
    let line = mux.line(server)?;
    let pipe = line.pipe()?;
    pipe.late_at()
}

/// How many requests wait for a response of a server, or to be sent to it.
pub fn in_flight<P, S: Asking<P> + Drop>(mux: &Mux<S, P>, server: usize) -> usize
    ensures { result ≡ in_flight_at mux.now.lines server }
{
    let Some(line) = mux.line(server) else {
        return 0;
    };
    match line.pipe() {
        Some(pipe) => pipe.in_flight(),
        None => 0,
    }
}

/// What is to be written to a server.
fn unwritten<P, S: Asking<P> + Drop>(mux: &Mux<S, P>, server: usize) -> &[u8]
    ensures { result.now ≡ unwritten_at (line_at mux.now server) }
{
    let Some(line) = mux.line(server) else {
        return b"".as_slice();
    };
    match line.pipe() {
        Some(pipe) => pipe.unwritten(),
        None => b"".as_slice(),
    }
}

/// Reads what is there from a server whose connection was made, once, if its port is readable.
/// Returns whether bytes came, or the connection was shut.
pub fn read_wire<P, S: Asking<P> + Drop, L: Port + Drop>(
    mux: &mut Mux<S, P>,
    socket: &mut Option<L>,
    server: usize,
    now: u64,
    buffer: &mut [u8],
) -> bool
    requires open { IsOpen (line_at mux.old server) }
    requires room { 0 < length buffer.old }
    requires linked { AreLinked S.awaited mux.old.roster.slots mux.old.lines }
    ensures read { OnTrue result (HasRead server now mux.old.lines (option_map L.port socket.old)
        mux.new.lines (option_map L.port socket.new)) }
    ensures none { OnFalse result
        (FindsNothing mux.old server (option_map L.port socket.new) mux.new) }
    ensures sessions { KeepsSessions S.awaited mux.old mux.new }
{
    if !is_connected(mux, server) {
        return false;
    }
    match read_piece(socket, buffer) {
        Read::Bytes(count) => {
            receive(mux, socket, server, now, &buffer[..count]);
            true
        }
        Read::Nothing => false,
        Read::Ended => {
            give_up(mux, socket, server, ShutCause::EndOfInput);
            true
        }
        Read::Fault => {
            give_up(mux, socket, server, ShutCause::Fault);
            true
        }
    }
}

/// These bytes came from a server. Its socket is closed if that shut its connection.
fn receive<P, S: Asking<P> + Drop, L: Port + Drop>(
    mux: &mut Mux<S, P>,
    socket: &mut Option<L>,
    server: usize,
    now: u64,
    bytes: &[u8],
)
    requires made { IsConnectionMade server mux.old.lines }
    requires some { 0 < length bytes.now }
    requires linked { AreLinked S.awaited mux.old.roster.slots mux.old.lines }
    ensures come { HasCome server now bytes.now mux.old.lines (option_map L.port socket.old)
        mux.new.lines (option_map L.port socket.new) }
    ensures sessions { KeepsSessions S.awaited mux.old mux.new }
{
    match mux.got(server, now, bytes) {
        Ok(()) => {}
        Err(_) => *socket = None,
    }
}

/// Reads from a port, if it is readable. A connection that has none failed.
fn read_piece<L: Port>(socket: &mut Option<L>, buffer: &mut [u8]) -> Read
    requires { 0 < length buffer.old }
    ensures reads { ReadsFromPort (option_map L.port socket.old) buffer.new result
        (option_map L.port socket.new) }
    ensures leaves { LeavesPort result buffer.new (option_map L.port socket.new) }
{
    let Some(port) = socket else {
        return Read::Fault;
    };
    if !port.is_readable() {
        return Read::Nothing;
    }
    port.read(buffer)
}

/// Writes what is to be written to a server whose connection was made, once, if its port is
/// writable.
pub fn write_wire<P, S: Asking<P> + Drop, L: Port + Drop>(
    mux: &mut Mux<S, P>,
    socket: &mut Option<L>,
    server: usize,
)
    requires open { IsOpen (line_at mux.old server) }
    requires linked { AreLinked S.awaited mux.old.roster.slots mux.old.lines }
    ensures wrote { HasWritten server mux.old.lines (option_map L.port socket.old) mux.new.lines
        (option_map L.port socket.new) }
    ensures cannot { CannotWriteTo (line_at mux.new server) (option_map L.port socket.new) }
    ensures others { OtherLines server mux.old.lines mux.new.lines }
    ensures sessions { KeepsSessions S.awaited mux.old mux.new }
{
    if !is_connected(mux, server) {
        return;
    }
    match write_piece(socket, unwritten(mux, server)) {
        Some(count) => mux.wrote(server, count),
        None => give_up(mux, socket, server, ShutCause::Fault),
    }
}

/// Writes a text to a port, if there is one and it is writable. Returns how much was taken. A
/// connection that has no port failed.
fn write_piece<L: Port>(socket: &mut Option<L>, text: &[u8]) -> Option<usize>
    ensures writes { WritesPiece (option_map L.port socket.old) text.now result
        (option_map L.port socket.new) }
    ensures within { IfSome result (λ count. count ≤ length text.now) }
    ensures cannot { IfSome result (λ count. drop count text.now ≢ []
        → IsNotWritable (option_map L.port socket.new)) }
{
    let Some(port) = socket else {
        return None;
    };
    if text.is_empty() {
        return Some(0);
    }
    if !port.is_writable() {
        return Some(0);
    }
    port.write(text)
}

/// Gives up the connection to a server, and its socket.
fn give_up<P, S: Asking<P> + Drop, L: Port + Drop>(
    mux: &mut Mux<S, P>,
    socket: &mut Option<L>,
    server: usize,
    cause: ShutCause,
)
    requires made { IsConnectionMade server mux.old.lines }
    requires cause { (pipe : PipeState) → IsCause pipe cause }
    requires linked { AreLinked S.awaited mux.old.roster.slots mux.old.lines }
    ensures shut { AreGivenUp server cause mux.old.lines mux.new.lines
        (option_map L.port socket.new) }
    ensures sessions { KeepsSessions S.awaited mux.old mux.new }
{
    mux.shut(server, cause);
    *socket = None;
}
