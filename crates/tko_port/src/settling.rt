//! A client, from one event to the next.
ghost use Rattle.std.specs.Prelude.{◌≡◌, ◌<◌, ◌≢◌, [], None, true, IfSome, IfNone, length};
ghost use Rattle.tko_mux.specs.Awaits.{IsAsking};
ghost use Rattle.std.specs.Bool.{OnFalse, OnTrue};
ghost use Rattle.tko_port.specs.Lives.{IsReadyIdle, LeavesReady, ReadyAs, ReadyAt};
ghost use Rattle.tko_port.specs.Rests.{CannotWrite, IsToRead, SettledAlone, SettledAsking};
ghost use Rattle.tko_port.specs.Shares.{IsOneTurn, IsServedWithin};
ghost use Rattle.tko_port.specs.Talks.{IsAtStage};

use crate::{Port, Read, SessionStage, Talking};
use tko_model::Clear;

/// How often a client goes on, and then is read from or written to, in one turn. What is left then
/// is done in the next turn, after the other clients. A request, its reply and a look for the next
/// one take three rounds.
const ROUNDS: usize = 4;

/// Why a client's session ended.
#[derive(Clone, Copy, Debug, PartialEq, Eq)]
pub enum End {
    /// It took all its input, and its replies were written.
    Finished,
    /// The same, but that its last line was too long.
    LineTooLong,
    /// Memory ran out for it.
    Memory,
    ReadFailed,
    WriteFailed,
}

/// What serving a client came to.
#[derive(Debug, Drop)]
pub enum Settled {
    /// It asks the server that the permission names, and can do nothing before something comes for
    /// one of its requests.
    Asks(Clear),
    /// It asks the server that the permission names, and more can be done for it.
    AsksMore(Clear),
    /// Nothing can be done for it before its next event.
    Rests,
    /// More can be done for it in the next turn.
    Spent,
    Ends(End),
}

/// Serves a client until nothing can be done for it before its next event, or as much as is done
/// for one client in a turn: a few rounds, and only one in which it has more to do than a session
/// does at a time.
pub fn settle<P, L: Port, T: Talking<P>>(
    port: &mut L,
    talk: &mut T,
    parts: &mut P,
    buffer: &mut [u8],
) -> Settled
    requires ready { ReadyAt T.ready parts.old (L.port port.old) talk.old }
    requires room { 0 < length buffer.old }
    ensures ends { SettledAsking result (T.awaited talk.old) (T.awaited talk.new) (T.talk talk.new)
        (L.port port.new) (T.asks_for talk.new) }
    ensures served { IsOneTurn T.does (length buffer.old) (talk.old, parts.old)
        (L.port port.old) (talk.new, parts.new) (L.port port.new) }
    ensures ready { ReadyAs T.ready result parts.new (L.port port.new) talk.new }
    ensures stays { T.stays parts.old parts.new }
{
    for _ in 0..ROUNDS {
        if let Some(settled) = serve(port, talk, parts, buffer) {
            return settled;
        }
    }
    Settled::Spent
}

/// Goes on once, and then writes or reads once. Returns what it came to, if that is all.
fn serve<P, L: Port, T: Talking<P>>(
    port: &mut L,
    talk: &mut T,
    parts: &mut P,
    buffer: &mut [u8],
) -> Option<Settled>
    requires ready { ReadyAt T.ready parts.old (L.port port.old) talk.old }
    requires room { 0 < length buffer.old }
    ensures ends { IfSome result (λ settled.
        SettledAsking settled (T.awaited talk.old) (T.awaited talk.new) (T.talk talk.new)
        (L.port port.new) (T.asks_for talk.new)) }
    ensures same { IfNone result (IsAsking None (T.awaited talk.old) (T.awaited talk.new)) }
    ensures served { IsServedWithin T.does 1 (length buffer.old) (talk.old, parts.old)
        (L.port port.old) (talk.new, parts.new) (L.port port.new) }
    ensures ready { LeavesReady T.ready T.stays result parts.old parts.new (L.port port.new)
        talk.new }
{
    match talk.go_on(parts) {
        Ok(Some(clear)) => match talk.stage() {
            SessionStage::Waits => Some(Settled::Asks(clear)),
            _ => Some(Settled::AsksMore(clear)),
        },
        Ok(None) => serve_here(port, talk, parts, buffer),
        Err(_) => Some(Settled::Ends(End::Memory)),
    }
}

/// The same, once it went on and asks nobody.
fn serve_here<P, L: Port, T: Talking<P>>(
    port: &mut L,
    talk: &mut T,
    parts: &mut P,
    buffer: &mut [u8],
) -> Option<Settled>
    requires ready { ReadyAt T.ready parts.old (L.port port.old) talk.old }
    requires stage { IsAtStage (T.talk talk.old) (T.awaited talk.old) }
    requires room { 0 < length buffer.old }
    ensures ends { IfSome result (λ settled.
        SettledAlone settled (T.awaited talk.new) (T.talk talk.new) (L.port port.new)
        (T.asks_for talk.new)) }
    ensures same { T.awaited talk.new ≡ T.awaited talk.old }
    ensures served { IsServedWithin T.does 0 (length buffer.old) (talk.old, parts.old)
        (L.port port.old) (talk.new, parts.new) (L.port port.new) }
    ensures ready { LeavesReady T.ready T.stays result parts.old parts.new (L.port port.new)
        talk.new }
{
    if !talk.is_asking() {
        return serve_idle(port, talk, parts, buffer);
    }
    match talk.stage() {
        SessionStage::Waits => Some(Settled::Rests),
        _ => Some(Settled::Spent),
    }
}

/// The same, where no request of it is under way: only then it is written to or read from.
fn serve_idle<P, L: Port, T: Talking<P>>(
    port: &mut L,
    talk: &mut T,
    parts: &mut P,
    buffer: &mut [u8],
) -> Option<Settled>
    requires idle { IsReadyIdle T.ready parts.old (L.port port.old) talk.old (T.awaited talk.old) }
    requires stage { IsAtStage (T.talk talk.old) (T.awaited talk.old) }
    requires room { 0 < length buffer.old }
    ensures ends { IfSome result (λ settled.
        SettledAlone settled (T.awaited talk.new) (T.talk talk.new) (L.port port.new)
        (T.asks_for talk.new)) }
    ensures here { T.awaited talk.new ≡ [] }
    ensures served { IsServedWithin T.does 0 (length buffer.old) (talk.old, parts.old)
        (L.port port.old) (talk.new, parts.new) (L.port port.new) }
    ensures ready { LeavesReady T.ready T.stays result parts.old parts.new (L.port port.new)
        talk.new }
{
    if can_write::<P, _, _>(port, talk) {
        return write_share(port, talk, parts);
    }
    match talk.stage() {
        SessionStage::Going => Some(Settled::Spent),
        SessionStage::Waits => unreachable!(),
        SessionStage::Full => Some(Settled::Rests),
        SessionStage::NeedsInput => read_in(port, talk, parts, buffer),
        SessionStage::Over => over::<P, _>(talk, End::Finished),
        SessionStage::TooLong => over::<P, _>(talk, End::LineTooLong),
    }
}

/// A session that takes no more input rests while replies wait, and ends so once all were written.
fn over<P, T: Talking<P>>(talk: &T, why: End) -> Option<Settled>
    ensures rests { (T.talk talk.now).output ≢ [] → result ≡ Some Settled.Rests }
    ensures ends { (T.talk talk.now).output ≡ [] → result ≡ Some (Settled.Ends why) }
{
    if has_output::<P, _>(talk) {
        Some(Settled::Rests)
    } else {
        Some(Settled::Ends(why))
    }
}

/// Whether replies wait, and can be written.
fn can_write<P, L: Port, T: Talking<P>>(port: &L, talk: &T) -> bool
    ensures can { OnTrue result ((L.port port.now).writable ≡ true) }
    ensures not { OnFalse result (CannotWrite (T.talk talk.now).output (L.port port.now)) }
{
    if !port.is_writable() {
        return false;
    }
    has_output::<P, _>(talk)
}

/// Whether replies wait.
fn has_output<P, T: Talking<P>>(talk: &T) -> bool
    ensures some { OnTrue result ((T.talk talk.now).output ≢ []) }
    ensures none { OnFalse result ((T.talk talk.now).output ≡ []) }
{
    !talk.output().is_empty()
}

/// Writes what waits, once. A session that could go on, and did as much as it does at a time, does
/// no more in this turn.
fn write_share<P, L: Port, T: Talking<P>>(
    port: &mut L,
    talk: &mut T,
    parts: &mut P,
) -> Option<Settled>
    requires idle { IsReadyIdle T.ready parts.old (L.port port.old) talk.old (T.awaited talk.old) }
    requires writable { (L.port port.old).writable ≡ true }
    ensures ends { IfSome result (λ settled.
        SettledAlone settled (T.awaited talk.new) (T.talk talk.new) (L.port port.new)
        (T.asks_for talk.new)) }
    ensures spent { (T.talk talk.old).stage ≡ SessionStage.Going → result ≢ None }
    ensures here { T.awaited talk.new ≡ [] }
    ensures served { IsServedWithin T.does 0 0 (talk.old, parts.old) (L.port port.old)
        (talk.new, parts.new) (L.port port.new) }
    ensures ready { LeavesReady T.ready T.stays result parts.old parts.new (L.port port.new)
        talk.new }
{
    let stage = talk.stage();
    match (stage, write_out(port, talk, parts)) {
        (SessionStage::Going, None) => Some(Settled::Spent),
        (_, written) => written,
    }
}

/// Writes what waits, once.
fn write_out<P, L: Port, T: Talking<P>>(
    port: &mut L,
    talk: &mut T,
    parts: &mut P,
) -> Option<Settled>
    requires idle { IsReadyIdle T.ready parts.old (L.port port.old) talk.old (T.awaited talk.old) }
    requires writable { (L.port port.old).writable ≡ true }
    ensures ends { IfSome result (λ settled. settled ≡ Settled.Ends End.WriteFailed) }
    ensures here { T.awaited talk.new ≡ [] }
    ensures served { IsServedWithin T.does 0 0 (talk.old, parts.old) (L.port port.old)
        (talk.new, parts.new) (L.port port.new) }
    ensures ready { ReadyAt T.ready parts.new (L.port port.new) talk.new }
    ensures stays { T.stays parts.old parts.new }
{
    match port.write(talk.output()) {
        Some(count) => {
            talk.sent(parts, count);
            None
        }
        None => Some(Settled::Ends(End::WriteFailed)),
    }
}

/// Reads what is there, once.
fn read_in<P, L: Port, T: Talking<P>>(
    port: &mut L,
    talk: &mut T,
    parts: &mut P,
    buffer: &mut [u8],
) -> Option<Settled>
    requires idle { IsReadyIdle T.ready parts.old (L.port port.old) talk.old (T.awaited talk.old) }
    requires needs { IsToRead (T.talk talk.old) (L.port port.old) }
    requires room { 0 < length buffer.old }
    ensures ends { IfSome result (λ settled.
        SettledAlone settled (T.awaited talk.new) (T.talk talk.new) (L.port port.new)
        (T.asks_for talk.new)) }
    ensures here { T.awaited talk.new ≡ [] }
    ensures served { IsServedWithin T.does 0 (length buffer.old) (talk.old, parts.old)
        (L.port port.old) (talk.new, parts.new) (L.port port.new) }
    ensures ready { LeavesReady T.ready T.stays result parts.old parts.new (L.port port.new)
        talk.new }
{
    if !port.is_readable() {
        return Some(Settled::Rests);
    }
    match port.read(buffer) {
        Read::Bytes(count) => match talk.feed(parts, &buffer[..count]) {
            Ok(()) => None,
            Err(_) => Some(Settled::Ends(End::Memory)),
        },
        Read::Nothing => Some(Settled::Rests),
        Read::Ended => {
            talk.end(parts);
            None
        }
        Read::Fault => Some(Settled::Ends(End::ReadFailed)),
    }
}
