//! One session over its two ends: a thin loop that moves bytes.
ghost use Rattle.std.specs.Prelude.{◌≡◌, ◌≢◌, ◌<◌, [], is_err, length};
ghost use Rattle.tko_text.specs.Reading.{Never};
ghost use Rattle.tko_prober.specs.Ghosts.{backend_ghosts};
ghost use Rattle.tko_prober.specs.Probers.{NoneMarked};
ghost use Rattle.tko_session.specs.Effects.{effects};
ghost use Rattle.tko_session.specs.Events.{Rounded};
ghost use Rattle.tko_session.specs.AnswerEnds.{IsBetweenOver, IsSettledOver};
ghost use Rattle.tko_session.specs.Ends.{DeliveryEnds, PieceEnds, SessionEnds, WriteEnds};
ghost use Rattle.tko_session.specs.Served.{context, delivering, delivery, serving};
ghost use Rattle.tko_reply.specs.Answers.{Reaches};
ghost use Rattle.tko_session.specs.SessionState.{fed_state, fresh_session, snapshot};
ghost use Rattle.tko_session.specs.Working.{Between};

use crate::answering::{answer, run_owed_round};
use crate::{Parts, Progress, Report, Session, SessionFault, Trails, round};
use std::alloc::Global;
use tko_bytes::NoMemory;
use tko_io::{Clock, Inlet, IoRuntime, Outlet, Piece, piece_buffer, read_piece, write_all};
use tko_links::Links;
use tko_route::Health;

/// Serves one client, from the first byte of its input to the end or to `quit`.
pub fn serve<R: IoRuntime, I: Inlet, O: Outlet, H: Health, L: Links, T: Trails, C: Clock>(
    rt: &R,
    alloc: Global,
    reader: &mut I,
    writer: &mut O,
    parts: &mut Parts<H, L, T, C>,
) -> Result<Report, SessionFault>
    requires reach { Reaches H.servers L.servers parts.old }
    ensures ends { SessionEnds
        (serving I.Inlet O.Outlet (effects H.Health L.Links T.Trails C.Clock))
        (context reader.old writer.old parts.old) result
        (context reader.new writer.new parts.new) }
    // Each server that the session marked gets its prober, also where it ends by a fault.
    ensures begun { NoneMarked parts.old.backend.probers → NoneMarked parts.new.backend.probers }
    ensures reach { Reaches H.servers L.servers parts.new }
{
    let mut buffer = piece_buffer(alloc)?;
    let mut session = Session::new(alloc);
    serve_pieces(rt, alloc, reader, writer, parts, &mut session, &mut buffer)
}

/// Serves a client, whose session is new, from the first piece of its input on. The caller owns the
/// session and the buffer, so that no exit of the loop drops them.
fn serve_pieces<R: IoRuntime, I: Inlet, O: Outlet, H: Health, L: Links, T: Trails, C: Clock>(
    rt: &R,
    alloc: Global,
    reader: &mut I,
    writer: &mut O,
    parts: &mut Parts<H, L, T, C>,
    session: &mut Session,
    buffer: &mut [u8],
) -> Result<Report, SessionFault>
    requires reach { Reaches H.servers L.servers parts.old }
    requires begins { session.old ≡ fresh_session }
    requires room { 0 < length buffer.old }
    ensures ends { SessionEnds
        (serving I.Inlet O.Outlet (effects H.Health L.Links T.Trails C.Clock))
        (context reader.old writer.old parts.old) result
        (context reader.new writer.new parts.new) }
    ensures begun { NoneMarked parts.old.backend.probers → NoneMarked parts.new.backend.probers }
    ensures reach { Reaches H.servers L.servers parts.new }
{
    let mut written = 0;
    for _ in rt.forever() {
        match read_piece(rt, reader, buffer) {
            Piece::Failed => return Err(SessionFault::Read),
            Piece::Idle => run_idle_round(rt, parts)?,
            Piece::Bytes(count) => {
                let ended = count == 0;
                if ended {
                    return Ok(session.report());
                }
                let piece = &buffer[..count];
                let quit = serve_piece(rt, alloc, session, writer, parts, piece, &mut written)?;
                if quit {
                    return Ok(session.report_after_quit());
                }
            }
        }
    }
    unreachable!()
}

/// Runs the round of an idle turn of the reader.
fn run_idle_round<R: IoRuntime, H: Health, L: Links, T: Trails, C: Clock>(
    rt: &R,
    parts: &mut Parts<H, L, T, C>,
) -> Result<(), NoMemory>
    requires reach { Reaches H.servers L.servers parts.old }
    ensures round { Rounded (backend_ghosts H.Health L.Links C.Clock)
        (is_err result) parts.old parts.new }
    ensures begun { NoneMarked parts.new.backend.probers }
    ensures reach { Reaches H.servers L.servers parts.new }
{
    round(rt, parts)
}

/// Gives a piece to the session, and writes the replies to all that it completes, also where the
/// session then ends. Returns whether `quit` ended it.
fn serve_piece<R: IoRuntime, O: Outlet, H: Health, L: Links, T: Trails, C: Clock>(
    rt: &R,
    alloc: Global,
    session: &mut Session,
    writer: &mut O,
    parts: &mut Parts<H, L, T, C>,
    piece: &[u8],
    written: &mut u64,
) -> Result<bool, SessionFault>
    requires settled { IsSettledOver H.servers L.servers (snapshot session.old parts.old) }
    requires outbox { session.old.outbox ≡ [] }
    requires reads { session.old.reading.after ≢ Never }
    ensures ends { PieceEnds (delivering O.Outlet (effects H.Health L.Links T.Trails C.Clock))
        (delivery (fed_state session.old piece.now) parts.old writer.old written.old) result
        (delivery session.new parts.new writer.new written.new) }
    ensures begun { NoneMarked parts.old.backend.probers → NoneMarked parts.new.backend.probers }
    ensures between { IsBetweenOver H.servers L.servers (snapshot session.new parts.new) }
{
    session.feed(piece)?;
    for _ in rt.forever() {
        match deliver(rt, alloc, session, writer, parts, written)? {
            Progress::More => {}
            Progress::NeedsInput => return Ok(false),
            Progress::LineTooLong => return Err(SessionFault::LineTooLong),
            Progress::Quit => return Ok(true),
        }
    }
    unreachable!()
}

/// Answers items until the replies reach their bound, a round is owed or no item is left, writes
/// the replies, and then runs the owed round, since a probe may take long. The round is run after a
/// fault too. A write error takes precedence over running out of memory.
fn deliver<R: IoRuntime, O: Outlet, H: Health, L: Links, T: Trails, C: Clock>(
    rt: &R,
    alloc: Global,
    session: &mut Session,
    writer: &mut O,
    parts: &mut Parts<H, L, T, C>,
    written: &mut u64,
) -> Result<Progress, SessionFault>
    requires settled { IsSettledOver H.servers L.servers (snapshot session.old parts.old) }
    requires outbox { session.old.outbox ≡ [] }
    ensures ends { DeliveryEnds (delivering O.Outlet (effects H.Health L.Links T.Trails C.Clock))
        (delivery session.old parts.old writer.old written.old) result
        (delivery session.new parts.new writer.new written.new) }
    ensures begun { NoneMarked parts.old.backend.probers → NoneMarked parts.new.backend.probers }
    ensures between { IsBetweenOver H.servers L.servers (snapshot session.new parts.new) }
{
    let answered = answer(rt, alloc, session, parts);
    let wrote = write_replies(rt, session, writer, written);
    let rounded = run_owed_round(rt, session, parts);
    wrote?;
    let progress = answered?;
    rounded?;
    Ok(progress)
}

/// Writes the replies that wait, piece by piece. Where the writer fails, the fault has the number
/// of bytes of the session that were written, and the other replies are dropped.
fn write_replies<R: IoRuntime, O: Outlet>(
    rt: &R,
    session: &mut Session,
    writer: &mut O,
    written: &mut u64,
) -> Result<(), SessionFault>
    requires between { session.old.work ≡ Between }
    ensures others { session.new ≡ record session.old { outbox = session.new.outbox } }
    ensures taken { session.new.outbox ≡ [] }
    ensures ends { WriteEnds O.Outlet (writer.old, written.old) session.old.outbox result
        (writer.new, written.new) }
{
    for _ in rt.forever() {
        let replies = session.output();
        if replies.is_empty() {
            return Ok(());
        }
        let count = replies.len();
        if !write_all(rt, writer, replies, written) {
            session.drop_replies();
            return Err(SessionFault::Write(*written));
        }
        session.sent(count);
    }
    unreachable!()
}
