//! What the driver of a session hands on of what the session did: each attempt is told as it ends,
//! requests and trails are recorded, and the servers that attempts marked are going to be probed.
ghost use Rattle.std.specs.Prelude.{◌≡◌, IsSome, OnErr, OnOk, Some, length};
ghost use Rattle.tko_reply.specs.Interactions.{with_noted};
ghost use Rattle.tko_reply.specs.TrailEvents.{Asked, Tried};
ghost use Rattle.tko_reply.specs.declared.asking.OneKey.{OneKey};
ghost use Rattle.tko_session.specs.Driven.{StaysOrDrops};
ghost use Rattle.tko_session.specs.SessionState.{progress_after};
ghost use Rattle.tko_session.specs.Working.{key_in};

use crate::{Dropped, Parts, Progress, Session, Trails, progress_after};
use tko_bytes::NoMemory;
use tko_io::IoRuntime;
use tko_route::{Attempt, Trail};
use tko_text::TextFault;

/// Tells those attempts at a key that were not told yet; the first `told` were.
#[inline(always)]
pub fn observe_attempts<R: IoRuntime, T: Trails>(
    rt: &R,
    trails: &mut T,
    attempts: &[Attempt],
    told: &mut usize,
)
    ensures same { trails.new ≡ trails.old }
    ensures told { told.new ≡ length attempts.now }
{
    for attempt in attempts.iter().skip(*told) {
        trails.attempt(rt, attempt);
    }
    *told = attempts.len();
}

/// Records the request that a session read, and notes when. Where memory runs out, the session
/// drops it.
pub fn observe_request<R: IoRuntime, T: Trails>(
    rt: &R,
    session: &mut Session,
    trails: &mut T,
) -> Result<(), Dropped>
    requires { IsSome (key_in session.old.work) }
    ensures recorded { OnOk result ((one : OneKey) → key_in session.old.work ≡ Some one
        → T.records trails.old (Asked one.request) trails.new) }
    ensures err { OnErr result (trails.new ≡ trails.old) }
    ensures session { StaysOrDrops session.old result session.new }
{
    match trails.request(rt, session.request()) {
        Ok(()) => {
            if let Some(moment) = trails.now() {
                session.note_read(moment);
            }
            Ok(())
        }
        Err(fault) => {
            session.drop_request();
            Err(Dropped::from(fault))
        }
    }
}

/// Tells that a line was refused for this fault. Returns how far the session is then.
pub fn observe_refusal<R: IoRuntime, H, L, T: Trails, C>(
    rt: &R,
    session: &Session,
    parts: &mut Parts<H, L, T, C>,
    fault: TextFault,
) -> Progress
    ensures progress { result ≡ progress_after fault }
    ensures same { parts.new ≡ parts.old }
{
    parts.trails.refused(rt, fault, session.client());
    progress_after(fault)
}

/// Tells that a request was answered wholly, where the session said this and not that it needs more
/// input.
pub fn observe_end<H, L, T: Trails, C>(
    session: &Session,
    parts: &mut Parts<H, L, T, C>,
    progress: Progress,
)
    ensures { parts.new ≡ parts.old }
{
    match progress {
        Progress::More | Progress::Quit => parts.trails.replied(session.read_moment()),
        Progress::NeedsInput | Progress::LineTooLong => {}
    }
}

/// Hands on the attempts at a key, which ended. Where memory runs out, the session drops the
/// request.
pub fn observe_trail<R: IoRuntime, H, L, T: Trails, C>(
    rt: &R,
    session: &mut Session,
    parts: &mut Parts<H, L, T, C>,
    told: &mut usize,
    trail: Trail,
) -> Result<(), Dropped>
    ensures recorded { OnOk result (T.records parts.old.trails (Tried trail) parts.new.trails) }
    ensures noted { parts.new
        ≡ record (with_noted trail parts.old) { trails = parts.new.trails } }
    ensures err { OnErr result (parts.new.trails ≡ parts.old.trails) }
    ensures session { StaysOrDrops session.old result session.new }
    ensures told { told.new ≡ 0 }
{
    match record_trail(rt, parts, told, trail) {
        Ok(()) => Ok(()),
        Err(fault) => {
            session.drop_request();
            Err(Dropped::from(fault))
        }
    }
}

/// Tells the last attempts at a key, notes the marks of all of them, and records its trail; of the
/// next key none is told.
pub fn record_trail<R: IoRuntime, H, L, T: Trails, C>(
    rt: &R,
    parts: &mut Parts<H, L, T, C>,
    told: &mut usize,
    trail: Trail,
) -> Result<(), NoMemory>
    ensures recorded { OnOk result (T.records parts.old.trails (Tried trail) parts.new.trails) }
    ensures noted { parts.new
        ≡ record (with_noted trail parts.old) { trails = parts.new.trails } }
    ensures err { OnErr result (parts.new.trails ≡ parts.old.trails) }
    ensures told { told.new ≡ 0 }
{
    observe_attempts(rt, &mut parts.trails, trail.attempts(), told);
    *told = 0;
    parts.backend.probers.note(trail.attempts());
    parts.trails.trail(rt, trail)
}

/// Tells the last attempts at a key whose request was dropped, and notes the marks of all of them.
pub fn observe_drop<R: IoRuntime, H, L, T: Trails, C>(
    rt: &R,
    parts: &mut Parts<H, L, T, C>,
    told: &mut usize,
    dropped: &Dropped,
) -> NoMemory
    ensures { parts.new ≡ with_noted dropped.now parts.old }
{
    observe_attempts(rt, &mut parts.trails, dropped.attempts(), told);
    parts.backend.probers.note(dropped.attempts());
    NoMemory
}
