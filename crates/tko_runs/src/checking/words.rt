//! What a step of each kind can leave of the word that it finds, whoever takes it.
ghost use Rattle.std.specs.Prelude.{◌≡◌, ◌↔◌, true};
ghost use Rattle.tko_runs.specs.Words.{CanLeave, CanLeaveServer, CanLeaveSlots, CanMark, IsReserved, IsSlotReleased, IsSlotSettled, IsValid, IsWonExchange};
ghost use Rattle.tko_word.specs.Words.{IsMarkOf};

use tko_model::{Mark, ServerState, Settings};
use tko_steps::{Slots, StepKind, Word};
use tko_word::STAMP_END;

/// What the group of a word has room for.
#[derive(Clone, Copy)]
pub(crate) struct GroupRoom {
    /// How many of its slots are held.
    pub held: u32,
    /// How many marks and slots it may have.
    pub limit: u32,
}

/// Whether a step of this kind can leave this of what it finds, where its group has this room.
pub(crate) fn can_leave(
    settings: &Settings,
    room: GroupRoom,
    kind: StepKind,
    found: Word,
    left: Word,
) -> bool
    ensures { (result ≡ true) ↔ CanLeave settings.now
        (record { held = room.held; limit = room.limit }) kind found left }
{
    match found {
        Word::Server(found) => match left {
            Word::Server(left) => can_leave_server(settings, room.held, kind, found, left),
            Word::Soft(_) | Word::Enrolled(_) => false,
        },
        Word::Soft(found) => match left {
            Word::Soft(left) => can_leave_slots(room.limit, kind, found, left),
            Word::Server(_) | Word::Enrolled(_) => false,
        },
        Word::Enrolled(found) => match left {
            Word::Enrolled(left) => kind == StepKind::Enrol && found.checked_add(1) == Some(left),
            Word::Server(_) | Word::Soft(_) => false,
        },
    }
}

/// A lost exchange leaves the word as it was; one of the thread's own mark is never lost.
fn can_leave_server(
    settings: &Settings,
    held: u32,
    kind: StepKind,
    found: ServerState,
    left: ServerState,
) -> bool
    ensures { (result ≡ true) ↔ CanLeaveServer settings.now held kind found left }
{
    match kind {
        StepKind::Look => is_same(left, found),
        StepKind::Count => is_same(left, found) || is_exchange(settings, held, kind, found, left),
        StepKind::Mark => is_same(left, found) || is_exchange(settings, held, kind, found, left),
        StepKind::Own => is_exchange(settings, held, kind, found, left),
        StepKind::Reserve | StepKind::Shift | StepKind::Give | StepKind::Enrol => false,
    }
}

/// Whether an exchange of this kind that is won can leave this.
fn is_exchange(
    settings: &Settings,
    held: u32,
    kind: StepKind,
    found: ServerState,
    left: ServerState,
) -> bool
    ensures { (result ≡ true) ↔ IsWonExchange settings.now held kind found left }
{
    can_mark(settings, held, kind, found.mark, left.mark)
        && found.stamp.checked_add(1) == Some(left.stamp)
        && is_valid(settings, left)
}

/// Whether an exchange of this kind can leave this mark in place of that one.
fn can_mark(settings: &Settings, held: u32, kind: StepKind, old: Mark, new: Mark) -> bool
    ensures { (result ≡ true) ↔ CanMark settings.now held kind old new }
{
    match old {
        Mark::Up(_) => match new {
            Mark::Up(_) => kind == StepKind::Count,
            Mark::Soft(thread) => kind == StepKind::Mark && thread < settings.threads && held > 0,
            Mark::Hard(thread) => kind == StepKind::Mark && thread < settings.threads,
        },
        Mark::Soft(owner) => match new {
            Mark::Up(count) => kind == StepKind::Own && count == 0,
            Mark::Soft(_) => false,
            Mark::Hard(thread) => kind == StepKind::Own && thread == owner,
        },
        Mark::Hard(_) => match new {
            Mark::Up(count) => kind == StepKind::Own && count == 0,
            Mark::Soft(_) | Mark::Hard(_) => false,
        },
    }
}

/// Whether there is a word of this mark and stamp.
fn is_valid(settings: &Settings, server: ServerState) -> bool
    ensures { (result ≡ true) ↔ IsValid settings.now server }
{
    is_mark_of(settings, server.mark) && server.stamp < STAMP_END
}

/// Whether the settings allow this mark.
fn is_mark_of(settings: &Settings, mark: Mark) -> bool
    ensures { (result ≡ true) ↔ IsMarkOf settings.now mark }
{
    match mark {
        Mark::Up(count) => count < settings.failures,
        Mark::Soft(thread) => thread < settings.threads,
        Mark::Hard(thread) => thread < settings.threads,
    }
}

fn can_leave_slots(limit: u32, kind: StepKind, found: Slots, left: Slots) -> bool
    ensures { (result ≡ true) ↔ CanLeaveSlots limit kind found left }
{
    match kind {
        StepKind::Look => left == found,
        StepKind::Reserve => left == found || is_reserved(limit, found, left),
        StepKind::Shift => is_settled(found, left) || is_settled(left, found),
        StepKind::Give => is_given(found, left),
        StepKind::Count | StepKind::Mark | StepKind::Own | StepKind::Enrol => false,
    }
}

/// Whether one more slot is held, where one was left.
fn is_reserved(limit: u32, found: Slots, left: Slots) -> bool
    ensures { (result ≡ true) ↔ IsReserved limit found left }
{
    left.firm == found.firm
        && found.held.checked_add(1) == Some(left.held)
        && found.firm as u64 + (found.held as u64) < limit as u64
}

/// Whether a held slot became a settled mark.
fn is_settled(found: Slots, left: Slots) -> bool
    ensures { (result ≡ true) ↔ IsSlotSettled found left }
{
    found.firm.checked_add(1) == Some(left.firm) && left.held.checked_add(1) == Some(found.held)
}

/// Whether one slot fewer is held.
fn is_given(found: Slots, left: Slots) -> bool
    ensures { (result ≡ true) ↔ IsSlotReleased found left }
{
    left.firm == found.firm && left.held.checked_add(1) == Some(found.held)
}

/// Whether two words of servers are equal.
pub(crate) fn is_same(one: ServerState, other: ServerState) -> bool
    ensures { (result ≡ true) ↔ (one ≡ other) }
{
    one == other
}
