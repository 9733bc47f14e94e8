//! What the check of a run keeps of the events so far.
ghost use Rattle.std.specs.Prelude.{◌≡◌, ◌+◌, ◌<◌, ◌^◌, ◌↔◌, true, length, IfOk, IfErr, OnOk};
ghost use Rattle.tko_model.specs.Ranges.{IsWithinRanges};
ghost use Rattle.tko_runs.specs.Words.{room_at};
ghost use Rattle.tko_runs.specs.States.{CanCome, CanStep, HasPlace};
ghost use Rattle.tko_runs.specs.Orders.{FollowsAt};
ghost use Rattle.tko_steps.specs.Core.{word_at};
ghost use Rattle.tko_runs.specs.CheckStates.{AreJudged, HasEntered, HasFollowed, IsCheckState, IsCheckOpened, IsIllegalFault, IsRefusalFault, IsStrayFault};

use crate::checking::calls::CheckedCalls;
use crate::checking::effect::effect_of;
use crate::checking::point::{CheckedCall, point_of};
use crate::checking::words::{GroupRoom, can_leave};
use crate::run::state::RunWords;
use crate::{Event, Order, RunFault};
use std::alloc::Global;
use tko_bytes::NoMemory;
use tko_model::{Reply, Settings};
use tko_steps::{Place, StepKind, Word};

/// The words and threads after some events of a run, and the calls that they began.
#[derive(Drop)]
pub(crate) struct CheckState {
    settings: Settings,
    run: RunWords,
    calls: CheckedCalls,
    /// The number of steps of calls among these events.
    steps: u64,
}

impl CheckState {
    pub fn open(alloc: Global, settings: &Settings) -> Result<CheckState, NoMemory>
        requires { IsWithinRanges settings.now }
        ensures { IfOk result (IsCheckOpened settings.now) }
    {
        Ok(CheckState {
            settings: settings.try_clone(alloc)?,
            run: RunWords::open(alloc, settings)?,
            calls: CheckedCalls::open(alloc, settings.threads as usize)?,
            steps: 0,
        })
    }

    /// Takes the next event.
    pub fn enter(&mut self, alloc: Global, event: &Event) -> Result<(), RunFault>
        requires state { IsCheckState self.old }
        requires comes { CanCome self.old.run event.now }
        requires room { self.old.steps + 1 < 2 ^ 64 }
        ensures ok { OnOk result (HasEntered self.old event.now self.new) }
        ensures err { IfErr result (IsRefusalFault self.old event.now) }
    {
        match *event {
            Event::Begin { thread, op, server } => {
                let number = self.run.number(thread);
                self.calls.begin(alloc, thread, number, op, server)?;
                self.run.record(event);
                Ok(())
            }
            Event::Step {
                thread,
                kind,
                place,
                found,
                left,
                answer,
            } => {
                if kind.is_call_step() {
                    self.step(thread, kind, place, found, left, answer)?;
                    self.run.record(event);
                    Ok(())
                } else {
                    self.run.record(event);
                    Ok(())
                }
            }
        }
    }

    /// Takes a step of a thread's call, if it finds and leaves possible words.
    fn step(
        &mut self,
        thread: usize,
        kind: StepKind,
        place: Place,
        found: Word,
        left: Word,
        answer: Option<Reply>,
    ) -> Result<(), RunFault>
        requires state { IsCheckState self.old }
        requires comes { CanStep true self.old.run thread place found left answer }
        requires room { self.old.steps + 1 < 2 ^ 64 }
        ensures ok { OnOk result
            (HasFollowed self.old thread kind place found left answer self.new) }
        ensures err { IfErr result (IsStrayFault self.old kind place found left) }
    {
        self.steps += 1;
        if !follows(&self.settings, &self.run, kind, place, found, left) {
            return Err(RunFault::Step(self.steps));
        }
        let effect = effect_of(
            &self.settings,
            self.run.servers(),
            self.calls.last(thread),
            self.steps,
            place,
            left,
        );
        self.calls.step(thread, effect, answer)?;
        Ok(())
    }

    /// Where each call takes effect, if all are legal.
    pub fn order(self, alloc: Global) -> Result<Order, RunFault>
        ensures ok { IfOk result (AreJudged self.calls.all.items) }
        ensures err { IfErr result (IsIllegalFault self.calls.all.items) }
    {
        judge(alloc, &self.calls.all)
    }
}

/// Whether a step finds the word at its place, and leaves what its kind can leave.
fn follows(
    settings: &Settings,
    run: &RunWords,
    kind: StepKind,
    place: Place,
    found: Word,
    left: Word,
) -> bool
    requires place { HasPlace run.now.words place }
    ensures { (result ≡ true) ↔ FollowsAt settings.now run.now kind place found left }
{
    is_word(run, place, found)
        && can_leave(settings, room_at(settings, run, place), kind, found, left)
}

/// The room of the group of a place.
fn room_at(settings: &Settings, run: &RunWords, place: Place) -> GroupRoom
    ensures held { result.held ≡ (room_at settings.now run.now.words.slots place).held }
    ensures limit { result.limit ≡ (room_at settings.now run.now.words.slots place).limit }
{
    let group = match place {
        Place::Server(server) => settings.group_of(server),
        Place::Soft(group) => group,
        Place::Enrolment => 0,
    };
    GroupRoom {
        held: run.slots(group).held,
        limit: settings.limit_of(group),
    }
}

/// Whether this is the word at that place.
fn is_word(run: &RunWords, place: Place, found: Word) -> bool
    requires { HasPlace run.now.words place }
    ensures { (result ≡ true) ↔ (found ≡ word_at run.now.words place) }
{
    found == run.word_at(place)
}

fn judge(alloc: Global, calls: &[CheckedCall]) -> Result<Order, RunFault>
    ensures ok { IfOk result (AreJudged calls.now) }
    ensures err { IfErr result (IsIllegalFault calls.now) }
{
    let mut order = Order::new(alloc);
    for call in calls {
        let Some(point) = point_of(call) else {
            return Err(RunFault::Call(order.points().len() + 1));
        };
        order.push(point)?;
    }
    Ok(order)
}
