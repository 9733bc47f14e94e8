//! The linearization point of a call: whether it is legal, and where it takes effect last.
ghost use Rattle.std.specs.Prelude.{◌≡◌, ◌≢◌, ◌↔◌, List, ◌∷◌, true};
ghost use Rattle.tko_model.specs.declared.mark.Reply.{Reply};
ghost use Rattle.tko_model.specs.Settings.{Settings};
ghost use Rattle.tko_runs.specs.Effects.{IsCallKept, IsEffect, Judges};
ghost use Rattle.tko_runs.specs.Points.{MayTakeEffect, IsEffective, PointsCalls, IsSoFar};
ghost use Rattle.tko_steps.specs.Runs.{OwnStep, RunCall};

use crate::Point;
use crate::checking::effect::Effect;
use tko_model::{Op, Reply};

/// A call of a run, with what its own steps show, the oldest first.
#[derive(Debug, Drop)]
pub(crate) struct CheckedCall {
    pub number: u32,
    pub op: Op,
    pub server: usize,
    pub answer: Option<Reply>,
    pub steps: Vec<Effect>,
}

/// Where a call takes effect, by those of its steps that were judged so far.
#[derive(Clone, Copy, Debug, PartialEq, Eq)]
enum PointSoFar {
    /// All steps are quiet; at this one the call takes effect last, if it does at any.
    Quiet(Option<u64>),
    /// Some step isn't quiet. If it is the only one and the call takes effect there, this is it.
    Changed(Option<u64>),
}

/// Where a call takes effect, if it is legal.
pub(crate) fn point_of(call: &CheckedCall) -> Option<Point>
    ensures { (s : Settings) → (of : RunCall) → IsCallKept s of call.now → Judges s of result }
{
    let mut so_far = PointSoFar::Quiet(None);
    for effect in &call.steps {
        so_far = so_far.with(is_effect(call.answer, effect.gives), *effect);
    }
    point_by(call.answer, so_far)
}

/// Whether a call with this answer can take effect at a step with this effect. An open call may
/// still get any answer.
fn is_effect(answer: Option<Reply>, effect: Option<Reply>) -> bool
    ensures { (result ≡ true) ↔ MayTakeEffect answer effect }
{
    match answer {
        Some(_) => effect == answer,
        None => effect.is_some(),
    }
}

fn point_by(answer: Option<Reply>, so_far: PointSoFar) -> Option<Point>
    ensures { PointsCalls answer so_far result }
{
    let Some(reply) = answer else {
        return open(so_far);
    };
    match reply {
        Reply::Contended => contended(so_far),
        _ => answered(so_far),
    }
}

fn contended(so_far: PointSoFar) -> Option<Point>
    ensures { PointsCalls (Some Reply.Contended) so_far result }
{
    match so_far {
        PointSoFar::Quiet(_) => Some(Point::Contended),
        PointSoFar::Changed(_) => None,
    }
}

fn answered(so_far: PointSoFar) -> Option<Point>
    ensures { (reply : Reply) → reply ≢ Reply.Contended → PointsCalls (Some reply) so_far result }
{
    match so_far {
        PointSoFar::Quiet(Some(at)) => Some(Point::At(at)),
        PointSoFar::Changed(Some(at)) => Some(Point::At(at)),
        PointSoFar::Quiet(None) => None,
        PointSoFar::Changed(None) => None,
    }
}

fn open(so_far: PointSoFar) -> Option<Point>
    ensures { PointsCalls None so_far result }
{
    match so_far {
        PointSoFar::Quiet(_) => Some(Point::Open),
        PointSoFar::Changed(Some(_)) => Some(Point::Open),
        PointSoFar::Changed(None) => None,
    }
}

impl PointSoFar {
    /// After one more step, which is newer.
    fn with(self, takes_effect: bool, effect: Effect) -> PointSoFar
        ensures { (s : Settings) (of : RunCall) (own : OwnStep) (older : List OwnStep) →
            IsEffect s of own effect → ((takes_effect ≡ true) ↔ IsEffective s of own) →
            IsSoFar s of older self → IsSoFar s of (own ∷ older) result }
    {
        match (self, effect.is_quiet, takes_effect) {
            (PointSoFar::Quiet(_), true, true) => PointSoFar::Quiet(Some(effect.at)),
            (PointSoFar::Quiet(before), true, false) => PointSoFar::Quiet(before),
            (PointSoFar::Quiet(_), false, true) => PointSoFar::Changed(Some(effect.at)),
            (PointSoFar::Quiet(_), false, false) => PointSoFar::Changed(None),
            (PointSoFar::Changed(at), true, _) => PointSoFar::Changed(at),
            (PointSoFar::Changed(_), false, _) => PointSoFar::Changed(None),
        }
    }
}
