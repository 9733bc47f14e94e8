//! The laws of a step, of every run, and of a thread alone.
ghost use Rattle.std.specs.Prelude.{◌≢◌, ℕ, Some, All};
ghost use Rattle.tko_model.specs.Settings.{Settings};
ghost use Rattle.tko_model.specs.Tracker.{opened};
ghost use Rattle.tko_steps.specs.Alone.{InEveryRunAlone, IsIdleUnlessOf, ReplaysCalls};
ghost use Rattle.tko_steps.specs.Core.{IsOnOneWord, Shared, abstract_of};
ghost use Rattle.tko_steps.specs.Law.{AreSoundCalls, AreSoundSteps, IsSoundState};
ghost use Rattle.tko_steps.specs.Legal.{tracker_in};
ghost use Rattle.tko_steps.specs.Runs.{InEveryRun, calls_of};
ghost use Rattle.tko_steps.specs.declared.table.Action.{Action};

use tko_model::Reply;

/// A step changes the word that it is on alone, and leaves there what that word alone decides.
pub fn one_word_a_step()
    ensures { (s : Settings) (shared : Shared) (server : ℕ) (action : Action) →
        IsOnOneWord s shared server action }
{}

/// Over every list of turns, from the core as it opens under settings in range: each answered call
/// has the sequential tracker's reply and change at one of its own steps, or lost every try to
/// other threads and changed nothing; nothing but own steps of calls changes a mark, no two threads
/// are responsible for one server, and soft marks never exceed the limit of their group.
pub fn every_run()
    ensures calls { InEveryRun AreSoundCalls }
    ensures steps { InEveryRun AreSoundSteps }
    ensures state { InEveryRun IsSoundState }
{}

/// Over every list of turns in which one thread alone takes steps of calls: the sequential tracker,
/// as it opens under settings in range, does the thread's calls one after another with the same
/// replies, and no call lost every try. Other threads may have enrolled, and may have begun calls
/// that took no step.
pub fn one_thread_alone()
    ensures calls { InEveryRunAlone (λ s thread w. All (IsIdleUnlessOf thread) (calls_of w.past)) }
    ensures replies { InEveryRunAlone (λ s thread w.
        ReplaysCalls (opened s) (calls_of w.past) (tracker_in s (abstract_of w.core))) }
    ensures contended { InEveryRunAlone (λ s thread w.
        All (λ call. call.answer ≢ Some Reply.Contended) (calls_of w.past)) }
{}
