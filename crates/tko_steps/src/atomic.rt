//! The core whose step is one load or one exchange on one word.
ghost use Rattle.std.specs.Prelude.{◌≡◌, ◌<◌, ◌↔◌, Some, OnOk, OnErr, IfOk, length};
ghost use Rattle.tko_model.specs.Ranges.{first_fault};

use crate::words::CoreWords;
use crate::{BeginFault, Call, Phase, Place, StepKind, Stepped, ThreadState, Word, next};
use std::alloc::Global;
use std::marker::Model;
use tko_model::{Op, OpenFault, Settings, SettingsFault};

/// The words that the threads share, and the state of each thread. Contracts see a `CoreState`.
#[derive(Drop)]
pub struct Core {
    settings: Settings,
    words: CoreWords,
    threads: Vec<ThreadState>,
}

impl Model for Core {
    ghost use Rattle.tko_steps.specs.Core.{CoreState};
    ghost use Rattle.tko_steps.specs.Invariant.{IsCore};

    ghost Value = { CoreState };

    ghost view = { λ c. record {
      settings = c.settings;
      shared = c.words;
      threads = c.threads.items;
    } };

    ghost invariant = { λ c. IsCore (record {
      settings = c.settings;
      shared = c.words;
      threads = c.threads.items;
    }) };
}

impl Core {
    ghost use Rattle.tko_steps.specs.Core.{after_act, after_begin, after_enrol, after_step, begin_fault, opened_core, thread_at, reported_by_act, reported_by_enrol, reported_by_step};
    ghost use Rattle.tko_steps.specs.Owners.{has_call};
    ghost use Rattle.tko_steps.specs.declared.phase.ThreadState.TheVariants as state;

    /// All servers are up, at the opening stamp, and no thread is enrolled.
    pub fn open(alloc: Global, settings: Settings) -> Result<Core, OpenFault>
        ensures ok { IfOk result (λ core. core ≡ opened_core settings) }
        ensures settings { (fault : SettingsFault) →
            (result ≡ Err (OpenFault.Settings fault)) ↔ (first_fault settings ≡ Some fault) }
    {
        if let Err(fault) = settings.check() {
            return Err(OpenFault::Settings(fault));
        }
        let words = CoreWords::open(alloc, &settings)?;
        let threads = vec![in alloc; ThreadState::NotEnrolled; settings.threads as usize]?;
        Ok(Core {
            settings,
            words,
            threads,
        })
    }

    /// Begins a call of a thread, which its steps then do.
    pub fn begin(&mut self, thread: usize, op: Op, server: usize) -> Result<(), BeginFault>
        ensures ok { OnOk result (self.new ≡ after_begin self.old thread op server) }
        ensures err { OnErr result (self.new ≡ self.old) }
        ensures fault { (fault : BeginFault) →
            (result ≡ Err fault) ↔ (begin_fault self.old thread server ≡ Some fault) }
    {
        if thread >= self.threads.len() {
            return Err(BeginFault::NoThread);
        }
        match self.threads[thread] {
            ThreadState::NotEnrolled => Err(BeginFault::NoThread),
            ThreadState::InCall { .. } => Err(BeginFault::Busy),
            ThreadState::Idle { .. } if server >= self.words.count() => Err(BeginFault::NoServer),
            ThreadState::Idle { number } => {
                let call = Call {
                    number,
                    op,
                    server,
                    lost: 0,
                };
                let phase = Phase::Start;
                self.threads[thread] = ThreadState::InCall { call, phase };
                Ok(())
            }
        }
    }

    /// Whether the thread is there and has a call.
    pub fn has_call(&self, thread: usize) -> bool
        ensures { result ≡ has_call (thread_at self.now thread) }
    {
        thread < self.threads.len() && matches!(self.threads[thread], ThreadState::InCall { .. })
    }

    /// One turn of a thread. The step of a thread that isn't enrolled is its enrolment.
    pub fn step(&mut self, thread: usize) -> Stepped
        ensures reported { result ≡ reported_by_step self.old thread }
        ensures state { self.new ≡ after_step self.old thread }
    {
        if thread >= self.threads.len() {
            return Stepped::NoThread;
        }
        match self.threads[thread] {
            ThreadState::NotEnrolled => self.enrol(thread),
            ThreadState::Idle { .. } => Stepped::Idle,
            ThreadState::InCall { call, phase } => self.act(thread, call, phase),
        }
    }

    fn enrol(&mut self, thread: usize) -> Stepped
        requires thread { thread < length self.old.threads }
        requires state { thread_at self.old thread ≡ state.NotEnrolled }
        ensures reported { result ≡ reported_by_enrol self.old }
        ensures state { self.new ≡ after_enrol self.old thread }
    {
        let number = self.words.enrol() as u32;
        self.threads[thread] = ThreadState::Idle { number };
        Stepped::Did {
            kind: StepKind::Enrol,
            place: Place::Enrolment,
            found: Word::Enrolled(number),
            left: Word::Enrolled(number + 1),
            won: true,
            answer: None,
        }
    }

    /// The one step that the call takes from its phase.
    fn act(&mut self, thread: usize, call: Call, phase: Phase) -> Stepped
        requires thread { thread < length self.old.threads }
        requires state { thread_at self.old thread ≡ state.InCall call phase }
        ensures reported { result ≡ reported_by_act self.old call phase }
        ensures state { self.new ≡ after_act self.old thread call phase }
    {
        let action = phase.action(&call);
        let place = action.place(&self.settings, call.server);
        let found = self.words.at(place);
        let seen = self.words.act(&self.settings, call.server, action);
        let following = next(&self.settings, &call, phase, seen);
        self.threads[thread] = following.state(&call);
        Stepped::Did {
            kind: action.kind(),
            place,
            found,
            left: self.words.at(place),
            won: seen.is_done(),
            answer: following.answer(),
        }
    }
}
