//! A core that does the commands of a schedule, and what happened at each turn.
ghost use Rattle.std.specs.Prelude.{◌≡◌, IfOk, OnOk, replicate};
ghost use Rattle.tko_model.specs.Ranges.{IsWithinRanges};
ghost use Rattle.tko_runs.specs.States.{IsRunData};
ghost use Rattle.tko_runs.specs.Plays.{after_all_turns, after_command, after_turn, enrolled, run_data_of, with_event, with_skips};
ghost use Rattle.tko_steps.specs.Runs.{Begin, Step};

use crate::run::SkippedTurns;
use crate::schedule::command::MAX_STEPS;
use crate::{Command, Event, Run, SkippedTurn, Version};
use std::alloc::Global;
use std::marker::Model;
use tko_bytes::NoMemory;
use tko_model::{Op, OpenFault, Settings};
use tko_steps::{Core, Stepped};

/// The core, and the events and the skipped turns so far. Contracts see a `Played`.
#[derive(Drop)]
pub(crate) struct Player {
    core: Core,
    events: Vec<Event>,
    skips: Vec<SkippedTurns>,
}

impl Model for Player {
    ghost use Rattle.tko_runs.specs.Plays.{Played};
    ghost use Rattle.tko_runs.specs.Runs.{one_by_one};

    ghost Value = { Played };

    ghost view = { λ p. record {
      core = p.core;
      events = p.events.items;
      skips = one_by_one p.skips.items;
    } };
}

impl Player {
    /// All threads enrol, in the order of their places.
    pub fn open(alloc: Global, settings: &Settings) -> Result<Player, NoMemory>
        requires { IsWithinRanges settings.now }
        ensures { IfOk result (λ player. player ≡ enrolled settings.now) }
    {
        let own = settings.try_clone(alloc)?;
        let core = match Core::open(alloc, own) {
            Ok(core) => core,
            Err(OpenFault::Settings(_)) => unreachable!(),
            Err(OpenFault::Memory) => return Err(NoMemory),
        };
        let mut player = Player {
            core,
            events: Vec::new(alloc),
            skips: Vec::new(alloc),
        };
        for thread in 0..settings.threads as usize {
            player.steps(thread, 1)?;
        }
        Ok(player)
    }

    /// Does one line of a schedule.
    pub fn follow(&mut self, command: &Command) -> Result<(), NoMemory>
        ensures { OnOk result (self.new ≡ after_command self.old command.now) }
    {
        match *command {
            Command::Begin { thread, op, server } => self.begin(thread, op, server),
            Command::Step { thread, steps } => self.steps(thread, steps),
            Command::Run { thread } => self.run(thread),
        }
    }

    /// Begins a call, or keeps that the begin was refused.
    fn begin(&mut self, thread: usize, op: Op, server: usize) -> Result<(), NoMemory>
        ensures { OnOk result (self.new ≡ after_turn self.old (Begin thread op server)) }
    {
        match self.core.begin(thread, op, server) {
            Ok(()) => self.tell(Event::Begin { thread, op, server }),
            Err(fault) => {
                let turn = SkippedTurn::Refused {
                    thread,
                    op,
                    server,
                    fault,
                };
                self.skip(turn, 1)
            }
        }
    }

    /// So many steps of a thread. Once a step does nothing, neither does any later one, and one
    /// entry with a count stands for them all.
    fn steps(&mut self, thread: usize, steps: u64) -> Result<(), NoMemory>
        ensures { OnOk result (self.new
            ≡ after_all_turns self.old (replicate steps (Step thread))) }
    {
        for done in 0..steps {
            match self.core.step(thread) {
                Stepped::Did {
                    kind,
                    place,
                    found,
                    left,
                    answer,
                    ..
                } => {
                    self.tell(Event::Step {
                        thread,
                        kind,
                        place,
                        found,
                        left,
                        answer,
                    })?;
                }
                Stepped::Idle => return self.skip(SkippedTurn::Idle { thread }, steps - done),
                Stepped::NoThread => return self.skip(
                    SkippedTurn::NoThread { thread },
                    steps - done,
                ),
            }
        }
        Ok(())
    }

    /// Steps of a thread until its call is answered. No call takes more than `MAX_STEPS`.
    fn run(&mut self, thread: usize) -> Result<(), NoMemory>
        ensures { OnOk result (self.new ≡ after_command self.old (Command.Run thread)) }
    {
        for _ in 0..MAX_STEPS {
            if !self.core.has_call(thread) {
                return Ok(());
            }
            self.steps(thread, 1)?;
        }
        Ok(())
    }

    fn tell(&mut self, event: Event) -> Result<(), NoMemory>
        ensures { OnOk result (self.new ≡ with_event self.old event) }
    {
        self.events.push(event)?;
        Ok(())
    }

    /// Keeps a turn that was skipped `times` times after the events so far.
    fn skip(&mut self, turn: SkippedTurn, times: u64) -> Result<(), NoMemory>
        ensures { OnOk result (self.new ≡ with_skips self.old turn times) }
    {
        let skip = SkippedTurns {
            after: self.events.len(),
            turn,
            times,
        };
        self.skips.push(skip)?;
        Ok(())
    }

    /// The run of these events and skipped turns.
    pub fn finish(self, version: Version, settings: Settings) -> Run
        requires { IsRunData (run_data_of version settings self) }
        ensures { result ≡ run_data_of version settings self }
    {
        Run::new(version, settings, self.events, self.skips)
    }
}
