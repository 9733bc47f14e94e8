//! Playing a schedule.
ghost use Rattle.std.specs.Prelude.{◌≡◌, List, IfOk};
ghost use Rattle.tko_runs.specs.Orders.{IsLegalRun};
ghost use Rattle.tko_runs.specs.Plays.{RunsToAnswers, named_by, played};
ghost use Rattle.tko_runs.specs.Runs.{events_of};
ghost use Rattle.tko_steps.specs.Runs.{Turn};
ghost use Rattle.tko_steps.specs.Runs as runs;

mod player;

use crate::playing::player::Player;
use crate::{Run, Schedule};
use std::alloc::Global;
use tko_bytes::NoMemory;
use tko_steps::every_run;

/// The run that a schedule names: all threads enrol, in the order of their places, and then do each
/// line.
pub fn play(alloc: Global, schedule: &Schedule) -> Result<Run, NoMemory>
    ensures named { IfOk result (λ run. run ≡ named_by schedule.now) }
    // by which the law of every run covers it
    ensures turns { IfOk result (λ run.
        (turns : List Turn) × (run.events ≡ events_of (runs.run run.settings turns).past)) }
    ensures legal { IfOk result IsLegalRun }
    ensures answered { IfOk result (λ run. RunsToAnswers schedule.now) }
{
    let player = all_followed(alloc, schedule)?;
    // This runs no code. Its contract, the law of every call, shows that this is a legal run.
    every_run();
    let settings = schedule.settings().try_clone(alloc)?;
    Ok(player.finish(schedule.version(), settings))
}

fn all_followed(alloc: Global, schedule: &Schedule) -> Result<Player, NoMemory>
    ensures { IfOk result (λ player. player ≡ played schedule.now) }
{
    let mut player = Player::open(alloc, schedule.settings())?;
    for command in schedule.commands() {
        player.follow(command)?;
    }
    Ok(player)
}
