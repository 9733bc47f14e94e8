//! Numbers of a page that have words.
ghost use Rattle.std.specs.Prelude.{◌≡◌, ◌++◌, IfOk, OnOk, map, flat_map};
ghost use Rattle.tko_metrics.specs.Traffic.{HasWords, IsOfCommands, IsOfRefusals, command_word, refusal_word};
ghost use Rattle.tko_metrics.specs.Samples.{word_sample, words_text};

use crate::command::Command;
use crate::meter::SharedMeter;
use crate::metrics::Metric;
use crate::refusal::Refusal;
use crate::sample::{add_of_word, begin};
use std::alloc::{AllocError, Global};
use tko_bytes::NoMemory;

/// A number of a page, and the value of the label that tells it from others of its metric.
#[derive(Clone, Copy, Debug)]
pub(crate) struct Worded {
    pub(crate) word: &'static str,
    pub(crate) number: u64,
}

impl Worded {
    /// How often each command was read.
    pub(crate) fn of_commands(
        alloc: Global,
        shared: &SharedMeter,
    ) -> Result<Vec<Worded>, AllocError>
        ensures { IfOk result (λ numbers. IsOfCommands numbers.items) }
    {
        commands_of(alloc, shared, &Command::ALL)
    }

    /// How often something was refused for each reason.
    pub(crate) fn of_refusals(
        alloc: Global,
        shared: &SharedMeter,
    ) -> Result<Vec<Worded>, AllocError>
        ensures { IfOk result (λ numbers. IsOfRefusals numbers.items) }
    {
        refusals_of(alloc, shared, &Refusal::ALL)
    }
}

fn commands_of(
    alloc: Global,
    shared: &SharedMeter,
    commands: &[Command],
) -> Result<Vec<Worded>, AllocError>
    ensures { IfOk result (λ numbers.
        HasWords (map command_word commands.now) numbers.items) }
{
    let mut numbers = Vec::new(alloc);
    for (at, command) in commands.iter().enumerate() {
        let (word, number) = (command.word(), read_commands(shared, command.place()));
        numbers.push(Worded { word, number })?;
    }
    Ok(numbers)
}

fn refusals_of(
    alloc: Global,
    shared: &SharedMeter,
    refusals: &[Refusal],
) -> Result<Vec<Worded>, AllocError>
    ensures { IfOk result (λ numbers.
        HasWords (map refusal_word refusals.now) numbers.items) }
{
    let mut numbers = Vec::new(alloc);
    for (at, refusal) in refusals.iter().enumerate() {
        let (word, number) = (refusal.word(), read_refusals(shared, refusal.place()));
        numbers.push(Worded { word, number })?;
    }
    Ok(numbers)
}

/// How often all workers together read the command at this place.
fn read_commands(shared: &SharedMeter, place: usize) -> u64 {
    let mut sum = 0u64;
    for worker in shared.workers.iter() {
        sum = sum.saturating_add(worker.commands.get(place));
    }
    sum
}

/// How often all workers together refused something for the reason at this place.
fn read_refusals(shared: &SharedMeter, place: usize) -> u64 {
    let mut sum = 0u64;
    for worker in shared.workers.iter() {
        sum = sum.saturating_add(worker.refusals.get(place));
    }
    sum
}

/// Appends the numbers of a metric, each with its word as the value of this label.
#[tactic(auto, unfolding(crate::specs::Samples::words_text))]
pub(crate) fn add_words(
    out: &mut Vec<u8>,
    metric: Metric,
    label: &[u8],
    numbers: &[Worded],
) -> Result<(), NoMemory>
    ensures { OnOk result
        (out.new.items ≡ out.old.items ++ words_text metric label.now numbers.now) }
{
    begin(out, metric)?;
    for it in numbers {
        add_of_word(out, metric, label, it.word, it.number)?;
    }
    Ok(())
}
