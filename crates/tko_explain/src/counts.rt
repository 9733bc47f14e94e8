//! How often each number was counted.
ghost use Rattle.std.specs.Prelude.{◌≡◌, ◌+◌, ◌<◌, ◌≤◌, ℕ, [], IfOk, OnOk, get_or, length, slice_index};
ghost use Rattle.tko_explain.specs.Counts.{AreCountedOnce, IsCountedAgain, IsCountedAgainAt};

use std::alloc::Global;
use std::marker::Model;
use tko_bytes::NoMemory;

/// How often each number was counted: in contracts the list of the counts, each at its number. A
/// number past its end was not counted.
#[derive(Drop)]
pub(crate) struct Counts {
    counts: Vec<usize>,
}

impl Model for Counts {
    ghost use Rattle.std.specs.Prelude.{List, ℕ};

    ghost Value = { List ℕ };

    ghost view = { λ c. c.counts.items };
}

impl Counts {
    pub(crate) fn new(alloc: Global) -> Counts
        ensures { result ≡ [] }
    {
        let counts = Vec::new(alloc);
        Counts { counts }
    }

    /// Counts a number once more.
    pub(crate) fn add(&mut self, number: usize) -> Result<(), NoMemory>
        ensures { OnOk result (IsCountedAgain number self.old self.new) }
    {
        reach(&mut self.counts, number)?;
        self.counts[number] = one_more(self.counts[number])?;
        Ok(())
    }

    /// How often a number was counted.
    pub(crate) fn of(&self, number: usize) -> usize
        ensures { result ≡ slice_index self.now number }
    {
        self.counts.get(number).copied().unwrap_or(0)
    }
}

/// Makes a list of counts long enough for a number.
fn reach(counts: &mut Vec<usize>, number: usize) -> Result<(), NoMemory>
    ensures long { OnOk result (number < length counts.new.items) }
    ensures same { OnOk result ((other : ℕ)
        → slice_index counts.new.items other ≡ slice_index counts.old.items other) }
{
    if number < counts.len() {
        return Ok(());
    }
    let length = one_more(number)?;
    counts.resize(length, 0)?;
    Ok(())
}

/// The number after this one. There is none after the greatest, which no count reaches before
/// memory would have run out.
pub(crate) fn one_more(number: usize) -> Result<usize, NoMemory>
    ensures { IfOk result (λ next. next ≡ number + 1) }
{
    match number.checked_add(1) {
        Some(next) => Ok(next),
        None => Err(NoMemory),
    }
}

/// Counts in each row the number at its place.
pub(crate) fn count_each(
    alloc: Global,
    rows: &mut Vec<Counts>,
    numbers: &[usize],
) -> Result<(), NoMemory>
    ensures { OnOk result (AreCountedOnce numbers.now rows.old.items rows.new.items) }
{
    for (place, number) in numbers.iter().enumerate() {
        count_at(alloc, rows, place, *number)?;
    }
    Ok(())
}

/// Counts a number in the row at this place, which may be the next one.
fn count_at(
    alloc: Global,
    rows: &mut Vec<Counts>,
    place: usize,
    number: usize,
) -> Result<(), NoMemory>
    requires { place ≤ length rows.old.items }
    ensures long { OnOk result (place < length rows.new.items) }
    ensures more { OnOk result (IsCountedAgainAt place number rows.old.items rows.new.items) }
{
    reach_row(alloc, rows, place)?;
    rows[place].add(number)?;
    Ok(())
}

/// Makes a row at this place, if there is none.
fn reach_row(alloc: Global, rows: &mut Vec<Counts>, place: usize) -> Result<(), NoMemory>
    requires { place ≤ length rows.old.items }
    ensures long { OnOk result (place < length rows.new.items) }
    ensures same { OnOk result ((other : ℕ)
        → get_or rows.new.items other [] ≡ get_or rows.old.items other []) }
{
    if place < rows.len() {
        return Ok(());
    }
    rows.push(Counts::new(alloc))?;
    Ok(())
}
