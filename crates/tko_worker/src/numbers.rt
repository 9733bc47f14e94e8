//! Numbers of clients that are to be served.
ghost use Rattle.std.specs.Prelude.{◌≡◌, ◌≢◌, ◌∷◌, ◌⊎◌, ℕ, [], IfNone, IfSome, OnErr, OnOk, length};
ghost use Rattle.std.specs.Prelude.{true};
ghost use Rattle.std.specs.Bool.{OnTrue};
ghost use Rattle.tko_worker.specs.Numbers.{IsAmong, IsIn, is_flagged};

use std::alloc::Global;
use std::collections::VecDeque;
use std::marker::Model;
use tko_bytes::NoMemory;

/// Numbers in the order in which they came, each once.
#[derive(Drop)]
pub(crate) struct Numbers {
    queue: VecDeque<usize>,
    /// Whether a number is among them. One that has no flag, for want of memory, may come twice.
    flags: Vec<bool>,
}

impl Model for Numbers {
    ghost use Rattle.std.specs.Prelude.{ℕ, List};
    ghost use Rattle.tko_worker.specs.Numbers.{AreFlagged};

    ghost Value = { List ℕ };

    ghost view = { λ n. n.queue.items };

    ghost invariant = { λ n. AreFlagged n.flags.items n.queue.items };
}

impl Numbers {
    /// No number.
    pub(crate) fn new(alloc: Global) -> Numbers
        ensures { result ≡ [] }
    {
        Numbers {
            queue: VecDeque::new(alloc),
            flags: Vec::new(alloc),
        }
    }

    /// How many there are.
    pub(crate) fn len(&self) -> usize
        ensures { result ≡ length self.now }
    {
        self.queue.len()
    }

    /// Whether a number is known to be among them.
    pub(crate) fn has(&self, number: usize) -> bool
        ensures { OnTrue result (IsIn number self.now) }
    {
        is_flagged(&self.flags, number)
    }

    /// Puts a number behind the others, unless it is among them.
    pub(crate) fn push(&mut self, number: usize) -> Result<(), NoMemory>
        ensures ok { OnOk result (IsAmong number self.old self.new) }
        ensures err { OnErr result (self.new ≡ self.old) }
    {
        if self.has(number) {
            return Ok(());
        }
        self.queue.push_back(number)?;
        flag(&mut self.flags, number);
        Ok(())
    }

    /// Takes the first one.
    pub(crate) fn pop(&mut self) -> Option<usize>
        ensures some { IfSome result (λ number. self.old ≡ number ∷ self.new) }
        ensures none { IfNone result (self.old ≡ []) }
        ensures kept { IfNone result (self.new ≡ self.old) }
    {
        let number = self.queue.pop_front()?;
        unflag(&mut self.flags, number);
        Some(number)
    }
}

/// Whether a number has a flag that is set.
fn is_flagged(flags: &Vec<bool>, number: usize) -> bool
    ensures { result ≡ is_flagged flags.now.items number }
{
    match flags.get(number) {
        Some(flag) => *flag,
        None => false,
    }
}

/// Sets the flag of a number. Numbers of clients are given from the lowest one up, so a new one has
/// the next flag.
fn flag(flags: &mut Vec<bool>, number: usize)
    ensures { (other : ℕ) → is_flagged flags.new.items other ≡ true
        → (other ≡ number) ⊎ (is_flagged flags.old.items other ≡ true) }
{
    if number < flags.len() {
        flags[number] = true;
    } else if number == flags.len() {
        let _ = flags.push(true);
    }
}

/// Clears the flag of a number.
fn unflag(flags: &mut Vec<bool>, number: usize)
    ensures { (other : ℕ) → is_flagged flags.new.items other ≡ true
        → (other ≢ number) × (is_flagged flags.old.items other ≡ true) }
{
    if number < flags.len() {
        flags[number] = false;
    }
}
