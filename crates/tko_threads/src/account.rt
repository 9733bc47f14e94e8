//! A worker's account with the ledger of all workers.
ghost use Rattle.std.specs.Prelude.{◌≡◌, ◌↔◌, ◌||◌, Bool, IsTrue, IsFalse, false};
ghost use Rattle.tko_model.specs.Numbers.{number_of_kind};
ghost use Rattle.tko_desk.specs.Ledger.{IsAdded, IsTooMany};
ghost use Rattle.tko_model.specs.Records.{Gains};
ghost use Rattle.tko_threads.specs.Accounts.{AreCounted, IsCounted, IsGiven, ledger};

use std::sync::{Mutex, Wait};
use tko_desk::{Book, Share};
use tko_model::{Counts, Kind};

/// The share of one worker, and the book that all workers share.
#[derive(Drop)]
pub struct Account<'a> {
    pub book: &'a Mutex<Book>,
    pub share: &'a mut Share,
}

impl Account<'_> {
    /// Adds what was counted to the book and to the share. Returns whether the ledger was full for
    /// a kind; of that kind nothing is added.
    pub fn add<R: Wait>(&mut self, rt: &R, counts: &Counts) -> bool
        ensures given { IsGiven counts.now self.old.share.now result self.new.share.now }
    {
        let mut book = self.book.lock(rt);
        add_counts(&mut book, self.share, counts)
    }
}

/// Adds the number of each kind, and returns whether the ledger was full for one.
fn add_counts(book: &mut Book, share: &mut Share, counts: &Counts) -> bool
    ensures counted { AreCounted counts.now
        (ledger book.old share.old false) (ledger book.new share.new result) }
{
    add_kinds(book, share, counts, &Kind::ALL)
}

/// Adds the number of each of these kinds, and returns whether the ledger was full for one.
fn add_kinds(book: &mut Book, share: &mut Share, counts: &Counts, kinds: &[Kind]) -> bool
    ensures counted { Gains (IsCounted counts.now) (ledger book.old share.old false) kinds.now
        (ledger book.new share.new result) }
{
    let mut full = false;
    for kind in kinds {
        full |= add_kind(book, share, counts, *kind);
    }
    full
}

/// Adds the number of a kind, and returns whether the ledger was full for it.
fn add_kind(book: &mut Book, share: &mut Share, counts: &Counts, kind: Kind) -> bool
    ensures added { IsFalse result → IsAdded kind (number_of_kind kind counts.now)
        book.old share.old book.new share.new }
    ensures full { IsTrue result
        ↔ IsTooMany kind (number_of_kind kind counts.now) book.old share.old }
    ensures kept { IsTrue result → (book.new ≡ book.old) × (share.new ≡ share.old) }
    ensures counted { (full : Bool) → IsCounted counts.now (ledger book.old share.old full) kind
        (ledger book.new share.new (full || result)) }
{
    book.add_many(share, kind, counts.of(kind)).is_err()
}
