//! What a ledger comes to, once all its shares are back.
ghost use Rattle.std.specs.Prelude.{◌≡◌, ◌↔◌, ◌<◌, ℕ, All, IfErr, IfOk, IsOk, IsTrue, length};
ghost use Rattle.std.specs.List.{count_by};
ghost use Rattle.tko_model.specs.Numbers.{number_of_kind};
ghost use Rattle.tko_desk.specs.Ledger.{HasEachPlace, HasSums, IsWhole, is_at, sum_of};

use crate::{Book, Share};
use tko_model::{Counts, Kind};

/// What all workers counted.
#[derive(Clone, Copy, Debug, PartialEq, Eq)]
pub struct Totals {
    pub counts: Counts,
}

/// The totals of a book. It hands both back where these are not the book's shares, each once, whose
/// sums are its totals. Its time grows with the square of the number of shares.
pub fn gather(book: Book, shares: Vec<Share>) -> Result<Totals, (Book, Vec<Share>)>
    ensures whole { IsOk result ↔ IsWhole book shares.items }
    ensures totals { IfOk result (λ totals. totals.counts ≡ book.totals) }
    ensures back { IfErr result (λ back. back ≡ (book, shares)) }
{
    if is_whole(&book, &shares) {
        return Ok(Totals {
            counts: book.totals(),
        });
    }
    Err((book, shares))
}

/// Whether these are the shares of the book.
fn is_whole(book: &Book, shares: &[Share]) -> bool
    ensures { IsTrue result ↔ IsWhole book.now shares.now }
{
    are_named(book.name, shares)
        && are_as_many(book.shares, shares)
        && has_each_place(book.shares, shares)
        && has_sums(&book.totals, shares)
}

fn are_named(name: u64, shares: &[Share]) -> bool
    ensures { IsTrue result ↔ All (λ share. share.name ≡ name) shares.now }
{
    shares.iter().all(|share| share.name == name)
}

fn are_as_many(number: u32, shares: &[Share]) -> bool
    ensures { IsTrue result ↔ (length shares.now ≡ number) }
{
    shares.len() == number as usize
}

/// Whether each place below the number of shares has one.
#[tactic(auto, unfolding(crate::specs::Ledger::HasEachPlace))]
fn has_each_place(number: u32, shares: &[Share]) -> bool
    ensures { IsTrue result ↔ HasEachPlace number shares.now }
{
    for place in 0..number {
        if count_at(place, shares) != 1 {
            return false;
        }
    }
    true
}

/// How many shares have this place.
fn count_at(place: u32, shares: &[Share]) -> usize
    ensures { result ≡ count_by (is_at place) shares.now }
{
    shares.iter().filter(|share| share.place == place).count()
}

/// Whether the shares add up to these totals.
#[tactic(auto, unfolding(crate::specs::Ledger::HasSums))]
fn has_sums(totals: &Counts, shares: &[Share]) -> bool
    ensures { IsTrue result ↔ HasSums totals.now shares.now }
{
    is_sum(Kind::Request, totals, shares)
        && is_sum(Kind::Attempt, totals, shares)
        && is_sum(Kind::Skip, totals, shares)
        && is_sum(Kind::Reply, totals, shares)
        && is_sum(Kind::NoServer, totals, shares)
        && is_sum(Kind::Probe, totals, shares)
}

/// Whether the shares add up to the total of a kind.
fn is_sum(kind: Kind, totals: &Counts, shares: &[Share]) -> bool
    ensures { IsTrue result ↔ (sum_of kind shares.now ≡ number_of_kind kind totals.now) }
{
    let mut left = totals.of(kind);
    for share in shares {
        let Some(rest) = left.checked_sub(share.counts.of(kind)) else {
            return false;
        };
        left = rest;
    }
    left == 0
}
