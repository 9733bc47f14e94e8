//! A ledger's book, and the shares of it.
ghost use Rattle.std.specs.Prelude.{◌≡◌, ◌↔◌, IfErr, IfOk, IsErrOf, OnErr, OnOk};
ghost use Rattle.tko_desk.specs.Ledger.{IsAdded, IsFull, IsLedgerOpened, IsTooMany, fresh_shares};

use std::alloc::Global;
use tko_bytes::NoMemory;
use tko_model::{Counts, Kind};

/// The totals of a ledger. Its name tells its shares from those of another ledger.
#[derive(Debug, Drop, PartialEq, Eq)]
pub struct Book {
    pub(crate) name: u64,
    pub(crate) shares: u32,
    pub(crate) totals: Counts,
}

/// What one worker counted: the share of one place, in a ledger of this name.
#[derive(Debug, Drop, PartialEq, Eq)]
pub struct Share {
    pub(crate) name: u64,
    pub(crate) place: u32,
    pub(crate) counts: Counts,
}

/// The book or the share would come to more than 2^64 - 1 of this kind, and counts no more of it.
#[derive(Clone, Copy, Debug, PartialEq, Eq)]
pub struct LedgerFull {
    pub kind: Kind,
}

impl Book {
    /// A ledger with `shares` shares, of the places from 0 on, in order.
    pub fn open(alloc: Global, name: u64, shares: u32) -> Result<(Book, Vec<Share>), NoMemory>
        ensures { IfOk result (λ opened. IsLedgerOpened name shares opened.0 opened.1.items) }
    {
        let totals = Counts::new();
        let list = Share::list(alloc, name, shares)?;
        let book = Book {
            name,
            shares,
            totals,
        };
        Ok((book, list))
    }

    /// Counts one more of a kind, in the book and in the share.
    pub fn add(&mut self, share: &mut Share, kind: Kind) -> Result<(), LedgerFull>
        ensures ok { OnOk result (IsAdded kind 1 self.old share.old self.new share.new) }
        ensures full { IsErrOf result (record { kind = kind }) ↔ IsFull kind self.old share.old }
        ensures err { OnErr result ((self.new ≡ self.old) × (share.new ≡ share.old)) }
        ensures kind { IfErr result (λ full. full.kind ≡ kind) }
    {
        if self.totals.of(kind) == u64::MAX || share.counts.of(kind) == u64::MAX {
            return Err(LedgerFull { kind });
        }
        self.add_many(share, kind, 1)
    }

    /// Counts `by` more of a kind, in the book and in the share: all of them, or none.
    pub fn add_many(&mut self, share: &mut Share, kind: Kind, by: u64) -> Result<(), LedgerFull>
        ensures ok { OnOk result (IsAdded kind by self.old share.old self.new share.new) }
        ensures full { IsErrOf result (record { kind = kind })
            ↔ IsTooMany kind by self.old share.old }
        ensures err { OnErr result ((self.new ≡ self.old) × (share.new ≡ share.old)) }
        ensures kind { IfErr result (λ full. full.kind ≡ kind) }
    {
        let full = LedgerFull { kind };
        let totals = self.totals.checked_add(kind, by).ok_or(full)?;
        let counts = share.counts.checked_add(kind, by).ok_or(full)?;
        self.totals = totals;
        share.counts = counts;
        Ok(())
    }

    /// The totals until now.
    pub fn totals(&self) -> Counts
        ensures { result ≡ self.now.totals }
    {
        self.totals
    }
}

impl Share {
    /// The shares of a ledger, before anything was counted.
    fn list(alloc: Global, name: u64, shares: u32) -> Result<Vec<Share>, NoMemory>
        ensures { IfOk result (λ list. list.items ≡ fresh_shares name shares) }
    {
        let mut list = Vec::new(alloc);
        for place in 0..shares {
            let counts = Counts::new();
            list.push(Share {
                name,
                place,
                counts,
            })?;
        }
        Ok(list)
    }

    /// What this worker counted.
    pub fn counts(&self) -> Counts
        ensures { result ≡ self.now.counts }
    {
        self.counts
    }
}
