//! Where a worker began.

use std::marker::Brand;

/// Names where a worker's health began. Each worker picks it, at a call that passes `Brand`.
pub(crate) trait Origin<H> {
    /// What held of the health as the worker took its seat.
    ghost seated: { H → Type 0 };
}

impl<H> Origin<H> for Brand {
    ghost seated = { λ health. Unit {0} };
}

/// Names where a worker's account began, in the same way.
pub(crate) trait Opening {
    ghost use Rattle.tko_desk.specs.declared.book.Share.{Share};

    /// What held of its share then.
    ghost opened: { Share → Type 0 };
}

impl Opening for Brand {
    ghost opened = { λ share. Unit {0} };
}
