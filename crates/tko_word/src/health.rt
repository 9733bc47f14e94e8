//! The health word of a server.
//!
//! | Bits | Hold |
//! |---|---|
//! | 13 to 63 | the stamp |
//! | 12 | 1 where the server is marked |
//! | 0 to 11, unmarked | the count of soft failures in a row |
//! | 1 to 11, marked | the number of the thread that marked it |
//! | 0, marked | 1 where the mark is hard |
ghost use Rattle.std.specs.Prelude.{◌≡◌, ◌<◌, ◌^◌, ◌↔◌, true};
ghost use Rattle.tko_model.specs.declared.layout.Layout.TheVariants as layout;
ghost use Rattle.tko_word.specs.Words.{IsMark, IsMarkIn, IsMarkOf, IsWord, IsWordIn, body_of, body_size, health_word, mark_in, marked, server_in, stamp_end};

use tko_model::{Layout, Mark, Settings};

/// Every stamp of a word is below this.
pub const STAMP_END: u64 = 1 << 51;

const BODY_BITS: u32 = 13;

const BODY_MASK: u64 = (1 << BODY_BITS) - 1;

const MARKED: u64 = 1 << 12;

const THREAD_SHIFT: u32 = 1;

const HARD: u64 = 1;

/// The word of a server with this mark and this stamp.
pub fn pack(mark: Mark, stamp: u64) -> u64
    requires mark { IsMark mark }
    requires stamp { stamp < stamp_end }
    ensures word { result ≡ health_word mark stamp }
    ensures valid { IsWord result }
    ensures back { server_in result ≡ record { mark = mark; stamp = stamp } }
{
    (stamp << BODY_BITS) | body(mark)
}

/// The mark and the stamp that a word holds.
pub fn unpack(word: u64) -> (Mark, u64)
    requires { IsWord word }
    ensures word { health_word result.0 result.1 ≡ word }
    ensures mark { IsMark result.0 }
    ensures stamp { result.1 < stamp_end }
    ensures read { server_in word ≡ record { mark = result.0; stamp = result.1 } }
{
    (mark_of(word & BODY_MASK), word >> BODY_BITS)
}

/// Whether this is the word of some stamp and a mark that the settings and the second layout allow.
pub fn is_word(word: u64, settings: &Settings) -> bool
    ensures { (result ≡ true) ↔ IsWordIn layout.Two settings.now word }
{
    is_word_in(word, settings, Layout::Two)
}

/// Whether this is the word of some stamp and a mark that the settings and the layout allow.
pub fn is_word_in(word: u64, settings: &Settings, layout: Layout) -> bool
    ensures { (result ≡ true) ↔ IsWordIn layout settings.now word }
{
    is_body(word & BODY_MASK, settings, layout)
}

fn body(mark: Mark) -> u64
    requires { IsMark mark }
    ensures value { result ≡ body_of mark }
    ensures below { result < body_size }
{
    match mark {
        Mark::Up(count) => count as u64,
        Mark::Soft(thread) => MARKED + ((thread as u64) << THREAD_SHIFT),
        Mark::Hard(thread) => MARKED + ((thread as u64) << THREAD_SHIFT) + HARD,
    }
}

fn mark_of(body: u64) -> Mark
    requires { body < body_size }
    ensures { result ≡ mark_in body }
{
    if body < MARKED {
        return Mark::Up(body as u32);
    }
    let thread = ((body - MARKED) >> THREAD_SHIFT) as u32;
    if (body - MARKED) & HARD == 0 {
        Mark::Soft(thread)
    } else {
        Mark::Hard(thread)
    }
}

/// Whether the settings and the layout allow the mark that this body stands for.
fn is_body(body: u64, settings: &Settings, layout: Layout) -> bool
    requires { body < body_size }
    ensures { (result ≡ true)
        ↔ (IsMarkOf settings.now (mark_in body) × IsMarkIn layout (mark_in body)) }
{
    if body < MARKED {
        body < settings.failures.min(layout.max_failures()) as u64
    } else {
        (body - MARKED) >> THREAD_SHIFT < settings.threads.min(layout.max_threads()) as u64
    }
}
