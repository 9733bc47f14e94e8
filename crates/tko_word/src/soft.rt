//! The soft word.
//!
//! | Bits | Hold |
//! |---|---|
//! | 0 to 31 | *firm*: how many soft marks are settled |
//! | 32 to 63 | *held*: how many slots for one more are in the hands of calls under way |
ghost use Rattle.std.specs.Prelude.{◌≡◌};
ghost use Rattle.tko_word.specs.Words.{firm_in, held_in, soft_word};

const HELD_SHIFT: u32 = 32;

const FIRM_MASK: u64 = (1 << HELD_SHIFT) - 1;

/// One held slot, as the soft word counts it.
pub const ONE_SLOT: u64 = 1 << HELD_SHIFT;

/// What a held slot counts more than a settled mark.
pub const SLOT_OVER_MARK: u64 = ONE_SLOT - 1;

/// The soft word of these two counts.
#[tactic(auto, unfolding(crate::specs::Words::firm_in, crate::specs::Words::held_in))]
pub fn pack_soft(firm: u32, held: u32) -> u64
    ensures word { result ≡ soft_word firm held }
    ensures firm { firm_in result ≡ firm }
    ensures held { held_in result ≡ held }
{
    ((held as u64) << HELD_SHIFT) | firm as u64
}

/// The two counts that a soft word holds: firm, and held. Each word has one reading.
#[tactic(auto, unfolding(crate::specs::Words::firm_in, crate::specs::Words::held_in))]
pub fn unpack_soft(word: u64) -> (u32, u32)
    ensures word { soft_word result.0 result.1 ≡ word }
    ensures firm { result.0 ≡ firm_in word }
    ensures held { result.1 ≡ held_in word }
{
    ((word & FIRM_MASK) as u32, (word >> HELD_SHIFT) as u32)
}
