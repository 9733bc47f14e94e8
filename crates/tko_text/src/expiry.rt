//! Expiries.
ghost use Rattle.std.specs.Prelude.{◌≡◌, ◌≤◌, neg_ℤ, pos};
ghost use Rattle.tko_text.specs.Limits.{negative_expiry_limit};
ghost use Rattle.tko_text.specs.Numbers.{expiry_of};

use tko_bytes::number;

/// The greatest expiry.
const EXPIRY_LIMIT: u64 = 9_223_372_036_854_775_807;

/// The greatest number that a minus may precede.
const NEGATIVE_EXPIRY_LIMIT: u64 = 9_223_372_036_854_775_808;

/// The expiry that a word writes: a number that a minus may precede.
pub(crate) fn expiry_of(word: &[u8]) -> Option<i64>
    ensures { result ≡ expiry_of word.now }
{
    let (sign, digits) = word.split_first()?;
    if *sign == b'-' {
        return Some(negative(number(digits, NEGATIVE_EXPIRY_LIMIT)?));
    }
    Some(number(word, EXPIRY_LIMIT)? as i64)
}

/// The number below zero.
fn negative(amount: u64) -> i64
    requires { amount ≤ negative_expiry_limit }
    ensures { result ≡ neg_ℤ (pos amount) }
{
    if amount == 0 {
        return 0;
    }
    -((amount - 1) as i64) - 1
}
