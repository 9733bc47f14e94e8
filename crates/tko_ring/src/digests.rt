//! How many digests a server has.
ghost use Rattle.std.specs.Prelude.{◌≡◌, ◌+◌, ◌*◌, ◌/◌, ◌^◌, ◌<◌, ◌≤◌};
ghost use Rattle.tko_ring.specs.Digests.{binary_digits, digests_of, nearest, rounded, scale_of};

/// The leading binary digits that a float of 32 bits has.
const FLOAT_DIGITS: u32 = 24;

/// The digests of a server without weights in the smallest pools.
const DIGESTS: u64 = 40;

/// How many digests a server of this weight has, of as many servers with this total of weights.
#[tactic(auto, unfolding(crate::specs::Digests::digests_of))]
pub(crate) fn digests_of(weight: u32, total: u32, servers: u32) -> u64
    requires weight { 0 < weight }
    requires within { weight ≤ total }
    requires total { total ≤ 2 ^ 24 }
    requires servers { servers ≤ 2 ^ 24 }
    ensures { result ≡ digests_of weight total servers }
{
    let one = scale_of(u64::from(weight), u64::from(total)) * (1 << 23);
    let share = nearest(u64::from(weight) * one, u64::from(total));
    rounded(rounded(DIGESTS * share) * u64::from(servers)) / one
}

/// The least power of two by which a weight comes to the total or above it.
#[tactic(auto, unfolding(crate::specs::Digests::scale_of))]
fn scale_of(weight: u64, total: u64) -> u64
    requires weight { 0 < weight }
    requires within { weight ≤ total }
    requires total { total ≤ 2 ^ 24 }
    ensures value { result ≡ scale_of weight total }
    ensures some { 0 < result }
    ensures fits { weight * result ≤ 2 * total + weight }
{
    1 << binary_digits((total - 1) / weight)
}

/// A number, rounded to as many leading binary digits as a float has.
#[tactic(auto, unfolding(crate::specs::Digests::rounded))]
fn rounded(x: u64) -> u64
    requires { x < 2 ^ 60 }
    ensures value { result ≡ rounded x }
    ensures near { result ≤ 3 * x + 1 }
{
    let unit = 1 << binary_digits(x).saturating_sub(FLOAT_DIGITS);
    nearest(x, unit) * unit
}

/// How many binary digits a number has.
fn binary_digits(x: u64) -> u32
    ensures value { result ≡ binary_digits x }
    ensures above { x < 2 ^ result }
    ensures least { 2 ^ result ≤ 2 * x + 1 }
    ensures bits { result ≤ 64 }
{
    u64::BITS - x.leading_zeros()
}

/// The whole number nearest to a quotient; the even one where two are as near.
fn nearest(x: u64, y: u64) -> u64
    requires some { 0 < y }
    requires small { y < 2 ^ 62 }
    ensures value { result ≡ nearest x y }
    ensures near { result ≤ x / y + 1 }
{
    let (low, rest) = (x / y, x % y);
    if 2 * rest > y || (2 * rest == y && low % 2 == 1) {
        low + 1
    } else {
        low
    }
}
