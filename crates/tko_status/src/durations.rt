//! Times and rates as people read them.
ghost use Rattle.std.specs.Prelude.{◌≡◌, ◌++◌, OnOk};
ghost use Rattle.tko_status.specs.Durations.{bound_text, duration_text, fraction_text, pair_text, rate_text, seconds_in_words, tenths_text, thousandths_text, wait_text};

use tko_bytes::{NoMemory, append};
use tko_metrics::add_digits;

/// The milliseconds of a second, and the microseconds of a millisecond.
const THOUSAND: u64 = 1_000;

/// The microseconds of a second.
const SECOND_MICROS: u64 = 1_000_000;

/// The milliseconds of a tenth of a second.
const TENTH: u64 = 100;

/// The seconds of a minute.
const MINUTE: u64 = 60;

/// The seconds of an hour.
const HOUR: u64 = 3_600;

/// The seconds of a day.
const DAY: u64 = 86_400;

/// How many tenths a second a number in a millisecond is.
const TENTHS: u64 = 10_000;

/// Appends how long these milliseconds are, in its two greatest units.
pub(crate) fn add_duration(out: &mut Vec<u8>, milliseconds: u64) -> Result<(), NoMemory>
    ensures { OnOk result (out.new.items ≡ out.old.items ++ duration_text milliseconds) }
{
    add_seconds(out, milliseconds / THOUSAND)
}

fn add_seconds(out: &mut Vec<u8>, seconds: u64) -> Result<(), NoMemory>
    ensures { OnOk result (out.new.items ≡ out.old.items ++ seconds_in_words seconds) }
{
    if seconds < MINUTE {
        add_digits(out, seconds)?;
        append(out, &[b" s"])
    } else if seconds < HOUR {
        add_pair(out, seconds / MINUTE, b" min ", seconds % MINUTE, b" s")
    } else if seconds < DAY {
        add_pair(
            out,
            seconds / HOUR,
            b" h ",
            seconds % HOUR / MINUTE,
            b" min",
        )
    } else {
        add_pair(out, seconds / DAY, b" d ", seconds % DAY / HOUR, b" h")
    }
}

/// Appends how long it is until a moment that comes in so many milliseconds.
pub(crate) fn add_wait(out: &mut Vec<u8>, milliseconds: u64) -> Result<(), NoMemory>
    ensures { OnOk result (out.new.items ≡ out.old.items ++ wait_text milliseconds) }
{
    if milliseconds < TENTH {
        return append(out, &[b"now"]);
    }
    append(out, &[b"in "])?;
    if milliseconds < MINUTE * THOUSAND {
        add_tenths(out, milliseconds / TENTH)?;
        append(out, &[b" s"])
    } else {
        add_duration(out, milliseconds)
    }
}

/// Appends two numbers, each with its unit behind it.
#[tactic(auto, unfolding(crate::specs::Durations::pair_text))]
fn add_pair(
    out: &mut Vec<u8>,
    great: u64,
    unit: &[u8],
    small: u64,
    small_unit: &[u8],
) -> Result<(), NoMemory>
    ensures { OnOk result
        (out.new.items ≡ out.old.items ++ pair_text great unit.now small small_unit.now) }
{
    add_digits(out, great)?;
    append(out, &[unit])?;
    add_digits(out, small)?;
    append(out, &[small_unit])
}

/// Appends a bound in microseconds, as milliseconds or as seconds.
pub(crate) fn add_bound(out: &mut Vec<u8>, micros: u64) -> Result<(), NoMemory>
    ensures { OnOk result (out.new.items ≡ out.old.items ++ bound_text micros) }
{
    if micros < SECOND_MICROS {
        add_thousandths(out, micros)?;
        append(out, &[b" ms"])
    } else {
        add_thousandths(out, micros / THOUSAND)?;
        append(out, &[b" s"])
    }
}

/// Appends a number of thousandths.
#[tactic(auto, unfolding(crate::specs::Durations::thousandths_text))]
fn add_thousandths(out: &mut Vec<u8>, number: u64) -> Result<(), NoMemory>
    ensures { OnOk result (out.new.items ≡ out.old.items ++ thousandths_text number) }
{
    add_digits(out, number / THOUSAND)?;
    add_fraction(out, number % THOUSAND)
}

/// Appends thousandths below 1,000 behind the point, without zeros at the end.
fn add_fraction(out: &mut Vec<u8>, number: u64) -> Result<(), NoMemory>
    ensures { OnOk result (out.new.items ≡ out.old.items ++ fraction_text number) }
{
    if number == 0 {
        return Ok(());
    }
    append(out, &[b"."])?;
    add_digits(out, number / 100)?;
    if number % 100 == 0 {
        return Ok(());
    }
    add_digits(out, number / 10 % 10)?;
    if number % 10 == 0 {
        return Ok(());
    }
    add_digits(out, number % 10)
}

/// Appends how many a second so many in these milliseconds are.
pub(crate) fn add_rate(out: &mut Vec<u8>, count: u64, milliseconds: u64) -> Result<(), NoMemory>
    ensures { OnOk result (out.new.items ≡ out.old.items ++ rate_text count milliseconds) }
{
    if milliseconds == 0 {
        return append(out, &[b"not known yet"]);
    }
    let tenths = count
        .saturating_mul(TENTHS)
        .saturating_add(milliseconds / 2)
        / milliseconds;
    add_tenths(out, tenths)
}

/// Appends a number of tenths.
#[tactic(auto, unfolding(crate::specs::Durations::tenths_text))]
fn add_tenths(out: &mut Vec<u8>, number: u64) -> Result<(), NoMemory>
    ensures { OnOk result (out.new.items ≡ out.old.items ++ tenths_text number) }
{
    add_digits(out, number / 10)?;
    append(out, &[b"."])?;
    add_digits(out, number % 10)
}
