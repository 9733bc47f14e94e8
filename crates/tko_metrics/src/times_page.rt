//! Times as samples of a page.
ghost use Rattle.std.specs.Prelude.{◌≡◌, ◌++◌, OnOk, option_map};
ghost use Rattle.tko_metrics.specs.TimesTexts.{bucket_front, bucket_sample, buckets_text, count_sample, label_behind, only_label, sum_sample, times_text};

use crate::metrics::Metric;
use crate::sample::{add_digits, add_label_text, add_micros};
use crate::times_reading::{Bucket, TimesReading};
use tko_bytes::{NoMemory, append};

/// Appends how often something took how long, for the server of this address or for none.
#[tactic(auto, unfolding(crate::specs::TimesTexts::times_text))]
pub(crate) fn add_times(
    out: &mut Vec<u8>,
    metric: Metric,
    address: Option<&str>,
    times: &TimesReading,
) -> Result<(), NoMemory>
    ensures { OnOk result (out.new.items ≡ out.old.items
        ++ times_text metric (option_map (λ text. text.now) address.entry) times.now) }
{
    add_buckets(out, metric, address, &times.buckets)?;
    add_sum(out, metric, address, times.sum)?;
    add_count(out, metric, address, times.count)
}

fn add_buckets(
    out: &mut Vec<u8>,
    metric: Metric,
    address: Option<&str>,
    buckets: &[Bucket],
) -> Result<(), NoMemory>
    ensures { OnOk result (out.new.items ≡ out.old.items
        ++ buckets_text metric (option_map (λ text. text.now) address.entry) buckets.now) }
{
    for bucket in buckets {
        add_bucket(out, metric, address, *bucket)?;
    }
    Ok(())
}

#[tactic(auto, unfolding(crate::specs::TimesTexts::bucket_sample))]
fn add_bucket(
    out: &mut Vec<u8>,
    metric: Metric,
    address: Option<&str>,
    bucket: Bucket,
) -> Result<(), NoMemory>
    ensures { OnOk result (out.new.items ≡ out.old.items
        ++ bucket_sample metric (option_map (λ text. text.now) address.entry) bucket) }
{
    begin_bucket(out, metric, bucket.bound)?;
    add_label_behind(out, address)?;
    append(out, &[b"} "])?;
    add_digits(out, bucket.count)?;
    append(out, &[b"\n"])
}

/// Appends a sample of a bucket up to the end of its bound.
#[tactic(auto, unfolding(crate::specs::TimesTexts::bucket_front))]
fn begin_bucket(out: &mut Vec<u8>, metric: Metric, bound: &str) -> Result<(), NoMemory>
    ensures { OnOk result (out.new.items ≡ out.old.items ++ bucket_front metric bound.now) }
{
    append(out, &[metric.name().as_bytes(), b"_bucket{le=\""])?;
    append(out, &[bound.as_bytes(), b"\""])
}

#[tactic(auto, unfolding(crate::specs::TimesTexts::sum_sample))]
fn add_sum(
    out: &mut Vec<u8>,
    metric: Metric,
    address: Option<&str>,
    sum: u64,
) -> Result<(), NoMemory>
    ensures { OnOk result (out.new.items ≡ out.old.items
        ++ sum_sample metric (option_map (λ text. text.now) address.entry) sum) }
{
    append(out, &[metric.name().as_bytes(), b"_sum"])?;
    add_only_label(out, address)?;
    append(out, &[b" "])?;
    add_micros(out, sum)?;
    append(out, &[b"\n"])
}

#[tactic(auto, unfolding(crate::specs::TimesTexts::count_sample))]
fn add_count(
    out: &mut Vec<u8>,
    metric: Metric,
    address: Option<&str>,
    count: u64,
) -> Result<(), NoMemory>
    ensures { OnOk result (out.new.items ≡ out.old.items
        ++ count_sample metric (option_map (λ text. text.now) address.entry) count) }
{
    append(out, &[metric.name().as_bytes(), b"_count"])?;
    add_only_label(out, address)?;
    append(out, &[b" "])?;
    add_digits(out, count)?;
    append(out, &[b"\n"])
}

/// Appends an address as a label behind another one, if there is one.
fn add_label_behind(out: &mut Vec<u8>, address: Option<&str>) -> Result<(), NoMemory>
    ensures { OnOk result (out.new.items
        ≡ out.old.items ++ label_behind (option_map (λ text. text.now) address.entry)) }
{
    let Some(address) = address else {
        return Ok(());
    };
    append(out, &[b",server=\""])?;
    add_label_text(out, address)?;
    append(out, &[b"\""])
}

/// Appends an address as the only label, if there is one.
fn add_only_label(out: &mut Vec<u8>, address: Option<&str>) -> Result<(), NoMemory>
    ensures { OnOk result (out.new.items
        ≡ out.old.items ++ only_label (option_map (λ text. text.now) address.entry)) }
{
    let Some(address) = address else {
        return Ok(());
    };
    append(out, &[b"{server=\""])?;
    add_label_text(out, address)?;
    append(out, &[b"\"}"])
}
