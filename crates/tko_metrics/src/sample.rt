//! The text format of Prometheus.
ghost use Rattle.std.specs.Prelude.{◌≡◌, ◌++◌, OnOk, decimal};
ghost use Rattle.tko_metrics.specs.Samples.{build_sample, escaped_byte, head_of, kind_sample, label_text, micros_text, moment_sample, part_sample, sample_front, seconds_text, server_sample, single, three_digits, word_sample, worker_sample};

use crate::build::Build;
use crate::metrics::Metric;
use crate::worker_meter::Ending;
use itoa::Buffer;
use tko_bytes::{NoMemory, append};

/// How many milliseconds a second has.
const SECOND: u64 = 1_000;

/// How many microseconds a second has.
const MICROS_IN_SECOND: u64 = 1_000_000;

/// Appends the lines before a metric's samples.
#[tactic(auto, unfolding(crate::specs::Samples::head_of))]
pub(crate) fn begin(out: &mut Vec<u8>, metric: Metric) -> Result<(), NoMemory>
    ensures { OnOk result (out.new.items ≡ out.old.items ++ head_of metric) }
{
    let (name, kind) = (metric.name().as_bytes(), metric.kind().word());
    append(
        out,
        &[b"# HELP ", name, b" ", metric.help().as_bytes(), b"\n"],
    )?;
    append(out, &[b"# TYPE ", name, b" ", kind.as_bytes(), b"\n"])
}

/// Appends a metric of one sample.
#[tactic(auto, unfolding(crate::specs::Samples::single))]
pub(crate) fn add_single(out: &mut Vec<u8>, metric: Metric, number: u64) -> Result<(), NoMemory>
    ensures { OnOk result (out.new.items ≡ out.old.items ++ single metric number) }
{
    let mut digits = Buffer::new();
    begin(out, metric)?;
    append(out, &[metric.name().as_bytes(), b" "])?;
    append(out, &[digits.format(number).as_bytes(), b"\n"])
}

/// Appends a sample that has a word as the value of this label.
#[tactic(auto, unfolding(crate::specs::Samples::word_sample))]
pub(crate) fn add_of_word(
    out: &mut Vec<u8>,
    metric: Metric,
    label: &[u8],
    word: &str,
    number: u64,
) -> Result<(), NoMemory>
    ensures { OnOk result (out.new.items
        ≡ out.old.items ++ word_sample metric label.now word.now number) }
{
    append(out, &[metric.name().as_bytes(), b"{"])?;
    append(out, &[label, b"=\""])?;
    append(out, &[word.as_bytes(), b"\"} "])?;
    add_digits(out, number)?;
    append(out, &[b"\n"])
}

/// Appends a sample of the sessions that ended by a kind of fault.
pub(crate) fn add_of_kind(
    out: &mut Vec<u8>,
    metric: Metric,
    ending: Ending,
    number: u64,
) -> Result<(), NoMemory>
    ensures { OnOk result (out.new.items ≡ out.old.items ++ kind_sample metric ending number) }
{
    add_of_word(out, metric, b"kind", ending.word(), number)
}

/// Appends a sample of a worker.
#[tactic(auto, unfolding(crate::specs::Samples::worker_sample))]
pub(crate) fn add_of_worker(
    out: &mut Vec<u8>,
    metric: Metric,
    worker: u64,
    number: u64,
) -> Result<(), NoMemory>
    ensures { OnOk result (out.new.items ≡ out.old.items ++ worker_sample metric worker number) }
{
    append(out, &[metric.name().as_bytes(), b"{worker=\""])?;
    add_digits(out, worker)?;
    append(out, &[b"\"} "])?;
    add_digits(out, number)?;
    append(out, &[b"\n"])
}

/// Appends the sample of a build.
#[tactic(auto, unfolding(crate::specs::Samples::build_sample))]
pub(crate) fn add_of_build(out: &mut Vec<u8>, metric: Metric, build: Build) -> Result<(), NoMemory>
    ensures { OnOk result (out.new.items ≡ out.old.items ++ build_sample metric build) }
{
    append(out, &[metric.name().as_bytes(), b"{version=\""])?;
    add_label_text(out, build.version)?;
    append(out, &[b"\",sources=\""])?;
    add_label_text(out, build.sources)?;
    append(out, &[b"\"} 1\n"])
}

/// Appends a sample of a server.
#[tactic(auto, unfolding(crate::specs::Samples::server_sample))]
pub(crate) fn add_of_server(
    out: &mut Vec<u8>,
    metric: Metric,
    address: &str,
    number: u64,
) -> Result<(), NoMemory>
    ensures { OnOk result
        (out.new.items ≡ out.old.items ++ server_sample metric address.now number) }
{
    let mut digits = Buffer::new();
    begin_sample(out, metric, address)?;
    append(out, &[b"} ", digits.format(number).as_bytes(), b"\n"])
}

/// Appends a sample of a server that has a word as the value of this label too.
#[tactic(auto, unfolding(crate::specs::Samples::part_sample))]
pub(crate) fn add_of_part(
    out: &mut Vec<u8>,
    metric: Metric,
    address: &str,
    label: &[u8],
    word: &[u8],
    number: u64,
) -> Result<(), NoMemory>
    ensures { OnOk result (out.new.items
        ≡ out.old.items ++ part_sample metric address.now label.now word.now number) }
{
    begin_sample(out, metric, address)?;
    append(out, &[b",", label, b"=\""])?;
    append(out, &[word, b"\"} "])?;
    add_digits(out, number)?;
    append(out, &[b"\n"])
}

/// Appends a sample of a server that is a moment, in milliseconds since 1970; it is written in
/// seconds.
#[tactic(auto, unfolding(crate::specs::Samples::moment_sample))]
pub(crate) fn add_of_moment(
    out: &mut Vec<u8>,
    metric: Metric,
    address: &str,
    moment: u64,
) -> Result<(), NoMemory>
    ensures { OnOk result
        (out.new.items ≡ out.old.items ++ moment_sample metric address.now moment) }
{
    begin_sample(out, metric, address)?;
    append(out, &[b"} "])?;
    add_seconds(out, moment)?;
    append(out, &[b"\n"])
}

/// Appends milliseconds as seconds with three digits behind the point.
#[tactic(auto, unfolding(crate::specs::Samples::seconds_text))]
pub(crate) fn add_seconds(out: &mut Vec<u8>, moment: u64) -> Result<(), NoMemory>
    ensures { OnOk result (out.new.items ≡ out.old.items ++ seconds_text moment) }
{
    add_digits(out, moment / SECOND)?;
    append(out, &[b"."])?;
    add_three_digits(out, moment % SECOND)
}

/// Appends microseconds as seconds with six digits behind the point.
#[tactic(auto, unfolding(crate::specs::Samples::micros_text))]
pub(crate) fn add_micros(out: &mut Vec<u8>, micros: u64) -> Result<(), NoMemory>
    ensures { OnOk result (out.new.items ≡ out.old.items ++ micros_text micros) }
{
    add_digits(out, micros / MICROS_IN_SECOND)?;
    append(out, &[b"."])?;
    add_three_digits(out, micros % MICROS_IN_SECOND / SECOND)?;
    add_three_digits(out, micros % SECOND)
}

/// Appends a number below 1,000 as three digits.
fn add_three_digits(out: &mut Vec<u8>, number: u64) -> Result<(), NoMemory>
    ensures { OnOk result (out.new.items ≡ out.old.items ++ three_digits number) }
{
    add_digits(out, number / 100)?;
    add_digits(out, number / 10 % 10)?;
    add_digits(out, number % 10)
}

/// Appends a number.
pub fn add_digits(out: &mut Vec<u8>, number: u64) -> Result<(), NoMemory>
    ensures { OnOk result (out.new.items ≡ out.old.items ++ decimal number) }
{
    let mut digits = Buffer::new();
    append(out, &[digits.format(number).as_bytes()])
}

/// Appends a sample of a server up to the end of its address.
#[tactic(auto, unfolding(crate::specs::Samples::sample_front))]
fn begin_sample(out: &mut Vec<u8>, metric: Metric, address: &str) -> Result<(), NoMemory>
    ensures { OnOk result
        (out.new.items ≡ out.old.items ++ sample_front metric address.now) }
{
    append(out, &[metric.name().as_bytes(), b"{server=\""])?;
    add_label_text(out, address)?;
    append(out, &[b"\""])
}

/// Appends the value of a label, which stands between quotes.
pub(crate) fn add_label_text(out: &mut Vec<u8>, text: &str) -> Result<(), NoMemory>
    ensures { OnOk result (out.new.items ≡ out.old.items ++ label_text text.now) }
{
    for byte in text.as_bytes() {
        add_escaped(out, *byte)?;
    }
    Ok(())
}

/// Appends a byte of the value of a label. No address, version or hash has an LF.
fn add_escaped(out: &mut Vec<u8>, byte: u8) -> Result<(), NoMemory>
    ensures { OnOk result (out.new.items ≡ out.old.items ++ escaped_byte byte) }
{
    if byte == b'"' || byte == b'\\' {
        append(out, &[b"\\"])?;
    }
    append(out, &[&[byte]])
}
