//! The servers of a page.
ghost use Rattle.std.specs.Prelude.{◌≡◌, ◌++◌, OnOk};
ghost use Rattle.tko_metrics.specs.Pages.{hard_flag, mark_moment_of, mark_samples, marks_text, moments_text, server_numbers_text, outcome_sample, outcome_samples, outcomes_text, soft_flag};

use crate::marking::Marking;
use crate::metrics::Metric;
use crate::reading::{ServerNumber, Shown};
use crate::sample::{add_of_moment, add_of_part, add_of_server, begin};
use crate::sent_end::SentEnd;
use tko_bytes::NoMemory;

/// Appends this number of each server.
#[tactic(auto, unfolding(crate::specs::Pages::server_numbers_text))]
pub(crate) fn add_numbers(
    out: &mut Vec<u8>,
    metric: Metric,
    which: ServerNumber,
    servers: &[Shown<'_>],
) -> Result<(), NoMemory>
    ensures { OnOk result
        (out.new.items ≡ out.old.items ++ server_numbers_text metric which servers.now) }
{
    begin(out, metric)?;
    for server in servers {
        add_of_server(out, metric, server.address, which.of(server.reading))?;
    }
    Ok(())
}

/// Appends what came of what was sent to each server.
#[tactic(auto, unfolding(crate::specs::Pages::outcomes_text))]
pub(crate) fn add_outcomes(out: &mut Vec<u8>, servers: &[Shown<'_>]) -> Result<(), NoMemory>
    ensures { OnOk result (out.new.items ≡ out.old.items ++ outcomes_text servers.now) }
{
    begin(out, Metric::ServerOutcomes)?;
    for server in servers {
        add_outcomes_of(out, *server)?;
    }
    Ok(())
}

#[tactic(auto, unfolding(crate::specs::Pages::outcome_samples))]
fn add_outcomes_of(out: &mut Vec<u8>, server: Shown<'_>) -> Result<(), NoMemory>
    ensures { OnOk result (out.new.items ≡ out.old.items ++ outcome_samples server.entry) }
{
    add_outcome(out, server, SentEnd::Reply)?;
    add_outcome(out, server, SentEnd::Timeout)?;
    add_outcome(out, server, SentEnd::Refused)?;
    add_outcome(out, server, SentEnd::Broken)?;
    add_outcome(out, server, SentEnd::Aborted)
}

/// Appends how often what was sent to a server came to this.
fn add_outcome(out: &mut Vec<u8>, server: Shown<'_>, end: SentEnd) -> Result<(), NoMemory>
    ensures { OnOk result (out.new.items ≡ out.old.items ++ outcome_sample server.entry end) }
{
    let Shown { address, reading } = server;
    let number = ServerNumber::Ended(end).of(reading);
    let word = end.word().as_bytes();
    add_of_part(
        out,
        Metric::ServerOutcomes,
        address,
        b"outcome",
        word,
        number,
    )
}

#[tactic(auto, unfolding(crate::specs::Pages::marks_text))]
pub(crate) fn add_marks(out: &mut Vec<u8>, servers: &[Shown<'_>]) -> Result<(), NoMemory>
    ensures { OnOk result (out.new.items ≡ out.old.items ++ marks_text servers.now) }
{
    begin(out, Metric::ServerMarked)?;
    for server in servers {
        add_marks_of(out, *server)?;
    }
    Ok(())
}

/// Appends whether a server has each of the two marks.
#[tactic(auto, unfolding(crate::specs::Pages::mark_samples))]
fn add_marks_of(out: &mut Vec<u8>, server: Shown<'_>) -> Result<(), NoMemory>
    ensures { OnOk result (out.new.items ≡ out.old.items ++ mark_samples server.entry) }
{
    let Shown { address, reading } = server;
    let (soft, hard) = (soft_flag(reading.mark), hard_flag(reading.mark));
    add_of_part(out, Metric::ServerMarked, address, b"mark", b"soft", soft)?;
    add_of_part(out, Metric::ServerMarked, address, b"mark", b"hard", hard)
}

/// 1 where the mark is soft.
fn soft_flag(mark: Marking) -> u64
    ensures { result ≡ soft_flag mark }
{
    match mark {
        Marking::Soft => 1,
        Marking::Up | Marking::Hard => 0,
    }
}

/// 1 where the mark is hard.
fn hard_flag(mark: Marking) -> u64
    ensures { result ≡ hard_flag mark }
{
    match mark {
        Marking::Hard => 1,
        Marking::Up | Marking::Soft => 0,
    }
}

#[tactic(auto, unfolding(crate::specs::Pages::moments_text))]
pub(crate) fn add_moments(out: &mut Vec<u8>, servers: &[Shown<'_>]) -> Result<(), NoMemory>
    ensures { OnOk result (out.new.items ≡ out.old.items ++ moments_text servers.now) }
{
    begin(out, Metric::MarkedSince)?;
    for server in servers {
        add_moment_of(out, *server)?;
    }
    Ok(())
}

/// Appends since when a server is marked, if it is.
fn add_moment_of(out: &mut Vec<u8>, server: Shown<'_>) -> Result<(), NoMemory>
    ensures { OnOk result (out.new.items ≡ out.old.items ++ mark_moment_of server.entry) }
{
    let Shown { address, reading } = server;
    match reading.mark {
        Marking::Up => Ok(()),
        Marking::Soft | Marking::Hard => {
            add_of_moment(out, Metric::MarkedSince, address, reading.since)
        }
    }
}
