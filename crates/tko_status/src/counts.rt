//! By how much counts have grown.
ghost use Rattle.std.specs.Prelude.{◌≡◌, IfOk};
ghost use Rattle.tko_status.specs.Counts.{count_at, grown};

use std::alloc::{AllocError, Global};

/// By how much each count has grown.
pub(crate) fn grown(alloc: Global, counts: &[u64], before: &[u64]) -> Result<Vec<u64>, AllocError>
    ensures { IfOk result (λ more. more.items ≡ grown counts.now before.now) }
{
    let mut more = Vec::new(alloc);
    for place in 0..counts.len() {
        more.push(count_at(counts, place).saturating_sub(count_at(before, place)))?;
    }
    Ok(more)
}

/// The count at a place, 0 where there is none.
fn count_at(counts: &[u64], place: usize) -> u64
    ensures { result ≡ count_at counts.now place }
{
    counts.get(place).copied().unwrap_or(0)
}
