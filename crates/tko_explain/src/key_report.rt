//! How many keys of a list each server of each pool of a route gets, as lines of text. Where memory
//! runs out, the buffer may hold a part of a text.
ghost use Rattle.std.specs.Prelude.{◌≡◌, ◌++◌, ℕ, List, IfOk, OnOk, map, slice_index};
ghost use Rattle.serde_json.specs.View.{view};
ghost use Rattle.tko_explain.specs.Counts.{row_count};
ghost use Rattle.tko_explain.specs.KeyReports.{IsKeysText, child_keys, children_keys, counted_text, if_compared, listed_text, moved_text};
ghost use Rattle.tko_explain.specs.KeyTallies.{AreTallied};
ghost use Rattle.tko_explain.specs.Parts.{pool_names_of};

use crate::counts::Counts;
use crate::key_tally::KeyTally;
use crate::parts::names_in;
use crate::printing::append_named;
use crate::reporting::numbers_of;
use serde_json::Value;
use std::alloc::Global;
use tko_bytes::NoMemory;
use tko_model::append_number;
use tko_pools::pools_in;

/// What was counted of lines, over the configuration that this object means.
pub(crate) fn key_report(alloc: Global, root: &Value, tally: &KeyTally) -> Result<Vec<u8>, NoMemory>
    ensures { (lines : List (List ℕ)) → AreTallied lines tally.now → IfOk result (λ text.
        IsKeysText (view root.now) tally.now.config tally.now.compared lines text.items) }
{
    let Some(pools) = pools_in(root) else {
        return Err(NoMemory);
    };
    let text = text_over(alloc, root, pools, tally)?;
    Ok(text)
}

fn text_over(
    alloc: Global,
    root: &Value,
    pools: &Value,
    tally: &KeyTally,
) -> Result<Vec<u8>, NoMemory>
    ensures { IfOk result (λ text. text.items
        ≡ counted_text (view root.now) (view pools.now) tally.now.config tally.now.keys
        tally.now.refused (row_count tally.now.children.items)
        (λ place. if_compared tally.now.compared (slice_index tally.now.moved place))) }
{
    let mut out = Vec::new(alloc);
    append_lines(&mut out, tally.keys, tally.refused)?;
    let names = names_in(alloc, root)?;
    append_children(alloc, &mut out, pools, tally, &names)?;
    Ok(out)
}

/// Appends how many lines are keys, and how many are none.
fn append_lines(out: &mut Vec<u8>, keys: usize, refused: usize) -> Result<(), NoMemory>
    ensures { OnOk result (out.new.items ≡ out.old.items ++ listed_text keys refused) }
{
    append_number(out, b"keys ", keys as u64)?;
    append_number(out, b" refused ", refused as u64)?;
    out.extend_from_slice(b"\n")?;
    Ok(())
}

/// Appends of each child how many keys each server of its pool gets, and how many moved.
fn append_children(
    alloc: Global,
    out: &mut Vec<u8>,
    pools: &Value,
    tally: &KeyTally,
    names: &[&str],
) -> Result<(), NoMemory>
    ensures { OnOk result (out.new.items ≡ out.old.items ++ children_keys tally.now.config
        (view pools.now) (row_count tally.now.children.items)
        (λ place. if_compared tally.now.compared (slice_index tally.now.moved place)) 0
        (map (λ name. name.now) names.now)) }
{
    for (place, name) in names.iter().enumerate() {
        append_child(alloc, out, pools, tally, place, name)?;
        append_moved(alloc, out, name, moved_at(tally, place))?;
    }
    Ok(())
}

/// Appends how many keys a child sends to another address, where anything is compared.
fn append_moved(
    alloc: Global,
    out: &mut Vec<u8>,
    name: &str,
    moved: Option<usize>,
) -> Result<(), NoMemory>
    ensures { OnOk result (out.new.items ≡ out.old.items ++ moved_text name.now moved) }
{
    match moved {
        Some(moved) => append_named(alloc, out, "moved ", name, &[moved]),
        None => Ok(()),
    }
}

/// How many keys the child at this place sends to another address, where anything is compared.
fn moved_at(tally: &KeyTally, place: usize) -> Option<usize>
    ensures { result ≡ if_compared tally.now.compared (slice_index tally.now.moved place) }
{
    match tally.compared {
        Some(_) => Some(tally.moved.of(place)),
        None => None,
    }
}

/// Appends how many keys each server of a pool gets, which is the child at this place.
#[tactic(auto, unfolding(crate::specs::KeyReports::child_keys))]
fn append_child(
    alloc: Global,
    out: &mut Vec<u8>,
    pools: &Value,
    tally: &KeyTally,
    place: usize,
    name: &str,
) -> Result<(), NoMemory>
    ensures { OnOk result (out.new.items ≡ out.old.items ++ child_keys tally.now.config
        (view pools.now) (row_count tally.now.children.items) place name.now) }
{
    let numbers = numbers_of(alloc, tally.config.addresses(), pools, name)?;
    let counts = counts_of(alloc, &tally.children, place, &numbers)?;
    append_named(alloc, out, "keys ", name, &counts)
}

/// How many keys each of these servers gets in the child at this place.
fn counts_of(
    alloc: Global,
    rows: &[Counts],
    place: usize,
    servers: &[usize],
) -> Result<Vec<usize>, NoMemory>
    ensures { IfOk result (λ counts. counts.items ≡ map (row_count rows.now place) servers.now) }
{
    let mut counts = Vec::new(alloc);
    for server in servers {
        counts.push(count_of(rows, place, *server))?;
    }
    Ok(counts)
}

fn count_of(rows: &[Counts], place: usize, server: usize) -> usize
    ensures { result ≡ row_count rows.now place server }
{
    match rows.get(place) {
        Some(row) => row.of(server),
        None => 0,
    }
}
