//! Which keys go to another address than in another configuration.
ghost use Rattle.std.specs.Prelude.{◌≡◌, ◌+◌, ◌&&◌, ◌==◌, ℕ, IfOk, OnOk, Some, map, not, option_and_then, option_map, slice_get, slice_index, string_bytes};
ghost use Rattle.tko_explain.specs.Counts.{one_where};
ghost use Rattle.tko_explain.specs.Moves.{target_address, are_same, is_moved, is_moved_to};
ghost use Rattle.tko_pools.specs.Configs.{targets_of};

use crate::counts::Counts;
use std::marker::Model;
use tko_bytes::NoMemory;
use tko_pools::Config;

/// What a configuration is compared with. In contracts it is a `Comparison`.
#[derive(Drop)]
pub(crate) struct Compared {
    /// The other configuration.
    config: Config,
    /// Of each child: the place of the child of the other one that it is compared with.
    twins: Vec<Option<usize>>,
}

impl Model for Compared {
    ghost use Rattle.tko_explain.specs.Moves.{Comparison};

    ghost Value = { Comparison };

    ghost view = { λ a. record { config = a.config; twins = a.twins.items } };
}

impl Compared {
    pub(crate) fn new(config: Config, twins: Vec<Option<usize>>) -> Compared
        ensures { result ≡ record { config = config; twins = twins.items } }
    {
        Compared { config, twins }
    }
}

/// Counts a key for each child that sends it to another address. The list is room for its targets
/// in the other configuration.
pub(crate) fn count_moves(
    moved: &mut Counts,
    config: &Config,
    targets: &[usize],
    compared: Option<&Compared>,
    there: &mut Vec<usize>,
    key: &[u8],
) -> Result<(), NoMemory>
    ensures { targets.now ≡ targets_of config.now key.now → OnOk result ((place : ℕ)
        → slice_index moved.new place ≡ slice_index moved.old place
        + one_where
        (is_moved config.now (option_map (λ it. it.now) compared.entry) place key.now)) }
{
    let Some(other) = compared else {
        return Ok(());
    };
    other.config.replace_targets(key, there)?;
    count_each_move(moved, config, targets, &other.config, there, &other.twins)?;
    Ok(())
}

fn count_each_move(
    moved: &mut Counts,
    config: &Config,
    targets: &[usize],
    other: &Config,
    there: &[usize],
    twins: &[Option<usize>],
) -> Result<(), NoMemory>
    ensures { OnOk result ((place : ℕ)
        → slice_index moved.new place ≡ slice_index moved.old place
        + one_where (is_moved_to config.now.addresses targets.now place
        other.now.addresses there.now (slice_get twins.now place))) }
{
    for (place, twin) in twins.iter().enumerate() {
        let here = target_address(config.addresses(), targets, place);
        let is_moved = is_moved_from(here, other.addresses(), there, *twin);
        count_if(moved, place, is_moved)?;
    }
    Ok(())
}

/// Counts a number once more if a test holds.
fn count_if(moved: &mut Counts, number: usize, test: bool) -> Result<(), NoMemory>
    ensures { OnOk result ((other : ℕ) → slice_index moved.new other
        ≡ slice_index moved.old other + one_where (other == number && test)) }
{
    if !test {
        return Ok(());
    }
    moved.add(number)
}

/// Whether these targets lead from this address to another one, in the child that is compared with.
fn is_moved_from(
    here: Option<&str>,
    others: &[String],
    there: &[usize],
    twin: Option<usize>,
) -> bool
    ensures { result ≡ not (are_same (option_map (λ it. it.now) here.entry)
        (option_and_then (target_address (map string_bytes others.now) there.now) twin)) }
{
    match twin {
        Some(place) => !are_same(here, target_address(others, there, place)),
        None => true,
    }
}

fn are_same(here: Option<&str>, there: Option<&str>) -> bool
    ensures { result ≡ are_same (option_map (λ it. it.now) here.entry)
        (option_map (λ it. it.now) there.entry) }
{
    match (here, there) {
        (Some(here), Some(there)) => here == there,
        _ => false,
    }
}

/// Of these targets the address of that in the child at a place.
fn target_address<'a>(addresses: &'a [String], targets: &[usize], place: usize) -> Option<&'a str>
    ensures { option_map (λ it. it.now) result
        ≡ target_address (map string_bytes addresses.now) targets.now place }
{
    match targets.get(place) {
        Some(target) => address_of(addresses, *target),
        None => None,
    }
}

fn address_of(addresses: &[String], number: usize) -> Option<&str>
    ensures { option_map (λ it. it.now) result
        ≡ slice_get (map string_bytes addresses.now) number }
{
    match addresses.get(number) {
        Some(address) => Some(address.as_str()),
        None => None,
    }
}
