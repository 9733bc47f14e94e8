//! The groups of the servers.
ghost use Rattle.std.specs.Prelude.{◌≡◌, ◌<◌, ◌≤◌, ◌==◌, [], IfOk, IfSome, get_or, length, map};
ghost use Rattle.std.specs.List.{position};
ghost use Rattle.serde_json.specs.View.{view};
ghost use Rattle.tko_pools.specs.Configs.{soft_limits_at, soft_limits_in};
ghost use Rattle.tko_pools.specs.Groups.{first_child_with, first_place, groups_in, groups_of, is_number_in, owners_of, owning};
ghost use Rattle.tko_model.specs.Limits.{max_servers};

use crate::child::Child;
use crate::soft_limits::soft_limit_named;
use serde_json::Value;
use std::alloc::{AllocError, Global};

/// The groups of the servers of some children, and the soft limit of each group's pool.
#[derive(Drop)]
pub(crate) struct ServerGroups {
    pub(crate) groups: Vec<u32>,
    pub(crate) soft_limits: Vec<Option<u32>>,
}

impl ServerGroups {
    /// The grouping of as many servers of these children, which are the pools of these names.
    pub(crate) fn of(
        alloc: Global,
        pools: &Value,
        names: &[&str],
        children: &[Child],
        servers: usize,
    ) -> Result<ServerGroups, AllocError>
        requires few { servers ≤ max_servers }
        ensures groups { IfOk result (λ grouping. grouping.groups.items
            ≡ groups_in (map (λ child. child.servers) children.now) servers) }
        ensures limits { IfOk result (λ grouping. grouping.soft_limits.items ≡ soft_limits_in
            (view pools.now) (map (λ name. name.now) names.now)
            (map (λ child. child.servers) children.now) servers) }
    {
        let owners = owners_of(alloc, children, servers)?;
        let places = owning(alloc, &owners, children.len())?;
        Ok(ServerGroups {
            groups: groups_of(alloc, &owners, &places)?,
            soft_limits: soft_limits_at(alloc, pools, names, &places)?,
        })
    }
}

/// The owner of each server: the place of the first child that holds it.
fn owners_of(alloc: Global, children: &[Child], servers: usize) -> Result<Vec<usize>, AllocError>
    ensures { IfOk result (λ owners. owners.items
        ≡ owners_of (map (λ child. child.servers) children.now) servers) }
{
    let mut owners = Vec::with_capacity(alloc, servers)?;
    for server in 0..servers {
        owners.push(owner_of(children, server))?;
    }
    Ok(owners)
}

/// The place of the first child that holds a server.
fn owner_of(children: &[Child], server: usize) -> usize
    ensures { result ≡ first_child_with (map (λ child. child.servers) children.now) server }
{
    holder_of(children, server).unwrap_or(children.len())
}

fn holder_of(children: &[Child], server: usize) -> Option<usize>
    ensures { result ≡ position (λ child. is_number_in child.servers server) children.now }
{
    children
        .iter()
        .position(|child| is_in(child.servers(), server))
}

/// Whether a number is in a list.
fn is_in(numbers: &[usize], number: usize) -> bool
    ensures { result ≡ is_number_in numbers.now number }
{
    numbers.iter().any(|other| *other == number)
}

/// The places of the children that own a server, in their order.
fn owning(alloc: Global, owners: &[usize], children: usize) -> Result<Vec<usize>, AllocError>
    ensures { IfOk result (λ places. places.items ≡ owning owners.now children) }
{
    let mut places = Vec::new(alloc);
    for place in 0..children {
        if is_in(owners, place) {
            places.push(place)?;
        }
    }
    Ok(places)
}

/// The group of each server: the place of its owner among the children that own one.
fn groups_of(alloc: Global, owners: &[usize], places: &[usize]) -> Result<Vec<u32>, AllocError>
    requires few { length places.now ≤ max_servers }
    ensures { IfOk result (λ groups. groups.items ≡ groups_of owners.now places.now) }
{
    let mut groups = Vec::with_capacity(alloc, owners.len())?;
    for owner in owners {
        groups.push(place_of(places, *owner) as u32)?;
    }
    Ok(groups)
}

/// The place of a number, and how many numbers there are where it is none of them.
fn place_of(numbers: &[usize], number: usize) -> usize
    ensures value { result ≡ first_place (λ other. other == number) numbers.now }
    ensures within { result ≤ length numbers.now }
{
    found_in(numbers, number).unwrap_or(numbers.len())
}

fn found_in(numbers: &[usize], number: usize) -> Option<usize>
    ensures value { result ≡ position (λ other. other == number) numbers.now }
    ensures within { IfSome result (λ place. place < length numbers.now) }
{
    numbers.iter().position(|other| *other == number)
}

/// The soft limits of the pools that these places have among the names.
fn soft_limits_at(
    alloc: Global,
    pools: &Value,
    names: &[&str],
    places: &[usize],
) -> Result<Vec<Option<u32>>, AllocError>
    ensures { IfOk result (λ limits. limits.items
        ≡ soft_limits_at (view pools.now) (map (λ name. name.now) names.now) places.now) }
{
    let mut limits = Vec::with_capacity(alloc, places.len())?;
    for place in places {
        limits.push(soft_limit_named(pools, name_at(names, *place)))?;
    }
    Ok(limits)
}

fn name_at<'a>(names: &[&'a str], place: usize) -> &'a str
    ensures { result.now ≡ get_or (map (λ name. name.now) names.now) place [] }
{
    names.get(place).copied().unwrap_or("")
}
