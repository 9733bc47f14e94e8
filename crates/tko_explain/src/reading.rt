//! A configuration with the JSON that it is read from, and what it is compared with.
ghost use Rattle.std.specs.Prelude.{◌≡◌, IfOk, IfErr, IsSomeAnd, map, option_map};
ghost use Rattle.std.specs.List.{position};
ghost use Rattle.std.specs.Str.{bytes_eq};
ghost use Rattle.serde_json.specs.View.{view};
ghost use Rattle.tko_explain.specs.KeyCounting.{IsConfigurationOf};
ghost use Rattle.tko_explain.specs.Moves.{IsComparedWith, IsComparison, place_named, twins_of};
ghost use Rattle.tko_pools.specs.Configs.{Refuses};

use crate::moves::Compared;
use crate::parts::names_in;
use serde_json::Value;
use std::alloc::Global;
use tko_bytes::NoMemory;
use tko_pools::{Config, ConfigFault};

/// The configuration that a text means, and its JSON.
pub(crate) fn read(alloc: Global, json: &str) -> Result<(Config, Value), ConfigFault>
    ensures ok { IfOk result (λ both. IsConfigurationOf json.now both.1 both.0) }
    ensures err { IfErr result (λ fault. Refuses json.now fault) }
{
    let config = Config::read(alloc, json.as_bytes())?;
    let Ok(root) = Value::from_str(alloc, json) else {
        return Err(ConfigFault::Memory);
    };
    Ok((config, root))
}

/// What the configuration of this object is compared with: the one that this text means, if there
/// is a text.
pub(crate) fn compared_with(
    alloc: Global,
    root: &Value,
    against: Option<&str>,
) -> Result<Option<Compared>, ConfigFault>
    ensures ok { IfOk result (λ compared.
        IsComparedWith (option_map (λ text. text.now) against.entry) (view root.now) compared) }
    ensures err { IfErr result (λ fault.
        IsSomeAnd (option_map (λ text. text.now) against.entry) (λ text. Refuses text fault)) }
{
    match against {
        Some(json) => Ok(Some(comparison(alloc, root, json)?)),
        None => Ok(None),
    }
}

fn comparison(alloc: Global, root: &Value, json: &str) -> Result<Compared, ConfigFault>
    ensures ok { IfOk result (λ compared. IsComparison json.now (view root.now) compared) }
    ensures err { IfErr result (λ fault. Refuses json.now fault) }
{
    let (config, other) = read(alloc, json)?;
    match twins_of(alloc, root, &other) {
        Ok(twins) => Ok(Compared::new(config, twins)),
        Err(NoMemory) => Err(ConfigFault::Memory),
    }
}

/// Of each child of the object's route the place of the first of its name in the other's.
fn twins_of(alloc: Global, root: &Value, other: &Value) -> Result<Vec<Option<usize>>, NoMemory>
    ensures { IfOk result (λ twins. twins.items ≡ twins_of (view root.now) (view other.now)) }
{
    let names = names_in(alloc, root)?;
    let others = names_in(alloc, other)?;
    places_of(alloc, &names, &others)
}

fn places_of(alloc: Global, names: &[&str], others: &[&str]) -> Result<Vec<Option<usize>>, NoMemory>
    ensures { IfOk result (λ places. places.items
        ≡ map (place_named (map (λ name. name.now) others.now))
        (map (λ name. name.now) names.now)) }
{
    let mut places = Vec::new(alloc);
    for name in names {
        places.push(place_named(others, name))?;
    }
    Ok(places)
}

/// The place of the first of these names that is this one.
fn place_named(names: &[&str], name: &str) -> Option<usize>
    ensures { result ≡ place_named (map (λ name. name.now) names.now) name.now }
{
    place_in(names, name)
}

fn place_in(names: &[&str], name: &str) -> Option<usize>
    ensures { result ≡ position (λ other. bytes_eq name.now other.now) names.now }
{
    names.iter().position(|other| name == *other)
}
