//! What a configuration means, as lines of text.
ghost use Rattle.std.specs.Prelude.{◌≡◌, ◌++◌, IfOk, IfErr, OnOk, map, string_bytes};
ghost use Rattle.std.specs.List.{position};
ghost use Rattle.std.specs.Str.{bytes_eq};
ghost use Rattle.serde_json.specs.View.{items_view, view};
ghost use Rattle.tko_explain.specs.Reports.{AreWarningsOf, IsReport, IsWarnedOf, addresses_text, child_text, children_text, config_text, expiry_text, limit_text, report_text, rings_text, routed_keys_text, targets_text, values_note};
ghost use Rattle.tko_pools.specs.Configs.{Refuses, child_of};
ghost use Rattle.tko_explain.specs.Parts.{pool_names_of};
ghost use Rattle.tko_pools.specs.Json.{servers_named, texts_of};
ghost use Rattle.tko_pools.specs.Numbering.{number_in};
ghost use Rattle.tko_pools.specs.SoftLimits.{soft_limit_named};

use crate::odd_addresses::odd_addresses;
use crate::parts::{list_in, names_in};
use crate::placing::append_placement;
use crate::printing::append_named;
use crate::repeats::{append_repeats, key_text, texts_of};
use crate::rings::append_ring;
use crate::warnings::append_warnings;
use serde_json::Value;
use std::alloc::Global;
use tko_bytes::NoMemory;
use tko_model::append_number;
use tko_pools::{Config, ConfigFault, pools_in, soft_limit_named, text_of};

const VALUES_NOTE: &[u8] =
    b"note: no server may hold a value above 1 MiB (memcached -I above 1m): it would be marked\n";

/// The servers by their numbers, the pools of the route with the numbers of their servers, their
/// soft limits and how they spread keys, the greatest expiry after the first target, the targets of
/// each of the keys, the warnings, and what no configuration tells of its servers, a line each.
pub fn report(alloc: Global, json: &str, keys: &[String]) -> Result<Vec<u8>, ConfigFault>
    ensures ok { IfOk result (λ text. IsReport json.now (map string_bytes keys.now) text.items) }
    ensures err { IfErr result (λ fault. Refuses json.now fault) }
{
    let config = Config::read(alloc, json.as_bytes())?;
    let Ok(root) = Value::from_str(alloc, json) else {
        return Err(ConfigFault::Memory);
    };
    let Some(pools) = pools_in(&root) else {
        return Err(ConfigFault::Memory);
    };
    let Ok(warnings) = warnings_over(alloc, json, &root, pools, &config) else {
        return Err(ConfigFault::Memory);
    };
    match report_of(alloc, &root, pools, &config, keys, &warnings) {
        Ok(text) => Ok(text),
        Err(NoMemory) => Err(ConfigFault::Memory),
    }
}

/// What is warned of in the text of a configuration, a line each, as `report` has it.
pub fn warnings_of(alloc: Global, json: &str) -> Result<Vec<u8>, ConfigFault>
    ensures ok { IfOk result (λ text. IsWarnedOf json.now text.items) }
    ensures err { IfErr result (λ fault. Refuses json.now fault) }
{
    let config = Config::read(alloc, json.as_bytes())?;
    let Ok(root) = Value::from_str(alloc, json) else {
        return Err(ConfigFault::Memory);
    };
    let Some(pools) = pools_in(&root) else {
        return Err(ConfigFault::Memory);
    };
    match warnings_over(alloc, json, &root, pools, &config) {
        Ok(text) => Ok(text),
        Err(NoMemory) => Err(ConfigFault::Memory),
    }
}

/// What is warned of in this text, which means the configuration: a line for each key that is not
/// read, for whatever is named twice, for each address whose host and port may not be the ones that
/// were meant, and for servers that have no point of their own.
fn warnings_over(
    alloc: Global,
    json: &str,
    root: &Value,
    pools: &Value,
    config: &Config,
) -> Result<Vec<u8>, NoMemory>
    ensures { IfOk result (λ text. AreWarningsOf json.now (view root.now) (view pools.now)
        config.now text.items) }
{
    let mut out = Vec::new(alloc);
    append_warnings(alloc, &mut out, root)?;
    append_repeats(alloc, &mut out, root)?;
    let odd = odd_addresses(alloc, config.addresses())?;
    out.extend_from_slice(&odd)?;
    append_rings(alloc, &mut out, root, pools, config)?;
    out.extend_from_slice(key_text(alloc, json)?.as_bytes())?;
    Ok(out)
}

fn report_of(
    alloc: Global,
    root: &Value,
    pools: &Value,
    config: &Config,
    keys: &[String],
    warnings: &[u8],
) -> Result<Vec<u8>, NoMemory>
    ensures { IfOk result (λ text. text.items
        ≡ report_text (view root.now) (view pools.now) config.now (map string_bytes keys.now)
        ++ warnings.now ++ values_note) }
{
    let mut out = Vec::new(alloc);
    append_config(alloc, &mut out, root, pools, config)?;
    append_targets(alloc, &mut out, config, keys)?;
    out.extend_from_slice(warnings)?;
    out.extend_from_slice(VALUES_NOTE)?;
    Ok(out)
}

/// Appends the servers and the pools of the route.
fn append_config(
    alloc: Global,
    out: &mut Vec<u8>,
    root: &Value,
    pools: &Value,
    config: &Config,
) -> Result<(), NoMemory>
    ensures { OnOk result (out.new.items
        ≡ out.old.items ++ config_text (view root.now) (view pools.now) config.now) }
{
    let names = names_in(alloc, root)?;
    append_servers(out, config.addresses())?;
    append_children(alloc, out, config, pools, &names)?;
    Ok(())
}

/// Appends the greatest expiry and the targets of the keys.
fn append_targets(
    alloc: Global,
    out: &mut Vec<u8>,
    config: &Config,
    keys: &[String],
) -> Result<(), NoMemory>
    ensures { OnOk result
        (out.new.items ≡ out.old.items ++ targets_text config.now (map string_bytes keys.now)) }
{
    append_expiry(out, config.failover_exptime())?;
    append_keys(alloc, out, config, keys)?;
    Ok(())
}

fn append_expiry(out: &mut Vec<u8>, seconds: u32) -> Result<(), NoMemory>
    ensures { OnOk result (out.new.items ≡ out.old.items ++ expiry_text seconds) }
{
    append_number(out, b"failover_exptime ", u64::from(seconds))?;
    out.extend_from_slice(b"\n")?;
    Ok(())
}

fn append_servers(out: &mut Vec<u8>, addresses: &[String]) -> Result<(), NoMemory>
    ensures { OnOk result
        (out.new.items ≡ out.old.items ++ addresses_text 0 (map string_bytes addresses.now)) }
{
    for (number, address) in addresses.iter().enumerate() {
        append_number(out, b"server ", number as u64)?;
        out.extend_from_slice(b" ")?;
        out.extend_from_slice(address.as_bytes())?;
        out.extend_from_slice(b"\n")?;
    }
    Ok(())
}

fn append_children(
    alloc: Global,
    out: &mut Vec<u8>,
    config: &Config,
    pools: &Value,
    names: &[&str],
) -> Result<(), NoMemory>
    ensures { OnOk result (out.new.items ≡ out.old.items
        ++ children_text config.now (view pools.now) 0 (map (λ name. name.now) names.now)) }
{
    for (place, name) in names.iter().enumerate() {
        append_child(alloc, out, config, pools, place, name)?;
    }
    Ok(())
}

/// Appends what is said of the child at this place, the pool of a name.
#[tactic(auto, unfolding(crate::specs::Reports::child_text))]
fn append_child(
    alloc: Global,
    out: &mut Vec<u8>,
    config: &Config,
    pools: &Value,
    place: usize,
    name: &str,
) -> Result<(), NoMemory>
    ensures { OnOk result (out.new.items
        ≡ out.old.items ++ child_text config.now (view pools.now) place name.now) }
{
    let numbers = numbers_of(alloc, config.addresses(), pools, name)?;
    append_named(alloc, out, "pool ", name, &numbers)?;
    append_limit(alloc, out, pools, name)?;
    append_placement(alloc, out, name, pools.get(name), config.ring(place))?;
    Ok(())
}

/// Appends what is to be known of the rings of the pools of the route.
fn append_rings(
    alloc: Global,
    out: &mut Vec<u8>,
    root: &Value,
    pools: &Value,
    config: &Config,
) -> Result<(), NoMemory>
    ensures { OnOk result (out.new.items ≡ out.old.items
        ++ rings_text config.now (view pools.now) 0 (pool_names_of (view root.now))) }
{
    let names = names_in(alloc, root)?;
    append_rings_of(alloc, out, config, pools, &names)
}

fn append_rings_of(
    alloc: Global,
    out: &mut Vec<u8>,
    config: &Config,
    pools: &Value,
    names: &[&str],
) -> Result<(), NoMemory>
    ensures { OnOk result (out.new.items ≡ out.old.items
        ++ rings_text config.now (view pools.now) 0 (map (λ name. name.now) names.now)) }
{
    for (place, name) in names.iter().enumerate() {
        let addresses = addresses_named(alloc, pools, name)?;
        append_ring(alloc, out, name, &addresses, config.ring(place))?;
    }
    Ok(())
}

/// The addresses in the list of the pool of a name.
fn addresses_named<'a>(
    alloc: Global,
    pools: &'a Value,
    name: &str,
) -> Result<Vec<&'a str>, NoMemory>
    ensures { IfOk result (λ addresses. map (λ address. address.now) addresses.items
        ≡ servers_named (view pools.now) name.now) }
{
    match pools.get(name) {
        Some(pool) => texts_of(alloc, list_in("servers", pool)),
        None => Ok(Vec::new(alloc)),
    }
}

/// Appends the soft limit of the pool of a name, if it has one.
#[tactic(auto, unfolding(crate::specs::Reports::limit_text))]
fn append_limit(alloc: Global, out: &mut Vec<u8>, pools: &Value, name: &str) -> Result<(), NoMemory>
    ensures { OnOk result (out.new.items ≡ out.old.items
        ++ limit_text name.now (soft_limit_named (view pools.now) name.now)) }
{
    match soft_limit_named(pools, name) {
        Some(limit) => append_named(alloc, out, "soft_limit ", name, &[limit as usize]),
        None => Ok(()),
    }
}

/// The numbers of the servers of the pool of a name.
pub(crate) fn numbers_of(
    alloc: Global,
    addresses: &[String],
    pools: &Value,
    name: &str,
) -> Result<Vec<usize>, NoMemory>
    ensures { IfOk result (λ numbers. numbers.items
        ≡ child_of (map string_bytes addresses.now) (view pools.now) name.now) }
{
    let mut numbers = Vec::new(alloc);
    if let Some(pool) = pools.get(name) {
        push_numbers(addresses, list_in("servers", pool), &mut numbers)?;
    }
    Ok(numbers)
}

fn push_numbers(
    addresses: &[String],
    servers: &[Value],
    numbers: &mut Vec<usize>,
) -> Result<(), NoMemory>
    ensures { OnOk result (numbers.new.items ≡ numbers.old.items
        ++ map (number_in (map string_bytes addresses.now)) (texts_of (items_view servers.now))) }
{
    for value in servers {
        numbers.push(number_of(addresses, text_of(value)))?;
    }
    Ok(())
}

/// The number of an address, and how many addresses there are where it has none.
fn number_of(addresses: &[String], text: &str) -> usize
    ensures { result ≡ number_in (map string_bytes addresses.now) text.now }
{
    place_of(addresses, text).unwrap_or(addresses.len())
}

fn place_of(addresses: &[String], text: &str) -> Option<usize>
    ensures { result ≡ position (λ known. bytes_eq text.now (string_bytes known)) addresses.now }
{
    addresses.iter().position(|known| text == known.as_str())
}

fn append_keys(
    alloc: Global,
    out: &mut Vec<u8>,
    config: &Config,
    keys: &[String],
) -> Result<(), NoMemory>
    ensures { OnOk result
        (out.new.items ≡ out.old.items ++ routed_keys_text config.now (map string_bytes keys.now)) }
{
    for key in keys {
        let targets = config.targets(alloc, key.as_bytes())?;
        append_named(alloc, out, "key ", key.as_str(), &targets)?;
    }
    Ok(())
}
