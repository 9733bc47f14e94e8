//! The route of a configuration.
ghost use Rattle.std.specs.Prelude.{◌≡◌, ◌≤◌, IfOk, IfSome, map, option_map, option_and_then};
ghost use Rattle.serde_json.specs.View.{items_view, view};
ghost use Rattle.tko_pools.specs.Json.{child_names, texts_of};
ghost use Rattle.tko_pools.specs.Routes.{exptime_in, exptime_of, failover_route, is_failover, listed_children, names_in, route_in, route_of, single_route};

use crate::json::{child_name, text_of};
use serde_json::Value;
use std::alloc::{AllocError, Global};
use std::marker::Model;

/// The greatest expiry after the first target where a route names none.
pub(crate) const DEFAULT_EXPTIME: u32 = 60;

const MAX_EXPTIME: u64 = (1 << 31) - 1;

/// The pools that are tried, by their names, and the greatest expiry behind the first target.
/// Contracts see the names as lists of bytes.
#[derive(Drop)]
pub(crate) struct Route<'a> {
    children: Vec<&'a str>,
    failover_exptime: u32,
}

impl<'a> Model for Route<'a> {
    ghost use Rattle.std.specs.Prelude.{map};
    ghost use Rattle.tko_pools.specs.Routes.{RouteRead};

    ghost Value = { RouteRead };

    ghost view = { λ r. record {
      children = map (λ name. name.now) r.children.items;
      failover_exptime = r.failover_exptime;
    } };
}

impl<'a> Route<'a> {
    /// The route of a configuration, if it has one.
    pub(crate) fn of(alloc: Global, root: &'a Value) -> Result<Option<Route<'a>>, AllocError>
        ensures { IfOk result (λ route. route ≡ route_in (view root.now)) }
    {
        let Some(value) = root.get("route") else {
            return Ok(None);
        };
        match value {
            Value::String(text) => Route::single(alloc, text.as_str()),
            Value::Object(_) => Route::failover(alloc, value),
            Value::Null | Value::Bool(_) | Value::Number(_) | Value::Array(_) => Ok(None),
        }
    }

    /// The names of the pools that are tried.
    pub(crate) fn children(&self) -> &[&'a str]
        ensures { map (λ name. name.now) result.now ≡ self.now.children }
    {
        self.children.as_slice()
    }

    pub(crate) fn failover_exptime(&self) -> u32
        ensures { result ≡ self.now.failover_exptime }
    {
        self.failover_exptime
    }

    /// The route of one child.
    fn single(alloc: Global, text: &'a str) -> Result<Option<Route<'a>>, AllocError>
        ensures { IfOk result (λ route. route ≡ single_route text.now) }
    {
        let Some(name) = child_name(text) else {
            return Ok(None);
        };
        let mut children = Vec::new(alloc);
        children.push(name)?;
        Ok(Some(Route {
            children,
            failover_exptime: DEFAULT_EXPTIME,
        }))
    }

    fn failover(alloc: Global, value: &'a Value) -> Result<Option<Route<'a>>, AllocError>
        ensures { IfOk result (λ route. route ≡ failover_route (view value.now)) }
    {
        if !is_failover(value) {
            return Ok(None);
        }
        let Some(children) = listed_children(alloc, value)? else {
            return Ok(None);
        };
        let Some(failover_exptime) = exptime_in(value) else {
            return Ok(None);
        };
        Ok(Some(Route {
            children,
            failover_exptime,
        }))
    }
}

fn is_failover(value: &Value) -> bool
    ensures { result ≡ is_failover (view value.now) }
{
    match value.get("type") {
        Some(kind) => text_of(kind) == "FailoverRoute",
        None => false,
    }
}

fn listed_children<'a>(alloc: Global, value: &'a Value) -> Result<Option<Vec<&'a str>>, AllocError>
    ensures { IfOk result (λ names. option_map (λ names. map (λ name. name.now) names.items) names
        ≡ listed_children (view value.now)) }
{
    match value.get("children").and_then(Value::as_array) {
        Some(list) => names_in(alloc, list),
        None => Ok(None),
    }
}

fn names_in<'a>(alloc: Global, list: &'a Vec<Value>) -> Result<Option<Vec<&'a str>>, AllocError>
    ensures { IfOk result (λ names. option_map (λ names. map (λ name. name.now) names.items) names
        ≡ names_in (items_view list.now.items)) }
{
    if list.is_empty() {
        return Ok(None);
    }
    let mut names = Vec::new(alloc);
    for value in list {
        let Some(name) = child_name(text_of(value)) else {
            return Ok(None);
        };
        names.push(name)?;
    }
    Ok(Some(names))
}

fn exptime_in(value: &Value) -> Option<u32>
    ensures { result ≡ exptime_in (view value.now) }
{
    match value.get("failover_exptime") {
        Some(exptime) => exptime_of(exptime),
        None => Some(DEFAULT_EXPTIME),
    }
}

fn exptime_of(value: &Value) -> Option<u32>
    ensures { result ≡ exptime_of (view value.now) }
{
    let exptime = value.as_u64()?;
    if exptime <= MAX_EXPTIME {
        Some(exptime as u32)
    } else {
        None
    }
}
