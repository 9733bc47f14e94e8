//! Numbers of servers.
ghost use Rattle.std.specs.Prelude.{◌≡◌, ◌<◌, ◌≤◌, [], IfOk, IfSome, IfNone, OnOk, OnErr, MatchBool, flat_map, length, map, option_map, string_bytes};
ghost use Rattle.std.specs.List.{fold, position};
ghost use Rattle.std.specs.Str.{bytes_eq};
ghost use Rattle.serde_json.specs.View.{items_view};
ghost use Rattle.tko_pools.specs.Json.{texts_of};
ghost use Rattle.tko_pools.specs.Numbering.{number_in, with_address};

use crate::json::text_of;
use serde_json::Value;
use std::alloc::{AllocError, Global};
use std::marker::Model;

/// The different addresses, each at its number. Contracts see the list of their texts.
#[derive(Drop)]
pub(crate) struct NumberedAddresses {
    texts: Vec<String>,
}

impl Model for NumberedAddresses {
    ghost use Rattle.std.specs.Prelude.{List, ℕ, map, string_bytes};

    ghost Value = { List (List ℕ) };

    ghost view = { λ a. map string_bytes a.texts.items };
}

impl NumberedAddresses {
    pub(crate) fn new(alloc: Global) -> NumberedAddresses
        ensures { result ≡ [] }
    {
        NumberedAddresses {
            texts: Vec::new(alloc),
        }
    }

    /// These addresses, each at its place.
    pub(crate) fn of(texts: Vec<String>) -> NumberedAddresses
        ensures { result ≡ map string_bytes texts.items }
    {
        NumberedAddresses { texts }
    }

    pub(crate) fn copy(&self, alloc: Global) -> Result<NumberedAddresses, AllocError>
        ensures { IfOk result (λ copy. copy ≡ self.now) }
    {
        Ok(NumberedAddresses {
            texts: copy_texts(alloc, &self.texts)?,
        })
    }

    pub(crate) fn texts(&self) -> &[String]
        ensures { map string_bytes result.now ≡ self.now }
    {
        self.texts.as_slice()
    }

    pub(crate) fn len(&self) -> usize
        ensures { result ≡ length self.now }
    {
        self.texts.len()
    }

    /// The number of an address.
    #[tactic(auto, using(crate::proofs::NumberingLemmas::position_map))]
    pub(crate) fn number(&self, text: &str) -> Option<usize>
        ensures { result ≡ position (bytes_eq text.now) self.now }
    {
        place_of(&self.texts, text)
    }

    /// Gives an address the next number, if it is new.
    pub(crate) fn add(&mut self, alloc: Global, text: &str) -> Result<(), AllocError>
        ensures { OnOk result (self.new ≡ with_address self.old text.now) }
    {
        if self.number(text).is_none() {
            self.texts.push(String::from_str(alloc, text)?)?;
        }
        Ok(())
    }

    /// Gives each new address of a list the next number.
    pub(crate) fn add_all(&mut self, alloc: Global, servers: &[Value]) -> Result<(), AllocError>
        ensures { OnOk result
            (self.new ≡ fold with_address self.old (texts_of (items_view servers.now))) }
    {
        for value in servers {
            self.add(alloc, text_of(value))?;
        }
        Ok(())
    }

    /// The number of an address, and how many addresses there are where it has none.
    fn number_in(&self, text: &str) -> usize
        ensures { result ≡ number_in self.now text.now }
    {
        self.number(text).unwrap_or(self.len())
    }

    /// The numbers of a list's addresses.
    pub(crate) fn numbers(&self, alloc: Global, servers: &[Value]) -> Result<Vec<usize>, AllocError>
        ensures { IfOk result (λ numbers. numbers.items
            ≡ map (number_in self.now) (texts_of (items_view servers.now))) }
    {
        let mut numbers = Vec::new(alloc);
        for value in servers {
            numbers.push(self.number_in(text_of(value)))?;
        }
        Ok(numbers)
    }
}

/// Copies of these texts, in order.
pub(crate) fn copy_texts(alloc: Global, texts: &[String]) -> Result<Vec<String>, AllocError>
    ensures { IfOk result (λ copies. map string_bytes copies.items ≡ map string_bytes texts.now) }
{
    let mut copies = Vec::new(alloc);
    for text in texts {
        copies.push(String::from_str(alloc, text.as_str())?)?;
    }
    Ok(copies)
}

/// The place of a text.
fn place_of(texts: &[String], text: &str) -> Option<usize>
    ensures { result ≡ position (λ known. bytes_eq text.now (string_bytes known)) texts.now }
{
    texts.iter().position(|known| text == known.as_str())
}
