//! The values in a response to a request of several keys.
ghost use Rattle.std.specs.Prelude.{◌≡◌, ◌≢◌, ◌++◌, ℕ, All, IfOk, IfSome, List, OnErr, OnOk, flat_map, length, position, take};
ghost use Rattle.std.specs.Str.{bytes_eq};
ghost use Rattle.tko_text.specs.Places.{IsPlaceIn, value_at, values_in};
ghost use Rattle.tko_text.specs.Responses.{value_for, value_text};

use super::Value;
use super::place::ValuePlace;
use super::writer::append_places;
use crate::{Data, Key, NoMemory};
use bytes::Bytes;
use std::alloc::Global;
use std::collections::VecDeque;
use std::marker::Model;

/// The values that a response has for several keys, in the order in which they came. They share
/// the text that they were read from. Contracts see the list of them.
#[derive(Debug, Drop)]
pub struct Listed {
    text: Bytes,
    places: VecDeque<ValuePlace>,
}

impl Model for Listed {
    ghost use Rattle.std.specs.Prelude.{All, List};
    ghost use Rattle.tko_text.specs.Places.{IsPlaceIn, values_in};
    ghost use Rattle.tko_text.specs.declared.response.body.Value.{Value as Found};

    ghost Value = { List Found };

    ghost view = { λ l. values_in l.text l.places.items };

    ghost invariant = { λ l. All (IsPlaceIn l.text) l.places.items };
}

impl Listed {
    /// The values at these places of a text.
    pub(super) fn new(text: Bytes, places: Vec<ValuePlace>) -> Listed
        requires { All (IsPlaceIn text) places.items }
        ensures { result ≡ values_in text places.items }
    {
        let places = VecDeque::from_vec(places);
        Listed { text, places }
    }

    /// Takes the value of this key out of the list, if there is one.
    pub(super) fn take(&mut self, alloc: Global, key: &Key) -> Result<Option<Value>, NoMemory>
        ensures ok { IfOk result (λ found. found ≡ value_for key.now self.old) }
        ensures others { (other : List ℕ) → other ≢ key.now
            → value_for other self.new ≡ value_for other self.old }
        ensures err { OnErr result (self.new ≡ self.old) }
    {
        let Some(index) = place_of(&self.places, key.as_bytes()) else {
            return Ok(None);
        };
        let text = self.text.clone()?;
        let Some(place) = self.places.remove(index) else {
            unreachable!();
        };
        Ok(Some(shared_value(text, place)))
    }

    /// Puts the written form of the values at the end of a buffer: their first lines and data. At
    /// an `Err` a part of it may be there.
    pub(super) fn append_to(&self, out: &mut Vec<u8>) -> Result<(), NoMemory>
        ensures ok { OnOk result (out.new.items ≡ out.old.items ++ flat_map value_text self.now) }
        ensures err { OnErr result (take (length out.old.items) out.new.items ≡ out.old.items) }
    {
        let (front, back) = self.places.as_slices();
        append_places(self.text.as_slice(), front, out)?;
        append_places(self.text.as_slice(), back, out)
    }
}

/// The first of the places that has this key.
fn place_of(places: &VecDeque<ValuePlace>, key: &[u8]) -> Option<usize>
    ensures { result ≡ position (λ place. bytes_eq place.key key.now) places.now.items }
{
    places.iter().position(|place| place.key.as_bytes() == key)
}

/// The value at a place of a text.
fn shared_value(text: Bytes, place: ValuePlace) -> Value
    requires { IsPlaceIn text place }
    ensures { result ≡ value_at text place }
{
    let ValuePlace { key, head, begin } = place;
    Value {
        key,
        flags: head.flags,
        data: Data::part_of(text, begin, head.size),
        unique: head.unique,
    }
}
