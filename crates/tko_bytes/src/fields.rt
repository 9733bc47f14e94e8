//! The fields of a line, which single spaces separate.
ghost use Rattle.std.specs.Prelude.{◌≡◌, [], ◌∷◌, MatchOption};
ghost use Rattle.tko_bytes.specs.Fields.{fields_of};

use memchr::memchr;
use std::marker::Model;

/// The fields of a line that are still to be read. Contracts see the list of them.
#[derive(Drop)]
pub struct Fields<'a> {
    rest: Option<&'a [u8]>,
}

impl<'a> Model for Fields<'a> {
    ghost use Rattle.std.specs.Prelude.{List, ℕ};
    ghost use Rattle.std.specs.Option.{option_copied};
    ghost use Rattle.tko_bytes.specs.Fields.{fields_in};

    ghost Value = { List (List ℕ) };

    ghost view = { λ w. fields_in (option_copied w.rest) };
}

impl<'a> Fields<'a> {
    /// All fields of a line: one more than it has spaces.
    pub fn of(line: &'a [u8]) -> Fields<'a>
        ensures { result ≡ fields_of line.now }
    {
        Fields { rest: Some(line) }
    }

    /// The next field, if there is one.
    pub fn next(&mut self) -> Option<&'a [u8]>
        ensures { MatchOption result (self.old ≡ []) (λ field. self.old ≡ field.now ∷ self.new) }
    {
        let rest = self.rest?;
        match memchr(b' ', rest) {
            Some(end) => {
                self.rest = Some(&rest[end + 1..]);
                Some(&rest[..end])
            }
            None => {
                self.rest = None;
                Some(rest)
            }
        }
    }
}
