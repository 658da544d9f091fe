//! Going through the rows of a state that was transferred.

ghost use Rattle.std.specs.Prelude.{◌≡◌, IsTrue, List};
ghost use Rattle.std.specs.Iterator.{YieldsFirstBy, item_count};
ghost use Rattle.eve_smallbank.specs.declared.versioned.Versioned.{Versioned};
ghost use Rattle.eve_grammar.specs.Readers.{versioned_at};
ghost use Rattle.eve_grammar.specs.Bodies.{list_in};
ghost use Rattle.eve_frames.specs.inner.Items.{are_there};

use eve_grammar::versioned_at;
use eve_smallbank::Versioned;
use std::marker::Model;

/// What the rows have that are still to come.
#[derive(Drop)]
pub struct Rows<'a> {
    // how many
    count: usize,
    // they stand in front of these
    bytes: &'a [u8],
}

impl<'a> Model for Rows<'a> {
    ghost Value = { List Versioned };

    ghost view = { λ it. list_in versioned_at it.count it.bytes.now };

    ghost invariant = { λ it. IsTrue (are_there versioned_at it.count it.bytes.now) };
}

impl<'a> Rows<'a> {
    /// What this many rows have, which stands in front of the bytes.
    pub(crate) fn new(count: usize, bytes: &'a [u8]) -> Rows<'a>
        requires { IsTrue (are_there versioned_at count bytes.now) }
        ensures { result ≡ list_in versioned_at count bytes.now }
    {
        Rows { count, bytes }
    }
}

impl<'a> Iterator for Rows<'a> {
    type Item = Versioned;

    ghost next_gives = { YieldsFirstBy (λ r. r) (λ rest. rest) };

    ghost remaining = { item_count (λ rest. rest) };

    fn next(&mut self) -> Option<Versioned> {
        let count = self.count;
        if count == 0 {
            return None;
        }
        let Some((found, rest)) = versioned_at(self.bytes) else {
            unreachable!();
        };
        self.count = count - 1;
        self.bytes = rest;
        Some(found)
    }
}
