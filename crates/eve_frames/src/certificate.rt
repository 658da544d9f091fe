//! Going through the indexes of an attempt's certificate.

ghost use Rattle.std.specs.Prelude.{◌≡◌, ℕ, IsTrue, List};
ghost use Rattle.std.specs.Iterator.{YieldsFirst, item_count};
ghost use Rattle.eve_grammar.specs.Readers.{number_at};
ghost use Rattle.eve_grammar.specs.Bodies.{list_in};
ghost use Rattle.eve_frames.specs.inner.Items.{are_there};

use eve_grammar::u16_at;
use std::marker::Model;

/// The indexes of an attempt's certificate that are still to come.
#[derive(Drop)]
pub struct Certificate<'a> {
    // how many
    count: usize,
    // they stand in front of these
    bytes: &'a [u8],
}

impl<'a> Model for Certificate<'a> {
    ghost Value = { List ℕ };

    ghost view = { λ it. list_in (number_at 2) it.count it.bytes.now };

    ghost invariant = { λ it. IsTrue (are_there (number_at 2) it.count it.bytes.now) };
}

impl<'a> Certificate<'a> {
    /// This many indexes, which stand in front of the bytes.
    pub(crate) fn new(count: usize, bytes: &'a [u8]) -> Certificate<'a>
        requires { IsTrue (are_there (number_at 2) count bytes.now) }
        ensures { result ≡ list_in (number_at 2) count bytes.now }
    {
        Certificate { count, bytes }
    }
}

impl<'a> Iterator for Certificate<'a> {
    type Item = u16;

    ghost next_gives = { YieldsFirst (λ rest. rest) };

    ghost remaining = { item_count (λ rest. rest) };

    fn next(&mut self) -> Option<u16> {
        let count = self.count;
        if count == 0 {
            return None;
        }
        let Some((index, rest)) = u16_at(self.bytes) else {
            unreachable!();
        };
        self.count = count - 1;
        self.bytes = rest;
        Some(index)
    }
}
