//! Going through the requests of a batch.

ghost use Rattle.std.specs.Prelude.{◌≡◌, IsTrue, List};
ghost use Rattle.std.specs.Iterator.{YieldsFirstBy, item_count};
ghost use Rattle.eve_grammar.specs.Trace.{Asked};
ghost use Rattle.eve_grammar.specs.Readers.{asked_at};
ghost use Rattle.eve_grammar.specs.Bodies.{list_in, borrowed_asked};
ghost use Rattle.eve_frames.specs.inner.Items.{are_there};

use crate::again::asked_again;
use eve_grammar::Asked;
use std::marker::Model;

/// The requests of a batch that are still to come.
#[derive(Drop)]
pub struct Requests<'a> {
    // how many
    count: usize,
    // they stand in front of these
    bytes: &'a [u8],
}

impl<'a> Model for Requests<'a> {
    ghost Value = { List Asked };

    ghost view = { λ it. list_in asked_at it.count it.bytes.now };

    ghost invariant = { λ it. IsTrue (are_there asked_at it.count it.bytes.now) };
}

impl<'a> Requests<'a> {
    /// This many requests, which stand in front of the bytes.
    pub(crate) fn new(count: usize, bytes: &'a [u8]) -> Requests<'a>
        requires { IsTrue (are_there asked_at count bytes.now) }
        ensures { result ≡ list_in asked_at count bytes.now }
    {
        Requests { count, bytes }
    }
}

impl<'a> Iterator for Requests<'a> {
    type Item = Asked<'a>;

    ghost next_gives = { YieldsFirstBy borrowed_asked (λ rest. rest) };

    ghost remaining = { item_count (λ rest. rest) };

    #[inline(always)]
    fn next(&mut self) -> Option<Asked<'a>> {
        let count = self.count;
        if count == 0 {
            return None;
        }
        let (found, rest) = asked_again(self.bytes);
        self.count = count - 1;
        self.bytes = rest;
        Some(found)
    }
}
