//! Going through the entries of an access.

ghost use Rattle.std.specs.Prelude.{◌≡◌, IsTrue, List};
ghost use Rattle.std.specs.Iterator.{YieldsFirst, item_count};
ghost use Rattle.eve_smallbank.specs.declared.entry.Entry.{Entry};
ghost use Rattle.eve_grammar.specs.Readers.{entry_at};
ghost use Rattle.eve_grammar.specs.Bodies.{list_in};
ghost use Rattle.eve_frames.specs.inner.Items.{are_there};
ghost use Rattle.eve_grammar.specs.declared.limits.TheConstants.{MOST_ROWS};

use eve_grammar::entry_again;
use eve_smallbank::Entry;
use std::marker::Model;

/// The entries of an access that are still to come.
#[derive(Drop)]
pub struct Entries<'a> {
    // how many
    count: usize,
    // they stand in front of these
    bytes: &'a [u8],
}

impl<'a> Model for Entries<'a> {
    ghost Value = { List Entry };

    ghost view = { λ it. list_in (entry_at MOST_ROWS) it.count it.bytes.now };

    ghost invariant = { λ it. IsTrue (are_there (entry_at MOST_ROWS) it.count it.bytes.now) };
}

impl<'a> Entries<'a> {
    /// This many entries, which stand in front of the bytes.
    pub(crate) fn new(count: usize, bytes: &'a [u8]) -> Entries<'a>
        requires { IsTrue (are_there (entry_at MOST_ROWS) count bytes.now) }
        ensures { result ≡ list_in (entry_at MOST_ROWS) count bytes.now }
    {
        Entries { count, bytes }
    }
}

impl<'a> Iterator for Entries<'a> {
    type Item = Entry;

    ghost next_gives = { YieldsFirst (λ rest. rest) };

    ghost remaining = { item_count (λ rest. rest) };

    fn next(&mut self) -> Option<Entry> {
        let count = self.count;
        if count == 0 {
            return None;
        }
        let (entry, rest) = entry_again(self.bytes);
        self.count = count - 1;
        self.bytes = rest;
        Some(entry)
    }
}
