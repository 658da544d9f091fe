//! Going through the restores of a rollback.

ghost use Rattle.std.specs.Prelude.{◌≡◌, IsTrue, List};
ghost use Rattle.std.specs.Iterator.{YieldsFirstBy, item_count};
ghost use Rattle.eve_grammar.specs.declared.limits.TheConstants.{MOST_ROWS};
ghost use Rattle.eve_grammar.specs.Readers.{restore_at};
ghost use Rattle.eve_grammar.specs.Bodies.{list_in};
ghost use Rattle.eve_grammar.specs.declared.restore.Restore.{Restore};
ghost use Rattle.eve_frames.specs.inner.Items.{are_there};

use eve_grammar::{MOST_ROWS, Restore, restore_at};
use std::marker::Model;

/// The restores of a rollback that are still to come.
#[derive(Drop)]
pub struct Restores<'a> {
    // how many
    count: usize,
    // they stand in front of these
    bytes: &'a [u8],
}

impl<'a> Model for Restores<'a> {
    ghost Value = { List Restore };

    ghost view = { λ it. list_in (restore_at MOST_ROWS) it.count it.bytes.now };

    ghost invariant = { λ it. IsTrue (are_there (restore_at MOST_ROWS) it.count it.bytes.now) };
}

impl<'a> Restores<'a> {
    /// This many restores, which stand in front of the bytes.
    pub(crate) fn new(count: usize, bytes: &'a [u8]) -> Restores<'a>
        requires { IsTrue (are_there (restore_at MOST_ROWS) count bytes.now) }
        ensures { result ≡ list_in (restore_at MOST_ROWS) count bytes.now }
    {
        Restores { count, bytes }
    }
}

impl<'a> Iterator for Restores<'a> {
    type Item = Restore;

    ghost next_gives = { YieldsFirstBy (λ r. r) (λ rest. rest) };

    ghost remaining = { item_count (λ rest. rest) };

    fn next(&mut self) -> Option<Restore> {
        let count = self.count;
        if count == 0 {
            return None;
        }
        let Some((found, rest)) = restore_at(MOST_ROWS, self.bytes) else {
            unreachable!();
        };
        self.count = count - 1;
        self.bytes = rest;
        Some(found)
    }
}
