//! Going through the replies of an attempt.

ghost use Rattle.std.specs.Prelude.{◌≡◌, IsTrue, List};
ghost use Rattle.std.specs.Iterator.{YieldsFirst, item_count};
ghost use Rattle.eve_smallbank.specs.declared.request.Reply.{Reply};
ghost use Rattle.eve_grammar.specs.Readers.{reply_at};
ghost use Rattle.eve_grammar.specs.Bodies.{list_in};
ghost use Rattle.eve_frames.specs.inner.Items.{are_there};

use eve_grammar::reply_at;
use eve_smallbank::Reply;
use std::marker::Model;

/// The replies of an attempt that are still to come.
#[derive(Drop)]
pub struct Replies<'a> {
    // how many
    count: usize,
    // they stand in front of these
    bytes: &'a [u8],
}

impl<'a> Model for Replies<'a> {
    ghost Value = { List Reply };

    ghost view = { λ it. list_in reply_at it.count it.bytes.now };

    ghost invariant = { λ it. IsTrue (are_there reply_at it.count it.bytes.now) };
}

impl<'a> Replies<'a> {
    /// This many replies, which stand in front of the bytes.
    pub(crate) fn new(count: usize, bytes: &'a [u8]) -> Replies<'a>
        requires { IsTrue (are_there reply_at count bytes.now) }
        ensures { result ≡ list_in reply_at count bytes.now }
    {
        Replies { count, bytes }
    }
}

impl<'a> Iterator for Replies<'a> {
    type Item = Reply;

    ghost next_gives = { YieldsFirst (λ rest. rest) };

    ghost remaining = { item_count (λ rest. rest) };

    fn next(&mut self) -> Option<Reply> {
        let count = self.count;
        if count == 0 {
            return None;
        }
        let Some((reply, rest)) = reply_at(self.bytes) else {
            unreachable!();
        };
        self.count = count - 1;
        self.bytes = rest;
        Some(reply)
    }
}
