//! What lies within the limits of the format by its type alone.

ghost use Rattle.std.specs.Prelude.{IsTrue};
ghost use Rattle.std.specs.List.{list_all};
ghost use Rattle.eve_grammar.specs.Limits.{is_number, is_reply, is_token};

use eve_smallbank::Reply;

/// Thirty-two bytes are a token.
pub fn token_fits(token: &[u8; 32])
    ensures { IsTrue (is_token token.now) }
{
    bytes_fit(token);
}

fn bytes_fit(bytes: &[u8])
    ensures { IsTrue (list_all (is_number 1) bytes.now) }
{
    let _bytes = bytes;
}

/// A reply's sum is a number of eight bytes.
pub fn reply_fits(reply: Reply)
    ensures { IsTrue (is_reply reply) }
{
    match reply {
        Reply::Done => {}
        Reply::Total(_total) => {}
        Reply::Aborted(_) => {}
    }
}
