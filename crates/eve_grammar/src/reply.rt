//! Replies.

ghost use Rattle.std.specs.Prelude.{◌≡◌, is_some};
ghost use Rattle.eve_grammar.specs.Readers.{Gives, reply_from, reply_at};

use crate::places::{bytes_from, i64_in};
use eve_smallbank::{Abort, Reply};

/// The reply of a code and a value, which is 0 except for a total.
fn reply_from(code: u8, value: i64) -> Option<Reply>
    ensures { result ≡ reply_from (code, value) }
{
    if code == 1 {
        return Some(Reply::Total(value));
    }
    if value != 0 {
        return None;
    }
    match code {
        0 => Some(Reply::Done),
        2 => Some(Reply::Aborted(Abort::NoSuchName)),
        3 => Some(Reply::Aborted(Abort::BadAmount)),
        4 => Some(Reply::Aborted(Abort::Insufficient)),
        5 => Some(Reply::Aborted(Abort::OutOfRange)),
        _ => None,
    }
}

/// Whether a code and a value are those of a reply.
pub(crate) fn is_reply(code: u8, value: i64) -> bool
    ensures { result ≡ is_some (reply_from (code, value)) }
{
    code == 1 || value == 0 && code <= 5
}

/// A reply in nine bytes: a code and a value in cents, which is 0 except for a total; `None` where the bytes begin with
/// none.
pub fn reply_at(bytes: &[u8]) -> Option<(Reply, &[u8])>
    ensures { Gives (λ x. (x.0, x.1.now)) result (reply_at bytes.now) }
{
    if bytes.len() < 9 {
        return None;
    }
    let Some(reply) = reply_from(bytes[0], i64_in(bytes, 1)) else {
        return None;
    };
    Some((reply, bytes_from(bytes, 9)))
}
