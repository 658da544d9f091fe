//! The body of a Sent frame.

ghost use Rattle.std.specs.Prelude.{◌≡◌, is_some};
ghost use Rattle.eve_grammar.specs.Readers.{sent_of};

use crate::places::{i64_in, u32_in};
use crate::reply::is_reply;

/// How many bytes the body of a Sent frame has.
const SENT_LEN: usize = 26;

/// Whether these bytes are the body of a Sent frame, and no more. There are this many replicas and batches.
///
/// docs/TRACE.md, "Frames".
pub fn is_sent_body(replicas: u8, batches: u32, body: &[u8]) -> bool
    ensures { result ≡ is_some (sent_of replicas batches body.now) }
{
    if body.len() != SENT_LEN {
        return false;
    }
    let seq = u32_in(body, 13);
    body[12] < replicas && 1 <= seq && seq <= batches && is_reply(body[17], i64_in(body, 18))
}
