//! How a reply is spelled in bytes.

ghost use Rattle.std.specs.Prelude.{◌≡◌};
ghost use Rattle.eve_smallbank.specs.Spelling.{reply_text};

use crate::{Abort, Reply};
use byteorder::{BigEndian, ByteOrder};

/// A reply in nine bytes: its code, and the total in cents, which is 0 where there is none.
///
/// docs/TRACE.md, "Parts".
pub fn reply_bytes(reply: Reply) -> [u8; 9]
    ensures { result ≡ reply_text reply }
{
    let (code, total) = match reply {
        Reply::Done => (0, 0),
        Reply::Total(total) => (1, total),
        Reply::Aborted(Abort::NoSuchName) => (2, 0),
        Reply::Aborted(Abort::BadAmount) => (3, 0),
        Reply::Aborted(Abort::Insufficient) => (4, 0),
        Reply::Aborted(Abort::OutOfRange) => (5, 0),
    };
    let mut bytes = [0; 9];
    bytes[0] = code;
    BigEndian::write_i64(&mut bytes[1..], total);
    bytes
}
