//! Versions and values of rows.

ghost use Rattle.eve_grammar.specs.Readers.{Gives, versioned_at};

use crate::limits::MOST_VERSIONS;
use crate::places::{bytes_from, i64_in, u64_in};
use eve_accounts::Cents;
use eve_smallbank::Versioned;

/// A row's version, which is at most `MOST_VERSIONS`, and its value, in 16 bytes; `None` where the bytes begin with
/// none.
///
/// docs/TRACE.md, "Version 2".
pub fn versioned_at(bytes: &[u8]) -> Option<(Versioned, &[u8])>
    ensures { Gives (λ x. (x.0, x.1.now)) result (versioned_at bytes.now) }
{
    if bytes.len() < 16 {
        return None;
    }
    let Some(value) = Cents::new(i64_in(bytes, 8)) else {
        return None;
    };
    let version = u64_in(bytes, 0);
    if version > MOST_VERSIONS {
        return None;
    }
    let versioned = Versioned { version, value };
    Some((versioned, bytes_from(bytes, 16)))
}
