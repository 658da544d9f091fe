//! The body of an Access frame.

ghost use Rattle.std.specs.Prelude.{◌≡◌, ◌≤◌, is_some};
ghost use Rattle.eve_grammar.specs.Readers.{many_at, entry_at, entries_at, access_of};
ghost use Rattle.eve_grammar.specs.inner.Scans.{Passes};

use crate::entry::entry_at;
use crate::fields::{u8_at, u16_at};
use crate::limits::{MOST_ENTRIES, MOST_ROWS};

/// What stands after this many entries.
#[tactic(auto, unfolding(crate::specs::inner::Scans::rest_at))]
fn pass_each(rows: u32, count: u8, bytes: &[u8]) -> Option<&[u8]>
    requires { rows ≤ MOST_ROWS }
    ensures { Passes (λ x. x.now) result (many_at (entry_at rows) count bytes.now) }
{
    let mut rest = bytes;
    for _ in 0..count {
        let Some((_entry, more)) = entry_at(rows, rest) else {
            return None;
        };
        rest = more;
    }
    Some(rest)
}

/// What stands after a count of `MOST_ENTRIES` at most and as many entries.
#[tactic(auto, unfolding(crate::specs::Readers::entries_at))]
fn pass_entries(rows: u32, bytes: &[u8]) -> Option<&[u8]>
    requires { rows ≤ MOST_ROWS }
    ensures { Passes (λ x. x.now) result (entries_at rows bytes.now) }
{
    let Some((count, entries)) = u8_at(bytes) else {
        return None;
    };
    if count > MOST_ENTRIES {
        return None;
    }
    pass_each(rows, count, entries)
}

/// Whether these bytes are the body of an Access frame, and no more. There are this many rows.
///
/// docs/TRACE.md, "Frames".
#[tactic(auto, unfolding(crate::specs::Readers::access_of))]
pub fn is_access_body(rows: u32, body: &[u8]) -> bool
    requires { rows ≤ MOST_ROWS }
    ensures { result ≡ is_some (access_of rows body.now) }
{
    let Some((_worker, rest)) = u8_at(body) else {
        return false;
    };
    let Some((_place, rest)) = u16_at(rest) else {
        return false;
    };
    let Some((_index, rest)) = u16_at(rest) else {
        return false;
    };
    let Some(rest) = pass_entries(rows, rest) else {
        return false;
    };
    rest.is_empty()
}
