//! Restores of rollback frames.

ghost use Rattle.std.specs.Prelude.{◌≤◌};
ghost use Rattle.eve_grammar.specs.Readers.{Gives, restore_at};

use crate::entry::row_of;
use crate::limits::{MOST_ROWS, MOST_VERSIONS};
use crate::places::{bytes_from, i64_in, u32_in, u64_in};
use eve_accounts::{Cents, Row};

/// A row's version and value as they are committed.
#[derive(Clone, Copy, PartialEq, Eq)]
pub struct Restore {
    /// The row's version, from 0.
    pub version: u64,
    /// Its value.
    pub value: Cents,
    /// The row.
    pub row: Row,
}

/// A restore in 20 bytes, of one of this many rows.
///
/// docs/TRACE.md, "Parts": a version of at most `MOST_VERSIONS`. `None` where the bytes begin with none.
pub fn restore_at(rows: u32, bytes: &[u8]) -> Option<(Restore, &[u8])>
    requires { rows ≤ MOST_ROWS }
    ensures { Gives (λ x. (x.0, x.1.now)) result (restore_at rows bytes.now) }
{
    if bytes.len() < 20 {
        return None;
    }
    let Some(value) = Cents::new(i64_in(bytes, 12)) else {
        return None;
    };
    let number = u32_in(bytes, 0);
    let version = u64_in(bytes, 4);
    if number >= rows || version > MOST_VERSIONS {
        return None;
    }
    let row = row_of(number);
    let restore = Restore {
        row,
        version,
        value,
    };
    Some((restore, bytes_from(bytes, 20)))
}
