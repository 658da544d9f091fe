//! Entries of access frames.

ghost use Rattle.std.specs.Prelude.{◌≡◌, ◌<◌, ◌≤◌, ◌+◌, ◌||◌, ℕ, IsTrue, Some, is_some, length};
ghost use Rattle.std.specs.Ordering.{int_eq};
ghost use Rattle.eve_accounts.specs.Money.{is_balance};
ghost use Rattle.eve_smallbank.specs.Access.{is_write};
ghost use Rattle.eve_grammar.specs.Places.{signed_in};
ghost use Rattle.eve_grammar.specs.Readers.{Gives, kind_from, entry_at};

use crate::limits::{MOST_ROWS, MOST_VERSIONS};
use crate::places::{bytes_from, i64_in, u32_in, u64_in};
use eve_accounts::{Cents, Row};
use eve_smallbank::{Entry, Kind};

/// The row of this number.
pub fn row_of(number: u32) -> Row
    requires { number < MOST_ROWS }
    ensures { result ≡ number }
{
    if number % 2 == 0 {
        Row::saving(number / 2)
    } else {
        Row::checking(number / 2)
    }
}

fn kind_from(code: u8) -> Option<Kind>
    ensures { result ≡ kind_from code }
{
    match code {
        0 => Some(Kind::Read),
        1 => Some(Kind::Write),
        _ => None,
    }
}

/// Whether the values are those of an entry of this kind: a read leaves what it saw.
fn agree(kind: Kind, seen: Cents, after: Cents) -> bool
    ensures { result ≡ (is_write kind || int_eq after seen) }
{
    match kind {
        Kind::Read => after.get() == seen.get(),
        Kind::Write => true,
    }
}

/// An entry in 29 bytes, of one of this many rows.
///
/// docs/TRACE.md, "Parts": a version of at most `MOST_VERSIONS`, and a read leaves what it saw.
pub(crate) fn entry_at(rows: u32, bytes: &[u8]) -> Option<(Entry, &[u8])>
    requires { rows ≤ MOST_ROWS }
    ensures { Gives (λ x. (x.0, x.1.now)) result (entry_at rows bytes.now) }
{
    if bytes.len() < 29 {
        return None;
    }
    let Some(kind) = kind_from(bytes[4]) else {
        return None;
    };
    let Some(seen) = Cents::new(i64_in(bytes, 13)) else {
        return None;
    };
    let Some(after) = Cents::new(i64_in(bytes, 21)) else {
        return None;
    };
    let number = u32_in(bytes, 0);
    let version = u64_in(bytes, 5);
    if number >= rows || version > MOST_VERSIONS || !agree(kind, seen, after) {
        return None;
    }
    let row = row_of(number);
    let entry = Entry {
        row,
        kind,
        version,
        seen,
        after,
    };
    Some((entry, bytes_from(bytes, 29)))
}

/// The kind of this code, which is that of one.
#[inline(always)]
fn kind_again(code: u8) -> Kind
    requires { IsTrue (is_some (kind_from code)) }
    ensures { kind_from code ≡ Some result }
{
    match code {
        0 => Kind::Read,
        1 => Kind::Write,
        _ => unreachable!(),
    }
}

/// The balance at this place, where one is known to stand.
#[inline(always)]
fn cents_again(bytes: &[u8], at: usize) -> Cents
    requires there { at + 8 ≤ length bytes.now }
    requires within { IsTrue (is_balance (signed_in at bytes.now)) }
    ensures { result ≡ signed_in at bytes.now }
{
    Cents::of(i64_in(bytes, at))
}

/// The entry that stands in front, and the bytes after it, where an entry of one of these rows is known to stand: no
/// limit is tested a second time.
#[inline(always)]
pub fn entry_again(bytes: &[u8]) -> (Entry, &[u8])
    requires { (rows : ℕ) × (rows ≤ MOST_ROWS) × IsTrue (is_some (entry_at rows bytes.now)) }
    ensures { (rows : ℕ) → IsTrue (is_some (entry_at rows bytes.now))
        → entry_at rows bytes.now ≡ Some (result.0, result.1.now) }
{
    let entry = Entry {
        row: row_of(u32_in(bytes, 0)),
        kind: kind_again(bytes[4]),
        version: u64_in(bytes, 5),
        seen: cents_again(bytes, 13),
        after: cents_again(bytes, 21),
    };
    (entry, bytes_from(bytes, 29))
}
