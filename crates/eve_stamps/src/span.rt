//! Which stripes a request locks.

ghost use Rattle.std.specs.Prelude.{◌≡◌, ◌≤◌, ◌<◌, ℕ, List, ◌==◌, ◌||◌, length};
ghost use Rattle.eve_smallbank.specs.SmallBank.{Request};
ghost use Rattle.eve_smallbank.specs.Touch.{touched_of, rows_in};
ghost use Rattle.eve_stamps.specs.OpeningRows.{stripe_of, touches};

use crate::limits::STRIPES;
use eve_accounts::Row;
use eve_smallbank::{Kind, UpToThree};

/// The stripe in which the row lies: that of its customer.
fn stripe_of(row: Row) -> usize
    ensures stripe { result ≡ stripe_of row }
    ensures range { result < STRIPES }
{
    (row.number() / 2 % STRIPES) as usize
}

/// The first and the last of the stripes that a request locks: the same one where its rows lie in one stripe.
#[derive(Clone, Copy)]
pub struct Span {
    /// The stripe that is locked first.
    pub first: usize,
    /// The stripe that is locked last.
    pub last: usize,
}

/// The stripes of a request's rows: those of its first row and of its last, since a request has the rows of at most
/// two customers, one customer after the other. There is some row, or the answer means nothing.
///
/// docs/DEPLOYMENT.md, "Schedule".
pub fn span_of(rows: &UpToThree<(Row, Kind)>) -> Span
    ensures rising { result.first ≤ result.last }
    ensures range { result.last < STRIPES }
    ensures exact { (names : List (List ℕ)) (request : Request) → rows.now ≡ rows_in (touched_of names request)
        → 0 < length rows.now → (stripe : ℕ)
        → touches rows.now stripe ≡ (result.first == stripe || result.last == stripe) }
{
    if rows.is_empty() {
        return Span { first: 0, last: 0 };
    }
    let one = stripe_of(rows.at(0).0);
    let other = stripe_of(rows.at(rows.len() - 1).0);
    Span {
        first: one.min(other),
        last: one.max(other),
    }
}
