//! Who owns which stripe, and which one is next.

ghost use Rattle.std.specs.Prelude.{◌≡◌, ◌<◌, ℕ, List, ◌&&◌, not, length, slice_index_or, None};
ghost use Rattle.eve_smallbank.specs.SmallBank.{Request};
ghost use Rattle.eve_smallbank.specs.Touch.{touched_of, rows_in};
ghost use Rattle.eve_stamps.specs.declared.limits.TheConstants.{STRIPES};
ghost use Rattle.eve_stamps.specs.OpeningRows.{touches};
ghost use Rattle.eve_stamps_schedule.specs.Stripes.{least_from, greatest_below};
ghost use Rattle.eve_stamps_schedule.specs.Events.{is_owner};

use eve_accounts::Row;
use eve_smallbank::{Kind, UpToThree};
use eve_stamps::span_of;

/// The least stripe that the rows lie in and that the worker doesn't own.
pub fn next_stripe(
    owners: &[Option<u8>],
    rows: &UpToThree<(Row, Kind)>,
    worker: u8,
) -> Option<usize>
    requires owners { length owners.now ≡ STRIPES }
    ensures { (names : List (List ℕ)) (request : Request) → rows.now ≡ rows_in (touched_of names request)
        → result ≡ least_from 0 STRIPES
        (λ s. touches rows.now s && not (is_owner worker (slice_index_or owners.now s None))) }
{
    if rows.is_empty() {
        return None;
    }
    let span = span_of(rows);
    if !is_owner(owners, span.first, worker) {
        return Some(span.first);
    }
    if !is_owner(owners, span.last, worker) {
        return Some(span.last);
    }
    None
}

/// The greatest stripe that the worker owns.
pub fn last_stripe(owners: &[Option<u8>], worker: u8) -> Option<usize>
    requires owners { length owners.now ≡ STRIPES }
    ensures { result ≡ greatest_below STRIPES (λ s. is_owner worker (slice_index_or owners.now s None)) }
{
    for stripe in (0..owners.len()).rev() {
        if is_owner(owners, stripe, worker) {
            return Some(stripe);
        }
    }
    None
}

fn is_owner(owners: &[Option<u8>], stripe: usize, worker: u8) -> bool
    requires there { stripe < length owners.now }
    ensures { result ≡ is_owner worker (slice_index_or owners.now stripe None) }
{
    match owners[stripe] {
        Some(owner) => owner == worker,
        None => false,
    }
}
