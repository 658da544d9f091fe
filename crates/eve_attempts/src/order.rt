//! The order of the ticks.

ghost use Rattle.std.specs.Prelude.{◌≡◌, ◌≤◌, ◌<◌, IfOk, length, map};
ghost use Rattle.std.specs.List.{AllByRecursion};
ghost use Rattle.std.specs.List.Sorted.{IsPermutation};
ghost use Rattle.eve_attempts.specs.inner.RecordKeys.{keys_from, IsKeyOf, records_in, TicksDontFall};

use eve_grammar::MOST_REQUESTS;
use eve_stamps::AccessRecord;
use std::alloc::{AllocError, Global};

/// Tick and index of a record, and its place among the records.
pub type Key = (u64, u16, u16);

/// The keys of the records, in their order.
fn keys_of(alloc: Global, records: &[AccessRecord]) -> Result<Vec<Key>, AllocError>
    requires { length records.now ≤ MOST_REQUESTS }
    ensures { IfOk result (λ keys. keys.items ≡ keys_from 0 records.now) }
{
    let mut keys = Vec::with_capacity(alloc, records.len())?;
    for (place, record) in records.iter().enumerate() {
        keys.push_reserved((record.tick(), record.index(), place as u16));
    }
    Ok(keys)
}

/// The keys of the records by rising tick, equal ticks by index.
pub fn order_of(alloc: Global, records: &[AccessRecord]) -> Result<Vec<Key>, AllocError>
    requires { length records.now ≤ MOST_REQUESTS }
    ensures same { IfOk result (λ keys. IsPermutation records.now (records_in records.now keys.items)) }
    ensures rising { IfOk result (λ keys. TicksDontFall (records_in records.now keys.items)) }
    ensures there { IfOk result (λ keys. AllByRecursion (IsKeyOf records.now) keys.items) }
{
    let mut keys = keys_of(alloc, records)?;
    keys.as_mut_slice().sort_unstable();
    Ok(keys)
}

/// The indexes, in the order of the keys.
pub fn certificate_of(alloc: Global, order: &[Key]) -> Result<Vec<u16>, AllocError>
    ensures { IfOk result (λ indexes. indexes.items ≡ map (λ k. k.1) order.now) }
{
    let mut indexes = Vec::with_capacity(alloc, order.len())?;
    for key in order {
        indexes.push_reserved(key.1);
    }
    Ok(indexes)
}
