//! Along an attempt's records.

ghost use Rattle.std.specs.Prelude.{◌≡◌, ◌≤◌, ◌+◌, ◌*◌, ◌<◌, ◌++◌, IsTrue, [], ◌∷◌, length, map, filter, vec_len};
ghost use Rattle.std.specs.Prelude.{vec_capacity};
ghost use Rattle.std.specs.Bool.{Decides, OnTrue, OnFalse};
ghost use Rattle.std.specs.List.{list_all, AllByRecursion};
ghost use Rattle.eve_smallbank.specs.Access.{is_write};
ghost use Rattle.eve_smallbank.specs.Chain.{table_after};
ghost use Rattle.eve_grammar.specs.Limits.{is_entry, is_access};
ghost use Rattle.eve_attempts.specs.Ledgers.{table_of_rows, is_write_in, values_before};
ghost use Rattle.eve_attempts.specs.ClosedAttempts.{access_noted, writes_along};
ghost use Rattle.eve_attempts.specs.inner.RecordKeys.{IsKeyOf, records_in, AreSeenAlong, table_after_records};

use crate::order::Key;
use crate::rows::Rows;
use eve_smallbank::{Entry, UpToThree};
use eve_stamps::AccessRecord;

/// Takes the entry and appends it, if it is a write.
fn write_one(rows: &mut Rows, entry: &Entry, written: &mut Vec<Entry>)
    requires entry { IsTrue (is_entry (length rows.old.rows.balances) entry.now) }
    requires room { vec_len written.old < vec_capacity written.old }
    ensures as_many { length rows.new.rows.balances ≡ length rows.old.rows.balances }
    ensures versions { length rows.new.rows.versions ≡ length rows.old.rows.versions }
    ensures version { rows.new.version ≡ rows.old.version }
    ensures table { table_of_rows rows.new.rows ≡ table_after (table_of_rows rows.old.rows) (entry.now ∷ []) }
    ensures written { written.new.items ≡ written.old.items ++ filter (λ e. is_write e.kind) (entry.now ∷ []) }
    ensures len { vec_len written.new ≤ vec_len written.old + 1 }
    ensures capacity { vec_capacity written.new ≡ vec_capacity written.old }
{
    if entry.kind.is_write() {
        rows.write(entry);
        written.push_reserved(*entry);
    }
}

/// Takes the writes among the entries, and appends them.
fn write_all(rows: &mut Rows, entries: &UpToThree<Entry>, written: &mut Vec<Entry>)
    requires entries { IsTrue (list_all (is_entry (length rows.old.rows.balances)) entries.now) }
    requires room { vec_len written.old + length entries.now ≤ vec_capacity written.old }
    ensures as_many { length rows.new.rows.balances ≡ length rows.old.rows.balances }
    ensures versions { length rows.new.rows.versions ≡ length rows.old.rows.versions }
    ensures version { rows.new.version ≡ rows.old.version }
    ensures table { table_of_rows rows.new.rows ≡ table_after (table_of_rows rows.old.rows) entries.now }
    ensures written { written.new.items ≡ written.old.items ++ filter (λ e. is_write e.kind) entries.now }
    ensures len { vec_len written.new ≤ vec_len written.old + length entries.now }
    ensures capacity { vec_capacity written.new ≡ vec_capacity written.old }
{
    let count = entries.len();
    for place in 0..3 {
        if place < count {
            write_one(rows, &entries.at(place), written);
        }
    }
}

/// Takes what the records write, in the order of their keys, and appends it, if each entry sees what the rows and the
/// records before it leave. Else the rows stay as they were.
///
/// docs/MODEL.md, "Visible version, chained".
pub fn write_along(
    rows: &mut Rows,
    records: &[AccessRecord],
    order: &[Key],
    written: &mut Vec<Entry>,
) -> bool
    requires paired { length rows.old.rows.versions ≡ length rows.old.rows.balances }
    requires there { AllByRecursion (IsKeyOf records.now) order.now }
    requires limits { IsTrue (list_all (is_access (length rows.old.rows.balances)) (map access_noted records.now)) }
    requires none { written.old.items ≡ [] }
    requires empty { vec_len written.old ≡ 0 }
    requires room { 3 * length order.now ≤ vec_capacity written.old }
    ensures seen { Decides result (AreSeenAlong (table_of_rows rows.old.rows) (records_in records.now order.now)) }
    ensures as_many { length rows.new.rows.balances ≡ length rows.old.rows.balances }
    ensures versions { length rows.new.rows.versions ≡ length rows.old.rows.versions }
    ensures version { rows.new.version ≡ rows.old.version }
    ensures table { OnTrue result (table_of_rows rows.new.rows
        ≡ table_after_records (table_of_rows rows.old.rows) (records_in records.now order.now)) }
    ensures written { OnTrue result (written.new.items ≡ writes_along (records_in records.now order.now)) }
    ensures right { OnTrue result (IsTrue (list_all (is_write_in (length rows.new.rows.balances)) written.new.items)) }
    ensures undone { OnTrue result
        (values_before (table_of_rows rows.new.rows) written.new.items ≡ table_of_rows rows.old.rows) }
    ensures kept { OnFalse result (rows.new ≡ rows.old) }
{
    for key in order {
        let entries = records[key.2 as usize].entries();
        if !rows.are_seen(entries) {
            rows.undo(written.as_slice());
            return false;
        }
        write_all(rows, entries, written);
    }
    true
}
