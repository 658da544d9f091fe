//! Whether records may be an attempt of a batch, whatever their order and whatever the rows have.

ghost use Rattle.std.specs.Prelude.{◌≡◌, ◌<◌, ℕ, List, IsTrue, map, length};
ghost use Rattle.std.specs.Bool.{Decides};
ghost use Rattle.std.specs.List.{list_all, AllByRecursion};
ghost use Rattle.eve_smallbank.specs.Access.{Fits};
ghost use Rattle.eve_grammar.specs.Limits.{is_access, is_batch};
ghost use Rattle.eve_write.specs.Data.{batch as plain};
ghost use Rattle.eve_attempts.specs.ClosedAttempts.{touched_in_batch, access_noted, executed, AreNoted};

use crate::accesses::are_right_accesses;
use crate::groups::count_of;
use eve_smallbank::{Touched, fits};
use eve_stamps::AccessRecord;
use eve_write::{BatchData, are_entries};

/// A batch, and the records that were taken of it.
#[derive(Clone, Copy)]
pub struct BatchRecords<'b> {
    /// The batch.
    pub batch: &'b BatchData,
    /// What each of its requests touches.
    pub touched: &'b [Touched],
    /// The records, in the order in which they were taken.
    pub records: &'b [AccessRecord],
}

/// Whether the record lies within the limits of the format.
fn is_access(taken: &AccessRecord, rows: usize) -> bool
    ensures { result ≡ is_access rows (access_noted taken.now) }
{
    let _worker = taken.worker();
    let _place = taken.place();
    let _index = taken.index();
    let entries = taken.entries();
    let _count = entries.len();
    are_entries(entries, rows)
}

fn are_accesses(records: &[AccessRecord], rows: usize) -> bool
    ensures { result ≡ list_all (is_access rows) (map access_noted records.now) }
{
    for record in records {
        if !is_access(record, rows) {
            return false;
        }
    }
    true
}

/// Whether the record fits the request of its index.
fn is_fitting(batch: &BatchData, touched: &[Touched], taken: &AccessRecord) -> bool
    requires touched { (names : List (List ℕ)) × (touched.now ≡ touched_in_batch names (plain batch.now)) }
    requires index { taken.now.index < length (plain batch.now).requests }
    ensures { (names : List (List ℕ)) → touched.now ≡ touched_in_batch names (plain batch.now)
        → Decides result (Fits names (executed (plain batch.now) taken.now)) }
{
    let index = taken.index() as usize;
    let asked = &batch.requests[index];
    fits(
        &asked.request(),
        &touched[index],
        taken.reply(),
        taken.entries(),
    )
}

fn are_fitting(noted: BatchRecords<'_>) -> bool
    requires touched { (names : List (List ℕ)) × (noted.touched.now ≡ touched_in_batch names (plain noted.batch.now)) }
    requires indexes { AllByRecursion (λ r. r.index < length (plain noted.batch.now).requests) noted.records.now }
    ensures { (names : List (List ℕ)) → noted.entry.touched.now ≡ touched_in_batch names (plain noted.entry.batch.now)
        → Decides result (AllByRecursion (Fits names)
        (map (executed (plain noted.entry.batch.now)) noted.entry.records.now)) }
{
    for record in noted.records {
        if !is_fitting(noted.batch, noted.touched, record) {
            return false;
        }
    }
    true
}

/// Whether there is one record for each request, right as an access frame, of rows that are there, and fitting.
///
/// docs/MODEL.md, "Section state, fate" and "A record fits its request".
pub fn are_noted(workers: u8, rows: usize, noted: BatchRecords<'_>) -> bool
    requires batch { IsTrue (is_batch (plain noted.batch.now)) }
    requires touched { (names : List (List ℕ)) × (noted.touched.now ≡ touched_in_batch names (plain noted.batch.now)) }
    ensures { Decides result
        (AreNoted workers rows (plain noted.entry.batch.now) noted.entry.touched.now noted.entry.records.now) }
{
    let records = noted.records;
    let count = count_of(noted.batch);
    if records.len() != count || !are_right_accesses(workers, count, records) {
        return false;
    }
    are_accesses(records, rows) && are_fitting(noted)
}
