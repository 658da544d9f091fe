//! What can be made of records before a row changes.

ghost use Rattle.std.specs.Prelude.{◌≡◌, ◌≤◌, ◌<◌, ℕ, List, IsTrue, IfOk, OnOk, Err, length};
ghost use Rattle.std.specs.List.{AllByRecursion};
ghost use Rattle.eve_grammar.specs.Limits.{is_batch};
ghost use Rattle.eve_grammar.specs.Certificate.{is_certificate};
ghost use Rattle.eve_write.specs.Data.{batch as plain};
ghost use Rattle.eve_stamps.specs.Applied.{Applied};
ghost use Rattle.eve_attempts.specs.ClosedAttempts.{touched_in_batch, indexes_of, AreNoted, IsByTicks};
ghost use Rattle.eve_attempts.specs.inner.AttemptParts.{IsTakenOf};

use crate::fault::CloseFault;
use crate::groups::groups_of;
use crate::noted::{BatchRecords, are_noted};
use crate::order::{Key, certificate_of, order_of};
use crate::replies::{accesses_of, replies_of};
use eve_grammar::{MOST_REQUESTS, is_certificate};
use eve_smallbank::{Entry, Reply};
use eve_stamps::AccessRecord;
use eve_write::AccessList;
use std::alloc::{AllocError, Global};

/// The order of records, and what of an attempt doesn't depend on what the rows have.
#[derive(Drop)]
pub struct Taken {
    pub order: Vec<Key>,
    pub certificate: Vec<u16>,
    pub replies: Vec<Reply>,
    pub accesses: AccessList,
    // room for what the records write
    pub written: Vec<Entry>,
}

fn gather(alloc: Global, records: &[AccessRecord]) -> Result<Taken, AllocError>
    requires few { length records.now ≤ MOST_REQUESTS }
    requires indexes { AllByRecursion (λ r. r.index < length records.now) records.now }
    ensures { IfOk result (IsTakenOf records.now) }
{
    let order = order_of(alloc, records)?;
    let certificate = certificate_of(alloc, order.as_slice())?;
    Ok(Taken {
        order,
        certificate,
        replies: replies_of(alloc, records)?,
        accesses: accesses_of(alloc, records)?,
        written: Vec::with_capacity(alloc, 3 * records.len())?,
    })
}

/// All that there is to know of records but whether they see what the rows have. It takes all the memory.
///
/// docs/MODEL.md, "Certificate order, keeps the groups".
pub fn take(
    alloc: Global,
    workers: u8,
    serial: bool,
    rows: usize,
    noted: BatchRecords<'_>,
) -> Result<Taken, CloseFault>
    requires batch { IsTrue (is_batch (plain noted.batch.now)) }
    requires touched { (names : List (List ℕ)) × (noted.touched.now ≡ touched_in_batch names (plain noted.batch.now)) }
    ensures taken { IfOk result (IsTakenOf noted.entry.records.now) }
    ensures noted { OnOk result
        (AreNoted workers rows (plain noted.entry.batch.now) noted.entry.touched.now noted.entry.records.now) }
    ensures order { IfOk result (λ t. IsTrue (is_certificate (plain noted.entry.batch.now).sizes
        (length (plain noted.entry.batch.now).requests) serial t.certificate.items)) }
    ensures mismatch { result ≡ Err CloseFault.Mismatch
        → (ordered : List Applied) → IsByTicks noted.entry.records.now ordered
        → AreNoted workers rows (plain noted.entry.batch.now) noted.entry.touched.now noted.entry.records.now
        → ¬ IsTrue (is_certificate (plain noted.entry.batch.now).sizes
        (length (plain noted.entry.batch.now).requests) serial (indexes_of ordered)) }
{
    if !are_noted(workers, rows, noted) {
        return Err(CloseFault::Mismatch);
    }
    let Ok(taken) = gather(alloc, noted.records) else {
        return Err(CloseFault::Memory);
    };
    if !is_certificate(
        &groups_of(noted.batch),
        serial,
        taken.certificate.as_slice(),
    ) {
        return Err(CloseFault::Mismatch);
    }
    Ok(taken)
}
