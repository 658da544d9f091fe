//! A batch as several workers share it.

ghost use Rattle.std.specs.Prelude.{◌≡◌, ◌≤◌, ℕ, All, IfOk, IsTrue, length, map, vec_len};
ghost use Rattle.std.specs.List.{AllZip};
ghost use Rattle.eve_grammar.specs.Limits.{is_batch};
ghost use Rattle.eve_write.specs.Data.{batch as plain};
ghost use Rattle.eve_floor.specs.Assignments.{IsRightAssignment};
ghost use Rattle.eve_floor.specs.SharedBatches.{IsRightlyShared, AreFreshAt};

use crate::Floor;
use crate::assignment::Assignment;
use eve_grammar::MOST_REQUESTS;
use eve_recorder::{Recorder, Seats, TicketSeats, Tickets};
use eve_write::BatchData;
use std::alloc::{AllocError, Global};

/// A batch as its workers share it: with the recorder on which they note its records, and the tickets by which they
/// claim its requests.
#[derive(Drop)]
pub(crate) struct SharedBatch<'b> {
    pub assignment: Assignment<'b>,
    pub recorder: Recorder,
    // the tickets by which requests are claimed
    pub claims: Tickets,
    // for each request the index of the first of its parallelBatch
    pub starts: Vec<u16>,
    // the number of requests of the batches before it
    pub before: u64,
}

/// The seats at a shared batch that no worker has: those of the workers, at the recorder and at the tickets, and the
/// taker's.
#[derive(Drop)]
pub(crate) struct FreeSeats {
    pub noters: Seats,
    pub claims: TicketSeats,
}

/// Shares each of the batches, and returns all seats.
pub(crate) fn share_all<'b>(
    alloc: Global,
    floor: &Floor,
    assignments: &[Assignment<'b>],
) -> Result<(Vec<SharedBatch<'b>>, Vec<FreeSeats>), AllocError>
    requires right { (workers : ℕ) × All (IsRightAssignment floor.now workers) assignments.now }
    ensures shared { IfOk result (λ r. All (IsRightlyShared floor.now) r.0.items) }
    ensures assignments { IfOk result (λ r. map (λ x. x.assignment) r.0.items ≡ assignments.now) }
    ensures free { IfOk result (λ r. AllZip (AreFreshAt floor.now) r.0.items r.1.items) }
{
    let mut batches = Vec::with_capacity(alloc, assignments.len())?;
    let mut free = Vec::with_capacity(alloc, assignments.len())?;
    let mut before = 0u64;
    for assignment in assignments {
        let (shared, seats) = share(alloc, floor, assignment, before)?;
        before = before.saturating_add(assignment.batch.requests.len() as u64);
        batches.push_reserved(shared);
        free.push_reserved(seats);
    }
    Ok((batches, free))
}

/// Shares a batch, and returns its seats, for those workers that have something to do in it. Its recorder has room for
/// a record of each request.
fn share<'b>(
    alloc: Global,
    floor: &Floor,
    assignment: &Assignment<'b>,
    before: u64,
) -> Result<(SharedBatch<'b>, FreeSeats), AllocError>
    requires right { (workers : ℕ) × IsRightAssignment floor.now workers assignment.now }
    ensures shared { IfOk result (λ r. IsRightlyShared floor.now r.0) }
    ensures assignment { IfOk result (λ r. r.0.assignment ≡ assignment.now) }
    ensures free { IfOk result (λ r. AreFreshAt floor.now r.0 r.1) }
{
    let crew = assignment.crew;
    let count = count_of(assignment.batch);
    let starts = starts_of(alloc, assignment.batch.sizes.as_slice(), count as u16)?;
    let (claims, own) = Tickets::new(alloc, crew, count as u64)?;
    let Ok((recorder, noters)) = Recorder::new(alloc, crew, count) else {
        drop(own);
        return Err(AllocError);
    };
    let shared = SharedBatch {
        assignment: *assignment,
        recorder,
        claims,
        starts,
        before,
    };
    Ok((
        shared,
        FreeSeats {
            noters,
            claims: own,
        },
    ))
}

/// For each request of the batch the index of the first in its parallelBatch.
fn starts_of(alloc: Global, sizes: &[u16], count: u16) -> Result<Vec<u16>, AllocError>
    ensures { IfOk result (λ starts. vec_len starts ≡ count) }
{
    let mut starts = Vec::with_capacity(alloc, count as usize)?;
    let mut rest = sizes.iter();
    let mut start = 0;
    let mut end = 0u16;
    for index in 0..count {
        if index == end {
            start = index;
            end = end.saturating_add(rest.next().copied().unwrap_or(0));
        }
        starts.push_reserved(start);
    }
    Ok(starts)
}

/// The number of the batch's requests.
fn count_of(batch: &BatchData) -> usize
    requires { IsTrue (is_batch (plain batch.now)) }
    ensures is { result ≡ length batch.now.requests.items }
    ensures range { (1 ≤ result) × (result ≤ MOST_REQUESTS) }
{
    batch.requests.len()
}
