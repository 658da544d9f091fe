//! Batches that a single worker runs.

ghost use Rattle.std.specs.Prelude.{◌≡◌, ℕ, All, IfOk};
ghost use Rattle.std.specs.List.{AllZip};
ghost use Rattle.eve_write.specs.Data.{batch as plain};
ghost use Rattle.eve_floor.specs.Assignments.{IsRightAssignment};
ghost use Rattle.eve_floor.specs.Recording.{AreNotedOf, IsNotedFor};

use crate::assignment::{Assignment, task_of};
use crate::{ExecFault, Floor, Workers, execute_task};
use eve_recorder::Gate;
use eve_stamps::AccessRecord;
use std::alloc::Global;
use std::sync::Wait;

/// Runs the batches, one after another, by the first of the workers, in this thread. The records need no recorder.
pub(crate) fn run_alone<R: Wait, G: Gate>(
    rt: &R,
    alloc: Global,
    floor: &Floor,
    workers: &mut Workers,
    assignments: &[Assignment],
    gate: &G,
) -> Result<Vec<Vec<AccessRecord>>, ExecFault>
    requires assignments { (workers : ℕ) × All (IsRightAssignment floor.now workers) assignments.now }
    ensures workers { workers.new ≡ workers.old }
    ensures noted { IfOk result (λ noted. AllZip (IsNotedFor floor.now) assignments.now noted.items) }
{
    let mut noted = Vec::with_capacity(alloc, assignments.len())?;
    for assignment in assignments {
        let records = run_one(rt, alloc, floor, workers, assignment, gate)?;
        noted.push_reserved(records);
    }
    Ok(noted)
}

/// Runs the requests of the batch, one after another, and keeps the record of each.
fn run_one<R: Wait, G: Gate>(
    rt: &R,
    alloc: Global,
    floor: &Floor,
    workers: &mut Workers,
    assignment: &Assignment,
    gate: &G,
) -> Result<Vec<AccessRecord>, ExecFault>
    requires assignment { (workers : ℕ) × IsRightAssignment floor.now workers assignment.now }
    ensures workers { workers.new ≡ workers.old }
    ensures noted { let batch = plain assignment.now.batch.now in
        IfOk result (λ records. AreNotedOf floor.now batch records.items) }
{
    let count = assignment.batch.requests.len();
    let mut records = Vec::with_capacity(alloc, count)?;
    let Workers { ticks, members, .. } = workers;
    let tick = &mut members[0].tick;
    for index in 0..count {
        let task = task_of(assignment, index as u16, 0, index as u16);
        let record = execute_task(rt, floor, ticks, tick, &task, gate)?;
        records.push_reserved(record);
    }
    Ok(records)
}
