//! Batches run by a crew.

ghost use Rattle.std.specs.Prelude.{◌≡◌, ◌≤◌, All, IfOk, OnOk, vec_len};
ghost use Rattle.std.specs.List.{AllZip};
ghost use Rattle.eve_floor.specs.Assignments.{IsRightAssignment};
ghost use Rattle.eve_floor.specs.Recording.{IsNotedFor};
ghost use Rattle.eve_floor.specs.SharedBatches.{AreFreeAt, AreFreshAt, AreFreeOf, AreFreshOf, AreRightlyShared};
ghost use Rattle.eve_floor.specs.SharedBatches.{AreSeatedAt, IsRightlyShared};

use crate::alone::run_alone;
use crate::assignment::Assignment;
use crate::gather::gather_all;
use crate::progress::Progress;
use crate::seats::{give_back_all, seat_all};
use crate::shared::{FreeSeats, SharedBatch, share_all};
use crate::work::{Crew, run_members};
use crate::workers::{Member, Workers, lowest_fault};
use crate::{ExecFault, Floor};
use eve_grammar::MOST_WORKERS;
use eve_recorder::Gate;
use eve_stamps::AccessRecord;
use std::alloc::Global;
use std::sync::Wait;
use std::thread::Threads;

/// Runs the batches one after another, by at most all of the workers, and returns what they noted of each. The fault is
/// that of the lowest worker that has one: `Full`, `Spent`, `NoRow`, `TickOrder`, `Worn` or `Memory`. `Memory` comes
/// too where memory runs out beside them.
///
/// Each worker has one thread for all batches: where it has ended its part in one, it goes on in the next. What they
/// noted is gathered once all have ended.
pub fn run_batches<R: Threads + Wait + Sync, G: Gate>(
    rt: &R,
    alloc: Global,
    floor: &Floor,
    workers: &mut Workers,
    assignments: &[Assignment],
    gate: &G,
) -> Result<Vec<Vec<AccessRecord>>, ExecFault>
    requires assignments { All (IsRightAssignment floor.now workers.old.many) assignments.now }
    ensures workers { workers.new ≡ workers.old }
    ensures noted { IfOk result (λ noted. AllZip (IsNotedFor floor.now) assignments.now noted.items) }
{
    if largest_crew(assignments) == 1 {
        return run_alone(rt, alloc, floor, workers, assignments, gate);
    }
    let (batches, mut free) = share_all(alloc, floor, assignments)?;
    run_shared(rt, floor, workers, batches.as_slice(), &mut free, gate)?;
    gather_all(rt, alloc, floor, batches, free)
}

/// Runs the shared batches. At Ok all seats are back, and what is noted there is all that the workers noted.
fn run_shared<R: Threads + Wait + Sync, G: Gate>(
    rt: &R,
    floor: &Floor,
    workers: &mut Workers,
    batches: &[SharedBatch<'_>],
    free: &mut Vec<FreeSeats>,
    gate: &G,
) -> Result<(), ExecFault>
    requires shared { All (IsRightlyShared floor.now) batches.now }
    requires free { AllZip (AreFreshAt floor.now) batches.now free.old.items }
    ensures workers { workers.new ≡ workers.old }
    ensures free { OnOk result (AllZip (AreFreeAt floor.now) batches.now free.new.items) }
{
    workers.progress = Progress::new();
    let crew = Crew::new(floor, &workers.ticks, &workers.progress, batches, gate);
    run_crew(rt, &crew, free, &mut workers.members)
}

/// Runs the crew's batches.
fn run_crew<R: Threads + Wait + Sync, G: Gate>(
    rt: &R,
    crew: &Crew<'_, G>,
    free: &mut Vec<FreeSeats>,
    members: &mut Vec<Member>,
) -> Result<(), ExecFault>
    requires shared { AreRightlyShared crew.now }
    requires free { AreFreshOf crew.now free.old.items }
    requires ticks { AreSeatedAt crew.now.ticks.now members.old.items }
    requires few { vec_len members.old ≤ MOST_WORKERS }
    ensures free { OnOk result (AreFreeOf crew.now free.new.items) }
    ensures ticks { AreSeatedAt crew.now.ticks.now members.new.items }
    ensures many { vec_len members.new ≡ vec_len members.old }
{
    seat_all(crew, free, members)?;
    run_members(rt, crew, members);
    if let Some(why) = lowest_fault(members.as_slice()) {
        return Err(why);
    }
    give_back_all(crew, free, members);
    Ok(())
}

/// The number of workers that the batches have something to do for, at least 1. It says only whether there are threads.
fn largest_crew(assignments: &[Assignment]) -> u8 {
    let mut largest = 1;
    for assignment in assignments {
        largest = assignment.crew.max(largest);
    }
    largest
}
