//! What workers noted, gathered once all have ended.

ghost use Rattle.std.specs.Prelude.{◌≡◌, ◌<◌, ◌≤◌, ℕ, [], None, Some, IfOk, IfSome, map, slice_index_or};
ghost use Rattle.std.specs.List.{AllZip};
ghost use Rattle.eve_recorder.specs.Noted.{of_worker};
ghost use Rattle.eve_recorder.specs.RecorderViews.{noted_on};
ghost use Rattle.eve_floor.specs.Recording.{IsNotedFor};
ghost use Rattle.eve_floor.specs.SharedBatches.{AreFreeAt};

use crate::shared::{FreeSeats, SharedBatch};
use crate::{ExecFault, Floor};
use eve_recorder::{Recorder, Seats, Taken};
use eve_stamps::AccessRecord;
use std::alloc::Global;
use std::sync::Wait;

/// What was noted of each batch.
pub(crate) fn gather_all<R: Wait>(
    rt: &R,
    alloc: Global,
    floor: &Floor,
    mut batches: Vec<SharedBatch<'_>>,
    mut free: Vec<FreeSeats>,
) -> Result<Vec<Vec<AccessRecord>>, ExecFault>
    requires free { AllZip (AreFreeAt floor.now) batches.items free.items }
    ensures noted { IfOk result (λ noted.
        AllZip (IsNotedFor floor.now) (map (λ b. b.assignment) batches.entry.items) noted.items) }
{
    let count = batches.len();
    let mut noted = Vec::with_capacity(alloc, count)?;
    for place in 0..count {
        let shared = batches.remove(0);
        let seats = free.remove(0);
        let records = gather(rt, alloc, floor, shared, seats)?;
        noted.push_reserved(records);
    }
    Ok(noted)
}

/// What was noted of a batch: of each worker all of it, in the order in which it was noted.
fn gather<R: Wait>(
    rt: &R,
    alloc: Global,
    floor: &Floor,
    shared: SharedBatch<'_>,
    seats: FreeSeats,
) -> Result<Vec<AccessRecord>, ExecFault>
    requires free { AreFreeAt floor.now shared seats }
    ensures noted { IfOk result (IsNotedFor floor.now shared.entry.assignment) }
{
    let (recorder, noters) = recorder_of(shared, seats);
    // all seats are back, which no clause says; were one not, nothing of the batch would be given
    let Some(mut taken) = ended(recorder, noters) else {
        return Ok(Vec::new(alloc));
    };
    take_all(rt, alloc, &mut taken)
}

/// The recorder of the batch, with its seats.
fn recorder_of(shared: SharedBatch<'_>, seats: FreeSeats) -> (Recorder, Seats)
    ensures recorder { result.0 ≡ shared.entry.recorder }
    ensures noters { result.1 ≡ seats.noters }
{
    let SharedBatch { recorder, .. } = shared;
    let FreeSeats { noters, .. } = seats;
    (recorder, noters)
}

/// Ends the recorder, on which nothing was taken. `None` where a seat isn't back.
fn ended(recorder: Recorder, noters: Seats) -> Option<Taken>
    requires own { noters.recorder ≡ recorder.recorder }
    requires none { noters.taker ≡ Some record { recorder = recorder.recorder; taken = [] } }
    ensures none { IfSome result (λ t. t.taken ≡ []) }
    ensures noted { IfSome result (λ t. (w : ℕ) → w < recorder.recorder.workers
        → of_worker w t.noted ≡ noted_on (slice_index_or noters.seats w None)) }
    ensures others { IfSome result (λ t. (w : ℕ) → recorder.recorder.workers ≤ w → of_worker w t.noted ≡ []) }
{
    if noters.whole() {
        Some(recorder.finish(noters))
    } else {
        None
    }
}

/// Takes all that was noted.
fn take_all<R: Wait>(
    rt: &R,
    alloc: Global,
    taken: &mut Taken,
) -> Result<Vec<AccessRecord>, ExecFault>
    requires none { taken.old.taken ≡ [] }
    ensures all { IfOk result (λ records.
        (w : ℕ) → of_worker w records.items ≡ of_worker w taken.old.noted) }
{
    let mut records = Vec::new(alloc);
    for turn in rt.forever() {
        let Some(record) = taken.next(rt) else {
            return Ok(records);
        };
        records.reserve(1)?;
        records.push_reserved(record);
    }
    unreachable!()
}
