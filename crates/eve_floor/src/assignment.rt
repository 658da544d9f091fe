//! One of the batches that a crew runs.

ghost use Rattle.std.specs.Prelude.{◌≡◌, ◌<◌, ◌≤◌, ℕ, List, length};
ghost use Rattle.eve_write.specs.Data.{batch as plain};
ghost use Rattle.eve_floor.specs.Tasks.{IsRightTask};
ghost use Rattle.eve_floor.specs.Assignments.{AreLookedUp, crew_of};

use crate::Task;
use eve_smallbank::Touched;
use eve_write::BatchData;

/// One of several batches that are run one after another.
#[derive(Clone, Copy)]
pub struct Assignment<'b> {
    /// The batch.
    pub batch: &'b BatchData,
    /// What each of its requests touches, as it was looked up.
    pub touched: &'b [Touched],
    /// The number of workers that take part, at least 1.
    pub crew: u8,
}

/// The request with this index, as the worker executes it whose next record has this place.
pub(crate) fn task_of<'b>(
    assignment: &Assignment<'b>,
    index: u16,
    worker: u8,
    place: u16,
) -> Task<'b>
    requires there { index < length assignment.now.batch.now.requests.items }
    requires touched { length assignment.now.touched.now ≡ length assignment.now.batch.now.requests.items }
    ensures right { let batch = plain assignment.now.batch.now in
        (names : List (List ℕ)) → AreLookedUp names batch assignment.now.touched.now → IsRightTask names result }
    ensures batch { result.batch.now ≡ assignment.now.batch.now }
    ensures index { result.index ≡ index }
    ensures worker { (result.worker ≡ worker) × (result.place ≡ place) }
{
    Task {
        batch: assignment.batch,
        index,
        reached: &assignment.touched[index as usize],
        worker,
        place,
    }
}

/// How many of the workers can have something to do at once: one in serial mode, else at most as many as the largest
/// parallelBatch has requests.
pub fn crew_size(sizes: &[u16], workers: u8, serial: bool) -> u8
    requires { 1 ≤ workers }
    ensures is { result ≡ crew_of sizes.now workers serial }
    ensures some { 1 ≤ result }
    ensures few { result ≤ workers }
{
    if serial {
        return 1;
    }
    let mut largest = 1;
    for size in sizes {
        if largest < *size {
            largest = *size;
        }
    }
    if largest < u16::from(workers) {
        largest as u8
    } else {
        workers
    }
}
