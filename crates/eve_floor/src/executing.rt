//! Requests executed under the locks of their stripes, whose records are noted.

ghost use Rattle.std.specs.Prelude.{◌≡◌, ◌<◌, length};
ghost use Rattle.eve_write.specs.Data.{batch as plain_batch};
ghost use Rattle.eve_floor.specs.Executing.{IsSeatedAt, KeepsSeats, Executes, Flushes};
ghost use Rattle.eve_grammar.specs.Trace.{request_with};

use crate::task::{Task, execute_task};
use crate::{ExecFault, Floor, Worker};
use eve_recorder::{Gate, NoteFault, Recorder, TicketSeat, Tickets};
use eve_smallbank::touched;
use eve_stamps::MOST_PLACES;
use eve_write::BatchData;
use std::sync::Wait;

/// Executes the request with this index in the batch, and notes its record.
///
/// The stripes that it touches are locked in rising order, the gate is entered with the index, and a number is drawn
/// for its tick; then the request is applied, the locks are released, and the record is noted. A request that is
/// refused before it touches a row takes no lock; the gate is entered and a number is drawn all the same.
///
/// The ticks of a floor are drawn from one `Tickets`. Those of another can be refused with TickOrder.
///
/// Refusals, in the order of the tests: Full, where a record waits already; Spent; NoRow; TickOrder; Worn; Memory. They
/// leave the stripes as they were. Last comes Full, where the queue was full: the request stands, and its record waits.
/// May wait for other threads.
///
/// docs/DEPLOYMENT.md, "Executions".
pub fn execute<R: Wait, G: Gate>(
    rt: &R,
    floor: &Floor,
    recorder: &Recorder,
    tickets: &Tickets,
    worker: &mut Worker,
    batch: &BatchData,
    index: u16,
    gate: &G,
) -> Result<(), ExecFault>
    requires seats { IsSeatedAt recorder.now tickets.now worker.old }
    requires index { index < length batch.now.requests.items }
    requires place { length worker.old.seat.noted < MOST_PLACES }
    ensures executes { let request = request_with (plain_batch batch.now) index in
        Executes recorder.now floor.now request index worker.old worker.new result }
    ensures seats { KeepsSeats worker.old worker.new }
{
    if worker.waiting.is_some() {
        return Err(ExecFault::Full);
    }
    let reached = touched(&batch.requests[index as usize].request(), floor.names);
    let task = Task {
        batch,
        index,
        reached: &reached,
        worker: worker.seat.worker(),
        place: worker.seat.place() as u16,
    };
    let made = execute_task(rt, floor, tickets, &mut worker.tickets, &task, gate)?;
    if recorder.note(rt, &mut worker.seat, made).is_ok() {
        Ok(())
    } else {
        worker.waiting = Some(made);
        Err(ExecFault::Full)
    }
}

/// Notes the record that waits, if there is one. It is refused with `Full` alone, where the queue is full at one
/// moment. May wait for other threads.
///
/// docs/DEPLOYMENT.md, "Executions".
pub fn flush<R: Wait>(rt: &R, recorder: &Recorder, worker: &mut Worker) -> Result<(), ExecFault>
    requires { worker.old.seat.recorder ≡ recorder.now.recorder }
    ensures flushes { Flushes recorder.now worker.old worker.new result }
    ensures seats { KeepsSeats worker.old worker.new }
{
    let Some(made) = worker.waiting else {
        return Ok(());
    };
    match recorder.note(rt, &mut worker.seat, made) {
        Ok(()) => {
            worker.waiting = None;
            Ok(())
        }
        Err(NoteFault::Full(_)) => Err(ExecFault::Full),
    }
}
