//! Requests of a batch, executed under the locks of their stripes.

ghost use Rattle.std.specs.Prelude.{◌≡◌, ◌<◌, ℕ, List, IfOk, IfErr, length};
ghost use Rattle.eve_smallbank.specs.SmallBank.{plain};
ghost use Rattle.eve_smallbank.specs.declared.request.Abort.{Abort};
ghost use Rattle.eve_smallbank.specs.declared.rows.Touched.TheVariants.{Refused};
ghost use Rattle.eve_grammar.specs.Trace.{request_with};
ghost use Rattle.eve_write.specs.Data.{batch as plain_batch};
ghost use Rattle.eve_floor.specs.Executing.{with_drawn};
ghost use Rattle.eve_floor.specs.Tasks.{IsRightTask, ExecutesTask, Refuses};

use crate::{ExecFault, Floor};
use eve_recorder::{Gate, TicketSeat, Tickets};
use eve_smallbank::{Request, Touched, laws};
use eve_stamps::{AccessRecord, Stamp, apply, apply_two, span_of, untouched};
use eve_write::BatchData;
use std::sync::Wait;

/// A request of a batch that is to be executed, and who does it.
#[derive(Clone, Copy)]
pub struct Task<'t> {
    /// The batch.
    pub batch: &'t BatchData,
    /// The request's index in the batch.
    pub index: u16,
    /// The rows that the request touches, as they were looked up.
    pub reached: &'t Touched,
    /// The worker.
    pub worker: u8,
    /// The place of the record among what the worker notes.
    pub place: u16,
}

impl Task<'_> {
    /// Who does it, and at which tick.
    fn stamp(&self, tick: u64) -> Stamp
        ensures { result ≡ record {
          worker = self.now.worker;
          place = self.now.place;
          index = self.now.index;
          tick = tick;
        } }
    {
        Stamp {
            worker: self.worker,
            place: self.place,
            index: self.index,
            tick,
        }
    }
}

/// Executes the task, as `execute` does its request, and returns the record, which is noted nowhere. So it is never
/// `Full`.
///
/// docs/DEPLOYMENT.md, "Executions".
pub fn execute_task<R: Wait, G: Gate>(
    rt: &R,
    floor: &Floor,
    tickets: &Tickets,
    drawer: &mut TicketSeat,
    task: &Task,
    gate: &G,
) -> Result<AccessRecord, ExecFault>
    requires tickets { drawer.old.tickets ≡ tickets.now }
    requires task { IsRightTask floor.now task.now }
    ensures executes { ExecutesTask floor.now task.now drawer.old drawer.new result }
    ensures own { drawer.new.tickets ≡ drawer.old.tickets }
{
    let request = request_at(task.batch, task.index);
    let Touched::Rows(rows) = task.reached else {
        return refused(rt, tickets, drawer, task, gate);
    };
    let span = span_of(rows);
    let mut first = floor.stripes[span.first].lock(rt);
    if span.first == span.last {
        let tick = ticket(rt, tickets, drawer, task.index, gate)?;
        let made = apply(&mut first, &request, task.reached, task.stamp(tick));
        drop(first);
        return Ok(made?);
    }
    let mut last = floor.stripes[span.last].lock(rt);
    let tick = ticket(rt, tickets, drawer, task.index, gate)?;
    let made = apply_two(
        &mut first,
        &mut last,
        &request,
        task.reached,
        task.stamp(tick),
    );
    drop(last);
    drop(first);
    Ok(made?)
}

/// Applies a task that is refused before it touches a row. It takes no lock.
fn refused<R: Wait, G: Gate>(
    rt: &R,
    tickets: &Tickets,
    drawer: &mut TicketSeat,
    task: &Task,
    gate: &G,
) -> Result<AccessRecord, ExecFault>
    requires tickets { drawer.old.tickets ≡ tickets.now }
    requires refused { (why : Abort) × (task.now.reached.now ≡ Refused why) }
    ensures { (names : List (List ℕ)) → IsRightTask names task.now
        → ExecutesTask names task.now drawer.old drawer.new result }
{
    laws::refused_requests_fit();
    let Touched::Refused(why) = task.reached else {
        unreachable!()
    };
    let tick = ticket(rt, tickets, drawer, task.index, gate)?;
    Ok(untouched(*why, task.stamp(tick)))
}

/// The request with this index in the batch.
fn request_at(batch: &BatchData, index: u16) -> Request<'_>
    requires { index < length batch.now.requests.items }
    ensures { plain result ≡ request_with (plain_batch batch.now) index }
{
    batch.requests[index as usize].request()
}

/// Enters the gate with the index, and draws a number.
fn ticket<R: Wait, G: Gate>(
    rt: &R,
    tickets: &Tickets,
    drawer: &mut TicketSeat,
    index: u16,
    gate: &G,
) -> Result<u64, ExecFault>
    requires { drawer.old.tickets ≡ tickets.now }
    ensures drawn { IfOk result (λ tick. drawer.new ≡ with_drawn tick drawer.old) }
    ensures spent { IfErr result (λ why. Refuses why drawer.old drawer.new) }
{
    gate.enter(rt, u32::from(index));
    match tickets.draw(drawer) {
        Some(tick) => Ok(tick),
        None => Err(ExecFault::Spent),
    }
}
