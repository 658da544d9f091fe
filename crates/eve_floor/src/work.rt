//! A worker's parts in its batches.

ghost use Rattle.std.specs.Prelude.{◌≡◌, ◌<◌, ◌≤◌, All, IfOk, IfSome, length, vec_len};
ghost use Rattle.std.specs.Thread.{IsSync};
ghost use Rattle.eve_floor.specs.SharedBatches.{AreRightlyShared, IsMemberOf, AreOwnAt, IsPartAt, IsRightlyShared};

use crate::assignment::task_of;
use crate::progress::{GivenUp, Pace, Progress};
use crate::seats::OwnSeats;
use crate::shared::SharedBatch;
use crate::workers::Member;
use crate::{ExecFault, Floor, execute_task};
use eve_grammar::MOST_REQUESTS;
use eve_recorder::{Gate, TicketSeat, Tickets};
use std::sync::Wait;
use std::thread;
use std::thread::Threads;

/// What the workers share while batches are run: the replica's stripes, the tickets of ticks, how far the workers are,
/// the batches, and the gate.
#[derive(Drop)]
pub(crate) struct Crew<'s, G> {
    pub floor: &'s Floor<'s>,
    pub ticks: &'s Tickets,
    pub progress: &'s Progress,
    pub batches: &'s [SharedBatch<'s>],
    pub gate: &'s G,
}

impl<'s, G> Crew<'s, G> {
    pub(crate) fn new(
        floor: &'s Floor<'s>,
        ticks: &'s Tickets,
        progress: &'s Progress,
        batches: &'s [SharedBatch<'s>],
        gate: &'s G,
    ) -> Crew<'s, G>
        ensures floor { result.floor.now ≡ floor.now }
        ensures ticks { result.ticks.now ≡ ticks.now }
        ensures batches { result.batches.now ≡ batches.now }
    {
        Crew {
            floor,
            ticks,
            progress,
            batches,
            gate,
        }
    }
}

/// Each worker runs its parts, in a thread of its own where one can be started. A worker that gets no thread begins
/// after another has ended, and finds no request left, so nobody waits for a worker that has not begun.
pub(crate) fn run_members<R: Threads + Wait + Sync, G: Gate>(
    rt: &R,
    crew: &Crew<'_, G>,
    members: &mut Vec<Member>,
)
    requires shared { AreRightlyShared crew.now }
    requires members { All (IsMemberOf crew.now) members.old.items }
    ensures members { All (IsMemberOf crew.now) members.new.items }
    ensures many { vec_len members.new ≡ vec_len members.old }
{
    let threads = members.len().max(1);
    thread::for_each_mut(
        rt,
        members.as_mut_slice(),
        threads,
        &|_: usize, member: &mut Member|
            requires { IsSync R.row × IsSync G.row × AreRightlyShared crew.now × IsMemberOf crew.now member.old }
            ensures { IsMemberOf crew.entry.now member.new }
        { run_member(rt, crew, member) },
    );
}

/// Runs the worker's parts in one batch after another, until it or another worker gives a request up.
fn run_member<R: Wait, G: Gate>(rt: &R, crew: &Crew<'_, G>, member: &mut Member)
    requires shared { AreRightlyShared crew.now }
    requires member { IsMemberOf crew.now member.old }
    ensures member { IsMemberOf crew.now member.new }
{
    let batches = crew.batches;
    for number in 0..batches.len() {
        let part = &mut member.parts[number];
        let end = run_part(rt, crew, &batches[number], part, &mut member.tick);
        if let Err(why) = end {
            member.fault = why.map(GivenUp::why);
            return;
        }
    }
}

/// Claims requests of the batch, if the worker has a part in it, runs them, one after another, until none is left, and
/// notes the record of each. The error is the worker's own fault, or none where another worker gave a request up.
fn run_part<R: Wait, G: Gate>(
    rt: &R,
    crew: &Crew<'_, G>,
    shared: &SharedBatch<'_>,
    part: &mut Option<OwnSeats>,
    tick: &mut TicketSeat,
) -> Result<(), Option<GivenUp>>
    requires shared { IsRightlyShared crew.now.floor.now shared.now }
    requires part { IsPartAt crew.now.floor.now shared.now part.old }
    requires tick { tick.old.tickets ≡ crew.now.ticks.now }
    ensures part { IsPartAt crew.now.floor.now shared.now part.new }
    ensures tick { tick.new.tickets ≡ tick.old.tickets }
{
    let Some(own) = part else {
        return Ok(());
    };
    let mut pace = Pace::new();
    for turn in 0..shared.assignment.batch.requests.len() {
        let Some(index) = next_due(rt, crew.progress, shared, &mut own.claims, &mut pace)? else {
            break;
        };
        match run_request(rt, crew, shared, own, tick, index) {
            Ok(()) => pace.note(),
            Err(why) => return Err(Some(crew.progress.give_up(why))),
        }
    }
    if pace.tell(crew.progress) {
        Ok(())
    } else {
        Err(None)
    }
}

/// Runs the request with this index, which was claimed last, and notes its record.
fn run_request<R: Wait, G: Gate>(
    rt: &R,
    crew: &Crew<'_, G>,
    shared: &SharedBatch<'_>,
    own: &mut OwnSeats,
    tick: &mut TicketSeat,
    index: u16,
) -> Result<(), ExecFault>
    requires shared { IsRightlyShared crew.now.floor.now shared.now }
    requires own { AreOwnAt crew.now.floor.now shared.now own.old }
    requires tick { tick.old.tickets ≡ crew.now.ticks.now }
    requires there { index < length shared.now.assignment.batch.now.requests.items }
    requires claimed { length own.old.noter.noted < length own.old.claims.drawn }
    ensures own { AreOwnAt crew.now.floor.now shared.now own.new }
    ensures tick { tick.new.tickets ≡ tick.old.tickets }
{
    let noter = &mut own.noter;
    let task = task_of(
        &shared.assignment,
        index,
        noter.worker(),
        noter.place() as u16,
    );
    let record = execute_task(rt, crew.floor, crew.ticks, tick, &task, crew.gate)?;
    match shared.recorder.note(rt, noter, record) {
        Ok(()) => Ok(()),
        Err(_) => Err(ExecFault::Full),
    }
}

/// Claims the next request and returns its index, once all requests of earlier batches and of earlier parallelBatches
/// are noted. An error where one was given up.
fn next_due<R: Wait>(
    rt: &R,
    progress: &Progress,
    shared: &SharedBatch<'_>,
    claims: &mut TicketSeat,
    pace: &mut Pace,
) -> Result<Option<u16>, Option<GivenUp>>
    requires starts { length shared.now.starts.items ≡ length shared.now.assignment.batch.now.requests.items }
    requires few { length shared.now.assignment.batch.now.requests.items ≤ MOST_REQUESTS }
    requires own { claims.old.tickets ≡ shared.now.claims }
    requires most { length claims.old.drawn ≤ shared.now.claims.limit }
    ensures own { claims.new.tickets ≡ claims.old.tickets }
    ensures most { length claims.new.drawn ≤ shared.now.claims.limit }
    ensures more { length claims.old.drawn ≤ length claims.new.drawn }
    ensures claimed { IfOk result (λ next. IfSome next (λ _. length claims.old.drawn < length claims.new.drawn)) }
    ensures there { let requests = shared.now.assignment.batch.now.requests.items in
        IfOk result (λ next. IfSome next (λ index. index < length requests)) }
{
    let Some(number) = shared.claims.draw(claims) else {
        return Ok(None);
    };
    if number >= shared.starts.len() as u64 {
        return Ok(None);
    }
    let start = shared.starts[number as usize];
    let due = shared.before.saturating_add(u64::from(start));
    if pace.wait_for(rt, progress, due) {
        Ok(Some(number as u16))
    } else {
        Err(None)
    }
}
