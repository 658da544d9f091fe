//! A run whose first window is rolled back and then executed again, made of the parts of two runs of one workload.

ghost use Rattle.std.specs.Prelude.{◌≡◌};

use crate::bytes::Bytes;
use crate::fault::Fault;
use eve_grammar::{MOST_BYTES, Restore};
use eve_recorder::OpenGate;
use eve_replica::run;
use eve_streams::SinkOf;
use eve_workload::{Mixer, Workload};
use eve_write::{AttemptData, ChoiceData, Parts, RollbackData, Step, VoteData, gather};
use std::alloc::Global;
use std::hash::RandomState;
use std::mem;
use std::random::RandomSource;
use std::sync::Wait;
use std::thread::Threads;

/// How many bytes a trace has at most.
const LONGEST: u64 = MOST_BYTES as u64;

/// The parts of a run of the workload.
fn parts_of<R: AllocGlobal + RandomSource + Threads + Wait + Sync>(
    rt: &R,
    workload: &Workload,
) -> Result<Parts, Fault>
    requires { workload.now.format ≡ 1 }
{
    let random = match RandomState::new(rt) {
        Ok(random) => random,
        Err(why) => return Err(Fault::from(why)),
    };
    match run(rt, rt.alloc(), workload, Mixer::Whole, random, &OpenGate) {
        Ok(parts) => Ok(parts),
        Err(_) => Err(Fault::Run),
    }
}

/// Notes what the rows that an attempt writes go back to, where no two of its requests write one row.
fn note_restores(page: &mut Bytes, restores: &mut Vec<Restore>, attempt: &AttemptData) {
    for entry in attempt.accesses.entries() {
        if entry.kind.is_write() {
            let restore = Restore {
                row: entry.row,
                version: entry.version,
                value: entry.seen,
            };
            if restores.push(restore).is_err() {
                page.fail(Fault::Memory);
            }
        }
    }
}

/// What the rows go back to that a section's attempts write.
fn restores_of(alloc: Global, page: &mut Bytes, steps: &[Step]) -> Vec<Restore> {
    let mut restores = Vec::new(alloc);
    for step in steps {
        if let Step::Attempt(attempt) = step {
            note_restores(page, &mut restores, attempt);
        }
    }
    restores
}

/// Puts a step into view 1, whose first attempt is in serial mode.
fn enter_view_1(step: &mut Step) {
    match step {
        Step::Attempt(attempt) => {
            attempt.view = 1;
            attempt.serial = attempt.seq == 1;
        }
        Step::Commit(commit) => commit.view = 1,
        Step::Rollback(_) | Step::Transfer(_) => {}
    }
}

/// Discards the attempts of a section, of whose batches none is committed then.
fn discard(alloc: Global, page: &mut Bytes, steps: &mut Vec<Step>) {
    let restores = restores_of(alloc, page, steps.as_slice());
    steps.retain(|step| matches!(step, Step::Attempt(_)));
    let rollback = RollbackData {
        to: 0,
        view: 1,
        restores,
    };
    if steps.push(Step::Rollback(rollback)).is_err() {
        page.fail(Fault::Memory);
    }
}

/// Appends the steps of another section, in view 1.
fn go_on(page: &mut Bytes, steps: &mut Vec<Step>, committed: &mut Vec<Step>) {
    for step in committed.iter_mut() {
        enter_view_1(step);
    }
    if steps.append(committed).is_err() {
        page.fail(Fault::Memory);
    }
}

/// Lets a verifier vote for the rollback, and for the commits in view 1.
fn vote_again(page: &mut Bytes, votes: &mut Vec<VoteData>) {
    for vote in votes.iter_mut() {
        vote.view = 1;
    }
    let vote = VoteData {
        seq: 1,
        view: 0,
        choice: ChoiceData::ForRollback,
        token: [0; 32],
    };
    if votes.insert(0, vote).is_err() {
        page.fail(Fault::Memory);
    }
}

/// Puts the attempts of a run in front of the parts of another one, which is committed: they are discarded.
fn discard_all(alloc: Global, page: &mut Bytes, first: &mut Parts, parts: &mut Parts) {
    for (steps, committed) in first.sections.iter_mut().zip(parts.sections.iter_mut()) {
        discard(alloc, page, steps);
        go_on(page, steps, committed);
    }
    for votes in parts.verifiers.iter_mut() {
        vote_again(page, votes);
    }
    mem::swap(&mut first.sections, &mut parts.sections);
}

/// The parts of two runs of the workload, the first of which is discarded.
fn rerun_of<R: AllocGlobal + RandomSource + Threads + Wait + Sync>(
    rt: &R,
    page: &mut Bytes,
    workload: &Workload,
) -> Result<Parts, Fault>
    requires { workload.now.format ≡ 1 }
{
    let mut first = parts_of(rt, workload)?;
    let mut parts = parts_of(rt, workload)?;
    discard_all(rt.alloc(), page, &mut first, &mut parts);
    Ok(parts)
}

/// The parts of a run of the workload, whose batches are one window: all replicas roll back, and execute and commit all
/// batches after that. Where memory is refused on the way, the page notes it.
pub(crate) fn rerun<R: AllocGlobal + RandomSource + Threads + Wait + Sync>(
    rt: &R,
    page: &mut Bytes,
    workload: &[u8],
) -> Result<Parts, Fault> {
    match Workload::read(rt.alloc(), workload, 1) {
        Ok(workload) => rerun_of(rt, page, &workload),
        Err(_) => Err(Fault::Run),
    }
}

/// Leaves the last restore of a replica's rollbacks out.
pub(crate) fn leave_out(parts: &mut Parts, replica: usize) {
    if let Some(steps) = parts.sections.get_mut(replica) {
        for step in steps.iter_mut() {
            if let Step::Rollback(rollback) = step {
                rollback.restores.pop();
            }
        }
    }
}

/// The trace of these parts.
pub(crate) fn trace_of(alloc: Global, parts: &Parts) -> Bytes {
    let mut out = SinkOf::new(Vec::new(alloc));
    let mut trace = Bytes::none(alloc);
    if gather(parts, LONGEST, &mut out).is_err() {
        trace.fail(Fault::Run);
    }
    trace.append(out.writer().as_slice());
    trace
}
