//! Replicas and batches of a workload, and traces of what they did.

ghost use Rattle.std.specs.Prelude.{◌≡◌, ◌≤◌, ◌*◌, IfOk, IsTrue};
ghost use Rattle.eve_grammar.specs.Limits.{is_batch};
ghost use Rattle.eve_write.specs.Data.{batch as plain};

use crate::replica::misses::Misses;
use eve_accounts::{Amount, Balances, Cents, Names, Row};
use eve_grammar::{MOST_BATCHES, MOST_BYTES, MOST_CUSTOMERS, NEWEST_VERSION};
use eve_recorder::Gate;
use eve_replica::eve_workload::{Mixer, Workload, mix};
use eve_replica::{AttemptFault, CloseFault, Replica};
use eve_smallbank::{Request, touched};
use eve_stamps::{AccessRecord, HeldRow, Stamp, Stripe, apply};
use eve_streams::SinkOf;
use eve_write::{
    AttemptData, BatchData, ChoiceData, CommitData, Parts, RollbackData, Step, VoteData, gather,
};
use std::alloc::{AllocError, Global};
use std::hash::RandomState;
use std::io;
use std::sync::Wait;
use std::thread::Threads;

/// Why a case can't go on, where it isn't for lack of memory.
pub fn stopped() -> io::Error {
    io::Error::other("the case can't go on")
}

/// The workload of a text in a format, 1 or 2.
pub fn workload_of(alloc: Global, text: Vec<u8>, format: u16) -> io::Result<Workload>
    ensures { IfOk result (λ w. (1 ≤ w.format) × (w.format ≤ NEWEST_VERSION)) }
{
    if format < 1 || NEWEST_VERSION < format {
        drop(text);
        return Err(stopped());
    }
    let read = Workload::read(alloc, text.as_slice(), format);
    drop(text);
    match read {
        Ok(workload) => Ok(workload),
        Err(_) => Err(stopped()),
    }
}

/// The customers' names, in their order. Where one isn't taken, the case can't go on.
pub fn names_of<'w>(
    alloc: Global,
    workload: &'w Workload,
    random: RandomState,
    misses: &mut Misses,
) -> Names<'w> {
    let mut names = Names::new(alloc, random, MOST_CUSTOMERS);
    for customer in workload.customers() {
        if names.add(customer.name.as_slice()).is_err() {
            misses.stop(stopped());
        }
    }
    names
}

/// A batch within the limits.
#[derive(Drop)]
pub struct Fit {
    pub batch: BatchData,
    ghost fits: { IsTrue (is_batch (plain batch)) },
}

/// A batch of the workload, counted from 1, as this mixer cuts it.
pub fn batch_of(
    alloc: Global,
    workload: &Workload,
    number: u32,
    names: &Names,
    mixer: Mixer,
) -> io::Result<Fit> {
    if number < 1 || workload.batches() < number {
        return Err(stopped());
    }
    let batch = mix(alloc, workload.batch(number), names, mixer)?;
    Ok(Fit { batch })
}

/// A replica of the version, 1 or 2, whose customers have nothing, with two workers and at most two open attempts.
pub fn replica_of<'n>(
    alloc: Global,
    version: u16,
    names: &'n Names<'n>,
) -> io::Result<Replica<'n>> {
    if version < 1 || 2 < version || names.is_empty() {
        return Err(stopped());
    }
    let balances = Balances::new(alloc, 2 * names.len())?;
    Ok(Replica::new(alloc, version, names, &balances, 2, 2)?)
}

/// An attempt of the batch, in the view and the mode that are due.
pub fn attempt<R: Threads + Wait + Sync, G: Gate>(
    rt: &R,
    alloc: Global,
    replica: &mut Replica,
    fit: &Fit,
    gate: &G,
) -> Result<AttemptData, AttemptFault> {
    if !replica.has_room() || replica.next_number() > u64::from(MOST_BATCHES) {
        return Err(AttemptFault::Full);
    }
    let view = replica.view();
    let serial = replica.is_next_serial();
    replica.run_attempt(rt, alloc, &fit.batch, view, serial, gate)
}

/// An attempt of the batch that is made of these records, in the view and the mode that are due.
pub fn close(
    alloc: Global,
    replica: &mut Replica,
    fit: &Fit,
    records: &[AccessRecord],
) -> Result<AttemptData, CloseFault> {
    let seq = replica.next_number();
    if !replica.has_room() || seq > u64::from(MOST_BATCHES) {
        return Err(CloseFault::Memory);
    }
    let seq = seq as u32;
    let view = replica.view();
    let serial = replica.is_next_serial();
    replica.close_attempt(alloc, seq, view, serial, &fit.batch, records)
}

/// The attempt that was made of threads' records.
pub fn ran(answer: Result<AttemptData, AttemptFault>) -> io::Result<AttemptData> {
    match answer {
        Ok(attempt) => Ok(attempt),
        Err(AttemptFault::Memory) => Err(AllocError.into()),
        Err(_) => Err(stopped()),
    }
}

/// The attempt that was made of a caller's records.
pub fn closed(answer: Result<AttemptData, CloseFault>) -> io::Result<AttemptData> {
    match answer {
        Ok(attempt) => Ok(attempt),
        Err(CloseFault::Memory) => Err(AllocError.into()),
        Err(_) => Err(stopped()),
    }
}

/// All that is open is discarded.
pub fn roll_back(alloc: Global, replica: &mut Replica) -> Result<RollbackData, AllocError> {
    if replica.view() == u32::MAX {
        return Err(AllocError);
    }
    replica.rollback(alloc)
}

/// What worker 0 notes first, of ann's deposit with index 0, where customer 0 has nothing and the checking row this
/// version, 0 or 1.
pub fn record_at(alloc: Global, names: &Names, version: u64) -> io::Result<AccessRecord> {
    if version > 1 {
        return Err(stopped());
    }
    let rows = [
        HeldRow {
            row: Row::saving(0),
            version: 0,
            value: Cents::ZERO,
        },
        HeldRow {
            row: Row::checking(0),
            version,
            value: Cents::ZERO,
        },
    ];
    let stripe = Stripe::new(alloc, &rows)?;
    record_on(stripe, names)
}

/// The same, where this is the stripe of both rows.
fn record_on(mut stripe: Stripe, names: &Names) -> io::Result<AccessRecord> {
    let deposit = Request::DepositChecking(b"ann", Amount::of(500));
    let reached = touched(&deposit, names);
    let stamp = Stamp {
        worker: 0,
        place: 0,
        index: 0,
        tick: 1,
    };
    let applied = apply(&mut stripe, &deposit, &reached, stamp);
    drop(stripe);
    match applied {
        Ok(record) => Ok(record),
        Err(_) => Err(stopped()),
    }
}

/// The trace of a deployment of one replica that did these two things to the workload's first batch, with one verifier,
/// which voted for the commit.
pub fn trace_of(
    alloc: Global,
    workload: &Workload,
    names: &Names,
    attempt: AttemptData,
    commit: CommitData,
) -> io::Result<Vec<u8>> {
    let steps = vec![in alloc; Step::Attempt(attempt), Step::Commit(commit)]?;
    let mut parts = Parts {
        version: 1,
        quorum: 1,
        window: 1,
        workers: 1,
        customers: Vec::new(alloc),
        batches: Vec::new(alloc),
        sections: Vec::new(alloc),
        verifiers: Vec::new(alloc),
        sent: Vec::new(alloc),
    };
    let trace = match fill(alloc, workload, names, steps, commit, &mut parts) {
        Ok(()) => bytes_of(alloc, &parts),
        Err(why) => Err(why),
    };
    drop(parts);
    trace
}

/// Adds what the replica did, the vote for the commit, the customers and the batch.
fn fill(
    alloc: Global,
    workload: &Workload,
    names: &Names,
    steps: Vec<Step>,
    commit: CommitData,
    parts: &mut Parts,
) -> io::Result<()> {
    parts.sections.push(steps)?;
    parts.verifiers.push(votes_for(alloc, commit)?)?;
    parts.customers.extend_from_slice(workload.customers())?;
    let Fit { batch } = batch_of(alloc, workload, 1, names, Mixer::Whole)?;
    Ok(parts.batches.push(batch)?)
}

/// The vote for the commit, alone.
fn votes_for(alloc: Global, commit: CommitData) -> Result<Vec<VoteData>, AllocError> {
    let token = commit.token;
    let vote = VoteData {
        seq: commit.seq,
        view: commit.view,
        choice: ChoiceData::ForCommit,
        token,
    };
    Ok(vec![in alloc; vote]?)
}

/// The bytes of the parts of a trace.
pub fn bytes_of(alloc: Global, parts: &Parts) -> io::Result<Vec<u8>> {
    let mut out = SinkOf::new(Vec::new(alloc));
    let bytes = match gather(parts, MOST_BYTES as u64, &mut out) {
        Ok(_) => copy_of(out.writer()),
        Err(_) => Err(stopped()),
    };
    drop(out);
    bytes
}

fn copy_of(bytes: &Vec<u8>) -> io::Result<Vec<u8>> {
    Ok(bytes.clone()?)
}
