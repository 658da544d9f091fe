//! Whole runs, and what their auditor says.

ghost use Rattle.std.specs.Prelude.{◌≤◌};

use crate::replica::gates::{KnotGate, Turn};
use crate::replica::world::{bytes_of, stopped};
use eve_audit::{Verdict, audit_one};
use eve_grammar::NEWEST_VERSION;
use eve_replica::eve_workload::{Mixer, Workload};
use eve_replica::{RunFault, run};
use eve_testing::Text;
use eve_write::{Parts, Step};
use std::alloc::{AllocError, Global};
use std::hash::RandomState;
use std::io;
use std::random::RandomSource;
use std::sync::Wait;
use std::thread::Threads;

/// Runs the workload, all requests of a batch in one parallelBatch, and answers the parts of the trace. The attempts of
/// its knots are held as these turns say, and no request longer than the limit of turns.
pub fn run_held<R: RandomSource + Threads + Wait + Sync>(
    rt: &R,
    alloc: Global,
    workload: &Workload,
    turns: &'static [Turn],
) -> io::Result<Parts>
    requires { (1 ≤ workload.now.format) × (workload.now.format ≤ NEWEST_VERSION) }
{
    let gate = KnotGate::new(turns);
    let random = RandomState::new(rt)?;
    match run(rt, alloc, workload, Mixer::Whole, random, &gate) {
        Ok(parts) => kept_by(&gate, parts),
        Err(RunFault::Memory) => Err(AllocError.into()),
        Err(RunFault::Broken) => Err(io::Error::other("broken")),
        Err(RunFault::TooLong) => Err(io::Error::other("too long")),
    }
}

/// The parts of the run, where no request of it was held longer than the limit of turns.
fn kept_by(gate: &KnotGate, parts: Parts) -> io::Result<Parts> {
    if gate.is_kept() {
        Ok(parts)
    } else {
        drop(parts);
        Err(stopped())
    }
}

/// The verdict on a trace of these parts.
pub fn verdict_on<R: RandomSource + Threads + Wait + Sync>(
    rt: &R,
    alloc: Global,
    parts: &Parts,
) -> io::Result<Verdict> {
    let bytes = bytes_of(alloc, parts)?;
    let verdict = verdict_of(rt, alloc, bytes.as_slice());
    drop(bytes);
    verdict
}

fn verdict_of<R: RandomSource + Threads + Wait + Sync>(
    rt: &R,
    alloc: Global,
    bytes: &[u8],
) -> io::Result<Verdict> {
    let random = RandomState::new(rt)?;
    match audit_one(rt, alloc, bytes, random) {
        Ok(verdict) => Ok(verdict),
        Err(_) => Err(AllocError.into()),
    }
}

/// Tells what each replica did, one thing after another.
pub fn tell_sections(parts: &Parts, line: &mut Text) {
    for section in &parts.sections {
        for step in section {
            line.words(word_of(step));
        }
        line.words("| ");
    }
}

fn word_of(step: &Step) -> &'static str {
    match step {
        Step::Attempt(attempt) if attempt.serial => "serial ",
        Step::Attempt(_) => "parallel ",
        Step::Commit(_) => "commit ",
        Step::Rollback(_) => "rollback ",
        Step::Transfer(_) => "transfer ",
    }
}
