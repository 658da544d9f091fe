//! To which verdict the audit of a trace comes, and what `eve audit` says then.

ghost use Rattle.std.specs.Prelude.{◌≤◌};

use crate::meeting::Meeting;
use crate::texts::Missing;
use eve_audit::{Verdict, audit, audit_one};
use eve_grammar::MOST_AUDIT_WORKERS;
use eve_testing::Text;
use std::hash::RandomState;
use std::random::RandomSource;
use std::sync::Wait;
use std::thread::Threads;

/// Random keys for a table.
pub fn keys<R: RandomSource>(text: &mut Text, rt: &R) -> Option<RandomState> {
    match RandomState::new(rt) {
        Ok(keys) => Some(keys),
        Err(_) => {
            text.fail(Missing::Keys.error());
            None
        }
    }
}

/// The verdict of one thread.
pub fn by_one_thread<R: AllocGlobal + RandomSource + Threads + Sync>(
    text: &mut Text,
    rt: &R,
    bytes: &[u8],
) -> Option<Verdict> {
    let Some(random) = keys(text, rt) else {
        return None;
    };
    match audit_one(rt, rt.alloc(), bytes, random) {
        Ok(verdict) => Some(verdict),
        Err(_) => {
            text.refused();
            None
        }
    }
}

/// The verdict of this number of workers, who enter this gate.
pub fn by_workers<R: AllocGlobal + RandomSource + Threads + Wait + Sync>(
    text: &mut Text,
    rt: &R,
    bytes: &[u8],
    workers: u8,
    gate: &Meeting,
) -> Option<Verdict>
    requires { (1 ≤ workers) × (workers ≤ MOST_AUDIT_WORKERS) }
{
    let Some(random) = keys(text, rt) else {
        return None;
    };
    match audit(rt, rt.alloc(), bytes, workers, random, gate) {
        Ok(verdict) => Some(verdict),
        Err(_) => {
            text.refused();
            None
        }
    }
}

/// The exit status and the line that `eve audit` has for a verdict.
fn push_verdict(text: &mut Text, verdict: Option<Verdict>) {
    match verdict {
        Some(Verdict::Yes(summary)) => {
            text.value("0 yes: ", u64::from(summary.replicas));
            text.value(" replicas, ", u64::from(summary.batches));
            text.value(" batches, ", u64::from(summary.committed));
            text.words(" committed");
        }
        Some(Verdict::No(fault)) => {
            text.value("1 no: F", u64::from(fault.code.number()));
            text.words(" ");
            text.words(fault.code.name());
            text.value(" at byte ", fault.offset);
            if let Some(replica) = fault.replica {
                text.value(", replica ", u64::from(replica));
            }
        }
        None => text.words("no verdict"),
    }
}

/// What `eve audit` says.
pub fn push_by_one<R: AllocGlobal + RandomSource + Threads + Wait + Sync>(
    text: &mut Text,
    rt: &R,
    bytes: &[u8],
) {
    let verdict = by_workers(text, rt, bytes, 1, &Meeting::of(0));
    push_verdict(text, verdict);
}

/// What `eve audit` says, and what it says by each number of workers that changes it.
pub fn push_by_all<R: AllocGlobal + RandomSource + Threads + Wait + Sync>(
    text: &mut Text,
    rt: &R,
    bytes: &[u8],
) {
    let one = by_workers(text, rt, bytes, 1, &Meeting::of(0));
    push_verdict(text, one);
    for workers in 2..=MOST_AUDIT_WORKERS {
        let more = by_workers(text, rt, bytes, workers, &Meeting::of(0));
        if more != one {
            text.value(", but by ", u64::from(workers));
            text.words(" workers ");
            push_verdict(text, more);
        }
    }
}
