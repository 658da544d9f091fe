//! Replicas by their numbers: what their sections tell, and what they settled.

ghost use Rattle.std.specs.Prelude.{◌≡◌, ◌<◌, ◌≤◌, ℕ, IfOk, length};
ghost use Rattle.eve_history.specs.SectionHistory.{names_of, section_history, section_histories};
ghost use Rattle.eve_chains.specs.CommittedValues.{settling, settlings};
ghost use Rattle.eve_chains.specs.Faults.{HasNoFault};

use eve_accounts::Names;
use eve_chains::{Settled, check};
use eve_history::History;
use eve_views::{CheckFault, Trace};
use std::alloc::{AllocError, Global};
use std::thread::Threads;

/// What all replicas' sections tell, and what all settled, in their order.
#[derive(Clone, Copy)]
pub struct Replicas<'r, 'a> {
    /// What their sections tell.
    pub histories: &'r [History<'a>],
    /// What they settled.
    pub settled: &'r [Settled<'a>],
}

/// What replica e's section tells, of what all replicas' tell.
pub(crate) fn history_at<'h, 'a>(
    trace: &Trace<'_>,
    histories: &'h [History<'a>],
    e: u8,
) -> &'h History<'a>
    requires histories { histories.now ≡ section_histories trace.now }
    requires there { e < length trace.now.sections }
    ensures { result.now ≡ section_history trace.now e }
{
    let history = &histories[e as usize];
    history
}

/// What replica e settled, of what all replicas did.
pub(crate) fn settled_at<'h, 'a>(
    trace: &Trace<'_>,
    settled: &'h [Settled<'a>],
    e: u8,
) -> &'h Settled<'a>
    requires settled { settled.now ≡ settlings trace.now }
    requires there { e < length trace.now.sections }
    ensures { result.now ≡ settling trace.now e }
{
    let own = &settled[e as usize];
    own
}

/// What a replica settled in whose section no fault of records or chains stands.
///
/// Its records and its rows are judged in up to `jobs` threads, at least 1, as `check` does.
pub fn settled_of<'a, R: Threads + Sync>(
    rt: &R,
    alloc: Global,
    trace: &Trace<'_>,
    history: &History<'a>,
    names: &Names<'_>,
    jobs: u8,
) -> Result<Settled<'a>, AllocError>
    requires history { history.now ≡ section_history trace.now history.now.replica }
    requires none { HasNoFault trace.now history.now.replica }
    requires names { names.now.items ≡ names_of trace.now }
    requires jobs { 1 ≤ jobs }
    ensures { IfOk result (λ settled. settled ≡ settling trace.now history.now.replica) }
{
    match check(rt, alloc, history, trace, names, jobs) {
        Ok(settled) => Ok(settled),
        Err(CheckFault::Found(_)) => unreachable!(),
        Err(CheckFault::Memory) => Err(AllocError),
    }
}

/// What all replicas settled, in their order, where no fault of records or chains stands in any section.
///
/// It takes the opening balances for each replica, and what its batches changed; the replicas are judged one after
/// another, each as `settled_of` does.
pub fn all_settled<'a, R: Threads + Sync>(
    rt: &R,
    alloc: Global,
    trace: &Trace<'_>,
    histories: &[History<'a>],
    names: &Names<'_>,
    jobs: u8,
) -> Result<Vec<Settled<'a>>, AllocError>
    requires histories { histories.now ≡ section_histories trace.now }
    requires none { (e : ℕ) → e < length trace.now.sections → HasNoFault trace.now e }
    requires names { names.now.items ≡ names_of trace.now }
    requires jobs { 1 ≤ jobs }
    ensures { IfOk result (λ ss. ss.items ≡ settlings trace.now) }
{
    trace.recall_limits();
    let mut all = Vec::new(alloc);
    for e in 0..trace.section_count() {
        let history = history_at(trace, histories, e);
        let settled = settled_of(rt, alloc, trace, history, names, jobs)?;
        all.push(settled)?;
    }
    Ok(all)
}
