//! The calls that judge all replicas together, by themselves: also where an audit would stop before them, at votes.

ghost use Rattle.std.specs.Prelude.{◌≡◌, ℕ, IfOk};
ghost use Rattle.eve_history.specs.SectionHistory.{section_histories, IsRightSection};
ghost use Rattle.eve_chains.specs.CommittedValues.{settlings};

use eve_agree::{equal_balances, replies};
use eve_chains::{Settled, check};
use eve_history::{History, orders};
use eve_views::{CheckFault, Trace};
use std::hash::RandomState;
use std::thread::Threads;

/// What all replicas did and committed.
#[derive(Drop)]
struct Replicas<'a> {
    histories: Vec<History<'a>>,
    settled: Vec<Settled<'a>>,
}

/// Reads what each replica did, one after another, and judges each by itself.
fn read_replicas<'a, R: AllocGlobal + Threads + Sync>(
    rt: &R,
    trace: &Trace<'a>,
    random: RandomState,
) -> Result<Replicas<'a>, CheckFault>
    ensures histories { IfOk result (λ told. told.histories.items ≡ section_histories trace.now) }
    ensures settled { IfOk result (λ told. told.settled.items ≡ settlings trace.now) }
    ensures right { IfOk result (λ _. (e : ℕ) → IsRightSection trace.now e) }
{
    trace.recall_limits();
    let names = orders(rt.alloc(), trace, random)?;
    let mut histories = Vec::new(rt.alloc());
    let mut settled = Vec::new(rt.alloc());
    'replicas: for e in 0..trace.section_count() {
        let history = History::of(rt.alloc(), trace, e)?;
        let wrote = check(rt, rt.alloc(), &history, trace, &names, 1)?;
        histories.push(history)?;
        settled.push(wrote)?;
    }
    Ok(Replicas { histories, settled })
}

/// What is judged of all replicas together.
#[derive(Clone, Copy)]
pub(crate) enum Matter {
    /// Whether they agree.
    Outcomes,
    /// Whether the replies that were sent are those that were committed.
    Replies,
}

/// Judges a trace by itself.
pub(crate) fn judge<R: AllocGlobal + Threads + Sync>(
    rt: &R,
    bytes: &[u8],
    matter: Matter,
    random: RandomState,
) -> Result<(), CheckFault> {
    let trace = Trace::read(rt.alloc(), bytes)?;
    judge_trace(rt, &trace, matter, random)
}

fn judge_trace<R: AllocGlobal + Threads + Sync>(
    rt: &R,
    trace: &Trace,
    matter: Matter,
    random: RandomState,
) -> Result<(), CheckFault> {
    let told = read_replicas(rt, trace, random)?;
    match matter {
        Matter::Outcomes => equal_balances(rt.alloc(), trace, &told.histories, &told.settled),
        Matter::Replies => replies(trace, &told.histories),
    }
}
