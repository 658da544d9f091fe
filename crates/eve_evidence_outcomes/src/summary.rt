//! What a trace without a fault has, in numbers.

ghost use Rattle.std.specs.Prelude.{◌≡◌, ◌<◌, ◌≤◌, if◌then◌else◌, length};
ghost use Rattle.std.specs.List.{sum_by};
ghost use Rattle.eve_frames.specs.Decoded.{batch_decoded};
ghost use Rattle.eve_history.specs.SectionHistory.{section_history, section_histories};
ghost use Rattle.eve_evidence_outcomes.specs.Counts.{is_fate, counted, fate_count, IsReplicaCounts, AreTraceCounts};
ghost use Rattle.eve_evidence_outcomes.specs.Places.{HoldsEach};

use crate::replicas::history_at;
use eve_evidence::{Counts, REPLICAS, ReplicaCounts};
use eve_frames::BatchView;
use eve_history::{Fate, History};
use eve_views::Trace;

/// A number as 32 bits hold it, which is itself wherever they can.
fn counted(n: usize) -> u32
    ensures { result ≡ counted n }
{
    n.min(4_294_967_295) as u32
}

/// How many requests a batch has.
fn requests_in(batch: &BatchView<'_>) -> u32
    ensures count { result ≡ length (batch_decoded batch.now).1.requests }
    ensures few { result ≤ 256 }
{
    counted(batch.len())
}

/// How many requests all batches have.
fn requests_in_all(trace: &Trace<'_>) -> u32
    ensures { result ≡ sum_by (λ b. length b.requests) trace.now.batches }
{
    trace.recall_limits();
    let mut count: u32 = 0;
    for i in 0..trace.batch_count() {
        let batch = trace.batch(i + 1);
        count += requests_in(&batch);
    }
    count
}

/// 1 where it is that fate, else 0.
fn one_if(of: Fate, fate: Fate) -> usize
    ensures is { result ≡ if is_fate of fate then 1 else 0 }
    ensures few { result ≤ 1 }
{
    match of {
        Fate::Committed => match fate {
            Fate::Committed => 1,
            _ => 0,
        },
        Fate::Discarded => match fate {
            Fate::Discarded => 1,
            _ => 0,
        },
        Fate::Open => match fate {
            Fate::Open => 1,
            _ => 0,
        },
    }
}

/// How many of a replica's attempts came to that.
fn fate_count(history: &History<'_>, of: Fate) -> u32
    ensures { result ≡ fate_count of history.now }
{
    let mut count: usize = 0;
    for i in 0..history.attempts() {
        count += one_if(of, history.fate(i));
    }
    counted(count)
}

/// What a replica did, in numbers.
fn counts_of(history: &History<'_>) -> ReplicaCounts
    ensures { IsReplicaCounts history.now result }
{
    ReplicaCounts {
        committed: fate_count(history, Fate::Committed),
        transferred: counted(history.transfers()),
        discarded: fate_count(history, Fate::Discarded),
        open: fate_count(history, Fate::Open),
        rollbacks: counted(history.rollbacks()),
    }
}

/// What replica e did, in numbers.
fn counts_at(trace: &Trace<'_>, histories: &[History<'_>], e: u8) -> ReplicaCounts
    requires histories { histories.now ≡ section_histories trace.now }
    requires there { e < length trace.now.sections }
    ensures { IsReplicaCounts (section_history trace.now e) result }
{
    counts_of(history_at(trace, histories, e))
}

/// What each replica did, in their order.
fn counts_of_all(trace: &Trace<'_>, histories: &[History<'_>]) -> [ReplicaCounts; REPLICAS]
    requires histories { histories.now ≡ section_histories trace.now }
    ensures { HoldsEach (length trace.now.sections) (λ e. IsReplicaCounts (section_history trace.now e)) result }
{
    trace.recall_limits();
    let mut all = [ReplicaCounts::NONE; REPLICAS];
    for e in 0..trace.section_count() {
        all[e as usize] = counts_at(trace, histories, e);
    }
    all
}

/// How many requests all batches have, and what each replica did, in their order: numbers committed by an attempt,
/// states transferred, attempts discarded and open at the end, and rollbacks.
///
/// docs/MODEL.md, "Section state, fate" and "Evidence". The histories are those of all replicas, in their order. One
/// pass over the batches, and three over what became of the attempts. It takes no memory.
pub fn counts(trace: &Trace<'_>, histories: &[History<'_>]) -> Counts
    requires histories { histories.now ≡ section_histories trace.now }
    ensures { AreTraceCounts trace.now result }
{
    let replicas = counts_of_all(trace, histories);
    Counts {
        requests: requests_in_all(trace),
        many: trace.section_count(),
        replicas,
    }
}
