//! The evidence of a batch that is decided in two views.

ghost use Rattle.std.specs.Prelude.{◌≡◌, ◌≤◌, ◌-◌, ℕ, IfOk, IfSome, IfNone, Some, length, slice_get};
ghost use Rattle.eve_grammar.specs.Trace.{Batch as BatchValue};
ghost use Rattle.eve_grammar.specs.Spelling.{batches_at};
ghost use Rattle.eve_views.specs.declared.fault.Code.TheVariants as code;
ghost use Rattle.eve_votes.specs.Faults.{HasTwoDecisions, StandsInVotes};
ghost use Rattle.eve_evidence_outcomes.specs.Decisions.{decided_of, TellsDecisions, TellsTwoDecisions};

use eve_evidence::{Evidence, ToldDecision};
use eve_views::Trace;
use eve_votes::{Decided, SortedVotes};
use std::alloc::{AllocError, Global};

/// A decision as it is told.
fn told(decided: Decided) -> ToldDecision
    ensures { decided_of result ≡ decided }
{
    let Decided { view, token, votes } = decided;
    ToldDecision { view, token, votes }
}

/// The two least views in which a batch is decided, by its number, if there are two. The votes are those of the trace.
fn first_decisions<'a>(
    trace: &Trace<'a>,
    votes: &SortedVotes<'_, '_>,
    n: u32,
) -> Option<Evidence<'a>>
    requires { votes.now ≡ trace.now }
    ensures told { IfSome result (TellsDecisions trace.now n) }
    ensures none { IfNone result (¬ HasTwoDecisions trace.now n) }
{
    let Some(first) = votes.next_decision(n, 0) else {
        return None;
    };
    let Some(second) = votes.next_decision(n, u64::from(first.view) + 1) else {
        return None;
    };
    Some(Evidence::TwoDecisions {
        batch: n,
        first: told(first),
        second: told(second),
        verifiers: trace.verifier_count(),
    })
}

/// The same of the batch with this number from 1, if its frame begins at this byte.
fn at_batch<'a>(
    trace: &Trace<'a>,
    votes: &SortedVotes<'_, '_>,
    number: u32,
    place: u64,
) -> Option<Evidence<'a>>
    requires votes { votes.now ≡ trace.now }
    requires one { 1 ≤ number }
    requires there { number ≤ length trace.now.batches }
    ensures told { IfSome result (TellsTwoDecisions trace.now place) }
    ensures none { IfNone result ((b : ℕ × (ℕ × BatchValue)) → slice_get (batches_at trace.now) (number - 1) ≡ Some b
        → ¬ ((b.0 ≡ place) × HasTwoDecisions trace.now b.1.0)) }
{
    let batch = trace.batch(number);
    if batch.offset() != place {
        return None;
    }
    first_decisions(trace, votes, batch.seq())
}

/// The evidence of a batch that is decided in two views, by the byte of its frame: the two least of these views, each
/// with its token and with how many verifiers count for it.
///
/// docs/MODEL.md, "Decided, rolled back" and "Evidence". The votes are sorted once. Then those on the batch are gone
/// through, view after view, until the second of these views is found.
pub fn decisions_evidence<'a>(
    alloc: Global,
    trace: &Trace<'a>,
    place: u64,
) -> Result<Evidence<'a>, AllocError>
    requires stands { StandsInVotes code.TwoDecisions trace.now place }
    ensures told { IfOk result (TellsTwoDecisions trace.now place) }
{
    let votes = SortedVotes::of(alloc, trace)?;
    for i in 0..trace.batch_count() {
        if let Some(found) = at_batch(trace, &votes, i + 1, place) {
            return Ok(found);
        }
    }
    unreachable!()
}
