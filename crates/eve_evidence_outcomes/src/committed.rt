//! The attempts by which a replica committed batches.

ghost use Rattle.std.specs.Prelude.{◌≡◌, ◌<◌, ℕ, IfSome, IfNone, None, Some, length};
ghost use Rattle.eve_grammar.specs.Trace.{Trace as TraceValue};
ghost use Rattle.eve_history.specs.SectionHistory.{section_history, section_histories, committed_at};
ghost use Rattle.eve_agree.specs.Agreement.{first_to_commit};
ghost use Rattle.eve_evidence_outcomes.specs.inner.Committed.{IsCommittedBy};

use eve_agree::has_committed;
use eve_frames::AttemptView;
use eve_history::History;

/// A replica, by its number, and the attempt by which it committed a batch.
#[derive(Clone, Copy)]
pub(crate) struct CommittedBy<'a> {
    /// The replica.
    pub replica: u8,
    /// The attempt.
    pub attempt: AttemptView<'a>,
}

/// The attempt by which a replica committed batch n, by what its section tells, if it did.
pub(crate) fn committed_attempt<'a>(history: &History<'a>, n: u32) -> Option<AttemptView<'a>>
    ensures some { IfSome result (λ a. (t : TraceValue) (e : ℕ) → history.now ≡ section_history t e
        → IsCommittedBy t e n a) }
    ensures none { IfNone result ((t : TraceValue) (e : ℕ) → history.now ≡ section_history t e
        → committed_at t e n ≡ None) }
{
    if !has_committed(history, n) {
        return None;
    }
    Some(eve_agree::committed_attempt(history, n))
}

/// The lowest-numbered replica that committed batch n by an attempt, and that attempt, if one did.
pub(crate) fn first_committed<'a>(histories: &[History<'a>], n: u32) -> Option<CommittedBy<'a>>
    ensures some { IfSome result (λ x. (t : TraceValue) → histories.now ≡ section_histories t
        → (x.replica < length t.sections) × (first_to_commit t n ≡ Some x.replica)
        × IsCommittedBy t x.replica n x.attempt) }
    ensures none { IfNone result ((t : TraceValue) → histories.now ≡ section_histories t
        → first_to_commit t n ≡ None) }
{
    for e in 0..histories.len() {
        let history = &histories[e];
        if let Some(attempt) = committed_attempt(history, n) {
            return Some(CommittedBy {
                replica: history.replica(),
                attempt,
            });
        }
    }
    None
}
