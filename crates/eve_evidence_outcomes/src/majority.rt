//! The evidence of a commit, a rollback or a state transferred without a majority.

ghost use Rattle.std.specs.Prelude.{◌≡◌, ◌<◌, ◌≤◌, ◌+◌, ◌-◌, ℕ, IfSome, IfNone, length};
ghost use Rattle.eve_grammar.specs.Trace.{Step as StepValue, Commits, RollsBack, Transfers};
ghost use Rattle.eve_frames.specs.Decoded.{commit_decoded, rollback_decoded, transfer_decoded};
ghost use Rattle.eve_grammar.specs.Bodies.{borrowed_choice as choice_of};
ghost use Rattle.eve_views.specs.StepKinds.{IsStep};
ghost use Rattle.eve_history.specs.SectionHistory.{IsRightSection};
ghost use Rattle.eve_votes.specs.Votes.{backers};
ghost use Rattle.eve_agree.specs.inner.Unbacked.{HasRoom};
ghost use Rattle.eve_agree.specs.Majority.{StandsInMajorities, SomeDecided};
ghost use Rattle.eve_evidence_outcomes.specs.Majority.{LacksMajority, LacksNone, TellsPoll, TellsTransferPoll};
ghost use Rattle.eve_evidence_outcomes.specs.Majority.{TellsVoters, TellsVotersOf, TellsMajority};

use crate::polls::{count_backers, most_backers, told_choices, told_votes};
use eve_evidence::{Evidence, Poll, TransferPoll};
use eve_frames::{CommitView, RollbackView, TransferView};
use eve_grammar::Choice;
use eve_views::{Code, Step, Trace};

/// Who voted for a choice on the batch in the view, where they are no quorum.
fn poll<'a>(trace: &Trace<'a>, n: u32, view: u32, choice: Choice<'a>) -> Option<Evidence<'a>>
    ensures told { IfSome result (TellsPoll trace.now n view (choice_of choice.entry)) }
    ensures none { IfNone result (trace.now.head.quorum ≤ backers trace.now n view (choice_of choice.entry)) }
{
    trace.recall_limits();
    let found = count_backers(trace, n, view, choice);
    let due = trace.head().quorum;
    if due <= found {
        return None;
    }
    let votes = told_votes(trace, n, view, choice);
    Some(Evidence::Majority(Poll {
        batch: n,
        view,
        choice,
        found,
        due,
        verifiers: trace.verifier_count(),
        votes,
    }))
}

/// Who voted for some commit of the batch in the view, where with no token they are a quorum, of a state whose frame
/// begins at byte `at`.
fn transfer_poll<'a>(trace: &Trace<'a>, at: u64, n: u32, view: u32) -> Option<Evidence<'a>>
    ensures told { IfSome result (TellsTransferPoll trace.now at n view) }
    ensures none { IfNone result (SomeDecided trace.now n view) }
{
    trace.recall_limits();
    let found = most_backers(trace, n, view);
    let due = trace.head().quorum;
    if due <= found {
        return None;
    }
    let votes = told_choices(trace, n, view);
    Some(Evidence::TransferMajority {
        at,
        poll: TransferPoll {
            batch: n,
            view,
            found,
            due,
            verifiers: trace.verifier_count(),
            votes,
        },
    })
}

/// Who voted for a commit, where that is asked for and they are no quorum.
fn of_commit<'a>(trace: &Trace<'a>, commit: &CommitView<'a>, code: Code) -> Option<Evidence<'a>>
    ensures told { IfSome result (TellsVoters code trace.now commit.now.offset (Commits (commit_decoded commit.now))) }
    ensures none { IfNone result (¬ LacksMajority code trace.now (Commits (commit_decoded commit.now))) }
{
    match code {
        Code::NoMajority => poll(
            trace,
            commit.seq(),
            commit.view(),
            Choice::ForCommit(commit.token()),
        ),
        _ => None,
    }
}

/// Who voted for a rollback, where that is asked for and they are no quorum.
fn of_rollback<'a>(
    trace: &Trace<'a>,
    rollback: &RollbackView<'a>,
    code: Code,
) -> Option<Evidence<'a>>
    requires { HasRoom (RollsBack (rollback_decoded rollback.now)) }
    ensures told { IfSome result (TellsVoters code trace.now rollback.now.offset
        (RollsBack (rollback_decoded rollback.now))) }
    ensures none { IfNone result (¬ LacksMajority code trace.now
        (RollsBack (rollback_decoded rollback.now))) }
{
    match code {
        Code::RollbackNoMajority => poll(
            trace,
            rollback.to() + 1,
            rollback.view() - 1,
            Choice::ForRollback,
        ),
        _ => None,
    }
}

/// Who voted for the commit of a state that is transferred, where that is asked for and they are no quorum.
fn of_transfer<'a>(
    trace: &Trace<'a>,
    transfer: &TransferView<'a>,
    code: Code,
) -> Option<Evidence<'a>>
    ensures told { IfSome result (TellsVoters code trace.now transfer.now.offset
        (Transfers (transfer_decoded transfer.now))) }
    ensures none { IfNone result (¬ LacksMajority code trace.now
        (Transfers (transfer_decoded transfer.now))) }
{
    match code {
        Code::TransferNoMajority => {
            transfer_poll(trace, transfer.offset(), transfer.seq(), transfer.view())
        }
        _ => None,
    }
}

/// Who voted for what a step does, where it has a fault of this code.
fn of_step<'a>(trace: &Trace<'a>, step: &Step<'_, 'a>, code: Code) -> Option<Evidence<'a>>
    requires { (is : ℕ × StepValue) × IsStep step.now is × HasRoom is.1 }
    ensures told { IfSome result (TellsVotersOf code trace.now step.now) }
    ensures none { IfNone result (LacksNone code trace.now step.now) }
{
    match step {
        Step::Attempt(_, _) => None,
        Step::Commit(commit) => of_commit(trace, commit, code),
        Step::Rollback(rollback) => of_rollback(trace, rollback, code),
        Step::Transfer(transfer) => of_transfer(trace, transfer, code),
    }
}

/// Who voted for what a step does, where its frame begins at this byte and it has a fault of this code.
fn at_step<'a>(
    trace: &Trace<'a>,
    step: &Step<'_, 'a>,
    code: Code,
    place: u64,
) -> Option<Evidence<'a>>
    requires { (is : ℕ × StepValue) × IsStep step.now is × HasRoom is.1 }
    ensures told { IfSome result (λ evidence. (is : ℕ × StepValue) → IsStep step.now is
        → (is.0 ≡ place) × TellsVoters code trace.now is.0 is.1 evidence) }
    ensures none { IfNone result ((is : ℕ × StepValue) → IsStep step.now is → is.0 ≡ place
        → ¬ LacksMajority code trace.now is.1) }
{
    if step.offset() != place {
        return None;
    }
    of_step(trace, step, code)
}

/// The evidence of a commit, a rollback or a state transferred without a majority, by the replica's number from 0 and
/// the byte of its frame: who voted for it, verifier by verifier, and how many count.
///
/// docs/MODEL.md, "Majority" and "Evidence". One pass over the section up to that frame, and two over the votes. For a
/// state transferred there is one more for each verifier that voted for a commit. It takes no memory.
pub fn majority_evidence<'a>(trace: &Trace<'a>, e: u8, code: Code, place: u64) -> Evidence<'a>
    requires there { e < length trace.now.sections }
    requires right { IsRightSection trace.now e }
    requires stands { StandsInMajorities code trace.now e place }
    ensures told { TellsMajority code trace.now e place result }
{
    trace.recall_limits();
    let mut steps = trace.section(e);
    while let Some(step) = steps.next() {
        if let Some(found) = at_step(trace, &step, code, place) {
            return found;
        }
    }
    unreachable!()
}
