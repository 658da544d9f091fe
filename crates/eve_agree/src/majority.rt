//! The faults of majorities.

ghost use Rattle.std.specs.Prelude.{◌≡◌, ◌≢◌, ◌<◌, ◌≤◌, ◌+◌, ◌-◌, ◌^◌, ℕ, ◌↔◌, IsTrue, length};
ghost use Rattle.std.specs.Prelude.{IfSome, IfNone, IfOk, IfErr};
ghost use Rattle.eve_grammar.specs.Trace.{Step as StepValue};
ghost use Rattle.eve_frames.specs.Decoded.{commit_decoded, rollback_decoded, transfer_decoded};
ghost use Rattle.eve_views.specs.Form.{IfFound, IsLeast, HasNone, IsFaultSomewhere};
ghost use Rattle.eve_views.specs.StepKinds.{IsStep};
ghost use Rattle.eve_views.specs.declared.fault.CheckFault.TheVariants.{Memory};
ghost use Rattle.eve_history.specs.SectionHistory.{section_histories, IsRightSection};
ghost use Rattle.eve_votes.specs.Votes.{IsDecided, IsRolledBack};
ghost use Rattle.eve_agree.specs.Majority.{SomeDecided, IsBacked, IsBackedSection, AllAreBacked, StandsInMajorities};
ghost use Rattle.eve_agree.specs.inner.Unbacked.{HasRoom, IsUnbacked, IsFirstUnbackedIn};

use eve_frames::{CommitView, RollbackView, TransferView};
use eve_history::{History, recall_all_right};
use eve_views::{CheckFault, Code, Fault, Step, Trace, first_of};
use eve_votes::Tally;

/// Whether a majority decided what is committed: the batch, in that view, with that token.
/// Decides F72 NoMajority.
fn is_decided(tally: &Tally<'_, '_>, commit: &CommitView<'_>) -> bool
    ensures { IsTrue result ↔ IsDecided tally.now (commit_decoded commit.now).seq
        (commit_decoded commit.now).view (commit_decoded commit.now).token }
{
    let decided = tally.decided(commit.seq());
    match &decided {
        Some(decision) => decision.0 == commit.view() && decision.1.as_slice() == commit.token(),
        None => false,
    }
}

/// Whether a majority rolled back the batch after the one that a rollback goes back to, in the view before.
/// Decides F73 RollbackNoMajority.
fn is_rolled_back(tally: &Tally<'_, '_>, rollback: &RollbackView<'_>) -> bool
    requires next { (rollback_decoded rollback.now).to + 1 < 2 ^ 32 }
    requires view { 1 ≤ (rollback_decoded rollback.now).view }
    ensures { IsTrue result ↔ IsRolledBack tally.now ((rollback_decoded rollback.now).to + 1)
        ((rollback_decoded rollback.now).view - 1) }
{
    tally.rolled_back(rollback.to() + 1, rollback.view() - 1)
}

/// Whether a majority decided some commit of the number whose state is transferred, in the state's view.
/// Decides F74 TransferNoMajority.
fn is_some_decided(tally: &Tally<'_, '_>, transfer: &TransferView<'_>) -> bool
    ensures { IsTrue result ↔ SomeDecided tally.now (transfer_decoded transfer.now).seq
        (transfer_decoded transfer.now).view }
{
    let Some(decision) = tally.decided(transfer.seq()) else {
        return false;
    };
    decision.0 == transfer.view()
}

/// What is wrong with a step of a replica: no majority voted for it.
fn unbacked(tally: &Tally<'_, '_>, e: u8, step: Step<'_, '_>) -> Option<Fault>
    requires { (next : ℕ × StepValue) × IsStep step next × HasRoom next.1 }
    ensures backed { IfNone result ((next : ℕ × StepValue) → IsStep step.entry next → IsBacked tally.now next.1) }
    ensures unbacked { IfSome result (λ f. (next : ℕ × StepValue) → IsStep step.entry next
        → IsUnbacked tally.now e next f) }
{
    let (code, offset) = match step {
        Step::Attempt(_, _) => return None,
        Step::Commit(commit) => {
            if is_decided(tally, &commit) {
                return None;
            }
            (Code::NoMajority, commit.offset())
        }
        Step::Rollback(rollback) => {
            if is_rolled_back(tally, &rollback) {
                return None;
            }
            (Code::RollbackNoMajority, rollback.offset())
        }
        Step::Transfer(transfer) => {
            if is_some_decided(tally, &transfer) {
                return None;
            }
            (Code::TransferNoMajority, transfer.offset())
        }
    };
    Some(Fault {
        code,
        offset,
        replica: Some(e),
    })
}

/// The first commit, rollback or transfer of a replica that no majority voted for.
fn first_in(trace: &Trace<'_>, tally: &Tally<'_, '_>, e: u8) -> Option<Fault>
    requires there { e < length trace.now.sections }
    requires right { IsRightSection trace.now e }
    requires tally { tally.now ≡ trace.now }
    ensures backed { IfNone result (IsBackedSection trace.now e) }
    ensures first { IfSome result (IsFirstUnbackedIn trace.now e) }
{
    trace.recall_limits();
    let mut steps = trace.section(e);
    while let Some(step) = steps.next() {
        if let Some(fault) = unbacked(tally, e, step) {
            return Some(fault);
        }
    }
    None
}

/// Judges the commits, rollbacks and transfers of all replicas: a majority of the verifiers voted for each; else
/// `Found`, the first without. Of a transfer some commit of its number is decided in its view, whatever the token.
///
/// docs/MODEL.md, "Majority". The votes are those of the trace. It takes no memory, and never answers Memory. For a
/// commit or a transfer it looks up the decision that is kept of its number; for a rollback it counts votes.
pub fn majorities(
    trace: &Trace<'_>,
    histories: &[History<'_>],
    tally: &Tally<'_, '_>,
) -> Result<(), CheckFault>
    requires histories { histories.now ≡ section_histories trace.now }
    requires tally { tally.now ≡ trace.now }
    ensures backed { IfOk result (λ _. AllAreBacked trace.now) }
    ensures none { IfOk result (λ _. HasNone (IsFaultSomewhere StandsInMajorities trace.now)) }
    ensures least { IfErr result (λ why. IfFound why (IsLeast (IsFaultSomewhere StandsInMajorities trace.now))) }
    ensures found { IfErr result (λ why. why ≢ Memory) }
{
    recall_all_right(histories);
    let mut first = None;
    for history in histories {
        first = first_of(first, first_in(trace, tally, history.replica()));
    }
    match first {
        Some(fault) => Err(CheckFault::Found(fault)),
        None => Ok(()),
    }
}
