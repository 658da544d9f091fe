//! Evidence of restores, of tokens, of majorities, of what replicas come to together, and of replies that were sent.

ghost use Rattle.std.specs.Prelude.{◌≡◌, ◌≤◌, ℕ, IfOk, IsTrue, Some};
ghost use Rattle.eve_views.specs.Code.{phase_of};
ghost use Rattle.eve_views.specs.declared.fault.Code.TheVariants as code;
ghost use Rattle.eve_evidence_outcomes.specs.Majority.{TellsMajority};
ghost use Rattle.eve_evidence_outcomes.specs.Outcome.{TellsOutcome};
ghost use Rattle.eve_evidence_outcomes.specs.Outcomes.{TellsState};
ghost use Rattle.eve_evidence_outcomes.specs.Restore.{TellsRestore};
ghost use Rattle.eve_evidence_outcomes.specs.Sent.{TellsReply};
ghost use Rattle.eve_evidence_outcomes.specs.Token.{TellsToken};
ghost use Rattle.eve_explain.specs.inner.Behind.{IsFirstInTrace};
ghost use Rattle.eve_explain.specs.Explained.{is_of_majority};

use crate::names::names_in_order;
use crate::replicas::{histories_of, history_of};
use eve_evidence::Evidence;
use eve_evidence_outcomes::{
    Replicas, all_settled, majority_evidence, outcome_evidence, reply_evidence, restore_evidence,
    settled_of, state_evidence, token_evidence,
};
use eve_grammar::laws::bytes_spell_one_trace;
use eve_history::laws::right_sections_have_no_fault;
use eve_views::{Code, Fault, Trace};
use std::alloc::{AllocError, Global};
use std::hash::RandomState;
use std::thread::Threads;

/// The evidence of a step that no majority voted for.
pub(crate) fn evidence_of_majority<'a>(trace: &Trace<'a>, fault: &Fault) -> Evidence<'a>
    requires first { IsFirstInTrace trace.now fault.now }
    requires majority { IsTrue (is_of_majority fault.now.code) }
    ensures { (e : ℕ) → fault.now.replica ≡ Some e → TellsMajority fault.now.code trace.now e fault.now.offset result }
{
    bytes_spell_one_trace();
    right_sections_have_no_fault();
    let Some(e) = fault.replica else {
        return Evidence::Untold;
    };
    majority_evidence(trace, e, fault.code, fault.offset)
}

/// The evidence of a rollback whose restores aren't those that are due.
pub(crate) fn evidence_of_restore<'a>(
    alloc: Global,
    trace: &Trace<'a>,
    fault: &Fault,
) -> Result<Evidence<'a>, AllocError>
    requires first { IsFirstInTrace trace.now fault.now }
    requires restore { fault.now.code ≡ code.Restore }
    ensures { IfOk result (λ x. (e : ℕ) → fault.now.replica ≡ Some e → TellsRestore trace.now e fault.now.offset x) }
{
    bytes_spell_one_trace();
    let Some(e) = fault.replica else {
        return Ok(Evidence::Untold);
    };
    let history = history_of(alloc, trace, fault, e)?;
    restore_evidence(alloc, trace, &history, fault.offset)
}

/// The evidence of a token that isn't due.
pub(crate) fn evidence_of_token<'a, R: Threads + Sync>(
    rt: &R,
    alloc: Global,
    trace: &Trace<'a>,
    fault: &Fault,
    random: RandomState,
    jobs: u8,
) -> Result<Evidence<'a>, AllocError>
    requires first { IsFirstInTrace trace.now fault.now }
    requires token { fault.now.code ≡ code.Token }
    requires jobs { 1 ≤ jobs }
    ensures { IfOk result (λ x. (e : ℕ) → fault.now.replica ≡ Some e → TellsToken trace.now e fault.now.offset x) }
{
    bytes_spell_one_trace();
    let Some(e) = fault.replica else {
        return Ok(Evidence::Untold);
    };
    let history = history_of(alloc, trace, fault, e)?;
    let names = names_in_order(alloc, trace, random)?;
    let settled = settled_of(rt, alloc, trace, &history, &names, jobs)?;
    token_evidence(alloc, trace, &history, &settled, fault.offset)
}

/// The evidence of a reply that was sent and not committed.
pub(crate) fn evidence_of_reply<'a>(
    alloc: Global,
    trace: &Trace<'a>,
    fault: &Fault,
) -> Result<Evidence<'a>, AllocError>
    requires first { IsFirstInTrace trace.now fault.now }
    requires reply { fault.now.code ≡ code.Reply }
    ensures { IfOk result (TellsReply trace.now fault.now.offset) }
{
    bytes_spell_one_trace();
    let histories = histories_of(alloc, trace, fault)?;
    Ok(reply_evidence(trace, &histories, fault.offset))
}

/// The evidence of an outcome that isn't that of the first replica that committed the batch, or of a state that was
/// transferred and isn't the one that was committed.
pub(crate) fn evidence_of_agreement<'a, R: Threads + Sync>(
    rt: &R,
    alloc: Global,
    trace: &Trace<'a>,
    fault: &Fault,
    random: RandomState,
    jobs: u8,
) -> Result<Evidence<'a>, AllocError>
    requires first { IsFirstInTrace trace.now fault.now }
    requires agreement { phase_of fault.now.code ≡ phase_of code.Outcome }
    requires jobs { 1 ≤ jobs }
    ensures outcome { fault.now.code ≡ code.Outcome
        → IfOk result (λ x. (e : ℕ) → fault.now.replica ≡ Some e → TellsOutcome trace.now e fault.now.offset x) }
    ensures state { fault.now.code ≡ code.TransferBalances
        → IfOk result (λ x. (e : ℕ) → fault.now.replica ≡ Some e → TellsState trace.now e fault.now.offset x) }
{
    bytes_spell_one_trace();
    let Some(e) = fault.replica else {
        return Ok(Evidence::Untold);
    };
    let histories = histories_of(alloc, trace, fault)?;
    let names = names_in_order(alloc, trace, random)?;
    let settled = all_settled(rt, alloc, trace, &histories, &names, jobs)?;
    let replicas = Replicas {
        histories: &histories,
        settled: &settled,
    };
    match fault.code {
        Code::Outcome => outcome_evidence(alloc, trace, replicas, e, fault.offset),
        Code::TransferBalances => state_evidence(alloc, trace, replicas, e, fault.offset),
        _ => Ok(Evidence::Untold),
    }
}
