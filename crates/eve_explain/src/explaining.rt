//! The verdict on a trace, with its evidence.

ghost use Rattle.std.specs.Prelude.{◌≡◌, ◌≤◌, ℕ, List, IfOk, length};
ghost use Rattle.eve_views.specs.declared.fault.Code.TheVariants as code;
ghost use Rattle.eve_grammar.specs.FrameOrder.{Spells};
ghost use Rattle.eve_views.specs.declared.fault.Fault.{Fault as FaultValue};
ghost use Rattle.eve_audit.specs.declared.verdict.Summary.{Summary as SummaryValue};
ghost use Rattle.eve_audit.specs.declared.verdict.Verdict.TheVariants.{Yes, No};
ghost use Rattle.eve_audit.specs.Verdict.{IsFirst, IsVerdict, SpellsAudited};
ghost use Rattle.eve_audit.specs.Where.{NamesItsSection};
ghost use Rattle.eve_history.specs.SectionHistory.{section_histories};
ghost use Rattle.std.specs.Prelude.{Some, IsTrue};
ghost use Rattle.eve_evidence.specs.Section.{TellsAlong};
ghost use Rattle.eve_explain.specs.inner.Behind.{IsFirstInTrace};
ghost use Rattle.eve_explain.specs.Explained.{is_told_along, verdict_in};
ghost use Rattle.eve_explain.specs.Explained.{IsEvidence, IsEvidenceOf, IsExplained};

use crate::explained::Explained;
use crate::names::names_in_order;
use crate::outcomes::{
    evidence_of_agreement, evidence_of_majority, evidence_of_reply, evidence_of_restore,
    evidence_of_token,
};
use crate::phase::{is_of_majority, is_of_orders, is_told_along};
use eve_audit::{AcceptedTrace, AuditFault, WholeVerdict, audit_whole};
use eve_evidence::laws::faults_stand_along_the_section;
use eve_evidence::{Evidence, section_evidence};
use eve_evidence_form::{form_evidence, trace_evidence};
use eve_evidence_outcomes::{counts, decisions_evidence, voted_again};
use eve_gate::Gate;
use eve_grammar::MOST_AUDIT_WORKERS;
use eve_grammar::laws::bytes_spell_one_trace;
use eve_views::{CheckFault, Code, Fault, Trace};
use std::alloc::{AllocError, Global};
use std::hash::RandomState;
use std::sync::Wait;
use std::thread::Threads;

/// The evidence of a fault along the section of the replica that it names.
fn evidence_along<'a>(
    alloc: Global,
    trace: &Trace<'a>,
    fault: &Fault,
    random: RandomState,
) -> Result<Evidence<'a>, AllocError>
    requires first { IsFirstInTrace trace.now fault.now }
    requires along { IsTrue (is_told_along fault.now.code) }
    ensures { IfOk result (λ x. (e : ℕ) → fault.now.replica ≡ Some e
        → TellsAlong fault.now.code trace.now e fault.now.offset x) }
{
    bytes_spell_one_trace();
    faults_stand_along_the_section();
    let Some(e) = fault.replica else {
        return Ok(Evidence::Untold);
    };
    let names = names_in_order(alloc, trace, random)?;
    section_evidence(alloc, trace, &names, e, fault.code, fault.offset)
}

/// The evidence of a fault in the trace, in up to `jobs` threads where records and chains are judged for it.
fn evidence_in<'a, R: Threads + Sync>(
    rt: &R,
    alloc: Global,
    trace: &Trace<'a>,
    fault: &Fault,
    random: RandomState,
    jobs: u8,
) -> Result<Evidence<'a>, AllocError>
    requires first { IsFirstInTrace trace.now fault.now }
    requires jobs { 1 ≤ jobs }
    ensures { IfOk result (IsEvidence trace.now fault.now) }
{
    bytes_spell_one_trace();
    if is_told_along(fault.code) {
        return evidence_along(alloc, trace, fault, random);
    }
    if is_of_majority(fault.code) {
        return Ok(evidence_of_majority(trace, fault));
    }
    if is_of_orders(fault.code) {
        return trace_evidence(alloc, trace, fault);
    }
    match fault.code {
        Code::TwoVotes => Ok(Evidence::TwoVotes(voted_again(trace, fault.offset))),
        Code::TwoDecisions => decisions_evidence(alloc, trace, fault.offset),
        Code::Restore => evidence_of_restore(alloc, trace, fault),
        Code::Token => evidence_of_token(rt, alloc, trace, fault, random, jobs),
        Code::Outcome | Code::TransferBalances => {
            evidence_of_agreement(rt, alloc, trace, fault, random, jobs)
        }
        Code::Reply => evidence_of_reply(alloc, trace, fault),
        _ => Ok(Evidence::Untold),
    }
}

/// The evidence of the first fault of these bytes.
fn evidence_of<'a, R: Threads + Sync>(
    rt: &R,
    alloc: Global,
    bytes: &'a [u8],
    fault: &Fault,
    random: RandomState,
    jobs: u8,
) -> Result<Evidence<'a>, AllocError>
    requires first { IsFirst bytes.now fault.now }
    requires jobs { 1 ≤ jobs }
    ensures { IfOk result (IsEvidenceOf bytes.now fault.now) }
{
    bytes_spell_one_trace();
    match Trace::read(alloc, bytes) {
        Ok(trace) => evidence_in(rt, alloc, &trace, fault, random, jobs),
        Err(CheckFault::Found(_)) => Ok(form_evidence(bytes, fault)),
        Err(CheckFault::Memory) => Err(AllocError),
    }
}

/// A no with the evidence of its fault.
fn explained_no<'a, R: Threads + Sync>(
    rt: &R,
    alloc: Global,
    bytes: &'a [u8],
    fault: &Fault,
    random: RandomState,
    jobs: u8,
) -> Result<Explained<'a>, AuditFault>
    requires first { IsFirst bytes.now fault.now }
    requires jobs { 1 ≤ jobs }
    ensures no { IfOk result (λ x. verdict_in x ≡ No fault.now) }
    ensures explained { IfOk result (IsExplained bytes.now) }
{
    match evidence_of(rt, alloc, bytes, fault, random, jobs) {
        Ok(evidence) => Ok(Explained::No(*fault, evidence)),
        Err(AllocError) => Err(AuditFault::Memory),
    }
}

/// A yes with what the trace has, in numbers.
fn explained_yes<'a>(accepted: &AcceptedTrace<'_>) -> Explained<'a>
    requires { accepted.now.histories.items ≡ section_histories accepted.now.trace }
    ensures yes { verdict_in result ≡ Yes accepted.now.summary }
    ensures explained { (bytes : List ℕ) → Spells bytes accepted.now.trace → IsExplained bytes result }
{
    bytes_spell_one_trace();
    let counts = counts(&accepted.trace, &accepted.histories);
    Explained::Yes(accepted.summary, counts)
}

/// The verdict on the bytes of a trace, as `audit` gives it. For a yes it has what the trace has, in numbers; for a no
/// what shows it: what is wrong at the frame that the fault names, what was due there, and what says so.
///
/// docs/MODEL.md, "Verdict" and "Evidence". Refused memory decides nothing. The trace is audited first. Only where the
/// verdict is no it is read again, and once more gone through up to the fault. For Token the records and chains of the
/// replica are judged once more, for Outcome and TransferBalances those of all replicas.
pub fn explain<'a, R: Threads + Wait + Sync, G: Gate>(
    rt: &R,
    alloc: Global,
    bytes: &'a [u8],
    workers: u8,
    random: RandomState,
    gate: &G,
) -> Result<Explained<'a>, AuditFault>
    requires { (1 ≤ workers) × (workers ≤ MOST_AUDIT_WORKERS) }
    ensures verdict { IfOk result (λ x. IsVerdict bytes.now (verdict_in x)) }
    ensures yes { IfOk result (λ x. (s : SummaryValue) → verdict_in x ≡ Yes s → SpellsAudited bytes.now) }
    ensures within { IfOk result (λ x. (f : FaultValue) → verdict_in x ≡ No f → f.offset ≤ length bytes.now) }
    ensures replica { IfOk result (λ x. (f : FaultValue) → verdict_in x ≡ No f → NamesItsSection bytes.now f) }
    ensures explained { IfOk result (IsExplained bytes.now) }
{
    match audit_whole(rt, alloc, bytes, workers, random, gate) {
        Ok(WholeVerdict::Yes(accepted)) => Ok(explained_yes(&accepted)),
        Ok(WholeVerdict::No(fault)) => explained_no(rt, alloc, bytes, &fault, random, workers),
        Err(why) => Err(why),
    }
}
