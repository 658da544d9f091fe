//! The verdict on a trace, from what its phases find.

ghost use Rattle.std.specs.Prelude.{◌≡◌, ◌≤◌, ℕ, List, IfOk, IfErr, length};
ghost use Rattle.eve_grammar.specs.FrameOrder.{Spells};
ghost use Rattle.eve_views.specs.Form.{IfFound, HasNone, IsFaultOutside};
ghost use Rattle.eve_history.specs.SectionHistory.{section_histories};
ghost use Rattle.eve_history.specs.Order.{StandsInOrders};
ghost use Rattle.eve_chains.specs.CommittedValues.{settlings};
ghost use Rattle.eve_audit.specs.Accepted.{IsAccepted};
ghost use Rattle.eve_audit.specs.Answer.{IfAccepted, IsAnswer, IsRead, IsWholeAnswer, verdict_of};
ghost use Rattle.eve_audit.specs.inner.Findings.{AreTrue};
ghost use Rattle.eve_audit.specs.Verdict.{IsSummary, IsVerdict, IsTraceFault, IsCommonFault, SpellsAudited};
ghost use Rattle.eve_audit.specs.Where.{NamesItsSection};
ghost use Rattle.eve_audit.specs.Reports.{IsFirstOf, IsSoundTogether};
ghost use Rattle.eve_audit.specs.declared.verdict.Summary.{Summary as SummaryValue};
ghost use Rattle.eve_audit.specs.declared.verdict.Verdict.TheVariants.{Yes, No};
ghost use Rattle.eve_views.specs.declared.fault.Fault.{Fault};

use crate::findings::{Finding, judge_in_turn, judge_side_by_side};
use crate::laws::accepted_traces_are_audited;
use crate::named::NamedTrace;
use crate::replicas::{Reports, all_reports};
use crate::verdict::{AcceptedTrace, AuditFault, Summary, Verdict, WholeVerdict};
use eve_agree::{equal_balances, majorities, replies_side_by_side};
use eve_chains::Settled;
use eve_chains::laws::requests_take_effect_once;
use eve_gate::Gate;
use eve_grammar::MOST_AUDIT_WORKERS;
use eve_grammar::laws::{
    bytes_are_as_long_as_their_trace, bytes_spell_one_trace, right_heads_have_limits,
};
use eve_history::laws::{faults_lie_within, outcomes_come_of_steps};
use eve_history::{History, orders};
use eve_views::laws::parts_stand_in_order;
use eve_views::{CheckFault, Trace};
use eve_votes::Tally;
use std::alloc::{AllocError, Global};
use std::hash::RandomState;
use std::sync::Wait;
use std::thread::Threads;

/// Reads a trace and judges its orders, the first with up to `jobs` jobs.
fn open<'a, R: Threads + Sync>(
    rt: &R,
    alloc: Global,
    bytes: &'a [u8],
    random: RandomState,
    jobs: u8,
) -> Result<NamedTrace<'a>, CheckFault>
    ensures read { IfOk result (λ named. IsRead bytes.now named.trace) }
    ensures orders { IfOk result (λ named. HasNone (IsFaultOutside StandsInOrders named.trace)) }
    ensures fault { IfErr result (λ why. IfFound why (λ f. IsAnswer bytes.now (No f))) }
{
    bytes_spell_one_trace();
    bytes_are_as_long_as_their_trace();
    parts_stand_in_order();
    faults_lie_within();
    outcomes_come_of_steps();
    let trace = match Trace::read_side_by_side(rt, alloc, bytes, jobs) {
        Ok(trace) => trace,
        Err(why) => return Err(why),
    };
    match orders(alloc, &trace, random) {
        Ok(names) => Ok(NamedTrace { trace, names }),
        Err(why) => Err(why),
    }
}

/// Judges the votes, what was committed and rolled back by them, whether the replicas agree, and, in up to `jobs`
/// threads, the replies that were sent; or the first fault of these.
fn judge_together<R: Threads + Sync>(
    rt: &R,
    alloc: Global,
    trace: &Trace<'_>,
    histories: &[History<'_>],
    settled: &[Settled<'_>],
    jobs: u8,
) -> Result<(), CheckFault>
    requires histories { histories.now ≡ section_histories trace.now }
    requires settled { settled.now ≡ settlings trace.now }
    ensures sound { IfOk result (λ _. IsSoundTogether trace.now) }
    ensures none { IfOk result (λ _. HasNone (IsCommonFault trace.now)) }
    ensures first { IfErr result (λ why. IfFound why (IsFirstOf (IsCommonFault trace.now))) }
{
    let tally = Tally::of(alloc, trace)?;
    majorities(trace, histories, &tally)?;
    equal_balances(alloc, trace, histories, settled)?;
    replies_side_by_side(rt, alloc, trace, histories, jobs)
}

/// A trace whose orders have no fault, with its summary and what each of its sections tells, or its first fault. What
/// was found of the replicas isn't judged again. The replies that were sent are judged in up to `jobs` threads.
fn judge_trace<'a, R: Threads + Sync>(
    rt: &R,
    alloc: Global,
    named: NamedTrace<'a>,
    findings: &mut [Finding<'a>],
    jobs: u8,
) -> Result<AcceptedTrace<'a>, CheckFault>
    requires orders { HasNone (IsFaultOutside StandsInOrders named.trace) }
    requires findings { AreTrue named.trace findings.old }
    ensures trace { IfOk result (λ a. a.trace ≡ named.entry.trace) }
    ensures histories { IfOk result (λ a. a.histories.items ≡ section_histories named.entry.trace) }
    ensures summary { IfOk result (λ a. IsSummary named.entry.trace a.summary) }
    ensures accepted { IfOk result (λ _. IsAccepted named.entry.trace) }
    ensures none { IfOk result (λ _. HasNone (IsTraceFault named.entry.trace)) }
    ensures first { IfErr result (λ why. IfFound why (IsFirstOf (IsTraceFault named.entry.trace))) }
{
    named.trace.recall_limits();
    right_heads_have_limits();
    requests_take_effect_once();
    let found = match all_reports(rt, alloc, &named, findings) {
        Ok(found) => found,
        Err(why) => return Err(why),
    };
    let NamedTrace { trace, names: _ } = named;
    match judge_together(rt, alloc, &trace, &found.histories, &found.settled, jobs) {
        Ok(()) => {}
        Err(why) => return Err(why),
    }
    let Reports {
        histories,
        settled: _,
        committed,
    } = found;
    let summary = Summary {
        replicas: trace.section_count() as u32,
        batches: trace.batch_count(),
        committed,
    };
    Ok(AcceptedTrace {
        summary,
        trace,
        histories,
    })
}

/// The verdict on the bytes that a trace was read from, where its orders have no fault. The replies that were sent are
/// judged in up to `jobs` threads.
fn verdict_on<'a, R: Threads + Sync>(
    rt: &R,
    alloc: Global,
    named: NamedTrace<'a>,
    findings: &mut [Finding<'a>],
    jobs: u8,
) -> Result<WholeVerdict<'a>, AuditFault>
    requires orders { HasNone (IsFaultOutside StandsInOrders named.trace) }
    requires findings { AreTrue named.trace findings.old }
    ensures { IfOk result (λ w. (bytes : List ℕ) → IsRead bytes named.entry.trace → IsWholeAnswer bytes w) }
{
    bytes_spell_one_trace();
    bytes_are_as_long_as_their_trace();
    parts_stand_in_order();
    faults_lie_within();
    outcomes_come_of_steps();
    accepted_traces_are_audited();
    match judge_trace(rt, alloc, named, findings, jobs) {
        Ok(accepted) => Ok(WholeVerdict::Yes(accepted)),
        Err(CheckFault::Found(fault)) => Ok(WholeVerdict::No(fault)),
        Err(CheckFault::Memory) => Err(AuditFault::Memory),
    }
}

/// Audits the bytes of a trace on one thread: the first fault, or yes with the summary where none stands. Where it is
/// yes, the bytes spell a trace that is one-thread SmallBank, batch by batch, and all else that `IsAudited` says. The
/// first fault stands within the bytes or at their end, and names the replica in whose section it lies, if any.
///
/// docs/MODEL.md, "Verdict" and "The audit theorem". No recorded claim is trusted. Refused memory decides nothing. It
/// waits for nobody.
///
/// The time is linear in the trace but for three things. Votes are sorted, and so are all requests where a client's
/// numbers don't rise or clients are too many for a table. A batch is read again for each reply sent that turns to it
/// from another. And for tokens of version 1 all balances are hashed for each batch, once where the replicas came to
/// the same; for those of version 2 what the batch changed is.
pub fn audit_one<R: Threads + Sync>(
    rt: &R,
    alloc: Global,
    bytes: &[u8],
    random: RandomState,
) -> Result<Verdict, AuditFault>
    ensures verdict { IfOk result (IsVerdict bytes.now) }
    ensures yes { IfOk result (λ v. (s : SummaryValue) → v ≡ Yes s → SpellsAudited bytes.now) }
    ensures within { IfOk result (λ v. (f : Fault) → v ≡ No f → f.offset ≤ length bytes.now) }
    ensures replica { IfOk result (λ v. (f : Fault) → v ≡ No f → NamesItsSection bytes.now f) }
{
    let named = match open(rt, alloc, bytes, random, 1) {
        Ok(named) => named,
        Err(CheckFault::Found(fault)) => return Ok(Verdict::No(fault)),
        Err(CheckFault::Memory) => return Err(AuditFault::Memory),
    };
    let mut findings = match judge_in_turn(rt, alloc, &named) {
        Ok(findings) => findings,
        Err(AllocError) => return Err(AuditFault::Memory),
    };
    let whole = verdict_on(rt, alloc, named, findings.as_mut_slice(), 1)?;
    Ok(whole.verdict())
}

/// Audits the bytes of a trace as `audit_one` does, the replicas side by side on up to `MOST_AUDIT_WORKERS` workers:
/// the same verdict, for every number of workers and every order in which they end.
///
/// docs/MODEL.md, "Verdict" and "The audit theorem".
///
/// - First the caller reads the trace and judges its orders: the bodies of batches, attempts, access records and states
///   transferred, in up to `workers` threads, which end before a worker begins.
/// - Then up to `workers` workers judge the replicas, each by itself, but for its tokens. Who judges replica e enters
///   the gate with e first.
/// - Of the replicas without a fault so far, the tokens of the one that committed most batches are judged in up to
///   `workers` threads, or else of the next. Beside it those of the others are judged, side by side: a batch that came
///   to the same there isn't hashed again.
/// - At last, once all workers have ended, the caller judges what the replicas come to together, and the replies that
///   were sent in up to `workers` threads.
///
/// At most `workers` threads work at once: with one worker none is started, and a replica has more than one thread
/// where there are two workers or more to each. The caller runs a worker that can't be started, and judges a replica
/// for which a worker had no memory. Nothing is promised of which threads run, and the call returns where the gate
/// does.
pub fn audit<R: Threads + Wait + Sync, G: Gate>(
    rt: &R,
    alloc: Global,
    bytes: &[u8],
    workers: u8,
    random: RandomState,
    gate: &G,
) -> Result<Verdict, AuditFault>
    requires { (1 ≤ workers) × (workers ≤ MOST_AUDIT_WORKERS) }
    ensures verdict { IfOk result (IsVerdict bytes.now) }
    ensures yes { IfOk result (λ v. (s : SummaryValue) → v ≡ Yes s → SpellsAudited bytes.now) }
    ensures within { IfOk result (λ v. (f : Fault) → v ≡ No f → f.offset ≤ length bytes.now) }
    ensures replica { IfOk result (λ v. (f : Fault) → v ≡ No f → NamesItsSection bytes.now f) }
{
    Ok(audit_whole(rt, alloc, bytes, workers, random, gate)?.verdict())
}

/// Audits the bytes of a trace as `audit` does, and keeps of a yes the trace that was read and what each section tells,
/// so that nothing is read or judged again.
///
/// docs/MODEL.md, "Verdict" and "The audit theorem". It takes the time of `audit`. Where the verdict is yes, the
/// offsets of the trace's frames and each replica's history take memory until they are dropped.
pub fn audit_whole<'a, R: Threads + Wait + Sync, G: Gate>(
    rt: &R,
    alloc: Global,
    bytes: &'a [u8],
    workers: u8,
    random: RandomState,
    gate: &G,
) -> Result<WholeVerdict<'a>, AuditFault>
    requires { (1 ≤ workers) × (workers ≤ MOST_AUDIT_WORKERS) }
    ensures verdict { IfOk result (λ w. IsVerdict bytes.now (verdict_of w)) }
    ensures yes { IfOk result (λ w. (s : SummaryValue) → verdict_of w ≡ Yes s → SpellsAudited bytes.now) }
    ensures within { IfOk result (λ w. (f : Fault) → verdict_of w ≡ No f → f.offset ≤ length bytes.now) }
    ensures replica { IfOk result (λ w. (f : Fault) → verdict_of w ≡ No f → NamesItsSection bytes.now f) }
    ensures trace { IfOk result (λ w. IfAccepted w (λ a. Spells bytes.now a.trace)) }
    ensures histories { IfOk result (λ w. IfAccepted w (λ a. a.histories.items ≡ section_histories a.trace)) }
{
    let named = match open(rt, alloc, bytes, random, workers) {
        Ok(named) => named,
        Err(CheckFault::Found(fault)) => return Ok(WholeVerdict::No(fault)),
        Err(CheckFault::Memory) => return Err(AuditFault::Memory),
    };
    match judge_side_by_side(rt, alloc, &named, workers, gate) {
        Ok(mut findings) => verdict_on(rt, alloc, named, findings.as_mut_slice(), workers),
        Err(AllocError) => Err(AuditFault::Memory),
    }
}
