//! The audit of each replica by itself.

ghost use Rattle.std.specs.Prelude.{◌≡◌, ◌++◌, ◌∷◌, [], ℕ, IfOk, IfErr, OnOk, ◌<◌, ◌≤◌, ◌^◌, length, min};
ghost use Rattle.eve_views.specs.Form.{IfFound, HasNone, IsFaultIn};
ghost use Rattle.eve_history.specs.SectionHistory.{section_history, section_histories};
ghost use Rattle.eve_history.specs.Structure.{StandsInStructure};
ghost use Rattle.eve_chains.specs.CommittedValues.{settling, settlings};
ghost use Rattle.eve_audit.specs.inner.Findings.{AreTrue, IsAnswerOf};
ghost use Rattle.eve_audit.specs.inner.Peers.{IsSoundPeer};
ghost use Rattle.eve_audit.specs.Verdict.{IsOwnFault};
ghost use Rattle.eve_audit.specs.Reports.{IsFirstOf, IsReportOf, IsReportBeforeTokens, IsSoundBeforeTokens};
ghost use Rattle.eve_audit.specs.Reports.{IsSoundReplica, IsLeastBelow, IsFaultBelow};

use crate::findings::Finding;
use crate::named::NamedTrace;
use eve_agree::{Peer, rollbacks, tokens, tokens_beside};
use eve_chains::{Settled, check};
use eve_history::History;
use eve_views::laws::faults_come_one_before_another;
use eve_views::{CheckFault, Fault, Trace, first_of};
use std::alloc::{AllocError, Global};
use std::mem;
use std::thread::Threads;

/// A replica's report: what it did, and what it committed.
#[derive(Drop)]
pub struct Report<'a> {
    /// What its section tells.
    pub history: History<'a>,
    /// What its committed batches wrote.
    pub settled: Settled<'a>,
}

impl<'a> Report<'a> {
    /// The replica as one beside which others are judged.
    pub fn peer(&self) -> Peer<'_, 'a>
        ensures history { result.history.now ≡ self.now.history }
        ensures settled { result.settled.now ≡ self.now.settled }
    {
        Peer {
            history: &self.history,
            settled: &self.settled,
        }
    }

    /// Judges the tokens of the replica, which is sound otherwise: beside another replica whose tokens are due, if
    /// there is one, in one thread; else by themselves in up to `jobs` threads, at least 1.
    pub fn check_tokens<R: Threads + Sync>(
        &self,
        rt: &R,
        alloc: Global,
        trace: &Trace<'a>,
        jobs: u8,
        peer: Option<Peer<'_, 'a>>,
    ) -> Result<(), CheckFault>
        requires settled { IsReportBeforeTokens trace.now self.now.history.replica self.now }
        requires jobs { 1 ≤ jobs }
        requires peer { IsSoundPeer trace.now peer }
        ensures report { IfOk result (λ _. IsReportOf trace.now self.now.history.replica self.now) }
        ensures first { IfErr result (λ why. IfFound why (IsFirstOf (IsOwnFault trace.now self.now.history.replica))) }
    {
        match peer {
            Some(peer) => tokens_beside(alloc, trace, &self.history, &self.settled, peer),
            None => tokens(rt, alloc, trace, &self.history, &self.settled, jobs),
        }
    }
}

/// The replicas' reports, in their order.
#[derive(Drop)]
pub struct Reports<'a> {
    /// What each section tells.
    pub histories: Vec<History<'a>>,
    /// What the committed batches of each wrote.
    pub settled: Vec<Settled<'a>>,
    /// The least last committed number over the replicas.
    pub committed: u32,
}

/// The replicas' reports, each replica judged by itself, as was found before or here; or the first of the faults that
/// they have of their own.
pub fn all_reports<'a, R: Threads + Sync>(
    rt: &R,
    alloc: Global,
    named: &NamedTrace<'a>,
    findings: &mut [Finding<'a>],
) -> Result<Reports<'a>, CheckFault>
    requires { AreTrue named.now.trace findings.old }
    ensures histories { IfOk result (λ reports. reports.histories.items ≡ section_histories named.now.trace) }
    ensures settled { IfOk result (λ reports. reports.settled.items ≡ settlings named.now.trace) }
    ensures committed { IfOk result (λ reports.
        IsLeastBelow named.now.trace (length named.now.trace.sections) reports.committed) }
    ensures sound { IfOk result (λ _. (e : ℕ) → IsSoundReplica named.now.trace e) }
    ensures none { IfOk result (λ _. HasNone (IsFaultBelow named.now.trace (length named.now.trace.sections))) }
    ensures first { IfErr result (λ why. IfFound why
        (IsFirstOf (IsFaultBelow named.now.trace (length named.now.trace.sections)))) }
{
    faults_come_one_before_another();
    let mut first: Option<Fault> = None;
    let mut kept = Reports {
        histories: Vec::new(alloc),
        settled: Vec::new(alloc),
        committed: u32::MAX,
    };
    'replicas: for e in 0..named.trace.section_count() {
        match report_of(rt, alloc, named, findings, e) {
            Ok(report) => keep(&mut kept, report)?,
            Err(CheckFault::Found(fault)) => {
                first = first_of(first, Some(fault));
            }
            Err(CheckFault::Memory) => return Err(CheckFault::Memory),
        }
    }
    match first {
        Some(fault) => Err(CheckFault::Found(fault)),
        None => Ok(kept),
    }
}

/// A replica's report but for its tokens, which aren't judged yet, or the first of its own faults, by the replica's
/// number from 0. Its records and chains are judged in up to `jobs` threads, at least 1; for one job no thread is
/// started.
pub fn report_before_tokens<'a, R: Threads + Sync>(
    rt: &R,
    alloc: Global,
    named: &NamedTrace<'a>,
    e: u8,
    jobs: u8,
) -> Result<Report<'a>, CheckFault>
    requires there { e < length named.now.trace.sections }
    requires jobs { 1 ≤ jobs }
    ensures report { IfOk result (IsReportBeforeTokens named.now.trace e) }
    ensures first { IfErr result (λ why. IfFound why (IsFirstOf (IsOwnFault named.now.trace e))) }
{
    let history = match History::of(alloc, &named.trace, e) {
        Ok(history) => history,
        Err(why) => return Err(why),
    };
    match settled_of(rt, alloc, named, &history, jobs) {
        Ok(settled) => Ok(Report { history, settled }),
        Err(why) => Err(why),
    }
}

/// What a replica with a right section committed, or the first of its own faults but for those of tokens.
fn settled_of<'a, R: Threads + Sync>(
    rt: &R,
    alloc: Global,
    named: &NamedTrace<'a>,
    history: &History<'a>,
    jobs: u8,
) -> Result<Settled<'a>, CheckFault>
    requires history { history.now ≡ section_history named.now.trace history.now.replica }
    requires none { HasNone (IsFaultIn StandsInStructure named.now.trace history.now.replica) }
    requires jobs { 1 ≤ jobs }
    ensures settled { IfOk result (λ settled. settled ≡ settling named.now.trace history.now.replica) }
    ensures sound { IfOk result (λ _. IsSoundBeforeTokens named.now.trace history.now.replica) }
    ensures first { IfErr result (λ why. IfFound why (IsFirstOf (IsOwnFault named.now.trace history.now.replica))) }
{
    history.recall_right();
    let settled = check(rt, alloc, history, &named.trace, &named.names, jobs)?;
    rollbacks(alloc, &named.trace, history, &settled)?;
    Ok(settled)
}

/// A replica's report, or the first of its own faults: as was found before, or else as it is judged here.
fn report_of<'a, R: Threads + Sync>(
    rt: &R,
    alloc: Global,
    named: &NamedTrace<'a>,
    findings: &mut [Finding<'a>],
    e: u8,
) -> Result<Report<'a>, CheckFault>
    requires there { e < length named.now.trace.sections }
    requires findings { AreTrue named.now.trace findings.old }
    ensures answer { IsAnswerOf named.now.trace e result }
    ensures left { AreTrue named.now.trace findings.new }
{
    match take_found(&named.trace, findings, e) {
        Err(CheckFault::Memory) => Finding::of_replica(rt, alloc, named, e).answer,
        answer => answer,
    }
}

/// Takes what was found of a replica; `Memory` where nothing was.
fn take_found<'a>(
    trace: &Trace<'a>,
    findings: &mut [Finding<'a>],
    e: u8,
) -> Result<Report<'a>, CheckFault>
    requires { AreTrue trace.now findings.old }
    ensures answer { IsAnswerOf trace.now e result }
    ensures left { AreTrue trace.now findings.new }
{
    let place = e as usize;
    if place >= findings.len() || findings[place].replica != e {
        return Err(CheckFault::Memory);
    }
    mem::replace(&mut findings[place], Finding::of_nothing(e)).answer
}

/// Keeps the next replica's report.
fn keep<'a>(reports: &mut Reports<'a>, report: Report<'a>) -> Result<(), AllocError>
    ensures histories { OnOk result
        (reports.new.histories.items ≡ reports.old.histories.items ++ report.entry.history ∷ []) }
    ensures settled { OnOk result (reports.new.settled.items ≡ reports.old.settled.items ++ report.entry.settled ∷ []) }
    ensures committed { OnOk result (reports.new.committed ≡ min reports.old.committed report.entry.history.committed) }
    ensures small { OnOk result (report.entry.history.committed < 2 ^ 32) }
{
    let Report { history, settled } = report;
    reports.committed = reports.committed.min(history.committed());
    reports.histories.push(history)?;
    reports.settled.push(settled)?;
    Ok(())
}
