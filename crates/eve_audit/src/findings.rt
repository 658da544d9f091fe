//! What was found of the replicas, each judged by itself.

ghost use Rattle.std.specs.Prelude.{◌≡◌, ◌<◌, ◌≤◌, ◌*◌, min, IfOk, IfSome, length, slice_index_or};
ghost use Rattle.std.specs.Thread.{IsSync};
ghost use Rattle.eve_views.specs.declared.fault.CheckFault.TheVariants.{Memory};
ghost use Rattle.eve_audit.specs.declared.findings.Finding.{Finding as FindingValue};
ghost use Rattle.eve_audit.specs.inner.Findings.{AreTrueSoFar, AreTrue, IsAnswerOf, IsAnswerBeforeTokens};
ghost use Rattle.eve_audit.specs.inner.Findings.{AreOfReplicas};
ghost use Rattle.eve_audit.specs.inner.Peers.{IsSoundPeer};

use crate::named::NamedTrace;
use crate::replicas::{Report, report_before_tokens};
use eve_agree::Peer;
use eve_gate::Gate;
use eve_history::History;
use eve_views::{CheckFault, Trace};
use std::alloc::{AllocError, Global};
use std::sync::Wait;
use std::thread::Threads;
use std::{mem, thread};

/// What judging a replica by itself came to.
#[derive(Drop)]
pub struct Finding<'a> {
    /// The replica's number, from 0.
    pub replica: u8,
    /// Its report, or the first of its own faults; `Memory` where nothing was found of it.
    pub answer: Result<Report<'a>, CheckFault>,
}

impl<'a> Finding<'a> {
    /// Nothing, of a replica that wasn't judged yet.
    pub fn of_nothing(replica: u8) -> Self
        ensures replica { result.replica ≡ replica }
        ensures nothing { result.answer ≡ Err Memory }
    {
        Finding {
            replica,
            answer: Err(CheckFault::Memory),
        }
    }

    /// What the caller alone finds of a replica.
    pub fn of_replica<R: Threads + Sync>(
        rt: &R,
        alloc: Global,
        named: &NamedTrace<'a>,
        e: u8,
    ) -> Self
        requires { e < length named.now.trace.sections }
        ensures { IsAnswerOf named.now.trace e result.answer }
    {
        let mut finding = Finding::of_nothing(e);
        finding.judge_section(rt, alloc, named, 1);
        finding.judge_tokens(rt, alloc, &named.trace, 1, None);
        finding
    }

    /// The replica as one beside which others are judged, if it has a report.
    fn peer(&self, trace: &Trace<'a>) -> Option<Peer<'_, 'a>>
        requires { IsAnswerOf trace.now self.now.replica self.now.answer }
        ensures { IsSoundPeer trace.now result }
    {
        match &self.answer {
            Ok(report) => Some(report.peer()),
            Err(_) => None,
        }
    }

    /// Judges the replica by itself, but for its tokens, in up to `jobs` threads, at least 1.
    pub fn judge_section<R: Threads + Sync>(
        &mut self,
        rt: &R,
        alloc: Global,
        named: &NamedTrace<'a>,
        jobs: u8,
    )
        requires there { self.old.replica < length named.now.trace.sections }
        requires jobs { 1 ≤ jobs }
        ensures settled { IsAnswerBeforeTokens named.now.trace self.new.replica self.new.answer }
        ensures replica { self.new.replica ≡ self.old.replica }
    {
        self.answer = report_before_tokens(rt, alloc, named, self.replica, jobs);
    }

    /// Judges the replica's tokens, if nothing was found against it.
    pub fn judge_tokens<R: Threads + Sync>(
        &mut self,
        rt: &R,
        alloc: Global,
        trace: &Trace<'a>,
        jobs: u8,
        peer: Option<Peer<'_, 'a>>,
    )
        requires settled { IsAnswerBeforeTokens trace.now self.old.replica self.old.answer }
        requires jobs { 1 ≤ jobs }
        requires peer { IsSoundPeer trace.now peer }
        ensures answer { IsAnswerOf trace.now self.new.replica self.new.answer }
        ensures settled { IsAnswerBeforeTokens trace.now self.new.replica self.new.answer }
        ensures replica { self.new.replica ≡ self.old.replica }
    {
        let judged = match &self.answer {
            Ok(report) => report.check_tokens(rt, alloc, trace, jobs, peer),
            Err(_) => return,
        };
        if let Err(why) = judged {
            self.answer = Err(why);
        }
    }
}

/// Nothing of each replica, in their order.
fn nothing_of_each<'a>(alloc: Global, trace: &Trace<'a>) -> Result<Vec<Finding<'a>>, AllocError>
    ensures { IfOk result (λ findings. AreOfReplicas trace.now findings.items) }
{
    let mut findings = Vec::with_capacity(alloc, trace.section_count() as usize)?;
    for e in 0..trace.section_count() {
        findings.push(Finding::of_nothing(e))?;
    }
    Ok(findings)
}

/// What the caller alone finds of the replicas, each judged by itself: a finding for each, in their order.
pub fn judge_in_turn<'a, R: Threads + Sync>(
    rt: &R,
    alloc: Global,
    named: &NamedTrace<'a>,
) -> Result<Vec<Finding<'a>>, AllocError>
    ensures { IfOk result (λ findings. AreTrue named.now.trace findings.items) }
{
    let trace = &named.trace;
    let mut findings = Vec::with_capacity(alloc, trace.section_count() as usize)?;
    for e in 0..trace.section_count() {
        let mut finding = Finding::of_nothing(e);
        finding.judge_section(rt, alloc, named, 1);
        findings.push(finding)?;
    }
    judge_all_tokens(rt, alloc, trace, findings.as_mut_slice(), 1);
    Ok(findings)
}

/// What is found of the replicas, each judged by itself by up to `workers` threads: a finding for each, in their order.
///
/// First workers judge all but their tokens. Then of those that have no fault the caller picks the one that committed
/// most batches, and its tokens are hashed by all workers, in stretches; where one isn't due, the next one is picked.
/// Beside the one whose tokens are due those of the others are judged, side by side.
pub fn judge_side_by_side<'a, R: Threads + Wait + Sync, G: Gate>(
    rt: &R,
    alloc: Global,
    named: &NamedTrace<'a>,
    workers: u8,
    gate: &G,
) -> Result<Vec<Finding<'a>>, AllocError>
    requires { 1 ≤ workers }
    ensures { IfOk result (λ findings. AreTrue named.now.trace findings.items) }
{
    let mut findings = nothing_of_each(alloc, &named.trace)?;
    judge_sections(rt, alloc, named, gate, findings.as_mut_slice(), workers);
    judge_all_tokens(rt, alloc, &named.trace, findings.as_mut_slice(), workers);
    Ok(findings)
}

/// Judges the replicas but for their tokens, up to `workers` of them side by side. Who judges replica e enters the gate
/// with e first. Where there are more workers than replicas, each replica has its part of the threads: at most
/// `workers` threads work at once, and with one worker none is started. The caller does the work of a thread that can't
/// be started.
fn judge_sections<'a, R: Threads + Wait + Sync, G: Gate>(
    rt: &R,
    alloc: Global,
    named: &NamedTrace<'a>,
    gate: &G,
    findings: &mut [Finding<'a>],
    workers: u8,
)
    requires workers { 1 ≤ workers }
    requires replicas { AreOfReplicas named.now.trace findings.old }
    ensures { AreTrueSoFar named.now.trace findings.new }
{
    let jobs = jobs_of_each(workers, named.trace.section_count());
    thread::for_each_mut(
        rt,
        findings,
        workers as usize,
        &|_: usize, finding: &mut Finding|
            requires { IsSync R.row × IsSync G.row × (1 ≤ jobs)
                × (finding.old.replica < length named.now.trace.sections) }
            ensures { IsAnswerBeforeTokens named.entry.now.trace finding.new.replica finding.new.answer }
        {
            gate.enter(rt, u32::from(finding.replica));
            finding.judge_section(rt, alloc, named, jobs);
        },
    );
}

/// In how many threads a replica is judged, so that there are no more than workers.
fn jobs_of_each(workers: u8, replicas: u8) -> u8
    requires { 1 ≤ workers }
    ensures some { 1 ≤ result }
    ensures bound { result * min workers replicas ≤ workers }
{
    if replicas == 0 {
        return 1;
    }
    (workers / replicas).max(1)
}

/// Judges the tokens of all replicas that are sound otherwise, in up to `jobs` threads.
fn judge_all_tokens<'a, R: Threads + Sync>(
    rt: &R,
    alloc: Global,
    trace: &Trace<'a>,
    findings: &mut [Finding<'a>],
    jobs: u8,
)
    requires jobs { 1 ≤ jobs }
    requires settled { AreTrueSoFar trace.now findings.old }
    ensures found { AreTrue trace.now findings.new }
{
    let Some(place) = due_place(rt, alloc, trace, findings, jobs) else {
        judge_each(rt, alloc, trace, findings, jobs, None);
        return;
    };
    let due = mem::replace(&mut findings[place], Finding::of_nothing(0));
    judge_each(rt, alloc, trace, findings, jobs, due.peer(trace));
    findings[place] = due;
}

/// Judges tokens of one replica in up to `jobs` threads, the one that committed most batches; where they aren't all
/// due, those of the next one. The place of the first of which they are.
fn due_place<'a, R: Threads + Sync>(
    rt: &R,
    alloc: Global,
    trace: &Trace<'a>,
    findings: &mut [Finding<'a>],
    jobs: u8,
) -> Option<usize>
    requires jobs { 1 ≤ jobs }
    requires settled { AreTrueSoFar trace.now findings.old }
    ensures there { IfSome result (λ place. place < length findings.new) }
    ensures due { IfSome result (λ place. (d : FindingValue) → IsAnswerOf trace.now
        (slice_index_or findings.new place d).replica (slice_index_or findings.new place d).answer) }
    ensures settled { AreTrueSoFar trace.now findings.new }
{
    for _ in 0..findings.len() {
        let Some(place) = place_of_most(findings) else {
            return None;
        };
        findings[place].judge_tokens(rt, alloc, trace, jobs, None);
        if findings[place].answer.is_ok() {
            return Some(place);
        }
    }
    None
}

/// The place of the replica that committed most batches, of those that have a report: states that were transferred show
/// no token.
fn place_of_most(findings: &[Finding<'_>]) -> Option<usize>
    ensures { IfSome result (λ place. place < length findings.now) }
{
    let mut most = None;
    let mut batches = 0;
    for i in 0..findings.len() {
        if let Ok(report) = &findings[i].answer {
            let next = batches_of(&report.history);
            if most.is_none() || batches < next {
                most = Some(i);
                batches = next;
            }
        }
    }
    most
}

/// How many batches a replica committed.
pub fn batches_of(history: &History<'_>) -> u32
    ensures { result ≤ length history.now.ways_reached }
{
    let mut batches = 0;
    for before in 0..history.committed() {
        if history.by_attempt(before + 1) {
            batches += 1;
        }
    }
    batches
}

/// Judges the tokens of each replica that is sound otherwise, up to the given number of replicas side by side, each in
/// one thread, beside a peer if there is one.
fn judge_each<'a, R: Threads + Sync>(
    rt: &R,
    alloc: Global,
    trace: &Trace<'a>,
    findings: &mut [Finding<'a>],
    jobs: u8,
    peer: Option<Peer<'_, 'a>>,
)
    requires jobs { 1 ≤ jobs }
    requires settled { AreTrueSoFar trace.now findings.old }
    requires peer { IsSoundPeer trace.now peer }
    ensures found { AreTrue trace.now findings.new }
    ensures len { length findings.new ≡ length findings.old }
{
    thread::for_each_mut(
        rt,
        findings,
        jobs as usize,
        &|_: usize, finding: &mut Finding|
            requires { IsSync R.row × IsSoundPeer trace.now peer
                × IsAnswerBeforeTokens trace.now finding.old.replica finding.old.answer }
            ensures { IsAnswerOf trace.entry.now finding.new.replica finding.new.answer }
        { finding.judge_tokens(rt, alloc, trace, 1, peer) },
    );
}
