//! The run of a whole deployment.

ghost use Rattle.std.specs.Prelude.{◌≡◌, ◌≤◌, ◌<◌, ◌*◌, ◌⊎◌, true, [], All, IfOk, IfErr, IsTrue, OnOk, length, map};
ghost use Rattle.std.specs.Prelude.{vec_len};
ghost use Rattle.eve_grammar.specs.Limits.{is_head};
ghost use Rattle.eve_grammar.specs.Trace.{opening_rows};
ghost use Rattle.eve_write.specs.Data.{batch as plain, customer, section, sent};
ghost use Rattle.eve_workload.specs.Workload.{customer_names};
ghost use Rattle.eve_replica.specs.Run.{IsRunOf, run_plan};
ghost use Rattle.eve_replica.specs.RunFaults.{EndsSoFar};
ghost use Rattle.eve_replica.specs.Sections.{RunPlan};
ghost use Rattle.eve_replica.specs.SentReplies.{sent_from_on};
ghost use Rattle.eve_replica.specs.inner.RunInvariant.{IsRightMixed, IsPlanFor, Serves, IsUnderWay, IsSameRun};
ghost use Rattle.eve_replica.specs.inner.RunInvariant.{AreReplies};
ghost use Rattle.eve_replica.specs.inner.RunInvariant.{plan_with, first_standing};

use crate::fault::RunFault;
use crate::opening::{balances_of, batches_of, names_of};
use crate::replica::Replica;
use crate::run_state::RunState;
use crate::sending::replies_of;
use crate::server::Server;
use crate::standing::Standing;
use eve_accounts::{Balances, Names};
use eve_grammar::{
    Head, MOST_BATCHES, MOST_BYTES, MOST_REPLICAS, MOST_WINDOW, MOST_WORKERS, NEWEST_VERSION,
};
use eve_recorder::Gate;
use eve_workload::{MixedBatch, Mixer, Workload};
use eve_write::{BatchData, CustomerData, Parts, SentData, Step, VoteData};
use std::alloc::{AllocError, Global};
use std::hash::RandomState;
use std::sync::Wait;
use std::thread::Threads;

/// Runs the workload on the replicas of its deployment, each with its workers in threads, and returns all parts of the
/// trace of that run.
///
/// docs/TRACE.md, "The deployment's procedure". The trace is of the version that is the workload's format, 1 or 2. The
/// gate is entered before each execution, with the request's index; in a long window several replicas enter it at once.
/// It fails with `Memory` where memory runs out, with `Broken` where a replica fails otherwise, or where some batch
/// isn't committed after two windows for each batch. In format 2 it also fails with `TooLong`, where the states that
/// are transferred so far, and those that would be next, have in their frames alone more bytes than a trace may. May
/// wait for other threads.
pub fn run<R: Threads + Wait + Sync, G: Gate>(
    rt: &R,
    alloc: Global,
    workload: &Workload,
    mixer: Mixer,
    random: RandomState,
    gate: &G,
) -> Result<Parts, RunFault>
    requires { (1 ≤ workload.now.format) × (workload.now.format ≤ NEWEST_VERSION) }
    ensures run { IfOk result (IsRunOf workload.now mixer) }
    ensures so_far { IfErr result (EndsSoFar (run_plan workload.now mixer) workload.now.deployment.replicas) }
{
    run_consuming(rt, alloc, workload.copy(alloc)?, mixer, random, gate)
}

/// Runs the workload as `run` does, and uses it up. The list of a batch is dropped once the batch is cut into
/// parallelBatches, so that only one batch at a time stands in memory twice.
///
/// docs/TRACE.md, "The deployment's procedure". It is refused where `run` is, and the workload is gone then too.
pub fn run_consuming<R: Threads + Wait + Sync, G: Gate>(
    rt: &R,
    alloc: Global,
    workload: Workload,
    mixer: Mixer,
    random: RandomState,
    gate: &G,
) -> Result<Parts, RunFault>
    requires { (1 ≤ workload.format) × (workload.format ≤ NEWEST_VERSION) }
    ensures run { IfOk result (IsRunOf workload mixer) }
    ensures so_far { IfErr result (EndsSoFar (run_plan workload mixer) workload.deployment.replicas) }
{
    let customers = workload.customers().to_vec(alloc)?;
    let names = names_of(alloc, customers.as_slice(), random)?;
    run_named(rt, alloc, workload, mixer, &names, gate)
}

/// Runs the workload, with the customers' names looked up.
fn run_named<R: Threads + Wait + Sync, G: Gate>(
    rt: &R,
    alloc: Global,
    workload: Workload,
    mixer: Mixer,
    names: &Names,
    gate: &G,
) -> Result<Parts, RunFault>
    requires named { names.now.items ≡ customer_names workload.customers }
    requires format { (1 ≤ workload.format) × (workload.format ≤ NEWEST_VERSION) }
    ensures run { IfOk result (IsRunOf workload mixer) }
    ensures so_far { IfErr result (EndsSoFar (run_plan workload mixer) workload.deployment.replicas) }
{
    let head = workload.head();
    let (customers, listed) = workload.into_lists();
    let batches = batches_of(alloc, listed, names, mixer)?;
    let given = customers.as_slice();
    let mut state = first_state(alloc, &head, names, given, batches.as_slice())?;
    run_windows(rt, alloc, &mut state, gate)?;
    let outcome = outcome_of(alloc, state)?;
    let batches = plain_batches(alloc, batches)?;
    Ok(Parts {
        version: head.version,
        quorum: head.quorum,
        window: head.window,
        workers: head.workers,
        customers,
        batches,
        sections: outcome.sections,
        verifiers: outcome.verifiers,
        sent: outcome.sent,
    })
}

/// The state in which a run of these batches begins.
fn first_state<'n, 'b>(
    alloc: Global,
    head: &Head,
    names: &'n Names<'n>,
    customers: &[CustomerData],
    batches: &'b [MixedBatch],
) -> Result<RunState<'n, 'b>, AllocError>
    requires named { names.now.items ≡ customer_names (map customer customers.now) }
    requires right { IsTrue (is_head head.now) }
    requires customers { length customers.now ≡ head.now.customers }
    requires few { length batches.now ≤ MOST_BATCHES }
    requires mixed { All (IsRightMixed names.now.items) batches.now }
    ensures under_way { let opened = opening_rows (map customer customers.now) in
        IfOk result (IsUnderWay (plan_with names.now.items opened head.now batches.now)) }
    ensures head { IfOk result (λ d. d.head ≡ head.now) }
    ensures batches { IfOk result (λ d. d.batches.now ≡ batches.now) }
    ensures standing { IfOk result (λ d. d.standing ≡ first_standing) }
{
    let balances = balances_of(alloc, customers)?;
    let servers = servers_of(alloc, head, names, &balances)?;
    Ok(RunState {
        head: *head,
        batches,
        servers,
        standing: Standing {
            view: 0,
            committed: 0,
            opened: 0,
        },
        votes: Vec::new(alloc),
        room: MOST_BYTES as u64,
    })
}

/// Runs windows until all batches are committed.
fn run_windows<R: Threads + Wait + Sync, G: Gate>(
    rt: &R,
    alloc: Global,
    state: &mut RunState,
    gate: &G,
) -> Result<(), RunFault>
    requires under_way { (p : RunPlan) × IsUnderWay p state.old }
    requires first { state.old.standing ≡ first_standing }
    ensures under_way { (p : RunPlan) → IsUnderWay p state.old → OnOk result (IsUnderWay p state.new) }
    ensures same { OnOk result (IsSameRun state.old state.new) }
    ensures done { OnOk result (state.new.standing.committed ≡ length state.old.batches.now) }
    ensures view { OnOk result (state.new.standing.view ≤ 2 * length state.old.batches.now) }
    ensures why { IfErr result (λ why. (p : RunPlan) → IsUnderWay p state.old
        → EndsSoFar p state.old.head.replicas why) }
{
    let batches = state.batches;
    for turn in 0..2 * batches.len() {
        if state.standing.committed as usize >= batches.len() {
            break;
        }
        state.run_window(rt, alloc, gate)?;
    }
    if (state.standing.committed as usize) < batches.len() {
        // some batch was the first of those that were rolled back twice
        prove!(state.standing.view as usize > batches.len());
        return Err(RunFault::Broken);
    }
    Ok(())
}

/// What the replicas of a run did and sent, and the votes of its verifiers.
#[derive(Drop)]
struct Outcome {
    sections: Vec<Vec<Step>>,
    verifiers: Vec<Vec<VoteData>>,
    sent: Vec<SentData>,
}

/// What comes of a run that has come to this state.
fn outcome_of(alloc: Global, state: RunState) -> Result<Outcome, AllocError>
    requires few { vec_len state.servers ≤ MOST_REPLICAS }
    ensures sections { IfOk result (λ o. map section o.sections.items
        ≡ map (λ s. section s.steps) state.entry.servers.items) }
    ensures many { IfOk result (λ o. vec_len o.verifiers ≡ state.entry.head.verifiers) }
    ensures each { IfOk result (λ o. All (λ c. c.items ≡ state.entry.votes.items) o.verifiers.items) }
    ensures limits { let servers = state.entry.servers.items in
        IfOk result (λ o. AreReplies (length servers) (length state.entry.batches.now) o.sent.items) }
    ensures sent { let batches = map (λ m. plain m.batch) state.entry.batches.now in
        IfOk result (λ o. map sent o.sent.items
        ≡ sent_from_on batches 0 (map (λ s. section s.steps) state.entry.servers.items)) }
{
    let RunState {
        head,
        batches,
        servers,
        votes,
        ..
    } = state;
    let sent = replies_of(alloc, servers.as_slice(), batches)?;
    let verifiers = copies_of(alloc, votes.as_slice(), head.verifiers)?;
    let sections = sections_of(alloc, servers)?;
    Ok(Outcome {
        sections,
        verifiers,
        sent,
    })
}

/// The replicas of the run, which have done nothing.
fn servers_of<'n>(
    alloc: Global,
    head: &Head,
    names: &'n Names<'n>,
    balances: &Balances,
) -> Result<Vec<Server<'n>>, AllocError>
    requires version { (head.now.version ≡ 1) ⊎ (head.now.version ≡ 2) }
    requires some { 0 < length balances.now }
    requires rows { length balances.now ≡ 2 * length names.now.items }
    requires workers { (1 ≤ head.now.workers) × (head.now.workers ≤ MOST_WORKERS) }
    requires window { (1 ≤ head.now.window) × (head.now.window ≤ MOST_WINDOW) }
    ensures many { IfOk result (λ servers. vec_len servers ≡ head.now.replicas) }
    ensures serve { (p : RunPlan) → IsPlanFor names.now.items balances.now head.now p
        → IfOk result (λ servers. All (Serves p first_standing []) servers.items) }
    ensures live { IfOk result (λ servers. All (λ s. s.is_live ≡ true) servers.items) }
{
    let mut servers = Vec::with_capacity(alloc, head.replicas as usize)?;
    for number in 0..head.replicas {
        let replica = Replica::new(
            alloc,
            head.version,
            names,
            balances,
            head.workers,
            head.window,
        )?;
        let steps = Vec::new(alloc);
        servers.push_reserved(Server {
            replica,
            is_live: true,
            missing: 0,
            steps,
        });
    }
    Ok(servers)
}

/// The batches, without what their requests touch.
fn plain_batches(alloc: Global, mixed: Vec<MixedBatch>) -> Result<Vec<BatchData>, AllocError>
    ensures { IfOk result (λ batches. map plain batches.items ≡ map (λ m. plain m.batch) mixed.items) }
{
    let mut batches = Vec::with_capacity(alloc, mixed.len())?;
    for one in mixed {
        let MixedBatch { batch, .. } = one;
        batches.push_reserved(batch);
    }
    Ok(batches)
}

/// What each replica did.
fn sections_of(alloc: Global, servers: Vec<Server>) -> Result<Vec<Vec<Step>>, AllocError>
    ensures { IfOk result (λ sections. map section sections.items ≡ map (λ s. section s.steps) servers.entry.items) }
{
    let mut sections = Vec::with_capacity(alloc, servers.len())?;
    for server in servers {
        let Server { steps, .. } = server;
        sections.push_reserved(steps);
    }
    Ok(sections)
}

/// As many copies of the votes.
fn copies_of(alloc: Global, votes: &[VoteData], count: u8) -> Result<Vec<Vec<VoteData>>, AllocError>
    ensures many { IfOk result (λ copies. vec_len copies ≡ count) }
    ensures each { IfOk result (λ copies. All (λ c. c.items ≡ votes.now) copies.items) }
{
    let mut copies = Vec::with_capacity(alloc, count as usize)?;
    for number in 0..count {
        let copy = votes.to_vec(alloc)?;
        copies.push_reserved(copy);
    }
    Ok(copies)
}
