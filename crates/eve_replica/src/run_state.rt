//! The state of a run.

ghost use Rattle.std.specs.Prelude.{◌≡◌, ◌≤◌, ◌+◌, ◌-◌, ◌<◌, All, List, OnOk, Some, None, length};
ghost use Rattle.eve_replica.specs.declared.standing.Standing.{Standing};
ghost use Rattle.eve_replica.specs.RunFaults.{EndsSoFar, IsLongOnly};
ghost use Rattle.eve_replica.specs.Sections.{RunPlan};
ghost use Rattle.eve_replica.specs.inner.RunInvariant.{IsSameRun, IsUnderWay};
ghost use Rattle.eve_replica.specs.inner.RunInvariant.{after_commit, after_rollback};
ghost use Rattle.eve_replica.specs.inner.RunInvariant.{IsDecision, count_with, sections_in};
ghost use Rattle.eve_replica.specs.inner.RunInvariant.{states_len};
ghost use Rattle.eve_replica.specs.inner.Commits.{AwaitNext, CommitsOrWaits, IsLentByFirst, MayTransferOrStay};
ghost use Rattle.eve_replica.specs.inner.Commits.{ReachBatch, TransfersOrStays};
ghost use Rattle.std.specs.List.{AllZip, Any};
ghost use Rattle.eve_replica.specs.Transfers.{states_in};
ghost use Rattle.std.specs.Prelude.{◌*◌, ◌⊎◌, ℕ, false, IsTrue, IfOk, IfErr};
ghost use Rattle.std.specs.Arc.{arc_value};
ghost use Rattle.eve_grammar.specs.Bodies.{transfer};
ghost use Rattle.eve_grammar.specs.Limits.{is_transfer};

use crate::fault::RunFault;
use crate::server::Server;
use crate::side_by_side::attempt_each;
use crate::standing::{MOST_VIEWS, Standing};
use crate::votes::{vote_for_commit, vote_for_rollback};
use eve_grammar::{Head, TransferData};
use eve_recorder::Gate;
use eve_workload::MixedBatch;
use eve_write::VoteData;
use std::alloc::{AllocError, Global};
use std::sync::{Arc, Wait};
use std::thread::Threads;

// of the frame of a state that is transferred: what stands before its rows, and each row
const TRANSFER_HEAD_LEN: u64 = 13;

const ROW_LEN: u64 = 16;

/// How far a run is: its numbers and its batches, its replicas, where the live ones stand, the votes of each verifier,
/// and how much room the trace has for states that are transferred.
#[derive(Drop)]
pub(crate) struct RunState<'n, 'b> {
    pub head: Head,
    pub batches: &'b [MixedBatch],
    pub servers: Vec<Server<'n>>,
    pub standing: Standing,
    pub votes: Vec<VoteData>,
    // how many bytes of Transfer frames a trace still has room for
    pub room: u64,
}

impl<'n, 'b> RunState<'n, 'b> {
    /// Runs one window: each live replica attempts the next batches, a window's number of them or all that are left.
    /// Then the first open batch is committed where its token is decided, and else all open ones are rolled back, until
    /// none is open.
    ///
    /// docs/TRACE.md, "The deployment's procedure".
    pub(crate) fn run_window<R: Threads + Wait + Sync, G: Gate>(
        &mut self,
        rt: &R,
        alloc: Global,
        gate: &G,
    ) -> Result<(), RunFault>
        requires under_way { (p : RunPlan) × IsUnderWay p self.old }
        requires none_open { self.old.standing.opened ≡ 0 }
        requires left { self.old.standing.committed < length self.old.batches.now }
        requires view { self.old.standing.view < MOST_VIEWS }
        ensures under_way { (p : RunPlan) → IsUnderWay p self.old → OnOk result (IsUnderWay p self.new) }
        ensures none_open { OnOk result (self.new.standing.opened ≡ 0) }
        ensures same { OnOk result (IsSameRun self.old self.new) }
        ensures view { OnOk result (self.new.standing.view ≤ self.old.standing.view + 1) }
        ensures further { OnOk result (self.old.standing.committed + self.old.standing.view
            < self.new.standing.committed + self.new.standing.view) }
        ensures why { IfErr result (λ why. (p : RunPlan) → IsUnderWay p self.old
            → EndsSoFar p self.old.head.replicas why) }
    {
        let batches = self.batches;
        let from = self.standing.committed as usize;
        let end = batches.len().min(from + self.head.window as usize);
        let window = &batches[from..end];
        attempt_each(rt, alloc, self.servers.as_mut_slice(), window, gate)?;
        self.standing.opened = window.len() as u32;
        while self.standing.opened > 0 {
            match decided(self.servers.as_slice()) {
                Some(token) => self.commit(alloc, token)?,
                None => self.roll_back(alloc)?,
            }
        }
        Ok(())
    }

    /// Every verifier votes for the commit of the first open batch. A replica with this token commits it; any other
    /// stops in format 1, and gets by a transfer in format 2 what was committed.
    fn commit(&mut self, alloc: Global, token: [u8; 32]) -> Result<(), RunFault>
        requires under_way { (p : RunPlan) × IsUnderWay p self.old }
        requires open { 0 < self.old.standing.opened }
        requires decided { IsDecision (Some token) self.old.servers.items }
        ensures under_way { (p : RunPlan) → IsUnderWay p self.old → OnOk result (IsUnderWay p self.new) }
        ensures same { OnOk result (IsSameRun self.old self.new) }
        ensures standing { OnOk result (self.new.standing ≡ after_commit self.old.standing) }
        ensures why { IfErr result (λ why. (p : RunPlan) → IsUnderWay p self.old
            → EndsSoFar p self.old.head.replicas why) }
    {
        let seq = self.standing.committed + 1;
        let batches = self.batches.len();
        vote_for_commit(&mut self.votes, batches, seq, self.standing.view, token)?;
        commit_each(
            alloc,
            &self.head,
            &mut self.room,
            self.servers.as_mut_slice(),
            seq,
            token,
        )?;
        self.standing.committed = seq;
        self.standing.opened -= 1;
        Ok(())
    }

    /// Every verifier votes for the rollback of the first open batch, and each live replica rolls back.
    fn roll_back(&mut self, alloc: Global) -> Result<(), AllocError>
        requires under_way { (p : RunPlan) × IsUnderWay p self.old }
        requires open { 0 < self.old.standing.opened }
        requires view { self.old.standing.view < MOST_VIEWS }
        requires undecided { IsDecision None self.old.servers.items }
        ensures under_way { (p : RunPlan) → IsUnderWay p self.old → OnOk result (IsUnderWay p self.new) }
        ensures same { OnOk result (IsSameRun self.old self.new) }
        ensures standing { OnOk result (self.new.standing ≡ after_rollback self.old.standing) }
    {
        let seq = self.standing.committed + 1;
        let batches = self.batches.len();
        vote_for_rollback(&mut self.votes, batches, seq, self.standing.view)?;
        let servers = self.servers.as_mut_slice();
        for server in servers.iter_mut() {
            server.roll_back(alloc)?;
        }
        self.standing.view += 1;
        self.standing.opened = 0;
        Ok(())
    }
}

/// Each replica with this token commits the batch, which is the next. Any other stops in format 1, and gets by a
/// transfer in format 2 what was committed, if a trace has room for the states that are transferred.
fn commit_each(
    alloc: Global,
    head: &Head,
    room: &mut u64,
    servers: &mut [Server],
    seq: u32,
    token: [u8; 32],
) -> Result<(), RunFault>
    requires awaits { AwaitNext head.now.version head.now.customers seq servers.old }
    requires version { (head.now.version ≡ 1) ⊎ (head.now.version ≡ 2) }
    requires decided { IsDecision (Some token) servers.old }
    ensures on { OnOk result (ReachBatch seq token servers.old servers.new) }
    ensures spent { head.now.version ≡ 2
        → OnOk result (room.old + states_len head.now.customers (states_in (sections_in servers.old))
        ≤ room.new + states_len head.now.customers (states_in (sections_in servers.new))) }
    ensures why { let others = length servers.old - count_with token servers.old in
        IfErr result (IsLongOnly ((head.now.version ≡ 2) × (room.old < states_len head.now.customers others))) }
{
    if head.version == 1 {
        commit_all(servers, seq, token)?;
        return Ok(());
    }
    spend(room, head, servers, token)?;
    commit_or_transfer(alloc, head, servers, seq, token)
}

/// In format 1, each live replica commits this batch, which is the next, or stops.
fn commit_all(servers: &mut [Server], seq: u32, token: [u8; 32]) -> Result<(), AllocError>
    requires awaits { (many : ℕ) × AwaitNext 1 many seq servers.old }
    requires decided { IsDecision (Some token) servers.old }
    ensures { OnOk result (ReachBatch seq token servers.old servers.new) }
{
    for server in servers.iter_mut() {
        server.commit_or_stop(seq, token)?;
    }
    Ok(())
}

/// In format 2, each replica with this token commits the batch, which is the next, and each other gets by a transfer
/// what the lowest-numbered of these then has committed.
fn commit_or_transfer(
    alloc: Global,
    head: &Head,
    servers: &mut [Server],
    seq: u32,
    token: [u8; 32],
) -> Result<(), RunFault>
    requires awaits { AwaitNext 2 head.now.customers seq servers.old }
    requires decided { IsDecision (Some token) servers.old }
    ensures on { OnOk result (ReachBatch seq token servers.old servers.new) }
    ensures states { let others = length servers.old - count_with token servers.old in
        OnOk result (states_in (sections_in servers.old) + others ≤ states_in (sections_in servers.new)) }
    ensures why { IfErr result (IsLongOnly ⊥) }
{
    commit_or_wait_all(servers, seq, token)?;
    if have_all_committed(servers, seq) {
        return Ok(());
    }
    let state = state_committed(alloc, head, servers, seq)?;
    apply_transfer_to_all(servers, &state)?;
    Ok(())
}

/// Each replica with this token commits the batch, which is the next; the others stay as they are.
fn commit_or_wait_all(servers: &mut [Server], seq: u32, token: [u8; 32]) -> Result<(), AllocError>
    requires { All (λ s. (s.replica.is_broken ≡ false) × (seq ≡ s.replica.ledger.committed + 1)) servers.old }
    ensures { OnOk result (AllZip (CommitsOrWaits token) servers.old servers.new) }
{
    for server in servers.iter_mut() {
        server.commit_or_wait(seq, token)?;
    }
    Ok(())
}

/// Whether each replica has committed the batch with this number last.
fn have_all_committed(servers: &[Server], seq: u32) -> bool
    ensures { IsTrue result → All (λ s. s.replica.ledger.committed ≡ seq) servers.now }
{
    servers
        .iter()
        .all(|server| server.replica.committed() == seq)
}

/// What the lowest-numbered replica that committed the batch with this number last has committed.
fn state_committed(
    alloc: Global,
    head: &Head,
    servers: &[Server],
    seq: u32,
) -> Result<Arc<TransferData>, RunFault>
    requires { Any (λ s. s.replica.ledger.committed ≡ seq) servers.now }
    ensures lent { IfOk result (λ x. IsLentByFirst seq servers.now (transfer (arc_value x))) }
    ensures right { IfOk result (λ x. IsTrue (is_transfer (2 * head.now.customers) (transfer (arc_value x)))) }
    ensures why { IfErr result (IsLongOnly ⊥) }
{
    for server in servers {
        if server.replica.committed() == seq {
            return server.state(alloc, head);
        }
    }
    unreachable!()
}

/// Each replica that hasn't committed the state's batch has it transferred; the others stay as they are.
fn apply_transfer_to_all(
    servers: &mut [Server],
    state: &Arc<TransferData>,
) -> Result<(), AllocError>
    requires { All (MayTransferOrStay (transfer (arc_value state.now))) servers.old }
    ensures { (token : List ℕ)
        → OnOk result (AllZip (TransfersOrStays token (transfer (arc_value state.now))) servers.old servers.new) }
{
    for server in servers.iter_mut() {
        server.apply_transfer_or_stay(state)?;
    }
    Ok(())
}

/// Takes from the room the bytes of a Transfer frame for each replica without this token.
fn spend(room: &mut u64, head: &Head, servers: &[Server], token: [u8; 32]) -> Result<(), RunFault>
    ensures spent { let others = length servers.now - count_with token servers.now in
        OnOk result (room.old ≤ room.new + states_len head.now.customers others) }
    ensures long { let others = length servers.now - count_with token servers.now in
        IfErr result (IsLongOnly (room.old < states_len head.now.customers others)) }
{
    let others = servers.len().saturating_sub(count_with(servers, token));
    let each = TRANSFER_HEAD_LEN + ROW_LEN * (2 * u64::from(head.customers));
    let bytes = (others as u64).saturating_mul(each);
    if *room < bytes {
        return Err(RunFault::TooLong);
    }
    *room -= bytes;
    Ok(())
}

/// The token that more than half of all replicas are live and have for the next batch, if there is one.
fn decided(servers: &[Server]) -> Option<[u8; 32]>
    ensures { IsDecision result servers.now }
{
    let half = servers.len() / 2;
    for server in servers {
        if let Some(token) = server.next_token() {
            if count_with(servers, token) > half {
                return Some(token);
            }
        }
    }
    None
}

/// The number of live replicas that have this token for the next batch.
fn count_with(servers: &[Server], token: [u8; 32]) -> usize
    ensures { result ≡ count_with token servers.now }
{
    servers
        .iter()
        .filter(|server| server.has_next(token))
        .count()
}
