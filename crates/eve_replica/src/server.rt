//! Replicas of a run, with what they did.

ghost use Rattle.std.specs.Prelude.{◌≡◌, true, false, ◌+◌, ◌-◌, ◌<◌, ◌^◌, [], ◌∷◌, ◌++◌, IsTrue, IsSome};
ghost use Rattle.std.specs.Prelude.{OnOk, length};
ghost use Rattle.std.specs.Prelude.{◌≢◌, ◌*◌, ℕ, List, IfErr, IfOk};
ghost use Rattle.std.specs.Arc.{arc_value};
ghost use Rattle.eve_grammar.specs.Bodies.{transfer};
ghost use Rattle.eve_grammar.specs.Limits.{is_transfer};
ghost use Rattle.eve_grammar.specs.Trace.{Transfers};
ghost use Rattle.eve_attempts.specs.Ledgers.{ledger_rows};
ghost use Rattle.eve_write.specs.Data.{section};
ghost use Rattle.eve_replica.specs.Decisions.{is_some_of};
ghost use Rattle.eve_replica.specs.RunFaults.{IsLongOnly};
ghost use Rattle.eve_replica.specs.Sections.{RunPlan};
ghost use Rattle.eve_replica.specs.inner.RunInvariant.{GoesOn, GivesUpNext};
ghost use Rattle.eve_replica.specs.inner.RunInvariant.{AttemptsUnbroken, IsDueTo};
ghost use Rattle.eve_replica.specs.inner.RunInvariant.{commit_move, rollback_move};
ghost use Rattle.eve_replica.specs.inner.RunInvariant.{next_token, standing_of, CommitsNext, IsLentBy, MayTransfer};
ghost use Rattle.eve_replica.specs.inner.RunInvariant.{MissesRightly};

use crate::attempting::add_step;
use crate::fault::RunFault;
use crate::replica::Replica;
use eve_grammar::{Head, TransferData};
use eve_recorder::Gate;
use eve_workload::MixedBatch;
use eve_write::{Step, commit_fits, is_right_transfer};
use std::alloc::{AllocError, Global};
use std::sync::{Arc, Wait};
use std::thread::Threads;

/// A replica of a run, with what it did so far, and whether it goes on.
#[derive(Drop)]
pub(crate) struct Server<'n> {
    pub replica: Replica<'n>,
    pub is_live: bool,
    // of how many batches of the window it awaits the decision without an attempt, since it had a state transferred
    pub missing: usize,
    pub steps: Vec<Step>,
}

impl<'n> Server<'n> {
    /// Attempts the batches of a window, which are the next, where the replica is live. A fault breaks it.
    pub(crate) fn attempt<R: Threads + Wait + Sync, G: Gate>(
        &mut self,
        rt: &R,
        alloc: Global,
        window: &[MixedBatch],
        gate: &G,
    )
        requires due { IsDueTo window.now self.old }
        ensures on { AttemptsUnbroken window.now self.old self.new }
    {
        if !self.is_live {
            return;
        }
        let Ok(noted) = self.replica.run_window(rt, alloc, window, gate) else {
            return;
        };
        let noted = noted.as_slice();
        match self
            .replica
            .close_window(alloc, &mut self.steps, window, noted)
        {
            Ok(()) => {}
            Err(_) => {}
        }
    }

    /// The token of the first open attempt, where the replica is live.
    pub(crate) fn next_token(&self) -> Option<[u8; 32]>
        ensures is { result ≡ next_token self.now }
        ensures live { IsSome result → self.now.is_live ≡ true }
        ensures opened { IsSome result → 0 < length self.now.replica.ledger.opened }
    {
        if self.is_live && self.replica.opened() > 0 {
            Some(self.replica.token(0))
        } else {
            None
        }
    }

    /// Whether the replica is live, and its first open attempt has this token.
    pub(crate) fn has_next(&self, token: [u8; 32]) -> bool
        ensures { result ≡ is_some_of token (next_token self.now) }
    {
        match self.next_token() {
            Some(own) => own == token,
            None => false,
        }
    }

    /// In format 1, commits the batch, which is the next, where the replica is live and its first open attempt has this
    /// token. Any other replica stops, and keeps its open attempts.
    pub(crate) fn commit_or_stop(&mut self, seq: u32, token: [u8; 32]) -> Result<(), AllocError>
        requires version { self.old.replica.ledger.version ≡ 1 }
        requires whole { self.old.replica.is_broken ≡ false }
        requires next { self.old.is_live ≡ true → seq ≡ self.old.replica.ledger.committed + 1 }
        requires open { self.old.is_live ≡ true → 0 < length self.old.replica.ledger.opened }
        ensures on { OnOk result (GoesOn (commit_move token) self.old self.new) }
        ensures live { OnOk result (self.new.is_live ≡ is_some_of token (next_token self.old)) }
        ensures committed { is_some_of token (next_token self.old) ≡ true
            → OnOk result (CommitsNext self.old self.new) }
        ensures stays { is_some_of token (next_token self.old) ≡ false
            → section self.new.steps ≡ section self.old.steps }
    {
        if !self.has_next(token) {
            self.is_live = false;
            return Ok(());
        }
        self.commit(seq, token)
    }

    /// In format 2, commits the batch, which is the next, where the replica's first open attempt has this token. Any
    /// other replica stays as it is.
    pub(crate) fn commit_or_wait(&mut self, seq: u32, token: [u8; 32]) -> Result<(), AllocError>
        requires whole { self.old.replica.is_broken ≡ false }
        requires next { seq ≡ self.old.replica.ledger.committed + 1 }
        ensures on { is_some_of token (next_token self.old) ≡ true
            → OnOk result (GoesOn (commit_move token) self.old self.new) }
        ensures committed { is_some_of token (next_token self.old) ≡ true
            → OnOk result (CommitsNext self.old self.new) }
        ensures waits { is_some_of token (next_token self.old) ≡ false → self.new ≡ self.old }
    {
        if !self.has_next(token) {
            return Ok(());
        }
        self.commit(seq, token)
    }

    /// Commits the batch, which is the next and of which the first open attempt, with this token, is.
    fn commit(&mut self, seq: u32, token: [u8; 32]) -> Result<(), AllocError>
        requires whole { self.old.replica.is_broken ≡ false }
        requires next { seq ≡ self.old.replica.ledger.committed + 1 }
        requires has { is_some_of token (next_token self.old) ≡ true }
        ensures on { OnOk result (GoesOn (commit_move token) self.old self.new) }
        ensures live { self.new.is_live ≡ true }
        ensures committed { OnOk result (CommitsNext self.old self.new) }
    {
        let Ok(commit) = self.replica.commit(seq) else {
            unreachable!()
        };
        commit_fits(&commit);
        add_step(&mut self.steps, Step::Commit(commit))
    }

    /// The state that the replica has committed. That of a replica whose rows lie within the limits may always be
    /// transferred.
    pub(crate) fn state(&self, alloc: Global, head: &Head) -> Result<Arc<TransferData>, RunFault>
        ensures lent { IfOk result (λ x. IsLentBy self.now (transfer (arc_value x))) }
        ensures right { IfOk result (λ x. IsTrue (is_transfer (2 * head.now.customers) (transfer (arc_value x)))) }
        ensures version { IfOk result (λ x. head.now.version ≡ 2) }
        ensures why { IfErr result (IsLongOnly ⊥) }
    {
        let state = TransferData {
            seq: self.replica.committed(),
            view: self.replica.view(),
            rows: self.replica.state(alloc)?,
        };
        if !is_right_transfer(head, &state) {
            return Err(RunFault::Broken);
        }
        match Arc::new(alloc, state) {
            Ok(state) => Ok(state),
            Err(_) => Err(RunFault::Memory),
        }
    }

    /// Applies the state of the batch that is next, which another replica has committed. One that has committed the
    /// batch too stays as it is.
    pub(crate) fn apply_transfer_or_stay(
        &mut self,
        state: &Arc<TransferData>,
    ) -> Result<(), AllocError>
        requires whole { self.old.replica.is_broken ≡ false }
        requires right { IsTrue (is_transfer (ledger_rows self.old.replica.ledger) (transfer (arc_value state.now))) }
        requires live { self.old.is_live ≡ true }
        requires next { self.old.replica.ledger.committed ≢ (arc_value state.now).seq
            → MayTransfer (transfer (arc_value state.now)) self.old }
        ensures stays { self.old.replica.ledger.committed ≡ (arc_value state.now).seq → self.new ≡ self.old }
        ensures on { (token : List ℕ) → self.old.replica.ledger.committed ≢ (arc_value state.now).seq
            → OnOk result (GoesOn (commit_move token) self.old self.new) }
        ensures transferred { self.old.replica.ledger.committed ≢ (arc_value state.now).seq → OnOk result
            (section self.new.steps ≡ section self.old.steps ++ Transfers (transfer (arc_value state.now)) ∷ []) }
    {
        if self.replica.committed() == state.seq {
            return Ok(());
        }
        let shared = Arc::try_clone(state)?;
        let awaited = self.replica.opened() + self.missing;
        let Ok(()) = self.replica.transfer(&shared) else {
            unreachable!()
        };
        self.missing = awaited - 1;
        add_step(&mut self.steps, Step::Transfer(shared))
    }

    /// Rolls back, if the replica is live.
    pub(crate) fn roll_back(&mut self, alloc: Global) -> Result<(), AllocError>
        requires view { self.old.is_live ≡ true → self.old.replica.ledger.view < 2 ^ 32 - 1 }
        requires awaits { self.old.is_live ≡ true → 0 < (standing_of self.old).opened }
        requires missing { MissesRightly self.old }
        ensures on { OnOk result (GoesOn rollback_move self.old self.new) }
        ensures given_up { (p : RunPlan) → OnOk result (GivesUpNext p self.old self.new) }
        ensures live { OnOk result (self.new.is_live ≡ self.old.is_live) }
    {
        if !self.is_live {
            return Ok(());
        }
        let rollback = self.replica.rollback(alloc)?;
        self.missing = 0;
        add_step(&mut self.steps, Step::Rollback(rollback))
    }
}
