//! Attempts made of what a replica's workers noted.

ghost use Rattle.std.specs.Prelude.{◌≡◌, ◌+◌, ◌<◌, ◌≤◌, true, false, Err, ℕ, [], ◌∷◌, ◌++◌, All, length, map};
ghost use Rattle.std.specs.Prelude.{IsTrue, IfOk, IfErr, IfSome, IfNone, OnOk, OnErr, Contains};
ghost use Rattle.std.specs.List.{AllZip, list_all};
ghost use Rattle.eve_grammar.specs.Limits.{is_batch, is_step};
ghost use Rattle.eve_write.specs.Data.{attempt, batch as plain_batch, section, step as plain};
ghost use Rattle.eve_attempts.specs.ClosedAttempts.{touched_in_batch, AreMismatched};
ghost use Rattle.eve_floor.specs.Assignments.{IsRightAssignment};
ghost use Rattle.eve_floor.specs.Recording.{AreNotedOf};
ghost use Rattle.eve_replica.specs.Replicas.{AttemptsDue, BreaksBy, ClosesThese, FailsAttempt, MayAttempt};
ghost use Rattle.eve_replica.specs.Replicas.{attempt_head_of};
ghost use Rattle.eve_replica.specs.inner.RunInvariant.{AreDue, GoesOn, IsRightMixed, MayAttemptAll, AttemptsAll};
ghost use Rattle.eve_replica.specs.inner.RunInvariant.{attempt_move};
ghost use Rattle.eve_replica.specs.inner.RunInvariant.{IsNotedAs, server_with};

use crate::fault::{AttemptFault, fault_of};
use crate::replica::Replica;
use eve_attempts::{AttemptHead, CloseFault as Unclosed};
use eve_floor::{Assignment, Floor, crew_size, run_batches};
use eve_grammar::{MOST_BATCHES, MOST_WORKERS};
use eve_recorder::Gate;
use eve_smallbank::Touched;
use eve_stamps::AccessRecord;
use eve_workload::MixedBatch;
use eve_write::{AttemptData, BatchData, Step};
use std::alloc::{AllocError, Global};
use std::sync::Wait;
use std::thread::Threads;

impl<'n> Replica<'n> {
    /// Runs the batches of a window, which are the next, by the workers of a replica that isn't broken, and returns
    /// what they noted of each. A fault breaks the replica.
    pub(crate) fn run_window<R: Threads + Wait + Sync, G: Gate>(
        &mut self,
        rt: &R,
        alloc: Global,
        window: &[MixedBatch],
        gate: &G,
    ) -> Result<Vec<Vec<AccessRecord>>, AttemptFault>
        requires whole { self.old.is_broken ≡ false }
        requires mixed { All (IsRightMixed self.old.names) window.now }
        ensures noted { IfOk result (λ noted. AllZip (IsNotedAs self.old.names) window.now noted.items) }
        ensures same { OnOk result (self.new ≡ self.old) }
        ensures refused { IfErr result (λ why. BreaksBy why self.old self.new) }
    {
        let workers = self.workers.many();
        let serial = self.ledger.is_next_serial();
        let Ok(assignments) = assignments_of(alloc, &self.floor, workers, window, serial) else {
            return Err(self.broken_by(AttemptFault::Memory));
        };
        let assignments = assignments.as_slice();
        match run_batches(rt, alloc, &self.floor, &mut self.workers, assignments, gate) {
            Ok(noted) => Ok(noted),
            Err(why) => Err(self.broken_by(fault_of(why))),
        }
    }

    /// Makes an attempt of what was noted of each batch of the window, one after another. A fault breaks the replica;
    /// the attempts before it stay open.
    pub(crate) fn close_window(
        &mut self,
        alloc: Global,
        steps: &mut Vec<Step>,
        window: &[MixedBatch],
        noted: &[Vec<AccessRecord>],
    ) -> Result<(), AttemptFault>
        requires due { MayAttemptAll self.old window.now }
        requires noted { AllZip (IsNotedAs self.old.names) window.now noted.now }
        ensures on { OnOk result (AttemptsAll window.now self.old steps.old self.new steps.new) }
        ensures broken { OnErr result (self.new.is_broken ≡ true) }
    {
        for place in 0..window.len() {
            match self.add_attempt(alloc, steps, &window[place], noted[place].as_slice()) {
                Ok(()) => {}
                Err(why) => return Err(why),
            }
        }
        Ok(())
    }

    /// Makes an attempt of what was noted of the next batch, and adds it to what the replica did.
    fn add_attempt(
        &mut self,
        alloc: Global,
        steps: &mut Vec<Step>,
        mixed: &MixedBatch,
        records: &[AccessRecord],
    ) -> Result<(), AttemptFault>
        requires due { AreDue 1 self.old.ledger }
        requires mixed { IsRightMixed self.old.names mixed.now }
        requires whole { self.old.is_broken ≡ false }
        requires noted { AreNotedOf self.old.names (plain_batch mixed.now.batch) records.now }
        ensures on { OnOk result (GoesOn (attempt_move 1 (plain_batch mixed.now.batch ∷ []))
            (server_with self.old steps.old) (server_with self.new steps.new)) }
        ensures broken { OnErr result (self.new.is_broken ≡ true) }
    {
        let touched = mixed.touched.as_slice();
        let attempt = self.close_noted(alloc, &mixed.batch, touched, records)?;
        match add_step(steps, Step::Attempt(attempt)) {
            Ok(()) => Ok(()),
            Err(_) => Err(self.broken_by(AttemptFault::Memory)),
        }
    }

    /// What was noted of the next batch, and nothing else, becomes an attempt in the view and in the mode that are due,
    /// and is opened. Any fault breaks the replica.
    pub(crate) fn close_noted(
        &mut self,
        alloc: Global,
        batch: &BatchData,
        touched: &[Touched],
        records: &[AccessRecord],
    ) -> Result<AttemptData, AttemptFault>
        requires due { MayAttempt self.old (plain_batch batch.now) touched.now }
        requires noted { AreNotedOf self.old.names (plain_batch batch.now) records.now }
        ensures attempted { IfOk result (λ a. AttemptsDue self.old self.new (plain_batch batch.now) (attempt a)) }
        ensures refused { IfErr result (λ why. FailsAttempt why self.old self.new) }
        ensures broken { OnErr result (self.new.is_broken ≡ true) }
        ensures mismatch { let prefix = attempt_head_of self.old.ledger self.old.ledger.view
            self.old.ledger.is_next_serial in
            result ≡ Err AttemptFault.Mismatch → AreMismatched prefix self.old.ledger (plain_batch batch.now)
            (touched_in_batch self.old.names (plain_batch batch.now)) records.now }
    {
        match self.close(alloc, batch, touched, records, greatest_tick(records)) {
            Ok(attempt) => Ok(attempt),
            Err(Unclosed::Memory) => Err(self.broken_by(AttemptFault::Memory)),
            Err(Unclosed::Mismatch) => Err(self.broken_by(AttemptFault::Mismatch)),
        }
    }

    /// Number, view and mode of the attempt that is due.
    fn next_prefix(&self) -> AttemptHead
        requires { self.now.ledger.committed + 1 + length self.now.ledger.opened ≤ MOST_BATCHES }
        ensures { result ≡ attempt_head_of self.now.ledger self.now.ledger.view self.now.ledger.is_next_serial }
    {
        AttemptHead {
            seq: self.ledger.next_number() as u32,
            view: self.ledger.view(),
            serial: self.ledger.is_next_serial(),
        }
    }

    /// Breaks the replica, and returns the fault.
    pub(crate) fn broken_by(&mut self, why: AttemptFault) -> AttemptFault
        ensures broken { self.new ≡ record self.old { is_broken = true } }
        ensures why { result ≡ why }
    {
        self.is_broken = true;
        self.fault = Some(why);
        why
    }

    /// Makes an attempt of the records in the view and in the mode that are due, opens it, and keeps the tick up to
    /// which the stripes are settled at its commit.
    pub(crate) fn close(
        &mut self,
        alloc: Global,
        batch: &BatchData,
        touched: &[Touched],
        records: &[AccessRecord],
        tick: Option<u64>,
    ) -> Result<AttemptData, Unclosed>
        requires due { MayAttempt self.old (plain_batch batch.now) touched.now }
        ensures closed { let prefix = attempt_head_of self.old.ledger self.old.ledger.view
            self.old.ledger.is_next_serial in
            IfOk result (λ a. ClosesThese prefix self.old self.new (plain_batch batch.now) records.now (attempt a)) }
        ensures mismatch { let prefix = attempt_head_of self.old.ledger self.old.ledger.view
            self.old.ledger.is_next_serial in
            result ≡ Err Unclosed.Mismatch → AreMismatched prefix self.old.ledger (plain_batch batch.now)
            (touched_in_batch self.old.names (plain_batch batch.now)) records.now }
        ensures refused { OnErr result (self.new ≡ self.old) }
    {
        let prefix = self.next_prefix();
        if self.settles.reserve(1).is_err() {
            return Err(Unclosed::Memory);
        }
        match self.ledger.close(alloc, prefix, batch, touched, records) {
            Ok(attempt) => {
                self.settles.push_reserved(tick);
                Ok(attempt)
            }
            Err(why) => Err(why),
        }
    }
}

/// The greatest tick of the records.
fn greatest_tick(records: &[AccessRecord]) -> Option<u64>
    ensures none { IfNone result (records.now ≡ []) }
    ensures greatest { IfSome result (λ t. All (λ r. r.tick ≤ t) records.now) }
    ensures one { IfSome result (Contains (map (λ r. r.tick) records.now)) }
{
    records.iter().map(|record| record.tick()).max()
}

/// Adds a step that a replica took.
pub(crate) fn add_step(steps: &mut Vec<Step>, step: Step) -> Result<(), AllocError>
    ensures right { (rows : ℕ) → IsTrue (is_step rows (plain step))
        → OnOk result (IsTrue (list_all (is_step rows) (section steps.old))
        → IsTrue (list_all (is_step rows) (section steps.new))) }
    ensures added { OnOk result (section steps.new ≡ section steps.old ++ plain step ∷ []) }
{
    steps.push(step)?;
    Ok(())
}

/// The batches of a window, for the given number of workers. Only the first can be in serial mode.
fn assignments_of<'b>(
    alloc: Global,
    floor: &Floor,
    workers: u8,
    window: &'b [MixedBatch],
    serial: bool,
) -> Result<Vec<Assignment<'b>>, AllocError>
    requires workers { (1 ≤ workers) × (workers ≤ MOST_WORKERS) }
    requires mixed { All (IsRightMixed floor.now) window.now }
    ensures right { IfOk result (λ assignments. All (IsRightAssignment floor.now workers) assignments.items) }
    ensures batches { IfOk result (λ assignments. map (λ a. plain_batch a.batch.now) assignments.items
        ≡ map (λ m. plain_batch m.batch) window.now) }
{
    let mut assignments = Vec::with_capacity(alloc, window.len())?;
    let mut is_serial = serial;
    for mixed in window {
        assignments.push_reserved(assignment_of(
            floor,
            workers,
            &mixed.batch,
            mixed.touched.as_slice(),
            is_serial,
        ));
        is_serial = false;
    }
    Ok(assignments)
}

/// The batch with those of the workers that can have something to do in it.
pub(crate) fn assignment_of<'b>(
    floor: &Floor,
    workers: u8,
    batch: &'b BatchData,
    touched: &'b [Touched],
    serial: bool,
) -> Assignment<'b>
    requires workers { (1 ≤ workers) × (workers ≤ MOST_WORKERS) }
    requires batch { IsTrue (is_batch (plain_batch batch.now)) }
    requires touched { touched.now ≡ touched_in_batch floor.now (plain_batch batch.now) }
    ensures right { IsRightAssignment floor.now workers result }
    ensures batch { result.batch.now ≡ batch.now }
{
    let crew = crew_size(batch.sizes.as_slice(), workers, serial);
    Assignment {
        batch,
        touched,
        crew,
    }
}
