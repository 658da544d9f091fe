//! A replica's section, step by step: what is kept of the steps, and what is wrong with the next.

ghost use Rattle.std.specs.Prelude.{◌≡◌, ◌≤◌, ◌<◌, ◌++◌, ◌∷◌, ◌^◌, [], ℕ, List, IsTrue, IfErr, OnOk, IfNone};
ghost use Rattle.std.specs.Prelude.{◌==◌, ◌&&◌, ◌+◌, false, map, length, slice_index, Some};
ghost use Rattle.std.specs.List.{AllByRecursion};
ghost use Rattle.std.specs.Cmp.Lexicographic.{pointwise};
ghost use Rattle.eve_grammar.specs.Trace.{Trace as TraceValue, Attempt, Step as StepValue, Attempts, Commits};
ghost use Rattle.eve_grammar.specs.Trace.{RollsBack, Transfers, head_of};
ghost use Rattle.eve_grammar.specs.Frames.{without_accesses};
ghost use Rattle.eve_grammar.specs.Spelling.{accesses_at};
ghost use Rattle.eve_frames.specs.Decoded.{attempt_decoded, commit_decoded, rollback_decoded, transfer_decoded};
ghost use Rattle.eve_views.specs.Form.{IfFound, IsLeast, IsFaultIn};
ghost use Rattle.eve_views.specs.declared.fault.CheckFault.TheVariants.{Found};
ghost use Rattle.eve_views.specs.StepKinds.{IsStep};
ghost use Rattle.eve_history.specs.Section.{SectionState, is_due, is_right_commit, is_right_rollback};
ghost use Rattle.eve_history.specs.Section.{worker_count, is_right_transfer};
ghost use Rattle.eve_history.specs.inner.FirstWrong.{wrong_attempt, wrong_step, fault_of};
ghost use Rattle.eve_history.specs.inner.MarkedRecords.{AreMarked};
ghost use Rattle.eve_history.specs.KeptSections.{kept_section, StandsAt, HasCome, ComesNext, AreFramed, AreNotesOf};
ghost use Rattle.eve_history.specs.KeptSections.{kept_at_first};
ghost use Rattle.eve_history.specs.Structure.{StandsInStructure};

use crate::access_marks::AccessMarks;
use crate::certificate::{has_every_index, is_right_certificate, read_order};
use crate::fate::Fate;
use crate::frame::attempt_at;
use crate::how_reached::HowReached;
use crate::wrong::Wrong;
use eve_frames::{AttemptView, CommitView, RollbackView, TransferView};
use eve_grammar::{Head, MOST_REQUESTS, MOST_WORKERS};
use eve_views::{Accesses, CheckFault, Code, Fault, Step, Trace};
use std::alloc::{AllocError, Global};

/// An attempt, how many states were transferred before it, and where its access records begin among those of the
/// section.
#[derive(Clone, Copy)]
pub struct Attempted {
    /// The byte at which its frame begins.
    pub at: u32,
    /// How many states were transferred before it.
    pub transferred: u32,
    /// The place of the record that stands first in its certificate's order.
    pub from: usize,
}

/// What is kept of the steps of a section that have come. A frame is kept by the byte at which it begins.
#[derive(Drop)]
pub struct Notes<'a> {
    /// The trace's bytes.
    pub bytes: &'a [u8],
    /// The section's view.
    pub view: u32,
    /// The last number reached.
    pub last: u32,
    /// Whether no attempt came since a rollback.
    pub rolled_back: bool,
    /// The attempts, in the order of their frames.
    pub attempts: Vec<Attempted>,
    /// What became of those that are settled, which are the first of them.
    pub fates: Vec<Fate>,
    /// How each number was reached, from 1 to the last.
    pub ways_reached: Vec<HowReached>,
    /// The access records of one attempt after another, each attempt's in its certificate's order.
    pub records: Vec<u32>,
    /// The rollbacks, in the order of their frames.
    pub rollbacks: Vec<u32>,
    /// The states that were transferred, in the order of their frames.
    pub transfers: Vec<u32>,
}

/// The fault in this replica's section.
fn fault_in(e: u8, wrong: Wrong) -> CheckFault
    ensures { result ≡ Found (fault_of e wrong) }
{
    CheckFault::Found(Fault {
        code: wrong.code,
        offset: wrong.offset,
        replica: Some(e),
    })
}

/// Whether the commit has the attempt's view and token.
fn is_of(commit: &CommitView<'_>, attempt: &AttemptView<'_>) -> bool
    ensures { result ≡ (((attempt_decoded attempt.now).view == (commit_decoded commit.now).view) && pointwise ◌==◌
        (attempt_decoded attempt.now).token (commit_decoded commit.now).token) }
{
    attempt.view() == commit.view() && attempt.token() == commit.token()
}

/// Keeps the access records of an attempt, which are marked, in its certificate's order.
fn keep_records(
    records: &mut Vec<u32>,
    order: &[u16],
    marks: &AccessMarks,
) -> Result<(), AllocError>
    requires { AllByRecursion (λ i. i < MOST_REQUESTS) order.now }
    ensures { OnOk result
        (records.new.items ≡ records.old.items ++ map (λ i. slice_index marks.now.offsets i) order.now) }
{
    for index in order {
        records.push(marks.offset(*index))?;
    }
    Ok(())
}

/// How many workers an attempt may have.
fn workers_of(trace: &Trace<'_>, attempt: &AttemptView<'_>) -> u8
    ensures workers { result ≡ worker_count trace.now (attempt_decoded attempt.now) }
    ensures most { result ≤ MOST_WORKERS }
{
    trace.recall_limits();
    if attempt.is_serial() {
        1
    } else {
        trace.head().workers
    }
}

impl<'a> Notes<'a> {
    /// Before the first step.
    pub fn new(alloc: Global, bytes: &'a [u8]) -> Notes<'a>
        ensures bytes { result.bytes.now ≡ bytes.now }
        ensures attempts { result.attempts.items ≡ [] }
        ensures records { result.records.items ≡ [] }
        ensures rollbacks { result.rollbacks.items ≡ [] }
        ensures transfers { result.transfers.items ≡ [] }
        ensures kept { kept_section result ≡ kept_at_first [] }
    {
        Notes {
            bytes,
            view: 0,
            last: 0,
            rolled_back: false,
            attempts: Vec::new(alloc),
            fates: Vec::new(alloc),
            ways_reached: Vec::new(alloc),
            records: Vec::new(alloc),
            rollbacks: Vec::new(alloc),
            transfers: Vec::new(alloc),
        }
    }

    /// Whether an attempt's number, view and mode are those that are due.
    /// Decides F20 Attempt.
    fn is_due(&self, head: &Head, attempt: &AttemptView<'_>) -> bool
        requires { length (kept_section self.now).fates ≤ length (kept_section self.now).attempts }
        ensures due { (t : TraceValue) (s : SectionState) → StandsAt s (kept_section self.now)
            → head.now ≡ head_of t
            → result ≡ is_due t s (attempt_decoded attempt.now) }
        ensures from_one { IsTrue result → 1 ≤ (attempt_decoded attempt.now).seq }
        ensures there { IsTrue result → (attempt_decoded attempt.now).seq ≤ head.now.batches }
    {
        let seq = attempt.seq();
        let open = self.attempts.len() - self.fates.len();
        if seq <= self.last || (seq - self.last - 1) as usize != open {
            return false;
        }
        if seq > head.batches || seq as u64 > self.last as u64 + head.window as u64 {
            return false;
        }
        attempt.view() == self.view && attempt.is_serial() == self.rolled_back
    }

    /// What is wrong with an attempt but for its access records.
    /// Decides F20 Attempt.
    fn wrong_attempt(
        &self,
        trace: &Trace<'_>,
        attempt: &AttemptView<'_>,
        order: &[u16],
    ) -> Option<Code>
        requires fewer { length (kept_section self.now).fates ≤ length (kept_section self.now).attempts }
        requires order { order.now ≡ (attempt_decoded attempt.now).certificate }
        ensures { (s : SectionState) → StandsAt s (kept_section self.now)
            → result ≡ wrong_attempt trace.now s (attempt_decoded attempt.now) }
    {
        if !self.is_due(&trace.head(), attempt) || !has_every_index(trace, attempt) {
            return Some(Code::Attempt);
        }
        if !is_right_certificate(trace, attempt, order) {
            return Some(Code::Certificate);
        }
        None
    }

    /// Whether the commit is of the first open attempt.
    /// Decides F24 Commit.
    fn is_right_commit(&self, commit: &CommitView<'_>) -> bool
        requires { AreFramed self.now }
        ensures { (s : SectionState) → StandsAt s (kept_section self.now)
            → result ≡ is_right_commit s (commit_decoded commit.now) }
    {
        let settled = self.fates.len();
        if settled >= self.attempts.len() {
            return false;
        }
        if commit.seq() as u64 != self.last as u64 + 1 {
            return false;
        }
        is_of(commit, &attempt_at(self.bytes, self.attempts[settled].at))
    }

    /// Whether the rollback is to the last number reached, of a batch that is still to come, and in the next view.
    /// Decides F25 Rollback.
    fn rolls_back(&self, head: &Head, rollback: &RollbackView<'_>) -> bool
        ensures { (t : TraceValue) (s : SectionState) → StandsAt s (kept_section self.now) → head.now ≡ head_of t
            → result ≡ is_right_rollback t s (rollback_decoded rollback.now) }
    {
        rollback.to() == self.last
            && self.last < head.batches
            && rollback.view() as u64 == self.view as u64 + 1
    }

    /// Whether the state is of a later number, which is one of a batch, and its view is no lower.
    /// Decides F26 Transfer.
    fn may_transfer(&self, head: &Head, transfer: &TransferView<'_>) -> bool
        ensures { (t : TraceValue) (s : SectionState) → StandsAt s (kept_section self.now) → head.now ≡ head_of t
            → result ≡ is_right_transfer t s (transfer_decoded transfer.now) }
    {
        self.last < transfer.seq() && transfer.seq() <= head.batches && self.view <= transfer.view()
    }

    /// What is wrong with the next attempt; where nothing is, its access records are marked.
    fn judge(
        &self,
        trace: &Trace<'_>,
        attempt: &AttemptView<'_>,
        accesses: &Accesses<'_, '_>,
        order: &[u16],
        marks: &mut AccessMarks,
    ) -> Option<Wrong>
        requires fewer { length (kept_section self.now).fates ≤ length (kept_section self.now).attempts }
        requires order { order.now ≡ (attempt_decoded attempt.now).certificate }
        requires few { length order.now ≤ MOST_REQUESTS }
        requires many { length accesses.now ≡ length order.now }
        requires small { AllByRecursion (λ x. x.0 < 2 ^ 32) accesses.now }
        requires none { AreMarked [] marks.old }
        ensures wrong { (s : SectionState) (b : Attempt) → StandsAt s (kept_section self.now)
            → attempt_decoded attempt.now
            ≡ without_accesses b → accesses.now ≡ accesses_at attempt.now.offset b
            → result ≡ wrong_step trace.now s (attempt.now.offset, Attempts b) }
        ensures marked { IfNone result (AreMarked accesses.now marks.new) }
    {
        trace.recall_limits();
        if let Some(code) = self.wrong_attempt(trace, attempt, order) {
            return Some(Wrong {
                code,
                offset: attempt.offset(),
            });
        }
        marks.mark_all(workers_of(trace, attempt), order.len(), accesses)
    }

    /// Takes the next attempt, which becomes open, or says which of its frames is wrong.
    pub fn take_attempt(
        &mut self,
        trace: &Trace<'_>,
        e: u8,
        attempt: &AttemptView<'_>,
        accesses: &Accesses<'_, '_>,
    ) -> Result<(), CheckFault>
        requires noted { AreNotesOf trace.now self.old }
        requires comes { (rest : List (ℕ × StepValue)) × (b : Attempt)
            × ComesNext trace.now e rest b (kept_section self.old) attempt.now.offset (attempt_decoded attempt.now)
            accesses.now }
        ensures handled { OnOk result ((rest : List (ℕ × StepValue)) (b : Attempt)
            → ComesNext trace.now e rest b (kept_section self.old) attempt.now.offset (attempt_decoded attempt.now)
            accesses.now
            → HasCome trace.now e rest (kept_section self.new)) }
        ensures noted { OnOk result (AreNotesOf trace.now self.new) }
        ensures wrong { IfErr result
            (λ x. IfFound x (λ f. (rest : List (ℕ × StepValue)) (b : Attempt)
            → ComesNext trace.now e rest b (kept_section self.old) attempt.now.offset (attempt_decoded attempt.now)
            accesses.now
            → IsLeast (IsFaultIn StandsInStructure trace.now e) f)) }
    {
        let mut indexes = [0; MOST_REQUESTS];
        read_order(attempt, &mut indexes);
        let order = &indexes[..attempt.len()];
        let mut marks = AccessMarks::new();
        if let Some(wrong) = self.judge(trace, attempt, accesses, order, &mut marks) {
            return Err(fault_in(e, wrong));
        }
        let from = self.records.len();
        let transferred = self.transfers.len() as u32;
        keep_records(&mut self.records, order, &marks)?;
        self.attempts.push(Attempted {
            at: attempt.offset() as u32,
            transferred,
            from,
        })?;
        self.rolled_back = false;
        Ok(())
    }

    /// Takes the next commit, of the first open attempt, or says that it is wrong.
    pub fn take_commit(&mut self, e: u8, commit: &CommitView<'_>) -> Result<(), CheckFault>
        requires framed { AreFramed self.old }
        requires comes { (t : TraceValue) × (rest : List (ℕ × StepValue)) × AreNotesOf t self.old
            × HasCome t e ((commit.now.offset, Commits (commit_decoded commit.now)) ∷ rest) (kept_section self.old) }
        ensures handled { OnOk result ((t : TraceValue) (rest : List (ℕ × StepValue))
            → HasCome t e ((commit.now.offset, Commits (commit_decoded commit.now)) ∷ rest) (kept_section self.old)
            → HasCome t e rest (kept_section self.new)) }
        ensures noted { OnOk result ((t : TraceValue) → AreNotesOf t self.old → AreNotesOf t self.new) }
        ensures wrong { IfErr result
            (λ x. IfFound x (λ f. (t : TraceValue) (rest : List (ℕ × StepValue))
            → HasCome t e ((commit.now.offset, Commits (commit_decoded commit.now)) ∷ rest) (kept_section self.old)
            → IsLeast (IsFaultIn StandsInStructure t e) f)) }
    {
        if !self.is_right_commit(commit) {
            return Err(fault_in(
                e,
                Wrong {
                    code: Code::Commit,
                    offset: commit.offset(),
                },
            ));
        }
        let place = self.fates.len();
        self.ways_reached.reserve(1)?;
        self.fates.push(Fate::Committed)?;
        self.ways_reached
            .push_reserved(HowReached::Attempt(place as u32));
        self.last = commit.seq();
        Ok(())
    }

    /// Takes the next rollback, which discards all open attempts, or says that it is wrong.
    pub fn take_rollback(
        &mut self,
        trace: &Trace<'_>,
        e: u8,
        rollback: &RollbackView<'_>,
    ) -> Result<(), CheckFault>
        requires noted { AreNotesOf trace.now self.old }
        requires comes { (rest : List (ℕ × StepValue))
            × HasCome trace.now e ((rollback.now.offset, RollsBack (rollback_decoded rollback.now)) ∷ rest)
            (kept_section self.old) }
        ensures handled { OnOk result
            ((rest : List (ℕ × StepValue))
            → HasCome trace.now e ((rollback.now.offset, RollsBack (rollback_decoded rollback.now)) ∷ rest)
            (kept_section self.old)
            → HasCome trace.now e rest (kept_section self.new)) }
        ensures noted { OnOk result (AreNotesOf trace.now self.new) }
        ensures wrong { IfErr result
            (λ x. IfFound x (λ f. (rest : List (ℕ × StepValue))
            → HasCome trace.now e ((rollback.now.offset, RollsBack (rollback_decoded rollback.now)) ∷ rest)
            (kept_section self.old)
            → IsLeast (IsFaultIn StandsInStructure trace.now e) f)) }
    {
        if !self.rolls_back(&trace.head(), rollback) {
            return Err(fault_in(
                e,
                Wrong {
                    code: Code::Rollback,
                    offset: rollback.offset(),
                },
            ));
        }
        self.rollbacks.push(rollback.offset() as u32)?;
        self.fates.resize(self.attempts.len(), Fate::Discarded)?;
        self.view = rollback.view();
        self.rolled_back = true;
        Ok(())
    }

    /// Takes the next state over, which discards all open attempts and skips the numbers before its own, or says that
    /// it is wrong.
    pub fn take_transfer(
        &mut self,
        trace: &Trace<'_>,
        e: u8,
        transfer: &TransferView<'_>,
    ) -> Result<(), CheckFault>
        requires noted { AreNotesOf trace.now self.old }
        requires comes { (rest : List (ℕ × StepValue))
            × HasCome trace.now e ((transfer.now.offset, Transfers (transfer_decoded transfer.now)) ∷ rest)
            (kept_section self.old) }
        ensures handled { OnOk result
            ((rest : List (ℕ × StepValue))
            → HasCome trace.now e ((transfer.now.offset, Transfers (transfer_decoded transfer.now)) ∷ rest)
            (kept_section self.old)
            → HasCome trace.now e rest (kept_section self.new)) }
        ensures noted { OnOk result (AreNotesOf trace.now self.new) }
        ensures wrong { IfErr result
            (λ x. IfFound x (λ f. (rest : List (ℕ × StepValue))
            → HasCome trace.now e ((transfer.now.offset, Transfers (transfer_decoded transfer.now)) ∷ rest)
            (kept_section self.old)
            → IsLeast (IsFaultIn StandsInStructure trace.now e) f)) }
    {
        if !self.may_transfer(&trace.head(), transfer) {
            return Err(fault_in(
                e,
                Wrong {
                    code: Code::Transfer,
                    offset: transfer.offset(),
                },
            ));
        }
        let place = self.transfers.len() as u32;
        self.transfers.push(transfer.offset() as u32)?;
        let all = self.attempts.len();
        self.fates.resize(all, Fate::Discarded)?;
        let seq = transfer.seq();
        self.ways_reached
            .resize(seq as usize - 1, HowReached::Skipped)?;
        self.ways_reached.push(HowReached::Transfer(place))?;
        self.last = seq;
        self.view = transfer.view();
        self.rolled_back = false;
        Ok(())
    }
}

/// Takes the next step of a replica's section, or says what is wrong with it.
pub fn take<'a>(
    notes: &mut Notes<'a>,
    trace: &Trace<'a>,
    e: u8,
    step: Step<'_, 'a>,
) -> Result<(), CheckFault>
    requires noted { AreNotesOf trace.now notes.old }
    requires comes { (rest : List (ℕ × StepValue)) × (next : ℕ × StepValue)
        × HasCome trace.now e (next ∷ rest) (kept_section notes.old) × IsStep step next }
    ensures handled { OnOk result ((rest : List (ℕ × StepValue)) (next : ℕ × StepValue)
        → HasCome trace.now e (next ∷ rest) (kept_section notes.old) → IsStep step.entry next
        → HasCome trace.now e rest (kept_section notes.new)) }
    ensures noted { OnOk result (AreNotesOf trace.now notes.new) }
    ensures wrong { IfErr result
        (λ x. IfFound x (λ f. (rest : List (ℕ × StepValue)) (next : ℕ × StepValue)
        → HasCome trace.now e (next ∷ rest) (kept_section notes.old) → IsStep step.entry next
        → IsLeast (IsFaultIn StandsInStructure trace.now e) f)) }
{
    match step {
        Step::Attempt(attempt, accesses) => notes.take_attempt(trace, e, &attempt, &accesses),
        Step::Commit(commit) => notes.take_commit(e, &commit),
        Step::Rollback(rollback) => notes.take_rollback(trace, e, &rollback),
        Step::Transfer(transfer) => notes.take_transfer(trace, e, &transfer),
    }
}
