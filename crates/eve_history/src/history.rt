//! What a replica did.

ghost use Rattle.std.specs.Prelude.{◌≡◌, ◌≤◌, ◌<◌, ◌-◌, ℕ, Some, IfOk, IfErr, IsTrue, length, slice_get};
ghost use Rattle.eve_grammar.specs.Trace.{Trace as TraceValue};
ghost use Rattle.eve_grammar.specs.Frames.{OfAttempt, OfAccess, OfRollback, OfTransfer};
ghost use Rattle.eve_grammar.specs.Spelling.{frame_text};
ghost use Rattle.eve_frames.specs.Decoded.{access_decoded, attempt_decoded, rollback_decoded, transfer_decoded};
ghost use Rattle.eve_views.specs.Form.{IfFound, IsLeast, HasNone, IsFaultIn};
ghost use Rattle.eve_views.specs.Lent.{HasBytesAt};
ghost use Rattle.eve_history.specs.SectionHistory.{ExecutedAttempt, section_history, section_histories, IsRightSection};
ghost use Rattle.eve_history.specs.SectionHistory.{ReachedBy, is_by_attempt, told_reached_at, IsToldOf};
ghost use Rattle.eve_history.specs.KeptSections.{kept_section, section_history_of, IsWholeSection};
ghost use Rattle.eve_history.specs.Structure.{StandsInStructure};

use crate::fate::Fate;
use crate::frame::{access_at, attempt_at, rollback_at, transfer_at};
use crate::how_reached::HowReached;
use crate::structure::{Notes, take};
use eve_frames::{AccessView, AttemptView, RollbackView, TransferView};
use eve_views::{CheckFault, Trace};
use std::alloc::Global;
use std::marker::Model;

/// What a replica did, as its section tells it: its attempts, what became of each and in which order each ran, its
/// rollbacks, and the states that were transferred to it. Each of the three is numbered from 0, in the order of the
/// frames.
///
/// docs/MODEL.md, "Section state, fate".
#[derive(Drop)]
pub struct History<'a> {
    replica: u8,
    // what is kept of its section
    notes: Notes<'a>,
}

impl<'a> Model for History<'a> {
    ghost use Rattle.eve_history.specs.SectionHistory.{SectionHistory};

    ghost Value = { SectionHistory };

    ghost use Rattle.eve_history.specs.KeptSections.{kept_section, section_history_of, IsWholeSection};

    ghost view = { λ h. section_history_of h.replica (kept_section h.notes) };

    ghost invariant = { λ h. IsWholeSection h.notes };
}

/// Says of the histories of all replicas that each step of each section is right. It does nothing else.
///
/// docs/MODEL.md, "Section state, fate".
pub fn recall_all_right(histories: &[History<'_>])
    ensures { (t : TraceValue) → histories.now ≡ section_histories t → (e : ℕ) → IsRightSection t e }
{
    for history in histories {
        history.recall_right();
    }
}

impl<'a> History<'a> {
    /// What the notes of a replica's whole section tell.
    fn of_notes(replica: u8, notes: Notes<'a>) -> History<'a>
        requires { IsWholeSection notes }
        ensures { result ≡ section_history_of replica (kept_section notes.entry) }
    {
        History { replica, notes }
    }

    /// What a replica did, by the replica's number from 0, where its section is right; else `Found`, the first fault of
    /// structure in it.
    ///
    /// docs/MODEL.md, "Section state, fate" and "Faults". One pass over the section's frames. Refused memory decides
    /// nothing.
    pub fn of(alloc: Global, trace: &Trace<'a>, e: u8) -> Result<History<'a>, CheckFault>
        requires { e < length trace.now.sections }
        ensures section_history { IfOk result (λ history. history ≡ section_history trace.now e) }
        ensures replica { IfOk result (λ history. history.replica ≡ e) }
        ensures right { IfOk result (λ _. IsRightSection trace.now e) }
        ensures none { IfOk result (λ _. HasNone (IsFaultIn StandsInStructure trace.now e)) }
        ensures least { IfErr result (λ x. IfFound x (IsLeast (IsFaultIn StandsInStructure trace.now e))) }
    {
        trace.recall_limits();
        let mut notes = Notes::new(alloc, trace.bytes());
        let mut steps = trace.section(e);
        while let Some(step) = steps.next() {
            take(&mut notes, trace, e, step)?;
        }
        Ok(History::of_notes(e, notes))
    }

    /// Says that each step of the replica's section is right: there is no history of any other. It does nothing else.
    ///
    /// docs/MODEL.md, "Section state, fate".
    pub fn recall_right(&self)
        ensures right { IsTrue self.now.right }
        ensures section { (t : TraceValue) (e : ℕ) → self.now ≡ section_history t e → IsRightSection t e }
    {
        let _replica = self.replica;
    }

    /// What is kept of the section's steps.
    fn notes(&self) -> &Notes<'a>
        ensures tells { section_history_of self.now.replica (kept_section result.now) ≡ self.now }
        ensures whole { IsWholeSection result.now }
    {
        &self.notes
    }

    /// The replica's number, from 0.
    pub fn replica(&self) -> u8
        ensures { result ≡ self.now.replica }
    {
        self.replica
    }

    /// The last number that the replica reached; 0 where it reached none.
    pub fn committed(&self) -> u32
        ensures number { result ≡ self.now.committed }
        ensures count { result ≡ length self.now.ways_reached }
    {
        self.notes().last
    }

    /// How the replica reached number n, of the numbers from 1 on.
    pub fn how_reached(&self, n: u32) -> HowReached
        requires one { 1 ≤ n }
        requires there { n ≤ length self.now.ways_reached }
        ensures { IsToldOf self.now result (told_reached_at self.now n) }
    {
        self.notes().ways_reached[n as usize - 1]
    }

    /// Whether the replica reached number n, of the numbers from 1 on, by an attempt.
    pub fn by_attempt(&self, n: u32) -> bool
        requires one { 1 ≤ n }
        requires there { n ≤ length self.now.ways_reached }
        ensures { result ≡ is_by_attempt (told_reached_at self.now n) }
    {
        match self.how_reached(n) {
            HowReached::Attempt(_) => true,
            HowReached::Transfer(_) => false,
            HowReached::Skipped => false,
        }
    }

    /// The attempt by which the replica committed batch n, of the batches from 1 on: its number among the attempts.
    pub fn committed_attempt(&self, n: u32) -> usize
        requires one { 1 ≤ n }
        requires by_attempt { IsTrue (is_by_attempt (told_reached_at self.now n)) }
        ensures { (r : ExecutedAttempt) × (slice_get self.now.ways_reached (n - 1) ≡ Some (ReachedBy r))
            × (slice_get self.now.attempts result ≡ Some r) }
    {
        match self.how_reached(n) {
            HowReached::Attempt(i) => i as usize,
            HowReached::Transfer(_) => unreachable!(),
            HowReached::Skipped => unreachable!(),
        }
    }

    /// How many attempts there are.
    pub fn attempts(&self) -> usize
        ensures attempts { result ≡ length self.now.attempts }
        ensures fates { result ≡ length self.now.fates }
    {
        self.notes().attempts.len()
    }

    /// An attempt. Its access records have frames of their own.
    pub fn attempt(&self, i: usize) -> AttemptView<'a>
        requires { i < length self.now.attempts }
        ensures says { (r : ExecutedAttempt) × (slice_get self.now.attempts i ≡ Some r) × (result.offset ≡ r.offset)
            × (attempt_decoded result ≡ r.attempt) × (length r.ordered ≡ length r.attempt.certificate) }
        ensures text { result.bytes.now ≡ frame_text (OfAttempt (attempt_decoded result)) }
        ensures stands { (t : TraceValue) (e : ℕ) → self.now ≡ section_history t e
            → HasBytesAt t result.offset result.bytes.now }
    {
        let notes = self.notes();
        attempt_at(notes.bytes, notes.attempts[i].at)
    }

    /// What became of an attempt.
    pub fn fate(&self, i: usize) -> Fate
        requires { i < length self.now.fates }
        ensures { slice_get self.now.fates i ≡ Some result }
    {
        let notes = self.notes();
        if i < notes.fates.len() {
            notes.fates[i]
        } else {
            Fate::Open
        }
    }

    /// How many states were transferred to the replica before an attempt.
    pub fn transferred_before(&self, i: usize) -> u32
        requires { i < length self.now.attempts }
        ensures { slice_get self.now.transferred i ≡ Some result }
    {
        self.notes().attempts[i].transferred
    }

    /// The access record that an attempt's certificate lists at a place, from 0.
    pub fn ordered(&self, i: usize, place: usize) -> AccessView<'a>
        requires attempt { i < length self.now.attempts }
        requires place { (r : ExecutedAttempt) → slice_get self.now.attempts i ≡ Some r → place < length r.ordered }
        ensures says { (r : ExecutedAttempt) × (slice_get self.now.attempts i ≡ Some r)
            × (slice_get r.ordered place ≡ Some (result.offset, access_decoded result)) }
        ensures text { result.bytes.now ≡ frame_text (OfAccess (access_decoded result)) }
        ensures not_first { 0 < result.offset }
        ensures stands { (t : TraceValue) (e : ℕ) → self.now ≡ section_history t e
            → HasBytesAt t result.offset result.bytes.now }
    {
        let notes = self.notes();
        let from = notes.attempts[i].from;
        let at = notes.records[from + place];
        access_at(notes.bytes, at)
    }

    /// How many rollbacks there are.
    pub fn rollbacks(&self) -> usize
        ensures { result ≡ length self.now.rollbacks }
    {
        self.notes().rollbacks.len()
    }

    /// A rollback.
    pub fn rollback(&self, i: usize) -> RollbackView<'a>
        requires { i < length self.now.rollbacks }
        ensures says { slice_get self.now.rollbacks i ≡ Some (result.offset, rollback_decoded result) }
        ensures text { result.bytes.now ≡ frame_text (OfRollback (rollback_decoded result)) }
        ensures stands { (t : TraceValue) (e : ℕ) → self.now ≡ section_history t e
            → HasBytesAt t result.offset result.bytes.now }
    {
        let notes = self.notes();
        rollback_at(notes.bytes, notes.rollbacks[i])
    }

    /// How many states were transferred to the replica.
    pub fn transfers(&self) -> usize
        ensures { result ≡ length self.now.transfers }
    {
        self.notes().transfers.len()
    }

    /// A state that was transferred to the replica.
    pub fn transfer(&self, i: usize) -> TransferView<'a>
        requires { i < length self.now.transfers }
        ensures says { slice_get self.now.transfers i ≡ Some (result.offset, transfer_decoded result) }
        ensures text { result.bytes.now ≡ frame_text (OfTransfer (transfer_decoded result)) }
        ensures stands { (t : TraceValue) (e : ℕ) → self.now ≡ section_history t e
            → HasBytesAt t result.offset result.bytes.now }
    {
        let notes = self.notes();
        transfer_at(notes.bytes, notes.transfers[i])
    }
}
