//! Laws about the definitions. Each body is empty: the contract is the law.

ghost use Rattle.std.specs.Prelude.{◌≡◌, ◌≤◌, ◌+◌, ◌-◌, ◌∷◌, ◌++◌, ℕ, suc, List, Some, IsTrue, IsFalse, map, length};
ghost use Rattle.std.specs.Prelude.{slice_get};
ghost use Rattle.std.specs.List.{AllByRecursion};
ghost use Rattle.eve_grammar.specs.Trace.{Step, Access, Attempt, Transfer, Attempts, Transfers, Vote, Trace};
ghost use Rattle.eve_grammar.specs.Frames.{Frame, OfAccess, OfVote, has_transfers};
ghost use Rattle.eve_grammar.specs.Limits.{HasLimits};
ghost use Rattle.eve_history.specs.SectionHistory.{executed_attempt, section_history, IsRightSection, history};
ghost use Rattle.eve_history.specs.SectionHistory.{placed_at, picked, is_committed, is_discarded, attempts_among};
ghost use Rattle.eve_history.specs.SectionHistory.{ExecutedAttempt, ReachedBy, committed_at};
ghost use Rattle.eve_history.specs.SectionHistory.{is_reached, how_reached_at, ByAttemptsTo, ReachedFrom, NotReached};
ghost use Rattle.eve_grammar.specs.Spelling.{length_of, frame_text, step_text, frames_at, steps_at, accesses_at};
ghost use Rattle.eve_grammar.specs.Spelling.{votes_at};
ghost use Rattle.eve_views.specs.Lent.{HasBytesAt};
ghost use Rattle.eve_views.specs.declared.fault.Fault.{Fault};
ghost use Rattle.eve_views.specs.Form.{HasNone, IsFaultOutside, IsFaultIn};
ghost use Rattle.eve_history.specs.Section.{Placed, HowReached, ByTransfer, Skipped, start, state_after, attempts_by};
ghost use Rattle.eve_history.specs.Section.{settled};
ghost use Rattle.eve_history.specs.inner.AmongSteps.{IsStepOf};
ghost use Rattle.eve_history.specs.Fates.{fates_from};
ghost use Rattle.eve_history.specs.Order.{StandsInOrders};
ghost use Rattle.eve_history.specs.Structure.{StandsInStructure};

/// The attempts that a section has committed in the end, and those that it has discarded, are the ones with that fate,
/// in the order of their frames.
pub fn fates_are_as_the_section_ends()
    ensures committed { (t : Trace) (e : ℕ) → map placed_at (attempts_by (history t e).ways_reached)
        ≡ picked is_committed (attempts_among (steps_at t e)) (fates_from 0 (steps_at t e)) }
    ensures discarded { (t : Trace) (e : ℕ) → map placed_at (history t e).discarded
        ≡ picked is_discarded (attempts_among (steps_at t e)) (fates_from 0 (steps_at t e)) }
{}

/// Of each number up to the last, from 1 on, a right section tells how it was reached. It tells an attempt exactly
/// where it was reached by that attempt, which is of that batch; then the number before it is reached, and 0 always is.
/// An attempt's number is one more than those that are reached or skipped, and those of the open attempts, before it.
/// So it is with the states that were transferred.
///
/// In a trace of a version without transfers each number is reached by an attempt (`by_attempts`).
pub fn numbers_are_reached()
    ensures count { (t : Trace) (e : ℕ) → IsRightSection t e → length (section_history t e).ways_reached
        ≡ (section_history t e).committed }
    ensures told { (t : Trace) (e n : ℕ) (p : Placed) → committed_at t e n ≡ Some p
        → slice_get (section_history t e).ways_reached (n - 1) ≡ Some (ReachedBy (executed_attempt (placed_at p))) }
    ensures tells { (t : Trace) (e n : ℕ) (r : ExecutedAttempt) → 1 ≤ n
        → slice_get (section_history t e).ways_reached (n - 1) ≡ Some (ReachedBy r)
        → (p : Placed) × (committed_at t e n ≡ Some p) × (r ≡ executed_attempt (placed_at p)) }
    ensures numbers { (t : Trace) (e n : ℕ) (p : Placed) → IsRightSection t e → committed_at t e n ≡ Some p
        → p.attempt.seq ≡ n }
    ensures attempts { (t : Trace) (e at : ℕ) (a : Attempt) (prefix rest : List (ℕ × Step)) → IsRightSection t e
        → steps_at t e ≡ prefix ++ (at, Attempts a) ∷ rest
        → a.seq ≡ suc (length (state_after start prefix).ways_reached + length (state_after start prefix).pending) }
    ensures before { (t : Trace) (e n : ℕ) (p : Placed) → IsRightSection t e → committed_at t e (suc n) ≡ Some p
        → IsTrue (is_reached t e n) }
    ensures told_transfer { (t : Trace) (e n at : ℕ) (x : Transfer) → how_reached_at t e n ≡ Some (ByTransfer at x)
        → (i : ℕ) × (slice_get (section_history t e).ways_reached (n - 1) ≡ Some (ReachedFrom i))
        × (slice_get (section_history t e).transfers i ≡ Some (at, x)) }
    ensures tells_transfer { (t : Trace) (e n i : ℕ) → 1 ≤ n
        → slice_get (section_history t e).ways_reached (n - 1) ≡ Some (ReachedFrom i)
        → (at : ℕ) × (x : Transfer) × (how_reached_at t e n ≡ Some (ByTransfer at x))
        × (slice_get (section_history t e).transfers i ≡ Some (at, x)) }
    ensures tells_skipped { (t : Trace) (e n : ℕ) → 1 ≤ n
        → slice_get (section_history t e).ways_reached (n - 1) ≡ Some NotReached → how_reached_at t e n ≡ Some Skipped }
    ensures transfers { (t : Trace) (e n at : ℕ) (x : Transfer) → IsRightSection t e
        → how_reached_at t e n ≡ Some (ByTransfer at x) → (x.seq ≡ n) × ((k : ℕ)
        × (slice_get (steps_at t e) k ≡ Some (at, Transfers x))) }
    ensures reaches { (t : Trace) (e k at : ℕ) (x : Transfer) → IsRightSection t e
        → slice_get (steps_at t e) k ≡ Some (at, Transfers x) → how_reached_at t e x.seq ≡ Some (ByTransfer at x) }
    ensures there { (t : Trace) (e n : ℕ) → IsRightSection t e → 1 ≤ n → n ≤ (section_history t e).committed
        → (l : HowReached) × (how_reached_at t e n ≡ Some l) }
    ensures by_attempts { (t : Trace) (e n : ℕ) → HasLimits t → IsFalse (has_transfers t.head.version)
        → ByAttemptsTo t e n }
{}

/// A section is right where no fault of structure stands in it, and only there.
///
/// docs/MODEL.md, "Faults".
pub fn right_sections_have_no_fault()
    ensures right { (t : Trace) (e : ℕ) → HasNone (IsFaultIn StandsInStructure t e) → IsRightSection t e }
    ensures none { (t : Trace) (e : ℕ) → IsRightSection t e → HasNone (IsFaultIn StandsInStructure t e) }
{}

/// What a section has committed, discarded or transferred are steps of it, at the offsets that are told, whether it is
/// right or not.
///
/// docs/MODEL.md, "Section state, fate".
pub fn outcomes_come_of_steps()
    ensures committed { (t : Trace) (e n : ℕ) (p : Placed) → committed_at t e n ≡ Some p
        → IsStepOf t e p.offset (Attempts p.attempt) }
    ensures settled { (t : Trace) (e : ℕ)
        → AllByRecursion (λ p. IsStepOf t e p.offset (Attempts p.attempt)) (settled (history t e)) }
    ensures transferred { (t : Trace) (e n at : ℕ) (x : Transfer) → how_reached_at t e n ≡ Some (ByTransfer at x)
        → IsStepOf t e at (Transfers x) }
{}

/// Faults of orders and of structure stand within the trace.
pub fn faults_lie_within()
    ensures orders { (t : Trace) (f : Fault) → IsFaultOutside StandsInOrders t f → f.offset ≤ length_of t }
    ensures structure { (t : Trace) (e : ℕ) (f : Fault) → IsFaultIn StandsInStructure t e f → f.offset ≤ length_of t }
{}

/// Each frame of a trace stands in its bytes at its offset. So does each step of a section, its frames one after
/// another, and so do each access frame of an attempt, and each vote, at their own.
///
/// docs/TRACE.md, "Frames".
pub fn frames_stand_where_they_are_said_to()
    ensures frames { (t : Trace) (k : ℕ) (x : ℕ × Frame) → slice_get (frames_at t) k ≡ Some x
        → HasBytesAt t x.0 (frame_text x.1) }
    ensures steps { (t : Trace) (e k : ℕ) (step : ℕ × Step) → slice_get (steps_at t e) k ≡ Some step
        → HasBytesAt t step.0 (step_text step.1) }
    ensures accesses { (t : Trace) (e k i at : ℕ) (a : Attempt) (x : ℕ × Access) → slice_get (steps_at t e) k
        ≡ Some (at, Attempts a)
        → slice_get (accesses_at at a) i ≡ Some x → HasBytesAt t x.0 (frame_text (OfAccess x.1)) }
    ensures votes { (t : Trace) (v k : ℕ) (w : ℕ × Vote) → slice_get (votes_at t v) k ≡ Some w
        → HasBytesAt t w.0 (frame_text (OfVote w.1)) }
{}
