//! Laws about the definitions. A body calls the laws that its own stands on: the contract is the law.

ghost use Rattle.std.specs.Prelude.{◌≡◌, ◌≤◌, ℕ, List, Some, length};
ghost use Rattle.eve_grammar.specs.Trace.{Trace};
ghost use Rattle.eve_grammar.specs.Places.{IsBytes};
ghost use Rattle.eve_grammar.specs.FrameOrder.{Spells};
ghost use Rattle.eve_views.specs.Code.{phase_of};
ghost use Rattle.eve_views.specs.declared.fault.Fault.{Fault};
ghost use Rattle.eve_history.specs.Section.{Placed};
ghost use Rattle.eve_history.specs.SectionHistory.{committed_at, ByAttemptsTo};
ghost use Rattle.eve_chains.specs.Visible.{executions};
ghost use Rattle.eve_chains.specs.Committed.{opening_bank, bank_after, committed_to, Leads};
ghost use Rattle.eve_audit.specs.Audited.{IsAudited};
ghost use Rattle.eve_audit.specs.declared.verdict.Summary.{Summary};
ghost use Rattle.eve_audit.specs.declared.verdict.Verdict.{Verdict};
ghost use Rattle.eve_audit.specs.declared.verdict.Verdict.TheVariants.{Yes, No};
ghost use Rattle.eve_audit.specs.Verdict.{Stands, IsOwnFault, IsVerdict, SpellsAudited};
ghost use Rattle.eve_audit.specs.Reports.{IsSoundToAgreement};
ghost use Rattle.eve_audit.specs.Alone.{AgreeFor};
ghost use Rattle.eve_audit.specs.Where.{NamesItsSection};
ghost use Rattle.eve_audit.specs.Accepted.{IsAccepted};

use eve_agree::laws::rollbacks_restore_what_is_committed;
use eve_chains::laws::{
    committed_orders_keep_the_groups, requests_take_effect_once, serial_order_of_a_section,
    states_are_the_balances,
};
use eve_grammar::laws::right_heads_have_limits;
use eve_history::laws::numbers_are_reached;

/// Bytes have one verdict at most.
///
/// docs/MODEL.md, "Verdict".
pub fn verdicts_are_unique()
    ensures { (bytes : List ℕ) (v w : Verdict) → IsVerdict bytes v → IsVerdict bytes w → v ≡ w }
{
    eve_grammar::laws::bytes_spell_one_trace();
    eve_views::laws::parts_stand_in_order();
    eve_history::laws::outcomes_come_of_steps();
}

/// Every list of bytes has a verdict: so the verdict on bytes is one, and always there.
///
/// docs/MODEL.md, "Verdict".
pub fn bytes_have_a_verdict()
    ensures { (bytes : List ℕ) → IsBytes bytes → (v : Verdict) × IsVerdict bytes v }
{
    eve_grammar::laws::bytes_spell_one_trace();
    eve_grammar::laws::spelled_parts_are_within_limits();
    eve_grammar::laws::right_heads_have_limits();
    eve_views::laws::form_is_decided();
    eve_views::laws::parts_stand_in_order();
    eve_votes::laws::decided_commits_have_a_vote();
    eve_history::laws::faults_lie_within();
    eve_history::laws::outcomes_come_of_steps();
    eve_smallbank::laws::requests_fit();
    eve_smallbank::laws::fitting_records_are_of_what_they_saw();
}

/// Each fault that stands lies within the bytes, or at their end: so does each fault that a phase names.
///
/// docs/MODEL.md, "Faults".
pub fn standing_faults_lie_within()
    ensures { (bytes : List ℕ) (f : Fault) → Stands bytes f → f.offset ≤ length bytes }
{
    eve_grammar::laws::bytes_are_as_long_as_their_trace();
    eve_views::laws::parts_stand_in_order();
    eve_history::laws::faults_lie_within();
    eve_history::laws::outcomes_come_of_steps();
}

/// Each fault that stands names the replica in whose section it lies, and none where it lies in none: so does each
/// fault that a phase names.
///
/// docs/MODEL.md, "Faults".
pub fn standing_faults_name_their_section()
    ensures { (bytes : List ℕ) (f : Fault) → IsBytes bytes → Stands bytes f → NamesItsSection bytes f }
{
    eve_grammar::laws::bytes_spell_one_trace();
    eve_views::laws::form_is_decided();
    eve_views::laws::parts_stand_in_order();
    eve_history::laws::outcomes_come_of_steps();
}

/// Each replica is judged by itself: two traces that agree in the header, the customers, the batches and a replica's
/// section, which begins at the same byte, have the same faults of that replica's own. They may differ in what the
/// other replicas did, and in votes and replies sent.
///
/// docs/MODEL.md, "Faults".
pub fn replicas_are_judged_by_themselves()
    ensures { (t u : Trace) (e : ℕ) (f : Fault) → AgreeFor t u e → IsOwnFault t e f → IsOwnFault u e f }
{}

/// Where the verdict on bytes is yes, they spell a trace, and that trace is audited, by whichever call the verdict was
/// found. Each fault can be decided, so where none stands all is as `IsAudited` says.
///
/// docs/MODEL.md, "The audit theorem".
pub fn a_yes_is_audited()
    ensures spelled { (bytes : List ℕ) (s : Summary) → IsVerdict bytes (Yes s) → SpellsAudited bytes }
    ensures audited { (bytes : List ℕ) (s : Summary) (t : Trace) → IsVerdict bytes (Yes s) → Spells bytes t
        → IsAudited t }
{
    eve_grammar::laws::bytes_spell_one_trace();
    eve_grammar::laws::spelled_parts_are_within_limits();
    eve_smallbank::laws::requests_fit();
    eve_smallbank::laws::fitting_records_are_of_what_they_saw();
    eve_votes::laws::votes_without_faults_are_sound();
    eve_votes::laws::decided_commits_have_a_vote();
    eve_history::laws::right_sections_have_no_fault();
    eve_chains::laws::requests_take_effect_once();
    eve_chains::laws::faults_tell_what_is_wrong();
    eve_chains::laws::sound_attempts_fit_and_see();
    crate::laws::accepted_traces_are_audited();
}

/// Where the first fault is one of agreement, no replica has a fault of its own, and none stands in votes and
/// majorities: so all tokens are due, and all who committed a batch did so by one token.
///
/// docs/MODEL.md, "Verdict".
pub fn faults_of_agreement_come_late()
    ensures { (bytes : List ℕ) (t : Trace) (f : Fault) → IsVerdict bytes (No f) → Spells bytes t
        → phase_of f.code ≡ 10 → IsSoundToAgreement t }
{
    eve_grammar::laws::spelled_parts_are_within_limits();
    eve_smallbank::laws::requests_fit();
    eve_smallbank::laws::fitting_records_are_of_what_they_saw();
    eve_votes::laws::votes_without_faults_are_sound();
    eve_votes::laws::decided_commits_have_a_vote();
    eve_history::laws::right_sections_have_no_fault();
    eve_chains::laws::requests_take_effect_once();
    eve_chains::laws::faults_tell_what_is_wrong();
    eve_chains::laws::sound_attempts_fit_and_see();
}

/// A trace in which no phase finds a fault is one-thread SmallBank, batch by batch, and all else that a yes says. The
/// body only names the laws that it follows from: the contract is the law.
///
/// docs/MODEL.md, "The audit theorem".
pub fn accepted_traces_are_audited()
    ensures { (t : Trace) → IsAccepted t → IsAudited t }
{
    right_heads_have_limits();
    numbers_are_reached();
    states_are_the_balances();
    serial_order_of_a_section();
    committed_orders_keep_the_groups();
    requests_take_effect_once();
    rollbacks_restore_what_is_committed();
}

/// In version 1 of the format no state is transferred to a replica: each replica reached each of its numbers by an
/// attempt. So what `IsAudited` says of numbers that were reached it says of committed batches, and each replica's bank
/// after each of its batches comes from the opening balances by its own attempts.
///
/// docs/MODEL.md, "The audit theorem".
pub fn version_1_transfers_nothing()
    ensures attempts { (bytes : List ℕ) (t : Trace) (e n : ℕ) → Spells bytes t → t.head.version ≡ 1
        → ByAttemptsTo t e n }
    ensures from_opening { (bytes : List ℕ) (t : Trace) (e n : ℕ) → Spells bytes t → t.head.version ≡ 1 → IsAudited t
        → Leads (opening_bank t) (executions t (committed_to t e n)) (bank_after t e n) }
    ensures agree { (t : Trace) (e f n : ℕ) (p q : Placed) → IsAudited t → committed_at t e n ≡ Some p
        → committed_at t f n ≡ Some q
        → (bank_after t e n ≡ bank_after t f n) × (p.attempt.replies ≡ q.attempt.replies) }
{
    eve_grammar::laws::spelled_parts_are_within_limits();
    numbers_are_reached();
}
