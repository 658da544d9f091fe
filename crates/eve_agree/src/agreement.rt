//! The faults of agreement.

ghost use Rattle.std.specs.Prelude.{◌≡◌, ◌≤◌, ◌<◌, ◌-◌, ◌↔◌, ℕ, [], IsTrue, IfOk, IfErr, IfSome, IfNone, Some, None};
ghost use Rattle.std.specs.Prelude.{length, slice_get};
ghost use Rattle.std.specs.List.{list_all};
ghost use Rattle.std.specs.Option.{is_some};
ghost use Rattle.eve_frames.specs.Decoded.{attempt_decoded, transfer_decoded};
ghost use Rattle.eve_frames.specs.Views.{attempt_in, has_attempt_body};
ghost use Rattle.eve_grammar.specs.Limits.{is_reply};
ghost use Rattle.eve_views.specs.Form.{IfFound, IsLeast, HasNone, IsFaultSomewhere};
ghost use Rattle.eve_grammar.specs.Trace.{Trace as TraceValue};
ghost use Rattle.eve_history.specs.SectionHistory.{ExecutedAttempt, SectionHistory, section_histories};
ghost use Rattle.eve_chains.specs.Committed.{balances_to};
ghost use Rattle.eve_chains.specs.CommittedValues.{settlings};
ghost use Rattle.eve_agree.specs.ByNumber.{told_at, told_state_at};
ghost use Rattle.eve_agree.specs.Agreement.{first_to_commit, HasCommitted, HaveSameOutcome, ReplicasAgree};
ghost use Rattle.eve_agree.specs.Agreement.{StandsInAgreement};
ghost use Rattle.eve_agree.specs.inner.NumbersJudged.{NoneBefore, IsAfter, AreAfter, AllStandAt, AllHaveSame, AgreesIn};
ghost use Rattle.eve_agree.specs.inner.NumbersJudged.{ReplicasStandAt, IsApart, JudgedTo, bound_of};

use crate::replica::{Replicas, have_same_balances, replica_at};
use eve_accounts::Balances;
use eve_chains::Settled;
use eve_chains::laws::{settled_values_are_the_banks, states_are_the_balances};
use eve_frames::laws::frames_say_what_fits;
use eve_frames::{AttemptView, TransferView};
use eve_history::laws::numbers_are_reached;
use eve_history::{History, HowReached, recall_all_right};
use eve_views::{CheckFault, Code, Fault, Trace};
use std::alloc::{AllocError, Global};

/// Judges what all replicas came to: each has the balances after a batch that it committed, and the replies to it, of
/// the lowest-numbered replica that committed it; and each state that was transferred to a replica has that replica's
/// balances after its number. Else `Found`, the first attempt or state where it is not so.
///
/// docs/MODEL.md, "Agreement". Balances and replies are compared themselves. It keeps the balances of each replica
/// once, and goes with all of them from number to number. Once a fault was found only the replicas below it are judged:
/// every fault of a later section stands behind it. Those that are left agree so far. So of an attempt's balances it is
/// enough to compare what the batch wrote, since before it they were the same; a state is compared whole. Of one
/// replica alone that had no state transferred nothing is asked. Refused memory decides nothing.
pub fn equal_balances(
    alloc: Global,
    trace: &Trace<'_>,
    histories: &[History<'_>],
    settled: &[Settled<'_>],
) -> Result<(), CheckFault>
    requires histories { histories.now ≡ section_histories trace.now }
    requires settled { settled.now ≡ settlings trace.now }
    ensures agree { IfOk result (λ _. ReplicasAgree trace.now) }
    ensures none { IfOk result (λ _. HasNone (IsFaultSomewhere StandsInAgreement trace.now)) }
    ensures least { IfErr result (λ why. IfFound why (IsLeast (IsFaultSomewhere StandsInAgreement trace.now))) }
{
    recall_all_right(histories);
    trace.recall_limits();
    numbers_are_reached();
    settled_values_are_the_banks();
    states_are_the_balances();
    if is_alone(histories) {
        return Ok(());
    }
    let mut all = opening_of_each(alloc, settled)?;
    let mut least = None;
    for n in 0..last_of_all(histories) {
        advance_all(settled, n + 1, &mut all);
        // lent again, both for as long as the balances
        least = judge_number(trace, &*histories, &*settled, &all, n + 1, least);
    }
    match least {
        Some(fault) => Err(CheckFault::Found(fault)),
        None => Ok(()),
    }
}

/// Whether there is nothing to compare: there is one replica at most, and no state was transferred.
fn is_alone(histories: &[History<'_>]) -> bool
    ensures few { IsTrue result → length histories.now < 2 }
    ensures none { IsTrue result → (e : ℕ) (h : SectionHistory) → slice_get histories.now e ≡ Some h
        → h.transfers ≡ [] }
{
    histories.len() < 2 && none_was_transferred(histories)
}

/// Whether no replica had a state transferred.
fn none_was_transferred(histories: &[History<'_>]) -> bool
    ensures { IsTrue result → (e : ℕ) (h : SectionHistory) → slice_get histories.now e ≡ Some h → h.transfers ≡ [] }
{
    for each in histories {
        if each.transfers() != 0 {
            return false;
        }
    }
    true
}

/// The opening balances, for each replica.
fn opening_of_each(alloc: Global, settled: &[Settled<'_>]) -> Result<Vec<Balances>, AllocError>
    ensures { IfOk result (λ all. AreAfter settled.now 0 all.items) }
{
    let mut all = Vec::new(alloc);
    for each in settled {
        let balances = each.balances_after(alloc, 0)?;
        all.push(balances)?;
    }
    Ok(all)
}

/// The greatest number that a replica reached, 0 where there is none.
fn last_of_all(histories: &[History<'_>]) -> u32
    ensures { (e : ℕ) (h : SectionHistory) → slice_get histories.now e ≡ Some h → h.committed ≤ result }
{
    let mut last = 0;
    for each in histories {
        last = last.max(each.committed());
    }
    last
}

/// Goes with each replica from its balances after the number before to those after number n.
fn advance_all(settled: &[Settled<'_>], n: u32, all: &mut Vec<Balances>)
    requires one { 1 ≤ n }
    requires before { AreAfter settled.now (n - 1) all.old.items }
    ensures { AreAfter settled.now n all.new.items }
{
    for e in 0..settled.len() {
        advance(&settled[e], n, &mut all[e]);
    }
}

/// Goes from a replica's balances after the number before to those after number n, the same where it didn't reach it.
pub(crate) fn advance(settled: &Settled<'_>, n: u32, balances: &mut Balances)
    requires one { 1 ≤ n }
    requires before { IsAfter settled.now (n - 1) balances.old }
    ensures { IsAfter settled.now n balances.new }
{
    if n <= settled.committed() {
        settled.advance(n, balances);
    }
}

/// Judges number n, of the replicas that are left: gives the fault found so far, or one of a lower replica.
fn judge_number<'r, 'a>(
    trace: &Trace<'_>,
    histories: &'r [History<'a>],
    settled: &'r [Settled<'a>],
    balances: &'r [Balances],
    n: u32,
    least: Option<Fault>,
) -> Option<Fault>
    requires one { 1 ≤ n }
    requires all { AllStandAt trace.now histories.now settled.now balances.now n }
    requires before { JudgedTo trace.now (n - 1) least }
    ensures { JudgedTo trace.now n result }
{
    let replicas = Replicas {
        number: n,
        histories,
        settled,
        balances,
    };
    let first = first_to_commit(histories, n);
    for e in 0..bound(histories.len(), &least) {
        if let Some(fault) = wrong_in(trace, replicas, first, e) {
            return Some(fault);
        }
    }
    least
}

/// How many replicas are left to judge, of this many: those below the one with the fault that was found.
fn bound(count: usize, least: &Option<Fault>) -> usize
    ensures { result ≡ bound_of count least.now }
{
    match least {
        Some(fault) => match fault.replica {
            Some(e) => e as usize,
            None => count,
        },
        None => count,
    }
}

/// What is wrong where replica e reached the number: its outcome is not that of the first that committed the batch, or
/// the state that was transferred to it hasn't the balances of that one.
fn wrong_in(
    trace: &Trace<'_>,
    replicas: Replicas<'_, '_>,
    first: Option<usize>,
    e: usize,
) -> Option<Fault>
    requires one { 1 ≤ replicas.number }
    requires there { e < length trace.now.sections }
    requires all { ReplicasStandAt trace.now replicas }
    requires first { first ≡ first_to_commit trace.now replicas.number }
    requires before { AllHaveSame trace.now e (replicas.number - 1) }
    ensures agrees { IfNone result (AgreesIn trace.now e replicas.entry.number) }
    ensures apart { IfSome result (IsApart trace.now e replicas.entry.number) }
{
    numbers_are_reached();
    let history = replica_at(trace, replicas, e).history;
    if has_committed(history, replicas.number) {
        if has_outcome_of(trace, replicas, first, e) {
            return None;
        }
        let attempt = committed_attempt(history, replicas.number);
        return Some(fault_at(Code::Outcome, attempt.offset(), history.replica()));
    }
    let Some(state) = transferred_state(history, replicas.number) else {
        return None;
    };
    let same = has_balances_of(trace, replicas, first, e);
    if same {
        return None;
    }
    Some(fault_at(Code::TransferBalances, state.offset(), history.replica()))
}

/// Whether the attempt by which replica e committed the batch has the outcome of the first that committed it: the same
/// replies, and the same balances after it. Those after the batch before are the same.
/// Decides F80 Outcome.
fn has_outcome_of(
    trace: &Trace<'_>,
    replicas: Replicas<'_, '_>,
    first: Option<usize>,
    e: usize,
) -> bool
    requires one { 1 ≤ replicas.number }
    requires committed { HasCommitted trace.now e replicas.number }
    requires all { ReplicasStandAt trace.now replicas }
    requires first { first ≡ first_to_commit trace.now replicas.number }
    requires before { AllHaveSame trace.now e (replicas.number - 1) }
    ensures { IsTrue result ↔ IfSome (first_to_commit trace.now replicas.entry.number)
        (λ f. HaveSameOutcome trace.now e f replicas.entry.number) }
{
    let Some(f) = first else {
        return true;
    };
    if f == e {
        return true;
    }
    let n = replicas.number;
    let own = replica_at(trace, replicas, e);
    let its = replica_at(trace, replicas, f);
    let attempt = committed_attempt(own.history, n);
    let other = committed_attempt(its.history, n);
    let replies = have_same_replies(&attempt, &other);
    replies && have_same_balances(own, its, n, true)
}

/// Whether the balances of replica e are those of the first that committed the batch; no others are where none did.
/// Decides F81 TransferBalances.
fn has_balances_of(
    trace: &Trace<'_>,
    replicas: Replicas<'_, '_>,
    first: Option<usize>,
    e: usize,
) -> bool
    requires there { e < length trace.now.sections }
    requires all { ReplicasStandAt trace.now replicas }
    requires first { first ≡ first_to_commit trace.now replicas.number }
    ensures { IsTrue result ↔ ((f : ℕ) × (first_to_commit trace.now replicas.entry.number ≡ Some f)
        × (balances_to trace.now e replicas.entry.number ≡ balances_to trace.now f replicas.entry.number)) }
{
    match first {
        Some(f) => {
            let own = replica_at(trace, replicas, e);
            let its = replica_at(trace, replicas, f);
            are_same(own.balances, its.balances)
        }
        None => false,
    }
}

/// Whether all balances are the same.
fn are_same(balances: &Balances, others: &Balances) -> bool
    ensures { IsTrue result ↔ (balances.now ≡ others.now) }
{
    balances.as_slice() == others.as_slice()
}

/// The fault of a replica at an offset.
fn fault_at(code: Code, offset: u64, replica: u8) -> Fault
    ensures { result ≡ record { code = code; offset = offset; replica = Some replica } }
{
    Fault {
        code,
        offset,
        replica: Some(replica),
    }
}

/// The number of the first replica that committed batch n, if one did.
fn first_to_commit(histories: &[History<'_>], n: u32) -> Option<usize>
    ensures is { (t : TraceValue) → histories.now ≡ section_histories t → result ≡ first_to_commit t n }
    ensures there { IfSome result (λ f. (h : SectionHistory) × (slice_get histories.now f ≡ Some h)
        × IsTrue (is_some (told_at h n))) }
    ensures before { IfSome result (λ f. NoneBefore histories.now n f) }
    ensures none { IfNone result (NoneBefore histories.now n (length histories.now)) }
{
    for e in 0..histories.len() {
        if has_committed(&histories[e], n) {
            return Some(e);
        }
    }
    None
}

/// Whether a replica committed batch n, of the batches from 1 on, by an attempt.
///
/// docs/MODEL.md, "Section state, fate". It says no of 0, and of a number that the replica reached by a state.
pub fn has_committed(history: &History<'_>, n: u32) -> bool
    ensures { result ≡ is_some (told_at history.now n) }
{
    1 <= n && n <= history.committed() && history.by_attempt(n)
}

/// The attempt by which a replica committed batch n, which `has_committed` tests.
///
/// docs/MODEL.md, "Section state, fate".
pub fn committed_attempt<'a>(history: &History<'a>, n: u32) -> AttemptView<'a>
    requires there { IsTrue (is_some (told_at history.now n)) }
    ensures { (r : ExecutedAttempt) × (told_at history.now n ≡ Some r) × (result.offset ≡ r.offset)
        × (attempt_decoded result ≡ r.attempt) }
{
    history.attempt(history.committed_attempt(n))
}

/// The state by which a replica reached number n; None where no transfer reached it.
///
/// docs/MODEL.md, "Section state, fate".
pub fn transferred_state<'a>(history: &History<'a>, n: u32) -> Option<TransferView<'a>>
    ensures some { IfSome result (λ x. told_state_at history.now n ≡ Some (x.offset, transfer_decoded x)) }
    ensures none { IfNone result (told_state_at history.now n ≡ None) }
{
    if n == 0 || history.committed() < n {
        return None;
    }
    match history.how_reached(n) {
        HowReached::Attempt(_) => None,
        HowReached::Transfer(i) => Some(history.transfer(i as usize)),
        HowReached::Skipped => None,
    }
}

/// Whether two attempts have the same replies, by request index.
pub(crate) fn have_same_replies(attempt: &AttemptView<'_>, other: &AttemptView<'_>) -> bool
    ensures { IsTrue result ↔ ((attempt_decoded attempt.now).replies ≡ (attempt_decoded other.now).replies) }
{
    recall_replies(attempt.bytes());
    recall_replies(other.bytes());
    is_same_text(attempt.reply_bytes(), other.reply_bytes())
}

/// What is true of each Attempt frame: its replies fit.
pub(crate) fn recall_replies(frame: &[u8])
    requires { IsTrue (has_attempt_body frame.now) }
    ensures { IsTrue (list_all is_reply (attempt_in frame.now).replies) }
{
    frames_say_what_fits();
}

/// Whether two texts are the same.
fn is_same_text(own: &[u8], its: &[u8]) -> bool
    ensures { IsTrue result ↔ (own.now ≡ its.now) }
{
    own == its
}
