//! What the libraries find of a trace's replicas and verifiers.

ghost use Rattle.std.specs.Prelude.{◌≡◌, ◌<◌, ◌≤◌, length};
ghost use Rattle.eve_history.specs.SectionHistory.{names_of};

use eve_accounts::{Balances, Names};
use eve_agree::equal_balances;
use eve_chains::{Settled, check};
use eve_frames::VoteView;
use eve_grammar::Choice;
use eve_history::{History, HowReached, orders};
use eve_testing::Text;
use eve_views::{CheckFault, Trace};
use eve_votes::Tally;
use std::alloc::Global;
use std::hash::RandomState;
use std::thread::Threads;

/// A replica's attempts, with their fates.
fn push_attempts(text: &mut Text, history: &History) {
    for i in 0..history.attempts() {
        let offset = history.attempt(i).offset();
        text.value("\n  attempt ", i as u64);
        text.value(" at ", offset);
        text.answer(": ", history.fate(i));
    }
}

/// How it reached a number.
fn push_how_reached(text: &mut Text, how_reached: HowReached) {
    match how_reached {
        HowReached::Attempt(i) => text.value(" by attempt ", u64::from(i)),
        HowReached::Transfer(i) => text.value(" by transfer ", u64::from(i)),
        HowReached::Skipped => text.words(" skipped"),
    }
}

/// Whether a number was reached by the commit of this attempt.
fn is_by(how_reached: HowReached, attempt: usize) -> bool {
    match how_reached {
        HowReached::Attempt(i) => i as usize == attempt,
        _ => false,
    }
}

/// How it reached each number up to the last; and that the attempt that it committed is told otherwise, where it is.
fn push_ways_reached(text: &mut Text, history: &History) {
    for n in 0..history.committed() {
        let how_reached = history.how_reached(n + 1);
        text.value("\n  batch ", u64::from(n + 1));
        push_how_reached(text, how_reached);
        if history.by_attempt(n + 1) {
            let alike = is_by(how_reached, history.committed_attempt(n + 1));
            text.words(if alike { "" } else { "(unlike)" });
        }
    }
}

fn push_rollbacks(text: &mut Text, history: &History) {
    for i in 0..history.rollbacks() {
        let offset = history.rollback(i).offset();
        text.value("\n  rollback ", i as u64);
        text.value(" at ", offset);
    }
}

fn push_transfers(text: &mut Text, history: &History) {
    for i in 0..history.transfers() {
        let offset = history.transfer(i).offset();
        text.value("\n  transfer ", i as u64);
        text.value(" at ", offset);
    }
}

/// A replica's attempts with their fates, how it reached its numbers, its rollbacks, and the states that were
/// transferred to it.
fn push_history(text: &mut Text, history: &History) {
    text.value("\n replica ", u64::from(history.replica()));
    text.value(" committed ", u64::from(history.committed()));
    push_attempts(text, history);
    push_ways_reached(text, history);
    push_rollbacks(text, history);
    push_transfers(text, history);
}

/// All balances, in row order, behind their words.
pub fn push_balances(text: &mut Text, words: &str, balances: &Balances) {
    text.words(words);
    for cents in balances.as_slice() {
        text.value(" ", cents.get());
    }
}

/// The balances after the first `n` batches, at once.
fn push_at_once(text: &mut Text, words: &str, alloc: Global, settled: &Settled, n: u32)
    requires { n ≤ length settled.now.numbers }
{
    match settled.balances_after(alloc, n) {
        Ok(balances) => push_balances(text, words, &balances),
        Err(_) => text.refused(),
    }
}

/// The balances after a batch, by one batch from those after the batch before.
fn push_advanced(text: &mut Text, alloc: Global, settled: &Settled, n: u32)
    requires one { 1 ≤ n }
    requires there { n ≤ length settled.now.numbers }
{
    match settled.balances_after(alloc, n - 1) {
        Ok(mut balances) => {
            settled.advance(n, &mut balances);
            push_balances(text, ":", &balances);
        }
        Err(_) => text.refused(),
    }
}

/// The balances at the opening, and after each batch that was committed: by one batch, and at once.
fn push_settled(text: &mut Text, alloc: Global, settled: &Settled) {
    push_at_once(text, "\n  after 0:", alloc, settled, 0);
    for n in 0..settled.committed() {
        text.value("\n  after ", u64::from(n + 1));
        push_advanced(text, alloc, settled, n + 1);
        push_at_once(text, ", at once", alloc, settled, n + 1);
    }
}

/// A replica's history, and, where its records and chains are right, the balances after each batch that it committed.
fn push_replica<R: AllocGlobal + Threads + Sync>(
    text: &mut Text,
    rt: &R,
    trace: &Trace,
    names: &Names,
    e: u8,
) -> Result<(), CheckFault>
    requires there { e < length trace.now.sections }
    requires names { names.now.items ≡ names_of trace.now }
{
    let history = History::of(rt.alloc(), trace, e)?;
    push_history(text, &history);
    let settled = check(rt, rt.alloc(), &history, trace, names, 1)?;
    push_settled(text, rt.alloc(), &settled);
    Ok(())
}

/// How many vote as a vote does, for its token in the next view, for its token of the next batch, and for no token.
fn push_backers(text: &mut Text, tally: &Tally, n: u32, view: u32, token: &[u8; 32]) {
    let its = tally.votes_for(n, view, token);
    let next_view = tally.votes_for(n, view.saturating_add(1), token);
    let next_batch = tally.votes_for(n.saturating_add(1), view, token);
    let none = tally.votes_for(n, view, &[0; 32]);
    text.value("", u64::from(its));
    text.value(" ", u64::from(next_view));
    text.value(" ", u64::from(next_batch));
    text.value(" ", u64::from(none));
    text.words(" ");
}

/// How many vote as a vote does, for its token in the next view, for its token of the next batch, and for no token; and
/// whether the view of its batch is rolled back.
fn push_vote(text: &mut Text, tally: &Tally, view: VoteView) {
    let (n, at) = (view.seq(), view.view());
    text.value("\n  batch ", u64::from(n));
    text.value(" in view ", u64::from(at));
    text.words(": ");
    if let Choice::ForCommit(token) = view.choice() {
        if let Some(token) = token.first_chunk() {
            push_backers(text, tally, n, at, token);
        }
        text.hex("", token);
        text.words(", ");
    }
    text.value("rolled back ", tally.rolled_back(n, at));
}

/// What is decided of a batch.
fn push_decision(text: &mut Text, tally: &Tally, n: u32) {
    text.value("\n batch ", u64::from(n));
    match tally.decided(n) {
        Some(decision) => {
            let token = decision.1;
            text.value(" decided in view ", u64::from(decision.0));
            text.hex(": ", &token);
        }
        None => text.words(" not decided"),
    }
}

/// How many vote as each vote of a verifier does.
fn push_votes(text: &mut Text, tally: &Tally, trace: &Trace, verifier: u8)
    requires { verifier < length trace.now.verifiers }
{
    let votes = trace.votes(verifier);
    for i in 0..votes.len() {
        push_vote(text, tally, votes.get(i));
    }
}

/// What is decided of each batch, and how many vote as each vote does.
fn push_tallied(text: &mut Text, tally: &Tally, trace: &Trace) {
    for n in 0..trace.batch_count().saturating_add(2) {
        push_decision(text, tally, n);
    }
    for verifier in 0..trace.verifier_count() {
        push_votes(text, tally, trace, verifier);
    }
}

fn push_tally(text: &mut Text, alloc: Global, trace: &Trace) -> Result<(), CheckFault> {
    let tally = Tally::of(alloc, trace)?;
    push_tallied(text, &tally, trace);
    Ok(())
}

/// What two replicas come to together, each of which is right by itself.
fn agreement_of_two<R: AllocGlobal + Threads + Sync>(
    rt: &R,
    trace: &Trace,
    names: &Names,
) -> Result<(), CheckFault>
    requires two { length trace.now.sections ≡ 2 }
    requires names { names.now.items ≡ names_of trace.now }
{
    let first = History::of(rt.alloc(), trace, 0)?;
    let second = History::of(rt.alloc(), trace, 1)?;
    let one = check(rt, rt.alloc(), &first, trace, names, 1)?;
    let other = check(rt, rt.alloc(), &second, trace, names, 1)?;
    equal_balances(rt.alloc(), trace, &[first, second], &[one, other])
}

/// What the replicas of a trace with two come to together.
pub fn agreement<R: AllocGlobal + Threads + Sync>(
    rt: &R,
    bytes: &[u8],
    random: RandomState,
) -> Result<(), CheckFault> {
    let trace = Trace::read(rt.alloc(), bytes)?;
    let names = orders(rt.alloc(), &trace, random)?;
    trace.recall_limits();
    if trace.section_count() != 2 {
        return Ok(());
    }
    agreement_of_two(rt, &trace, &names)
}

/// What each replica did and committed, and what the verifiers decided.
pub fn push_findings<R: AllocGlobal + Threads + Sync>(
    text: &mut Text,
    rt: &R,
    trace: &Trace,
    names: &Names,
) -> Result<(), CheckFault>
    requires { names.now.items ≡ names_of trace.now }
{
    trace.recall_limits();
    for e in 0..trace.section_count() {
        push_replica(text, rt, trace, names, e)?;
    }
    push_tally(text, rt.alloc(), trace)
}
