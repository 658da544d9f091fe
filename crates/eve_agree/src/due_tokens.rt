//! The faults of tokens.

ghost use Rattle.std.specs.Prelude.{◌≡◌, ◌≤◌, ◌<◌, ◌-◌, ◌↔◌, ℕ, All, IsTrue, OnOk, IfOk, IfErr, length};
ghost use Rattle.std.specs.Prelude.{slice_index_or};
ghost use Rattle.std.specs.Option.{is_some};
ghost use Rattle.eve_frames.specs.Decoded.{attempt_decoded};
ghost use Rattle.eve_token.specs.Token.{token_of};
ghost use Rattle.eve_views.specs.Form.{IfFound, IsLeast, HasNone, IsFaultIn};
ghost use Rattle.eve_history.specs.SectionHistory.{section_history};
ghost use Rattle.eve_chains.specs.CommittedValues.{settling};
ghost use Rattle.eve_agree.specs.ByNumber.{told_at};
ghost use Rattle.eve_agree.specs.DueTokens.{TokensAreDue, IsFirstWrong, StandsInTokens};
ghost use Rattle.eve_agree.specs.inner.HashedRows.{balances_in, can_hash};
ghost use Rattle.eve_agree.specs.inner.NumbersJudged.{IsAfter};
ghost use Rattle.eve_agree.specs.inner.Stretches.{AreOfSection, IsComingStretch, IsReadyStretch, IsJudgedStretch};
ghost use Rattle.eve_agree.specs.inner.Stretches.{AreReadyStretches, first_found};
ghost use Rattle.eve_agree.specs.declared.due_tokens.Stretch.{Stretch as StretchValue};

use crate::agreement::{committed_attempt, has_committed};
use crate::hashed_rows::HashedRows;
use eve_chains::Settled;
use eve_chains::laws::settled_values_are_the_banks;
use eve_frames::AttemptView;
use eve_grammar::laws::right_heads_have_limits;
use eve_history::History;
use eve_views::{CheckFault, Code, Fault, Trace};
use std::alloc::{AllocError, Global};
use std::thread;
use std::thread::Threads;

/// The fewest batches of a stretch but the last.
const LEAST_BATCHES: u32 = 16;

/// In version 2, how many rows a stretch's tree may have for each request of the replica's attempts that falls to the
/// stretch: what its tree takes at first is then at most about half of what its tokens take.
const ROWS_A_REQUEST: usize = 4;

/// Whether the attempt has the version's token of these balances and of its replies.
/// Decides F60 Token.
fn is_due(attempt: &AttemptView<'_>, version: u16, rows: &mut HashedRows) -> bool
    requires can { IsTrue (can_hash version rows.old) }
    ensures due { IsTrue result ↔ ((attempt_decoded attempt.now).token
        ≡ token_of version (attempt_decoded attempt.now).seq (balances_in rows.old)
        (attempt_decoded attempt.now).replies) }
    ensures same { rows.new ≡ rows.old }
{
    let due = rows.token(version, attempt.seq(), attempt.reply_bytes());
    attempt.token() == due.as_slice()
}

/// Committed batches of a replica one after another, to be judged by themselves.
#[derive(Drop)]
struct Stretch {
    /// How many batches stand before them.
    before: u32,
    /// The number of the last of them.
    last: u32,
    /// The balances before them; once they were judged, those after what was judged.
    rows: HashedRows,
    /// Once they were judged, the offset of the first attempt that has not the token that is due.
    wrong: Option<u64>,
}

/// The offset of the attempt by which the replica committed batch n, if its token is not the one that is due of the
/// balances after it.
pub(crate) fn wrong_of(
    trace: &Trace<'_>,
    history: &History<'_>,
    settled: &Settled<'_>,
    n: u32,
    rows: &mut HashedRows,
) -> Option<u64>
    requires section { AreOfSection trace.now history.now settled.now }
    requires one { 1 ≤ n }
    requires there { IsTrue (is_some (told_at history.now n)) }
    requires after { IsAfter settled.now n (balances_in rows.old) }
    requires can { IsTrue (can_hash trace.now.head.version rows.old) }
    ensures wrong { IsFirstWrong trace.now history.now.replica (n - 1) n result }
    ensures same { rows.new ≡ rows.old }
{
    trace.recall_limits();
    history.recall_right();
    settled_values_are_the_banks();
    let attempt = committed_attempt(history, n);
    if is_due(&attempt, trace.head().version, rows) {
        return None;
    }
    Some(attempt.offset())
}

/// The same of batch n, from 1, if the replica committed one.
fn wrong_at(
    trace: &Trace<'_>,
    history: &History<'_>,
    settled: &Settled<'_>,
    n: u32,
    rows: &mut HashedRows,
) -> Option<u64>
    requires section { AreOfSection trace.now history.now settled.now }
    requires one { 1 ≤ n }
    requires after { IsAfter settled.now n (balances_in rows.old) }
    requires can { IsTrue (can_hash trace.now.head.version rows.old) }
    ensures wrong { IsFirstWrong trace.now history.now.replica (n - 1) n result }
    ensures same { rows.new ≡ rows.old }
{
    if !has_committed(history, n) {
        return None;
    }
    wrong_of(trace, history, settled, n, rows)
}

/// The offset of the first of a replica's attempts with a token that is not due, of the batches after the first
/// `before` up to the last.
#[tactic(auto, using(crate::proofs::JoinedStretches::one_more, crate::proofs::JoinedStretches::wrong_first))]
fn first_wrong(
    trace: &Trace<'_>,
    history: &History<'_>,
    settled: &Settled<'_>,
    before: u32,
    last: u32,
    rows: &mut HashedRows,
) -> Option<u64>
    requires section { AreOfSection trace.now history.now settled.now }
    requires there { last ≤ length settled.now.numbers }
    requires balances { IsAfter settled.now before (balances_in rows.old) }
    requires can { IsTrue (can_hash trace.now.head.version rows.old) }
    ensures { IsFirstWrong trace.now history.now.replica before last result }
{
    for n in before..last {
        rows.advance(settled, n + 1);
        let wrong = wrong_at(trace, history, settled, n + 1, rows);
        if wrong.is_some() {
            return wrong;
        }
    }
    None
}

/// Judges a stretch, from the balances that the batches before it leave.
fn judge(trace: &Trace<'_>, history: &History<'_>, settled: &Settled<'_>, stretch: &mut Stretch)
    requires section { AreOfSection trace.now history.now settled.now }
    requires ready { IsReadyStretch trace.now.head.version settled.now stretch.old }
    ensures { IsJudgedStretch trace.now history.now.replica stretch.old stretch.new }
{
    stretch.wrong = first_wrong(
        trace,
        history,
        settled,
        stretch.before,
        stretch.last,
        &mut stretch.rows,
    );
}

/// Gives a stretch what its tokens are hashed of, and appends it to those that it follows.
fn append(
    alloc: Global,
    trace: &Trace<'_>,
    settled: &Settled<'_>,
    stretch: Stretch,
    stretches: &mut Vec<Stretch>,
) -> Result<(), AllocError>
    requires some { 0 < length settled.now.opening }
    requires stretch { IsComingStretch settled.now stretch }
    requires ready { AreReadyStretches trace.now.head.version settled.now stretch.before stretches.old.items }
    ensures { OnOk result (AreReadyStretches trace.now.head.version settled.now stretch.last stretches.new.items) }
{
    let mut stretch = stretch;
    stretch.rows.grow(alloc, trace.head().version)?;
    stretches.push(stretch)?;
    Ok(())
}

/// Goes on with a stretch to a later start: the batches up to there are left out.
fn start_at(settled: &Settled<'_>, before: u32, rest: &mut Stretch)
    requires later { rest.old.before ≤ before }
    requires there { before ≤ rest.old.last }
    requires rest { IsComingStretch settled.now rest.old }
    ensures before { rest.new.before ≡ before }
    ensures last { rest.new.last ≡ rest.old.last }
    ensures rest { IsComingStretch settled.now rest.new }
{
    for n in rest.before..before {
        rest.rows.advance(settled, n + 1);
    }
    rest.before = before;
}

/// Cuts the given number of batches off the stretch that is still to come, where it has more: they are appended.
fn cut_off(
    alloc: Global,
    trace: &Trace<'_>,
    settled: &Settled<'_>,
    size: u32,
    rest: &mut Stretch,
    stretches: &mut Vec<Stretch>,
) -> Result<(), AllocError>
    requires some { 0 < length settled.now.opening }
    requires last { rest.old.last ≡ length settled.now.numbers }
    requires rest { IsComingStretch settled.now rest.old }
    requires ready { AreReadyStretches trace.now.head.version settled.now rest.old.before stretches.old.items }
    ensures last { rest.new.last ≡ rest.old.last }
    ensures rest { OnOk result (IsComingStretch settled.now rest.new) }
    ensures ready { OnOk result (AreReadyStretches trace.now.head.version settled.now rest.new.before
        stretches.new.items) }
{
    if rest.last - rest.before <= size {
        return Ok(());
    }
    let first = Stretch {
        before: rest.before,
        last: rest.before + size,
        rows: HashedRows::Plain(rest.rows.balances().copy(alloc)?),
        wrong: None,
    };
    start_at(settled, first.last, rest);
    append(alloc, trace, settled, first, stretches)
}

/// How many requests the replica's attempts have, by which stretches are cut: no clause says it.
fn requests_of(history: &History<'_>) -> usize {
    let mut requests: usize = 0;
    for i in 0..history.attempts() {
        requests = requests.saturating_add(history.attempt(i).len());
    }
    requests
}

/// How many stretches there may be: as many as there are jobs, and in version 2 no more than pay for a tree each.
fn most_stretches(version: u16, history: &History<'_>, rows: usize, jobs: u8) -> u8
    requires { 1 ≤ jobs }
    ensures { 1 ≤ result }
{
    if version == 1 {
        return jobs;
    }
    let paid = requests_of(history).saturating_mul(ROWS_A_REQUEST) / rows.max(1);
    paid.min(jobs as usize).max(1) as u8
}

/// Cuts a replica's numbers into at most that many stretches, all but the last of one length: one pass over what the
/// numbers changed gives each the balances before it.
fn cut(
    alloc: Global,
    trace: &Trace<'_>,
    history: &History<'_>,
    settled: &Settled<'_>,
    jobs: u8,
) -> Result<Vec<Stretch>, AllocError>
    requires some { 0 < length settled.now.opening }
    requires jobs { 1 ≤ jobs }
    ensures { IfOk result (λ stretches.
        AreReadyStretches trace.now.head.version settled.now (length settled.now.numbers) stretches.items) }
{
    let last = settled.committed();
    let balances = settled.balances_after(alloc, 0)?;
    let most = most_stretches(trace.head().version, history, balances.len(), jobs);
    let size = last.div_ceil(u32::from(most)).max(LEAST_BATCHES);
    let mut stretches = Vec::new(alloc);
    let mut rest = Stretch {
        before: 0,
        last,
        rows: HashedRows::Plain(balances),
        wrong: None,
    };
    for _ in 1..most {
        cut_off(alloc, trace, settled, size, &mut rest, &mut stretches)?;
    }
    append(alloc, trace, settled, rest, &mut stretches)?;
    Ok(stretches)
}

/// Judges the stretches, up to the given number of them side by side.
fn judge_all<R: Threads + Sync>(
    rt: &R,
    trace: &Trace<'_>,
    history: &History<'_>,
    settled: &Settled<'_>,
    stretches: &mut [Stretch],
    jobs: u8,
)
    requires some { 1 ≤ jobs }
    requires section { AreOfSection trace.now history.now settled.now }
    requires ready { All (IsReadyStretch trace.now.head.version settled.now) stretches.old }
    ensures len { length stretches.new ≡ length stretches.old }
    ensures judged { (i : ℕ) (d : StretchValue) → i < length stretches.old
        → IsJudgedStretch trace.now history.now.replica (slice_index_or stretches.old i d)
        (slice_index_or stretches.new i d) }
{
    thread::for_each_mut(
        rt,
        stretches,
        jobs as usize,
        &|_: usize, stretch: &mut Stretch|
            requires { AreOfSection trace.now history.now settled.now
                × IsReadyStretch trace.now.head.version settled.now stretch.old }
            ensures { IsJudgedStretch trace.entry.now history.entry.now.replica stretch.old stretch.new }
        { judge(trace, history, settled, stretch) },
    );
}

/// The first that was found in stretches that follow one another.
fn first_of_all(stretches: &[Stretch]) -> Option<u64>
    ensures { result ≡ first_found stretches.now }
{
    for stretch in stretches {
        if let Some(offset) = stretch.wrong {
            return Some(offset);
        }
    }
    None
}

/// The offset of the first of a replica's attempts with a token that is not due, of all its committed batches.
fn first_in<R: Threads + Sync>(
    rt: &R,
    alloc: Global,
    trace: &Trace<'_>,
    history: &History<'_>,
    settled: &Settled<'_>,
    jobs: u8,
) -> Result<Option<u64>, AllocError>
    requires section { AreOfSection trace.now history.now settled.now }
    requires some { 1 ≤ jobs }
    ensures { IfOk result (IsFirstWrong trace.now history.now.replica 0 (length settled.now.numbers)) }
{
    trace.recall_limits();
    right_heads_have_limits();
    let mut stretches = cut(alloc, trace, history, settled, jobs)?;
    judge_all(rt, trace, history, settled, stretches.as_mut_slice(), jobs);
    Ok(first_of_all(&stretches))
}

/// What is answered of a replica's tokens, of the offset of the first of its attempts with a token that is not due.
pub(crate) fn answer(
    trace: &Trace<'_>,
    history: &History<'_>,
    settled: &Settled<'_>,
    wrong: Option<u64>,
) -> Result<(), CheckFault>
    requires section { AreOfSection trace.now history.now settled.now }
    requires wrong { IsFirstWrong trace.now history.now.replica 0 (length settled.now.numbers) wrong }
    ensures due { IfOk result (λ _. TokensAreDue trace.now history.now.replica) }
    ensures none { IfOk result (λ _. HasNone (IsFaultIn StandsInTokens trace.now history.now.replica)) }
    ensures least { IfErr result (λ why. IfFound why
        (IsLeast (IsFaultIn StandsInTokens trace.now history.now.replica))) }
{
    match wrong {
        Some(offset) => Err(CheckFault::Found(Fault {
            code: Code::Token,
            offset,
            replica: Some(history.replica()),
        })),
        None => Ok(()),
    }
}

/// Judges the tokens of a replica's committed attempts: each is that of the balances after its batch and of its
/// replies; else `Found`, the first that is not.
///
/// docs/MODEL.md, "Due tokens"; docs/TRACE.md, "Token" and "Merkle token". In version 1 it hashes each batch's balances
/// once, in version 2 what the batch changed of a tree over them. The batches are cut into as many stretches as there
/// are jobs at most, from 1 on, and judged in as many threads; of one job none is started. In version 2 there are no
/// more than pay for the tree that each begins with. Each thread has balances of its own: one pass over what the
/// batches changed copies them where a stretch begins. What is found doesn't depend on which ends first.
/// `tokens_beside`, which is lent another replica whose tokens are due, hashes less. Refused memory decides nothing.
pub fn tokens<R: Threads + Sync>(
    rt: &R,
    alloc: Global,
    trace: &Trace<'_>,
    history: &History<'_>,
    settled: &Settled<'_>,
    jobs: u8,
) -> Result<(), CheckFault>
    requires history { history.now ≡ section_history trace.now history.now.replica }
    requires settled { settled.now ≡ settling trace.now history.now.replica }
    requires some { 1 ≤ jobs }
    ensures due { IfOk result (λ _. TokensAreDue trace.now history.now.replica) }
    ensures none { IfOk result (λ _. HasNone (IsFaultIn StandsInTokens trace.now history.now.replica)) }
    ensures least { IfErr result (λ why. IfFound why
        (IsLeast (IsFaultIn StandsInTokens trace.now history.now.replica))) }
{
    let wrong = first_in(rt, alloc, trace, history, settled, jobs)?;
    answer(trace, history, settled, wrong)
}
