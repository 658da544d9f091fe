//! The faults of tokens, judged beside a replica whose tokens are due.

ghost use Rattle.std.specs.Prelude.{◌≡◌, ◌≤◌, ◌-◌, IsTrue, IfOk, IfErr, length};
ghost use Rattle.eve_views.specs.Form.{IfFound, IsLeast, HasNone, IsFaultIn};
ghost use Rattle.eve_history.specs.SectionHistory.{section_history};
ghost use Rattle.eve_chains.specs.CommittedValues.{settling, HaveSameBalances};
ghost use Rattle.eve_agree.specs.DueTokens.{TokensAreDue, IsDueIn, IsFirstWrong, StandsInTokens};
ghost use Rattle.eve_agree.specs.inner.HashedRows.{balances_in};
ghost use Rattle.eve_agree.specs.inner.NumbersJudged.{IsAfter};
ghost use Rattle.eve_agree.specs.ShownTokens.{IsDueReplica};
ghost use Rattle.eve_agree.specs.inner.Stretches.{AreOfSection};

use crate::agreement::{advance, committed_attempt, has_committed, have_same_replies};
use crate::due_tokens::{answer, wrong_of};
use crate::hashed_rows::HashedRows;
use crate::replica::{Replica, have_same_balances};
use eve_accounts::Balances;
use eve_chains::Settled;
use eve_chains::laws::settled_values_are_the_banks;
use eve_grammar::laws::right_heads_have_limits;
use eve_history::{History, HowReached};
use eve_views::{CheckFault, Trace};
use std::alloc::{AllocError, Global};

/// Another replica of the same trace, beside which a replica's tokens are judged.
#[derive(Clone, Copy)]
pub struct Peer<'b, 'a> {
    /// What its section tells.
    pub history: &'b History<'a>,
    /// What its committed batches wrote.
    pub settled: &'b Settled<'a>,
}

/// The replica whose tokens are judged.
#[derive(Clone, Copy)]
struct Judged<'b, 'a> {
    /// What its section tells.
    history: &'b History<'a>,
    /// What its committed batches wrote.
    settled: &'b Settled<'a>,
}

/// Whether the peer shows the token of batch n, from 1, to be due: it committed the batch too, with that token and
/// those replies, and the balances after it are the same. `before` says that those after the batch before are known
/// to be. Where they aren't, version 1 compares all balances, which takes less than to hash them all; from version 2 on
/// a token may take less than that, and nothing is shown.
fn is_shown(
    trace: &Trace<'_>,
    own: Replica<'_, '_>,
    peer: Replica<'_, '_>,
    n: u32,
    before: bool,
) -> bool
    requires own { AreOfSection trace.now own.history.now own.settled.now }
    requires peer { IsDueReplica trace.now peer.history.now peer.settled.now }
    requires one { 1 ≤ n }
    requires after { IsAfter own.settled.now n own.balances.now }
    requires peers_after { IsAfter peer.settled.now n peer.balances.now }
    requires before { IsTrue before → HaveSameBalances own.settled.now peer.settled.now (n - 1) }
    ensures due { IsTrue result → IsDueIn trace.now own.entry.history.now.replica n }
    ensures same { IsTrue result → HaveSameBalances own.entry.settled.now peer.entry.settled.now n }
{
    trace.recall_limits();
    own.history.recall_right();
    peer.history.recall_right();
    settled_values_are_the_banks();
    if !before && trace.head().version != 1 {
        return false;
    }
    if !has_committed(own.history, n) || !has_committed(peer.history, n) {
        return false;
    }
    let attempt = committed_attempt(own.history, n);
    let other = committed_attempt(peer.history, n);
    let token = attempt.token() == other.token();
    let replies = have_same_replies(&attempt, &other);
    token && replies && have_same_balances(own, peer, n, before)
}

/// The offset of the attempt of batch n, from 1, if the replica committed one and its token is not the one that is due.
fn wrong_beside(
    alloc: Global,
    trace: &Trace<'_>,
    history: &History<'_>,
    settled: &Settled<'_>,
    n: u32,
    rows: &mut HashedRows,
) -> Result<Option<u64>, AllocError>
    requires section { AreOfSection trace.now history.now settled.now }
    requires one { 1 ≤ n }
    requires after { IsAfter settled.now n (balances_in rows.old) }
    ensures wrong { IfOk result (IsFirstWrong trace.now history.now.replica (n - 1) n) }
    ensures same { balances_in rows.new ≡ balances_in rows.old }
{
    if !has_committed(history, n) {
        return Ok(None);
    }
    trace.recall_limits();
    right_heads_have_limits();
    rows.grow(alloc, trace.head().version)?;
    Ok(wrong_of(trace, history, settled, n, rows))
}

/// Whether the replica had a state transferred at number n.
fn was_transferred(history: &History<'_>, n: u32) -> bool
    requires { 1 ≤ n }
{
    if history.committed() < n {
        return false;
    }
    match history.how_reached(n) {
        HowReached::Attempt(_) => false,
        HowReached::Transfer(_) => true,
        HowReached::Skipped => false,
    }
}

/// Whether the balances of both after number n, from 1, are known to be the same: the peer shows the token there, or
/// one of both had a state transferred, which is as long as what is compared, and they are.
fn are_known_same(own: Replica<'_, '_>, peer: Replica<'_, '_>, n: u32, shown: bool) -> bool
    requires one { 1 ≤ n }
    requires there { n ≤ length own.settled.now.numbers }
    requires after { IsAfter own.settled.now n own.balances.now }
    requires peers_after { IsAfter peer.settled.now n peer.balances.now }
    requires shown { IsTrue shown → HaveSameBalances own.settled.now peer.settled.now n }
    ensures { IsTrue result → HaveSameBalances own.entry.settled.now peer.entry.settled.now n }
{
    if shown {
        return true;
    }
    if peer.settled.committed() < n {
        return false;
    }
    if !was_transferred(own.history, n) && !was_transferred(peer.history, n) {
        return false;
    }
    have_same_balances(own, peer, n, false)
}

/// The offset of the first of a replica's attempts with a token that is not due, of all its committed batches, from the
/// opening balances of both replicas. Where the peer shows a token to be due nothing is hashed.
fn first_wrong_beside(
    alloc: Global,
    trace: &Trace<'_>,
    judged: Judged<'_, '_>,
    peer: Peer<'_, '_>,
    rows: &mut HashedRows,
    others: &mut Balances,
) -> Result<Option<u64>, AllocError>
    requires judged { AreOfSection trace.now judged.history.now judged.settled.now }
    requires peer { IsDueReplica trace.now peer.history.now peer.settled.now }
    requires balances { IsAfter judged.settled.now 0 (balances_in rows.old) }
    requires others { IsAfter peer.settled.now 0 others.old }
    ensures { IfOk result (IsFirstWrong trace.now judged.entry.history.now.replica 0
        (length judged.entry.settled.now.numbers)) }
{
    let Judged { history, settled } = judged;
    let mut same = true;
    for n in 0..settled.committed() {
        rows.advance(settled, n + 1);
        advance(peer.settled, n + 1, others);
        let own = Replica {
            history,
            settled,
            balances: rows.balances(),
        };
        let its = Replica {
            history: peer.history,
            settled: peer.settled,
            balances: others,
        };
        let shown = is_shown(trace, own, its, n + 1, same);
        same = are_known_same(own, its, n + 1, shown);
        if !shown {
            let wrong = wrong_beside(alloc, trace, history, settled, n + 1, rows)?;
            if wrong.is_some() {
                return Ok(wrong);
            }
        }
    }
    Ok(None)
}

/// The offset of the first of a replica's attempts with a token that is not due, of all its committed batches.
fn first_beside<'b, 'a>(
    alloc: Global,
    trace: &Trace<'_>,
    history: &'b History<'a>,
    settled: &'b Settled<'a>,
    peer: Peer<'_, '_>,
) -> Result<Option<u64>, AllocError>
    requires section { AreOfSection trace.now history.now settled.now }
    requires peer { IsDueReplica trace.now peer.history.now peer.settled.now }
    ensures { IfOk result (IsFirstWrong trace.now history.now.replica 0 (length settled.now.numbers)) }
{
    let mut rows = HashedRows::Plain(settled.balances_after(alloc, 0)?);
    let mut others = peer.settled.balances_after(alloc, 0)?;
    let judged = Judged { history, settled };
    first_wrong_beside(alloc, trace, judged, peer, &mut rows, &mut others)
}

/// Judges the tokens of a replica's committed attempts, as `tokens` does, beside another replica whose tokens are due:
/// each is that of the balances after its batch and of its replies; else `Found`, the first that is not.
///
/// docs/MODEL.md, "Due tokens"; docs/TRACE.md, "Token" and "Merkle token". A batch that both committed with one token,
/// the same replies and the same balances after it has its due token here as it has there, and nothing of it is hashed;
/// every other batch's balances are hashed, as `tokens` hashes them. It keeps the balances of both replicas and goes
/// with them from batch to batch, in one thread: after such a batch it is enough to compare of them what the next one
/// wrote. After another batch version 1 compares all balances at the next one that both committed alike. In version 2
/// they are hashed from there on, until one of both has a state transferred: there all balances are compared, which are
/// no more than the state has. Refused memory decides nothing.
pub fn tokens_beside(
    alloc: Global,
    trace: &Trace<'_>,
    history: &History<'_>,
    settled: &Settled<'_>,
    peer: Peer<'_, '_>,
) -> Result<(), CheckFault>
    requires history { history.now ≡ section_history trace.now history.now.replica }
    requires settled { settled.now ≡ settling trace.now history.now.replica }
    requires peer { IsDueReplica trace.now peer.history.now peer.settled.now }
    ensures due { IfOk result (λ _. TokensAreDue trace.now history.now.replica) }
    ensures none { IfOk result (λ _. HasNone (IsFaultIn StandsInTokens trace.now history.now.replica)) }
    ensures least { IfErr result (λ why. IfFound why
        (IsLeast (IsFaultIn StandsInTokens trace.now history.now.replica))) }
{
    // lent again, both for equally long
    let wrong = first_beside(alloc, trace, &*history, &*settled, peer)?;
    answer(trace, history, settled, wrong)
}
