//! The evidence of a token that isn't due.

ghost use Rattle.std.specs.Prelude.{◌≡◌, ◌≤◌, IfOk, IfSome, IfNone, length};
ghost use Rattle.eve_frames.specs.Decoded.{attempt_decoded};
ghost use Rattle.eve_views.specs.declared.fault.Code.TheVariants as code;
ghost use Rattle.eve_history.specs.SectionHistory.{section_history};
ghost use Rattle.eve_chains.specs.CommittedValues.{settling};
ghost use Rattle.eve_agree.specs.DueTokens.{StandsInTokens};
ghost use Rattle.eve_agree.specs.inner.Stretches.{AreOfSection};
ghost use Rattle.eve_evidence_outcomes.specs.Token.{TellsToken, IsDueAt};

use crate::committed::committed_attempt;
use crate::matched::{rows_after, token_match};
use eve_chains::Settled;
use eve_evidence::{Evidence, told_attempt};
use eve_frames::AttemptView;
use eve_history::History;
use eve_history::laws::numbers_are_reached;
use eve_smallbank::Reply;
use eve_views::Trace;
use std::alloc::{AllocError, Global};

/// The replies of an attempt, by request index.
fn replies_of(alloc: Global, attempt: &AttemptView<'_>) -> Result<Vec<Reply>, AllocError>
    ensures { IfOk result (λ replies. replies.items ≡ (attempt_decoded attempt.now).replies) }
{
    let count = attempt.len();
    let mut replies = Vec::with_capacity(alloc, count)?;
    for i in 0..count {
        replies.push(attempt.reply(i))?;
    }
    Ok(replies)
}

/// The token of batch n, if the attempt by which the replica committed it begins at this byte and its token isn't due.
fn at_number<'a>(
    alloc: Global,
    trace: &Trace<'a>,
    history: &History<'a>,
    settled: &Settled<'_>,
    n: u32,
    place: u64,
) -> Result<Option<Evidence<'a>>, AllocError>
    requires section { AreOfSection trace.now history.now settled.now }
    requires there { n ≤ length settled.now.numbers }
    ensures told { IfOk result (λ x. IfSome x (TellsToken trace.now history.now.replica place)) }
    ensures none { IfOk result (λ x. IfNone x (IsDueAt trace.now history.now.replica place n)) }
{
    numbers_are_reached();
    trace.recall_limits();
    history.recall_right();
    let Some(attempt) = committed_attempt(history, n) else {
        return Ok(None);
    };
    if attempt.offset() != place {
        return Ok(None);
    }
    let replies = replies_of(alloc, &attempt)?;
    let mut after = rows_after(alloc, trace, history, settled, n)?;
    let due = after.token(attempt.seq(), &replies);
    let found = attempt.token();
    if found == due.as_slice() {
        return Ok(None);
    }
    let mut before = rows_after(alloc, trace, history, settled, n - 1)?;
    let matches = token_match(alloc, &mut before, &mut after, n, &attempt, &replies)?;
    Ok(Some(Evidence::Token {
        attempt: told_attempt(&attempt),
        found,
        due,
        matches,
    }))
}

/// The evidence of a committed attempt whose token isn't due, by the byte of its frame: the attempt, its token, and the
/// one that is due of the balances after its batch and of its replies.
///
/// docs/MODEL.md, "Due tokens" and "Evidence". The history and what it settled are those of the replica. It takes the
/// balances of all rows before and after the attempt's batch. In version 2 it hashes both once, and the others once
/// more.
pub fn token_evidence<'a>(
    alloc: Global,
    trace: &Trace<'a>,
    history: &History<'a>,
    settled: &Settled<'_>,
    place: u64,
) -> Result<Evidence<'a>, AllocError>
    requires history { history.now ≡ section_history trace.now history.now.replica }
    requires settled { settled.now ≡ settling trace.now history.now.replica }
    requires stands { StandsInTokens code.Token trace.now history.now.replica place }
    ensures told { IfOk result (TellsToken trace.now history.now.replica place) }
{
    for n in 0..settled.committed() {
        match at_number(alloc, trace, history, settled, n + 1, place) {
            Ok(None) => {}
            Ok(Some(found)) => return Ok(found),
            Err(why) => return Err(why),
        }
    }
    unreachable!()
}
