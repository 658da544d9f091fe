//! Of what a token is made that isn't due.

ghost use Rattle.std.specs.Prelude.{◌≡◌, ◌≢◌, ◌<◌, ◌≤◌, ◌+◌, ◌-◌, ◌^◌, ◌⊎◌, IfOk, IsTrue, IsFalse, Some, length};
ghost use Rattle.std.specs.Prelude.{slice_get};
ghost use Rattle.eve_frames.specs.Decoded.{attempt_decoded};
ghost use Rattle.eve_chains.specs.Committed.{balances_to};
ghost use Rattle.eve_agree.specs.inner.Stretches.{AreOfSection};
ghost use Rattle.eve_evidence_outcomes.specs.Token.{made_tokens, ordered_replies, TellsMatch};

use crate::balances::balances_to;
use eve_chains::Settled;
use eve_evidence::{TokenMatch, reply_of};
use eve_frames::AttemptView;
use eve_history::History;
use eve_smallbank::Reply;
use eve_token::{TokenRows, token};
use eve_views::Trace;
use std::alloc::{AllocError, Global};

/// A token, and in what it differs from the one that is due.
#[derive(Clone, Copy)]
pub struct MadeToken {
    /// In what.
    pub what: TokenMatch,
    /// The token.
    pub token: [u8; 32],
}

/// The replies of an attempt, in its certificate's order.
fn ordered_replies(alloc: Global, attempt: &AttemptView<'_>) -> Result<Vec<Reply>, AllocError>
    ensures { IfOk result (λ replies. replies.items ≡ ordered_replies (attempt_decoded attempt.now)) }
{
    let count = attempt.len();
    let mut replies = Vec::with_capacity(alloc, count)?;
    for place in 0..count {
        let index = attempt.index_at(place);
        replies.push(reply_of(attempt, index))?;
    }
    Ok(replies)
}

/// The rows of which a replica's tokens are made after number n.
pub(crate) fn rows_after(
    alloc: Global,
    trace: &Trace<'_>,
    history: &History<'_>,
    settled: &Settled<'_>,
    n: u32,
) -> Result<TokenRows, AllocError>
    requires section { AreOfSection trace.now history.now settled.now }
    requires there { n ≤ length settled.now.numbers }
    ensures { IfOk result (λ rows. rows
        ≡ record { version = trace.now.head.version; balances = balances_to trace.now history.now.replica n }) }
{
    trace.recall_limits();
    let balances = balances_to(alloc, trace, history, settled, n)?;
    TokenRows::new(alloc, trace.head().version, &balances)
}

/// The tokens that are tried, in their order, of an attempt of batch n with these replies: by their indexes, and in its
/// certificate's order.
fn made_tokens(
    before: &mut TokenRows,
    after: &mut TokenRows,
    n: u32,
    replies: &[Reply],
    ordered: &[Reply],
) -> [MadeToken; 6]
    requires version { (after.old.version ≡ 1) ⊎ (after.old.version ≡ 2) }
    requires same { before.old.version ≡ after.old.version }
    requires rows { 0 < length after.old.balances }
    requires replies { 0 < length replies.now }
    requires ordered { 0 < length ordered.now }
    requires one { 1 ≤ n }
    requires few { n + 1 < 2 ^ 32 }
    ensures { result ≡ made_tokens after.old.version n before.old.balances after.old.balances replies.now ordered.now }
{
    let other = 3 - after.version();
    let of_before = before.token(n, replies);
    let of_both = before.token(n, ordered);
    let of_ordered = after.token(n, ordered);
    let of_earlier = after.token(n - 1, replies);
    let of_later = after.token(n + 1, replies);
    let of_other = token(other, n, after.balances(), replies);
    [
        MadeToken {
            what: TokenMatch::Before,
            token: of_before,
        },
        MadeToken {
            what: TokenMatch::Ordered,
            token: of_ordered,
        },
        MadeToken {
            what: TokenMatch::BeforeOrdered,
            token: of_both,
        },
        MadeToken {
            what: TokenMatch::Batch(n - 1),
            token: of_earlier,
        },
        MadeToken {
            what: TokenMatch::Batch(n + 1),
            token: of_later,
        },
        MadeToken {
            what: TokenMatch::Version(other),
            token: of_other,
        },
    ]
}

/// The token at this place of a list.
fn made_at(tokens: &[MadeToken], i: usize) -> MadeToken
    requires { i < length tokens.now }
    ensures { slice_get tokens.now i ≡ Some result }
{
    tokens[i]
}

/// Whether it is this one.
fn is_found(made: &MadeToken, found: &[u8]) -> bool
    ensures yes { IsTrue result → made.now.token ≡ found.now }
    ensures no { IsFalse result → made.now.token ≢ found.now }
{
    made.token.as_slice() == found
}

/// Of what the first of these tokens is made that is this one.
fn first_made(tokens: &[MadeToken], found: &[u8]) -> TokenMatch
    ensures { TellsMatch tokens.now found.now result }
{
    for i in 0..tokens.len() {
        let made = made_at(tokens, i);
        if is_found(&made, found) {
            return made.what;
        }
    }
    TokenMatch::Nothing
}

/// Of what the token of an attempt of batch n is made, where it isn't the one that is due.
///
/// The rows are those before the batch and after it, and the replies those of the attempt. In version 2 it hashes the
/// rows once, and those after the batch once more.
pub(crate) fn token_match(
    alloc: Global,
    before: &mut TokenRows,
    after: &mut TokenRows,
    n: u32,
    attempt: &AttemptView<'_>,
    replies: &[Reply],
) -> Result<TokenMatch, AllocError>
    requires version { (after.old.version ≡ 1) ⊎ (after.old.version ≡ 2) }
    requires same { before.old.version ≡ after.old.version }
    requires rows { 0 < length after.old.balances }
    requires replies { replies.now ≡ (attempt_decoded attempt.now).replies }
    requires one { 1 ≤ n }
    requires few { n + 1 < 2 ^ 32 }
    ensures { IfOk result (TellsMatch (made_tokens after.old.version n before.old.balances after.old.balances
        (attempt_decoded attempt.now).replies (ordered_replies (attempt_decoded attempt.now)))
        (attempt_decoded attempt.now).token) }
{
    let ordered = ordered_replies(alloc, attempt)?;
    let tokens = made_tokens(before, after, n, replies, &ordered);
    Ok(first_made(&tokens, attempt.token()))
}
