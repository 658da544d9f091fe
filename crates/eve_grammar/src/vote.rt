//! The body of a Vote frame.

ghost use Rattle.std.specs.Prelude.{◌≡◌, ◌==◌, is_some};
ghost use Rattle.std.specs.List.{list_all};
ghost use Rattle.eve_grammar.specs.Readers.{choice_from, vote_of};

use crate::fields::{token_at, u8_at, u32_at};

/// What a verifier votes for.
#[derive(Clone, Copy)]
pub enum Choice<'a> {
    /// That the batch is rolled back in this view.
    ForRollback,
    /// That the batch is committed with this token of 32 bytes.
    ForCommit(&'a [u8]),
}

/// Whether all bytes of a token are 0, as they are where a vote is for a rollback.
pub fn is_zeros(token: &[u8]) -> bool
    ensures { result ≡ list_all (λ byte. byte == 0) token.now }
{
    token.iter().all(|byte| *byte == 0)
}

/// Whether this code and token are a choice.
fn is_choice(code: u8, token: &[u8]) -> bool
    ensures { result ≡ is_some (choice_from (code, token.now)) }
{
    match code {
        0 => is_zeros(token),
        1 => true,
        _ => false,
    }
}

/// Whether these bytes are the body of a Vote frame, and no more. There are this many batches.
///
/// docs/TRACE.md, "Frames".
#[tactic(auto, unfolding(crate::specs::Readers::vote_of))]
pub fn is_vote_body(batches: u32, body: &[u8]) -> bool
    ensures { result ≡ is_some (vote_of batches body.now) }
{
    let Some((seq, rest)) = u32_at(body) else {
        return false;
    };
    if seq == 0 || seq > batches {
        return false;
    }
    let Some((_view, rest)) = u32_at(rest) else {
        return false;
    };
    let Some((code, rest)) = u8_at(rest) else {
        return false;
    };
    let Some((token, rest)) = token_at(rest) else {
        return false;
    };
    is_choice(code, token) && rest.is_empty()
}
