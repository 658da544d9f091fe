//! The body of a Commit frame.

ghost use Rattle.std.specs.Prelude.{◌≡◌, is_some};
ghost use Rattle.eve_grammar.specs.Readers.{commit_of};

use crate::fields::{token_at, u32_at};

/// Whether these bytes are the body of a Commit frame, and no more.
///
/// docs/TRACE.md, "Frames".
#[tactic(auto, unfolding(crate::specs::Readers::commit_of))]
pub fn is_commit_body(body: &[u8]) -> bool
    ensures { result ≡ is_some (commit_of body.now) }
{
    let Some((_seq, rest)) = u32_at(body) else {
        return false;
    };
    let Some((_view, rest)) = u32_at(rest) else {
        return false;
    };
    let Some((_token, rest)) = token_at(rest) else {
        return false;
    };
    rest.is_empty()
}
