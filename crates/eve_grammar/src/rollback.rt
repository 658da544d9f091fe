//! The body of a Rollback frame.

ghost use Rattle.std.specs.Prelude.{◌≡◌, ◌≤◌, is_some};
ghost use Rattle.eve_grammar.specs.Readers.{Gives, restores_at, rollback_of};
ghost use Rattle.eve_grammar.specs.inner.Scans.{rising_at, Passes};

use crate::fields::u32_at;
use crate::limits::MOST_ROWS;
use crate::restore::restore_at;

/// What stands after this many restores of rising rows.
#[tactic(auto, unfolding(crate::specs::inner::Scans::rising_at))]
fn pass_rising(rows: u32, count: u32, bytes: &[u8]) -> Option<&[u8]>
    requires { rows ≤ MOST_ROWS }
    ensures { Gives (λ x. x.now) result (rising_at rows 0 count bytes.now) }
{
    let mut least: u32 = 0;
    let mut rest = bytes;
    for _ in 0..count {
        let Some((restore, more)) = restore_at(rows, rest) else {
            return None;
        };
        let row = restore.row.number();
        if row < least {
            return None;
        }
        least = row + 1;
        rest = more;
    }
    Some(rest)
}

/// What stands after a count and as many restores of rising rows.
#[tactic(auto, unfolding(crate::specs::Readers::restores_at))]
fn pass_restores(rows: u32, bytes: &[u8]) -> Option<&[u8]>
    requires { rows ≤ MOST_ROWS }
    ensures { Passes (λ x. x.now) result (restores_at rows bytes.now) }
{
    let Some((count, restores)) = u32_at(bytes) else {
        return None;
    };
    pass_rising(rows, count, restores)
}

/// Whether these bytes are the body of a Rollback frame, and no more. There are this many rows.
///
/// docs/TRACE.md, "Frames".
#[tactic(auto, unfolding(crate::specs::Readers::rollback_of))]
pub fn is_rollback_body(rows: u32, body: &[u8]) -> bool
    requires { rows ≤ MOST_ROWS }
    ensures { result ≡ is_some (rollback_of rows body.now) }
{
    let Some((_to, rest)) = u32_at(body) else {
        return false;
    };
    let Some((_view, rest)) = u32_at(rest) else {
        return false;
    };
    let Some(rest) = pass_restores(rows, rest) else {
        return false;
    };
    rest.is_empty()
}
