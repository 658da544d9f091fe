//! States that are transferred to replicas, and the body of a Transfer frame.

ghost use Rattle.std.specs.Prelude.{◌≡◌, is_some};
ghost use Rattle.eve_grammar.specs.Limits.{is_no_debt};
ghost use Rattle.eve_grammar.specs.Readers.{state_rows_at, transfer_of};
ghost use Rattle.eve_grammar.specs.inner.Scans.{Passes};

use crate::fields::u32_at;
use crate::versioned::versioned_at;
use eve_smallbank::Versioned;

/// A state that is transferred to a replica from another: the rows as a batch left them. Contracts see it by
/// `transfer`.
///
/// docs/TRACE.md, "Version 2".
#[derive(Drop)]
pub struct TransferData {
    /// The number of the batch that left the rows so.
    pub seq: u32,
    /// The view in which it was committed.
    pub view: u32,
    /// What each row has, row by row: two for each customer.
    pub rows: Vec<Versioned>,
}

/// Whether the value is none below 0, where savings stand in the row with this number.
fn is_no_debt(row: u32, versioned: Versioned) -> bool
    ensures { result ≡ is_no_debt row versioned }
{
    row % 2 != 0 || 0 <= versioned.value.get()
}

/// What stands after a version and a value for each of this many rows, where no saving is below 0.
fn pass_rows(rows: u32, bytes: &[u8]) -> Option<&[u8]>
    ensures { Passes (λ x. x.now) result (state_rows_at rows bytes.now) }
{
    let mut rest = bytes;
    for row in 0..rows {
        let Some((versioned, more)) = versioned_at(rest) else {
            return None;
        };
        if !is_no_debt(row, versioned) {
            return None;
        }
        rest = more;
    }
    Some(rest)
}

/// Whether these bytes are the body of a Transfer frame, and no more. There are this many rows.
///
/// docs/TRACE.md, "Version 2".
#[tactic(auto, unfolding(crate::specs::Readers::transfer_of))]
pub fn is_transfer_body(rows: u32, body: &[u8]) -> bool
    ensures { result ≡ is_some (transfer_of rows body.now) }
{
    let Some((_seq, rest)) = u32_at(body) else {
        return false;
    };
    let Some((_view, rest)) = u32_at(rest) else {
        return false;
    };
    let Some(rest) = pass_rows(rows, rest) else {
        return false;
    };
    rest.is_empty()
}
