//! What a batch changes of a row.

ghost use Rattle.std.specs.Prelude.{◌≡◌, ◌==◌, ◌&&◌, ◌-◌, OnOk};
ghost use Rattle.eve_chains.specs.Changes.{with_change};

use crate::grouped::Keyed;
use eve_accounts::{Cents, Row};
use std::alloc::AllocError;

/// A row that a batch wrote, with the value after its last write.
#[derive(Clone, Copy)]
pub struct Changed {
    /// The batch's number, from 1.
    pub number: u32,
    /// The row.
    pub row: Row,
    /// Its value after the batch.
    pub value: Cents,
}

impl Keyed for Changed {
    ghost key_of = { λ c. c.number - 1 };

    fn key(&self) -> usize {
        (self.number as usize).saturating_sub(1)
    }
}

/// Adds one change more. It takes the place of the last where that is of the same batch and row.
pub(crate) fn add_change(changes: &mut Vec<Changed>, change: Changed) -> Result<(), AllocError>
    ensures { OnOk result (changes.new.items ≡ with_change changes.old.items change) }
{
    let count = changes.len();
    if 0 < count && is_of_same(&changes[count - 1], &change) {
        changes[count - 1] = change;
        return Ok(());
    }
    changes.push(change)?;
    Ok(())
}

/// Whether two changes are of the same batch and row.
fn is_of_same(last: &Changed, change: &Changed) -> bool
    ensures { result ≡ (last.now.number == change.now.number) && (last.now.row == change.now.row) }
{
    last.number == change.number && last.row == change.row
}
