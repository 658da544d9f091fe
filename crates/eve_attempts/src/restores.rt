//! What a rollback restores.

ghost use Rattle.std.specs.Prelude.{◌≡◌, ◌<◌, ◌≤◌, ◌++◌, [], IsTrue, IfOk, OnOk, length, map, vec_len, vec_capacity};
ghost use Rattle.std.specs.List.{list_all, AllByRecursion};
ghost use Rattle.std.specs.List.Sorted.{IsPermutation, IsNonDecreasing};
ghost use Rattle.eve_attempts.specs.Ledgers.{table_of_rows, values_before, is_write_in, writes_in};
ghost use Rattle.eve_attempts.specs.CommitsAndRollbacks.{restore_in};
ghost use Rattle.eve_attempts.specs.inner.RestoredRows.{entry_rows, rising_from};

use crate::opened::OpenAttempt;
use crate::rows::Rows;
use eve_grammar::{MOST_ROWS, Restore, row_of};
use eve_smallbank::Entry;
use std::alloc::{AllocError, Global};

/// Appends the rows of the entries.
fn append_rows(rows: &mut Vec<u32>, written: &[Entry]) -> Result<(), AllocError>
    requires { AllByRecursion (λ row. row < MOST_ROWS) rows.old.items }
    ensures rows { OnOk result (rows.new.items ≡ rows.old.items ++ entry_rows written.now) }
    ensures small { OnOk result (AllByRecursion (λ row. row < MOST_ROWS) rows.new.items) }
{
    rows.reserve(written.len())?;
    for entry in written {
        rows.push_reserved(entry.row.number());
    }
    Ok(())
}

/// The rows that attempts wrote, rising, each as often as it was written.
pub fn written_rows(alloc: Global, opened: &[OpenAttempt]) -> Result<Vec<u32>, AllocError>
    ensures rows { IfOk result (λ rows. IsPermutation (entry_rows (writes_in opened.now)) rows.items) }
    ensures rising { IfOk result (λ rows. IsNonDecreasing rows.items) }
    ensures small { IfOk result (λ rows. AllByRecursion (λ row. row < MOST_ROWS) rows.items) }
{
    let mut rows = Vec::new(alloc);
    for open in opened {
        append_rows(&mut rows, open.written.as_slice())?;
    }
    rows.as_mut_slice().sort_unstable();
    Ok(rows)
}

/// Gives the rows again what they had before the attempts, going back from the last.
pub fn undo_all(rows: &mut Rows, opened: &[OpenAttempt])
    requires { IsTrue (list_all (is_write_in (length rows.old.rows.balances)) (writes_in opened.now)) }
    ensures as_many { length rows.new.rows.balances ≡ length rows.old.rows.balances }
    ensures version { rows.new.version ≡ rows.old.version }
    ensures table { table_of_rows rows.new.rows ≡ values_before (table_of_rows rows.old.rows) (writes_in opened.now) }
{
    let mut end = opened.len();
    while end > 0 {
        end -= 1;
        let open = &opened[end];
        rows.undo(open.written.as_slice());
    }
}

/// Appends each of the rows once, as it is now, where they rise.
pub fn restore_all(rows: &Rows, numbers: &[u32], restores: &mut Vec<Restore>)
    requires there { AllByRecursion (λ row. row < length rows.now.rows.balances) numbers.now }
    requires small { AllByRecursion (λ row. row < MOST_ROWS) numbers.now }
    requires none { restores.old.items ≡ [] }
    requires empty { vec_len restores.old ≡ 0 }
    requires room { length numbers.now ≤ vec_capacity restores.old }
    ensures { restores.new.items ≡ map (restore_in (table_of_rows rows.now.rows)) (rising_from 0 numbers.now) }
{
    let mut least = 0;
    for number in numbers {
        if least <= *number {
            restores.push_reserved(rows.restore_of(row_of(*number)));
            least = *number + 1;
        }
    }
}
