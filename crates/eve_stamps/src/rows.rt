//! Rows with their versions and values, in rising order.

ghost use Rattle.std.specs.Prelude.{◌≡◌, ◌≤◌, ◌+◌, ◌++◌, nat_le, nat_lt, [], ◌∷◌, filter, length, vec_len};
ghost use Rattle.std.specs.Prelude.{vec_capacity};
ghost use Rattle.std.specs.List.{AllByRecursion};
ghost use Rattle.eve_smallbank.specs.Chain.{table_after};
ghost use Rattle.eve_stamps.specs.Stripes.{RowsRise, IsEntryIn, JournalLiesIn, table_in, rows_in_table};
ghost use Rattle.eve_stamps.specs.Stripes.{JournalRises, table_after_journal};
ghost use Rattle.eve_stamps.specs.HeldRows.{IsPlaceOf, rows_changed};

use crate::HeldRow;
use crate::journal::Journaled;
use crate::limits::STRIPES;
use eve_accounts::Row;
use eve_grammar::Restore;
use eve_smallbank::{Entry, Kind, UpToThree};
use std::collections::VecDeque;

/// The row's place among these, if it is one of them. It is looked for first at its place in an opening's stripe, then
/// by binary search.
pub fn place_of(rows: &[HeldRow], row: Row) -> Option<usize>
    requires { RowsRise rows.now }
    ensures { IsPlaceOf rows.now row result }
{
    let likely = opening_place(row);
    if likely < rows.len() && rows[likely].row == row {
        return Some(likely);
    }
    rows.binary_search_by_key(&row.number(), |held| held.row.number())
        .ok()
}

/// The row's place in a stripe that has both rows of every sixteenth customer.
fn opening_place(row: Row) -> usize {
    (row.number() / 2 / STRIPES * 2 + row.number() % 2) as usize
}

/// Writes the rows as the entries do.
pub fn write(rows: &mut [HeldRow], entries: &UpToThree<Entry>)
    requires rise { RowsRise rows.old }
    requires entries { AllByRecursion (IsEntryIn rows.old) entries.now }
    ensures { rows.new ≡ rows_in_table (table_after (table_in rows.old) entries.now) rows.old }
{
    let count = entries.len();
    for place in 0..3 {
        if place < count {
            write_one(rows, &entries.at(place));
        }
    }
}

fn write_one(rows: &mut [HeldRow], entry: &Entry)
    requires rise { RowsRise rows.old }
    requires entry { IsEntryIn rows.old entry.now }
    ensures { rows.new ≡ rows_in_table (table_after (table_in rows.old) (entry.now ∷ [])) rows.old }
{
    match entry.kind {
        Kind::Read => {}
        Kind::Write => {
            let Some(place) = place_of(rows, entry.row) else {
                unreachable!();
            };
            rows[place] = HeldRow {
                row: entry.row,
                version: entry.version + 1,
                value: entry.after,
            };
        }
    }
}

/// Writes the rows as the journal does up to the tick, and takes these items off its beginning.
pub fn settle_up_to(rows: &mut [HeldRow], journal: &mut VecDeque<Journaled>, tick: u64)
    requires rise { RowsRise rows.old }
    requires ticks { JournalRises journal.old.items }
    requires own { JournalLiesIn rows.old journal.old.items }
    ensures rows { rows.new ≡ rows_in_table
        (table_after_journal (table_in rows.old) (filter (λ j. nat_le j.tick tick) journal.old.items)) rows.old }
    ensures journal { journal.new.items ≡ filter (λ j. nat_lt tick j.tick) journal.old.items }
{
    while let Some(journaled) = journal.front() {
        if tick < journaled.tick {
            return;
        }
        write(rows, &journaled.entries);
        let _ = journal.pop_front();
    }
}

/// The number of rows that have another version now.
pub fn changed_count(base: &[HeldRow], now: &[HeldRow]) -> usize
    requires { length now.now ≡ length base.now }
    ensures { result ≡ length (rows_changed base.now now.now) }
{
    let mut count = 0;
    for place in 0..base.len() {
        count += usize::from(base[place].version != now[place].version);
    }
    count
}

/// Appends the rows that have another version now, as they are in the base.
pub fn append_changed(base: &[HeldRow], now: &[HeldRow], restores: &mut Vec<Restore>)
    requires as_many { length now.now ≡ length base.now }
    requires room { vec_len restores.old + length (rows_changed base.now now.now) ≤ vec_capacity restores.old }
    ensures items { restores.new.items ≡ restores.old.items ++ rows_changed base.now now.now }
    ensures capacity { vec_capacity restores.new ≡ vec_capacity restores.old }
{
    for place in 0..base.len() {
        append_if_changed(base[place], now[place], restores);
    }
}

fn append_if_changed(base: HeldRow, now: HeldRow, restores: &mut Vec<Restore>)
    requires { vec_len restores.old + length (rows_changed (base ∷ []) (now ∷ [])) ≤ vec_capacity restores.old }
    ensures items { restores.new.items ≡ restores.old.items ++ rows_changed (base ∷ []) (now ∷ []) }
    ensures capacity { vec_capacity restores.new ≡ vec_capacity restores.old }
{
    if base.version != now.version {
        restores.push_reserved(base);
    }
}
