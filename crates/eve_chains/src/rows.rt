//! Rows walked, each by itself: the first fault of chains, and what the batches change.

ghost use Rattle.std.specs.Prelude.{◌≡◌, ◌<◌, Option, None, All, IfOk, map, fold};
ghost use Rattle.std.specs.List.{AllZip};
ghost use Rattle.eve_accounts.specs.declared.limits.TheConstants.{MOST_NAMED_ROWS};
ghost use Rattle.eve_grammar.specs.Trace.{head_of};
ghost use Rattle.eve_grammar.specs.Limits.{row_count};
ghost use Rattle.eve_views.specs.First.{first_of};
ghost use Rattle.eve_views.specs.declared.fault.Fault.{Fault as FaultValue};
ghost use Rattle.eve_chains.specs.inner.Sections.{IsTold, AreRowsOf};
ghost use Rattle.eve_chains.specs.inner.Stretches.{IsWithin};
ghost use Rattle.eve_chains.specs.inner.Walked.{IsWalked, IsOfRange, IsWalkedRange};
ghost use Rattle.eve_chains.specs.declared.rows.WalkedRange.{WalkedRange as WalkedRangeValue};

use crate::bases::Bases;
use crate::changed::Changed;
use crate::numbered::Numbered;
use crate::row_walk::walk_row;
use crate::section::{Section, SectionRows};
use crate::stretch::Stretch;
use eve_accounts::Row;
use eve_history::laws::numbers_are_reached;
use eve_views::{Fault, first_of};
use rayon::prelude::*;
use std::alloc::{AllocError, Global};
use std::thread::Threads;

/// What the walks of a range of rows leave.
#[derive(Drop)]
pub struct Walked {
    /// The first fault of chains.
    pub first: Option<Fault>,
    /// What the committed batches change, row by row, and in a row batch by batch.
    pub changes: Vec<Changed>,
}

/// The same, with the changes in order by batch.
#[derive(Drop)]
pub struct WalkedRange {
    /// The first fault of chains.
    pub first: Option<Fault>,
    /// What the committed batches change of the rows.
    pub changed: Numbered,
}

/// The row with this number.
pub(crate) fn row_at(number: u32) -> Row
    requires { number < MOST_NAMED_ROWS }
    ensures { result ≡ number }
{
    let customer = number / 2;
    if number % 2 == 0 {
        Row::saving(customer)
    } else {
        Row::checking(customer)
    }
}

/// Walks a range of rows, one after another, each by itself along its own of the entries that were gathered.
fn walk_rows(
    alloc: Global,
    rows: SectionRows<'_, '_, '_>,
    range: Stretch,
) -> Result<Walked, AllocError>
    requires rows { AreRowsOf rows }
    requires within { IsWithin (row_count (head_of rows.section.trace.now)) range }
    ensures { IfOk result (IsWalked rows.entry.section.trace.now rows.entry.section.history.now.replica range) }
{
    let SectionRows {
        section,
        opening,
        parts,
    } = rows;
    let history = section.history;
    section.trace.recall_limits();
    let from = range.from;
    let replica = history.replica();
    let bases = Bases { opening, history };
    let mut first = None;
    let mut changes = Vec::new(alloc);
    for number in from..range.to {
        let row = row_at(number as u32);
        let wrong = walk_row(row, parts, &bases, replica, &mut changes)?;
        first = first_of(first, wrong);
    }
    Ok(Walked { first, changes })
}

/// What the batches changed of a range of rows that is walked, in order by batch.
fn number_range(
    alloc: Global,
    section: Section<'_, '_, '_>,
    range: Stretch,
    walked: &Walked,
) -> Result<Numbered, AllocError>
    requires told { IsTold section }
    requires within { IsWithin (row_count (head_of section.trace.now)) range }
    requires walked { IsWalked section.trace.now section.history.now.replica range walked.now }
    ensures { IfOk result (IsOfRange section.entry.trace.now section.entry.history.now.replica range) }
{
    section.history.recall_right();
    numbers_are_reached();
    let _range = range;
    let count = section.history.committed();
    let numbered = Numbered::of(alloc, count, walked.changes.as_slice())?;
    Ok(numbered)
}

/// Walks a range of rows, and puts what the batches changed of them in order by batch.
fn walk_range(
    alloc: Global,
    rows: SectionRows<'_, '_, '_>,
    range: Stretch,
) -> Result<WalkedRange, AllocError>
    requires rows { AreRowsOf rows }
    requires within { IsWithin (row_count (head_of rows.section.trace.now)) range }
    ensures { IfOk result (IsWalkedRange rows.entry.section.trace.now rows.entry.section.history.now.replica range) }
{
    let walked = walk_rows(alloc, rows, range)?;
    let changed = number_range(alloc, rows.section, range, &walked)?;
    Ok(WalkedRange {
        first: walked.first,
        changed,
    })
}

/// Each range walked, in rayon's pieces: as many threads as there are ranges, with the caller's. Of one range none is
/// started.
pub(crate) fn walk_all<R: Threads + Sync>(
    rt: &R,
    alloc: Global,
    rows: SectionRows<'_, '_, '_>,
    ranges: &[Stretch],
) -> Result<Vec<WalkedRange>, AllocError>
    requires rows { AreRowsOf rows }
    requires ranges { All (IsWithin (row_count (head_of rows.section.trace.now))) ranges.now }
    ensures { IfOk result (λ walked. AllZip
        (IsWalkedRange rows.entry.section.trace.now rows.entry.section.history.now.replica) ranges.now walked.items) }
{
    ranges
        .par_iter()
        .with_min_len(1)
        .map(
            |range: &Stretch| -> Result<WalkedRange, AllocError>
                requires { AreRowsOf rows × IsWithin (row_count (head_of rows.section.trace.now)) range.now }
                ensures { IfOk result (IsWalkedRange rows.entry.section.trace.now
                    rows.entry.section.history.now.replica range.now) }
            { walk_range(alloc, rows, *range) },
        )
        .collect::<Result<Vec<WalkedRange>, AllocError>>(rt, alloc)?
}

/// The first fault of all rows.
pub(crate) fn first_of_all(walked: &[WalkedRange]) -> Option<Fault>
    ensures { result ≡ fold (λ (first : Option FaultValue) (one : WalkedRangeValue). first_of first one.first) None
        walked.now }
{
    let mut first = None;
    for one in walked {
        first = first_of(first, one.first);
    }
    first
}

/// What the batches changed, range of rows after range.
pub(crate) fn changed_ranges(
    alloc: Global,
    walked: Vec<WalkedRange>,
) -> Result<Vec<Numbered>, AllocError>
    ensures { IfOk result (λ ranges. ranges.items ≡ map (λ (one : WalkedRangeValue). one.changed) walked.items) }
{
    let mut ranges = Vec::with_capacity(alloc, walked.len())?;
    for one in walked {
        ranges.push(one.changed)?;
    }
    Ok(ranges)
}
