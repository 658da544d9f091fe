//! What a replica committed.

ghost use Rattle.std.specs.Prelude.{◌≡◌, ◌≤◌, ◌-◌, ◌↔◌, ℕ, Some, All, IsTrue, IfOk, IfSome, length, map, slice_get};
ghost use Rattle.std.specs.Prelude.{option_map};
ghost use Rattle.std.specs.List.{AllZip, list_all};
ghost use Rattle.eve_accounts.specs.declared.limits.TheConstants.{MOST_NAMED_ROWS};
ghost use Rattle.eve_smallbank.specs.Access.{balance_of_row};
ghost use Rattle.eve_grammar.specs.Trace.{opening_rows, head_of};
ghost use Rattle.eve_grammar.specs.Limits.{row_count};
ghost use Rattle.eve_frames.specs.Decoded.{transfer_decoded};
ghost use Rattle.eve_history.specs.SectionHistory.{IsToldOf};
ghost use Rattle.eve_chains.specs.Changes.{change_of, changes_in_ranges, values_changed};
ghost use Rattle.eve_chains.specs.ReachedChanges.{change_decoded, IsOfRows, transfer_at, rows_changed_at};
ghost use Rattle.eve_chains.specs.Numbered.{IsRowBelow, HasNumbersTo, is_same_where_changed};
ghost use Rattle.eve_chains.specs.CommittedValues.{settling, values_in, defined, AreBankAfter, HaveSameBalances};
ghost use Rattle.eve_chains.specs.inner.Sections.{IsTold};
ghost use Rattle.eve_chains.specs.inner.Walked.{AreOfRanges};

use crate::changed::Changed;
use crate::numbered::Numbered;
use crate::rows::row_at;
use crate::section::Section;
use eve_accounts::{Balances, SetRow};
use eve_frames::TransferView;
use eve_history::laws::numbers_are_reached;
use eve_history::{History, HowReached};
use std::alloc::{AllocError, Global};
use std::marker::Model;

/// How many balances are compared, one after another, in the time that one changed row of a batch takes: the row is
/// looked up in both replicas, and the other's batch mostly changed as many rows.
const ROWS_A_CHANGE: usize = 2;

/// The opening balances, and what each number that a replica reached changed, which give the balances after each.
///
/// docs/MODEL.md, "Bank and replies after a committed batch". It takes eight bytes for each row, eight for each number
/// and eight more for each in each range of rows, and sixteen for each row that a batch changed. A state that was
/// transferred is read where it lies in the trace.
#[derive(Drop)]
pub struct Settled<'a> {
    opening: Balances,
    // the last number that was reached
    count: u32,
    // what the numbers up to it changed, range of rows after range
    ranges: Vec<Numbered>,
    // how each number was reached, from 1 on
    ways_reached: Vec<HowReached>,
    // the states that were transferred
    transfers: Vec<TransferView<'a>>,
}

/// What a number changed.
#[derive(Clone, Copy)]
enum Change<'a> {
    /// Some rows: those that its batch wrote, range after range.
    Wrote(&'a [Numbered]),
    /// All rows: this state was transferred.
    Transferred(TransferView<'a>),
    /// No row: the number was skipped.
    Nothing,
}

impl<'a> Model for Settled<'a> {
    ghost use Rattle.std.specs.Prelude.{All, length};
    ghost use Rattle.eve_chains.specs.Changes.{ranges_by_number};
    ghost use Rattle.eve_chains.specs.Numbered.{HasNumbersTo};
    ghost use Rattle.eve_chains.specs.ReachedChanges.{AreWaysReached, changes_in};
    ghost use Rattle.eve_chains.specs.CommittedValues.{Settling};

    ghost Value = { Settling };

    ghost view = { λ s. record {
      opening = s.opening;
      numbers = changes_in s.transfers.items s.ways_reached.items (ranges_by_number s.count s.ranges.items);
    } };

    ghost invariant = { λ s. All (HasNumbersTo (length s.opening) s.count) s.ranges.items
        × AreWaysReached (length s.opening) s.count s.transfers.items s.ways_reached.items };
}

impl<'a> Settled<'a> {
    /// What a replica committed, of its opening balances and of what the batches changed of the rows.
    pub(crate) fn of(
        alloc: Global,
        section: Section<'_, '_, 'a>,
        opening: Balances,
        ranges: Vec<Numbered>,
    ) -> Result<Settled<'a>, AllocError>
        requires told { IsTold section }
        requires opening { opening ≡ opening_rows section.trace.now.customers }
        requires ranges { AreOfRanges section.trace.now section.history.now.replica
            (row_count (head_of section.trace.now)) ranges.items }
        ensures { IfOk result (λ settled.
            settled ≡ settling section.entry.trace.now section.entry.history.now.replica) }
    {
        let Section { trace, history } = section;
        trace.recall_limits();
        history.recall_right();
        numbers_are_reached();
        let ways_reached = ways_reached_of(alloc, history)?;
        let transfers = transfers_of(alloc, history)?;
        Ok(Settled {
            opening,
            count: history.committed(),
            ranges,
            ways_reached,
            transfers,
        })
    }

    /// The last number that the replica reached; 0 where it reached none.
    pub fn committed(&self) -> u32
        ensures { result ≡ length self.now.numbers }
    {
        self.count
    }

    /// Whether there are balances after number n: 0 has some, and so has each number that the replica reached and
    /// didn't skip.
    ///
    /// docs/MODEL.md, "Bank and replies after a committed batch".
    pub fn defined(&self, n: u32) -> bool
        ensures { result ≡ defined self.now n }
    {
        if n == 0 {
            return true;
        }
        if self.count < n {
            return false;
        }
        match self.ways_reached[n as usize - 1] {
            HowReached::Attempt(_) => true,
            HowReached::Transfer(_) => true,
            HowReached::Skipped => false,
        }
    }

    /// What number n changed, of the numbers from 1 on.
    fn change_at(&self, n: u32) -> Change<'_>
        requires one { 1 ≤ n }
        requires there { n ≤ length self.now.numbers }
        ensures says { slice_get self.now.numbers (n - 1) ≡ Some (change_decoded n result) }
        ensures rows { IsOfRows (length self.now.opening) n result }
    {
        match self.ways_reached[n as usize - 1] {
            HowReached::Attempt(_) => Change::Wrote(&self.ranges),
            HowReached::Transfer(i) => Change::Transferred(self.transfers[i as usize]),
            HowReached::Skipped => Change::Nothing,
        }
    }

    /// The balances after number n, in cents, which are the bank after it: the work is what the numbers up to n
    /// changed.
    ///
    /// docs/MODEL.md, "Bank and replies after a committed batch".
    pub fn balances_after(&self, alloc: Global, n: u32) -> Result<Balances, AllocError>
        requires { n ≤ length self.now.numbers }
        ensures rows { IfOk result (λ balances. length balances ≡ length self.now.opening) }
        ensures values { IfOk result (λ balances. balance_of_row balances ≡ values_in self.now n) }
        ensures bank { IfOk result (AreBankAfter self.now n) }
    {
        let mut balances = self.opening.copy(alloc)?;
        for before in 0..n {
            self.advance(before + 1, &mut balances);
        }
        Ok(balances)
    }

    /// Goes from the balances after number n - 1 to those after number n, of the numbers from 1 on, which are the bank
    /// after it. At a number that was skipped it does nothing.
    ///
    /// docs/MODEL.md, "Bank and replies after a committed batch".
    pub fn advance<T: SetRow>(&self, n: u32, rows: &mut T)
        requires one { 1 ≤ n }
        requires there { n ≤ length self.now.numbers }
        requires rows { length (T.rows rows.old) ≡ length self.now.opening }
        requires before { balance_of_row (T.rows rows.old) ≡ values_in self.now (n - 1) }
        ensures rows { length (T.rows rows.new) ≡ length (T.rows rows.old) }
        ensures values { balance_of_row (T.rows rows.new) ≡ values_in self.now n }
        ensures bank { AreBankAfter self.now n (T.rows rows.new) }
    {
        let change = self.change_at(n);
        match change {
            Change::Wrote(ranges) => set_all(rows, ranges, n),
            Change::Transferred(state) => apply_transfer(rows, &state),
            Change::Nothing => {}
        }
    }

    /// Whether the balances after batch n, of the batches from 1 on, are those that another replica has after it.
    /// `before` says that those after the batch before are known to be the same: then only the rows are compared that
    /// batch n changed in the one or in the other, unless comparing all balances is quicker. Where either had a state
    /// transferred, all balances are compared.
    ///
    /// docs/MODEL.md, "Bank and replies after a committed batch".
    pub fn are_same_after(
        &self,
        n: u32,
        balances: &Balances,
        other: &Settled<'_>,
        others: &Balances,
        before: bool,
    ) -> bool
        requires one { 1 ≤ n }
        requires there { n ≤ length self.now.numbers }
        requires its { n ≤ length other.now.numbers }
        requires rows { length balances.now ≡ length self.now.opening }
        requires its_rows { length others.now ≡ length other.now.opening }
        requires values { balance_of_row balances.now ≡ values_in self.now n }
        requires its_values { balance_of_row others.now ≡ values_in other.now n }
        requires before { IsTrue before → HaveSameBalances self.now other.now (n - 1) }
        ensures { IsTrue result ↔ (balances.now ≡ others.now) }
    {
        if before {
            if let Some(same) = self.are_same_again(n, balances, other, others) {
                return same;
            }
        }
        are_same(balances, others)
    }

    /// The same, where the balances after the batch before are the same: compares only the rows that batch n changed in
    /// the one or in the other. Nothing, where comparing all balances is quicker or needed.
    fn are_same_again(
        &self,
        n: u32,
        balances: &Balances,
        other: &Settled<'_>,
        others: &Balances,
    ) -> Option<bool>
        requires one { 1 ≤ n }
        requires there { n ≤ length self.now.numbers }
        requires its { n ≤ length other.now.numbers }
        requires rows { length balances.now ≡ length self.now.opening }
        requires its_rows { length others.now ≡ length other.now.opening }
        requires values { balance_of_row balances.now ≡ values_in self.now n }
        requires its_values { balance_of_row others.now ≡ values_in other.now n }
        requires before { HaveSameBalances self.now other.now (n - 1) }
        ensures { IfSome result (λ same. IsTrue same ↔ (balances.now ≡ others.now)) }
    {
        let own = self.rows_changed(n)?;
        let its = other.rows_changed(n)?;
        if balances.len() / ROWS_A_CHANGE < count_changed(own, n) {
            return None;
        }
        let same = are_same_where_changed(own, n, balances, others)
            && are_same_where_changed(its, n, balances, others);
        Some(same)
    }

    /// Where the rows stand that number n changed, of the numbers from 1 on, where it wasn't all of them.
    fn rows_changed(&self, n: u32) -> Option<&[Numbered]>
        requires one { 1 ≤ n }
        requires there { n ≤ length self.now.numbers }
        ensures says { option_map (λ ranges. changes_in_ranges (n - 1) ranges.now) result ≡ rows_changed_at self.now n }
        ensures rows { IfSome result (λ ranges. All (HasNumbersTo (length self.now.opening) n) ranges.now) }
    {
        match self.change_at(n) {
            Change::Wrote(ranges) => Some(ranges),
            Change::Transferred(_) => None,
            Change::Nothing => Some(&[]),
        }
    }
}

/// How each number was reached, from 1 on.
fn ways_reached_of(alloc: Global, history: &History<'_>) -> Result<Vec<HowReached>, AllocError>
    ensures { IfOk result (λ ways_reached. AllZip (IsToldOf history.now) ways_reached.items history.now.ways_reached) }
{
    let count = history.committed();
    let mut ways_reached = Vec::with_capacity(alloc, count as usize)?;
    for before in 0..count {
        ways_reached.push(history.how_reached(before + 1))?;
    }
    Ok(ways_reached)
}

/// The states that were transferred.
fn transfers_of<'a>(
    alloc: Global,
    history: &History<'a>,
) -> Result<Vec<TransferView<'a>>, AllocError>
    ensures { IfOk result (λ transfers. map transfer_at transfers.items ≡ history.now.transfers) }
{
    let count = history.transfers();
    let mut transfers = Vec::with_capacity(alloc, count)?;
    for i in 0..count {
        transfers.push(history.transfer(i))?;
    }
    Ok(transfers)
}

/// How many rows batch n changed.
fn count_changed(ranges: &[Numbered], n: u32) -> usize
    requires one { 1 ≤ n }
    requires reached { (rows : ℕ) × All (HasNumbersTo rows n) ranges.now }
{
    let mut count = 0usize;
    for range in ranges {
        count = count.saturating_add(range.changed_by(n).len());
    }
    count
}

/// Gives each row that batch n changed its value.
fn set_all<T: SetRow>(rows: &mut T, ranges: &[Numbered], n: u32)
    requires one { 1 ≤ n }
    requires rows { All (HasNumbersTo (length (T.rows rows.old)) n) ranges.now }
    ensures as_many { length (T.rows rows.new) ≡ length (T.rows rows.old) }
    ensures values { balance_of_row (T.rows rows.new)
        ≡ values_changed (balance_of_row (T.rows rows.old)) (changes_in_ranges (n - 1) ranges.now) }
{
    for range in ranges {
        set_each(rows, range.changed_by(n));
    }
}

/// Gives each changed row its value.
fn set_each<T: SetRow>(rows: &mut T, changes: &[Changed])
    requires rows { All (IsRowBelow (length (T.rows rows.old))) changes.now }
    ensures as_many { length (T.rows rows.new) ≡ length (T.rows rows.old) }
    ensures values { balance_of_row (T.rows rows.new)
        ≡ values_changed (balance_of_row (T.rows rows.old)) (map change_of changes.now) }
{
    for change in changes {
        rows.set(change.row, change.value);
    }
}

/// Gives each row what it has in a state that was transferred.
fn apply_transfer<T: SetRow>(rows: &mut T, state: &TransferView<'_>)
    requires as_many { length (transfer_decoded state.now).rows ≡ length (T.rows rows.old) }
    requires few { length (T.rows rows.old) ≤ MOST_NAMED_ROWS }
    ensures { T.rows rows.new ≡ map (λ v. v.value) (transfer_decoded state.now).rows }
{
    for i in 0..state.len() {
        rows.set(row_at(i as u32), state.row(i).value);
    }
}

/// Whether both have the same balance in each row that batch n changed.
fn are_same_where_changed(
    ranges: &[Numbered],
    n: u32,
    balances: &Balances,
    others: &Balances,
) -> bool
    requires one { 1 ≤ n }
    requires rows { All (HasNumbersTo (length balances.now) n) ranges.now }
    requires as_many { length others.now ≡ length balances.now }
    ensures { result ≡ list_all (is_same_where_changed balances.now others.now) (changes_in_ranges (n - 1) ranges.now) }
{
    for range in ranges {
        if !is_same_in_each(range.changed_by(n), balances, others) {
            return false;
        }
    }
    true
}

/// Whether both have the same balance in each changed row.
fn is_same_in_each(changes: &[Changed], balances: &Balances, others: &Balances) -> bool
    requires rows { All (IsRowBelow (length balances.now)) changes.now }
    requires as_many { length others.now ≡ length balances.now }
    ensures { result ≡ list_all (is_same_where_changed balances.now others.now) (map change_of changes.now) }
{
    for change in changes {
        if balances.get(change.row) != others.get(change.row) {
            return false;
        }
    }
    true
}

/// Whether all balances are the same.
fn are_same(balances: &Balances, others: &Balances) -> bool
    ensures { IsTrue result ↔ (balances.now ≡ others.now) }
{
    balances.as_slice() == others.as_slice()
}
