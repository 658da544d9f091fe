//! In which groups the rows of a batch are touched, and in which they are written.

ghost use Rattle.std.specs.Prelude.{◌≡◌, ◌≤◌, ◌+◌, ◌*◌, ◌<◌, ◌==◌, ◌&&◌, ◌||◌, ℕ, false, length, IfOk, OnOk};
ghost use Rattle.std.specs.Prelude.{IfSome, IfNone};
ghost use Rattle.std.specs.List.{list_any};
ghost use Rattle.eve_smallbank.specs.declared.entry.Kind.{Kind as KindValue};
ghost use Rattle.eve_workload.specs.inner.GroupSets.{has};
ghost use Rattle.eve_workload.specs.Mixers.{collide};
ghost use Rattle.eve_workload.specs.inner.Marks.{is_barred, HasMarksAt};

use crate::group_set::GroupSet;
use eve_accounts::Row;
use eve_grammar::MOST_REQUESTS;
use eve_smallbank::{Kind, UpToThree};
use std::alloc::{AllocError, Global};

/// A row, the groups in which it is touched, and those in which it is written.
#[derive(Clone, Copy)]
pub(crate) struct Marks {
    pub row: u32,
    pub touched: GroupSet,
    pub written: GroupSet,
}

/// Marks of rows. Where those of a row stand is read by its number from a table, so no row takes longer than another.
/// The table grows as far as the greatest row that is marked, and is never emptied.
#[derive(Drop)]
pub(crate) struct RowMarks {
    // For each row, where its marks stand. A row has none if those that stand there are another row's.
    pub places: Vec<u16>,
    // The marks of the rows that were marked, each row once.
    pub marks: Vec<Marks>,
}

impl RowMarks {
    /// No row is marked.
    pub(crate) fn new(alloc: Global) -> RowMarks
        ensures none { (row : ℕ × KindValue) → (group : ℕ) → is_barred result row group ≡ false }
        ensures len { length result.marks.items ≡ 0 }
    {
        RowMarks {
            places: Vec::new(alloc),
            marks: Vec::new(alloc),
        }
    }

    /// Takes all marks away, in no time. The table stays as it is: a place in it counts only where the row's own marks
    /// stand there.
    pub(crate) fn clear(&mut self)
        ensures none { (row : ℕ × KindValue) → (group : ℕ) → is_barred self.new row group ≡ false }
        ensures len { length self.new.marks.items ≡ 0 }
    {
        self.marks.clear();
    }

    /// The groups in which one of these rows is in conflict.
    pub(crate) fn barred(&self, rows: &UpToThree<(Row, Kind)>) -> GroupSet
        ensures { (group : ℕ) → has result group ≡ list_any (λ row. is_barred self.now row group) rows.now }
    {
        let mut all = GroupSet::none();
        for index in 0..rows.len() {
            let (row, kind) = rows.at(index);
            self.add_barred(row, kind, &mut all);
        }
        all
    }

    /// Takes in the groups in which the row is written, or touched if it is to be written.
    fn add_barred(&self, row: Row, kind: Kind, groups: &mut GroupSet)
        ensures { (group : ℕ) → has groups.new group ≡ (has groups.old group || is_barred self.now (row, kind) group) }
    {
        if let Some(place) = self.place_of(row) {
            let marks = &self.marks[place];
            match kind {
                Kind::Read => groups.add_all(&marks.written),
                Kind::Write => groups.add_all(&marks.touched),
            }
        }
    }

    /// Where the row's marks stand, if it has any.
    fn place_of(&self, row: Row) -> Option<usize>
        ensures some { IfSome result (HasMarksAt self.now row) }
        ensures none { IfNone result ((kind : KindValue) → (group : ℕ) → is_barred self.now (row, kind) group ≡ false) }
    {
        let place = match self.places.get(row.number() as usize) {
            Some(place) => *place as usize,
            None => 0,
        };
        if place < self.marks.len() && self.marks[place].row == row.number() {
            Some(place)
        } else {
            None
        }
    }

    /// Marks these rows as touched, or as written, in a group.
    pub(crate) fn mark(
        &mut self,
        rows: &UpToThree<(Row, Kind)>,
        group: u16,
    ) -> Result<(), AllocError>
        requires small { group < MOST_REQUESTS }
        requires few { length self.old.marks.items + 3 ≤ 3 * MOST_REQUESTS }
        ensures len { OnOk result (length self.new.marks.items ≤ length self.old.marks.items + 3) }
        ensures marks { OnOk result ((row : ℕ × KindValue) → (other : ℕ) →
            is_barred self.new row other ≡ (is_barred self.old row other
            || (list_any (collide row) rows.now && (other == group)))) }
    {
        for index in 0..rows.len() {
            let (row, kind) = rows.at(index);
            let place = self.meet(row)?;
            self.mark_at(place, kind, group);
        }
        Ok(())
    }

    /// Where the row's marks stand. One that has none yet gets those of no group.
    fn meet(&mut self, row: Row) -> Result<usize, AllocError>
        requires few { length self.old.marks.items < 3 * MOST_REQUESTS }
        ensures len { OnOk result (length self.new.marks.items ≤ length self.old.marks.items + 1) }
        ensures place { IfOk result (HasMarksAt self.new row) }
        ensures same { OnOk result ((other : ℕ × KindValue) → (group : ℕ) →
            is_barred self.new other group ≡ is_barred self.old other group) }
    {
        if let Some(place) = self.place_of(row) {
            return Ok(place);
        }
        let place = self.marks.len();
        self.marks.push(Marks {
            row: row.number(),
            touched: GroupSet::none(),
            written: GroupSet::none(),
        })?;
        let index = row.number() as usize;
        if index >= self.places.len() {
            self.places.resize(index + 1, 0)?;
        }
        self.places[index] = place as u16;
        Ok(place)
    }

    fn mark_at(&mut self, place: usize, kind: Kind, group: u16)
        requires small { group < MOST_REQUESTS }
        requires there { place < length self.old.marks.items }
        ensures len { length self.new.marks.items ≡ length self.old.marks.items }
        ensures marks { (row : ℕ) → HasMarksAt self.old row place → (other : ℕ × KindValue) → (in_group : ℕ) →
            is_barred self.new other in_group ≡ (is_barred self.old other in_group
            || (collide other (row, kind) && (in_group == group))) }
    {
        let marks = &mut self.marks[place];
        marks.touched.add(group);
        if kind.is_write() {
            marks.written.add(group);
        }
    }
}
