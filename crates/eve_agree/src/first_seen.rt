//! What is noted of rows: what the discarded attempts first saw of those that they wrote, or what restores say.

ghost use Rattle.std.specs.Prelude.{◌≡◌, ◌≢◌, ◌<◌, ℕ, IsTrue, IsFalse, IfOk, List, None, if◌then◌else◌, ◌==◌, length};
ghost use Rattle.std.specs.Prelude.{replicate, [], ◌∷◌};
ghost use Rattle.std.specs.List.{list_all};
ghost use Rattle.eve_smallbank.specs.Chain as chain;
ghost use Rattle.eve_smallbank.specs.declared.entry.Entry as noted;
ghost use Rattle.eve_grammar.specs.Limits.{is_entry, is_restore, is_rising};
ghost use Rattle.eve_agree.specs.Marks.{marking_of, unmarked, marked_once, marked, marked_by, written_in, is_marked};
ghost use Rattle.eve_agree.specs.Marks.{cleared};
ghost use Rattle.eve_agree.specs.Tables.{are_written_in};

use eve_accounts::Row;
use eve_frames::{Entries, Restores};
use eve_grammar::Restore;
use eve_smallbank::{Entry, Kind, Versioned};
use std::alloc::{AllocError, Global};
use std::marker::Model;

/// A mark for each row that was written, with the version and the value that the first write of it saw.
///
/// Contracts see the list of them by row.
#[derive(Drop)]
pub struct FirstSeen {
    rows: Vec<Option<Versioned>>,
    // how many rows are marked
    count: usize,
}

impl Model for FirstSeen {
    ghost use Rattle.std.specs.Prelude.{◌≡◌, List, Option};
    ghost use Rattle.eve_smallbank.specs.declared.versioned.Versioned as versioned;
    ghost use Rattle.eve_agree.specs.Marks.{marked_count};

    ghost Value = { List (Option versioned.Versioned) };

    ghost view = { λ m. m.rows.items };

    ghost invariant = { λ m. m.count ≡ marked_count m.rows.items };
}

impl FirstSeen {
    /// No mark on this many rows.
    pub fn new(alloc: Global, count: usize) -> Result<FirstSeen, AllocError>
        ensures { IfOk result (λ marks. marks ≡ replicate count None) }
    {
        let mut rows = Vec::new(alloc);
        rows.resize(count, None)?;
        Ok(FirstSeen { rows, count: 0 })
    }

    /// Whether no row is marked.
    pub fn is_empty(&self) -> bool
        ensures none { IsTrue result → marking_of self.now ≡ unmarked }
        ensures some { IsFalse result → (row : ℕ) × (marking_of self.now row ≢ None) }
    {
        self.count == 0
    }

    /// The mark on a row, if there is one.
    pub fn get(&self, row: Row) -> Option<Versioned>
        requires { row < length self.now }
        ensures { result ≡ marking_of self.now row }
    {
        self.rows[row.number() as usize]
    }

    /// Marks a row, where no mark is on it.
    fn mark(&mut self, row: Row, seen: Versioned)
        requires { row < length self.old }
        ensures as_many { length self.new ≡ length self.old }
        ensures marks { (r : ℕ) → marking_of self.new r
            ≡ (if row == r then marked_once (marking_of self.old r) seen else marking_of self.old r) }
    {
        let row = row.number() as usize;
        if self.rows[row].is_none() {
            self.rows[row] = Some(seen);
            self.count += 1;
        }
    }

    /// Takes one entry.
    /// Decides F50 Restore.
    fn note_one(&mut self, entry: &Entry)
        requires { IsTrue (is_entry (length self.old) entry.now) }
        ensures as_many { length self.new ≡ length self.old }
        ensures marks { marking_of self.new ≡ marked (marking_of self.old) (entry.now ∷ []) }
    {
        match entry.kind {
            Kind::Read => {}
            Kind::Write => self.mark(
                entry.row,
                Versioned {
                    version: entry.version,
                    value: entry.seen,
                },
            ),
        }
    }

    /// Marks the rows that the entries write, where no mark is on them, with what they saw.
    pub fn note(&mut self, entries: Entries<'_>)
        requires { IsTrue (list_all (is_entry (length self.old)) entries) }
        ensures as_many { length self.new ≡ length self.old }
        ensures marks { marking_of self.new ≡ marked (marking_of self.old) entries.entry }
    {
        for entry in entries {
            self.note_one(&entry);
        }
    }

    /// Marks the rows of these restores, where no mark is on them, with what they say.
    pub fn note_restores(&mut self, restores: Restores<'_>)
        requires { IsTrue (list_all (is_restore (length self.old)) restores) }
        ensures as_many { length self.new ≡ length self.old }
        ensures marks { marking_of self.new ≡ marked_by (marking_of self.old) restores.entry }
    {
        for restored in restores {
            self.note_restore(&restored);
        }
    }

    /// Takes one restore.
    fn note_restore(&mut self, restored: &Restore)
        requires { restored.now.row < length self.old }
        ensures as_many { length self.new ≡ length self.old }
        ensures marks { marking_of self.new ≡ marked_by (marking_of self.old) (restored.now ∷ []) }
    {
        self.mark(
            restored.row,
            Versioned {
                version: restored.version,
                value: restored.value,
            },
        );
    }

    /// Takes away the mark on a restore's row, where it is of the version and the value that are restored.
    fn take(&mut self, restored: &Restore) -> bool
        requires { restored.now.row < length self.old }
        ensures as_many { length self.new ≡ length self.old }
        ensures right { result ≡ is_marked (marking_of self.old restored.now.row) restored.now }
        ensures cleared { IsTrue result → marking_of self.new ≡ cleared (marking_of self.old) (restored.now ∷ []) }
    {
        let row = restored.row.number() as usize;
        let Some(seen) = self.rows[row] else {
            return false;
        };
        if seen.version != restored.version || seen.value != restored.value {
            return false;
        }
        self.rows[row] = None;
        self.count -= 1;
        true
    }

    /// Whether these are exactly the rows that are marked, each as it is marked; then no mark is left.
    /// Decides F50 Restore.
    pub fn take_all(&mut self, restores: Restores<'_>) -> bool
        requires rows { IsTrue (list_all (is_restore (length self.old)) restores) }
        requires rising { IsTrue (is_rising restores) }
        ensures as_many { length self.new ≡ length self.old }
        ensures right { (table : chain.Table) (es : List noted.Entry) → marking_of self.old ≡ written_in table es
            → result ≡ are_written_in table es restores.entry }
        ensures none { IsTrue result → marking_of self.new ≡ unmarked }
    {
        for restored in restores {
            if !self.take(&restored) {
                return false;
            }
        }
        self.is_empty()
    }
}
