//! Version and balance of each row.

ghost use Rattle.std.specs.Prelude.{◌≡◌, ◌<◌, ◌≤◌, ◌⊎◌, IsTrue, IfOk, length, [], ◌∷◌};
ghost use Rattle.std.specs.Bool.{Decides};
ghost use Rattle.std.specs.List.{list_all, AllByRecursion};
ghost use Rattle.eve_smallbank.specs.Chain.{Sees, table_after};
ghost use Rattle.eve_grammar.specs.Limits.{is_entry};
ghost use Rattle.eve_attempts.specs.Ledgers.{rows_at_first, table_of_rows, values_before, is_write_in};
ghost use Rattle.eve_attempts.specs.CommitsAndRollbacks.{restore_in};
ghost use Rattle.eve_attempts.specs.Transfers.{rows_of_state};
ghost use Rattle.eve_token.specs.Token.{token_of, rows_root};

use eve_accounts::{Balances, Row};
use eve_grammar::{MOST_ROWS, Restore, row_of};
use eve_smallbank::{Entry, Reply, UpToThree, Versioned};
use eve_token::TokenRows;
use std::alloc::{AllocError, Global};
use std::marker::Model;

/// Version and balance of each row, by number. Contracts see the lists of both, `table_of_rows` of them, and the
/// version of the trace (`KeptRows`).
#[derive(Drop)]
pub struct Rows {
    versions: Vec<u64>,
    balances: TokenRows,
}

impl Model for Rows {
    ghost use Rattle.std.specs.Prelude.{◌≡◌, length};
    ghost use Rattle.eve_attempts.specs.inner.KeptRows.{KeptRows};

    ghost Value = { KeptRows };

    ghost view = { λ r. record {
      version = r.balances.version;
      rows = record { versions = r.versions.items; balances = r.balances.balances };
    } };

    ghost invariant = { λ r. length r.versions.items ≡ length r.balances.balances };
}

impl Rows {
    /// All rows at version 0 with these balances, for a version of the trace.
    pub fn new(alloc: Global, version: u16, balances: &Balances) -> Result<Rows, AllocError>
        requires version { (version ≡ 1) ⊎ (version ≡ 2) }
        requires some { version ≡ 2 → 0 < length balances.now }
        ensures { IfOk result (λ rows. rows ≡ record { version = version; rows = rows_at_first balances.now }) }
    {
        let versions = vec![in alloc; 0; balances.len()]?;
        Ok(Rows {
            versions,
            balances: TokenRows::new(alloc, version, balances)?,
        })
    }

    /// The same rows in memory of their own, of which no token of version 2 is asked.
    pub fn copy(&self, alloc: Global) -> Result<Rows, AllocError>
        ensures { IfOk result (λ rows. rows.rows ≡ self.now.rows) }
    {
        Ok(Rows {
            versions: self.versions.to_vec(alloc)?,
            balances: TokenRows::new(alloc, 1, self.balances.balances())?,
        })
    }

    /// The version of the trace.
    pub fn version(&self) -> u16
        ensures { result ≡ self.now.version }
    {
        self.balances.version()
    }

    /// How many rows there are.
    pub fn len(&self) -> usize
        ensures balances { result ≡ length self.now.rows.balances }
        ensures versions { result ≡ length self.now.rows.versions }
    {
        self.versions.len()
    }

    /// The balances.
    pub fn balances(&self) -> &Balances
        ensures { result.now ≡ self.now.rows.balances }
    {
        self.balances.balances()
    }

    /// The token of an attempt that left the rows so, of its batch's number and its replies.
    pub fn token(&mut self, seq: u32, replies: &[Reply]) -> [u8; 32]
        requires replies { self.old.version ≡ 2 → 0 < length replies.now }
        ensures token { result ≡ token_of self.old.version seq self.old.rows.balances replies.now }
        ensures same { self.new ≡ self.old }
    {
        self.balances.token(seq, replies)
    }

    /// The root over all rows, in version 2.
    pub fn root(&mut self) -> [u8; 32]
        requires version { self.old.version ≡ 2 }
        ensures root { result ≡ rows_root self.old.rows.balances }
        ensures same { self.new ≡ self.old }
    {
        self.balances.root()
    }

    /// Whether the entry saw what its row has.
    fn is_seen(&self, entry: &Entry) -> bool
        requires { IsTrue (is_entry (length self.now.rows.balances) entry.now) }
        ensures { Decides result (Sees (table_of_rows self.now.rows) entry.now) }
    {
        entry.version == self.versions[entry.row.number() as usize]
            && entry.seen == self.balances().get(entry.row)
    }

    /// Whether each of the entries saw what its row has.
    pub fn are_seen(&self, entries: &UpToThree<Entry>) -> bool
        requires { IsTrue (list_all (is_entry (length self.now.rows.balances)) entries.now) }
        ensures { Decides result (AllByRecursion (Sees (table_of_rows self.now.rows)) entries.now) }
    {
        let count = entries.len();
        for place in 0..3 {
            if place < count && !self.is_seen(&entries.at(place)) {
                return false;
            }
        }
        true
    }

    /// Takes a write.
    pub fn write(&mut self, entry: &Entry)
        requires { IsTrue (is_write_in (length self.old.rows.balances) entry.now) }
        ensures as_many { length self.new.rows.balances ≡ length self.old.rows.balances }
        ensures versions { length self.new.rows.versions ≡ length self.old.rows.versions }
        ensures version { self.new.version ≡ self.old.version }
        ensures table { table_of_rows self.new.rows ≡ table_after (table_of_rows self.old.rows) (entry.now ∷ []) }
    {
        self.versions[entry.row.number() as usize] = entry.version + 1;
        self.balances.set(entry.row, entry.after);
    }

    /// Gives a row again what a write saw.
    fn undo_one(&mut self, entry: &Entry)
        requires { IsTrue (is_write_in (length self.old.rows.balances) entry.now) }
        ensures as_many { length self.new.rows.balances ≡ length self.old.rows.balances }
        ensures versions { length self.new.rows.versions ≡ length self.old.rows.versions }
        ensures version { self.new.version ≡ self.old.version }
        ensures table { table_of_rows self.new.rows ≡ values_before (table_of_rows self.old.rows) (entry.now ∷ []) }
    {
        self.versions[entry.row.number() as usize] = entry.version;
        self.balances.set(entry.row, entry.seen);
    }

    /// Gives the rows again what they had before these writes, going back from the last.
    pub fn undo(&mut self, written: &[Entry])
        requires { IsTrue (list_all (is_write_in (length self.old.rows.balances)) written.now) }
        ensures as_many { length self.new.rows.balances ≡ length self.old.rows.balances }
        ensures versions { length self.new.rows.versions ≡ length self.old.rows.versions }
        ensures version { self.new.version ≡ self.old.version }
        ensures table { table_of_rows self.new.rows ≡ values_before (table_of_rows self.old.rows) written.now }
    {
        let mut end = written.len();
        while end > 0 {
            end -= 1;
            self.undo_one(&written[end]);
        }
    }

    /// The rows, in row order.
    pub fn listed(&self, alloc: Global) -> Result<Vec<Versioned>, AllocError>
        ensures { IfOk result (λ state. rows_of_state state.items ≡ self.now.rows) }
    {
        let balances = self.balances().as_slice();
        let mut state = Vec::with_capacity(alloc, balances.len())?;
        for (number, version) in self.versions.iter().enumerate() {
            state.push_reserved(Versioned {
                version: *version,
                value: balances[number],
            });
        }
        Ok(state)
    }

    /// Gives each row the version and the value that it has in a state.
    pub fn install(&mut self, state: &[Versioned])
        requires many { length state.now ≡ length self.old.rows.balances }
        requires few { length state.now ≤ MOST_ROWS }
        ensures rows { self.new.rows ≡ rows_of_state state.now }
        ensures version { self.new.version ≡ self.old.version }
    {
        for (number, held) in state.iter().enumerate() {
            self.versions[number] = held.version;
            self.balances.set(row_of(number as u32), held.value);
        }
    }

    /// A row, as it is now.
    pub fn restore_of(&self, row: Row) -> Restore
        requires { row < length self.now.rows.balances }
        ensures { result ≡ restore_in (table_of_rows self.now.rows) row }
    {
        Restore {
            row,
            version: self.versions[row.number() as usize],
            value: self.balances().get(row),
        }
    }
}
