//! Rows with a committed base and a journal of what was read and written since.

ghost use Rattle.std.specs.Prelude.{◌≡◌, ◌<◌, ◌+◌, ◌↔◌, ◌++◌, nat_le, nat_lt, filter, IsTrue, IsErr, IfOk, OnOk, OnErr};
ghost use Rattle.std.specs.Prelude.{if◌then◌else◌, [], length, vec_len, vec_capacity};
ghost use Rattle.eve_stamps.specs.Stripes.{RowsRise, AreWithinLimit, IsStripe, has_row, row_in, rows_now, is_above};
ghost use Rattle.eve_stamps.specs.Stripes.{settled_to, without_journal, restores_of};

use crate::HeldRow;
use crate::journal::Journaled;
use crate::rows::{append_changed, changed_count, place_of, settle_up_to};
use eve_accounts::Row;
use eve_grammar::Restore;
use std::alloc::{AllocError, Global};
use std::collections::VecDeque;
use std::marker::Model;

/// Some rows, each with a version and a value in cents: as they are committed, and what requests read and wrote since,
/// tick by tick.
///
/// docs/DEPLOYMENT.md, "Stripe". Contracts see the committed rows, the journal and the greatest tick so far (`Stripe`
/// of
/// the specs); `rows_now` is what the rows have now.
#[derive(Drop)]
pub struct Stripe {
    pub(crate) base: Vec<HeldRow>,
    pub(crate) rows: Vec<HeldRow>,
    pub(crate) journal: VecDeque<Journaled>,
    pub(crate) greatest: Option<u64>,
}

impl Model for Stripe {
    ghost use Rattle.eve_stamps.specs.Stripes as model;

    ghost Value = { model.Stripe };

    ghost use Rattle.eve_stamps.specs.HeldRows.{stripe_held, IsHeldStripe};

    ghost view = { λ s. stripe_held s.base.items s.journal.items s.greatest };

    ghost invariant = { λ s. IsHeldStripe s.base.items s.rows.items s.journal.items s.greatest };
}

impl Stripe {
    /// These rows, committed, with nothing journaled and no tick so far.
    pub fn new(alloc: Global, rows: &[HeldRow]) -> Result<Stripe, AllocError>
        requires rise { RowsRise rows.now }
        requires limit { AreWithinLimit rows.now }
        ensures { IfOk result (λ stripe. stripe ≡ record { base = rows.now; journal = []; greatest = None }) }
    {
        Ok(Stripe {
            base: Vec::from_slice(alloc, rows)?,
            rows: Vec::from_slice(alloc, rows)?,
            journal: VecDeque::new(alloc),
            greatest: None,
        })
    }

    /// Does nothing: its contract says what is true of every stripe.
    pub fn recall_stripe(&self)
        ensures { IsStripe self.now }
    {
        let _ = &self.base;
    }

    /// Whether the row lies in it.
    pub fn has(&self, row: Row) -> bool
        ensures { result ≡ has_row self.now row }
    {
        self.see(row).is_some()
    }

    /// The row, with the version and the value that it has now.
    pub fn get(&self, row: Row) -> HeldRow
        requires there { IsTrue (has_row self.now row) }
        ensures { result ≡ row_in (rows_now self.now) row }
    {
        match self.see(row) {
            Some(held) => held,
            None => unreachable!(),
        }
    }

    /// Makes the journal up to that tick part of the committed base. The rows stay as they are now.
    pub fn settle(&mut self, tick: u64)
        ensures { self.new ≡ settled_to tick self.old }
    {
        if self.is_all_up_to(tick) && self.rows.len() / 8 <= self.journal.len() {
            // Copying is faster here than writing entry by entry.
            self.base.copy_from_slice(&self.rows);
            self.journal.clear();
            return;
        }
        settle_up_to(&mut self.base, &mut self.journal, tick);
    }

    /// Returns to the committed base, and appends each row that the journal wrote, as the base has it, by rising row.
    ///
    /// Takes no memory: it fails, changing nothing, exactly where the lent vector has no room for these rows.
    pub fn undo(&mut self, restores: &mut Vec<Restore>) -> Result<(), AllocError>
        ensures undone { OnOk result (self.new ≡ without_journal self.old) }
        ensures restores { OnOk result (restores.new.items ≡ restores.old.items ++ restores_of self.old) }
        ensures room { IsErr result
            ↔ (vec_capacity restores.old < vec_len restores.old + length (restores_of self.old)) }
        ensures kept { OnErr result (self.new ≡ self.old) }
        ensures restores_kept { OnErr result (restores.new.items ≡ restores.old.items) }
        ensures capacity { vec_capacity restores.new ≡ vec_capacity restores.old }
    {
        if restores.capacity() - restores.len() < changed_count(&self.base, &self.rows) {
            return Err(AllocError);
        }
        append_changed(&self.base, &self.rows, restores);
        self.go_back();
        Ok(())
    }

    /// Returns to the committed base, and lists nothing. It takes no memory.
    pub fn go_back(&mut self)
        ensures { self.new ≡ without_journal self.old }
    {
        self.rows.copy_from_slice(&self.base);
        self.journal.clear();
    }

    /// The row as it is now, if it lies in the stripe.
    pub(crate) fn see(&self, row: Row) -> Option<HeldRow>
        ensures { result ≡ (if has_row self.now row then Some (row_in (rows_now self.now) row) else None) }
    {
        match place_of(&self.base, row) {
            Some(place) => Some(self.rows[place]),
            None => None,
        }
    }

    /// Whether its greatest tick is at most this one. Then the whole journal is up to it.
    fn is_all_up_to(&self, tick: u64) -> bool
        ensures journal { IsTrue result → filter (λ j. nat_le j.tick tick) self.now.journal ≡ self.now.journal }
        ensures rest { IsTrue result → filter (λ j. nat_lt tick j.tick) self.now.journal ≡ [] }
    {
        match self.greatest {
            Some(greatest) => greatest <= tick,
            None => false,
        }
    }

    /// Whether the tick is above each that it has had.
    pub(crate) fn is_above(&self, tick: u64) -> bool
        ensures { result ≡ is_above tick self.now.greatest }
    {
        match self.greatest {
            Some(greatest) => greatest < tick,
            None => true,
        }
    }
}
