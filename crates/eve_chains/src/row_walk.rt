//! One row walked by itself, along its own entries.

ghost use Rattle.std.specs.Prelude.{◌≡◌, ◌++◌, ◌∷◌, ◌<◌, [], List, Option, Some, ℕ, All, IfOk, OnOk, map};
ghost use Rattle.eve_smallbank.specs.declared.versioned.Versioned.{Versioned as VersionedValue};
ghost use Rattle.eve_views.specs.First.{first_of};
ghost use Rattle.eve_views.specs.declared.fault.Code.{Code as CodeValue};
ghost use Rattle.eve_chains.specs.Along.{fault_if};
ghost use Rattle.eve_chains.specs.inner.Bases.{base_at};
ghost use Rattle.eve_chains.specs.Rows.{Noted, arrived_by, updated_by};
ghost use Rattle.eve_chains.specs.Changes.{changes_along};
ghost use Rattle.eve_chains.specs.inner.Gathered.{as_noted, own_along};
ghost use Rattle.eve_chains.specs.inner.Grouped.{HasGroups};
ghost use Rattle.eve_chains.specs.inner.Walked.{pair_of, IsMismatch, IsFirstOnRow, HasChecked};

use crate::bases::Bases;
use crate::changed::{Changed, add_change};
use crate::grouped::Grouped;
use crate::note::Note;
use eve_accounts::Row;
use eve_smallbank::Versioned;
use eve_views::{Code, Fault, first_of};
use std::alloc::AllocError;

/// Walks one row by itself: from what it has at first, along its own entries in their order, which in each part are
/// those at its number, to the last, also where something is wrong. Gives the row's first fault, which needn't be the
/// first that the walk meets, and adds what the committed batches change of the row, batch by batch. Nothing else of
/// the walk is kept.
///
/// docs/MODEL.md, "What an entry must see".
pub(crate) fn walk_row(
    row: Row,
    parts: &[Grouped<Note>],
    bases: &Bases<'_, '_>,
    replica: u8,
    changes: &mut Vec<Changed>,
) -> Result<Option<Fault>, AllocError>
    requires { (rows : ℕ) × (row < rows) × All (HasGroups rows) parts.now }
    ensures first { IfOk result (IsFirstOnRow replica (base_at bases.now row) (own_along row parts.now)) }
    ensures changes { OnOk result (changes.new.items ≡ changes_along changes.old.items (own_along row parts.now)) }
{
    let mut walk = RowWalk::new(bases.row(row, 0));
    let number = row.number() as usize;
    for part in parts {
        walk_part(&mut walk, part.group(number), bases, replica, row, changes)?;
    }
    Ok(walk.first)
}

/// Leads a row's walk along those of its entries that stand in one part.
fn walk_part(
    walk: &mut RowWalk,
    notes: &[Note],
    bases: &Bases<'_, '_>,
    replica: u8,
    row: Row,
    changes: &mut Vec<Changed>,
) -> Result<(), AllocError>
    ensures checked { OnOk result ((ns : List Noted) → HasChecked replica (base_at bases.now row) ns walk.old
        → HasChecked replica (base_at bases.now row) (ns ++ map as_noted notes.now) walk.new) }
    ensures changes { OnOk result (changes.new.items ≡ changes_along changes.old.items (map as_noted notes.now)) }
{
    for note in notes {
        walk.meet(replica, bases, row, note);
        note_change(changes, note)?;
    }
    Ok(())
}

/// Adds what a note changes, where it is a write of an attempt that is committed.
fn note_change(changes: &mut Vec<Changed>, note: &Note) -> Result<(), AllocError>
    ensures { OnOk result (changes.new.items ≡ changes_along changes.old.items (as_noted note.now ∷ [])) }
{
    if note.kind.is_write() && note.commits {
        add_change(
            changes,
            Changed {
                number: note.number,
                row: note.row,
                value: note.after,
            },
        )?;
    }
    Ok(())
}

/// Where a row's walk has come to.
#[derive(Clone, Copy)]
pub struct RowWalk {
    /// How many states were transferred before the last entry's attempt, 0 before the first entry.
    pub transferred: u32,
    /// The view of the last entry, 0 before the first.
    pub view: u32,
    /// What the row has after the committed attempts behind the last of these states.
    pub committed: Versioned,
    /// The same with the attempts of the view that are open.
    pub working: Versioned,
    /// The first fault so far.
    pub first: Option<Fault>,
}

impl RowWalk {
    /// A row with what it has at first, before any entry.
    fn new(opening: Versioned) -> RowWalk
        ensures { (e : ℕ) (bases : ℕ → VersionedValue) → bases 0 ≡ opening → HasChecked e bases [] result }
    {
        let committed = opening;
        let working = opening;
        RowWalk {
            transferred: 0,
            view: 0,
            committed,
            working,
            first: None,
        }
    }

    /// Goes to where the row's next entry comes. Where another number of states was transferred, the row has what the
    /// last of them has, whatever came before it. With a new view a rollback came, which took the open attempts back.
    fn go_to(&mut self, bases: &Bases<'_, '_>, row: Row, note: &Note)
        ensures pair { pair_of self.new
            ≡ arrived_by (base_at bases.now row) (pair_of self.old) (as_noted note.now) }
        ensures first { self.new.first ≡ self.old.first }
    {
        if note.transferred == self.transferred && note.view == self.view {
            return;
        }
        if note.transferred != self.transferred {
            self.committed = bases.row(row, note.transferred);
        }
        self.transferred = note.transferred;
        self.view = note.view;
        self.working = self.committed;
    }

    /// Takes the write of the entry that comes here, if it is one.
    fn take(&mut self, note: &Note)
        ensures pair { pair_of self.new ≡ updated_by (pair_of self.old) (as_noted note.now) }
        ensures first { self.new.first ≡ self.old.first }
    {
        if note.kind.is_write() {
            let left = Versioned {
                version: note.version + 1,
                value: note.after,
            };
            let kept = left;
            self.working = left;
            if note.commits {
                self.committed = kept;
            }
        }
    }

    /// Keeps the first of the fault before and of this one.
    fn tell(&mut self, fault: Fault)
        ensures pair { pair_of self.new ≡ pair_of self.old }
        ensures first { self.new.first ≡ first_of self.old.first (Some fault) }
    {
        let first = first_of(self.first, Some(fault));
        self.first = first;
    }

    /// Judges what the entry that comes here sees, which mostly is right.
    fn judge(&mut self, replica: u8, note: &Note)
        ensures pair { pair_of self.new ≡ pair_of self.old }
        ensures first { (wrong : Option CodeValue)
            × IsMismatch self.old.working (as_noted note.now).entry wrong
            × (self.new.first ≡ first_of self.old.first (fault_if replica note.now.at wrong)) }
    {
        if let Some(code) = wrong_sight(&self.working, note) {
            self.tell(Fault {
                code,
                offset: u64::from(note.at),
                replica: Some(replica),
            });
        }
    }

    /// The row's next entry met: what it sees is judged, and its write taken, also where something is wrong.
    ///
    /// docs/MODEL.md, "What an entry must see".
    fn meet(&mut self, replica: u8, bases: &Bases<'_, '_>, row: Row, note: &Note)
        ensures { (ns : List Noted) → HasChecked replica (base_at bases.now row) ns self.old
            → HasChecked replica (base_at bases.now row) (ns ++ as_noted note.now ∷ []) self.new }
    {
        self.go_to(bases, row, note);
        self.judge(replica, note);
        self.take(note);
    }
}

/// What is wrong with what an entry sees, where its row has this: the version before the value.
/// Decides F40 Version and F41 Value.
fn wrong_sight(row: &Versioned, note: &Note) -> Option<Code>
    ensures { IsMismatch row.now (as_noted note.now).entry result }
{
    if note.version != row.version {
        Some(Code::Version)
    } else if note.seen != row.value {
        Some(Code::Value)
    } else {
        None
    }
}
