//! A replica's own ledger of its rows.

ghost use Rattle.std.specs.Prelude.{◌≡◌, ◌<◌, ◌≤◌, ◌+◌, ◌-◌, ◌^◌, ◌↔◌, ◌⊎◌, ℕ, List, length, slice_get, option_map};
ghost use Rattle.std.specs.Prelude.{Some, IsTrue, IfOk, OnErr, IsOk, Err};
ghost use Rattle.eve_grammar.specs.Limits.{is_batch};
ghost use Rattle.eve_grammar.specs.Bodies.{transfer};
ghost use Rattle.eve_token.specs.Token.{rows_root};
ghost use Rattle.eve_write.specs.Data.{batch as plain, attempt, commit, rollback};
ghost use Rattle.eve_attempts.specs.Ledgers.{IsLedger, opening, ledger_rows};
ghost use Rattle.eve_attempts.specs.ClosedAttempts.{touched_in_batch, worker_limit, Closes, AreMismatched};
ghost use Rattle.eve_attempts.specs.CommitsAndRollbacks.{Commits, RollsBack};
ghost use Rattle.eve_attempts.specs.Transfers.{IsStateOf, Transfers};

use crate::fault::{CloseFault, NotDue, NotOpen};
use crate::noted::BatchRecords;
use crate::opened::OpenAttempt;
use crate::prefix::AttemptHead;
use crate::replies::view_fits;
use crate::restores::{restore_all, undo_all, written_rows};
use crate::rows::Rows;
use crate::taken::take;
use crate::walk::write_along;
use eve_accounts::Balances;
use eve_grammar::{MOST_BATCHES, MOST_ROWS, TransferData, token_fits};
use eve_smallbank::{Touched, Versioned};
use eve_stamps::AccessRecord;
use eve_write::{AttemptData, BatchData, CommitData, RollbackData};
use std::alloc::{AllocError, Global};
use std::marker::Model;

/// Version and balance of each row as the open attempts left them, with what is kept of these attempts: a commit needs
/// their views and tokens, a rollback what they wrote.
///
/// docs/DEPLOYMENT.md, "A replica's ledger". Contracts see `Ledger` of the specs:
/// `table_now` is what the rows have, `rows_committed` what they have as they are committed.
#[derive(Drop)]
pub struct Ledger {
    rows: Rows,
    opened: Vec<OpenAttempt>,
    view: u32,
    committed: u32,
    is_next_serial: bool,
    workers: u8,
    window: u8,
}

impl Model for Ledger {
    ghost use Rattle.eve_attempts.specs.Ledgers as model;

    ghost Value = { model.Ledger };

    ghost use Rattle.eve_attempts.specs.HeldLedgers.{ledger_of};

    ghost view = { ledger_of };

    ghost invariant = { λ s. model.IsLedger (ledger_of s) };
}

impl Ledger {
    /// All rows at version 0 with these balances, the view 0, nothing committed and nothing open: for a version of the
    /// trace and this many workers, and with at most `window` attempts open at once.
    pub fn new(
        alloc: Global,
        version: u16,
        balances: &Balances,
        workers: u8,
        window: u8,
    ) -> Result<Ledger, AllocError>
        requires version { (version ≡ 1) ⊎ (version ≡ 2) }
        requires some { version ≡ 2 → 0 < length balances.now }
        ensures { IfOk result (λ ledger. ledger ≡ opening version balances.now workers window) }
    {
        Ok(Ledger {
            rows: Rows::new(alloc, version, balances)?,
            opened: Vec::new(alloc),
            view: 0,
            committed: 0,
            is_next_serial: false,
            workers,
            window,
        })
    }

    /// Does nothing: its contract says what is true of every ledger.
    pub fn recall_ledger(&self)
        ensures { IsLedger self.now }
    {
        let _ = &self.rows;
    }

    /// The version of the trace.
    pub fn version(&self) -> u16
        ensures { result ≡ self.now.version }
    {
        self.rows.version()
    }

    /// The view.
    pub fn view(&self) -> u32
        ensures { result ≡ self.now.view }
    {
        self.view
    }

    /// The number of the last batch that was committed, 0 where none was.
    pub fn committed(&self) -> u32
        ensures { result ≡ self.now.committed }
    {
        self.committed
    }

    /// How many attempts are open.
    pub fn opened(&self) -> usize
        ensures { result ≡ length self.now.opened }
    {
        self.opened.len()
    }

    /// The number of the batch that is attempted next. No frame has 2^32, which is next behind the greatest number.
    pub fn next_number(&self) -> u64
        ensures { result ≡ self.now.committed + 1 + length self.now.opened }
    {
        self.recall_ledger();
        u64::from(self.committed) + 1 + self.opened.len() as u64
    }

    /// Whether one more attempt may be open.
    pub fn has_room(&self) -> bool
        ensures { IsTrue result ↔ (length self.now.opened < self.now.window) }
    {
        self.opened.len() < self.window as usize
    }

    /// Whether no attempt came since a rollback, so that the next is serial.
    pub fn is_next_serial(&self) -> bool
        ensures { result ≡ self.now.is_next_serial }
    {
        self.is_next_serial
    }

    /// The token of the open attempt at that place, counted from 0.
    pub fn token(&self, place: usize) -> [u8; 32]
        requires { place < length self.now.opened }
        ensures { option_map (λ o. o.token) (slice_get self.now.opened place) ≡ Some result }
    {
        self.opened[place].token
    }

    /// What the rows hold after the open attempts.
    pub fn balances(&self) -> &Balances
        ensures { result.now ≡ self.now.rows.balances }
    {
        self.rows.balances()
    }

    /// The root over what the rows hold after the open attempts, in version 2. It takes no memory.
    ///
    /// docs/TRACE.md, "Merkle token".
    pub fn root(&mut self) -> [u8; 32]
        requires version { self.old.version ≡ 2 }
        ensures root { result ≡ rows_root self.old.rows.balances }
        ensures same { self.new ≡ self.old }
    {
        self.rows.root()
    }

    /// Version and value of each row as it is committed, in row order, whatever attempts are open.
    ///
    /// docs/MODEL.md, "Working table, committed table".
    pub fn state(&self, alloc: Global) -> Result<Vec<Versioned>, AllocError>
        ensures { IfOk result (λ state. IsStateOf self.now state.items) }
    {
        let mut rows = self.rows.copy(alloc)?;
        undo_all(&mut rows, self.opened.as_slice());
        rows.listed(alloc)
    }

    /// How many workers an attempt may have: worker 0 alone in serial mode.
    fn workers_for(&self, serial: bool) -> u8
        ensures { result ≡ worker_limit self.now serial }
    {
        if serial { 1 } else { self.workers }
    }

    /// Makes an attempt of the records that were taken of a batch, in the order in which they were taken, and opens it.
    ///
    /// `has_room`, `next_number`, `view` and `is_next_serial` say what the conditions ask; the number is at most
    /// `MOST_BATCHES`. `touched` is what each of the batch's requests touches: the answers of `eve_smallbank::touched`,
    /// so that names are looked up once for all replicas. The certificate is the indexes by rising tick, equal ticks by
    /// index. The token is that of the version; of version 2 it hashes what the rows written since the last one make
    /// stale, once. Refused with `Mismatch` are records that are no attempt on these rows (`AreRight`). All memory is
    /// asked for before a row changes, and a refusal changes nothing.
    ///
    /// docs/MODEL.md, "Section state, fate", "A record fits its request" and "Visible version, chained".
    pub fn close(
        &mut self,
        alloc: Global,
        prefix: AttemptHead,
        batch: &BatchData,
        touched: &[Touched],
        records: &[AccessRecord],
    ) -> Result<AttemptData, CloseFault>
        requires seq { prefix.seq ≡ self.old.committed + 1 + length self.old.opened }
        requires last { prefix.seq ≤ MOST_BATCHES }
        requires room { length self.old.opened < self.old.window }
        requires view { prefix.view ≡ self.old.view }
        requires serial { prefix.serial ≡ self.old.is_next_serial }
        requires batch { IsTrue (is_batch (plain batch.now)) }
        requires touched { (names : List (List ℕ)) × (touched.now ≡ touched_in_batch names (plain batch.now)) }
        ensures closed { IfOk result (λ a.
            Closes prefix self.old self.new (plain batch.now) touched.now records.now (attempt a)) }
        ensures mismatch { result ≡ Err CloseFault.Mismatch
            → AreMismatched prefix self.old (plain batch.now) touched.now records.now }
        ensures refused { OnErr result (self.new ≡ self.old) }
    {
        view_fits(prefix.view);
        let workers = self.workers_for(prefix.serial);
        let rows = self.rows.len();
        let noted = BatchRecords {
            batch,
            touched,
            records,
        };
        let mut taken = take(alloc, workers, prefix.serial, rows, noted)?;
        if self.opened.reserve(1).is_err() {
            return Err(CloseFault::Memory);
        }
        let order = taken.order.as_slice();
        if !write_along(&mut self.rows, records, order, &mut taken.written) {
            return Err(CloseFault::Mismatch);
        }
        let token = self.rows.token(prefix.seq, taken.replies.as_slice());
        token_fits(&token);
        self.opened.push_reserved(OpenAttempt {
            view: prefix.view,
            token,
            written: taken.written,
        });
        self.is_next_serial = false;
        Ok(AttemptData {
            seq: prefix.seq,
            view: prefix.view,
            serial: prefix.serial,
            certificate: taken.certificate,
            replies: taken.replies,
            token,
            accesses: taken.accesses,
        })
    }

    /// Commits the batch with this number, which the first open attempt must be of. It takes no memory.
    ///
    /// docs/MODEL.md, "Section state, fate". `NotOpen` comes where none is open or the first is of another batch, and
    /// changes nothing.
    pub fn commit(&mut self, seq: u32) -> Result<CommitData, NotOpen>
        ensures committed { IfOk result (λ c. Commits self.old self.new (commit c)) }
        ensures there { IsOk result ↔ ((seq ≡ self.old.committed + 1) × (0 < length self.old.opened)) }
        ensures refused { OnErr result (self.new ≡ self.old) }
    {
        if self.opened.is_empty() || seq != self.committed + 1 {
            return Err(NotOpen);
        }
        let first = self.opened.remove(0);
        let token = first.token;
        self.committed = seq;
        Ok(CommitData {
            seq,
            view: first.view,
            token,
        })
    }

    /// Discards all open attempts, of which there may be none, and goes on in the next view.
    ///
    /// docs/MODEL.md, "Working table, committed table". Where memory runs out nothing has changed.
    pub fn rollback(&mut self, alloc: Global) -> Result<RollbackData, AllocError>
        requires { self.old.view < 2 ^ 32 - 1 }
        ensures rolled_back { IfOk result (λ r. RollsBack self.old self.new (rollback r)) }
        ensures refused { OnErr result (self.new ≡ self.old) }
    {
        let numbers = written_rows(alloc, self.opened.as_slice())?;
        let mut restores = Vec::with_capacity(alloc, numbers.len())?;
        undo_all(&mut self.rows, self.opened.as_slice());
        restore_all(&self.rows, numbers.as_slice(), &mut restores);
        self.opened.clear();
        self.view += 1;
        self.is_next_serial = true;
        Ok(RollbackData {
            to: self.committed,
            view: self.view,
            restores,
        })
    }

    /// Applies a state of a batch that isn't committed here, in a view that isn't behind: rows, number and view are
    /// its, nothing is open any more, and the next attempt is parallel. It takes no memory.
    ///
    /// docs/DEPLOYMENT.md, "A replica's ledger". `NotDue` comes where the state is of no later batch or of an earlier
    /// view,
    /// and changes nothing.
    pub fn apply_transfer(&mut self, state: &TransferData) -> Result<(), NotDue>
        requires rows { length state.now.rows.items ≡ ledger_rows self.old }
        requires few { ledger_rows self.old ≤ MOST_ROWS }
        ensures taken { IfOk result (λ _. Transfers (transfer state.now) self.old self.new) }
        ensures due { IsOk result
            ↔ ((self.old.committed < state.now.seq) × (self.old.view ≤ state.now.view)) }
        ensures refused { OnErr result (self.new ≡ self.old) }
    {
        if state.seq <= self.committed || state.view < self.view {
            return Err(NotDue);
        }
        self.rows.install(state.rows.as_slice());
        self.opened.clear();
        self.view = state.view;
        self.committed = state.seq;
        self.is_next_serial = false;
        Ok(())
    }
}
