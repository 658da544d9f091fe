//! Replicas.

ghost use Rattle.std.specs.Prelude.{◌≡◌, ◌+◌, ◌-◌, ◌*◌, ◌^◌, ◌<◌, ◌≤◌, ◌↔◌, ◌⊎◌, true, false, Err, Some, length};
ghost use Rattle.std.specs.Prelude.{option_map, slice_get};
ghost use Rattle.std.specs.Prelude.{IsTrue, IfOk, IfErr, OnOk, OnErr, IsOk};
ghost use Rattle.eve_grammar.specs.Bodies.{transfer as plain_state};
ghost use Rattle.eve_grammar.specs.Limits.{is_batch};
ghost use Rattle.eve_write.specs.Data.{batch as plain, attempt, commit, rollback};
ghost use Rattle.eve_stamps.specs.Stripes.{HaveRightVersions};
ghost use Rattle.eve_token.specs.Token.{rows_root};
ghost use Rattle.eve_attempts.specs.Ledgers.{ledger_rows, opening};
ghost use Rattle.eve_attempts.specs.ClosedAttempts.{touched_in_batch, AreMismatched};
ghost use Rattle.eve_attempts.specs.CommitsAndRollbacks.{RollsBack};
ghost use Rattle.eve_attempts.specs.Transfers.{IsStateOf, Transfers};
ghost use Rattle.eve_replica.specs.Replicas.{Attempts, FailsAttempt, ClosesOwn};
ghost use Rattle.eve_replica.specs.Replicas.{IsDue, IsFirstOpen, CommitsFirst};

use crate::attempting::assignment_of;
use crate::fault::{AttemptFault, CloseFault, CommitFault, TransferFault, fault_of};
use eve_accounts::{Balances, Names};
use eve_attempts::{CloseFault as Unclosed, Ledger};
use eve_floor::{Floor, Workers, run_batches};
use eve_grammar::{MOST_BATCHES, MOST_WINDOW, MOST_WORKERS, TransferData};
use eve_recorder::Gate;
use eve_smallbank::Versioned;
use eve_stamps::AccessRecord;
use eve_workload::look_up;
use eve_write::{AttemptData, BatchData, CommitData, RollbackData};
use std::alloc::{AllocError, Global};
use std::marker::Model;
use std::sync::Wait;
use std::thread::Threads;

/// One replica: rows in stripes that its workers lock, and its own ledger of these rows, by which what the workers
/// noted becomes an attempt or is refused.
///
/// docs/TRACE.md, "The deployment's procedure", and docs/MODEL.md, "Section state, fate". Contracts see its customers'
/// names, its ledger and whether it is broken (`Replica` of the specs).
#[derive(Drop)]
pub struct Replica<'n> {
    pub(crate) names: &'n Names<'n>,
    pub(crate) floor: Floor<'n>,
    pub(crate) workers: Workers,
    pub(crate) ledger: Ledger,
    // of each open attempt the greatest tick of its records, where this replica's workers ran it
    pub(crate) settles: Vec<Option<u64>>,
    pub(crate) is_broken: bool,
    // why the last attempt that failed did
    pub(crate) fault: Option<AttemptFault>,
}

impl<'n> Model for Replica<'n> {
    ghost use Rattle.std.specs.Prelude.{◌≡◌, ◌*◌, length, vec_len};
    ghost use Rattle.eve_attempts.specs.Ledgers.{ledger_rows};
    ghost use Rattle.eve_replica.specs.Replicas as model;

    ghost Value = { model.Replica };

    ghost view = { λ r. record { names = r.names.now.items; ledger = r.ledger; is_broken = r.is_broken } };

    ghost invariant = { λ r. (r.floor ≡ r.names.now.items) × (r.workers.many ≡ r.ledger.workers)
        × (vec_len r.settles ≡ length r.ledger.opened) × (ledger_rows r.ledger ≡ 2 * length r.names.now.items) };
}

impl<'n> Replica<'n> {
    /// A replica with these opening balances, for the given number of workers, and with at most `window` attempts open
    /// at once. Its tokens are those of the version, 1 or 2.
    ///
    /// There are two rows for each name, and in version 2 some name. It is refused only where memory runs out.
    pub fn new(
        alloc: Global,
        version: u16,
        names: &'n Names<'n>,
        balances: &Balances,
        workers: u8,
        window: u8,
    ) -> Result<Replica<'n>, AllocError>
        requires version { (version ≡ 1) ⊎ (version ≡ 2) }
        requires some { version ≡ 2 → 0 < length balances.now }
        requires rows { length balances.now ≡ 2 * length names.now.items }
        requires workers { (1 ≤ workers) × (workers ≤ MOST_WORKERS) }
        requires window { (1 ≤ window) × (window ≤ MOST_WINDOW) }
        ensures { let ledger = opening version balances.now workers window in
            IfOk result (λ r. r ≡ record { names = names.now.items; ledger = ledger; is_broken = false }) }
    {
        let crew = Workers::new(alloc, workers)?;
        let floor = Floor::new(alloc, names, balances)?;
        let settles = Vec::with_capacity(alloc, window as usize)?;
        let ledger = Ledger::new(alloc, version, balances, workers, window)?;
        Ok(Replica {
            names,
            floor,
            workers: crew,
            ledger,
            settles,
            is_broken: false,
            fault: None,
        })
    }

    /// The version of the format that its tokens are of.
    pub fn version(&self) -> u16
        ensures { result ≡ self.now.ledger.version }
    {
        self.ledger.version()
    }

    /// The view.
    pub fn view(&self) -> u32
        ensures { result ≡ self.now.ledger.view }
    {
        self.ledger.view()
    }

    /// The number of the last batch that was committed, 0 if there is none.
    pub fn committed(&self) -> u32
        ensures { result ≡ self.now.ledger.committed }
    {
        self.ledger.committed()
    }

    /// The number of open attempts.
    pub fn opened(&self) -> usize
        ensures { result ≡ length self.now.ledger.opened }
    {
        self.ledger.opened()
    }

    /// Whether one more attempt may be open.
    pub fn has_room(&self) -> bool
        ensures { IsTrue result ↔ (length self.now.ledger.opened < self.now.ledger.window) }
    {
        self.ledger.has_room()
    }

    /// The number of the batch that is attempted next. No frame has 2^32, which is next behind the greatest number.
    pub fn next_number(&self) -> u64
        ensures { result ≡ self.now.ledger.committed + 1 + length self.now.ledger.opened }
    {
        self.ledger.next_number()
    }

    /// Whether no attempt came since a rollback, so that the next is serial.
    pub fn is_next_serial(&self) -> bool
        ensures { result ≡ self.now.ledger.is_next_serial }
    {
        self.ledger.is_next_serial()
    }

    /// The token of the open attempt at that place, counted from 0.
    pub fn token(&self, place: usize) -> [u8; 32]
        requires { place < length self.now.ledger.opened }
        ensures { option_map (λ o. o.token) (slice_get self.now.ledger.opened place) ≡ Some result }
    {
        self.ledger.token(place)
    }

    /// What the rows hold after the open attempts. An attempt that failed isn't one of these, so a broken replica
    /// answers too.
    pub fn balances(&self) -> &Balances
        ensures { result.now ≡ self.now.ledger.rows.balances }
    {
        self.ledger.balances()
    }

    /// The root of the Merkle tree over `balances`, of a replica of version 2. It takes no memory, and a broken replica
    /// answers too.
    ///
    /// docs/TRACE.md, "Version 2". What changed since the last root or token is hashed then.
    pub fn root(&mut self) -> [u8; 32]
        requires version { self.old.ledger.version ≡ 2 }
        ensures root { result ≡ rows_root self.old.ledger.rows.balances }
        ensures kept { self.new ≡ self.old }
    {
        self.ledger.root()
    }

    /// Version and value of each row as it is committed, in row order, whatever is open; a broken replica answers too.
    ///
    /// docs/MODEL.md, "Working table, committed table".
    pub fn state(&self, alloc: Global) -> Result<Vec<Versioned>, AllocError>
        ensures { IfOk result (λ state. IsStateOf self.now.ledger state.items) }
    {
        self.ledger.state(alloc)
    }

    /// Whether an attempt failed, and no rollback has succeeded since.
    pub fn is_broken(&self) -> bool
        ensures { result ≡ self.now.is_broken }
    {
        self.is_broken
    }
}

impl<'n> Replica<'n> {
    /// Runs the batch by the replica's workers in threads, makes an attempt of what they noted, and opens it.
    ///
    /// docs/TRACE.md, "The deployment's procedure". `has_room`, `next_number`, `view` and `is_next_serial` say what the
    /// conditions ask; the next number is at most `MOST_BATCHES`. The gate is entered before each execution, with the
    /// request's index. Nothing that the threads did is believed: the attempt is what the replica's own ledger makes
    /// of the records that they noted (`AreNotedOf`, `Closes`). `Mismatch` says that they make
    /// none. `Full`, `Spent`, `NoRow`, `TickOrder`, `Worn` and `Memory` are one worker's, where several have one. Each
    /// fault but `Broken` leaves the ledger as it was, and breaks the replica until `rollback` succeeds. May wait for
    /// other threads.
    pub fn run_attempt<R: Threads + Wait + Sync, G: Gate>(
        &mut self,
        rt: &R,
        alloc: Global,
        batch: &BatchData,
        view: u32,
        serial: bool,
        gate: &G,
    ) -> Result<AttemptData, AttemptFault>
        requires last { self.old.ledger.committed + 1 + length self.old.ledger.opened ≤ MOST_BATCHES }
        requires room { length self.old.ledger.opened < self.old.ledger.window }
        requires view { view ≡ self.old.ledger.view }
        requires serial { serial ≡ self.old.ledger.is_next_serial }
        requires batch { IsTrue (is_batch (plain batch.now)) }
        ensures attempted { IfOk result (λ a. Attempts view serial self.old self.new (plain batch.now) (attempt a)) }
        ensures refused { IfErr result (λ why. FailsAttempt why self.old self.new) }
    {
        if self.is_broken {
            return Err(AttemptFault::Broken);
        }
        let Ok(touched) = look_up(alloc, batch.requests.as_slice(), self.names) else {
            return Err(self.broken_by(AttemptFault::Memory));
        };
        let touched = touched.as_slice();
        let assignment = assignment_of(&self.floor, self.workers.many(), batch, touched, serial);
        match run_batches(
            rt,
            alloc,
            &self.floor,
            &mut self.workers,
            &[assignment],
            gate,
        ) {
            Ok(noted) => self.close_noted(alloc, batch, touched, noted[0].as_slice()),
            Err(why) => Err(self.broken_by(fault_of(why))),
        }
    }

    /// Makes an attempt of records that a caller took, and opens it.
    ///
    /// `has_room`, `next_number`, `view` and `is_next_serial` say what the conditions ask; the number is at most
    /// `MOST_BATCHES`. The stripes stay as they were: a later `run_attempt` over the rows that it wrote can be
    /// `Mismatch` until a rollback discards it, and for good once it is committed. `Broken` is tested first, and comes
    /// exactly where the replica is broken. `Mismatch` comes where the records make none. After a refusal, of memory
    /// too, nothing has changed.
    pub fn close_attempt(
        &mut self,
        alloc: Global,
        seq: u32,
        view: u32,
        serial: bool,
        batch: &BatchData,
        records: &[AccessRecord],
    ) -> Result<AttemptData, CloseFault>
        requires seq { seq ≡ self.old.ledger.committed + 1 + length self.old.ledger.opened }
        requires last { seq ≤ MOST_BATCHES }
        requires room { length self.old.ledger.opened < self.old.ledger.window }
        requires view { view ≡ self.old.ledger.view }
        requires serial { serial ≡ self.old.ledger.is_next_serial }
        requires batch { IsTrue (is_batch (plain batch.now)) }
        ensures closed { IfOk result (λ a. ClosesOwn (record { seq = seq; view = view; serial = serial })
            self.old self.new (plain batch.now) records.now (attempt a)) }
        ensures mismatch { result ≡ Err CloseFault.Mismatch
            → AreMismatched (record { seq = seq; view = view; serial = serial }) self.old.ledger (plain batch.now)
            (touched_in_batch self.old.names (plain batch.now)) records.now }
        ensures broken { (result ≡ Err CloseFault.Broken) ↔ (self.old.is_broken ≡ true) }
        ensures refused { OnErr result (self.new ≡ self.old) }
    {
        if self.is_broken {
            return Err(CloseFault::Broken);
        }
        let Ok(touched) = look_up(alloc, batch.requests.as_slice(), self.names) else {
            return Err(CloseFault::Memory);
        };
        match self.close(alloc, batch, touched.as_slice(), records, None) {
            Ok(attempt) => Ok(attempt),
            Err(Unclosed::Memory) => Err(CloseFault::Memory),
            Err(Unclosed::Mismatch) => Err(CloseFault::Mismatch),
        }
    }

    /// Commits the batch with this number, of which the first open attempt must be. It takes no memory and waits for
    /// nobody.
    ///
    /// docs/MODEL.md, "Section state, fate". `Broken` is tested first, so that `NotOpen` comes exactly where the
    /// replica isn't broken, and no attempt is open or the first open one has another number. A refusal changes
    /// nothing.
    pub fn commit(&mut self, seq: u32) -> Result<CommitData, CommitFault>
        ensures committed { IfOk result (λ c. CommitsFirst self.old self.new (commit c)) }
        ensures there { IsOk result ↔ ((self.old.is_broken ≡ false) × IsFirstOpen self.old.ledger seq) }
        ensures broken { (result ≡ Err CommitFault.Broken) ↔ (self.old.is_broken ≡ true) }
        ensures refused { OnErr result (self.new ≡ self.old) }
    {
        if self.is_broken {
            return Err(CommitFault::Broken);
        }
        let Ok(commit) = self.ledger.commit(seq) else {
            return Err(CommitFault::NotOpen);
        };
        if let Some(tick) = self.settles.remove(0) {
            self.floor.settle(tick);
        }
        Ok(commit)
    }

    /// Applies a state that another replica committed: rows, number and view are its, nothing is open, and the next
    /// attempt is parallel. It takes no memory and waits for nobody.
    ///
    /// docs/TRACE.md, "Version 2". The state has each row of the replica, and its versions are at most `MOST_VERSIONS`:
    /// so has every state of that many rows with a spelling. `Broken` is tested first, so that `NotDue` comes exactly
    /// where the replica isn't broken, and the number isn't above the last committed one or the view is below the
    /// replica's. A refusal changes nothing.
    pub fn transfer(&mut self, state: &TransferData) -> Result<(), TransferFault>
        requires rows { length state.now.rows.items ≡ ledger_rows self.old.ledger }
        requires versions { HaveRightVersions (plain_state state.now).rows }
        ensures transferred { OnOk result (Transfers (plain_state state.now) self.old.ledger self.new.ledger) }
        ensures whole { OnOk result (self.new ≡ record self.old { ledger = self.new.ledger }) }
        ensures there { IsOk result ↔ ((self.old.is_broken ≡ false) × IsDue (plain_state state.now) self.old.ledger) }
        ensures broken { (result ≡ Err TransferFault.Broken) ↔ (self.old.is_broken ≡ true) }
        ensures refused { OnErr result (self.new ≡ self.old) }
    {
        if self.is_broken {
            return Err(TransferFault::Broken);
        }
        let _many = self.names.len();
        if self.ledger.apply_transfer(state).is_err() {
            return Err(TransferFault::NotDue);
        }
        self.settles.clear();
        self.floor.install(state);
        Ok(())
    }

    /// Discards all open attempts, returns all rows to what is committed, also those that only a failed attempt wrote,
    /// and goes on in the next view. The replica isn't broken any more.
    ///
    /// docs/MODEL.md, "Working table, committed table". All memory is asked for before a first stripe goes back, and
    /// nothing else is refused; where it runs out nothing has changed.
    pub fn rollback(&mut self, alloc: Global) -> Result<RollbackData, AllocError>
        requires { self.old.ledger.view < 2 ^ 32 - 1 }
        ensures rolled_back { IfOk result (λ r. RollsBack self.old.ledger self.new.ledger (rollback r)) }
        ensures whole { OnOk result (self.new ≡ record self.old { ledger = self.new.ledger; is_broken = false }) }
        ensures refused { OnErr result (self.new ≡ self.old) }
    {
        let rollback = self.ledger.rollback(alloc)?;
        self.settles.clear();
        self.is_broken = false;
        self.floor.go_back();
        Ok(rollback)
    }
}
