//! A section judged in another way than `check` judges it: by one walk along its steps, over a table of all rows.
//!
//! docs/MODEL.md, "A record fits its request" and "What an entry must see". What this walk comes to is shown by no
//! proof: it is compared with what `check` comes to.

ghost use Rattle.std.specs.Prelude.{◌<◌, length};

use eve_accounts::{Balances, Cents, Names};
use eve_frames::{AccessView, TransferView};
use eve_history::{Fate, History};
use eve_smallbank::{Entry, Kind, UpToThree, Versioned, fits, touched};
use eve_views::{Code, Fault, Step, Trace, first_of};
use std::alloc::Global;

/// Where a walk has come to.
#[derive(Drop)]
pub struct Walk {
    /// What each row has after the committed attempts.
    committed: Vec<Versioned>,
    /// How many attempts are committed or discarded: the first of them.
    settled: usize,
    /// How many attempts have come.
    come: usize,
    /// The first fault of records.
    misfit: Option<Fault>,
    /// The first fault of chains.
    wrong: Option<Fault>,
    /// The balances of all rows at the opening, and after each number.
    balances: Vec<Vec<Cents>>,
    /// Whether there was memory for all of it.
    is_whole: bool,
}

/// The entries of a record.
fn entries_of(access: &AccessView<'_>) -> UpToThree<Entry> {
    match access.len() {
        0 => UpToThree::new(),
        1 => UpToThree::one(access.entry(0)),
        2 => UpToThree::two(access.entry(0), access.entry(1)),
        3 => UpToThree::three(access.entry(0), access.entry(1), access.entry(2)),
        _ => unreachable!(),
    }
}

/// Whether a record fits its request; false where the batch has no such request.
fn is_fit(
    trace: &Trace,
    history: &History,
    names: &Names,
    i: usize,
    access: &AccessView<'_>,
) -> bool
    requires { i < length history.now.attempts }
{
    trace.recall_limits();
    let attempt = history.attempt(i);
    let n = attempt.seq();
    let index = access.index() as usize;
    if n == 0 || trace.batch_count() < n || attempt.len() <= index {
        return false;
    }
    let batch = trace.batch(n);
    if batch.len() <= index {
        return false;
    }
    let request = batch.request(index);
    let reached = touched(&request, names);
    fits(
        &request,
        &reached,
        attempt.reply(index),
        &entries_of(access),
    )
}

/// What is wrong with what a record's entries see in the table, if something is: a version before a value.
fn mismatch(table: &[Versioned], access: &AccessView<'_>) -> Option<Code> {
    let mut wrong = None;
    for entry in access.entries() {
        if let Some(row) = table.get(entry.row.number() as usize) {
            if entry.version != row.version {
                return Some(Code::Version);
            }
            if entry.seen != row.value {
                wrong = Some(Code::Value);
            }
        }
    }
    wrong
}

/// Takes the writes among a record's entries: each raises the version that it saw by one.
fn write(table: &mut [Versioned], access: &AccessView<'_>) {
    for entry in access.entries() {
        if entry.kind == Kind::Write {
            if let Some(row) = table.get_mut(entry.row.number() as usize) {
                *row = Versioned {
                    version: entry.version.saturating_add(1),
                    value: entry.after,
                };
            }
        }
    }
}

/// The first of the fault so far and of one with this code at this offset.
fn first_with(first: Option<Fault>, code: Code, offset: u64, replica: u8) -> Option<Fault> {
    let replica = Some(replica);
    first_of(
        first,
        Some(Fault {
            code,
            offset,
            replica,
        }),
    )
}

/// Judges an attempt's entries by what those before them leave in the table, and takes its writes.
fn judge(
    table: &mut [Versioned],
    history: &History,
    i: usize,
    first: Option<Fault>,
) -> Option<Fault>
    requires { i < length history.now.attempts }
{
    let mut first = first;
    for place in 0..history.attempt(i).len() {
        let access = history.ordered(i, place);
        if let Some(code) = mismatch(table, &access) {
            first = first_with(first, code, access.offset(), history.replica());
        }
        write(table, &access);
    }
    first
}

/// Judges whether an attempt's records fit.
fn judge_fit(
    trace: &Trace,
    history: &History,
    names: &Names,
    i: usize,
    first: Option<Fault>,
) -> Option<Fault>
    requires { i < length history.now.attempts }
{
    let mut first = first;
    for place in 0..history.attempt(i).len() {
        let access = history.ordered(i, place);
        if !is_fit(trace, history, names, i, &access) {
            first = first_with(first, Code::Record, access.offset(), history.replica());
        }
    }
    first
}

impl Walk {
    /// At the opening.
    fn new(alloc: Global, opening: &Balances) -> Walk {
        let mut walk = Walk {
            committed: Vec::new(alloc),
            settled: 0,
            come: 0,
            misfit: None,
            wrong: None,
            balances: Vec::new(alloc),
            is_whole: true,
        };
        for value in opening.as_slice() {
            walk.set_next(Versioned {
                version: 0,
                value: *value,
            });
        }
        walk.keep(alloc);
        walk
    }

    /// What the next row has.
    fn set_next(&mut self, row: Versioned) {
        self.is_whole &= self.committed.push(row).is_ok();
    }

    /// Keeps the values of all rows, as the balances after one more number.
    fn keep(&mut self, alloc: Global) {
        let mut values = Vec::new(alloc);
        let mut is_whole = true;
        for row in &self.committed {
            is_whole &= values.push(row.value).is_ok();
        }
        self.is_whole &= is_whole & self.balances.push(values).is_ok();
    }

    /// Commits the first open attempt.
    fn commit(&mut self, alloc: Global, history: &History) {
        if self.settled < history.attempts() {
            self.wrong = judge(
                self.committed.as_mut_slice(),
                history,
                self.settled,
                self.wrong,
            );
            self.settled += 1;
        }
        self.keep(alloc);
    }

    /// Discards the open attempts, which are judged one after another over a table of their own.
    fn roll_back(&mut self, alloc: Global, history: &History) {
        let Ok(mut working) = self.committed.to_vec(alloc) else {
            self.is_whole = false;
            return;
        };
        for i in self.settled..self.come {
            if i < history.attempts() {
                self.wrong = judge(working.as_mut_slice(), history, i, self.wrong);
            }
        }
        self.settled = self.come;
    }

    /// Takes a state over: the open attempts are discarded, and numbers that are skipped leave what was there.
    fn apply_transfer(&mut self, alloc: Global, history: &History, state: &TransferView<'_>) {
        self.roll_back(alloc, history);
        for _ in self.balances.len()..state.seq() as usize {
            self.keep(alloc);
        }
        self.committed.clear();
        for row in state.rows() {
            self.set_next(row);
        }
        self.keep(alloc);
    }

    fn take(&mut self, alloc: Global, history: &History, step: Step<'_, '_>) {
        match step {
            Step::Attempt(_, _) => self.come = self.come.saturating_add(1),
            Step::Commit(_) => self.commit(alloc, history),
            Step::Rollback(_) => self.roll_back(alloc, history),
            Step::Transfer(view) => self.apply_transfer(alloc, history, &view),
        }
    }

    /// Judges whether the records of what was committed or discarded fit.
    fn judge_fits(&mut self, trace: &Trace, history: &History, names: &Names) {
        for i in 0..history.attempts() {
            if history.fate(i) != Fate::Open {
                self.misfit = judge_fit(trace, history, names, i, self.misfit);
            }
        }
    }

    /// Along the section of a replica's history, from these balances on.
    pub fn along(
        alloc: Global,
        trace: &Trace,
        history: &History,
        names: &Names,
        opening: &Balances,
    ) -> Walk
        requires { history.now.replica < length trace.now.sections }
    {
        let mut walk = Walk::new(alloc, opening);
        let mut steps = trace.section(history.replica());
        while let Some(step) = steps.next() {
            walk.take(alloc, history, step);
        }
        walk.judge_fits(trace, history, names);
        walk
    }

    /// Whether there was memory for all of it.
    pub fn is_whole(&self) -> bool {
        self.is_whole
    }

    /// The first fault of records; or of chains, where there is none of records.
    pub fn first(&self) -> Option<Fault> {
        match self.misfit {
            Some(fault) => Some(fault),
            None => self.wrong,
        }
    }

    /// How many batches are committed.
    pub fn committed(&self) -> usize {
        self.balances.len().saturating_sub(1)
    }

    /// Whether these are the balances after the first n batches.
    pub fn has_balances(&self, n: usize, balances: &Balances) -> bool {
        match self.balances.get(n) {
            Some(values) => values.as_slice() == balances.as_slice(),
            None => false,
        }
    }
}
