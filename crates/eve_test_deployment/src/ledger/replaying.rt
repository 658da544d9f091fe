//! A section's steps, on a ledger.

ghost use Rattle.std.specs.Prelude.{◌+◌, ◌<◌, ◌≤◌, IsTrue, IfOk, length};
ghost use Rattle.eve_grammar.specs.Limits.{is_attempt, is_batch};
ghost use Rattle.eve_write.specs.Data.{attempt as plain_attempt, batch as plain};

use crate::ledger::changing::{Change, FEWER_ROWS, MERKLE, SERIAL, TRANSFERRED, UNCOMMITTED};
use crate::ledger::comparing::{Shown, has_token_of, is_attempt_of, is_batch_of};
use crate::ledger::framed::Framed;
use crate::ledger::meeting::{Meeting, meetings_of, record_of};
use crate::ledger::opening::{balances_of, batch_of};
use crate::ledger::taking::replay_beside;
use eve_accounts::{Balances, MOST_NAMED_ROWS, Names};
use eve_attempts::{AttemptHead, CloseFault, Ledger};
use eve_frames::{CommitView, RollbackView};
use eve_grammar::{MOST_BATCHES, Restore};
use eve_stamps::AccessRecord;
use eve_streams::SinkOf;
use eve_testing::Text;
use eve_token::{RowTree, token};
use eve_views::{Step, Trace};
use eve_workload::{Mixer, Workload, look_up};
use eve_write::{AttemptData, BatchData, RollbackData, write_commit, write_rollback};
use std::alloc::{AllocError, Global};
use std::hash::RandomState;

/// What a line asks for beside its files: how the batches are cut, and how the records of a section's first attempt are
/// changed; and keys for a table of names.
#[derive(Clone, Copy)]
pub struct Asked<'l> {
    pub keys: RandomState,
    pub mixer: Mixer,
    pub changes: &'l str,
}

/// What is replayed: a trace, and the workload with its customers and batches; how these are cut, and how the records
/// of a section's first attempt are changed.
#[derive(Clone, Copy)]
pub struct Case<'c, 'a, 'w> {
    pub alloc: Global,
    pub trace: &'c Trace<'a>,
    pub workload: &'c Workload,
    pub names: &'c Names<'w>,
    pub mixer: Mixer,
    pub changes: &'c str,
}

impl Case<'_, '_, '_> {
    /// Whether this is one of the changes.
    fn has(&self, change: &str) -> bool {
        self.changes.contains(change)
    }
}

/// Whether the workload has the batches of the trace.
pub fn has_its_batches(case: &Case, said: &mut Text) -> bool {
    if case.workload.batches() != case.trace.batch_count() {
        return false;
    }
    for place in 0..case.workload.batches() {
        if !has_its_batch(case, place + 1, said) {
            return false;
        }
    }
    true
}

/// Whether the batch with this number is the one of the trace.
fn has_its_batch(case: &Case, number: u32, said: &mut Text) -> bool
    requires from_one { 1 ≤ number }
    requires asked { number ≤ length case.now.workload.now.batches }
    requires there { number ≤ length case.now.trace.now.batches }
{
    let Ok(batch) = batch_of(case.alloc, case.workload, number, case.names, case.mixer) else {
        said.refused();
        return false;
    };
    is_batch_of(case.alloc, number, &batch, &case.trace.batch(number), said)
}

/// Replays a section on a new ledger, and tells what came of each step. At the end the last batch is committed once
/// more, and all is rolled back.
pub fn replay(case: &Case, section: u8, said: &mut Text)
    requires { section < length case.now.trace.now.sections }
{
    if case.has(TRANSFERRED) {
        return replay_beside(case, section, said);
    }
    let Ok(mut ledger) = ledger_of(case) else {
        return said.refused();
    };
    if case.has(SERIAL) {
        said.stored(roll_back(case.alloc, &mut ledger));
    }
    let mut steps = case.trace.section(section);
    for _ in 0..case.trace.frame_count() {
        let Some(step) = steps.next() else {
            break;
        };
        replay_step(case, &mut ledger, &step, said);
    }
    end(case.alloc, &mut ledger, said);
}

/// Takes a step on the ledger, and tells what came of it; in version 2, what became of the root, too.
pub fn replay_step(case: &Case, ledger: &mut Ledger, step: &Step, said: &mut Text) {
    match step {
        Step::Attempt(attempt, accesses) => {
            let framed = Framed { attempt, accesses };
            replay_attempt(case, ledger, framed, said);
        }
        Step::Commit(_) if case.has(UNCOMMITTED) => {}
        Step::Commit(frame) => {
            let told = commit(case.alloc, ledger, frame, said);
            tell_step(" commit ", frame.seq(), told, said);
        }
        Step::Rollback(frame) => {
            let told = rollback(case.alloc, ledger, frame, said);
            tell_step(" rollback to ", frame.to(), told, said);
        }
        Step::Transfer(_) => said.words(" a state is taken over elsewhere,"),
    }
    tell_root(case.alloc, ledger, said);
}

/// Tells whether the root of a ledger of version 2 is that of a new tree over its balances.
pub fn tell_root(alloc: Global, ledger: &mut Ledger, said: &mut Text) {
    if ledger.version() != 2 {
        return;
    }
    let root = ledger.root();
    if Some(root) == said.made(new_root(alloc, ledger.balances())).flatten() {
        said.words(" root as new,");
    } else {
        said.words(" another root,");
    }
}

/// The root of a new tree over the balances, if there are some; where memory is refused once, once more.
fn new_root(alloc: Global, balances: &Balances) -> Result<Option<[u8; 32]>, AllocError> {
    if balances.is_empty() {
        return Ok(None);
    }
    let mut tree = match RowTree::new(alloc, balances) {
        Err(AllocError) => RowTree::new(alloc, balances)?,
        Ok(tree) => tree,
    };
    Ok(Some(tree.root()))
}

fn replay_attempt(case: &Case, ledger: &mut Ledger, framed: Framed, said: &mut Text) {
    let is_first = ledger.committed() == 0 && ledger.opened() == 0;
    let changes = if is_first { case.changes } else { "" };
    let mut told = close(case, ledger, framed, changes, said);
    if told == MISMATCH && !changes.is_empty() {
        said.words(" changed mismatch,");
        told = close(case, ledger, framed, "", said);
    }
    tell_step(" attempt ", framed.attempt.seq(), told, said);
}

/// Tells what came of a step with this number.
fn tell_step(step: &str, number: u32, told: &str, said: &mut Text) {
    said.value(step, number);
    said.words(" ");
    said.words(told);
    said.words(",");
}

const MISMATCH: &str = "mismatch";

/// What is told where memory was refused. It isn't printed.
const NOTHING: &str = "";

/// Commits the last batch once more, and rolls back.
pub fn end(alloc: Global, ledger: &mut Ledger, said: &mut Text) {
    let last = ledger.committed();
    if ledger.commit(last).is_ok() {
        said.value(" commit ", last);
        said.words(" again,");
    }
    match roll_back(alloc, ledger) {
        Ok(rollback) => tell_restores(rollback.restores.as_slice(), said),
        Err(_) => said.refused(),
    }
}

fn tell_restores(restores: &[Restore], said: &mut Text) {
    said.value(" ", restores.len());
    said.words(" restores");
    for row in restores {
        said.value(", row ", row.row.number());
        said.value(" version ", row.version);
        said.value(" value ", row.value.get());
    }
    said.words(";");
}

/// A new ledger of the workload's customers, of version 2 where that is asked for.
pub fn ledger_of(case: &Case) -> Result<Ledger, AllocError> {
    let head = case.workload.head();
    let customers = case.workload.customers();
    let known = if case.has(FEWER_ROWS) {
        &customers[..1]
    } else {
        customers
    };
    let balances = balances_of(case.alloc, known)?;
    let version = if case.has(MERKLE) && !balances.is_empty() {
        2
    } else {
        1
    };
    Ledger::new(case.alloc, version, &balances, head.workers, head.window)
}

/// Closes the records that the access frames of an attempt tell, with these changes.
fn close(
    case: &Case,
    ledger: &mut Ledger,
    framed: Framed,
    changes: &str,
    said: &mut Text,
) -> &'static str {
    let number = ledger.next_number();
    if !ledger.has_room() || number > u64::from(case.workload.batches()) {
        return "without room";
    }
    let number = number as u32;
    let Ok(batch) = batch_of(case.alloc, case.workload, number, case.names, case.mixer) else {
        said.refused();
        return NOTHING;
    };
    let mut records = Vec::new(case.alloc);
    if take_records(case, &batch, framed, changes, &mut records, said) {
        let records = records.as_slice();
        close_records(
            case.alloc, case.names, ledger, &batch, records, framed, said,
        )
    } else {
        "without records"
    }
}

/// Closes these records of the batch that is due.
fn close_records(
    alloc: Global,
    names: &Names,
    ledger: &mut Ledger,
    batch: &BatchData,
    records: &[AccessRecord],
    framed: Framed,
    said: &mut Text,
) -> &'static str
    requires last { ledger.old.committed + 1 + length ledger.old.opened ≤ MOST_BATCHES }
    requires room { length ledger.old.opened < ledger.old.window }
    requires batch { IsTrue (is_batch (plain batch.now)) }
{
    let Ok(before) = Shown::of(alloc, ledger) else {
        said.refused();
        return NOTHING;
    };
    match close_due(alloc, ledger, batch, names, records) {
        Ok(attempt) => told_of(alloc, ledger, &attempt, framed, said),
        Err(why) => refused(why, before.is_of(ledger), said),
    }
}

/// What is told of records that were refused; the ledger has to be as it was.
fn refused(why: CloseFault, is_as_before: bool, said: &mut Text) -> &'static str {
    match why {
        _ if !is_as_before => "refused, and the ledger is another",
        CloseFault::Memory => {
            said.refused();
            NOTHING
        }
        CloseFault::Mismatch => MISMATCH,
    }
}

/// What is told of an attempt, beside its frames; in version 2, beside a token that is made from nothing.
fn told_of(
    alloc: Global,
    ledger: &Ledger,
    attempt: &AttemptData,
    framed: Framed,
    said: &mut Text,
) -> &'static str
    requires { IsTrue (is_attempt (plain_attempt attempt.now)) }
{
    if ledger.version() == 2 {
        told_by_tree(attempt, ledger.balances())
    } else if is_attempt_of(alloc, attempt, framed, said) {
        "as written"
    } else if has_token_of(attempt, framed.attempt) {
        "with its token"
    } else {
        "otherwise"
    }
}

/// What is told of an attempt of version 2, beside a token that is made from nothing.
fn told_by_tree(attempt: &AttemptData, balances: &Balances) -> &'static str {
    let replies = attempt.replies.as_slice();
    if balances.is_empty() || replies.is_empty() {
        "of nothing"
    } else if attempt.token == token(2, attempt.seq, balances, replies) {
        "by its tree"
    } else {
        "otherwise"
    }
}

/// Closes the records; where memory is refused once, once more.
fn close_due(
    alloc: Global,
    ledger: &mut Ledger,
    batch: &BatchData,
    names: &Names,
    records: &[AccessRecord],
) -> Result<AttemptData, CloseFault>
    requires last { ledger.old.committed + 1 + length ledger.old.opened ≤ MOST_BATCHES }
    requires room { length ledger.old.opened < ledger.old.window }
    requires batch { IsTrue (is_batch (plain batch.now)) }
    ensures { IfOk result (λ a. IsTrue (is_attempt (plain_attempt a))) }
{
    let Ok(touched) = look_up(alloc, batch.requests.as_slice(), names) else {
        return Err(CloseFault::Memory);
    };
    let touched = touched.as_slice();
    let prefix = AttemptHead {
        seq: ledger.next_number() as u32,
        view: ledger.view(),
        serial: ledger.is_next_serial(),
    };
    match ledger.close(alloc, prefix, batch, touched, records) {
        Err(CloseFault::Memory) => ledger.close(alloc, prefix, batch, touched, records),
        told => told,
    }
}

/// Takes the records of what the access frames of an attempt tell, with these changes, if all can be made.
fn take_records(
    case: &Case,
    batch: &BatchData,
    framed: Framed,
    changes: &str,
    records: &mut Vec<AccessRecord>,
    said: &mut Text,
) -> bool {
    let mut met = meetings_of(case.alloc, framed, said);
    for word in changes.split(' ') {
        if let Some(change) = Change::named(word) {
            change.apply(&mut met, case.workload.head().workers, said);
        }
    }
    take_met(case, met.as_slice(), batch, records, said)
}

/// Takes the records of what was met, if all can be made.
fn take_met(
    case: &Case,
    met: &[Meeting],
    batch: &BatchData,
    records: &mut Vec<AccessRecord>,
    said: &mut Text,
) -> bool {
    for meeting in met {
        let Some(record) = record_of(case.alloc, meeting, batch, case.names, said) else {
            return false;
        };
        said.stored(records.push(record));
    }
    true
}

/// What is told of a step, beside its frame.
fn told_as(is_same: bool) -> &'static str {
    if is_same { "as written" } else { "otherwise" }
}

/// Commits what the frame says. What is told of it.
fn commit(alloc: Global, ledger: &mut Ledger, frame: &CommitView, said: &mut Text) -> &'static str {
    let Ok(commit) = ledger.commit(frame.seq()) else {
        return "not open";
    };
    let mut out = SinkOf::new(Vec::new(alloc));
    said.stored(write_commit(&mut out, &commit));
    told_as(out.writer().as_slice() == frame.bytes())
}

/// Rolls back. What is told of it.
fn rollback(
    alloc: Global,
    ledger: &mut Ledger,
    frame: &RollbackView,
    said: &mut Text,
) -> &'static str {
    let Ok(rollback) = roll_back(alloc, ledger) else {
        said.refused();
        return NOTHING;
    };
    let mut out = SinkOf::new(Vec::new(alloc));
    if rollback.restores.len() <= MOST_NAMED_ROWS as usize {
        said.stored(write_rollback(&mut out, &rollback));
    }
    told_as(out.writer().as_slice() == frame.bytes())
}

/// Rolls back; where memory is refused once, once more.
fn roll_back(alloc: Global, ledger: &mut Ledger) -> Result<RollbackData, AllocError> {
    if ledger.view() == u32::MAX {
        return Err(AllocError);
    }
    let before = Shown::of(alloc, ledger)?;
    match ledger.rollback(alloc) {
        Err(_) if before.is_of(ledger) => ledger.rollback(alloc),
        rolled_back => rolled_back,
    }
}
