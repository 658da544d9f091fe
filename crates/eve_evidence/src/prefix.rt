//! The last source in front of an attempt, and what became of it.

ghost use Rattle.std.specs.Prelude.{◌≡◌, ◌≢◌, ◌+◌, ◌<◌, ◌^◌, ℕ, List, [], ◌∷◌, ◌++◌, IfSome, IfNone, IsTrue, IsFalse};
ghost use Rattle.std.specs.Prelude.{◌↔◌};
ghost use Rattle.eve_smallbank.specs.declared.versioned.Versioned.{Versioned as VersionedValue};
ghost use Rattle.eve_grammar.specs.Trace.{Attempt as AttemptValue, Commit as CommitValue, Step as StepValue};
ghost use Rattle.eve_grammar.specs.Trace.{Rollback as RollbackValue, Trace as TraceValue, Attempts, Commits, RollsBack};
ghost use Rattle.eve_grammar.specs.Trace.{Transfers};
ghost use Rattle.eve_grammar.specs.Spelling.{steps_at};
ghost use Rattle.eve_frames.specs.Decoded.{rollback_decoded, transfer_decoded};
ghost use Rattle.eve_views.specs.StepKinds.{IsStep};
ghost use Rattle.eve_chains.specs.Visible.{transferred_table};
ghost use Rattle.eve_evidence.specs.Seen.{GivesThat, NamesRow, Restores, IsFirstAmong, IsFirstIn, NoneAmong, NoneIn};
ghost use Rattle.eve_evidence.specs.inner.LastSource.{IsPrefix, IsSourceFound, IsLastSource, IsRestoredBy, last_found};
ghost use Rattle.eve_evidence.specs.inner.LastSource.{last_with};
ghost use Rattle.eve_evidence.specs.inner.LastSource.{since_commit, since_discarded};

use crate::evidence::Source;
use crate::sought::{Sought, first_found, has, last_found_in};
use crate::sources::opening_value;
use eve_accounts::Row;
use eve_chains::row_in;
use eve_frames::{RollbackView, TransferView};
use eve_grammar::Restore;
use eve_smallbank::Versioned;
use eve_views::{Step, Steps, Trace};

/// What became of an attempt, or that its source is none of an attempt.
#[derive(Clone, Copy)]
pub enum Since {
    /// It is open, and that many open attempts stand before it.
    Open(usize),
    /// It is committed; or it is a state that was transferred, or the opening.
    Settled,
    /// The rollback at this byte discarded it; whether that names the row.
    RolledBack { by: u64, restores: bool },
    /// It was discarded when the state at this byte was transferred.
    Discarded { by: u64 },
}

/// The last source, and what became of its attempt.
#[derive(Clone, Copy)]
pub struct LastSource {
    /// Who it is.
    pub source: Source,
    /// What became of it.
    pub since: Since,
}

/// What was met in front of an attempt of what is looked for in a row.
#[derive(Clone, Copy)]
pub struct Prefix {
    /// How many attempts are open.
    pub pending: usize,
    /// The byte of the last state that was transferred.
    pub base: Option<u64>,
    /// The byte of the last rollback behind it that gives the row that.
    pub restored: Option<u64>,
    /// The last source.
    pub last: Option<LastSource>,
}

/// Whether a restore gives the row just that.
fn gives(restore: &Restore, row: Row, left: &Versioned) -> bool
    ensures yes { IsTrue result → GivesThat row left.now restore.now }
    ensures no { IsFalse result → ¬ GivesThat row left.now restore.now }
{
    restore.row == row && has(restore.version, restore.value, left)
}

/// Whether a rollback gives the row just that.
fn restores(rollback: &RollbackView<'_>, row: Row, left: &Versioned) -> bool
    ensures yes { IsTrue result → Restores row left.now (rollback_decoded rollback.now) }
    ensures no { IsFalse result → ¬ Restores row left.now (rollback_decoded rollback.now) }
{
    for i in 0..rollback.len() {
        let restore = rollback.restore(i);
        if gives(&restore, row, left) {
            return true;
        }
    }
    false
}

/// Whether a restore is of the row.
fn is_of(restore: &Restore, row: Row) -> bool
    ensures yes { IsTrue result → restore.now.row ≡ row }
    ensures no { IsFalse result → restore.now.row ≢ row }
{
    restore.row == row
}

/// Whether one of a rollback's restores is of the row.
fn names_row(rollback: &RollbackView<'_>, row: Row) -> bool
    ensures { IsTrue result ↔ NamesRow row (rollback_decoded rollback.now) }
{
    for i in 0..rollback.len() {
        let restore = rollback.restore(i);
        if is_of(&restore, row) {
            return true;
        }
    }
    false
}

/// Whether a row has just that in a state.
fn is_in(state: &TransferView<'_>, row: Row, left: &Versioned) -> bool
    ensures { IsTrue result ↔ (transferred_table (transfer_decoded state.now).rows row ≡ left.now) }
{
    let Versioned { version, value } = row_in(state, row);
    has(version, value, left)
}

/// The first source of a step, if it has one.
fn first_in(step: &Step<'_, '_>, row: Row, left: &Versioned) -> Option<Source>
    ensures first { IfSome result (λ s. (is : ℕ × StepValue) → IsStep step.now is → IsFirstIn row left.now is s) }
    ensures none { IfNone result ((is : ℕ × StepValue) → IsStep step.now is → NoneIn row left.now is) }
{
    match step {
        Step::Attempt(attempt, accesses) => {
            let sought = Sought::Left(row, *left);
            first_found(attempt, accesses, 0, attempt.len(), &sought)
        }
        Step::Commit(_) | Step::Rollback(_) => None,
        Step::Transfer(state) => if is_in(state, row, left) {
            Some(Source::Transfer { at: state.offset() })
        } else {
            None
        },
    }
}

/// What becomes of an attempt at a commit.
fn since_commit(since: Since) -> Since
    ensures { result ≡ since_commit since }
{
    match since {
        Since::Open(0) => Since::Settled,
        Since::Open(count) => Since::Open(count - 1),
        Since::Settled => Since::Settled,
        Since::RolledBack { by, restores } => Since::RolledBack { by, restores },
        Since::Discarded { by } => Since::Discarded { by },
    }
}

/// What becomes of an attempt where all open ones are discarded, so.
fn since_discarded(so: Since, since: Since) -> Since
    ensures { result ≡ since_discarded so since }
{
    match since {
        Since::Open(_) => so,
        Since::Settled => Since::Settled,
        Since::RolledBack { by, restores } => Since::RolledBack { by, restores },
        Since::Discarded { by } => Since::Discarded { by },
    }
}

/// The last source after a commit.
fn last_after_commit(last: Option<LastSource>) -> Option<LastSource>
    ensures { result ≡ last_with since_commit last }
{
    match last {
        Some(LastSource { source, since }) => Some(LastSource {
            source,
            since: since_commit(since),
        }),
        None => None,
    }
}

/// The last source where all open attempts are discarded, so.
fn last_after_discard(so: Since, last: Option<LastSource>) -> Option<LastSource>
    ensures { result ≡ last_with (since_discarded so) last }
{
    match last {
        Some(LastSource { source, since }) => Some(LastSource {
            source,
            since: since_discarded(so, since),
        }),
        None => None,
    }
}

/// The last source before the first step: the opening, if it has that.
fn opening_source(trace: &Trace<'_>, row: Row, left: &Versioned) -> Option<LastSource>
    ensures { IsLastSource trace.now row left.now [] result }
{
    if !has(0, opening_value(trace, row), left) {
        return None;
    }
    Some(LastSource {
        source: Source::Opening,
        since: Since::Settled,
    })
}

/// Before the first step.
fn at_opening(trace: &Trace<'_>, row: Row, left: &Versioned) -> Prefix
    ensures { IsPrefix trace.now row left.now [] result }
{
    Prefix {
        pending: 0,
        base: None,
        restored: None,
        last: opening_source(trace, row, left),
    }
}

/// The last source after an attempt, before which that many are open, with the one that was found in it.
fn last_found(pending: usize, last: Option<LastSource>, found: Option<Source>) -> Option<LastSource>
    ensures { result ≡ last_found pending last found }
{
    match found {
        Some(source) => Some(LastSource {
            source,
            since: Since::Open(pending),
        }),
        None => last,
    }
}

/// Goes on over an attempt, whose last source was found.
fn after_attempt(prefix: Prefix, found: Option<Source>) -> Prefix
    requires { prefix.pending + 1 < 2 ^ 64 }
    ensures { (t : TraceValue) (row : ℕ) (left : VersionedValue) (before : List (ℕ × StepValue)) (at : ℕ)
        (a : AttemptValue) → IsPrefix t row left before prefix → IsSourceFound row left (at, Attempts a) found
        → IsPrefix t row left (before ++ (at, Attempts a) ∷ []) result }
{
    Prefix {
        pending: prefix.pending + 1,
        base: prefix.base,
        restored: prefix.restored,
        last: last_found(prefix.pending, prefix.last, found),
    }
}

/// Goes on over a commit.
fn after_commit(prefix: Prefix) -> Prefix
    ensures { (t : TraceValue) (row : ℕ) (left : VersionedValue) (before : List (ℕ × StepValue)) (at : ℕ)
        (d : CommitValue) → IsPrefix t row left before prefix
        → IsPrefix t row left (before ++ (at, Commits d) ∷ []) result }
{
    Prefix {
        pending: prefix.pending.saturating_sub(1),
        base: prefix.base,
        restored: prefix.restored,
        last: last_after_commit(prefix.last),
    }
}

/// The last rollback that gives the row just that, after one more.
fn restored_after(
    restored: Option<u64>,
    rollback: &RollbackView<'_>,
    row: Row,
    left: &Versioned,
) -> Option<u64>
    ensures { (rs : List (ℕ × RollbackValue)) → IsRestoredBy row left.now rs restored
        → IsRestoredBy row left.now (rs ++ (rollback.now.offset, rollback_decoded rollback.now) ∷ []) result }
{
    if restores(rollback, row, left) {
        return Some(rollback.offset());
    }
    restored
}

/// Goes on over a rollback.
fn after_rollback(prefix: Prefix, rollback: &RollbackView<'_>, row: Row, left: &Versioned) -> Prefix
    ensures { (t : TraceValue) (before : List (ℕ × StepValue)) → IsPrefix t row left.now before prefix
        → IsPrefix t row left.now (before ++ (rollback.now.offset, RollsBack (rollback_decoded rollback.now)) ∷ [])
        result }
{
    let so = Since::RolledBack {
        by: rollback.offset(),
        restores: names_row(rollback, row),
    };
    Prefix {
        pending: 0,
        base: prefix.base,
        restored: restored_after(prefix.restored, rollback, row, left),
        last: last_after_discard(so, prefix.last),
    }
}

/// The last source after a state was transferred.
fn last_after_state(
    last: Option<LastSource>,
    state: &TransferView<'_>,
    row: Row,
    left: &Versioned,
) -> Option<LastSource>
    ensures { (t : TraceValue) (before : List (ℕ × StepValue)) → IsLastSource t row left.now before last
        → IsLastSource t row left.now (before ++ (state.now.offset, Transfers (transfer_decoded state.now)) ∷ [])
        result }
{
    let at = state.offset();
    if is_in(state, row, left) {
        return Some(LastSource {
            source: Source::Transfer { at },
            since: Since::Settled,
        });
    }
    last_after_discard(Since::Discarded { by: at }, last)
}

/// Goes on over a state that is transferred.
fn after_state(prefix: Prefix, state: &TransferView<'_>, row: Row, left: &Versioned) -> Prefix
    ensures { (t : TraceValue) (before : List (ℕ × StepValue)) → IsPrefix t row left.now before prefix
        → IsPrefix t row left.now (before ++ (state.now.offset, Transfers (transfer_decoded state.now)) ∷ []) result }
{
    Prefix {
        pending: 0,
        base: Some(state.offset()),
        restored: None,
        last: last_after_state(prefix.last, state, row, left),
    }
}

/// Goes on over a step.
fn after(prefix: Prefix, step: &Step<'_, '_>, row: Row, left: &Versioned) -> Prefix
    requires { prefix.pending + 1 < 2 ^ 64 }
    ensures { (t : TraceValue) (before : List (ℕ × StepValue)) (is : ℕ × StepValue)
        → IsPrefix t row left.now before prefix
        → IsStep step.now is → IsPrefix t row left.now (before ++ is ∷ []) result }
{
    match step {
        Step::Attempt(attempt, accesses) => {
            let sought = Sought::Left(row, *left);
            after_attempt(
                prefix,
                last_found_in(attempt, accesses, attempt.len(), &sought),
            )
        }
        Step::Commit(_) => after_commit(prefix),
        Step::Rollback(rollback) => after_rollback(prefix, rollback, row, left),
        Step::Transfer(state) => after_state(prefix, state, row, left),
    }
}

/// What was met in front of the attempt whose frame begins at byte `at`, along the steps of replica e's section, which
/// are gone over up to that attempt.
pub fn prefix_of<'t, 'a>(
    trace: &Trace<'a>,
    steps: &mut Steps<'t, 'a>,
    e: u8,
    at: u64,
    row: Row,
    left: &Versioned,
) -> Prefix
    requires steps { steps.old ≡ steps_at trace.now e }
    requires there { (prefix : List (ℕ × StepValue)) × (s : StepValue) × (behind : List (ℕ × StepValue))
        × (steps_at trace.now e ≡ prefix ++ (at, s) ∷ behind) }
    ensures prefix { (prefix : List (ℕ × StepValue)) (s : StepValue) (behind : List (ℕ × StepValue))
        → steps_at trace.now e ≡ prefix ++ (at, s) ∷ behind → IsPrefix trace.now row left.now prefix result }
    ensures behind { (prefix : List (ℕ × StepValue)) (s : StepValue) (behind : List (ℕ × StepValue))
        → steps_at trace.now e ≡ prefix ++ (at, s) ∷ behind → steps.new ≡ behind }
{
    let mut prefix = at_opening(trace, row, left);
    while let Some(step) = steps.next() {
        if step.offset() == at {
            return prefix;
        }
        prefix = after(prefix, &step, row, left);
    }
    unreachable!()
}

/// The first source among the steps that are still to come.
pub fn first_among(steps: &mut Steps<'_, '_>, row: Row, left: &Versioned) -> Option<Source>
    ensures first { IfSome result (IsFirstAmong row left.now steps.old) }
    ensures none { IfNone result (NoneAmong row left.now steps.old) }
{
    while let Some(step) = steps.next() {
        let found = first_in(&step, row, left);
        if found.is_some() {
            return found;
        }
    }
    None
}
