//! Who left what an entry must see: the nearest earlier write of its row, or the last state that was transferred.

ghost use Rattle.std.specs.Prelude.{◌≡◌, ◌≤◌, IfSome, IfNone, IsFalse, List, Some, length, take, map, if◌then◌else◌};
ghost use Rattle.std.specs.List.{AllByRecursion, flat_map, list_any};
ghost use Rattle.eve_grammar.specs.Trace.{Attempt as AttemptValue};
ghost use Rattle.eve_grammar.specs.Frames.{without_accesses};
ghost use Rattle.eve_grammar.specs.Spelling.{accesses_at};
ghost use Rattle.eve_smallbank.specs.Access.{writes_row};
ghost use Rattle.eve_smallbank.specs.Chain.{left_by};
ghost use Rattle.eve_grammar.specs.declared.limits.TheConstants.{MOST_VERSIONS};
ghost use Rattle.eve_frames.specs.Decoded.{access_decoded, attempt_decoded};
ghost use Rattle.eve_history.specs.Section.{SectionState};
ghost use Rattle.eve_history.specs.SectionHistory.{access_with, no_access};
ghost use Rattle.eve_chains.specs.Visible.{opening_of, before_index, visible_to};
ghost use Rattle.eve_evidence.specs.Course.{IsCourse, IsOnPath, last_state, placed_on, standing, state_decoded};
ghost use Rattle.eve_evidence.specs.Told.{placed_in};
ghost use Rattle.eve_evidence.specs.Sources.{passed, passed_by, passed_in, way_to};
ghost use Rattle.eve_evidence.specs.Sources.{last_left, IsWriter, NoneWrites, IsLeftBy};
ghost use Rattle.eve_evidence.specs.Sources.{Passed, state_table};
ghost use Rattle.eve_evidence.specs.inner.Lasts.{IsLast, IsLeftAlone};

use crate::course::{Course, OnPath};
use crate::evidence::Source;
use eve_accounts::{Cents, Row};
use eve_chains::row_in;
use eve_frames::{AccessView, AttemptView};
use eve_smallbank::{Entry, Versioned};
use eve_views::{Accesses, Trace};

/// What a row has, and who left it.
#[derive(Clone, Copy)]
pub struct Left {
    /// Its version and its value.
    pub has: Versioned,
    /// The nearest earlier write, or where none came the state that was transferred, or the opening.
    pub by: Source,
}

/// What is left in a row after one entry more, if it was written.
fn left_after(left: Option<Versioned>, entry: &Entry, row: Row) -> Option<Versioned>
    requires { entry.now.version ≤ MOST_VERSIONS }
    ensures { result ≡ (if writes_row row entry.now then Some (left_by entry.now) else left) }
{
    if entry.kind.is_write() && entry.row == row {
        Some(Versioned {
            version: entry.version + 1,
            value: entry.after,
        })
    } else {
        left
    }
}

/// What the last entry of a record that writes the row leaves in it, if one does.
#[tactic(auto, using(crate::proofs::Versions::small_version))]
fn left_by_record(access: &AccessView<'_>, row: Row) -> Option<Versioned>
    ensures { result ≡ last_left row (access_decoded access.now).entries }
{
    let mut left = None;
    for i in 0..access.len() {
        left = left_after(left, &access.entry(i), row);
    }
    left
}

/// The first record with this index.
pub fn record_of<'a>(accesses: &Accesses<'_, 'a>, index: u16) -> Option<AccessView<'a>>
    ensures found { IfSome result (λ x. access_with accesses.now index ≡ (x.offset, access_decoded x)) }
    ensures none { IfNone result (access_with accesses.now index ≡ no_access) }
{
    for i in 0..accesses.len() {
        let access = accesses.get(i);
        if access.index() == index {
            return Some(access);
        }
    }
    None
}

/// Whether a record of an attempt may write the row: no says that none does.
fn may_write(accesses: &Accesses<'_, '_>, row: Row) -> bool
    ensures { IsFalse result → AllByRecursion (λ x. IsFalse (list_any (writes_row row) x.1.entries)) accesses.now }
{
    for i in 0..accesses.len() {
        if left_by_record(&accesses.get(i), row).is_some() {
            return true;
        }
    }
    false
}

/// The last record that writes the row, of those at the first places of an attempt's certificate, if one does.
fn last_at(
    attempt: &AttemptView<'_>,
    accesses: &Accesses<'_, '_>,
    places: usize,
    row: Row,
) -> Option<Left>
    requires { places ≤ length (attempt_decoded attempt.now).certificate }
    ensures last { IfSome result (IsLast row (passed (attempt_decoded attempt.now).seq accesses.now
        (take places (attempt_decoded attempt.now).certificate))) }
    ensures none { IfNone result (NoneWrites row (passed (attempt_decoded attempt.now).seq accesses.now
        (take places (attempt_decoded attempt.now).certificate))) }
{
    for back in 0..places {
        let index = attempt.index_at(places - 1 - back);
        let found = left_at(attempt, accesses, index, row);
        if found.is_some() {
            return found;
        }
    }
    None
}

/// What the record with this index leaves in the row, if it writes it.
fn left_at(
    attempt: &AttemptView<'_>,
    accesses: &Accesses<'_, '_>,
    index: u16,
    row: Row,
) -> Option<Left>
    ensures written { IfSome result (IsLeftAlone row (passed_by (attempt_decoded attempt.now).seq
        (access_with accesses.now index))) }
    ensures none { IfNone result (¬ IsWriter row (passed_by (attempt_decoded attempt.now).seq
        (access_with accesses.now index))) }
{
    let Some(access) = record_of(accesses, index) else {
        return None;
    };
    let Some(has) = left_by_record(&access, row) else {
        return None;
    };
    Some(Left {
        has,
        by: Source::Write {
            index: access.index(),
            batch: attempt.seq(),
            at: access.offset(),
        },
    })
}

/// The last record that writes the row, of those of the attempts that no rollback discarded, if one does.
fn last_on_path(course: &Course<'_, '_>, row: Row) -> Option<Left>
    requires { AllByRecursion IsOnPath course.now.path.items }
    ensures last { IfSome result (IsLast row (flat_map passed_in (map placed_on course.now.path.items))) }
    ensures none { IfNone result (NoneWrites row (flat_map passed_in (map placed_on course.now.path.items))) }
{
    let count = course.path.len();
    for back in 0..count {
        let found = last_of(&course.path[count - 1 - back], row);
        if found.is_some() {
            return found;
        }
    }
    None
}

/// The last record of an attempt that writes the row, if one does.
fn last_of(on: &OnPath<'_, '_>, row: Row) -> Option<Left>
    requires { IsOnPath on.now }
    ensures last { IfSome result (IsLast row (passed_in (placed_on on.now))) }
    ensures none { IfNone result (NoneWrites row (passed_in (placed_on on.now))) }
{
    if !may_write(&on.accesses, row) {
        return None;
    }
    last_at(&on.attempt, &on.accesses, on.attempt.len(), row)
}

/// The first place of an index in an attempt's certificate, or how many places there are.
pub fn place_of(attempt: &AttemptView<'_>, index: u16) -> usize
    ensures within { result ≤ length (attempt_decoded attempt.now).certificate }
    ensures before { take result (attempt_decoded attempt.now).certificate
        ≡ before_index index (attempt_decoded attempt.now).certificate }
{
    for place in 0..attempt.len() {
        if attempt.index_at(place) == index {
            return place;
        }
    }
    attempt.len()
}

/// The opening balance of a row.
pub fn opening_value(trace: &Trace<'_>, row: Row) -> Cents
    ensures { result ≡ opening_of trace.now row }
{
    let number = row.number();
    if trace.customer_count() <= number / 2 {
        return Cents::ZERO;
    }
    let customer = trace.customer(number / 2);
    if number % 2 == 0 {
        return customer.saving();
    }
    customer.checking()
}

/// What a row has where the path begins, and who left it: the last state that was transferred, or the opening.
pub fn left_at_first(trace: &Trace<'_>, course: &Course<'_, '_>, row: Row) -> Left
    ensures by { (way : List Passed) → NoneWrites row way
        → IsLeftBy (state_decoded course.now.transferred) row way result.by }
    ensures has { result.has ≡ state_table trace.now (state_decoded course.now.transferred) row }
{
    match course.transferred {
        Some(state) => Left {
            has: row_in(&state, row),
            by: Source::Transfer { at: state.offset() },
        },
        None => Left {
            has: Versioned {
                version: 0,
                value: opening_value(trace, row),
            },
            by: Source::Opening,
        },
    }
}

/// What the request with this index of an attempt must see in a row, and who left it.
///
/// docs/MODEL.md, "Visible version, chained". It goes back over the records until it finds the write, and no further
/// than to the last state that was transferred.
pub fn left_to(
    trace: &Trace<'_>,
    course: &Course<'_, '_>,
    attempt: &AttemptView<'_>,
    accesses: &Accesses<'_, '_>,
    index: u16,
    row: Row,
) -> Left
    requires { (s : SectionState) × IsCourse s course.now }
    ensures by { (s : SectionState) (a : AttemptValue) → IsCourse s course.now
        → attempt_decoded attempt.now ≡ without_accesses a → accesses.now ≡ accesses_at attempt.now.offset a
        → IsLeftBy (last_state s.ways_reached) row (way_to (standing s) attempt.now.offset a index) result.by }
    ensures has { (s : SectionState) (a : AttemptValue) → IsCourse s course.now
        → attempt_decoded attempt.now ≡ without_accesses a → accesses.now ≡ accesses_at attempt.now.offset a
        → result.has ≡ visible_to trace.now (placed_in s attempt.now.offset a) index row }
{
    if let Some(left) = last_at(attempt, accesses, place_of(attempt, index), row) {
        return left;
    }
    if let Some(left) = last_on_path(course, row) {
        return left;
    }
    left_at_first(trace, course, row)
}
