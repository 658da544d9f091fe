//! Records that left something in a row, or saw it.

ghost use Rattle.std.specs.Prelude.{◌≡◌, ◌≤◌, ◌↔◌, IfSome, IfNone, IsTrue, IsFalse, length, take, drop, map};
ghost use Rattle.std.specs.List.{AllByRecursion, flat_map};
ghost use Rattle.eve_grammar.specs.declared.limits.TheConstants.{MOST_VERSIONS};
ghost use Rattle.eve_frames.specs.Decoded.{access_decoded, attempt_decoded};
ghost use Rattle.eve_history.specs.SectionHistory.{access_with};
ghost use Rattle.eve_evidence.specs.Course.{IsOnPath, placed_on};
ghost use Rattle.eve_evidence.specs.Sources.{passed, passed_by, passed_in};
ghost use Rattle.eve_evidence.specs.Sought.{Meets, MeetsIn, RecordMeets, NoneFound, IsFoundAlone, IsFirstFound};
ghost use Rattle.eve_evidence.specs.Sought.{IsLastFound};

use crate::course::{Course, OnPath};
use crate::evidence::Source;
use crate::sources::record_of;
use eve_accounts::{Cents, Row};
use eve_frames::{AccessView, AttemptView};
use eve_smallbank::{Entry, Versioned};
use eve_views::Accesses;

/// Entries that are looked for.
#[derive(Clone, Copy)]
pub enum Sought {
    /// Writes that left this in the row.
    Left(Row, Versioned),
    /// Entries of the row that saw this.
    Seen(Row, Versioned),
}

/// Whether a row has this version and this value.
pub fn has(version: u64, value: Cents, has: &Versioned) -> bool
    ensures { IsTrue result ↔ (record { version = version; value = value } ≡ has.now) }
{
    version == has.version && value == has.value
}

/// Whether two rows have the same version and the same value.
pub fn is_same(one: &Versioned, other: &Versioned) -> bool
    ensures { IsTrue result ↔ (one.now ≡ other.now) }
{
    has(one.version, one.value, other)
}

/// Whether an entry is one of those that are looked for.
fn meets(entry: &Entry, sought: &Sought) -> bool
    requires { entry.now.version ≤ MOST_VERSIONS }
    ensures yes { IsTrue result → Meets sought.now entry.now }
    ensures no { IsFalse result → ¬ Meets sought.now entry.now }
{
    match sought {
        Sought::Left(row, left) => {
            entry.kind.is_write() && entry.row == *row && has(entry.version + 1, entry.after, left)
        }
        Sought::Seen(row, seen) => entry.row == *row && has(entry.version, entry.seen, seen),
    }
}

/// Whether a record has one of those entries.
#[tactic(auto, using(crate::proofs::Versions::small_version))]
fn has_met(access: &AccessView<'_>, sought: &Sought) -> bool
    ensures yes { IsTrue result → MeetsIn sought.now (access_decoded access.now).entries }
    ensures no { IsFalse result → ¬ MeetsIn sought.now (access_decoded access.now).entries }
{
    for i in 0..access.len() {
        if meets(&access.entry(i), sought) {
            return true;
        }
    }
    false
}

/// Whether a record of an attempt may have one: no says that none does.
fn may_have_found(accesses: &Accesses<'_, '_>, sought: &Sought) -> bool
    ensures { IsFalse result → AllByRecursion (λ x. ¬ MeetsIn sought.now x.1.entries) accesses.now }
{
    for i in 0..accesses.len() {
        if has_met(&accesses.get(i), sought) {
            return true;
        }
    }
    false
}

/// The record with this index of an attempt, if it has one.
fn found_alone(
    attempt: &AttemptView<'_>,
    accesses: &Accesses<'_, '_>,
    index: u16,
    sought: &Sought,
) -> Option<Source>
    ensures met { IfSome result (IsFoundAlone sought.now (passed_by (attempt_decoded attempt.now).seq
        (access_with accesses.now index))) }
    ensures none { IfNone result (¬ RecordMeets sought.now (passed_by (attempt_decoded attempt.now).seq
        (access_with accesses.now index))) }
{
    let Some(access) = record_of(accesses, index) else {
        return None;
    };
    if !has_met(&access, sought) {
        return None;
    }
    Some(Source::Write {
        index: access.index(),
        batch: attempt.seq(),
        at: access.offset(),
    })
}

/// The last record that has one, of those at the first places of an attempt's certificate.
pub fn last_found_in(
    attempt: &AttemptView<'_>,
    accesses: &Accesses<'_, '_>,
    places: usize,
    sought: &Sought,
) -> Option<Source>
    requires { places ≤ length (attempt_decoded attempt.now).certificate }
    ensures last { IfSome result (IsLastFound sought.now (passed (attempt_decoded attempt.now).seq accesses.now
        (take places (attempt_decoded attempt.now).certificate))) }
    ensures none { IfNone result (NoneFound sought.now (passed (attempt_decoded attempt.now).seq accesses.now
        (take places (attempt_decoded attempt.now).certificate))) }
{
    if !may_have_found(accesses, sought) {
        return None;
    }
    for back in 0..places {
        let index = attempt.index_at(places - 1 - back);
        let found = found_alone(attempt, accesses, index, sought);
        if found.is_some() {
            return found;
        }
    }
    None
}

/// The first record that has one, of those at these places of an attempt's certificate.
pub fn first_found(
    attempt: &AttemptView<'_>,
    accesses: &Accesses<'_, '_>,
    from: usize,
    to: usize,
    sought: &Sought,
) -> Option<Source>
    requires from { from ≤ to }
    requires to { to ≤ length (attempt_decoded attempt.now).certificate }
    ensures first { IfSome result (IsFirstFound sought.now (passed (attempt_decoded attempt.now).seq accesses.now
        (drop from (take to (attempt_decoded attempt.now).certificate)))) }
    ensures none { IfNone result (NoneFound sought.now (passed (attempt_decoded attempt.now).seq accesses.now
        (drop from (take to (attempt_decoded attempt.now).certificate)))) }
{
    if !may_have_found(accesses, sought) {
        return None;
    }
    for place in from..to {
        let index = attempt.index_at(place);
        let found = found_alone(attempt, accesses, index, sought);
        if found.is_some() {
            return found;
        }
    }
    None
}

/// The last record of an attempt that has one.
fn last_of_found(on: &OnPath<'_, '_>, sought: &Sought) -> Option<Source>
    requires { IsOnPath on.now }
    ensures last { IfSome result (IsLastFound sought.now (passed_in (placed_on on.now))) }
    ensures none { IfNone result (NoneFound sought.now (passed_in (placed_on on.now))) }
{
    last_found_in(&on.attempt, &on.accesses, on.attempt.len(), sought)
}

/// The last record that has one, of those of the attempts that no rollback discarded.
pub fn last_found_on_path(course: &Course<'_, '_>, sought: &Sought) -> Option<Source>
    requires { AllByRecursion IsOnPath course.now.path.items }
    ensures last { IfSome result (IsLastFound sought.now (flat_map passed_in (map placed_on course.now.path.items))) }
    ensures none { IfNone result (NoneFound sought.now (flat_map passed_in (map placed_on course.now.path.items))) }
{
    let count = course.path.len();
    for back in 0..count {
        let found = last_of_found(&course.path[count - 1 - back], sought);
        if found.is_some() {
            return found;
        }
    }
    None
}
