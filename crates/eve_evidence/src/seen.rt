//! Where what an entry saw comes from.

ghost use Rattle.std.specs.Prelude.{◌≡◌, ◌<◌, ◌≤◌, ℕ, List, ◌∷◌, ◌++◌, IfSome, IfNone, length};
ghost use Rattle.eve_grammar.specs.declared.limits.TheConstants.{MOST_VERSIONS};
ghost use Rattle.eve_grammar.specs.Trace.{Attempt as AttemptValue, Step as StepValue, Attempts};
ghost use Rattle.eve_grammar.specs.Frames.{without_accesses};
ghost use Rattle.eve_grammar.specs.Spelling.{accesses_at, steps_at};
ghost use Rattle.eve_frames.specs.Decoded.{attempt_decoded};
ghost use Rattle.eve_history.specs.Section.{SectionState, start, state_after};
ghost use Rattle.eve_chains.specs.Visible.{before_index};
ghost use Rattle.eve_evidence.specs.Course.{IsCourse};
ghost use Rattle.eve_evidence.specs.Sources.{passed};
ghost use Rattle.eve_evidence.specs.Seen.{look, IsSeenBy, IsSeenFrom, NoneNear};

use crate::evidence::{SeenFrom, Source};
use crate::prefix::{Since, first_among, prefix_of};
use crate::site::Site;
use crate::sought::{Sought, first_found, is_same, last_found_in, last_found_on_path};
use crate::sources::{left_at_first, place_of};
use eve_accounts::Row;
use eve_frames::AttemptView;
use eve_smallbank::{Entry, Versioned};
use eve_views::{Accesses, Trace};

/// Of a write the first record before it in its attempt's certificate that saw what it left.
pub fn seen_by(
    attempt: &AttemptView<'_>,
    accesses: &Accesses<'_, '_>,
    index: u16,
    entry: &Entry,
) -> Option<Source>
    requires { entry.now.version ≤ MOST_VERSIONS }
    ensures { (a : AttemptValue) → attempt_decoded attempt.now ≡ without_accesses a
        → accesses.now ≡ accesses_at attempt.now.offset a
        → IsSeenBy (passed a.seq (accesses_at attempt.now.offset a) (before_index index a.certificate)) entry.now
        result }
{
    if !entry.kind.is_write() {
        return None;
    }
    let left = Versioned {
        version: entry.version + 1,
        value: entry.after,
    };
    let places = place_of(attempt, index);
    first_found(attempt, accesses, 0, places, &Sought::Seen(entry.row, left))
}

/// Where what an entry of the record with this index saw in a row comes from, on its way or behind it in its attempt.
fn near(site: Site<'_, '_, '_>, index: u16, row: Row, saw: &Versioned) -> Option<SeenFrom>
    requires { (s : SectionState) × IsCourse s site.course.now }
    ensures seen { IfSome result (λ x. (prefix behind : List (ℕ × StepValue)) (a : AttemptValue)
        → IsCourse (state_after start prefix) site.entry.course.now
        → attempt_decoded site.entry.attempt.now ≡ without_accesses a
        → site.entry.accesses.now ≡ accesses_at site.entry.attempt.now.offset a
        → IsSeenFrom site.entry.trace.now (look prefix behind site.entry.attempt.now.offset a index row saw.now) x) }
    ensures none { IfNone result ((prefix behind : List (ℕ × StepValue)) (a : AttemptValue)
        → IsCourse (state_after start prefix) site.entry.course.now
        → attempt_decoded site.entry.attempt.now ≡ without_accesses a
        → site.entry.accesses.now ≡ accesses_at site.entry.attempt.now.offset a
        → NoneNear site.entry.trace.now (look prefix behind site.entry.attempt.now.offset a index row saw.now)) }
{
    let Site {
        trace,
        course,
        attempt,
        accesses,
    } = site;
    let sought = Sought::Left(row, *saw);
    let place = place_of(attempt, index);
    if let Some(source) = last_found_in(attempt, accesses, place, &sought) {
        return Some(SeenFrom::Overwritten(source));
    }
    if let Some(source) = last_found_on_path(course, &sought) {
        return Some(SeenFrom::Overwritten(source));
    }
    let first = left_at_first(trace, course, row);
    if is_same(&first.has, saw) {
        return Some(SeenFrom::Overwritten(first.by));
    }
    if attempt.is_serial() {
        return None;
    }
    let count = attempt.len();
    if count <= place {
        return None;
    }
    let Some(source) = first_found(attempt, accesses, place + 1, count, &sought) else {
        return None;
    };
    Some(SeenFrom::BehindIt(source))
}

/// Where what an entry saw in a row comes from, elsewhere in replica e's section than on its way or behind it in its
/// attempt, whose frame begins at byte `at`.
fn elsewhere(trace: &Trace<'_>, e: u8, at: u64, row: Row, saw: &Versioned) -> SeenFrom
    requires there { e < length trace.now.sections }
    requires look { (prefix : List (ℕ × StepValue)) × (behind : List (ℕ × StepValue)) × (a : AttemptValue) × (index : ℕ)
        × (steps_at trace.now e ≡ prefix ++ (at, Attempts a) ∷ behind)
        × NoneNear trace.now (look prefix behind at a index row saw.now) }
    ensures { (prefix behind : List (ℕ × StepValue)) (a : AttemptValue) (index : ℕ)
        → steps_at trace.now e ≡ prefix ++ (at, Attempts a) ∷ behind
        → NoneNear trace.now (look prefix behind at a index row saw.now)
        → IsSeenFrom trace.now (look prefix behind at a index row saw.now) result }
{
    let mut steps = trace.section(e);
    let prefix = prefix_of(trace, &mut steps, e, at, row, saw);
    if let Some(at) = prefix.restored {
        return SeenFrom::Restored(at);
    }
    let Some(last) = prefix.last else {
        let Some(source) = first_among(&mut steps, row, saw) else {
            return SeenFrom::Nobody;
        };
        return SeenFrom::Later(source);
    };
    match last.since {
        Since::RolledBack { by, restores } => SeenFrom::RolledBack {
            source: last.source,
            by,
            restores,
        },
        Since::Discarded { by } => SeenFrom::Discarded {
            source: last.source,
            by,
        },
        Since::Settled => match prefix.base {
            Some(state) => SeenFrom::BeforeState {
                source: last.source,
                state,
            },
            None => unreachable!(),
        },
        Since::Open(_) => unreachable!(),
    }
}

/// Where what an entry saw in a row comes from, of the record with this index of an attempt of replica e's section,
/// where that has come to this.
///
/// docs/MODEL.md, "Where what was seen comes from". It goes back over the records on its way. Where none of these left
/// it, and none behind it in the attempt, one pass over the section. It takes no memory.
pub fn seen_from(site: Site<'_, '_, '_>, e: u8, index: u16, row: Row, saw: &Versioned) -> SeenFrom
    requires there { e < length site.trace.now.sections }
    requires look { (prefix : List (ℕ × StepValue)) × (behind : List (ℕ × StepValue)) × (a : AttemptValue)
        × (steps_at site.trace.now e ≡ prefix ++ (site.attempt.now.offset, Attempts a) ∷ behind)
        × IsCourse (state_after start prefix) site.course.now × (attempt_decoded site.attempt.now ≡ without_accesses a)
        × (site.accesses.now ≡ accesses_at site.attempt.now.offset a) }
    ensures { (prefix behind : List (ℕ × StepValue)) (a : AttemptValue)
        → steps_at site.entry.trace.now e ≡ prefix ++ (site.entry.attempt.now.offset, Attempts a) ∷ behind
        → IsCourse (state_after start prefix) site.entry.course.now
        → attempt_decoded site.entry.attempt.now ≡ without_accesses a
        → site.entry.accesses.now ≡ accesses_at site.entry.attempt.now.offset a
        → IsSeenFrom site.entry.trace.now (look prefix behind site.entry.attempt.now.offset a index row saw.now)
        result }
{
    match near(site, index, row, saw) {
        Some(seen) => seen,
        None => elsewhere(site.trace, e, site.attempt.offset(), row, saw),
    }
}
