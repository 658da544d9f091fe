//! An entry that doesn't see what it must.

ghost use Rattle.std.specs.Prelude.{◌≡◌, IfSome, IfNone, IsTrue, IsFalse};
ghost use Rattle.std.specs.List.{AllByRecursion};
ghost use Rattle.eve_grammar.specs.Trace.{Attempt as AttemptValue};
ghost use Rattle.eve_grammar.specs.Frames.{without_accesses};
ghost use Rattle.eve_grammar.specs.Spelling.{accesses_at};
ghost use Rattle.eve_frames.specs.Decoded.{access_decoded, attempt_decoded};
ghost use Rattle.eve_history.specs.Section.{SectionState};
ghost use Rattle.eve_chains.specs.Visible.{visible_to};
ghost use Rattle.eve_chains.specs.Along.{SeesAnother};
ghost use Rattle.eve_evidence.specs.Course.{IsCourse};
ghost use Rattle.eve_evidence.specs.Told.{placed_in};
ghost use Rattle.eve_evidence.specs.Chain.{IsFirstWrongEntry};

use crate::course::Course;
use crate::evidence::WrongEntry;
use crate::seen::seen_by;
use crate::sources::left_to;
use crate::told::told_row;
use eve_frames::{AccessView, AttemptView};
use eve_smallbank::{Entry, Versioned};
use eve_views::{Accesses, Code, Trace};

/// Whether an entry sees another version, or another value, than its row has.
fn sees_another(code: Code, has: &Versioned, entry: &Entry) -> bool
    ensures yes { IsTrue result → SeesAnother code has.now entry.now }
    ensures no { IsFalse result → ¬ SeesAnother code has.now entry.now }
{
    match code {
        Code::Version => entry.version != has.version,
        Code::Value => entry.seen != has.value,
        _ => false,
    }
}

/// The first entry of a record that sees another version, or another value, than it must, if one does.
pub fn wrong_entry<'a>(
    trace: &Trace<'a>,
    course: &Course<'_, 'a>,
    attempt: &AttemptView<'a>,
    accesses: &Accesses<'_, 'a>,
    access: &AccessView<'a>,
    code: Code,
) -> Option<WrongEntry<'a>>
    requires { (s : SectionState) × IsCourse s course.now }
    ensures told { IfSome result (λ w. (s : SectionState) (a : AttemptValue) → IsCourse s course.now
        → attempt_decoded attempt.now ≡ without_accesses a → accesses.now ≡ accesses_at attempt.now.offset a
        → IsFirstWrongEntry trace.now code s attempt.now.offset a (access_decoded access.now) w) }
    ensures none { IfNone result ((s : SectionState) (a : AttemptValue) → IsCourse s course.now
        → attempt_decoded attempt.now ≡ without_accesses a → accesses.now ≡ accesses_at attempt.now.offset a
        → AllByRecursion (λ y. ¬ SeesAnother code
        (visible_to trace.now (placed_in s attempt.now.offset a) (access_decoded access.now).index y.row) y)
        (access_decoded access.now).entries) }
{
    let index = access.index();
    for i in 0..access.len() {
        let entry = access.entry(i);
        let left = left_to(trace, course, attempt, accesses, index, entry.row);
        if sees_another(code, &left.has, &entry) {
            return Some(WrongEntry {
                entry: i as u8,
                kind: entry.kind,
                row: told_row(trace, entry.row),
                saw: Versioned {
                    version: entry.version,
                    value: entry.seen,
                },
                due: left.has,
                left_by: left.by,
                seen_by: seen_by(attempt, accesses, index, &entry),
            });
        }
    }
    None
}
