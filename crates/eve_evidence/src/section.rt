//! The evidence of a fault in a replica's section.

ghost use Rattle.std.specs.Prelude.{◌≡◌, ◌<◌, ℕ, IfSome, IfNone, IfOk, List, length, slice_get};
ghost use Rattle.std.specs.Prelude.{Some};
ghost use Rattle.eve_smallbank.specs.Access.{Fits};
ghost use Rattle.eve_views.specs.declared.fault.Code.TheVariants as code;
ghost use Rattle.eve_history.specs.SectionHistory.{names_of};
ghost use Rattle.eve_chains.specs.Visible.{executed_by, visible_to};
ghost use Rattle.eve_chains.specs.Along.{SeesAnother};
ghost use Rattle.eve_evidence.specs.Told.{placed_in};
ghost use Rattle.eve_grammar.specs.Trace.{Access as AccessValue, Attempt as AttemptValue, Step as StepValue};
ghost use Rattle.eve_grammar.specs.Trace.{Attempts};
ghost use Rattle.eve_grammar.specs.Frames.{without_accesses};
ghost use Rattle.eve_grammar.specs.Spelling.{accesses_at, steps_at};
ghost use Rattle.eve_frames.specs.Decoded.{access_decoded, attempt_decoded, commit_decoded, rollback_decoded};
ghost use Rattle.eve_frames.specs.Decoded.{transfer_decoded};
ghost use Rattle.eve_views.specs.Form.{SomePlace};
ghost use Rattle.eve_views.specs.StepKinds.{IsStep};
ghost use Rattle.eve_history.specs.Section.{SectionState, start, state_after};
ghost use Rattle.std.specs.Prelude.{◌∷◌, ◌++◌};
ghost use Rattle.eve_evidence.specs.Course.{IsCourse};
ghost use Rattle.eve_evidence.specs.Section.{WrongAttempt, WrongCommit, WrongRollback, WrongTransfer};
ghost use Rattle.eve_evidence.specs.Section.{StandsAlong, TellsAttempt, TellsAccess, TellsCommit};
ghost use Rattle.eve_evidence.specs.Section.{TellsRollback, TellsTransfer, TellsAlong};
ghost use Rattle.eve_evidence.specs.inner.Places.{ToldAlong, NoneAlong, ToldAtStep, NoneAtStep, HasLook, TellsSeenWith};
ghost use Rattle.eve_evidence.specs.inner.Places.{TellsPlace, HasNonePlace, TellsRecord, HasNoneWrong};

use crate::certificate::certificate_fault;
use crate::chain::wrong_entry;
use crate::course::Course;
use crate::evidence::{Evidence, SeenFrom};
use crate::record::record_fault;
use crate::seen::seen_from;
use crate::site::Site;
use crate::structure::{
    access_fault, attempt_fault, commit_fault, place_fault, rollback_fault, transfer_fault,
};
use crate::told::{reply_of, told_attempt, told_request, told_transfer};
use eve_accounts::Names;
use eve_frames::{AccessView, AttemptView, CommitView, RollbackView, TransferView};
use eve_views::{Accesses, Code, Step, Trace};
use std::alloc::{AllocError, Global};

/// What shows a fault at an attempt's own frame, if there is one of this code.
fn at_attempt<'a>(
    trace: &Trace<'a>,
    course: &Course<'_, 'a>,
    attempt: &AttemptView<'a>,
    code: Code,
) -> Option<Evidence<'a>>
    requires { (s : SectionState) × IsCourse s course.now }
    ensures told { IfSome result (λ x. (s : SectionState) → IsCourse s course.now
        → TellsAttempt code trace.now s attempt.now.offset (attempt_decoded attempt.now) x) }
    ensures none { IfNone result ((s : SectionState) → IsCourse s course.now
        → ¬ WrongAttempt code trace.now s (attempt_decoded attempt.now)) }
{
    match code {
        Code::Attempt => match attempt_fault(trace, course, attempt) {
            Some(wrong) => Some(Evidence::Attempt(wrong)),
            None => None,
        },
        Code::Certificate => match certificate_fault(trace, attempt) {
            Some(wrong) => Some(Evidence::Certificate {
                attempt: told_attempt(attempt),
                wrong,
            }),
            None => None,
        },
        _ => None,
    }
}

/// What shows a fault at an attempt's own frame, if it begins at this byte and there is one of this code.
fn at_own_frame<'a>(
    trace: &Trace<'a>,
    course: &Course<'_, 'a>,
    attempt: &AttemptView<'a>,
    code: Code,
    place: u64,
) -> Option<Evidence<'a>>
    requires { (s : SectionState) × IsCourse s course.now }
    ensures told { IfSome result (λ x. (s : SectionState) → IsCourse s course.now
        → (attempt.now.offset ≡ place)
        × TellsAttempt code trace.now s attempt.now.offset (attempt_decoded attempt.now) x) }
    ensures none { IfNone result ((s : SectionState) → IsCourse s course.now → attempt.now.offset ≡ place
        → ¬ WrongAttempt code trace.now s (attempt_decoded attempt.now)) }
{
    if attempt.offset() != place {
        return None;
    }
    at_attempt(trace, course, attempt, code)
}

/// What shows a fault at the frame of an access record, if there is one of this code.
fn at_access<'a>(
    site: Site<'_, '_, 'a>,
    names: &Names<'_>,
    i: usize,
    code: Code,
) -> Option<Evidence<'a>>
    requires course { (s : SectionState) × IsCourse s site.course.now }
    requires names { names.now.items ≡ names_of site.trace.now }
    requires there { i < length site.accesses.now }
    ensures told { IfSome result (TellsRecord code site.entry.trace.now site.entry.course.now site.entry.attempt.now
        site.entry.accesses.now i) }
    ensures none { IfNone result (HasNoneWrong code site.entry.trace.now site.entry.course.now site.entry.attempt.now
        site.entry.accesses.now i) }
{
    let Site {
        trace,
        attempt,
        accesses,
        ..
    } = site;
    match code {
        Code::Version => chain_at(site, i, Code::Version),
        Code::Value => chain_at(site, i, Code::Value),
        Code::Record => record_at(trace, names, attempt, &accesses.get(i)),
        Code::Access => match access_fault(trace, attempt, accesses, i) {
            Some(wrong) => Some(Evidence::Access {
                attempt: told_attempt(attempt),
                at: accesses.get(i).offset(),
                wrong,
            }),
            None => None,
        },
        Code::WorkerOrder => match place_fault(accesses, i) {
            Some(place) => Some(Evidence::WorkerOrder {
                attempt: told_attempt(attempt),
                at: accesses.get(i).offset(),
                place,
            }),
            None => None,
        },
        _ => None,
    }
}

/// What shows that an entry of an access record sees another version, or another value, than it must, if one does.
fn chain_at<'a>(site: Site<'_, '_, 'a>, i: usize, code: Code) -> Option<Evidence<'a>>
    requires course { (s : SectionState) × IsCourse s site.course.now }
    requires there { i < length site.accesses.now }
    ensures told { IfSome result (TellsRecord code site.entry.trace.now site.entry.course.now site.entry.attempt.now
        site.entry.accesses.now i) }
    ensures none { IfNone result ((x : ℕ × AccessValue) → slice_get site.entry.accesses.now i ≡ Some x
        → (s : SectionState) (a : AttemptValue) → IsCourse s site.entry.course.now
        → attempt_decoded site.entry.attempt.now ≡ without_accesses a
        → site.entry.accesses.now ≡ accesses_at site.entry.attempt.now.offset a
        → ¬ SomePlace x.1.entries (λ _ y. SeesAnother code
        (visible_to site.entry.trace.now (placed_in s site.entry.attempt.now.offset a) x.1.index y.row) y)) }
{
    let Site {
        trace,
        course,
        attempt,
        accesses,
    } = site;
    let access = accesses.get(i);
    let Some(wrong) = wrong_entry(trace, course, attempt, accesses, &access, code) else {
        return None;
    };
    Some(Evidence::Chain {
        attempt: told_attempt(attempt),
        request: told_request(trace, attempt.seq(), access.index()),
        at: access.offset(),
        wrong,
        seen: None,
    })
}

/// What shows that a record doesn't fit its request, if it doesn't.
fn record_at<'a>(
    trace: &Trace<'a>,
    names: &Names<'_>,
    attempt: &AttemptView<'a>,
    access: &AccessView<'a>,
) -> Option<Evidence<'a>>
    requires { names.now.items ≡ names_of trace.now }
    ensures told { IfSome result (λ e. (a : AttemptValue) → attempt_decoded attempt.now ≡ without_accesses a
        → (s : SectionState) (own : List (ℕ × AccessValue))
        → TellsAccess code.Record trace.now s attempt.now.offset a own (access.now.offset, access_decoded access.now)
        e) }
    ensures none { IfNone result (Fits (names_of trace.now)
        (executed_by trace.now (attempt_decoded attempt.now) (access_decoded access.now))) }
{
    let index = access.index();
    let request = told_request(trace, attempt.seq(), index);
    let reply = reply_of(attempt, index);
    let Some(wrong) = record_fault(trace, names, &request.asked.request, reply, access) else {
        return None;
    };
    Some(Evidence::Record {
        attempt: told_attempt(attempt),
        request,
        at: access.offset(),
        wrong,
    })
}

/// What shows a fault at the frame of an access record, if it begins at this byte and there is one of this code.
fn at_place<'a>(
    site: Site<'_, '_, 'a>,
    names: &Names<'_>,
    i: usize,
    code: Code,
    place: u64,
) -> Option<Evidence<'a>>
    requires course { (s : SectionState) × IsCourse s site.course.now }
    requires names { names.now.items ≡ names_of site.trace.now }
    requires there { i < length site.accesses.now }
    ensures told { IfSome result (TellsPlace code site.entry.trace.now site.entry.course.now site.entry.attempt.now
        site.entry.accesses.now place i) }
    ensures none { IfNone result (HasNonePlace code site.entry.trace.now site.entry.course.now site.entry.attempt.now
        site.entry.accesses.now place i) }
{
    if site.accesses.get(i).offset() != place {
        return None;
    }
    at_access(site, names, i, code)
}

/// What shows a fault at the frame of one of an attempt's access records that begins at this byte, if there is one of
/// this code.
fn at_accesses<'a>(
    site: Site<'_, '_, 'a>,
    names: &Names<'_>,
    code: Code,
    place: u64,
) -> Option<Evidence<'a>>
    requires course { (s : SectionState) × IsCourse s site.course.now }
    requires names { names.now.items ≡ names_of site.trace.now }
    ensures told { IfSome result (ToldAlong code site.entry.trace.now place site.entry.course.now site.entry.attempt.now
        site.entry.accesses.now) }
    ensures none { IfNone result (NoneAlong code site.entry.trace.now place site.entry.course.now site.entry.attempt.now
        site.entry.accesses.now) }
{
    for i in 0..site.accesses.len() {
        if let Some(found) = at_place(site, names, i, code, place) {
            return Some(found);
        }
    }
    None
}

/// What shows a fault at a step whose frames begin at this byte, if there is one of this code.
fn at_step<'a>(
    trace: &Trace<'a>,
    names: &Names<'_>,
    course: &Course<'_, 'a>,
    step: &Step<'_, 'a>,
    code: Code,
    place: u64,
) -> Option<Evidence<'a>>
    requires course { (s : SectionState) × IsCourse s course.now }
    requires names { names.now.items ≡ names_of trace.now }
    ensures told { IfSome result (ToldAtStep code trace.now place course.now step.now) }
    ensures none { IfNone result (NoneAtStep code trace.now place course.now step.now) }
{
    match step {
        Step::Attempt(attempt, accesses) => {
            if let Some(found) = at_own_frame(trace, course, attempt, code, place) {
                return Some(found);
            }
            let site = Site {
                trace,
                course,
                attempt,
                accesses,
            };
            at_accesses(site, names, code, place)
        }
        Step::Commit(commit) => if commit.offset() == place {
            at_commit(course, commit, code)
        } else {
            None
        },
        Step::Rollback(rollback) => if rollback.offset() == place {
            at_rollback(trace, course, rollback, code)
        } else {
            None
        },
        Step::Transfer(state) => if state.offset() == place {
            at_transfer(trace, course, state, code)
        } else {
            None
        },
    }
}

/// What shows a fault at a commit, if there is one of this code.
fn at_commit<'a>(
    course: &Course<'_, 'a>,
    commit: &CommitView<'a>,
    code: Code,
) -> Option<Evidence<'a>>
    requires { (s : SectionState) × IsCourse s course.now }
    ensures told { IfSome result (λ x. (s : SectionState) → IsCourse s course.now
        → TellsCommit code s (commit_decoded commit.now) x) }
    ensures none { IfNone result ((s : SectionState) → IsCourse s course.now
        → ¬ WrongCommit code s (commit_decoded commit.now)) }
{
    match code {
        Code::Commit => match commit_fault(course, commit) {
            Some(wrong) => Some(Evidence::Commit(wrong)),
            None => None,
        },
        _ => None,
    }
}

/// What shows a fault at a rollback, if there is one of this code.
fn at_rollback<'a>(
    trace: &Trace<'a>,
    course: &Course<'_, 'a>,
    rollback: &RollbackView<'a>,
    code: Code,
) -> Option<Evidence<'a>>
    requires { (s : SectionState) × IsCourse s course.now }
    ensures told { IfSome result (λ x. (s : SectionState) → IsCourse s course.now
        → TellsRollback code trace.now s (rollback_decoded rollback.now) x) }
    ensures none { IfNone result ((s : SectionState) → IsCourse s course.now
        → ¬ WrongRollback code trace.now s (rollback_decoded rollback.now)) }
{
    match code {
        Code::Rollback => match rollback_fault(trace, course, rollback) {
            Some(wrong) => Some(Evidence::Rollback(wrong)),
            None => None,
        },
        _ => None,
    }
}

/// What shows a fault at a state that is transferred, if there is one of this code.
fn at_transfer<'a>(
    trace: &Trace<'a>,
    course: &Course<'_, 'a>,
    state: &TransferView<'a>,
    code: Code,
) -> Option<Evidence<'a>>
    requires { (s : SectionState) × IsCourse s course.now }
    ensures told { IfSome result (λ x. (s : SectionState) → IsCourse s course.now
        → TellsTransfer code trace.now s state.now.offset (transfer_decoded state.now) x) }
    ensures none { IfNone result ((s : SectionState) → IsCourse s course.now
        → ¬ WrongTransfer code trace.now s (transfer_decoded state.now)) }
{
    match code {
        Code::Transfer => match transfer_fault(trace, course, state) {
            Some(wrong) => Some(Evidence::Transfer {
                state: told_transfer(state),
                wrong,
            }),
            None => None,
        },
        _ => None,
    }
}

/// Where what a wrong entry saw comes from, of an attempt of replica e's section; nothing of other evidence.
fn seen_in<'a>(site: Site<'_, '_, 'a>, e: u8, evidence: &Evidence<'a>) -> Option<SeenFrom>
    requires there { e < length site.trace.now.sections }
    requires look { HasLook site.trace.now e site.course.now site.attempt.now site.accesses.now }
    ensures { (prefix behind : List (ℕ × StepValue)) (a : AttemptValue)
        → steps_at site.entry.trace.now e ≡ prefix ++ (site.entry.attempt.now.offset, Attempts a) ∷ behind
        → IsCourse (state_after start prefix) site.entry.course.now
        → attempt_decoded site.entry.attempt.now ≡ without_accesses a
        → site.entry.accesses.now ≡ accesses_at site.entry.attempt.now.offset a
        → TellsSeenWith site.entry.trace.now prefix (site.entry.attempt.now.offset, Attempts a) behind evidence.now
        result }
{
    match evidence {
        Evidence::Chain { request, wrong, .. } => {
            let seen = seen_from(site, e, request.index, wrong.row.row, &wrong.saw);
            Some(seen)
        }
        _ => None,
    }
}

/// The same of a step.
fn seen_at<'a>(
    trace: &Trace<'a>,
    e: u8,
    course: &Course<'_, 'a>,
    step: &Step<'_, 'a>,
    evidence: &Evidence<'a>,
) -> Option<SeenFrom>
    requires there { e < length trace.now.sections }
    requires look { (prefix : List (ℕ × StepValue)) × (is : ℕ × StepValue) × (behind : List (ℕ × StepValue))
        × (steps_at trace.now e ≡ prefix ++ is ∷ behind) × IsStep step.now is
        × IsCourse (state_after start prefix) course.now }
    ensures { (prefix : List (ℕ × StepValue)) (is : ℕ × StepValue) (behind : List (ℕ × StepValue))
        → steps_at trace.now e ≡ prefix ++ is ∷ behind → IsStep step.now is
        → IsCourse (state_after start prefix) course.now
        → TellsSeenWith trace.now prefix is behind evidence.now result }
{
    match step {
        Step::Attempt(attempt, accesses) => {
            let site = Site {
                trace,
                course,
                attempt,
                accesses,
            };
            seen_in(site, e, evidence)
        }
        Step::Commit(_) => None,
        Step::Rollback(_) => None,
        Step::Transfer(_) => None,
    }
}

/// What shows a fault of a replica's section, by the replica's number from 0: one of this code that stands at this
/// byte.
///
/// docs/MODEL.md, "Faults" and "Where what was seen comes from". One pass over the section's frames, up to the one that
/// is wrong, and of a wrong entry one more over the section; some fifty bytes for each attempt on the way.
pub fn section_evidence<'a>(
    alloc: Global,
    trace: &Trace<'a>,
    names: &Names<'_>,
    e: u8,
    code: Code,
    place: u64,
) -> Result<Evidence<'a>, AllocError>
    requires there { e < length trace.now.sections }
    requires names { names.now.items ≡ names_of trace.now }
    requires stands { StandsAlong code trace.now e place }
    ensures { IfOk result (TellsAlong code trace.now e place) }
{
    let mut course = Course::start(alloc);
    let mut steps = trace.section(e);
    while let Some(step) = steps.next() {
        if let Some(found) = at_step(trace, names, &course, &step, code, place) {
            let seen = seen_at(trace, e, &course, &step, &found);
            match found {
                Evidence::Chain {
                    attempt,
                    request,
                    at,
                    wrong,
                    ..
                } => {
                    return Ok(Evidence::Chain {
                        attempt,
                        request,
                        at,
                        wrong,
                        seen,
                    });
                }
                other => return Ok(other),
            }
        }
        course.take(step)?;
    }
    unreachable!()
}
