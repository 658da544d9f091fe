//! What is wrong with a step of a section.

ghost use Rattle.std.specs.Prelude.{◌≡◌, ◌≢◌, ◌<◌, ◌≤◌, ◌+◌, ℕ, IfSome, IfNone, IsTrue, length, take, slice_get, Some};
ghost use Rattle.std.specs.List.{AllByRecursion};
ghost use Rattle.eve_frames.specs.Decoded.{attempt_decoded, commit_decoded, rollback_decoded, transfer_decoded};
ghost use Rattle.eve_history.specs.Section.{SectionState, request_count};
ghost use Rattle.eve_history.specs.Section.{worker_count, is_right_attempt, is_right_access};
ghost use Rattle.eve_history.specs.Section.{is_right_commit, is_right_rollback, is_right_transfer};
ghost use Rattle.eve_history.specs.Structure.{accesses_of};
ghost use Rattle.eve_grammar.specs.Trace.{Access as AccessValue};
ghost use Rattle.eve_grammar.specs.Accesses.{is_right_place};
ghost use Rattle.eve_views.specs.Form.{SomePlace};
ghost use Rattle.eve_evidence.specs.Course.{IsCourse};
ghost use Rattle.eve_evidence.specs.Structure.{IsNumbered, IsAttemptFault};
ghost use Rattle.eve_evidence.specs.Structure.{IsAccessFault, IsCommitFault, IsRollbackFault};
ghost use Rattle.eve_evidence.specs.Structure.{IsTransferFault, due_number, numbers, place_numbers};

use crate::course::Course;
use crate::evidence::{
    AccessFault, AttemptFault, CommitFault, Numbers, RollbackFault, TransferFault,
};
use eve_frames::{AttemptView, CommitView, RollbackView, TransferView};
use eve_views::{Accesses, Trace};

/// A number that was found, and the one that was due.
fn numbers(found: u64, due: u64) -> Numbers
    ensures { result ≡ numbers found due }
{
    Numbers { found, due }
}

/// The last number that a section reached.
fn last_number(course: &Course<'_, '_>) -> u64
    requires { (s : SectionState) × IsCourse s course.now }
    ensures { (s : SectionState) → IsCourse s course.now → result ≡ s.last }
{
    u64::from(course.state_number()) + course.committed as u64
}

/// The number that the next commit must have.
fn commit_number(course: &Course<'_, '_>) -> u64
    requires { (s : SectionState) × IsCourse s course.now }
    ensures { (s : SectionState) → IsCourse s course.now → result ≡ s.last + 1 }
{
    u64::from(course.state_number()) + course.committed as u64 + 1
}

/// The number that the next attempt must have.
fn attempt_number(course: &Course<'_, '_>) -> u64
    requires { (s : SectionState) × IsCourse s course.now }
    ensures { (s : SectionState) → IsCourse s course.now → result ≡ due_number s }
{
    u64::from(course.state_number()) + course.path.len() as u64 + 1
}

/// The first thing that is wrong with an attempt, by itself and where its section has come to.
pub fn attempt_fault(
    trace: &Trace<'_>,
    course: &Course<'_, '_>,
    attempt: &AttemptView<'_>,
) -> Option<AttemptFault>
    requires { (s : SectionState) × IsCourse s course.now }
    ensures told { IfSome result (λ x. (s : SectionState) → IsCourse s course.now
        → IsAttemptFault trace.now s (attempt_decoded attempt.now) x) }
    ensures right { IfNone result ((s : SectionState) → IsCourse s course.now
        → IsTrue (is_right_attempt trace.now s (attempt_decoded attempt.now))) }
{
    let seq = attempt.seq();
    let found = u64::from(seq);
    let next = attempt_number(course);
    if found != next {
        return Some(AttemptFault::Number(numbers(found, next)));
    }
    let batches = u64::from(trace.batch_count());
    if batches < found {
        return Some(AttemptFault::PastBatches(numbers(found, batches)));
    }
    let room = last_number(course) + u64::from(trace.head().window);
    if room < found {
        return Some(AttemptFault::PastWindow(numbers(found, room)));
    }
    content_fault(trace, course, attempt)
}

/// The first thing that is wrong with the view, the requests or the mode of an attempt whose number is due.
fn content_fault(
    trace: &Trace<'_>,
    course: &Course<'_, '_>,
    attempt: &AttemptView<'_>,
) -> Option<AttemptFault>
    requires { (s : SectionState) × IsCourse s course.now × IsNumbered trace.now s (attempt_decoded attempt.now) }
    ensures told { IfSome result (λ x. (s : SectionState) → IsCourse s course.now
        → IsNumbered trace.now s (attempt_decoded attempt.now)
        → IsAttemptFault trace.now s (attempt_decoded attempt.now) x) }
    ensures right { IfNone result ((s : SectionState) → IsCourse s course.now
        → IsNumbered trace.now s (attempt_decoded attempt.now)
        → IsTrue (is_right_attempt trace.now s (attempt_decoded attempt.now))) }
{
    let view = attempt.view();
    if view != course.view {
        return Some(AttemptFault::View(numbers(u64::from(view), u64::from(course.view))));
    }
    let requests = attempt.len();
    let due = trace.batch(attempt.seq()).len();
    if requests != due {
        return Some(AttemptFault::Requests(numbers(requests as u64, due as u64)));
    }
    let serial = attempt.is_serial();
    if serial != course.rolled_back {
        return Some(AttemptFault::Mode {
            found: serial,
            due: course.rolled_back,
        });
    }
    None
}

/// The first thing that is wrong with a commit where its section has come to.
pub fn commit_fault<'a>(course: &Course<'_, 'a>, commit: &CommitView<'a>) -> Option<CommitFault<'a>>
    requires { (s : SectionState) × IsCourse s course.now }
    ensures told { IfSome result (λ x. (s : SectionState) → IsCourse s course.now
        → IsCommitFault s.last s.pending (commit_decoded commit.now) x) }
    ensures right { IfNone result ((s : SectionState) → IsCourse s course.now
        → IsTrue (is_right_commit s (commit_decoded commit.now))) }
{
    let seq = u64::from(commit.seq());
    let next = commit_number(course);
    if seq != next {
        return Some(CommitFault::Number(numbers(seq, next)));
    }
    let Some(open) = course.path.get(course.committed) else {
        return Some(CommitFault::NoneOpen);
    };
    let view = commit.view();
    let due = open.attempt.view();
    if view != due {
        return Some(CommitFault::View(numbers(u64::from(view), u64::from(due))));
    }
    let (found, due) = (commit.token(), open.attempt.token());
    if found != due {
        return Some(CommitFault::Token { found, due });
    }
    None
}

/// The first thing that is wrong with a rollback where its section has come to.
pub fn rollback_fault(
    trace: &Trace<'_>,
    course: &Course<'_, '_>,
    rollback: &RollbackView<'_>,
) -> Option<RollbackFault>
    requires { (s : SectionState) × IsCourse s course.now }
    ensures told { IfSome result (λ x. (s : SectionState) → IsCourse s course.now
        → IsRollbackFault trace.now s (rollback_decoded rollback.now) x) }
    ensures right { IfNone result ((s : SectionState) → IsCourse s course.now
        → IsTrue (is_right_rollback trace.now s (rollback_decoded rollback.now))) }
{
    let to = u64::from(rollback.to());
    let last = last_number(course);
    if to != last {
        return Some(RollbackFault::To(numbers(to, last)));
    }
    let batches = u64::from(trace.batch_count());
    if batches <= last {
        return Some(RollbackFault::NothingLeft(numbers(last, batches)));
    }
    let view = u64::from(rollback.view());
    let next = u64::from(course.view) + 1;
    if view != next {
        return Some(RollbackFault::View(numbers(view, next)));
    }
    None
}

/// The first thing that is wrong with a state that is transferred where its section has come to.
pub fn transfer_fault(
    trace: &Trace<'_>,
    course: &Course<'_, '_>,
    state: &TransferView<'_>,
) -> Option<TransferFault>
    requires { (s : SectionState) × IsCourse s course.now }
    ensures told { IfSome result (λ x. (s : SectionState) → IsCourse s course.now
        → IsTransferFault trace.now s (transfer_decoded state.now) x) }
    ensures right { IfNone result ((s : SectionState) → IsCourse s course.now
        → IsTrue (is_right_transfer trace.now s (transfer_decoded state.now))) }
{
    let seq = u64::from(state.seq());
    let last = last_number(course);
    if seq <= last {
        return Some(TransferFault::Number(numbers(seq, last)));
    }
    let batches = u64::from(trace.batch_count());
    if batches < seq {
        return Some(TransferFault::PastBatches(numbers(seq, batches)));
    }
    let view = u64::from(state.view());
    let own = u64::from(course.view);
    if view < own {
        return Some(TransferFault::View(numbers(view, own)));
    }
    None
}

/// How many requests the batch of an attempt has; none where there is no such batch.
fn request_count(trace: &Trace<'_>, attempt: &AttemptView<'_>) -> usize
    ensures { result ≡ request_count trace.now (attempt_decoded attempt.now) }
{
    let number = attempt.seq().max(1);
    if number <= trace.batch_count() {
        trace.batch(number).len()
    } else {
        0
    }
}

/// How many workers an attempt may have.
fn worker_count(trace: &Trace<'_>, attempt: &AttemptView<'_>) -> u8
    ensures { result ≡ worker_count trace.now (attempt_decoded attempt.now) }
{
    if attempt.is_serial() {
        1
    } else {
        trace.head().workers
    }
}

/// The first of an attempt's first access records with this index, by its byte, if there is one.
fn first_with(accesses: &Accesses<'_, '_>, count: usize, index: u16) -> Option<u64>
    requires { count ≤ length accesses.now }
    ensures found { IfSome result (λ at. SomePlace (take count accesses.now) (λ before y. (y.0 ≡ at)
        × (y.1.index ≡ index) × AllByRecursion (λ z. z.1.index ≢ index) before)) }
    ensures none { IfNone result (AllByRecursion (λ z. z.1.index ≢ index) (take count accesses.now)) }
{
    for i in 0..count {
        let access = accesses.get(i);
        if access.index() == index {
            return Some(access.offset());
        }
    }
    None
}

/// The first thing that is wrong with the worker or the index of an attempt's access record, by its place from 0.
pub fn access_fault(
    trace: &Trace<'_>,
    attempt: &AttemptView<'_>,
    accesses: &Accesses<'_, '_>,
    i: usize,
) -> Option<AccessFault>
    requires { i < length accesses.now }
    ensures told { IfSome result (λ w. (x : ℕ × AccessValue) → slice_get accesses.now i ≡ Some x
        → IsAccessFault trace.now (attempt_decoded attempt.now) (take i accesses.now) x.1 w) }
    ensures right { IfNone result ((x : ℕ × AccessValue) → slice_get accesses.now i ≡ Some x
        → IsTrue (is_right_access trace.now (attempt_decoded attempt.now) (accesses_of (take i accesses.now)) x.1)) }
{
    let access = accesses.get(i);
    let (worker, workers) = (access.worker(), worker_count(trace, attempt));
    if workers <= worker {
        return Some(AccessFault::Worker(numbers(u64::from(worker), u64::from(workers))));
    }
    let (index, requests) = (access.index(), request_count(trace, attempt));
    if requests <= index as usize {
        return Some(AccessFault::Index(numbers(u64::from(index), requests as u64)));
    }
    match first_with(accesses, i, index) {
        Some(first) => Some(AccessFault::Again { index, first }),
        None => None,
    }
}

/// The place that an attempt's access record says, and its worker's next, where they differ.
pub fn place_fault(accesses: &Accesses<'_, '_>, i: usize) -> Option<Numbers>
    requires { i < length accesses.now }
    ensures told { IfSome result (λ n. (x : ℕ × AccessValue) → slice_get accesses.now i ≡ Some x
        → (n ≡ place_numbers (take i accesses.now) x.1) × (n.found ≢ n.due)) }
    ensures right { IfNone result ((x : ℕ × AccessValue) → slice_get accesses.now i ≡ Some x
        → IsTrue (is_right_place (accesses_of (take i accesses.now)) x.1)) }
{
    let access = accesses.get(i);
    let worker = access.worker();
    let mut next = 0;
    for k in 0..i {
        if accesses.get(k).worker() == worker {
            next += 1;
        }
    }
    let place = u64::from(access.place());
    if place != next {
        return Some(numbers(place, next));
    }
    None
}
