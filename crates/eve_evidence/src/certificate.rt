//! What is wrong with the certificate of an attempt.

ghost use Rattle.std.specs.Prelude.{◌≡◌, ◌≢◌, ◌<◌, ◌≤◌, ℕ, IfSome, IfNone, IsTrue, IsFalse, length, take};
ghost use Rattle.std.specs.Prelude.{slice_get, Some};
ghost use Rattle.eve_grammar.specs.Certificate.{group_of, is_certificate};
ghost use Rattle.eve_grammar.specs.declared.limits.TheConstants.{MOST_REQUESTS};
ghost use Rattle.eve_frames.specs.Decoded.{attempt_decoded, batch_decoded};
ghost use Rattle.eve_history.specs.Section.{batch_at, request_count, is_right_certificate};
ghost use Rattle.eve_evidence.specs.Certificate.{HasNot, IsFirstPlace, IsMissing, IsLeastMissing, IsRightPlace};
ghost use Rattle.eve_evidence.specs.Certificate.{IsWrongPlace, IsCertificateFault};

use crate::evidence::CertificateFault;
use eve_frames::{AttemptView, BatchView};
use eve_views::Trace;

/// The first of a certificate's first places at which the index stands, if it stands at one.
fn place_before(attempt: &AttemptView<'_>, count: usize, index: u16) -> Option<u16>
    requires few { length (attempt_decoded attempt.now).certificate ≤ MOST_REQUESTS }
    requires there { count ≤ length (attempt_decoded attempt.now).certificate }
    ensures first { IfSome result (IsFirstPlace (take count (attempt_decoded attempt.now).certificate) index) }
    ensures none { IfNone result (HasNot (take count (attempt_decoded attempt.now).certificate) index) }
{
    for place in 0..count {
        if attempt.index_at(place) == index {
            return Some(place as u16);
        }
    }
    None
}

/// The index with which the parallelBatch of this one begins: those below it are of earlier ones.
fn group_start(batch: &BatchView<'_>, index: u16) -> u16
    ensures earlier { (m : ℕ) → m < result
        → group_of (batch_decoded batch.now).1.sizes m < group_of (batch_decoded batch.now).1.sizes index }
    ensures later { (m : ℕ) → result ≤ m
        → group_of (batch_decoded batch.now).1.sizes index ≤ group_of (batch_decoded batch.now).1.sizes m }
{
    let mut start: u16 = 0;
    for group in 0..batch.groups() {
        let size = batch.group(group);
        if index - start < size {
            return start;
        }
        start += size;
    }
    start
}

/// The least index of an earlier parallelBatch that doesn't stand at one of a certificate's first places, if one
/// doesn't.
fn missing_before(
    batch: &BatchView<'_>,
    attempt: &AttemptView<'_>,
    count: usize,
    index: u16,
) -> Option<u16>
    requires few { length (attempt_decoded attempt.now).certificate ≤ MOST_REQUESTS }
    requires there { count ≤ length (attempt_decoded attempt.now).certificate }
    ensures least { IfSome result (IsLeastMissing (batch_decoded batch.now).1.sizes
        (take count (attempt_decoded attempt.now).certificate) index) }
    ensures none { IfNone result ((m : ℕ) → ¬ IsMissing (batch_decoded batch.now).1.sizes
        (take count (attempt_decoded attempt.now).certificate) index m) }
{
    for m in 0..group_start(batch, index) {
        match place_before(attempt, count, m) {
            Some(_) => {}
            None => return Some(m),
        }
    }
    None
}

/// Whether an index is not its place in the certificate of a serial attempt.
fn is_out_of_order(attempt: &AttemptView<'_>, index: u16, place: u16) -> bool
    ensures yes { IsTrue result → IsTrue (attempt_decoded attempt.now).serial × (index ≢ place) }
    ensures no { IsFalse result → IsTrue (attempt_decoded attempt.now).serial → index ≡ place }
{
    if attempt.is_serial() {
        index != place
    } else {
        false
    }
}

/// What is wrong at a place of a certificate, if anything is.
fn wrong_place(
    batch: &BatchView<'_>,
    attempt: &AttemptView<'_>,
    place: usize,
) -> Option<CertificateFault>
    requires few { length (attempt_decoded attempt.now).certificate ≤ MOST_REQUESTS }
    requires there { place < length (attempt_decoded attempt.now).certificate }
    ensures wrong { IfSome result (λ w. (index : ℕ)
        → slice_get (attempt_decoded attempt.now).certificate place ≡ Some index
        → IsWrongPlace (batch_decoded batch.now).1.sizes (length (batch_decoded batch.now).1.requests)
        (attempt_decoded attempt.now).serial (take place (attempt_decoded attempt.now).certificate) index w) }
    ensures right { IfNone result ((index : ℕ) → slice_get (attempt_decoded attempt.now).certificate place ≡ Some index
        → IsRightPlace (batch_decoded batch.now).1.sizes (length (batch_decoded batch.now).1.requests)
        (attempt_decoded attempt.now).serial (take place (attempt_decoded attempt.now).certificate) index) }
{
    let index = attempt.index_at(place);
    let requests = batch.len();
    let own = place as u16;
    if requests <= index as usize {
        return Some(CertificateFault::NoRequest {
            index,
            place: own,
            requests: requests as u16,
        });
    }
    if let Some(first) = place_before(attempt, place, index) {
        return Some(CertificateFault::Again {
            index,
            place: own,
            first,
        });
    }
    if is_out_of_order(attempt, index, own) {
        return Some(CertificateFault::OutOfOrder { index, place: own });
    }
    match missing_before(batch, attempt, place, index) {
        Some(before) => Some(CertificateFault::BeforeGroup {
            index,
            place: own,
            before,
        }),
        None => None,
    }
}

/// The first place of an attempt's certificate that is wrong, and what is, beside its batch.
fn fault_beside(batch: &BatchView<'_>, attempt: &AttemptView<'_>) -> Option<CertificateFault>
    requires { length (attempt_decoded attempt.now).certificate ≤ MOST_REQUESTS }
    ensures told { IfSome result (IsCertificateFault (batch_decoded batch.now).1.sizes
        (length (batch_decoded batch.now).1.requests) (attempt_decoded attempt.now).serial
        (attempt_decoded attempt.now).certificate) }
    ensures right { IfNone result
        (length (attempt_decoded attempt.now).certificate ≡ length (batch_decoded batch.now).1.requests
        → IsTrue (is_certificate (batch_decoded batch.now).1.sizes (length (batch_decoded batch.now).1.requests)
        (attempt_decoded attempt.now).serial (attempt_decoded attempt.now).certificate)) }
{
    for place in 0..attempt.len() {
        let wrong = wrong_place(batch, attempt, place);
        if wrong.is_some() {
            return wrong;
        }
    }
    None
}

/// The first place of an attempt's certificate that is wrong, and what is, if the attempt has as many indexes as its
/// batch has requests.
///
/// docs/MODEL.md, "Certificate order, keeps the groups".
pub fn certificate_fault(trace: &Trace<'_>, attempt: &AttemptView<'_>) -> Option<CertificateFault>
    ensures told { IfSome result (IsCertificateFault (batch_at trace.now (attempt_decoded attempt.now).seq).sizes
        (request_count trace.now (attempt_decoded attempt.now)) (attempt_decoded attempt.now).serial
        (attempt_decoded attempt.now).certificate) }
    ensures right { IfNone result
        (length (attempt_decoded attempt.now).certificate ≡ request_count trace.now (attempt_decoded attempt.now)
        → IsTrue (is_right_certificate trace.now (attempt_decoded attempt.now))) }
{
    let number = attempt.seq().max(1);
    if trace.batch_count() < number {
        return None;
    }
    let batch = trace.batch(number);
    trace.recall_limits();
    if attempt.len() != batch.len() {
        return None;
    }
    fault_beside(&batch, attempt)
}
