//! The evidence of an attempt whose outcome isn't the one that was committed first.

ghost use Rattle.std.specs.Prelude.{◌≡◌, ◌<◌, ◌≤◌, ◌↔◌, IsTrue, IfOk, IfSome, IfNone, length, slice_get};
ghost use Rattle.eve_frames.specs.Decoded.{attempt_decoded};
ghost use Rattle.eve_views.specs.declared.fault.Code.TheVariants as code;
ghost use Rattle.eve_history.specs.SectionHistory.{section_histories};
ghost use Rattle.eve_chains.specs.CommittedValues.{settling, settlings};
ghost use Rattle.eve_chains.specs.Committed.{balances_to};
ghost use Rattle.eve_agree.specs.Agreement.{StandsInAgreement};
ghost use Rattle.eve_evidence_outcomes.specs.Outcome.{IsFirstApart, IsReplyFault, TellsOutcomeFault, TellsOutcome};
ghost use Rattle.eve_evidence_outcomes.specs.Outcome.{HasThatOfFirst};

use crate::committed::{CommittedBy, committed_attempt, first_committed};
use crate::replicas::{Replicas, history_at, settled_at};
use crate::sent::has_reply;
use crate::state::row_apart;
use eve_evidence::{Evidence, OutcomeFault, reply_of, told_attempt, told_request};
use eve_frames::AttemptView;
use eve_views::Trace;
use std::alloc::{AllocError, Global};

/// Whether two attempts have the same reply for the request of an index, or both have none.
fn have_same_reply(own: &AttemptView<'_>, its: &AttemptView<'_>, index: u16) -> bool
    ensures { IsTrue result ↔ (slice_get (attempt_decoded own.now).replies index
        ≡ slice_get (attempt_decoded its.now).replies index) }
{
    if (index as usize) < own.len() {
        return has_reply(its, index, own.reply(index as usize));
    }
    its.len() <= index as usize
}

/// The first index for which two attempts have other replies, if there is one.
fn first_reply_apart(own: &AttemptView<'_>, its: &AttemptView<'_>) -> Option<u16>
    ensures apart { IfSome result (IsFirstApart (attempt_decoded own.now).replies (attempt_decoded its.now).replies) }
    ensures none { IfNone result ((attempt_decoded own.now).replies ≡ (attempt_decoded its.now).replies) }
{
    for index in 0..256 {
        if !have_same_reply(own, its, index) {
            return Some(index);
        }
    }
    None
}

/// The first request to which two attempts of a batch have other replies, if there is one.
fn reply_apart<'a>(
    trace: &Trace<'a>,
    n: u32,
    own: &AttemptView<'_>,
    its: &AttemptView<'_>,
) -> Option<OutcomeFault<'a>>
    ensures apart { IfSome result (IsReplyFault trace.now n (attempt_decoded own.now).replies
        (attempt_decoded its.now).replies) }
    ensures none { IfNone result ((attempt_decoded own.now).replies ≡ (attempt_decoded its.now).replies) }
{
    let Some(index) = first_reply_apart(own, its) else {
        return None;
    };
    Some(OutcomeFault::Reply {
        request: told_request(trace, n, index),
        found: reply_of(own, index),
        due: reply_of(its, index),
    })
}

/// The first thing in which one replica's outcome of batch n isn't that of another, if there is one.
fn outcome_fault<'a>(
    alloc: Global,
    trace: &Trace<'a>,
    replicas: Replicas<'_, '_>,
    n: u32,
    own: CommittedBy<'_>,
    its: CommittedBy<'_>,
) -> Result<Option<OutcomeFault<'a>>, AllocError>
    requires histories { replicas.histories.now ≡ section_histories trace.now }
    requires settled { replicas.settled.now ≡ settlings trace.now }
    requires there { own.replica < length trace.now.sections }
    requires number { n ≤ length (settling trace.now own.replica).numbers }
    requires its { its.replica < length trace.now.sections }
    requires its_number { n ≤ length (settling trace.now its.replica).numbers }
    ensures told { IfOk result (λ x. IfSome x (TellsOutcomeFault trace.now own.entry.replica its.entry.replica n
        (attempt_decoded own.entry.attempt).replies (attempt_decoded its.entry.attempt).replies)) }
    ensures none { IfOk result (λ x. IfNone x
        ((balances_to trace.now own.entry.replica n ≡ balances_to trace.now its.entry.replica n)
        × ((attempt_decoded own.entry.attempt).replies ≡ (attempt_decoded its.entry.attempt).replies))) }
{
    match row_apart(alloc, trace, replicas, own.replica, its.replica, n) {
        Ok(Some(apart)) => Ok(Some(OutcomeFault::Row {
            row: apart.row,
            found: apart.found,
            due: apart.due,
        })),
        Ok(None) => Ok(reply_apart(trace, n, &own.attempt, &its.attempt)),
        Err(why) => Err(why),
    }
}

/// The outcome of batch n, if the attempt by which replica e committed it begins at this byte and its outcome isn't
/// that of the first that committed it.
fn at_number<'a>(
    alloc: Global,
    trace: &Trace<'a>,
    replicas: Replicas<'_, '_>,
    e: u8,
    n: u32,
    place: u64,
) -> Result<Option<Evidence<'a>>, AllocError>
    requires histories { replicas.histories.now ≡ section_histories trace.now }
    requires settled { replicas.settled.now ≡ settlings trace.now }
    requires there { e < length trace.now.sections }
    requires number { n ≤ length (settling trace.now e).numbers }
    ensures told { IfOk result (λ x. IfSome x (TellsOutcome trace.now e place)) }
    ensures none { IfOk result (λ x. IfNone x (HasThatOfFirst trace.now e place n)) }
{
    let Some(own) = committed_attempt(history_at(trace, replicas.histories, e), n) else {
        return Ok(None);
    };
    if own.offset() != place {
        return Ok(None);
    }
    let Some(first) = first_committed(replicas.histories, n) else {
        return Ok(None);
    };
    let own_by = CommittedBy {
        replica: e,
        attempt: own,
    };
    match outcome_fault(alloc, trace, replicas, n, own_by, first) {
        Ok(Some(wrong)) => Ok(Some(Evidence::Outcome {
            attempt: told_attempt(&own),
            first: first.replica,
            first_at: first.attempt.offset(),
            wrong,
        })),
        Ok(None) => Ok(None),
        Err(why) => Err(why),
    }
}

/// The evidence of an attempt whose outcome isn't that of the lowest-numbered replica that committed its batch, by the
/// replica's number from 0 and the byte of its frame.
///
/// It has that replica and its attempt, and the first row whose balance differs after the batch, or else the first
/// request, by its index, whose reply does.
///
/// docs/MODEL.md, "Agreement" and "Evidence". The histories and what they settled are those of all replicas, in their
/// order. It takes the balances of two replicas.
pub fn outcome_evidence<'a>(
    alloc: Global,
    trace: &Trace<'a>,
    replicas: Replicas<'_, '_>,
    e: u8,
    place: u64,
) -> Result<Evidence<'a>, AllocError>
    requires histories { replicas.histories.now ≡ section_histories trace.now }
    requires settled { replicas.settled.now ≡ settlings trace.now }
    requires there { e < length trace.now.sections }
    requires stands { StandsInAgreement code.Outcome trace.now e place }
    ensures told { IfOk result (TellsOutcome trace.now e place) }
{
    let count = settled_at(trace, replicas.settled, e).committed();
    for n in 0..count {
        match at_number(alloc, trace, replicas, e, n + 1, place) {
            Ok(None) => {}
            Ok(Some(found)) => return Ok(found),
            Err(why) => return Err(why),
        }
    }
    unreachable!()
}
