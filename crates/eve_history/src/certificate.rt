//! The certificate of an attempt against its batch.

ghost use Rattle.std.specs.Prelude.{◌≡◌, ◌==◌, ◌≤◌, ◌<◌, ℕ, IsTrue, length, take, slice_index};
ghost use Rattle.eve_grammar.specs.Limits.{is_batch};
ghost use Rattle.eve_grammar.specs.Certificate.{group_of, is_certificate};
ghost use Rattle.eve_frames.specs.Decoded.{attempt_decoded, batch_decoded};
ghost use Rattle.eve_history.specs.Section.{request_count, is_right_certificate};

use eve_frames::{AttemptView, BatchView};
use eve_grammar::MOST_REQUESTS;
use eve_views::Trace;

/// The indexes of a certificate, in its order.
pub fn read_order(attempt: &AttemptView<'_>, order: &mut [u16; MOST_REQUESTS])
    requires { length (attempt_decoded attempt.now).certificate ≤ MOST_REQUESTS }
    ensures { take (length (attempt_decoded attempt.now).certificate) order.new
        ≡ (attempt_decoded attempt.now).certificate }
{
    for place in 0..attempt.len() {
        order[place] = attempt.index_at(place);
    }
}

/// The parallelBatch of each index of a batch, from 0.
fn groups_of(batch: &BatchView<'_>) -> [u8; MOST_REQUESTS]
    requires { IsTrue (is_batch (batch_decoded batch.now).1) }
    ensures { (i : ℕ) → i < length (batch_decoded batch.now).1.requests → slice_index result i
        ≡ group_of (batch_decoded batch.now).1.sizes i }
{
    let mut groups = [0; MOST_REQUESTS];
    let mut group: u8 = 0;
    let mut end = batch.group(0) as usize;
    for index in 0..batch.len() {
        if index == end {
            group += 1;
            end += batch.group(group as usize) as usize;
        }
        groups[index] = group;
    }
    groups
}

/// Whether a certificate keeps the groups of its batch, and in serial mode is the listed order.
fn is_certificate(batch: &BatchView<'_>, serial: bool, order: &[u16]) -> bool
    requires whole { IsTrue (is_batch (batch_decoded batch.now).1) }
    requires count { length order.now ≡ length (batch_decoded batch.now).1.requests }
    ensures { result ≡ is_certificate (batch_decoded batch.now).1.sizes
        (length (batch_decoded batch.now).1.requests) serial order.now }
{
    eve_grammar::is_certificate(&groups_of(batch), serial, order)
}

/// Whether an attempt, whose batch is there, has as many indexes as the batch has requests.
pub fn has_every_index(trace: &Trace<'_>, attempt: &AttemptView<'_>) -> bool
    requires one { 1 ≤ (attempt_decoded attempt.now).seq }
    requires there { (attempt_decoded attempt.now).seq ≤ length trace.now.batches }
    ensures { result ≡ (length (attempt_decoded attempt.now).certificate
        == request_count trace.now (attempt_decoded attempt.now)) }
{
    trace.recall_limits();
    attempt.len() == trace.batch(attempt.seq()).len()
}

/// Whether the certificate of an attempt keeps the groups of its batch, and in serial mode is the listed order.
///
/// docs/MODEL.md, "Certificate order, keeps the groups" and "Section state, fate".
pub fn is_right_certificate(trace: &Trace<'_>, attempt: &AttemptView<'_>, order: &[u16]) -> bool
    requires one { 1 ≤ (attempt_decoded attempt.now).seq }
    requires there { (attempt_decoded attempt.now).seq ≤ length trace.now.batches }
    requires order { order.now ≡ (attempt_decoded attempt.now).certificate }
    requires count { length (attempt_decoded attempt.now).certificate
        ≡ request_count trace.now (attempt_decoded attempt.now) }
    ensures { result ≡ is_right_certificate trace.now (attempt_decoded attempt.now) }
{
    trace.recall_limits();
    let batch = trace.batch(attempt.seq());
    is_certificate(&batch, attempt.is_serial(), order)
}
