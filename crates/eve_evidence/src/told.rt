//! Attempts, states, requests and rows, as evidence tells them.

ghost use Rattle.std.specs.Prelude.{◌≡◌, ◌≢◌, ◌<◌, IsTrue, IsFalse, length, slice_get, slice_index_or, Some};
ghost use Rattle.eve_smallbank.specs.declared.request.Reply.TheVariants.{Done};
ghost use Rattle.eve_grammar.specs.Trace.{no_request, request_id};
ghost use Rattle.eve_grammar.specs.Bodies.{borrowed_asked};
ghost use Rattle.eve_frames.specs.Decoded.{attempt_decoded, batch_decoded, transfer_decoded};
ghost use Rattle.eve_evidence.specs.Told.{told_attempt, told_transfer, request_in, IsToldRequest, IsToldRow};

use crate::evidence::{ToldAttempt, ToldRequest, ToldRow, ToldTransfer};
use eve_accounts::Row;
use eve_frames::{AttemptView, BatchView, TransferView};
use eve_grammar::Asked;
use eve_smallbank::{Reply, Request};
use eve_views::Trace;

/// An attempt, by its own frame.
pub fn told_attempt(attempt: &AttemptView<'_>) -> ToldAttempt
    ensures { result ≡ told_attempt attempt.now.offset (attempt_decoded attempt.now) }
{
    ToldAttempt {
        batch: attempt.seq(),
        view: attempt.view(),
        serial: attempt.is_serial(),
        at: attempt.offset(),
    }
}

/// A state that was transferred, by its own frame.
pub fn told_transfer(state: &TransferView<'_>) -> ToldTransfer
    ensures { result ≡ told_transfer state.now.offset (transfer_decoded state.now) }
{
    ToldTransfer {
        batch: state.seq(),
        view: state.view(),
        at: state.offset(),
    }
}

/// The request with this index of a batch.
fn asked_at<'a>(batch: &BatchView<'a>, index: usize) -> Asked<'a>
    requires { index < length (batch_decoded batch.now).1.requests }
    ensures { slice_get (batch_decoded batch.now).1.requests index ≡ Some (borrowed_asked result) }
{
    match batch.requests().nth(index) {
        Some(asked) => asked,
        None => unreachable!(),
    }
}

/// The request with this index of a batch, by the batch's number; a request of nobody where there is none.
fn asked_in<'a>(trace: &Trace<'a>, seq: u32, index: u16) -> Asked<'a>
    ensures { borrowed_asked result ≡ request_in trace.now seq index }
{
    let number = seq.max(1);
    if trace.batch_count() < number {
        return asked_by_nobody();
    }
    let batch = trace.batch(number);
    if batch.len() <= index as usize {
        return asked_by_nobody();
    }
    asked_at(&batch, index as usize)
}

/// What stands where no request does.
fn asked_by_nobody<'a>() -> Asked<'a>
    ensures { borrowed_asked result ≡ no_request }
{
    Asked {
        client: 0,
        number: 0,
        request: Request::Balance(&[]),
    }
}

/// Whether a request has this client and number.
pub fn has_id(asked: &Asked<'_>, client: u32, number: u64) -> bool
    ensures yes { IsTrue result → request_id (borrowed_asked asked.now) ≡ (client, number) }
    ensures no { IsFalse result → request_id (borrowed_asked asked.now) ≢ (client, number) }
{
    asked.client == client && asked.number == number
}

/// The request with this index of a batch.
pub fn told_request<'a>(trace: &Trace<'a>, seq: u32, index: u16) -> ToldRequest<'a>
    ensures { IsToldRequest trace.now seq index result }
{
    ToldRequest {
        index,
        batch: seq,
        asked: asked_in(trace, seq, index),
    }
}

/// The reply that an attempt has for the request of an index, or `Done` where it has none.
pub fn reply_of(attempt: &AttemptView<'_>, index: u16) -> Reply
    ensures { result ≡ slice_index_or (attempt_decoded attempt.now).replies index Done }
{
    if (index as usize) < attempt.len() {
        attempt.reply(index as usize)
    } else {
        Reply::Done
    }
}

/// A row with the name of its customer.
pub fn told_row<'a>(trace: &Trace<'a>, row: Row) -> ToldRow<'a>
    ensures { IsToldRow trace.now row result }
{
    let customer = row.number() / 2;
    if customer < trace.customer_count() {
        return ToldRow {
            row,
            name: trace.customer(customer).name(),
        };
    }
    ToldRow { row, name: &[] }
}
