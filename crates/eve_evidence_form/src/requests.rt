//! What shows that a request stands twice.

ghost use Rattle.std.specs.Prelude.{◌≡◌, ◌<◌, ◌≤◌, ◌↔◌, ℕ, ◌++◌, IfSome, IfNone, IfOk, IsTrue, IsFalse};
ghost use Rattle.std.specs.Prelude.{length, take, slice_get, Some};
ghost use Rattle.std.specs.List.{flat_map};
ghost use Rattle.eve_grammar.specs.Trace.{Batch as BatchValue, RequestId as RequestIdValue};
ghost use Rattle.eve_grammar.specs.Spelling.{batches_at};
ghost use Rattle.eve_grammar.specs.declared.limits.TheConstants.{MOST_REQUESTS};
ghost use Rattle.eve_frames.specs.Decoded.{batch_decoded};
ghost use Rattle.eve_views.specs.declared.fault.Code.TheVariants as code;
ghost use Rattle.eve_evidence_form.specs.Requests.{requests_listed, NoneAsked, IsFirstAsked};
ghost use Rattle.eve_evidence_form.specs.Requests.{NoneAgain, IsFirstAgain, IsRequestAgain};
ghost use Rattle.eve_evidence_form.specs.Requests.{is_in_set, LeavesUnasked, HasUnasked};
ghost use Rattle.eve_history.specs.Order.{StandsInOrders};

use eve_evidence::{ToldRequest, has_id};
use eve_frames::BatchView;
use eve_views::Trace;
use std::alloc::{AllocError, Global};
use std::collections::BTreeSet;

/// A request's client, and the client's number for it.
type RequestId = (u32, u64);

/// The first request that has a client and a number.
#[derive(Clone, Copy)]
pub struct FirstAsked<'a> {
    /// The request.
    pub request: ToldRequest<'a>,
    /// The byte at which its batch's frame begins.
    pub at: u64,
}

/// A request whose client and number stand twice.
#[derive(Clone, Copy)]
pub struct AskedAgain<'a> {
    /// The request.
    pub request: ToldRequest<'a>,
    /// The first that has them.
    pub first: FirstAsked<'a>,
}

/// The first of the first `count` requests of a batch that has this client and number, if one does.
fn first_in<'a>(
    batch: &BatchView<'a>,
    count: usize,
    client: u32,
    number: u64,
) -> Option<FirstAsked<'a>>
    requires { length (batch_decoded batch.now).1.requests ≤ MOST_REQUESTS }
    ensures first { IfSome result (λ f. IsFirstAsked (client, number)
        (take count (requests_listed (batch.now.offset, batch_decoded batch.now))) f.request f.at) }
    ensures none { IfNone result (NoneAsked (client, number)
        (take count (requests_listed (batch.now.offset, batch_decoded batch.now)))) }
{
    let mut index: u16 = 0;
    for asked in batch.requests() {
        if count <= index as usize {
            return None;
        }
        if has_id(&asked, client, number) {
            return Some(FirstAsked {
                request: ToldRequest {
                    index,
                    batch: batch.seq(),
                    asked,
                },
                at: batch.offset(),
            });
        }
        index += 1;
    }
    None
}

/// The first request of the first `n` batches that has this client and number, if one does.
fn first_before<'a>(trace: &Trace<'a>, n: u32, client: u32, number: u64) -> Option<FirstAsked<'a>>
    requires { n ≤ length trace.now.batches }
    ensures first { IfSome result (λ f. IsFirstAsked (client, number)
        (flat_map requests_listed (take n (batches_at trace.now))) f.request f.at) }
    ensures none { IfNone result (NoneAsked (client, number)
        (flat_map requests_listed (take n (batches_at trace.now)))) }
{
    trace.recall_limits();
    for i in 0..n {
        let batch = trace.batch(i + 1);
        if let Some(first) = first_in(&batch, batch.len(), client, number) {
            return Some(first);
        }
    }
    None
}

/// The ids of a batch's requests.
fn ids_of(alloc: Global, batch: &BatchView<'_>) -> Result<BTreeSet<RequestId>, AllocError>
    ensures { IfOk result (λ ids. (id : RequestIdValue) → IsFalse (is_in_set ids id)
        → NoneAsked id (requests_listed (batch.now.offset, batch_decoded batch.now))) }
{
    let mut ids = BTreeSet::new(alloc);
    for asked in batch.requests() {
        ids.insert((asked.client, asked.number))?;
    }
    Ok(ids)
}

/// Takes the ids of a batch's requests out of the set.
fn take_out(ids: &mut BTreeSet<RequestId>, batch: &BatchView<'_>)
    ensures { LeavesUnasked ids.old (requests_listed (batch.now.offset, batch_decoded batch.now)) ids.new }
{
    for asked in batch.requests() {
        ids.remove(&(asked.client, asked.number));
    }
}

/// Takes the ids of the requests of the first `n` batches out of the set.
fn take_out_before(ids: &mut BTreeSet<RequestId>, trace: &Trace<'_>, n: u32)
    requires { n ≤ length trace.now.batches }
    ensures { LeavesUnasked ids.old (flat_map requests_listed (take n (batches_at trace.now))) ids.new }
{
    for i in 0..n {
        let batch = trace.batch(i + 1);
        take_out(ids, &batch);
    }
}

/// The ids of a batch's requests but those that a request of the first `n` batches has.
fn unasked_before(
    alloc: Global,
    trace: &Trace<'_>,
    n: u32,
    batch: &BatchView<'_>,
) -> Result<BTreeSet<RequestId>, AllocError>
    requires { n ≤ length trace.now.batches }
    ensures { IfOk result (λ ids. HasUnasked (flat_map requests_listed (take n (batches_at trace.now)))
        (requests_listed (batch.now.offset, batch_decoded batch.now)) ids) }
{
    let mut ids = ids_of(alloc, batch)?;
    take_out_before(&mut ids, trace, n);
    Ok(ids)
}

/// The first request that has this client and number, of the first `n` batches and of the first `count` requests of
/// another, if one does. The set says whether one of the first `n` batches has it.
fn earliest<'a>(
    trace: &Trace<'a>,
    n: u32,
    batch: &BatchView<'a>,
    count: usize,
    id: RequestId,
    unasked: &BTreeSet<RequestId>,
) -> Option<FirstAsked<'a>>
    requires there { n ≤ length trace.now.batches }
    requires few { length (batch_decoded batch.now).1.requests ≤ MOST_REQUESTS }
    requires unasked { IsTrue (is_in_set unasked.now id)
        ↔ NoneAsked id (flat_map requests_listed (take n (batches_at trace.now))) }
    ensures first { IfSome result (λ f. IsFirstAsked id (flat_map requests_listed (take n (batches_at trace.now))
        ++ take count (requests_listed (batch.now.offset, batch_decoded batch.now))) f.request f.at) }
    ensures none { IfNone result (NoneAsked id (flat_map requests_listed (take n (batches_at trace.now))
        ++ take count (requests_listed (batch.now.offset, batch_decoded batch.now)))) }
{
    let (client, number) = id;
    if unasked.contains(&id) {
        return first_in(batch, count, client, number);
    }
    first_before(trace, n, client, number)
}

/// The first request of a batch behind the first `n` whose client and number stand earlier, and the earliest that has
/// them, if there is one.
fn again_in<'a>(
    trace: &Trace<'a>,
    n: u32,
    batch: &BatchView<'a>,
    unasked: &BTreeSet<RequestId>,
) -> Option<AskedAgain<'a>>
    requires there { n ≤ length trace.now.batches }
    requires few { length (batch_decoded batch.now).1.requests ≤ MOST_REQUESTS }
    requires unasked { HasUnasked (flat_map requests_listed (take n (batches_at trace.now)))
        (requests_listed (batch.now.offset, batch_decoded batch.now)) unasked.now }
    ensures again { IfSome result (λ x. IsFirstAgain (flat_map requests_listed (take n (batches_at trace.now)))
        (requests_listed (batch.now.offset, batch_decoded batch.now)) x.request x.first.request x.first.at) }
    ensures none { IfNone result (NoneAgain (flat_map requests_listed (take n (batches_at trace.now)))
        (requests_listed (batch.now.offset, batch_decoded batch.now))) }
{
    let mut index: u16 = 0;
    for asked in batch.requests() {
        let id = (asked.client, asked.number);
        if let Some(first) = earliest(trace, n, batch, index as usize, id, unasked) {
            return Some(AskedAgain {
                request: ToldRequest {
                    index,
                    batch: batch.seq(),
                    asked,
                },
                first,
            });
        }
        index += 1;
    }
    None
}

/// The same for the batch behind the first `n`, if its frame begins at this byte.
fn again_at<'a>(
    alloc: Global,
    trace: &Trace<'a>,
    n: u32,
    at: u64,
) -> Result<Option<AskedAgain<'a>>, AllocError>
    requires { n < length trace.now.batches }
    ensures again { IfOk result (λ found. IfSome found (λ x. (b : ℕ × (ℕ × BatchValue))
        → slice_get (batches_at trace.now) n ≡ Some b
        → (b.0 ≡ at) × IsFirstAgain (flat_map requests_listed (take n (batches_at trace.now))) (requests_listed b)
        x.request x.first.request x.first.at)) }
    ensures none { IfOk result (λ found. IfNone found ((b : ℕ × (ℕ × BatchValue))
        → slice_get (batches_at trace.now) n ≡ Some b → b.0 ≡ at
        → NoneAgain (flat_map requests_listed (take n (batches_at trace.now))) (requests_listed b))) }
{
    trace.recall_limits();
    let batch = trace.batch(n + 1);
    if batch.offset() != at {
        return Ok(None);
    }
    let unasked = unasked_before(alloc, trace, n, &batch)?;
    Ok(again_in(trace, n, &batch, &unasked))
}

/// The first request, of the batch whose frame begins at this byte, whose client and number stand earlier, and the
/// earliest that has them.
///
/// docs/MODEL.md, "Evidence". It goes through the requests before the batch twice at most, and keeps the ids of the
/// batch's requests meanwhile.
pub fn asked_again<'a>(
    alloc: Global,
    trace: &Trace<'a>,
    at: u64,
) -> Result<AskedAgain<'a>, AllocError>
    requires { StandsInOrders code.SameRequest trace.now at }
    ensures { IfOk result (λ x. IsRequestAgain trace.now at x.request x.first.request x.first.at) }
{
    for n in 0..trace.batch_count() {
        match again_at(alloc, trace, n, at) {
            Ok(Some(again)) => return Ok(again),
            Ok(None) => {}
            Err(AllocError) => return Err(AllocError),
        }
    }
    unreachable!()
}
