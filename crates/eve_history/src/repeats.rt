//! The first batch with a request that occurs earlier, found by sorting.

ghost use Rattle.std.specs.Prelude.{◌≡◌, ◌++◌, length, IfOk, OnOk, IfSome, IfNone};
ghost use Rattle.eve_frames.specs.Decoded.{batch_decoded};
ghost use Rattle.eve_history.specs.Order.{HasDistinctRequests};
ghost use Rattle.eve_views.specs.Order.{AreInOrder};
ghost use Rattle.eve_history.specs.inner.Repeats.{arrivals_at, arrivals_of, is_same};
ghost use Rattle.eve_history.specs.inner.Repeats.{IsNoLaterArrival, NoneOccursTwice, IsFirstTwice, IsFirstRepeat};

use eve_frames::BatchView;
use eve_views::{Trace, lower};
use std::alloc::{AllocError, Global};

/// A request that came: its client, the client's number for it, and the number of its batch, from 1.
///
/// They are sorted by number, then by client, then by batch: so equal requests stand side by side.
#[derive(Clone, Copy, PartialEq, Eq, PartialOrd, Ord)]
struct Arrival {
    number: u64,
    client: u32,
    batch: u32,
}

/// How many requests there are.
fn request_count(trace: &Trace<'_>) -> usize
    ensures { result ≡ length (arrivals_of trace.now) }
{
    trace.recall_limits();
    let mut count = 0;
    for i in 0..trace.head().batches {
        count += trace.batch(i + 1).len();
    }
    count
}

/// Notes the requests of a batch, in their order.
fn note(arrivals: &mut Vec<Arrival>, batch: &BatchView<'_>) -> Result<(), AllocError>
    ensures { OnOk result (arrivals.new.items
        ≡ arrivals.old.items ++ arrivals_at (batch.now.offset, batch_decoded batch.now)) }
{
    let batch_number = batch.seq();
    for asked in batch.requests() {
        arrivals.push(Arrival {
            number: asked.number,
            client: asked.client,
            batch: batch_number,
        })?;
    }
    Ok(())
}

/// The requests of all batches, in their order. Memory is asked for once.
fn arrivals_in(alloc: Global, trace: &Trace<'_>) -> Result<Vec<Arrival>, AllocError>
    ensures { IfOk result (λ arrivals. arrivals.items ≡ arrivals_of trace.now) }
{
    trace.recall_limits();
    let mut arrivals = Vec::with_capacity(alloc, request_count(trace))?;
    for i in 0..trace.head().batches {
        note(&mut arrivals, &trace.batch(i + 1))?;
    }
    Ok(arrivals)
}

/// Whether two requests are of one client and number.
fn is_same(a: Arrival, b: Arrival) -> bool
    ensures { result ≡ is_same a b }
{
    a.number == b.number && a.client == b.client
}

/// The least batch that, with those before it, has a request twice.
fn first_twice(arrivals: &[Arrival]) -> Option<u64>
    requires { AreInOrder IsNoLaterArrival arrivals.now }
    ensures none { IfNone result (NoneOccursTwice arrivals.now) }
    ensures first { IfSome result (IsFirstTwice arrivals.now) }
{
    let mut first = None;
    for i in 1..arrivals.len() {
        if is_same(arrivals[i - 1], arrivals[i]) {
            first = lower(first, arrivals[i].batch as u64);
        }
    }
    first
}

/// The number, from 1, of the first batch with a request that occurs earlier, in the batch or before it.
///
/// It keeps 16 bytes a request, and takes the time of a sort whatever the requests are.
pub(crate) fn first_repeat(alloc: Global, trace: &Trace<'_>) -> Result<Option<u64>, AllocError>
    ensures none { IfOk result (λ found. IfNone found (HasDistinctRequests trace.now)) }
    ensures first { IfOk result (λ found. IfSome found (IsFirstRepeat trace.now)) }
{
    let mut arrivals = arrivals_in(alloc, trace)?;
    arrivals.sort_unstable();
    Ok(first_twice(&arrivals))
}
