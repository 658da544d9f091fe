//! The faults of replies.

ghost use Rattle.std.specs.Prelude.{◌≡◌, ◌≢◌, ◌<◌, ◌≤◌, ◌+◌, ℕ, Bool, IsTrue, None, length, slice_index_or};
ghost use Rattle.std.specs.Prelude.{IfSome, IfNone, IfOk, IfErr};
ghost use Rattle.eve_views.specs.Cut.{part_start};
ghost use Rattle.eve_views.specs.Form.{IfFound, IsLeast, HasNone, IsFaultOutside};
ghost use Rattle.eve_views.specs.declared.fault.CheckFault.TheVariants.{Memory};
ghost use Rattle.eve_views.specs.declared.fault.Code.TheVariants as code;
ghost use Rattle.eve_history.specs.SectionHistory.{section_histories};
ghost use Rattle.eve_agree.specs.SentReplies.{AllReplied, AreReplied, IsFirstUnreplied, StandsInReplies};

use crate::batch_replies::BatchReplies;
use eve_history::History;
use eve_views::{CheckFault, Code, Fault, Trace, part_at, part_size};
use std::alloc::{AllocError, Global};
use std::thread;
use std::thread::Threads;

/// Judges the replies that were sent: the replica committed the batch, which has a request of that client under that
/// number, and its reply is the one that was sent; else `Found`, the first that is not so.
///
/// docs/MODEL.md, "Sent replies". It takes no memory, and never answers Memory. Where replies are sent batch by batch,
/// each batch is read once; else a batch is read again for each reply that turns to it from another.
pub fn replies(trace: &Trace<'_>, histories: &[History<'_>]) -> Result<(), CheckFault>
    requires histories { histories.now ≡ section_histories trace.now }
    ensures replied { IfOk result (λ _. AllReplied trace.now) }
    ensures none { IfOk result (λ _. HasNone (IsFaultOutside StandsInReplies trace.now)) }
    ensures least { IfErr result (λ why. IfFound why (IsLeast (IsFaultOutside StandsInReplies trace.now))) }
    ensures found { IfErr result (λ why. why ≢ Memory) }
{
    match first_unreplied(trace, histories, 0, trace.sent_count()) {
        Some(i) => {
            let sent = trace.sent(i);
            Err(CheckFault::Found(fault_at(sent.offset())))
        }
        None => Ok(()),
    }
}

/// The fault of a reply sent.
fn fault_at(offset: u64) -> Fault
    ensures { result ≡ record { code = code.Reply; offset = offset; replica = None } }
{
    Fault {
        code: Code::Reply,
        offset,
        replica: None,
    }
}

/// Of the replies sent from a place on up to another, the place of the first that its replica didn't commit.
fn first_unreplied(
    trace: &Trace<'_>,
    histories: &[History<'_>],
    from: usize,
    to: usize,
) -> Option<usize>
    requires histories { histories.now ≡ section_histories trace.now }
    requires there { to ≤ length trace.now.sent }
    ensures none { IfNone result (AreReplied trace.now from to) }
    ensures some { IfSome result (IsFirstUnreplied trace.now from) }
{
    trace.recall_limits();
    let mut replies = BatchReplies::new();
    for i in from..to {
        let sent = trace.sent(i);
        if !replies.have(trace, histories, &sent) {
            return Some(i);
        }
    }
    None
}

/// Whether the replies of the i-th part were committed, where each part has `size`.
fn is_part_replied(trace: &Trace<'_>, histories: &[History<'_>], size: usize, i: usize) -> bool
    requires histories { histories.now ≡ section_histories trace.now }
    ensures { IsTrue result → AreReplied trace.now (part_start (length trace.now.sent) size i)
        (part_start (length trace.now.sent) size (i + 1)) }
{
    let own = part_at(trace.sent_count(), size, i);
    first_unreplied(trace, histories, own.from, own.to).is_none()
}

/// Whether the replies of each part were committed, each part judged in a thread of its own.
fn are_parts_replied<R: Threads + Sync>(
    rt: &R,
    alloc: Global,
    trace: &Trace<'_>,
    histories: &[History<'_>],
    size: usize,
    parts: usize,
) -> Result<Vec<bool>, AllocError>
    requires histories { histories.now ≡ section_histories trace.now }
    ensures len { IfOk result (λ found. length found.items ≡ parts) }
    ensures each { IfOk result (λ found. (i : ℕ) (d : Bool) → i < length found.items
        → IsTrue (slice_index_or found.items i d) → AreReplied trace.now (part_start (length trace.now.sent) size i)
        (part_start (length trace.now.sent) size (i + 1))) }
{
    thread::map_indices(
        rt,
        alloc,
        parts,
        &|i: usize|
            requires { histories.now ≡ section_histories trace.now }
            ensures { IsTrue result → AreReplied trace.entry.now (part_start (length trace.entry.now.sent) size i)
                (part_start (length trace.entry.now.sent) size (i + 1)) }
        { is_part_replied(trace, histories, size, i) },
    )
}

/// Whether all are true.
fn are_all(parts: &[bool]) -> bool
    ensures { IsTrue result → (i : ℕ) (d : Bool) → i < length parts.now → IsTrue (slice_index_or parts.now i d) }
{
    for part in parts {
        if !*part {
            return false;
        }
    }
    true
}

/// The fewest replies for each thread.
const LEAST_REPLIES: usize = 4096;

/// Whether all replies were committed, judged in as many threads as there are jobs, or in fewer where a thread would
/// have too little.
///
/// Where it says no, nothing is known; it says no where one thread is enough, and where memory is refused.
fn are_all_replied<R: Threads + Sync>(
    rt: &R,
    alloc: Global,
    trace: &Trace<'_>,
    histories: &[History<'_>],
    jobs: u8,
) -> bool
    requires histories { histories.now ≡ section_histories trace.now }
    ensures { IsTrue result → AllReplied trace.now }
{
    let count = trace.sent_count();
    let threads = usize::from(jobs).min(count / LEAST_REPLIES);
    if threads < 2 {
        return false;
    }
    let size = part_size(count, threads, LEAST_REPLIES);
    match are_parts_replied(rt, alloc, trace, histories, size, threads) {
        Ok(parts) => are_all(&parts),
        Err(AllocError) => false,
    }
}

/// Judges the replies that were sent as `replies` does, in up to `jobs` threads: the same answer, `Found` too.
///
/// docs/MODEL.md, "Sent replies". Each thread has a stretch of the replies, 4,096 at least but for the last. With one
/// job, or fewer than 8,192 replies, no thread is started. Where a thread finds a fault, or memory for the threads is
/// refused, all are judged again as `replies` does. So it never answers Memory, and which thread ends first decides
/// nothing.
pub fn replies_side_by_side<R: Threads + Sync>(
    rt: &R,
    alloc: Global,
    trace: &Trace<'_>,
    histories: &[History<'_>],
    jobs: u8,
) -> Result<(), CheckFault>
    requires histories { histories.now ≡ section_histories trace.now }
    ensures replied { IfOk result (λ _. AllReplied trace.now) }
    ensures none { IfOk result (λ _. HasNone (IsFaultOutside StandsInReplies trace.now)) }
    ensures least { IfErr result (λ why. IfFound why (IsLeast (IsFaultOutside StandsInReplies trace.now))) }
    ensures found { IfErr result (λ why. why ≢ Memory) }
{
    if are_all_replied(rt, alloc, trace, histories, jobs) {
        return Ok(());
    }
    replies(trace, histories)
}
