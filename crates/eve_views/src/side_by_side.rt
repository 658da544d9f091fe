//! The walk over a trace, with the bodies of batches, attempts, access records and transfers judged side by side.

ghost use Rattle.std.specs.Prelude.{◌≡◌, ◌≤◌, length, take, IsTrue, IfOk, IfErr, IfSome};
ghost use denote.Param.Send.{IsSync};
ghost use Rattle.eve_grammar.specs.Kinds.{kind_byte};
ghost use Rattle.eve_grammar.specs.Limits.{row_count};
ghost use Rattle.eve_views.specs.Form.{SaysHead, IfFound, StandsInForm, IsFaultOutside};
ghost use Rattle.eve_views.specs.Indexes.{IsIndex};
ghost use Rattle.eve_views.specs.inner.SideBySide.{is_right_body, IsRightFrame, AreRightFrames};
ghost use Rattle.eve_views.specs.inner.SideBySide.{IsWalkedUnjudged, WalksOn};

use crate::cut::{part_at, part_size};
use crate::fault::CheckFault;
use crate::progress::Progress;
use crate::walk::{Index, index_of, kind_and_body};
use eve_grammar::{
    FrameKind, HEADER_LEN, Head, MOST_BYTES, MOST_ROWS, batch_number, certificate_len,
    is_access_body, is_transfer_body,
};
use std::alloc::{AllocError, Global};
use std::thread;
use std::thread::Threads;

/// The fewest bytes for each thread.
const LEAST_BYTES: usize = 1 << 16;

/// Whether it is a body of this kind, where that is a batch, an attempt, an access record or a transfer. There are this
/// many rows.
fn is_right_body(rows: u32, kind: FrameKind, body: &[u8]) -> bool
    requires { rows ≤ MOST_ROWS }
    ensures { result ≡ is_right_body rows (kind_byte kind) body.now }
{
    match kind {
        FrameKind::Access => is_access_body(rows, body),
        FrameKind::Attempt => certificate_len(body).is_some(),
        FrameKind::Batch => batch_number(body).is_some(),
        FrameKind::Transfer => is_transfer_body(rows, body),
        _ => true,
    }
}

/// The same of the body of the frame at the beginning of the bytes; no, where there is none.
fn is_right_frame(rows: u32, bytes: &[u8]) -> bool
    requires { rows ≤ MOST_ROWS }
    ensures { IsTrue result → IsRightFrame rows bytes.now }
{
    match kind_and_body(bytes) {
        Some((kind, body)) => is_right_body(rows, kind, body),
        None => false,
    }
}

/// Whether the frames at these offsets have right bodies, where they are batches, attempts, access records or
/// transfers.
fn are_right_frames(rows: u32, bytes: &[u8], offsets: &[u32]) -> bool
    requires { rows ≤ MOST_ROWS }
    ensures { IsTrue result → AreRightFrames rows bytes.now offsets.now }
{
    for offset in offsets {
        let at = *offset as usize;
        if bytes.len() < at || !is_right_frame(rows, &bytes[at..]) {
            return false;
        }
    }
    true
}

/// The same, by `threads` threads, the caller among them: each with a stretch of the offsets, as long as the others'.
fn are_right<R: Threads + Sync>(
    rt: &R,
    rows: u32,
    bytes: &[u8],
    offsets: &[u32],
    threads: usize,
) -> bool
    requires { rows ≤ MOST_ROWS }
    ensures { IsTrue result → AreRightFrames rows bytes.now offsets.now }
{
    if threads < 2 {
        return are_right_frames(rows, bytes, offsets);
    }
    let fewer = threads / 2;
    let others = threads - fewer;
    let size = part_size(offsets.len(), threads, 1);
    let (prefix, back) = offsets.split_at(part_at(offsets.len(), size, fewer).from);
    let (first, second) = thread::join(
        rt,
        || -> bool
            requires { IsSync R.row × (rows ≤ MOST_ROWS) }
            ensures { IsTrue result → AreRightFrames rows bytes.entry.now prefix.entry.now }
        { are_right(rt, rows, bytes, prefix, fewer) },
        || -> bool
            requires { IsSync R.row × (rows ≤ MOST_ROWS) }
            ensures { IsTrue result → AreRightFrames rows bytes.entry.now back.entry.now }
        { are_right(rt, rows, bytes, back, others) },
    );
    first && second
}

/// Whether the frames at these offsets have right bodies, in threads; and what the walk finds that goes on from there
/// to the end, by the caller beside them.
fn judge_and_go_on<R: Threads + Sync>(
    rt: &R,
    head: Head,
    bytes: &[u8],
    found: Vec<u32>,
    walked: Progress,
    fewer: usize,
) -> (bool, Result<Option<Progress>, AllocError>)
    requires says { SaysHead bytes.now head }
    requires length { length bytes.now ≤ MOST_BYTES }
    requires walked { IsWalkedUnjudged head bytes.now walked }
    ensures right { IsTrue result.0 → AreRightFrames (row_count head) bytes.now found.items }
    ensures walked { IfOk result.1 (λ found. IfSome found (IsWalkedUnjudged head bytes.now)) }
    ensures kept { IfOk result.1 (λ found. IfSome found (WalksOn walked)) }
{
    let rows = 2 * head.customers;
    let judge = move || -> bool
        requires { IsSync R.row × (rows ≤ MOST_ROWS) }
        ensures { IsTrue result → AreRightFrames rows bytes.entry.now found.items }
    { are_right(rt, rows, bytes, found.as_slice(), fewer) };
    let go_on = move || -> Result<Option<Progress>, AllocError>
        requires says { SaysHead bytes.now head }
        requires length { length bytes.now ≤ MOST_BYTES }
        requires walked { IsWalkedUnjudged head bytes.now walked }
        ensures walked { IfOk result (λ found. IfSome found (IsWalkedUnjudged head bytes.entry.now)) }
        ensures kept { IfOk result (λ found. IfSome found (WalksOn walked)) }
    { walked.go_on(head, bytes, usize::MAX) };
    thread::join(rt, judge, go_on)
}

/// Goes on to the end, while all threads but one judge the bodies of the frames that were found before; nothing where
/// anything is wrong.
fn go_on_and_judge<R: Threads + Sync>(
    rt: &R,
    alloc: Global,
    head: Head,
    bytes: &[u8],
    walked: Progress,
    threads: usize,
) -> Result<Option<Progress>, AllocError>
    requires says { SaysHead bytes.now head }
    requires length { length bytes.now ≤ MOST_BYTES }
    requires walked { IsWalkedUnjudged head bytes.now walked }
    requires threads { 1 ≤ threads }
    ensures walked { IfOk result (λ found. IfSome found (IsWalkedUnjudged head bytes.now)) }
    ensures there { IfOk result (λ found. IfSome found (λ on.
        length walked.offsets.items ≤ length on.offsets.items)) }
    ensures judged { IfOk result (λ found. IfSome found (λ on.
        AreRightFrames (row_count head) bytes.now (take (length walked.offsets.items) on.offsets.items))) }
{
    let before = Vec::from_slice(alloc, walked.offsets.as_slice())?;
    let (right, found) = judge_and_go_on(rt, head, bytes, before, walked, threads - 1);
    let Some(on) = found? else {
        return Ok(None);
    };
    if right { Ok(Some(on)) } else { Ok(None) }
}

/// The frames up to the end, which was reached, with the bodies judged that weren't yet, by `threads` threads; nothing
/// where anything is wrong.
fn judge_behind<R: Threads + Sync>(
    rt: &R,
    head: Head,
    bytes: &[u8],
    walked: Progress,
    judged: usize,
    threads: usize,
) -> Option<Index>
    requires says { SaysHead bytes.now head }
    requires walked { IsWalkedUnjudged head bytes.now walked }
    requires there { judged ≤ length walked.offsets.items }
    requires judged { AreRightFrames (row_count head) bytes.now (take judged walked.offsets.items) }
    ensures { IfSome result (IsIndex head bytes.now) }
{
    let (_, behind) = walked.offsets.as_slice().split_at(judged);
    if are_right(rt, 2 * head.customers, bytes, behind, threads) {
        walked.ended(head, bytes)
    } else {
        None
    }
}

/// Finds the frames after a header, with the bodies of batches, attempts, access records and transfers judged in
/// threads; nothing where anything is wrong.
///
/// The caller walks over the customers and the batches, which have most bytes in few frames. The other threads judge
/// their bodies while the caller walks on. All of them judge the bodies that are left.
fn index_judged<R: Threads + Sync>(
    rt: &R,
    alloc: Global,
    head: Head,
    bytes: &[u8],
    threads: usize,
) -> Result<Option<Index>, AllocError>
    requires says { SaysHead bytes.now head }
    requires header { HEADER_LEN ≤ length bytes.now }
    requires length { length bytes.now ≤ MOST_BYTES }
    requires threads { 1 ≤ threads }
    ensures { IfOk result (λ found. IfSome found (IsIndex head bytes.now)) }
{
    let most = head.customers as usize + head.batches as usize;
    let Some(walked) = Progress::start(alloc, head).go_on(head, bytes, most)? else {
        return Ok(None);
    };
    let count = walked.offsets.len();
    let found = go_on_and_judge(rt, alloc, head, bytes, walked, threads)?;
    let Some(on) = found else {
        return Ok(None);
    };
    Ok(judge_behind(rt, head, bytes, on, count, threads))
}

/// Finds the frames after a header, with the bodies of batches, attempts, access records and transfers judged in
/// threads; nothing where anything is wrong, or where one thread is enough.
///
/// There are as many threads as jobs, or fewer where a thread would have too little.
fn index_by_threads<R: Threads + Sync>(
    rt: &R,
    alloc: Global,
    head: Head,
    bytes: &[u8],
    jobs: u8,
) -> Result<Option<Index>, AllocError>
    requires says { SaysHead bytes.now head }
    requires header { HEADER_LEN ≤ length bytes.now }
    requires length { length bytes.now ≤ MOST_BYTES }
    ensures { IfOk result (λ found. IfSome found (IsIndex head bytes.now)) }
{
    let threads = usize::from(jobs).min(bytes.len() / LEAST_BYTES);
    if threads < 2 {
        return Ok(None);
    }
    index_judged(rt, alloc, head, bytes, threads)
}

/// Finds the frames after a header, or the first fault among them, as `index_of` does, with up to `jobs` jobs.
///
/// For two threads or more the caller walks over the frames without judging the bodies of batches, attempts, access
/// records and transfers, which are most of a trace; those of batches are judged beside the rest of the walk, the
/// others after it. Only where that way finds something wrong, the frames are walked again from the start, one by one,
/// for the first fault.
pub fn index_side_by_side<R: Threads + Sync>(
    rt: &R,
    alloc: Global,
    head: Head,
    bytes: &[u8],
    jobs: u8,
) -> Result<Index, CheckFault>
    requires says { SaysHead bytes.now head }
    requires header { HEADER_LEN ≤ length bytes.now }
    requires length { length bytes.now ≤ MOST_BYTES }
    ensures found { IfOk result (IsIndex head bytes.now) }
    ensures fault { IfErr result (λ e. IfFound e (IsFaultOutside StandsInForm bytes.now)) }
{
    if let Some(index) = index_by_threads(rt, alloc, head, bytes, jobs)? {
        return Ok(index);
    }
    index_of(alloc, head, bytes)
}
