//! Traces whose last replies are sent again, and where the last one is; traces with a customer more.

use crate::bytes::Bytes;
use std::alloc::Global;

/// How long the frames at the end of a trace are: of a reply sent, and of the end.
const SENT: usize = 31;

const END: usize = 5;

/// Where the header says how many bytes a trace has, and what follows that.
const TOTAL: usize = 24;

const BEHIND_TOTAL: usize = TOTAL + 8;

/// Where the header says how many customers there are.
const CUSTOMERS: usize = 16;

/// Where the name of the first customer begins, and where a frame of one whose name has two bytes ends.
const FIRST_NAME: usize = BEHIND_TOTAL + 6;

const BEHIND_FIRST: usize = FIRST_NAME + 2 + 16;

/// The bytes from one place to another, if they are there.
fn part(bytes: &[u8], from: usize, to: usize) -> &[u8] {
    bytes.get(from..to).unwrap_or(&[])
}

/// The trace with its last `count` replies sent once more.
pub(crate) fn sent_again(alloc: Global, trace: &[u8], count: usize) -> Bytes {
    let end = trace.len().saturating_sub(END);
    let from = end.saturating_sub(count.saturating_mul(SENT));
    let total = trace.len().saturating_add(end.saturating_sub(from)) as u64;
    let mut longer = Bytes::none(alloc);
    longer.append(part(trace, 0, TOTAL));
    longer.append(&total.to_be_bytes());
    longer.append(part(trace, BEHIND_TOTAL, end));
    longer.append(part(trace, from, end));
    longer.append(part(trace, end, trace.len()));
    longer
}

/// The byte at which the last reply sent begins.
pub(crate) fn last_sent(trace: &[u8]) -> u64 {
    trace.len().saturating_sub(END + SENT) as u64
}

/// The trace with `count` customers, one more: the first, `c0`, stands once more in front, as `d0`.
pub(crate) fn with_another_customer(alloc: Global, trace: &[u8], count: u32) -> Bytes {
    let total = trace.len().saturating_add(BEHIND_FIRST - BEHIND_TOTAL) as u64;
    let mut longer = Bytes::none(alloc);
    longer.append(part(trace, 0, CUSTOMERS));
    longer.append(&count.to_be_bytes());
    longer.append(part(trace, CUSTOMERS + 4, TOTAL));
    longer.append(&total.to_be_bytes());
    longer.append(part(trace, BEHIND_TOTAL, FIRST_NAME));
    longer.append(b"d");
    longer.append(part(trace, FIRST_NAME + 1, BEHIND_FIRST));
    longer.append(part(trace, BEHIND_TOTAL, trace.len()));
    longer
}
