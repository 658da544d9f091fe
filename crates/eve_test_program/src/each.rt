//! What `explain` says beside `audit`, over bytes that differ from a trace's in one place.

use crate::bytes::Bytes;
use crate::calls::{Terms, said};
use crate::fault::Fault;
use std::random::RandomSource;
use std::sync::Wait;
use std::thread::Threads;

/// Whether `explain` says what `audit` says and then more or nothing, with the same status.
fn is_as_audited<R: AllocGlobal + RandomSource + Threads + Wait + Sync>(
    rt: &R,
    bytes: &[u8],
) -> bool {
    let audited = said(rt, &["eve", "audit"], bytes, Terms::fine());
    let explained = said(rt, &["eve", "explain"], bytes, Terms::fine());
    let is = audited.status() == explained.status() && explained.out().starts_with(audited.out());
    drop(audited);
    drop(explained);
    is
}

/// Tells over how many of these bytes `explain` is as `audit` where that one is one higher, modulo 256.
pub(crate) fn tell_each<R: AllocGlobal + RandomSource + Threads + Wait + Sync>(
    rt: &R,
    bytes: &[u8],
    page: &mut Bytes,
) {
    let mut changed = Vec::new(rt.alloc());
    if changed.extend_from_slice(bytes).is_err() {
        page.fail(Fault::Memory);
    }
    let mut same: u64 = 0;
    for at in 0..bytes.len() {
        if let Some(byte) = changed.get_mut(at) {
            *byte = byte.wrapping_add(1);
        }
        if is_as_audited(rt, changed.as_slice()) {
            same = same.saturating_add(1);
        }
        if let Some(byte) = changed.get_mut(at) {
            *byte = byte.wrapping_sub(1);
        }
    }
    drop(changed);
    page.number("  explained as audited: ", same);
    page.number(" of ", bytes.len() as u64);
    page.words("\n");
}
