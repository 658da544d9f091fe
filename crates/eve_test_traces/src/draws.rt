//! Traces that are drawn of a trace: with other values in entries at random places.

ghost use Rattle.std.specs.Prelude.{◌<◌};

use eve_frames::AccessView;
use eve_history::History;
use eve_smallbank::{Entry, Kind};
use eve_testing::{Draws, Text};
use eve_views::{CheckFault, Trace};
use std::alloc::Global;

/// Where a frame's body begins behind its first byte, and where the first entry does in an Access frame's body.
const ENTRIES: usize = 5 + 6;

/// The bytes of an entry.
const ENTRY: usize = 29;

/// A number below the limit.
fn below(random: &mut Draws, limit: usize) -> usize
    requires { 0 < limit }
    ensures { result < limit }
{
    (random.bits() >> 32) as usize % limit
}

/// A byte of an entry is one higher or lower, modulo 256.
fn shift(bytes: &mut [u8], at: usize, higher: bool) {
    if let Some(byte) = bytes.get_mut(at) {
        *byte = if higher {
            byte.wrapping_add(1)
        } else {
            byte.wrapping_sub(1)
        };
    }
}

/// Changes a value of the entry whose bytes begin at a place: its version, what it saw, what it left, or its row. What
/// a read leaves stays what it saw.
fn change(bytes: &mut [u8], at: usize, entry: &Entry, random: &mut Draws) {
    let higher = below(random, 2) == 0;
    match below(random, 8) {
        0 | 1 => shift(bytes, at.saturating_add(12), higher),
        2 => shift(bytes, at.saturating_add(3), higher),
        3 | 4 | 5 if entry.kind == Kind::Write => shift(bytes, at.saturating_add(28), higher),
        _ => {
            shift(bytes, at.saturating_add(20), higher);
            if entry.kind == Kind::Read {
                shift(bytes, at.saturating_add(28), higher);
            }
        }
    }
}

/// Changes one of a record's entries.
fn change_record(bytes: &mut [u8], access: &AccessView<'_>, random: &mut Draws) {
    let count = access.len();
    if count == 0 {
        return;
    }
    let k = below(random, count);
    let at = access.offset() as usize;
    change(
        bytes,
        at.saturating_add(ENTRIES)
            .saturating_add(ENTRY.saturating_mul(k)),
        &access.entry(k),
        random,
    );
}

/// Changes an entry of one of a replica's records.
fn change_history(bytes: &mut [u8], history: &History, random: &mut Draws) {
    let attempts = history.attempts();
    if attempts == 0 {
        return;
    }
    let i = below(random, attempts);
    let records = history.attempt(i).len();
    if records == 0 {
        return;
    }
    let place = below(random, records);
    let access = history.ordered(i, place);
    change_record(bytes, &access, random);
}

/// The trace's bytes with one to four entries changed, each of a replica that is drawn.
pub fn draw(
    alloc: Global,
    trace: &Trace,
    histories: &[History],
    random: &mut Draws,
) -> Option<Vec<u8>> {
    let mut bytes = trace.bytes().to_vec(alloc).ok()?;
    let count = histories.len();
    if count == 0 {
        return Some(bytes);
    }
    for _ in 0..1 + below(random, 4) {
        let e = below(random, count);
        change_history(bytes.as_mut_slice(), &histories[e], random);
    }
    Some(bytes)
}

/// What each replica with a right section did.
pub fn histories<'a>(text: &mut Text, alloc: Global, trace: &Trace<'a>) -> Vec<History<'a>> {
    trace.recall_limits();
    let mut all = Vec::new(alloc);
    for e in 0..trace.section_count() {
        match History::of(alloc, trace, e) {
            Ok(history) => {
                if all.push(history).is_err() {
                    text.refused();
                }
            }
            Err(CheckFault::Found(_)) => {}
            Err(CheckFault::Memory) => text.refused(),
        }
    }
    all
}
