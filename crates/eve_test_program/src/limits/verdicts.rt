//! What audits say of a trace, and where a fault of it has to be.

use crate::bytes::Bytes;
use crate::calls::out_of;
use crate::fault::Fault;
use crate::limits::together::{Matter, judge};
use eve_views::CheckFault;
use std::alloc::Global;
use std::hash::RandomState;
use std::random::RandomSource;
use std::sync::Wait;
use std::thread::Threads;

/// Where a fault has to be: its byte, and the replica in whose section that lies.
#[derive(Clone, Copy)]
pub(crate) struct Spot {
    pub(crate) at: u64,
    pub(crate) replica: Option<u8>,
}

/// Where no fault has to be.
pub(crate) const NOWHERE: Spot = Spot {
    at: 0,
    replica: None,
};

/// The spot at a place that was looked for.
pub(crate) fn spot_at(page: &mut Bytes, place: Option<u64>, replica: Option<u8>) -> Spot {
    match place {
        Some(at) => Spot { at, replica },
        None => {
            page.fail(Fault::Frame);
            NOWHERE
        }
    }
}

/// What the line of a no ends with where its fault is at a spot.
fn ending(alloc: Global, spot: Spot) -> Bytes {
    let mut text = Bytes::none(alloc);
    text.number(" at byte ", spot.at);
    if let Some(replica) = spot.replica {
        text.number(", replica ", u64::from(replica));
    }
    text.words("\n");
    text
}

/// How many workers audit.
static WORKERS: [&str; 3] = ["1", "3", "16"];

/// Writes what an audit by each number of workers says, with the word `there` where it names the spot that it has to.
pub(crate) fn tell<R: AllocGlobal + RandomSource + Threads + Wait + Sync>(
    rt: &R,
    page: &mut Bytes,
    name: &str,
    trace: &Bytes,
    spot: Spot,
) {
    page.fail_as(trace);
    let place = ending(rt.alloc(), spot);
    page.fail_as(&place);
    for workers in &WORKERS {
        page.words(name);
        page.words(", by ");
        page.words(workers);
        page.words(": ");
        let line = out_of(
            rt,
            &["eve", "audit", "--workers", *workers],
            trace.written(),
        );
        page.fail_as(&line);
        tell_line(page, line.written(), place.written());
    }
}

/// Writes the line of an audit, with the word `there` where it ends with this place.
fn tell_line(page: &mut Bytes, line: &[u8], place: &[u8]) {
    match line.strip_suffix(place) {
        Some(prefix) => {
            page.append(prefix);
            page.words(" there\n");
        }
        None => page.append(line),
    }
}

/// What a call is asked that judges all replicas, and where it has to find its fault.
#[derive(Clone, Copy)]
pub(crate) struct Asked {
    pub(crate) name: &'static str,
    pub(crate) matter: Matter,
    pub(crate) spot: Spot,
}

/// Writes what such a call finds, with the word `there` where it is at the spot that it has to be.
pub(crate) fn tell_call<R: AllocGlobal + RandomSource + Threads + Sync>(
    rt: &R,
    page: &mut Bytes,
    trace: &Bytes,
    asked: &Asked,
) {
    let Asked { name, matter, spot } = *asked;
    let random = match RandomState::new(rt) {
        Ok(random) => random,
        Err(why) => {
            page.fail(Fault::from(why));
            return;
        }
    };
    let (what, place) = match judge(rt, trace.written(), matter, random) {
        Ok(()) => ("no fault", "\n"),
        Err(CheckFault::Found(fault)) => {
            let is_there = fault.offset == spot.at && fault.replica == spot.replica;
            let place = if is_there { " there\n" } else { " elsewhere\n" };
            (fault.code.name(), place)
        }
        Err(CheckFault::Memory) => ("no memory", "\n"),
    };
    page.words(name);
    page.words(": ");
    page.words(what);
    page.words(place);
}
