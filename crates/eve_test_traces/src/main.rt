//! Worked traces, as they are and with bytes of theirs changed, and the verdict on each.
//!
//! A line of the input says what is asked, of which file of `data`, and what is changed in it first (`change.rt`). The
//! line is printed again in front of the answer:
//!
//! - `audit FILE CHANGE..`: the verdict, as the status and the line that `eve audit` has for it, by every number of
//!   workers.
//! - `fronts FILE`: the same of each prefix of the file, as it is and with its own total.
//! - `lengths FILE AT`: the same where the frame at byte AT claims another length of its body.
//! - `bytes FILE`: with which values of each byte it is yes.
//! - `each-one-higher FILE`: the verdict with each byte one higher, modulo 256, if two workers come to the same.
//! - `one FILE`: whether `audit_one` accepts it.
//! - `meet FILE`: the audit by two workers, each held at its replica until the other has come to its own.
//! - `walk FILE`: how many sections have no fault of records or chains, how many have one, and of how many `check` or
//!   its `Settled` says something else than a walk along the section over a table of all rows.
//! - `draw FILE COUNT`: the same of COUNT traces with other values in entries at random places.
//! - `agree FILE`: what is found of two replicas together, whatever was voted.
//! - `alone FILE CHANGE..`: what its replicas' rollbacks and tokens come to, each phase by itself.
//! - `tell FILE CHANGE..`: its frames, what is found of its replicas and votes, and what SmallBank on one thread makes
//!   of its batches.
//!
//! The wanted output follows from docs/TRACE.md and docs/MODEL.md, and was written by their rules, not by this program.
#![tactic(auto)]

mod audits;
mod change;
mod draws;
mod findings;
mod frames;
mod histories;
mod meeting;
mod one_thread;
mod phases;
mod ranges;
mod sweeps;
mod texts;
mod walk;
mod walks;

use crate::sweeps::Sweep;
use crate::texts::Missing;
use eve_testing::Text;
use std::fs::Files;
use std::random::RandomSource;
use std::sync::Wait;
use std::thread::Threads;
use std::{fs, io};

/// The bytes of a trace of `data`.
fn bytes_of<R: AllocGlobal + Files>(text: &mut Text, rt: &R, file: &str) -> Option<Vec<u8>> {
    let mut path = Text::new(rt.alloc());
    path.words(file);
    path.words(".trace");
    match fs::read(rt, path.as_str()) {
        Ok(bytes) => Some(bytes),
        Err(_) => {
            text.fail(Missing::Trace.error());
            None
        }
    }
}

/// What a line asks of a trace.
#[derive(Clone, Copy)]
enum Call {
    Sweep(Sweep),
    One,
    Agree,
    Meet,
    Walk,
    Draw,
    Audit,
    Tell,
    Alone,
}

/// A call, and the word that a line has for it.
struct Named(&'static str, Call);

static CALLS: [Named; 12] = [
    Named("fronts", Call::Sweep(Sweep::Prefixes)),
    Named("lengths", Call::Sweep(Sweep::Lengths)),
    Named("bytes", Call::Sweep(Sweep::Bytes)),
    Named("each-one-higher", Call::Sweep(Sweep::Higher)),
    Named("one", Call::One),
    Named("agree", Call::Agree),
    Named("meet", Call::Meet),
    Named("walk", Call::Walk),
    Named("draw", Call::Draw),
    Named("audit", Call::Audit),
    Named("tell", Call::Tell),
    Named("alone", Call::Alone),
];

/// The call that a word asks for.
fn call_of(word: &str) -> Option<Call> {
    for named in &CALLS {
        if named.0 == word {
            return Some(named.1);
        }
    }
    None
}

/// What is said of a trace that is changed first.
fn push_changed_answer<R: AllocGlobal + RandomSource + Threads + Wait + Sync>(
    text: &mut Text,
    rt: &R,
    call: Call,
    bytes: &[u8],
    changes: Option<&str>,
) {
    let Some(bytes) = change::changed(rt.alloc(), bytes, changes) else {
        text.fail(Missing::Changes.error());
        return;
    };
    match call {
        Call::Audit => audits::push_by_all(text, rt, bytes.as_slice()),
        Call::Tell => findings::push_told(text, rt, bytes.as_slice()),
        _ => phases::push_alone(text, rt, bytes.as_slice()),
    }
}

/// What is said of a trace.
fn push_answer<R: AllocGlobal + RandomSource + Threads + Wait + Sync>(
    text: &mut Text,
    rt: &R,
    call: &str,
    bytes: &[u8],
    more: Option<&str>,
) {
    let Some(call) = call_of(call) else {
        text.fail(Missing::Call.error());
        return;
    };
    match call {
        Call::Sweep(sweep) => sweeps::push_swept(text, rt, sweep, bytes, more),
        Call::One => sweeps::push_one(text, rt, bytes),
        Call::Agree => findings::push_agreed(text, rt, bytes),
        Call::Meet => meeting::push_meeting(text, rt, bytes),
        Call::Walk => walks::push_walked(text, rt, bytes),
        Call::Draw => walks::push_drawn(text, rt, bytes, more),
        Call::Audit | Call::Tell | Call::Alone => push_changed_answer(text, rt, call, bytes, more),
    }
}

/// The first of some words, and the others, if there are more.
fn parted(words: &str) -> (&str, Option<&str>) {
    match words.split_once(' ') {
        Some((first, others)) => (first, Some(others)),
        None => (words, None),
    }
}

/// Prints a line, and the answer to it.
fn answer<R: AllocGlobal + Files + Print + RandomSource + Threads + Wait + Sync>(
    rt: &R,
    line: &str,
) -> io::Result<()> {
    let (call, rest) = parted(line);
    let (file, more) = parted(rest.unwrap_or(""));
    let mut text = Text::new(rt.alloc());
    text.words(line);
    text.words(": ");
    if let Some(bytes) = bytes_of(&mut text, rt, file) {
        push_answer(&mut text, rt, call, bytes.as_slice(), more);
    }
    text.words("\n");
    text.print(rt)
}

fn main(rt: HostRuntime) -> io::Result<()> {
    for line in rt.lines(rt.alloc()) {
        let line = line?;
        answer(&rt, line.as_str())?;
    }
    Ok(())
}
